// The readers' cases: numbers, then the bytes that are read. The answer is the number and the result array, slot by slot, which holds 7 all over
// before the call. Each function has arguments of its own, so that it is called by its number.
use crate::case::Case;
use crate::print;
use haspeljo::{bodies, frames, handshakes, sessions};
use std::convert::AsSlice;
use std::io::Result;

#[inline(never)]
pub(crate) fn answer(rt: &impl Print, c: &Case) -> Result<()> {
    match c.function {
        1..=5 => answer_field(rt, c, c.bytes, c.usize(0)),
        18..=25 => answer_handshake(rt, c, c.bytes, c.usize(0)),
        26 | 33 | 46..=48 => answer_session(rt, c, c.bytes, c.usize(0)),
        _ => answer_body(rt, c, c.bytes, c.usize(0)),
    }
}

fn answer_field(rt: &impl Print, c: &Case, s: &[u8], at: usize) -> Result<()> {
    match c.function {
        1 => asked(rt, [7; 2], |r| haspeljo::haspeljo_read_byte(s, at, r)),
        2 => asked(rt, [7; 2], |r| haspeljo::haspeljo_read_vlq(s, at, r)),
        3 => asked(rt, [7; 2], |r| haspeljo::haspeljo_read_vlq_length(s, at, r)),
        4 => asked(
            rt,
            [7; 3],
            |r| haspeljo::haspeljo_read_short_string(s, at, r),
        ),
        _ => asked(
            rt,
            [7; 3],
            |r| haspeljo::haspeljo_read_part(s, at, c.usize(1), r),
        ),
    }
}

fn answer_handshake(rt: &impl Print, c: &Case, s: &[u8], at: usize) -> Result<()> {
    match c.function {
        18 => asked(rt, [7; 15], |r| handshakes::haspeljo_parse(s, r)),
        19 => asked(rt, [7; 1], |r| handshakes::haspeljo_measure_size(s, r)),
        20 => asked(
            rt,
            [7; 15],
            |r| handshakes::haspeljo_parse_peer_entry(s, at, r),
        ),
        21 => asked(rt, [7; 4], |r| handshakes::haspeljo_read_feature(s, at, r)),
        22 => asked(
            rt,
            [7; 4],
            |r| handshakes::haspeljo_feature_by_index(s, at, c.usize(1), r),
        ),
        23 => asked(
            rt,
            [7; 2],
            |r| handshakes::haspeljo_validate_peer(s, c.u8(0), r),
        ),
        24 => asked(
            rt,
            [7; 2],
            |r| handshakes::haspeljo_validate_entry(s, at, c.u8(1), r),
        ),
        _ => asked(rt, [7; 4], |r| handshakes::haspeljo_rest_api_url(s, at, r)),
    }
}

fn answer_body(rt: &impl Print, c: &Case, s: &[u8], at: usize) -> Result<()> {
    match c.function {
        27 => asked(
            rt,
            [7; 5],
            |r| bodies::haspeljo_from_frame(s, c.u8(1), at, c.u8(2), r),
        ),
        28 => asked(
            rt,
            [7; 5],
            |r| bodies::haspeljo_parse_peers_body(s, c.u8(1), at, r),
        ),
        29 => asked(
            rt,
            [7; 15],
            |r| bodies::haspeljo_entry_by_index(s, at, c.usize(1), r),
        ),
        30 => asked(rt, [7; 1], |r| bodies::haspeljo_id_by_index(s, at, r)),
        31 => asked(
            rt,
            [7; 5],
            |r| bodies::haspeljo_read_payload(s, at, c.usize(1), r),
        ),
        _ => asked(rt, [7; 4], |r| bodies::haspeljo_payload_by_index(s, at, r)),
    }
}

fn answer_session(rt: &impl Print, c: &Case, s: &[u8], at: usize) -> Result<()> {
    match c.function {
        26 => asked(rt, [7; 4], |r| frames::haspeljo_decode(s, at, c.u8(1), r)),
        33 => asked(
            rt,
            [7; 11],
            |r| sessions::haspeljo_step(s, at, c.u8(1), c.usize(2), r),
        ),
        46 => asked(rt, [7; 15], |r| {
            sessions::haspeljo_entry_in_stream(s, at, c.usize(1), c.usize(2), c.usize(3), r)
        }),
        47 => asked(rt, [7; 1], |r| {
            sessions::haspeljo_id_in_stream(s, at, c.usize(1), c.usize(2), r)
        }),
        _ => asked(rt, [7; 4], |r| {
            sessions::haspeljo_payload_in_stream(s, at, c.usize(1), c.usize(2), r)
        }),
    }
}

// The answer of a call with a result array.
fn asked<A: AsSlice<u64> + Drop, F: FnOnce(&mut A) -> u8>(
    rt: &impl Print,
    mut r: A,
    call: F,
) -> Result<()>
    requires { (r : _) → F.pre call r }
{
    let m = call(&mut r);
    print!(rt; " {m}")?;
    print::numbers(rt, r.as_slice())
}
