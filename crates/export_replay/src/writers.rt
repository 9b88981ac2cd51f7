// The writers' cases: a place and the room of the output, then what is written. The answer is the number, the result array and the whole output, which
// holds one byte all over before the call.
use crate::case::Case;
use crate::print;
use crate::tables::{MOST, string, table};
use haspeljo::writers;
use std::io::Result;

// The largest output of a case.
const MAX_ROOM: usize = 640;

#[inline(never)]
pub(crate) fn answer(rt: &impl Print, c: &Case) -> Result<()> {
    let mut out = [0xA5; MAX_ROOM];
    let out = &mut out[..c.usize(1).min(MAX_ROOM)];
    let mut r = [7];
    let m = match c.function {
        35 | 36 | 40 => write_entries(c, out, &mut r),
        37 => build(c, out, &mut r),
        41..=43 => write_list(c, out, &mut r),
        _ => write_bytes(c, out, &mut r),
    };
    print!(rt; " {m} {}", r[0])?;
    print::bytes(rt, out)
}

// Numbers and bytes as they are.
fn write_bytes(c: &Case, out: &mut [u8], r: &mut [u64; 1]) -> u8 {
    let at = c.usize(0);
    match c.function {
        6 => writers::haspeljo_write_vlq(out, at, c.u64(2), r),
        7 => writers::haspeljo_write_short_string(out, at, c.bytes, r),
        8 => writers::haspeljo_write_part(out, at, c.bytes, r),
        38 => writers::haspeljo_encode(out, at, c.u8(2), c.u8(3), c.bytes, r),
        39 => writers::haspeljo_write_get_peers(out, at, c.u8(2), r),
        44 => writers::haspeljo_write_sync_info(out, at, c.u8(2), c.bytes, r),
        _ => writers::haspeljo_write_unknown(out, at, c.u8(2), c.u8(3), c.bytes, r),
    }
}

// Two tables, of entries and of features, and the buffer. A function of its own, as the next, so that no table lies on
// the stack while the answer is printed.
#[inline(never)]
fn write_entries(c: &Case, out: &mut [u8], r: &mut [u64; 1]) -> u8 {
    let mut entries = [0; MOST];
    let mut features = [0; MOST];
    let (e, rest) = table(c.bytes, &mut entries);
    let (f, buffer) = table(rest, &mut features);
    let at = c.usize(0);
    match c.function {
        35 => writers::haspeljo_write_entry(out, at, c.usize(2), e, f, buffer, r),
        36 => writers::haspeljo_write_handshake(out, at, c.u64(3), c.usize(2), e, f, buffer, r),
        _ => writers::haspeljo_write_peers(out, at, c.u8(2), c.usize(3), e, f, buffer, r),
    }
}

// A table of ids or payloads, and the buffer.
#[inline(never)]
fn write_list(c: &Case, out: &mut [u8], r: &mut [u64; 1]) -> u8 {
    let mut list = [0; MOST];
    let (l, buffer) = table(c.bytes, &mut list);
    let at = c.usize(0);
    let (network, kind) = (c.u8(2), c.u8(3));
    match c.function {
        41 => writers::haspeljo_write_modifier_request(out, at, network, kind, l, buffer, r),
        42 => writers::haspeljo_write_modifier_response(out, at, network, kind, l, buffer, r),
        _ => writers::haspeljo_write_inv(out, at, network, kind, l, buffer, r),
    }
}

fn build(c: &Case, out: &mut [u8], r: &mut [u64; 1]) -> u8 {
    let (agent, rest) = string(c.bytes);
    let (name, _) = string(rest);
    writers::haspeljo_build(
        out,
        c.usize(0),
        c.u8(2),
        c.u8(3),
        c.u8(4),
        c.u8(5),
        c.u32(6).cast_signed(),
        c.u8(7),
        c.u8(8),
        c.u8(9),
        c.u8(10),
        c.u64(11),
        c.u64(12),
        c.u16(13),
        c.u64(14),
        c.u64(15).cast_signed(),
        agent,
        name,
        r,
    )
}
