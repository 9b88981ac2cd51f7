// The session walk for Rust and C.
ghost use Rattle.walk.specs.Session.{session_step};
ghost use Rattle.walk_read.specs.Steps.{step_of};
ghost use Rattle.walk_by_index.specs.InStream.{entry_in_stream, id_in_stream, payload_in_stream};
ghost use Rattle.export_arrays.specs.Networks.{network_of};
ghost use Rattle.export_arrays.specs.Entries.{stream_entry_next};
ghost use Rattle.export_arrays.specs.Messages.{stream_id_only, stream_payload_next};
ghost use Rattle.export_arrays.specs.Steps.{StepLeaves};
ghost use Rattle.haspeljo.specs.Results.{ReaderLeaves};

use export_arrays::entries::stream_entry_numbers;
use frame_read::StreamPart;
use types::StreamPlace;

// The step at a place of a session. r is
// 0 and ten zeros at the clean end;
// 1, the start and the end of the handshake, its verdict, and seven zeros;
// 2, the start and the end of the message, its code, the place and length of its body in the session, and of what the body holds the type byte, the
// count, the bogus count and the place of the first in the body, as haspeljo_from_frame has them, and a zero;
// 3, the start of the item where the walk stops, the layer (1 handshake, 2 frame, 3 body), the number, and seven zeros.
pub fn haspeljo_step(s: &[u8], at: usize, mainnet: u8, cap: usize, r: &mut [u64; 11]) -> u8
    ensures { StepLeaves (step_of (network_of mainnet) s.now (session_step (network_of mainnet) cap s.now at)) result
        r.old r.new }
{
    let step = walk_read::step(s, crate::network_of(mainnet), cap, StreamPlace(at));
    export_arrays::steps::step_result(step, r)
}

// An entry of a Peers message of the session, by index, where start and len say where the message's body stands. r is as for
// haspeljo_parse_peer_entry, with the places in the session.
pub fn haspeljo_entry_in_stream(
    s: &[u8],
    start: usize,
    len: usize,
    cap: usize,
    index: usize,
    r: &mut [u64; 15],
) -> u8
    ensures { ReaderLeaves stream_entry_next (entry_in_stream cap index s.now (record { start = record { 0 = start }; len = len })) result
        r.old r.new }
{
    let start = StreamPlace(start);
    match walk_by_index::entry_in_stream(s, StreamPart { start, len }, cap, index) {
        Ok((e, end)) => {
            *r = stream_entry_numbers(e, end.0);
            0
        }
        Err(m) => m.number(),
    }
}

// An id of a ModifierRequest or Inv message of the session, by index: r is its place in the session.
pub fn haspeljo_id_in_stream(
    s: &[u8],
    start: usize,
    len: usize,
    index: usize,
    r: &mut [u64; 1],
) -> u8
    ensures { ReaderLeaves stream_id_only (id_in_stream index s.now (record { start = record { 0 = start }; len = len })) result
        r.old r.new }
{
    let start = StreamPlace(start);
    match walk_by_index::id_in_stream(s, StreamPart { start, len }, index) {
        Ok(p) => {
            *r = [p.0 as u64];
            0
        }
        Err(m) => m.number(),
    }
}

// A payload of a ModifierResponse message of the session, by index. r is as for haspeljo_payload_by_index, with the places in the session.
pub fn haspeljo_payload_in_stream(
    s: &[u8],
    start: usize,
    len: usize,
    index: usize,
    r: &mut [u64; 4],
) -> u8
    ensures { ReaderLeaves stream_payload_next (payload_in_stream index s.now (record { start = record { 0 = start }; len = len })) result
        r.old r.new }
{
    let start = StreamPlace(start);
    match walk_by_index::payload_in_stream(s, StreamPart { start, len }, index) {
        Ok((p, end)) => {
            *r = [
                p.id.0 as u64,
                p.bytes.start.0 as u64,
                p.bytes.len as u64,
                end.0 as u64,
            ];
            0
        }
        Err(m) => m.number(),
    }
}
