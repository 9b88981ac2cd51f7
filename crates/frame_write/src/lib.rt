// Frames, written into a lent output from a place (transport/frame.rs). The body is written where it stands in the
// frame and hashed there; the bytes before it follow. Each writer asks its questions first and stores only once all are
// answered "yes".
#![tactic(auto)]

ghost use Rattle.std.specs.Prelude.{◌≡◌, ◌+◌, ◌≤◌, length, take, drop};
ghost use Rattle.wire.specs.Output.{written_said, output_after, Wrote};
ghost use Rattle.vlq.specs.Vlq.{limit};
ghost use Rattle.frame.specs.Frame.{frame_bytes};
ghost use Rattle.frame.specs.Writes.{frame_written};
ghost use Rattle.frame_write.specs.Asked.{frame_length, frame_written_for};
ghost use Rattle.frame_write.specs.FrameWriteLaws.{header_bytes};

use frame::{HEADER_SIZE, MIN_HEADER_SIZE};
use types::Network;
use wire::{MAX_BODY_SIZE, Refusal};
use wire_numbers::big_endian_bytes;
use wire_output::ask_room;
use wire_part_write::write_part;

// A frame with this code and body.
#[tactic(auto, using(crate::specs::FrameWriteLaws::frame_asked), unfolding(wire::specs::Output::output_after))]
pub fn encode(
    out: &mut [u8],
    at: usize,
    network: Network,
    code: u8,
    body: &[u8],
) -> Result<usize, Refusal>
    ensures value { written_said result ≡ frame_written network code body.now out.old at }
    ensures out_after { out.new ≡ output_after (written_said result) out.old at (frame_bytes network code body.now) }
{
    let end = ask_frame(out.len(), at, body.len())?;
    put_body(out, at, network, code, body);
    Ok(end)
}

// A frame with this code whose n body bytes stand in the output already, 13 bytes after the place.
#[tactic(auto, using(crate::specs::FrameWriteLaws::frame_asked), unfolding(wire::specs::Output::output_after))]
pub fn close_frame(
    out: &mut [u8],
    at: usize,
    network: Network,
    code: u8,
    n: usize,
) -> Result<usize, Refusal>
    ensures value { written_said result ≡ frame_written_for (length out.old) at n }
    ensures out_after { out.new ≡ output_after (written_said result) out.old at (frame_bytes network code (take n (drop (at + 13) out.old))) }
{
    let end = ask_frame(out.len(), at, n)?;
    put_frame(out, at, network, code, n);
    Ok(end)
}

// What a writer of a frame with a body of n bytes says of an output of len bytes.
#[tactic(auto, unfolding(wire::specs::Output::asked, crate::specs::Asked::frame_written_for))]
pub fn ask_frame(len: usize, at: usize, n: usize) -> Result<usize, Refusal>
    ensures { written_said result ≡ frame_written_for len at n }
{
    if len < at {
        return Err(Refusal::Outside);
    }
    if MAX_BODY_SIZE < n {
        return Err(Refusal::BodyTooLarge);
    }
    ask_room(len, at, frame_len(n))
}

// How many bytes a frame with a body of n bytes has.
#[tactic(auto, using(crate::specs::FrameWriteLaws::frame_lengths))]
fn frame_len(n: usize) -> usize
    requires { n ≤ limit }
    ensures { result ≡ frame_length n }
{
    if 0 < n {
        HEADER_SIZE + n
    } else {
        MIN_HEADER_SIZE
    }
}

// Stores a frame and gives the place after it.
#[tactic(auto, using(crate::specs::FrameWriteLaws::frame_lengths))]
fn put_body(out: &mut [u8], at: usize, network: Network, code: u8, body: &[u8]) -> usize
    requires body_len_bound { length body.now ≤ limit }
    requires body_in_bounds { at + frame_length (length body.now) ≤ length out.old }
    ensures { Wrote out.old at (frame_bytes network code body.now) result out.new }
{
    if !body.is_empty() {
        write_part(out, at + HEADER_SIZE, body).unwrap();
    }
    put_frame(out, at, network, code, body.len())
}

// Stores what a frame has before its body of n bytes, which stands there already, and gives the place after the frame.
#[tactic(auto, using(crate::specs::FrameWriteLaws::frame_lengths))]
fn put_frame(out: &mut [u8], at: usize, network: Network, code: u8, n: usize) -> usize
    requires n_le_limit { n ≤ limit }
    requires n_in_bounds { at + frame_length n ≤ length out.old }
    ensures { Wrote out.old at (frame_bytes network code (take n (drop (at + 13) out.old))) result out.new }
{
    if n == 0 {
        return put_head(out, at, network, code, n);
    }
    let start = at + HEADER_SIZE;
    let check = blake2b_hash::check(&out[start..start + n]);
    let end = put_head(out, at, network, code, n);
    write_part(out, end, &check).unwrap() + n
}

// Stores magic, code and the body length n, and gives the place after them.
fn put_head(out: &mut [u8], at: usize, network: Network, code: u8, n: usize) -> usize
    requires n_le_limit { n ≤ limit }
    requires at_in_bounds { at + 9 ≤ length out.old }
    ensures { Wrote out.old at (header_bytes network code n) result out.new }
{
    let end = write_part(out, at, &network.magic()).unwrap();
    out[end] = code;
    write_part(out, end + 1, &big_endian_bytes::<4>(n as u64)).unwrap()
}
