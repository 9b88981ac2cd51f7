// Frames, read from lent bytes (transport/frame.rs).
#![tactic(auto)]

ghost use Rattle.std.specs.Prelude.{◌≡◌, ◌≤◌, length};
ghost use Rattle.wire.specs.Reader.{map_answer};
ghost use Rattle.vlq.specs.Vlq.{limit};
ghost use Rattle.frame.specs.Frame.{body, frame};
ghost use Rattle.frame_read.specs.Answers.{stream_part_of, frame_of};
ghost use Rattle.types.specs.Answers.{stream_answer};

use frame::MIN_HEADER_SIZE;
use types::{Network, StreamPlace, StreamRead};
use wire::{MAX_BODY_SIZE, Refusal};
use wire_numbers::big_endian;

const CHECK_SIZE: usize = 4;

// Consecutive bytes of the stream: where they start, and how many they are.
#[derive(Clone, Copy)]
pub struct StreamPart {
    pub start: StreamPlace,
    pub len: usize,
}

// What is read of a frame: its code, and where its body stands.
#[derive(Clone, Copy)]
pub struct Frame {
    pub code: u8,
    pub body: StreamPart,
}

// The frame at a place; bytes after it are ignored.
#[tactic(auto, using(crate::proofs::AnswerLaws::frame_answers))]
pub fn decode(s: &[u8], network: Network, at: StreamPlace) -> StreamRead<Frame>
    ensures { stream_answer result ≡ map_answer frame_of (frame network s.now at.0) }
{
    let start = at.0;
    if s.len() < start {
        return Err(Refusal::Outside);
    }
    if s.len() - start < MIN_HEADER_SIZE {
        return Err(Refusal::FrameTooShort);
    }
    let magic = network.magic();
    if !wire::matches_at(s, start, magic) {
        return Err(Refusal::BadMagic);
    }
    let n = big_endian::<4>(&s[start + 5..start + MIN_HEADER_SIZE]) as usize;
    if MAX_BODY_SIZE < n {
        return Err(Refusal::BodyTooLarge);
    }
    let code = s[start + 4];
    let (body, end) = read_body(s, start + MIN_HEADER_SIZE, n)?;
    Ok((Frame { code, body }, end))
}

// A check and the body of n bytes; an empty body has no check.
#[tactic(auto, using(crate::proofs::AnswerLaws::body_answers))]
fn read_body(s: &[u8], at: usize, n: usize) -> StreamRead<StreamPart>
    requires { (at ≤ length s.now) × (n ≤ limit) }
    ensures { stream_answer result ≡ map_answer stream_part_of (body n s.now at) }
{
    if n == 0 {
        let start = StreamPlace(at);
        return Ok((StreamPart { start, len: n }, start));
    }
    if s.len() - at < CHECK_SIZE + n {
        return Err(Refusal::FrameTruncated);
    }
    let start = at + CHECK_SIZE;
    let end = start + n;
    let check = blake2b_hash::check(&s[start..end]);
    if !wire::matches_at(s, at, check) {
        return Err(Refusal::ChecksumMismatch);
    }
    let body = StreamPart {
        start: StreamPlace(start),
        len: n,
    };
    Ok((body, StreamPlace(end)))
}
