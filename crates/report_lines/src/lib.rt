// The line of each step of a session (document 01, "At the edges"), stored from the first byte of a lent line on.
#![tactic(auto)]

ghost use Rattle.std.specs.Prelude.{◌≡◌, ◌≤◌};
ghost use Rattle.wire.specs.Output.{put, Wrote};
ghost use Rattle.report_lines.specs.NextLines.{line_at, next_at};
ghost use Rattle.report_lines.specs.StepLines.{handshake_item_line, message_item_line, stop_item_line, line_of};

use messages_read::Message;
use std::ops::ControlFlow;
use types::{Network, StreamPlace};
use walk_read::{HandshakeItem, Layer, MessageItem, StepRead, Stop};

// Lines of the report: how many bytes they take, and the place of the next step, or of the last one where none follows.
#[derive(Clone, Copy)]
pub struct Next {
    pub len: usize,
    pub at: ControlFlow<StreamPlace, StreamPlace>,
}

// The line of the step at a place of a session. A place past the session's length has no line.
pub fn next_line(
    line: &mut [u8; 192],
    s: &[u8],
    network: Network,
    cap: usize,
    at: StreamPlace,
) -> Next
    ensures value { result ≡ next_at network cap s.now at.0 }
    ensures line_after { line.new ≡ put line.old 0 (line_at network cap s.now at.0) }
    ensures len_bound { result.len ≤ 192 }
{
    let step = walk_read::step(s, network, cap, at);
    let len = step_line(line, step, s.len());
    let at = match step {
        StepRead::Handshake(i) => ControlFlow::Continue(i.end),
        StepRead::Message(i) => ControlFlow::Continue(i.end),
        _ => ControlFlow::Break(at),
    };
    Next { len, at }
}

// The line of a step of a session of n bytes: how long it is.
#[tactic(auto, using(wire::proofs::OutputLaws::wrote_none), unfolding(crate::specs::StepLines::line_of))]
pub fn step_line(line: &mut [u8; 192], step: StepRead, n: usize) -> usize
    ensures wrote { Wrote line.old 0 (line_of step n) result line.new }
    ensures upper_bound { result ≤ 192 }
{
    match step {
        StepRead::Handshake(i) => handshake_line(line, i),
        StepRead::Message(i) => message_line(line, i),
        StepRead::End => report_text::put_end(line, n as u64),
        StepRead::Stop(t) => stop_line(line, t),
        StepRead::Outside => 0,
    }
}

#[tactic(auto, unfolding(crate::specs::StepLines::handshake_item_line))]
fn handshake_line(line: &mut [u8; 192], i: HandshakeItem) -> usize
    ensures wrote { Wrote line.old 0 (handshake_item_line i) result line.new }
    ensures upper_bound { result ≤ 192 }
{
    report_text::put_handshake(
        line,
        i.start.0 as u64,
        i.end.0 as u64,
        i.handshake.peer.version,
        i.verdict,
    )
}

#[tactic(auto, unfolding(crate::specs::StepLines::message_of_line))]
fn message_line(line: &mut [u8; 192], i: MessageItem) -> usize
    ensures wrote { Wrote line.old 0 (message_item_line i) result line.new }
    ensures upper_bound { result ≤ 192 }
{
    let start = i.start.0 as u64;
    let end = i.end.0 as u64;
    match i.message {
        Message::Peers(p) => report_text::put_peers(
            line,
            start,
            end,
            i.code,
            p.count as u64,
            p.bogus as u64,
        ),
        _ => report_text::put_message(line, start, end, i.code),
    }
}

#[tactic(auto, unfolding(crate::specs::StepLines::stop_text))]
fn stop_line(line: &mut [u8; 192], t: Stop) -> usize
    ensures wrote { Wrote line.old 0 (stop_item_line t) result line.new }
    ensures upper_bound { result ≤ 192 }
{
    let start = t.start.0 as u64;
    match t.layer {
        Layer::Handshake => report_text::put_handshake_stop(line, t.number, start),
        Layer::Frame => report_text::put_frame_stop(line, t.number, start),
        Layer::Body => report_text::put_body_stop(line, t.number, start),
    }
}
