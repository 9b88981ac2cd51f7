// The step of the session walk: what stands at a place of a stream (document 01, "The session walk").
#![tactic(auto)]

ghost use Rattle.std.specs.Prelude.{◌≡◌, ◌+◌, ◌<◌, ◌≤◌, length, take, drop};
ghost use Rattle.messages.specs.Message.{message};
ghost use Rattle.walk.specs.Session.{handshake_at, message_at, session_step};
ghost use Rattle.walk.specs.Walk.{step_to};
ghost use Rattle.wire.specs.Refusals.{number};
ghost use Rattle.walk_read.specs.Steps.{step_of, opened_step};
ghost use Rattle.walk_read.specs.declared.StepRead.TheVariants.{Stop as stop_of};

use frame_read::{Frame, StreamPart};
use handshake_read::Handshake;
use messages_read::Message;
use types::{Network, StreamPlace};
use wire::Refusal;

// Where a refusal was made.
#[derive(Clone, Copy)]
pub enum Layer {
    Handshake,
    Frame,
    Body,
}

// The handshake of a session, with the verdict of validate_peer. The verdict stays a number: document 01 says that an
// item holds one, and step_of of specs/Steps does.
#[derive(Clone, Copy)]
pub struct HandshakeItem {
    pub start: StreamPlace,
    pub end: StreamPlace,
    pub handshake: Handshake,
    pub verdict: u8,
}

// A frame of a session, opened as a message. Its places are places in the frame's body; through the body's start they
// become places in the stream, one by BodyPlace::in_stream, and what is reached by index by the functions of
// walk_by_index.
#[derive(Clone, Copy)]
pub struct MessageItem {
    pub start: StreamPlace,
    pub end: StreamPlace,
    pub code: u8,
    pub body: StreamPart,
    pub message: Message,
}

// A refusal: its layer and number, and where the item starts. The number stays one, for the same reason.
#[derive(Clone, Copy)]
pub struct Stop {
    pub layer: Layer,
    pub number: u8,
    pub start: StreamPlace,
}

// An item, the clean end, a stop, or 12: a place past the stream's length, which is no stop.
#[derive(Clone, Copy)]
pub enum StepRead {
    Handshake(HandshakeItem),
    Message(MessageItem),
    End,
    Stop(Stop),
    Outside,
}

// The step at a place: a handshake at 0, the clean end at the length, and otherwise a message, Peers bodies with the
// cap.
#[tactic(auto, using(crate::proofs::StepsLaws::step_laws))]
pub fn step(s: &[u8], network: Network, cap: usize, at: StreamPlace) -> StepRead
    ensures { result ≡ step_of network s.now (session_step network cap s.now at.0) }
{
    let place = at.0;
    if place == 0 {
        return handshake_step(s, network);
    }
    if place == s.len() {
        return StepRead::End;
    }
    if s.len() < place {
        return StepRead::Outside;
    }
    message_step(s, network, cap, at)
}

// The handshake at place 0.
fn handshake_step(s: &[u8], network: Network) -> StepRead
    ensures { result ≡ step_of network s.now (step_to 0 (handshake_at network s.now)) }
{
    let start = StreamPlace(0);
    match handshake_read::parse(s) {
        Ok((handshake, c)) => {
            let verdict = handshake_verdict::peer_verdict(s, handshake.peer, network).number();
            let end = StreamPlace(c.at);
            StepRead::Handshake(HandshakeItem {
                start,
                end,
                handshake,
                verdict,
            })
        }
        Err(refusal) => stopped(Layer::Handshake, refusal, start),
    }
}

// The frame at a place, opened as a message.
fn message_step(s: &[u8], network: Network, cap: usize, start: StreamPlace) -> StepRead
    ensures { result ≡ step_of network s.now (step_to start.0 (message_at network cap s.now start.0)) }
{
    match frame_read::decode(s, network, start) {
        Ok((frame, end)) => open_frame(s, network, cap, start, frame, end),
        Err(refusal) => stopped(Layer::Frame, refusal, start),
    }
}

// The body of a frame that was read, opened as the message of its code.
fn open_frame(
    s: &[u8],
    network: Network,
    cap: usize,
    start: StreamPlace,
    frame: Frame,
    end: StreamPlace,
) -> StepRead
    requires { frame.body.start.0 + frame.body.len ≤ length s.now }
    ensures { result ≡ opened_step network start end frame (take frame.body.len (drop frame.body.start.0 s.now)) (message cap frame.code (take frame.body.len (drop frame.body.start.0 s.now)) 0) }
{
    let code = frame.code;
    let body = frame.body;
    let from = body.start.0;
    let to = from + body.len;
    match messages_read::from_frame(code, &s[from..to], cap, network) {
        Ok((message, _)) => StepRead::Message(MessageItem {
            start,
            end,
            code,
            body,
            message,
        }),
        Err(refusal) => stopped(Layer::Body, refusal, start),
    }
}

// A refusal of a layer, in the item that starts at a place.
fn stopped(layer: Layer, refusal: Refusal, start: StreamPlace) -> StepRead
    ensures { result ≡ stop_of (record { layer = layer; number = number refusal; start = start }) }
{
    StepRead::Stop(Stop {
        layer,
        number: refusal.number(),
        start,
    })
}
