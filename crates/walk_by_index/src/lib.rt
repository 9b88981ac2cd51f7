// What is reached by index from an item of the stream, with its places in the stream: an entry, an id or a payload of a
// message, given the stream and where the message's body stands in it.
#![tactic(auto)]

ghost use Rattle.std.specs.Prelude.{◌≡◌, true, false, MatchResult};
ghost use Rattle.wire.specs.declared.Refusal.TheVariants.{Outside};
ghost use Rattle.types.specs.Answers.{stream_answer};
ghost use Rattle.frame_read.specs.Answers.{part_in};
ghost use Rattle.walk_by_index.specs.InStream.{is_inside, in_stream, entry_to_stream, payload_to_stream, entry_in_stream, id_in_stream, payload_in_stream};
ghost use Rattle.walk_by_index.specs.Answers.{stream_id_answer};

use frame_read::StreamPart;
use handshake_read::PeerSpec;
use messages_response_read::Payload;
use types::{Address, BodyPlace, StreamPlace, StreamRead, Version};
use wire::Refusal;

// The features of an entry: how many there are, and the place of the first.
#[derive(Clone, Copy)]
pub struct StreamFeatures {
    pub count: u8,
    pub start: StreamPlace,
}

// An entry of a Peers message.
#[derive(Clone, Copy)]
pub struct StreamEntry {
    pub agent: StreamPart,
    pub version: Version,
    pub name: StreamPart,
    pub address: Address,
    pub features: StreamFeatures,
}

// A payload: the place of its id, and where its bytes stand.
#[derive(Clone, Copy)]
pub struct StreamPayload {
    pub id: StreamPlace,
    pub bytes: StreamPart,
}

// An entry of the Peers message whose body is given, by index.
#[tactic(auto, using(std::proofs::lemmas::Result::err_from_is_err_and), unfolding(crate::specs::InStream::from_body, crate::specs::InStream::entry_in_stream))]
pub fn entry_in_stream(
    s: &[u8],
    body: StreamPart,
    cap: usize,
    index: usize,
) -> StreamRead<StreamEntry>
    ensures { stream_answer result ≡ entry_in_stream cap index s.now body }
{
    let bytes = bytes_of(s, body)?;
    let (peer, end) = messages_peers_read::entry_by_index(bytes, cap, index)?;
    entry_places(peer, end, body)
}

// The place of an id of the ModifierRequest or Inv message whose body is given, by index.
#[tactic(auto, using(std::proofs::lemmas::Result::err_from_is_err_and), unfolding(crate::specs::InStream::from_body, crate::specs::InStream::id_in_stream))]
pub fn id_in_stream(s: &[u8], body: StreamPart, index: usize) -> Result<StreamPlace, Refusal>
    ensures { stream_id_answer result ≡ id_in_stream index s.now body }
{
    let bytes = bytes_of(s, body)?;
    let id = messages_inventory_read::id_by_index(bytes, index)?;
    in_stream(id, body)
}

// A payload of the ModifierResponse message whose body is given, by index.
#[tactic(auto, using(std::proofs::lemmas::Result::err_from_is_err_and), unfolding(crate::specs::InStream::from_body, crate::specs::InStream::payload_in_stream))]
pub fn payload_in_stream(s: &[u8], body: StreamPart, index: usize) -> StreamRead<StreamPayload>
    ensures { stream_answer result ≡ payload_in_stream index s.now body }
{
    let bytes = bytes_of(s, body)?;
    let (payload, end) = messages_response_read::payload_by_index(bytes, index)?;
    payload_places(payload, end, body)
}

// The bytes of a part, where all are in the stream.
#[tactic(auto, using(std::proofs::lemmas::Result::err_from_is_err_and), unfolding(crate::specs::InStream::is_inside))]
fn bytes_of(s: &[u8], part: StreamPart) -> Result<&[u8], Refusal>
    ensures { MatchResult result (λ bytes. (is_inside s.now part ≡ true) × (bytes.now ≡ part_in s.now part)) (λ m. (is_inside s.now part ≡ false) × (m ≡ Outside)) }
{
    let rest = s.get(part.start.0..).ok_or(Refusal::Outside)?;
    rest.get(..part.len).ok_or(Refusal::Outside)
}

// A place of the body as a place in the stream; one outside, which no reader gives, is refused.
#[tactic(auto, unfolding(crate::specs::InStream::in_stream))]
fn in_stream(at: BodyPlace, body: StreamPart) -> Result<StreamPlace, Refusal>
    ensures { result ≡ in_stream body at.0 }
{
    at.in_stream(body.start, body.len)
}

// An entry of the body with its places in the stream, and its end there; where one is refused, the refusal.
#[tactic(auto, using(std::proofs::lemmas::Result::err_from_is_err_and), unfolding(crate::specs::InStream::entry_to_stream))]
fn entry_places(peer: PeerSpec, end: BodyPlace, body: StreamPart) -> StreamRead<StreamEntry>
    ensures { stream_answer result ≡ entry_to_stream body peer end.0 }
{
    let agent = in_stream(BodyPlace(peer.agent.start), body)?;
    let name = in_stream(BodyPlace(peer.name.start), body)?;
    let first = in_stream(BodyPlace(peer.features.start), body)?;
    let end = in_stream(end, body)?;
    let entry = StreamEntry {
        agent: StreamPart {
            start: agent,
            len: peer.agent.len,
        },
        version: peer.version,
        name: StreamPart {
            start: name,
            len: peer.name.len,
        },
        address: peer.address,
        features: StreamFeatures {
            count: peer.features.count,
            start: first,
        },
    };
    Ok((entry, end))
}

// So of a payload.
#[tactic(auto, using(std::proofs::lemmas::Result::err_from_is_err_and), unfolding(crate::specs::InStream::payload_to_stream))]
fn payload_places(p: Payload, end: BodyPlace, body: StreamPart) -> StreamRead<StreamPayload>
    ensures { stream_answer result ≡ payload_to_stream body p end.0 }
{
    let id = in_stream(p.id, body)?;
    let start = in_stream(p.start, body)?;
    let end = in_stream(end, body)?;
    let bytes = StreamPart { start, len: p.len };
    Ok((StreamPayload { id, bytes }, end))
}
