// The body of ModifierResponse, read from lent bytes (protocol/messages.rs). A body begins at its own place 0, and
// every place here is a place in the body.
#![tactic(auto)]

ghost use Rattle.std.specs.Prelude.{◌≡◌, length};
ghost use Rattle.wire.specs.Reader.{map_answer, list_of};
ghost use Rattle.messages.specs.Message.{payload_after, payload};
ghost use Rattle.messages.specs.Message.{total as total_of};
ghost use Rattle.messages_inventory_read.specs.Parts.{items};
ghost use Rattle.messages_inventory_read.specs.Answers.{inventory_in};
ghost use Rattle.messages_response_read.specs.Parts.{payload_at};
ghost use Rattle.messages_response_read.specs.Answers.{payload_of, payload_sum};
ghost use Rattle.types.specs.Answers.{body_answer};

use messages::ID_SIZE;
use messages_inventory_read::Inventory;
use types::{BodyPlace, BodyRead};
use vlq::Cursor;
use wire::Refusal;

// A payload: the place of its id, and where its bytes stand.
#[derive(Clone, Copy)]
pub struct Payload {
    pub id: BodyPlace,
    pub start: BodyPlace,
    pub len: usize,
}

// A ModifierResponse body: a type byte, a count and payloads.
#[tactic(auto, using(std::proofs::lemmas::Result::err_from_is_err_and), unfolding(messages_inventory_read::specs::Parts::items, wire::specs::Reader::map_answer))]
pub fn parse_modifier_response_body(body: &[u8]) -> BodyRead<Inventory>
    ensures { body_answer result ≡ map_answer (inventory_in body.now) (items (payload (length body.now)) body.now 0) }
{
    let payloads = messages_inventory_read::read_header(body)?;
    let (_, end) = skip_payloads(body, payloads.start, payloads.count)?;
    Ok((payloads, end))
}

// The payload at a place of a ModifierResponse body, where the payloads before it have total bytes together; and the
// payload lengths so far, this one included.
pub fn read_payload(body: &[u8], at: BodyPlace, total: usize) -> BodyRead<(Payload, usize)>
    ensures { body_answer result ≡ map_answer (payload_sum total) (payload_after (length body.now) total body.now at.0) }
{
    let (id, c) = Cursor { at: at.0 }.read_part(body, ID_SIZE)?;
    let (n, d) = c.read_vlq_length(body)?;
    let len = n as usize;
    let sum = total.saturating_add(len);
    if body.len() < sum {
        return Err(Refusal::PayloadExceedsBody);
    }
    let (bytes, e) = d.read_part(body, len)?;
    let payload = Payload {
        id: BodyPlace(id.start),
        start: BodyPlace(bytes.start),
        len: bytes.len,
    };
    Ok(((payload, sum), BodyPlace(e.at)))
}

// A payload of a ModifierResponse body, by index.
pub fn payload_by_index(body: &[u8], index: usize) -> BodyRead<Payload>
    ensures { body_answer result ≡ map_answer payload_of (payload_at index body.now) }
{
    let (payloads, _) = parse_modifier_response_body(body)?;
    if payloads.count <= index {
        return Err(Refusal::Outside);
    }
    let (total, at) = skip_payloads(body, payloads.start, index)?;
    let ((payload, _), end) = read_payload(body, at, total)?;
    Ok((payload, end))
}

// n payloads: their lengths together, and where they end.
fn skip_payloads(body: &[u8], start: BodyPlace, n: usize) -> BodyRead<usize>
    ensures { body_answer result ≡ map_answer total_of (list_of n (payload (length body.now)) body.now start.0) }
{
    let mut at = start;
    let mut total = 0;
    for _ in 0..n {
        let ((_, sum), next) = read_payload(body, at, total)?;
        at = next;
        total = sum;
    }
    Ok((total, at))
}
