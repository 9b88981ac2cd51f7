// The bodies of ModifierRequest and Inv, read from lent bytes, and what lists of ids and of payloads have in common
// (protocol/messages.rs). A body begins at its own place 0, and every place here is a place in the body.
#![tactic(auto)]

ghost use Rattle.std.specs.Prelude.{◌≡◌};
ghost use Rattle.wire.specs.Reader.{map_answer, part};
ghost use Rattle.messages.specs.Message.{count, inventory_header};
ghost use Rattle.messages_inventory_read.specs.Parts.{items, id_at};
ghost use Rattle.messages_inventory_read.specs.Answers.{inventory_in, id_of, header_answer, id_answer};
ghost use Rattle.types.specs.Answers.{body_answer};
ghost use Rattle.vlq.specs.Answers.{read_answer};

use messages::{ID_SIZE, MAX_INV_OBJECTS};
use types::{BodyPlace, BodyRead};
use vlq::{Cursor, Read};
use wire::Refusal;

// The ids or payloads of a body: its type byte, how many there are, and the place of the first.
#[derive(Clone, Copy)]
pub struct Inventory {
    pub modifier_type: u8,
    pub count: usize,
    pub start: BodyPlace,
}

// A ModifierRequest or Inv body: a type byte, a count and ids of 32 bytes.
#[tactic(auto, using(std::proofs::lemmas::Result::err_from_is_err_and), unfolding(crate::specs::Parts::items, wire::specs::Reader::map_answer))]
pub fn parse_inv_body(body: &[u8]) -> BodyRead<Inventory>
    ensures { body_answer result ≡ map_answer (inventory_in body.now) (items (λ before. part 32) body.now 0) }
{
    let ids = read_header(body)?;
    let start = ids.start.0;
    let size = ID_SIZE * ids.count;
    if body.len() - start < size {
        return Err(Refusal::UnexpectedEof);
    }
    Ok((ids, BodyPlace(start + size)))
}

// The place of an id of a ModifierRequest or Inv body, by index.
pub fn id_by_index(body: &[u8], index: usize) -> Result<BodyPlace, Refusal>
    ensures { id_answer result ≡ map_answer id_of (id_at index body.now) }
{
    let (ids, _) = parse_inv_body(body)?;
    if ids.count <= index {
        return Err(Refusal::Outside);
    }
    Ok(BodyPlace(ids.start.0 + ID_SIZE * index))
}

// A count of at most cap.
#[tactic(auto, using(std::proofs::lemmas::Result::err_from_is_err_and), unfolding(messages::specs::Message::count))]
pub fn read_count(body: &[u8], c: Cursor, cap: usize) -> Read<usize>
    ensures { read_answer result ≡ count cap body.now c.at }
{
    let (n, d) = c.read_vlq_length(body)?;
    let count = n as usize;
    if count <= cap {
        Ok((count, d))
    } else {
        Err(Refusal::CountExceedsCap)
    }
}

// A type byte and a count.
#[tactic(auto, using(std::proofs::lemmas::Result::err_from_is_err_and), unfolding(messages::specs::Message::inventory_header))]
pub fn read_header(body: &[u8]) -> Result<Inventory, Refusal>
    ensures { header_answer result ≡ inventory_header body.now 0 }
{
    let (modifier_type, c) = Cursor { at: 0 }.read_byte(body)?;
    let (count, d) = read_count(body, c, MAX_INV_OBJECTS)?;
    Ok(Inventory {
        modifier_type,
        count,
        start: BodyPlace(d.at),
    })
}
