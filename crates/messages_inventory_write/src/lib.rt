// ModifierRequest and Inv, written as whole frames into a lent output from a place (protocol/messages.rs). Each writer
// asks its questions first and stores only once all are answered "yes". The type byte, the places of the ids and the
// buffer are three parameters, since the C interface and `ids_of` have them so.
#![tactic(auto)]

ghost use Rattle.std.specs.Prelude.{true, ◌≡◌, ◌+◌, ◌*◌, ◌≤◌, length};
ghost use mathlib.Core.List.{flat_map};
ghost use Rattle.wire.specs.Output.{written_said, put, output_after, Wrote};
ghost use Rattle.vlq.specs.Vlq.{limit, vlq_bytes};
ghost use Rattle.frame.specs.Frame.{frame_bytes};
ghost use Rattle.frame_write.specs.Asked.{frame_length};
ghost use Rattle.messages.specs.Value.{ids_bytes};
ghost use Rattle.messages.specs.Writes.{ids_of, write_modifier_request, write_inv, value_of, message_bytes, message_written};
ghost use Rattle.messages_inventory_write.specs.Asked.{ids_inside, ids_written_for};

use frame::HEADER_SIZE;
use frame_write::{ask_frame, close_frame};
use messages::{ID_SIZE, INV, MAX_INV_OBJECTS, MODIFIER_REQUEST};
use types::Network;
use vlq_write::{vlq_len, write_vlq};
use wire::Refusal;
use wire_part_write::write_part;

// ModifierRequest: a type byte and the ids whose places in the buffer are given.
#[tactic(auto, using(crate::proofs::InventoryWriteLaws::inventory_laws), unfolding(wire::specs::Output::output_after, messages::specs::Value::code_of, messages::specs::Value::body_bytes, messages::specs::Writes::value_of))]
pub fn write_modifier_request(
    out: &mut [u8],
    at: usize,
    network: Network,
    modifier_type: u8,
    ids: &[u32],
    buffer: &[u8],
) -> Result<usize, Refusal>
    ensures value { written_said result ≡ message_written network 0 (write_modifier_request modifier_type ids.now buffer.now) out.old at }
    ensures out_after { out.new ≡ output_after (written_said result) out.old at (message_bytes network (value_of (write_modifier_request modifier_type ids.now buffer.now))) }
{
    write_ids(
        out,
        at,
        network,
        MODIFIER_REQUEST,
        modifier_type,
        ids,
        buffer,
    )
}

// Inv: a type byte and the ids whose places in the buffer are given.
#[tactic(auto, using(crate::proofs::InventoryWriteLaws::inventory_laws), unfolding(wire::specs::Output::output_after, messages::specs::Value::code_of, messages::specs::Value::body_bytes, messages::specs::Writes::value_of))]
pub fn write_inv(
    out: &mut [u8],
    at: usize,
    network: Network,
    modifier_type: u8,
    ids: &[u32],
    buffer: &[u8],
) -> Result<usize, Refusal>
    ensures value { written_said result ≡ message_written network 0 (write_inv modifier_type ids.now buffer.now) out.old at }
    ensures out_after { out.new ≡ output_after (written_said result) out.old at (message_bytes network (value_of (write_inv modifier_type ids.now buffer.now))) }
{
    write_ids(out, at, network, INV, modifier_type, ids, buffer)
}

// A message whose body is a type byte, a count and ids.
#[tactic(auto, using(crate::proofs::InventoryWriteLaws::inventory_laws), unfolding(wire::specs::Output::output_after, messages::specs::Value::code_of, messages::specs::Value::body_bytes, messages::specs::Writes::value_of))]
fn write_ids(
    out: &mut [u8],
    at: usize,
    network: Network,
    code: u8,
    modifier_type: u8,
    ids: &[u32],
    buffer: &[u8],
) -> Result<usize, Refusal>
    ensures value { written_said result ≡ ids_written_for modifier_type ids.now buffer.now (length out.old) at }
    ensures out_after { out.new ≡ output_after (written_said result) out.old at (frame_bytes network code (ids_bytes modifier_type (ids_of ids.now buffer.now))) }
{
    let end = ask_ids(out.len(), at, modifier_type, ids, buffer)?;
    put_ids(out, at, network, code, modifier_type, ids, buffer);
    Ok(end)
}

// What write_ids says of an output of len bytes.
#[tactic(auto, using(crate::proofs::InventoryWriteLaws::lengths), unfolding(wire::specs::Output::asked, frame_write::specs::Asked::frame_written_for, crate::specs::Asked::ids_written_for))]
fn ask_ids(
    len: usize,
    at: usize,
    modifier_type: u8,
    ids: &[u32],
    buffer: &[u8],
) -> Result<usize, Refusal>
    ensures { written_said result ≡ ids_written_for modifier_type ids.now buffer.now len at }
{
    if len < at {
        return Err(Refusal::Outside);
    }
    if !ids_inside(ids, buffer.len()) {
        return Err(Refusal::Outside);
    }
    if MAX_INV_OBJECTS < ids.len() {
        return Err(Refusal::CountExceedsCap);
    }
    ask_frame(len, at, ids_len(ids.len()))
}

// Is each id inside a buffer of len bytes?
fn ids_inside(ids: &[u32], len: usize) -> bool
    ensures { result ≡ ids_inside ids.now len }
{
    for &at in ids {
        if len < at as usize + ID_SIZE {
            return false;
        }
    }
    true
}

// How many bytes a type byte, a count and count ids are.
#[tactic(auto, using(crate::proofs::InventoryWriteLaws::lengths))]
fn ids_len(count: usize) -> usize
    requires { count ≤ 400 }
    ensures { result ≡ 1 + length (vlq_bytes count) + 32 * count }
{
    1 + vlq_len(count as u64) + ID_SIZE * count
}

// Stores the frame.
#[tactic(auto, using(crate::proofs::InventoryWriteLaws::lengths))]
fn put_ids(
    out: &mut [u8],
    at: usize,
    network: Network,
    code: u8,
    modifier_type: u8,
    ids: &[u32],
    buffer: &[u8],
)
    requires buffer_value { ids_inside ids.now (length buffer.now) ≡ true }
    requires buffer_len_bound { length (ids_bytes modifier_type (ids_of ids.now buffer.now)) ≤ limit }
    requires buffer_in_bounds { at + frame_length (length (ids_bytes modifier_type (ids_of ids.now buffer.now))) ≤ length out.old }
    ensures { out.new ≡ put out.old at (frame_bytes network code (ids_bytes modifier_type (ids_of ids.now buffer.now))) }
{
    let start = at + HEADER_SIZE;
    let end = put_body(out, start, modifier_type, ids, buffer);
    close_frame(out, at, network, code, end - start).unwrap();
}

// Stores the type byte, the count and the ids, and gives the place after them.
#[tactic(auto, using(crate::proofs::InventoryWriteLaws::lengths))]
fn put_body(out: &mut [u8], at: usize, modifier_type: u8, ids: &[u32], buffer: &[u8]) -> usize
    requires buffer_value { ids_inside ids.now (length buffer.now) ≡ true }
    requires buffer_in_bounds { at + length (ids_bytes modifier_type (ids_of ids.now buffer.now)) ≤ length out.old }
    ensures { Wrote out.old at (ids_bytes modifier_type (ids_of ids.now buffer.now)) result out.new }
{
    out[at] = modifier_type;
    let rows = write_vlq(out, at + 1, ids.len() as u64).unwrap();
    put_rows(out, rows, ids, buffer)
}

// Stores the ids, one after the other, and gives the place after them.
fn put_rows(out: &mut [u8], at: usize, ids: &[u32], buffer: &[u8]) -> usize
    requires buffer_value { ids_inside ids.now (length buffer.now) ≡ true }
    requires buffer_in_bounds { at + length (flat_map (λ id. id) (ids_of ids.now buffer.now)) ≤ length out.old }
    ensures { Wrote out.old at (flat_map (λ id. id) (ids_of ids.now buffer.now)) result out.new }
{
    let mut end = at;
    for &id in ids {
        let from = id as usize;
        end = write_part(out, end, &buffer[from..from + ID_SIZE]).unwrap();
    }
    end
}
