// ModifierResponse, written as a whole frame into a lent output from a place (protocol/messages.rs).
// The writer asks its questions first and stores only once all are answered "yes".
#![tactic(auto)]

ghost use Rattle.std.specs.Prelude.{true, ◌&&◌, ◌≡◌, ◌+◌, ◌*◌, ◌/◌, ◌≤◌, leb, length};
ghost use mathlib.Core.List.{flat_map};
ghost use Rattle.wire.specs.Bytes.{every};
ghost use Rattle.wire.specs.Output.{written_said, put, output_after, Wrote};
ghost use Rattle.vlq.specs.Vlq.{limit, vlq_bytes};
ghost use Rattle.frame.specs.Frame.{frame_bytes};
ghost use Rattle.frame_write.specs.Asked.{frame_length};
ghost use Rattle.messages.specs.Message.{max_inv_objects};
ghost use Rattle.messages.specs.Value.{payload_bytes};
ghost use Rattle.messages.specs.Writes.{payload_row_size, payload_row, payload_rows, payload_from_row, payload_inside, write_modifier_response, value_of, message_bytes, message_written};
ghost use Rattle.messages_response_write.specs.Asked.{payloads_of, row_within, response_bytes, response_written_for};
ghost use Rattle.messages_response_write.specs.Asked.{row_length, rows_length};

use frame::HEADER_SIZE;
use frame_write::{ask_frame, close_frame};
use messages::{ID_SIZE, MAX_INV_OBJECTS, MODIFIER_RESPONSE, PAYLOAD_ROW_SIZE, PayloadRow};
use types::Network;
use vlq_write::{vlq_len, write_vlq};
use wire::{MAX_BODY_SIZE, Refusal};
use wire_part_write::write_part;

// A type byte and the payloads whose rows are given: the place of an id, and the place and length of its bytes in the
// buffer.
pub fn write_modifier_response(
    out: &mut [u8],
    at: usize,
    network: Network,
    modifier_type: u8,
    payloads: &[u32],
    buffer: &[u8],
) -> Result<usize, Refusal>
    ensures value { written_said result ≡ message_written network 0 (write_modifier_response modifier_type payloads.now buffer.now) out.old at }
    ensures out_after { out.new ≡ output_after (written_said result) out.old at (message_bytes network (value_of (write_modifier_response modifier_type payloads.now buffer.now))) }
{
    let end = ask_response(out.len(), at, modifier_type, payloads, buffer)?;
    put_response(out, at, network, modifier_type, payloads, buffer);
    Ok(end)
}

// What write_modifier_response says of an output of len bytes.
fn ask_response(
    len: usize,
    at: usize,
    modifier_type: u8,
    payloads: &[u32],
    buffer: &[u8],
) -> Result<usize, Refusal>
    ensures { written_said result ≡ response_written_for modifier_type payloads.now buffer.now len at }
{
    if payloads.len() % PAYLOAD_ROW_SIZE != 0 {
        return Err(Refusal::BadTable);
    }
    if len < at {
        return Err(Refusal::Outside);
    }
    if !payloads_inside(payloads, buffer.len()) {
        return Err(Refusal::Outside);
    }
    if !payloads_within(payloads) {
        return Err(Refusal::LengthTooLarge);
    }
    if MAX_INV_OBJECTS < payloads.len() / PAYLOAD_ROW_SIZE {
        return Err(Refusal::CountExceedsCap);
    }
    ask_frame(len, at, response_len(payloads))
}

// Are the id and the bytes of each row inside a buffer of len bytes?
fn payloads_inside(payloads: &[u32], len: usize) -> bool
    ensures { result ≡ every (λ row. leb (row.id + 32) len && leb (row.at + row.len) len) (payload_rows payloads.now) }
{
    for k in 0..payloads.len() / PAYLOAD_ROW_SIZE {
        if !payload_inside(payload_at(payloads, k), len) {
            return false;
        }
    }
    true
}

// Are the id and the bytes of a row inside a buffer of len bytes?
fn payload_inside(row: PayloadRow, len: usize) -> bool
    ensures { result ≡ leb (row.id + 32) len && leb (row.at + row.len) len }
{
    row.id as usize + ID_SIZE <= len && row.at as usize + row.len as usize <= len
}

// Is the length of each row within the limit? A loop of its own: one over any test would need the test's contract here.
fn payloads_within(payloads: &[u32]) -> bool
    ensures { result ≡ every row_within (payload_rows payloads.now) }
{
    for k in 0..payloads.len() / PAYLOAD_ROW_SIZE {
        if MAX_BODY_SIZE < payload_at(payloads, k).len as usize {
            return false;
        }
    }
    true
}

// How many bytes a type byte, a count and the payloads are.
fn response_len(payloads: &[u32]) -> usize
    requires payload_row_size_len_bound { length payloads.now / payload_row_size ≤ max_inv_objects }
    requires payloads_value { every row_within (payload_rows payloads.now) ≡ true }
    ensures { result ≡ 1 + length (vlq_bytes (length payloads.now / payload_row_size)) + rows_length (payload_rows payloads.now) }
{
    let count = payloads.len() / PAYLOAD_ROW_SIZE;
    1 + vlq_len(count as u64) + rows_len(payloads)
}

// How many bytes the payloads are.
fn rows_len(payloads: &[u32]) -> usize
    requires payload_row_size_len_bound { length payloads.now / payload_row_size ≤ max_inv_objects }
    requires payloads_value { every row_within (payload_rows payloads.now) ≡ true }
    ensures { (result ≡ rows_length (payload_rows payloads.now)) × (result ≤ 6555460000) }
{
    let mut size = 0;
    for k in 0..payloads.len() / PAYLOAD_ROW_SIZE {
        size += row_len(payload_at(payloads, k));
    }
    size
}

// How many bytes a payload is: its id, its length and its bytes.
fn row_len(row: PayloadRow) -> usize
    requires { row_within row ≡ true }
    ensures { (result ≡ row_length row) × (result ≤ 16388650) }
{
    let n = row.len as u64;
    ID_SIZE + vlq_len(n) + row.len as usize
}

// Row k of the table.
fn payload_at(payloads: &[u32], k: usize) -> PayloadRow
    requires { payload_row_size * k + payload_row_size ≤ length payloads.now }
    ensures { result ≡ payload_row payloads.now k }
{
    PayloadRow {
        id: payloads[PAYLOAD_ROW_SIZE * k],
        at: payloads[PAYLOAD_ROW_SIZE * k + 1],
        len: payloads[PAYLOAD_ROW_SIZE * k + 2],
    }
}

// Stores the frame.
fn put_response(
    out: &mut [u8],
    at: usize,
    network: Network,
    modifier_type: u8,
    payloads: &[u32],
    buffer: &[u8],
)
    requires payloads_value { every (payload_inside buffer.now) (payload_rows payloads.now) ≡ true }
    requires buffer_len_bound { length (response_bytes modifier_type payloads.now buffer.now) ≤ limit }
    requires buffer_in_bounds { at + frame_length (length (response_bytes modifier_type payloads.now buffer.now)) ≤ length out.old }
    ensures { out.new ≡ put out.old at (frame_bytes network 33 (response_bytes modifier_type payloads.now buffer.now)) }
{
    let start = at + HEADER_SIZE;
    let end = put_body(out, start, modifier_type, payloads, buffer);
    close_frame(out, at, network, MODIFIER_RESPONSE, end - start).unwrap();
}

// Stores the type byte, the count and the payloads, and gives the place after them.
fn put_body(out: &mut [u8], at: usize, modifier_type: u8, payloads: &[u32], buffer: &[u8]) -> usize
    requires payloads_value { every (payload_inside buffer.now) (payload_rows payloads.now) ≡ true }
    requires buffer_in_bounds { at + length (response_bytes modifier_type payloads.now buffer.now) ≤ length out.old }
    ensures { Wrote out.old at (response_bytes modifier_type payloads.now buffer.now) result out.new }
{
    out[at] = modifier_type;
    let count = payloads.len() / PAYLOAD_ROW_SIZE;
    let end = write_vlq(out, at + 1, count as u64).unwrap();
    put_rows(out, end, payloads, buffer)
}

// Stores the payloads, one after the other, and gives the place after them.
fn put_rows(out: &mut [u8], at: usize, payloads: &[u32], buffer: &[u8]) -> usize
    requires payloads_value { every (payload_inside buffer.now) (payload_rows payloads.now) ≡ true }
    requires buffer_in_bounds { at + length (flat_map payload_bytes (payloads_of payloads.now buffer.now)) ≤ length out.old }
    ensures { Wrote out.old at (flat_map payload_bytes (payloads_of payloads.now buffer.now)) result out.new }
{
    let mut o = at;
    for k in 0..payloads.len() / PAYLOAD_ROW_SIZE {
        o = put_payload(out, o, payload_at(payloads, k), buffer);
    }
    o
}

// Stores a payload's id, length and bytes, and gives the place after them.
fn put_payload(out: &mut [u8], at: usize, row: PayloadRow, buffer: &[u8]) -> usize
    requires row_value { payload_inside buffer.now row ≡ true }
    requires row_in_bounds { at + length (payload_bytes (payload_from_row buffer.now row)) ≤ length out.old }
    ensures { Wrote out.old at (payload_bytes (payload_from_row buffer.now row)) result out.new }
{
    let id = row.id as usize;
    let from = row.at as usize;
    let n = row.len as usize;
    let a = write_part(out, at, &buffer[id..id + ID_SIZE]).unwrap();
    let b = write_vlq(out, a, n as u64).unwrap();
    write_part(out, b, &buffer[from..from + n]).unwrap()
}
