// Message bodies: their definitions and laws, in specs/. Readers stand in messages_inventory_read, messages_response_read, messages_peers_read and messages_read, writers
// in messages_opaque_write, messages_inventory_write, messages_response_write and messages_peers_write.
#![tactic(auto)]

// Codes of messages.
pub const GET_PEERS: u8 = 1;

pub const PEERS: u8 = 2;

pub const MODIFIER_REQUEST: u8 = 22;

pub const MODIFIER_RESPONSE: u8 = 33;

pub const INV: u8 = 55;

pub const SYNC_INFO: u8 = 65;

// The most ids or payloads that a body may have.
pub const MAX_INV_OBJECTS: usize = 400;

// The bytes of an id.
pub const ID_SIZE: usize = 32;

// How many numbers a payload's row has in a table.
pub const PAYLOAD_ROW_SIZE: usize = 3;

// A writer gets payloads as a table of u32 beside a lent buffer; this is a row.

// A payload: the place of its id, and the place and length of its bytes in the buffer.
#[derive(Clone, Copy)]
pub struct PayloadRow {
    pub id: u32,
    pub at: u32,
    pub len: u32,
}
