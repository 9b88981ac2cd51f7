// Entries and handshakes: their definitions and laws, in specs/. Readers stand in handshake_address_read,
// handshake_read and handshake_verdict, writers in handshake_entry_write, handshake_write and handshake_build.
#![tactic(auto)]

// Ids of features.
pub const FEATURE_MODE: u8 = 16;

pub const FEATURE_SESSION: u8 = 3;

pub const FEATURE_REST_API: u8 = 4;

// The address length byte L of the two kinds of address: four more than the address has bytes.
pub const IPV4_LENGTH: u8 = 8;

pub const IPV6_LENGTH: u8 = 20;

// A port is below this; one that is read is kept modulo it.
pub const PORT_COUNT: u64 = 65_536;

// The most features of an entry, whose count is a byte.
pub const MAX_FEATURES: usize = 255;

// How many numbers the rows below have in a table.
pub const FEATURE_ROW_SIZE: usize = 3;

pub const ENTRY_ROW_SIZE: usize = 12;

// A writer gets lists as tables of u32 beside a lent buffer; these are the rows.

// A feature: its id, and the place and length of its body in the buffer.
#[derive(Clone, Copy, Default)]
pub struct FeatureRow {
    pub id: u32,
    pub at: u32,
    pub len: u32,
}

// An entry: the place and length of its agent, three version numbers, the place and length of its name, the address
// length byte L (0: none, its place unread), the place of its L - 4 bytes, the port, the first row of its features
// and their number.
#[derive(Clone, Copy, Default)]
pub struct EntryRow {
    pub agentat: u32,
    pub agentlen: u32,
    pub major: u32,
    pub minor: u32,
    pub patch: u32,
    pub nameat: u32,
    pub namelen: u32,
    pub addrlen: u32,
    pub addrat: u32,
    pub port: u32,
    pub first: u32,
    pub count: u32,
}
