// Rows of the tables that entries are written from, and question 16 of the tables (document 01, "Questions", Writers).
#![tactic(auto)]

ghost use Rattle.std.specs.Prelude.{◌≡◌, ◌+◌, ◌-◌, ◌*◌, ◌/◌, ◌≤◌, length};
ghost use Rattle.wire.specs.Bytes.{every};
ghost use Rattle.handshake.specs.Tables.{tables, rows, feature_row, entry_row, bytes_at, feature_numbers, entry_numbers, tables_whole};
ghost use Rattle.handshake_entry_rows.specs.Row.{tables_of, row_or_zeros, feature_or_zeros};

mod tables;

use handshake::{
    ENTRY_ROW_SIZE, EntryRow, FEATURE_ROW_SIZE, FeatureRow, IPV4_LENGTH, IPV6_LENGTH, PORT_COUNT,
};
pub use tables::Tables;

impl<'a> Tables<'a> {
    pub fn new(entries: &'a [u32], features: &'a [u32], buffer: &'a [u8]) -> Self
        ensures { tables_of result ≡ tables entries.now features.now buffer.now }
    {
        Self {
            entries,
            features,
            buffer,
        }
    }

    // How many rows the entry table has.
    pub fn entry_count(self) -> usize
        ensures { result ≡ length self.entry.entries.now / 12 }
    {
        self.entries.len() / ENTRY_ROW_SIZE
    }

    // Row k of the entry table; outside it a row of zeros.
    #[tactic(auto, using(std::proofs::lemmas::Bool::Decides::nat_tests, crate::specs::ValueLaws::all_zero), unfolding(crate::specs::Row::row_or_zeros))]
    pub fn entry_at(self, k: usize) -> EntryRow
        ensures { result ≡ row_or_zeros self.entry.entries.now k }
    {
        if k < self.entry_count() {
            entry_row(self.entries, k)
        } else {
            EntryRow::default()
        }
    }

    // How many rows the feature table has.
    pub fn feature_count(self) -> usize
        ensures { result ≡ length self.entry.features.now / 3 }
    {
        self.features.len() / FEATURE_ROW_SIZE
    }

    // Row k of the feature table; outside it a row of zeros.
    #[tactic(auto, using(std::proofs::lemmas::Bool::Decides::nat_tests, crate::specs::ValueLaws::zero_feature), unfolding(crate::specs::Row::feature_or_zeros))]
    pub fn feature_at(self, k: usize) -> FeatureRow
        ensures { result ≡ feature_or_zeros self.entry.features.now k }
    {
        if k < self.feature_count() {
            feature_row(self.features, k)
        } else {
            FeatureRow::default()
        }
    }

    // As many of len bytes of the buffer from a place on as are there.
    pub fn bytes_at(self, at: u32, len: u32) -> &'a [u8]
        ensures { result.now ≡ bytes_at self.entry.buffer.now at len }
    {
        let buffer = self.buffer;
        let start = at as usize;
        let end = start + len as usize;
        if end <= buffer.len() {
            &buffer[start..end]
        } else {
            &buffer[buffer.len().min(start)..]
        }
    }

    // Has each table whole rows, with numbers as they should be (question 16)?
    #[tactic(auto, using(std::proofs::lemmas::Bool::Decides::nat_tests), unfolding(handshake::specs::Tables::whole_rows, handshake::specs::Tables::tables_whole))]
    pub fn is_whole(self) -> bool
        ensures { result ≡ tables_whole (tables_of self.entry) }
    {
        self.entries.len() % ENTRY_ROW_SIZE == 0
            && self.features.len() % FEATURE_ROW_SIZE == 0
            && every_entry(self)
            && every_id(self)
    }
}

// Field by field: an array pattern would name the twelve numbers twice.
fn entry_row(t: &[u32], k: usize) -> EntryRow
    requires { 12 * k + 12 ≤ length t.now }
    ensures { result ≡ entry_row t.now k }
{
    let b = ENTRY_ROW_SIZE * k;
    EntryRow {
        agentat: t[b],
        agentlen: t[b + 1],
        major: t[b + 2],
        minor: t[b + 3],
        patch: t[b + 4],
        nameat: t[b + 5],
        namelen: t[b + 6],
        addrlen: t[b + 7],
        addrat: t[b + 8],
        port: t[b + 9],
        first: t[b + 10],
        count: t[b + 11],
    }
}

fn feature_row(t: &[u32], k: usize) -> FeatureRow
    requires { 3 * k + 3 ≤ length t.now }
    ensures { result ≡ feature_row t.now k }
{
    let b = FEATURE_ROW_SIZE * k;
    FeatureRow {
        id: t[b],
        at: t[b + 1],
        len: t[b + 2],
    }
}

// How many bytes an address with the length byte L has.
pub fn address_size(l: u32) -> u32
    ensures { result ≡ l - 4 }
{
    l.saturating_sub(4)
}

// Has each row of the entry table numbers as they should be?
fn every_entry(t: Tables) -> bool
    ensures { result ≡ every entry_numbers (rows (entry_row t.entry.entries.now) 0 (length t.entry.entries.now / 12)) }
{
    (0..t.entry_count()).all(|k| entry_numbers(t.entry_at(k)))
}

// Are the version numbers bytes, the port below 65,536, and the address length 0, 8 or 20?
#[tactic(auto, using(std::proofs::lemmas::Bool::Decides::nat_tests), unfolding(handshake::specs::Tables::entry_numbers))]
fn entry_numbers(e: EntryRow) -> bool
    ensures { result ≡ entry_numbers e }
{
    e.major < 256
        && e.minor < 256
        && e.patch < 256
        && (e.port as u64) < PORT_COUNT
        && (e.addrlen == 0 || e.addrlen == IPV4_LENGTH as u32 || e.addrlen == IPV6_LENGTH as u32)
}

// Has each row of the feature table an id below 256?
fn every_id(t: Tables) -> bool
    ensures { result ≡ every feature_numbers (rows (feature_row t.entry.features.now) 0 (length t.entry.features.now / 3)) }
{
    (0..t.feature_count()).all(|k| t.feature_at(k).id < 256)
}
