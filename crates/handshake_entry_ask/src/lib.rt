// What is asked of entries before they are written from a table of rows beside a lent buffer (document 01,
// "Questions", Writers): how many bytes they are written as, or the first question answered "no".
#![tactic(auto)]

ghost use Rattle.std.specs.Prelude.{true, ◌≡◌, ℕ, ◌+◌, ◌/◌, ◌≤◌, min, leb, length};
ghost use mathlib.Core.List.{List, [], ◌∷◌, map, flat_map};
ghost use Rattle.wire.specs.Bytes.{every};
ghost use Rattle.wire.specs.Refusals.{number};
ghost use Rattle.wire.specs.Output.{ask, sized, Bytes, size_said};
ghost use Rattle.wire.specs.Earliest.{position, earlier, together};
ghost use Rattle.vlq.specs.Vlq.{limit, vlq_bytes};
ghost use Rattle.handshake.specs.Entry.{address_of};
ghost use Rattle.handshake.specs.Value.{address_bytes, feature_bytes, short_strings, utf8_strings, lengths_within};
ghost use Rattle.handshake.specs.Tables.{own_rows, entry_rows, feature_from_row, entry_from_row, feature_inside, entry_inside};
ghost use Rattle.handshake_entry_rows.specs.Row.{tables_of};
ghost use Rattle.handshake_entry_ask.specs.Asked.{row_size, entry_size, entries_size, size_of, row_numbers, counted_to_limit, body_size};

use handshake::{EntryRow, FEATURE_ROW_SIZE, IPV4_LENGTH, IPV6_LENGTH, MAX_FEATURES};
use handshake_entry_rows::{Tables, address_size};
use vlq::MAX_SHORT_STRING;
use vlq_utf8::is_utf8;
use vlq_write::vlq_len;
use wire::{MAX_BODY_SIZE, Refusal};

// Of the entry in row k. 16 is asked of every row of both tables.
pub fn ask_entry(t: Tables, k: usize) -> Result<usize, Refusal>
    ensures { size_said result ≡ entry_size (tables_of t.entry) k }
{
    if !t.is_whole() {
        return Err(Refusal::BadTable);
    }
    if t.entry_count() <= k {
        return Err(Refusal::Outside);
    }
    ask_row(t, t.entry_at(k))
}

// Of all entries of the table, the end of a body that has `before` bytes before them: each question over all rows
// before the next.
pub fn ask_entries(before: usize, t: Tables) -> Result<usize, Refusal>
    ensures { size_said result ≡ entries_size (tables_of t.entry) before }
{
    if !t.is_whole() {
        return Err(Refusal::BadTable);
    }
    ask_body(before, ask_rows(t)?)
}

// Of the entry of a row, after 16.
pub fn ask_row(t: Tables, e: EntryRow) -> Result<usize, Refusal>
    ensures { size_said result ≡ row_size (tables_of t.entry) e }
{
    if !row_inside(t, e) {
        return Err(Refusal::Outside);
    }
    if !strings_short(t, e) {
        return Err(Refusal::StringTooLong);
    }
    if !strings_utf8(t, e) {
        return Err(Refusal::InvalidUtf8);
    }
    if MAX_FEATURES < e.count as usize {
        return Err(Refusal::InvalidInput);
    }
    let before = 6 + e.agentlen as usize + e.namelen as usize + address_len(e);
    features_size(before, t, e)
}

// The body's question, of n bytes behind `before` others.
#[tactic(auto, using(std::proofs::lemmas::Bool::Decides::nat_tests), unfolding(crate::specs::Asked::body_size))]
fn ask_body(before: usize, n: usize) -> Result<usize, Refusal>
    ensures { size_said result ≡ body_size before (Bytes n) }
{
    if n <= MAX_BODY_SIZE && before <= MAX_BODY_SIZE - n {
        Ok(n)
    } else {
        Err(Refusal::BodyTooLarge)
    }
}

// Of all rows after 16, their bytes counted up to MAX_BODY_SIZE + 1.
fn ask_rows(t: Tables) -> Result<usize, Refusal>
    ensures { size_said result ≡ counted_to_limit (size_of (tables_of t.entry) (entry_rows (tables_of t.entry))) }
{
    let mut size = Ok(0);
    for k in 0..t.entry_count() {
        size = add_row(size, ask_row(t, t.entry_at(k)));
    }
    size
}

// Adds what is said of a row to what is said of the rows before it.
#[tactic(auto, unfolding(wire::specs::Earliest::together, crate::specs::Asked::counted_to_limit))]
fn add_row(size: Result<usize, Refusal>, own: Result<usize, Refusal>) -> Result<usize, Refusal>
    ensures { size_said result ≡ counted_to_limit (together row_numbers (size_said size) (size_said own)) }
{
    match (size, own) {
        (Ok(m), Ok(n)) => Ok(add_bytes(m, n)),
        (Ok(_), Err(q)) => Err(q),
        (Err(p), Ok(_)) => Err(p),
        (Err(p), Err(q)) => Err(first_of(p, q)),
    }
}

// The sum, up to MAX_BODY_SIZE + 1.
fn add_bytes(m: usize, n: usize) -> usize
    ensures { result ≡ min (m + n) (limit + 1) }
{
    m.saturating_add(n).min(MAX_BODY_SIZE + 1)
}

// Of two refusals the one whose question comes first in 01's order, whichever row fails it.
#[tactic(auto, using(std::proofs::lemmas::Bool::Decides::nat_tests), unfolding(wire::specs::Earliest::earlier))]
fn first_of(p: Refusal, q: Refusal) -> Refusal
    ensures { number result ≡ earlier row_numbers (number p) (number q) }
{
    if place_in_order(q) < place_in_order(p) {
        q
    } else {
        p
    }
}

#[tactic(auto, using(std::proofs::lemmas::Bool::Decides::nat_tests), unfolding(wire::specs::Earliest::position))]
fn place_in_order(refusal: Refusal) -> u8
    ensures { result ≡ position row_numbers (number refusal) }
{
    match refusal {
        Refusal::Outside => 0,
        Refusal::StringTooLong => 1,
        Refusal::InvalidUtf8 => 2,
        Refusal::InvalidInput => 3,
        Refusal::LengthTooLarge => 4,
        _ => 5,
    }
}

// Is each part that a row names inside the buffer, and each feature row inside its table (question 12)?
#[tactic(auto, using(std::proofs::lemmas::Bool::Decides::nat_tests), unfolding(handshake::specs::Tables::entry_inside, handshake::specs::Tables::inside))]
fn row_inside(t: Tables, e: EntryRow) -> bool
    ensures { result ≡ entry_inside (tables_of t.entry) e }
{
    let len = t.buffer.len();
    is_inside(len, e.agentat, e.agentlen)
        && is_inside(len, e.nameat, e.namelen)
        && (e.addrlen == 0 || is_inside(len, e.addrat, address_size(e.addrlen)))
        && is_inside(t.feature_count(), e.first, e.count)
        && features_inside(t, e)
}

// Are n of len from a place on?
fn is_inside(len: usize, at: u32, n: u32) -> bool
    ensures { result ≡ leb (at + n) len }
{
    at as usize + n as usize <= len
}

// Is the body of each feature inside?
fn features_inside(t: Tables, e: EntryRow) -> bool
    requires { e.first + e.count ≤ length t.features.now / 3 }
    ensures { result ≡ every (feature_inside t.entry.buffer.now) (own_rows (tables_of t.entry) e) }
{
    let first = e.first as usize;
    (first..first + e.count as usize).all(|k| {
        let f = t.feature_at(k);
        is_inside(t.buffer.len(), f.at, f.len)
    })
}

// Have agent and name at most 255 bytes (question 13)?
#[tactic(auto, using(std::proofs::lemmas::Bool::Decides::nat_tests), unfolding(handshake::specs::Value::short_strings, handshake::specs::Tables::entry_from_row))]
fn strings_short(t: Tables, e: EntryRow) -> bool
    ensures { result ≡ short_strings (entry_from_row (tables_of t.entry) e) }
{
    t.bytes_at(e.agentat, e.agentlen).len() <= MAX_SHORT_STRING
        && t.bytes_at(e.nameat, e.namelen).len() <= MAX_SHORT_STRING
}

// Are agent and name UTF-8 (question 4)?
#[tactic(auto, using(std::proofs::lemmas::Bool::Decides::nat_tests), unfolding(handshake::specs::Value::utf8_strings, handshake::specs::Tables::entry_from_row))]
fn strings_utf8(t: Tables, e: EntryRow) -> bool
    ensures { result ≡ utf8_strings (entry_from_row (tables_of t.entry) e) }
{
    is_utf8(t.bytes_at(e.agentat, e.agentlen)) && is_utf8(t.bytes_at(e.nameat, e.namelen))
}

// How many bytes an address is written as.
fn address_len(e: EntryRow) -> usize
    ensures { ((bytes : List ℕ) → result ≡ length (address_bytes (address_of e.addrlen bytes e.port))) × (result ≤ 100) }
{
    if e.addrlen == IPV4_LENGTH as u32 {
        return 6 + vlq_len(e.port as u64);
    }
    if e.addrlen == IPV6_LENGTH as u32 {
        return 18 + vlq_len(e.port as u64);
    }
    1
}

// Of `before` bytes and the features of a row, whose bodies are inside: 3 is asked of each length. The lengths are read
// where they are known to stand, without the tests of `Tables::feature_at` and `bytes_at`, which take their time.
fn features_size(before: usize, t: Tables, e: EntryRow) -> Result<usize, Refusal>
    requires before_bound { (before ≤ 1000) × (e.count ≤ 255) × (e.first + e.count ≤ length t.features.now / 3) }
    requires count_value { every (feature_inside t.buffer.now) (own_rows (tables_of t) e) ≡ true }
    ensures { size_said result ≡ sized (ask 3 (lengths_within (entry_from_row (tables_of t.entry) e)) ∷ []) (before + length (flat_map feature_bytes (map (feature_from_row t.entry.buffer.now) (own_rows (tables_of t.entry) e)))) }
{
    let first = e.first as usize;
    let mut m = before;
    for k in 0..e.count as usize {
        let n = t.features[FEATURE_ROW_SIZE * (first + k) + 2] as usize;
        if MAX_BODY_SIZE < n {
            return Err(Refusal::LengthTooLarge);
        }
        m += feature_len(n);
    }
    Ok(m)
}

// How many bytes a feature with a body of n bytes is written as.
fn feature_len(n: usize) -> usize
    requires { n ≤ limit }
    ensures { (result ≡ 1 + length (vlq_bytes n) + n) × (result ≤ limit + 11) }
{
    1 + vlq_len(n as u64) + n
}
