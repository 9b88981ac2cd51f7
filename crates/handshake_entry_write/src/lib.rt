// Entries, written from a table of rows beside a lent buffer (transport/handshake.rs, serialize_peer_entry).
// A writer asks all its questions first and stores only once each is answered "yes".
#![tactic(auto)]

ghost use Rattle.std.specs.Prelude.{◌||◌, true, ◌≡◌, ◌+◌, ◌-◌, ◌/◌, ◌≤◌, eqb, leb, length};
ghost use mathlib.Core.List.{[], ◌∷◌, map, flat_map};
ghost use Rattle.wire.specs.Bytes.{every};
ghost use Rattle.wire.specs.Output.{written_said, output_after, Wrote};
ghost use Rattle.vlq.specs.Vlq.{vlq_bytes};
ghost use Rattle.vlq.specs.ShortString.{max_short_string, short_string_bytes};
ghost use Rattle.handshake.specs.Entry.{address_of};
ghost use Rattle.handshake.specs.Value.{address_bytes, feature_bytes, entry_bytes, short_strings};
ghost use Rattle.handshake.specs.Tables.{own_rows, bytes_at, feature_from_row, feature_numbers, entry_from_row, entries_of, entry_numbers, feature_inside};
ghost use Rattle.handshake.specs.Writes.{entry_at_row, entry_written};
ghost use Rattle.handshake_entry_rows.specs.Row.{tables_of};
ghost use Rattle.handshake_entry_ask.specs.Asked.{head_bytes};
ghost use Rattle.handshake_entry_write.specs.Ready.{Ready, EntriesReady};
ghost use Rattle.handshake_entry_write.specs.Rows.{rows_written};

use handshake::{EntryRow, FEATURE_ROW_SIZE, FeatureRow};
use handshake_entry_ask::{ask_entries, ask_entry};
use handshake_entry_rows::{Tables, address_size};
use vlq_write::write_vlq;
use wire::Refusal;
use wire_output::ask_output;
use wire_part_write::write_part;

// The entry in row k. 16 is asked of every row of both tables.
pub fn write_entry(out: &mut [u8], at: usize, t: Tables, k: usize) -> Result<usize, Refusal>
    ensures value { written_said result ≡ entry_written (tables_of t.entry) k out.old at }
    ensures out_after { out.new ≡ output_after (written_said result) out.old at (entry_bytes (entry_at_row (tables_of t.entry) k)) }
{
    let end = ask_output(out.len(), at, ask_entry(t, k))?;
    put_entry(out, at, t, t.entry_at(k));
    Ok(end)
}

// All entries of a table, one after the other: the end of a body that has `before` bytes before them.
pub fn write_rows(out: &mut [u8], at: usize, before: usize, t: Tables) -> Result<usize, Refusal>
    ensures value { written_said result ≡ rows_written (tables_of t.entry) before out.old at }
    ensures out_after { out.new ≡ output_after (written_said result) out.old at (flat_map entry_bytes (entries_of (tables_of t.entry))) }
{
    let end = ask_output(out.len(), at, ask_entries(before, t))?;
    put_rows(out, at, t);
    Ok(end)
}

// Stores all entries of a table, one after the other, and gives the place after them.
fn put_rows(out: &mut [u8], at: usize, t: Tables) -> usize
    requires entries_ready { EntriesReady (tables_of t) }
    requires t_in_bounds { at + length (flat_map entry_bytes (entries_of (tables_of t))) ≤ length out.old }
    ensures { Wrote out.old at (flat_map entry_bytes (entries_of (tables_of t.entry))) result out.new }
{
    let mut o = at;
    for k in 0..t.entry_count() {
        o = put_entry(out, o, t, t.entry_at(k));
    }
    o
}

// Stores the entry of a row and gives the place after it.
fn put_entry(out: &mut [u8], at: usize, t: Tables, e: EntryRow) -> usize
    requires ready { Ready (tables_of t) e }
    requires e_in_bounds { at + length (entry_bytes (entry_from_row (tables_of t) e)) ≤ length out.old }
    ensures { Wrote out.old at (entry_bytes (entry_from_row (tables_of t.entry) e)) result out.new }
{
    let a = put_head(out, at, t, e);
    let b = put_address(out, a, t, e);
    out[b] = e.count as u8;
    put_features(out, b + 1, t, e)
}

// Stores agent, version and name.
fn put_head(out: &mut [u8], at: usize, t: Tables, e: EntryRow) -> usize
    requires e_value { (entry_numbers e ≡ true) × (short_strings (entry_from_row (tables_of t) e) ≡ true) }
    requires e_in_bounds { at + length (head_bytes t.buffer.now e) ≤ length out.old }
    ensures { Wrote out.old at (head_bytes t.entry.buffer.now e) result out.new }
{
    let a = put_string(out, at, t.bytes_at(e.agentat, e.agentlen));
    let b = put_version(out, a, e);
    put_string(out, b, t.bytes_at(e.nameat, e.namelen))
}

// The version's three bytes. A row's numbers are u32; that they are bytes is question 16.
fn put_version(out: &mut [u8], at: usize, e: EntryRow) -> usize
    requires e_value { entry_numbers e ≡ true }
    requires at_in_bounds { at + 3 ≤ length out.old }
    ensures { Wrote out.old at (e.major ∷ e.minor ∷ e.patch ∷ []) result out.new }
{
    out[at] = e.major as u8;
    out[at + 1] = e.minor as u8;
    out[at + 2] = e.patch as u8;
    at + 3
}

// Stores the length byte and all bytes of s. Not by `write_short_string`, which would ask once more whether s is UTF-8.
// Compiled into `put_head`: as a function of its own it takes 5 in 100 of a short entry's time more.
#[inline(always)]
fn put_string(out: &mut [u8], at: usize, s: &[u8]) -> usize
    requires s_len_bound { length s.now ≤ max_short_string }
    requires s_in_bounds { at + length (short_string_bytes s.now) ≤ length out.old }
    ensures { Wrote out.old at (short_string_bytes s.now) result out.new }
{
    out[at] = s.len() as u8;
    write_part(out, at + 1, s).unwrap()
}

// Stores the address flag, and the address if there is one.
fn put_address(out: &mut [u8], at: usize, t: Tables, e: EntryRow) -> usize
    requires e_value { (entry_numbers e ≡ true) × ((eqb e.addrlen 0 || leb (e.addrat + (e.addrlen - 4)) (length t.buffer.now)) ≡ true) }
    requires port_in_bounds { at + length (address_bytes (address_of e.addrlen (bytes_at t.buffer.now e.addrat (e.addrlen - 4)) e.port)) ≤ length out.old }
    ensures { Wrote out.old at (address_bytes (address_of e.addrlen (bytes_at t.entry.buffer.now e.addrat (e.addrlen - 4)) e.port)) result out.new }
{
    if e.addrlen == 0 {
        out[at] = 0;
        return at + 1;
    }
    let bytes = t.bytes_at(e.addrat, address_size(e.addrlen));
    out[at] = 1;
    out[at + 1] = e.addrlen as u8;
    let a = write_part(out, at + 2, bytes).unwrap();
    put_vlq(out, a, e.port as u64)
}

// Stores the features of a row, whose bodies are inside. Rows and bodies are read where they are known to stand,
// without the tests of `Tables::feature_at` and `bytes_at`: with these an entry of many features takes a third more
// time.
fn put_features(out: &mut [u8], at: usize, t: Tables, e: EntryRow) -> usize
    requires count_in_bounds { e.first + e.count ≤ length t.features.now / 3 }
    requires count_value { (every feature_numbers (own_rows (tables_of t) e) ≡ true) × (every (feature_inside t.buffer.now) (own_rows (tables_of t) e) ≡ true) }
    requires count_in_bounds_2 { at + length (flat_map feature_bytes (map (feature_from_row t.buffer.now) (own_rows (tables_of t) e))) ≤ length out.old }
    ensures { Wrote out.old at (flat_map feature_bytes (map (feature_from_row t.entry.buffer.now) (own_rows (tables_of t.entry) e))) result out.new }
{
    let first = e.first as usize;
    let mut o = at;
    for k in 0..e.count as usize {
        let b = FEATURE_ROW_SIZE * (first + k);
        let f = FeatureRow {
            id: t.features[b],
            at: t.features[b + 1],
            len: t.features[b + 2],
        };
        o = put_feature(out, o, t.buffer, f);
    }
    o
}

fn put_feature(out: &mut [u8], at: usize, buffer: &[u8], f: FeatureRow) -> usize
    requires f_value { (feature_numbers f ≡ true) × (f.at + f.len ≤ length buffer.now) }
    requires f_in_bounds { at + length (feature_bytes (feature_from_row buffer.now f)) ≤ length out.old }
    ensures { Wrote out.old at (feature_bytes (feature_from_row buffer.now f)) result out.new }
{
    let body = part_of(buffer, f.at, f.len);
    out[at] = f.id as u8;
    let a = put_vlq(out, at + 1, body.len() as u64);
    write_part(out, a, body).unwrap()
}

// The bytes of the buffer that a row names; all are there.
fn part_of(buffer: &[u8], at: u32, len: u32) -> &[u8]
    requires { at + len ≤ length buffer.now }
    ensures { result.now ≡ bytes_at buffer.now at len }
{
    let start = at as usize;
    &buffer[start..start + len as usize]
}

// Stores the VLQ of value and gives the place after it. Most have one byte, whose room is known.
fn put_vlq(out: &mut [u8], at: usize, value: u64) -> usize
    requires { at + length (vlq_bytes value) ≤ length out.old }
    ensures { Wrote out.old at (vlq_bytes value) result out.new }
{
    if value < 0x80 {
        out[at] = value as u8;
        return at + 1;
    }
    write_vlq(out, at, value).unwrap()
}
