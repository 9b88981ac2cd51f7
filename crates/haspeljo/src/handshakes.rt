// Entries and handshakes for Rust and C.
ghost use Rattle.wire.specs.Reader.{and_then, place, map_answer};
ghost use Rattle.handshake.specs.Entry.{feature, entry, handshake};
ghost use Rattle.handshake.specs.Verdict.{validate_peer};
ghost use Rattle.handshake_read.specs.Parts.{feature_at};
ghost use Rattle.handshake_read.specs.Answers.{feature_of, peer_spec_of, handshake_of};
ghost use Rattle.handshake_verdict.specs.Answers.{handshake_verdict, entry_url};
ghost use Rattle.export_arrays.specs.Networks.{network_of};
ghost use Rattle.export_arrays.specs.Entries.{handshake_next, entry_next, feature_next, size_only, url_next};
ghost use Rattle.haspeljo.specs.Results.{ReaderLeaves, value_next};

use export_arrays::entries::{entry_numbers, url_numbers};
use vlq::Cursor;

// A handshake from the first byte on. r is the timestamp; of the entry the agent's place and length, three version numbers, the name's place and
// length, the address (0 for none, 4 or 6; its number, of IPv6 the high and the low half; its port), how many features there are and the place of
// the first; and the next place.
pub fn haspeljo_parse(s: &[u8], r: &mut [u64; 15]) -> u8
    ensures { ReaderLeaves handshake_next (map_answer handshake_of (handshake s.now 0)) result
        r.old r.new }
{
    match handshake_read::parse(s) {
        Ok((h, next)) => {
            *r = entry_numbers(h.timestamp, h.peer, next.at);
            0
        }
        Err(m) => m.number(),
    }
}

// r is how many bytes the handshake takes.
pub fn haspeljo_measure_size(s: &[u8], r: &mut [u64; 1]) -> u8
    ensures { ReaderLeaves size_only (and_then handshake (λ h. place) s.now 0) result r.old r.new }
{
    match handshake_read::measure_size(s) {
        Ok(n) => {
            *r = [n as u64];
            0
        }
        Err(m) => m.number(),
    }
}

// An entry at a place. r is 0, and then as for a handshake.
pub fn haspeljo_parse_peer_entry(s: &[u8], at: usize, r: &mut [u64; 15]) -> u8
    ensures { ReaderLeaves entry_next (map_answer peer_spec_of (entry s.now at)) result r.old r.new }
{
    match handshake_read::parse_peer_entry(s, Cursor { at }) {
        Ok((peer, next)) => {
            *r = entry_numbers(0, peer, next.at);
            0
        }
        Err(m) => m.number(),
    }
}

// The feature at a place: r is its id, the place and length of its body, and the next place.
pub fn haspeljo_read_feature(s: &[u8], at: usize, r: &mut [u64; 4]) -> u8
    ensures { ReaderLeaves feature_next (map_answer feature_of (feature s.now at)) result r.old r.new }
{
    match handshake_read::read_feature(s, Cursor { at }) {
        Ok((f, next)) => {
            *r = [
                f.id as u64,
                f.body.start as u64,
                f.body.len as u64,
                next.at as u64,
            ];
            0
        }
        Err(m) => m.number(),
    }
}

// A feature of the entry at a place, by index.
pub fn haspeljo_feature_by_index(s: &[u8], at: usize, index: usize, r: &mut [u64; 4]) -> u8
    ensures { ReaderLeaves feature_next (map_answer feature_of (feature_at index s.now at)) result
        r.old r.new }
{
    match handshake_read::feature_by_index(s, Cursor { at }, index) {
        Ok((f, next)) => {
            *r = [
                f.id as u64,
                f.body.start as u64,
                f.body.len as u64,
                next.at as u64,
            ];
            0
        }
        Err(m) => m.number(),
    }
}

// r is the verdict on the handshake, and where the handshake ends.
pub fn haspeljo_validate_peer(s: &[u8], mainnet: u8, r: &mut [u64; 2]) -> u8
    ensures { ReaderLeaves value_next (map_answer (handshake_verdict (network_of mainnet)) (handshake s.now 0)) result
        r.old r.new }
{
    match handshake_verdict::validate_peer(s, crate::network_of(mainnet)) {
        Ok((v, next)) => {
            *r = [u64::from(v.number()), next.at as u64];
            0
        }
        Err(m) => m.number(),
    }
}

// r is the verdict on the entry at a place, and where the entry ends.
pub fn haspeljo_validate_entry(s: &[u8], at: usize, mainnet: u8, r: &mut [u64; 2]) -> u8
    ensures { ReaderLeaves value_next (map_answer (validate_peer (network_of mainnet)) (entry s.now at)) result
        r.old r.new }
{
    match handshake_verdict::validate_entry(s, Cursor { at }, crate::network_of(mainnet)) {
        Ok((v, next)) => {
            *r = [u64::from(v.number()), next.at as u64];
            0
        }
        Err(m) => m.number(),
    }
}

// The REST API URL of the entry at a place: r is 1, its place and length; or three zeros if there is none; and where the entry ends.
pub fn haspeljo_rest_api_url(s: &[u8], at: usize, r: &mut [u64; 4]) -> u8
    ensures { ReaderLeaves url_next (map_answer entry_url (entry s.now at)) result r.old r.new }
{
    match handshake_verdict::rest_api_url(s, Cursor { at }) {
        Ok((u, next)) => {
            *r = url_numbers(u, next.at);
            0
        }
        Err(m) => m.number(),
    }
}
