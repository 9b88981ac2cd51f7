// The functions that Rust and C link, in a form that C can call; the crate haspeljo_c exports them. One that can refuse
// returns 0, or document 01's refusal number with the lent array and output as they were.
// Each reader matches its answer: with Result::map and one function that stores the numbers the proofs did not close.
#![tactic(auto)]

ghost use Rattle.std.specs.Prelude.{◌≡◌};
ghost use Rattle.wire.specs.Reader.{byte, part, part_of, map_answer};
ghost use Rattle.vlq_utf8.specs.Utf8.{utf8};
ghost use Rattle.vlq.specs.Vlq.{vlq, vlq_length};
ghost use Rattle.vlq.specs.ShortString.{short_string};
ghost use Rattle.vlq_zigzag.specs.Zigzag.{zigzag_encode, zigzag_decode};
ghost use Rattle.types.specs.declared.Address.TheVariants.{V4, V6};
ghost use Rattle.address_sanity.specs.Bogus.{bogus};
ghost use Rattle.blake2b.specs.Blake2b.{blake2b256, check};
ghost use Rattle.export_arrays.specs.Networks.{network_of};
ghost use Rattle.haspeljo.specs.Results.{ReaderLeaves, value_next, part_next, bit};

pub mod bodies;
pub mod frames;
pub mod handshakes;
pub mod sessions;
pub mod writers;

use export_arrays::network_of;
use types::Address;
use vlq::Cursor;

// r is the value and the next place.
pub fn haspeljo_read_byte(s: &[u8], at: usize, r: &mut [u64; 2]) -> u8
    ensures { ReaderLeaves value_next (byte s.now at) result r.old r.new }
{
    let c = Cursor { at };
    match c.read_byte(s) {
        Ok((v, next)) => {
            *r = [v as u64, next.at as u64];
            0
        }
        Err(m) => m.number(),
    }
}

// r is the value and the next place.
pub fn haspeljo_read_vlq(s: &[u8], at: usize, r: &mut [u64; 2]) -> u8
    ensures { ReaderLeaves value_next (vlq s.now at) result r.old r.new }
{
    let c = Cursor { at };
    match c.read_vlq(s) {
        Ok((v, next)) => {
            *r = [v, next.at as u64];
            0
        }
        Err(m) => m.number(),
    }
}

// r is the length and the next place.
pub fn haspeljo_read_vlq_length(s: &[u8], at: usize, r: &mut [u64; 2]) -> u8
    ensures { ReaderLeaves value_next (vlq_length s.now at) result r.old r.new }
{
    let c = Cursor { at };
    match c.read_vlq_length(s) {
        Ok((v, next)) => {
            *r = [v, next.at as u64];
            0
        }
        Err(m) => m.number(),
    }
}

// r is the string's place, its length and the next place.
pub fn haspeljo_read_short_string(s: &[u8], at: usize, r: &mut [u64; 3]) -> u8
    ensures { ReaderLeaves part_next (map_answer part_of (short_string s.now at)) result r.old r.new }
{
    let c = Cursor { at };
    match c.read_short_string(s) {
        Ok((p, next)) => {
            *r = [p.start as u64, p.len as u64, next.at as u64];
            0
        }
        Err(m) => m.number(),
    }
}

// count bytes: r is their place, their number and the next place.
pub fn haspeljo_read_part(s: &[u8], at: usize, count: usize, r: &mut [u64; 3]) -> u8
    ensures { ReaderLeaves part_next (map_answer part_of (part count s.now at)) result r.old r.new }
{
    let c = Cursor { at };
    match c.read_part(s, count) {
        Ok((p, next)) => {
            *r = [p.start as u64, p.len as u64, next.at as u64];
            0
        }
        Err(m) => m.number(),
    }
}

pub fn haspeljo_zigzag_encode(value: i32) -> u32
    ensures { result ≡ zigzag_encode value }
{
    vlq_zigzag::zigzag_encode(value)
}

pub fn haspeljo_zigzag_decode(value: u32) -> i32
    ensures { result ≡ zigzag_decode value }
{
    vlq_zigzag::zigzag_decode(value)
}

pub fn haspeljo_zigzag_encode_i64(value: i64) -> u64
    ensures { result ≡ zigzag_encode value }
{
    vlq_zigzag::zigzag_encode_i64(value)
}

pub fn haspeljo_zigzag_decode_i64(value: u64) -> i64
    ensures { result ≡ zigzag_decode value }
{
    vlq_zigzag::zigzag_decode_i64(value)
}

// 1 if all of s is UTF-8, otherwise 0.
pub fn haspeljo_is_utf8(s: &[u8]) -> u8
    ensures { result ≡ bit (utf8 s.now) }
{
    u8::from(vlq_utf8::is_utf8(s))
}

// 1 if the address is bogus on mainnet, or on testnet where mainnet is 0; otherwise 0.
pub fn haspeljo_is_bogus_v4(address: u32, port: u16, mainnet: u8) -> u8
    ensures { result ≡ bit (bogus (V4 address port) (network_of mainnet)) }
{
    let network = network_of(mainnet);
    u8::from(address_sanity::is_bogus_address(Address::V4(address, port), network))
}

pub fn haspeljo_is_bogus_v6(high: u64, low: u64, port: u16, mainnet: u8) -> u8
    ensures { result ≡ bit (bogus (V6 high low port) (network_of mainnet)) }
{
    let network = network_of(mainnet);
    u8::from(address_sanity::is_bogus_address(Address::V6(high, low, port), network))
}

pub fn haspeljo_blake2b256(s: &[u8], r: &mut [u8; 32])
    ensures { r.new ≡ blake2b256 s.now }
{
    *r = blake2b_hash::digest(s);
}

// The first four bytes of the digest.
pub fn haspeljo_frame_check(s: &[u8], r: &mut [u8; 4])
    ensures { r.new ≡ check s.now }
{
    *r = blake2b_hash::check(s);
}
