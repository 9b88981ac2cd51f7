// Addresses of entries, read from lent bytes (transport/handshake.rs).
#![tactic(auto)]

ghost use Rattle.std.specs.Prelude.{◌≡◌, ◌+◌, ◌-◌, ◌≤◌, length, take, drop};
ghost use Rattle.handshake.specs.Entry.{address_of, address};
ghost use Rattle.handshake_address_read.specs.DeclaredAddress.{declared_address};
ghost use Rattle.vlq.specs.Answers.{read_answer};

use handshake::{IPV4_LENGTH, IPV6_LENGTH, PORT_COUNT};
use types::Address;
use vlq::{Cursor, Read};
use wire_numbers::big_endian;

// An address flag byte, and an address if it isn't 0.
pub fn read_declared_address(s: &[u8], c: Cursor) -> Read<Address>
    ensures { read_answer result ≡ declared_address s.now c.at }
{
    let (flag, d) = c.read_byte(s)?;
    if flag == 0 {
        return Ok((Address::None, d));
    }
    read_address(s, d)
}

// A length byte, four bytes fewer, and a port.
fn read_address(s: &[u8], c: Cursor) -> Read<Address>
    ensures { read_answer result ≡ address s.now c.at }
{
    let (l, d) = c.read_byte(s)?;
    let (bytes, e) = d.read_part(s, minus_four(l))?;
    let (port, f) = e.read_vlq(s)?;
    Ok((address_of(s, l, bytes.start, (port % PORT_COUNT) as u16), f))
}

// Four less, or 0.
fn minus_four(l: u8) -> usize
    ensures { result ≡ l - 4 }
{
    if l < 4 { 0 } else { (l - 4) as usize }
}

// The address whose length byte is l and whose bytes start at a place: IPv4 or IPv6, or none.
fn address_of(s: &[u8], l: u8, at: usize, port: u16) -> Address
    requires { at + (l - 4) ≤ length s.now }
    ensures { result ≡ address_of l (take (l - 4) (drop at s.now)) port }
{
    if l == IPV4_LENGTH {
        return Address::V4(big_endian::<4>(&s[at..at + 4]) as u32, port);
    }
    if l == IPV6_LENGTH {
        let high = big_endian::<8>(&s[at..at + 8]);
        let low = big_endian::<8>(&s[at + 8..at + 16]);
        return Address::V6(high, low, port);
    }
    Address::None
}
