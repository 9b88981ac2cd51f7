// The address of an entry, written into a lent output from a place: what `build` is given as a value
// (transport/handshake.rs).
// The room is asked first, and bytes are stored only where there is some.
#![tactic(auto)]

ghost use Rattle.std.specs.Prelude.{◌≡◌, [], ◌∷◌, ◌++◌, ◌+◌, ◌≤◌, length};
ghost use Rattle.wire.specs.Bytes.{big_endian_bytes};
ghost use Rattle.wire.specs.Output.{written_said, written, output_after, Wrote};
ghost use Rattle.vlq.specs.Vlq.{vlq_bytes};
ghost use Rattle.handshake.specs.Value.{address_bytes};

use handshake::{IPV4_LENGTH, IPV6_LENGTH};
use types::Address;
use vlq_write::{vlq_len, write_vlq};
use wire::Refusal;
use wire_numbers::big_endian_bytes;
use wire_output::ask_room;
use wire_part_write::write_part;

// Flag 0, or flag 1, L, the address's bytes and the port.
#[tactic(auto, unfolding(wire::specs::Output::asked, wire::specs::Output::written, wire::specs::Output::output_after))]
pub fn write_address(out: &mut [u8], at: usize, address: Address) -> Result<usize, Refusal>
    ensures value { written_said result ≡ written [] [] out.old at (address_bytes address) }
    ensures out_after { out.new ≡ output_after (written_said result) out.old at (address_bytes address) }
{
    let end = ask_room(out.len(), at, address_len(address))?;
    put_address(out, at, address);
    Ok(end)
}

// How many bytes an address is written as.
pub fn address_len(address: Address) -> usize
    ensures { (result ≡ length (address_bytes address)) × (result ≤ 28) }
{
    match address {
        Address::None => 1,
        Address::V4(_, port) => 6 + vlq_len(u64::from(port)),
        Address::V6(_, _, port) => 18 + vlq_len(u64::from(port)),
    }
}

// Stores an address, for which there is room, and gives the place after it.
fn put_address(out: &mut [u8], at: usize, address: Address) -> usize
    requires { at + length (address_bytes address) ≤ length out.old }
    ensures { Wrote out.old at (address_bytes address) result out.new }
{
    match address {
        Address::None => {
            out[at] = 0;
            at + 1
        }
        Address::V4(ip, port) => put_v4(out, at, ip, port),
        Address::V6(high, low, port) => put_v6(out, at, high, low, port),
    }
}

fn put_v4(out: &mut [u8], at: usize, ip: u32, port: u16) -> usize
    requires { at + (6 + length (vlq_bytes port)) ≤ length out.old }
    ensures { Wrote out.old at (1 ∷ 8 ∷ (big_endian_bytes 4 ip ++ vlq_bytes port)) result out.new }
{
    out[at] = 1;
    out[at + 1] = IPV4_LENGTH;
    let end = write_part(out, at + 2, &big_endian_bytes::<4>(u64::from(ip))).unwrap();
    write_vlq(out, end, u64::from(port)).unwrap()
}

fn put_v6(out: &mut [u8], at: usize, high: u64, low: u64, port: u16) -> usize
    requires { at + (18 + length (vlq_bytes port)) ≤ length out.old }
    ensures { Wrote out.old at (1 ∷ 20 ∷ (big_endian_bytes 8 high ++ (big_endian_bytes 8 low ++ vlq_bytes port))) result out.new }
{
    out[at] = 1;
    out[at + 1] = IPV6_LENGTH;
    let middle = write_part(out, at + 2, &big_endian_bytes::<8>(high)).unwrap();
    let end = write_part(out, middle, &big_endian_bytes::<8>(low)).unwrap();
    write_vlq(out, end, u64::from(port)).unwrap()
}
