// The archive that Rust and C link: each function of the crate haspeljo, under its clauses, exported. A slice passes as
// a pointer and a length, an array as a pointer.
#![tactic(auto)]

ghost use Rattle.std.specs.Prelude.{◌≡◌};
ghost use Rattle.wire.specs.Reader.{byte, part, part_of, map_answer};
ghost use Rattle.vlq_utf8.specs.Utf8.{utf8};
ghost use Rattle.vlq.specs.Vlq.{vlq, vlq_length};
ghost use Rattle.vlq.specs.ShortString.{short_string};
ghost use Rattle.vlq_zigzag.specs.Zigzag.{zigzag_encode, zigzag_decode};
ghost use Rattle.types.specs.declared.Address.TheVariants.{V4, V6};
ghost use Rattle.address_sanity.specs.Bogus.{bogus};
ghost use Rattle.blake2b.specs.Blake2b.{blake2b256, check};
ghost use Rattle.export_arrays.specs.Networks.{network_of};
ghost use Rattle.haspeljo.specs.Results.{ReaderLeaves, value_next, part_next, bit};

pub mod bodies;
pub mod frames;
pub mod handshakes;
pub mod sessions;
pub mod writers;

#[unsafe(no_mangle)]
pub extern "C" fn haspeljo_read_byte(s: &[u8], at: usize, r: &mut [u64; 2]) -> u8
    ensures { ReaderLeaves value_next (byte s.now at) result r.old r.new }
{
    haspeljo::haspeljo_read_byte(s, at, r)
}

#[unsafe(no_mangle)]
pub extern "C" fn haspeljo_read_vlq(s: &[u8], at: usize, r: &mut [u64; 2]) -> u8
    ensures { ReaderLeaves value_next (vlq s.now at) result r.old r.new }
{
    haspeljo::haspeljo_read_vlq(s, at, r)
}

#[unsafe(no_mangle)]
pub extern "C" fn haspeljo_read_vlq_length(s: &[u8], at: usize, r: &mut [u64; 2]) -> u8
    ensures { ReaderLeaves value_next (vlq_length s.now at) result r.old r.new }
{
    haspeljo::haspeljo_read_vlq_length(s, at, r)
}

#[unsafe(no_mangle)]
pub extern "C" fn haspeljo_read_short_string(s: &[u8], at: usize, r: &mut [u64; 3]) -> u8
    ensures { ReaderLeaves part_next (map_answer part_of (short_string s.now at)) result r.old r.new }
{
    haspeljo::haspeljo_read_short_string(s, at, r)
}

#[unsafe(no_mangle)]
pub extern "C" fn haspeljo_read_part(s: &[u8], at: usize, count: usize, r: &mut [u64; 3]) -> u8
    ensures { ReaderLeaves part_next (map_answer part_of (part count s.now at)) result r.old r.new }
{
    haspeljo::haspeljo_read_part(s, at, count, r)
}

#[unsafe(no_mangle)]
pub extern "C" fn haspeljo_zigzag_encode(value: i32) -> u32
    ensures { result ≡ zigzag_encode value }
{
    haspeljo::haspeljo_zigzag_encode(value)
}

#[unsafe(no_mangle)]
pub extern "C" fn haspeljo_zigzag_decode(value: u32) -> i32
    ensures { result ≡ zigzag_decode value }
{
    haspeljo::haspeljo_zigzag_decode(value)
}

#[unsafe(no_mangle)]
pub extern "C" fn haspeljo_zigzag_encode_i64(value: i64) -> u64
    ensures { result ≡ zigzag_encode value }
{
    haspeljo::haspeljo_zigzag_encode_i64(value)
}

#[unsafe(no_mangle)]
pub extern "C" fn haspeljo_zigzag_decode_i64(value: u64) -> i64
    ensures { result ≡ zigzag_decode value }
{
    haspeljo::haspeljo_zigzag_decode_i64(value)
}

#[unsafe(no_mangle)]
pub extern "C" fn haspeljo_is_utf8(s: &[u8]) -> u8
    ensures { result ≡ bit (utf8 s.now) }
{
    haspeljo::haspeljo_is_utf8(s)
}

#[unsafe(no_mangle)]
pub extern "C" fn haspeljo_is_bogus_v4(address: u32, port: u16, mainnet: u8) -> u8
    ensures { result ≡ bit (bogus (V4 address port) (network_of mainnet)) }
{
    haspeljo::haspeljo_is_bogus_v4(address, port, mainnet)
}

#[unsafe(no_mangle)]
pub extern "C" fn haspeljo_is_bogus_v6(high: u64, low: u64, port: u16, mainnet: u8) -> u8
    ensures { result ≡ bit (bogus (V6 high low port) (network_of mainnet)) }
{
    haspeljo::haspeljo_is_bogus_v6(high, low, port, mainnet)
}

#[unsafe(no_mangle)]
pub extern "C" fn haspeljo_blake2b256(s: &[u8], r: &mut [u8; 32])
    ensures { r.new ≡ blake2b256 s.now }
{
    haspeljo::haspeljo_blake2b256(s, r)
}

#[unsafe(no_mangle)]
pub extern "C" fn haspeljo_frame_check(s: &[u8], r: &mut [u8; 4])
    ensures { r.new ≡ check s.now }
{
    haspeljo::haspeljo_frame_check(s, r)
}
