// Numbers of N bytes, the highest byte first: read from lent bytes, and given as bytes by value.
// Lend the very bytes, as `&s[at..at + 4]`: their count is then known where this is compiled, and nothing is tested.
#![tactic(auto)]

ghost use Rattle.std.specs.Prelude.{◌≡◌, ◌%◌, ◌^◌, ◌≤◌, ◌<◌, take};
ghost use Rattle.wire.specs.Bytes.{big_endian, big_endian_bytes};

// The number of the first N bytes, modulo 2^64, which 8 bytes don't reach. Where there are fewer, it is that of those.
pub fn big_endian<const N: usize>(s: &[u8]) -> u64
    ensures modulo { result ≡ big_endian (take N s.now) % 2 ^ 64 }
    ensures number { N ≤ 8 → result ≡ big_endian (take N s.now) }
    ensures fits { N ≤ 8 → result < 256 ^ N }
{
    let mut n: u64 = 0;
    for byte in s.iter().take(N) {
        n = n.wrapping_mul(256) + u64::from(*byte);
    }
    n
}

// The lowest N bytes of n.
pub fn big_endian_bytes<const N: usize>(n: u64) -> [u8; N]
    ensures { result ≡ big_endian_bytes N n }
{
    let mut bytes = [0; N];
    let mut rest = n;
    for i in (0..N).rev() {
        bytes[i] = (rest % 256) as u8;
        rest /= 256;
    }
    bytes
}
