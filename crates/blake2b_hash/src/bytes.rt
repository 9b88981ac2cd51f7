// Words from bytes and bytes from words, the least significant byte first (RFC 7693, 2.4).
ghost use Rattle.std.specs.Prelude.{◌≡◌, ◌+◌, ◌<◌, ◌≤◌, ◌++◌, length, take, drop, replicate};
ghost use Rattle.blake2b.specs.Blake2b.{bb, ◌!◌, word, words, bytes, unwords};

// The sixteen words of the 128 bytes at a place.
pub(crate) fn load(s: &[u8], at: usize) -> [u64; 16]
    requires { at + 128 ≤ length s.now }
    ensures { result ≡ words 16 (drop at s.now) }
{
    let mut m = [0u64; 16];
    for i in 0..16 {
        m[i] = word_at(s, at + i * 8);
    }
    m
}

// The bytes from a place on, then zero bytes.
pub(crate) fn padded(s: &[u8], at: usize) -> [u8; 128]
    requires { (at ≤ length s.now) × (length s.now ≤ at + 128) }
    ensures { result ≡ take bb (drop at s.now ++ replicate bb 0) }
{
    let mut b = [0u8; 128];
    b[..s.len() - at].copy_from_slice(&s[at..]);
    b
}

// The first 32 bytes of the state.
pub(crate) fn unload(h: [u64; 8]) -> [u8; 32]
    ensures { result ≡ take 32 (unwords h) }
{
    let mut out = [0u8; 32];
    for i in 0..32 {
        out[i] = byte_of(h[i / 8], i % 8);
    }
    out
}

// The eight bytes at a place as a word.
fn word_at(s: &[u8], i: usize) -> u64
    requires { i + 8 ≤ length s.now }
    ensures { result ≡ word (take 8 (drop i s.now)) }
{
    let eight = [
        s[i],
        s[i + 1],
        s[i + 2],
        s[i + 3],
        s[i + 4],
        s[i + 5],
        s[i + 6],
        s[i + 7],
    ];
    u64::from_le_bytes(eight)
}

// Byte k of a word. A shift, since k is no constant, and all eight bytes would be computed for one.
fn byte_of(x: u64, k: usize) -> u8
    requires { k < 8 }
    ensures { result ≡ bytes 8 x ! k }
{
    ((x >> (8 * k)) % 256) as u8
}
