// BLAKE2b with 32 bytes of output and no key (RFC 7693).
#![tactic(auto)]

ghost use Rattle.std.specs.Prelude.{◌≡◌, ◌+◌, ◌-◌, ◌*◌, ◌/◌, ◌%◌, ◌^◌, ◌≤◌, length};
ghost use Rattle.blake2b.specs.Blake2b.{dd, blake2b256, check as Blake2b·check};
ghost use Rattle.blake2b_hash.specs.Running.{started, stepped, absorbed, ended, finished};

mod bytes;
pub mod lent;

// A running hash: the state h, and the low and high word of the offset counter t.
#[derive(Clone, Copy)]
pub struct Hash {
    pub h: [u64; 8],
    pub t0: u64,
    pub t1: u64,
}

impl Hash {
    // The hash before the first block.
    pub fn start() -> Self
        ensures { result ≡ started 32 }
    {
        let mut h = blake2b_compress::iv();
        h[0] = h[0] ^ 0x0101_0020;
        Hash { h, t0: 0, t1: 0 }
    }

    // The hash after a whole block that is not the last.
    pub fn step(self, block: &[u8; 128]) -> Self
        ensures { result ≡ stepped self block.now }
    {
        absorb(self, block, 1)
    }

    // The digest of what was absorbed and the rest, whose blocks before its last are absorbed here. An empty rest
    // is one block of zero bytes, which the RFC has only where nothing was absorbed before.
    pub fn finish(self, rest: &[u8]) -> [u8; 32]
        ensures { result ≡ finished 32 self rest.now }
    {
        let n = before_last(rest.len());
        let x = absorb(self, rest, n);
        let h = last(x, rest, n);
        bytes::unload(h)
    }
}

pub fn digest(s: &[u8]) -> [u8; 32]
    ensures { result ≡ blake2b256 s.now }
{
    Hash::start().finish(s)
}

// The check of a frame: the first four bytes of its body's digest.
pub fn check(s: &[u8]) -> [u8; 4]
    ensures { result ≡ Blake2b·check s.now }
{
    let [a, b, c, d, ..] = digest(s);
    [a, b, c, d]
}

// The high word of the counter, n bytes further: one more where the low word wraps.
fn high(t0: u64, t1: u64, n: u64) -> u64
    ensures { result ≡ (t1 + (t0 + n) / 2 ^ 64) % 2 ^ 64 }
{
    if std::num::wrapping_add_u64(t0, n) < n {
        std::num::wrapping_add_u64(t1, 1)
    } else {
        t1
    }
}

// How many blocks of n bytes stand before the last.
fn before_last(n: usize) -> usize
    ensures { result ≡ dd n - 1 }
{
    if n == 0 { 0 } else { (n - 1) / 128 }
}

// The hash after the first n blocks of s, none of which is the last. They go by number, as the RFC's d[i] do.
fn absorb(x: Hash, s: &[u8], n: usize) -> Hash
    requires { n * 128 ≤ length s.now }
    ensures { result ≡ absorbed x s.now n }
{
    let mut h = x.h;
    let mut t0 = x.t0;
    let mut t1 = x.t1;
    for i in 0..n {
        let m = bytes::load(s, i * 128);
        t1 = high(t0, t1, 128);
        t0 = std::num::wrapping_add_u64(t0, 128);
        blake2b_compress::compress_at(&mut h, &m, t0, t1, false);
    }
    Hash { h, t0, t1 }
}

// The state after the last block of s, its block i.
fn last(x: Hash, s: &[u8], i: usize) -> [u64; 8]
    requires { (i * 128 ≤ length s.now) × (length s.now ≤ i * 128 + 128) }
    ensures { result ≡ ended x s.now i }
{
    let at = i * 128;
    let h = x.h;
    let n = (s.len() - at) as u64;
    let t0 = std::num::wrapping_add_u64(x.t0, n);
    let t1 = high(x.t0, x.t1, n);
    let b = bytes::padded(s, at);
    let m = bytes::load(&b, 0);
    blake2b_compress::compress(h, &m, t0, t1, true)
}
