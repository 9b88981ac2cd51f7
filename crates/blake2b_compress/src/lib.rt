// The compression function F of BLAKE2b (RFC 7693, 3.2).
#![tactic(auto)]

ghost use Rattle.std.specs.Prelude.{◌≡◌, ◌+◌, ◌*◌, ◌^◌, ◌<◌, ◌≤◌, ◌++◌};
ghost use Rattle.blake2b.specs.Blake2b.{◌>>>◌, IV as Blake2b-as-IV, round, for, F};
ghost use Rattle.blake2b_compress.specs.Parts.{half_columns, half_diagonals, add_words, half_start, half_end, on_columns, on_diagonals, four, work, xored};

use crate::schedule::Schedule;

mod schedule;

// F, with the low and the high word of the offset counter t.
pub fn compress(h: [u64; 8], m: &[u64; 16], t0: u64, t1: u64, f: bool) -> [u64; 8]
    ensures { result ≡ F h m.now (t0 + t1 * 2 ^ 64) f }
{
    let mut w = h;
    compress_at(&mut w, m, t0, t1, f);
    w
}

// F on the state where it stands.
pub fn compress_at(h: &mut [u64; 8], m: &[u64; 16], t0: u64, t1: u64, f: bool)
    ensures { h.new ≡ F h.old m.now (t0 + t1 * 2 ^ 64) f }
{
    let v = work_vector(*h, t0, t1, f);
    let v = rounds(v, m);
    *h = xor_halves(*h, v);
}

const IV: [u64; 8] = [
    0x6a09e667f3bcc908,
    0xbb67ae8584caa73b,
    0x3c6ef372fe94f82b,
    0xa54ff53a5f1d36f1,
    0x510e527fade682d1,
    0x9b05688c2b3e6c1f,
    0x1f83d9abfb41bd6b,
    0x5be0cd19137e2179,
];

// The initialization vector.
pub fn iv() -> [u64; 8]
    ensures { result ≡ Blake2b-as-IV }
{
    IV
}

// The work vector before the rounds.
fn work_vector(h: [u64; 8], low: u64, high: u64, f: bool) -> [u64; 16]
    ensures { result ≡ work h (low + high * 2 ^ 64) f }
{
    let mut v = halves(h, iv());
    v[12] ^= low;
    v[13] ^= high;
    if f {
        v[14] ^= 0xffff_ffff_ffff_ffff;
    }
    v
}

// v[0..7] := h[0..7], v[8..15] := k[0..7].
fn halves(h: [u64; 8], k: [u64; 8]) -> [u64; 16]
    ensures { result ≡ h ++ k }
{
    let mut v = [0u64; 16];
    v[..8].copy_from_slice(&h);
    v[8..].copy_from_slice(&k);
    v
}

// h[i] := h[i] ^ v[i] ^ v[i + 8] for each i.
fn xor_halves(h0: [u64; 8], v: [u64; 16]) -> [u64; 8]
    ensures { result ≡ xored h0 v }
{
    let mut h = h0;
    for i in 0..8 {
        h[i] = h[i] ^ v[i] ^ v[i + 8];
    }
    h
}

// The twelve rounds stand one by one, each with its number, so that the compiler computes every place in the schedule.
fn rounds(v: [u64; 16], m: &[u64; 16]) -> [u64; 16]
    ensures { result ≡ for 12 (round m.now) v }
{
    let s = Schedule::new();
    let v = four_rounds::<0>(v, m, &s);
    let v = four_rounds::<4>(v, m, &s);
    four_rounds::<8>(v, m, &s)
}

// Four rounds, from round FIRST on.
fn four_rounds<const FIRST: usize>(v: [u64; 16], m: &[u64; 16], s: &Schedule) -> [u64; 16]
    requires { FIRST ≤ 8 }
    ensures { result ≡ four m.now FIRST v }
{
    let v = columns(v, m, s, FIRST);
    let v = diagonals(v, m, s, FIRST);
    let v = columns(v, m, s, FIRST + 1);
    let v = diagonals(v, m, s, FIRST + 1);
    let v = columns(v, m, s, FIRST + 2);
    let v = diagonals(v, m, s, FIRST + 2);
    let v = columns(v, m, s, FIRST + 3);
    diagonals(v, m, s, FIRST + 3)
}

// The two rotations of a half of G.
#[derive(Clone, Copy)]
struct Rotations {
    p: u64,
    q: u64,
    ghost in_range: { (0 < p) × (p < 64) × (0 < q) × (q < 64) },
}

const FIRST_HALF: Rotations = Rotations { p: 32, q: 24 };

const SECOND_HALF: Rotations = Rotations { p: 16, q: 63 };

// The four calls of G on the columns are done by halves, and a half of the four in three passes: none touches a word of another, and the
// processor has four chains to work on at a time. Columns and diagonals are two functions, since only the places in the
// vector differ, and each has to be a number where it is compiled.
fn columns(v: [u64; 16], m: &[u64; 16], s: &Schedule, i: usize) -> [u64; 16]
    ensures { result ≡ on_columns m.now i v }
{
    let x0 = s.select(m, i, 0);
    let x1 = s.select(m, i, 1);
    let x2 = s.select(m, i, 2);
    let x3 = s.select(m, i, 3);
    let x4 = s.select(m, i, 4);
    let x5 = s.select(m, i, 5);
    let x6 = s.select(m, i, 6);
    let x7 = s.select(m, i, 7);
    let v = half_columns(v, x0, x2, x4, x6, FIRST_HALF);
    half_columns(v, x1, x3, x5, x7, SECOND_HALF)
}

fn diagonals(v: [u64; 16], m: &[u64; 16], s: &Schedule, i: usize) -> [u64; 16]
    ensures { result ≡ on_diagonals m.now i v }
{
    let x0 = s.select(m, i, 8);
    let x1 = s.select(m, i, 9);
    let x2 = s.select(m, i, 10);
    let x3 = s.select(m, i, 11);
    let x4 = s.select(m, i, 12);
    let x5 = s.select(m, i, 13);
    let x6 = s.select(m, i, 14);
    let x7 = s.select(m, i, 15);
    let v = half_diagonals(v, x0, x2, x4, x6, FIRST_HALF);
    half_diagonals(v, x1, x3, x5, x7, SECOND_HALF)
}

fn half_columns(v: [u64; 16], x0: u64, x1: u64, x2: u64, x3: u64, r: Rotations) -> [u64; 16]
    ensures { result ≡ half_columns v x0 x1 x2 x3 r.p r.q }
{
    let v = add_words(v, x0, x1, x2, x3);
    let v = half_start(v, 0, 4, 12);
    let v = half_start(v, 1, 5, 13);
    let v = half_start(v, 2, 6, 14);
    let v = half_start(v, 3, 7, 15);
    let v = half_end(v, 4, 8, 12, r);
    let v = half_end(v, 5, 9, 13, r);
    let v = half_end(v, 6, 10, 14, r);
    half_end(v, 7, 11, 15, r)
}

fn half_diagonals(v: [u64; 16], x0: u64, x1: u64, x2: u64, x3: u64, r: Rotations) -> [u64; 16]
    ensures { result ≡ half_diagonals v x0 x1 x2 x3 r.p r.q }
{
    let v = add_words(v, x0, x1, x2, x3);
    let v = half_start(v, 0, 5, 15);
    let v = half_start(v, 1, 6, 12);
    let v = half_start(v, 2, 7, 13);
    let v = half_start(v, 3, 4, 14);
    let v = half_end(v, 5, 10, 15, r);
    let v = half_end(v, 6, 11, 12, r);
    let v = half_end(v, 7, 8, 13, r);
    half_end(v, 4, 9, 14, r)
}

// The message words of four calls of G, whose v[a] are v[0] to v[3].
fn add_words(v0: [u64; 16], x0: u64, x1: u64, x2: u64, x3: u64) -> [u64; 16]
    ensures { result ≡ add_words v0 x0 x1 x2 x3 }
{
    let mut v = v0;
    v[0] = std::num::wrapping_add_u64(v[0], x0);
    v[1] = std::num::wrapping_add_u64(v[1], x1);
    v[2] = std::num::wrapping_add_u64(v[2], x2);
    v[3] = std::num::wrapping_add_u64(v[3], x3);
    v
}

// Of half of G what is left of its first line, and the exclusive or of its second.
fn half_start(v0: [u64; 16], a: usize, b: usize, d: usize) -> [u64; 16]
    requires { (a < 16) × (b < 16) × (d < 16) }
    ensures { result ≡ half_start v0 a b d }
{
    let mut v = v0;
    v[a] = std::num::wrapping_add_u64(v[a], v[b]);
    v[d] ^= v[a];
    v
}

// The rotation of the second line of half of G, and its other two lines.
fn half_end(v0: [u64; 16], b: usize, c: usize, d: usize, r: Rotations) -> [u64; 16]
    requires { (b < 16) × (c < 16) × (d < 16) }
    ensures { result ≡ half_end v0 b c d r.p r.q }
{
    let mut v = v0;
    v[d] = rotr(v[d], r.p);
    v[c] = std::num::wrapping_add_u64(v[c], v[d]);
    v[b] = rotr(v[b] ^ v[c], r.q);
    v
}

// x >>> n.
fn rotr(x: u64, n: u64) -> u64
    requires { (0 < n) × (n < 64) }
    ensures { result ≡ x >>> n }
{
    (x >> n) ^ (x << (64 - n))
}
