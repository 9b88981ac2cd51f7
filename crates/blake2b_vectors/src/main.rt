// RFC 7693's Appendix A, and digests of the bytes 0, 1, .. 255, 0, .. at several lengths, one to a line. A write that
// fails is passed over: what follows is written all the same.
#![tactic(auto)]

ghost use Rattle.std.specs.Prelude.{◌+◌, ◌≤◌, length};

use blake2b_hash::Hash;

fn main(rt: HostRuntime) {
    appendix_a(&rt);
    let s = counting();
    for n in [0, 1, 3, 64, 127, 128, 129, 255, 256, 1000] {
        let part = &s[..s.len().min(n)];
        let _ = print!(rt; "{n} ");
        print_bytes(&rt, &blake2b_hash::digest(part));
        let _ = println!(rt; "");
    }
    for n in [129, 256, 1000] {
        let part = &s[..s.len().min(n)];
        let _ = print!(rt; "steps {n} ");
        print_bytes(&rt, &run(part));
        let _ = println!(rt; "");
    }
}

// BLAKE2b-512 of "abc": the words of the state, then its bytes.
fn appendix_a(rt: &impl Print) {
    let h = abc();
    let _ = print!(rt; "h");
    for x in h {
        let _ = print!(rt; " {x:016x}");
    }
    let _ = print!(rt; "\nabc ");
    for x in h {
        print_bytes(rt, &x.to_le_bytes());
    }
    let _ = println!(rt; "");
}

// The one block of "abc" through F, with 64 and not 32 for the digest length in the parameter word.
fn abc() -> [u64; 8] {
    let x = Hash::start();
    let mut h = x.h;
    h[0] ^= 0x20 ^ 0x40;
    let mut m = [0u64; 16];
    m[0] = 0x63_6261;
    blake2b_compress::compress(h, &m, 3, 0, true)
}

// The digest by a running hash: a step for each block before the last, then the rest.
fn run(s: &[u8]) -> [u8; 32] {
    let mut x = Hash::start();
    let blocks = s.len().saturating_sub(1) / 128;
    for i in 0..blocks {
        x = x.step(&block_at(s, i * 128));
    }
    x.finish(&s[blocks * 128..])
}

fn block_at(s: &[u8], at: usize) -> [u8; 128]
    requires { at + 128 ≤ length s.now }
{
    let mut block = [0u8; 128];
    block.copy_from_slice(&s[at..at + 128]);
    block
}

fn counting() -> [u8; 1000] {
    let mut s = [0u8; 1000];
    for i in 0..1000 {
        s[i] = (i % 256) as u8;
    }
    s
}

fn print_bytes(rt: &impl Print, bytes: &[u8]) {
    for b in bytes {
        let _ = print!(rt; "{b:02x}");
    }
}
