// A part or a byte, written into a lent output from a place.
// Each writer asks its questions first and stores only once all are answered "yes". The output and the place in it are
// two parameters of every writer, since the C interface and `written` have them so.
#![tactic(auto)]

ghost use Rattle.std.specs.Prelude.{◌≡◌, [], ◌∷◌, ◌+◌, ◌≤◌, length, take, drop};
ghost use Rattle.wire.specs.Output.{written_said, written, output_after, Wrote};

use wire::Refusal;
use wire_output::ask_room;

// All bytes of s.
#[tactic(auto, unfolding(wire::specs::Output::asked, wire::specs::Output::written, wire::specs::Output::output_after))]
pub fn write_part(out: &mut [u8], at: usize, s: &[u8]) -> Result<usize, Refusal>
    ensures value { written_said result ≡ written [] [] out.old at s.now }
    ensures out_after { out.new ≡ output_after (written_said result) out.old at s.now }
{
    let end = ask_room(out.len(), at, s.len())?;
    put_part(out, at, s);
    Ok(end)
}

// A byte.
#[tactic(auto, unfolding(wire::specs::Output::asked, wire::specs::Output::written, wire::specs::Output::output_after, wire::specs::Output::put))]
pub fn write_byte(out: &mut [u8], at: usize, b: u8) -> Result<usize, Refusal>
    ensures value { written_said result ≡ written [] [] out.old at (b ∷ []) }
    ensures out_after { out.new ≡ output_after (written_said result) out.old at (b ∷ []) }
{
    let end = ask_room(out.len(), at, 1)?;
    out[at] = b;
    Ok(end)
}

// Stores all bytes of s and gives the place after them: up to 128 by their two ends, more by blocks. Where the number
// of bytes is not known when this is compiled, `copy_from_slice` is a call of C's memmove, which the archive would
// need.
fn put_part(out: &mut [u8], at: usize, s: &[u8]) -> usize
    requires { at + length s.now ≤ length out.old }
    ensures { Wrote out.old at s.now result out.new }
{
    match s.len() {
        0 => at,
        1..=2 => put_ends::<1>(out, at, s),
        3..=4 => put_ends::<2>(out, at, s),
        5..=8 => put_ends::<4>(out, at, s),
        9..=16 => put_ends::<8>(out, at, s),
        17..=32 => put_ends::<16>(out, at, s),
        33..=64 => put_ends::<32>(out, at, s),
        65..=128 => put_ends::<64>(out, at, s),
        _ => put_blocks(out, at, s),
    }
}

// Stores all bytes of s in blocks of 64, the last 64 over what the others left of them, and gives the place after them.
fn put_blocks(out: &mut [u8], at: usize, s: &[u8]) -> usize
    requires s_len_bound { 64 ≤ length s.now }
    requires s_in_bounds { at + length s.now ≤ length out.old }
    ensures { Wrote out.old at s.now result out.new }
{
    for k in 0..s.len() / 64 {
        let block = block_at::<64>(s, 64 * k);
        copy_part(out, at + 64 * k, &block);
    }
    let rest = s.len() - 64;
    let last = block_at::<64>(s, rest);
    copy_part(out, at + rest, &last)
}

// Stores all bytes of s at once, and gives the place after them.
fn copy_part(out: &mut [u8], at: usize, s: &[u8]) -> usize
    requires { at + length s.now ≤ length out.old }
    ensures { Wrote out.old at s.now result out.new }
{
    let end = at + s.len();
    out[at..end].copy_from_slice(s);
    end
}

// Stores the first N bytes of s and then its last N, which together are all, and gives the place after them.
fn put_ends<const N: usize>(out: &mut [u8], at: usize, s: &[u8]) -> usize
    requires s_len_bound { (N ≤ length s.now) × (length s.now ≤ N + N) }
    requires s_in_bounds { at + length s.now ≤ length out.old }
    ensures { Wrote out.old at s.now result out.new }
{
    let first = block_at::<N>(s, 0);
    copy_part(out, at, &first);
    let rest = s.len() - N;
    let last = block_at::<N>(s, rest);
    copy_part(out, at + rest, &last)
}

// N bytes from a place on. By value, so that the compiler copies them at once.
fn block_at<const N: usize>(s: &[u8], at: usize) -> [u8; N]
    requires { at + N ≤ length s.now }
    ensures { result ≡ take N (drop at s.now) }
{
    let mut block = [0u8; N];
    block.copy_from_slice(&s[at..at + N]);
    block
}
