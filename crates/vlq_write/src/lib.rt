// VLQs and short strings, written into a lent output from a place (transport/vlq.rs).
// Each writer asks its questions first and stores only once all are answered "yes".
#![tactic(auto)]

ghost use Rattle.std.specs.Prelude.{◌≡◌, [], ◌+◌, ◌≤◌, length};
ghost use Rattle.wire.specs.Output.{written_said, written, output_after, Wrote};
ghost use Rattle.vlq.specs.Vlq.{vlq_bytes};
ghost use Rattle.vlq.specs.ShortString.{max_short_string, short_string_bytes};
ghost use Rattle.wire_output.specs.Asked.{written_for};
ghost use Rattle.vlq_write.specs.Asked.{short_string_asked};

use vlq::MAX_SHORT_STRING;
use wire::Refusal;
use wire_output::{ask_room, has_room};
use wire_part_write::write_part;

// How many bytes the shortest VLQ of v has. The turns go by the value: there is no index to count.
pub fn vlq_len(v: u64) -> usize
    ensures { result ≡ length (vlq_bytes v) }
{
    let mut n: usize = 1;
    let mut rest = v;
    while 0x80 <= rest {
        n += 1;
        rest /= 0x80;
    }
    n
}

// The shortest VLQ of value. No VLQ has more than ten bytes.
#[tactic(auto, unfolding(wire::specs::Output::asked, wire::specs::Output::written, wire::specs::Output::output_after), using(vlq::proofs::VlqLaws::vlq_ten))]
pub fn write_vlq(out: &mut [u8], at: usize, value: u64) -> Result<usize, Refusal>
    ensures value { written_said result ≡ written [] [] out.old at (vlq_bytes value) }
    ensures out_after { out.new ≡ output_after (written_said result) out.old at (vlq_bytes value) }
{
    if has_room(out.len(), at, 10) {
        return Ok(put_vlq(out, at, value));
    }
    let end = ask_room(out.len(), at, vlq_len(value))?;
    put_vlq(out, at, value);
    Ok(end)
}

// A length byte, then the bytes of s, which are UTF-8. Compiled into its callers, since its answer would go through
// memory.
#[inline(always)]
#[tactic(auto, unfolding(wire::specs::Output::asked, wire::specs::Output::written, wire::specs::Output::output_after))]
pub fn write_short_string(out: &mut [u8], at: usize, s: &[u8]) -> Result<usize, Refusal>
    ensures value { written_said result ≡ written [] (short_string_asked s.now) out.old at (short_string_bytes s.now) }
    ensures out_after { out.new ≡ output_after (written_said result) out.old at (short_string_bytes s.now) }
{
    let end = ask_short_string(out.len(), at, s)?;
    put_short_string(out, at, s);
    Ok(end)
}

// What write_short_string says of an output of len bytes.
#[tactic(auto, unfolding(wire::specs::Output::asked))]
fn ask_short_string(len: usize, at: usize, s: &[u8]) -> Result<usize, Refusal>
    ensures { written_said result ≡ written_for [] (short_string_asked s.now) len at (length (short_string_bytes s.now)) }
{
    if len < at {
        return Err(Refusal::Outside);
    }
    if MAX_SHORT_STRING < s.len() {
        return Err(Refusal::StringTooLong);
    }
    if !vlq_utf8::is_utf8(s) {
        return Err(Refusal::InvalidUtf8);
    }
    ask_room(len, at, s.len() + 1)
}

// Stores the shortest VLQ of value, and gives the place after it.
fn put_vlq(out: &mut [u8], at: usize, value: u64) -> usize
    requires { at + length (vlq_bytes value) ≤ length out.old }
    ensures { Wrote out.old at (vlq_bytes value) result out.new }
{
    let mut o = at;
    let mut rest = value;
    while 0x80 <= rest {
        out[o] = (rest % 0x80 + 0x80) as u8;
        o += 1;
        rest /= 0x80;
    }
    out[o] = rest as u8;
    o + 1
}

// Stores the length byte and all bytes of s, and gives the place after them.
fn put_short_string(out: &mut [u8], at: usize, s: &[u8]) -> usize
    requires s_len_bound { length s.now ≤ max_short_string }
    requires s_in_bounds { at + length (short_string_bytes s.now) ≤ length out.old }
    ensures { Wrote out.old at (short_string_bytes s.now) result out.new }
{
    out[at] = s.len() as u8;
    write_part(out, at + 1, s).unwrap()
}
