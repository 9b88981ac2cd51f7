// A timestamp with the entry in a row of a table, written into a lent output from a place (transport/handshake.rs).
// The writer asks all its questions first and stores only once each is answered "yes".
#![tactic(auto)]

ghost use Rattle.std.specs.Prelude.{◌≡◌, ◌^◌, ◌<◌, true, ltb};
ghost use Rattle.wire.specs.Bytes.{every};
ghost use Rattle.wire.specs.Output.{written_said, output_after};
ghost use Rattle.handshake.specs.Value.{handshake_bytes};
ghost use Rattle.handshake.specs.Writes.{handshake_at_row, handshake_written};
ghost use Rattle.handshake_entry_rows.specs.Row.{tables_of};
ghost use Rattle.handshake_write.specs.Behind.{behind};

use handshake_entry_rows::Tables;
use handshake_entry_write::write_entry;
use vlq_write::{vlq_len, write_vlq};
use wire::Refusal;
use wire_output::has_room;

// A timestamp with the entry in row k. The entry is written first, behind the timestamp's place: its writer asks every
// question. The last clause is what the types of timestamp and buffer say; written sessions rest on it.
pub fn write_handshake(
    out: &mut [u8],
    at: usize,
    timestamp: u64,
    t: Tables,
    k: usize,
) -> Result<usize, Refusal>
    ensures value { written_said result ≡ handshake_written timestamp (tables_of t.entry) k out.old at }
    ensures out_after { out.new ≡ output_after (written_said result) out.old at (handshake_bytes (handshake_at_row timestamp (tables_of t.entry) k)) }
    ensures timestamp_bound { (timestamp < 2 ^ 64) × (every (λ b. ltb b 256) t.entry.buffer.now ≡ true) }
{
    let place = place_behind(out.len(), at, vlq_len(timestamp));
    let end = write_entry(out, place, t, k)?;
    write_vlq(out, at, timestamp).unwrap();
    Ok(end)
}

// The place after v bytes from a place on. Without room for them, one from which no byte fits: the end of the output,
// or the place itself if it is outside.
#[tactic(auto, using(std::proofs::lemmas::Bool::Decides::nat_tests), unfolding(crate::specs::Behind::behind))]
fn place_behind(len: usize, at: usize, v: usize) -> usize
    ensures { result ≡ behind len at v }
{
    if has_room(len, at, v) {
        at + v
    } else {
        len.max(at)
    }
}
