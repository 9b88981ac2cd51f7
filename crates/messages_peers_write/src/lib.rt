// Peers, written as a whole frame into a lent output from a place (protocol/messages.rs, build_peers_body).
// The writer asks its questions first and stores only once all are answered "yes".
#![tactic(auto)]

ghost use Rattle.std.specs.Prelude.{◌≡◌, ◌+◌, ◌/◌, ◌≤◌, true, leb, ltb, length};
ghost use Rattle.wire.specs.Bytes.{every};
ghost use Rattle.wire.specs.Refusals.{number};
ghost use Rattle.wire.specs.Output.{written_said, size_said, output_after};
ghost use Rattle.vlq.specs.Vlq.{vlq_bytes};
ghost use Rattle.frame.specs.Frame.{frame_bytes};
ghost use Rattle.handshake_entry_rows.specs.Row.{tables_of};
ghost use Rattle.handshake_entry_write.specs.Rows.{rows_written};
ghost use Rattle.messages.specs.Writes.{write_peers, value_of, message_bytes, message_written};
ghost use Rattle.messages_peers_write.specs.Asked.{peers_bytes, peers_refusal, peers_start};

use frame::HEADER_SIZE;
use frame_write::close_frame;
use handshake_entry_ask::ask_entries;
use handshake_entry_rows::Tables;
use handshake_entry_write::write_rows;
use messages::PEERS;
use types::Network;
use vlq_write::{vlq_len, write_vlq};
use wire::Refusal;
use wire_output::{ask_output, has_room};

// The entries of a table, at most cap of them. The last clause is what the type of buffer says; written sessions rest
// on it.
pub fn write_peers(
    out: &mut [u8],
    at: usize,
    network: Network,
    cap: usize,
    t: Tables,
) -> Result<usize, Refusal>
    ensures value { written_said result ≡ message_written network cap (write_peers (tables_of t.entry)) out.old at }
    ensures out_after { out.new ≡ output_after (written_said result) out.old at (message_bytes network (value_of (write_peers (tables_of t.entry)))) }
    ensures buffer_value { every (λ b. ltb b 256) t.entry.buffer.now ≡ true }
{
    let count = t.entry_count();
    if has_start(out.len(), at, cap, count) {
        return write_peers_frame(out, at, network, t);
    }
    let size = ask_entries(vlq_len(count as u64), t);
    ask_output(out.len(), at, Err(first_refusal(cap, count, size)))
}

// Is the count within the cap, and has the output room for all that a frame has before its entries?
#[tactic(auto, using(std::proofs::lemmas::Bool::Decides::nat_tests, vlq::proofs::VlqLaws::vlq_ten), unfolding(crate::specs::Asked::peers_start))]
fn has_start(len: usize, at: usize, cap: usize, count: usize) -> bool
    ensures { result ≡ peers_start cap count len at }
{
    has_room(len, at, HEADER_SIZE + vlq_len(count as u64)) && count <= cap
}

// Writes the entries where they stand in the frame, and once they are accepted all that is before them.
fn write_peers_frame(
    out: &mut [u8],
    at: usize,
    network: Network,
    t: Tables,
) -> Result<usize, Refusal>
    requires { at + (13 + length (vlq_bytes (length t.entries.now / 12))) ≤ length out.old }
    ensures value { written_said result ≡ rows_written (tables_of t.entry) (length (vlq_bytes (length t.entry.entries.now / 12))) out.old (at + 13 + length (vlq_bytes (length t.entry.entries.now / 12))) }
    ensures out_after { out.new ≡ output_after (written_said result) out.old at (frame_bytes network 2 (peers_bytes (tables_of t.entry))) }
{
    let count = t.entry_count() as u64;
    let start = at + HEADER_SIZE;
    let before = vlq_len(count);
    let end = write_rows(out, start + before, before, t)?;
    write_vlq(out, start, count).unwrap();
    close_frame(out, at, network, PEERS, end - start)
}

// Of a frame without a start, given what is said of its entries: the count is asked before the body, the room last.
#[tactic(auto, using(std::proofs::lemmas::Bool::Decides::nat_tests), unfolding(crate::specs::Asked::peers_refusal))]
fn first_refusal(cap: usize, count: usize, size: Result<usize, Refusal>) -> Refusal
    ensures { number result ≡ peers_refusal (leb count cap) (size_said size) }
{
    match size {
        Ok(_) | Err(Refusal::BodyTooLarge) if cap < count => Refusal::CountExceedsCap,
        Ok(_) => Refusal::NoRoom,
        Err(m) => m,
    }
}
