// Message bodies for Rust and C. Every place is a place in the body.
ghost use Rattle.std.specs.Prelude.{length};
ghost use Rattle.wire.specs.Reader.{map_answer};
ghost use Rattle.handshake_read.specs.Answers.{peer_spec_of};
ghost use Rattle.messages.specs.Message.{payload_after, peers_body, message};
ghost use Rattle.messages_inventory_read.specs.Parts.{id_at};
ghost use Rattle.messages_response_read.specs.Parts.{payload_at};
ghost use Rattle.messages_inventory_read.specs.Answers.{id_of};
ghost use Rattle.messages_response_read.specs.Answers.{payload_of, payload_sum};
ghost use Rattle.messages_peers_read.specs.Parts.{entry_at};
ghost use Rattle.messages_read.specs.Answers.{message_of};
ghost use Rattle.export_arrays.specs.Networks.{network_of};
ghost use Rattle.export_arrays.specs.Entries.{entry_next};
ghost use Rattle.export_arrays.specs.Messages.{message_numbers, id_only, payload_next, payload_total};
ghost use Rattle.haspeljo.specs.Results.{ReaderLeaves};

use export_arrays::bodies::message_numbers;
use export_arrays::entries::entry_numbers;
use types::BodyPlace;

// The body of a frame as the message of the frame's code. r is the type byte, the count, how many entries have a bogus address, and the place
// of the first id, payload or entry, each 0 where the message has none; and the next place.
pub fn haspeljo_from_frame(body: &[u8], mainnet: u8, cap: usize, code: u8, r: &mut [u64; 5]) -> u8
    ensures { ReaderLeaves message_numbers (map_answer (message_of (network_of mainnet) body.now) (message cap code body.now 0)) result
        r.old r.new }
{
    match messages_read::from_frame(code, body, cap, crate::network_of(mainnet)) {
        Ok((m, next)) => {
            *r = message_numbers(m, next.0);
            0
        }
        Err(m) => m.number(),
    }
}

// A Peers body. r is as for haspeljo_from_frame.
pub fn haspeljo_parse_peers_body(body: &[u8], mainnet: u8, cap: usize, r: &mut [u64; 5]) -> u8
    ensures { ReaderLeaves message_numbers (map_answer (message_of (network_of mainnet) body.now) (peers_body cap body.now 0)) result
        r.old r.new }
{
    match messages_peers_read::parse_peers_body(body, cap, crate::network_of(mainnet)) {
        Ok((p, next)) => {
            *r = [
                0,
                p.count as u64,
                p.bogus as u64,
                p.start.0 as u64,
                next.0 as u64,
            ];
            0
        }
        Err(m) => m.number(),
    }
}

// An entry of a Peers body, by index. r is as for haspeljo_parse_peer_entry.
pub fn haspeljo_entry_by_index(body: &[u8], cap: usize, index: usize, r: &mut [u64; 15]) -> u8
    ensures { ReaderLeaves entry_next (map_answer peer_spec_of (entry_at cap index body.now)) result
        r.old r.new }
{
    match messages_peers_read::entry_by_index(body, cap, index) {
        Ok((peer, next)) => {
            *r = entry_numbers(0, peer, next.0);
            0
        }
        Err(m) => m.number(),
    }
}

// An id of a ModifierRequest or Inv body, by index: r is its place.
pub fn haspeljo_id_by_index(body: &[u8], index: usize, r: &mut [u64; 1]) -> u8
    ensures { ReaderLeaves id_only (map_answer id_of (id_at index body.now)) result r.old r.new }
{
    match messages_inventory_read::id_by_index(body, index) {
        Ok(p) => {
            *r = [p.0 as u64];
            0
        }
        Err(m) => m.number(),
    }
}

// The payload at a place of a ModifierResponse body, where the payloads before it have total bytes together. r is the place of its id, the place
// and length of its bytes, the next place, and the total with it.
pub fn haspeljo_read_payload(body: &[u8], at: usize, total: usize, r: &mut [u64; 5]) -> u8
    ensures { ReaderLeaves payload_total (map_answer (payload_sum total) (payload_after (length body.now) total body.now at)) result
        r.old r.new }
{
    match messages_response_read::read_payload(body, BodyPlace(at), total) {
        Ok(((p, sum), next)) => {
            *r = [
                p.id.0 as u64,
                p.start.0 as u64,
                p.len as u64,
                next.0 as u64,
                sum as u64,
            ];
            0
        }
        Err(m) => m.number(),
    }
}

// A payload of a ModifierResponse body, by index. r is the place of its id, the place and length of its bytes, and where it ends.
pub fn haspeljo_payload_by_index(body: &[u8], index: usize, r: &mut [u64; 4]) -> u8
    ensures { ReaderLeaves payload_next (map_answer payload_of (payload_at index body.now)) result
        r.old r.new }
{
    match messages_response_read::payload_by_index(body, index) {
        Ok((p, next)) => {
            *r = [p.id.0 as u64, p.start.0 as u64, p.len as u64, next.0 as u64];
            0
        }
        Err(m) => m.number(),
    }
}
