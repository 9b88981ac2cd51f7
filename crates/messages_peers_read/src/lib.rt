// The body of Peers, read from lent bytes (protocol/messages.rs). A body begins at its own place 0, and every place here is a place in the body.
#![tactic(auto)]

ghost use Rattle.std.specs.Prelude.{◌≡◌};
ghost use Rattle.wire.specs.Reader.{map_answer, list_of};
ghost use Rattle.vlq.specs.Answers.{read_answer};
ghost use Rattle.types.specs.Answers.{body_answer};
ghost use Rattle.handshake.specs.Entry.{entry};
ghost use Rattle.handshake_read.specs.Answers.{peer_spec_of};
ghost use Rattle.messages.specs.Bogus.{bogus_count};
ghost use Rattle.messages_peers_read.specs.Parts.{entries, entry_at};
ghost use Rattle.messages_peers_read.specs.Answers.{peers_of, entries_ended, entries_end_answer};

use address_sanity::is_bogus_address;
use handshake_read::{PeerSpec, parse_peer_entry};
use messages_inventory_read::read_count;
use types::{BodyPlace, BodyRead, Network};
use vlq::{Cursor, Read};
use wire::Refusal;

// The entries of a Peers body: how many there are, how many have a bogus address, and the place of the first.
#[derive(Clone, Copy)]
pub struct Peers {
    pub count: usize,
    pub bogus: usize,
    pub start: BodyPlace,
}

// A Peers body: a count of at most cap, and the entries.
#[tactic(auto, using(handshake_read::proofs::AnswerLaws::answers, crate::proofs::AnswerLaws::peers_answers), unfolding(crate::specs::Parts::entries))]
pub fn parse_peers_body(body: &[u8], cap: usize, network: Network) -> BodyRead<Peers>
    ensures { body_answer result ≡ map_answer (peers_of network body.now) (entries cap body.now 0) }
{
    let (count, c) = read_count(body, Cursor { at: 0 }, cap)?;
    let (bogus, end) = count_bogus(body, c, count, network)?;
    let start = BodyPlace(c.at);
    let peers = Peers {
        count,
        bogus,
        start,
    };
    Ok((peers, BodyPlace(end.at)))
}

// The entry at a place of a Peers body.
pub fn read_entry(body: &[u8], at: BodyPlace) -> BodyRead<PeerSpec>
    ensures { body_answer result ≡ map_answer peer_spec_of (entry body.now at.0) }
{
    let (peer, c) = parse_peer_entry(body, Cursor { at: at.0 })?;
    Ok((peer, BodyPlace(c.at)))
}

// An entry of a Peers body, by index, once all have been read.
pub fn entry_by_index(body: &[u8], cap: usize, index: usize) -> BodyRead<PeerSpec>
    ensures { body_answer result ≡ map_answer peer_spec_of (entry_at cap index body.now) }
{
    let (count, c) = read_count(body, Cursor { at: 0 }, cap)?;
    skip_entries(body, c, count)?;
    if count <= index {
        return Err(Refusal::Outside);
    }
    let d = skip_entries(body, c, index)?;
    read_entry(body, BodyPlace(d.at))
}

// n entries: how many have a bogus address.
fn count_bogus(body: &[u8], c: Cursor, n: usize, network: Network) -> Read<usize>
    ensures { read_answer result ≡ map_answer (bogus_count network) (list_of n (λ before. entry) body.now c.at) }
{
    let mut d = c;
    let mut bogus: usize = 0;
    for _ in 0..n {
        let (peer, e) = parse_peer_entry(body, d)?;
        bogus += usize::from(is_bogus_address(peer.address, network));
        d = e;
    }
    Ok((bogus, d))
}

// n entries: where they end. handshake_read has the like for features: one function over both readers would be public
// with a `requires` on its reader, which no public function has.
fn skip_entries(body: &[u8], c: Cursor, n: usize) -> Result<Cursor, Refusal>
    ensures { entries_end_answer result ≡ map_answer entries_ended (list_of n (λ before. entry) body.now c.at) }
{
    let mut d = c;
    for _ in 0..n {
        let (_, e) = parse_peer_entry(body, d)?;
        d = e;
    }
    Ok(d)
}
