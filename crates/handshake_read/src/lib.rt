// Entries and handshakes, read from lent bytes (transport/handshake.rs). The readers of an address stand in handshake_address_read.
#![tactic(auto)]

ghost use Rattle.std.specs.Prelude.{◌≡◌};
ghost use Rattle.wire.specs.Reader.{and_then, place, map_answer, list_of};
ghost use Rattle.vlq.specs.Answers.{read_answer};
ghost use Rattle.handshake.specs.Entry.{version, feature, entry, handshake};
ghost use Rattle.handshake_read.specs.Parts.{features, feature_at};
ghost use Rattle.handshake_read.specs.Answers.{features_of, feature_of, features_ended, peer_spec_of, handshake_of, size_answer, features_end_answer};

use handshake_address_read::read_declared_address;
use types::{Address, Version};
use vlq::{Cursor, Read};
use wire::{Part, Refusal};

// The features of an entry: how many there are, and the place of the first.
#[derive(Clone, Copy)]
pub struct Features {
    pub count: u8,
    pub start: usize,
}

// What is read of an entry.
#[derive(Clone, Copy)]
pub struct PeerSpec {
    pub agent: Part,
    pub version: Version,
    pub name: Part,
    pub address: Address,
    pub features: Features,
}

// A feature: its id, and where its body stands.
#[derive(Clone, Copy)]
pub struct Feature {
    pub id: u8,
    pub body: Part,
}

// What is read of a handshake.
#[derive(Clone, Copy)]
pub struct Handshake {
    pub timestamp: u64,
    pub peer: PeerSpec,
}

// A handshake from the first byte on: a timestamp and an entry.
#[tactic(auto, using(crate::proofs::AnswerLaws::answers), unfolding(handshake::specs::Entry::handshake))]
pub fn parse(s: &[u8]) -> Read<Handshake>
    ensures { read_answer result ≡ map_answer handshake_of (handshake s.now 0) }
{
    let c = Cursor { at: 0 };
    let (timestamp, d) = c.read_vlq(s)?;
    let (peer, e) = parse_peer_entry(s, d)?;
    Ok((Handshake { timestamp, peer }, e))
}

// How many bytes a handshake takes.
#[tactic(auto, using(crate::proofs::AnswerLaws::answers))]
pub fn measure_size(s: &[u8]) -> Result<usize, Refusal>
    ensures { size_answer result ≡ and_then handshake (λ h. place) s.now 0 }
{
    let (_, c) = parse(s)?;
    Ok(c.at)
}

// An entry at a place.
#[tactic(auto, using(crate::proofs::AnswerLaws::answers, crate::proofs::PartsLaws::entry_parts_lem), unfolding(crate::specs::Parts::head))]
pub fn parse_peer_entry(s: &[u8], c: Cursor) -> Read<PeerSpec>
    ensures { read_answer result ≡ map_answer peer_spec_of (entry s.now c.at) }
{
    let (agent, d) = c.read_short_string(s)?;
    let (version, e) = read_version(s, d)?;
    let (name, f) = e.read_short_string(s)?;
    let (address, g) = read_declared_address(s, f)?;
    let (features, h) = read_features(s, g)?;
    let peer = PeerSpec {
        agent,
        version,
        name,
        address,
        features,
    };
    Ok((peer, h))
}

// A feature at a place: an id byte, a length and the body.
#[tactic(auto, using(crate::proofs::AnswerLaws::answers), unfolding(handshake::specs::Entry::feature))]
pub fn read_feature(s: &[u8], c: Cursor) -> Read<Feature>
    ensures { read_answer result ≡ map_answer feature_of (feature s.now c.at) }
{
    let (id, d) = c.read_byte(s)?;
    let (n, e) = d.read_vlq_length(s)?;
    let (body, f) = e.read_part(s, n as usize)?;
    Ok((Feature { id, body }, f))
}

// A feature of the entry at a place, by index.
#[tactic(auto, using(crate::proofs::AnswerLaws::answers, crate::proofs::IndexLaws::by_index), unfolding(crate::specs::Parts::feature_at))]
pub fn feature_by_index(s: &[u8], c: Cursor, index: usize) -> Read<Feature>
    ensures { read_answer result ≡ map_answer feature_of (feature_at index s.now c.at) }
{
    let (peer, _) = parse_peer_entry(s, c)?;
    let features = peer.features;
    if features.count as usize <= index {
        return Err(Refusal::Outside);
    }
    let d = skip_features(s, Cursor { at: features.start }, index)?;
    read_feature(s, d)
}

// Three version bytes.
#[tactic(auto, using(crate::proofs::AnswerLaws::answers), unfolding(handshake::specs::Entry::version))]
fn read_version(s: &[u8], c: Cursor) -> Read<Version>
    ensures { read_answer result ≡ version s.now c.at }
{
    let (major, d) = c.read_byte(s)?;
    let (minor, e) = d.read_byte(s)?;
    let (patch, f) = e.read_byte(s)?;
    let version = Version {
        major,
        minor,
        patch,
    };
    Ok((version, f))
}

// A feature count byte, and the features. Compiled into its one caller, since its answer would go through memory.
#[inline(always)]
#[tactic(auto, using(crate::proofs::AnswerLaws::answers, crate::proofs::AnswerLaws::counted), unfolding(crate::specs::Parts::features))]
fn read_features(s: &[u8], c: Cursor) -> Read<Features>
    ensures { read_answer result ≡ map_answer features_of (features s.now c.at) }
{
    let (count, d) = c.read_byte(s)?;
    let e = skip_features(s, d, count as usize)?;
    Ok((Features { count, start: d.at }, e))
}

// n features: where they end.
fn skip_features(s: &[u8], c: Cursor, n: usize) -> Result<Cursor, Refusal>
    ensures { features_end_answer result ≡ map_answer features_ended (list_of n (λ before. feature) s.now c.at) }
{
    let mut d = c;
    for _ in 0..n {
        let (_, e) = read_feature(s, d)?;
        d = e;
    }
    Ok(d)
}
