// What a handshake or an entry says of the peer: the verdict on it, and its REST API URL (transport/handshake.rs). Each is read from the bytes, or
// found from what was read of them already.
#![tactic(auto)]

ghost use Rattle.std.specs.Prelude.{◌≡◌, ◌+◌, ◌≤◌, length};
ghost use Rattle.wire.specs.Reader.{map_answer};
ghost use Rattle.vlq.specs.Answers.{read_answer};
ghost use Rattle.vlq.specs.ShortString.{short_string};
ghost use Rattle.handshake.specs.Entry.{entry, handshake};
ghost use Rattle.handshake.specs.Verdict.{first_feature, other_magic, validate_peer, string_from};
ghost use Rattle.handshake_verdict.specs.Peer.{features_from, segment_in, entry_in};
ghost use Rattle.handshake_verdict.specs.Answers.{first_in, handshake_verdict, entry_url, part_if_any, verdict_number, verdict_answer};

use handshake::{FEATURE_REST_API, FEATURE_SESSION};
use handshake_read::{Feature, Features, PeerSpec};
use types::{Network, Version};
use vlq::{Cursor, Read};
use wire::Part;

#[derive(Clone, Copy, PartialEq, Eq)]
pub enum Verdict {
    Accepted,
    // The version is below 4.0.100.
    OldVersion,
    // The first feature 3 has another magic.
    OtherMagic,
}

impl Verdict {
    // 0, 1 and 2, in the order above.
    pub fn number(self) -> u8
        ensures { result ≡ verdict_number self }
    {
        self as u8
    }
}

// The verdict on a handshake: OldVersion comes before OtherMagic.
#[tactic(auto, using(handshake_read::proofs::AnswerLaws::answers, crate::proofs::PeerLaws::again))]
pub fn validate_peer(s: &[u8], network: Network) -> Read<Verdict>
    ensures { verdict_answer result ≡ map_answer (handshake_verdict network) (handshake s.now 0) }
{
    let (h, end) = handshake_read::parse(s)?;
    Ok((peer_verdict(s, h.peer, network), end))
}

// The same verdict on an entry at a place.
#[tactic(auto, using(handshake_read::proofs::AnswerLaws::answers, crate::proofs::PeerLaws::again))]
pub fn validate_entry(s: &[u8], c: Cursor, network: Network) -> Read<Verdict>
    ensures { verdict_answer result ≡ map_answer (validate_peer network) (entry s.now c.at) }
{
    let (peer, end) = handshake_read::parse_peer_entry(s, c)?;
    Ok((peer_verdict(s, peer, network), end))
}

// The REST API URL of the entry at a place: where it stands within the body of the first feature 4.
#[tactic(auto, using(handshake_read::proofs::AnswerLaws::answers, crate::proofs::PeerLaws::again))]
pub fn rest_api_url(s: &[u8], c: Cursor) -> Read<Option<Part>>
    ensures { read_answer result ≡ map_answer entry_url (entry s.now c.at) }
{
    let (peer, end) = handshake_read::parse_peer_entry(s, c)?;
    Ok((peer_url(s, peer), end))
}

// The verdict, given what was read of an entry.
#[tactic(auto, using(crate::proofs::VerdictLaws::verdicts), unfolding(crate::specs::Peer::entry_in))]
pub fn peer_verdict(s: &[u8], peer: PeerSpec, network: Network) -> Verdict
    ensures { verdict_number result ≡ validate_peer network (entry_in s.now peer) }
{
    let version = peer.version;
    if version.lt(Version::eip37_min()) {
        return Verdict::OldVersion;
    }
    if other_magic(s, peer.features, network) {
        return Verdict::OtherMagic;
    }
    Verdict::Accepted
}

// The REST API URL, given what was read of an entry.
#[tactic(auto, using(crate::proofs::UrlLaws::urls), unfolding(crate::specs::Peer::entry_in))]
pub fn peer_url(s: &[u8], peer: PeerSpec) -> Option<Part>
    ensures { result ≡ entry_url (entry_in s.now peer) }
{
    let f = find_feature(s, peer.features, FEATURE_REST_API)?;
    read_url(s, f.body)
}

// The first feature with an id, given what was read of an entry: its features are read in turn, until one has the id or is refused.
pub fn find_feature(s: &[u8], features: Features, id: u8) -> Option<Feature>
    ensures { result ≡ first_in id (features_from features.count s.now features.start) }
{
    let mut d = Cursor { at: features.start };
    for _ in 0..features.count {
        let Ok((f, e)) = handshake_read::read_feature(s, d) else {
            return None;
        };
        if f.id == id {
            return Some(f);
        }
        d = e;
    }
    None
}

// Is the first feature 3 of at least four bytes, and are the first four not the magic?
fn other_magic(s: &[u8], features: Features, network: Network) -> bool
    ensures { result ≡ other_magic network (first_feature 3 (features_from features.count s.now features.start)) }
{
    let Some(f) = find_feature(s, features, FEATURE_SESSION) else {
        return false;
    };
    if f.body.len < 4 {
        return false;
    }
    !wire::matches_at(s, f.body.start, network.magic())
}

// A length byte and that much UTF-8 within the body of a feature.
#[tactic(auto, using(handshake_read::proofs::AnswerLaws::answers, crate::proofs::UrlLaws::strings))]
fn read_url(s: &[u8], body: Part) -> Option<Part>
    requires { body.start + body.len ≤ length s.now }
    ensures { result ≡ part_if_any (string_from body.start (short_string (segment_in s.now body).bytes 0)) }
{
    let start = body.start;
    let end = start + body.len;
    let c = Cursor { at: 0 };
    let Ok((p, _)) = c.read_short_string(&s[start..end]) else {
        return None;
    };
    Some(Part {
        start: start + p.start,
        len: p.len,
    })
}
