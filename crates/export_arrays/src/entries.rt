// The numbers of an entry and of a URL.
ghost use Rattle.std.specs.Prelude.{◌≡◌};
ghost use Rattle.export_arrays.specs.Entries.{entry_array, peer_numbers, url_next, stream_entry_next};

use frame_read::StreamPart;
use handshake_read::{Features, PeerSpec};
use types::Address;
use walk_by_index::StreamEntry;
use wire::Part;

#[tactic(auto, unfolding(crate::specs::Entries::url_next))]
pub fn url_numbers(url: Option<Part>, next: usize) -> [u64; 4]
    ensures { result ≡ url_next url next }
{
    match url {
        Some(p) => [1, p.start as u64, p.len as u64, next as u64],
        None => [0, 0, 0, next as u64],
    }
}

#[tactic(auto, unfolding(crate::specs::Entries::with_address))]
pub fn entry_numbers(timestamp: u64, p: PeerSpec, next: usize) -> [u64; 15]
    ensures { result ≡ peer_numbers timestamp p next }
{
    match p.address {
        Address::None => entry_array(timestamp, p, 0, 0, 0, 0, next),
        Address::V4(ip, port) => entry_array(timestamp, p, 4, ip as u64, 0, port, next),
        Address::V6(high, low, port) => entry_array(timestamp, p, 6, high, low, port, next),
    }
}

// An entry with places in the stream.
pub fn stream_entry_numbers(e: StreamEntry, next: usize) -> [u64; 15]
    ensures { result ≡ stream_entry_next e next }
{
    let peer = PeerSpec {
        agent: part(e.agent),
        version: e.version,
        name: part(e.name),
        address: e.address,
        features: Features {
            count: e.features.count,
            start: e.features.start.0,
        },
    };
    entry_numbers(0, peer, next)
}

// A part of the stream, by numbers alone.
fn part(p: StreamPart) -> Part
    ensures { result ≡ record { start = p.start.0; len = p.len } }
{
    Part {
        start: p.start.0,
        len: p.len,
    }
}

fn entry_array(
    timestamp: u64,
    p: PeerSpec,
    kind: u64,
    high: u64,
    low: u64,
    port: u16,
    next: usize,
) -> [u64; 15]
    ensures { result ≡ entry_array timestamp p kind high low port next }
{
    [
        timestamp,
        p.agent.start as u64,
        p.agent.len as u64,
        p.version.major as u64,
        p.version.minor as u64,
        p.version.patch as u64,
        p.name.start as u64,
        p.name.len as u64,
        kind,
        high,
        low,
        port as u64,
        p.features.count as u64,
        p.features.start as u64,
        next as u64,
    ]
}
