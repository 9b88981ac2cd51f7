// Entries and handshakes for C, as haspeljo::handshakes.
ghost use Rattle.wire.specs.Reader.{and_then, place, map_answer};
ghost use Rattle.handshake.specs.Entry.{feature, entry, handshake};
ghost use Rattle.handshake.specs.Verdict.{validate_peer};
ghost use Rattle.handshake_read.specs.Parts.{feature_at};
ghost use Rattle.handshake_read.specs.Answers.{feature_of, peer_spec_of, handshake_of};
ghost use Rattle.handshake_verdict.specs.Answers.{handshake_verdict, entry_url};
ghost use Rattle.export_arrays.specs.Networks.{network_of};
ghost use Rattle.export_arrays.specs.Entries.{handshake_next, entry_next, feature_next, size_only, url_next};
ghost use Rattle.haspeljo.specs.Results.{ReaderLeaves, value_next};

#[unsafe(no_mangle)]
pub extern "C" fn haspeljo_parse(s: &[u8], r: &mut [u64; 15]) -> u8
    ensures { ReaderLeaves handshake_next (map_answer handshake_of (handshake s.now 0)) result
        r.old r.new }
{
    haspeljo::handshakes::haspeljo_parse(s, r)
}

#[unsafe(no_mangle)]
pub extern "C" fn haspeljo_measure_size(s: &[u8], r: &mut [u64; 1]) -> u8
    ensures { ReaderLeaves size_only (and_then handshake (λ h. place) s.now 0) result r.old r.new }
{
    haspeljo::handshakes::haspeljo_measure_size(s, r)
}

#[unsafe(no_mangle)]
pub extern "C" fn haspeljo_parse_peer_entry(s: &[u8], at: usize, r: &mut [u64; 15]) -> u8
    ensures { ReaderLeaves entry_next (map_answer peer_spec_of (entry s.now at)) result r.old r.new }
{
    haspeljo::handshakes::haspeljo_parse_peer_entry(s, at, r)
}

#[unsafe(no_mangle)]
pub extern "C" fn haspeljo_read_feature(s: &[u8], at: usize, r: &mut [u64; 4]) -> u8
    ensures { ReaderLeaves feature_next (map_answer feature_of (feature s.now at)) result r.old r.new }
{
    haspeljo::handshakes::haspeljo_read_feature(s, at, r)
}

#[unsafe(no_mangle)]
pub extern "C" fn haspeljo_feature_by_index(
    s: &[u8],
    at: usize,
    index: usize,
    r: &mut [u64; 4],
) -> u8
    ensures { ReaderLeaves feature_next (map_answer feature_of (feature_at index s.now at)) result
        r.old r.new }
{
    haspeljo::handshakes::haspeljo_feature_by_index(s, at, index, r)
}

#[unsafe(no_mangle)]
pub extern "C" fn haspeljo_validate_peer(s: &[u8], mainnet: u8, r: &mut [u64; 2]) -> u8
    ensures { ReaderLeaves value_next (map_answer (handshake_verdict (network_of mainnet)) (handshake s.now 0)) result
        r.old r.new }
{
    haspeljo::handshakes::haspeljo_validate_peer(s, mainnet, r)
}

#[unsafe(no_mangle)]
pub extern "C" fn haspeljo_validate_entry(s: &[u8], at: usize, mainnet: u8, r: &mut [u64; 2]) -> u8
    ensures { ReaderLeaves value_next (map_answer (validate_peer (network_of mainnet)) (entry s.now at)) result
        r.old r.new }
{
    haspeljo::handshakes::haspeljo_validate_entry(s, at, mainnet, r)
}

#[unsafe(no_mangle)]
pub extern "C" fn haspeljo_rest_api_url(s: &[u8], at: usize, r: &mut [u64; 4]) -> u8
    ensures { ReaderLeaves url_next (map_answer entry_url (entry s.now at)) result r.old r.new }
{
    haspeljo::handshakes::haspeljo_rest_api_url(s, at, r)
}
