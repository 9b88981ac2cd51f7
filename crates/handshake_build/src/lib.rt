// A handshake from its values (transport/handshake.rs `build`), written into a lent output from a place.
// Every question is asked first, and bytes are stored only once each is answered "yes".
#![tactic(auto)]

ghost use Rattle.std.specs.Prelude.{◌≡◌, ◌∷◌, ◌++◌, ◌+◌, ◌^◌, ◌≤◌, ◌<◌, length};
ghost use Rattle.wire.specs.Output.{written_said, size_said, output_after, Wrote};
ghost use Rattle.vlq.specs.Vlq.{vlq_bytes};
ghost use Rattle.vlq.specs.ShortString.{max_short_string};
ghost use Rattle.handshake.specs.Value.{AddressTyped, address_bytes, handshake_bytes};
ghost use Rattle.handshake.specs.Writes.{built, built_written};
ghost use Rattle.handshake_build.specs.Parts.{config_of, built_size, BuildReady, before_address_bytes, mode_feature_bytes, session_feature_bytes};

use handshake_address_write::{address_len, write_address};
use handshake_features_write::{Mode, mode_len, session_len, write_mode, write_session};
use types::{Address, Network, Version};
use vlq::MAX_SHORT_STRING;
use vlq_utf8::is_utf8;
use vlq_write::{vlq_len, write_short_string, write_vlq};
use wire::Refusal;
use wire_output::ask_output;
use wire_part_write::write_part;

// What `build` is given beside agent and name, which are lent: a Config is a value that definitions compare.
#[derive(Clone, Copy)]
pub struct Config {
    pub network: Network,
    pub mode: Mode,
    pub version: Version,
    pub address: Address,
    pub timestamp: u64,
    pub session: i64,
}

// A handshake with the features Mode and Session. The last clause is what the types of timestamp and address say;
// written sessions rest on it.
pub fn build(
    out: &mut [u8],
    at: usize,
    config: Config,
    agent: &[u8],
    name: &[u8],
) -> Result<usize, Refusal>
    ensures value { written_said result ≡ built_written (config_of config agent.now name.now) out.old at }
    ensures out_after { out.new ≡ output_after (written_said result) out.old at (handshake_bytes (built (config_of config agent.now name.now))) }
    ensures timestamp_bound { (config.timestamp < 2 ^ 64) × AddressTyped config.address }
{
    let size = build_size(config, agent, name);
    let end = ask_output(out.len(), at, size)?;
    put_build(out, at, config, agent, name);
    Ok(end)
}

// ---- questions and lengths

// How many bytes the handshake has. Of its questions only those about agent and name can be answered "no".
fn build_size(config: Config, agent: &[u8], name: &[u8]) -> Result<usize, Refusal>
    ensures { size_said result ≡ built_size (config_of config agent.now name.now) }
{
    if MAX_SHORT_STRING < agent.len() || MAX_SHORT_STRING < name.len() {
        return Err(Refusal::StringTooLong);
    }
    if !is_utf8(agent) || !is_utf8(name) {
        return Err(Refusal::InvalidUtf8);
    }
    Ok(build_len(config, agent.len(), name.len()))
}

// How many bytes a handshake with strings of a and n bytes has.
fn build_len(config: Config, a: usize, n: usize) -> usize
    requires { (a ≤ max_short_string) × (n ≤ max_short_string) }
    ensures { (result ≡ length (vlq_bytes config.timestamp) + (5 + a + n) + length (address_bytes config.address) + (1 + length (mode_feature_bytes config) + length (session_feature_bytes config))) × (length (mode_feature_bytes config) ≤ 16) × (length (session_feature_bytes config) ≤ 16) }
{
    let head = vlq_len(config.timestamp) + (5 + a + n);
    head + address_len(config.address) + (1 + mode_len(config.mode) + session_len(config.session))
}

// ---- storing

fn put_build(out: &mut [u8], at: usize, config: Config, agent: &[u8], name: &[u8]) -> usize
    requires build_ready { BuildReady agent.now name.now }
    requires name_in_bounds { at + length (handshake_bytes (built (config_of config agent.now name.now))) ≤ length out.old }
    ensures { Wrote out.old at (handshake_bytes (built (config_of config agent.now name.now))) result out.new }
{
    let head = put_head(out, at, config, agent, name);
    let address = write_address(out, head, config.address).unwrap();
    put_features(out, address, config)
}

// Timestamp, agent, version and name.
fn put_head(out: &mut [u8], at: usize, config: Config, agent: &[u8], name: &[u8]) -> usize
    requires build_ready { BuildReady agent.now name.now }
    requires name_in_bounds { at + length (before_address_bytes config agent.now name.now) ≤ length out.old }
    ensures { Wrote out.old at (before_address_bytes config agent.now name.now) result out.new }
{
    let version = config.version;
    let numbers = [version.major, version.minor, version.patch];
    let time = write_vlq(out, at, config.timestamp).unwrap();
    let first = write_short_string(out, time, agent).unwrap();
    let last = write_part(out, first, &numbers).unwrap();
    write_short_string(out, last, name).unwrap()
}

// How many features there are, Mode and Session.
fn put_features(out: &mut [u8], at: usize, config: Config) -> usize
    requires { at + (1 + length (mode_feature_bytes config) + length (session_feature_bytes config)) ≤ length out.old }
    ensures { Wrote out.old at (2 ∷ (mode_feature_bytes config ++ session_feature_bytes config)) result out.new }
{
    out[at] = 2;
    let end = write_mode(out, at + 1, config.mode).unwrap();
    write_session(out, end, config.network, config.session).unwrap()
}
