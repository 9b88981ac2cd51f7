// The features Mode and Session that `build` gives a handshake (transport/handshake.rs), written into a lent output
// from a place.
// Each writer asks the room first and stores only where there is some.
#![tactic(auto)]

ghost use Rattle.std.specs.Prelude.{◌≡◌, [], ◌+◌, ◌≤◌, length, Bool, ℕ};
ghost use Rattle.wire.specs.Output.{written_said, written, output_after, Wrote};
ghost use Rattle.types.specs.declared.Network.{Network};
ghost use Rattle.handshake.specs.Value.{feature_bytes};
ghost use Rattle.handshake.specs.Writes.{nipopow};
ghost use Rattle.handshake_features_write.specs.Features.{mode_feature_of, session_feature_of};

use handshake::{FEATURE_MODE, FEATURE_SESSION};
use types::{Network, ProxyMode};
use vlq_write::{vlq_len, write_vlq};
use vlq_zigzag::{zigzag_encode, zigzag_encode_i64};
use wire::Refusal;
use wire_output::ask_room;
use wire_part_write::write_part;

// ---- Mode

// What the Mode feature says of a node: full or light, the state type byte, whether transactions are verified, and
// how many blocks are kept.
#[derive(Clone, Copy)]
pub struct Mode {
    pub proxy: ProxyMode,
    pub state_type_id: u8,
    pub verifying: bool,
    pub blocks_to_keep: i32,
}

// The state type byte, whether transactions are verified, and how many blocks are kept.
#[tactic(auto, unfolding(wire::specs::Output::asked, wire::specs::Output::written, wire::specs::Output::output_after))]
pub fn write_mode(out: &mut [u8], at: usize, mode: Mode) -> Result<usize, Refusal>
    ensures value { written_said result ≡ written [] [] out.old at (feature_bytes (mode_feature_of mode)) }
    ensures out_after { out.new ≡ output_after (written_said result) out.old at (feature_bytes (mode_feature_of mode)) }
{
    let end = ask_room(out.len(), at, mode_len(mode))?;
    put_mode(out, at, mode);
    Ok(end)
}

// How many bytes Mode is written as, whatever the state type and the flag.
pub fn mode_len(mode: Mode) -> usize
    ensures { (result ≡ length (feature_bytes (mode_feature_of mode))) × (result ≤ 16) × ((state_type_id : ℕ) (verifying : Bool) → result ≡ length (feature_bytes (mode_feature_of (record { proxy = mode.proxy; state_type_id = state_type_id; verifying = verifying; blocks_to_keep = mode.blocks_to_keep })))) }
{
    let n = vlq_len(u64::from(zigzag_encode(mode.blocks_to_keep)));
    match mode.proxy {
        ProxyMode::Full => 5 + n,
        ProxyMode::Light => 6 + n,
    }
}

// Stores Mode, for which there is room, and gives the place after it.
fn put_mode(out: &mut [u8], at: usize, mode: Mode) -> usize
    requires { at + length (feature_bytes (mode_feature_of mode)) ≤ length out.old }
    ensures { Wrote out.old at (feature_bytes (mode_feature_of mode)) result out.new }
{
    let kept = u64::from(zigzag_encode(mode.blocks_to_keep));
    let n = (mode_len(mode) - 2) as u8;
    let flag = u8::from(mode.verifying);
    let head = [FEATURE_MODE, n, mode.state_type_id, flag];
    let middle = write_part(out, at, &head).unwrap();
    let end = put_nipopow(out, middle, mode.proxy);
    write_vlq(out, end, kept).unwrap()
}

// 00 in Full; 01 02 in Light: some, and the zigzag VLQ of 1.
fn put_nipopow(out: &mut [u8], at: usize, proxy: ProxyMode) -> usize
    requires { at + length (nipopow proxy) ≤ length out.old }
    ensures { Wrote out.old at (nipopow proxy) result out.new }
{
    match proxy {
        ProxyMode::Full => write_part(out, at, &[0]).unwrap(),
        ProxyMode::Light => write_part(out, at, &[1, 2]).unwrap(),
    }
}

// ---- Session

// The network's magic and the session id.
#[tactic(auto, unfolding(wire::specs::Output::asked, wire::specs::Output::written, wire::specs::Output::output_after))]
pub fn write_session(
    out: &mut [u8],
    at: usize,
    network: Network,
    session: i64,
) -> Result<usize, Refusal>
    ensures value { written_said result ≡ written [] [] out.old at (feature_bytes (session_feature_of network session)) }
    ensures out_after { out.new ≡ output_after (written_said result) out.old at (feature_bytes (session_feature_of network session)) }
{
    let end = ask_room(out.len(), at, session_len(session))?;
    put_session(out, at, network, session);
    Ok(end)
}

// How many bytes Session is written as, in any network.
pub fn session_len(session: i64) -> usize
    ensures { ((network : Network) → result ≡ length (feature_bytes (session_feature_of network session))) × (result ≤ 16) }
{
    6 + vlq_len(zigzag_encode_i64(session))
}

// Stores Session, for which there is room, and gives the place after it.
fn put_session(out: &mut [u8], at: usize, network: Network, session: i64) -> usize
    requires { at + length (feature_bytes (session_feature_of network session)) ≤ length out.old }
    ensures { Wrote out.old at (feature_bytes (session_feature_of network session)) result out.new }
{
    let id = zigzag_encode_i64(session);
    let head = [FEATURE_SESSION, (session_len(session) - 2) as u8];
    let middle = write_part(out, at, &head).unwrap();
    let end = write_part(out, middle, &network.magic()).unwrap();
    write_vlq(out, end, id).unwrap()
}
