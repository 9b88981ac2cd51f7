// Messages, written as whole frames into a lent output from a place (protocol/messages.rs): GetPeers, SyncInfo and
// those of other codes.
// ModifierRequest and Inv stand in messages_inventory_write, ModifierResponse in messages_response_write, Peers in
// messages_peers_write.
#![tactic(auto)]

ghost use Rattle.std.specs.Prelude.{◌≡◌};
ghost use Rattle.wire.specs.Output.{written_said, output_after};
ghost use Rattle.messages.specs.Value.{unknown_code};
ghost use Rattle.messages.specs.Writes.{write_get_peers, write_sync_info, write_unknown, value_of, message_bytes, message_written};
ghost use Rattle.messages_opaque_write.specs.Asked.{unknown_written_for};

use messages::{GET_PEERS, INV, MODIFIER_REQUEST, MODIFIER_RESPONSE, PEERS, SYNC_INFO};
use types::Network;
use wire::{MAX_BODY_SIZE, Refusal};

// GetPeers, which has no body.
#[tactic(auto, using(crate::proofs::MessageWriteLaws::says), unfolding(wire::specs::Output::output_after, messages::specs::Value::code_of, messages::specs::Value::body_bytes, messages::specs::Writes::value_of))]
pub fn write_get_peers(out: &mut [u8], at: usize, network: Network) -> Result<usize, Refusal>
    ensures value { written_said result ≡ message_written network 0 write_get_peers out.old at }
    ensures out_after { out.new ≡ output_after (written_said result) out.old at (message_bytes network (value_of write_get_peers)) }
{
    frame_write::close_frame(out, at, network, GET_PEERS, 0)
}

// SyncInfo, whose body is written as it is.
#[tactic(auto, using(crate::proofs::MessageWriteLaws::says), unfolding(wire::specs::Output::output_after, messages::specs::Value::code_of, messages::specs::Value::body_bytes, messages::specs::Writes::value_of))]
pub fn write_sync_info(
    out: &mut [u8],
    at: usize,
    network: Network,
    body: &[u8],
) -> Result<usize, Refusal>
    ensures value { written_said result ≡ message_written network 0 (write_sync_info body.now) out.old at }
    ensures out_after { out.new ≡ output_after (written_said result) out.old at (message_bytes network (value_of (write_sync_info body.now))) }
{
    frame_write::encode(out, at, network, SYNC_INFO, body)
}

// A message of another code, whose body is written as it is.
#[tactic(auto, using(crate::proofs::MessageWriteLaws::says), unfolding(wire::specs::Output::output_after, messages::specs::Value::code_of, messages::specs::Value::body_bytes, messages::specs::Writes::value_of))]
pub fn write_unknown(
    out: &mut [u8],
    at: usize,
    network: Network,
    code: u8,
    body: &[u8],
) -> Result<usize, Refusal>
    ensures value { written_said result ≡ message_written network 0 (write_unknown code body.now) out.old at }
    ensures out_after { out.new ≡ output_after (written_said result) out.old at (message_bytes network (value_of (write_unknown code body.now))) }
{
    ask_unknown(out.len(), at, code, body.len())?;
    frame_write::encode(out, at, network, code, body)
}

// What write_unknown says of an output of len bytes and a body of n bytes.
#[tactic(auto, unfolding(wire::specs::Output::asked, frame_write::specs::Asked::frame_written_for, crate::specs::Asked::unknown_written_for))]
fn ask_unknown(len: usize, at: usize, code: u8, n: usize) -> Result<usize, Refusal>
    ensures { written_said result ≡ unknown_written_for code len at n }
{
    if len < at {
        return Err(Refusal::Outside);
    }
    if MAX_BODY_SIZE < n {
        return Err(Refusal::BodyTooLarge);
    }
    if !is_unknown(code) {
        return Err(Refusal::InvalidInput);
    }
    frame_write::ask_frame(len, at, n)
}

// Is the code none of the six?
#[tactic(auto, unfolding(messages::specs::Value::unknown_code))]
fn is_unknown(code: u8) -> bool
    ensures { result ≡ unknown_code code }
{
    !matches!(
        code,
        GET_PEERS | PEERS | MODIFIER_REQUEST | MODIFIER_RESPONSE | INV | SYNC_INFO
    )
}
