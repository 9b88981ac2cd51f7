// A message body as the message of its code, read from lent bytes (protocol/messages.rs). A body begins at its own
// place 0, and every place here is a place in the body.
#![tactic(auto)]

ghost use Rattle.std.specs.Prelude.{◌≡◌};
ghost use Rattle.wire.specs.Reader.{map_answer};
ghost use Rattle.messages.specs.Message.{message};
ghost use Rattle.messages_read.specs.Answers.{message_of};
ghost use Rattle.types.specs.Answers.{body_answer};

use messages::{GET_PEERS, INV, MODIFIER_REQUEST, MODIFIER_RESPONSE, PEERS, SYNC_INFO};
use messages_inventory_read::{Inventory, parse_inv_body};
use messages_peers_read::{Peers, parse_peers_body};
use messages_response_read::parse_modifier_response_body;
use types::{BodyPlace, BodyRead, Network};

#[derive(Clone, Copy)]
pub enum Message {
    GetPeers,
    Peers(Peers),
    ModifierRequest(Inventory),
    ModifierResponse(Inventory),
    Inv(Inventory),
    SyncInfo,
    Unknown,
}

// The body of a frame as the message of the frame's code.
#[tactic(auto, using(crate::proofs::AnswerLaws::message_answers), unfolding(messages::specs::Message::message, messages::specs::Message::whole_body))]
pub fn from_frame(code: u8, body: &[u8], cap: usize, network: Network) -> BodyRead<Message>
    ensures { body_answer result ≡ map_answer (message_of network body.now) (message cap code body.now 0) }
{
    match code {
        GET_PEERS => Ok((Message::GetPeers, BodyPlace(0))),
        PEERS => {
            let (peers, end) = parse_peers_body(body, cap, network)?;
            Ok((Message::Peers(peers), end))
        }
        INV => {
            let (ids, end) = parse_inv_body(body)?;
            Ok((Message::Inv(ids), end))
        }
        MODIFIER_REQUEST => {
            let (ids, end) = parse_inv_body(body)?;
            Ok((Message::ModifierRequest(ids), end))
        }
        MODIFIER_RESPONSE => {
            let (payloads, end) = parse_modifier_response_body(body)?;
            Ok((Message::ModifierResponse(payloads), end))
        }
        SYNC_INFO => Ok((Message::SyncInfo, BodyPlace(body.len()))),
        _ => Ok((Message::Unknown, BodyPlace(body.len()))),
    }
}
