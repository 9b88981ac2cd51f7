// The numbers of a message.
ghost use Rattle.std.specs.Prelude.{◌≡◌};
ghost use Rattle.export_arrays.specs.Messages.{message_numbers};

use messages_read::Message;

#[tactic(auto, unfolding(crate::specs::Messages::message_numbers))]
pub fn message_numbers(m: Message, next: usize) -> [u64; 5]
    ensures { result ≡ message_numbers m next }
{
    match m {
        Message::Peers(p) => [
            0,
            p.count as u64,
            p.bogus as u64,
            p.start.0 as u64,
            next as u64,
        ],
        Message::ModifierRequest(i) | Message::ModifierResponse(i) | Message::Inv(i) => [
            i.modifier_type as u64,
            i.count as u64,
            0,
            i.start.0 as u64,
            next as u64,
        ],
        Message::GetPeers | Message::SyncInfo | Message::Unknown => [0, 0, 0, 0, next as u64],
    }
}
