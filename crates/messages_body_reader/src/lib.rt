// A thin reader of a message body: the lent body, and the place where it reads. Each of its functions takes it apart
// and calls the cursor of `vlq`.
#![tactic(auto)]

ghost use Rattle.std.specs.Prelude.{◌≡◌};
ghost use Rattle.wire.specs.Reader.{byte, part, part_of};
ghost use Rattle.vlq.specs.Vlq.{vlq, vlq_length};
ghost use Rattle.vlq.specs.ShortString.{short_string};
ghost use Rattle.vlq.specs.Answers.{read_answer};
ghost use Rattle.messages_body_reader.specs.Reading.{place_after, read_by, moved_by, mapped};
ghost use Rattle.messages.specs.Message.{inventory_header};
ghost use Rattle.messages_body_reader.specs.Header.{inventory_header_answer};

use messages::MAX_INV_OBJECTS;
use types::{BodyPlace, BodyRead};
use vlq::{Cursor, Read};
use wire::{Part, Refusal};

#[derive(Clone, Copy)]
pub struct BodyReader<'a> {
    pub body: &'a [u8],
    pub at: BodyPlace,
}

// Each of its functions but `new` reads where the reader stands and moves it to the next place; on a refusal the
// reader stays.
impl<'a> BodyReader<'a> {
    pub fn new(body: &'a [u8], at: BodyPlace) -> BodyReader<'a>
        ensures { result ≡ record { body = body.entry; at = at } }
    {
        BodyReader { body, at }
    }

    pub fn read_byte(&mut self) -> Read<u8>
        ensures { (read_answer result ≡ read_by byte self.old) × (self.new ≡ moved_by byte self.old) }
    {
        let byte = Cursor { at: self.at.0 }.read_byte(self.body);
        self.moved(byte)
    }

    pub fn read_vlq(&mut self) -> Read<u64>
        ensures { (read_answer result ≡ read_by vlq self.old) × (self.new ≡ moved_by vlq self.old) }
    {
        let vlq = Cursor { at: self.at.0 }.read_vlq(self.body);
        self.moved(vlq)
    }

    pub fn read_vlq_length(&mut self) -> Read<u64>
        ensures { (read_answer result ≡ read_by vlq_length self.old) × (self.new ≡ moved_by vlq_length self.old) }
    {
        let length = Cursor { at: self.at.0 }.read_vlq_length(self.body);
        self.moved(length)
    }

    // n bytes: where they stand.
    pub fn read_part(&mut self, n: usize) -> Read<Part>
        ensures { (read_answer result ≡ read_by (mapped part_of (part n)) self.old) × (self.new ≡ moved_by (mapped part_of (part n)) self.old) }
    {
        let part = Cursor { at: self.at.0 }.read_part(self.body, n);
        self.moved(part)
    }

    pub fn read_short_string(&mut self) -> Read<Part>
        ensures { (read_answer result ≡ read_by (mapped part_of short_string) self.old) × (self.new ≡ moved_by (mapped part_of short_string) self.old) }
    {
        let string = Cursor { at: self.at.0 }.read_short_string(self.body);
        self.moved(string)
    }

    // Hands on what was read, and moves to the next place; on a refusal the reader stays.
    fn moved<T: Copy>(&mut self, read: Read<T>) -> Read<T>
        ensures { (result ≡ read) × (self.new ≡ record { body = self.old.body; at = place_after self.old.at (read_answer read) }) }
    {
        if let Ok((_, c)) = read {
            self.at = BodyPlace(c.at);
        }
        read
    }
}

// What stands at the start of an Inv, a ModifierRequest and a ModifierResponse body: the type byte and the count.
#[derive(Clone, Copy)]
pub struct InventoryHeader {
    pub modifier_type: u8,
    pub count: u64,
}

// Reads the header of such a body. Its parameter is a plain slice, so a caller holds no reader.
#[tactic(auto, using(std::proofs::lemmas::Result::err_from_is_err_and), unfolding(messages::specs::Message::count, messages::specs::Message::inventory_header))]
pub fn inventory_header(body: &[u8]) -> BodyRead<InventoryHeader>
    ensures { inventory_header_answer result ≡ inventory_header body.now 0 }
{
    let mut reader = BodyReader::new(body, BodyPlace(0));
    let (modifier_type, _) = reader.read_byte()?;
    let (count, c) = reader.read_vlq_length()?;
    if count > MAX_INV_OBJECTS as u64 {
        return Err(Refusal::CountExceedsCap);
    }
    let header = InventoryHeader {
        modifier_type,
        count,
    };
    Ok((header, BodyPlace(c.at)))
}
