// VLQs and short strings, read from lent bytes by a cursor (transport/vlq.rs).
#![tactic(auto)]

ghost use Rattle.std.specs.Prelude.{◌≡◌};
ghost use Rattle.wire.specs.Reader.{byte, part, part_of, map_answer};
ghost use Rattle.vlq.specs.Vlq.{vlq, vlq_length};
ghost use Rattle.vlq.specs.ShortString.{string, short_string};
ghost use Rattle.vlq.specs.Answers.{read_answer};

use wire::{MAX_BODY_SIZE, Part, Refusal};

// The most bytes of a short string, whose length is a byte.
pub const MAX_SHORT_STRING: usize = 255;

// A place in the bytes that are read. Each step hands the moved cursor back.
#[derive(Clone, Copy)]
pub struct Cursor {
    pub at: usize,
}

// What is read and the cursor after it, or the refusal.
pub type Read<T> = Result<(T, Cursor), Refusal>;

impl Cursor {
    pub fn new(at: usize) -> Self
        ensures { result.at ≡ at }
    {
        Self { at }
    }

    pub fn read_byte(self, s: &[u8]) -> Read<u8>
        ensures { read_answer result ≡ byte s.now self.at }
    {
        let at = self.at;
        if at < s.len() {
            Ok((s[at], Cursor { at: at + 1 }))
        } else if at == s.len() {
            Err(Refusal::UnexpectedEof)
        } else {
            Err(Refusal::Outside)
        }
    }

    // n bytes: where they stand.
    pub fn read_part(self, s: &[u8], n: usize) -> Read<Part>
        ensures { read_answer result ≡ map_answer part_of (part n s.now self.at) }
    {
        let at = self.at;
        if s.len() < at {
            Err(Refusal::Outside)
        } else if n <= s.len() - at {
            Ok((Part { start: at, len: n }, Cursor { at: at + n }))
        } else {
            Err(Refusal::UnexpectedEof)
        }
    }

    // A VLQ of at most ten bytes; its value is the sum modulo 2^64.
    pub fn read_vlq(self, s: &[u8]) -> Read<u64>
        ensures { read_answer result ≡ vlq s.now self.at }
    {
        let at = self.at;
        if s.len() < at {
            return Err(Refusal::Outside);
        }
        let mut sum = 0;
        let mut weight = 1;
        for i in 0..9 {
            if s.len() <= at + i {
                return Err(Refusal::UnexpectedEof);
            }
            let b = u64::from(s[at + i]);
            if b < 0x80 {
                return Ok((sum + b * weight, Cursor { at: at + i + 1 }));
            }
            sum += (b % 0x80) * weight;
            weight *= 0x80;
        }
        let last = at + 9;
        if s.len() <= last {
            return Err(Refusal::UnexpectedEof);
        }
        let b = u64::from(s[last]);
        if b < 0x80 {
            Ok((sum + (b % 2) * weight, Cursor { at: last + 1 }))
        } else {
            Err(Refusal::VlqOverflow)
        }
    }

    // A VLQ that is a length or a count: the Rust has the limit as MAX_VLQ_LENGTH too.
    pub fn read_vlq_length(self, s: &[u8]) -> Read<u64>
        ensures { read_answer result ≡ vlq_length s.now self.at }
    {
        let (v, c) = self.read_vlq(s)?;
        if v <= MAX_BODY_SIZE as u64 {
            Ok((v, c))
        } else {
            Err(Refusal::LengthTooLarge)
        }
    }

    // A length byte, then that many bytes of UTF-8: where they stand.
    pub fn read_short_string(self, s: &[u8]) -> Read<Part>
        ensures { read_answer result ≡ map_answer part_of (short_string s.now self.at) }
    {
        let (n, c) = self.read_byte(s)?;
        c.read_string(s, n as usize)
    }

    // n bytes of UTF-8, tested once all are there.
    pub fn read_string(self, s: &[u8], n: usize) -> Read<Part>
        ensures { read_answer result ≡ map_answer part_of (string n s.now self.at) }
    {
        let (part, c) = self.read_part(s, n)?;
        if vlq_utf8::is_utf8(&s[part.start..c.at]) {
            Ok((part, c))
        } else {
            Err(Refusal::InvalidUtf8)
        }
    }
}
