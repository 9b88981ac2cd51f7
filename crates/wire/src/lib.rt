// What readers and writers of the wire format have in common: a part of the bytes, the refusals, and a comparison.
#![tactic(auto)]

ghost use Rattle.std.specs.Prelude.{◌≡◌, ℕ, eqb, take, drop};
ghost use Rattle.wire.specs.Bytes.{same_bytes};
ghost use Rattle.wire.specs.Refusals.{number};

// The most bytes that a body may have, and the most that a length may say (transport/frame.rs, document 01).
pub const MAX_BODY_SIZE: usize = 16_388_608;

// Consecutive bytes: where they start, and how many they are.
#[derive(Clone, Copy)]
pub struct Part {
    pub start: usize,
    pub len: usize,
}

// The refusals: for each number of document 01, "Questions", what was answered "no". The names are after those of the
// Rust's errors.
#[derive(Clone, Copy, PartialEq, Eq)]
pub enum Refusal {
    // The field's bytes are not there.
    UnexpectedEof = 1,
    // The VLQ does not end within ten bytes.
    VlqOverflow,
    // The length or count is over 16,388,608.
    LengthTooLarge,
    // The string is not UTF-8.
    InvalidUtf8,
    // There are not nine bytes.
    FrameTooShort,
    // The magic is not ours.
    BadMagic,
    // The body length is over 16,388,608.
    BodyTooLarge,
    // The frame's bytes are not all there.
    FrameTruncated,
    // The check does not match.
    ChecksumMismatch,
    // The count is over 400, of Peers over the cap.
    CountExceedsCap,
    // The payload lengths so far are together over the body's length.
    PayloadExceedsBody,
    // The place, part or index is outside.
    Outside,
    // The string has over 255 bytes.
    StringTooLong,
    // The output has not as many bytes as the writing is long.
    NoRoom,
    // There are over 255 features, or an Unknown's code is one of the six.
    InvalidInput,
    // The table has no whole rows, or a number in it is out of range.
    BadTable,
}

impl Refusal {
    // Its number in document 01.
    pub fn number(self) -> u8
        ensures { result ≡ number self }
    {
        self as u8
    }
}

// A refusal by its name, or by any number, be it none of the sixteen.
pub trait Numbered: Copy {
    ghost number_of: { Self → ℕ };

    fn of(refusal: Refusal) -> Self
        ensures { number_of result ≡ number refusal };

    fn is(self, refusal: Refusal) -> bool
        ensures { result ≡ eqb (number_of self) (number refusal) };
}

impl Numbered for Refusal {
    ghost number_of = { number };

    fn of(refusal: Refusal) -> Self {
        refusal
    }

    fn is(self, refusal: Refusal) -> bool {
        self.number() == refusal.number()
    }
}

impl Numbered for u8 {
    ghost number_of = { λ n. n };

    fn of(refusal: Refusal) -> Self {
        refusal.number()
    }

    fn is(self, refusal: Refusal) -> bool {
        self == refusal.number()
    }
}

// Do these four bytes stand at a place?
pub fn matches_at(s: &[u8], at: usize, four: [u8; 4]) -> bool
    ensures { result ≡ same_bytes (take 4 (drop at s.now)) four }
{
    at <= s.len() && s[at..].starts_with(&four)
}
