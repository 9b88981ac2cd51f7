// UTF-8 (RFC 3629), as `String::from_utf8` tests it.
#![tactic(auto)]

ghost use Rattle.std.specs.Prelude.{◌≡◌, ◌≤◌, false, length, drop, IsTrue, MatchOption};
ghost use Rattle.std.specs.Str.{IsAscii};
ghost use Rattle.vlq_utf8.specs.Utf8.{lead_of, utf8_from, utf8};

// What a lead byte says: how many followers it has, and the bounds of the first.
#[derive(Clone, Copy)]
pub struct Lead {
    pub followers: u8,
    pub low: u8,
    pub high: u8,
}

// The table of document 01, which is the grammar of RFC 3629, section 4. None: no lead byte.
#[tactic(auto, unfolding(crate::specs::Utf8::lead_of, crate::specs::Utf8::lead_in, crate::specs::Utf8::lead_rows))]
pub fn lead_of(b: u8) -> Option<Lead>
    ensures { result ≡ lead_of b }
{
    let (followers, low, high) = match b {
        0x00..=0x7F => (0, 0x80, 0xBF),
        0xC2..=0xDF => (1, 0x80, 0xBF),
        0xE0 => (2, 0xA0, 0xBF),
        0xE1..=0xEC | 0xEE..=0xEF => (2, 0x80, 0xBF),
        0xED => (2, 0x80, 0x9F),
        0xF0 => (3, 0x90, 0xBF),
        0xF1..=0xF3 => (3, 0x80, 0xBF),
        0xF4 => (3, 0x80, 0x8F),
        _ => return None,
    };
    Some(Lead {
        followers,
        low,
        high,
    })
}

// Is all of s UTF-8? Bytes up to 0x7F are, and most strings have no others.
pub fn is_utf8(s: &[u8]) -> bool
    ensures { result ≡ utf8 s.now }
{
    is_short_ascii(s) || is_ascii_or_sequence(s)
}

// True only where s has 32 bytes at most and none is above 0x7F. By four, eight or sixteen at a time, if there are as
// many, the last over the first. The slice's own test takes up to twice as long on so few.
fn is_short_ascii(s: &[u8]) -> bool
    ensures { IsTrue result → IsAscii s.now }
{
    let n = s.len();
    if n < 4 {
        return non_ascii(s) == 0;
    }
    if n < 8 {
        return non_ascii(&s[..4]) + non_ascii(&s[n - 4..]) == 0;
    }
    if n <= 16 {
        return non_ascii(&s[..8]) + non_ascii(&s[n - 8..]) == 0;
    }
    n <= 32 && non_ascii(&s[..16]) + non_ascii(&s[n - 16..]) == 0
}

// How many of the few bytes of s are above 0x7F.
fn non_ascii(s: &[u8]) -> u8
    requires { length s.now ≤ 16 }
    ensures { (result ≤ length s.now) × (result ≡ 0 → IsAscii s.now) }
{
    let mut count = 0;
    for b in s {
        count += b / 0x80;
    }
    count
}

// A function of its own, so that short strings are tested with nothing on the stack.
#[inline(never)]
fn is_ascii_or_sequence(s: &[u8]) -> bool
    ensures { result ≡ utf8 s.now }
{
    is_long_ascii(s) || is_sequence(s)
}

// True only where s has more than 32 bytes and none is above 0x7F. Where one of the first or last sixteen is, the
// slice's own test is not begun. It is quickest on up to 64 bytes, so up to 128 go by their two ends.
fn is_long_ascii(s: &[u8]) -> bool
    ensures { IsTrue result → IsAscii s.now }
{
    let n = s.len();
    if n <= 32 || 0 < non_ascii(&s[..16]) + non_ascii(&s[n - 16..]) {
        return false;
    }
    if 64 < n && n <= 128 {
        return s[..64].is_ascii() && s[n - 64..].is_ascii();
    }
    s.is_ascii()
}

// Is s a sequence of lead bytes with their followers? By places, since a turn takes all bytes of a character: byte by
// byte, with what is still to come kept between the turns, it takes half as long again.
#[inline(never)]
fn is_sequence(s: &[u8]) -> bool
    ensures { result ≡ utf8 s.now }
{
    let mut at = 0;
    while at < s.len() {
        let b = s[at];
        at += 1;
        // a byte up to 0x7F stands alone
        if 0x7F < b {
            let Some(lead) = lead_of(b) else {
                return false;
            };
            let Some(next) = after_followers(s, at, lead) else {
                return false;
            };
            at = next;
        }
    }
    true
}

// Where the followers of a lead byte end, which begin at a place; None where they are not all there.
fn after_followers(s: &[u8], at: usize, lead: Lead) -> Option<usize>
    requires { at ≤ length s.now }
    ensures { MatchOption result (utf8_from (drop at s.now) lead.followers lead.low lead.high ≡ false) (λ next. (at ≤ next) × (next ≤ length s.now) × (utf8_from (drop at s.now) lead.followers lead.low lead.high ≡ utf8 (drop next s.now))) }
{
    let mut next = at;
    let mut left = lead.followers;
    let mut low = lead.low;
    let mut high = lead.high;
    while 0 < left && next < s.len() {
        let b = s[next];
        if b < low || high < b {
            return None;
        }
        next += 1;
        left -= 1;
        low = 0x80;
        high = 0xBF;
    }
    if left == 0 { Some(next) } else { None }
}
