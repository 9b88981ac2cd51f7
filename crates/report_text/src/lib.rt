// The text of each line of a session's report (document 01, "At the edges") from its numbers, stored from the first byte of a lent line on.
// A line is an array with how much of it is filled, since the library allocates nothing.
#![tactic(auto)]

ghost use Rattle.std.specs.Prelude.{◌≡◌, ◌+◌, ◌≤◌, length};
ghost use Rattle.wire.specs.Output.{Wrote};
ghost use Rattle.report_text.specs.Lines.{line_end, version_text, handshake_line, message_text, message_line, peers_line, stop_handshake, stop_frame, stop_body, stop_line, end_line};
ghost use Rattle.report_text.specs.Lines.{labelled_number as Lines·field, span as Lines·span};

use types::Version;
use wire_part_write::write_part;
use wire_text_write::write_decimal;

// "handshake START END version MAJOR.MINOR.PATCH verdict VERDICT"
pub fn put_handshake(
    line: &mut [u8; 192],
    start: u64,
    end: u64,
    version: Version,
    verdict: u8,
) -> usize
    ensures wrote { Wrote line.old 0 (handshake_line start end version.major version.minor version.patch verdict) result line.new }
    ensures upper_bound { result ≤ 192 }
{
    let a = span(line, b"handshake ", start, end);
    let b = put_version(line, a, version);
    let c = field(line, b, b" verdict ", u64::from(verdict));
    newline(line, c)
}

// "message START END code CODE"
pub fn put_message(line: &mut [u8; 192], start: u64, end: u64, code: u8) -> usize
    ensures wrote { Wrote line.old 0 (message_line start end code) result line.new }
    ensures upper_bound { result ≤ 192 }
{
    let a = put_message_text(line, start, end, code);
    newline(line, a)
}

// "message START END code CODE entries ENTRIES bogus BOGUS"
pub fn put_peers(
    line: &mut [u8; 192],
    start: u64,
    end: u64,
    code: u8,
    entries: u64,
    bogus: u64,
) -> usize
    ensures wrote { Wrote line.old 0 (peers_line start end code entries bogus) result line.new }
    ensures upper_bound { result ≤ 192 }
{
    let a = put_message_text(line, start, end, code);
    let b = field(line, a, b" entries ", entries);
    let c = field(line, b, b" bogus ", bogus);
    newline(line, c)
}

// "stop handshake NUMBER START"
pub fn put_handshake_stop(line: &mut [u8; 192], number: u8, start: u64) -> usize
    ensures wrote { Wrote line.old 0 (stop_line stop_handshake number start) result line.new }
    ensures upper_bound { result ≤ 192 }
{
    put_stop(line, b"stop handshake ", number, start)
}

// "stop frame NUMBER START"
pub fn put_frame_stop(line: &mut [u8; 192], number: u8, start: u64) -> usize
    ensures wrote { Wrote line.old 0 (stop_line stop_frame number start) result line.new }
    ensures upper_bound { result ≤ 192 }
{
    put_stop(line, b"stop frame ", number, start)
}

// "stop body NUMBER START"
pub fn put_body_stop(line: &mut [u8; 192], number: u8, start: u64) -> usize
    ensures wrote { Wrote line.old 0 (stop_line stop_body number start) result line.new }
    ensures upper_bound { result ≤ 192 }
{
    put_stop(line, b"stop body ", number, start)
}

// "end LENGTH"
pub fn put_end(line: &mut [u8; 192], length: u64) -> usize
    ensures wrote { Wrote line.old 0 (end_line length) result line.new }
    ensures upper_bound { result ≤ 192 }
{
    let a = field(line, 0, b"end ", length);
    newline(line, a)
}

// The text of a stop with its layer, its number and the item's start. Private, since a text of any length has no room.
fn put_stop(line: &mut [u8; 192], text: &[u8], number: u8, start: u64) -> usize
    requires { length text.now ≤ 15 }
    ensures wrote { Wrote line.old 0 (stop_line text.now number start) result line.new }
    ensures upper_bound { result ≤ 192 }
{
    let a = span(line, text, u64::from(number), start);
    newline(line, a)
}

// "message START END code CODE", without the line's end.
fn put_message_text(line: &mut [u8; 192], start: u64, end: u64, code: u8) -> usize
    ensures wrote { Wrote line.old 0 (message_text start end code) result line.new }
    ensures upper_bound { result ≤ 75 }
{
    let a = span(line, b"message ", start, end);
    field(line, a, b" code ", u64::from(code))
}

// A text and two numbers.
fn span(line: &mut [u8], text: &[u8], start: u64, end: u64) -> usize
    requires { (length text.now ≤ 15) × (56 ≤ length line.old) }
    ensures wrote { Wrote line.old 0 (Lines·span text.now start end) result line.new }
    ensures upper_bound { result ≤ length text.now + 41 }
{
    let a = field(line, 0, text, start);
    field(line, a, b" ", end)
}

// " version MAJOR.MINOR.PATCH"
fn put_version(line: &mut [u8], at: usize, version: Version) -> usize
    requires { at + 71 ≤ length line.old }
    ensures wrote { Wrote line.old at (version_text version.major version.minor version.patch) result line.new }
    ensures upper_bound { result ≤ at + 71 }
{
    let a = field(line, at, b" version ", u64::from(version.major));
    let b = field(line, a, b".", u64::from(version.minor));
    field(line, b, b".", u64::from(version.patch))
}

// A text and a number in decimal: the place after them.
fn field(line: &mut [u8], at: usize, text: &[u8], n: u64) -> usize
    requires { at + length text.now + 20 ≤ length line.old }
    ensures wrote { Wrote line.old at (Lines·field text.now n) result line.new }
    ensures upper_bound { result ≤ at + length text.now + 20 }
{
    let next = write_part(line, at, text).unwrap();
    write_decimal(line, next, n).unwrap()
}

#[tactic(auto, using(wire::proofs::OutputLaws::wrote_byte))]
fn newline(line: &mut [u8], at: usize) -> usize
    requires { at + 1 ≤ length line.old }
    ensures wrote { Wrote line.old at line_end result line.new }
    ensures value { result ≡ at + 1 }
{
    line[at] = b'\n';
    at + 1
}
