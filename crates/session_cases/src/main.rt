// Reads inputs of the program `session` from standard input, each behind its length (three bytes, little-endian), and prints what it prints of them, one
// after the other; and last, twice, what it prints where its input can't be read.
#![tactic(auto)]

ghost use Rattle.std.specs.Prelude.{◌≤◌, ◌<◌, length, IfSome};

use std::io::{Error, Read, Result};

// The descriptor of standard input.
const STDIN: i32 = 0;

// An input of which no byte can be read.
#[derive(Drop)]
struct Unreadable;

impl Read for Unreadable {
    fn read(&mut self, _buf: &mut [u8]) -> Result<usize> {
        Err(Error::other("unreadable"))
    }
}

fn main() {
    let mut sessions = [0u8; 262144];
    let n = io::read_full(STDIN, &mut sessions);
    print_reports(&sessions[..n]);
    report::print_read(Err(Error::other("unreadable")), &sessions);
    report::print_input(&mut Unreadable);
}

// The reports of all sessions; at one that is not there whole it ends.
fn print_reports(sessions: &[u8]) {
    let mut s = sessions;
    while let Some((n, rest)) = first_session(s) {
        report::print_read(Ok(n), rest);
        s = &rest[n..];
    }
}

// How long the session is that s begins with, and what follows its length; none where it is not there whole.
fn first_session(s: &[u8]) -> Option<(usize, &[u8])>
    ensures { IfSome result (λ r. (r.0 ≤ length r.1.now) × (length r.1.now < length s.now)) }
{
    let (&[a, b, c], rest) = s.split_first_chunk::<3>()?;
    let n = u32::from_le_bytes([a, b, c, 0]) as usize;
    if n <= rest.len() {
        Some((n, rest))
    } else {
        None
    }
}
