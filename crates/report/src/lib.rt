// The report of a session (document 01, "At the edges"): as many lines as fit into a lent output, and the whole of it printed.
#![tactic(auto)]

ghost use Rattle.std.specs.Prelude.{◌≡◌, ◌%◌, ◌^◌, length};
ghost use Rattle.wire.specs.Output.{put};
ghost use Rattle.io.specs.Counts.{IsPrefixLen};
ghost use Rattle.report.specs.Report.{block_at, block_next, report_text, session_text, input_text};

use report_lines::Next;
use std::io::{Read, Result};
use std::ops::ControlFlow;
use types::{Network, StreamPlace};
use wire_part_write::write_part;

// The longest input of the program `session` that it reports on.
const MAX_INPUT: usize = 65536;

// The Peers cap of the program `session`.
const CAP: usize = 64;

// The descriptor of standard output. The kit's io writes to it, since std's is a handle that print_read is not given.
const STDOUT: i32 = 1;

// All that the program `session` does: it reads its input, of which one byte more than the longest is enough to tell,
// and prints what is to be printed.
pub fn print_input<R: Read>(input: &mut R) {
    let mut buf = [0u8; MAX_INPUT + 1];
    let read = report_input_read::read_input(input, &mut buf);
    print_read(read, &buf);
}

// Prints `unread` where a read failed, otherwise what is printed of the bytes that were read, and gives how many bytes that is. Of more bytes than the
// buffer has it counts the buffer's.
pub fn print_read(read: Result<usize>, buf: &[u8]) -> u64
    ensures { result ≡ length (input_text read buf.now) % 2 ^ 64 }
{
    match read {
        Ok(n) => print_session(&buf[..n.min(buf.len())]),
        Err(_) => {
            io::write_all(STDOUT, b"unread\n");
            7
        }
    }
}

// Prints `long` where the input is too long, otherwise its report as a session of mainnet with the cap 64, and gives how many bytes that is.
pub fn print_session(s: &[u8]) -> u64
    ensures { result ≡ length (session_text s.now) % 2 ^ 64 }
{
    if MAX_INPUT < s.len() {
        io::write_all(STDOUT, b"long\n");
        return 5;
    }
    print_report(s, Network::Mainnet, CAP)
}

// Prints the report of a session, block by block, and gives how many bytes it has, modulo 2^64. A function of its own,
// so that its block lies on the stack where there is a session.
#[inline(never)]
fn print_report(s: &[u8], network: Network, cap: usize) -> u64
    ensures { result ≡ length (report_text network cap s.now) % 2 ^ 64 }
{
    let mut at = ControlFlow::Continue(StreamPlace(0));
    let mut printed = 0u64;
    while let ControlFlow::Continue(place) = at {
        let mut block = [0u8; 65536];
        let lines = put_lines(&mut block, s, network, cap, place);
        io::write_all(STDOUT, &block[..lines.len]);
        at = lines.at;
        printed = printed.wrapping_add(lines.len as u64);
    }
    printed
}

// Lines of the report of a session, from a place on: as many as leave room for a longest one before each.
pub fn put_lines(out: &mut [u8], s: &[u8], network: Network, cap: usize, at: StreamPlace) -> Next
    ensures value { result ≡ block_next (block_at network cap s.now (length out.old) at.0) }
    ensures out_after { out.new ≡ put out.old 0 (block_at network cap s.now (length out.old) at.0).text }
    ensures prefix_len { IsPrefixLen result.len out.new }
{
    let mut len = 0;
    let mut place = at;
    while 192 <= out.len() - len {
        let mut line = [0u8; 192];
        let next = report_lines::next_line(&mut line, s, network, cap, place);
        len = write_part(out, len, &line[..next.len]).unwrap();
        match next.at {
            ControlFlow::Continue(after) => place = after,
            ControlFlow::Break(last) => {
                return Next {
                    len,
                    at: ControlFlow::Break(last),
                };
            }
        }
    }
    Next {
        len,
        at: ControlFlow::Continue(place),
    }
}
