// All of an input, read into a lent buffer: a read that fails is told from the end of the input.
#![tactic(auto)]

ghost use Rattle.std.specs.Prelude.{◌≡◌, ◌+◌, ◌<◌, ◌^◌, length};
ghost use Rattle.report_input_read.specs.Input.{Stored, Within, turn_after};

use std::io::{Read, Result};
use std::ops::ControlFlow;

// Stores what is read from the start of the buffer on, until that is full or the input ends: how many bytes that is.
// Where a read fails, what came before it counts for nothing.
pub fn read_input<R: Read>(input: &mut R, buf: &mut [u8]) -> Result<usize>
    ensures { Stored result buf.new }
{
    let mut done = 0;
    while done < buf.len() {
        match read_at(input, buf, done) {
            ControlFlow::Continue(n) => done = n,
            ControlFlow::Break(read) => return read,
        }
    }
    Ok(done)
}

// One read of at most 4,096 bytes, stored from a place of the buffer on: the place after them, or how the reading ends.
fn read_at<R: Read>(input: &mut R, buf: &mut [u8], done: usize) -> ControlFlow<Result<usize>, usize>
    requires { done < length buf.old }
    ensures { Within result done (length buf.old) }
{
    let asked = (buf.len() - done).min(4096);
    let got = input.read(&mut buf[done..done + asked]);
    after(got, done, asked)
}

// What a read's answer means that asked for so many bytes, where some are stored.
fn after(got: Result<usize>, done: usize, asked: usize) -> ControlFlow<Result<usize>, usize>
    requires { done + asked < 2 ^ 64 }
    ensures { result ≡ turn_after got done asked }
{
    match got {
        Err(e) => ControlFlow::Break(Err(e)),
        Ok(n) => match n.min(asked) {
            0 => ControlFlow::Break(Ok(done)),
            n => ControlFlow::Continue(done + n),
        },
    }
}
