// Reads a file of frozen cases from standard input, asks the library each case, and prints the answers, one line for each case.
// A case is the function's number (a byte), the length of its input (two bytes, little-endian), and the input.
#![tactic(auto)]

mod case;
mod print;
mod readers;
mod results;
mod tables;
mod writers;

use case::Case;
use print::Output;
use std::io::Result;

// The descriptor of standard input.
const STDIN: i32 = 0;

// A file of cases has at most 260,000 bytes.
const MOST: usize = 260_000;

fn main(rt: HostRuntime) -> Result<()> {
    let rt = Output(&rt);
    let mut cases = [0u8; MOST + 1];
    let n = io::read_full(STDIN, &mut cases);
    if n <= MOST && replay(&rt, &cases[..n])? {
        return Ok(());
    }
    println!(rt; "bad")
}

// Prints the answers to all cases. At the first malformed one it ends: false.
fn replay(rt: &impl Print, cases: &[u8]) -> Result<bool> {
    let mut rest = cases;
    let mut n = 0usize;
    while !rest.is_empty() {
        let Some((case, after)) = Case::split(rest) else {
            return Ok(false);
        };
        print!(rt; "{n}")?;
        answer(rt, &case)?;
        println!(rt; "")?;
        rest = after;
        n += 1;
    }
    Ok(true)
}

// The functions by their numbers. Each of the three is compiled into no other, so that the stack has room for its own
// cases alone.
fn answer(rt: &impl Print, case: &Case) -> Result<()> {
    match case.function {
        9..=17 => results::answer(rt, case),
        6..=8 | 34..=45 => writers::answer(rt, case),
        _ => readers::answer(rt, case),
    }
}
