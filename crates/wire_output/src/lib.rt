// What is asked of the output before a writer stores (document 01, "Questions", Writers): the place in it, and the room from there on.
#![tactic(auto)]

ghost use Rattle.std.specs.Prelude.{◌≡◌, [], ◌+◌, leb};
ghost use Rattle.wire.specs.Output.{written_said, written_said_by, size_said_by};
ghost use Rattle.wire_output.specs.Asked.{written_for, output_asked};

use wire::{Numbered, Refusal};

// Has an output of len bytes n bytes from the place on?
pub fn has_room(len: usize, at: usize, n: usize) -> bool
    ensures { result ≡ leb (at + n) len }
{
    at <= len && n <= len - at
}

// What a writer of n bytes that asks nothing else says of an output of len bytes.
#[tactic(auto, unfolding(wire::specs::Output::asked))]
pub fn ask_room(len: usize, at: usize, n: usize) -> Result<usize, Refusal>
    ensures { written_said result ≡ written_for [] [] len at n }
{
    let left = len.checked_sub(at).ok_or(Refusal::Outside)?;
    if n <= left {
        Ok(at + n)
    } else {
        Err(Refusal::NoRoom)
    }
}

// Adds the place's question (after 16) and the room's (last) to what is said of a value, which may be refused by any
// number.
#[tactic(auto, unfolding(crate::specs::Asked::output_asked))]
pub fn ask_output<M: Numbered>(len: usize, at: usize, size: Result<usize, M>) -> Result<usize, M>
    ensures { written_said_by M.number_of result ≡ output_asked len at (size_said_by M.number_of size) }
{
    match size {
        Ok(n) => match ask_room(len, at, n) {
            Ok(end) => Ok(end),
            Err(m) => Err(M::of(m)),
        },
        Err(m) => {
            if m.is(Refusal::BadTable) || at <= len {
                Err(m)
            } else {
                Err(M::of(Refusal::Outside))
            }
        }
    }
}
