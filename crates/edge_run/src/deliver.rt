//! Puts the text of an answer to one sink, or the line of any other end to the other.
ghost use Rattle.std.specs.Prelude.{◌≡◌, ◌⊎◌};
ghost use Rattle.edge_run.specs.Deliver.{Delivers, PutsLine, unwritten_of};
ghost use Rattle.edge_run.specs.Outcome.{line_of};

use crate::outcome::{Chan, Outcome, memory_line};
use ev_io::Sink;
use ev_value::Bytes;
use std::alloc::Global;

/// What becomes of an end whose line could not be put.
fn unwritten(due: Outcome) -> Outcome
    ensures { result ≡ unwritten_of due }
{
    match due {
        Outcome::Memory => Outcome::Memory,
        _ => Outcome::WriteFault(Chan::Err),
    }
}

/// Puts the line of an end to `err`.
fn tell<L: Sink>(due: Outcome, line: &str, err: &mut L) -> Outcome
    requires { line.now ≡ line_of due }
    ensures { PutsLine due (L.seen err.old) (L.seen err.new) result }
{
    match err.put(line.as_bytes()) {
        Ok(()) => due,
        Err(_) => unwritten(due),
    }
}

/// PutsLine of an end, or of want of memory where there is none for its line.
fn tell_end<L: Sink>(alloc: Global, due: Outcome, err: &mut L) -> Outcome
    ensures { PutsLine due (L.seen err.old) (L.seen err.new) result
        ⊎ PutsLine Outcome.Memory (L.seen err.old) (L.seen err.new) result }
{
    if let Outcome::Memory = due {
        return tell(Outcome::Memory, memory_line(), err);
    }
    match due.line(alloc) {
        Ok(line) => tell(due, line.as_str(), err),
        Err(_) => tell(Outcome::Memory, memory_line(), err),
    }
}

/// Puts the answer to `out`, or the line of the end to `err`, in one put, and leaves the other sink as it was.
pub fn deliver<K: Sink, L: Sink>(
    alloc: Global,
    answer: Result<Bytes, Outcome>,
    out: &mut K,
    err: &mut L,
) -> Outcome
    ensures { Delivers answer (K.seen out.old) (K.seen out.new)
        (L.seen err.old) (L.seen err.new) result }
{
    match answer {
        Ok(text) => match out.put(text.as_slice()) {
            Ok(()) => Outcome::Done,
            Err(_) => Outcome::WriteFault(Chan::Out),
        },
        Err(due) => tell_end(alloc, due, err),
    }
}
