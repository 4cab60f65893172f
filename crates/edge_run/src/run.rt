//! The top call.
ghost use Rattle.edge_run.specs.Headline.{IsHeadline, IsExact};
ghost use Rattle.edge_run.specs.Modes.{plan_of};
ghost use Rattle.edge_run.specs.Run.{Runs, IsCaused, IsComplete, IsAlong};

use crate::deliver::deliver;
use crate::modes::answer;
use crate::outcome::Outcome;
use ev_io::{Gate, Shelf, Sink};
use ev_value::Text;
use std::alloc::Global;

/// Runs the program on its words, without its own name: reads what the words name from the shelf, and puts the answer to
/// `out` or one line of another end to `err`.
///
/// The words are MODE, SCHEMA, DATA and QUERY, and behind them `--args` and a name where there are arguments. The modes are
/// `const`, the query alone, over no schema and no objects; `check`, the schema and the data, and how many types and objects
/// there are; and `run`, the query over the schema and the data, with the arguments.
pub fn run_words<H: Shelf, K: Sink, L: Sink, G: Gate>(
    alloc: Global,
    words: &[Text],
    shelf: &mut H,
    out: &mut K,
    err: &mut L,
    _gate: &G,
) -> Outcome
    ensures headline { IsHeadline words.now (H.seen shelf.old) (H.seen shelf.new)
        (K.seen out.old) (K.seen out.new) (L.seen err.old) (L.seen err.new) result }
    ensures exact { IsExact words.now (H.seen shelf.old) (H.seen shelf.new)
        (K.seen out.old) (K.seen out.new) (L.seen err.old) (L.seen err.new) result }
    ensures runs { Runs (plan_of words.now) (H.seen shelf.old) (H.seen shelf.new)
        (K.seen out.old) (K.seen out.new) (L.seen err.old) (L.seen err.new) result }
    ensures caused { IsCaused (plan_of words.now) (H.seen shelf.old) (H.seen shelf.new)
        (K.seen out.old) (K.seen out.new) (L.seen err.old) (L.seen err.new) result }
    ensures complete { IsComplete (plan_of words.now) (H.seen shelf.old) (H.seen shelf.new)
        (K.seen out.old) (K.seen out.new) (L.seen err.old) (L.seen err.new) result }
    ensures calls { IsAlong (plan_of words.now) (H.seen shelf.old) (H.seen shelf.new)
        (K.seen out.old) (K.seen out.new) (L.seen err.old) (L.seen err.new) result }
{
    deliver(alloc, answer(alloc, words, shelf), out, err)
}
