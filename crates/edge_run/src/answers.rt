//! Answers of items: their text, or a fault.
ghost use Rattle.std.specs.Prelude.{◌≡◌, IfOk, MatchResult};
ghost use Rattle.ev_io.specs.Shelf.{ShelfView};
ghost use Rattle.ev_value.specs.Item.{faults, values};
ghost use Rattle.ev_value.specs.Nested.{answer_form as answer_form_of};
ghost use Rattle.edge_run.specs.Plan.{Goes};
ghost use Rattle.edge_run.specs.Modes.{answered, answer_text as answer_text_of, IsFirst};

use crate::outcome::Outcome;
use ev_json::text;
use ev_value::{Bytes, Fault, Item, List, Nested};
use std::alloc::{AllocError, Global};

/// Memory ran out while the answer was made: nothing more is told.
pub fn without_memory<T>(made: Result<T, AllocError>) -> Result<T, Outcome>
    ensures { MatchResult made (λ value. result ≡ Ok value) (λ _. result ≡ Err Outcome.Memory) }
{
    match made {
        Ok(value) => Ok(value),
        Err(_) => Err(Outcome::Memory),
    }
}

// The first fault among the items.
fn first_fault(items: &[Item]) -> Option<Fault>
    ensures { IsFirst result (faults items.now) }
{
    for item in items {
        if let Item::Fault(fault) = item {
            return Some(*fault);
        }
    }
    None
}

// The values among the items, as the form of an answer.
fn answer_form(alloc: Global, items: &[Item]) -> Result<Nested, AllocError>
    ensures { IfOk result (λ form. form ≡ answer_form_of (values items.now)) }
{
    let mut forms = List::new(alloc);
    for item in items {
        if let Item::Value(value) = item {
            forms.push(Nested::Scalar(value.copied(alloc)?))?;
        }
    }
    Ok(Nested::Array(forms))
}

// The text of an answer: the JSON array of the values, and a line feed.
fn answer_text(alloc: Global, items: &[Item]) -> Result<Bytes, AllocError>
    ensures { IfOk result (λ t. t ≡ answer_text_of (values items.now)) }
{
    let form = answer_form(alloc, items)?;
    let mut answer = text(alloc, &form)?;
    answer.push(b'\n')?;
    Ok(answer)
}

/// The answer that the items make, or their first fault.
#[tactic(auto, unfolding(crate::specs::Modes::answered, crate::specs::Plan::Goes), using(crate::proofs::PlanLaws::quiet))]
pub fn answer_of(alloc: Global, items: &[Item]) -> Result<Bytes, Outcome>
    ensures { (shelf : ShelfView) → Goes (answered items.now) shelf result shelf }
{
    match first_fault(items) {
        Some(fault) => Err(Outcome::RunFault(fault)),
        None => without_memory(answer_text(alloc, items)),
    }
}
