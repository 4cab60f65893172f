//! A caller's arguments.
ghost use Rattle.std.specs.Prelude.{◌≡◌, [], IfOk};
ghost use Rattle.eql_sem.specs.Operations.{optional};
ghost use Rattle.eql_steps.specs.Steps.{argument_named};

use ev_value::{Argument, Item, List, Text};
use std::alloc::{AllocError, Global};

/// The argument with a name, as a list.
pub fn argument(
    alloc: Global,
    arguments: &[Argument],
    name: &Text,
) -> Result<List<Item>, AllocError>
    ensures { IfOk result (λ xs. xs ≡ optional (argument_named arguments.now name.now)) }
{
    let mut out = List::new(alloc);
    for argument in arguments {
        if argument.name == *name {
            out.push(Item::Value(argument.value.copied(alloc)?))?;
            return Ok(out);
        }
    }
    Ok(out)
}
