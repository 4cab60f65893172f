//! The types of a tree.
ghost use Rattle.std.specs.Prelude.{◌≡◌, IfOk};
ghost use Rattle.plan.specs.Plan.{tells};
ghost use Rattle.type_rules.specs.Known.{known_by};
ghost use Rattle.type_infer.specs.Typing.{known_before, typing};
ghost use Rattle.type_infer.specs.Verdict.{IsTold, Promises};

use crate::typer::Typer;
use core_ir::{Core, Ty, TypeId, Typed};
use ev_index::Index;
use std::alloc::{AllocError, Global};
use type_rules::{Notes, TypeRefusal};

/// What is known before a tree.
fn notes_before(alloc: Global, subject: Option<TypeId>) -> Result<Notes, AllocError>
    ensures { IfOk result (λ notes. known_by notes ≡ known_before subject) }
{
    let mut notes = Notes::new(alloc);
    match subject {
        Some(ty) => {
            notes.note_type(alloc, 0, &Ty::Object(ty))?;
            Ok(notes)
        }
        None => Ok(notes),
    }
}

fn typed(alloc: Global, core: &Core, index: &Index<'_>) -> Result<Typed, TypeRefusal>
    ensures { IsTold (tells (typing index.now core.now)) result }
{
    let mut notes = notes_before(alloc, core.subject)?;
    let typer = Typer {
        alloc,
        index: &*index,
    };
    let (root, ty) = typer.scope(&core.root, &mut notes)?;
    let core = Core {
        subject: core.subject,
        root,
    };
    Ok(Typed { core, ty })
}

/// The same tree with its types, and the type of its items; or the first failing place and its rule. The rules are those
/// of the EdgeDB documentation's pages on types and on expressions, as `specs/Forms` has them.
pub fn infer_types(alloc: Global, core: Core, index: &Index<'_>) -> Result<Typed, TypeRefusal>
    ensures { Promises (typing index.now core) result }
{
    typed(alloc, &core, index)
}
