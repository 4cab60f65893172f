//! The first failure among the names of a statement, and among its types.
ghost use Rattle.std.specs.Prelude.{ℕ, List, ◌∷◌, [], ◌++◌, IfOk};
ghost use Rattle.sql_check.specs.Names.{name_faults};
ghost use Rattle.sql_check.specs.Types.{type_faults};
ghost use Rattle.sql_check.specs.Walk.{IsLeast};

use crate::names::Names;
use crate::scope::Frames;
use crate::sort::SortFrames;
use crate::typing::Typing;
use crate::walk::parts;
use ev_value::List;
use sql_ast::{Catalog, Stmt, all_args};
use sql_grammar::Places;
use std::alloc::{AllocError, Global};

/// The lesser of a byte and the least of those before it.
#[tactic(auto, using(crate::proofs::Least::first_byte, crate::proofs::Least::lesser_byte, crate::proofs::Least::kept_byte))]
fn lesser(least: Option<u32>, byte: u32) -> Option<u32>
    ensures { (before : List ℕ) → IsLeast least before → IsLeast result (before ++ byte ∷ []) }
{
    let Some(least) = least else {
        return Some(byte);
    };
    if byte < least {
        Some(byte)
    } else {
        Some(least)
    }
}

/// The least of some bytes.
fn least(bytes: &[u32]) -> Option<u32>
    ensures { IsLeast result bytes.now }
{
    let mut found = None;
    for byte in bytes {
        found = lesser(found, *byte);
    }
    found
}

/// The first byte, by its place in the text, of a name of a statement that is unknown, or that stands where another of that
/// name does: an alias in its core, or a column's name.
#[tactic(auto, using(crate::proofs::NameForms::top_is))]
pub fn failing_name(
    alloc: Global,
    catalog: &Catalog,
    statement: &Stmt,
    place: &Places,
) -> Result<Option<u32>, AllocError>
    ensures { IfOk result (λ found. IsLeast found (name_faults catalog.now statement.now place.now)) }
{
    let mut found = List::new(alloc);
    let names = Names { catalog };
    names.cores(
        statement.select.cores.as_slice(),
        parts(place),
        &Frames::Top,
        &mut found,
    )?;
    Ok(least(found.as_slice()))
}

/// The first byte, by its place in the text, of an expression of a statement that fails by its types.
#[tactic(auto, using(crate::proofs::ScopeForms::sort_top))]
pub fn failing_type(
    alloc: Global,
    catalog: &Catalog,
    statement: &Stmt,
    place: &Places,
) -> Result<Option<u32>, AllocError>
    ensures { IfOk result (λ found. IsLeast found (type_faults catalog.now statement.now place.now)) }
{
    let params = all_args(alloc, statement)?;
    let mut found = List::new(alloc);
    let typing = Typing {
        alloc,
        catalog,
        params: params.as_slice(),
    };
    typing.cores(
        statement.select.cores.as_slice(),
        parts(place),
        &SortFrames::Top,
        &mut found,
    )?;
    Ok(least(found.as_slice()))
}
