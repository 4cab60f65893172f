//! The names of a query, and of an expression of a schema.
ghost use Rattle.eql_resolve.specs.Verdict.{Promises, query, within};

use crate::resolving::Naming;
use ast::{Expr, Query};
use core_ir::{Core, TypeId};
use eql_naming::{Around, NameRefusal, own_subject, scope_at, start_of_statement};
use ev_index::Index;
use std::alloc::Global;

/// The tree of a query over a schema, whose names and places are known: types, aliases, variables, functions, subjects of
/// partial paths. Steps are still by name.
///
/// # Errors
///
/// `Rule` with the rule on names or places that fails first and the byte where it does: parts before the whole, from left
/// to right, and at one place the rule that stands first among `NameRule`.
pub fn resolve(alloc: Global, index: &Index<'_>, q: &Query) -> Result<Core, NameRefusal>
    ensures { Promises (query index.now q.now) result }
{
    let naming = Naming {
        alloc,
        index,
        parameters: true,
    };
    let mut fresh = 0;
    let body = naming.statement(&q.statement, true, &Around::Nothing, &mut fresh)?;
    let root = scope_at(alloc, start_of_statement(&q.statement), body)?;
    Ok(Core {
        subject: None,
        root,
    })
}

/// The tree of an expression of a schema over an object of a type, which is its subject. It is no result, and no parameter
/// is known in it.
///
/// # Errors
///
/// As of `resolve`; a parameter is unknown at its name.
pub fn resolve_in(
    alloc: Global,
    index: &Index<'_>,
    ty: TypeId,
    x: &Expr,
) -> Result<Core, NameRefusal>
    ensures { Promises (within index.now ty x.now) result }
{
    let naming = Naming {
        alloc,
        index,
        parameters: false,
    };
    let subject = own_subject(alloc, 0)?;
    let mut fresh = 1;
    let around = Around::Subject(&Around::Nothing, &subject);
    let body = naming.resolve(x, false, &around, &mut fresh)?;
    let root = scope_at(alloc, x.span().start, body)?;
    Ok(Core {
        subject: Some(ty),
        root,
    })
}
