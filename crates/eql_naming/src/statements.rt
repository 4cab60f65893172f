//! Statements over their parts.
ghost use Rattle.std.specs.Prelude.{◌≡◌, ◌++◌, ◌∷◌, [], IfOk};
ghost use Rattle.plan.specs.Plan.{tells};
ghost use Rattle.eql_naming.specs.Naming.{Answers};
ghost use Rattle.eql_naming.specs.Shapes as shape_rule;
ghost use Rattle.eql_naming.specs.Statements as rule;

use crate::clauses::{Clauses, Defined, Rows};
use crate::paths::next;
use crate::refusal::{NameRefusal, NameRule};
use ast::Statement;
use core_ir::{Alias, Expr, Scope, Select};
use ev_names::Names;
use ev_value::{Boxed, List, Text};
use std::alloc::{AllocError, Global};

/// Where a statement begins.
pub fn start_of_statement(x: &Statement) -> u32
    ensures { result ≡ rule.start_of_statement x.now }
{
    match x {
        Statement::Select(span, _, _) => span.start,
        Statement::For(span, _, _) => span.start,
    }
}

/// A select of its parts.
pub fn selected(
    alloc: Global,
    start: u32,
    aliases: List<Alias>,
    subject: Expr,
    number: u32,
    clauses: Clauses,
) -> Result<Expr, AllocError>
    ensures { IfOk result (λ x. x ≡ shape_rule.selected start aliases subject number clauses) }
{
    let subject = Boxed::new(alloc, subject)?;
    let Clauses {
        filter,
        keys,
        offset,
        limit,
    } = clauses;
    Ok(Expr::Select(
        start,
        aliases,
        Select {
            subject,
            ty: None,
            number,
            filter,
            keys,
            offset,
            limit,
        },
    ))
}

/// A select of its rows, behind its aliases.
pub fn selected_rows(
    alloc: Global,
    start: u32,
    defined: Defined,
    rows: Rows,
) -> Result<Expr, AllocError>
    ensures { IfOk result (λ x. x ≡ shape_rule.selected start defined.aliases rows.subject rows.number rows.clauses) }
{
    let Defined { names: _, aliases } = defined;
    let Rows {
        subject,
        number,
        clauses,
    } = rows;
    selected(alloc, start, aliases, subject, number, clauses)
}

/// No aliases.
pub fn undefined(alloc: Global) -> Defined
    ensures { result ≡ rule.undefined }
{
    Defined {
        names: Names::new(alloc),
        aliases: List::new(alloc),
    }
}

/// One more alias.
pub fn defined_too(
    alloc: Global,
    defined: Defined,
    name: &Text,
    number: u32,
    value: Scope,
) -> Result<Defined, AllocError>
    ensures { IfOk result (λ d. d ≡ rule.defined_too defined name.now number value) }
{
    let Defined { names, aliases } = defined;
    let mut names = names;
    let mut aliases = aliases;
    names.add(alloc, name)?;
    aliases.push(Alias { number, value })?;
    Ok(Defined { names, aliases })
}

/// One more alias of a value, if no other has its name.
#[tactic(auto, unfolding(crate::specs::Statements::named))]
pub fn named(
    alloc: Global,
    defined: Defined,
    start: u32,
    name: &Text,
    value: Scope,
    fresh: &mut u32,
) -> Result<Defined, NameRefusal>
    ensures { Answers (tells (rule.named defined start name.now value fresh.old)) result fresh.new }
{
    if defined.names.has(name) {
        return Err(NameRefusal::Rule(NameRule::N5, start));
    }
    let number = next(fresh)?;
    Ok(defined_too(alloc, defined, name, number, value)?)
}
