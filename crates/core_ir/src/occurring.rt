//! The occurrences of paths in an expression.
ghost use Rattle.std.specs.Prelude.{◌≡◌, ◌++◌, ◌∷◌, [], IfOk, OnOk, flat_map};
ghost use Rattle.core_ir.specs.Occurrences.{direct as direct_in, all as all_in, all_of_key};
ghost use Rattle.core_ir.specs.Parts.{all_in as all_of_scope, all_of_alias, all_of_element, all_if_there, all_of_rows, in_order};

use crate::tree::{
    Alias, Conditional, Direct, Element, Expr, Key, Occurrence, Order, Scope, Select,
};
use ev_value::{Boxed, List};
use std::alloc::{AllocError, Global};

fn add_direct(
    alloc: Global,
    occurrence: &Occurrence,
    optional: bool,
    out: &mut List<Direct>,
) -> Result<(), AllocError>
    ensures { OnOk result (out.new ≡ out.old ++ record { occurrence = occurrence.now; optional = optional } ∷ []) }
{
    let occurrence = occurrence.copied(alloc)?;
    out.push(Direct {
        occurrence,
        optional,
    })
}

// Appends the direct occurrences of an expression that stands in an optional argument or does not.
#[cycle(direct)]
#[tactic(auto, using(crate::proofs::DirectLaws::direct_forms))]
fn collect_direct(
    alloc: Global,
    expr: &Expr,
    optional: bool,
    out: &mut List<Direct>,
) -> Result<(), AllocError>
    ensures { OnOk result (out.new ≡ out.old ++ direct_in expr.now optional) }
{
    match expr {
        Expr::Path(_, occurrence) | Expr::OnBase(_, _, occurrence) => {
            add_direct(alloc, occurrence, optional, out)
        }
        Expr::Operation(_, _, operands)
        | Expr::Tuple(_, operands)
        | Expr::Array(_, _, operands)
        | Expr::Unfit(_, _, _, operands) => {
            collect_direct_of_all(alloc, operands.as_slice(), optional, out)
        }
        Expr::Plus(_, operand)
        | Expr::Cast(_, _, operand)
        | Expr::In(_, _, operand, _)
        | Expr::Shaped(_, operand, _, _, _)
        | Expr::ArrayCast(_, _, operand)
        | Expr::Unpack(_, operand) => collect_direct(alloc, operand.get(), optional, out),
        Expr::OptionalEqual(_, _, left, right) => {
            collect_direct(alloc, left.get(), true, out)?;
            collect_direct(alloc, right.get(), true, out)
        }
        Expr::Coalesce(_, first, _) => collect_direct(alloc, first.get(), true, out),
        Expr::If(_, choice) => collect_direct(alloc, choice.condition.get(), optional, out),
        Expr::Literal(..)
        | Expr::Param(..)
        | Expr::Global(..)
        | Expr::OfSet(..)
        | Expr::Union(..)
        | Expr::Set(..)
        | Expr::Select(..)
        | Expr::For(..)
        | Expr::EmptySet(..) => Ok(()),
    }
}

// The same of expressions one after the other.
#[cycle(direct)]
fn collect_direct_of_all(
    alloc: Global,
    exprs: &[Expr],
    optional: bool,
    out: &mut List<Direct>,
) -> Result<(), AllocError>
    ensures { OnOk result (out.new ≡ out.old ++ flat_map (λ x. direct_in x optional) exprs.now) }
{
    for expr in exprs {
        collect_direct(alloc, expr, optional, out)?;
    }
    Ok(())
}

/// The occurrences that no inner scope contains, where the expression stands in an optional argument or does not.
pub fn direct(alloc: Global, expr: &Expr, optional: bool) -> Result<List<Direct>, AllocError>
    ensures { IfOk result (λ ds. ds ≡ direct_in expr.now optional) }
{
    let mut found = List::new(alloc);
    collect_direct(alloc, expr, optional, &mut found)?;
    Ok(found)
}

fn add(alloc: Global, occurrence: &Occurrence, out: &mut List<Occurrence>) -> Result<(), AllocError>
    ensures { OnOk result (out.new ≡ out.old ++ occurrence.now ∷ []) }
{
    out.push(occurrence.copied(alloc)?)
}

// Appends all occurrences of an expression, in the order of the text.
#[cycle(all)]
#[tactic(auto, using(crate::proofs::AllLaws::all_forms))]
fn collect(alloc: Global, expr: &Expr, out: &mut List<Occurrence>) -> Result<(), AllocError>
    ensures { OnOk result (out.new ≡ out.old ++ all_in expr.now) }
{
    match expr {
        Expr::Literal(..) | Expr::Param(..) | Expr::Global(..) | Expr::EmptySet(..) => Ok(()),
        Expr::Path(_, occurrence) => add(alloc, occurrence, out),
        Expr::OnBase(_, base, occurrence) => {
            collect(alloc, base.body.get(), out)?;
            add(alloc, occurrence, out)
        }
        Expr::Operation(_, _, operands)
        | Expr::Tuple(_, operands)
        | Expr::Array(_, _, operands)
        | Expr::Unfit(_, _, _, operands) => { collect_from(alloc, operands.as_slice(), out) }
        Expr::Plus(_, operand)
        | Expr::Cast(_, _, operand)
        | Expr::ArrayCast(_, _, operand)
        | Expr::Unpack(_, operand) => collect(alloc, operand.get(), out),
        Expr::OptionalEqual(_, _, left, right) => {
            collect(alloc, left.get(), out)?;
            collect(alloc, right.get(), out)
        }
        Expr::In(_, _, left, right) | Expr::Coalesce(_, left, right) => {
            collect(alloc, left.get(), out)?;
            collect(alloc, right.body.get(), out)
        }
        Expr::OfSet(_, _, set) => collect(alloc, set.body.get(), out),
        Expr::Union(_, first, second) => {
            collect(alloc, first.body.get(), out)?;
            collect(alloc, second.body.get(), out)
        }
        Expr::Set(_, elements) => collect_from_scopes(alloc, elements.as_slice(), out),
        Expr::If(_, choice) => collect_from_choice(alloc, choice, out),
        Expr::Shaped(_, subject, _, _, elements) => {
            collect(alloc, subject.get(), out)?;
            collect_from_elements(alloc, elements.as_slice(), out)
        }
        Expr::Select(_, aliases, select) => {
            collect_from_aliases(alloc, aliases.as_slice(), out)?;
            collect_from_rows(alloc, select, out)?;
            collect_from_clause(alloc, &select.offset, out)?;
            collect_from_clause(alloc, &select.limit, out)
        }
        Expr::For(_, aliases, _, iterator, body) => {
            collect_from_aliases(alloc, aliases.as_slice(), out)?;
            collect(alloc, iterator.body.get(), out)?;
            collect(alloc, body.body.get(), out)
        }
    }
}

// The same of the parts of a choice.
#[cycle(all)]
fn collect_from_choice(
    alloc: Global,
    choice: &Conditional,
    out: &mut List<Occurrence>,
) -> Result<(), AllocError>
    ensures { OnOk result (out.new ≡ out.old ++ in_order choice.now.order (all_in choice.now.condition) (all_of_scope choice.now.value) (all_of_scope choice.now.other)) }
{
    match choice.order {
        Order::ValueFirst => {
            collect(alloc, choice.value.body.get(), out)?;
            collect(alloc, choice.condition.get(), out)?;
        }
        Order::ConditionFirst => {
            collect(alloc, choice.condition.get(), out)?;
            collect(alloc, choice.value.body.get(), out)?;
        }
    }
    collect(alloc, choice.other.body.get(), out)
}

// The same of a statement's subject, filter and keys, which are inside its own scope.
#[cycle(all)]
fn collect_from_rows(
    alloc: Global,
    select: &Select,
    out: &mut List<Occurrence>,
) -> Result<(), AllocError>
    ensures { OnOk result (out.new ≡ out.old ++ all_of_rows select.now) }
{
    collect(alloc, select.subject.get(), out)?;
    collect_from_clause(alloc, &select.filter, out)?;
    collect_from_keys(alloc, select.keys.as_slice(), out)
}

#[cycle(all)]
fn collect_from_clause(
    alloc: Global,
    clause: &Option<Boxed<Scope>>,
    out: &mut List<Occurrence>,
) -> Result<(), AllocError>
    ensures { OnOk result (out.new ≡ out.old ++ all_if_there clause.now) }
{
    match clause {
        None => Ok(()),
        Some(scope) => collect(alloc, scope.get().body.get(), out),
    }
}

#[cycle(all)]
fn collect_from(alloc: Global, exprs: &[Expr], out: &mut List<Occurrence>) -> Result<(), AllocError>
    ensures { OnOk result (out.new ≡ out.old ++ flat_map all_in exprs.now) }
{
    for expr in exprs {
        collect(alloc, expr, out)?;
    }
    Ok(())
}

#[cycle(all)]
fn collect_from_scopes(
    alloc: Global,
    scopes: &[Scope],
    out: &mut List<Occurrence>,
) -> Result<(), AllocError>
    ensures { OnOk result (out.new ≡ out.old ++ flat_map all_of_scope scopes.now) }
{
    for scope in scopes {
        collect(alloc, scope.body.get(), out)?;
    }
    Ok(())
}

#[cycle(all)]
fn collect_from_elements(
    alloc: Global,
    elements: &[Element],
    out: &mut List<Occurrence>,
) -> Result<(), AllocError>
    ensures { OnOk result (out.new ≡ out.old ++ flat_map all_of_element elements.now) }
{
    for element in elements {
        collect(alloc, element.value.body.get(), out)?;
    }
    Ok(())
}

#[cycle(all)]
fn collect_from_aliases(
    alloc: Global,
    aliases: &[Alias],
    out: &mut List<Occurrence>,
) -> Result<(), AllocError>
    ensures { OnOk result (out.new ≡ out.old ++ flat_map all_of_alias aliases.now) }
{
    for alias in aliases {
        collect(alloc, alias.value.body.get(), out)?;
    }
    Ok(())
}

#[cycle(all)]
fn collect_from_keys(
    alloc: Global,
    keys: &[Key],
    out: &mut List<Occurrence>,
) -> Result<(), AllocError>
    ensures { OnOk result (out.new ≡ out.old ++ flat_map all_of_key keys.now) }
{
    for key in keys {
        collect_from_key(alloc, key, out)?;
    }
    Ok(())
}

#[cycle(all)]
#[tactic(auto, using(crate::proofs::AllLaws::all_forms))]
fn collect_from_key(alloc: Global, key: &Key, out: &mut List<Occurrence>) -> Result<(), AllocError>
    ensures { OnOk result (out.new ≡ out.old ++ all_of_key key.now) }
{
    match key {
        Key::Ascending(_, value) | Key::Descending(_, value) => {
            collect(alloc, value.body.get(), out)
        }
    }
}

/// All occurrences of an expression, in the order of the text.
pub fn all(alloc: Global, expr: &Expr) -> Result<List<Occurrence>, AllocError>
    ensures { IfOk result (λ os. os ≡ all_in expr.now) }
{
    let mut found = List::new(alloc);
    collect(alloc, expr, &mut found)?;
    Ok(found)
}

/// All occurrences inside a statement's own scope: in its subject, its filter and its keys.
pub fn all_inside(alloc: Global, select: &Select) -> Result<List<Occurrence>, AllocError>
    ensures { IfOk result (λ os. os ≡ all_of_rows select.now) }
{
    let mut found = List::new(alloc);
    collect_from_rows(alloc, select, &mut found)?;
    Ok(found)
}
