//! The occurrences of paths in a tree, each with the scopes that contain it.
ghost use Rattle.std.specs.Prelude.{◌≡◌, ◌+◌, suc, ◌++◌, ◌∷◌, [], IfOk, OnOk};
ghost use Rattle.core_ir.specs.ScopedPaths.{scopes_in, scopes_in_key, paths_in, paths_of as paths_of_core};
ghost use Rattle.core_ir.specs.ScopedParts.{total, in_turn, paths_of, scopes_of_scope, paths_of_scope, scopes_of_alias, paths_of_alias, scopes_of_element, paths_of_element, paths_of_key, scopes_of_clause, paths_of_clause, scopes_of_choice, paths_of_choice, scopes_of_rows, paths_of_rows};

use crate::path::Path;
use crate::phase::Core;
use crate::tree::{Alias, Conditional, Element, Expr, Key, Order, Scope, Select};
use ev_value::{Boxed, List};
use std::alloc::{AllocError, Global};

/// A path that stands at a place of the text, with the scopes that contain it.
#[derive(Drop)]
pub struct ScopedPath {
    pub path: Path,
    /// The numbers of the scopes, the outermost first. The query's own scope has the number 0; then a scope comes
    /// before those inside it, and these before the next one beside it, which begins later.
    pub scopes: List<u32>,
    /// Whether it stands in an optional argument of its innermost scope.
    pub optional: bool,
}

fn after(number: u32) -> Result<u32, AllocError>
    ensures { IfOk result (λ n. n ≡ suc number) }
{
    number.checked_add(1).ok_or(AllocError)
}

// The scopes around what is inside the scope with a number.
fn within(alloc: Global, around: &[u32], number: u32) -> Result<List<u32>, AllocError>
    ensures { IfOk result (λ ns. ns ≡ around.now ++ number ∷ []) }
{
    let mut inner = List::from_slice(alloc, around)?;
    inner.push(number)?;
    Ok(inner)
}

fn add(
    alloc: Global,
    path: &Path,
    around: &[u32],
    optional: bool,
    out: &mut List<ScopedPath>,
) -> Result<(), AllocError>
    ensures { OnOk result (out.new ≡ out.old ++ record { path = path.now; scopes = around.now; optional = optional } ∷ []) }
{
    let scopes = List::from_slice(alloc, around)?;
    let path = path.copied(alloc)?;
    out.push(ScopedPath {
        path,
        scopes,
        optional,
    })
}

// Appends the occurrences of an expression in these scopes, and counts its own scopes from the next number on.
#[cycle(locate)]
#[tactic(auto, using(crate::proofs::ScopedLaws::scoped_forms))]
fn locate(
    alloc: Global,
    expr: &Expr,
    optional: bool,
    around: &[u32],
    next: &mut u32,
    out: &mut List<ScopedPath>,
) -> Result<(), AllocError>
    ensures numbered { OnOk result (next.new ≡ next.old + scopes_in expr.now) }
    ensures found { OnOk result (out.new ≡ out.old ++ paths_in expr.now next.old around.now optional) }
{
    match expr {
        Expr::Literal(..) | Expr::Param(..) | Expr::Global(..) | Expr::EmptySet(..) => Ok(()),
        Expr::Path(_, occurrence) => add(alloc, &occurrence.path, around, optional, out),
        Expr::OnBase(_, base, occurrence) => {
            locate_scope(alloc, base, around, next, out)?;
            add(alloc, &occurrence.path, around, optional, out)
        }
        Expr::Operation(_, _, operands)
        | Expr::Tuple(_, operands)
        | Expr::Array(_, _, operands)
        | Expr::Unfit(_, _, _, operands) => {
            locate_all(alloc, operands.as_slice(), optional, around, next, out)
        }
        Expr::Plus(_, operand)
        | Expr::Cast(_, _, operand)
        | Expr::ArrayCast(_, _, operand)
        | Expr::Unpack(_, operand) => { locate(alloc, operand.get(), optional, around, next, out) }
        Expr::OptionalEqual(_, _, left, right) => {
            locate(alloc, left.get(), true, around, next, out)?;
            locate(alloc, right.get(), true, around, next, out)
        }
        Expr::In(_, _, left, set) => {
            locate(alloc, left.get(), optional, around, next, out)?;
            locate_scope(alloc, set, around, next, out)
        }
        Expr::Coalesce(_, first, second) => {
            locate(alloc, first.get(), true, around, next, out)?;
            locate_scope(alloc, second, around, next, out)
        }
        Expr::OfSet(_, _, set) => locate_scope(alloc, set, around, next, out),
        Expr::Union(_, first, second) => {
            locate_scope(alloc, first, around, next, out)?;
            locate_scope(alloc, second, around, next, out)
        }
        Expr::Set(_, elements) => locate_scopes(alloc, elements.as_slice(), around, next, out),
        Expr::If(_, choice) => locate_choice(alloc, choice, optional, around, next, out),
        Expr::Shaped(_, subject, _, _, elements) => {
            locate(alloc, subject.get(), optional, around, next, out)?;
            locate_elements(alloc, elements.as_slice(), around, next, out)
        }
        Expr::Select(_, aliases, select) => {
            // The statement's own scopes have the first numbers, but its aliases stand before them.
            let rows = locate_rows(alloc, select, around, next)?;
            locate_aliases(alloc, aliases.as_slice(), around, next, out)?;
            out.append(rows)?;
            locate_clause(alloc, &select.offset, around, next, out)?;
            locate_clause(alloc, &select.limit, around, next, out)
        }
        Expr::For(_, aliases, _, iterator, body) => {
            let inner = within(alloc, around, *next)?;
            *next = after(*next)?;
            let mut rows = List::new(alloc);
            locate_scope(alloc, iterator, inner.as_slice(), next, &mut rows)?;
            locate_scope(alloc, body, inner.as_slice(), next, &mut rows)?;
            locate_aliases(alloc, aliases.as_slice(), around, next, out)?;
            out.append(rows)
        }
    }
}

// The same of a scope.
#[cycle(locate)]
fn locate_scope(
    alloc: Global,
    scope: &Scope,
    around: &[u32],
    next: &mut u32,
    out: &mut List<ScopedPath>,
) -> Result<(), AllocError>
    ensures numbered { OnOk result (next.new ≡ next.old + scopes_of_scope scope.now) }
    ensures found { OnOk result (out.new ≡ out.old ++ paths_of_scope around.now scope.now next.old) }
{
    let inner = within(alloc, around, *next)?;
    *next = after(*next)?;
    locate(alloc, scope.body.get(), false, inner.as_slice(), next, out)
}

// The same of the parts of a choice.
#[cycle(locate)]
fn locate_choice(
    alloc: Global,
    choice: &Conditional,
    optional: bool,
    around: &[u32],
    next: &mut u32,
    out: &mut List<ScopedPath>,
) -> Result<(), AllocError>
    ensures numbered { OnOk result (next.new ≡ next.old + scopes_of_choice choice.now) }
    ensures found { OnOk result (out.new ≡ out.old ++ paths_of_choice around.now optional choice.now next.old) }
{
    match choice.order {
        Order::ValueFirst => {
            locate_scope(alloc, &choice.value, around, next, out)?;
            locate(alloc, choice.condition.get(), optional, around, next, out)?;
        }
        Order::ConditionFirst => {
            locate(alloc, choice.condition.get(), optional, around, next, out)?;
            locate_scope(alloc, &choice.value, around, next, out)?;
        }
    }
    locate_scope(alloc, &choice.other, around, next, out)
}

// The occurrences in a statement's own scope, which has the next number.
#[cycle(locate)]
fn locate_rows(
    alloc: Global,
    select: &Select,
    around: &[u32],
    next: &mut u32,
) -> Result<List<ScopedPath>, AllocError>
    ensures numbered { OnOk result (next.new ≡ next.old + scopes_of_rows select.now) }
    ensures found { IfOk result (λ found. found ≡ paths_of_rows around.now select.now next.old) }
{
    let inner = within(alloc, around, *next)?;
    *next = after(*next)?;
    let mut found = List::new(alloc);
    locate(
        alloc,
        select.subject.get(),
        false,
        inner.as_slice(),
        next,
        &mut found,
    )?;
    locate_clause(alloc, &select.filter, inner.as_slice(), next, &mut found)?;
    locate_keys(
        alloc,
        select.keys.as_slice(),
        inner.as_slice(),
        next,
        &mut found,
    )?;
    Ok(found)
}

#[cycle(locate)]
fn locate_clause(
    alloc: Global,
    clause: &Option<Boxed<Scope>>,
    around: &[u32],
    next: &mut u32,
    out: &mut List<ScopedPath>,
) -> Result<(), AllocError>
    ensures numbered { OnOk result (next.new ≡ next.old + scopes_of_clause clause.now) }
    ensures found { OnOk result (out.new ≡ out.old ++ paths_of_clause around.now clause.now next.old) }
{
    match clause {
        None => Ok(()),
        Some(scope) => locate_scope(alloc, scope.get(), around, next, out),
    }
}

#[cycle(locate)]
fn locate_all(
    alloc: Global,
    exprs: &[Expr],
    optional: bool,
    around: &[u32],
    next: &mut u32,
    out: &mut List<ScopedPath>,
) -> Result<(), AllocError>
    ensures numbered { OnOk result (next.new ≡ next.old + total scopes_in exprs.now) }
    ensures found { OnOk result (out.new ≡ out.old ++ in_turn scopes_in (paths_of around.now optional) exprs.now next.old) }
{
    for expr in exprs {
        locate(alloc, expr, optional, around, next, out)?;
    }
    Ok(())
}

#[cycle(locate)]
fn locate_scopes(
    alloc: Global,
    scopes: &[Scope],
    around: &[u32],
    next: &mut u32,
    out: &mut List<ScopedPath>,
) -> Result<(), AllocError>
    ensures numbered { OnOk result (next.new ≡ next.old + total scopes_of_scope scopes.now) }
    ensures found { OnOk result (out.new ≡ out.old ++ in_turn scopes_of_scope (paths_of_scope around.now) scopes.now next.old) }
{
    for scope in scopes {
        locate_scope(alloc, scope, around, next, out)?;
    }
    Ok(())
}

#[cycle(locate)]
fn locate_elements(
    alloc: Global,
    elements: &[Element],
    around: &[u32],
    next: &mut u32,
    out: &mut List<ScopedPath>,
) -> Result<(), AllocError>
    ensures numbered { OnOk result (next.new ≡ next.old + total scopes_of_element elements.now) }
    ensures found { OnOk result (out.new ≡ out.old ++ in_turn scopes_of_element (paths_of_element around.now) elements.now next.old) }
{
    for element in elements {
        locate_scope(alloc, &element.value, around, next, out)?;
    }
    Ok(())
}

#[cycle(locate)]
fn locate_aliases(
    alloc: Global,
    aliases: &[Alias],
    around: &[u32],
    next: &mut u32,
    out: &mut List<ScopedPath>,
) -> Result<(), AllocError>
    ensures numbered { OnOk result (next.new ≡ next.old + total scopes_of_alias aliases.now) }
    ensures found { OnOk result (out.new ≡ out.old ++ in_turn scopes_of_alias (paths_of_alias around.now) aliases.now next.old) }
{
    for alias in aliases {
        locate_scope(alloc, &alias.value, around, next, out)?;
    }
    Ok(())
}

#[cycle(locate)]
fn locate_keys(
    alloc: Global,
    keys: &[Key],
    around: &[u32],
    next: &mut u32,
    out: &mut List<ScopedPath>,
) -> Result<(), AllocError>
    ensures numbered { OnOk result (next.new ≡ next.old + total scopes_in_key keys.now) }
    ensures found { OnOk result (out.new ≡ out.old ++ in_turn scopes_in_key (paths_of_key around.now) keys.now next.old) }
{
    for key in keys {
        locate_key(alloc, key, around, next, out)?;
    }
    Ok(())
}

#[cycle(locate)]
#[tactic(auto, using(crate::proofs::ScopedLaws::scoped_forms))]
fn locate_key(
    alloc: Global,
    key: &Key,
    around: &[u32],
    next: &mut u32,
    out: &mut List<ScopedPath>,
) -> Result<(), AllocError>
    ensures numbered { OnOk result (next.new ≡ next.old + scopes_in_key key.now) }
    ensures found { OnOk result (out.new ≡ out.old ++ paths_of_key around.now key.now next.old) }
{
    match key {
        Key::Ascending(_, value) | Key::Descending(_, value) => {
            locate_scope(alloc, value, around, next, out)
        }
    }
}

/// All occurrences of a tree, in the order of the text; one that begins with a base expression stands behind those
/// inside it. The query's own scope has the number 0.
pub fn occurrences(alloc: Global, core: &Core) -> Result<List<ScopedPath>, AllocError>
    ensures { IfOk result (λ found. found ≡ paths_of_core core.now) }
{
    let query = [0];
    let mut next = 1;
    let mut found = List::new(alloc);
    locate(
        alloc,
        core.root.body.get(),
        false,
        &query,
        &mut next,
        &mut found,
    )?;
    Ok(found)
}
