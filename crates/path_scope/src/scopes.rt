//! The scopes of a query, one inside the other.
ghost use Rattle.std.specs.Prelude.{◌≡◌, ◌++◌, ◌∷◌, [], IfOk, OnOk, map, flat_map, false};
ghost use Rattle.core_ir.specs.Path.{root_path};
ghost use Rattle.core_ir.specs.Occurrences.{direct as direct_in, all as all_in};
ghost use Rattle.core_ir.specs.Parts.{in_order, all_of_rows};
ghost use Rattle.core_ir.specs.declared.tree.Select.{out-Select};
ghost use Rattle.path_scope.specs.Factored.{factored, bound_within as bound_within_of};
ghost use Rattle.path_scope.specs.Scopes.{inside as inside_expr, bound_around as bound_around_of, scope_tree};
ghost use Rattle.path_scope.specs.ScopeParts.{tree_of, inside_of, tree_of_alias, tree_of_element, trees_of_key, trees_of_clause, inside_rows, tree_of_rows};

use crate::factored::factored_prefixes;
use crate::prefix::Prefix;
use crate::tree::ScopeTree;
use core_ir::{
    Alias, Conditional, Core, Element, Expr, Key, Order, Path, Root, Scope, Select, TypeId, Typed,
    all, all_inside, direct,
};
use ev_value::{Boxed, List};
use std::alloc::{AllocError, Global};

// The factored prefixes of an expression that is a scope.
fn prefixes_of_body(alloc: Global, body: &Expr, bound: &[Path]) -> Result<List<Prefix>, AllocError>
    ensures { IfOk result (λ fs. fs ≡ factored (direct_in body.now false) (all_in body.now) bound.now) }
{
    let found = direct(alloc, body, false)?;
    let all = all(alloc, body)?;
    factored_prefixes(alloc, found.as_slice(), all.as_slice(), bound)
}

// The factored prefixes of a statement's own scope.
fn prefixes_of_rows(
    alloc: Global,
    select: &Select,
    bound: &[Path],
) -> Result<List<Prefix>, AllocError>
    ensures { IfOk result (λ fs. fs ≡ factored (direct_in (out-Select select.now).subject false) (all_of_rows select.now) bound.now) }
{
    let found = direct(alloc, select.subject.get(), false)?;
    let all = all_inside(alloc, select)?;
    factored_prefixes(alloc, found.as_slice(), all.as_slice(), bound)
}

// Appends copies of paths.
fn add_paths(alloc: Global, paths: &[Path], out: &mut List<Path>) -> Result<(), AllocError>
    ensures { OnOk result (out.new ≡ out.old ++ paths.now) }
{
    for path in paths {
        out.push(path.copied(alloc)?)?;
    }
    Ok(())
}

// Appends copies of the prefixes' paths, the last one first.
fn add_prefix_paths(
    alloc: Global,
    prefixes: &[Prefix],
    out: &mut List<Path>,
) -> Result<(), AllocError>
    ensures { OnOk result (out.new ≡ out.old ++ bound_within_of prefixes.now []) }
{
    let mut rest = prefixes;
    while let Some((last, before)) = rest.split_last() {
        out.push(last.path.copied(alloc)?)?;
        rest = before;
    }
    Ok(())
}

// The paths that are bound where a scope's prefixes are, the newest first.
#[tactic(auto, using(crate::proofs::Bound::within_apart))]
fn bound_within(
    alloc: Global,
    prefixes: &[Prefix],
    bound: &[Path],
) -> Result<List<Path>, AllocError>
    ensures { IfOk result (λ within. within ≡ bound_within_of prefixes.now bound.now) }
{
    let mut within = List::new(alloc);
    add_prefix_paths(alloc, prefixes, &mut within)?;
    add_paths(alloc, bound, &mut within)?;
    Ok(within)
}

// The same where a root is bound.
fn bound_with(alloc: Global, root: Root, bound: &[Path]) -> Result<List<Path>, AllocError>
    ensures { IfOk result (λ within. within ≡ root_path root ∷ bound.now) }
{
    let mut within = List::new(alloc);
    within.push(Path {
        root,
        steps: List::new(alloc),
    })?;
    add_paths(alloc, bound, &mut within)?;
    Ok(within)
}

// Appends the scopes directly inside an expression, in the order of their first bytes.
#[cycle(inside)]
#[tactic(auto, using(crate::proofs::ScopeLaws::inside_forms))]
fn inside(
    alloc: Global,
    expr: &Expr,
    bound: &[Path],
    out: &mut List<ScopeTree>,
) -> Result<(), AllocError>
    ensures { OnOk result (out.new ≡ out.old ++ inside_expr expr.now bound.now) }
{
    match expr {
        Expr::Literal(..)
        | Expr::Param(..)
        | Expr::Global(..)
        | Expr::Path(..)
        | Expr::EmptySet(..) => Ok(()),
        Expr::OnBase(_, base, _) => add_scope(alloc, base, bound, out),
        Expr::Operation(_, _, operands)
        | Expr::Tuple(_, operands)
        | Expr::Array(_, _, operands)
        | Expr::Unfit(_, _, _, operands) => { inside_all(alloc, operands.as_slice(), bound, out) }
        Expr::Plus(_, operand)
        | Expr::Cast(_, _, operand)
        | Expr::ArrayCast(_, _, operand)
        | Expr::Unpack(_, operand) => { inside(alloc, operand.get(), bound, out) }
        Expr::OptionalEqual(_, _, left, right) => {
            inside(alloc, left.get(), bound, out)?;
            inside(alloc, right.get(), bound, out)
        }
        Expr::In(_, _, left, right) | Expr::Coalesce(_, left, right) => {
            inside(alloc, left.get(), bound, out)?;
            add_scope(alloc, right, bound, out)
        }
        Expr::OfSet(_, _, set) => add_scope(alloc, set, bound, out),
        Expr::Union(_, first, second) => {
            add_scope(alloc, first, bound, out)?;
            add_scope(alloc, second, bound, out)
        }
        Expr::Set(_, elements) => add_scopes(alloc, elements.as_slice(), bound, out),
        Expr::If(_, choice) => inside_choice(alloc, choice, bound, out),
        Expr::Shaped(_, subject, _, number, elements) => {
            inside(alloc, subject.get(), bound, out)?;
            let within = bound_with(alloc, Root::Subject(*number), bound)?;
            add_elements(alloc, elements.as_slice(), within.as_slice(), out)
        }
        Expr::Select(start, aliases, select) => {
            add_rows(alloc, *start, select, bound, out)?;
            add_aliases(alloc, aliases.as_slice(), bound, out)?;
            add_clause(alloc, &select.offset, bound, out)?;
            add_clause(alloc, &select.limit, bound, out)
        }
        Expr::For(start, aliases, number, iterator, body) => {
            let mut parts = List::new(alloc);
            add_scope(alloc, iterator, bound, &mut parts)?;
            let within = bound_with(alloc, Root::Var(*number), bound)?;
            add_scope(alloc, body, within.as_slice(), &mut parts)?;
            out.push(ScopeTree {
                start: *start,
                prefixes: List::new(alloc),
                inner: parts,
            })?;
            add_aliases(alloc, aliases.as_slice(), bound, out)
        }
    }
}

// A scope with what it binds and what is inside it.
#[cycle(inside)]
fn tree(alloc: Global, scope: &Scope, bound: &[Path]) -> Result<ScopeTree, AllocError>
    ensures { IfOk result (λ t. t ≡ tree_of bound.now scope.now) }
{
    let prefixes = prefixes_of_body(alloc, scope.body.get(), bound)?;
    let within = bound_within(alloc, prefixes.as_slice(), bound)?;
    let mut inner = List::new(alloc);
    inside(alloc, scope.body.get(), within.as_slice(), &mut inner)?;
    Ok(ScopeTree {
        start: scope.start,
        prefixes,
        inner,
    })
}

#[cycle(inside)]
fn add_scope(
    alloc: Global,
    scope: &Scope,
    bound: &[Path],
    out: &mut List<ScopeTree>,
) -> Result<(), AllocError>
    ensures { OnOk result (out.new ≡ out.old ++ tree_of bound.now scope.now ∷ []) }
{
    out.push(tree(alloc, scope, bound)?)
}

// Appends the scopes directly inside a choice.
#[cycle(inside)]
fn inside_choice(
    alloc: Global,
    choice: &Conditional,
    bound: &[Path],
    out: &mut List<ScopeTree>,
) -> Result<(), AllocError>
    ensures { OnOk result (out.new ≡ out.old ++ in_order choice.now.order (inside_expr choice.now.condition bound.now) (tree_of bound.now choice.now.value ∷ []) (tree_of bound.now choice.now.other ∷ [])) }
{
    match choice.order {
        Order::ValueFirst => {
            add_scope(alloc, &choice.value, bound, out)?;
            inside(alloc, choice.condition.get(), bound, out)?;
        }
        Order::ConditionFirst => {
            inside(alloc, choice.condition.get(), bound, out)?;
            add_scope(alloc, &choice.value, bound, out)?;
        }
    }
    add_scope(alloc, &choice.other, bound, out)
}

// Appends a statement's own scope, which begins at a byte.
#[cycle(inside)]
fn add_rows(
    alloc: Global,
    start: u32,
    select: &Select,
    bound: &[Path],
    out: &mut List<ScopeTree>,
) -> Result<(), AllocError>
    ensures { OnOk result (out.new ≡ out.old ++ tree_of_rows bound.now start select.now ∷ []) }
{
    let prefixes = prefixes_of_rows(alloc, select, bound)?;
    let within = bound_within(alloc, prefixes.as_slice(), bound)?;
    let mut inner = List::new(alloc);
    add_inside_rows(alloc, select, within.as_slice(), &mut inner)?;
    out.push(ScopeTree {
        start,
        prefixes,
        inner,
    })
}

// Appends the scopes directly inside a statement's own one, in whose clauses the subject is bound.
#[cycle(inside)]
fn add_inside_rows(
    alloc: Global,
    select: &Select,
    bound: &[Path],
    out: &mut List<ScopeTree>,
) -> Result<(), AllocError>
    ensures { OnOk result (out.new ≡ out.old ++ inside_rows select.now bound.now) }
{
    inside(alloc, select.subject.get(), bound, out)?;
    let within = bound_with(alloc, Root::Subject(select.number), bound)?;
    add_clause(alloc, &select.filter, within.as_slice(), out)?;
    add_keys(alloc, select.keys.as_slice(), within.as_slice(), out)
}

#[cycle(inside)]
fn add_clause(
    alloc: Global,
    clause: &Option<Boxed<Scope>>,
    bound: &[Path],
    out: &mut List<ScopeTree>,
) -> Result<(), AllocError>
    ensures { OnOk result (out.new ≡ out.old ++ trees_of_clause bound.now clause.now) }
{
    match clause {
        None => Ok(()),
        Some(scope) => add_scope(alloc, scope.get(), bound, out),
    }
}

#[cycle(inside)]
fn inside_all(
    alloc: Global,
    exprs: &[Expr],
    bound: &[Path],
    out: &mut List<ScopeTree>,
) -> Result<(), AllocError>
    ensures { OnOk result (out.new ≡ out.old ++ flat_map (inside_of bound.now) exprs.now) }
{
    for expr in exprs {
        inside(alloc, expr, bound, out)?;
    }
    Ok(())
}

#[cycle(inside)]
fn add_scopes(
    alloc: Global,
    scopes: &[Scope],
    bound: &[Path],
    out: &mut List<ScopeTree>,
) -> Result<(), AllocError>
    ensures { OnOk result (out.new ≡ out.old ++ map (tree_of bound.now) scopes.now) }
{
    for scope in scopes {
        add_scope(alloc, scope, bound, out)?;
    }
    Ok(())
}

#[cycle(inside)]
fn add_elements(
    alloc: Global,
    elements: &[Element],
    bound: &[Path],
    out: &mut List<ScopeTree>,
) -> Result<(), AllocError>
    ensures { OnOk result (out.new ≡ out.old ++ map (tree_of_element bound.now) elements.now) }
{
    for element in elements {
        add_scope(alloc, &element.value, bound, out)?;
    }
    Ok(())
}

#[cycle(inside)]
fn add_aliases(
    alloc: Global,
    aliases: &[Alias],
    bound: &[Path],
    out: &mut List<ScopeTree>,
) -> Result<(), AllocError>
    ensures { OnOk result (out.new ≡ out.old ++ map (tree_of_alias bound.now) aliases.now) }
{
    for alias in aliases {
        add_scope(alloc, &alias.value, bound, out)?;
    }
    Ok(())
}

#[cycle(inside)]
fn add_keys(
    alloc: Global,
    keys: &[Key],
    bound: &[Path],
    out: &mut List<ScopeTree>,
) -> Result<(), AllocError>
    ensures { OnOk result (out.new ≡ out.old ++ flat_map (trees_of_key bound.now) keys.now) }
{
    for key in keys {
        add_key(alloc, key, bound, out)?;
    }
    Ok(())
}

#[cycle(inside)]
#[tactic(auto, using(crate::proofs::ScopeLaws::inside_forms))]
fn add_key(
    alloc: Global,
    key: &Key,
    bound: &[Path],
    out: &mut List<ScopeTree>,
) -> Result<(), AllocError>
    ensures { OnOk result (out.new ≡ out.old ++ trees_of_key bound.now key.now) }
{
    match key {
        Key::Ascending(_, value) | Key::Descending(_, value) => {
            add_scope(alloc, value, bound, out)
        }
    }
}

// What is bound around the outermost scope: the subject of a schema's expression.
fn bound_around(alloc: Global, subject: Option<TypeId>) -> Result<List<Path>, AllocError>
    ensures { IfOk result (λ bound. bound ≡ bound_around_of subject) }
{
    match subject {
        None => Ok(List::new(alloc)),
        Some(_) => bound_with(alloc, Root::Subject(0), &[]),
    }
}

/// Every scope of a tree with its factored prefixes, the outermost one with all others in it.
pub fn scopes_of(alloc: Global, core: &Core) -> Result<ScopeTree, AllocError>
    ensures { IfOk result (λ t. t ≡ scope_tree core.now) }
{
    let bound = bound_around(alloc, core.subject)?;
    tree(alloc, &core.root, bound.as_slice())
}

/// The same of a tree with types.
pub fn scopes_of_typed(alloc: Global, typed: &Typed) -> Result<ScopeTree, AllocError>
    ensures { IfOk result (λ t. t ≡ scope_tree typed.now.core) }
{
    scopes_of(alloc, &typed.core)
}
