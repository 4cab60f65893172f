//! The list of a path: what its root or its nearest bound prefix gives, and what the steps make of it.
ghost use Rattle.std.specs.Prelude.{◌≡◌, ◌≤◌, ◌∷◌, ◌++◌, false, IfOk, OnOk, length};
ghost use Rattle.ev_value.specs.Item.{bind, all_of, one as one_of};
ghost use Rattle.eql_sem.specs.Bindings.{nearest as nearest_of, turns as turns_of, within as within_names};
ghost use Rattle.eql_sem.specs.Scopes.{last_property as last_property_of, walk as walk_of, property_list as property_list_of, from_bound as from_bound_of, end_list};
ghost use Rattle.core_ir.specs.Occurrences.{direct as direct_in, all as all_in};
ghost use Rattle.path_scope.specs.Factored.{factored};
ghost use Rattle.eql_sem.specs.Bindings.{paths_of};
ghost use Rattle.eql_sem.specs.Parts.{prefixes_of_select};

use crate::binding::{Bound, Name, given, paths, pick, with_bound, with_name};
use crate::item::one;
use crate::world::World;
use core_ir::{Expr, Path, PtrId, Select, Step, all, all_inside, copied_steps, direct};
use ev_value::{Item, List, Text, Val};
use path_scope::{Prefix, factored_prefixes};
use std::alloc::{AllocError, Global};

/// The prefixes that a scope with this body binds.
pub fn prefixes_of_scope(
    alloc: Global,
    body: &Expr,
    names: &[Name],
) -> Result<List<Prefix>, AllocError>
    ensures { IfOk result (λ fs. fs ≡ factored (direct_in body.now false) (all_in body.now) (paths_of names.now)) }
{
    let bound = paths(alloc, names)?;
    let direct = direct(alloc, body, false)?;
    let all = all(alloc, body)?;
    factored_prefixes(alloc, direct.as_slice(), all.as_slice(), bound.as_slice())
}

/// The prefixes that a select's own scope binds.
pub fn prefixes_of_statement(
    alloc: Global,
    select: &Select,
    names: &[Name],
) -> Result<List<Prefix>, AllocError>
    ensures { IfOk result (λ fs. fs ≡ prefixes_of_select select.now names.now) }
{
    let bound = paths(alloc, names)?;
    let direct = direct(alloc, select.subject.get(), false)?;
    let all = all_inside(alloc, select)?;
    factored_prefixes(alloc, direct.as_slice(), all.as_slice(), bound.as_slice())
}

/// The names in scope once a scope's prefixes are bound.
pub fn within(alloc: Global, prefixes: &[Prefix], names: &[Name]) -> Result<List<Name>, AllocError>
    ensures { IfOk result (λ ns. ns ≡ within_names prefixes.now names.now) }
{
    let mut all = copied_names(alloc, names)?;
    for prefix in prefixes {
        let name = Name::Prefix(prefix.path.copied(alloc)?);
        all = with_name(alloc, name, all.as_slice())?;
    }
    Ok(all)
}

/// The same names, in memory of their own.
pub fn copied_names(alloc: Global, names: &[Name]) -> Result<List<Name>, AllocError>
    ensures { IfOk result (λ ns. ns ≡ names.now) }
{
    let mut all = List::new(alloc);
    for name in names {
        all.push(name.copied(alloc)?)?;
    }
    Ok(all)
}

/// The link and the property's name at the end of a path that ends in a link property.
pub fn last_property(alloc: Global, steps: &[Step]) -> Result<Option<(PtrId, Text)>, AllocError>
    ensures { IfOk result (λ p. p ≡ last_property_of steps.now) }
{
    let count = steps.len();
    match (
        steps.get(count.saturating_sub(2)),
        steps.get(count.saturating_sub(1)),
    ) {
        (Some(Step::Link(link)), Some(Step::LinkProp(name))) => {
            Ok(Some((*link, name.copied(alloc)?)))
        }
        _ => Ok(None),
    }
}

/// What the longest bound prefix with fewer than so many steps stands for, with the steps that go on from it.
#[tactic(auto, using(crate::proofs::LongestPrefix::nearest_here, crate::proofs::LongestPrefix::nearest_shorter))]
pub fn nearest(
    alloc: Global,
    count: usize,
    names: &[Name],
    bounds: &[Bound],
    path: &Path,
) -> Result<Option<(Bound, List<Step>)>, AllocError>
    requires { count ≤ length path.now.steps }
    ensures { IfOk result (λ r. r ≡ nearest_of count names.now bounds.now path.now) }
{
    if count == 0 {
        return Ok(None);
    }
    let shorter = count - 1;
    let name = Name::Prefix(path.prefix(alloc, shorter)?);
    match pick(names, bounds, &name) {
        Some(bound) => {
            let steps = path.steps.as_slice();
            Ok(Some((
                bound.copied(alloc)?,
                copied_steps(alloc, &steps[shorter..])?,
            )))
        }
        None => nearest(alloc, shorter, names, bounds, path),
    }
}

/// The steps, one after the other.
pub fn walk<W: World>(
    alloc: Global,
    world: &W,
    steps: &[Step],
    from: List<Item>,
) -> Result<List<Item>, AllocError>
    ensures { IfOk result (λ xs. xs ≡ walk_of (W.means world.now) steps.now from) }
{
    let mut items = from;
    for step in steps {
        items = world.step(alloc, step, items)?;
    }
    Ok(items)
}

/// What the turns of a prefix's loop bind it to.
pub fn turns(alloc: Global, optional: bool, items: &[Item]) -> Result<List<Item<Bound>>, AllocError>
    ensures { IfOk result (λ xs. xs ≡ turns_of optional items.now) }
{
    if items.is_empty() {
        if optional {
            return one(alloc, Item::Value(Bound::Nothing));
        }
        return Ok(List::new(alloc));
    }
    let mut all = List::new(alloc);
    for item in items {
        let turn = match item {
            Item::Value(value) => Item::Value(Bound::One(value.copied(alloc)?)),
            Item::Fault(fault) => Item::Fault(*fault),
        };
        all.push(turn)?;
    }
    Ok(all)
}

// Appends the property's values from one source to each target.
fn add_properties<W: World>(
    alloc: Global,
    world: &W,
    link: PtrId,
    name: &Text,
    source: &Val,
    targets: &[Item],
    all: &mut List<Item>,
) -> Result<(), AllocError>
    ensures { OnOk result (all.new ≡ all.old ++ bind targets.now (λ y. all_of ((W.means world.now).link_property link name.now source.now y))) }
{
    for target in targets {
        match target {
            Item::Value(target) => {
                all.append(world.link_property(alloc, link, name, source, target)?)?
            }
            Item::Fault(fault) => all.push(Item::Fault(*fault))?,
        }
    }
    Ok(())
}

/// The property of a link between its bound sources and its bound targets.
pub fn property_list<W: World>(
    alloc: Global,
    world: &W,
    link: PtrId,
    name: &Text,
    sources: &[Item],
    targets: &[Item],
) -> Result<List<Item>, AllocError>
    ensures { IfOk result (λ xs. xs ≡ property_list_of (W.means world.now) link name.now sources.now targets.now) }
{
    let mut all = List::new(alloc);
    for source in sources {
        match source {
            Item::Value(source) => {
                add_properties(alloc, world, link, name, source, targets, &mut all)?
            }
            Item::Fault(fault) => all.push(Item::Fault(*fault))?,
        }
    }
    Ok(all)
}

/// Appends a binding for each turn of a prefix's loop.
pub fn add_turns(
    alloc: Global,
    bounds: &[Bound],
    turns: &[Item<Bound>],
    all: &mut List<Item<List<Bound>>>,
) -> Result<(), AllocError>
    ensures { OnOk result (all.new ≡ all.old ++ bind turns.now (λ x. one_of (x ∷ bounds.now))) }
{
    for turn in turns {
        match turn {
            Item::Value(bound) => {
                all.push(Item::Value(with_bound(alloc, bound.copied(alloc)?, bounds)?))?
            }
            Item::Fault(fault) => all.push(Item::Fault(*fault))?,
        }
    }
    Ok(())
}

/// The steps from what a prefix is bound to; from one that stands for nothing there is nothing.
pub fn from_bound<W: World>(
    alloc: Global,
    world: &W,
    bound: Bound,
    steps: &[Step],
) -> Result<List<Item>, AllocError>
    ensures { IfOk result (λ xs. xs ≡ from_bound_of (W.means world.now) bound steps.now) }
{
    match bound {
        Bound::One(value) => walk(alloc, world, steps, one(alloc, Item::Value(value))?),
        _ => Ok(List::new(alloc)),
    }
}

/// The property at the end of a path, between its bound source and its bound target.
pub fn property_of_path<W: World>(
    alloc: Global,
    world: &W,
    path: &Path,
    link: PtrId,
    name: &Text,
    names: &[Name],
    bounds: &[Bound],
) -> Result<List<Item>, AllocError>
    ensures { IfOk result (λ xs. xs ≡ end_list (W.means world.now) path.now link name.now names.now bounds.now) }
{
    let count = path.steps.len();
    let source = Name::Prefix(path.prefix(alloc, count.saturating_sub(2))?);
    let target = Name::Prefix(path.prefix(alloc, count.saturating_sub(1))?);
    let sources = given(alloc, &pick(names, bounds, &source))?;
    let targets = given(alloc, &pick(names, bounds, &target))?;
    property_list(
        alloc,
        world,
        link,
        name,
        sources.as_slice(),
        targets.as_slice(),
    )
}
