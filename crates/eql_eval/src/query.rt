//! The evaluator of whole queries.
ghost use Rattle.std.specs.Prelude.{◌≡◌, ◌∷◌, [], IfOk};
ghost use Rattle.core_ir.specs.Path.{subject};
ghost use Rattle.eql_sem.specs.Parts.{items_in, values_in};
ghost use Rattle.eql_sem.specs.declared.binding.Bound.TheVariants as bound;
ghost use Rattle.eql_sem.specs.declared.binding.Name.TheVariants as name;
ghost use Rattle.eql_eval.specs.Recursion.{task_items};

use crate::evaluator::Evaluator;
use crate::task::Task;
use core_ir::{Expr, Path, Root, Scope};
use eql_sem::{Bound, Formed, Name, World};
use ev_value::{Item, List, Val};
use std::alloc::{AllocError, Global};

// Answers what is asked of an expression in which so many may still stand one in the other.
fn evaluate_at<W: World>(
    alloc: Global,
    world: &W,
    depth: usize,
    expr: &Expr,
    names: &[Name],
    bounds: &[Bound],
    task: Task,
) -> Result<List<Item<Formed>>, AllocError>
    ensures { IfOk result (λ xs. xs ≡ task_items (W.means world.now) task expr.now names.now bounds.now) }
{
    Evaluator {
        alloc,
        world,
        depth,
        inner: evaluate_at::<W>,
    }
    .asked(expr, names, bounds, task)
}

/// The items of a query over a world, each with its nested form, in their order and with the faults where they come up.
/// The only error is want of memory.
pub fn evaluate<W: World>(
    alloc: Global,
    world: &W,
    query: &Scope,
) -> Result<List<Item<Formed>>, AllocError>
    ensures { IfOk result (λ xs. xs ≡ items_in (W.means world.now) query.now.body [] []) }
{
    Evaluator {
        alloc,
        world,
        depth: usize::MAX,
        inner: evaluate_at::<W>,
    }
    .scope_items(query.body.get(), &[], &[])
}

/// The values of a schema's expression over a world, with an object as its subject. The only error is want of memory.
pub fn values_for<W: World>(
    alloc: Global,
    world: &W,
    body: &Expr,
    object: &Val,
) -> Result<List<Item>, AllocError>
    ensures { IfOk result (λ xs. xs ≡ values_in (W.means world.now) body.now (name.Prefix (subject 0) ∷ []) (bound.One object.now ∷ [])) }
{
    let names = [subject_name(alloc)];
    let bounds = [Bound::One(object.copied(alloc)?)];
    Evaluator {
        alloc,
        world,
        depth: usize::MAX,
        inner: evaluate_at::<W>,
    }
    .scope_values(body, &names, &bounds)
}

// The name of a schema expression's subject.
fn subject_name(alloc: Global) -> Name
    ensures { result ≡ name.Prefix (subject 0) }
{
    Name::Prefix(Path {
        root: Root::Subject(0),
        steps: List::new(alloc),
    })
}
