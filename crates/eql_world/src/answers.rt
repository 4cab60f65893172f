//! The items of a query over objects, and over what a caller sees of them.
ghost use Rattle.std.specs.Prelude.{◌≡◌, [], IfOk};
ghost use Rattle.eql_sem.specs.Parts.{items_in};
ghost use Rattle.eql_world.specs.StoreWorld.{world_of};
ghost use Rattle.eql_world.specs.View.{view_of};
ghost use Rattle.eql_world.specs.Worked.{IsWhole};

use crate::computing::columns;
use crate::cutting::flagged_objects;
use crate::shown::shown_flags;
use crate::store_world::StoreWorld;
use core_ir::Scope;
use db_store::Object;
use eql_eval::evaluate;
use eql_sem::Formed;
use eql_steps::Indexed;
use ev_schema::Schema;
use ev_value::{Args, Item, List};
use std::alloc::{AllocError, Global};

/// The items of a query in a world in which all computed pointers are known.
#[tactic(auto, using(crate::proofs::ColumnLaws::whole_items))]
fn answer_in(
    alloc: Global,
    world: &StoreWorld<'_>,
    query: &Scope,
) -> Result<List<Item<Formed>>, AllocError>
    requires { IsWhole world.now.schema.now world.now.objects.now world.now.args.now world.now.columns.now }
    ensures { IfOk result (λ xs. xs ≡ items_in (world_of world.now.schema.now world.now.objects.now world.now.args.now) query.now.body [] []) }
{
    let items = evaluate(alloc, world, query)?;
    Ok(items)
}

/// The items of a query over objects with an index.
fn answer_over(
    alloc: Global,
    schema: &Schema,
    objects: &Indexed<'_>,
    args: &Args,
    query: &Scope,
) -> Result<List<Item<Formed>>, AllocError>
    ensures { IfOk result (λ xs. xs ≡ items_in (world_of schema.now objects.now args.now) query.now.body [] []) }
{
    let columns = columns(alloc, schema, objects, args)?;
    let world = StoreWorld {
        schema,
        objects,
        args,
        columns: columns.as_slice(),
    };
    answer_in(alloc, &world, query)
}

/// The items of a query over all objects, each with its nested form. The only error is want of memory.
pub fn answer_over_all(
    alloc: Global,
    schema: &Schema,
    objects: &[Object],
    args: &Args,
    query: &Scope,
) -> Result<List<Item<Formed>>, AllocError>
    ensures { IfOk result (λ xs. xs ≡ items_in (world_of schema.now objects.now args.now) query.now.body [] []) }
{
    let indexed = Indexed::new(alloc, objects)?;
    answer_over(alloc, schema, &indexed, args, query)
}

/// The objects that a world's caller sees, with links cut to them.
#[tactic(auto, using(crate::proofs::ViewLaws::view_flagged))]
fn view_in(alloc: Global, world: &StoreWorld<'_>) -> Result<List<Object>, AllocError>
    requires { IsWhole world.now.schema.now world.now.objects.now world.now.args.now world.now.columns.now }
    ensures { IfOk result (λ os. os ≡ view_of world.now.schema.now world.now.objects.now world.now.args.now) }
{
    let flags = shown_flags(alloc, world)?;
    let seen = flagged_objects(alloc, world.objects, flags.as_slice())?;
    Ok(seen)
}

/// The objects that a caller sees of objects with an index.
fn view_of_indexed(
    alloc: Global,
    schema: &Schema,
    objects: &Indexed<'_>,
    args: &Args,
) -> Result<List<Object>, AllocError>
    ensures { IfOk result (λ os. os ≡ view_of schema.now objects.now args.now) }
{
    let columns = columns(alloc, schema, objects, args)?;
    let world = StoreWorld {
        schema,
        objects,
        args,
        columns: columns.as_slice(),
    };
    view_in(alloc, &world)
}

/// The objects that a caller sees, with links cut to them.
pub fn view(
    alloc: Global,
    schema: &Schema,
    objects: &[Object],
    args: &Args,
) -> Result<List<Object>, AllocError>
    ensures { IfOk result (λ os. os ≡ view_of schema.now objects.now args.now) }
{
    let indexed = Indexed::new(alloc, objects)?;
    view_of_indexed(alloc, schema, &indexed, args)
}

/// The items of a query over the objects that a caller sees. The only error is want of memory.
pub fn answer_over_view(
    alloc: Global,
    schema: &Schema,
    objects: &[Object],
    args: &Args,
    query: &Scope,
) -> Result<List<Item<Formed>>, AllocError>
    ensures { IfOk result (λ xs. xs ≡ items_in (world_of schema.now (view_of schema.now objects.now args.now) args.now) query.now.body [] []) }
{
    let seen = view(alloc, schema, objects, args)?;
    answer_over_all(alloc, schema, seen.as_slice(), args, query)
}
