//! What computed pointers give for objects, worked out in the order in which their expressions came to be known.
ghost use Rattle.std.specs.Prelude.{◌≡◌, ◌++◌, map, IfOk, OnOk};
ghost use Rattle.eql_sem.specs.World.{World as Meant};
ghost use Rattle.db_store.specs.Objects.{as_value};
ghost use Rattle.eql_world.specs.StoreWorld.{values_for as values_for_in, by_columns, knowing, computing, world_where, world_of};
ghost use Rattle.eql_world.specs.Worked.{lists_for, IsWhole};

use crate::column::Column;
use crate::store_world::StoreWorld;
use core_ir::Carded;
use db_store::Object;
use eql_eval::values_for;
use eql_steps::Indexed;
use ev_schema::{Computed, Schema};
use ev_value::{Args, Item, List, Val};
use std::alloc::{AllocError, Global};

/// The list of an expression with an object as its subject.
pub fn list_for(
    alloc: Global,
    world: &StoreWorld<'_>,
    expr: &Carded,
    object: &Object,
) -> Result<List<Item>, AllocError>
    ensures { IfOk result (λ xs. xs ≡ values_for_in (world_where world.now.schema.now world.now.objects.now world.now.args.now (by_columns world.now.objects.now world.now.columns.now)) expr.now (as_value object.now)) }
{
    let subject = Val::Obj(object.id);
    values_for(alloc, world, expr.typed.core.root.body.get(), &subject)
}

/// The list of an expression for each object in turn.
fn lists(
    alloc: Global,
    world: &StoreWorld<'_>,
    expr: &Carded,
) -> Result<List<List<Item>>, AllocError>
    ensures { IfOk result (λ ls. ls ≡ lists_for (world_where world.now.schema.now world.now.objects.now world.now.args.now (by_columns world.now.objects.now world.now.columns.now)) expr.now world.now.objects.now) }
{
    let mut lists = List::new(alloc);
    for object in world.objects.all() {
        lists.push(list_for(alloc, world, expr, object)?)?;
    }
    Ok(lists)
}

/// The list of an expression with an object as its subject, in a world in which all computed pointers are known.
#[tactic(auto, using(crate::proofs::ColumnLaws::whole_list))]
pub fn whole_list_for(
    alloc: Global,
    world: &StoreWorld<'_>,
    expr: &Carded,
    object: &Object,
) -> Result<List<Item>, AllocError>
    requires { IsWhole world.now.schema.now world.now.objects.now world.now.args.now world.now.columns.now }
    ensures { IfOk result (λ xs. xs ≡ values_for_in (world_of world.now.schema.now world.now.objects.now world.now.args.now) expr.now (as_value object.now)) }
{
    let items = list_for(alloc, world, expr, object)?;
    Ok(items)
}

/// One more computed pointer, over those before it.
#[tactic(auto, using(crate::proofs::ColumnLaws::column_worked))]
fn add_column(
    alloc: Global,
    schema: &Schema,
    objects: &Indexed<'_>,
    args: &Args,
    computed: &Computed,
    columns: &mut List<Column>,
) -> Result<(), AllocError>
    ensures { OnOk result (by_columns objects.now columns.new ≡ knowing schema.now objects.now args.now (by_columns objects.now columns.old) computed.now) }
{
    let world = StoreWorld {
        schema,
        objects,
        args,
        columns: columns.as_slice(),
    };
    let lists = lists(alloc, &world, &computed.expr)?;
    columns.push(Column {
        pointer: computed.pointer,
        lists,
    })?;
    Ok(())
}

/// What all computed pointers give, each expression over those before it.
#[tactic(auto, using(crate::proofs::ColumnLaws::whole))]
pub fn columns(
    alloc: Global,
    schema: &Schema,
    objects: &Indexed<'_>,
    args: &Args,
) -> Result<List<Column>, AllocError>
    ensures { IfOk result (λ cs. IsWhole schema.now objects.now args.now cs) }
{
    let mut columns = List::new(alloc);
    for computed in schema.all_computed() {
        add_column(alloc, schema, objects, args, computed, &mut columns)?;
    }
    Ok(columns)
}
