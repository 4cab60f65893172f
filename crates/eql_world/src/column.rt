//! What computed pointers give.
ghost use Rattle.std.specs.Prelude.{◌≡◌, ◌++◌, slice_get, IfOk, OnOk, None};
ghost use Rattle.std.specs.Option.{option_copied};
ghost use Rattle.ev_value.specs.Item.{bind};
ghost use Rattle.ev_value.specs.declared.value.Val.TheVariants as made;
ghost use Rattle.eql_steps.specs.ById.{if_listed as listed_or_none};
ghost use Rattle.eql_world.specs.StoreWorld.{listed_for as listed_for_in, listed_if, last_column as last_column_in, by_columns};

use core_ir::PtrId;
use eql_steps::Indexed;
use ev_value::{Item, List, Val};
use sqlite_items::at;
use std::alloc::{AllocError, Global};

/// What a computed pointer gives for each of some objects, by place.
#[derive(Drop)]
pub struct Column {
    pub pointer: PtrId,
    pub lists: List<List<Item>>,
}

/// Puts copies of items behind a list.
fn add_items(alloc: Global, out: &mut List<Item>, items: &[Item]) -> Result<(), AllocError>
    ensures { OnOk result (out.new ≡ out.old ++ items.now) }
{
    for item in items {
        match item {
            Item::Value(value) => out.push(Item::Value(value.copied(alloc)?))?,
            Item::Fault(fault) => out.push(Item::Fault(*fault))?,
        }
    }
    Ok(())
}

/// The list at a place. Empty where there is none.
fn list_at(lists: &[List<Item>], place: usize) -> &[Item]
    ensures { result.now ≡ listed_or_none (slice_get lists.now place) }
{
    match at(lists, place) {
        Some(list) => list.as_slice(),
        None => &[],
    }
}

/// The list that stands beside the first object with an id.
#[tactic(auto, using(crate::proofs::Beside::list_there, crate::proofs::Beside::list_nowhere))]
fn list_of_id<'a>(objects: &Indexed<'_>, lists: &'a [List<Item>], id: u128) -> &'a [Item]
    ensures { result.now ≡ listed_for_in objects.now lists.now (made.Obj id) }
{
    match objects.place(id) {
        Some(place) => list_at(lists, place),
        None => &[],
    }
}

/// The list that stands beside an object.
#[tactic(auto, using(crate::proofs::ColumnLaws::nothing_for))]
fn listed_for<'a>(objects: &Indexed<'_>, lists: &'a [List<Item>], value: &Val) -> &'a [Item]
    ensures { result.now ≡ listed_for_in objects.now lists.now value.now }
{
    match value {
        Val::Obj(id) => list_of_id(objects, lists, *id),
        Val::Int(_) => &[],
        Val::Str(_) => &[],
        Val::Bool(_) => &[],
        Val::Id(_) => &[],
        Val::Tuple(_) => &[],
        Val::Array(_) => &[],
    }
}

/// The last column of a pointer.
fn last_column(columns: &[Column], pointer: PtrId) -> Option<&Column>
    ensures { option_copied result ≡ last_column_in columns.now pointer None }
{
    let mut found = None;
    for column in columns {
        if column.pointer.0 == pointer.0 {
            found = Some(column);
        }
    }
    found
}

/// What a computed pointer gives for each object in turn.
pub fn computed(
    alloc: Global,
    objects: &Indexed<'_>,
    columns: &[Column],
    pointer: PtrId,
    from: &[Item],
) -> Result<List<Item>, AllocError>
    ensures { IfOk result (λ xs. xs ≡ bind from.now (by_columns objects.now columns.now pointer)) }
{
    let column = last_column(columns, pointer);
    let mut out = List::new(alloc);
    for item in from {
        match item {
            Item::Value(value) => add_listed(alloc, objects, column, value, &mut out)?,
            Item::Fault(fault) => out.push(Item::Fault(*fault))?,
        }
    }
    Ok(out)
}

fn add_listed(
    alloc: Global,
    objects: &Indexed<'_>,
    column: Option<&Column>,
    value: &Val,
    out: &mut List<Item>,
) -> Result<(), AllocError>
    ensures { OnOk result (out.new ≡ out.old ++ listed_if objects.now (option_copied column.entry) value.now) }
{
    match column {
        Some(found) => add_items(
            alloc,
            out,
            listed_for(objects, found.lists.as_slice(), value),
        ),
        None => Ok(()),
    }
}
