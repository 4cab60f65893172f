//! The rules on objects, in their order.
ghost use Rattle.std.specs.Prelude.{◌≡◌, ◌<◌, ◌^◌, List, length};
ghost use Rattle.db_draft.specs.Told.{IsAnswer, told};
ghost use Rattle.db_draft.specs.declared.draft.ObjectDraft.{ObjectDraft};
ghost use Rattle.db_check.specs.Check.{checked, valued, stored};

use crate::exclusive::check_exclusive;
use crate::made::{check_values, objects_of, orders};
use crate::store::{Store, store_of};
use core_ir::PtrId;
use db_draft::{DataRefusal, ObjectDraft};
use db_ids::{Heads, check_heads};
use db_store::Object;
use ev_schema::Schema;
use ev_value::List;
use std::alloc::Global;

/// The store of some objects, unless an exclusive value stands twice.
fn stored_objects(
    alloc: Global,
    schema: &Schema,
    orders: &[List<PtrId>],
    objects: List<Object>,
) -> Result<Store, DataRefusal>
    requires objects { length objects < 2 ^ 32 }
    requires written { (drafts : List ObjectDraft) × (checked schema.now drafts ≡ stored schema.now orders.now objects) }
    ensures { IsAnswer result (told (stored schema.now orders.now objects)) }
{
    let infos = schema.pointers();
    match check_exclusive(alloc, infos, orders, objects.as_slice()) {
        Ok(()) => match store_of(alloc, schema, objects) {
            Ok(store) => Ok(store),
            Err(_) => Err(DataRefusal::Memory),
        },
        Err(refusal) => Err(refusal),
    }
}

/// The store of drafts whose ids and types are given.
fn valued_objects(
    alloc: Global,
    schema: &Schema,
    orders: &[List<PtrId>],
    heads: &Heads,
    drafts: &[ObjectDraft],
) -> Result<Store, DataRefusal>
    requires some { 0 < length schema.now.pointers }
    requires few { length schema.now.pointers < 2 ^ 32 }
    requires objects { length drafts.now < 2 ^ 32 }
    requires written { checked schema.now drafts.now ≡ valued schema.now orders.now heads.now drafts.now }
    ensures { IsAnswer result (told (valued schema.now orders.now heads.now drafts.now)) }
{
    match check_values(alloc, schema, orders, heads, drafts) {
        Ok(()) => match objects_of(alloc, schema, orders, heads, drafts) {
            Ok(objects) => stored_objects(alloc, schema, orders, objects),
            Err(_) => Err(DataRefusal::Memory),
        },
        Err(refusal) => Err(refusal),
    }
}

/// The store that drafts write (the rules are those of the program's data format). The objects of the store stand in
/// order of id, and each fits the schema.
///
/// # Errors
///
/// `Rule`: the first rule that fails, from X3 to X13. First X3, X4 and X5 of each object's own id and type, object by
/// object; then, object by object and there at the least name in byte order, a bad uuid of a target (X3) and X6 to X12;
/// then X13.
pub fn check(
    alloc: Global,
    schema: &Schema,
    drafts: List<ObjectDraft>,
) -> Result<Store, DataRefusal>
    requires types { length schema.now.types < 2 ^ 32 }
    requires some { 0 < length schema.now.pointers }
    requires few { length schema.now.pointers < 2 ^ 32 }
    ensures { IsAnswer result (told (checked schema.now drafts)) }
{
    // Objects are told by numbers of 32 bits; no memory holds more of them.
    if drafts.len() > u32::MAX as usize {
        return Err(DataRefusal::Memory);
    }
    match check_heads(alloc, schema.types(), drafts.as_slice()) {
        Ok(heads) => match orders(alloc, schema) {
            Ok(orders) => valued_objects(
                alloc,
                schema,
                orders.as_slice(),
                &heads,
                drafts.as_slice(),
            ),
            Err(_) => Err(DataRefusal::Memory),
        },
        Err(refusal) => Err(refusal),
    }
}
