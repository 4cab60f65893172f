//! The objects that drafts write, and what fails in one.
ghost use Rattle.std.specs.Prelude.{◌≡◌, ◌<◌, ◌^◌, length, zero, Some, IfOk};
ghost use Rattle.db_draft.specs.Told.{IsAnswer, ruled};
ghost use Rattle.db_check.specs.Check.{orders as orders_in, told_flaw, values_from, objects_of as objects_of_drafts};

use crate::exclusive::pointers_at;
use core_ir::{PtrId, TypeId};
use db_draft::{Broken, DataRefusal, ObjectDraft};
use db_ids::Heads;
use db_store::Object;
use db_values::{Flaw, object_flaw, object_of};
use ev_schema::Schema;
use ev_value::List;
use std::alloc::{AllocError, Global};

/// The pointers of each type, in byte order of their names.
pub fn orders(alloc: Global, schema: &Schema) -> Result<List<List<PtrId>>, AllocError>
    requires { length schema.now.types < 2 ^ 32 }
    ensures { IfOk result (λ l. l ≡ orders_in schema.now) }
{
    let mut all = List::new(alloc);
    for k in 0..schema.types().len() {
        all.push(schema.pointers_in_order(alloc, TypeId(k as u32))?)?;
    }
    Ok(all)
}

/// Whether nothing fails in the values of an object.
pub fn check_values(
    alloc: Global,
    schema: &Schema,
    orders: &[List<PtrId>],
    heads: &Heads,
    drafts: &[ObjectDraft],
) -> Result<(), DataRefusal>
    requires some { 0 < length schema.now.pointers }
    requires few { length schema.now.pointers < 2 ^ 32 }
    requires objects { length drafts.now < 2 ^ 32 }
    ensures { IsAnswer result (ruled (values_from schema.now orders.now heads.now zero heads.now drafts.now) tt) }
{
    for (i, draft) in drafts.iter().enumerate() {
        let Some(head) = heads.at(i as u32) else {
            return Ok(());
        };
        let listed = pointers_at(orders, head.ty);
        let members = draft.members.as_slice();
        match object_flaw(alloc, schema, heads, head.ty, listed, members) {
            Ok(None) => {}
            Ok(Some(flaw)) => return Err(DataRefusal::Rule(broken(i as u32, flaw))),
            Err(_) => return Err(DataRefusal::Memory),
        }
    }
    Ok(())
}

/// The rule that fails in an object, with the object's number.
fn broken(number: u32, flaw: Flaw) -> Broken
    ensures { Some result ≡ told_flaw number (Some flaw) }
{
    Broken {
        rule: flaw.rule,
        object: Some(number),
        other: flaw.other,
    }
}

/// The objects that drafts write, in the order of the document.
pub fn objects_of(
    alloc: Global,
    schema: &Schema,
    orders: &[List<PtrId>],
    heads: &Heads,
    drafts: &[ObjectDraft],
) -> Result<List<Object>, AllocError>
    requires objects { length drafts.now < 2 ^ 32 }
    ensures { IfOk result (λ l. l ≡ objects_of_drafts schema.now orders.now heads.now drafts.now) }
{
    let mut objects = List::new(alloc);
    for (i, draft) in drafts.iter().enumerate() {
        let Some(head) = heads.at(i as u32) else {
            return Ok(objects);
        };
        let listed = pointers_at(orders, head.ty);
        let members = draft.members.as_slice();
        objects.push(object_of(alloc, schema, head.id, head.ty, listed, members)?)?;
    }
    Ok(objects)
}
