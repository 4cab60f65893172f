//! The rule on exclusive values.
ghost use Rattle.std.specs.Prelude.{◌≡◌, ◌<◌, ◌^◌, ◌++◌, length, zero, slice_get, None, IfOk, OnOk};
ghost use Rattle.std.specs.List.{list_any};
ghost use Rattle.db_store.specs.Fits.{is_exclusive as is_exclusive_limit};
ghost use Rattle.db_store.specs.Objects.{items_at as items_at_pointer, led_to};
ghost use Rattle.db_check.specs.Exclusive.{is_exclusive_pointer as is_exclusive_in, lesser as lesser_of, held_with, repeated as repeated_in, exclusive_items as exclusive_items_of, held_after, clash as clash_in, pointers_at as pointers_at_type, told_clash, exclusive as exclusive_in_order};
ghost use Rattle.db_check.specs.Holders.{held_by};
ghost use Rattle.db_draft.specs.Told.{IsAnswer, ruled};

use crate::holders::Holders;
use core_ir::{PtrId, TypeId};
use db_draft::{Broken, DataRefusal, Rule};
use db_store::{Object, PtrValue, Target};
use ev_schema::{Limit, PtrInfo};
use ev_value::{List, Val, copied_values};
use sqlite_items::at;
use std::alloc::{AllocError, Global};

fn some_exclusive(limits: &[Limit]) -> bool
    ensures { result ≡ list_any is_exclusive_limit limits.now }
{
    for limit in limits {
        if is_exclusive(limit) {
            return true;
        }
    }
    false
}

fn is_exclusive(limit: &Limit) -> bool
    ensures { result ≡ is_exclusive_limit limit.now }
{
    match limit {
        Limit::Exclusive => true,
        Limit::MinValue(_)
        | Limit::MaxValue(_)
        | Limit::MinExValue(_)
        | Limit::MaxExValue(_)
        | Limit::MinLen(_)
        | Limit::MaxLen(_)
        | Limit::OneOf(_) => false,
    }
}

/// Whether no two objects may have one value of a pointer.
fn is_exclusive_pointer(infos: &[PtrInfo], pointer: PtrId) -> bool
    ensures { result ≡ is_exclusive_in infos.now pointer }
{
    match at(infos, pointer.0 as usize) {
        Some(info) => some_exclusive(info.limits.as_slice()),
        None => false,
    }
}

/// Targets as values.
fn target_values(alloc: Global, targets: &[Target]) -> Result<List<Val>, AllocError>
    ensures { IfOk result (λ vs. vs ≡ led_to (PtrValue.Links targets.now)) }
{
    let mut values = List::new(alloc);
    for target in targets {
        values.push(Val::Obj(target.id))?;
    }
    Ok(values)
}

/// The items that an object has for a pointer.
fn items_at(alloc: Global, object: &Object, pointer: PtrId) -> Result<List<Val>, AllocError>
    ensures { IfOk result (λ vs. vs ≡ items_at_pointer object.now pointer) }
{
    match object.entry(pointer) {
        Some(PtrValue::Vals(values)) => copied_values(alloc, values.as_slice()),
        Some(PtrValue::Links(targets)) => target_values(alloc, targets.as_slice()),
        None => Ok(List::new(alloc)),
    }
}

/// The items that an object has for a pointer, where it is exclusive.
fn exclusive_items(
    alloc: Global,
    infos: &[PtrInfo],
    object: &Object,
    pointer: PtrId,
) -> Result<List<Val>, AllocError>
    ensures { IfOk result (λ vs. vs ≡ exclusive_items_of infos.now object.now pointer) }
{
    if is_exclusive_pointer(infos, pointer) {
        items_at(alloc, object, pointer)
    } else {
        Ok(List::new(alloc))
    }
}

/// The lesser of two numbers.
fn lesser(found: Option<u32>, next: Option<u32>) -> Option<u32>
    ensures { result ≡ lesser_of found next }
{
    match (found, next) {
        (None, next) => next,
        (Some(found), None) => Some(found),
        (Some(found), Some(next)) => {
            if next < found {
                Some(next)
            } else {
                Some(found)
            }
        }
    }
}

/// The least object that holds one of some values before the object with a number, which then holds those that nobody
/// held.
fn repeated(
    alloc: Global,
    holders: &mut Holders,
    object: u32,
    pointer: PtrId,
    values: &[Val],
) -> Result<Option<u32>, AllocError>
    ensures least { IfOk result (λ o. o ≡ repeated_in None (held_by holders.old) object pointer values.now) }
    ensures held { OnOk result (held_by holders.new ≡ held_with (held_by holders.old) object pointer values.now) }
{
    let mut found = None;
    for value in values {
        let other = holders.note(pointer, value.copied(alloc)?, object)?;
        found = lesser(found, other);
    }
    Ok(found)
}

/// The other object at the first of some pointers whose value stands twice.
fn clash(
    alloc: Global,
    infos: &[PtrInfo],
    holders: &mut Holders,
    number: u32,
    object: &Object,
    listed: &[PtrId],
) -> Result<Option<u32>, AllocError>
    ensures first { IfOk result (λ o. o ≡ clash_in infos.now (held_by holders.old) number object.now listed.now) }
    ensures held { IfOk result (λ o. o ≡ None → held_by holders.new ≡ held_after infos.now (held_by holders.old) number object.now listed.now) }
{
    for pointer in listed {
        let items = exclusive_items(alloc, infos, object, *pointer)?;
        if let Some(other) = repeated(alloc, holders, number, *pointer, items.as_slice())? {
            return Ok(Some(other));
        }
    }
    Ok(None)
}

/// The pointers of a type, in byte order of their names.
pub fn pointers_at(orders: &[List<PtrId>], ty: TypeId) -> &[PtrId]
    ensures { result.now ≡ pointers_at_type (slice_get orders.now ty.0) }
{
    match orders.get(ty.0 as usize) {
        Some(listed) => listed.as_slice(),
        None => &[],
    }
}

/// Whether no value of an exclusive pointer stands twice, where the pointers of each type are given in byte order of
/// their names.
///
/// # Errors
///
/// `Rule`: X13 at the first object that has a value which an object before it or itself has too, with the least such
/// object at the first such pointer.
pub fn check_exclusive(
    alloc: Global,
    infos: &[PtrInfo],
    orders: &[List<PtrId>],
    objects: &[Object],
) -> Result<(), DataRefusal>
    requires { length objects.now < 2 ^ 32 }
    ensures { IsAnswer result (ruled (exclusive_in_order infos.now orders.now objects.now) tt) }
{
    let mut holders = Holders::new(alloc);
    for (i, object) in objects.iter().enumerate() {
        let listed = pointers_at(orders, object.ty);
        match clash(alloc, infos, &mut holders, i as u32, object, listed) {
            Ok(None) => {}
            Ok(Some(other)) => {
                return Err(DataRefusal::Rule(Broken {
                    rule: Rule::X13,
                    object: Some(i as u32),
                    other: Some(other),
                }));
            }
            Err(_) => return Err(DataRefusal::Memory),
        }
    }
    Ok(())
}
