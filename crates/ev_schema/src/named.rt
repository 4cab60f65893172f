//! Types by their names, and pointers in byte order of their names.
ghost use Rattle.std.specs.Prelude.{◌≡◌, ◌<◌, ◌^◌, ◌∷◌, [], zero, length, slice_get, IfOk, Some};
ghost use Rattle.ev_value.specs.declared.value.Val.TheVariants as made;
ghost use Rattle.ev_list.specs.Order.{in_order as in_order_of, keyless as keyless_of};
ghost use Rattle.ev_schema.specs.Named.{type_from, name_of, named_pointers as named_pointers_in};
ghost use Rattle.ev_schema.specs.Policies.{by_name};

use crate::pointer::PtrInfo;
use crate::types::TypeInfo;
use core_ir::{PtrId, TypeId};
use ev_list::{Absent, Direction, KeyOrder, Keyed, in_order, keyless};
use ev_value::{List, Text, Val};
use sqlite_items::at;
use std::alloc::{AllocError, Global};

/// By names, in byte order.
pub const BY_NAME: KeyOrder = KeyOrder {
    direction: Direction::Ascending,
    absent: Absent::First,
};

/// The type that has a name.
pub fn type_named(types: &[TypeInfo], name: &str) -> Option<TypeId>
    requires { length types.now < 2 ^ 32 }
    ensures { result ≡ type_from zero types.now name.now }
{
    for (i, info) in types.iter().enumerate() {
        if info.name.as_str() == name {
            return Some(TypeId(i as u32));
        }
    }
    None
}

/// The name of a pointer, or the empty one where there is no such pointer.
fn name_at(alloc: Global, infos: &[PtrInfo], pointer: PtrId) -> Result<Text, AllocError>
    ensures { IfOk result (λ t. t ≡ name_of (slice_get infos.now pointer.0)) }
{
    match at(infos, pointer.0 as usize) {
        Some(info) => info.name.copied(alloc),
        None => Text::from_str(alloc, ""),
    }
}

/// A pointer with a name as its key.
fn named(alloc: Global, name: Text, pointer: PtrId) -> Result<Keyed<PtrId>, AllocError>
    ensures { IfOk result (λ k. k ≡ record { keys = Some (made.Str name) ∷ []; value = pointer }) }
{
    let mut keys = List::new(alloc);
    keys.push(Some(Val::Str(name)))?;
    let value = pointer;
    Ok(Keyed { keys, value })
}

/// Pointers with their names as keys.
fn named_pointers(
    alloc: Global,
    infos: &[PtrInfo],
    listed: &[PtrId],
) -> Result<List<Keyed<PtrId>>, AllocError>
    ensures { IfOk result (λ l. l ≡ named_pointers_in infos.now listed.now) }
{
    let mut all = List::new(alloc);
    for pointer in listed {
        let name = name_at(alloc, infos, *pointer)?;
        all.push(named(alloc, name, *pointer)?)?;
    }
    Ok(all)
}

/// Some pointers in byte order of their names.
pub fn pointers_in_order(
    alloc: Global,
    infos: &[PtrInfo],
    listed: &[PtrId],
) -> Result<List<PtrId>, AllocError>
    ensures { IfOk result (λ l. l ≡ keyless_of (in_order_of by_name (named_pointers_in infos.now listed.now))) }
{
    let all = named_pointers(alloc, infos, listed)?;
    keyless(alloc, in_order(alloc, &[BY_NAME], all)?)
}
