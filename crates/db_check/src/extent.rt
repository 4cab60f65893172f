//! The places of the objects of each type. Each object is put under its own type and under those that it extends, so that
//! no type asks each object.
ghost use Rattle.std.specs.Prelude.{◌≡◌, ◌<◌, ◌^◌, [], length, IfOk, OnOk};
ghost use Rattle.db_check.specs.Extent.{extents as extents_of_types};
ghost use Rattle.db_check.specs.Placing.{is_last_place, with_place, with_places, with_object};

use core_ir::TypeId;
use db_store::Object;
use ev_schema::TypeInfo;
use ev_value::List;
use sqlite_items::at;
use std::alloc::{AllocError, Global};

/// Whether a place is the last of some.
fn is_last(places: &[u32], place: u32) -> bool
    ensures { result ≡ is_last_place place places.now }
{
    match places.last() {
        Some(last) => *last == place,
        None => false,
    }
}

/// Puts a place behind those of a type, once even where the type is told twice.
fn add_place(extents: &mut Vec<List<u32>>, ty: TypeId, place: u32) -> Result<(), AllocError>
    ensures { OnOk result (extents.new.items ≡ with_place place extents.old.items ty) }
{
    let number = ty.0 as usize;
    if number < extents.len() && !is_last(extents[number].as_slice(), place) {
        extents[number].push(place)?;
    }
    Ok(())
}

/// Puts a place behind those of each of some types.
fn add_places(extents: &mut Vec<List<u32>>, types: &[TypeId], place: u32) -> Result<(), AllocError>
    ensures { OnOk result (extents.new.items ≡ with_places place extents.old.items types.now) }
{
    for ty in types {
        add_place(extents, *ty, place)?;
    }
    Ok(())
}

/// Puts the place of an object behind those of its type and of those that it extends.
fn add_object(
    extents: &mut Vec<List<u32>>,
    types: &[TypeInfo],
    object: &Object,
    place: u32,
) -> Result<(), AllocError>
    ensures { OnOk result (extents.new.items ≡ with_object types.now place extents.old.items object.now) }
{
    add_place(extents, object.ty, place)?;
    match at(types, object.ty.0 as usize) {
        Some(info) => add_places(extents, info.ancestors.as_slice(), place),
        None => Ok(()),
    }
}

/// No places for each type.
fn without_places(alloc: Global, types: &[TypeInfo]) -> Result<Vec<List<u32>>, AllocError>
    ensures { IfOk result (λ v. v.items ≡ extents_of_types types.now []) }
{
    let mut all = Vec::new(alloc);
    for k in 0..types.len() {
        all.push(List::new(alloc))?;
    }
    Ok(all)
}

/// The places of the objects of each type.
pub fn extents(
    alloc: Global,
    types: &[TypeInfo],
    objects: &[Object],
) -> Result<List<List<u32>>, AllocError>
    requires { length objects.now < 2 ^ 32 }
    ensures { IfOk result (λ l. l ≡ extents_of_types types.now objects.now) }
{
    let mut all = without_places(alloc, types)?;
    for (place, object) in objects.iter().enumerate() {
        add_object(&mut all, types, object, place as u32)?;
    }
    Ok(List::from_vec(all))
}
