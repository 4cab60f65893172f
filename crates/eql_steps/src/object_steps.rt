//! Steps that look at one object at a time.
ghost use Rattle.std.specs.Prelude.{◌≡◌, ◌++◌, ◌∷◌, [], IfOk, OnOk};
ghost use Rattle.std.specs.Option.{option_copied};
ghost use Rattle.ev_value.specs.Item.{all_of};
ghost use Rattle.db_store.specs.Objects.{object_of as object_of_value};
ghost use Rattle.eql_steps.specs.Steps.{of_object, property as property_of, properties as properties_of, property_named as named_property, property_at as at_target, link_property as link_property_of, narrowed as narrowed_to, is_of_type as is_of_type_in};

use crate::indexed::Indexed;
use core_ir::{PtrId, TypeId};
use db_store::{LinkValue, Object, Target};
use ev_schema::Schema;
use ev_value::{Item, List, Text, Val};
use std::alloc::{AllocError, Global};

/// Puts values behind a list of items.
fn add_values(alloc: Global, out: &mut List<Item>, values: &[Val]) -> Result<(), AllocError>
    ensures { OnOk result (out.new ≡ out.old ++ all_of values.now) }
{
    for value in values {
        out.push(Item::Value(value.copied(alloc)?))?;
    }
    Ok(())
}

/// Puts the values of an object's property behind a list of items.
fn add_property(
    alloc: Global,
    schema: &Schema,
    object: &Object,
    pointer: PtrId,
    out: &mut List<Item>,
) -> Result<(), AllocError>
    ensures { OnOk result (out.new ≡ out.old ++ all_of (property_of schema.now pointer object.now)) }
{
    if schema.is_id(pointer) {
        return out.push(Item::Value(Val::Id(object.id)));
    }
    add_values(alloc, out, object.values(pointer))
}

/// Puts the values of a property behind a list of items, where a value is an object that is there.
fn add_property_of(
    alloc: Global,
    schema: &Schema,
    objects: &Indexed<'_>,
    pointer: PtrId,
    value: &Val,
    out: &mut List<Item>,
) -> Result<(), AllocError>
    ensures { OnOk result (out.new ≡ out.old ++ all_of (of_object (object_of_value objects.now value.now) (property_of schema.now pointer))) }
{
    match objects.object_of(value) {
        Some(object) => add_property(alloc, schema, object, pointer, out),
        None => Ok(()),
    }
}

/// The values of a property of each object in turn.
pub fn properties(
    alloc: Global,
    schema: &Schema,
    objects: &Indexed<'_>,
    pointer: PtrId,
    from: &[Item],
) -> Result<List<Item>, AllocError>
    ensures { IfOk result (λ xs. xs ≡ properties_of schema.now objects.now pointer from.now) }
{
    let mut out = List::new(alloc);
    for item in from {
        match item {
            Item::Value(value) => {
                add_property_of(alloc, schema, objects, pointer, value, &mut out)?;
            }
            Item::Fault(fault) => out.push(Item::Fault(*fault))?,
        }
    }
    Ok(out)
}

/// Whether a value is an object of a type or of one that extends it.
fn is_of_type(schema: &Schema, objects: &Indexed<'_>, ty: TypeId, value: &Val) -> bool
    ensures { result ≡ is_of_type_in schema.now objects.now ty value.now }
{
    match objects.object_of(value) {
        Some(object) => schema.is_subtype(object.ty, ty),
        None => false,
    }
}

/// The objects of a type and of those that extend it, in place.
pub fn narrowed(
    alloc: Global,
    schema: &Schema,
    objects: &Indexed<'_>,
    ty: TypeId,
    from: &[Item],
) -> Result<List<Item>, AllocError>
    ensures { IfOk result (λ xs. xs ≡ narrowed_to schema.now objects.now ty from.now) }
{
    let mut out = List::new(alloc);
    for item in from {
        match item {
            Item::Value(value) => {
                if is_of_type(schema, objects, ty, value) {
                    out.push(Item::Value(value.copied(alloc)?))?;
                }
            }
            Item::Fault(fault) => out.push(Item::Fault(*fault))?,
        }
    }
    Ok(out)
}

/// The value of the property with a name, as a list.
fn property_named(
    alloc: Global,
    properties: &[LinkValue],
    name: &Text,
) -> Result<List<Item>, AllocError>
    ensures { IfOk result (λ xs. xs ≡ all_of (named_property properties.now name.now)) }
{
    let mut out = List::new(alloc);
    for property in properties {
        if property.name == *name {
            out.push(Item::Value(property.value.copied(alloc)?))?;
            return Ok(out);
        }
    }
    Ok(out)
}

/// The value of a property at the first of some targets that is an object.
fn property_at(
    alloc: Global,
    targets: &[Target],
    object: &Object,
    name: &Text,
) -> Result<List<Item>, AllocError>
    ensures { IfOk result (λ xs. xs ≡ all_of (at_target targets.now object.now name.now)) }
{
    for target in targets {
        if target.id == object.id {
            return property_named(alloc, target.properties.as_slice(), name);
        }
    }
    Ok(List::new(alloc))
}

/// The property of the link from a source to a target.
pub fn link_property(
    alloc: Global,
    objects: &Indexed<'_>,
    link: PtrId,
    name: &Text,
    source: &Val,
    target: &Val,
) -> Result<List<Item>, AllocError>
    ensures { IfOk result (λ xs. xs ≡ all_of (link_property_of objects.now link name.now source.now target.now)) }
{
    match (objects.object_of(source), objects.object_of(target)) {
        (Some(from), Some(to)) => property_at(alloc, from.targets(link), to, name),
        _ => Ok(List::new(alloc)),
    }
}
