//! The object that a draft writes.
ghost use Rattle.std.specs.Prelude.{◌≡◌, ◌++◌, ◌∷◌, [], slice_get, Some, IfOk, OnOk};
ghost use Rattle.std.specs.Option.{option_copied};
ghost use Rattle.db_values.specs.Made.{property_in as property_in_fields, property_value, properties_of as properties_of_fields, target_with, keyed_targets as keyed_targets_of, targets_of as targets_of_elements, stored_entry as stored_entry_of, entry_of as entry_of_body, entry_if_known, entries as entries_of, object_of as object_of_draft};

use crate::elements::elements;
use crate::links::{fields_of, is_key_of, target_id};
use crate::order::{BY_KEY, keyed};
use crate::properties::values_of;
use core_ir::{PtrId, Ty, TypeId};
use db_draft::{Element, Field, Member, Plain, member, value_of};
use db_store::{Entry, LinkValue, Object, PtrValue, Target};
use ev_list::{Keyed, in_order, keyless};
use ev_schema::{Body, LinkProperty, PtrInfo, Schema};
use ev_value::{List, Text, Val};
use sqlite_items::at;
use std::alloc::{AllocError, Global};

/// What stands under the key of a link's property.
fn property_in<'a>(fields: &'a [Field], name: &str) -> Option<&'a Plain>
    ensures { option_copied result ≡ property_in_fields fields.now name.now }
{
    for field in fields {
        if is_key_of(field.name.as_str(), name) {
            return Some(&field.value);
        }
    }
    None
}

/// Puts the value of a link's property behind others, where it has one.
fn add_property(
    alloc: Global,
    property: &LinkProperty,
    plain: &Plain,
    values: &mut List<LinkValue>,
) -> Result<(), AllocError>
    ensures { OnOk result (values.new ≡ values.old ++ property_value property.now (Some plain.now)) }
{
    if let Some(value) = value_of(alloc, property.ty, plain)? {
        let name = property.name.copied(alloc)?;
        values.push(LinkValue { name, value })?;
    }
    Ok(())
}

/// The values of a link's properties at one target, in the order of the declared ones.
fn properties_of(
    alloc: Global,
    properties: &[LinkProperty],
    fields: &[Field],
) -> Result<List<LinkValue>, AllocError>
    ensures { IfOk result (λ vs. vs ≡ properties_of_fields properties.now fields.now) }
{
    let mut values = List::new(alloc);
    for property in properties {
        if let Some(plain) = property_in(fields, property.name.as_str()) {
            add_property(alloc, property, plain, &mut values)?;
        }
    }
    Ok(values)
}

/// The target with an id, with the id as its key.
fn keyed_target(
    alloc: Global,
    properties: &[LinkProperty],
    fields: &[Field],
    id: u128,
) -> Result<Keyed<Target>, AllocError>
    ensures { IfOk result (λ k. target_with properties.now fields.now (Some id) ≡ k ∷ []) }
{
    let properties = properties_of(alloc, properties, fields)?;
    keyed(alloc, Val::Id(id), Target { id, properties })
}

fn keyed_targets(
    alloc: Global,
    properties: &[LinkProperty],
    elements: &[Element],
) -> Result<List<Keyed<Target>>, AllocError>
    ensures { IfOk result (λ l. l ≡ keyed_targets_of properties.now elements.now) }
{
    let mut all = List::new(alloc);
    for element in elements {
        if let Some(id) = target_id(element) {
            all.push(keyed_target(alloc, properties, fields_of(element), id)?)?;
        }
    }
    Ok(all)
}

/// The targets that elements name, in order of id.
fn targets_of(
    alloc: Global,
    properties: &[LinkProperty],
    elements: &[Element],
) -> Result<List<Target>, AllocError>
    ensures { IfOk result (λ l. l ≡ targets_of_elements properties.now elements.now) }
{
    let all = keyed_targets(alloc, properties, elements)?;
    keyless(alloc, in_order(alloc, &[BY_KEY], all)?)
}

/// Puts the entry of a stored pointer behind others, where something stands for it.
fn add_stored(
    alloc: Global,
    pointer: PtrId,
    info: &PtrInfo,
    ty: &Ty,
    elements: &[Element],
    entries: &mut List<Entry>,
) -> Result<(), AllocError>
    ensures { OnOk result (entries.new ≡ entries.old ++ stored_entry_of pointer info.now ty.now elements.now) }
{
    if elements.is_empty() {
        return Ok(());
    }
    match ty {
        Ty::Scalar(ty) => {
            let value = PtrValue::Vals(values_of(alloc, *ty, elements)?);
            entries.push(Entry { pointer, value })
        }
        Ty::Object(_) => {
            let targets = targets_of(alloc, info.link_props.as_slice(), elements)?;
            let value = PtrValue::Links(targets);
            entries.push(Entry { pointer, value })
        }
        Ty::Tuple(_) => Ok(()),
        Ty::Array(_) => Ok(()),
    }
}

fn add_entry(
    alloc: Global,
    pointer: PtrId,
    info: &PtrInfo,
    elements: &[Element],
    entries: &mut List<Entry>,
) -> Result<(), AllocError>
    ensures { OnOk result (entries.new ≡ entries.old ++ entry_of_body pointer info.now info.now.body elements.now) }
{
    match &info.body {
        Body::Stored(ty) => add_stored(alloc, pointer, info, ty, elements, entries),
        Body::Computed => Ok(()),
    }
}

/// The entries of some pointers.
fn entries(
    alloc: Global,
    infos: &[PtrInfo],
    listed: &[PtrId],
    members: &[Member],
) -> Result<List<Entry>, AllocError>
    ensures { IfOk result (λ l. l ≡ entries_of infos.now members.now listed.now) }
{
    let mut all = List::new(alloc);
    for pointer in listed {
        if let Some(info) = at(infos, pointer.0 as usize) {
            let draft = member(members, info.name.as_str());
            add_entry(alloc, *pointer, info, elements(draft), &mut all)?;
        }
    }
    Ok(all)
}

/// The object with an id and a type that a draft writes, where the type's pointers are given in byte order of their
/// names.
pub fn object_of(
    alloc: Global,
    schema: &Schema,
    id: u128,
    ty: TypeId,
    listed: &[PtrId],
    members: &[Member],
) -> Result<Object, AllocError>
    ensures { IfOk result (λ o. o ≡ object_of_draft schema.now.pointers id ty listed.now members.now) }
{
    let values = entries(alloc, schema.pointers(), listed, members)?;
    Ok(Object { id, ty, values })
}
