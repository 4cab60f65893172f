//! The rules on the targets of a link.
ghost use Rattle.std.specs.Prelude.{◌≡◌, not, is_none, [], IfOk};
ghost use Rattle.std.specs.List.{list_any};
ghost use Rattle.std.specs.Option.{option_copied};
ghost use Rattle.db_values.specs.Links.{target_id as target_id_of, fields_of as fields_of_element, is_key_of as is_key, property_at as property_at_key, is_unknown as is_unknown_key, is_ill as is_ill_field, leads as leads_from, repeated, ids_of as ids_of_elements, link_flaw as link_flaw_of, alone as flaw_alone, target_flaw as target_flaw_of, repeat_flaw as repeat_flaw_in};
ghost use Rattle.db_draft.specs.Values.{plain_id as plain_id_of};

use crate::elements::{is_lacking, is_null};
use crate::flaw::Flaw;
use core_ir::TypeId;
use db_draft::{Element, Field, Plain, Rule, field, id_written, value_of};
use db_ids::Heads;
use ev_schema::{LinkProperty, PtrInfo, Schema};
use ev_value::{List, Text};
use std::alloc::{AllocError, Global};
use std::collections::BTreeSet;

/// The uuid that a text without parts writes.
fn plain_id(plain: &Plain) -> Option<u128>
    ensures { result ≡ plain_id_of plain.now }
{
    match plain {
        Plain::Str(text) => id_written(text.as_str()),
        Plain::Null | Plain::Bool(_) | Plain::Int(_) | Plain::Other => None,
    }
}

/// The id of the object that an element names.
pub fn target_id(element: &Element) -> Option<u128>
    ensures { result ≡ target_id_of element.now }
{
    match element {
        Element::Plain(plain) => plain_id(plain),
        Element::Object(fields) => match field(fields.as_slice(), "id") {
            Some(plain) => plain_id(plain),
            None => None,
        },
    }
}

/// What stands in an element under keys.
pub fn fields_of(element: &Element) -> &[Field]
    ensures { result.now ≡ fields_of_element element.now }
{
    match element {
        Element::Plain(_) => &[],
        Element::Object(fields) => fields.as_slice(),
    }
}

/// Whether a key is `@` with a property's name behind it.
pub fn is_key_of(key: &str, name: &str) -> bool
    ensures { result ≡ is_key key.now name.now }
{
    match key.as_bytes().split_first() {
        Some((first, rest)) => *first == b'@' && rest == name.as_bytes(),
        None => false,
    }
}

/// The property of a link that a key names.
fn property_at<'a>(properties: &'a [LinkProperty], key: &Text) -> Option<&'a LinkProperty>
    ensures { option_copied result ≡ property_at_key properties.now key.now }
{
    for property in properties {
        if is_key_of(key.as_str(), property.name.as_str()) {
            return Some(property);
        }
    }
    None
}

/// Whether a key is neither `id` nor a property.
fn is_unknown(properties: &[LinkProperty], field: &Field) -> bool
    ensures { result ≡ is_unknown_key properties.now field.now }
{
    if field.name.as_str() == "id" {
        false
    } else {
        property_at(properties, &field.name).is_none()
    }
}

fn some_unknown(properties: &[LinkProperty], fields: &[Field]) -> bool
    ensures { result ≡ list_any (is_unknown_key properties.now) fields.now }
{
    for field in fields {
        if is_unknown(properties, field) {
            return true;
        }
    }
    false
}

/// Whether a property has a value of another type.
fn is_ill(alloc: Global, properties: &[LinkProperty], field: &Field) -> Result<bool, AllocError>
    ensures { IfOk result (λ b. b ≡ is_ill_field properties.now field.now) }
{
    match property_at(properties, &field.name) {
        Some(property) => {
            if is_null(&field.value) {
                Ok(false)
            } else {
                let value = value_of(alloc, property.ty, &field.value)?;
                Ok(value.is_none())
            }
        }
        None => Ok(false),
    }
}

fn some_ill(
    alloc: Global,
    properties: &[LinkProperty],
    fields: &[Field],
) -> Result<bool, AllocError>
    ensures { IfOk result (λ b. b ≡ list_any (is_ill_field properties.now) fields.now) }
{
    for field in fields {
        if is_ill(alloc, properties, field)? {
            return Ok(true);
        }
    }
    Ok(false)
}

fn some_nameless(elements: &[Element]) -> bool
    ensures { result ≡ list_any (λ e. is_none (target_id_of e)) elements.now }
{
    for element in elements {
        if target_id(element).is_none() {
            return true;
        }
    }
    false
}

fn some_with_unknown(properties: &[LinkProperty], elements: &[Element]) -> bool
    ensures { result ≡ list_any (λ e. list_any (is_unknown_key properties.now) (fields_of_element e)) elements.now }
{
    for element in elements {
        if some_unknown(properties, fields_of(element)) {
            return true;
        }
    }
    false
}

fn some_with_ill(
    alloc: Global,
    properties: &[LinkProperty],
    elements: &[Element],
) -> Result<bool, AllocError>
    ensures { IfOk result (λ b. b ≡ list_any (λ e. list_any (is_ill_field properties.now) (fields_of_element e)) elements.now) }
{
    for element in elements {
        if some_ill(alloc, properties, fields_of(element))? {
            return Ok(true);
        }
    }
    Ok(false)
}

/// Whether an element names an object of a type.
fn leads(schema: &Schema, heads: &Heads, ty: TypeId, element: &Element) -> bool
    ensures { result ≡ leads_from schema.now.types heads.now ty element.now }
{
    let Some(id) = target_id(element) else {
        return false;
    };
    match heads.find(id) {
        Some(place) => match heads.at(place) {
            Some(head) => schema.is_subtype(head.ty, ty),
            None => false,
        },
        None => false,
    }
}

fn some_astray(schema: &Schema, heads: &Heads, ty: TypeId, elements: &[Element]) -> bool
    ensures { result ≡ list_any (λ e. not (leads_from schema.now.types heads.now ty e)) elements.now }
{
    for element in elements {
        if !leads(schema, heads, ty, element) {
            return true;
        }
    }
    false
}

/// The ids that elements name.
fn ids_of(alloc: Global, elements: &[Element]) -> Result<List<u128>, AllocError>
    ensures { IfOk result (λ ids. ids ≡ ids_of_elements elements.now) }
{
    let mut ids = List::new(alloc);
    for element in elements {
        if let Some(id) = target_id(element) {
            ids.push(id)?;
        }
    }
    Ok(ids)
}

/// The first id that stands among those before it.
fn first_repeated(alloc: Global, ids: &[u128]) -> Result<Option<u128>, AllocError>
    ensures { IfOk result (λ r. r ≡ repeated [] ids.now) }
{
    let mut seen = BTreeSet::new(alloc);
    for id in ids {
        match seen.insert(*id) {
            Ok(true) => {}
            Ok(false) => return Ok(Some(*id)),
            Err(_) => return Err(AllocError),
        }
    }
    Ok(None)
}

/// A rule that fails, where no other object is told.
pub fn alone(rule: Rule) -> Flaw
    ensures { result ≡ flaw_alone rule }
{
    Flaw { rule, other: None }
}

/// The rules that need no other objects.
fn target_flaw(
    alloc: Global,
    info: &PtrInfo,
    elements: &[Element],
) -> Result<Option<Rule>, AllocError>
    ensures { IfOk result (λ r. r ≡ target_flaw_of info.now elements.now) }
{
    let properties = info.link_props.as_slice();
    if some_nameless(elements) {
        return Ok(Some(Rule::X3));
    }
    if some_with_unknown(properties, elements) {
        return Ok(Some(Rule::X6));
    }
    if some_with_ill(alloc, properties, elements)? {
        return Ok(Some(Rule::X7));
    }
    if is_lacking(info.card, elements) {
        return Ok(Some(Rule::X8));
    }
    Ok(None)
}

/// The object that is a target twice.
fn repeat_flaw(
    alloc: Global,
    heads: &Heads,
    elements: &[Element],
) -> Result<Option<Flaw>, AllocError>
    ensures { IfOk result (λ r. r ≡ repeat_flaw_in heads.now elements.now) }
{
    let ids = ids_of(alloc, elements)?;
    match first_repeated(alloc, ids.as_slice())? {
        Some(id) => Ok(Some(Flaw {
            rule: Rule::X11,
            other: heads.find(id),
        })),
        None => Ok(None),
    }
}

/// The first of the rules that fails for what stands for a link.
pub fn link_flaw(
    alloc: Global,
    schema: &Schema,
    heads: &Heads,
    info: &PtrInfo,
    ty: TypeId,
    elements: &[Element],
) -> Result<Option<Flaw>, AllocError>
    ensures { IfOk result (λ r. r ≡ link_flaw_of schema.now.types heads.now info.now ty elements.now) }
{
    if let Some(rule) = target_flaw(alloc, info, elements)? {
        return Ok(Some(alone(rule)));
    }
    if some_astray(schema, heads, ty, elements) {
        return Ok(Some(alone(Rule::X10)));
    }
    repeat_flaw(alloc, heads, elements)
}
