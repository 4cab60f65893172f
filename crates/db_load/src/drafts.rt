//! What JSON values write of an object. Texts are moved, not copied.
ghost use Rattle.std.specs.Prelude.{◌≡◌, IfOk, string_bytes};
ghost use Rattle.serde_json.specs.View.{view, items_view, members_view, number_view};
ghost use Rattle.serde_json.specs.Find.{as_i64};
ghost use Rattle.db_load.specs.Drafts.{integer_of, plain_of as plain_of_data, fields_of as fields_of_members, element_of as element_of_data, elements_of as elements_of_items, draft_of as draft_of_data, pointer_of as pointer_of_key, object_of as object_of_members};

use db_draft::{Draft, Element, Field, Member, ObjectDraft, Plain};
use ev_value::{List, Text};
use serde_json::{Map, Number, Value};
use std::alloc::{AllocError, Global};

fn integer_in(number: &Number) -> Plain
    ensures { result ≡ integer_of (as_i64 (number_view number.now)) }
{
    match number.as_i64() {
        Some(integer) => Plain::Int(integer),
        None => Plain::Other,
    }
}

/// A value without parts; an array or an object is another.
pub fn plain_of(value: Value) -> Plain
    ensures { result ≡ plain_of_data (view value) }
{
    match value {
        Value::Null => Plain::Null,
        Value::Bool(truth) => Plain::Bool(truth),
        Value::Number(number) => integer_in(&number),
        Value::String(text) => Plain::Str(Text::new(text)),
        Value::Array(_) => Plain::Other,
        Value::Object(_) => Plain::Other,
    }
}

fn fields_of(alloc: Global, map: Map<String, Value>) -> Result<List<Field>, AllocError>
    ensures { IfOk result (λ fs. fs ≡ fields_of_members (members_view map.entries)) }
{
    let mut fields = List::new(alloc);
    for (key, value) in map {
        fields.push(Field {
            name: Text::new(key),
            value: plain_of(value),
        })?;
    }
    Ok(fields)
}

fn element_of(alloc: Global, value: Value) -> Result<Element, AllocError>
    ensures { IfOk result (λ e. e ≡ element_of_data (view value)) }
{
    match value {
        Value::Null => Ok(Element::Plain(Plain::Null)),
        Value::Bool(truth) => Ok(Element::Plain(Plain::Bool(truth))),
        Value::Number(number) => Ok(Element::Plain(integer_in(&number))),
        Value::String(text) => Ok(Element::Plain(Plain::Str(Text::new(text)))),
        Value::Array(_) => Ok(Element::Plain(Plain::Other)),
        Value::Object(map) => Ok(Element::Object(fields_of(alloc, map)?)),
    }
}

fn elements_of(alloc: Global, items: Vec<Value>) -> Result<List<Element>, AllocError>
    ensures { IfOk result (λ es. es ≡ elements_of_items (items_view items.items)) }
{
    let mut elements = List::new(alloc);
    for item in items {
        elements.push(element_of(alloc, item)?)?;
    }
    Ok(elements)
}

fn draft_of(alloc: Global, value: Value) -> Result<Draft, AllocError>
    ensures { IfOk result (λ d. d ≡ draft_of_data (view value)) }
{
    match value {
        Value::Null => Ok(Draft::One(Element::Plain(Plain::Null))),
        Value::Bool(truth) => Ok(Draft::One(Element::Plain(Plain::Bool(truth)))),
        Value::Number(number) => Ok(Draft::One(Element::Plain(integer_in(&number)))),
        Value::String(text) => Ok(Draft::One(Element::Plain(Plain::Str(Text::new(text))))),
        Value::Array(items) => Ok(Draft::Array(elements_of(alloc, items)?)),
        Value::Object(map) => Ok(Draft::One(Element::Object(fields_of(alloc, map)?))),
    }
}

/// The pointer for which a key stands.
fn pointer_of(alloc: Global, key: String) -> Result<Text, AllocError>
    ensures { IfOk result (λ t. t ≡ pointer_of_key (string_bytes key)) }
{
    if key.as_str() == ".type" {
        Text::from_str(alloc, "type")
    } else {
        Ok(Text::new(key))
    }
}

fn member_of(alloc: Global, key: String, value: Value) -> Result<Member, AllocError>
    ensures { IfOk result (λ m. m ≡ record { name = pointer_of_key (string_bytes key); value = draft_of_data (view value) }) }
{
    let name = pointer_of(alloc, key)?;
    let value = draft_of(alloc, value)?;
    Ok(Member { name, value })
}

/// The object that a JSON object writes.
pub fn object_of(alloc: Global, map: Map<String, Value>) -> Result<ObjectDraft, AllocError>
    ensures { IfOk result (λ o. o ≡ object_of_members (members_view map.entries)) }
{
    let mut ty = None;
    let mut members = List::new(alloc);
    for (key, value) in map {
        if key.as_str() == "type" {
            ty = Some(draft_of(alloc, value)?);
        } else {
            members.push(member_of(alloc, key, value)?)?;
        }
    }
    Ok(ObjectDraft { ty, members })
}
