//! The form of a document.
ghost use Rattle.std.specs.Prelude.{◌≡◌, [], codes, option_map, Some, IfOk};
ghost use Rattle.std.specs.Option.{option_copied};
ghost use Rattle.serde_json.specs.Find.{get_member};
ghost use Rattle.serde_json.specs.View.{view, items_view, members_view};
ghost use Rattle.db_load.specs.Document.{drafts_of as drafts_of_items, is_format as is_format_data, objects_in as objects_in_data, document_in as document_in_members, document as document_of_data};

use crate::drafts::object_of;
use db_draft::ObjectDraft;
use ev_value::List;
use serde_json::{Map, Value};
use std::alloc::{AllocError, Global};

/// The drafts of an array's objects. None where an element is no object.
fn drafts_of(alloc: Global, items: Vec<Value>) -> Result<Option<List<ObjectDraft>>, AllocError>
    ensures { IfOk result (λ ds. ds ≡ drafts_of_items [] (items_view items.items)) }
{
    let mut drafts = List::new(alloc);
    for item in items {
        match item {
            Value::Object(map) => drafts.push(object_of(alloc, map)?)?,
            Value::Null | Value::Bool(_) | Value::Number(_) | Value::String(_) | Value::Array(_) =>
                return Ok(None),
        }
    }
    Ok(Some(drafts))
}

/// Whether a value is the number of the format.
fn is_format(value: &Value) -> bool
    ensures { result ≡ is_format_data (Some (view value.now)) }
{
    match value {
        Value::Number(number) => number.as_u64() == Some(1),
        Value::Null | Value::Bool(_) | Value::String(_) | Value::Array(_) | Value::Object(_) =>
            false,
    }
}

fn has_format(map: &Map<String, Value>) -> bool
    ensures { result ≡ is_format_data (get_member (codes "format") (members_view map.now.entries)) }
{
    match map.get("format") {
        Some(value) => is_format(value),
        None => false,
    }
}

fn objects_in(alloc: Global, value: Option<Value>) -> Result<Option<List<ObjectDraft>>, AllocError>
    ensures { IfOk result (λ ds. ds ≡ objects_in_data (option_map view value)) }
{
    match value {
        Some(Value::Array(items)) => drafts_of(alloc, items),
        Some(Value::Null | Value::Bool(_) | Value::Number(_) | Value::String(_) | Value::Object(_))
        | None => Ok(None),
    }
}

#[tactic(auto, using(crate::proofs::MemberLaws::ill_counted, crate::proofs::MemberLaws::ill_formed, crate::proofs::MemberLaws::formed))]
fn document_in(
    alloc: Global,
    map: Map<String, Value>,
) -> Result<Option<List<ObjectDraft>>, AllocError>
    ensures { IfOk result (λ ds. ds ≡ document_in_members (members_view map.entries)) }
{
    let mut map = map;
    if map.len() == 2 {
        if has_format(&map) {
            let objects = map.remove("objects");
            objects_in(alloc, objects)
        } else {
            Ok(None)
        }
    } else {
        Ok(None)
    }
}

/// The objects of a document. None where it has not the form of one.
pub fn document(alloc: Global, value: Value) -> Result<Option<List<ObjectDraft>>, AllocError>
    ensures { IfOk result (λ ds. ds ≡ document_of_data (view value)) }
{
    match value {
        Value::Object(map) => document_in(alloc, map),
        Value::Null | Value::Bool(_) | Value::Number(_) | Value::String(_) | Value::Array(_) => Ok(
            None,
        ),
    }
}
