//! Nested forms as values of `serde_json`, whose printer writes their text.
ghost use Rattle.std.specs.Prelude.{◌≡◌, ◌∷◌, [], IfOk, OnOk, codes, map};
ghost use Rattle.ev_value.specs.JsonText.{json_text, value_text, id_text, json_string, json_object, json_array, field_text};
ghost use Rattle.ev_json.specs.Printed.{IsPrinted, ArePrinted, HasMembers, Puts};

use ev_value::{Field, Nested, Val};
use serde_json::{Map, Value};
use std::alloc::{AllocError, Global};
use uuid::Uuid;

/// A text as a value.
fn text_value(alloc: Global, text: &str) -> Result<Value, AllocError>
    ensures { IfOk result (λ v. IsPrinted v (json_string text.now)) }
{
    Ok(Value::String(String::from_str(alloc, text)?))
}

/// A uuid as the value of its lower-case text with hyphens.
fn id_value(alloc: Global, id: u128) -> Result<Value, AllocError>
    ensures { IfOk result (λ v. IsPrinted v (json_string (id_text id))) }
{
    let mut buffer = [0u8; 36];
    let text = Uuid::from_u128(id).hyphenated().encode_lower(&mut buffer);
    text_value(alloc, text)
}

/// An object without a shape: its id under the key `id`.
fn object_value(alloc: Global, id: u128) -> Result<Value, AllocError>
    ensures { IfOk result (λ v. IsPrinted v (json_object ((codes "id", json_string (id_text id)) ∷ []))) }
{
    let mut members = Map::new(alloc);
    put(alloc, &mut members, "id", id_value(alloc, id)?)?;
    Ok(Value::Object(members))
}

/// Puts a member into an object; a value that the name had before gives way.
fn put(
    alloc: Global,
    members: &mut Map<String, Value>,
    name: &str,
    value: Value,
) -> Result<(), AllocError>
    ensures { OnOk result (Puts members.old.entries members.new.entries name.now value) }
{
    members.insert(String::from_str(alloc, name)?, value)?;
    Ok(())
}

/// A plain value; a tuple is an array of its components, and an array one of its elements.
#[cycle(value)]
fn value_of(alloc: Global, value: &Val) -> Result<Value, AllocError>
    ensures { IfOk result (λ v. IsPrinted v (value_text value.now)) }
{
    match value {
        Val::Int(number) => Ok(Value::from(*number)),
        Val::Str(text) => text_value(alloc, text.as_str()),
        Val::Bool(truth) => Ok(Value::Bool(*truth)),
        Val::Id(id) => id_value(alloc, *id),
        Val::Obj(id) => object_value(alloc, *id),
        Val::Tuple(parts) => Ok(Value::Array(values_of(alloc, parts.as_slice())?)),
        Val::Array(elements) => Ok(Value::Array(values_of(alloc, elements.as_slice())?)),
    }
}

#[cycle(value)]
fn values_of(alloc: Global, parts: &[Val]) -> Result<Vec<Value>, AllocError>
    ensures { IfOk result (λ vs. ArePrinted vs.items (map value_text parts.now)) }
{
    let mut values = Vec::new(alloc);
    for part in parts {
        values.push(value_of(alloc, part)?)?;
    }
    Ok(values)
}

/// A form as a value of `serde_json`.
#[cycle(form)]
pub fn json_of(alloc: Global, form: &Nested) -> Result<Value, AllocError>
    ensures { IfOk result (λ v. IsPrinted v (json_text form.now)) }
{
    match form {
        Nested::Null => Ok(Value::Null),
        Nested::Scalar(value) => value_of(alloc, value),
        Nested::Array(forms) => Ok(Value::Array(array_of(alloc, forms.as_slice())?)),
        Nested::Object(fields) => Ok(Value::Object(members_of(alloc, fields.as_slice())?)),
    }
}

#[cycle(form)]
fn array_of(alloc: Global, forms: &[Nested]) -> Result<Vec<Value>, AllocError>
    ensures { IfOk result (λ vs. ArePrinted vs.items (map json_text forms.now)) }
{
    let mut values = Vec::new(alloc);
    for form in forms {
        values.push(json_of(alloc, form)?)?;
    }
    Ok(values)
}

#[cycle(form)]
fn members_of(alloc: Global, fields: &[Field]) -> Result<Map<String, Value>, AllocError>
    ensures { IfOk result (λ m. HasMembers m.entries (map field_text fields.now)) }
{
    let mut members = Map::new(alloc);
    for field in fields {
        let value = json_of(alloc, &field.form)?;
        put(alloc, &mut members, field.name.as_str(), value)?;
    }
    Ok(members)
}
