//! The value that a draft writes.
ghost use Rattle.std.specs.Prelude.{◌≡◌, IfOk};
ghost use Rattle.std.specs.Option.{option_copied};
ghost use Rattle.db_draft.specs.Values.{value_of as value_by, id_written as id_in_text, id_in as id_in_draft, element_value as value_by_element};

use crate::draft::{Draft, Element, Plain};
use ev_value::{ScalarTy, Text, Val};
use std::alloc::{AllocError, Global};
use uuid::Uuid;

/// The number of the uuid that a text writes, in one of the forms that the crate `uuid` parses. None where it writes
/// none.
pub fn id_written(text: &str) -> Option<u128>
    ensures { result ≡ id_in_text text.now }
{
    match Uuid::parse_str(text) {
        Ok(id) => Some(id.as_u128()),
        Err(_) => None,
    }
}

/// The uuid that a draft writes as a text.
pub fn id_in(draft: Option<&Draft>) -> Option<u128>
    ensures { result ≡ id_in_draft (option_copied draft.entry) }
{
    match draft {
        Some(Draft::One(Element::Plain(Plain::Str(text)))) => id_written(text.as_str()),
        Some(
            Draft::One(Element::Plain(Plain::Null | Plain::Bool(_) | Plain::Int(_) | Plain::Other)),
        ) => None,
        Some(Draft::One(Element::Object(_)) | Draft::Array(_)) | None => None,
    }
}

fn text_value(alloc: Global, text: &Text) -> Result<Option<Val>, AllocError>
    ensures { IfOk result (λ v. v ≡ value_by ScalarTy.Str (Plain.Str text.now)) }
{
    Ok(Some(Val::Str(text.copied(alloc)?)))
}

/// The value of a scalar type that a draft writes. None where it writes none.
pub fn value_of(alloc: Global, ty: ScalarTy, plain: &Plain) -> Result<Option<Val>, AllocError>
    ensures { IfOk result (λ v. v ≡ value_by ty plain.now) }
{
    match (ty, plain) {
        (ScalarTy::Int64, Plain::Int(number)) => Ok(Some(Val::Int(*number))),
        (ScalarTy::Bool, Plain::Bool(truth)) => Ok(Some(Val::Bool(*truth))),
        (ScalarTy::Str, Plain::Str(text)) => text_value(alloc, text),
        (ScalarTy::Uuid, Plain::Str(text)) => Ok(id_written(text.as_str()).map(Val::Id)),
        _ => Ok(None),
    }
}

/// The same of what stands in an array.
pub fn element_value(
    alloc: Global,
    ty: ScalarTy,
    element: &Element,
) -> Result<Option<Val>, AllocError>
    ensures { IfOk result (λ v. v ≡ value_by_element ty element.now) }
{
    match element {
        Element::Plain(plain) => value_of(alloc, ty, plain),
        Element::Object(_) => Ok(None),
    }
}
