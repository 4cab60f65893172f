//! Nested forms: how an answer is laid out as JSON.
ghost use Rattle.ev_value.specs.JsonText.{NamesAreOrdered};

use crate::text::Text;
use crate::value::Val;
use sqlite_items::Items;

/// The law of an object's text: its names rise by their bytes, so each stands once, with the last value that it was
/// given.
pub fn names_are_ordered()
    ensures { NamesAreOrdered }
{}

/// The form of an answer or of a part of it.
#[derive(Drop)]
#[cycle(nested)]
pub enum Nested {
    /// A single field without a value.
    Null,
    Scalar(Val),
    Array(Items<Nested>),
    Object(Items<Field>),
}

/// A key of an object with the form under it.
#[derive(Drop)]
#[cycle(nested)]
pub struct Field {
    pub name: Text,
    pub form: Nested,
}
