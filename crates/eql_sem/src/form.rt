//! Items with their nested forms.

use ev_value::{List, Text, Val};

/// How an item of a result is nested, before it is known which fields are single.
#[derive(Drop)]
#[cycle(form)]
pub enum Form {
    /// A value as it is, which is no tuple; of an object without a shape its id.
    Value(Val),
    /// The forms of a tuple's components.
    Tuple(List<Form>),
    /// The fields of an object with a shape.
    Shape(List<FormField>),
}

/// A field of a shape with the forms of its items, none or many.
#[derive(Drop)]
#[cycle(form)]
pub struct FormField {
    pub name: Text,
    pub forms: List<Form>,
}

/// A value and its form.
#[derive(Drop)]
pub struct Formed {
    pub value: Val,
    pub form: Form,
}
