//! Lists of nested forms: of tuples, of shapes and of their fields.
ghost use Rattle.std.specs.Prelude.{◌≡◌, ◌++◌, IfOk, map};
ghost use Rattle.eql_sem.specs.Forms.{tuple_forms, shape_forms, with_forms, name_of_root, subject_of as subject_in, forms_only};
ghost use Rattle.eql_sem.specs.Meaning.{field_of};

use crate::binding::{Bound, Name};
use crate::copies::Copies;
use crate::form::{Form, FormField, Formed};
use crate::item::{Settled, fault_items, one, settle};
use core_ir::{Path, Root};
use ev_value::{Item, List, Text, Val};
use std::alloc::{AllocError, Global};

/// The tuples of components' forms.
pub fn tuples(alloc: Global, parts: &[Item<List<Form>>]) -> Result<List<Item<Form>>, AllocError>
    ensures { IfOk result (λ xs. xs ≡ tuple_forms parts.now) }
{
    let mut all = List::new(alloc);
    for part in parts {
        let form = match part {
            Item::Value(forms) => Item::Value(Form::Tuple(forms.copied_in(alloc)?)),
            Item::Fault(fault) => Item::Fault(*fault),
        };
        all.push(form)?;
    }
    Ok(all)
}

/// The shapes of fields.
pub fn shapes(
    alloc: Global,
    parts: &[Item<List<FormField>>],
) -> Result<List<Item<Form>>, AllocError>
    ensures { IfOk result (λ xs. xs ≡ shape_forms parts.now) }
{
    let mut all = List::new(alloc);
    for part in parts {
        let form = match part {
            Item::Value(fields) => Item::Value(Form::Shape(fields.copied_in(alloc)?)),
            Item::Fault(fault) => Item::Fault(*fault),
        };
        all.push(form)?;
    }
    Ok(all)
}

/// The forms of items, without their values.
pub fn forms_of(alloc: Global, items: &[Item<Formed>]) -> Result<List<Item<Form>>, AllocError>
    ensures { IfOk result (λ xs. xs ≡ forms_only items.now) }
{
    let mut all = List::new(alloc);
    for item in items {
        let form = match item {
            Item::Value(formed) => Item::Value(formed.form.copied(alloc)?),
            Item::Fault(fault) => Item::Fault(*fault),
        };
        all.push(form)?;
    }
    Ok(all)
}

// The forms of several values.
fn forms_of_values(alloc: Global, items: &[Formed]) -> Result<List<Form>, AllocError>
    ensures { IfOk result (λ fs. fs ≡ map (λ i. i.form) items.now) }
{
    let mut all = List::new(alloc);
    for item in items {
        all.push(item.form.copied(alloc)?)?;
    }
    Ok(all)
}

/// A field with the forms of its items, or the faults among them.
pub fn field(
    alloc: Global,
    name: &Text,
    items: &[Item<Formed>],
) -> Result<List<Item<FormField>>, AllocError>
    ensures { IfOk result (λ xs. xs ≡ field_of name.now items.now) }
{
    match settle(alloc, items)? {
        Settled::Values(values) => {
            let forms = forms_of_values(alloc, values.as_slice())?;
            let name = name.copied(alloc)?;
            one(alloc, Item::Value(FormField { name, forms }))
        }
        Settled::Faults(faults) => fault_items(alloc, faults.as_slice()),
    }
}

/// What the subject of a shape is bound to, by the form of its object.
pub fn subject_bound(alloc: Global, form: &Form) -> Result<Bound, AllocError>
    ensures { IfOk result (λ b. b ≡ subject_in form.now) }
{
    match form {
        Form::Value(value) => Ok(Bound::One(value.copied(alloc)?)),
        _ => Ok(Bound::Nothing),
    }
}

/// The root with a number, as the name that it is bound by.
pub fn root_name(alloc: Global, root: Root) -> Name
    ensures { result ≡ name_of_root root }
{
    Name::Prefix(Path {
        root,
        steps: List::new(alloc),
    })
}

/// A value with each of several forms.
pub fn with_value(
    alloc: Global,
    value: &Val,
    forms: &[Item<Form>],
) -> Result<List<Item<Formed>>, AllocError>
    ensures { IfOk result (λ xs. xs ≡ with_forms value.now forms.now) }
{
    let mut all = List::new(alloc);
    for item in forms {
        let formed = match item {
            Item::Value(form) => Item::Value(Formed {
                value: value.copied(alloc)?,
                form: form.copied(alloc)?,
            }),
            Item::Fault(fault) => Item::Fault(*fault),
        };
        all.push(formed)?;
    }
    Ok(all)
}
