//! Copies in memory of their own.
ghost use Rattle.std.specs.Prelude.{◌≡◌, IfOk};

use crate::form::{Form, FormField, Formed};
use ev_value::{Item, List, Val};
use std::alloc::{AllocError, Global};

/// What can be copied so that the copy equals it.
pub trait Copies: Drop {
    fn copied_in(&self, alloc: Global) -> Result<Self, AllocError>
        ensures { IfOk result (λ x. x ≡ self.now) };
}

impl Copies for Val {
    fn copied_in(&self, alloc: Global) -> Result<Val, AllocError> {
        self.copied(alloc)
    }
}

impl Copies for Formed {
    fn copied_in(&self, alloc: Global) -> Result<Formed, AllocError> {
        Ok(Formed {
            value: self.value.copied(alloc)?,
            form: self.form.copied(alloc)?,
        })
    }
}

impl Copies for Form {
    fn copied_in(&self, alloc: Global) -> Result<Form, AllocError> {
        self.copied(alloc)
    }
}

impl Copies for FormField {
    fn copied_in(&self, alloc: Global) -> Result<FormField, AllocError> {
        let name = self.name.copied(alloc)?;
        let forms = copied_forms(alloc, self.forms.as_slice())?;
        Ok(FormField { name, forms })
    }
}

impl<T: Copies> Copies for List<T> {
    fn copied_in(&self, alloc: Global) -> Result<List<T>, AllocError> {
        let mut copies = List::new(alloc);
        for item in self.as_slice() {
            copies.push(item.copied_in(alloc)?)?;
        }
        Ok(copies)
    }
}

impl Form {
    /// The same form, in memory of its own.
    #[cycle(copy)]
    pub fn copied(&self, alloc: Global) -> Result<Form, AllocError>
        ensures { IfOk result (λ f. f ≡ self.now) }
    {
        match self {
            Form::Value(value) => Ok(Form::Value(value.copied(alloc)?)),
            Form::Tuple(forms) => Ok(Form::Tuple(copied_forms(alloc, forms.as_slice())?)),
            Form::Shape(fields) => Ok(Form::Shape(copied_fields(alloc, fields.as_slice())?)),
        }
    }
}

#[cycle(copy)]
fn copied_forms(alloc: Global, forms: &[Form]) -> Result<List<Form>, AllocError>
    ensures { IfOk result (λ fs. fs ≡ forms.now) }
{
    let mut copies = List::new(alloc);
    for form in forms {
        copies.push(form.copied(alloc)?)?;
    }
    Ok(copies)
}

#[cycle(copy)]
fn copied_fields(alloc: Global, fields: &[FormField]) -> Result<List<FormField>, AllocError>
    ensures { IfOk result (λ fs. fs ≡ fields.now) }
{
    let mut copies = List::new(alloc);
    for field in fields {
        copies.push(FormField {
            name: field.name.copied(alloc)?,
            forms: copied_forms(alloc, field.forms.as_slice())?,
        })?;
    }
    Ok(copies)
}
