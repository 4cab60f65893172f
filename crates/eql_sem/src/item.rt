//! Lists of items.
ghost use Rattle.std.specs.Prelude.{◌≡◌, ◌∷◌, ◌++◌, [], IfOk, OnOk, Bool, true, false, map};
ghost use Rattle.ev_value.specs.Item.{all_of, only_faults, has_fault, faults, values};
ghost use Rattle.eql_sem.specs.Forms.{strip as strip_items, dress as dress_items, bare as bare_item, form_of as form_in};
ghost use Rattle.eql_sem.specs.Items.{IsSettled};

use crate::copies::Copies;
use crate::form::{Form, Formed};
use ev_value::{Fault, Item, List, Val};
use std::alloc::{AllocError, Global};

/// Values alone.
pub fn all_values<T: Copies>(alloc: Global, values: &[T]) -> Result<List<Item<T>>, AllocError>
    ensures { IfOk result (λ xs. xs ≡ all_of values.now) }
{
    let mut all = List::new(alloc);
    for value in values {
        all.push(Item::Value(value.copied_in(alloc)?))?;
    }
    Ok(all)
}

/// One item alone.
pub fn one<T: Drop>(alloc: Global, item: Item<T>) -> Result<List<Item<T>>, AllocError>
    ensures { IfOk result (λ xs. xs ≡ item ∷ []) }
{
    let mut all = List::new(alloc);
    all.push(item)?;
    Ok(all)
}

/// Faults alone, as items of any kind.
pub fn fault_items<T: Drop>(alloc: Global, faults: &[Fault]) -> Result<List<Item<T>>, AllocError>
    ensures { IfOk result (λ xs. xs ≡ only_faults faults.now) }
{
    let mut all = List::new(alloc);
    for fault in faults {
        all.push(Item::Fault(*fault))?;
    }
    Ok(all)
}

/// What a list of items comes to where all of it is looked at together.
#[derive(Drop)]
pub enum Settled<T> {
    /// The values of a list without faults.
    Values(List<T>),
    /// The faults of a list that has some.
    Faults(List<Fault>),
}

/// Whether a fault stands in the list.
pub fn any_fault<T>(items: &[Item<T>]) -> bool
    ensures { result ≡ has_fault items.now }
{
    for item in items {
        if let Item::Fault(_) = item {
            return true;
        }
    }
    false
}

/// The faults of a list, in their order.
pub fn faults_among<T>(alloc: Global, items: &[Item<T>]) -> Result<List<Fault>, AllocError>
    ensures { IfOk result (λ es. es ≡ faults items.now) }
{
    let mut all = List::new(alloc);
    for item in items {
        if let Item::Fault(fault) = item {
            all.push(*fault)?;
        }
    }
    Ok(all)
}

fn values_among<T: Copies>(alloc: Global, items: &[Item<T>]) -> Result<List<T>, AllocError>
    ensures { IfOk result (λ vs. vs ≡ values items.now) }
{
    let mut all = List::new(alloc);
    for item in items {
        if let Item::Value(value) = item {
            all.push(value.copied_in(alloc)?)?;
        }
    }
    Ok(all)
}

/// The faults of a list where it has some, and else its values.
pub fn settle<T: Copies>(alloc: Global, items: &[Item<T>]) -> Result<Settled<T>, AllocError>
    ensures { IfOk result (λ s. IsSettled s items.now) }
{
    if any_fault(items) {
        Ok(Settled::Faults(faults_among(alloc, items)?))
    } else {
        Ok(Settled::Values(values_among(alloc, items)?))
    }
}

/// Items without their forms.
pub fn strip(alloc: Global, items: &[Item<Formed>]) -> Result<List<Item>, AllocError>
    ensures { IfOk result (λ xs. xs ≡ strip_items items.now) }
{
    let mut all = List::new(alloc);
    for item in items {
        let value = match item {
            Item::Value(formed) => Item::Value(formed.value.copied(alloc)?),
            Item::Fault(fault) => Item::Fault(*fault),
        };
        all.push(value)?;
    }
    Ok(all)
}

/// Items with their values' own forms.
pub fn dress(alloc: Global, items: &[Item]) -> Result<List<Item<Formed>>, AllocError>
    ensures { IfOk result (λ xs. xs ≡ dress_items items.now) }
{
    let mut all = List::new(alloc);
    for item in items {
        let formed = match item {
            Item::Value(value) => Item::Value(bare(alloc, value)?),
            Item::Fault(fault) => Item::Fault(*fault),
        };
        all.push(formed)?;
    }
    Ok(all)
}

/// The form of a value: of a tuple the forms of its components, of any other the value itself.
#[cycle(form)]
#[tactic(auto, using(crate::proofs::ValueForms::form_of_each))]
fn form_of(alloc: Global, value: &Val) -> Result<Form, AllocError>
    ensures { IfOk result (λ f. f ≡ form_in value.now) }
{
    match value {
        Val::Tuple(parts) => Ok(Form::Tuple(forms_of_parts(alloc, parts.as_slice())?)),
        Val::Int(_) => Ok(Form::Value(value.copied(alloc)?)),
        Val::Str(_) => Ok(Form::Value(value.copied(alloc)?)),
        Val::Bool(_) => Ok(Form::Value(value.copied(alloc)?)),
        Val::Id(_) => Ok(Form::Value(value.copied(alloc)?)),
        Val::Obj(_) => Ok(Form::Value(value.copied(alloc)?)),
        Val::Array(_) => Ok(Form::Value(value.copied(alloc)?)),
    }
}

// The forms of a tuple's components.
#[cycle(form)]
fn forms_of_parts(alloc: Global, parts: &[Val]) -> Result<List<Form>, AllocError>
    ensures { IfOk result (λ fs. fs ≡ map form_in parts.now) }
{
    let mut all = List::new(alloc);
    for part in parts {
        all.push(form_of(alloc, part)?)?;
    }
    Ok(all)
}

/// A value with its own form.
pub fn bare(alloc: Global, value: &Val) -> Result<Formed, AllocError>
    ensures { IfOk result (λ x. x ≡ bare_item value.now) }
{
    Ok(Formed {
        value: value.copied(alloc)?,
        form: form_of(alloc, value)?,
    })
}

/// The same items, in memory of their own.
pub fn copied_items(alloc: Global, items: &[Item]) -> Result<List<Item>, AllocError>
    ensures { IfOk result (λ xs. xs ≡ items.now) }
{
    let mut all = List::new(alloc);
    for item in items {
        let copy = match item {
            Item::Value(value) => Item::Value(value.copied(alloc)?),
            Item::Fault(fault) => Item::Fault(*fault),
        };
        all.push(copy)?;
    }
    Ok(all)
}
