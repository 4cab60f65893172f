//! Objects and what is stored of them.
ghost use Rattle.std.specs.Prelude.{◌≡◌};
ghost use Rattle.std.specs.Option.{option_copied};
ghost use Rattle.db_store.specs.Objects.{find as find_in, object_of as object_of_value, entry as entry_in, values_at, targets_at};

use core_ir::{PtrId, TypeId};
use ev_value::{List, Text, Val};

/// The value of a link's property.
#[derive(Drop)]
pub struct LinkValue {
    pub name: Text,
    pub value: Val,
}

/// An object that a link leads to, with the link's properties in byte order of their names.
#[derive(Drop)]
pub struct Target {
    pub id: u128,
    pub properties: List<LinkValue>,
}

/// What is stored of a pointer.
#[derive(Drop)]
pub enum PtrValue {
    /// The values of a property, in their order.
    Vals(List<Val>),
    /// The targets of a link, in order of id.
    Links(List<Target>),
}

/// A pointer of an object and what is stored of it.
#[derive(Drop)]
pub struct Entry {
    pub pointer: PtrId,
    pub value: PtrValue,
}

/// An object. Its id is the number that the sixteen bytes of the uuid write from the highest byte down (RFC 9562,
/// section 4). Each stored pointer but `id` that is not empty has one entry, in byte order of the pointers' names.
#[derive(Drop)]
pub struct Object {
    pub id: u128,
    pub ty: TypeId,
    pub values: List<Entry>,
}

/// The object with an id. None where there is none.
pub fn find(objects: &[Object], id: u128) -> Option<&Object>
    ensures { option_copied result ≡ find_in objects.now id }
{
    for object in objects {
        if object.id == id {
            return Some(object);
        }
    }
    None
}

/// The object that a value is. None where it is no object, or no such object is there.
pub fn object_of<'a>(objects: &'a [Object], value: &Val) -> Option<&'a Object>
    ensures { option_copied result ≡ object_of_value objects.now value.now }
{
    match value {
        Val::Obj(id) => find(objects, *id),
        Val::Int(_) | Val::Str(_) | Val::Bool(_) | Val::Id(_) => None,
        Val::Tuple(_) => None,
        Val::Array(_) => None,
    }
}

impl Object {
    /// What is stored of a pointer. None where it is empty.
    pub fn entry(&self, pointer: PtrId) -> Option<&PtrValue>
        ensures { option_copied result ≡ entry_in self.now.values pointer }
    {
        for entry in self.values.as_slice() {
            if entry.pointer.0 == pointer.0 {
                return Some(&entry.value);
            }
        }
        None
    }

    /// The values of a property, in their order.
    pub fn values(&self, pointer: PtrId) -> &[Val]
        ensures { result.now ≡ values_at self.now pointer }
    {
        match self.entry(pointer) {
            Some(PtrValue::Vals(values)) => values.as_slice(),
            Some(PtrValue::Links(_)) | None => &[],
        }
    }

    /// The targets of a link, in order of id.
    pub fn targets(&self, pointer: PtrId) -> &[Target]
        ensures { result.now ≡ targets_at self.now pointer }
    {
        match self.entry(pointer) {
            Some(PtrValue::Links(targets)) => targets.as_slice(),
            Some(PtrValue::Vals(_)) | None => &[],
        }
    }
}
