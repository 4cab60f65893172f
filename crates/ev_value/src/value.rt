//! Values: what a query computes with.
ghost use Rattle.std.specs.Prelude.{◌≡◌, IfOk};

use crate::text::Text;
use sqlite_items::Items;
use std::alloc::{AllocError, Global};

/// A scalar type of the schema language, as the EdgeDB documentation's page on primitive types names them:
/// `int64`, `str`, `bool` and `uuid`.
#[derive(Clone, Copy, PartialEq, Eq)]
pub enum ScalarTy {
    Int64,
    Str,
    Bool,
    Uuid,
}

/// A value. There is no null: what is absent is an empty list of items.
#[derive(Drop)]
pub enum Val {
    Int(i64),
    Str(Text),
    Bool(bool),
    /// A uuid, as the number that its sixteen bytes write from the highest byte down (RFC 9562, section 4).
    Id(u128),
    /// An object, by its id in the same form.
    Obj(u128),
    Tuple(Items<Val>),
    /// Values of one scalar type.
    Array(Items<Val>),
}

impl Val {
    /// The same value, in memory of its own.
    #[cycle(copy)]
    pub fn copied(&self, alloc: Global) -> Result<Val, AllocError>
        ensures { IfOk result (λ v. v ≡ self.now) }
    {
        match self {
            Val::Int(number) => Ok(Val::Int(*number)),
            Val::Str(text) => Ok(Val::Str(text.copied(alloc)?)),
            Val::Bool(truth) => Ok(Val::Bool(*truth)),
            Val::Id(id) => Ok(Val::Id(*id)),
            Val::Obj(id) => Ok(Val::Obj(*id)),
            Val::Tuple(parts) => Ok(Val::Tuple(copied_values(alloc, parts.as_slice())?)),
            Val::Array(elements) => Ok(Val::Array(copied_values(alloc, elements.as_slice())?)),
        }
    }
}

/// The same values, in memory of their own.
#[cycle(copy)]
pub fn copied_values(alloc: Global, values: &[Val]) -> Result<Items<Val>, AllocError>
    ensures { IfOk result (λ vs. vs ≡ values.now) }
{
    let mut copies = Items::new(alloc);
    for value in values {
        copies.push(value.copied(alloc)?)?;
    }
    Ok(copies)
}
