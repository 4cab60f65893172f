//! Types of expressions.

ghost use Rattle.std.specs.Prelude.{◌≡◌, IfOk};

use crate::path::TypeId;
use ev_value::{List, ScalarTy};
use std::alloc::{AllocError, Global};

/// The type of an expression's items.
#[derive(Drop)]
pub enum Ty {
    Scalar(ScalarTy),
    /// Objects of a type or of one that extends it.
    Object(TypeId),
    Tuple(List<Ty>),
    /// Arrays of values of one scalar type.
    Array(ScalarTy),
}

impl Ty {
    /// The same type, in memory of its own.
    #[cycle(copy)]
    pub fn copied(&self, alloc: Global) -> Result<Ty, AllocError>
        ensures { IfOk result (λ t. t ≡ self.now) }
    {
        match self {
            Ty::Scalar(ty) => Ok(Ty::Scalar(*ty)),
            Ty::Object(ty) => Ok(Ty::Object(*ty)),
            Ty::Tuple(parts) => Ok(Ty::Tuple(copied_types(alloc, parts.as_slice())?)),
            Ty::Array(ty) => Ok(Ty::Array(*ty)),
        }
    }
}

/// The same types, in memory of their own.
#[cycle(copy)]
pub fn copied_types(alloc: Global, types: &[Ty]) -> Result<List<Ty>, AllocError>
    ensures { IfOk result (λ ts. ts ≡ types.now) }
{
    let mut copies = List::new(alloc);
    for ty in types {
        copies.push(ty.copied(alloc)?)?;
    }
    Ok(copies)
}
