//! Types.
ghost use Rattle.std.specs.Prelude.{◌≡◌, IfOk};

use ev_value::{Boxed, List, ScalarTy};
use std::alloc::{AllocError, Global};

/// The type of a cell.
#[derive(Drop)]
pub enum SqlTy {
    /// `INT`, `TEXT`, `BOOL` or `UUID`.
    Scalar(ScalarTy),
    /// `ROW(first, ..)`
    Row(List<SqlTy>),
    /// `ARRAY(element)`
    Array(Boxed<SqlTy>),
}

impl SqlTy {
    /// The same type, in memory of its own.
    #[cycle(copy)]
    pub fn copied(&self, alloc: Global) -> Result<SqlTy, AllocError>
        ensures { IfOk result (λ t. t ≡ self.now) }
    {
        match self {
            SqlTy::Scalar(scalar) => Ok(SqlTy::Scalar(*scalar)),
            SqlTy::Row(parts) => Ok(SqlTy::Row(copied_types(alloc, parts.as_slice())?)),
            SqlTy::Array(element) => {
                let element = element.get().copied(alloc)?;
                Ok(SqlTy::Array(Boxed::new(alloc, element)?))
            }
        }
    }
}

/// The same types, in memory of their own.
#[cycle(copy)]
fn copied_types(alloc: Global, types: &[SqlTy]) -> Result<List<SqlTy>, AllocError>
    ensures { IfOk result (λ ts. ts ≡ types.now) }
{
    let mut copies = List::new(alloc);
    for ty in types {
        copies.push(ty.copied(alloc)?)?;
    }
    Ok(copies)
}
