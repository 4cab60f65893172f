//! What a table holds.

use core_ir::{PtrId, TypeId};

/// What a table holds.
#[derive(Clone, Copy, Debug, PartialEq, Eq)]
pub enum Source {
    /// The objects of a type and of those that extend it.
    Type(TypeId),
    /// The values of a pointer that may have many.
    Pointer(PtrId),
}
