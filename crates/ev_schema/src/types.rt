//! Object types and globals.

use core_ir::{PtrId, TypeId};
use ev_value::{List, ScalarTy, Text};

/// A global, which a caller may give a value (the EdgeDB documentation's page on globals).
#[derive(Drop)]
pub struct GlobalInfo {
    pub name: Text,
    pub ty: ScalarTy,
}

/// An object type (the EdgeDB documentation's page on object types).
#[derive(Drop)]
pub struct TypeInfo {
    pub name: Text,
    /// Whether no object is of this type itself.
    pub is_abstract: bool,
    /// The types that this one extends, at any distance.
    pub ancestors: List<TypeId>,
    /// Its pointers and those of its ancestors, each once. `id`, which every type has, is not listed.
    pub pointers: List<PtrId>,
}
