//! What access rules come to.

use core_ir::TypeId;

/// What a rule comes to where it is brought in, with the type that declares it.
#[derive(Drop)]
pub struct Ruling<S> {
    pub origin: TypeId,
    pub size: S,
}
