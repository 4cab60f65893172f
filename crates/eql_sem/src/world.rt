//! What a query is asked over.
ghost use Rattle.std.specs.Prelude.{◌≡◌, IfOk};
ghost use Rattle.ev_value.specs.Item.{all_of};
ghost use Rattle.eql_sem.specs.Operations.{optional};
ghost use Rattle.eql_sem.specs.World.{World as Meant};

use core_ir::{PtrId, Step, TypeId};
use ev_value::{Item, List, Text, Val};
use std::alloc::{AllocError, Global};

/// Objects, where steps lead, and the caller's arguments. Everything that a query can see of its surroundings is told
/// by these calls.
pub trait World {
    ghost means: { Self → Meant };

    /// The objects of a type and of those that extend it, in order of id.
    fn extent(&self, alloc: Global, ty: TypeId) -> Result<List<Item>, AllocError>
        ensures { IfOk result (λ xs. xs ≡ all_of ((means self.now).extent ty)) };

    /// What a step gives for a list of items.
    fn step(&self, alloc: Global, step: &Step, from: List<Item>) -> Result<List<Item>, AllocError>
        ensures { IfOk result (λ xs. xs ≡ (means self.now).step step.now from) };

    /// The values of a link's property between a source and a target.
    fn link_property(
        &self,
        alloc: Global,
        link: PtrId,
        name: &Text,
        source: &Val,
        target: &Val,
    ) -> Result<List<Item>, AllocError>
        ensures { IfOk result (λ xs. xs ≡ all_of ((means self.now).link_property link name.now source.now target.now)) };

    /// The argument of a parameter, if there is one, as a list.
    fn param(&self, alloc: Global, name: &Text) -> Result<List<Item>, AllocError>
        ensures { IfOk result (λ xs. xs ≡ optional ((means self.now).param name.now)) };

    /// The argument of a global, if there is one, as a list.
    fn global(&self, alloc: Global, name: &Text) -> Result<List<Item>, AllocError>
        ensures { IfOk result (λ xs. xs ≡ optional ((means self.now).global name.now)) };
}
