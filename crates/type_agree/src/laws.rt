//! Laws, each as the contract of a function that does nothing.
ghost use Rattle.type_agree.specs.Computed.{InferredAreTyped};
ghost use Rattle.type_agree.specs.Growth.{TypesAreKept};
ghost use Rattle.type_agree.specs.Law.{TypedTreesGiveTheirTypes, TypesAreKinds};
ghost use Rattle.type_agree.specs.Numbers.{NumbersAreKept};

/// A tree with types has the type of its items as its kind.
#[tactic(auto, using(crate::proofs::Trees::types_are_kinds))]
pub fn types_are_kinds()
    ensures { TypesAreKinds }
{}

/// What a tree with types gives over objects that fit has its type.
#[tactic(auto, using(crate::proofs::Trees::typed_trees_give_their_types))]
pub fn typed_trees_give_their_types()
    ensures { TypedTreesGiveTheirTypes }
{}

/// A tree keeps its numbers as it gets its types; where each stands once, it has one type.
#[tactic(auto, using(crate::proofs::Numbers::numbers_are_kept))]
pub fn numbers_are_kept()
    ensures { NumbersAreKept }
{}

/// Computed pointers whose expressions have their types over the schema are typed there.
#[tactic(auto, using(crate::proofs::ComputedLaws::inferred_are_typed))]
pub fn inferred_are_typed()
    ensures { InferredAreTyped }
{}

/// What has types over a schema keeps them once one more expression is known.
#[tactic(auto, using(crate::proofs::GrowthLaws::types_are_kept))]
pub fn types_are_kept()
    ensures { TypesAreKept }
{}
