//! Types and kinds that agree: the type that the rules give a tree is its kind by the rules of types, so what the tree gives
//! over a store has that type. It has no code that runs.
//! Takes a tree with its types by the cases of `type_infer`; gives that the tree as a scope has its type as its kind.
//! Contract: `types_are_kinds` and `typed_trees_give_their_types`, under premises of the schema, of the numbers of the tree and
//! of the arguments (`specs/Premises`); `numbers_are_kept`, `inferred_are_typed` and `types_are_kept` lead to
//! these premises.
//! Seen by no crate yet.
#![tactic(auto)]

mod laws;

pub use laws::{
    inferred_are_typed, numbers_are_kept, typed_trees_give_their_types, types_are_kept,
    types_are_kinds,
};
