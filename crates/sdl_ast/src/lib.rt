//! The surface trees of the schema language: what its grammar reads from tokens, before any name is looked up.
//! Takes nothing: the parser makes the trees; gives them with the bytes of each declaration, member and item.
//! Contract: `span` of each is exactly its bytes, from its first word to its `;` or `}`.
//! Seen by `sdl_grammar`, `sdl_parse`, `schema_build`, `schema_laws` and `edge_run`.
//!
//! One variant per production, and names with bytes of their own, so that each rule of a schema can tell its place. Whether
//! an argument or a default is a literal is such a rule: the trees keep the expression. They stand in a crate of their own,
//! beside `ast`, so that the parser of queries need not be proved again where they change.
#![tactic(auto)]

mod declaration;
mod item;
mod member;

pub use declaration::{Decl, FilePart, GlobalDecl, Module, SdlFile, TypeDecl};
pub use item::{Constraint, Deletion, DeletionWord, Item, LinkProperty};
pub use member::{
    Action, Annotation, Member, Pointer, PointerBody, PointerKind, Policy, PolicyKind, PolicyKinds,
};
