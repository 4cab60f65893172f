//! What a schema says: its types, their pointers, its globals and the rules that cut what a caller sees.
//! Takes the parts of a schema; gives a `Schema`, and answers about its types, pointers and rules.
//! Contract: each call answers exactly by `specs/Types`, `Named`, `Pointers` and `Policies`; the parts are as they were given,
//! but for the bounds of a computed pointer, which come with its expression (`computed_is_bounded`).
//! Seen by `schema_build`, by the crates of data and of worlds, by `eql_forms`, `sql_encode` and `edge_run`.
#![tactic(auto)]

mod laws;
mod named;
mod pointer;
mod policy;
mod rules;
mod schema;
mod steps;
mod types;

pub use laws::{computed_is_bounded, made_is_numbered};
pub use pointer::{Body, Computed, Limit, LinkProperty, PtrInfo};
pub use policy::{Policy, PolicyKind};
pub use schema::Schema;
pub use types::{GlobalInfo, TypeInfo};
