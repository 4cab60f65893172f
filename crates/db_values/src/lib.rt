//! The rules on what one object has for its pointers, X3 and X6 to X12, and the object that a draft writes.
//! Takes a schema, the ids and types of all objects, and one draft with its type; gives its flaw, if it has one, or the object.
//! Contract: `object_flaw` gives exactly the first rule that fails at the least name, and `object_of` exactly the object that
//! is written, unless memory runs out.
//! Seen by `db_check`.
#![tactic(auto)]

mod elements;
mod flaw;
mod limits;
mod links;
mod names;
mod object;
mod order;
mod properties;
#[cfg(test)]
mod tests;

pub use flaw::Flaw;
pub use limits::meets;
pub use names::object_flaw;
pub use object::object_of;
