//! Schemas by their names: what a schema says of a name, without a look at all of its types and pointers.
//! Takes a schema, and then names; gives the type, the global, the pointer or the expression that the schema has for them.
//! Contract: `Index` stands for its schema, and each look-up gives what the schema itself would (`specs/Globals` for globals).
//! It is made in n log n for n types, listed pointers, globals and expressions; a look-up takes log n.
//! Seen by `eql_naming` and `type_rules`.
#![tactic(auto)]

mod by_name;
mod globals;
mod index;
mod places;
mod pointers;
#[cfg(test)]
mod tests;
mod types;

pub use index::Index;
