//! The tables of a schema and of its objects: a table for each type, and one for each pointer with many values.
//! Takes a schema, and objects in order of id; gives the catalog, and the tables with their rows.
//! Contract: `catalog_of` gives exactly the catalog of the schema, and `encode` exactly that catalog with exactly the rows of
//! the objects (`specs/Sources`, `specs/Rows`), unless memory runs out.
//! Seen by `trial_exec`; no mode uses it yet.
#![tactic(auto)]

mod catalog;
mod cells;
mod encoding;
mod source;
mod sources;

pub use catalog::catalog_of;
pub use encoding::encode;
pub use source::Source;
