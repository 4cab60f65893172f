//! Objects: what is stored of each, and when a list of them fits a schema.
//! Takes objects and an id, a value or a pointer; gives the object, or what is stored of it.
//! Contract: `find`, `object_of`, `values` and `targets` give exactly what is stored; `specs/Fits` says when objects fit.
//! Seen by `db_values`, `db_check`, `db_load`, `schema_laws`, `eql_steps`, `eql_world`, `sql_encode` and `edge_run`.
#![tactic(auto)]

mod object;

pub use object::{Entry, LinkValue, Object, PtrValue, Target, find, object_of};
