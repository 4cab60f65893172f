//! Laws of schemas that are built from their texts. It has no code that runs.
//! Takes what `schema_build` promises of a schema and `db_check` asks of one; gives that the first has the second.
//! Contract: `built_schemas_are_well_formed`: each schema of a text is well formed; `stores_of_texts_fit`: so the objects of
//! each store over it fit it (`Fits` of `db_store`).
//! Seen by the proofs of `edge_run`.
#![tactic(auto)]

mod laws;

pub use laws::{built_schemas_are_well_formed, empty_schema_is_well_formed, stores_of_texts_fit};
