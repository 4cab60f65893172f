//! The rules on objects as a whole, X3 to X13 in their order, and the store of objects that break none.
//! Takes a schema and drafts; gives the `Store`, in order of id, or the rule that is told with its objects.
//! Contract: `check` gives exactly `checked`, unless memory runs out; `stores_fit`: the objects of a store over a well-formed
//! schema fit it; `Store::find` and `Store::extent` give exactly the object of an id and the objects of a type.
//! Seen by `db_load`, `schema_laws` and `edge_run`.
#![tactic(auto)]

mod checking;
mod exclusive;
mod extent;
mod holders;
mod laws;
mod made;
mod store;

pub use checking::check;
pub use laws::{
    exclusive_values_stand_once, stores_fit, stores_keep_places, stores_stand_in_order,
};
pub use store::Store;
