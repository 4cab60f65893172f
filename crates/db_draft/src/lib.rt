//! Objects as a document writes them, before any rule is tried, and the names of the rules on data.
//! Takes drafts, and a scalar type or a name; gives the value or the uuid that a draft writes, or what stands under a name.
//! Contract: `value_of`, `element_value` and `id_in` give exactly what is written, or nothing where none is; `specs/First` and
//! `specs/Told` say which failure is told first.
//! Seen by `db_ids`, `db_values`, `db_check`, `db_load`, `schema_laws` and `edge_run`.
#![tactic(auto)]

mod draft;
mod members;
mod refusal;
mod values;

pub use draft::{Draft, Element, Field, Member, ObjectDraft, Plain};
pub use members::{field, member};
pub use refusal::{Broken, DataRefusal, Rule};
pub use values::{element_value, id_in, id_written, value_of};
