//! What a query means: the list of its items over a world of objects, each with its nested form. Beside the definitions
//! stand the plain functions over lists that a program of the meaning is made of.
//! Takes lists of items, names with what they stand for, and the trait `World`; gives lists of items.
//! Contract: each function gives exactly its definition; the meaning itself (`specs/Meaning`, `specs/Parts`) is a definition,
//! which `eql_eval` computes.
//! Seen by `eql_eval`, `eql_holds`, `eql_world` and `edge_run`.
#![tactic(auto)]

mod binding;
mod copies;
mod form;
mod item;
mod laws;
mod nested;
mod operation;
mod path_list;
mod row;
mod world;

pub use binding::{Bound, Name, copied_bounds, given, listed, pick, with_bound, with_name};
pub use copies::Copies;
pub use form::{Form, FormField, Formed};
pub use item::{Settled, bare, dress, fault_items, one, settle, strip};
pub use laws::{packed_is_unpacked, tuples_have_their_components_forms};
pub use nested::{field, forms_of, root_name, shapes, subject_bound, tuples, with_value};
pub use operation::{
    arrayed, cast_to, chosen, coalesced, gathered, in_set, of_set, operated, optional_equal,
    tupled, unpacked,
};
pub use path_list::{
    add_turns, copied_names, from_bound, last_property, nearest, prefixes_of_scope,
    prefixes_of_statement, property_of_path, turns, walk, within,
};
pub use row::{Range, Row, cut_rows, first_of, is_cut, keyed_rows, orders_of, plain_rows, ranges};
pub use world::World;
