//! Builders of the trees that are read, one for each form, with its places and its height.
//! Takes the parts that were read; gives the tree of their form, with the places of its parts and its height.
//! Contract: one function for each definition of `specs/Trees` of `sql_grammar`, which gives exactly that, unless memory
//! runs out.
//! Seen by `sql_read`.
#![tactic(auto)]

mod cores;
mod expressions;
mod held;
mod items;
mod operators;
mod types;

pub use cores::{
    added_column, added_core, first_column, first_core, select_of, with_condition, with_item,
    with_key, with_limit, with_offset,
};
pub use expressions::{
    added, alone, argument, array, call, case_of, cast, column, global, grouped, nothing_yet,
    null_of, part, row, uuid,
};
pub use held::discard;
pub use items::{key_of, lateral_item, left_item, named_column, table_item, unnest_item};
pub use operators::{null_test, operated, prefixed};
pub use types::{above, added_type, array_ty, first_type, no_types, row_ty, scalar_ty, too_high};
