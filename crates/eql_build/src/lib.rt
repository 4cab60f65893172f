//! The trees of what the grammar of queries reads, with their places and heights.
//! Takes the parts that were read; gives the tree of their production, with its bytes and its height.
//! Contract: one function for each definition of `specs/Trees` of `eql_grammar`, which gives exactly that, unless memory
//! runs out.
//! Seen by `eql_parse` and `sdl_parse`.
#![tactic(auto)]

mod brackets;
mod clauses;
mod held;
mod leaves;
mod nests;
mod operators;
mod postfixes;
mod shapes;
mod statements;

pub use brackets::{added, alone, call, grouped, nothing_yet, set, stated, tuple};
pub use clauses::{filtered, keyed, limited, no_clauses, offset_by, ordered, upward};
pub use held::discard;
pub use leaves::{
    global_named, leaf, named, parameter, partial_back_link, partial_property, partial_step,
    too_high,
};
pub use nests::{query_of, statement_height, statement_of};
pub use operators::{cast, chosen, chosen_then, operated, prefixed};
pub use postfixes::{back_link, dot, is_type, property, stepped, with_shape};
pub use shapes::{
    added_element, both_words, computed, double_splat, first_element, link_property, nested,
    pointer, shape, splat,
};
pub use statements::{
    added_alias, alias_of, first_alias, headed, no_aliases, outermost, selected, within_head,
};
