//! Reading the text of a SQL statement: the tree that it spells, with the places of its parts.
//! Takes the bytes of a text; gives the statement with its places, or `Q1`.
//! Contract: `read_text` gives exactly the statement that the text spells within the limits, and `Q1` exactly where it
//! spells none, unless memory runs out.
//! Seen by `sql_parse`.
#![tactic(auto)]

mod forms;
mod grammar;
mod items;
mod levels;
mod part;
mod read;
mod selects;
mod text;
mod types;

pub use text::{TextRefusal, read_text};
