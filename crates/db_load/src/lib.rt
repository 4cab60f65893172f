//! Loading data and arguments: a JSON text becomes a store, or the values of globals and parameters.
//! Takes a schema and the bytes of a text; gives the store or the arguments, or the rule that is told first.
//! Contract: `load` gives exactly the store that the text writes, or exactly the rule of X1 to X13 with its objects, and
//! `load_args` likewise with A1 to A4, unless memory runs out; `loaded_objects_fit`: the objects fit the schema.
//! Seen by `edge_run` and the trials.
#![tactic(auto)]

mod argument_names;
mod argument_values;
mod arguments;
mod data;
mod document;
mod drafts;
mod laws;
mod refusal;
mod sections;
#[cfg(test)]
mod tests;
mod text;

pub use arguments::load_args;
pub use data::load;
pub use laws::{each_text_is_loaded, loaded_objects_fit};
pub use refusal::{ArgsRefusal, ArgsRule, BrokenArgs};
