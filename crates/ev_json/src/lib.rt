//! From nested forms to the JSON text of an answer.
//! Takes the form of an answer (`Nested`); gives its bytes, compact, with the keys of an object in byte order.
//! Contract: `text` gives exactly `json_text` of the form, unless memory runs out.
//! Seen by `edge_run`.
#![tactic(auto)]

mod print;
#[cfg(test)]
mod tests;
mod values;

pub use print::text;
