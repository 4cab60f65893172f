//! SQL statements over a catalog, read from their texts and printed as texts that are read back.
//! Takes the bytes of a text and a catalog; gives the statement, or `Q1`, or `Q2` or `Q3` with a byte.
//! Contract: `parse_sql` gives exactly the well-formed statement that the text spells; `Q1` comes where it spells none, `Q2`
//! and `Q3` with the least byte at which a name, or else a type, fails; a well-formed statement is read back from its printed
//! text. Want of memory may come in place of each.
//! Seen by `trial_exec`; no mode uses it yet.
#![tactic(auto)]

mod parse;
mod read_back;
mod reprint;
#[cfg(test)]
mod reprint_tests;
#[cfg(test)]
mod tests;

pub use parse::{SqlRefusal, parse_sql};
pub use read_back::{printed_form_is_read_back, printed_is_read_back};
pub use reprint::reprinted;
