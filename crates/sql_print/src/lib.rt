//! Printing a statement of SQL: its tokens, form by form, and their text.
//! Takes a statement; gives its text, with keywords in capitals and parentheses where the levels ask for them.
//! Contract: `print` gives exactly the text of `tokens_of`, unless memory runs out; `text_is_read_back`: the text of tokens
//! that can be written is cut into these tokens again.
//! Seen by `sql_spell` and `sql_parse`.
#![tactic(auto)]

mod laws;
mod layout;
mod marks;
mod statement;
mod tokens;

pub use laws::text_is_read_back;
pub use statement::print;
