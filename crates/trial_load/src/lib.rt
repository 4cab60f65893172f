//! Texts of data with what comes of them: the rule that is told and its objects, or how much the store holds.
//! Takes nothing and gives nothing: a table of texts, each loaded by `db_load` over a schema that is built from its text.
//! Contract: none; it tests what no clause says, that these texts from outside come to these answers.
//! No crate stands on it.
#![tactic(auto)]

#[cfg(test)]
mod tests;
