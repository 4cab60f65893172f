//! Texts of SQL with what they answer over the tables of a schema and of its objects.
//! Takes nothing and gives nothing: a table of texts, each read by `sql_parse` and run by `sql_exec` over what `sql_encode`
//! makes of a text of data.
//! Contract: none; it tests that these texts come to these answers.
//! No crate stands on it.
#![tactic(auto)]

#[cfg(test)]
mod tests;
