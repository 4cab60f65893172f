//! Schema texts with what comes of them: the rule that they break first and its byte, or how much their schema holds.
//! Takes nothing and gives nothing: a table of texts, each read and built by `sdl_parse` and `schema_build`.
//! Contract: none; it tests what no clause says, that these texts from outside come to these answers.
//! No crate stands on it.
#![tactic(auto)]

#[cfg(test)]
mod asked;
#[cfg(test)]
mod tests;
