//! The top call: from the words of a command line to the bytes of the answer.
//! Takes the words, a shelf of documents, two sinks and a gate; gives how the run ended, with the answer put to one sink or
//! one line to the other.
//! Contract: `run_words`: `headline` says what each end means, `exact` that each cause has its end unless memory or a document
//! failed; `one_due`: for a task at most one thing is due; `accepted_objects_fit`: data that are accepted fit their schema.
//! Seen by `edgeql_cli`.
#![tactic(auto)]

mod answers;
mod args;
mod data;
mod deliver;
mod document;
mod laws;
mod modes;
mod outcome;
mod query;
mod reading;
mod run;
mod schema;
#[cfg(test)]
mod tests;

pub use laws::{
    accepted_objects_fit, each_decision, one_decision, one_due, one_query, one_verdict,
    something_is_due,
};
pub use outcome::{Chan, Doc, Outcome, QueryRefusal, SchemaRefusal, UsageRule, memory_line};
pub use run::run_words;
