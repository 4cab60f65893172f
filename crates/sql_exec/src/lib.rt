//! Runs statements of SQL over tables, by nested loops.
//! Takes a statement, tables and arguments; gives its rows, or a fault.
//! Contract: `exec` gives exactly the rows of the meaning where it holds no fault, and else a fault that stands there, unless
//! memory runs out.
//! Seen by `trial_exec`; no mode uses it yet.
#![tactic(auto)]

mod arrange;
mod engine;
mod row;
mod run;
#[cfg(test)]
mod tests;
mod turn;

pub use run::{ExecError, exec};
