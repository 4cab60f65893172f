//! A small grammar of expressions, read exactly: the worked example of the crate `exact`.
//! Takes tokens; gives the expression that they spell, or the first dead token with its reason.
//! Contract: `parse` is exact in both directions; a text spells at most one expression and is refused at most at one token.
//! No crate stands on it.
#![tactic(auto)]

pub mod read;
mod refusal;
#[cfg(test)]
mod tests;
mod token;
mod tokens;
mod tree;

pub use refusal::Refusal;
pub use token::{Sign, Token};
pub use tree::{Bunch, Expr, Grown, MAX_HEIGHT, Operator};
