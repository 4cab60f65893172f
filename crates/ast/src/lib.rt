//! The surface trees of EdgeQL: what the grammar reads from tokens, before any name is looked up.
//! Takes the parts of an expression; gives the tree of them with its place in the text.
//! Contract: each builder gives exactly the tree of its definition; a place is joined of those of the parts (`specs/`).
//! Seen by the grammar and the parser of queries, by the trees, grammar and parser of schemas, and by the crates that build
//! schemas and queries from trees (`schema_build`, `eql_forms`); by `edge_run`.
//!
//! One variant per production. Each expression carries the bytes of its own text, and each part that a later phase
//! may blame carries its own: names, modules, operators, steps, braces, `$`. Parentheses round an expression are the
//! variant `Group`, so that both places are at hand: where an expression begins with the parentheses round it
//! (`Expr::span`) and where it begins without them (the span of `Expr::bare`). They are no node where heights and
//! weights are counted.
#![tactic(auto)]

mod build;
mod expression;
mod name;
mod operator;
mod shape;
mod statement;
#[cfg(test)]
mod tests;

pub use build::{box_three, box_two};
pub use expression::{Binary, Conditional, Expr, Parameter, Postfix, Shaped, Step};
pub use name::{Name, QualifiedName, Span};
pub use operator::{BinaryOperator, UnaryOperator};
pub use shape::{Element, Need, Nested, Qualifiers, Shape, Width};
pub use statement::{Alias, Clauses, EmptyPlace, For, ForBody, Key, Query, Select, Statement};
