//! The trees of SQL statements, and the catalog that they are read over.
//! Takes a statement; gives its parameters. Nesting and well-formedness over a catalog are definitions (`specs/`).
//! Contract: `params` gives each parameter once, in byte order, with the type of its first ARG of a scalar type; they are
//! just those that occur.
//! Seen by every crate of SQL but `sql_lex`.
#![tactic(auto)]

mod args;
mod catalog;
mod expression;
mod select;
#[cfg(test)]
mod tests;
mod ty;

pub use args::{all_args, params, params_are_those_that_occur};
pub use catalog::{Catalog, TableShape, Typed};
pub use expression::{Binary, BinaryOp, Case, Function, SqlExpr, UnaryOp};
pub use select::{Body, Column, Core, FromItem, Key, MAX_NESTING, Select, Stmt};
pub use ty::SqlTy;
