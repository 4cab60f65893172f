//! What is said of an expression by the types of its parts.

use sql_ast::SqlTy;

/// What is said of an expression.
#[derive(Drop)]
pub enum Verdict {
    /// It has a type.
    Has(SqlTy),
    /// It fails.
    Fails,
    /// It is not judged: a part of it has no type.
    Unjudged,
}
