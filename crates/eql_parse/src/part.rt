//! What may stand in an open part.

use eql_grammar::{GrownElement, GrownExpr, Nest};

/// Where an expression stands that is read in an open part.
#[derive(Clone, Copy)]
pub enum Level {
    /// In brackets.
    Expr,
    /// Behind an `else`.
    Choice,
    /// Behind `not`.
    Negation,
    /// Behind `??`.
    Coalesce,
    /// Behind any other prefix, or a cast.
    Unary,
}

/// What stands in an open part.
#[derive(Clone, Copy)]
pub enum Open {
    Expr(Level),
    Statement,
    /// An element of a shape.
    Element,
}

/// What was read in an open part.
#[derive(Drop)]
pub enum Part {
    Expr(GrownExpr),
    Statement(Nest),
    Element(GrownElement),
}
