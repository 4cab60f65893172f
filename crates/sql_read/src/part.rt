//! What may stand in an open part.

use ev_value::Boxed;
use sql_grammar::{Grown, GrownSelect, GrownTy};

/// Where an expression stands that is read in an open part.
#[derive(Clone, Copy)]
pub enum Level {
    /// In parentheses, or in a `CASE`.
    Expr,
    /// Behind `NOT`.
    Negation,
    /// Behind a minus.
    Unary,
}

/// What stands in an open part.
#[derive(Clone, Copy)]
pub enum Open {
    Expr(Level),
    Select,
    Ty,
}

/// What was read in an open part.
#[derive(Drop)]
pub enum Part {
    Expr(Boxed<Grown>),
    Select(Boxed<GrownSelect>),
    Ty(Boxed<GrownTy>),
}
