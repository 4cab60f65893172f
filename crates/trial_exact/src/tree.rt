//! Expressions. A pair of parentheses is no node.

use sqlite_items::{Boxed, Items};

/// An operator between two expressions.
#[derive(Clone, Copy, Debug, PartialEq, Eq)]
pub enum Operator {
    Add,
    Coalesce,
}

/// An expression.
#[derive(Drop)]
pub enum Expr {
    Int(u64),
    Name(u32),
    Set(Items<Expr>),
    Negate(Boxed<Expr>),
    Binary(Operator, Boxed<Expr>, Boxed<Expr>),
    /// What stands where the condition holds, the condition, and what stands elsewhere.
    Choice(Boxed<Expr>, Boxed<Expr>, Boxed<Expr>),
}

/// An expression that was read, and its height. A height that is too high is not counted further.
#[derive(Drop)]
pub struct Grown {
    pub expr: Expr,
    pub height: usize,
}

/// Expressions that were read, and the greatest of their heights.
#[derive(Drop)]
pub struct Bunch {
    pub items: Items<Expr>,
    pub height: usize,
}

/// How high a tree may be.
pub const MAX_HEIGHT: usize = 4;
