//! Trees that were read, with their heights. A height that is too high is not counted further.

use ast::{
    Alias, BinaryOperator, Clauses, Element, EmptyPlace, Expr, Key, Name, Qualifiers, Shape, Span,
    Statement, UnaryOperator,
};
use ev_value::List;

/// An expression, and its height.
#[derive(Drop)]
pub struct GrownExpr {
    pub expr: Expr,
    pub height: usize,
}

/// Expressions with commas between them, and the greatest of their heights.
#[derive(Drop)]
pub struct Bunch {
    pub items: List<Expr>,
    pub height: usize,
}

/// A shape, and its height.
#[derive(Drop)]
pub struct GrownShape {
    pub shape: Shape,
    pub height: usize,
}

/// An element of a shape, and the height of what it holds. An element itself is no node.
#[derive(Drop)]
pub struct GrownElement {
    pub element: Element,
    pub height: usize,
}

/// Elements of a shape, and the greatest of their heights.
#[derive(Drop)]
pub struct Elements {
    pub items: List<Element>,
    pub height: usize,
}

/// A key of an order, the byte after it, and its expression's height.
#[derive(Drop)]
pub struct GrownKey {
    pub key: Key,
    pub end: u32,
    pub height: usize,
}

/// The clauses so far, the byte after them, and the greatest height of what they and their subject hold.
#[derive(Drop)]
pub struct GrownClauses {
    pub clauses: Clauses,
    pub end: u32,
    pub height: usize,
}

/// A statement, its bytes, and its height.
#[derive(Drop)]
pub struct GrownStatement {
    pub statement: Statement,
    pub span: Span,
    pub height: usize,
}

/// An alias, and the height of its value.
#[derive(Drop)]
pub struct GrownAlias {
    pub alias: Alias,
    pub height: usize,
}

/// The aliases before a statement, the first byte of their `with` if they have one, and the greatest of their heights.
#[derive(Drop)]
pub struct With {
    pub start: Option<u32>,
    pub aliases: List<Alias>,
    pub height: usize,
}

/// A `for` up to its `union`, with the aliases before it, its first byte, and the greatest height of what it holds.
#[derive(Drop)]
pub struct Head {
    pub start: u32,
    pub aliases: List<Alias>,
    pub variable: Name,
    pub iterator: Expr,
    pub height: usize,
}

/// What a statement begins with, up to where another may stand: all of it, or a `for` up to its `union`.
#[derive(Drop)]
pub enum Opening {
    For(Head),
    Select(GrownStatement),
}

/// The `for`s round what is read, from the outermost on.
#[derive(Drop)]
pub struct Heads {
    pub outermost: Head,
    pub inner: List<Head>,
}

/// What stands inside all of the `for`s of a statement.
#[derive(Drop)]
pub enum Body {
    Statement(GrownStatement),
    Expr(GrownExpr),
}

/// A statement as it was read. Of its `for`s no tree is made before it is known that it is not too high.
#[derive(Drop)]
pub enum Nest {
    Select(GrownStatement),
    For(Heads, Body),
}

/// An `if` that waits for its `then`, or one that waits for its `else`, with its condition. Each with its first byte.
#[derive(Drop)]
pub enum Frame {
    Condition(u32),
    Value(u32, GrownExpr),
}

/// A query as it was read, and the byte after its semicolon, if it has one.
#[derive(Drop)]
pub struct Asked {
    pub nest: Nest,
    pub end: Option<u32>,
}

/// An operator between two operands, and its level: the loosest is of level 1.
#[derive(Clone, Copy, Debug, PartialEq, Eq)]
pub struct Leveled {
    pub level: usize,
    pub operator: BinaryOperator,
}

/// An operator between two operands, and its bytes.
#[derive(Clone, Copy, Debug, PartialEq, Eq)]
pub struct Infix {
    pub operator: BinaryOperator,
    pub place: Span,
}

/// An operator before its operand, and its bytes.
#[derive(Clone, Copy, Debug, PartialEq, Eq)]
pub struct Prefix {
    pub operator: UnaryOperator,
    pub place: Span,
}

/// The words before a computed element, and the first byte of the first.
#[derive(Clone, Copy, Debug, PartialEq, Eq)]
pub struct Qualified {
    pub start: u32,
    pub qualifiers: Qualifiers,
}

/// Whether a key goes down, and the byte after what says so.
#[derive(Clone, Copy, Debug, PartialEq, Eq)]
pub struct Direction {
    pub descending: bool,
    pub end: u32,
}

/// Where a key puts what is empty, and the byte after the word that says so.
#[derive(Clone, Copy, Debug, PartialEq, Eq)]
pub struct Placement {
    pub place: EmptyPlace,
    pub end: u32,
}
