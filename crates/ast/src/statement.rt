//! Queries and statements.

use crate::expression::Expr;
use crate::name::{Name, Span};
use ev_value::{Boxed, List};

/// A whole query.
#[derive(Drop)]
pub struct Query {
    pub span: Span,
    pub statement: Statement,
}

/// A statement with the aliases before it, from its `with` on where it has some.
#[derive(Drop)]
#[cycle(ast)]
pub enum Statement {
    Select(Span, List<Alias>, Select),
    For(Span, List<Alias>, For),
}

/// `select subject` and clauses.
#[derive(Drop)]
#[cycle(ast)]
pub struct Select {
    pub subject: Boxed<Expr>,
    pub clauses: Clauses,
}

/// `for variable in iterator union body`
#[derive(Drop)]
#[cycle(ast)]
pub struct For {
    pub variable: Name,
    pub iterator: Boxed<Expr>,
    pub body: ForBody,
}

/// The body of a `for`: a statement without parentheses, or an expression.
#[derive(Drop)]
#[cycle(ast)]
pub enum ForBody {
    Statement(Boxed<Statement>),
    Expr(Boxed<Expr>),
}

/// `name := value`
#[derive(Drop)]
#[cycle(ast)]
pub struct Alias {
    pub span: Span,
    pub name: Name,
    pub value: Boxed<Expr>,
}

/// The clauses behind a subject or a nested element.
#[derive(Drop)]
#[cycle(ast)]
pub struct Clauses {
    pub filter: Option<Boxed<Expr>>,
    pub order: List<Key>,
    pub offset: Option<Boxed<Expr>>,
    pub limit: Option<Boxed<Expr>>,
}

/// A key of an order, with where it puts what is empty, if it says so. `asc` may be left out.
#[derive(Drop)]
#[cycle(ast)]
pub enum Key {
    Ascending(Boxed<Expr>, Option<EmptyPlace>),
    Descending(Boxed<Expr>, Option<EmptyPlace>),
}

/// `empty first` or `empty last`.
#[derive(Clone, Copy, Debug, PartialEq, Eq)]
pub enum EmptyPlace {
    First,
    Last,
}
