//! Shapes: the braces behind an expression.

use crate::expression::Expr;
use crate::name::{Name, Span};
use crate::statement::Clauses;
use ev_value::{Boxed, List};

/// A shape, from its `{` to its `}`.
#[derive(Drop)]
#[cycle(ast)]
pub struct Shape {
    pub span: Span,
    pub elements: List<Element>,
}

/// An element of a shape, from its first token on.
#[derive(Drop)]
#[cycle(ast)]
pub enum Element {
    /// `name`
    Pointer(Span, Name),
    /// `name: { .. }` with clauses.
    Nested(Span, Name, Nested),
    /// `@name`
    Property(Span, Name),
    /// `*`
    Splat(Span),
    /// `**`
    DoubleSplat(Span),
    /// `name := value`, maybe with words before it.
    Computed(Span, Qualifiers, Name, Boxed<Expr>),
}

/// What an element with a shape of its own holds.
#[derive(Drop)]
#[cycle(ast)]
pub struct Nested {
    pub shape: Shape,
    pub clauses: Clauses,
}

/// The words before a computed element, as far as they stand there.
#[derive(Clone, Copy, Debug, PartialEq, Eq)]
pub struct Qualifiers {
    pub need: Option<Need>,
    pub width: Option<Width>,
}

/// `required` or `optional`.
#[derive(Clone, Copy, Debug, PartialEq, Eq)]
pub enum Need {
    Required,
    Optional,
}

/// `single` or `multi`.
#[derive(Clone, Copy, Debug, PartialEq, Eq)]
pub enum Width {
    Single,
    Multi,
}
