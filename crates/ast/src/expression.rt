//! Expressions.

use crate::name::{Name, QualifiedName, Span};
use crate::operator::{BinaryOperator, UnaryOperator};
use crate::shape::Shape;
use crate::statement::Statement;
use ev_value::{Boxed, List, Text};

/// An expression. The span is its own text: from its own first token, or, for an operator behind an operand and for a
/// postfix, from where that operand begins, parentheses included.
#[derive(Drop)]
#[cycle(ast)]
pub enum Expr {
    /// The digits of a number.
    Int(Span, Text),
    /// The text of a literal, its escapes replaced.
    Str(Span, Text),
    Bool(Span, bool),
    /// `.name`, a step from the subject.
    PartialStep(Span, Name),
    /// `.<name`, a back link from the subject.
    PartialBackLink(Span, Name),
    /// `@name`, a link property of the element round it.
    PartialProperty(Span, Name),
    /// `global name`
    Global(Span, Name),
    /// A name alone.
    Name(Span, QualifiedName),
    /// A function and its arguments.
    Call(Span, QualifiedName, List<Expr>),
    /// A statement in parentheses.
    Statement(Span, Boxed<Statement>),
    /// An expression in parentheses.
    Group(Span, Boxed<Expr>),
    /// `(a, b)`, or `(a,)`.
    Tuple(Span, List<Expr>),
    /// `{a, b}`, or `{}`.
    Set(Span, List<Expr>),
    /// What stands behind a base: a step, a back link, a filter by type, a link property.
    Postfix(Span, Boxed<Expr>, Postfix),
    /// An expression with a shape.
    Shaped(Span, Shaped),
    /// A type in angle brackets, and the operand.
    Cast(Span, QualifiedName, Boxed<Expr>),
    Parameter(Span, Parameter),
    Unary(Span, UnaryOperator, Boxed<Expr>),
    Binary(Span, Binary),
    /// `value if condition else other`
    IfElse(Span, Conditional),
    /// `if condition then value else other`
    IfThen(Span, Conditional),
}

/// A postfix, and its bytes from its sign on.
#[derive(Drop)]
pub struct Postfix {
    pub span: Span,
    pub step: Step,
}

/// A step behind a base.
#[derive(Drop)]
pub enum Step {
    /// `.name`
    Dot(Name),
    /// `.<name`
    BackLink(Name),
    /// `[is name]`
    Is(QualifiedName),
    /// `@name`
    Property(Name),
}

/// A parameter under its cast.
#[derive(Drop)]
pub struct Parameter {
    pub optional: bool,
    pub ty: QualifiedName,
    /// The bytes from `$` on.
    pub span: Span,
    /// A name, or digits as written.
    pub name: Text,
}

#[derive(Drop)]
#[cycle(ast)]
pub struct Shaped {
    pub base: Boxed<Expr>,
    pub shape: Shape,
}

#[derive(Drop)]
#[cycle(ast)]
pub struct Binary {
    pub operator: BinaryOperator,
    /// The bytes of the operator; of `not in` both words.
    pub span: Span,
    pub left: Boxed<Expr>,
    pub right: Boxed<Expr>,
}

/// A choice between two expressions by a third.
#[derive(Drop)]
#[cycle(ast)]
pub struct Conditional {
    pub condition: Boxed<Expr>,
    pub value: Boxed<Expr>,
    pub other: Boxed<Expr>,
}
