//! Expressions made of others, with their places.
ghost use Rattle.std.specs.Prelude.{◌≡◌, IfOk};
ghost use Rattle.ast.specs.Expression.{span_of, bare, joined, binary, postfix, shaped, if_else};

use crate::expression::{Binary, Conditional, Expr, Postfix, Shaped};
use crate::name::Span;
use crate::operator::BinaryOperator;
use crate::shape::Shape;
use ev_value::Boxed;
use std::alloc::{AllocError, Global};

/// Two trees in memory of their own. A function that holds trees is checked faster with one call that may fail than
/// with one for each of them.
pub fn box_two<T: Drop>(alloc: Global, a: T, b: T) -> Result<(Boxed<T>, Boxed<T>), AllocError>
    ensures { IfOk result (λ made. (made.0 ≡ a) × (made.1 ≡ b)) }
{
    let a = Boxed::new(alloc, a)?;
    let b = Boxed::new(alloc, b)?;
    Ok((a, b))
}

/// Three trees in memory of their own.
pub fn box_three<T: Drop>(
    alloc: Global,
    a: T,
    b: T,
    c: T,
) -> Result<(Boxed<T>, Boxed<T>, Boxed<T>), AllocError>
    ensures { IfOk result (λ made. (made.0 ≡ a) × (made.1 ≡ b) × (made.2 ≡ c)) }
{
    let a = Boxed::new(alloc, a)?;
    let b = Boxed::new(alloc, b)?;
    let c = Boxed::new(alloc, c)?;
    Ok((a, b, c))
}

impl Span {
    /// The bytes from where this part begins to where the other ends.
    pub fn to(self, end: Span) -> Span
        ensures { result ≡ joined self end }
    {
        Span {
            start: self.start,
            end: end.end,
        }
    }
}

impl Expr {
    /// The bytes of the expression, parentheses round it included.
    pub fn span(&self) -> Span
        ensures { result ≡ span_of self.now }
    {
        match self {
            Expr::Int(span, _) => *span,
            Expr::Str(span, _) => *span,
            Expr::Bool(span, _) => *span,
            Expr::PartialStep(span, _) => *span,
            Expr::PartialBackLink(span, _) => *span,
            Expr::PartialProperty(span, _) => *span,
            Expr::Global(span, _) => *span,
            Expr::Name(span, _) => *span,
            Expr::Call(span, _, _) => *span,
            Expr::Statement(span, _) => *span,
            Expr::Group(span, _) => *span,
            Expr::Tuple(span, _) => *span,
            Expr::Set(span, _) => *span,
            Expr::Postfix(span, _, _) => *span,
            Expr::Shaped(span, _) => *span,
            Expr::Cast(span, _, _) => *span,
            Expr::Parameter(span, _) => *span,
            Expr::Unary(span, _, _) => *span,
            Expr::Binary(span, _) => *span,
            Expr::IfElse(span, _) => *span,
            Expr::IfThen(span, _) => *span,
        }
    }

    /// The expression without the parentheses round it.
    pub fn bare(&self) -> &Expr
        ensures { result.now ≡ bare self.now }
    {
        match self {
            Expr::Group(_, inner) => inner.get().bare(),
            other => other,
        }
    }

    /// An operator, which stands at `place`, between two operands.
    pub fn binary(
        alloc: Global,
        operator: BinaryOperator,
        place: Span,
        left: Expr,
        right: Expr,
    ) -> Result<Expr, AllocError>
        ensures { IfOk result (λ made. made ≡ binary operator place left right) }
    {
        let span = left.span().to(right.span());
        let (left, right) = box_two(alloc, left, right)?;
        Ok(Expr::Binary(
            span,
            Binary {
                operator,
                span: place,
                left,
                right,
            },
        ))
    }

    /// A base with a postfix behind it.
    pub fn postfix(alloc: Global, base: Expr, step: Postfix) -> Result<Expr, AllocError>
        ensures { IfOk result (λ made. made ≡ postfix base step) }
    {
        let span = base.span().to(step.span);
        Ok(Expr::Postfix(span, Boxed::new(alloc, base)?, step))
    }

    /// A base with a shape behind it.
    pub fn shaped(alloc: Global, base: Expr, shape: Shape) -> Result<Expr, AllocError>
        ensures { IfOk result (λ made. made ≡ shaped base shape) }
    {
        let span = base.span().to(shape.span);
        Ok(Expr::Shaped(
            span,
            Shaped {
                base: Boxed::new(alloc, base)?,
                shape,
            },
        ))
    }

    /// `value if condition else other`
    pub fn if_else(
        alloc: Global,
        value: Expr,
        condition: Expr,
        other: Expr,
    ) -> Result<Expr, AllocError>
        ensures { IfOk result (λ made. made ≡ if_else value condition other) }
    {
        let span = value.span().to(other.span());
        let (value, condition, other) = box_three(alloc, value, condition, other)?;
        Ok(Expr::IfElse(
            span,
            Conditional {
                condition,
                value,
                other,
            },
        ))
    }
}
