//! Shapes and their elements.
ghost use Rattle.std.specs.Prelude.{◌≡◌, IfOk};
ghost use Rattle.eql_grammar.specs.Trees as t;

use crate::held::{boxed_beside, list_of, pushed};
use crate::leaves::above;
use ast::{Element, Name, Nested, Qualifiers, Shape, Span};
use eql_grammar::{Elements, GrownClauses, GrownElement, GrownExpr, GrownShape, Qualified};
use std::alloc::{AllocError, Global};

/// Braces round elements.
pub fn shape(bracket: Span, all: Elements, close: Span) -> GrownShape
    ensures { result ≡ t.shape bracket all close }
{
    let height = above(all.height);
    GrownShape {
        shape: Shape {
            span: bracket.to(close),
            elements: all.items,
        },
        height,
    }
}

/// One element.
pub fn first_element(alloc: Global, x: GrownElement) -> Result<Elements, AllocError>
    ensures { IfOk result (λ made. made ≡ t.first_element x) }
{
    let height = x.height;
    let items = list_of(alloc, x.element)?;
    Ok(Elements { items, height })
}

/// The elements with one more behind them.
pub fn added_element(all: Elements, x: GrownElement) -> Result<Elements, AllocError>
    ensures { IfOk result (λ made. made ≡ t.added_element all x) }
{
    let height = all.height.max(x.height);
    let items = pushed(all.items, x.element)?;
    Ok(Elements { items, height })
}

/// A name alone.
pub fn pointer(name: Name) -> GrownElement
    ensures { result ≡ t.pointer name }
{
    GrownElement {
        element: Element::Pointer(name.span, name),
        height: 0,
    }
}

/// `@name`
pub fn link_property(at: Span, name: Name) -> GrownElement
    ensures { result ≡ t.link_property at name }
{
    GrownElement {
        element: Element::Property(at.to(name.span), name),
        height: 0,
    }
}

/// `*`
pub fn splat(at: Span) -> GrownElement
    ensures { result ≡ t.splat at }
{
    GrownElement {
        element: Element::Splat(at),
        height: 0,
    }
}

/// `**`
pub fn double_splat(at: Span, behind: Span) -> GrownElement
    ensures { result ≡ t.double_splat at behind }
{
    GrownElement {
        element: Element::DoubleSplat(at.to(behind)),
        height: 0,
    }
}

/// `name: { .. }` with clauses.
pub fn nested(name: Name, found: GrownShape, c: GrownClauses) -> GrownElement
    ensures { result ≡ t.nested name found c }
{
    let span = Span {
        start: name.span.start,
        end: c.end,
    };
    let height = c.height;
    GrownElement {
        element: Element::Nested(
            span,
            name,
            Nested {
                shape: found.shape,
                clauses: c.clauses,
            },
        ),
        height,
    }
}

/// `required` or `optional`, and then `single` or `multi`.
pub fn both_words(first: Qualified, second: Qualified) -> Qualified
    ensures { result ≡ t.both_words first second }
{
    Qualified {
        start: first.start,
        qualifiers: Qualifiers {
            need: first.qualifiers.need,
            width: second.qualifiers.width,
        },
    }
}

/// `name := value`, from the byte `start` on.
pub fn computed(
    alloc: Global,
    start: u32,
    words: Qualifiers,
    name: Name,
    x: GrownExpr,
) -> Result<GrownElement, AllocError>
    ensures { IfOk result (λ made. made ≡ t.computed start words name x) }
{
    let span = Span {
        start,
        end: x.expr.span().end,
    };
    let height = x.height;
    let (value, name) = boxed_beside(alloc, x.expr, name)?;
    Ok(GrownElement {
        element: Element::Computed(span, words, name, value),
        height,
    })
}
