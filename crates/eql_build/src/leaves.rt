//! Heights, and expressions without parts.
ghost use Rattle.std.specs.Prelude.{◌≡◌};
ghost use Rattle.eql_grammar.specs.Trees as t;

use ast::{Expr, Name, Parameter, QualifiedName, Span};
use eql_grammar::{GrownExpr, MAX_HEIGHT};

/// Whether a tree of the height is too high.
pub fn too_high(height: usize) -> bool
    ensures { result ≡ t.too_high height }
{
    MAX_HEIGHT < height
}

/// One more, as long as it counts.
pub fn above(height: usize) -> usize
    ensures { result ≡ t.above height }
{
    if MAX_HEIGHT < height {
        height
    } else {
        height + 1
    }
}

/// An expression without parts.
pub fn leaf(expr: Expr) -> GrownExpr
    ensures { result ≡ t.leaf expr }
{
    GrownExpr { expr, height: 1 }
}

/// The bytes of a name with its module.
pub fn qualified_span(name: &QualifiedName) -> Span
    ensures { result ≡ t.qualified_span name.now }
{
    match &name.module {
        None => name.name.span,
        Some(module) => module.span.to(name.name.span),
    }
}

/// A name alone.
pub fn named(name: QualifiedName) -> GrownExpr
    ensures { result ≡ t.named name }
{
    let span = qualified_span(&name);
    leaf(Expr::Name(span, name))
}

/// `.name`
pub fn partial_step(at: Span, name: Name) -> GrownExpr
    ensures { result ≡ t.partial_step at name }
{
    let span = at.to(name.span);
    leaf(Expr::PartialStep(span, name))
}

/// `.<name`
pub fn partial_back_link(at: Span, name: Name) -> GrownExpr
    ensures { result ≡ t.partial_back_link at name }
{
    let span = at.to(name.span);
    leaf(Expr::PartialBackLink(span, name))
}

/// `@name`
pub fn partial_property(at: Span, name: Name) -> GrownExpr
    ensures { result ≡ t.partial_property at name }
{
    let span = at.to(name.span);
    leaf(Expr::PartialProperty(span, name))
}

/// `global name`
pub fn global_named(at: Span, name: Name) -> GrownExpr
    ensures { result ≡ t.global_named at name }
{
    let span = at.to(name.span);
    leaf(Expr::Global(span, name))
}

/// A parameter under its cast.
pub fn parameter(
    bracket: Span,
    optional: bool,
    ty: QualifiedName,
    dollar: Span,
    name: Name,
) -> GrownExpr
    ensures { result ≡ t.parameter bracket optional ty dollar name }
{
    let outer = bracket.to(name.span);
    let span = dollar.to(name.span);
    GrownExpr {
        expr: Expr::Parameter(
            outer,
            Parameter {
                optional,
                ty,
                span,
                name: name.text,
            },
        ),
        height: 2,
    }
}
