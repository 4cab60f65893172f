//! What stands in the braces of a pointer.
ghost use Rattle.std.specs.Prelude.{◌≡◌};
ghost use Rattle.sdl_ast.specs.Places.{item_span};

use crate::member::{Annotation, PointerKind};
use ast::{Expr, Name, QualifiedName, Qualifiers, Span};
use ev_value::List;

/// An item of a pointer.
#[derive(Drop)]
pub enum Item {
    Constraint(Span, Constraint),
    /// `default := expression;`
    Default(Span, Expr),
    Deletion(Span, Deletion),
    Annotation(Annotation),
    Property(Span, LinkProperty),
}

/// A constraint, with the arguments that stand in parentheses behind its name.
#[derive(Drop)]
pub struct Constraint {
    pub delegated: bool,
    pub name: Name,
    pub arguments: List<Expr>,
}

/// `on target delete`, and the words behind it.
#[derive(Drop)]
pub struct Deletion {
    pub first: DeletionWord,
    pub more: List<Name>,
}

/// The first word behind `on target delete`. `delete` is no name.
#[derive(Drop)]
pub enum DeletionWord {
    Name(Name),
    Delete(Span),
}

/// A property of a link.
#[derive(Drop)]
pub struct LinkProperty {
    pub overloaded: bool,
    pub qualifiers: Qualifiers,
    /// The word `property` before the name, if it stands there.
    pub kind: Option<PointerKind>,
    pub name: Name,
    pub ty: QualifiedName,
    pub annotations: List<Annotation>,
}

impl Item {
    /// The bytes of the item, from its first word on.
    pub fn span(&self) -> Span
        ensures { result ≡ item_span self.now }
    {
        match self {
            Item::Constraint(span, _) => *span,
            Item::Default(span, _) => *span,
            Item::Deletion(span, _) => *span,
            Item::Annotation(annotation) => annotation.span,
            Item::Property(span, _) => *span,
        }
    }
}
