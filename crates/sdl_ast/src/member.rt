//! What stands in the braces of a type.
ghost use Rattle.std.specs.Prelude.{◌≡◌};
ghost use Rattle.sdl_ast.specs.Places.{member_span};

use crate::item::Item;
use ast::{Expr, Name, QualifiedName, Qualifiers, Span};
use ev_value::List;

/// A member of a type.
#[derive(Drop)]
pub enum Member {
    Pointer(Span, Pointer),
    Policy(Span, Policy),
    /// `index on (expression);`
    Index(Span, Expr),
    Annotation(Annotation),
}

/// A pointer: a property or a link.
#[derive(Drop)]
pub struct Pointer {
    pub overloaded: bool,
    pub qualifiers: Qualifiers,
    /// The word `property` or `link` before the name, if one stands there.
    pub kind: Option<PointerKind>,
    pub name: Name,
    pub body: PointerBody,
}

/// `property` or `link`.
#[derive(Clone, Copy, Debug, PartialEq, Eq)]
pub enum PointerKind {
    Property,
    Link,
}

/// What is said of a pointer behind its name.
#[derive(Drop)]
pub enum PointerBody {
    /// `: type { .. }` or `-> type { .. }`. One without braces has no items.
    Stored(QualifiedName, List<Item>),
    /// `:= expression`
    Computed(Expr),
}

/// `annotation name := expression;`
#[derive(Drop)]
pub struct Annotation {
    pub span: Span,
    pub name: Name,
    pub value: Expr,
}

/// An access policy.
#[derive(Drop)]
pub struct Policy {
    pub name: Name,
    pub action: Action,
    pub kinds: PolicyKinds,
    /// The expression behind `using`, without its parentheses.
    pub condition: Option<Expr>,
    pub annotations: List<Annotation>,
}

/// `allow` or `deny`.
#[derive(Clone, Copy, Debug, PartialEq, Eq)]
pub enum Action {
    Allow,
    Deny,
}

/// What a policy is for.
#[derive(Drop)]
pub enum PolicyKinds {
    All,
    These(List<PolicyKind>),
}

/// One thing that a policy is for. `update` alone is for reading and for writing.
#[derive(Clone, Copy, Debug, PartialEq, Eq)]
pub enum PolicyKind {
    Select,
    Insert,
    Delete,
    Update,
    UpdateRead,
    UpdateWrite,
}

impl Member {
    /// The bytes of the member, from its first word on.
    pub fn span(&self) -> Span
        ensures { result ≡ member_span self.now }
    {
        match self {
            Member::Pointer(span, _) => *span,
            Member::Policy(span, _) => *span,
            Member::Index(span, _) => *span,
            Member::Annotation(annotation) => annotation.span,
        }
    }
}
