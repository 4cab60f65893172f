//! Names and places.
ghost use Rattle.std.specs.Prelude.{◌≡◌};
ghost use Rattle.ast.specs.Name.{start_of};

use ev_value::Text;

/// The bytes of a part of the text: its first, and the one after its last.
#[derive(Clone, Copy, Debug, PartialEq, Eq)]
pub struct Span {
    pub start: u32,
    pub end: u32,
}

/// A name as written.
#[derive(Drop)]
pub struct Name {
    pub text: Text,
    pub span: Span,
}

/// A name with the module that stands before it and `::`, if one does.
#[derive(Drop)]
pub struct QualifiedName {
    pub module: Option<Name>,
    pub name: Name,
}

impl QualifiedName {
    /// The first byte, its module included.
    pub fn start(&self) -> u32
        ensures { result ≡ start_of self.now }
    {
        match &self.module {
            None => self.name.span.start,
            Some(module) => module.span.start,
        }
    }
}
