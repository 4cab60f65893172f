//! Files, modules, types and globals.
ghost use Rattle.std.specs.Prelude.{◌≡◌};
ghost use Rattle.sdl_ast.specs.Places.{decl_span};

use crate::member::Member;
use ast::{Name, QualifiedName, Span};
use ev_value::List;

/// A schema text.
#[derive(Drop)]
pub struct SdlFile {
    pub parts: List<FilePart>,
}

/// What stands at the top of a schema text.
#[derive(Drop)]
pub enum FilePart {
    Module(Module),
    /// A declaration in no module of its own.
    Decl(Decl),
}

/// `module name { .. }`
#[derive(Drop)]
pub struct Module {
    pub span: Span,
    pub name: Name,
    pub decls: List<Decl>,
}

/// A declaration.
#[derive(Drop)]
pub enum Decl {
    /// `type name { .. }`, from its `abstract` on where it has one.
    Type(Span, TypeDecl),
    /// `global name: type;`
    Global(Span, GlobalDecl),
}

/// What is said of a type. One without braces has no members.
#[derive(Drop)]
pub struct TypeDecl {
    pub is_abstract: bool,
    pub name: Name,
    /// The types behind `extending`.
    pub bases: List<QualifiedName>,
    pub members: List<Member>,
}

/// What is said of a global.
#[derive(Drop)]
pub struct GlobalDecl {
    pub name: Name,
    pub ty: QualifiedName,
}

impl Decl {
    /// The bytes of the declaration.
    pub fn span(&self) -> Span
        ensures { result ≡ decl_span self.now }
    {
        match self {
            Decl::Type(span, _) => *span,
            Decl::Global(span, _) => *span,
        }
    }
}
