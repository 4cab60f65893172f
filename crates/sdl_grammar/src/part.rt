//! Parts of declarations that were read.

use ast::{Expr, Name, Qualifiers};
use ev_value::List;
use sdl_ast::{Annotation, Item, Member, PointerKind};

/// The words before `property`, `link` or a pointer's name, and the first byte of the first, if there is one.
#[derive(Clone, Copy, Debug, PartialEq, Eq)]
pub struct Quals {
    pub start: Option<u32>,
    pub overloaded: bool,
    pub qualifiers: Qualifiers,
}

/// A pointer up to its name, and its first byte.
#[derive(Drop)]
pub struct PointerHead {
    pub start: u32,
    pub overloaded: bool,
    pub qualifiers: Qualifiers,
    pub kind: Option<PointerKind>,
    pub name: Name,
}

/// An expression, and the byte after the semicolon behind it.
#[derive(Drop)]
pub struct EndedExpr {
    pub expr: Expr,
    pub end: u32,
}

/// Annotations in braces, or none before a semicolon, and the byte after them.
#[derive(Drop)]
pub struct NoteBlock {
    pub items: List<Annotation>,
    pub end: u32,
}

/// Items in braces, or none before a semicolon, and the byte after them.
#[derive(Drop)]
pub struct ItemBlock {
    pub items: List<Item>,
    pub end: u32,
}

/// Members in braces, or none before a semicolon, and the byte after them.
#[derive(Drop)]
pub struct MemberBlock {
    pub items: List<Member>,
    pub end: u32,
}
