//! The trees of what the grammar reads, with their places: one function for each form of its definitions of trees.
ghost use Rattle.std.specs.Prelude.{◌≡◌, [], IfOk};
ghost use Rattle.sdl_grammar.specs.Trees as t;

use ast::{Expr, Name, QualifiedName, Qualifiers, Span};
use eql_grammar::{Bunch, GrownExpr, Qualified};
use ev_value::List;
use sdl_ast::{
    Action, Annotation, Constraint, Decl, Deletion, DeletionWord, FilePart, GlobalDecl, Item,
    LinkProperty, Member, Module, Pointer, PointerBody, PointerKind, Policy, PolicyKinds, SdlFile,
    TypeDecl,
};
use sdl_grammar::{EndedExpr, ItemBlock, MemberBlock, NoteBlock, PointerHead, Quals};
use std::alloc::{AllocError, Global};

/// The list with the item behind it.
pub fn pushed<T: Drop>(list: List<T>, item: T) -> Result<List<T>, AllocError>
    ensures { IfOk result (λ made. made ≡ t.behind list item) }
{
    let mut list = list;
    list.push(item)?;
    Ok(list)
}

/// A list of one item.
pub fn alone<T: Drop>(alloc: Global, item: T) -> Result<List<T>, AllocError>
    ensures { IfOk result (λ made. made ≡ t.behind [] item) }
{
    pushed(List::new(alloc), item)
}

fn bytes(start: u32, end: u32) -> Span
    ensures { result ≡ t.bytes start end }
{
    Span { start, end }
}

/// An expression and the semicolon behind it.
pub fn ended(x: GrownExpr, semicolon: Span) -> EndedExpr
    ensures { result ≡ t.ended x semicolon }
{
    EndedExpr {
        expr: x.expr,
        end: semicolon.end,
    }
}

/// `annotation name := expression;`
pub fn annotation(start: u32, name: Name, x: EndedExpr) -> Annotation
    ensures { result ≡ t.annotation start name x }
{
    Annotation {
        span: bytes(start, x.end),
        name,
        value: x.expr,
    }
}

/// No words before a name.
pub fn no_quals() -> Quals
    ensures { result ≡ t.no_quals }
{
    Quals {
        start: None,
        overloaded: false,
        qualifiers: Qualifiers {
            need: None,
            width: None,
        },
    }
}

/// `overloaded` at the byte `start`.
pub fn overloaded(start: u32) -> Quals
    ensures { result ≡ t.overloaded start }
{
    Quals {
        start: Some(start),
        overloaded: true,
        qualifiers: Qualifiers {
            need: None,
            width: None,
        },
    }
}

fn start_of(start: Option<u32>, here: u32) -> u32
    ensures { result ≡ t.start_of start here }
{
    match start {
        None => here,
        Some(start) => start,
    }
}

/// The words of need and width behind these.
pub fn qualified(before: Quals, q: Qualified) -> Quals
    ensures { result ≡ t.qualified before q }
{
    Quals {
        start: Some(start_of(before.start, q.start)),
        overloaded: before.overloaded,
        qualifiers: q.qualifiers,
    }
}

/// `single` or `multi`, and then `required` or `optional`.
pub fn turned_words(first: Qualified, second: Qualified) -> Qualified
    ensures { result ≡ t.turned_words first second }
{
    Qualified {
        start: first.start,
        qualifiers: Qualifiers {
            need: second.qualifiers.need,
            width: first.qualifiers.width,
        },
    }
}

/// A pointer up to its name, which begins at the byte `here` if no words stand before it.
pub fn pointer_head(q: Quals, here: u32, kind: Option<PointerKind>, name: Name) -> PointerHead
    ensures { result ≡ t.pointer_head q here kind name }
{
    PointerHead {
        start: start_of(q.start, here),
        overloaded: q.overloaded,
        qualifiers: q.qualifiers,
        kind,
        name,
    }
}

/// A pointer up to its name, before which neither `property` nor `link` stands.
pub fn bare_head(q: Quals, name: Name) -> PointerHead
    ensures { result ≡ t.bare_head q name }
{
    let here = name.span.start;
    pointer_head(q, here, None, name)
}

/// A property of a link.
pub fn link_property(head: PointerHead, ty: QualifiedName, block: NoteBlock) -> Item
    ensures { result ≡ t.link_property head ty block }
{
    Item::Property(
        bytes(head.start, block.end),
        LinkProperty {
            overloaded: head.overloaded,
            qualifiers: head.qualifiers,
            kind: head.kind,
            name: head.name,
            ty,
            annotations: block.items,
        },
    )
}

/// A constraint.
pub fn constraint(start: u32, delegated: bool, name: Name, all: Bunch, semicolon: Span) -> Item
    ensures { result ≡ t.constraint start delegated name all semicolon }
{
    Item::Constraint(
        bytes(start, semicolon.end),
        Constraint {
            delegated,
            name,
            arguments: all.items,
        },
    )
}

/// A default.
pub fn default_item(start: u32, x: EndedExpr) -> Item
    ensures { result ≡ t.default_item start x }
{
    Item::Default(bytes(start, x.end), x.expr)
}

/// What becomes of an object whose target is deleted.
pub fn deletion(start: u32, first: DeletionWord, more: List<Name>, semicolon: Span) -> Item
    ensures { result ≡ t.deletion start first more semicolon }
{
    Item::Deletion(bytes(start, semicolon.end), Deletion { first, more })
}

/// A stored pointer.
pub fn stored(head: PointerHead, ty: QualifiedName, block: ItemBlock) -> Member
    ensures { result ≡ t.stored head ty block }
{
    Member::Pointer(
        bytes(head.start, block.end),
        Pointer {
            overloaded: head.overloaded,
            qualifiers: head.qualifiers,
            kind: head.kind,
            name: head.name,
            body: PointerBody::Stored(ty, block.items),
        },
    )
}

/// A computed pointer.
pub fn computed(head: PointerHead, x: EndedExpr) -> Member
    ensures { result ≡ t.computed head x }
{
    Member::Pointer(
        bytes(head.start, x.end),
        Pointer {
            overloaded: head.overloaded,
            qualifiers: head.qualifiers,
            kind: head.kind,
            name: head.name,
            body: PointerBody::Computed(x.expr),
        },
    )
}

/// An index.
pub fn index(start: u32, x: Expr, semicolon: Span) -> Member
    ensures { result ≡ t.index start x semicolon }
{
    Member::Index(bytes(start, semicolon.end), x)
}

/// An access policy.
pub fn policy(
    start: u32,
    name: Name,
    action: Action,
    kinds: PolicyKinds,
    condition: Option<Expr>,
    block: NoteBlock,
) -> Member
    ensures { result ≡ t.policy start name action kinds condition block }
{
    Member::Policy(
        bytes(start, block.end),
        Policy {
            name,
            action,
            kinds,
            condition,
            annotations: block.items,
        },
    )
}

/// A type.
pub fn type_decl(
    start: u32,
    is_abstract: bool,
    name: Name,
    bases: List<QualifiedName>,
    block: MemberBlock,
) -> Decl
    ensures { result ≡ t.type_decl start is_abstract name bases block }
{
    Decl::Type(
        bytes(start, block.end),
        TypeDecl {
            is_abstract,
            name,
            bases,
            members: block.items,
        },
    )
}

/// A global.
pub fn global_decl(start: u32, name: Name, ty: QualifiedName, semicolon: Span) -> Decl
    ensures { result ≡ t.global_decl start name ty semicolon }
{
    Decl::Global(bytes(start, semicolon.end), GlobalDecl { name, ty })
}

/// A module.
pub fn module_of(start: u32, name: Name, decls: List<Decl>, end: u32) -> FilePart
    ensures { result ≡ t.module_of start name decls end }
{
    FilePart::Module(Module {
        span: bytes(start, end),
        name,
        decls,
    })
}

/// A file without parts.
pub fn no_parts(alloc: Global) -> SdlFile
    ensures { result ≡ t.no_parts }
{
    SdlFile {
        parts: List::new(alloc),
    }
}

/// The file with a further part.
pub fn with_part(file: SdlFile, part: FilePart) -> Result<SdlFile, AllocError>
    ensures { IfOk result (λ made. made ≡ t.with_part file part) }
{
    let parts = pushed(file.parts, part)?;
    Ok(SdlFile { parts })
}
