//! M2: names of types that are not known, or do not suit where they stand.
ghost use Rattle.std.specs.Prelude.{◌≡◌};
ghost use Rattle.schema_build.specs.Known as spec;
ghost use Rattle.schema_build.specs.Least.{least_of};

use crate::least::{at_if, sooner};
use crate::names::{Meant, is_object, is_scalar, meaning_of};
use ast::QualifiedName;
use ev_names::Names;
use sdl_ast::{Decl, Item, Member, PointerBody, PointerKind};

fn takes(kind: Option<PointerKind>, meant: Option<Meant>) -> bool
    ensures { result ≡ spec.takes kind meant }
{
    match (kind, meant) {
        (_, None) => false,
        (None, Some(_)) => true,
        (Some(PointerKind::Property), meant) => is_scalar(meant),
        (Some(PointerKind::Link), meant) => is_object(meant),
    }
}

fn bad_base(types: &Names, base: &QualifiedName) -> Option<u32>
    ensures { result ≡ spec.bad_base types.now base.now }
{
    at_if(!is_object(meaning_of(types, base)), base.start())
}

#[tactic(auto, using(crate::proofs::LeastLaws::sooner_none, crate::proofs::LeastLaws::sooner_assoc))]
fn bad_bases(types: &Names, bases: &[QualifiedName]) -> Option<u32>
    ensures { result ≡ least_of (spec.bad_base types.now) bases.now }
{
    let mut found = None;
    for base in bases {
        found = sooner(found, bad_base(types, base));
    }
    found
}

/// A base that is no object type, or a global of no scalar type.
pub fn unknown_decl(types: &Names, decl: &Decl) -> Option<u32>
    ensures { result ≡ spec.unknown_decl types.now decl.now }
{
    match decl {
        Decl::Type(_, found) => bad_bases(types, found.bases.as_slice()),
        Decl::Global(_, found) => at_if(!is_scalar(meaning_of(types, &found.ty)), found.ty.start()),
    }
}

fn unknown_body(types: &Names, kind: Option<PointerKind>, body: &PointerBody) -> Option<u32>
    ensures { result ≡ spec.unknown_body types.now kind body.now }
{
    match body {
        PointerBody::Stored(name, _) => at_if(!takes(kind, meaning_of(types, name)), name.start()),
        PointerBody::Computed(_) => None,
    }
}

/// A stored pointer whose type is unknown or does not suit the word before its name.
pub fn unknown_member(types: &Names, member: &Member) -> Option<u32>
    ensures { result ≡ spec.unknown_member types.now member.now }
{
    match member {
        Member::Pointer(_, pointer) => unknown_body(types, pointer.kind, &pointer.body),
        Member::Policy(_, _) => None,
        Member::Index(_, _) => None,
        Member::Annotation(_) => None,
    }
}

/// A link property whose type is unknown or does not suit the word before its name.
pub fn unknown_item(types: &Names, item: &Item) -> Option<u32>
    ensures { result ≡ spec.unknown_item types.now item.now }
{
    match item {
        Item::Property(_, property) => at_if(
            !takes(property.kind, meaning_of(types, &property.ty)),
            property.ty.start(),
        ),
        Item::Constraint(_, _) => None,
        Item::Default(_, _) => None,
        Item::Deletion(_, _) => None,
        Item::Annotation(_) => None,
    }
}
