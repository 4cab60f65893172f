//! The rules that look at one declaration, member or item alone.
ghost use Rattle.std.specs.Prelude.{◌≡◌, IfOk};
ghost use Rattle.schema_build.specs.Least.{least_of};
ghost use Rattle.schema_build.specs.Local as spec;

use crate::known::{unknown_decl, unknown_item, unknown_member};
use crate::least::sooner;
use crate::link_properties::{misplaced_item, repeated_items};
use crate::names::{Meant, meaning_of};
use crate::reserved::{reserved_decl, reserved_item, reserved_member};
use crate::suits::unsuited_item;
use crate::unsupported::{unsupported_item, unsupported_member};
use ev_names::Names;
use sdl_ast::{Decl, Item, Member, PointerBody};
use std::alloc::{AllocError, Global};

/// A rule that looks at one declaration, member or item alone.
#[derive(Clone, Copy, Debug, PartialEq, Eq)]
pub enum LocalRule {
    M10,
    M11,
    M2,
    M5,
    M6,
}

fn at_decl(types: &Names, rule: LocalRule, decl: &Decl) -> Option<u32>
    ensures { result ≡ spec.at_decl types.now rule decl.now }
{
    match rule {
        LocalRule::M10 => reserved_decl(decl),
        LocalRule::M2 => unknown_decl(types, decl),
        LocalRule::M11 | LocalRule::M5 | LocalRule::M6 => None,
    }
}

fn at_member(types: &Names, rule: LocalRule, member: &Member) -> Option<u32>
    ensures { result ≡ spec.at_member types.now rule member.now }
{
    match rule {
        LocalRule::M10 => reserved_member(member),
        LocalRule::M11 => unsupported_member(member),
        LocalRule::M2 => unknown_member(types, member),
        LocalRule::M5 | LocalRule::M6 => None,
    }
}

fn at_item(types: &Names, rule: LocalRule, meant: Option<Meant>, item: &Item) -> Option<u32>
    ensures { result ≡ spec.at_item types.now rule meant item.now }
{
    match rule {
        LocalRule::M10 => reserved_item(item),
        LocalRule::M11 => unsupported_item(item),
        LocalRule::M2 => unknown_item(types, item),
        LocalRule::M5 => unsuited_item(meant, item),
        LocalRule::M6 => misplaced_item(types, meant, item),
    }
}

fn at_items(alloc: Global, rule: LocalRule, items: &[Item]) -> Result<Option<u32>, AllocError>
    ensures { IfOk result (λ b. b ≡ spec.at_items rule items.now) }
{
    match rule {
        LocalRule::M6 => repeated_items(alloc, items),
        LocalRule::M10 | LocalRule::M11 | LocalRule::M2 | LocalRule::M5 => Ok(None),
    }
}

#[tactic(auto, using(crate::proofs::LeastLaws::sooner_none, crate::proofs::LeastLaws::sooner_assoc))]
fn in_items(types: &Names, rule: LocalRule, meant: Option<Meant>, items: &[Item]) -> Option<u32>
    ensures { result ≡ least_of (spec.at_item types.now rule meant) items.now }
{
    let mut found = None;
    for item in items {
        found = sooner(found, at_item(types, rule, meant, item));
    }
    found
}

fn in_body(
    alloc: Global,
    types: &Names,
    rule: LocalRule,
    body: &PointerBody,
) -> Result<Option<u32>, AllocError>
    ensures { IfOk result (λ b. b ≡ spec.in_body types.now rule body.now) }
{
    match body {
        PointerBody::Stored(name, items) => {
            let items = items.as_slice();
            let whole = at_items(alloc, rule, items)?;
            Ok(sooner(whole, in_items(types, rule, meaning_of(types, name), items)))
        }
        PointerBody::Computed(_) => Ok(None),
    }
}

fn in_member(
    alloc: Global,
    types: &Names,
    rule: LocalRule,
    member: &Member,
) -> Result<Option<u32>, AllocError>
    ensures { IfOk result (λ b. b ≡ spec.in_member types.now rule member.now) }
{
    let own = at_member(types, rule, member);
    match member {
        Member::Pointer(_, pointer) => Ok(sooner(own, in_body(alloc, types, rule, &pointer.body)?)),
        Member::Policy(_, _) => Ok(own),
        Member::Index(_, _) => Ok(own),
        Member::Annotation(_) => Ok(own),
    }
}

#[tactic(auto, using(crate::proofs::LeastLaws::sooner_none, crate::proofs::LeastLaws::sooner_assoc))]
fn in_members(
    alloc: Global,
    types: &Names,
    rule: LocalRule,
    members: &[Member],
) -> Result<Option<u32>, AllocError>
    ensures { IfOk result (λ b. b ≡ least_of (spec.in_member types.now rule) members.now) }
{
    let mut found = None;
    for member in members {
        found = sooner(found, in_member(alloc, types, rule, member)?);
    }
    Ok(found)
}

fn in_decl(
    alloc: Global,
    types: &Names,
    rule: LocalRule,
    decl: &Decl,
) -> Result<Option<u32>, AllocError>
    ensures { IfOk result (λ b. b ≡ spec.in_decl types.now rule decl.now) }
{
    let own = at_decl(types, rule, decl);
    match decl {
        Decl::Type(_, found) => Ok(sooner(
            own,
            in_members(alloc, types, rule, found.members.as_slice())?,
        )),
        Decl::Global(_, _) => Ok(own),
    }
}

/// The least byte at which a rule fails, where the names of all types are given.
#[tactic(auto, using(crate::proofs::LeastLaws::sooner_none, crate::proofs::LeastLaws::sooner_assoc))]
pub fn fails_in(
    alloc: Global,
    types: &Names,
    rule: LocalRule,
    decls: &[Decl],
) -> Result<Option<u32>, AllocError>
    ensures { IfOk result (λ b. b ≡ spec.fails_in types.now rule decls.now) }
{
    let mut found = None;
    for decl in decls {
        found = sooner(found, in_decl(alloc, types, rule, decl)?);
    }
    Ok(found)
}
