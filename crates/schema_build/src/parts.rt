//! What a schema text declares, and what of it has no schema yet.
ghost use Rattle.std.specs.Prelude.{◌≡◌, ◌++◌, [], IfOk, OnOk, reverse, map};
ghost use Rattle.std.specs.List.{list_any};
ghost use Rattle.schema_build.specs.Least.{least_of};
ghost use Rattle.schema_build.specs.Parts.{decls_in as decls_in_part, decls_of as decls_of_parts, foreign_module as foreign_module_at, starts as starts_of, is_unbuilt_member as is_unbuilt_member_in, has_unbuilt as has_unbuilt_in};

use crate::least::{at_if, sooner};
use ev_value::List;
use sdl_ast::{Decl, FilePart, Member, PointerBody};
use std::alloc::{AllocError, Global};

/// Puts declarations behind others, the last first.
fn put_backward(all: &mut Vec<Decl>, decls: List<Decl>) -> Result<(), AllocError>
    ensures { OnOk result (all.new.items ≡ all.old.items ++ reverse decls) }
{
    let mut left = decls;
    while let Some(decl) = left.pop() {
        all.push(decl)?;
    }
    Ok(())
}

fn put_part_backward(all: &mut Vec<Decl>, part: FilePart) -> Result<(), AllocError>
    ensures { OnOk result (all.new.items ≡ all.old.items ++ reverse (decls_in_part part)) }
{
    match part {
        FilePart::Module(module) => put_backward(all, module.decls),
        FilePart::Decl(decl) => {
            all.push(decl)?;
            Ok(())
        }
    }
}

/// The declarations of a text, in its order.
pub fn decls_of(alloc: Global, parts: List<FilePart>) -> Result<List<Decl>, AllocError>
    ensures { IfOk result (λ l. l ≡ decls_of_parts parts) }
{
    let mut left = parts;
    let mut all = Vec::new(alloc);
    while let Some(part) = left.pop() {
        put_part_backward(&mut all, part)?;
    }
    all.reverse();
    Ok(List::from_vec(all))
}

fn foreign_module(part: &FilePart) -> Option<u32>
    ensures { result ≡ foreign_module_at part.now }
{
    match part {
        FilePart::Module(module) => at_if(
            module.name.text.as_str() != "default",
            module.span.start,
        ),
        FilePart::Decl(_) => None,
    }
}

#[tactic(auto, using(crate::proofs::LeastLaws::sooner_none, crate::proofs::LeastLaws::sooner_assoc))]
/// The first module that is not `default`.
pub fn foreign_modules(parts: &[FilePart]) -> Option<u32>
    ensures { result ≡ least_of foreign_module_at parts.now }
{
    let mut found = None;
    for part in parts {
        found = sooner(found, foreign_module(part));
    }
    found
}

/// Where a declaration stands.
pub fn starts(decl: &Decl) -> u32
    ensures { result ≡ starts_of decl.now }
{
    decl.span().start
}

fn is_unbuilt_member(member: &Member) -> bool
    ensures { result ≡ is_unbuilt_member_in member.now }
{
    match member {
        Member::Pointer(_, pointer) => match pointer.body {
            PointerBody::Computed(_) => true,
            PointerBody::Stored(_, _) => false,
        },
        Member::Policy(_, _) => true,
        Member::Index(_, _) => false,
        Member::Annotation(_) => false,
    }
}

fn some_unbuilt_member(members: &[Member]) -> bool
    ensures { result ≡ list_any is_unbuilt_member_in members.now }
{
    for member in members {
        if is_unbuilt_member(member) {
            return true;
        }
    }
    false
}

fn has_unbuilt(decl: &Decl) -> bool
    ensures { result ≡ has_unbuilt_in decl.now }
{
    match decl {
        Decl::Type(_, found) => some_unbuilt_member(found.members.as_slice()),
        Decl::Global(_, _) => false,
    }
}

/// Whether a computed pointer or a policy stands somewhere.
pub fn some_unbuilt(decls: &[Decl]) -> bool
    ensures { result ≡ list_any has_unbuilt_in decls.now }
{
    for decl in decls {
        if has_unbuilt(decl) {
            return true;
        }
    }
    false
}
