//! Which types a type extends. M3: a type that extends itself. M4: names of pointers that are not one pointer.
ghost use Rattle.std.specs.Prelude.{◌≡◌, ◌<◌, ◌^◌, ◌++◌, ◌∷◌, [], length, IsTrue, IfOk, OnOk};
ghost use Rattle.schema_build.specs.Lineage as spec;
ghost use Rattle.schema_build.specs.Search as search;
ghost use Rattle.schema_build.specs.Twice.{type_names};

use crate::least::{at_if, sooner};
use crate::names::{Meant, meaning_of};
use ast::QualifiedName;
use core_ir::TypeId;
use ev_names::Names;
use ev_value::{List, Text};
use sdl_ast::{Decl, Member};
use std::alloc::{AllocError, Global};

fn add_object(numbers: &mut List<TypeId>, meant: Option<Meant>) -> Result<(), AllocError>
    requires { spec.IsSmall meant }
    ensures { OnOk result (numbers.new ≡ numbers.old ++ spec.object_in meant) }
{
    match meant {
        Some(Meant::Object(place)) => numbers.push(TypeId(place as u32)),
        Some(Meant::Scalar(_)) => Ok(()),
        None => Ok(()),
    }
}

fn numbers_of(
    alloc: Global,
    types: &Names,
    bases: &[QualifiedName],
) -> Result<List<TypeId>, AllocError>
    requires { length types.now < 2 ^ 32 }
    ensures { IfOk result (λ l. l ≡ spec.numbers_of types.now bases.now) }
{
    let mut numbers = List::new(alloc);
    for base in bases {
        add_object(&mut numbers, meaning_of(types, base))?;
    }
    Ok(numbers)
}

/// The types that each type extends directly.
pub fn bases_of(
    alloc: Global,
    types: &Names,
    decls: &[Decl],
) -> Result<List<List<TypeId>>, AllocError>
    requires { length types.now < 2 ^ 32 }
    ensures { IfOk result (λ l. l ≡ spec.bases_of types.now decls.now) }
{
    let mut all = List::new(alloc);
    for decl in decls {
        if let Decl::Type(_, found) = decl {
            all.push(numbers_of(alloc, types, found.bases.as_slice())?)?;
        }
    }
    Ok(all)
}

/// What stands in a list of lists under a number.
pub fn at<T>(lists: &[List<T>], number: usize) -> &[T]
    ensures { result.now ≡ spec.at lists.now number }
{
    match lists.get(number) {
        Some(list) => list.as_slice(),
        None => &[],
    }
}

/// The types that were found so far, and those of them whose bases were not looked at.
#[derive(Drop)]
struct Search {
    found: List<bool>,
    pending: List<TypeId>,
}

/// A search over so many types that has found none.
fn none_found(alloc: Global, count: usize) -> Result<Search, AllocError>
    ensures { IfOk result (λ s. s ≡ search.none_found count) }
{
    let found = List::from_vec(vec![in alloc; false; count]?);
    let pending = List::new(alloc);
    Ok(Search { found, pending })
}

/// Whether a type of the list is not found.
fn is_missing(found: &[bool], number: usize) -> bool
    ensures missing { result ≡ search.is_missing found.now number }
    ensures within { IsTrue result → number < length found.now }
{
    if number < found.len() {
        !found[number]
    } else {
        false
    }
}

impl Search {
    /// Notes a type: where it was not found, it is found and pending.
    fn note(&mut self, ty: TypeId) -> Result<(), AllocError>
        ensures { OnOk result (self.new ≡ search.noted self.old ty) }
    {
        let number = ty.0 as usize;
        if is_missing(self.found.as_slice(), number) {
            self.found.set(number, true);
            self.pending.push(ty)?;
        }
        Ok(())
    }

    fn note_all(&mut self, types: &[TypeId]) -> Result<(), AllocError>
        ensures { OnOk result (self.new ≡ search.all_noted self.old types.now) }
    {
        for ty in types {
            self.note(*ty)?;
        }
        Ok(())
    }
}

/// The numbers of what is found, in their order.
fn numbers_found(alloc: Global, found: &[bool]) -> Result<List<TypeId>, AllocError>
    requires { length found.now < 2 ^ 32 }
    ensures { IfOk result (λ l. l ≡ search.found_from 0 found.now) }
{
    let mut numbers = List::new(alloc);
    for (number, is_found) in found.iter().enumerate() {
        if *is_found {
            numbers.push(TypeId(number as u32))?;
        }
    }
    Ok(numbers)
}

/// The types that a type extends at any distance: a search from its bases on.
fn lineage(alloc: Global, bases: &[List<TypeId>], ty: TypeId) -> Result<List<TypeId>, AllocError>
    requires few { length bases.now < 2 ^ 32 }
    requires within { search.AreWithin bases.now }
    ensures { IfOk result (λ line. spec.IsLineage bases.now ty line) }
{
    let own = at(bases, ty.0 as usize);
    if own.is_empty() {
        return Ok(List::new(alloc));
    }
    let mut search = none_found(alloc, bases.len())?;
    search.note_all(own)?;
    while let Some(next) = search.pending.pop() {
        search.note_all(at(bases, next.0 as usize))?;
    }
    numbers_found(alloc, search.found.as_slice())
}

/// The lineage of each type.
pub fn lineages(alloc: Global, bases: &[List<TypeId>]) -> Result<List<List<TypeId>>, AllocError>
    requires few { length bases.now < 2 ^ 32 }
    requires within { search.AreWithin bases.now }
    ensures { IfOk result (λ lines. spec.AreLineages bases.now lines) }
{
    let mut lines = List::new(alloc);
    for number in 0..bases.len() {
        lines.push(lineage(alloc, bases, TypeId(number as u32))?)?;
    }
    Ok(lines)
}

fn extends_itself(lines: &[List<TypeId>], number: usize) -> bool
    ensures { result ≡ spec.extends_itself lines.now number }
{
    for ty in at(lines, number) {
        if number == ty.0 as usize {
            return true;
        }
    }
    false
}

/// M3: the least byte of a type that extends itself.
#[tactic(auto, using(crate::proofs::LeastLaws::sooner_none, crate::proofs::LeastLaws::sooner_assoc))]
pub fn circular(lines: &[List<TypeId>], decls: &[Decl]) -> Option<u32>
    ensures { result ≡ spec.circular lines.now decls.now }
{
    let mut found = None;
    let mut number: usize = 0;
    for decl in decls {
        if let Decl::Type(span, _) = decl {
            found = sooner(found, at_if(extends_itself(lines, number), span.start));
            number += 1;
        }
    }
    found
}

fn add_pointer_name(
    alloc: Global,
    names: &mut List<Text>,
    member: &Member,
) -> Result<(), AllocError>
    ensures { OnOk result (names.new ≡ names.old ++ spec.pointer_name member.now) }
{
    match member {
        Member::Pointer(_, pointer) => names.push(pointer.name.text.copied(alloc)?),
        Member::Policy(_, _) => Ok(()),
        Member::Index(_, _) => Ok(()),
        Member::Annotation(_) => Ok(()),
    }
}

fn pointer_names(alloc: Global, members: &[Member]) -> Result<List<Text>, AllocError>
    ensures { IfOk result (λ l. l ≡ spec.pointer_names members.now) }
{
    let mut names = List::new(alloc);
    for member in members {
        add_pointer_name(alloc, &mut names, member)?;
    }
    Ok(names)
}

/// The names of the pointers that each type declares.
pub fn declared_names(alloc: Global, decls: &[Decl]) -> Result<List<List<Text>>, AllocError>
    ensures { IfOk result (λ l. l ≡ spec.declared_names decls.now) }
{
    let mut all = List::new(alloc);
    for decl in decls {
        if let Decl::Type(_, found) = decl {
            all.push(pointer_names(alloc, found.members.as_slice())?)?;
        }
    }
    Ok(all)
}

fn add_all(alloc: Global, seen: &mut Names, names: &[Text]) -> Result<(), AllocError>
    ensures { OnOk result (seen.new ≡ seen.old ++ names.now) }
{
    for name in names {
        seen.add(alloc, name)?;
    }
    Ok(())
}

fn shares(seen: &Names, names: &[Text]) -> bool
    ensures { result ≡ spec.shares seen.now names.now }
{
    for name in names {
        if seen.has(name) {
            return true;
        }
    }
    false
}

fn repeats_a_name(alloc: Global, names: &[Text]) -> Result<bool, AllocError>
    ensures { IfOk result (λ b. b ≡ spec.repeats_a_name names.now) }
{
    let mut seen = Names::new(alloc);
    for name in names {
        if seen.has(name) {
            return Ok(true);
        }
        seen.add(alloc, name)?;
    }
    Ok(false)
}

/// Whether a type has one name from two types.
fn line_shares_a_name(
    alloc: Global,
    names: &[List<Text>],
    own: &[Text],
    line: &[TypeId],
) -> Result<bool, AllocError>
    ensures { IfOk result (λ b. b ≡ spec.line_shares_a_name names.now own.now line.now) }
{
    let mut seen = Names::new(alloc);
    add_all(alloc, &mut seen, own)?;
    for ty in line {
        let more = at(names, ty.0 as usize);
        if shares(&seen, more) {
            return Ok(true);
        }
        add_all(alloc, &mut seen, more)?;
    }
    Ok(false)
}

fn clashes(
    alloc: Global,
    names: &[List<Text>],
    lines: &[List<TypeId>],
    number: usize,
) -> Result<bool, AllocError>
    ensures { IfOk result (λ b. b ≡ spec.clashes names.now lines.now number) }
{
    let own = at(names, number);
    let line = at(lines, number);
    if repeats_a_name(alloc, own)? {
        return Ok(true);
    }
    if line.is_empty() {
        return Ok(false);
    }
    line_shares_a_name(alloc, names, own, line)
}

/// M4: the least byte of a type whose names of pointers clash.
#[tactic(auto, using(crate::proofs::LeastLaws::sooner_none, crate::proofs::LeastLaws::sooner_assoc))]
pub fn clashing(
    alloc: Global,
    names: &[List<Text>],
    lines: &[List<TypeId>],
    decls: &[Decl],
) -> Result<Option<u32>, AllocError>
    ensures { IfOk result (λ b. b ≡ spec.clashing_from names.now lines.now 0 decls.now) }
{
    let mut found = None;
    let mut number: usize = 0;
    for decl in decls {
        if let Decl::Type(span, _) = decl {
            found = sooner(
                found,
                at_if(clashes(alloc, names, lines, number)?, span.start),
            );
            number += 1;
        }
    }
    Ok(found)
}
