//! Which rule a schema text breaks first, and the schema of a text that breaks none.
ghost use Rattle.std.specs.Prelude.{◌≡◌, ◌↔◌, ◌<◌, ◌+◌, ◌^◌, [], length, IsTrue, IfOk};
ghost use Rattle.ev_schema.specs.Facts.{made_of};
ghost use Rattle.ev_schema.specs.Numbered.{IsNumbered};
ghost use Rattle.schema_build.specs.Lineage.{declared_names as declared_names_of};
ghost use Rattle.schema_build.specs.Made.{count_of};
ghost use Rattle.schema_build.specs.Twice.{repeats, type_names};
ghost use Rattle.schema_build.specs.Verdict as spec;

use crate::least::sooner;
use crate::lineage::{bases_of, circular, clashing, declared_names, lineages};
use crate::local::{LocalRule, fails_in};
use crate::made::{declared_numbers, globals_of, infos_of, pointers_of};
use crate::parts::{decls_of, foreign_modules, some_unbuilt};
use crate::refusal::{Broken, Rule, SchemaRefusal};
use crate::twice::names_declared;
use core_ir::TypeId;
use ev_names::Names;
use ev_schema::Schema;
use ev_value::{List, Text};
use sdl_ast::{Decl, SdlFile};
use std::alloc::{AllocError, Global};

fn broken(rule: Rule, byte: Option<u32>) -> Option<Broken>
    ensures { result ≡ spec.broken rule byte }
{
    match byte {
        Some(byte) => Some(Broken { rule, byte }),
        None => None,
    }
}

/// M10 and M11 are one phase: the lesser byte is told, and at one byte M10.
fn together(reserved: Option<u32>, unsupported: Option<u32>) -> Option<Broken>
    ensures { result ≡ spec.together reserved unsupported }
{
    match (reserved, unsupported) {
        (None, byte) => broken(Rule::M11, byte),
        (Some(first), Some(second)) if second < first => broken(Rule::M11, Some(second)),
        (Some(first), _) => broken(Rule::M10, Some(first)),
    }
}

/// The phases in order: what the first tells, and else what the next one does.
fn or_else(first: Option<Broken>, later: Option<Broken>) -> Option<Broken>
    ensures { result ≡ spec.or_else first later }
{
    match first {
        Some(broken) => Some(broken),
        None => later,
    }
}

/// The first rule before M3 that fails: these need no types that others extend.
fn first_verdict(
    alloc: Global,
    types: &Names,
    repeated: Option<u32>,
    foreign: Option<u32>,
    decls: &[Decl],
) -> Result<Option<Broken>, AllocError>
    requires { repeated ≡ repeats decls.now }
    ensures { IfOk result (λ b. b ≡ spec.first_verdict foreign decls.now types.now) }
{
    let reserved = fails_in(alloc, types, LocalRule::M10, decls)?;
    let unsupported = fails_in(alloc, types, LocalRule::M11, decls)?;
    let unknown = fails_in(alloc, types, LocalRule::M2, decls)?;
    let first = together(reserved, sooner(foreign, unsupported));
    let later = or_else(broken(Rule::M1, repeated), broken(Rule::M2, unknown));
    Ok(or_else(first, later))
}

/// The first rule from M3 on that fails.
fn later_verdict(
    alloc: Global,
    types: &Names,
    lines: &[List<TypeId>],
    names: &[List<Text>],
    decls: &[Decl],
) -> Result<Option<Broken>, AllocError>
    requires { names.now ≡ declared_names_of decls.now }
    ensures { IfOk result (λ b. b ≡ spec.later_verdict decls.now types.now lines.now) }
{
    let clashing = clashing(alloc, names, lines, decls)?;
    let unsuited = fails_in(alloc, types, LocalRule::M5, decls)?;
    let misplaced = fails_in(alloc, types, LocalRule::M6, decls)?;
    let last = or_else(broken(Rule::M5, unsuited), broken(Rule::M6, misplaced));
    let later = or_else(broken(Rule::M4, clashing), last);
    Ok(or_else(broken(Rule::M3, circular(lines, decls)), later))
}

/// Whether the pointers and `id` behind them have numbers of 32 bits.
fn are_few(names: &[List<Text>]) -> bool
    ensures { IsTrue result ↔ (count_of names.now + 1 < 2 ^ 32) }
{
    let mut count: usize = 0;
    for own in names {
        count = count.saturating_add(own.len());
    }
    count < u32::MAX as usize
}

/// The schema of declarations that break no rule. Pointers without numbers of 32 bits do not fit into memory.
#[tactic(auto, using(crate::proofs::NumberLaws::schema_numbered))]
fn schema_of(
    alloc: Global,
    types: &Names,
    lines: &[List<TypeId>],
    names: &[List<Text>],
    decls: &[Decl],
) -> Result<Schema, AllocError>
    requires types { length types.now < 2 ^ 32 }
    requires decls { length decls.now < 2 ^ 32 }
    requires names { names.now ≡ declared_names_of decls.now }
    ensures schema { IfOk result (λ s. s ≡ spec.schema_of decls.now types.now lines.now) }
    ensures numbered { IfOk result IsNumbered }
{
    if !are_few(names) {
        return Err(AllocError);
    }
    let numbers = declared_numbers(alloc, names)?;
    let infos = infos_of(alloc, numbers.as_slice(), lines, decls)?;
    let pointers = pointers_of(alloc, types, decls)?;
    let globals = globals_of(alloc, types, decls)?;
    Schema::from_parts(alloc, infos, pointers, globals, List::new(alloc))
}

/// The schema of declarations that break no rule before M3, or the first rule from there on that they break.
fn built_along(
    alloc: Global,
    types: &Names,
    lines: &[List<TypeId>],
    decls: &[Decl],
) -> Result<Schema, SchemaRefusal>
    requires types { length types.now < 2 ^ 32 }
    requires decls { length decls.now < 2 ^ 32 }
    ensures told { spec.IsTold (spec.later_verdict decls.now types.now lines.now) (spec.schema_of decls.now types.now lines.now) result }
    ensures numbered { IfOk result IsNumbered }
{
    let names = declared_names(alloc, decls)?;
    match later_verdict(alloc, types, lines, names.as_slice(), decls)? {
        Some(broken) => Err(SchemaRefusal::Build(broken)),
        None => Ok(schema_of(alloc, types, lines, names.as_slice(), decls)?),
    }
}

/// The same, where the types that each type extends are not known yet.
fn built_later(alloc: Global, types: &Names, decls: &[Decl]) -> Result<Schema, SchemaRefusal>
    requires types { types.now ≡ type_names decls.now }
    requires decls { length decls.now < 2 ^ 32 }
    ensures later { spec.IsLater decls.now types.now result }
    ensures numbered { IfOk result IsNumbered }
{
    let bases = bases_of(alloc, types, decls)?;
    let lines = lineages(alloc, bases.as_slice())?;
    built_along(alloc, types, lines.as_slice(), decls)
}

fn built(alloc: Global, foreign: Option<u32>, decls: &[Decl]) -> Result<Schema, SchemaRefusal>
    requires { length decls.now < 2 ^ 32 }
    ensures answer { spec.IsAnswerOf foreign decls.now result }
    ensures numbered { IfOk result IsNumbered }
{
    if some_unbuilt(decls) {
        return Err(SchemaRefusal::Unbuilt);
    }
    let found = names_declared(alloc, decls)?;
    let types = &found.types;
    match first_verdict(alloc, types, found.repeated, foreign, decls)? {
        Some(broken) => Err(SchemaRefusal::Build(broken)),
        None => built_later(alloc, types, decls),
    }
}

/// The schema of a text (the EdgeDB documentation's pages on the schema language), or the first rule that it breaks. Each of
/// its types and pointers has a number of 32 bits: declarations that have none do not fit into memory.
pub fn build(alloc: Global, file: SdlFile) -> Result<Schema, SchemaRefusal>
    ensures answer { spec.IsAnswer file result }
    ensures numbered { IfOk result IsNumbered }
{
    let foreign = foreign_modules(file.parts.as_slice());
    let decls = decls_of(alloc, file.parts)?;
    if decls.len() > u32::MAX as usize {
        return Err(SchemaRefusal::Memory);
    }
    built(alloc, foreign, decls.as_slice())
}

/// The schema without types.
#[tactic(auto, using(crate::proofs::NumberLaws::empty_numbered))]
pub fn empty(alloc: Global) -> Result<Schema, AllocError>
    ensures schema { IfOk result (λ s. s ≡ made_of [] [] [] []) }
    ensures numbered { IfOk result IsNumbered }
{
    Schema::from_parts(
        alloc,
        List::new(alloc),
        List::new(alloc),
        List::new(alloc),
        List::new(alloc),
    )
}
