//! Types, globals, modules, and whole files.
ghost use Rattle.std.specs.Prelude.{◌≡◌, false};
ghost use Rattle.exact.specs.Reading.{Reads, whole};
ghost use Rattle.eql_grammar.specs.Trees.{too_high};
ghost use Rattle.sdl_grammar.specs.Readers as spec;

use crate::build::{alone, global_decl, module_of, no_parts, pushed, type_decl, with_part};
use crate::front::{sees_decl, sees_part};
use crate::members::members;
use crate::values::{close, typed};
use ast::QualifiedName;
use eql_build::{discard, holding};
use eql_cursor::{Cursor, qualified_name};
use ev_lex::{Keyword, Sign};
use ev_value::List;
use exact::{ReadError, Rule};
use sdl_ast::{Decl, FilePart, SdlFile};
use std::alloc::Global;

/// Further bases, each behind a comma.
#[tactic(auto, using(exact::proofs::Turns::chain_stays, exact::proofs::Turns::chain_over, exact::proofs::Turns::chain_turn), unfolding(sdl_grammar::specs::Readers::further_bases))]
fn further_bases(
    alloc: Global,
    tokens: &mut Cursor<'_>,
    first: List<QualifiedName>,
) -> Result<List<QualifiedName>, ReadError>
    ensures { Reads (spec.further_bases too_high spec.text_expr first tokens.old) result tokens.new }
{
    let mut all = first;
    for _turn in 0..tokens.left() {
        if !tokens.sees(Sign::Comma) {
            return Ok(all);
        }
        holding!(all, tokens.expect(false, Sign::Comma));
        let base = holding!(all, qualified_name(alloc, tokens));
        all = pushed(all, base)?;
    }
    Ok(all)
}

/// The types that a type extends.
#[tactic(auto, unfolding(sdl_grammar::specs::Readers::bases))]
fn bases(alloc: Global, tokens: &mut Cursor<'_>) -> Result<List<QualifiedName>, ReadError>
    ensures { Reads (spec.bases too_high spec.text_expr tokens.old) result tokens.new }
{
    if !tokens.sees_word(Keyword::Extending) {
        return Ok(List::new(alloc));
    }
    tokens.expect_word(false, Keyword::Extending)?;
    let first = qualified_name(alloc, tokens)?;
    further_bases(alloc, tokens, alone(alloc, first)?)
}

/// A type behind the word `type`. It begins at the byte `start`.
#[tactic(auto, unfolding(sdl_grammar::specs::Readers::type_of))]
fn type_of(
    alloc: Global,
    tokens: &mut Cursor<'_>,
    start: u32,
    is_abstract: bool,
) -> Result<Decl, ReadError>
    ensures { Reads (spec.type_of too_high spec.text_expr start is_abstract tokens.old) result tokens.new }
{
    let name = tokens.name(alloc)?;
    let all = holding!(name, bases(alloc, tokens));
    let block = holding!((name, all), members(alloc, tokens));
    Ok(type_decl(start, is_abstract, name, all, block))
}

/// A global.
#[tactic(auto, unfolding(sdl_grammar::specs::Readers::global_of))]
fn global_of(alloc: Global, tokens: &mut Cursor<'_>) -> Result<Decl, ReadError>
    ensures { Reads (spec.global_of too_high spec.text_expr tokens.old) result tokens.new }
{
    let at = tokens.expect_word(false, Keyword::Global)?;
    let name = tokens.name(alloc)?;
    let ty = holding!(name, typed(alloc, tokens));
    let end = holding!((name, ty), tokens.expect(false, Sign::Semicolon));
    Ok(global_decl(at.start, name, ty, end))
}

/// A declaration.
#[tactic(auto, unfolding(sdl_grammar::specs::Readers::a_decl))]
fn a_decl(alloc: Global, tokens: &mut Cursor<'_>) -> Result<Decl, ReadError>
    ensures { Reads (spec.a_decl too_high spec.text_expr tokens.old) result tokens.new }
{
    if tokens.sees_word(Keyword::Abstract) {
        let at = tokens.expect_word(false, Keyword::Abstract)?;
        tokens.expect_word(false, Keyword::Type)?;
        return type_of(alloc, tokens, at.start, true);
    }
    if tokens.sees_word(Keyword::Type) {
        let at = tokens.expect_word(false, Keyword::Type)?;
        return type_of(alloc, tokens, at.start, false);
    }
    global_of(alloc, tokens)
}

/// Further declarations.
#[tactic(auto, using(exact::proofs::Turns::chain_stays, exact::proofs::Turns::chain_over, exact::proofs::Turns::chain_turn), unfolding(sdl_grammar::specs::Readers::decls))]
fn decls(alloc: Global, tokens: &mut Cursor<'_>, first: List<Decl>) -> Result<List<Decl>, ReadError>
    ensures { Reads (spec.decls too_high spec.text_expr first tokens.old) result tokens.new }
{
    let mut all = first;
    for _turn in 0..tokens.left() {
        if !sees_decl(tokens) {
            return Ok(all);
        }
        let x = holding!(all, a_decl(alloc, tokens));
        all = pushed(all, x)?;
    }
    Ok(all)
}

/// A module.
#[tactic(auto, unfolding(sdl_grammar::specs::Readers::a_module))]
fn a_module(alloc: Global, tokens: &mut Cursor<'_>) -> Result<FilePart, ReadError>
    ensures { Reads (spec.a_module too_high spec.text_expr tokens.old) result tokens.new }
{
    let at = tokens.expect_word(false, Keyword::Module)?;
    let name = tokens.name(alloc)?;
    holding!(name, tokens.expect(false, Sign::LeftBrace));
    let all = holding!(name, decls(alloc, tokens, List::new(alloc)));
    let end = holding!((name, all), close(tokens));
    Ok(module_of(at.start, name, all, end))
}

/// A part of a file.
#[tactic(auto, unfolding(sdl_grammar::specs::Readers::a_part))]
fn a_part(alloc: Global, tokens: &mut Cursor<'_>) -> Result<FilePart, ReadError>
    ensures { Reads (spec.a_part too_high spec.text_expr tokens.old) result tokens.new }
{
    if tokens.sees_word(Keyword::Module) {
        return a_module(alloc, tokens);
    }
    Ok(FilePart::Decl(a_decl(alloc, tokens)?))
}

/// Further parts of a file.
#[tactic(auto, using(exact::proofs::Turns::chain_stays, exact::proofs::Turns::chain_over, exact::proofs::Turns::chain_turn), unfolding(sdl_grammar::specs::Readers::parts))]
fn parts(alloc: Global, tokens: &mut Cursor<'_>, first: SdlFile) -> Result<SdlFile, ReadError>
    ensures { Reads (spec.parts too_high spec.text_expr first tokens.old) result tokens.new }
{
    let mut all = first;
    for _turn in 0..tokens.left() {
        if !sees_part(tokens) {
            return Ok(all);
        }
        let x = holding!(all, a_part(alloc, tokens));
        all = with_part(all, x)?;
    }
    Ok(all)
}

/// A file, which all of the tokens are.
#[tactic(auto, unfolding(sdl_grammar::specs::Readers::file))]
pub fn whole_file(alloc: Global, tokens: &mut Cursor<'_>) -> Result<SdlFile, ReadError>
    ensures { Reads (whole (λ _. false) (spec.file too_high spec.text_expr) tokens.old) result tokens.new }
{
    let found = parts(alloc, tokens, no_parts(alloc))?;
    if tokens.left() > 0 {
        discard(found);
        return Err(ReadError::Refused(Rule::Unexpected));
    }
    Ok(found)
}
