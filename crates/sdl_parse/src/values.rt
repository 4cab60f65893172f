//! Expressions inside a schema, what stands behind them, annotations, and the words before a pointer's name.
ghost use Rattle.std.specs.Prelude.{◌≡◌};
ghost use Rattle.exact.specs.Reading.{Reads};
ghost use Rattle.eql_grammar.specs.Trees.{too_high};
ghost use Rattle.sdl_grammar.specs.Readers as spec;

use crate::build::{annotation, ended, pushed, turned_words};
use ast::{Expr, QualifiedName};
use eql_build::{both_words, discard, holding, too_high};
use eql_cursor::{Cursor, qualified_name};
use eql_grammar::{GrownExpr, Qualified};
use ev_lex::{Keyword, Sign};
use ev_value::List;
use exact::ReadError;
use sdl_ast::Annotation;
use sdl_grammar::{EndedExpr, NoteBlock};
use std::alloc::Global;

/// An expression. Its limits count from its own first token.
#[tactic(auto, unfolding(sdl_grammar::specs::Readers::text_expr))]
pub fn expr(alloc: Global, tokens: &mut Cursor<'_>) -> Result<GrownExpr, ReadError>
    ensures { Reads (spec.text_expr tokens.old) result tokens.new }
{
    eql_parse::expr(alloc, tokens)
}

/// A closing brace, maybe with a semicolon behind it. The byte behind it.
#[tactic(auto, unfolding(sdl_grammar::specs::Readers::close))]
pub fn close(tokens: &mut Cursor<'_>) -> Result<u32, ReadError>
    ensures { Reads (spec.close tokens.old) result tokens.new }
{
    let brace = tokens.expect(false, Sign::RightBrace)?;
    if !tokens.sees(Sign::Semicolon) {
        return Ok(brace.end);
    }
    let at = tokens.expect(false, Sign::Semicolon)?;
    Ok(at.end)
}

/// A type behind a name, in either spelling.
#[tactic(auto, unfolding(sdl_grammar::specs::Readers::typed))]
pub fn typed(alloc: Global, tokens: &mut Cursor<'_>) -> Result<QualifiedName, ReadError>
    ensures { Reads (spec.typed tokens.old) result tokens.new }
{
    if tokens.sees(Sign::Colon) {
        tokens.expect(false, Sign::Colon)?;
    } else {
        tokens.expect(false, Sign::Arrow)?;
    }
    qualified_name(alloc, tokens)
}

/// `required` or `optional`, and maybe `single` or `multi`, in either order.
#[tactic(auto, unfolding(sdl_grammar::specs::Readers::words))]
pub fn words(tokens: &mut Cursor<'_>) -> Result<Qualified, ReadError>
    ensures { Reads (spec.words tokens.old) result tokens.new }
{
    if tokens.sees_need() {
        let first = tokens.need()?;
        if !tokens.sees_width() {
            return Ok(first);
        }
        let second = tokens.width()?;
        return Ok(both_words(first, second));
    }
    let first = tokens.width()?;
    if !tokens.sees_need() {
        return Ok(first);
    }
    let second = tokens.need()?;
    Ok(turned_words(first, second))
}

/// An expression and a semicolon.
#[tactic(auto, unfolding(sdl_grammar::specs::Readers::value))]
pub fn value(alloc: Global, tokens: &mut Cursor<'_>) -> Result<EndedExpr, ReadError>
    ensures { Reads (spec.value too_high spec.text_expr tokens.old) result tokens.new }
{
    let x = expr(alloc, tokens)?;
    let at = holding!(x, tokens.expect(too_high(x.height), Sign::Semicolon));
    Ok(ended(x, at))
}

/// An expression in parentheses.
#[tactic(auto, unfolding(sdl_grammar::specs::Readers::enclosed))]
pub fn enclosed(alloc: Global, tokens: &mut Cursor<'_>) -> Result<Expr, ReadError>
    ensures { Reads (spec.enclosed too_high spec.text_expr tokens.old) result tokens.new }
{
    tokens.expect(false, Sign::LeftParen)?;
    let x = expr(alloc, tokens)?;
    holding!(x, tokens.expect(too_high(x.height), Sign::RightParen));
    Ok(x.expr)
}

/// An annotation behind its first word, which stands at the byte `start`.
#[tactic(auto, unfolding(sdl_grammar::specs::Readers::annotated))]
pub fn annotated(
    alloc: Global,
    tokens: &mut Cursor<'_>,
    start: u32,
) -> Result<Annotation, ReadError>
    ensures { Reads (spec.annotated too_high spec.text_expr start tokens.old) result tokens.new }
{
    let name = tokens.name(alloc)?;
    holding!(name, tokens.expect(false, Sign::Assign));
    let x = holding!(name, value(alloc, tokens));
    Ok(annotation(start, name, x))
}

/// Further annotations.
#[tactic(auto, using(exact::proofs::Turns::chain_stays, exact::proofs::Turns::chain_over, exact::proofs::Turns::chain_turn), unfolding(sdl_grammar::specs::Readers::annotations))]
fn annotations(
    alloc: Global,
    tokens: &mut Cursor<'_>,
    first: List<Annotation>,
) -> Result<List<Annotation>, ReadError>
    ensures { Reads (spec.annotations too_high spec.text_expr first tokens.old) result tokens.new }
{
    let mut all = first;
    for _turn in 0..tokens.left() {
        if !tokens.sees_word(Keyword::Annotation) {
            return Ok(all);
        }
        let at = holding!(all, tokens.expect_word(false, Keyword::Annotation));
        let x = holding!(all, annotated(alloc, tokens, at.start));
        all = pushed(all, x)?;
    }
    Ok(all)
}

/// Annotations in braces, or a semicolon.
#[tactic(auto, unfolding(sdl_grammar::specs::Readers::notes))]
pub fn notes(alloc: Global, tokens: &mut Cursor<'_>) -> Result<NoteBlock, ReadError>
    ensures { Reads (spec.notes too_high spec.text_expr tokens.old) result tokens.new }
{
    if !tokens.sees(Sign::LeftBrace) {
        let at = tokens.expect(false, Sign::Semicolon)?;
        return Ok(NoteBlock {
            items: List::new(alloc),
            end: at.end,
        });
    }
    tokens.expect(false, Sign::LeftBrace)?;
    let items = annotations(alloc, tokens, List::new(alloc))?;
    let end = holding!(items, close(tokens));
    Ok(NoteBlock { items, end })
}
