//! Items of a pointer.
ghost use Rattle.std.specs.Prelude.{◌≡◌, false};
ghost use Rattle.exact.specs.Reading.{Reads, choose};
ghost use Rattle.eql_grammar.specs.Trees.{too_high};
ghost use Rattle.sdl_grammar.specs.Readers as spec;
ghost use Rattle.sdl_grammar.specs.Trees as t;
ghost use Rattle.sdl_grammar.specs.Words as sets;
ghost use Rattle.sdl_parse.specs.Behind.{delegated_constraint, item_annotation};

use crate::build::{
    bare_head, constraint, default_item, deletion, link_property, no_quals, overloaded,
    pointer_head, pushed, qualified,
};
use crate::front::{goes_on, item_word, sees_typing};
use crate::values::{annotated, close, expr, notes, typed, value, words};
use ast::Name;
use eql_build::{added, alone, discard, holding, nothing_yet, too_high};
use eql_cursor::Cursor;
use eql_grammar::Bunch;
use ev_lex::{Keyword, Sign};
use ev_value::List;
use exact::ReadError;
use sdl_ast::{DeletionWord, Item, PointerKind};
use sdl_grammar::{ItemBlock, ItemForm, ItemWord, PointerHead, Quals};
use std::alloc::Global;

/// A property of a link, behind its name.
#[tactic(auto, unfolding(sdl_grammar::specs::Readers::propertied))]
fn propertied(alloc: Global, tokens: &mut Cursor<'_>, head: PointerHead) -> Result<Item, ReadError>
    ensures { Reads (spec.propertied too_high spec.text_expr head tokens.old) result tokens.new }
{
    let ty = holding!(head, typed(alloc, tokens));
    let block = holding!((head, ty), notes(alloc, tokens));
    Ok(link_property(head, ty, block))
}

/// A property of a link that no word stands before, behind its name.
fn bare(alloc: Global, tokens: &mut Cursor<'_>, name: Name) -> Result<Item, ReadError>
    ensures { Reads (spec.propertied too_high spec.text_expr (t.bare_head t.no_quals name) tokens.old) result tokens.new }
{
    propertied(alloc, tokens, bare_head(no_quals(), name))
}

/// Further arguments, each behind a comma.
#[tactic(auto, using(exact::proofs::Turns::chain_stays, exact::proofs::Turns::chain_over, exact::proofs::Turns::chain_turn), unfolding(sdl_grammar::specs::Readers::further))]
fn further(alloc: Global, tokens: &mut Cursor<'_>, first: Bunch) -> Result<Bunch, ReadError>
    ensures { Reads (spec.further too_high spec.text_expr first tokens.old) result tokens.new }
{
    let mut all = first;
    for _turn in 0..tokens.left() {
        if !tokens.sees(Sign::Comma) {
            return Ok(all);
        }
        holding!(all, tokens.expect(too_high(all.height), Sign::Comma));
        let x = holding!(all, expr(alloc, tokens));
        all = added(all, x)?;
    }
    Ok(all)
}

/// The arguments of a constraint, in parentheses.
#[tactic(auto, unfolding(sdl_grammar::specs::Readers::arguments))]
fn arguments(alloc: Global, tokens: &mut Cursor<'_>) -> Result<Bunch, ReadError>
    ensures { Reads (spec.arguments too_high spec.text_expr tokens.old) result tokens.new }
{
    tokens.expect(false, Sign::LeftParen)?;
    let x = expr(alloc, tokens)?;
    let all = further(alloc, tokens, alone(alloc, x)?)?;
    holding!(all, tokens.expect(too_high(all.height), Sign::RightParen));
    Ok(all)
}

/// A constraint behind the word `constraint`, which begins at the byte `start`.
#[tactic(auto, unfolding(sdl_grammar::specs::Readers::constrained))]
fn constrained(
    alloc: Global,
    tokens: &mut Cursor<'_>,
    start: u32,
    delegated: bool,
) -> Result<Item, ReadError>
    ensures { Reads (spec.constrained too_high spec.text_expr start delegated tokens.old) result tokens.new }
{
    let name = tokens.name(alloc)?;
    let all = if tokens.sees(Sign::LeftParen) {
        holding!(name, arguments(alloc, tokens))
    } else {
        nothing_yet(alloc)
    };
    let at = holding!((name, all), tokens.expect(false, Sign::Semicolon));
    Ok(constraint(start, delegated, name, all, at))
}

/// A default behind its first word, which stands at the byte `start`.
#[tactic(auto, unfolding(sdl_grammar::specs::Readers::defaulted))]
fn defaulted(alloc: Global, tokens: &mut Cursor<'_>, start: u32) -> Result<Item, ReadError>
    ensures { Reads (spec.defaulted too_high spec.text_expr start tokens.old) result tokens.new }
{
    tokens.expect(false, Sign::Assign)?;
    let x = value(alloc, tokens)?;
    Ok(default_item(start, x))
}

/// The first word behind `on target delete`.
#[tactic(auto, unfolding(sdl_grammar::specs::Readers::first_word))]
fn first_word(alloc: Global, tokens: &mut Cursor<'_>) -> Result<DeletionWord, ReadError>
    ensures { Reads (spec.first_word too_high spec.text_expr tokens.old) result tokens.new }
{
    if tokens.sees_word(Keyword::Delete) {
        let at = tokens.expect_word(false, Keyword::Delete)?;
        return Ok(DeletionWord::Delete(at));
    }
    Ok(DeletionWord::Name(tokens.name(alloc)?))
}

/// Further words behind `on target delete`.
#[tactic(auto, using(exact::proofs::Turns::chain_stays, exact::proofs::Turns::chain_over, exact::proofs::Turns::chain_turn), unfolding(sdl_grammar::specs::Readers::names))]
fn names(alloc: Global, tokens: &mut Cursor<'_>, first: List<Name>) -> Result<List<Name>, ReadError>
    ensures { Reads (spec.names too_high spec.text_expr first tokens.old) result tokens.new }
{
    let mut all = first;
    for _turn in 0..tokens.left() {
        if tokens.closes(Sign::Semicolon) {
            return Ok(all);
        }
        let name = holding!(all, tokens.name(alloc));
        all = pushed(all, name)?;
    }
    Ok(all)
}

/// What becomes of an object whose target is deleted, behind the word `on`, which stands at the byte `start`.
#[tactic(auto, unfolding(sdl_grammar::specs::Readers::deleting))]
fn deleting(alloc: Global, tokens: &mut Cursor<'_>, start: u32) -> Result<Item, ReadError>
    ensures { Reads (spec.deleting too_high spec.text_expr start tokens.old) result tokens.new }
{
    tokens.expect_word(false, Keyword::Target)?;
    tokens.expect_word(false, Keyword::Delete)?;
    let first = first_word(alloc, tokens)?;
    let more = holding!(first, names(alloc, tokens, List::new(alloc)));
    let at = holding!((first, more), tokens.expect(false, Sign::Semicolon));
    Ok(deletion(start, first, more, at))
}

/// A property of a link behind the word `property`, which may be its name.
#[tactic(auto, unfolding(sdl_grammar::specs::Readers::property_word))]
fn property_word(
    alloc: Global,
    tokens: &mut Cursor<'_>,
    q: Quals,
    name: Name,
) -> Result<Item, ReadError>
    ensures { Reads (spec.property_word too_high spec.text_expr q name tokens.old) result tokens.new }
{
    if sees_typing(tokens) {
        return propertied(alloc, tokens, bare_head(q, name));
    }
    let start = name.span.start;
    discard(name);
    let own = tokens.name(alloc)?;
    let kind = Some(PointerKind::Property);
    propertied(alloc, tokens, pointer_head(q, start, kind, own))
}

/// A property of a link behind the words of need and width.
#[tactic(auto, unfolding(sdl_grammar::specs::Readers::property, sdl_grammar::specs::Readers::property_of))]
fn property(alloc: Global, tokens: &mut Cursor<'_>, q: Quals) -> Result<Item, ReadError>
    ensures { Reads (spec.property too_high spec.text_expr q tokens.old) result tokens.new }
{
    let word = item_word(alloc, tokens)?;
    match word.form {
        ItemForm::Property => property_word(alloc, tokens, q, word.name),
        ItemForm::Overloaded
        | ItemForm::Constraint
        | ItemForm::Delegated
        | ItemForm::Default
        | ItemForm::On
        | ItemForm::Annotation
        | ItemForm::Other => propertied(alloc, tokens, bare_head(q, word.name)),
    }
}

/// An item behind the word `overloaded`, which may be its name.
#[tactic(auto, unfolding(sdl_grammar::specs::Readers::overloaded_item))]
fn overloaded_item(alloc: Global, tokens: &mut Cursor<'_>, name: Name) -> Result<Item, ReadError>
    ensures { Reads (spec.overloaded_item too_high spec.text_expr name tokens.old) result tokens.new }
{
    if sees_typing(tokens) {
        return bare(alloc, tokens, name);
    }
    let before = overloaded(name.span.start);
    discard(name);
    if tokens.sees_qualifier() {
        let q = words(tokens)?;
        return property(alloc, tokens, qualified(before, q));
    }
    property(alloc, tokens, before)
}

/// An item behind the word `constraint`, which may be its name.
fn constraint_item(alloc: Global, tokens: &mut Cursor<'_>, name: Name) -> Result<Item, ReadError>
    ensures { Reads (choose sets.is_typing (spec.propertied too_high spec.text_expr (t.bare_head t.no_quals name)) (spec.constrained too_high spec.text_expr name.span.start false) tokens.old) result tokens.new }
{
    if sees_typing(tokens) {
        return bare(alloc, tokens, name);
    }
    let start = name.span.start;
    discard(name);
    constrained(alloc, tokens, start, false)
}

/// An item behind the word `delegated`, which may be its name.
fn delegated_item(alloc: Global, tokens: &mut Cursor<'_>, name: Name) -> Result<Item, ReadError>
    ensures { Reads (choose sets.is_typing (spec.propertied too_high spec.text_expr (t.bare_head t.no_quals name)) (delegated_constraint name.span.start) tokens.old) result tokens.new }
{
    if sees_typing(tokens) {
        return bare(alloc, tokens, name);
    }
    let start = name.span.start;
    discard(name);
    tokens.expect_word(false, Keyword::Constraint)?;
    constrained(alloc, tokens, start, true)
}

/// An item behind the word `default`, which may be its name.
fn default_word(alloc: Global, tokens: &mut Cursor<'_>, name: Name) -> Result<Item, ReadError>
    ensures { Reads (choose sets.is_typing (spec.propertied too_high spec.text_expr (t.bare_head t.no_quals name)) (spec.defaulted too_high spec.text_expr name.span.start) tokens.old) result tokens.new }
{
    if sees_typing(tokens) {
        return bare(alloc, tokens, name);
    }
    let start = name.span.start;
    discard(name);
    defaulted(alloc, tokens, start)
}

/// An item behind the word `on`, which may be its name.
fn deletion_item(alloc: Global, tokens: &mut Cursor<'_>, name: Name) -> Result<Item, ReadError>
    ensures { Reads (choose sets.is_typing (spec.propertied too_high spec.text_expr (t.bare_head t.no_quals name)) (spec.deleting too_high spec.text_expr name.span.start) tokens.old) result tokens.new }
{
    if sees_typing(tokens) {
        return bare(alloc, tokens, name);
    }
    let start = name.span.start;
    discard(name);
    deleting(alloc, tokens, start)
}

/// An item behind the word `annotation`, which may be its name.
fn annotation_item(alloc: Global, tokens: &mut Cursor<'_>, name: Name) -> Result<Item, ReadError>
    ensures { Reads (choose sets.is_typing (spec.propertied too_high spec.text_expr (t.bare_head t.no_quals name)) (item_annotation name.span.start) tokens.old) result tokens.new }
{
    if sees_typing(tokens) {
        return bare(alloc, tokens, name);
    }
    let start = name.span.start;
    discard(name);
    Ok(Item::Annotation(annotated(alloc, tokens, start)?))
}

/// An item behind its first word.
#[tactic(auto, unfolding(sdl_grammar::specs::Readers::item_of))]
fn item_of(alloc: Global, tokens: &mut Cursor<'_>, word: ItemWord) -> Result<Item, ReadError>
    ensures { Reads (spec.item_of too_high spec.text_expr word.form word.name tokens.old) result tokens.new }
{
    match word.form {
        ItemForm::Overloaded => overloaded_item(alloc, tokens, word.name),
        ItemForm::Property => property_word(alloc, tokens, no_quals(), word.name),
        ItemForm::Constraint => constraint_item(alloc, tokens, word.name),
        ItemForm::Delegated => delegated_item(alloc, tokens, word.name),
        ItemForm::Default => default_word(alloc, tokens, word.name),
        ItemForm::On => deletion_item(alloc, tokens, word.name),
        ItemForm::Annotation => annotation_item(alloc, tokens, word.name),
        ItemForm::Other => bare(alloc, tokens, word.name),
    }
}

/// An item.
#[tactic(auto, unfolding(sdl_grammar::specs::Readers::an_item))]
fn an_item(alloc: Global, tokens: &mut Cursor<'_>) -> Result<Item, ReadError>
    ensures { Reads (spec.an_item too_high spec.text_expr tokens.old) result tokens.new }
{
    if tokens.sees_qualifier() {
        let q = words(tokens)?;
        return property(alloc, tokens, qualified(no_quals(), q));
    }
    let word = item_word(alloc, tokens)?;
    item_of(alloc, tokens, word)
}

/// Further items.
#[tactic(auto, using(exact::proofs::Turns::chain_stays, exact::proofs::Turns::chain_over, exact::proofs::Turns::chain_turn), unfolding(sdl_grammar::specs::Readers::some_items))]
fn some_items(
    alloc: Global,
    tokens: &mut Cursor<'_>,
    first: List<Item>,
) -> Result<List<Item>, ReadError>
    ensures { Reads (spec.some_items too_high spec.text_expr first tokens.old) result tokens.new }
{
    let mut all = first;
    for _turn in 0..tokens.left() {
        if !goes_on(tokens) {
            return Ok(all);
        }
        let x = holding!(all, an_item(alloc, tokens));
        all = pushed(all, x)?;
    }
    Ok(all)
}

/// Items in braces, or a semicolon.
#[tactic(auto, unfolding(sdl_grammar::specs::Readers::items))]
pub fn items(alloc: Global, tokens: &mut Cursor<'_>) -> Result<ItemBlock, ReadError>
    ensures { Reads (spec.items too_high spec.text_expr tokens.old) result tokens.new }
{
    if !tokens.sees(Sign::LeftBrace) {
        let at = tokens.expect(false, Sign::Semicolon)?;
        return Ok(ItemBlock {
            items: List::new(alloc),
            end: at.end,
        });
    }
    tokens.expect(false, Sign::LeftBrace)?;
    let items = some_items(alloc, tokens, List::new(alloc))?;
    let end = holding!(items, close(tokens));
    Ok(ItemBlock { items, end })
}
