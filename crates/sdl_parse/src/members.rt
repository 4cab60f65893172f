//! Members of a type.
ghost use Rattle.std.specs.Prelude.{◌≡◌};
ghost use Rattle.exact.specs.Reading.{Reads, choose};
ghost use Rattle.eql_grammar.specs.Trees.{too_high};
ghost use Rattle.sdl_grammar.specs.Readers as spec;
ghost use Rattle.sdl_grammar.specs.Trees as t;
ghost use Rattle.sdl_grammar.specs.Words as sets;
ghost use Rattle.sdl_parse.specs.Behind.{member_annotation};

use crate::build::{
    bare_head, computed, no_quals, overloaded, pointer_head, pushed, qualified, stored,
};
use crate::front::{goes_on, member_word, sees_pointing, sees_typing};
use crate::items::items;
use crate::policies::{indexed, policed};
use crate::values::{annotated, close, typed, value, words};
use ast::Name;
use eql_build::{discard, holding};
use eql_cursor::Cursor;
use ev_lex::Sign;
use ev_value::List;
use exact::ReadError;
use sdl_ast::{Member, PointerKind};
use sdl_grammar::{MemberBlock, MemberForm, MemberWord, PointerHead, Quals};
use std::alloc::Global;

/// A pointer behind its name.
#[tactic(auto, unfolding(sdl_grammar::specs::Readers::pointed))]
fn pointed(alloc: Global, tokens: &mut Cursor<'_>, head: PointerHead) -> Result<Member, ReadError>
    ensures { Reads (spec.pointed too_high spec.text_expr head tokens.old) result tokens.new }
{
    if sees_typing(tokens) {
        let ty = holding!(head, typed(alloc, tokens));
        let block = holding!((head, ty), items(alloc, tokens));
        return Ok(stored(head, ty, block));
    }
    holding!(head, tokens.expect(false, Sign::Assign));
    let x = holding!(head, value(alloc, tokens));
    Ok(computed(head, x))
}

/// A pointer that no word stands before, behind its name.
fn bare(alloc: Global, tokens: &mut Cursor<'_>, name: Name) -> Result<Member, ReadError>
    ensures { Reads (spec.pointed too_high spec.text_expr (t.bare_head t.no_quals name) tokens.old) result tokens.new }
{
    pointed(alloc, tokens, bare_head(no_quals(), name))
}

/// A pointer behind the word `property` or `link`, which may be its name.
#[tactic(auto, unfolding(sdl_grammar::specs::Readers::kind_word))]
fn kind_word(
    alloc: Global,
    tokens: &mut Cursor<'_>,
    kind: PointerKind,
    q: Quals,
    name: Name,
) -> Result<Member, ReadError>
    ensures { Reads (spec.kind_word too_high spec.text_expr kind q name tokens.old) result tokens.new }
{
    if sees_pointing(tokens) {
        return pointed(alloc, tokens, bare_head(q, name));
    }
    let start = name.span.start;
    discard(name);
    let own = tokens.name(alloc)?;
    pointed(alloc, tokens, pointer_head(q, start, Some(kind), own))
}

/// A pointer behind the words of need and width.
#[tactic(auto, unfolding(sdl_grammar::specs::Readers::pointer, sdl_grammar::specs::Readers::pointer_of))]
fn pointer(alloc: Global, tokens: &mut Cursor<'_>, q: Quals) -> Result<Member, ReadError>
    ensures { Reads (spec.pointer too_high spec.text_expr q tokens.old) result tokens.new }
{
    let word = member_word(alloc, tokens)?;
    match word.form {
        MemberForm::Property => kind_word(alloc, tokens, PointerKind::Property, q, word.name),
        MemberForm::Link => kind_word(alloc, tokens, PointerKind::Link, q, word.name),
        MemberForm::Overloaded
        | MemberForm::Index
        | MemberForm::Annotation
        | MemberForm::Access
        | MemberForm::Other => pointed(alloc, tokens, bare_head(q, word.name)),
    }
}

/// A member behind the word `overloaded`, which may be its name.
#[tactic(auto, unfolding(sdl_grammar::specs::Readers::overloaded_member))]
fn overloaded_member(
    alloc: Global,
    tokens: &mut Cursor<'_>,
    name: Name,
) -> Result<Member, ReadError>
    ensures { Reads (spec.overloaded_member too_high spec.text_expr name tokens.old) result tokens.new }
{
    if sees_pointing(tokens) {
        return bare(alloc, tokens, name);
    }
    let before = overloaded(name.span.start);
    discard(name);
    if tokens.sees_qualifier() {
        let q = words(tokens)?;
        return pointer(alloc, tokens, qualified(before, q));
    }
    pointer(alloc, tokens, before)
}

/// A member behind the word `index`, which may be its name.
fn index_member(alloc: Global, tokens: &mut Cursor<'_>, name: Name) -> Result<Member, ReadError>
    ensures { Reads (choose sets.is_pointing (spec.pointed too_high spec.text_expr (t.bare_head t.no_quals name)) (spec.indexed too_high spec.text_expr name.span.start) tokens.old) result tokens.new }
{
    if sees_pointing(tokens) {
        return bare(alloc, tokens, name);
    }
    let start = name.span.start;
    discard(name);
    indexed(alloc, tokens, start)
}

/// A member behind the word `annotation`, which may be its name.
fn annotation_member(
    alloc: Global,
    tokens: &mut Cursor<'_>,
    name: Name,
) -> Result<Member, ReadError>
    ensures { Reads (choose sets.is_pointing (spec.pointed too_high spec.text_expr (t.bare_head t.no_quals name)) (member_annotation name.span.start) tokens.old) result tokens.new }
{
    if sees_pointing(tokens) {
        return bare(alloc, tokens, name);
    }
    let start = name.span.start;
    discard(name);
    Ok(Member::Annotation(annotated(alloc, tokens, start)?))
}

/// A member behind the word `access`, which may be its name.
fn policy_member(alloc: Global, tokens: &mut Cursor<'_>, name: Name) -> Result<Member, ReadError>
    ensures { Reads (choose sets.is_pointing (spec.pointed too_high spec.text_expr (t.bare_head t.no_quals name)) (spec.policed too_high spec.text_expr name.span.start) tokens.old) result tokens.new }
{
    if sees_pointing(tokens) {
        return bare(alloc, tokens, name);
    }
    let start = name.span.start;
    discard(name);
    policed(alloc, tokens, start)
}

/// A member behind its first word.
#[tactic(auto, unfolding(sdl_grammar::specs::Readers::member_of))]
fn member_of(alloc: Global, tokens: &mut Cursor<'_>, word: MemberWord) -> Result<Member, ReadError>
    ensures { Reads (spec.member_of too_high spec.text_expr word.form word.name tokens.old) result tokens.new }
{
    match word.form {
        MemberForm::Overloaded => overloaded_member(alloc, tokens, word.name),
        MemberForm::Property => {
            kind_word(alloc, tokens, PointerKind::Property, no_quals(), word.name)
        }
        MemberForm::Link => kind_word(alloc, tokens, PointerKind::Link, no_quals(), word.name),
        MemberForm::Index => index_member(alloc, tokens, word.name),
        MemberForm::Annotation => annotation_member(alloc, tokens, word.name),
        MemberForm::Access => policy_member(alloc, tokens, word.name),
        MemberForm::Other => bare(alloc, tokens, word.name),
    }
}

/// A member.
#[tactic(auto, unfolding(sdl_grammar::specs::Readers::a_member))]
fn a_member(alloc: Global, tokens: &mut Cursor<'_>) -> Result<Member, ReadError>
    ensures { Reads (spec.a_member too_high spec.text_expr tokens.old) result tokens.new }
{
    if tokens.sees_qualifier() {
        let q = words(tokens)?;
        return pointer(alloc, tokens, qualified(no_quals(), q));
    }
    let word = member_word(alloc, tokens)?;
    member_of(alloc, tokens, word)
}

/// Further members.
#[tactic(auto, using(exact::proofs::Turns::chain_stays, exact::proofs::Turns::chain_over, exact::proofs::Turns::chain_turn), unfolding(sdl_grammar::specs::Readers::some_members))]
fn some_members(
    alloc: Global,
    tokens: &mut Cursor<'_>,
    first: List<Member>,
) -> Result<List<Member>, ReadError>
    ensures { Reads (spec.some_members too_high spec.text_expr first tokens.old) result tokens.new }
{
    let mut all = first;
    for _turn in 0..tokens.left() {
        if !goes_on(tokens) {
            return Ok(all);
        }
        let x = holding!(all, a_member(alloc, tokens));
        all = pushed(all, x)?;
    }
    Ok(all)
}

/// Members in braces, or a semicolon.
#[tactic(auto, unfolding(sdl_grammar::specs::Readers::members))]
pub fn members(alloc: Global, tokens: &mut Cursor<'_>) -> Result<MemberBlock, ReadError>
    ensures { Reads (spec.members too_high spec.text_expr tokens.old) result tokens.new }
{
    if !tokens.sees(Sign::LeftBrace) {
        let at = tokens.expect(false, Sign::Semicolon)?;
        return Ok(MemberBlock {
            items: List::new(alloc),
            end: at.end,
        });
    }
    tokens.expect(false, Sign::LeftBrace)?;
    let items = some_members(alloc, tokens, List::new(alloc))?;
    let end = holding!(items, close(tokens));
    Ok(MemberBlock { items, end })
}
