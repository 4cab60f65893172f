//! Access policies and indexes.
ghost use Rattle.std.specs.Prelude.{◌≡◌};
ghost use Rattle.exact.specs.Reading.{Reads};
ghost use Rattle.eql_grammar.specs.Trees.{too_high};
ghost use Rattle.sdl_grammar.specs.Readers as spec;

use crate::build::{alone, index, policy, pushed};
use crate::values::{enclosed, notes};
use ast::Expr;
use eql_build::{discard, holding};
use eql_cursor::Cursor;
use ev_lex::{Keyword, Sign};
use ev_value::List;
use exact::ReadError;
use sdl_ast::{Action, Member, PolicyKind, PolicyKinds};
use std::alloc::Global;

/// An index behind the word `index`, which stands at the byte `start`.
#[tactic(auto, unfolding(sdl_grammar::specs::Readers::indexed))]
pub fn indexed(alloc: Global, tokens: &mut Cursor<'_>, start: u32) -> Result<Member, ReadError>
    ensures { Reads (spec.indexed too_high spec.text_expr start tokens.old) result tokens.new }
{
    tokens.expect_word(false, Keyword::On)?;
    let x = enclosed(alloc, tokens)?;
    let at = holding!(x, tokens.expect(false, Sign::Semicolon));
    Ok(index(start, x, at))
}

/// `allow` or `deny`.
#[tactic(auto, unfolding(sdl_grammar::specs::Readers::allow_or_deny))]
fn allow_or_deny(tokens: &mut Cursor<'_>) -> Result<Action, ReadError>
    ensures { Reads (spec.allow_or_deny too_high spec.text_expr tokens.old) result tokens.new }
{
    if tokens.sees_word(Keyword::Allow) {
        tokens.expect_word(false, Keyword::Allow)?;
        return Ok(Action::Allow);
    }
    tokens.expect_word(false, Keyword::Deny)?;
    Ok(Action::Deny)
}

/// `update`, and maybe what of it.
#[tactic(auto, unfolding(sdl_grammar::specs::Readers::updating))]
fn updating(tokens: &mut Cursor<'_>) -> Result<PolicyKind, ReadError>
    ensures { Reads (spec.updating too_high spec.text_expr tokens.old) result tokens.new }
{
    tokens.expect_word(false, Keyword::Update)?;
    if tokens.sees_word(Keyword::Read) {
        tokens.expect_word(false, Keyword::Read)?;
        return Ok(PolicyKind::UpdateRead);
    }
    if tokens.sees_word(Keyword::Write) {
        tokens.expect_word(false, Keyword::Write)?;
        return Ok(PolicyKind::UpdateWrite);
    }
    Ok(PolicyKind::Update)
}

/// One thing that a policy is for.
#[tactic(auto, unfolding(sdl_grammar::specs::Readers::policy_kind))]
fn policy_kind(tokens: &mut Cursor<'_>) -> Result<PolicyKind, ReadError>
    ensures { Reads (spec.policy_kind too_high spec.text_expr tokens.old) result tokens.new }
{
    if tokens.sees_word(Keyword::Select) {
        tokens.expect_word(false, Keyword::Select)?;
        return Ok(PolicyKind::Select);
    }
    if tokens.sees_word(Keyword::Insert) {
        tokens.expect_word(false, Keyword::Insert)?;
        return Ok(PolicyKind::Insert);
    }
    if tokens.sees_word(Keyword::Delete) {
        tokens.expect_word(false, Keyword::Delete)?;
        return Ok(PolicyKind::Delete);
    }
    updating(tokens)
}

/// Further things that a policy is for, each behind a comma.
#[tactic(auto, using(exact::proofs::Turns::chain_stays, exact::proofs::Turns::chain_over, exact::proofs::Turns::chain_turn), unfolding(sdl_grammar::specs::Readers::further_kinds))]
fn further_kinds(
    tokens: &mut Cursor<'_>,
    first: List<PolicyKind>,
) -> Result<List<PolicyKind>, ReadError>
    ensures { Reads (spec.further_kinds too_high spec.text_expr first tokens.old) result tokens.new }
{
    let mut all = first;
    for _turn in 0..tokens.left() {
        if !tokens.sees(Sign::Comma) {
            return Ok(all);
        }
        tokens.expect(false, Sign::Comma)?;
        let kind = policy_kind(tokens)?;
        all = pushed(all, kind)?;
    }
    Ok(all)
}

/// All that a policy is for.
#[tactic(auto, unfolding(sdl_grammar::specs::Readers::policy_kinds))]
fn policy_kinds(alloc: Global, tokens: &mut Cursor<'_>) -> Result<PolicyKinds, ReadError>
    ensures { Reads (spec.policy_kinds too_high spec.text_expr tokens.old) result tokens.new }
{
    if tokens.sees_word(Keyword::All) {
        tokens.expect_word(false, Keyword::All)?;
        return Ok(PolicyKinds::All);
    }
    let first = policy_kind(tokens)?;
    Ok(PolicyKinds::These(further_kinds(tokens, alone(alloc, first)?)?))
}

/// The condition of a policy, if it has one.
#[tactic(auto, unfolding(sdl_grammar::specs::Readers::using))]
fn condition(alloc: Global, tokens: &mut Cursor<'_>) -> Result<Option<Expr>, ReadError>
    ensures { Reads (spec.using too_high spec.text_expr tokens.old) result tokens.new }
{
    if !tokens.sees_word(Keyword::Using) {
        return Ok(None);
    }
    tokens.expect_word(false, Keyword::Using)?;
    Ok(Some(enclosed(alloc, tokens)?))
}

/// A policy behind the word `access`, which stands at the byte `start`.
#[tactic(auto, unfolding(sdl_grammar::specs::Readers::policed))]
pub fn policed(alloc: Global, tokens: &mut Cursor<'_>, start: u32) -> Result<Member, ReadError>
    ensures { Reads (spec.policed too_high spec.text_expr start tokens.old) result tokens.new }
{
    tokens.expect_word(false, Keyword::Policy)?;
    let name = tokens.name(alloc)?;
    let action = holding!(name, allow_or_deny(tokens));
    let kinds = holding!(name, policy_kinds(alloc, tokens));
    let condition = holding!((name, kinds), condition(alloc, tokens));
    let block = holding!((name, kinds, condition), notes(alloc, tokens));
    Ok(policy(start, name, action, kinds, condition, block))
}
