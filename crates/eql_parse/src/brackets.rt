//! Brackets, calls, and expressions with commas between them.
ghost use Rattle.std.specs.Prelude.{◌≡◌, ◌<◌, ◌==◌, ◌||◌};
ghost use Rattle.exact.specs.Reading.{Reads};
ghost use Rattle.eql_grammar.specs.Readers as spec;
ghost use Rattle.eql_grammar.specs.Trees.{too_high};
ghost use Rattle.eql_parse.specs.Nests.{Nests};

use crate::grammar::Grammar;
use crate::part::{Level, Open, Part};
use ast::{QualifiedName, Span};
use eql_build::{
    added, alone, call, grouped, holding, named, nothing_yet, set, stated, statement_height,
    statement_of, too_high, tuple,
};
use eql_cursor::{Cursor, qualified_name};
use eql_grammar::{Bunch, GrownExpr};
use ev_lex::Sign;
use exact::ReadError;
use std::alloc::Global;

impl<F: Fn(Global, &mut Cursor<'_>, usize, Open) -> Result<Part, ReadError>> Grammar<F> {
    /// Further expressions, each behind a comma.
    #[tactic(auto, using(exact::proofs::Turns::chain_stays, exact::proofs::Turns::chain_over, exact::proofs::Turns::chain_turn), unfolding(eql_grammar::specs::Readers::further))]
    fn further(&self, tokens: &mut Cursor<'_>, first: Bunch) -> Result<Bunch, ReadError>
        requires nests { Nests self.now.depth (F.pre self.now.inner) (F.post self.now.inner) }
        requires deeper { 0 < self.now.depth }
        ensures { Reads (spec.further self.now.depth too_high (spec.inside too_high self.now.depth) first tokens.old) result tokens.new }
    {
        let mut all = first;
        for _turn in 0..tokens.left() {
            if !tokens.sees(Sign::Comma) {
                return Ok(all);
            }
            holding!(all, tokens.expect(too_high(all.height), Sign::Comma));
            let x = holding!(all, self.open_expr(tokens, Level::Expr));
            all = added(all, x)?;
        }
        Ok(all)
    }

    /// An expression, and further ones.
    #[tactic(auto, unfolding(eql_grammar::specs::Readers::listed))]
    fn listed(&self, tokens: &mut Cursor<'_>, before: Bunch) -> Result<Bunch, ReadError>
        requires nests { Nests self.now.depth (F.pre self.now.inner) (F.post self.now.inner) }
        requires deeper { 0 < self.now.depth }
        ensures { Reads (spec.listed self.now.depth too_high (spec.inside too_high self.now.depth) before tokens.old) result tokens.new }
    {
        let x = holding!(before, self.open_expr(tokens, Level::Expr));
        self.further(tokens, added(before, x)?)
    }

    /// What stands in the parentheses behind a name.
    #[tactic(auto, unfolding(eql_grammar::specs::Readers::arguments))]
    fn arguments(
        &self,
        tokens: &mut Cursor<'_>,
        name: QualifiedName,
    ) -> Result<GrownExpr, ReadError>
        requires { Nests self.now.depth (F.pre self.now.inner) (F.post self.now.inner) }
        ensures { Reads (spec.arguments self.now.depth too_high (spec.inside too_high self.now.depth) name tokens.old) result tokens.new }
    {
        holding!(name, tokens.expect(self.depth == 0, Sign::LeftParen));
        if tokens.sees(Sign::RightParen) {
            let close = holding!(name, tokens.expect(false, Sign::RightParen));
            return Ok(call(name, nothing_yet(self.alloc), close));
        }
        let all = holding!(name, self.listed(tokens, nothing_yet(self.alloc)));
        let close = holding!(
            (name, all),
            tokens.expect(too_high(all.height), Sign::RightParen)
        );
        Ok(call(name, all, close))
    }

    /// A name, or a call.
    #[tactic(auto, unfolding(eql_grammar::specs::Readers::name_or_call))]
    pub fn name_or_call(&self, tokens: &mut Cursor<'_>) -> Result<GrownExpr, ReadError>
        requires { Nests self.now.depth (F.pre self.now.inner) (F.post self.now.inner) }
        ensures { Reads (spec.name_or_call self.now.depth too_high (spec.inside too_high self.now.depth) tokens.old) result tokens.new }
    {
        let name = qualified_name(self.alloc, tokens)?;
        if !tokens.sees(Sign::LeftParen) {
            return Ok(named(name));
        }
        self.arguments(tokens, name)
    }

    /// What stands behind the first expression in parentheses.
    #[tactic(auto, unfolding(eql_grammar::specs::Readers::closed))]
    fn closed(
        &self,
        tokens: &mut Cursor<'_>,
        bracket: Span,
        x: GrownExpr,
    ) -> Result<GrownExpr, ReadError>
        requires nests { Nests self.now.depth (F.pre self.now.inner) (F.post self.now.inner) }
        requires deeper { 0 < self.now.depth }
        ensures { Reads (spec.closed self.now.depth too_high (spec.inside too_high self.now.depth) bracket x tokens.old) result tokens.new }
    {
        if tokens.sees(Sign::RightParen) {
            let close = holding!(x, tokens.expect(too_high(x.height), Sign::RightParen));
            return Ok(grouped(self.alloc, bracket, x, close)?);
        }
        holding!(x, tokens.expect(too_high(x.height), Sign::Comma));
        if tokens.sees(Sign::RightParen) {
            let close = holding!(x, tokens.expect(false, Sign::RightParen));
            return Ok(tuple(bracket, alone(self.alloc, x)?, close));
        }
        let all = self.listed(tokens, alone(self.alloc, x)?)?;
        let close = holding!(all, tokens.expect(too_high(all.height), Sign::RightParen));
        Ok(tuple(bracket, all, close))
    }

    /// What stands in parentheses.
    #[tactic(auto, unfolding(eql_grammar::specs::Readers::group))]
    pub fn group(&self, tokens: &mut Cursor<'_>) -> Result<GrownExpr, ReadError>
        requires { Nests self.now.depth (F.pre self.now.inner) (F.post self.now.inner) }
        ensures { Reads (spec.group self.now.depth too_high (spec.inside too_high self.now.depth) tokens.old) result tokens.new }
    {
        let bracket = tokens.expect(self.depth == 0, Sign::LeftParen)?;
        if tokens.sees_statement() {
            let s = self.open_statement(tokens)?;
            let high = too_high(statement_height(&s));
            let close = holding!(s, tokens.expect(high, Sign::RightParen));
            let s = statement_of(self.alloc, s)?;
            return Ok(stated(self.alloc, bracket, s, close)?);
        }
        let x = self.open_expr(tokens, Level::Expr)?;
        self.closed(tokens, bracket, x)
    }

    /// Further items of set braces, and maybe a last comma.
    #[tactic(auto, using(exact::proofs::Turns::loop_over, exact::proofs::Turns::loop_turn), unfolding(eql_grammar::specs::Readers::further_items))]
    fn further_items(&self, tokens: &mut Cursor<'_>, first: Bunch) -> Result<Bunch, ReadError>
        requires nests { Nests self.now.depth (F.pre self.now.inner) (F.post self.now.inner) }
        requires deeper { 0 < self.now.depth }
        ensures { Reads (spec.further_items self.now.depth too_high (spec.inside too_high self.now.depth) first tokens.old) result tokens.new }
    {
        let mut all = first;
        for _turn in 0..tokens.left() {
            if !tokens.sees(Sign::Comma) {
                return Ok(all);
            }
            holding!(all, tokens.comma(too_high(all.height)));
            if tokens.closes(Sign::RightBrace) {
                return Ok(all);
            }
            let x = holding!(all, self.open_expr(tokens, Level::Expr));
            all = added(all, x)?;
        }
        Ok(all)
    }

    /// Set braces.
    #[tactic(auto, unfolding(eql_grammar::specs::Readers::braces, eql_grammar::specs::Readers::further_items))]
    pub fn braces(&self, tokens: &mut Cursor<'_>) -> Result<GrownExpr, ReadError>
        requires { Nests self.now.depth (F.pre self.now.inner) (F.post self.now.inner) }
        ensures { Reads (spec.braces self.now.depth too_high (spec.inside too_high self.now.depth) tokens.old) result tokens.new }
    {
        let bracket = tokens.expect(self.depth == 0, Sign::LeftBrace)?;
        if tokens.sees(Sign::RightBrace) {
            let close = tokens.expect(false, Sign::RightBrace)?;
            return Ok(set(bracket, nothing_yet(self.alloc), close));
        }
        let first = self.open_expr(tokens, Level::Expr)?;
        let all = self.further_items(tokens, alone(self.alloc, first)?)?;
        let close = holding!(all, tokens.expect(too_high(all.height), Sign::RightBrace));
        Ok(set(bracket, all, close))
    }
}
