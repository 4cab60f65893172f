//! Atoms, and the postfixes behind them.
ghost use Rattle.std.specs.Prelude.{◌≡◌, ◌<◌, ◌==◌, ◌||◌};
ghost use Rattle.exact.specs.Reading.{Reads};
ghost use Rattle.eql_grammar.specs.Readers as spec;
ghost use Rattle.eql_grammar.specs.Trees.{too_high};
ghost use Rattle.eql_parse.specs.Nests.{Nests};

use crate::grammar::Grammar;
use crate::part::{Open, Part};
use eql_build::{
    back_link, dot, global_named, holding, is_type, leaf, partial_back_link, partial_property,
    partial_step, property, stepped, too_high, with_shape,
};
use eql_cursor::{Cursor, qualified_name};
use eql_grammar::GrownExpr;
use ev_lex::{Keyword, Sign};
use exact::ReadError;
use std::alloc::Global;

impl<F: Fn(Global, &mut Cursor<'_>, usize, Open) -> Result<Part, ReadError>> Grammar<F> {
    /// An atom.
    #[tactic(auto, unfolding(eql_grammar::specs::Readers::atom))]
    fn atom(&self, tokens: &mut Cursor<'_>) -> Result<GrownExpr, ReadError>
        requires { Nests self.now.depth (F.pre self.now.inner) (F.post self.now.inner) }
        ensures { Reads (spec.atom self.now.depth too_high (spec.inside too_high self.now.depth) tokens.old) result tokens.new }
    {
        if tokens.sees(Sign::LeftParen) {
            return self.group(tokens);
        }
        if tokens.sees(Sign::LeftBrace) {
            return self.braces(tokens);
        }
        if tokens.sees_literal() {
            return Ok(leaf(tokens.literal(self.alloc)?));
        }
        if tokens.sees(Sign::Dot) {
            let at = tokens.expect(false, Sign::Dot)?;
            return Ok(partial_step(at, tokens.name(self.alloc)?));
        }
        if tokens.sees(Sign::BackLink) {
            let at = tokens.expect(false, Sign::BackLink)?;
            return Ok(partial_back_link(at, tokens.name(self.alloc)?));
        }
        if tokens.sees(Sign::At) {
            let at = tokens.expect(false, Sign::At)?;
            return Ok(partial_property(at, tokens.name(self.alloc)?));
        }
        if tokens.sees_word(Keyword::Global) {
            let at = tokens.expect_word(false, Keyword::Global)?;
            return Ok(global_named(at, tokens.name(self.alloc)?));
        }
        self.name_or_call(tokens)
    }

    /// A postfix behind the base.
    #[tactic(auto, unfolding(eql_grammar::specs::Readers::postfix))]
    fn postfix(&self, tokens: &mut Cursor<'_>, base: GrownExpr) -> Result<GrownExpr, ReadError>
        requires { Nests self.now.depth (F.pre self.now.inner) (F.post self.now.inner) }
        ensures { Reads (spec.postfix self.now.depth too_high (spec.inside too_high self.now.depth) base tokens.old) result tokens.new }
    {
        let high = too_high(base.height);
        if tokens.sees(Sign::Dot) {
            let at = holding!(base, tokens.expect(high, Sign::Dot));
            let name = holding!(base, tokens.name(self.alloc));
            return Ok(stepped(self.alloc, base, dot(at, name))?);
        }
        if tokens.sees(Sign::BackLink) {
            let at = holding!(base, tokens.expect(high, Sign::BackLink));
            let name = holding!(base, tokens.name(self.alloc));
            return Ok(stepped(self.alloc, base, back_link(at, name))?);
        }
        if tokens.sees(Sign::At) {
            let at = holding!(base, tokens.expect(high, Sign::At));
            let name = holding!(base, tokens.name(self.alloc));
            return Ok(stepped(self.alloc, base, property(at, name))?);
        }
        if tokens.sees(Sign::LeftBracket) {
            let bracket = holding!(
                base,
                tokens.expect(high || self.depth == 0, Sign::LeftBracket)
            );
            holding!(base, tokens.expect_word(false, Keyword::Is));
            let ty = holding!(base, qualified_name(self.alloc, tokens));
            let close = holding!((base, ty), tokens.expect(false, Sign::RightBracket));
            return Ok(stepped(self.alloc, base, is_type(bracket, ty, close))?);
        }
        let found = holding!(base, self.shape(tokens, high));
        Ok(with_shape(self.alloc, base, found)?)
    }

    /// All postfixes behind the base.
    #[tactic(auto, using(exact::proofs::Turns::chain_stays, exact::proofs::Turns::chain_over, exact::proofs::Turns::chain_turn), unfolding(eql_grammar::specs::Readers::postfixes))]
    fn postfixes(&self, tokens: &mut Cursor<'_>, first: GrownExpr) -> Result<GrownExpr, ReadError>
        requires { Nests self.now.depth (F.pre self.now.inner) (F.post self.now.inner) }
        ensures { Reads (spec.postfixes self.now.depth too_high (spec.inside too_high self.now.depth) first tokens.old) result tokens.new }
    {
        let mut base = first;
        for _turn in 0..tokens.left() {
            if !tokens.sees_postfix() {
                return Ok(base);
            }
            base = self.postfix(tokens, base)?;
        }
        Ok(base)
    }

    /// An atom with its postfixes.
    #[tactic(auto, unfolding(eql_grammar::specs::Readers::post))]
    pub fn post(&self, tokens: &mut Cursor<'_>) -> Result<GrownExpr, ReadError>
        requires { Nests self.now.depth (F.pre self.now.inner) (F.post self.now.inner) }
        ensures { Reads (spec.post self.now.depth too_high (spec.inside too_high self.now.depth) tokens.old) result tokens.new }
    {
        let base = self.atom(tokens)?;
        self.postfixes(tokens, base)
    }
}
