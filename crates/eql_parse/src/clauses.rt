//! The clauses behind a subject.
ghost use Rattle.std.specs.Prelude.{◌≡◌, ◌<◌, ◌==◌, ◌||◌};
ghost use Rattle.exact.specs.Reading.{Reads};
ghost use Rattle.eql_grammar.specs.Readers as spec;
ghost use Rattle.eql_grammar.specs.Trees.{too_high};
ghost use Rattle.eql_parse.specs.Nests.{Nests};

use crate::grammar::Grammar;
use crate::part::{Open, Part};
use eql_build::{filtered, holding, keyed, limited, offset_by, ordered, too_high, upward};
use eql_cursor::Cursor;
use eql_grammar::{Direction, GrownClauses, GrownExpr, GrownKey};
use ev_lex::Keyword;
use exact::ReadError;
use std::alloc::Global;

impl<F: Fn(Global, &mut Cursor<'_>, usize, Open) -> Result<Part, ReadError>> Grammar<F> {
    /// A filter, if one comes next.
    #[tactic(auto, unfolding(eql_grammar::specs::Readers::filter))]
    fn filter(&self, tokens: &mut Cursor<'_>, c: GrownClauses) -> Result<GrownClauses, ReadError>
        requires { Nests self.now.depth (F.pre self.now.inner) (F.post self.now.inner) }
        ensures { Reads (spec.filter self.now.depth too_high (spec.inside too_high self.now.depth) c tokens.old) result tokens.new }
    {
        if !tokens.sees_word(Keyword::Filter) {
            return Ok(c);
        }
        holding!(c, tokens.expect_word(too_high(c.height), Keyword::Filter));
        let x = holding!(c, self.expr(tokens));
        Ok(filtered(self.alloc, c, x)?)
    }

    /// Whether the key goes up or down.
    #[tactic(auto, unfolding(eql_grammar::specs::Readers::way))]
    fn way(&self, tokens: &mut Cursor<'_>, x: &GrownExpr) -> Result<Direction, ReadError>
        requires { Nests self.now.depth (F.pre self.now.inner) (F.post self.now.inner) }
        ensures { Reads (spec.way self.now.depth too_high (spec.inside too_high self.now.depth) x.now tokens.old) result tokens.new }
    {
        if tokens.sees_direction() {
            return Ok(tokens.direction(too_high(x.height))?);
        }
        Ok(upward(x))
    }

    /// Where the key puts what is empty.
    #[tactic(auto, unfolding(eql_grammar::specs::Readers::placed))]
    fn placed(
        &self,
        tokens: &mut Cursor<'_>,
        x: GrownExpr,
        found: Direction,
    ) -> Result<GrownKey, ReadError>
        requires { Nests self.now.depth (F.pre self.now.inner) (F.post self.now.inner) }
        ensures { Reads (spec.placed self.now.depth too_high (spec.inside too_high self.now.depth) x found tokens.old) result tokens.new }
    {
        if !tokens.sees_word(Keyword::Empty) {
            return Ok(keyed(self.alloc, x, found, None, found.end)?);
        }
        holding!(x, tokens.expect_word(too_high(x.height), Keyword::Empty));
        let place = holding!(x, tokens.place());
        Ok(keyed(self.alloc, x, found, Some(place.place), place.end)?)
    }

    /// A key of an order.
    #[tactic(auto, unfolding(eql_grammar::specs::Readers::key))]
    fn key(&self, tokens: &mut Cursor<'_>) -> Result<GrownKey, ReadError>
        requires { Nests self.now.depth (F.pre self.now.inner) (F.post self.now.inner) }
        ensures { Reads (spec.key self.now.depth too_high (spec.inside too_high self.now.depth) tokens.old) result tokens.new }
    {
        let x = self.expr(tokens)?;
        let found = holding!(x, self.way(tokens, &x));
        self.placed(tokens, x, found)
    }

    /// Further keys.
    #[tactic(auto, using(exact::proofs::Turns::chain_stays, exact::proofs::Turns::chain_over, exact::proofs::Turns::chain_turn), unfolding(eql_grammar::specs::Readers::further_keys))]
    fn further_keys(
        &self,
        tokens: &mut Cursor<'_>,
        first: GrownClauses,
    ) -> Result<GrownClauses, ReadError>
        requires { Nests self.now.depth (F.pre self.now.inner) (F.post self.now.inner) }
        ensures { Reads (spec.further_keys self.now.depth too_high (spec.inside too_high self.now.depth) first tokens.old) result tokens.new }
    {
        let mut all = first;
        for _turn in 0..tokens.left() {
            if !tokens.sees_word(Keyword::Then) {
                return Ok(all);
            }
            holding!(all, tokens.expect_word(too_high(all.height), Keyword::Then));
            let key = holding!(all, self.key(tokens));
            all = ordered(all, key)?;
        }
        Ok(all)
    }

    /// An order, if one comes next.
    #[tactic(auto, unfolding(eql_grammar::specs::Readers::order))]
    fn order(&self, tokens: &mut Cursor<'_>, c: GrownClauses) -> Result<GrownClauses, ReadError>
        requires { Nests self.now.depth (F.pre self.now.inner) (F.post self.now.inner) }
        ensures { Reads (spec.order self.now.depth too_high (spec.inside too_high self.now.depth) c tokens.old) result tokens.new }
    {
        if !tokens.sees_word(Keyword::Order) {
            return Ok(c);
        }
        holding!(c, tokens.expect_word(too_high(c.height), Keyword::Order));
        holding!(c, tokens.expect_word(false, Keyword::By));
        let first = holding!(c, self.key(tokens));
        self.further_keys(tokens, ordered(c, first)?)
    }

    /// An offset, if one comes next.
    #[tactic(auto, unfolding(eql_grammar::specs::Readers::offset))]
    fn offset(&self, tokens: &mut Cursor<'_>, c: GrownClauses) -> Result<GrownClauses, ReadError>
        requires { Nests self.now.depth (F.pre self.now.inner) (F.post self.now.inner) }
        ensures { Reads (spec.offset self.now.depth too_high (spec.inside too_high self.now.depth) c tokens.old) result tokens.new }
    {
        if !tokens.sees_word(Keyword::Offset) {
            return Ok(c);
        }
        holding!(c, tokens.expect_word(too_high(c.height), Keyword::Offset));
        let x = holding!(c, self.expr(tokens));
        Ok(offset_by(self.alloc, c, x)?)
    }

    /// A limit, if one comes next.
    #[tactic(auto, unfolding(eql_grammar::specs::Readers::limit))]
    fn limit(&self, tokens: &mut Cursor<'_>, c: GrownClauses) -> Result<GrownClauses, ReadError>
        requires { Nests self.now.depth (F.pre self.now.inner) (F.post self.now.inner) }
        ensures { Reads (spec.limit self.now.depth too_high (spec.inside too_high self.now.depth) c tokens.old) result tokens.new }
    {
        if !tokens.sees_word(Keyword::Limit) {
            return Ok(c);
        }
        holding!(c, tokens.expect_word(too_high(c.height), Keyword::Limit));
        let x = holding!(c, self.expr(tokens));
        Ok(limited(self.alloc, c, x)?)
    }

    /// All clauses.
    #[tactic(auto, unfolding(eql_grammar::specs::Readers::clauses))]
    pub fn clauses(
        &self,
        tokens: &mut Cursor<'_>,
        none: GrownClauses,
    ) -> Result<GrownClauses, ReadError>
        requires { Nests self.now.depth (F.pre self.now.inner) (F.post self.now.inner) }
        ensures { Reads (spec.clauses self.now.depth too_high (spec.inside too_high self.now.depth) none tokens.old) result tokens.new }
    {
        let a = self.filter(tokens, none)?;
        let b = self.order(tokens, a)?;
        let c = self.offset(tokens, b)?;
        self.limit(tokens, c)
    }
}
