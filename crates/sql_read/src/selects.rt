//! Clauses, cores and selects.
ghost use Rattle.std.specs.Prelude.{◌≡◌, ◌<◌, ◌==◌};
ghost use Rattle.exact.specs.Reading.{Reads};
ghost use Rattle.sql_grammar.specs.Readers as spec;
ghost use Rattle.sql_grammar.specs.Trees as t;
ghost use Rattle.sql_grammar.specs.Trees.{too_high};
ghost use Rattle.sql_read.specs.Nests.{Nests};

use crate::grammar::Grammar;
use crate::part::{Open, Part};
use ev_value::Boxed;
use exact::ReadError;
use sql_build::{
    added_core, first_core, holding, key_of, select_of, with_condition, with_key, with_limit,
    with_offset,
};
use sql_cursor::Cursor;
use sql_grammar::{Cores, GrownCore, GrownKey, GrownSelect};
use sql_lex::{Keyword, Sign};
use std::alloc::Global;

impl<F: Fn(Global, &mut Cursor<'_>, usize, Open) -> Result<Part, ReadError>> Grammar<F> {
    /// `WHERE`, if it stands here.
    #[tactic(auto, unfolding(sql_grammar::specs::Readers::where_clause))]
    fn where_clause(
        &self,
        tokens: &mut Cursor<'_>,
        g: Boxed<GrownCore>,
    ) -> Result<Boxed<GrownCore>, ReadError>
        requires { Nests self.now.depth (F.pre self.now.inner) (F.post self.now.inner) }
        ensures { Reads (spec.where_clause self.now.depth too_high (spec.inside too_high self.now.depth) g tokens.old) result tokens.new }
    {
        if !tokens.sees_word(Keyword::Where) {
            return Ok(g);
        }
        holding!(g, tokens.expect_word(false, Keyword::Where));
        let x = holding!(g, self.expr(tokens));
        Ok(with_condition(self.alloc, g, x)?)
    }

    /// A key of an order.
    #[tactic(auto, unfolding(sql_grammar::specs::Readers::key))]
    fn key(&self, tokens: &mut Cursor<'_>) -> Result<Boxed<GrownKey>, ReadError>
        requires { Nests self.now.depth (F.pre self.now.inner) (F.post self.now.inner) }
        ensures { Reads (spec.key self.now.depth too_high (spec.inside too_high self.now.depth) tokens.old) result tokens.new }
    {
        let x = self.expr(tokens)?;
        let way = holding!(x, tokens.direction());
        holding!(x, tokens.expect_word(false, Keyword::Nulls));
        let nulls = holding!(x, tokens.absent());
        Ok(key_of(self.alloc, x, way, nulls)?)
    }

    /// Further keys, each behind a comma.
    #[tactic(auto, using(exact::proofs::Turns::chain_stays, exact::proofs::Turns::chain_over, exact::proofs::Turns::chain_turn))]
    fn further_keys(
        &self,
        tokens: &mut Cursor<'_>,
        first: Boxed<GrownCore>,
    ) -> Result<Boxed<GrownCore>, ReadError>
        requires { Nests self.now.depth (F.pre self.now.inner) (F.post self.now.inner) }
        ensures { Reads (spec.further (spec.key self.now.depth too_high (spec.inside too_high self.now.depth)) t.with_key first tokens.old) result tokens.new }
    {
        let mut all = first;
        for _turn in 0..tokens.left() {
            if !tokens.sees(Sign::Comma) {
                return Ok(all);
            }
            holding!(all, tokens.expect(false, Sign::Comma));
            let x = holding!(all, self.key(tokens));
            all = with_key(self.alloc, all, x)?;
        }
        Ok(all)
    }

    /// `ORDER BY` and its keys, if they stand here.
    #[tactic(auto, unfolding(sql_grammar::specs::Readers::order))]
    fn order(
        &self,
        tokens: &mut Cursor<'_>,
        g: Boxed<GrownCore>,
    ) -> Result<Boxed<GrownCore>, ReadError>
        requires { Nests self.now.depth (F.pre self.now.inner) (F.post self.now.inner) }
        ensures { Reads (spec.order self.now.depth too_high (spec.inside too_high self.now.depth) g tokens.old) result tokens.new }
    {
        if !tokens.sees_word(Keyword::Order) {
            return Ok(g);
        }
        holding!(g, tokens.expect_word(false, Keyword::Order));
        holding!(g, tokens.expect_word(false, Keyword::By));
        let first = holding!(g, self.key(tokens));
        self.further_keys(tokens, with_key(self.alloc, g, first)?)
    }

    /// `OFFSET`, if it stands here.
    #[tactic(auto, unfolding(sql_grammar::specs::Readers::offset))]
    fn offset(
        &self,
        tokens: &mut Cursor<'_>,
        g: Boxed<GrownCore>,
    ) -> Result<Boxed<GrownCore>, ReadError>
        requires { Nests self.now.depth (F.pre self.now.inner) (F.post self.now.inner) }
        ensures { Reads (spec.offset self.now.depth too_high (spec.inside too_high self.now.depth) g tokens.old) result tokens.new }
    {
        if !tokens.sees_word(Keyword::Offset) {
            return Ok(g);
        }
        holding!(g, tokens.expect_word(false, Keyword::Offset));
        let x = holding!(g, self.expr(tokens));
        Ok(with_offset(self.alloc, g, x)?)
    }

    /// `LIMIT`, if it stands here.
    #[tactic(auto, unfolding(sql_grammar::specs::Readers::limit))]
    fn limit(
        &self,
        tokens: &mut Cursor<'_>,
        g: Boxed<GrownCore>,
    ) -> Result<Boxed<GrownCore>, ReadError>
        requires { Nests self.now.depth (F.pre self.now.inner) (F.post self.now.inner) }
        ensures { Reads (spec.limit self.now.depth too_high (spec.inside too_high self.now.depth) g tokens.old) result tokens.new }
    {
        if !tokens.sees_word(Keyword::Limit) {
            return Ok(g);
        }
        holding!(g, tokens.expect_word(false, Keyword::Limit));
        let x = holding!(g, self.expr(tokens));
        Ok(with_limit(self.alloc, g, x)?)
    }

    /// A core.
    #[tactic(auto, unfolding(sql_grammar::specs::Readers::core_of))]
    fn core_of(&self, tokens: &mut Cursor<'_>) -> Result<Boxed<GrownCore>, ReadError>
        requires { Nests self.now.depth (F.pre self.now.inner) (F.post self.now.inner) }
        ensures { Reads (spec.core_of self.now.depth too_high (spec.inside too_high self.now.depth) tokens.old) result tokens.new }
    {
        let g = self.columns(tokens)?;
        let g = self.from_items(tokens, g)?;
        let g = self.where_clause(tokens, g)?;
        let g = self.order(tokens, g)?;
        let g = self.offset(tokens, g)?;
        self.limit(tokens, g)
    }

    /// A core behind `UNION ALL`.
    #[tactic(auto, unfolding(sql_grammar::specs::Readers::further_core))]
    fn further_core(&self, tokens: &mut Cursor<'_>) -> Result<Boxed<GrownCore>, ReadError>
        requires { Nests self.now.depth (F.pre self.now.inner) (F.post self.now.inner) }
        ensures { Reads (spec.further_core self.now.depth too_high (spec.inside too_high self.now.depth) tokens.old) result tokens.new }
    {
        tokens.expect_word(false, Keyword::Union)?;
        tokens.expect_word(false, Keyword::All)?;
        self.core_of(tokens)
    }

    /// All further cores.
    #[tactic(auto, using(exact::proofs::Turns::chain_stays, exact::proofs::Turns::chain_over, exact::proofs::Turns::chain_turn))]
    fn further_cores(
        &self,
        tokens: &mut Cursor<'_>,
        first: Boxed<Cores>,
    ) -> Result<Boxed<Cores>, ReadError>
        requires { Nests self.now.depth (F.pre self.now.inner) (F.post self.now.inner) }
        ensures { Reads (spec.further_cores self.now.depth too_high (spec.inside too_high self.now.depth) first tokens.old) result tokens.new }
    {
        let mut all = first;
        for _turn in 0..tokens.left() {
            if !tokens.sees_word(Keyword::Union) {
                return Ok(all);
            }
            let g = holding!(all, self.further_core(tokens));
            all = added_core(self.alloc, all, g)?;
        }
        Ok(all)
    }

    /// Cores with `UNION ALL` between them.
    #[tactic(auto, unfolding(sql_grammar::specs::Readers::cores_of))]
    fn cores_of(&self, tokens: &mut Cursor<'_>) -> Result<Boxed<Cores>, ReadError>
        requires { Nests self.now.depth (F.pre self.now.inner) (F.post self.now.inner) }
        ensures { Reads (spec.cores_of self.now.depth too_high (spec.inside too_high self.now.depth) tokens.old) result tokens.new }
    {
        let first = self.core_of(tokens)?;
        self.further_cores(tokens, first_core(self.alloc, first)?)
    }

    /// A select.
    #[inline(never)]
    #[tactic(auto, unfolding(sql_grammar::specs::Readers::sel))]
    pub fn sel(&self, tokens: &mut Cursor<'_>) -> Result<Boxed<GrownSelect>, ReadError>
        requires { Nests self.now.depth (F.pre self.now.inner) (F.post self.now.inner) }
        ensures { Reads (spec.sel self.now.depth too_high (spec.inside too_high self.now.depth) tokens.old) result tokens.new }
    {
        let all = self.cores_of(tokens)?;
        Ok(select_of(self.alloc, all)?)
    }
}
