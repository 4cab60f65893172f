//! Operators, from the tightest to the loosest.
ghost use Rattle.std.specs.Prelude.{◌≡◌, ◌<◌, ◌==◌};
ghost use Rattle.exact.specs.Reading.{Reads};
ghost use Rattle.sql_grammar.specs.Readers as spec;
ghost use Rattle.sql_grammar.specs.Trees as t;
ghost use Rattle.sql_grammar.specs.Trees.{too_high};
ghost use Rattle.sql_read.specs.Nests.{Nests};

use crate::grammar::Grammar;
use crate::part::{Level, Open, Part};
use ev_value::Boxed;
use exact::ReadError;
use sql_ast::UnaryOp;
use sql_build::{holding, null_test, operated, prefixed, too_high};
use sql_cursor::Cursor;
use sql_grammar::{Grown, Start};
use sql_lex::{Keyword, Sign};
use std::alloc::Global;

impl<F: Fn(Global, &mut Cursor<'_>, usize, Open) -> Result<Part, ReadError>> Grammar<F> {
    /// What binds as tightly as a minus.
    #[tactic(auto, unfolding(sql_grammar::specs::Readers::unary_of))]
    pub fn unary_of(&self, tokens: &mut Cursor<'_>) -> Result<Boxed<Grown>, ReadError>
        requires { Nests self.now.depth (F.pre self.now.inner) (F.post self.now.inner) }
        ensures { Reads (spec.unary_of self.now.depth too_high (spec.inside too_high self.now.depth) tokens.old) result tokens.new }
    {
        if !tokens.sees_start(Start::Minus) {
            return self.prim(tokens);
        }
        let start = tokens.expect(self.depth == 0, Sign::Minus)?;
        let x = self.open_expr(tokens, Level::Unary)?;
        Ok(prefixed(self.alloc, UnaryOp::Neg, start, x)?)
    }

    /// Further operands of `*`, `//` and `%`.
    #[tactic(auto, using(exact::proofs::Turns::chain_stays, exact::proofs::Turns::chain_over, exact::proofs::Turns::chain_turn))]
    fn products(
        &self,
        tokens: &mut Cursor<'_>,
        first: Boxed<Grown>,
    ) -> Result<Boxed<Grown>, ReadError>
        requires { Nests self.now.depth (F.pre self.now.inner) (F.post self.now.inner) }
        ensures { Reads (spec.operations self.now.depth too_high (spec.inside too_high self.now.depth) 6 (spec.unary_of self.now.depth too_high (spec.inside too_high self.now.depth)) first tokens.old) result tokens.new }
    {
        let mut all = first;
        for _turn in 0..tokens.left() {
            if !tokens.sees_operator(6) {
                return Ok(all);
            }
            let found = holding!(all, tokens.operator(too_high(all.get().height), 6));
            let right = holding!(all, self.unary_of(tokens));
            all = operated(self.alloc, found, all, right)?;
        }
        Ok(all)
    }

    /// Operands of `*`, `//` and `%`.
    #[tactic(auto, unfolding(sql_grammar::specs::Readers::product, sql_grammar::specs::Readers::operators))]
    fn product(&self, tokens: &mut Cursor<'_>) -> Result<Boxed<Grown>, ReadError>
        requires { Nests self.now.depth (F.pre self.now.inner) (F.post self.now.inner) }
        ensures { Reads (spec.product self.now.depth too_high (spec.inside too_high self.now.depth) tokens.old) result tokens.new }
    {
        let first = self.unary_of(tokens)?;
        self.products(tokens, first)
    }

    /// Further operands of `+`, `-` and `||`.
    #[tactic(auto, using(exact::proofs::Turns::chain_stays, exact::proofs::Turns::chain_over, exact::proofs::Turns::chain_turn))]
    fn sums(&self, tokens: &mut Cursor<'_>, first: Boxed<Grown>) -> Result<Boxed<Grown>, ReadError>
        requires { Nests self.now.depth (F.pre self.now.inner) (F.post self.now.inner) }
        ensures { Reads (spec.operations self.now.depth too_high (spec.inside too_high self.now.depth) 5 (spec.product self.now.depth too_high (spec.inside too_high self.now.depth)) first tokens.old) result tokens.new }
    {
        let mut all = first;
        for _turn in 0..tokens.left() {
            if !tokens.sees_operator(5) {
                return Ok(all);
            }
            let found = holding!(all, tokens.operator(too_high(all.get().height), 5));
            let right = holding!(all, self.product(tokens));
            all = operated(self.alloc, found, all, right)?;
        }
        Ok(all)
    }

    /// Operands of `+`, `-` and `||`.
    #[tactic(auto, unfolding(sql_grammar::specs::Readers::sum, sql_grammar::specs::Readers::operators))]
    fn sum(&self, tokens: &mut Cursor<'_>) -> Result<Boxed<Grown>, ReadError>
        requires { Nests self.now.depth (F.pre self.now.inner) (F.post self.now.inner) }
        ensures { Reads (spec.sum self.now.depth too_high (spec.inside too_high self.now.depth) tokens.old) result tokens.new }
    {
        let first = self.product(tokens)?;
        self.sums(tokens, first)
    }

    /// Whether `NOT` stands here.
    #[tactic(auto, unfolding(sql_grammar::specs::Readers::negated))]
    fn negated(&self, tokens: &mut Cursor<'_>) -> Result<bool, ReadError>
        requires { Nests self.now.depth (F.pre self.now.inner) (F.post self.now.inner) }
        ensures { Reads (spec.negated self.now.depth too_high (spec.inside too_high self.now.depth) tokens.old) result tokens.new }
    {
        if !tokens.sees_word(Keyword::Not) {
            return Ok(false);
        }
        tokens.expect_word(false, Keyword::Not)?;
        Ok(true)
    }

    /// `IS NULL` or `IS NOT NULL` behind its operand.
    #[inline(never)]
    #[tactic(auto, unfolding(sql_grammar::specs::Readers::null_test_of))]
    fn null_test_of(
        &self,
        tokens: &mut Cursor<'_>,
        x: Boxed<Grown>,
    ) -> Result<Boxed<Grown>, ReadError>
        requires { Nests self.now.depth (F.pre self.now.inner) (F.post self.now.inner) }
        ensures { Reads (spec.null_test_of self.now.depth too_high (spec.inside too_high self.now.depth) x tokens.old) result tokens.new }
    {
        holding!(x, tokens.expect_word(false, Keyword::Is));
        let negated = holding!(x, self.negated(tokens));
        holding!(x, tokens.expect_word(false, Keyword::Null));
        Ok(null_test(self.alloc, x, negated)?)
    }

    /// At most one comparison.
    #[tactic(auto, unfolding(sql_grammar::specs::Readers::comparison))]
    fn comparison(&self, tokens: &mut Cursor<'_>) -> Result<Boxed<Grown>, ReadError>
        requires { Nests self.now.depth (F.pre self.now.inner) (F.post self.now.inner) }
        ensures { Reads (spec.comparison self.now.depth too_high (spec.inside too_high self.now.depth) tokens.old) result tokens.new }
    {
        let left = self.sum(tokens)?;
        if tokens.sees_operator(4) {
            let found = holding!(left, tokens.operator(false, 4));
            let right = holding!(left, self.sum(tokens));
            return Ok(operated(self.alloc, found, left, right)?);
        }
        if tokens.sees_word(Keyword::Is) {
            return self.null_test_of(tokens, left);
        }
        Ok(left)
    }

    /// What binds tighter than `AND`.
    #[tactic(auto, unfolding(sql_grammar::specs::Readers::negation))]
    pub fn negation(&self, tokens: &mut Cursor<'_>) -> Result<Boxed<Grown>, ReadError>
        requires { Nests self.now.depth (F.pre self.now.inner) (F.post self.now.inner) }
        ensures { Reads (spec.negation self.now.depth too_high (spec.inside too_high self.now.depth) tokens.old) result tokens.new }
    {
        if !tokens.sees_start(Start::Not) {
            return self.comparison(tokens);
        }
        let start = tokens.expect_word(self.depth == 0, Keyword::Not)?;
        let x = self.open_expr(tokens, Level::Negation)?;
        Ok(prefixed(self.alloc, UnaryOp::Not, start, x)?)
    }

    /// Further operands of `AND`.
    #[tactic(auto, using(exact::proofs::Turns::chain_stays, exact::proofs::Turns::chain_over, exact::proofs::Turns::chain_turn))]
    fn conjunctions(
        &self,
        tokens: &mut Cursor<'_>,
        first: Boxed<Grown>,
    ) -> Result<Boxed<Grown>, ReadError>
        requires { Nests self.now.depth (F.pre self.now.inner) (F.post self.now.inner) }
        ensures { Reads (spec.operations self.now.depth too_high (spec.inside too_high self.now.depth) 2 (spec.negation self.now.depth too_high (spec.inside too_high self.now.depth)) first tokens.old) result tokens.new }
    {
        let mut all = first;
        for _turn in 0..tokens.left() {
            if !tokens.sees_operator(2) {
                return Ok(all);
            }
            let found = holding!(all, tokens.operator(too_high(all.get().height), 2));
            let right = holding!(all, self.negation(tokens));
            all = operated(self.alloc, found, all, right)?;
        }
        Ok(all)
    }

    /// Operands of `AND`.
    #[tactic(auto, unfolding(sql_grammar::specs::Readers::conjunction, sql_grammar::specs::Readers::operators))]
    fn conjunction(&self, tokens: &mut Cursor<'_>) -> Result<Boxed<Grown>, ReadError>
        requires { Nests self.now.depth (F.pre self.now.inner) (F.post self.now.inner) }
        ensures { Reads (spec.conjunction self.now.depth too_high (spec.inside too_high self.now.depth) tokens.old) result tokens.new }
    {
        let first = self.negation(tokens)?;
        self.conjunctions(tokens, first)
    }

    /// Further operands of `OR`.
    #[tactic(auto, using(exact::proofs::Turns::chain_stays, exact::proofs::Turns::chain_over, exact::proofs::Turns::chain_turn))]
    fn disjunctions(
        &self,
        tokens: &mut Cursor<'_>,
        first: Boxed<Grown>,
    ) -> Result<Boxed<Grown>, ReadError>
        requires { Nests self.now.depth (F.pre self.now.inner) (F.post self.now.inner) }
        ensures { Reads (spec.operations self.now.depth too_high (spec.inside too_high self.now.depth) 1 (spec.conjunction self.now.depth too_high (spec.inside too_high self.now.depth)) first tokens.old) result tokens.new }
    {
        let mut all = first;
        for _turn in 0..tokens.left() {
            if !tokens.sees_operator(1) {
                return Ok(all);
            }
            let found = holding!(all, tokens.operator(too_high(all.get().height), 1));
            let right = holding!(all, self.conjunction(tokens));
            all = operated(self.alloc, found, all, right)?;
        }
        Ok(all)
    }

    /// Operands of `OR`.
    #[tactic(auto, unfolding(sql_grammar::specs::Readers::expr, sql_grammar::specs::Readers::operators))]
    pub fn expr(&self, tokens: &mut Cursor<'_>) -> Result<Boxed<Grown>, ReadError>
        requires { Nests self.now.depth (F.pre self.now.inner) (F.post self.now.inner) }
        ensures { Reads (spec.expr self.now.depth too_high (spec.inside too_high self.now.depth) tokens.old) result tokens.new }
    {
        let first = self.conjunction(tokens)?;
        self.disjunctions(tokens, first)
    }
}
