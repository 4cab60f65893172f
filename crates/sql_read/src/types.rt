//! Types, and what stands in parentheses.
ghost use Rattle.std.specs.Prelude.{◌≡◌, ◌<◌, ◌==◌};
ghost use Rattle.exact.specs.Reading.{Reads};
ghost use Rattle.sql_grammar.specs.Readers as spec;
ghost use Rattle.sql_grammar.specs.Trees as t;
ghost use Rattle.sql_grammar.specs.Trees.{too_high};
ghost use Rattle.sql_read.specs.Nests.{Nests};

use crate::grammar::Grammar;
use crate::part::{Level, Open, Part};
use ev_value::Boxed;
use exact::ReadError;
use sql_build::{added_type, array_ty, first_type, grouped, holding, no_types, row_ty, scalar_ty};
use sql_cursor::Cursor;
use sql_grammar::{Grown, GrownSelect, GrownTy, Types};
use sql_lex::{Keyword, Sign};
use std::alloc::Global;

impl<F: Fn(Global, &mut Cursor<'_>, usize, Open) -> Result<Part, ReadError>> Grammar<F> {
    /// A select in parentheses.
    #[tactic(auto, unfolding(sql_grammar::specs::Readers::sub, sql_grammar::specs::Readers::opening))]
    pub fn sub(&self, tokens: &mut Cursor<'_>) -> Result<Boxed<GrownSelect>, ReadError>
        requires { Nests self.now.depth (F.pre self.now.inner) (F.post self.now.inner) }
        ensures { Reads (spec.sub self.now.depth too_high (spec.inside too_high self.now.depth) tokens.old) result tokens.new }
    {
        tokens.expect(self.depth == 0, Sign::LeftParen)?;
        let s = self.open_select(tokens)?;
        holding!(s, tokens.expect(false, Sign::RightParen));
        Ok(s)
    }

    /// An expression in parentheses.
    #[tactic(auto, unfolding(sql_grammar::specs::Readers::within_parens, sql_grammar::specs::Readers::opening))]
    pub fn within_parens(&self, tokens: &mut Cursor<'_>) -> Result<Boxed<Grown>, ReadError>
        requires { Nests self.now.depth (F.pre self.now.inner) (F.post self.now.inner) }
        ensures { Reads (spec.within_parens self.now.depth too_high (spec.inside too_high self.now.depth) tokens.old) result tokens.new }
    {
        let start = tokens.expect(self.depth == 0, Sign::LeftParen)?;
        let x = self.open_expr(tokens, Level::Expr)?;
        holding!(x, tokens.expect(false, Sign::RightParen));
        Ok(grouped(self.alloc, start, x)?)
    }

    /// Further types, each behind a comma.
    #[tactic(auto, using(exact::proofs::Turns::chain_stays, exact::proofs::Turns::chain_over, exact::proofs::Turns::chain_turn))]
    fn further_types(&self, tokens: &mut Cursor<'_>, first: Types) -> Result<Types, ReadError>
        requires nests { Nests self.now.depth (F.pre self.now.inner) (F.post self.now.inner) }
        requires deeper { 0 < self.now.depth }
        ensures { Reads (spec.further (spec.inside too_high self.now.depth).ty t.added_type first tokens.old) result tokens.new }
    {
        let mut all = first;
        for _turn in 0..tokens.left() {
            if !tokens.sees(Sign::Comma) {
                return Ok(all);
            }
            holding!(all, tokens.expect(false, Sign::Comma));
            let ty = holding!(all, self.open_ty(tokens));
            all = added_type(all, ty)?;
        }
        Ok(all)
    }

    /// Types in parentheses.
    #[tactic(auto, unfolding(sql_grammar::specs::Readers::types_within, sql_grammar::specs::Readers::opening))]
    fn types_within(&self, tokens: &mut Cursor<'_>) -> Result<Types, ReadError>
        requires { Nests self.now.depth (F.pre self.now.inner) (F.post self.now.inner) }
        ensures { Reads (spec.types_within self.now.depth too_high (spec.inside too_high self.now.depth) tokens.old) result tokens.new }
    {
        tokens.expect(self.depth == 0, Sign::LeftParen)?;
        if tokens.sees(Sign::RightParen) {
            tokens.expect(false, Sign::RightParen)?;
            return Ok(no_types(self.alloc));
        }
        let first = self.open_ty(tokens)?;
        let all = self.further_types(tokens, first_type(self.alloc, first)?)?;
        holding!(all, tokens.expect(false, Sign::RightParen));
        Ok(all)
    }

    /// The type of an array.
    #[tactic(auto, unfolding(sql_grammar::specs::Readers::array_of_ty, sql_grammar::specs::Readers::opening))]
    fn array_of_ty(&self, tokens: &mut Cursor<'_>) -> Result<Boxed<GrownTy>, ReadError>
        requires { Nests self.now.depth (F.pre self.now.inner) (F.post self.now.inner) }
        ensures { Reads (spec.array_of_ty self.now.depth too_high (spec.inside too_high self.now.depth) tokens.old) result tokens.new }
    {
        tokens.expect_word(false, Keyword::Array)?;
        tokens.expect(self.depth == 0, Sign::LeftParen)?;
        let ty = self.open_ty(tokens)?;
        holding!(ty, tokens.expect(false, Sign::RightParen));
        Ok(array_ty(self.alloc, ty)?)
    }

    /// A type.
    #[inline(never)]
    #[tactic(auto, unfolding(sql_grammar::specs::Readers::ty_of))]
    pub fn ty_of(&self, tokens: &mut Cursor<'_>) -> Result<Boxed<GrownTy>, ReadError>
        requires { Nests self.now.depth (F.pre self.now.inner) (F.post self.now.inner) }
        ensures { Reads (spec.ty_of self.now.depth too_high (spec.inside too_high self.now.depth) tokens.old) result tokens.new }
    {
        if tokens.sees_scalar() {
            let scalar = tokens.scalar()?;
            return Ok(scalar_ty(self.alloc, scalar)?);
        }
        if tokens.sees_word(Keyword::Row) {
            tokens.expect_word(false, Keyword::Row)?;
            let all = self.types_within(tokens)?;
            return Ok(row_ty(self.alloc, all)?);
        }
        self.array_of_ty(tokens)
    }
}
