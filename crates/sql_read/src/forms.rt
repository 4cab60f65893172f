//! What holds no operator of its own.
ghost use Rattle.std.specs.Prelude.{◌≡◌, ◌<◌, ◌==◌};
ghost use Rattle.exact.specs.Reading.{Reads, one};
ghost use Rattle.sql_grammar.specs.Words.{literal_of};
ghost use Rattle.sql_grammar.specs.Readers as spec;
ghost use Rattle.sql_grammar.specs.Trees as t;
ghost use Rattle.sql_grammar.specs.Trees.{too_high};
ghost use Rattle.sql_read.specs.Nests.{Nests};

use crate::grammar::Grammar;
use crate::part::{Level, Open, Part};
use ev_value::Boxed;
use exact::ReadError;
use sql_build::{
    added, alone, argument, array, call, case_of, cast, column, global, holding, nothing_yet,
    null_of, part, row, uuid,
};
use sql_cursor::Cursor;
use sql_grammar::{Bunch, Grown, Start};
use sql_lex::{Keyword, Sign};
use std::alloc::Global;

impl<F: Fn(Global, &mut Cursor<'_>, usize, Open) -> Result<Part, ReadError>> Grammar<F> {
    /// `UUID 'id'`
    #[inline(never)]
    #[tactic(auto, unfolding(sql_grammar::specs::Readers::uuid_text))]
    fn uuid_text(&self, tokens: &mut Cursor<'_>) -> Result<Boxed<Grown>, ReadError>
        requires { Nests self.now.depth (F.pre self.now.inner) (F.post self.now.inner) }
        ensures { Reads (spec.uuid_text self.now.depth too_high (spec.inside too_high self.now.depth) tokens.old) result tokens.new }
    {
        let start = tokens.expect_word(false, Keyword::Uuid)?;
        let id = tokens.id(self.alloc)?;
        Ok(uuid(self.alloc, start, id)?)
    }

    /// `NULL::ty`
    #[inline(never)]
    #[tactic(auto, unfolding(sql_grammar::specs::Readers::null_ty))]
    fn null_ty(&self, tokens: &mut Cursor<'_>) -> Result<Boxed<Grown>, ReadError>
        requires { Nests self.now.depth (F.pre self.now.inner) (F.post self.now.inner) }
        ensures { Reads (spec.null_ty self.now.depth too_high (spec.inside too_high self.now.depth) tokens.old) result tokens.new }
    {
        let start = tokens.expect_word(false, Keyword::Null)?;
        tokens.expect(false, Sign::Cast)?;
        let ty = self.ty_of(tokens)?;
        Ok(null_of(self.alloc, start, ty)?)
    }

    /// A column of an alias.
    #[inline(never)]
    #[tactic(auto, unfolding(sql_grammar::specs::Readers::reference))]
    fn reference(&self, tokens: &mut Cursor<'_>) -> Result<Boxed<Grown>, ReadError>
        requires { Nests self.now.depth (F.pre self.now.inner) (F.post self.now.inner) }
        ensures { Reads (spec.reference self.now.depth too_high (spec.inside too_high self.now.depth) tokens.old) result tokens.new }
    {
        let alias = tokens.name(self.alloc)?;
        holding!(alias, tokens.expect(false, Sign::Dot));
        let name = holding!(alias, tokens.name(self.alloc));
        Ok(column(self.alloc, alias, name)?)
    }

    /// An argument.
    #[tactic(auto, unfolding(sql_grammar::specs::Readers::argument_of, sql_grammar::specs::Readers::opening))]
    fn argument_of(&self, tokens: &mut Cursor<'_>) -> Result<Boxed<Grown>, ReadError>
        requires { Nests self.now.depth (F.pre self.now.inner) (F.post self.now.inner) }
        ensures { Reads (spec.argument_of self.now.depth too_high (spec.inside too_high self.now.depth) tokens.old) result tokens.new }
    {
        let start = tokens.expect_word(false, Keyword::Arg)?;
        tokens.expect(self.depth == 0, Sign::LeftParen)?;
        let name = tokens.text(self.alloc)?;
        holding!(name, tokens.expect(false, Sign::Comma));
        let ty = holding!(name, self.open_ty(tokens));
        holding!((name, ty), tokens.expect(false, Sign::RightParen));
        Ok(argument(self.alloc, start, name, ty)?)
    }

    /// A global.
    #[tactic(auto, unfolding(sql_grammar::specs::Readers::global_text, sql_grammar::specs::Readers::opening))]
    fn global_text(&self, tokens: &mut Cursor<'_>) -> Result<Boxed<Grown>, ReadError>
        requires { Nests self.now.depth (F.pre self.now.inner) (F.post self.now.inner) }
        ensures { Reads (spec.global_text self.now.depth too_high (spec.inside too_high self.now.depth) tokens.old) result tokens.new }
    {
        let start = tokens.expect_word(false, Keyword::Global)?;
        tokens.expect(self.depth == 0, Sign::LeftParen)?;
        let name = tokens.text(self.alloc)?;
        holding!(name, tokens.expect(false, Sign::RightParen));
        Ok(global(self.alloc, start, name)?)
    }

    /// An array of the rows of a select.
    #[tactic(auto, unfolding(sql_grammar::specs::Readers::array_of))]
    fn array_of(&self, tokens: &mut Cursor<'_>) -> Result<Boxed<Grown>, ReadError>
        requires { Nests self.now.depth (F.pre self.now.inner) (F.post self.now.inner) }
        ensures { Reads (spec.array_of self.now.depth too_high (spec.inside too_high self.now.depth) tokens.old) result tokens.new }
    {
        let start = tokens.expect_word(false, Keyword::Array)?;
        let s = self.sub(tokens)?;
        Ok(array(self.alloc, start, s)?)
    }

    /// Further expressions, each behind a comma.
    #[tactic(auto, using(exact::proofs::Turns::chain_stays, exact::proofs::Turns::chain_over, exact::proofs::Turns::chain_turn))]
    fn further_exprs(
        &self,
        tokens: &mut Cursor<'_>,
        first: Boxed<Bunch>,
    ) -> Result<Boxed<Bunch>, ReadError>
        requires nests { Nests self.now.depth (F.pre self.now.inner) (F.post self.now.inner) }
        requires deeper { 0 < self.now.depth }
        ensures { Reads (spec.further (spec.inside too_high self.now.depth).expr t.added first tokens.old) result tokens.new }
    {
        let mut all = first;
        for _turn in 0..tokens.left() {
            if !tokens.sees(Sign::Comma) {
                return Ok(all);
            }
            holding!(all, tokens.expect(false, Sign::Comma));
            let x = holding!(all, self.open_expr(tokens, Level::Expr));
            all = added(self.alloc, all, x)?;
        }
        Ok(all)
    }

    /// Expressions in parentheses.
    #[tactic(auto, unfolding(sql_grammar::specs::Readers::exprs_within, sql_grammar::specs::Readers::opening))]
    fn exprs_within(&self, tokens: &mut Cursor<'_>) -> Result<Boxed<Bunch>, ReadError>
        requires { Nests self.now.depth (F.pre self.now.inner) (F.post self.now.inner) }
        ensures { Reads (spec.exprs_within self.now.depth too_high (spec.inside too_high self.now.depth) tokens.old) result tokens.new }
    {
        tokens.expect(self.depth == 0, Sign::LeftParen)?;
        if tokens.sees(Sign::RightParen) {
            tokens.expect(false, Sign::RightParen)?;
            return Ok(nothing_yet(self.alloc)?);
        }
        let first = self.open_expr(tokens, Level::Expr)?;
        let all = self.further_exprs(tokens, alone(self.alloc, first)?)?;
        holding!(all, tokens.expect(false, Sign::RightParen));
        Ok(all)
    }

    /// A row.
    #[tactic(auto, unfolding(sql_grammar::specs::Readers::row_of))]
    fn row_of(&self, tokens: &mut Cursor<'_>) -> Result<Boxed<Grown>, ReadError>
        requires { Nests self.now.depth (F.pre self.now.inner) (F.post self.now.inner) }
        ensures { Reads (spec.row_of self.now.depth too_high (spec.inside too_high self.now.depth) tokens.old) result tokens.new }
    {
        let start = tokens.expect_word(false, Keyword::Row)?;
        let all = self.exprs_within(tokens)?;
        Ok(row(self.alloc, start, all)?)
    }

    /// A part of a row.
    #[tactic(auto, unfolding(sql_grammar::specs::Readers::part_of, sql_grammar::specs::Readers::opening))]
    fn part_of(&self, tokens: &mut Cursor<'_>) -> Result<Boxed<Grown>, ReadError>
        requires { Nests self.now.depth (F.pre self.now.inner) (F.post self.now.inner) }
        ensures { Reads (spec.part_of self.now.depth too_high (spec.inside too_high self.now.depth) tokens.old) result tokens.new }
    {
        let start = tokens.expect_word(false, Keyword::Part)?;
        tokens.expect(self.depth == 0, Sign::LeftParen)?;
        let x = self.open_expr(tokens, Level::Expr)?;
        holding!(x, tokens.expect(false, Sign::Comma));
        let number = holding!(x, tokens.number());
        holding!(x, tokens.expect(false, Sign::RightParen));
        Ok(part(self.alloc, start, x, number)?)
    }

    /// A choice.
    #[tactic(auto, unfolding(sql_grammar::specs::Readers::case_when))]
    fn case_when(&self, tokens: &mut Cursor<'_>) -> Result<Boxed<Grown>, ReadError>
        requires { Nests self.now.depth (F.pre self.now.inner) (F.post self.now.inner) }
        ensures { Reads (spec.case_when self.now.depth too_high (spec.inside too_high self.now.depth) tokens.old) result tokens.new }
    {
        let start = tokens.expect_word(self.depth == 0, Keyword::Case)?;
        tokens.expect_word(false, Keyword::When)?;
        let condition = self.open_expr(tokens, Level::Expr)?;
        holding!(condition, tokens.expect_word(false, Keyword::Then));
        let value = holding!(condition, self.open_expr(tokens, Level::Expr));
        holding!((condition, value), tokens.expect_word(false, Keyword::Else));
        let other = holding!((condition, value), self.open_expr(tokens, Level::Expr));
        holding!(
            (condition, value, other),
            tokens.expect_word(false, Keyword::End)
        );
        Ok(case_of(self.alloc, start, condition, value, other)?)
    }

    /// A cast.
    #[tactic(auto, unfolding(sql_grammar::specs::Readers::cast_of, sql_grammar::specs::Readers::opening))]
    fn cast_of(&self, tokens: &mut Cursor<'_>) -> Result<Boxed<Grown>, ReadError>
        requires { Nests self.now.depth (F.pre self.now.inner) (F.post self.now.inner) }
        ensures { Reads (spec.cast_of self.now.depth too_high (spec.inside too_high self.now.depth) tokens.old) result tokens.new }
    {
        let start = tokens.expect_word(false, Keyword::Cast)?;
        tokens.expect(self.depth == 0, Sign::LeftParen)?;
        let x = self.open_expr(tokens, Level::Expr)?;
        holding!(x, tokens.expect_word(false, Keyword::As));
        let ty = holding!(x, self.open_ty(tokens));
        holding!((x, ty), tokens.expect(false, Sign::RightParen));
        Ok(cast(self.alloc, start, x, ty)?)
    }

    /// A function of an expression.
    #[tactic(auto, unfolding(sql_grammar::specs::Readers::call_of))]
    fn call_of(&self, tokens: &mut Cursor<'_>) -> Result<Boxed<Grown>, ReadError>
        requires { Nests self.now.depth (F.pre self.now.inner) (F.post self.now.inner) }
        ensures { Reads (spec.call_of self.now.depth too_high (spec.inside too_high self.now.depth) tokens.old) result tokens.new }
    {
        let found = tokens.function()?;
        let x = self.within_parens(tokens)?;
        Ok(call(self.alloc, found, x)?)
    }

    /// A form with a word of its own.
    #[inline(never)]
    #[tactic(auto, unfolding(sql_grammar::specs::Readers::form))]
    fn form(&self, tokens: &mut Cursor<'_>) -> Result<Boxed<Grown>, ReadError>
        requires { Nests self.now.depth (F.pre self.now.inner) (F.post self.now.inner) }
        ensures { Reads (spec.form self.now.depth too_high (spec.inside too_high self.now.depth) tokens.old) result tokens.new }
    {
        if tokens.sees_start(Start::Arg) {
            return self.argument_of(tokens);
        }
        if tokens.sees_start(Start::Global) {
            return self.global_text(tokens);
        }
        if tokens.sees_start(Start::Array) {
            return self.array_of(tokens);
        }
        if tokens.sees_start(Start::Row) {
            return self.row_of(tokens);
        }
        if tokens.sees_start(Start::Part) {
            return self.part_of(tokens);
        }
        if tokens.sees_start(Start::Case) {
            return self.case_when(tokens);
        }
        if tokens.sees_start(Start::Cast) {
            return self.cast_of(tokens);
        }
        self.call_of(tokens)
    }

    /// A number, a text, `TRUE` or `FALSE`.
    #[inline(never)]
    fn literal(&self, tokens: &mut Cursor<'_>) -> Result<Boxed<Grown>, ReadError>
        ensures { Reads (one literal_of tokens.old) result tokens.new }
    {
        let x = tokens.literal(self.alloc)?;
        Ok(Boxed::new(self.alloc, x)?)
    }

    /// What holds no operator of its own.
    #[tactic(auto, unfolding(sql_grammar::specs::Readers::prim))]
    pub fn prim(&self, tokens: &mut Cursor<'_>) -> Result<Boxed<Grown>, ReadError>
        requires { Nests self.now.depth (F.pre self.now.inner) (F.post self.now.inner) }
        ensures { Reads (spec.prim self.now.depth too_high (spec.inside too_high self.now.depth) tokens.old) result tokens.new }
    {
        if tokens.sees_start(Start::Group) {
            return self.within_parens(tokens);
        }
        if tokens.sees_start(Start::Literal) {
            return self.literal(tokens);
        }
        if tokens.sees_start(Start::Uuid) {
            return self.uuid_text(tokens);
        }
        if tokens.sees_start(Start::Null) {
            return self.null_ty(tokens);
        }
        if tokens.sees_start(Start::Column) {
            return self.reference(tokens);
        }
        self.form(tokens)
    }
}
