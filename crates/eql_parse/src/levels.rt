//! The levels of expressions, from the tightest to the loosest.
ghost use Rattle.std.specs.Prelude.{◌≡◌, ◌<◌, ◌==◌, ◌||◌};
ghost use Rattle.exact.specs.Reading.{Reads};
ghost use Rattle.eql_grammar.specs.Readers as spec;
ghost use Rattle.eql_grammar.specs.Trees.{too_high};
ghost use Rattle.eql_parse.specs.Nests.{Nests};

use crate::grammar::Grammar;
use crate::part::{Level, Open, Part};
use ast::{BinaryOperator, QualifiedName, Span, UnaryOperator};
use eql_build::{cast, chosen, holding, operated, parameter, prefixed, too_high};
use eql_cursor::{Cursor, qualified_name};
use eql_grammar::{GrownExpr, Infix, Prefix};
use ev_lex::{Keyword, Sign};
use exact::ReadError;
use std::alloc::Global;

impl<F: Fn(Global, &mut Cursor<'_>, usize, Open) -> Result<Part, ReadError>> Grammar<F> {
    /// The parameter behind a cast.
    #[tactic(auto, unfolding(eql_grammar::specs::Readers::parameter))]
    fn parameter(
        &self,
        tokens: &mut Cursor<'_>,
        bracket: Span,
        optional: bool,
        ty: QualifiedName,
    ) -> Result<GrownExpr, ReadError>
        requires { Nests self.now.depth (F.pre self.now.inner) (F.post self.now.inner) }
        ensures { Reads (spec.parameter self.now.depth too_high (spec.inside too_high self.now.depth) bracket optional ty tokens.old) result tokens.new }
    {
        let dollar = holding!(ty, tokens.expect(false, Sign::Dollar));
        let name = holding!(ty, tokens.parameter_name(self.alloc));
        Ok(parameter(bracket, optional, ty, dollar, name))
    }

    /// A cast before its operand or a parameter.
    #[tactic(auto, unfolding(eql_grammar::specs::Readers::cast))]
    fn cast(&self, tokens: &mut Cursor<'_>) -> Result<GrownExpr, ReadError>
        requires { Nests self.now.depth (F.pre self.now.inner) (F.post self.now.inner) }
        ensures { Reads (spec.cast self.now.depth too_high (spec.inside too_high self.now.depth) tokens.old) result tokens.new }
    {
        let bracket = tokens.expect(self.depth == 0, Sign::Less)?;
        if tokens.sees_word(Keyword::Optional) {
            tokens.expect_word(false, Keyword::Optional)?;
            let ty = qualified_name(self.alloc, tokens)?;
            holding!(ty, tokens.expect(false, Sign::Greater));
            return self.parameter(tokens, bracket, true, ty);
        }
        let ty = qualified_name(self.alloc, tokens)?;
        holding!(ty, tokens.expect(false, Sign::Greater));
        if tokens.sees(Sign::Dollar) {
            return self.parameter(tokens, bracket, false, ty);
        }
        let x = holding!(ty, self.open_expr(tokens, Level::Unary));
        Ok(cast(self.alloc, bracket, ty, x)?)
    }

    /// What binds tighter than `??`.
    #[tactic(auto, unfolding(eql_grammar::specs::Readers::unary))]
    pub fn unary(&self, tokens: &mut Cursor<'_>) -> Result<GrownExpr, ReadError>
        requires { Nests self.now.depth (F.pre self.now.inner) (F.post self.now.inner) }
        ensures { Reads (spec.unary self.now.depth too_high (spec.inside too_high self.now.depth) tokens.old) result tokens.new }
    {
        if tokens.sees_prefix() {
            let found = tokens.prefix(self.depth == 0)?;
            let x = self.open_expr(tokens, Level::Unary)?;
            return Ok(prefixed(self.alloc, found, x)?);
        }
        if tokens.sees(Sign::Less) {
            return self.cast(tokens);
        }
        self.post(tokens)
    }

    /// Operands of `??`, grouped to the right.
    #[tactic(auto, unfolding(eql_grammar::specs::Readers::coalesce))]
    pub fn coalesce(&self, tokens: &mut Cursor<'_>) -> Result<GrownExpr, ReadError>
        requires { Nests self.now.depth (F.pre self.now.inner) (F.post self.now.inner) }
        ensures { Reads (spec.coalesce self.now.depth too_high (spec.inside too_high self.now.depth) tokens.old) result tokens.new }
    {
        let left = self.unary(tokens)?;
        if !tokens.sees_infix(9) {
            return Ok(left);
        }
        let found = holding!(
            left,
            tokens.infix(too_high(left.height) || self.depth == 0, 9)
        );
        let right = holding!(left, self.open_expr(tokens, Level::Coalesce));
        Ok(operated(self.alloc, found, left, right)?)
    }

    #[tactic(auto, using(exact::proofs::Turns::chain_stays, exact::proofs::Turns::chain_over, exact::proofs::Turns::chain_turn))]
    fn products(&self, tokens: &mut Cursor<'_>, first: GrownExpr) -> Result<GrownExpr, ReadError>
        requires { Nests self.now.depth (F.pre self.now.inner) (F.post self.now.inner) }
        ensures { Reads (spec.operations self.now.depth too_high (spec.inside too_high self.now.depth) 8 (spec.coalesce self.now.depth too_high (spec.inside too_high self.now.depth)) first tokens.old) result tokens.new }
    {
        let mut left = first;
        for _turn in 0..tokens.left() {
            if !tokens.sees_infix(8) {
                return Ok(left);
            }
            let found = holding!(left, tokens.infix(too_high(left.height), 8));
            let right = holding!(left, self.coalesce(tokens));
            left = operated(self.alloc, found, left, right)?;
        }
        Ok(left)
    }

    /// Operands of `*`, `//` and `%`.
    #[tactic(auto, unfolding(eql_grammar::specs::Readers::product))]
    fn product(&self, tokens: &mut Cursor<'_>) -> Result<GrownExpr, ReadError>
        requires { Nests self.now.depth (F.pre self.now.inner) (F.post self.now.inner) }
        ensures { Reads (spec.product self.now.depth too_high (spec.inside too_high self.now.depth) tokens.old) result tokens.new }
    {
        let first = self.coalesce(tokens)?;
        self.products(tokens, first)
    }

    #[tactic(auto, using(exact::proofs::Turns::chain_stays, exact::proofs::Turns::chain_over, exact::proofs::Turns::chain_turn))]
    fn sums(&self, tokens: &mut Cursor<'_>, first: GrownExpr) -> Result<GrownExpr, ReadError>
        requires { Nests self.now.depth (F.pre self.now.inner) (F.post self.now.inner) }
        ensures { Reads (spec.operations self.now.depth too_high (spec.inside too_high self.now.depth) 7 (spec.product self.now.depth too_high (spec.inside too_high self.now.depth)) first tokens.old) result tokens.new }
    {
        let mut left = first;
        for _turn in 0..tokens.left() {
            if !tokens.sees_infix(7) {
                return Ok(left);
            }
            let found = holding!(left, tokens.infix(too_high(left.height), 7));
            let right = holding!(left, self.product(tokens));
            left = operated(self.alloc, found, left, right)?;
        }
        Ok(left)
    }

    /// Operands of `+`, `-` and `++`.
    #[tactic(auto, unfolding(eql_grammar::specs::Readers::sum))]
    fn sum(&self, tokens: &mut Cursor<'_>) -> Result<GrownExpr, ReadError>
        requires { Nests self.now.depth (F.pre self.now.inner) (F.post self.now.inner) }
        ensures { Reads (spec.sum self.now.depth too_high (spec.inside too_high self.now.depth) tokens.old) result tokens.new }
    {
        let first = self.product(tokens)?;
        self.sums(tokens, first)
    }

    /// A comparison, which is too deep where `over` says so.
    #[tactic(auto, unfolding(eql_grammar::specs::Readers::comparing))]
    fn comparing(&self, tokens: &mut Cursor<'_>, over: bool) -> Result<Infix, ReadError>
        requires { Nests self.now.depth (F.pre self.now.inner) (F.post self.now.inner) }
        ensures { Reads (spec.comparing self.now.depth too_high (spec.inside too_high self.now.depth) over tokens.old) result tokens.new }
    {
        if tokens.sees_infix(6) {
            return Ok(tokens.infix(over, 6)?);
        }
        let first = tokens.expect_word(over, Keyword::Not)?;
        let second = tokens.expect_word(false, Keyword::In)?;
        Ok(Infix {
            operator: BinaryOperator::NotIn,
            place: first.to(second),
        })
    }

    /// At most one comparison.
    #[tactic(auto, unfolding(eql_grammar::specs::Readers::comparison))]
    fn comparison(&self, tokens: &mut Cursor<'_>) -> Result<GrownExpr, ReadError>
        requires { Nests self.now.depth (F.pre self.now.inner) (F.post self.now.inner) }
        ensures { Reads (spec.comparison self.now.depth too_high (spec.inside too_high self.now.depth) tokens.old) result tokens.new }
    {
        let left = self.sum(tokens)?;
        if !tokens.sees_comparison() {
            return Ok(left);
        }
        let found = holding!(left, self.comparing(tokens, too_high(left.height)));
        let right = holding!(left, self.sum(tokens));
        Ok(operated(self.alloc, found, left, right)?)
    }

    /// What binds tighter than `and`.
    #[tactic(auto, unfolding(eql_grammar::specs::Readers::negation))]
    pub fn negation(&self, tokens: &mut Cursor<'_>) -> Result<GrownExpr, ReadError>
        requires { Nests self.now.depth (F.pre self.now.inner) (F.post self.now.inner) }
        ensures { Reads (spec.negation self.now.depth too_high (spec.inside too_high self.now.depth) tokens.old) result tokens.new }
    {
        if !tokens.sees_word(Keyword::Not) {
            return self.comparison(tokens);
        }
        let place = tokens.expect_word(self.depth == 0, Keyword::Not)?;
        let x = self.open_expr(tokens, Level::Negation)?;
        let found = Prefix {
            operator: UnaryOperator::Not,
            place,
        };
        Ok(prefixed(self.alloc, found, x)?)
    }

    #[tactic(auto, using(exact::proofs::Turns::chain_stays, exact::proofs::Turns::chain_over, exact::proofs::Turns::chain_turn))]
    fn conjunctions(
        &self,
        tokens: &mut Cursor<'_>,
        first: GrownExpr,
    ) -> Result<GrownExpr, ReadError>
        requires { Nests self.now.depth (F.pre self.now.inner) (F.post self.now.inner) }
        ensures { Reads (spec.operations self.now.depth too_high (spec.inside too_high self.now.depth) 4 (spec.negation self.now.depth too_high (spec.inside too_high self.now.depth)) first tokens.old) result tokens.new }
    {
        let mut left = first;
        for _turn in 0..tokens.left() {
            if !tokens.sees_infix(4) {
                return Ok(left);
            }
            let found = holding!(left, tokens.infix(too_high(left.height), 4));
            let right = holding!(left, self.negation(tokens));
            left = operated(self.alloc, found, left, right)?;
        }
        Ok(left)
    }

    /// Operands of `and`.
    #[tactic(auto, unfolding(eql_grammar::specs::Readers::conjunction))]
    fn conjunction(&self, tokens: &mut Cursor<'_>) -> Result<GrownExpr, ReadError>
        requires { Nests self.now.depth (F.pre self.now.inner) (F.post self.now.inner) }
        ensures { Reads (spec.conjunction self.now.depth too_high (spec.inside too_high self.now.depth) tokens.old) result tokens.new }
    {
        let first = self.negation(tokens)?;
        self.conjunctions(tokens, first)
    }

    #[tactic(auto, using(exact::proofs::Turns::chain_stays, exact::proofs::Turns::chain_over, exact::proofs::Turns::chain_turn))]
    fn disjunctions(
        &self,
        tokens: &mut Cursor<'_>,
        first: GrownExpr,
    ) -> Result<GrownExpr, ReadError>
        requires { Nests self.now.depth (F.pre self.now.inner) (F.post self.now.inner) }
        ensures { Reads (spec.operations self.now.depth too_high (spec.inside too_high self.now.depth) 3 (spec.conjunction self.now.depth too_high (spec.inside too_high self.now.depth)) first tokens.old) result tokens.new }
    {
        let mut left = first;
        for _turn in 0..tokens.left() {
            if !tokens.sees_infix(3) {
                return Ok(left);
            }
            let found = holding!(left, tokens.infix(too_high(left.height), 3));
            let right = holding!(left, self.conjunction(tokens));
            left = operated(self.alloc, found, left, right)?;
        }
        Ok(left)
    }

    /// Operands of `or`.
    #[tactic(auto, unfolding(eql_grammar::specs::Readers::disjunction))]
    fn disjunction(&self, tokens: &mut Cursor<'_>) -> Result<GrownExpr, ReadError>
        requires { Nests self.now.depth (F.pre self.now.inner) (F.post self.now.inner) }
        ensures { Reads (spec.disjunction self.now.depth too_high (spec.inside too_high self.now.depth) tokens.old) result tokens.new }
    {
        let first = self.conjunction(tokens)?;
        self.disjunctions(tokens, first)
    }

    /// `value if condition else other`, or a value alone.
    #[tactic(auto, unfolding(eql_grammar::specs::Readers::conditional))]
    pub fn conditional(&self, tokens: &mut Cursor<'_>) -> Result<GrownExpr, ReadError>
        requires { Nests self.now.depth (F.pre self.now.inner) (F.post self.now.inner) }
        ensures { Reads (spec.conditional self.now.depth too_high (spec.inside too_high self.now.depth) tokens.old) result tokens.new }
    {
        let value = self.disjunction(tokens)?;
        if !tokens.sees_word(Keyword::If) {
            return Ok(value);
        }
        holding!(
            value,
            tokens.expect_word(too_high(value.height), Keyword::If)
        );
        let condition = holding!(value, self.disjunction(tokens));
        let over = too_high(condition.height) || self.depth == 0;
        holding!((value, condition), tokens.expect_word(over, Keyword::Else));
        let other = holding!((value, condition), self.open_expr(tokens, Level::Choice));
        Ok(chosen(self.alloc, value, condition, other)?)
    }

    #[tactic(auto, using(exact::proofs::Turns::chain_stays, exact::proofs::Turns::chain_over, exact::proofs::Turns::chain_turn))]
    fn combinations(
        &self,
        tokens: &mut Cursor<'_>,
        first: GrownExpr,
    ) -> Result<GrownExpr, ReadError>
        requires { Nests self.now.depth (F.pre self.now.inner) (F.post self.now.inner) }
        ensures { Reads (spec.operations self.now.depth too_high (spec.inside too_high self.now.depth) 1 (spec.choice self.now.depth too_high (spec.inside too_high self.now.depth)) first tokens.old) result tokens.new }
    {
        let mut left = first;
        for _turn in 0..tokens.left() {
            if !tokens.sees_infix(1) {
                return Ok(left);
            }
            let found = holding!(left, tokens.infix(too_high(left.height), 1));
            let right = holding!(left, self.choice(tokens));
            left = operated(self.alloc, found, left, right)?;
        }
        Ok(left)
    }

    /// An expression: operands of `union`, `intersect` and `except`.
    #[tactic(auto, unfolding(eql_grammar::specs::Readers::expr))]
    pub fn expr(&self, tokens: &mut Cursor<'_>) -> Result<GrownExpr, ReadError>
        requires { Nests self.now.depth (F.pre self.now.inner) (F.post self.now.inner) }
        ensures { Reads (spec.expr self.now.depth too_high (spec.inside too_high self.now.depth) tokens.old) result tokens.new }
    {
        let first = self.choice(tokens)?;
        self.combinations(tokens, first)
    }
}
