//! The rules, each a method of `Grammar`. What reads an open part is a parameter, so that each rule is proved by itself.

ghost use Rattle.std.specs.Prelude.{◌≡◌, ℕ, ◌<◌, ◌∷◌, ◌++◌, [], List, IfOk};
ghost use Rattle.exact.specs.Reading.{Reads, whole};
ghost use Rattle.exact.specs.Promise.{Spells, IsRefused};
ghost use Rattle.exact.specs.declared.rule.Rule.{Rule};
ghost use Rattle.trial_exact.specs.Readers as spec;
ghost use Rattle.trial_exact.specs.Trees.{too_high, above, leaf, negated, joined, chosen, alone, added, collected};
ghost use Rattle.trial_exact.specs.Nests.{Nests};
ghost use Rattle.trial_exact.specs.Promise.{Text, IsRead};
ghost use Rattle.trial_exact.specs.declared.token.Token.{Token};
ghost use Rattle.trial_exact.specs.declared.tree.Grown.{Grown};

use crate::refusal::Refusal;
use crate::token::{Sign, Token};
use crate::tokens::Tokens;
use crate::tree::{Bunch, Expr, Grown, MAX_HEIGHT, Operator};
use exact::{ReadError, Rule};
use sqlite_items::{Boxed, Items};
use std::alloc::{AllocError, Global};

/// What stands in an open part.
#[derive(Clone, Copy)]
pub enum Open {
    /// In brackets, or behind `else`.
    Whole,
    /// Behind `??`.
    Right,
    /// Behind a prefix.
    Operand,
}

#[derive(Clone, Copy)]
pub struct Grammar<F> {
    pub alloc: Global,
    /// How many more parts may be open.
    pub depth: usize,
    pub inner: F,
}

fn too_high(height: usize) -> bool
    ensures { result ≡ too_high height }
{
    MAX_HEIGHT < height
}

fn above(height: usize) -> usize
    ensures { result ≡ above height }
{
    if MAX_HEIGHT < height {
        height
    } else {
        height + 1
    }
}

fn leaf(expr: Expr) -> Grown
    ensures { result ≡ leaf expr }
{
    Grown { expr, height: 1 }
}

fn negated(alloc: Global, x: Grown) -> Result<Grown, AllocError>
    ensures { IfOk result (λ e. e ≡ negated x) }
{
    let height = above(x.height);
    Ok(Grown {
        expr: Expr::Negate(Boxed::new(alloc, x.expr)?),
        height,
    })
}

fn joined(alloc: Global, op: Operator, left: Grown, right: Grown) -> Result<Grown, AllocError>
    ensures { IfOk result (λ e. e ≡ joined op left right) }
{
    let height = above(left.height.max(right.height));
    let left = Boxed::new(alloc, left.expr)?;
    let right = Boxed::new(alloc, right.expr)?;
    Ok(Grown {
        expr: Expr::Binary(op, left, right),
        height,
    })
}

fn chosen(alloc: Global, value: Grown, condition: Grown, other: Grown) -> Result<Grown, AllocError>
    ensures { IfOk result (λ e. e ≡ chosen value condition other) }
{
    let height = above(value.height.max(condition.height.max(other.height)));
    let value = Boxed::new(alloc, value.expr)?;
    let condition = Boxed::new(alloc, condition.expr)?;
    let other = Boxed::new(alloc, other.expr)?;
    Ok(Grown {
        expr: Expr::Choice(value, condition, other),
        height,
    })
}

fn alone(alloc: Global, x: Grown) -> Result<Bunch, AllocError>
    ensures { IfOk result (λ all. all ≡ alone x) }
{
    let mut items = Items::new(alloc);
    items.push(x.expr)?;
    Ok(Bunch {
        items,
        height: x.height,
    })
}

fn added(all: Bunch, x: Grown) -> Result<Bunch, AllocError>
    ensures { IfOk result (λ more. more ≡ added all x) }
{
    let mut items = all.items;
    items.push(x.expr)?;
    Ok(Bunch {
        items,
        height: all.height.max(x.height),
    })
}

fn collected(all: Bunch) -> Grown
    ensures { result ≡ collected all }
{
    let height = above(all.height);
    Grown {
        expr: Expr::Set(all.items),
        height,
    }
}

impl<F: Fn(Global, &mut Tokens<'_>, usize, Open) -> Result<Grown, ReadError>> Grammar<F> {
    fn open(&self, tokens: &mut Tokens<'_>, part: Open) -> Result<Grown, ReadError>
        requires nests { Nests self.now.depth (F.pre self.now.inner) (F.post self.now.inner) }
        requires deeper { 0 < self.now.depth }
        ensures { Reads (spec.part_of part (spec.inside too_high self.now.depth) tokens.old) result tokens.new }
    {
        (self.inner)(self.alloc, tokens, self.depth - 1, part)
    }

    #[tactic(auto, unfolding(crate::specs::Readers::group))]
    fn group(&self, tokens: &mut Tokens<'_>) -> Result<Grown, ReadError>
        requires { Nests self.now.depth (F.pre self.now.inner) (F.post self.now.inner) }
        ensures { Reads (spec.group self.now.depth too_high (spec.inside too_high self.now.depth) tokens.old) result tokens.new }
    {
        tokens.expect(self.depth == 0, Sign::LeftParen)?;
        let x = self.open(tokens, Open::Whole)?;
        tokens.expect(too_high(x.height), Sign::RightParen)?;
        Ok(x)
    }

    #[tactic(auto, using(exact::proofs::Turns::loop_over, exact::proofs::Turns::loop_turn), unfolding(crate::specs::Readers::further))]
    fn further(&self, tokens: &mut Tokens<'_>, first: Bunch) -> Result<Bunch, ReadError>
        requires nests { Nests self.now.depth (F.pre self.now.inner) (F.post self.now.inner) }
        requires deeper { 0 < self.now.depth }
        ensures { Reads (spec.further self.now.depth too_high (spec.inside too_high self.now.depth) first tokens.old) result tokens.new }
    {
        let mut all = first;
        for _turn in 0..tokens.left() {
            if !tokens.sees(Sign::Comma) {
                return Ok(all);
            }
            tokens.expect(too_high(all.height), Sign::Comma)?;
            if tokens.closes(Sign::RightBrace) {
                return Ok(all);
            }
            all = added(all, self.open(tokens, Open::Whole)?)?;
        }
        Ok(all)
    }

    #[tactic(auto, unfolding(crate::specs::Readers::filled, crate::specs::Readers::further))]
    fn filled(&self, tokens: &mut Tokens<'_>) -> Result<Grown, ReadError>
        requires nests { Nests self.now.depth (F.pre self.now.inner) (F.post self.now.inner) }
        requires deeper { 0 < self.now.depth }
        ensures { Reads (spec.filled self.now.depth too_high (spec.inside too_high self.now.depth) tokens.old) result tokens.new }
    {
        let first = self.open(tokens, Open::Whole)?;
        let all = self.further(tokens, alone(self.alloc, first)?)?;
        tokens.expect(too_high(all.height), Sign::RightBrace)?;
        Ok(collected(all))
    }

    #[tactic(auto, unfolding(crate::specs::Readers::braces))]
    fn braces(&self, tokens: &mut Tokens<'_>) -> Result<Grown, ReadError>
        requires { Nests self.now.depth (F.pre self.now.inner) (F.post self.now.inner) }
        ensures { Reads (spec.braces self.now.depth too_high (spec.inside too_high self.now.depth) tokens.old) result tokens.new }
    {
        tokens.expect(self.depth == 0, Sign::LeftBrace)?;
        if tokens.sees(Sign::RightBrace) {
            tokens.expect(false, Sign::RightBrace)?;
            return Ok(leaf(Expr::Set(Items::new(self.alloc))));
        }
        self.filled(tokens)
    }

    #[tactic(auto, unfolding(crate::specs::Readers::atom))]
    fn atom(&self, tokens: &mut Tokens<'_>) -> Result<Grown, ReadError>
        requires { Nests self.now.depth (F.pre self.now.inner) (F.post self.now.inner) }
        ensures { Reads (spec.atom self.now.depth too_high (spec.inside too_high self.now.depth) tokens.old) result tokens.new }
    {
        if tokens.sees(Sign::LeftParen) {
            return self.group(tokens);
        }
        if tokens.sees(Sign::LeftBrace) {
            return self.braces(tokens);
        }
        match tokens.int() {
            Some(n) => Ok(leaf(Expr::Int(n))),
            None => Ok(leaf(Expr::Name(tokens.name()?))),
        }
    }

    #[tactic(auto, unfolding(crate::specs::Readers::unary))]
    fn unary(&self, tokens: &mut Tokens<'_>) -> Result<Grown, ReadError>
        requires { Nests self.now.depth (F.pre self.now.inner) (F.post self.now.inner) }
        ensures { Reads (spec.unary self.now.depth too_high (spec.inside too_high self.now.depth) tokens.old) result tokens.new }
    {
        if !tokens.sees(Sign::Minus) {
            return self.atom(tokens);
        }
        tokens.expect(self.depth == 0, Sign::Minus)?;
        let x = self.open(tokens, Open::Operand)?;
        Ok(negated(self.alloc, x)?)
    }

    #[tactic(auto, unfolding(crate::specs::Readers::coalesce))]
    fn coalesce(&self, tokens: &mut Tokens<'_>) -> Result<Grown, ReadError>
        requires { Nests self.now.depth (F.pre self.now.inner) (F.post self.now.inner) }
        ensures { Reads (spec.coalesce self.now.depth too_high (spec.inside too_high self.now.depth) tokens.old) result tokens.new }
    {
        let left = self.unary(tokens)?;
        if !tokens.sees(Sign::Coalesce) {
            return Ok(left);
        }
        tokens.expect(too_high(left.height) || self.depth == 0, Sign::Coalesce)?;
        let right = self.open(tokens, Open::Right)?;
        Ok(joined(self.alloc, Operator::Coalesce, left, right)?)
    }

    #[tactic(auto, using(exact::proofs::Turns::chain_stays, exact::proofs::Turns::chain_over, exact::proofs::Turns::chain_turn), unfolding(crate::specs::Readers::terms))]
    fn terms(&self, tokens: &mut Tokens<'_>, first: Grown) -> Result<Grown, ReadError>
        requires { Nests self.now.depth (F.pre self.now.inner) (F.post self.now.inner) }
        ensures { Reads (spec.terms self.now.depth too_high (spec.inside too_high self.now.depth) first tokens.old) result tokens.new }
    {
        let mut left = first;
        for _turn in 0..tokens.left() {
            if !tokens.sees(Sign::Plus) {
                return Ok(left);
            }
            tokens.expect(too_high(left.height), Sign::Plus)?;
            let right = self.coalesce(tokens)?;
            left = joined(self.alloc, Operator::Add, left, right)?;
        }
        Ok(left)
    }

    #[tactic(auto, unfolding(crate::specs::Readers::sum))]
    fn sum(&self, tokens: &mut Tokens<'_>) -> Result<Grown, ReadError>
        requires { Nests self.now.depth (F.pre self.now.inner) (F.post self.now.inner) }
        ensures { Reads (spec.sum self.now.depth too_high (spec.inside too_high self.now.depth) tokens.old) result tokens.new }
    {
        let first = self.coalesce(tokens)?;
        self.terms(tokens, first)
    }

    #[tactic(auto, unfolding(crate::specs::Readers::otherwise))]
    fn otherwise(&self, tokens: &mut Tokens<'_>, value: Grown) -> Result<Grown, ReadError>
        requires { Nests self.now.depth (F.pre self.now.inner) (F.post self.now.inner) }
        ensures { Reads (spec.otherwise self.now.depth too_high (spec.inside too_high self.now.depth) value tokens.old) result tokens.new }
    {
        tokens.expect(too_high(value.height), Sign::If)?;
        let condition = self.sum(tokens)?;
        tokens.expect(too_high(condition.height) || self.depth == 0, Sign::Else)?;
        let other = self.open(tokens, Open::Whole)?;
        Ok(chosen(self.alloc, value, condition, other)?)
    }

    #[tactic(auto, unfolding(crate::specs::Readers::choice))]
    fn choice(&self, tokens: &mut Tokens<'_>) -> Result<Grown, ReadError>
        requires { Nests self.now.depth (F.pre self.now.inner) (F.post self.now.inner) }
        ensures { Reads (spec.choice self.now.depth too_high (spec.inside too_high self.now.depth) tokens.old) result tokens.new }
    {
        let value = self.sum(tokens)?;
        if !tokens.sees(Sign::If) {
            return Ok(value);
        }
        self.otherwise(tokens, value)
    }

    fn part(&self, tokens: &mut Tokens<'_>, part: Open) -> Result<Grown, ReadError>
        requires { Nests self.now.depth (F.pre self.now.inner) (F.post self.now.inner) }
        ensures { Reads (spec.part_of part (spec.levels self.now.depth too_high (spec.inside too_high self.now.depth)) tokens.old) result tokens.new }
    {
        match part {
            Open::Whole => self.choice(tokens),
            Open::Right => self.coalesce(tokens),
            Open::Operand => self.unary(tokens),
        }
    }
}

/// Reads a part, in which so many more may be open.
pub fn read(
    alloc: Global,
    tokens: &mut Tokens<'_>,
    depth: usize,
    part: Open,
) -> Result<Grown, ReadError>
    ensures { Reads (spec.part_of part (spec.within too_high depth) tokens.old) result tokens.new }
{
    Grammar {
        alloc,
        depth,
        inner: read,
    }
    .part(tokens, part)
}

/// How many parts may be open.
pub const MAX_OPEN: usize = 3;

fn whole(alloc: Global, tokens: &mut Tokens<'_>) -> Result<Grown, ReadError>
    ensures { Reads (whole (λ x. too_high x.height) (spec.within too_high MAX_OPEN).expr tokens.old) result tokens.new }
{
    let found = read(alloc, tokens, MAX_OPEN, Open::Whole)?;
    if tokens.left() > 0 {
        return Err(ReadError::Refused(Rule::Unexpected));
    }
    if too_high(found.height) {
        return Err(ReadError::Refused(Rule::TooDeep));
    }
    Ok(found)
}

/// The expression that the tokens spell.
pub fn parse(alloc: Global, tokens: &[Token]) -> Result<Grown, Refusal>
    // What is read is spelled so.
    ensures found { IfOk result (λ x. Spells Text tokens.now x) }
    // What is spelled so is read, unless memory runs out.
    ensures only { (x : Grown) → Spells Text tokens.now x → IsRead result x }
    // A refusal names the token, and says whether it is dead or passes a limit.
    ensures refused { (rule : Rule) (k : ℕ) → result ≡ Err (Refusal.Syntax rule k) → IsRefused Text tokens.now rule k }
{
    let mut cursor = Tokens::new(tokens);
    match whole(alloc, &mut cursor) {
        Ok(found) => Ok(found),
        Err(ReadError::Memory) => Err(Refusal::Memory),
        Err(ReadError::Refused(rule)) => Err(Refusal::Syntax {
            rule,
            token: tokens.len() - cursor.left(),
        }),
    }
}

/// Each text spells at most one expression, whatever limits it passes.
pub fn one_tree()
    ensures { (ts : List Token) (x y : Grown) → Text 0 ts x → Text 0 ts y → x ≡ y }
{}

/// Each text is refused at most at one token, for one reason.
pub fn one_refusal()
    ensures { (ts : List Token) (r q : Rule) (j k : ℕ) → IsRefused Text ts r j → IsRefused Text ts q k → (r ≡ q) × (j ≡ k) }
{}
