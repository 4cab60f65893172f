//! Nested `if condition then value else other`. They wait on a stack, so that a long text of them needs no recursion.
ghost use Rattle.std.specs.Prelude.{◌≡◌, ◌<◌, ◌==◌, ◌||◌};
ghost use Rattle.exact.specs.Reading.{Reads};
ghost use Rattle.eql_grammar.specs.Readers as spec;
ghost use Rattle.eql_grammar.specs.Trees.{too_high};
ghost use Rattle.eql_parse.specs.Nests.{Nests};
ghost use Rattle.eql_parse.specs.Turns.{waiting_of, step_of, ReadsTurn};
ghost use Rattle.eql_grammar.specs.Readers.{Want, Have};

use crate::grammar::Grammar;
use crate::part::{Level, Open, Part};
use crate::stack::Stack;
use eql_build::{chosen_then, discard, holding, too_high};
use eql_cursor::Cursor;
use eql_grammar::{Frame, GrownExpr};
use ev_lex::Keyword;
use exact::{ReadError, Rule};
use std::alloc::Global;

/// A part is wanted inside these `if`s, the innermost on top, or the innermost has the part that it waits for.
#[derive(Drop)]
pub enum Waiting {
    Want(Stack<Frame>),
    Have(Frame, Stack<Frame>, GrownExpr),
}

/// What a turn gives: where the reading then stands, or the whole.
#[derive(Drop)]
pub enum Turned {
    More(Waiting),
    Done(GrownExpr),
}

/// A part was read inside these `if`s.
fn settled(frames: Stack<Frame>, x: GrownExpr) -> Turned
    ensures { step_of result ≡ spec.settled frames x }
{
    match frames.pop() {
        None => Turned::Done(x),
        Some((frame, more)) => Turned::More(Waiting::Have(frame, more, x)),
    }
}

impl<F: Fn(Global, &mut Cursor<'_>, usize, Open) -> Result<Part, ReadError>> Grammar<F> {
    /// A part is wanted: a further `if`, or a value.
    #[tactic(auto, unfolding(eql_grammar::specs::Readers::if_turn))]
    fn wanted(&self, tokens: &mut Cursor<'_>, frames: Stack<Frame>) -> Result<Turned, ReadError>
        requires { Nests self.now.depth (F.pre self.now.inner) (F.post self.now.inner) }
        ensures { ReadsTurn (spec.if_turn self.now.depth too_high (spec.inside too_high self.now.depth) (Want frames) tokens.old) result tokens.new }
    {
        if tokens.sees_word(Keyword::If) {
            let at = holding!(frames, tokens.expect_word(false, Keyword::If));
            let frames = frames.push(Frame::Condition(at.start))?;
            return Ok(Turned::More(Waiting::Want(frames)));
        }
        let x = holding!(frames, self.conditional(tokens));
        Ok(settled(frames, x))
    }

    /// From a condition to the value.
    #[tactic(auto, unfolding(eql_grammar::specs::Readers::if_turn))]
    fn to_value(
        &self,
        tokens: &mut Cursor<'_>,
        start: u32,
        frames: Stack<Frame>,
        x: GrownExpr,
    ) -> Result<Turned, ReadError>
        requires { Nests self.now.depth (F.pre self.now.inner) (F.post self.now.inner) }
        ensures { ReadsTurn (spec.if_turn self.now.depth too_high (spec.inside too_high self.now.depth) (Have (Frame.Condition start) frames x) tokens.old) result tokens.new }
    {
        holding!(
            (frames, x),
            tokens.expect_word(too_high(x.height), Keyword::Then)
        );
        let frames = frames.push(Frame::Value(start, x))?;
        Ok(Turned::More(Waiting::Want(frames)))
    }

    /// From a value to the whole choice.
    #[tactic(auto, unfolding(eql_grammar::specs::Readers::if_turn))]
    fn to_other(
        &self,
        tokens: &mut Cursor<'_>,
        start: u32,
        condition: GrownExpr,
        frames: Stack<Frame>,
        x: GrownExpr,
    ) -> Result<Turned, ReadError>
        requires { Nests self.now.depth (F.pre self.now.inner) (F.post self.now.inner) }
        ensures { ReadsTurn (spec.if_turn self.now.depth too_high (spec.inside too_high self.now.depth) (Have (Frame.Value start condition) frames x) tokens.old) result tokens.new }
    {
        let over = too_high(x.height) || self.depth == 0;
        holding!(
            (condition, frames, x),
            tokens.expect_word(over, Keyword::Else)
        );
        let other = holding!(
            (condition, frames, x),
            self.open_expr(tokens, Level::Choice)
        );
        let found = holding!(frames, chosen_then(self.alloc, start, condition, x, other));
        Ok(settled(frames, found))
    }

    fn if_turn(&self, tokens: &mut Cursor<'_>, waiting: Waiting) -> Result<Turned, ReadError>
        requires { Nests self.now.depth (F.pre self.now.inner) (F.post self.now.inner) }
        ensures { ReadsTurn (spec.if_turn self.now.depth too_high (spec.inside too_high self.now.depth) (waiting_of waiting) tokens.old) result tokens.new }
    {
        match waiting {
            Waiting::Want(frames) => self.wanted(tokens, frames),
            Waiting::Have(frame, frames, x) => match frame {
                Frame::Condition(start) => self.to_value(tokens, start, frames, x),
                Frame::Value(start, condition) => {
                    self.to_other(tokens, start, condition, frames, x)
                }
            },
        }
    }

    /// A choice, or what binds tighter.
    #[tactic(auto, using(exact::proofs::Turns::loop_over, exact::proofs::Turns::loop_turn), unfolding(eql_grammar::specs::Readers::choice))]
    pub fn choice(&self, tokens: &mut Cursor<'_>) -> Result<GrownExpr, ReadError>
        requires { Nests self.now.depth (F.pre self.now.inner) (F.post self.now.inner) }
        ensures { Reads (spec.choice self.now.depth too_high (spec.inside too_high self.now.depth) tokens.old) result tokens.new }
    {
        let mut waiting = Waiting::Want(Stack::new(self.alloc));
        for _turn in 0..tokens.left() {
            match self.if_turn(tokens, waiting)? {
                Turned::More(next) => waiting = next,
                Turned::Done(x) => return Ok(x),
            }
        }
        discard(waiting);
        Err(ReadError::Refused(Rule::Unexpected))
    }
}
