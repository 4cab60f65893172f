//! Reading within so many open parts, and reading all of a statement.
ghost use Rattle.std.specs.Prelude.{◌≡◌};
ghost use Rattle.exact.specs.Reading.{Reads, whole};
ghost use Rattle.sql_grammar.specs.Readers as spec;
ghost use Rattle.sql_grammar.specs.Trees.{too_high};
ghost use Rattle.sql_grammar.specs.Promise.{is_tall};
ghost use Rattle.sql_read.specs.Nests.{Nests};
ghost use Rattle.sql_read.specs.Parts.{ReadsPart, level_of};

use crate::grammar::Grammar;
use crate::part::{Level, Open, Part};
use ev_value::Boxed;
use exact::{ReadError, Rule};
use sql_build::{discard, holding, too_high};
use sql_cursor::Cursor;
use sql_grammar::{Grown, GrownSelect, MAX_OPEN};
use sql_lex::Sign;
use std::alloc::Global;

impl<F: Fn(Global, &mut Cursor<'_>, usize, Open) -> Result<Part, ReadError>> Grammar<F> {
    fn level(&self, tokens: &mut Cursor<'_>, level: Level) -> Result<Boxed<Grown>, ReadError>
        requires { Nests self.now.depth (F.pre self.now.inner) (F.post self.now.inner) }
        ensures { Reads (level_of level (spec.levels self.now.depth too_high (spec.inside too_high self.now.depth)) tokens.old) result tokens.new }
    {
        match level {
            Level::Expr => self.expr(tokens),
            Level::Negation => self.negation(tokens),
            Level::Unary => self.unary_of(tokens),
        }
    }

    fn part(&self, tokens: &mut Cursor<'_>, part: Open) -> Result<Part, ReadError>
        requires { Nests self.now.depth (F.pre self.now.inner) (F.post self.now.inner) }
        ensures { ReadsPart part (spec.levels self.now.depth too_high (spec.inside too_high self.now.depth)) tokens.old result tokens.new }
    {
        match part {
            Open::Expr(level) => Ok(Part::Expr(self.level(tokens, level)?)),
            Open::Select => Ok(Part::Select(self.sel(tokens)?)),
            Open::Ty => Ok(Part::Ty(self.ty_of(tokens)?)),
        }
    }
}

/// Reads a part, in which so many more may be open.
pub fn read(
    alloc: Global,
    tokens: &mut Cursor<'_>,
    depth: usize,
    part: Open,
) -> Result<Part, ReadError>
    ensures { ReadsPart part (spec.within too_high depth) tokens.old result tokens.new }
{
    Grammar {
        alloc,
        depth,
        inner: read,
    }
    .part(tokens, part)
}

fn select(alloc: Global, tokens: &mut Cursor<'_>) -> Result<Boxed<GrownSelect>, ReadError>
    ensures { Reads ((spec.within too_high MAX_OPEN).select tokens.old) result tokens.new }
{
    match read(alloc, tokens, MAX_OPEN, Open::Select)? {
        Part::Select(found) => Ok(found),
        _ => unreachable!(),
    }
}

#[tactic(auto, unfolding(sql_grammar::specs::Readers::statement))]
fn statement(alloc: Global, tokens: &mut Cursor<'_>) -> Result<Boxed<GrownSelect>, ReadError>
    ensures { Reads (spec.statement (spec.within too_high MAX_OPEN) tokens.old) result tokens.new }
{
    let s = select(alloc, tokens)?;
    if !tokens.sees(Sign::Semicolon) {
        return Ok(s);
    }
    holding!(s, tokens.expect(false, Sign::Semicolon));
    Ok(s)
}

/// Reads a statement, which all of the tokens are.
pub fn whole_statement(
    alloc: Global,
    tokens: &mut Cursor<'_>,
) -> Result<Boxed<GrownSelect>, ReadError>
    ensures { Reads (whole is_tall (spec.statement (spec.within too_high MAX_OPEN)) tokens.old) result tokens.new }
{
    let found = statement(alloc, tokens)?;
    if tokens.left() > 0 {
        discard(found);
        return Err(ReadError::Refused(Rule::Unexpected));
    }
    if too_high(found.get().height) {
        discard(found);
        return Err(ReadError::Refused(Rule::TooDeep));
    }
    Ok(found)
}
