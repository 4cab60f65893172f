//! Reading within so many open parts, and reading all of a query.
ghost use Rattle.std.specs.Prelude.{◌≡◌};
ghost use Rattle.exact.specs.Reading.{Reads, whole};
ghost use Rattle.eql_grammar.specs.Readers as spec;
ghost use Rattle.eql_grammar.specs.Trees.{too_high};
ghost use Rattle.eql_grammar.specs.Promise.{is_tall};
ghost use Rattle.eql_parse.specs.Nests.{Nests};
ghost use Rattle.eql_parse.specs.Parts.{ReadsPart, level_of};

use crate::grammar::Grammar;
use crate::part::{Level, Open, Part};
use eql_build::{discard, holding, statement_height, too_high};
use eql_cursor::Cursor;
use eql_grammar::{Asked, GrownExpr, MAX_OPEN, Nest};
use ev_lex::Sign;
use exact::{ReadError, Rule};
use std::alloc::Global;

impl<F: Fn(Global, &mut Cursor<'_>, usize, Open) -> Result<Part, ReadError>> Grammar<F> {
    fn level(&self, tokens: &mut Cursor<'_>, level: Level) -> Result<GrownExpr, ReadError>
        requires { Nests self.now.depth (F.pre self.now.inner) (F.post self.now.inner) }
        ensures { Reads (level_of level (spec.levels self.now.depth too_high (spec.inside too_high self.now.depth)) tokens.old) result tokens.new }
    {
        match level {
            Level::Expr => self.expr(tokens),
            Level::Choice => self.choice(tokens),
            Level::Negation => self.negation(tokens),
            Level::Coalesce => self.coalesce(tokens),
            Level::Unary => self.unary(tokens),
        }
    }

    fn part(&self, tokens: &mut Cursor<'_>, part: Open) -> Result<Part, ReadError>
        requires { Nests self.now.depth (F.pre self.now.inner) (F.post self.now.inner) }
        ensures { ReadsPart part (spec.levels self.now.depth too_high (spec.inside too_high self.now.depth)) tokens.old result tokens.new }
    {
        match part {
            Open::Expr(level) => Ok(Part::Expr(self.level(tokens, level)?)),
            Open::Statement => Ok(Part::Statement(self.statement(tokens)?)),
            Open::Element => Ok(Part::Element(self.element(tokens)?)),
        }
    }
}

/// Reads a part, in which so many more may be open.
pub fn read(
    alloc: Global,
    tokens: &mut Cursor<'_>,
    depth: usize,
    part: Open,
) -> Result<Part, ReadError>
    ensures { ReadsPart part (spec.within too_high depth) tokens.old result tokens.new }
{
    Grammar {
        alloc,
        depth,
        inner: read,
    }
    .part(tokens, part)
}

fn statement(alloc: Global, tokens: &mut Cursor<'_>) -> Result<Nest, ReadError>
    ensures { Reads ((spec.within too_high MAX_OPEN).statement tokens.old) result tokens.new }
{
    match read(alloc, tokens, MAX_OPEN, Open::Statement)? {
        Part::Statement(found) => Ok(found),
        _ => unreachable!(),
    }
}

/// Reads an expression from where the cursor stands, for a grammar that has expressions inside. The limits count from its
/// first token. At an error the cursor stands at the token that is refused.
pub fn expr(alloc: Global, tokens: &mut Cursor<'_>) -> Result<GrownExpr, ReadError>
    ensures { Reads ((spec.within too_high MAX_OPEN).expr tokens.old) result tokens.new }
{
    match read(alloc, tokens, MAX_OPEN, Open::Expr(Level::Expr))? {
        Part::Expr(x) => Ok(x),
        _ => unreachable!(),
    }
}

#[tactic(auto, unfolding(eql_grammar::specs::Readers::query))]
fn query(alloc: Global, tokens: &mut Cursor<'_>) -> Result<Asked, ReadError>
    ensures { Reads (spec.query too_high (spec.within too_high MAX_OPEN) tokens.old) result tokens.new }
{
    let nest = statement(alloc, tokens)?;
    if !tokens.sees(Sign::Semicolon) {
        return Ok(Asked { nest, end: None });
    }
    let high = too_high(statement_height(&nest));
    let at = holding!(nest, tokens.expect(high, Sign::Semicolon));
    Ok(Asked {
        nest,
        end: Some(at.end),
    })
}

/// Reads a query, which all of the tokens are.
pub fn whole_query(alloc: Global, tokens: &mut Cursor<'_>) -> Result<Asked, ReadError>
    ensures { Reads (whole is_tall (spec.query too_high (spec.within too_high MAX_OPEN)) tokens.old) result tokens.new }
{
    let found = query(alloc, tokens)?;
    if tokens.left() > 0 {
        discard(found);
        return Err(ReadError::Refused(Rule::Unexpected));
    }
    if too_high(statement_height(&found.nest)) {
        discard(found);
        return Err(ReadError::Refused(Rule::TooDeep));
    }
    Ok(found)
}
