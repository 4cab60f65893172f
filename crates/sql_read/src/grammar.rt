//! The rules of the grammar are methods of one struct, so that what reads an open part is a parameter and each rule is proved
//! by itself.
ghost use Rattle.std.specs.Prelude.{◌≡◌, ◌<◌};
ghost use Rattle.exact.specs.Reading.{Reads};
ghost use Rattle.sql_grammar.specs.Readers as spec;
ghost use Rattle.sql_grammar.specs.Trees.{too_high};
ghost use Rattle.sql_read.specs.Nests.{Nests};
ghost use Rattle.sql_read.specs.Parts.{ReadsPart, level_of};

use crate::part::{Level, Open, Part};
use ev_value::Boxed;
use exact::ReadError;
use sql_cursor::Cursor;
use sql_grammar::{Grown, GrownSelect, GrownTy};
use std::alloc::Global;

/// The rules where `depth` more parts may be open. `inner` reads what stands in such a part.
#[derive(Clone, Copy)]
pub struct Grammar<F> {
    pub alloc: Global,
    pub depth: usize,
    pub inner: F,
}

impl<F: Fn(Global, &mut Cursor<'_>, usize, Open) -> Result<Part, ReadError>> Grammar<F> {
    fn open(&self, tokens: &mut Cursor<'_>, part: Open) -> Result<Part, ReadError>
        requires nests { Nests self.now.depth (F.pre self.now.inner) (F.post self.now.inner) }
        requires deeper { 0 < self.now.depth }
        ensures { ReadsPart part (spec.inside too_high self.now.depth) tokens.old result tokens.new }
    {
        (self.inner)(self.alloc, tokens, self.depth - 1, part)
    }

    /// An expression in an open part.
    pub fn open_expr(
        &self,
        tokens: &mut Cursor<'_>,
        level: Level,
    ) -> Result<Boxed<Grown>, ReadError>
        requires nests { Nests self.now.depth (F.pre self.now.inner) (F.post self.now.inner) }
        requires deeper { 0 < self.now.depth }
        ensures { Reads (level_of level (spec.inside too_high self.now.depth) tokens.old) result tokens.new }
    {
        match self.open(tokens, Open::Expr(level))? {
            Part::Expr(found) => Ok(found),
            _ => unreachable!(),
        }
    }

    /// A select in an open part.
    pub fn open_select(&self, tokens: &mut Cursor<'_>) -> Result<Boxed<GrownSelect>, ReadError>
        requires nests { Nests self.now.depth (F.pre self.now.inner) (F.post self.now.inner) }
        requires deeper { 0 < self.now.depth }
        ensures { Reads ((spec.inside too_high self.now.depth).select tokens.old) result tokens.new }
    {
        match self.open(tokens, Open::Select)? {
            Part::Select(found) => Ok(found),
            _ => unreachable!(),
        }
    }

    /// A type in an open part.
    pub fn open_ty(&self, tokens: &mut Cursor<'_>) -> Result<Boxed<GrownTy>, ReadError>
        requires nests { Nests self.now.depth (F.pre self.now.inner) (F.post self.now.inner) }
        requires deeper { 0 < self.now.depth }
        ensures { Reads ((spec.inside too_high self.now.depth).ty tokens.old) result tokens.new }
    {
        match self.open(tokens, Open::Ty)? {
            Part::Ty(found) => Ok(found),
            _ => unreachable!(),
        }
    }
}
