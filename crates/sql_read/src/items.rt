//! Columns, and the items of `FROM`.
ghost use Rattle.std.specs.Prelude.{◌≡◌, ◌<◌, ◌==◌};
ghost use Rattle.exact.specs.Reading.{Reads};
ghost use Rattle.sql_grammar.specs.Readers as spec;
ghost use Rattle.sql_grammar.specs.Trees as t;
ghost use Rattle.sql_grammar.specs.Trees.{too_high};
ghost use Rattle.sql_read.specs.Nests.{Nests};

use crate::grammar::Grammar;
use crate::part::{Open, Part};
use ev_value::Boxed;
use exact::ReadError;
use sql_build::{
    added_column, first_column, holding, lateral_item, left_item, named_column, table_item,
    unnest_item, with_item,
};
use sql_cursor::Cursor;
use sql_grammar::{GrownColumn, GrownCore, GrownItem, Name};
use sql_lex::{Keyword, Sign};
use std::alloc::Global;

impl<F: Fn(Global, &mut Cursor<'_>, usize, Open) -> Result<Part, ReadError>> Grammar<F> {
    /// `AS name`
    #[tactic(auto, unfolding(sql_grammar::specs::Readers::alias_name))]
    fn alias_name(&self, tokens: &mut Cursor<'_>) -> Result<Name, ReadError>
        requires { Nests self.now.depth (F.pre self.now.inner) (F.post self.now.inner) }
        ensures { Reads (spec.alias_name self.now.depth too_high (spec.inside too_high self.now.depth) tokens.old) result tokens.new }
    {
        tokens.expect_word(false, Keyword::As)?;
        tokens.name(self.alloc)
    }

    /// A column.
    #[tactic(auto, unfolding(sql_grammar::specs::Readers::column_of))]
    fn column_of(&self, tokens: &mut Cursor<'_>) -> Result<Boxed<GrownColumn>, ReadError>
        requires { Nests self.now.depth (F.pre self.now.inner) (F.post self.now.inner) }
        ensures { Reads (spec.column_of self.now.depth too_high (spec.inside too_high self.now.depth) tokens.old) result tokens.new }
    {
        let x = self.expr(tokens)?;
        let name = holding!(x, self.alias_name(tokens));
        Ok(named_column(self.alloc, x, name)?)
    }

    /// Whether `DISTINCT` stands here.
    #[tactic(auto, unfolding(sql_grammar::specs::Readers::distinct_word))]
    fn distinct_word(&self, tokens: &mut Cursor<'_>) -> Result<bool, ReadError>
        requires { Nests self.now.depth (F.pre self.now.inner) (F.post self.now.inner) }
        ensures { Reads (spec.distinct_word self.now.depth too_high (spec.inside too_high self.now.depth) tokens.old) result tokens.new }
    {
        if !tokens.sees_word(Keyword::Distinct) {
            return Ok(false);
        }
        tokens.expect_word(false, Keyword::Distinct)?;
        Ok(true)
    }

    /// Further columns, each behind a comma.
    #[tactic(auto, using(exact::proofs::Turns::chain_stays, exact::proofs::Turns::chain_over, exact::proofs::Turns::chain_turn))]
    fn further_columns(
        &self,
        tokens: &mut Cursor<'_>,
        first: Boxed<GrownCore>,
    ) -> Result<Boxed<GrownCore>, ReadError>
        requires { Nests self.now.depth (F.pre self.now.inner) (F.post self.now.inner) }
        ensures { Reads (spec.further (spec.column_of self.now.depth too_high (spec.inside too_high self.now.depth)) t.added_column first tokens.old) result tokens.new }
    {
        let mut all = first;
        for _turn in 0..tokens.left() {
            if !tokens.sees(Sign::Comma) {
                return Ok(all);
            }
            holding!(all, tokens.expect(false, Sign::Comma));
            let x = holding!(all, self.column_of(tokens));
            all = added_column(self.alloc, all, x)?;
        }
        Ok(all)
    }

    /// `SELECT` and the columns.
    #[tactic(auto, unfolding(sql_grammar::specs::Readers::columns))]
    pub fn columns(&self, tokens: &mut Cursor<'_>) -> Result<Boxed<GrownCore>, ReadError>
        requires { Nests self.now.depth (F.pre self.now.inner) (F.post self.now.inner) }
        ensures { Reads (spec.columns self.now.depth too_high (spec.inside too_high self.now.depth) tokens.old) result tokens.new }
    {
        let start = tokens.expect_word(false, Keyword::Select)?;
        let distinct = self.distinct_word(tokens)?;
        let first = self.column_of(tokens)?;
        self.further_columns(tokens, first_column(self.alloc, start, distinct, first)?)
    }

    /// A table.
    #[tactic(auto, unfolding(sql_grammar::specs::Readers::item_of_table))]
    fn item_of_table(&self, tokens: &mut Cursor<'_>) -> Result<Boxed<GrownItem>, ReadError>
        requires { Nests self.now.depth (F.pre self.now.inner) (F.post self.now.inner) }
        ensures { Reads (spec.item_of_table self.now.depth too_high (spec.inside too_high self.now.depth) tokens.old) result tokens.new }
    {
        let table = tokens.name(self.alloc)?;
        let alias = holding!(table, self.alias_name(tokens));
        Ok(table_item(self.alloc, table, alias)?)
    }

    /// A lateral select.
    #[tactic(auto, unfolding(sql_grammar::specs::Readers::item_of_lateral))]
    fn item_of_lateral(&self, tokens: &mut Cursor<'_>) -> Result<Boxed<GrownItem>, ReadError>
        requires { Nests self.now.depth (F.pre self.now.inner) (F.post self.now.inner) }
        ensures { Reads (spec.item_of_lateral self.now.depth too_high (spec.inside too_high self.now.depth) tokens.old) result tokens.new }
    {
        tokens.expect_word(false, Keyword::Lateral)?;
        let s = self.sub(tokens)?;
        let alias = holding!(s, self.alias_name(tokens));
        Ok(lateral_item(self.alloc, s, alias)?)
    }

    /// The elements of an array.
    #[tactic(auto, unfolding(sql_grammar::specs::Readers::item_of_unnest))]
    fn item_of_unnest(&self, tokens: &mut Cursor<'_>) -> Result<Boxed<GrownItem>, ReadError>
        requires { Nests self.now.depth (F.pre self.now.inner) (F.post self.now.inner) }
        ensures { Reads (spec.item_of_unnest self.now.depth too_high (spec.inside too_high self.now.depth) tokens.old) result tokens.new }
    {
        tokens.expect_word(false, Keyword::Unnest)?;
        let x = self.within_parens(tokens)?;
        let alias = holding!(x, self.alias_name(tokens));
        Ok(unnest_item(self.alloc, x, alias)?)
    }

    /// An item.
    #[tactic(auto, unfolding(sql_grammar::specs::Readers::item))]
    fn item(&self, tokens: &mut Cursor<'_>) -> Result<Boxed<GrownItem>, ReadError>
        requires { Nests self.now.depth (F.pre self.now.inner) (F.post self.now.inner) }
        ensures { Reads (spec.item self.now.depth too_high (spec.inside too_high self.now.depth) tokens.old) result tokens.new }
    {
        if tokens.sees_name() {
            return self.item_of_table(tokens);
        }
        if tokens.sees_word(Keyword::Lateral) {
            return self.item_of_lateral(tokens);
        }
        self.item_of_unnest(tokens)
    }

    /// An outer join.
    #[tactic(auto, unfolding(sql_grammar::specs::Readers::item_of_left))]
    fn item_of_left(&self, tokens: &mut Cursor<'_>) -> Result<Boxed<GrownItem>, ReadError>
        requires { Nests self.now.depth (F.pre self.now.inner) (F.post self.now.inner) }
        ensures { Reads (spec.item_of_left self.now.depth too_high (spec.inside too_high self.now.depth) tokens.old) result tokens.new }
    {
        tokens.expect_word(false, Keyword::Left)?;
        tokens.expect_word(false, Keyword::Join)?;
        tokens.expect_word(false, Keyword::Lateral)?;
        let s = self.sub(tokens)?;
        let alias = holding!(s, self.alias_name(tokens));
        holding!((s, alias), tokens.expect_word(false, Keyword::On));
        holding!((s, alias), tokens.expect_word(false, Keyword::True));
        Ok(left_item(self.alloc, s, alias)?)
    }

    /// A further item.
    #[tactic(auto, unfolding(sql_grammar::specs::Readers::further_item))]
    fn further_item(&self, tokens: &mut Cursor<'_>) -> Result<Boxed<GrownItem>, ReadError>
        requires { Nests self.now.depth (F.pre self.now.inner) (F.post self.now.inner) }
        ensures { Reads (spec.further_item self.now.depth too_high (spec.inside too_high self.now.depth) tokens.old) result tokens.new }
    {
        if tokens.sees(Sign::Comma) {
            tokens.expect(false, Sign::Comma)?;
            return self.item(tokens);
        }
        self.item_of_left(tokens)
    }

    /// All further items.
    #[tactic(auto, using(exact::proofs::Turns::chain_stays, exact::proofs::Turns::chain_over, exact::proofs::Turns::chain_turn))]
    fn further_items(
        &self,
        tokens: &mut Cursor<'_>,
        first: Boxed<GrownCore>,
    ) -> Result<Boxed<GrownCore>, ReadError>
        requires { Nests self.now.depth (F.pre self.now.inner) (F.post self.now.inner) }
        ensures { Reads (spec.further_items self.now.depth too_high (spec.inside too_high self.now.depth) first tokens.old) result tokens.new }
    {
        let mut all = first;
        for _turn in 0..tokens.left() {
            if !tokens.goes_on_items() {
                return Ok(all);
            }
            let x = holding!(all, self.further_item(tokens));
            all = with_item(self.alloc, all, x)?;
        }
        Ok(all)
    }

    /// `FROM` and its items, if they stand here.
    #[tactic(auto, unfolding(sql_grammar::specs::Readers::from_items))]
    pub fn from_items(
        &self,
        tokens: &mut Cursor<'_>,
        g: Boxed<GrownCore>,
    ) -> Result<Boxed<GrownCore>, ReadError>
        requires { Nests self.now.depth (F.pre self.now.inner) (F.post self.now.inner) }
        ensures { Reads (spec.from_items self.now.depth too_high (spec.inside too_high self.now.depth) g tokens.old) result tokens.new }
    {
        if !tokens.sees_word(Keyword::From) {
            return Ok(g);
        }
        holding!(g, tokens.expect_word(false, Keyword::From));
        let first = holding!(g, self.item(tokens));
        self.further_items(tokens, with_item(self.alloc, g, first)?)
    }
}
