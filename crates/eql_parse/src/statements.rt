//! Statements. `for`s inside `for`s are read as a flat list, so that a long text of them needs no recursion.
ghost use Rattle.std.specs.Prelude.{◌≡◌, ◌<◌, ◌==◌, ◌||◌};
ghost use Rattle.exact.specs.Reading.{Reads};
ghost use Rattle.eql_grammar.specs.Readers as spec;
ghost use Rattle.eql_grammar.specs.Trees.{too_high};
ghost use Rattle.eql_parse.specs.Nests.{Nests};

use crate::grammar::Grammar;
use crate::part::{Open, Part};
use eql_build::{
    added_alias, alias_of, discard, first_alias, headed, holding, no_aliases, no_clauses,
    outermost, selected, too_high, within_head,
};
use eql_cursor::Cursor;
use eql_grammar::{Body, GrownAlias, Heads, Nest, Opening, With};
use ev_lex::{Keyword, Sign};
use exact::{ReadError, Rule};
use std::alloc::Global;

impl<F: Fn(Global, &mut Cursor<'_>, usize, Open) -> Result<Part, ReadError>> Grammar<F> {
    /// An alias.
    #[tactic(auto, unfolding(eql_grammar::specs::Readers::alias))]
    fn alias(&self, tokens: &mut Cursor<'_>) -> Result<GrownAlias, ReadError>
        requires { Nests self.now.depth (F.pre self.now.inner) (F.post self.now.inner) }
        ensures { Reads (spec.alias self.now.depth too_high (spec.inside too_high self.now.depth) tokens.old) result tokens.new }
    {
        let name = tokens.name(self.alloc)?;
        holding!(name, tokens.expect(false, Sign::Assign));
        let x = holding!(name, self.expr(tokens));
        Ok(alias_of(self.alloc, name, x)?)
    }

    /// Further aliases, and maybe a last comma.
    #[tactic(auto, using(exact::proofs::Turns::loop_over, exact::proofs::Turns::loop_turn), unfolding(eql_grammar::specs::Readers::further_aliases))]
    fn further_aliases(&self, tokens: &mut Cursor<'_>, first: With) -> Result<With, ReadError>
        requires { Nests self.now.depth (F.pre self.now.inner) (F.post self.now.inner) }
        ensures { Reads (spec.further_aliases self.now.depth too_high (spec.inside too_high self.now.depth) first tokens.old) result tokens.new }
    {
        let mut all = first;
        for _turn in 0..tokens.left() {
            if !tokens.sees(Sign::Comma) {
                return Ok(all);
            }
            holding!(all, tokens.comma(too_high(all.height)));
            if tokens.ends_aliases() {
                return Ok(all);
            }
            let x = holding!(all, self.alias(tokens));
            all = added_alias(all, x)?;
        }
        Ok(all)
    }

    /// The aliases before a statement.
    #[tactic(auto, unfolding(eql_grammar::specs::Readers::aliases, eql_grammar::specs::Readers::further_aliases))]
    fn aliases(&self, tokens: &mut Cursor<'_>) -> Result<With, ReadError>
        requires { Nests self.now.depth (F.pre self.now.inner) (F.post self.now.inner) }
        ensures { Reads (spec.aliases self.now.depth too_high (spec.inside too_high self.now.depth) tokens.old) result tokens.new }
    {
        let at = tokens.expect_word(false, Keyword::With)?;
        let first = self.alias(tokens)?;
        self.further_aliases(tokens, first_alias(self.alloc, at.start, first)?)
    }

    /// A `for` up to its `union`.
    #[tactic(auto, unfolding(eql_grammar::specs::Readers::for_union))]
    fn for_union(&self, tokens: &mut Cursor<'_>, before: With) -> Result<Opening, ReadError>
        requires { Nests self.now.depth (F.pre self.now.inner) (F.post self.now.inner) }
        ensures { Reads (spec.for_union self.now.depth too_high (spec.inside too_high self.now.depth) before tokens.old) result tokens.new }
    {
        let at = holding!(
            before,
            tokens.expect_word(too_high(before.height), Keyword::For)
        );
        let variable = holding!(before, tokens.name(self.alloc));
        holding!((before, variable), tokens.expect_word(false, Keyword::In));
        let iterator = holding!((before, variable), self.post(tokens));
        let high = too_high(iterator.height);
        holding!(
            (before, variable, iterator),
            tokens.expect_word(high, Keyword::Union)
        );
        Ok(Opening::For(headed(before, at, variable, iterator)))
    }

    /// A `select` with its clauses.
    #[tactic(auto, unfolding(eql_grammar::specs::Readers::select))]
    fn select(&self, tokens: &mut Cursor<'_>, before: With) -> Result<Opening, ReadError>
        requires { Nests self.now.depth (F.pre self.now.inner) (F.post self.now.inner) }
        ensures { Reads (spec.select self.now.depth too_high (spec.inside too_high self.now.depth) before tokens.old) result tokens.new }
    {
        let at = holding!(
            before,
            tokens.expect_word(too_high(before.height), Keyword::Select)
        );
        let subject = holding!(before, self.expr(tokens));
        let none = no_clauses(self.alloc, subject.expr.span().end, subject.height);
        let c = holding!((before, subject), self.clauses(tokens, none));
        Ok(Opening::Select(selected(self.alloc, before, at, subject, c)?))
    }

    /// What a statement begins with.
    #[tactic(auto, unfolding(eql_grammar::specs::Readers::opens))]
    fn opens(&self, tokens: &mut Cursor<'_>) -> Result<Opening, ReadError>
        requires { Nests self.now.depth (F.pre self.now.inner) (F.post self.now.inner) }
        ensures { Reads (spec.opens self.now.depth too_high (spec.inside too_high self.now.depth) tokens.old) result tokens.new }
    {
        if tokens.sees_word(Keyword::With) {
            let before = self.aliases(tokens)?;
            if tokens.sees_word(Keyword::For) {
                return self.for_union(tokens, before);
            }
            return self.select(tokens, before);
        }
        if tokens.sees_word(Keyword::For) {
            return self.for_union(tokens, no_aliases(self.alloc));
        }
        self.select(tokens, no_aliases(self.alloc))
    }

    /// What stands inside a `for`.
    #[tactic(auto, using(exact::proofs::Turns::loop_over, exact::proofs::Turns::loop_turn), unfolding(eql_grammar::specs::Readers::inside_for, eql_grammar::specs::Readers::turn))]
    fn inside_for(&self, tokens: &mut Cursor<'_>, first: Heads) -> Result<Nest, ReadError>
        requires { Nests self.now.depth (F.pre self.now.inner) (F.post self.now.inner) }
        ensures { Reads (spec.inside_for self.now.depth too_high (spec.inside too_high self.now.depth) first tokens.old) result tokens.new }
    {
        let mut heads = first;
        for _turn in 0..tokens.left() {
            if !tokens.sees_statement() {
                let x = holding!(heads, self.expr(tokens));
                return Ok(Nest::For(heads, Body::Expr(x)));
            }
            match holding!(heads, self.opens(tokens)) {
                Opening::For(head) => heads = within_head(heads, head)?,
                Opening::Select(s) => return Ok(Nest::For(heads, Body::Statement(s))),
            }
        }
        discard(heads);
        Err(ReadError::Refused(Rule::Unexpected))
    }

    /// A statement.
    #[tactic(auto, unfolding(eql_grammar::specs::Readers::statement, eql_grammar::specs::Readers::rest))]
    pub fn statement(&self, tokens: &mut Cursor<'_>) -> Result<Nest, ReadError>
        requires { Nests self.now.depth (F.pre self.now.inner) (F.post self.now.inner) }
        ensures { Reads (spec.statement self.now.depth too_high (spec.inside too_high self.now.depth) tokens.old) result tokens.new }
    {
        match self.opens(tokens)? {
            Opening::For(head) => self.inside_for(tokens, outermost(self.alloc, head)),
            Opening::Select(s) => Ok(Nest::Select(s)),
        }
    }
}
