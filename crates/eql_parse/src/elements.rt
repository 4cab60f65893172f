//! Shapes and their elements.
ghost use Rattle.std.specs.Prelude.{◌≡◌, ◌<◌, ◌==◌, ◌||◌};
ghost use Rattle.exact.specs.Reading.{Reads};
ghost use Rattle.eql_grammar.specs.Readers as spec;
ghost use Rattle.eql_grammar.specs.Trees.{too_high};
ghost use Rattle.eql_parse.specs.Nests.{Nests};

use crate::grammar::Grammar;
use crate::part::{Open, Part};
use ast::{Name, Qualifiers};
use eql_build::{
    added_element, both_words, computed, double_splat, first_element, holding, link_property,
    nested, no_clauses, pointer, shape, splat, too_high,
};
use eql_cursor::Cursor;
use eql_grammar::{Elements, GrownElement, GrownShape, Qualified};
use ev_lex::Sign;
use exact::ReadError;
use std::alloc::Global;

impl<F: Fn(Global, &mut Cursor<'_>, usize, Open) -> Result<Part, ReadError>> Grammar<F> {
    /// Further elements, and maybe a last comma.
    #[tactic(auto, using(exact::proofs::Turns::loop_over, exact::proofs::Turns::loop_turn), unfolding(eql_grammar::specs::Readers::further_elements))]
    fn further_elements(
        &self,
        tokens: &mut Cursor<'_>,
        first: Elements,
    ) -> Result<Elements, ReadError>
        requires nests { Nests self.now.depth (F.pre self.now.inner) (F.post self.now.inner) }
        requires deeper { 0 < self.now.depth }
        ensures { Reads (spec.further_elements self.now.depth too_high (spec.inside too_high self.now.depth) first tokens.old) result tokens.new }
    {
        let mut all = first;
        for _turn in 0..tokens.left() {
            if !tokens.sees(Sign::Comma) {
                return Ok(all);
            }
            holding!(all, tokens.comma(too_high(all.height)));
            if tokens.closes(Sign::RightBrace) {
                return Ok(all);
            }
            let x = holding!(all, self.open_element(tokens));
            all = added_element(all, x)?;
        }
        Ok(all)
    }

    /// A shape, whose brace is too deep also where `high` says so.
    #[tactic(auto, unfolding(eql_grammar::specs::Readers::shape, eql_grammar::specs::Readers::further_elements))]
    pub fn shape(&self, tokens: &mut Cursor<'_>, high: bool) -> Result<GrownShape, ReadError>
        requires { Nests self.now.depth (F.pre self.now.inner) (F.post self.now.inner) }
        ensures { Reads (spec.shape self.now.depth too_high (spec.inside too_high self.now.depth) (high || (self.now.depth == 0)) tokens.old) result tokens.new }
    {
        let bracket = tokens.expect(high || self.depth == 0, Sign::LeftBrace)?;
        let first = self.open_element(tokens)?;
        let all = self.further_elements(tokens, first_element(self.alloc, first)?)?;
        let close = holding!(all, tokens.expect(too_high(all.height), Sign::RightBrace));
        Ok(shape(bracket, all, close))
    }

    /// The words before a computed element.
    #[tactic(auto, unfolding(eql_grammar::specs::Readers::words))]
    fn words(&self, tokens: &mut Cursor<'_>) -> Result<Qualified, ReadError>
        requires { Nests self.now.depth (F.pre self.now.inner) (F.post self.now.inner) }
        ensures { Reads (spec.words self.now.depth too_high (spec.inside too_high self.now.depth) tokens.old) result tokens.new }
    {
        if !tokens.sees_need() {
            return Ok(tokens.width()?);
        }
        let first = tokens.need()?;
        if !tokens.sees_width() {
            return Ok(first);
        }
        let second = tokens.width()?;
        Ok(both_words(first, second))
    }

    /// What stands behind the name of an element.
    #[tactic(auto, unfolding(eql_grammar::specs::Readers::pointer))]
    fn pointer(&self, tokens: &mut Cursor<'_>, name: Name) -> Result<GrownElement, ReadError>
        requires { Nests self.now.depth (F.pre self.now.inner) (F.post self.now.inner) }
        ensures { Reads (spec.pointer self.now.depth too_high (spec.inside too_high self.now.depth) name tokens.old) result tokens.new }
    {
        if tokens.sees(Sign::Colon) {
            holding!(name, tokens.expect(false, Sign::Colon));
            let found = holding!(name, self.shape(tokens, false));
            let none = no_clauses(self.alloc, found.shape.span.end, found.height);
            let c = holding!((name, found), self.clauses(tokens, none));
            return Ok(nested(name, found, c));
        }
        if tokens.sees(Sign::Assign) {
            holding!(name, tokens.expect(false, Sign::Assign));
            let x = holding!(name, self.expr(tokens));
            let start = name.span.start;
            let words = Qualifiers {
                need: None,
                width: None,
            };
            return Ok(computed(self.alloc, start, words, name, x)?);
        }
        Ok(pointer(name))
    }

    /// An element of a shape.
    #[tactic(auto, unfolding(eql_grammar::specs::Readers::element))]
    pub fn element(&self, tokens: &mut Cursor<'_>) -> Result<GrownElement, ReadError>
        requires { Nests self.now.depth (F.pre self.now.inner) (F.post self.now.inner) }
        ensures { Reads (spec.element self.now.depth too_high (spec.inside too_high self.now.depth) tokens.old) result tokens.new }
    {
        if tokens.sees(Sign::Star) {
            let at = tokens.expect(false, Sign::Star)?;
            if tokens.sees(Sign::Star) {
                let behind = tokens.expect(false, Sign::Star)?;
                return Ok(double_splat(at, behind));
            }
            return Ok(splat(at));
        }
        if tokens.sees(Sign::At) {
            let at = tokens.expect(false, Sign::At)?;
            return Ok(link_property(at, tokens.name(self.alloc)?));
        }
        if tokens.sees_qualifier() {
            let found = self.words(tokens)?;
            let name = tokens.name(self.alloc)?;
            holding!(name, tokens.expect(false, Sign::Assign));
            let x = holding!(name, self.expr(tokens));
            return Ok(computed(self.alloc, found.start, found.qualifiers, name, x)?);
        }
        let name = tokens.name(self.alloc)?;
        self.pointer(tokens, name)
    }
}
