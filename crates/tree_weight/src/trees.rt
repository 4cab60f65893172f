//! What an expression comes to.
ghost use Rattle.std.specs.Prelude.{◌≡◌};
ghost use Rattle.tree_weight.specs.Capped.{brought_of, capped_sizes, no_size};
ghost use Rattle.tree_weight.specs.Measure.{all_behind};
ghost use Rattle.tree_weight.specs.Trees.{path as path_of, path_from as path_from_of, measured as measured_of, key_of, of_scope, of_alias, of_element, if_there, of_choice, of_rows, of_cut};

use crate::size::Size;
use crate::weights::Weights;
use core_ir::{Alias, Conditional, Element, Expr, Key, Occurrence, Scope, Select};
use ev_value::Boxed;

impl Weights {
    /// A path that begins with a root.
    fn path(&self, occurrence: &Occurrence) -> Size
        ensures { result ≡ path_of capped_sizes (brought_of self.now) occurrence.now }
    {
        self.along(
            self.at_root(occurrence.path.root),
            occurrence.path.steps.as_slice(),
        )
    }

    /// A path that begins with an expression.
    fn path_from(&self, base: Size, occurrence: &Occurrence) -> Size
        ensures { result ≡ path_from_of capped_sizes (brought_of self.now) base occurrence.now }
    {
        self.along(base.above(), occurrence.path.steps.as_slice())
    }

    /// An expression.
    #[cycle(measured)]
    #[tactic(auto, using(crate::proofs::Forms::all_forms))]
    pub fn measured(&self, expr: &Expr) -> Size
        ensures { result ≡ measured_of capped_sizes (brought_of self.now) expr.now }
    {
        match expr {
            Expr::Literal(..) | Expr::Param(..) | Expr::Global(..) | Expr::EmptySet(..) => {
                Size::NONE.above()
            }
            Expr::Path(_, occurrence) => self.path(occurrence),
            Expr::OnBase(_, base, occurrence) => {
                self.path_from(self.measured(base.body.get()), occurrence)
            }
            Expr::Operation(_, _, parts)
            | Expr::Tuple(_, parts)
            | Expr::Array(_, _, parts)
            | Expr::Unfit(_, _, _, parts) => self.exprs(parts.as_slice()).above(),
            Expr::Plus(_, operand)
            | Expr::Cast(_, _, operand)
            | Expr::ArrayCast(_, _, operand)
            | Expr::Unpack(_, operand) => self.measured(operand.get()).above(),
            Expr::OptionalEqual(_, _, left, right) => {
                let left = self.measured(left.get());
                left.beside(self.measured(right.get())).above()
            }
            Expr::In(_, _, left, right) | Expr::Coalesce(_, left, right) => {
                let left = self.measured(left.get());
                left.beside(self.measured(right.body.get())).above()
            }
            Expr::OfSet(_, _, set) => self.measured(set.body.get()).above(),
            Expr::Union(_, first, second) => {
                let first = self.measured(first.body.get());
                first.beside(self.measured(second.body.get())).above()
            }
            Expr::Set(_, elements) => self.scopes(elements.as_slice()).above(),
            Expr::If(_, choice) => self.choice(choice).above(),
            Expr::Shaped(_, subject, _, _, elements) => {
                let subject = self.measured(subject.get());
                self.elements(subject, elements.as_slice()).above()
            }
            Expr::Select(_, aliases, select) => {
                let inside = self.aliases(aliases.as_slice()).beside(self.rows(select));
                inside.beside(self.cut(select)).above()
            }
            Expr::For(_, aliases, _, iterator, body) => {
                let aliases = self.aliases(aliases.as_slice());
                let iterator = self.measured(iterator.body.get());
                aliases
                    .beside(iterator.beside(self.measured(body.body.get())))
                    .above()
            }
        }
    }

    /// The parts of a choice.
    #[cycle(measured)]
    fn choice(&self, choice: &Conditional) -> Size
        ensures { result ≡ of_choice capped_sizes (brought_of self.now) choice.now }
    {
        let condition = self.measured(choice.condition.get());
        let value = self.measured(choice.value.body.get());
        condition.beside(value.beside(self.measured(choice.other.body.get())))
    }

    /// The subject, the filter and the keys of a statement.
    #[cycle(measured)]
    fn rows(&self, select: &Select) -> Size
        ensures { result ≡ of_rows capped_sizes (brought_of self.now) select.now }
    {
        let subject = self.measured(select.subject.get());
        let subject = subject.beside(self.clause(&select.filter));
        self.keys(subject, select.keys.as_slice())
    }

    /// The offset and the limit of a statement.
    #[cycle(measured)]
    fn cut(&self, select: &Select) -> Size
        ensures { result ≡ of_cut capped_sizes (brought_of self.now) select.now }
    {
        self.clause(&select.offset)
            .beside(self.clause(&select.limit))
    }

    #[cycle(measured)]
    fn clause(&self, clause: &Option<Boxed<Scope>>) -> Size
        ensures { result ≡ if_there capped_sizes (brought_of self.now) clause.now }
    {
        match clause {
            None => Size::NONE,
            Some(scope) => self.measured(scope.get().body.get()),
        }
    }

    #[cycle(measured)]
    fn exprs(&self, exprs: &[Expr]) -> Size
        ensures { result ≡ all_behind capped_sizes (measured_of capped_sizes (brought_of self.now)) no_size exprs.now }
    {
        let mut total = Size::NONE;
        for expr in exprs {
            total = total.beside(self.measured(expr));
        }
        total
    }

    #[cycle(measured)]
    fn scopes(&self, scopes: &[Scope]) -> Size
        ensures { result ≡ all_behind capped_sizes (of_scope capped_sizes (brought_of self.now)) no_size scopes.now }
    {
        let mut total = Size::NONE;
        for scope in scopes {
            total = total.beside(self.measured(scope.body.get()));
        }
        total
    }

    #[cycle(measured)]
    fn aliases(&self, aliases: &[Alias]) -> Size
        ensures { result ≡ all_behind capped_sizes (of_alias capped_sizes (brought_of self.now)) no_size aliases.now }
    {
        let mut total = Size::NONE;
        for alias in aliases {
            total = total.beside(self.measured(alias.value.body.get()));
        }
        total
    }

    /// The elements of a shape behind its subject.
    #[cycle(measured)]
    fn elements(&self, subject: Size, elements: &[Element]) -> Size
        ensures { result ≡ all_behind capped_sizes (of_element capped_sizes (brought_of self.now)) subject elements.now }
    {
        let mut total = subject;
        for element in elements {
            total = total.beside(self.measured(element.value.body.get()));
        }
        total
    }

    /// The keys of an order behind what stands before them.
    #[cycle(measured)]
    fn keys(&self, before: Size, keys: &[Key]) -> Size
        ensures { result ≡ all_behind capped_sizes (key_of capped_sizes (brought_of self.now)) before keys.now }
    {
        let mut total = before;
        for key in keys {
            total = total.beside(self.key(key));
        }
        total
    }

    #[cycle(measured)]
    #[tactic(auto, using(crate::proofs::Forms::all_forms))]
    fn key(&self, key: &Key) -> Size
        ensures { result ≡ key_of capped_sizes (brought_of self.now) key.now }
    {
        match key {
            Key::Ascending(_, value) | Key::Descending(_, value) => self.measured(value.body.get()),
        }
    }
}
