//! Statements: aliases, `for`, and `select` with its clauses.
ghost use Rattle.std.specs.Prelude.{◌≡◌, ◌∷◌, ◌++◌, [], IfOk, true, map};
ghost use Rattle.ev_value.specs.Item.{bind};
ghost use Rattle.core_ir.specs.declared.tree.Select.{out-Select};
ghost use Rattle.eql_sem.specs.Meaning.{key_list, order_of as order_by};
ghost use Rattle.eql_sem.specs.Parts.{clause_values, condition_values, keys_of, items_in, aliased, rows_under, rows_of_item, selected, repeated, row_made};
ghost use Rattle.eql_sem.specs.Selects.{cut_rows as rows_cut, finished};
ghost use Rattle.eql_eval.specs.Recursion.{Evaluates};
ghost use Rattle.eql_eval.specs.Statements.{IsDefined};

use crate::evaluator::Evaluator;
use crate::task::Task;
use core_ir::{Alias, Expr, Key, Root, Scope, Select};
use eql_sem::{
    Bound, Copies, Formed, Name, Range, Row, Settled, World, copied_bounds, copied_names, cut_rows,
    fault_items, first_of, gathered, is_cut, keyed_rows, one, orders_of, plain_rows,
    prefixes_of_statement, ranges, root_name, settle, with_bound, with_name, within,
};
use ev_list::{KeyOrder, Keyed, any_true};
use ev_value::{Boxed, Fault, Item, List, Val};
use std::alloc::{AllocError, Global};

/// What the aliases of a statement come to.
#[derive(Drop)]
pub(crate) enum Defined {
    /// The names in scope behind them, and what these stand for.
    Names(List<Name>, List<Bound>),
    /// The faults of one of them.
    Faults(List<Fault>),
}

impl<
    W: World,
    F: Fn(
        Global,
        &W,
        usize,
        &Expr,
        &[Name],
        &[Bound],
        Task,
    ) -> Result<List<Item<Formed>>, AllocError>,
> Evaluator<'_, W, F> {
    // The aliases of a statement, each evaluated once, where the earlier ones are bound.
    #[tactic(auto, using(crate::proofs::Aliases::defined_turn, crate::proofs::Aliases::defined_faults, crate::proofs::Aliases::defined_end))]
    fn define(
        &self,
        aliases: &[Alias],
        names: &[Name],
        bounds: &[Bound],
    ) -> Result<Defined, AllocError>
        requires { Evaluates W.means self.now.depth (F.pre self.now.inner) (F.post self.now.inner) }
        ensures { IfOk result (λ d. IsDefined (W.means self.now.world.now) d aliases.now names.now bounds.now) }
    {
        let mut inner = copied_names(self.alloc, names)?;
        let mut stand = copied_bounds(self.alloc, bounds)?;
        for alias in aliases {
            let found = self.scope_values(
                alias.value.body.get(),
                inner.as_slice(),
                stand.as_slice(),
            )?;
            match settle(self.alloc, found.as_slice())? {
                Settled::Values(values) => {
                    inner = with_name(self.alloc, Name::Alias(alias.number), inner.as_slice())?;
                    stand = with_bound(self.alloc, Bound::Listed(values), stand.as_slice())?;
                }
                Settled::Faults(faults) => return Ok(Defined::Faults(faults)),
            }
        }
        Ok(Defined::Names(inner, stand))
    }

    // The list of an offset or a limit.
    fn clause(
        &self,
        clause: &Option<Boxed<Scope>>,
        names: &[Name],
        bounds: &[Bound],
    ) -> Result<List<Item>, AllocError>
        requires { Evaluates W.means self.now.depth (F.pre self.now.inner) (F.post self.now.inner) }
        ensures { IfOk result (λ xs. xs ≡ clause_values (W.means self.now.world.now) clause.now names.now bounds.now) }
    {
        match clause {
            Some(scope) => self.scope_values(scope.get().body.get(), names, bounds),
            None => Ok(List::new(self.alloc)),
        }
    }

    // The list of a condition; an absent one is true.
    fn condition(
        &self,
        clause: &Option<Boxed<Scope>>,
        names: &[Name],
        bounds: &[Bound],
    ) -> Result<List<Item>, AllocError>
        requires { Evaluates W.means self.now.depth (F.pre self.now.inner) (F.post self.now.inner) }
        ensures { IfOk result (λ xs. xs ≡ condition_values (W.means self.now.world.now) clause.now names.now bounds.now) }
    {
        match clause {
            Some(scope) => self.scope_values(scope.get().body.get(), names, bounds),
            None => one(self.alloc, Item::Value(Val::Bool(true))),
        }
    }

    // The list of a key.
    #[tactic(auto, using(eql_sem::proofs::Equations::key_forms))]
    fn key_values(
        &self,
        key: &Key,
        names: &[Name],
        bounds: &[Bound],
    ) -> Result<List<Item>, AllocError>
        requires { Evaluates W.means self.now.depth (F.pre self.now.inner) (F.post self.now.inner) }
        ensures { IfOk result (λ xs. xs ≡ key_list (W.means self.now.world.now) key.now names.now bounds.now) }
    {
        match key {
            Key::Ascending(_, scope) => self.scope_values(scope.body.get(), names, bounds),
            Key::Descending(_, scope) => self.scope_values(scope.body.get(), names, bounds),
        }
    }

    // The keys of a row, each with its first value or its faults.
    fn key_lists(
        &self,
        keys: &[Key],
        names: &[Name],
        bounds: &[Bound],
    ) -> Result<List<List<Item<Option<Val>>>>, AllocError>
        requires { Evaluates W.means self.now.depth (F.pre self.now.inner) (F.post self.now.inner) }
        ensures { IfOk result (λ xs. xs ≡ keys_of (W.means self.now.world.now) keys.now names.now bounds.now) }
    {
        let mut all = List::new(self.alloc);
        for key in keys {
            let found = self.key_values(key, names, bounds)?;
            all.push(first_of(self.alloc, found.as_slice())?)?;
        }
        Ok(all)
    }

    // The row of an item of the subject, where the condition has a true item.
    #[tactic(auto, using(crate::proofs::Aliases::when_true, crate::proofs::Aliases::when_false, crate::proofs::Aliases::when_faulty))]
    fn row(
        &self,
        select: &Select,
        names: &[Name],
        bounds: &[Bound],
        item: &Formed,
    ) -> Result<List<Item<Keyed<Row>>>, AllocError>
        requires { Evaluates W.means self.now.depth (F.pre self.now.inner) (F.post self.now.inner) }
        ensures { IfOk result (λ xs. xs ≡ rows_of_item (W.means self.now.world.now) select.now names.now bounds.now item.now) }
    {
        let inner = with_name(
            self.alloc,
            root_name(self.alloc, Root::Subject(select.number)),
            names,
        )?;
        let stand = with_bound(
            self.alloc,
            Bound::One(item.value.copied(self.alloc)?),
            bounds,
        )?;
        let condition = self.condition(&select.filter, inner.as_slice(), stand.as_slice())?;
        match settle(self.alloc, condition.as_slice())? {
            Settled::Values(truths) => {
                if !any_true(truths.as_slice()) {
                    return Ok(List::new(self.alloc));
                }
                let keys = self.key_lists(
                    select.keys.as_slice(),
                    inner.as_slice(),
                    stand.as_slice(),
                )?;
                let keys = gathered(self.alloc, keys.as_slice())?;
                keyed_rows(self.alloc, bounds, item, keys.as_slice())
            }
            Settled::Faults(faults) => fault_items(self.alloc, faults.as_slice()),
        }
    }

    // The rows under one extension.
    fn rows(
        &self,
        select: &Select,
        names: &[Name],
        bounds: &[Bound],
    ) -> Result<List<Item<Keyed<Row>>>, AllocError>
        requires { Evaluates W.means self.now.depth (F.pre self.now.inner) (F.post self.now.inner) }
        ensures { IfOk result (λ xs. xs ≡ rows_under (W.means self.now.world.now) select.now names.now bounds.now) }
    {
        let found = self.items(select.subject.get(), names, bounds)?;
        let mut all = List::new(self.alloc);
        for item in found.as_slice() {
            match item {
                Item::Value(formed) => all.append(self.row(select, names, bounds, formed)?)?,
                Item::Fault(fault) => all.push(Item::Fault(*fault))?,
            }
        }
        Ok(all)
    }

    // The rows under each extension.
    fn all_rows(
        &self,
        select: &Select,
        names: &[Name],
        extensions: &[Item<List<Bound>>],
    ) -> Result<List<Item<Keyed<Row>>>, AllocError>
        requires { Evaluates W.means self.now.depth (F.pre self.now.inner) (F.post self.now.inner) }
        ensures { IfOk result (λ xs. xs ≡ bind extensions.now (rows_under (W.means self.now.world.now) select.now names.now)) }
    {
        let mut all = List::new(self.alloc);
        for extension in extensions {
            match extension {
                Item::Value(bounds) => all.append(self.rows(select, names, bounds.as_slice())?)?,
                Item::Fault(fault) => all.push(Item::Fault(*fault))?,
            }
        }
        Ok(all)
    }

    // What is made of the rows that are left.
    fn made_rows(
        &self,
        select: &Select,
        names: &[Name],
        rows: &[Item<Row>],
    ) -> Result<List<Item<Formed>>, AllocError>
        requires { Evaluates W.means self.now.depth (F.pre self.now.inner) (F.post self.now.inner) }
        ensures { IfOk result (λ xs. xs ≡ bind rows.now (row_made (W.means self.now.world.now) select.now names.now)) }
    {
        let mut all = List::new(self.alloc);
        for item in rows {
            match item {
                Item::Value(row) => {
                    let formed = row.item.copied_in(self.alloc)?;
                    all.append(self.made(select.subject.get(), names, row.now.as_slice(), formed)?)?
                }
                Item::Fault(fault) => all.push(Item::Fault(*fault))?,
            }
        }
        Ok(all)
    }

    // What is made of the rows that an order, an offset and a limit leave.
    fn made_range(
        &self,
        select: &Select,
        names: &[Name],
        rows: &[Item<Keyed<Row>>],
        range: Range,
    ) -> Result<List<Item<Formed>>, AllocError>
        requires { Evaluates W.means self.now.depth (F.pre self.now.inner) (F.post self.now.inner) }
        ensures { IfOk result (λ xs. xs ≡ bind (rows_cut (map order_by (out-Select select.now).keys) range.offset range.limit rows.now) (row_made (W.means self.now.world.now) select.now names.now)) }
    {
        let orders = orders_of(self.alloc, select.keys.as_slice())?;
        let left = cut_rows(self.alloc, orders.as_slice(), range, rows)?;
        self.made_rows(select, names, left.as_slice())
    }

    // The same for each range of a list.
    fn made_ranges(
        &self,
        select: &Select,
        names: &[Name],
        rows: &[Item<Keyed<Row>>],
        ranges: &[Item<Range>],
    ) -> Result<List<Item<Formed>>, AllocError>
        requires { Evaluates W.means self.now.depth (F.pre self.now.inner) (F.post self.now.inner) }
        ensures { IfOk result (λ xs. xs ≡ bind ranges.now (λ r. bind (rows_cut (map order_by (out-Select select.now).keys) r.offset r.limit rows.now) (row_made (W.means self.now.world.now) select.now names.now))) }
    {
        let mut all = List::new(self.alloc);
        for item in ranges {
            match item {
                Item::Value(range) => all.append(self.made_range(select, names, rows, *range)?)?,
                Item::Fault(fault) => all.push(Item::Fault(*fault))?,
            }
        }
        Ok(all)
    }

    // A select that has an order, an offset or a limit, once its rows are known.
    #[tactic(auto, using(eql_sem::proofs::Cutting::ranged_is))]
    fn cut(
        &self,
        select: &Select,
        names: &[Name],
        bounds: &[Bound],
        inner: &[Name],
        rows: &[Item<Keyed<Row>>],
    ) -> Result<List<Item<Formed>>, AllocError>
        requires { Evaluates W.means self.now.depth (F.pre self.now.inner) (F.post self.now.inner) }
        ensures { IfOk result (λ xs. xs ≡ finished true (clause_values (W.means self.now.world.now) (out-Select select.now).offset names.now bounds.now) (clause_values (W.means self.now.world.now) (out-Select select.now).limit names.now bounds.now) (map order_by (out-Select select.now).keys) rows.now (row_made (W.means self.now.world.now) select.now inner.now)) }
    {
        let offset = self.clause(&select.offset, names, bounds)?;
        let limit = self.clause(&select.limit, names, bounds)?;
        let ranges = ranges(self.alloc, offset.as_slice(), limit.as_slice())?;
        self.made_ranges(select, inner, rows, ranges.as_slice())
    }

    // A select behind its aliases.
    fn select(
        &self,
        select: &Select,
        names: &[Name],
        bounds: &[Bound],
    ) -> Result<List<Item<Formed>>, AllocError>
        requires { Evaluates W.means self.now.depth (F.pre self.now.inner) (F.post self.now.inner) }
        ensures { IfOk result (λ xs. xs ≡ selected (W.means self.now.world.now) select.now names.now bounds.now) }
    {
        let prefixes = prefixes_of_statement(self.alloc, select, names)?;
        let extensions = self.extensions(select.subject.get(), prefixes.as_slice(), names, bounds)?;
        let inner = within(self.alloc, prefixes.as_slice(), names)?;
        let rows = self.all_rows(select, inner.as_slice(), extensions.as_slice())?;
        if is_cut(select) {
            return self.cut(select, names, bounds, inner.as_slice(), rows.as_slice());
        }
        let rows = plain_rows(self.alloc, rows.as_slice())?;
        self.made_rows(select, inner.as_slice(), rows.as_slice())
    }

    // The body of a `for` with its variable at a value.
    fn turn(
        &self,
        body: &Expr,
        names: &[Name],
        bounds: &[Bound],
        value: &Val,
    ) -> Result<List<Item<Formed>>, AllocError>
        requires { Evaluates W.means self.now.depth (F.pre self.now.inner) (F.post self.now.inner) }
        ensures { IfOk result (λ xs. xs ≡ items_in (W.means self.now.world.now) body.now names.now (Bound.One value.now ∷ bounds.now)) }
    {
        let stand = with_bound(self.alloc, Bound::One(value.copied(self.alloc)?), bounds)?;
        self.scope_items(body, names, stand.as_slice())
    }

    // A `for` behind its aliases.
    fn repeat(
        &self,
        number: u32,
        iterator: &Expr,
        body: &Expr,
        names: &[Name],
        bounds: &[Bound],
    ) -> Result<List<Item<Formed>>, AllocError>
        requires { Evaluates W.means self.now.depth (F.pre self.now.inner) (F.post self.now.inner) }
        ensures { IfOk result (λ xs. xs ≡ repeated (W.means self.now.world.now) number iterator.now body.now names.now bounds.now) }
    {
        let found = self.scope_values(iterator, names, bounds)?;
        let inner = with_name(self.alloc, root_name(self.alloc, Root::Var(number)), names)?;
        let inner = inner.as_slice();
        let mut all = List::new(self.alloc);
        for item in found.as_slice() {
            match item {
                Item::Value(value) => all.append(self.turn(body, inner, bounds, value)?)?,
                Item::Fault(fault) => all.push(Item::Fault(*fault))?,
            }
        }
        Ok(all)
    }

    /// A `select` and the aliases before it.
    #[tactic(auto, using(crate::proofs::Aliases::behind_names, crate::proofs::Aliases::behind_faults))]
    pub(crate) fn select_behind(
        &self,
        aliases: &[Alias],
        select: &Select,
        names: &[Name],
        bounds: &[Bound],
    ) -> Result<List<Item<Formed>>, AllocError>
        requires { Evaluates W.means self.now.depth (F.pre self.now.inner) (F.post self.now.inner) }
        ensures { IfOk result (λ xs. xs ≡ aliased (W.means self.now.world.now) aliases.now (selected (W.means self.now.world.now) select.now) names.now bounds.now) }
    {
        match self.define(aliases, names, bounds)? {
            Defined::Names(inner, stand) => self.select(select, inner.as_slice(), stand.as_slice()),
            Defined::Faults(faults) => fault_items(self.alloc, faults.as_slice()),
        }
    }

    /// A `for` and the aliases before it.
    #[tactic(auto, using(crate::proofs::Aliases::behind_names, crate::proofs::Aliases::behind_faults))]
    pub(crate) fn for_behind(
        &self,
        aliases: &[Alias],
        number: u32,
        iterator: &Expr,
        body: &Expr,
        names: &[Name],
        bounds: &[Bound],
    ) -> Result<List<Item<Formed>>, AllocError>
        requires { Evaluates W.means self.now.depth (F.pre self.now.inner) (F.post self.now.inner) }
        ensures { IfOk result (λ xs. xs ≡ aliased (W.means self.now.world.now) aliases.now (repeated (W.means self.now.world.now) number iterator.now body.now) names.now bounds.now) }
    {
        match self.define(aliases, names, bounds)? {
            Defined::Names(inner, stand) => {
                self.repeat(number, iterator, body, inner.as_slice(), stand.as_slice())
            }
            Defined::Faults(faults) => fault_items(self.alloc, faults.as_slice()),
        }
    }
}
