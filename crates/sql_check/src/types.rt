//! The expressions of a statement that fail by their types.
ghost use Rattle.std.specs.Prelude.{◌≡◌, ◌++◌, IfOk, OnOk};
ghost use Rattle.sql_check.specs.SortFrames.{sorts, with_known};
ghost use Rattle.sql_check.specs.TypeLists as lists;
ghost use Rattle.sql_check.specs.Types as types;
ghost use Rattle.sql_check.specs.Walk as walk;

use crate::judge::{Place, alike, placed};
use crate::names::note;
use crate::sort::{Known, Sort, SortFrames};
use crate::tell::told;
use crate::typing::Typing;
use crate::walk::{beyond, inner, rest, start};
use ev_value::{Boxed, List, ScalarTy};
use sql_ast::{Binary, Body, Case, Column, Core, FromItem, Key, SqlExpr};
use sql_grammar::Places;
use std::alloc::AllocError;

impl<'a> Typing<'a> {
    /// Adds the byte of an expression that fails by what is said of its parts.
    fn judged(
        &self,
        expr: &SqlExpr,
        places: &[Places],
        scope: &SortFrames<'_>,
        found: &mut List<u32>,
    ) -> Result<(), AllocError>
        ensures { OnOk result (found.new ≡ found.old ++ types.failing (types.verdict self.now.catalog.now self.now.params.now expr.now (sorts scope.now)) (walk.start places.now)) }
    {
        let verdict = self.verdict(expr, scope)?;
        told(&verdict, start(places), found)
    }

    /// Adds the byte of an expression whose place does not take its type.
    fn suited(
        &self,
        expr: &SqlExpr,
        place: Place,
        places: &[Places],
        scope: &SortFrames<'_>,
        found: &mut List<u32>,
    ) -> Result<(), AllocError>
        ensures { OnOk result (found.new ≡ found.old ++ types.failing (lists.of_place place (types.verdict self.now.catalog.now self.now.params.now expr.now (sorts scope.now))) (walk.start places.now)) }
    {
        let verdict = self.verdict(expr, scope)?;
        told(&placed(place, verdict), start(places), found)
    }

    /// The bytes of an expression, in the order of the text but for those of its parts, which come first.
    #[cycle(types)]
    #[tactic(auto, using(crate::proofs::FaultForms::of_int, crate::proofs::FaultForms::of_text, crate::proofs::FaultForms::of_bool, crate::proofs::FaultForms::of_uuid, crate::proofs::FaultForms::of_null, crate::proofs::FaultForms::of_column, crate::proofs::FaultForms::of_arg, crate::proofs::FaultForms::of_global, crate::proofs::FaultForms::of_array, crate::proofs::FaultForms::of_row, crate::proofs::FaultForms::of_part, crate::proofs::FaultForms::of_case, crate::proofs::FaultForms::of_cast, crate::proofs::FaultForms::of_unary, crate::proofs::FaultForms::of_binary, crate::proofs::FaultForms::of_call))]
    fn expr(
        &self,
        expr: &SqlExpr,
        places: &[Places],
        scope: &SortFrames<'_>,
        found: &mut List<u32>,
    ) -> Result<(), AllocError>
        ensures { OnOk result (found.new ≡ found.old ++ types.types_in self.now.catalog.now self.now.params.now expr.now places.now (sorts scope.now)) }
    {
        match expr {
            SqlExpr::Int(_) => Ok(()),
            SqlExpr::Text(_) => Ok(()),
            SqlExpr::Bool(_) => Ok(()),
            SqlExpr::Uuid(_) => Ok(()),
            SqlExpr::Null(_) => Ok(()),
            SqlExpr::Column(_, _) => Ok(()),
            SqlExpr::Arg(_, _) => self.judged(expr, places, scope, found),
            SqlExpr::Global(_) => Ok(()),
            SqlExpr::Array(select) => self.array_faults(
                select.cores.as_slice(),
                expr,
                places,
                scope,
                found,
            ),
            SqlExpr::Row(parts) => self.exprs(parts.as_slice(), inner(places), scope, found),
            SqlExpr::Part(row, _) => self.operand(row.get(), expr, places, scope, found),
            SqlExpr::Case(form) => self.case_faults(form, expr, places, scope, found),
            SqlExpr::Cast(operand, _) => self.operand(operand.get(), expr, places, scope, found),
            SqlExpr::Unary(_, operand) => self.operand(operand.get(), expr, places, scope, found),
            SqlExpr::Binary(form) => self.binary_faults(form, expr, places, scope, found),
            SqlExpr::Call(_, operand) => self.operand(operand.get(), expr, places, scope, found),
        }
    }

    #[cycle(types)]
    fn array_faults(
        &self,
        cores: &[Core],
        whole: &SqlExpr,
        places: &[Places],
        scope: &SortFrames<'_>,
        found: &mut List<u32>,
    ) -> Result<(), AllocError>
        ensures { OnOk result (found.new ≡ found.old ++ (types.types_in_list self.now.catalog.now self.now.params.now cores.now (walk.inner (walk.inner places.now)) (sorts scope.now) ++ types.failing (types.verdict self.now.catalog.now self.now.params.now whole.now (sorts scope.now)) (walk.start places.now))) }
    {
        self.cores(cores, inner(inner(places)), scope, found)?;
        self.judged(whole, places, scope, found)
    }

    #[cycle(types)]
    fn operand(
        &self,
        operand: &SqlExpr,
        whole: &SqlExpr,
        places: &[Places],
        scope: &SortFrames<'_>,
        found: &mut List<u32>,
    ) -> Result<(), AllocError>
        ensures { OnOk result (found.new ≡ found.old ++ (types.types_in self.now.catalog.now self.now.params.now operand.now (walk.inner places.now) (sorts scope.now) ++ types.failing (types.verdict self.now.catalog.now self.now.params.now whole.now (sorts scope.now)) (walk.start places.now))) }
    {
        self.expr(operand, inner(places), scope, found)?;
        self.judged(whole, places, scope, found)
    }

    #[cycle(types)]
    fn binary_faults(
        &self,
        form: &Binary,
        whole: &SqlExpr,
        places: &[Places],
        scope: &SortFrames<'_>,
        found: &mut List<u32>,
    ) -> Result<(), AllocError>
        ensures { OnOk result (found.new ≡ found.old ++ (types.types_in self.now.catalog.now self.now.params.now form.now.left (walk.inner places.now) (sorts scope.now) ++ (types.types_in self.now.catalog.now self.now.params.now form.now.right (walk.rest (walk.inner places.now)) (sorts scope.now) ++ types.failing (types.verdict self.now.catalog.now self.now.params.now whole.now (sorts scope.now)) (walk.start places.now)))) }
    {
        self.expr(form.left.get(), inner(places), scope, found)?;
        self.expr(form.right.get(), rest(inner(places)), scope, found)?;
        self.judged(whole, places, scope, found)
    }

    /// A condition that is no truth is told at itself, and branches that differ at the choice.
    #[cycle(types)]
    fn case_faults(
        &self,
        form: &Case,
        whole: &SqlExpr,
        places: &[Places],
        scope: &SortFrames<'_>,
        found: &mut List<u32>,
    ) -> Result<(), AllocError>
        ensures { OnOk result (found.new ≡ found.old ++ lists.types_in_case self.now.catalog.now self.now.params.now form.now whole.now places.now (sorts scope.now)) }
    {
        let parts = inner(places);
        self.in_place(
            form.condition.get(),
            Place::Of(ScalarTy::Bool),
            parts,
            scope,
            found,
        )?;
        self.expr(form.value.get(), rest(parts), scope, found)?;
        self.expr(form.other.get(), rest(rest(parts)), scope, found)?;
        self.judged(whole, places, scope, found)
    }

    /// Of an expression in a place that takes some types.
    #[cycle(types)]
    fn in_place(
        &self,
        expr: &SqlExpr,
        place: Place,
        places: &[Places],
        scope: &SortFrames<'_>,
        found: &mut List<u32>,
    ) -> Result<(), AllocError>
        ensures { OnOk result (found.new ≡ found.old ++ lists.types_in_place self.now.catalog.now self.now.params.now place expr.now places.now (sorts scope.now)) }
    {
        self.expr(expr, places, scope, found)?;
        self.suited(expr, place, places, scope, found)
    }

    #[cycle(types)]
    fn exprs(
        &self,
        exprs: &[SqlExpr],
        places: &[Places],
        scope: &SortFrames<'_>,
        found: &mut List<u32>,
    ) -> Result<(), AllocError>
        ensures { OnOk result (found.new ≡ found.old ++ lists.types_in_exprs self.now.catalog.now self.now.params.now exprs.now places.now (sorts scope.now)) }
    {
        let mut left = places;
        for expr in exprs {
            self.expr(expr, left, scope, found)?;
            left = rest(left);
        }
        Ok(())
    }

    /// The cores of a select, each of which is like the first.
    #[cycle(types)]
    #[tactic(auto, using(crate::proofs::FaultForms::list_is))]
    pub fn cores(
        &self,
        cores: &[Core],
        places: &[Places],
        scope: &SortFrames<'_>,
        found: &mut List<u32>,
    ) -> Result<(), AllocError>
        ensures { OnOk result (found.new ≡ found.old ++ types.types_in_list self.now.catalog.now self.now.params.now cores.now places.now (sorts scope.now)) }
    {
        let first = self.select(cores, scope)?;
        self.further(cores, first.as_slice(), places, scope, found)
    }

    #[cycle(types)]
    fn further(
        &self,
        cores: &[Core],
        first: &[Sort],
        places: &[Places],
        scope: &SortFrames<'_>,
        found: &mut List<u32>,
    ) -> Result<(), AllocError>
        ensures { OnOk result (found.new ≡ found.old ++ types.types_in_further_list self.now.catalog.now self.now.params.now cores.now first.now places.now (sorts scope.now)) }
    {
        let mut left = places;
        for core in cores {
            self.further_core(core, first, left, scope, found)?;
            left = rest(left);
        }
        Ok(())
    }

    #[cycle(types)]
    fn further_core(
        &self,
        core: &Core,
        first: &[Sort],
        places: &[Places],
        scope: &SortFrames<'_>,
        found: &mut List<u32>,
    ) -> Result<(), AllocError>
        ensures { OnOk result (found.new ≡ found.old ++ (types.types_in_core self.now.catalog.now self.now.params.now core.now places.now (sorts scope.now) ++ types.unless_alike (types.alike first.now (types.core_sorts self.now.catalog.now self.now.params.now core.now (sorts scope.now))) (walk.start places.now))) }
    {
        self.faults(core, places, scope, found)?;
        self.likened(core, first, places, scope, found)
    }

    /// Adds the byte of a core that is not like the first.
    fn likened(
        &self,
        core: &Core,
        first: &[Sort],
        places: &[Places],
        scope: &SortFrames<'_>,
        found: &mut List<u32>,
    ) -> Result<(), AllocError>
        ensures { OnOk result (found.new ≡ found.old ++ types.unless_alike (types.alike first.now (types.core_sorts self.now.catalog.now self.now.params.now core.now (sorts scope.now))) (walk.start places.now)) }
    {
        let columns = self.core(core, scope)?;
        let same = alike(first, columns.as_slice());
        note(same, start(places), found)
    }

    // The items are read first, since what stands behind sees what they give.
    #[cycle(types)]
    fn faults(
        &self,
        core: &Core,
        places: &[Places],
        scope: &SortFrames<'_>,
        found: &mut List<u32>,
    ) -> Result<(), AllocError>
        ensures { OnOk result (found.new ≡ found.old ++ types.types_in_core self.now.catalog.now self.now.params.now core.now places.now (sorts scope.now)) }
    {
        match core {
            Core::All(columns, body) => {
                let behind = beyond(columns.len(), inner(places));
                let known = self.items(body.from.as_slice(), behind, scope, found)?;
                self.given_faults(
                    columns.as_slice(),
                    known.as_slice(),
                    inner(places),
                    scope,
                    found,
                )?;
                self.rows(
                    body,
                    known.as_slice(),
                    beyond(body.from.len(), behind),
                    scope,
                    found,
                )
            }
            Core::Distinct(columns, body) => {
                let behind = beyond(columns.len(), inner(places));
                let known = self.items(body.from.as_slice(), behind, scope, found)?;
                self.given_faults(
                    columns.as_slice(),
                    known.as_slice(),
                    inner(places),
                    scope,
                    found,
                )?;
                self.rows(
                    body,
                    known.as_slice(),
                    beyond(body.from.len(), behind),
                    scope,
                    found,
                )
            }
        }
    }

    /// Of columns behind the items of their core.
    #[cycle(types)]
    #[tactic(auto, using(crate::proofs::ScopeForms::frame_known))]
    fn given_faults(
        &self,
        columns: &[Column],
        known: &[Known],
        places: &[Places],
        scope: &SortFrames<'_>,
        found: &mut List<u32>,
    ) -> Result<(), AllocError>
        ensures { OnOk result (found.new ≡ found.old ++ lists.types_in_column_list self.now.catalog.now self.now.params.now columns.now places.now (with_known known.now (sorts scope.now))) }
    {
        let inside = SortFrames::Items(&*scope, &*known);
        self.columns_faults(columns, places, &inside, found)
    }

    #[cycle(types)]
    fn columns_faults(
        &self,
        columns: &[Column],
        places: &[Places],
        scope: &SortFrames<'_>,
        found: &mut List<u32>,
    ) -> Result<(), AllocError>
        ensures { OnOk result (found.new ≡ found.old ++ lists.types_in_column_list self.now.catalog.now self.now.params.now columns.now places.now (sorts scope.now)) }
    {
        let mut left = places;
        for column in columns {
            self.expr(&column.value, inner(left), scope, found)?;
            left = rest(left);
        }
        Ok(())
    }

    /// What items give, each seen by those behind it.
    #[cycle(types)]
    #[tactic(auto, using(crate::proofs::ScopeForms::known_push))]
    fn items(
        &self,
        items: &[FromItem],
        places: &[Places],
        scope: &SortFrames<'_>,
        found: &mut List<u32>,
    ) -> Result<List<Known>, AllocError>
        ensures given { IfOk result (λ k. with_known k (sorts scope.now) ≡ lists.within_items self.now.catalog.now self.now.params.now items.now (sorts scope.now)) }
        ensures added { OnOk result (found.new ≡ found.old ++ lists.types_in_item_list self.now.catalog.now self.now.params.now items.now places.now (sorts scope.now)) }
    {
        let mut known = List::new(self.alloc);
        let mut left = places;
        for item in items {
            self.item_behind(item, known.as_slice(), left, scope, found)?;
            let entry = self.next(item, known.as_slice(), scope)?;
            known.push(entry)?;
            left = rest(left);
        }
        Ok(known)
    }

    #[cycle(types)]
    #[tactic(auto, using(crate::proofs::ScopeForms::frame_known))]
    fn item_behind(
        &self,
        item: &FromItem,
        before: &[Known],
        places: &[Places],
        scope: &SortFrames<'_>,
        found: &mut List<u32>,
    ) -> Result<(), AllocError>
        ensures { OnOk result (found.new ≡ found.old ++ types.types_in_item self.now.catalog.now self.now.params.now item.now places.now (with_known before.now (sorts scope.now))) }
    {
        let inside = SortFrames::Items(&*scope, &*before);
        self.item_faults(item, places, &inside, found)
    }

    /// UNNEST takes an array; what is none is told at itself.
    #[cycle(types)]
    #[tactic(auto, using(crate::proofs::FaultForms::of_table, crate::proofs::FaultForms::of_lateral, crate::proofs::FaultForms::of_left, crate::proofs::FaultForms::of_unnest))]
    fn item_faults(
        &self,
        item: &FromItem,
        places: &[Places],
        scope: &SortFrames<'_>,
        found: &mut List<u32>,
    ) -> Result<(), AllocError>
        ensures { OnOk result (found.new ≡ found.old ++ types.types_in_item self.now.catalog.now self.now.params.now item.now places.now (sorts scope.now)) }
    {
        match item {
            FromItem::Table(_, _) => Ok(()),
            FromItem::Lateral(select, _) => self.cores(
                select.cores.as_slice(),
                inner(inner(places)),
                scope,
                found,
            ),
            FromItem::LeftLateral(select, _) => self.cores(
                select.cores.as_slice(),
                inner(inner(places)),
                scope,
                found,
            ),
            FromItem::Unnest(array, _) => self.in_place(
                array,
                Place::Array,
                inner(places),
                scope,
                found,
            ),
        }
    }

    /// The condition, and what stands behind it, behind the items of their core.
    #[cycle(types)]
    #[tactic(auto, using(crate::proofs::ScopeForms::frame_known))]
    fn rows(
        &self,
        body: &Body,
        known: &[Known],
        places: &[Places],
        scope: &SortFrames<'_>,
        found: &mut List<u32>,
    ) -> Result<(), AllocError>
        ensures { OnOk result (found.new ≡ found.old ++ lists.types_in_rows self.now.catalog.now self.now.params.now body.now places.now (with_known known.now (sorts scope.now)) (sorts scope.now)) }
    {
        let inside = SortFrames::Items(&*scope, &*known);
        self.condition(body, places, &inside, scope, found)
    }

    #[cycle(types)]
    fn condition(
        &self,
        body: &Body,
        places: &[Places],
        inside: &SortFrames<'_>,
        scope: &SortFrames<'_>,
        found: &mut List<u32>,
    ) -> Result<(), AllocError>
        ensures { OnOk result (found.new ≡ found.old ++ lists.types_in_rows self.now.catalog.now self.now.params.now body.now places.now (sorts inside.now) (sorts scope.now)) }
    {
        match &body.condition {
            Some(condition) => {
                self.in_place(
                    condition.get(),
                    Place::Of(ScalarTy::Bool),
                    places,
                    inside,
                    found,
                )?;
                self.order(body, rest(places), inside, scope, found)
            }
            None => self.order(body, places, inside, scope, found),
        }
    }

    /// The keys, in the scope inside, and what stands behind them.
    #[cycle(types)]
    fn order(
        &self,
        body: &Body,
        places: &[Places],
        inside: &SortFrames<'_>,
        scope: &SortFrames<'_>,
        found: &mut List<u32>,
    ) -> Result<(), AllocError>
        ensures { OnOk result (found.new ≡ found.old ++ lists.types_in_order self.now.catalog.now self.now.params.now body.now places.now (sorts inside.now) (sorts scope.now)) }
    {
        self.keys(body.keys.as_slice(), places, inside, found)?;
        self.bounds(body, beyond(body.keys.len(), places), scope, found)
    }

    /// OFFSET and LIMIT, which see the outer aliases only.
    #[cycle(types)]
    fn bounds(
        &self,
        body: &Body,
        places: &[Places],
        scope: &SortFrames<'_>,
        found: &mut List<u32>,
    ) -> Result<(), AllocError>
        ensures { OnOk result (found.new ≡ found.old ++ lists.types_in_bounds self.now.catalog.now self.now.params.now body.now places.now (sorts scope.now)) }
    {
        match &body.offset {
            Some(offset) => {
                self.in_place(
                    offset.get(),
                    Place::Of(ScalarTy::Int64),
                    places,
                    scope,
                    found,
                )?;
                self.limit(&body.limit, rest(places), scope, found)
            }
            None => self.limit(&body.limit, places, scope, found),
        }
    }

    #[cycle(types)]
    fn limit(
        &self,
        limit: &Option<Boxed<SqlExpr>>,
        places: &[Places],
        scope: &SortFrames<'_>,
        found: &mut List<u32>,
    ) -> Result<(), AllocError>
        ensures { OnOk result (found.new ≡ found.old ++ lists.types_in_held self.now.catalog.now self.now.params.now limit.now lists.number places.now (sorts scope.now)) }
    {
        match limit {
            Some(limit) => self.in_place(
                limit.get(),
                Place::Of(ScalarTy::Int64),
                places,
                scope,
                found,
            ),
            None => Ok(()),
        }
    }

    #[cycle(types)]
    fn keys(
        &self,
        keys: &[Key],
        places: &[Places],
        scope: &SortFrames<'_>,
        found: &mut List<u32>,
    ) -> Result<(), AllocError>
        ensures { OnOk result (found.new ≡ found.old ++ lists.types_in_key_list self.now.catalog.now self.now.params.now keys.now places.now (sorts scope.now)) }
    {
        let mut left = places;
        for key in keys {
            self.key(key, left, scope, found)?;
            left = rest(left);
        }
        Ok(())
    }

    #[cycle(types)]
    #[tactic(auto, using(crate::proofs::FaultForms::of_ascending, crate::proofs::FaultForms::of_descending))]
    fn key(
        &self,
        key: &Key,
        places: &[Places],
        scope: &SortFrames<'_>,
        found: &mut List<u32>,
    ) -> Result<(), AllocError>
        ensures { OnOk result (found.new ≡ found.old ++ types.types_in_key self.now.catalog.now self.now.params.now key.now places.now (sorts scope.now)) }
    {
        match key {
            Key::Ascending(value, _) => self.in_place(value, Place::Scalar, places, scope, found),
            Key::Descending(value, _) => self.in_place(value, Place::Scalar, places, scope, found),
        }
    }
}
