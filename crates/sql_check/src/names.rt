//! The names of a statement that are unknown, or stand twice where they may stand once.
ghost use Rattle.std.specs.Prelude.{◌≡◌, ◌++◌, [], IfOk, OnOk};
ghost use Rattle.sql_check.specs.Frames.{entries};
ghost use Rattle.sql_check.specs.NameLists as lists;
ghost use Rattle.sql_check.specs.Names as names;
ghost use Rattle.sql_check.specs.Walk as walk;

use crate::scope::{Frames, alias, has_alias, is_column, is_entry, is_given, is_table};
use crate::walk::{beyond, inner, rest, start};
use ev_value::{Boxed, List, Text};
use sql_ast::{Binary, Body, Case, Catalog, Column, Core, FromItem, Key, SqlExpr};
use sql_grammar::Places;
use std::alloc::{AllocError, Global};

/// Adds a byte where something does not hold.
pub fn note(holds: bool, byte: u32, found: &mut List<u32>) -> Result<(), AllocError>
    ensures { OnOk result (found.new ≡ found.old ++ names.unless holds byte) }
{
    if holds {
        return Ok(());
    }
    found.push(byte)
}

/// What a statement may name.
#[derive(Clone, Copy)]
pub struct Names<'a> {
    pub catalog: &'a Catalog,
}

impl<'a> Names<'a> {
    /// The names of an expression, in the order of the text.
    #[cycle(names)]
    #[tactic(auto, using(crate::proofs::NameForms::of_int, crate::proofs::NameForms::of_text, crate::proofs::NameForms::of_bool, crate::proofs::NameForms::of_uuid, crate::proofs::NameForms::of_null, crate::proofs::NameForms::of_column, crate::proofs::NameForms::of_arg, crate::proofs::NameForms::of_global, crate::proofs::NameForms::of_array, crate::proofs::NameForms::of_row, crate::proofs::NameForms::of_part, crate::proofs::NameForms::of_case, crate::proofs::NameForms::of_cast, crate::proofs::NameForms::of_unary, crate::proofs::NameForms::of_binary, crate::proofs::NameForms::of_call))]
    fn expr(
        &self,
        expr: &SqlExpr,
        places: &[Places],
        scope: &Frames<'_>,
        found: &mut List<u32>,
    ) -> Result<(), AllocError>
        ensures { OnOk result (found.new ≡ found.old ++ names.names_in self.now.catalog.now expr.now places.now (entries scope.now)) }
    {
        match expr {
            SqlExpr::Int(_) => Ok(()),
            SqlExpr::Text(_) => Ok(()),
            SqlExpr::Bool(_) => Ok(()),
            SqlExpr::Uuid(_) => Ok(()),
            SqlExpr::Null(_) => Ok(()),
            SqlExpr::Column(alias, name) => note(
                is_column(scope, self.catalog, alias, name),
                start(places),
                found,
            ),
            SqlExpr::Arg(_, _) => Ok(()),
            SqlExpr::Global(name) => note(
                is_entry(name, self.catalog.globals.as_slice()),
                start(places),
                found,
            ),
            SqlExpr::Array(select) => self.cores(
                select.cores.as_slice(),
                inner(inner(places)),
                scope,
                found,
            ),
            SqlExpr::Row(parts) => self.exprs(parts.as_slice(), inner(places), scope, found),
            SqlExpr::Part(row, _) => self.expr(row.get(), inner(places), scope, found),
            SqlExpr::Case(form) => self.case(form, inner(places), scope, found),
            SqlExpr::Cast(operand, _) => self.expr(operand.get(), inner(places), scope, found),
            SqlExpr::Unary(_, operand) => self.expr(operand.get(), inner(places), scope, found),
            SqlExpr::Binary(form) => self.binary(form, inner(places), scope, found),
            SqlExpr::Call(_, operand) => self.expr(operand.get(), inner(places), scope, found),
        }
    }

    #[cycle(names)]
    fn case(
        &self,
        form: &Case,
        places: &[Places],
        scope: &Frames<'_>,
        found: &mut List<u32>,
    ) -> Result<(), AllocError>
        ensures { OnOk result (found.new ≡ found.old ++ (names.names_in self.now.catalog.now form.now.condition places.now (entries scope.now) ++ (names.names_in self.now.catalog.now form.now.value (walk.rest places.now) (entries scope.now) ++ names.names_in self.now.catalog.now form.now.other (walk.rest (walk.rest places.now)) (entries scope.now)))) }
    {
        self.expr(form.condition.get(), places, scope, found)?;
        self.expr(form.value.get(), rest(places), scope, found)?;
        self.expr(form.other.get(), rest(rest(places)), scope, found)
    }

    #[cycle(names)]
    fn binary(
        &self,
        form: &Binary,
        places: &[Places],
        scope: &Frames<'_>,
        found: &mut List<u32>,
    ) -> Result<(), AllocError>
        ensures { OnOk result (found.new ≡ found.old ++ (names.names_in self.now.catalog.now form.now.left places.now (entries scope.now) ++ names.names_in self.now.catalog.now form.now.right (walk.rest places.now) (entries scope.now))) }
    {
        self.expr(form.left.get(), places, scope, found)?;
        self.expr(form.right.get(), rest(places), scope, found)
    }

    #[cycle(names)]
    fn exprs(
        &self,
        exprs: &[SqlExpr],
        places: &[Places],
        scope: &Frames<'_>,
        found: &mut List<u32>,
    ) -> Result<(), AllocError>
        ensures { OnOk result (found.new ≡ found.old ++ lists.names_in_exprs self.now.catalog.now exprs.now places.now (entries scope.now)) }
    {
        let mut left = places;
        for expr in exprs {
            self.expr(expr, left, scope, found)?;
            left = rest(left);
        }
        Ok(())
    }

    #[cycle(names)]
    pub fn cores(
        &self,
        cores: &[Core],
        places: &[Places],
        scope: &Frames<'_>,
        found: &mut List<u32>,
    ) -> Result<(), AllocError>
        ensures { OnOk result (found.new ≡ found.old ++ names.names_in_list self.now.catalog.now cores.now places.now (entries scope.now)) }
    {
        let mut left = places;
        for core in cores {
            self.core(core, left, scope, found)?;
            left = rest(left);
        }
        Ok(())
    }

    #[cycle(names)]
    fn core(
        &self,
        core: &Core,
        places: &[Places],
        scope: &Frames<'_>,
        found: &mut List<u32>,
    ) -> Result<(), AllocError>
        ensures { OnOk result (found.new ≡ found.old ++ names.names_in_core self.now.catalog.now core.now places.now (entries scope.now)) }
    {
        match core {
            Core::All(columns, body) => {
                self.columns(columns.as_slice(), body, inner(places), scope, found)?;
                self.body(body, beyond(columns.len(), inner(places)), scope, found)
            }
            Core::Distinct(columns, body) => {
                self.columns(columns.as_slice(), body, inner(places), scope, found)?;
                self.body(body, beyond(columns.len(), inner(places)), scope, found)
            }
        }
    }

    /// The columns of a core see the aliases of its items.
    #[cycle(names)]
    #[tactic(auto, using(crate::proofs::NameForms::frame_items))]
    fn columns(
        &self,
        columns: &[Column],
        body: &Body,
        places: &[Places],
        scope: &Frames<'_>,
        found: &mut List<u32>,
    ) -> Result<(), AllocError>
        ensures { OnOk result (found.new ≡ found.old ++ lists.names_in_column_list self.now.catalog.now columns.now [] places.now (names.with_items body.now.from (entries scope.now))) }
    {
        let inside = Frames::Items(&*scope, body.from.as_slice());
        self.column_list(columns, places, &inside, found)
    }

    /// No name stands twice among columns.
    #[cycle(names)]
    fn column_list(
        &self,
        columns: &[Column],
        places: &[Places],
        scope: &Frames<'_>,
        found: &mut List<u32>,
    ) -> Result<(), AllocError>
        ensures { OnOk result (found.new ≡ found.old ++ lists.names_in_column_list self.now.catalog.now columns.now [] places.now (entries scope.now)) }
    {
        let mut left = places;
        for (i, column) in columns.iter().enumerate() {
            self.column(column, &columns[..i], left, scope, found)?;
            left = rest(left);
        }
        Ok(())
    }

    #[cycle(names)]
    fn column(
        &self,
        column: &Column,
        before: &[Column],
        places: &[Places],
        scope: &Frames<'_>,
        found: &mut List<u32>,
    ) -> Result<(), AllocError>
        ensures { OnOk result (found.new ≡ found.old ++ lists.names_in_column self.now.catalog.now column.now (lists.column_names before.now) places.now (entries scope.now)) }
    {
        self.expr(&column.value, inner(places), scope, found)?;
        note(!is_given(&column.name, before), start(places), found)
    }

    /// What stands behind the columns.
    #[cycle(names)]
    fn body(
        &self,
        body: &Body,
        places: &[Places],
        scope: &Frames<'_>,
        found: &mut List<u32>,
    ) -> Result<(), AllocError>
        ensures { OnOk result (found.new ≡ found.old ++ lists.names_in_body self.now.catalog.now body.now places.now (entries scope.now)) }
    {
        self.items(body.from.as_slice(), places, scope, found)?;
        self.rows(body, beyond(body.from.len(), places), scope, found)
    }

    /// The condition, and what stands behind it; the condition and the keys see the aliases of the items.
    #[cycle(names)]
    #[tactic(auto, using(crate::proofs::NameForms::frame_items))]
    fn rows(
        &self,
        body: &Body,
        places: &[Places],
        scope: &Frames<'_>,
        found: &mut List<u32>,
    ) -> Result<(), AllocError>
        ensures { OnOk result (found.new ≡ found.old ++ lists.names_in_rows self.now.catalog.now body.now places.now (names.with_items body.now.from (entries scope.now)) (entries scope.now)) }
    {
        let inside = Frames::Items(&*scope, body.from.as_slice());
        self.condition(body, places, &inside, scope, found)
    }

    #[cycle(names)]
    fn condition(
        &self,
        body: &Body,
        places: &[Places],
        inside: &Frames<'_>,
        scope: &Frames<'_>,
        found: &mut List<u32>,
    ) -> Result<(), AllocError>
        ensures { OnOk result (found.new ≡ found.old ++ lists.names_in_rows self.now.catalog.now body.now places.now (entries inside.now) (entries scope.now)) }
    {
        match &body.condition {
            Some(condition) => {
                self.expr(condition.get(), places, inside, found)?;
                self.order(body, rest(places), inside, scope, found)
            }
            None => self.order(body, places, inside, scope, found),
        }
    }

    /// The keys, in the scope inside, and what stands behind them.
    #[cycle(names)]
    fn order(
        &self,
        body: &Body,
        places: &[Places],
        inside: &Frames<'_>,
        scope: &Frames<'_>,
        found: &mut List<u32>,
    ) -> Result<(), AllocError>
        ensures { OnOk result (found.new ≡ found.old ++ lists.names_in_order self.now.catalog.now body.now places.now (entries inside.now) (entries scope.now)) }
    {
        self.keys(body.keys.as_slice(), places, inside, found)?;
        self.bounds(body, beyond(body.keys.len(), places), scope, found)
    }

    /// OFFSET and LIMIT, which see the outer aliases only.
    #[cycle(names)]
    fn bounds(
        &self,
        body: &Body,
        places: &[Places],
        scope: &Frames<'_>,
        found: &mut List<u32>,
    ) -> Result<(), AllocError>
        ensures { OnOk result (found.new ≡ found.old ++ lists.names_in_bounds self.now.catalog.now body.now places.now (entries scope.now)) }
    {
        match &body.offset {
            Some(offset) => {
                self.expr(offset.get(), places, scope, found)?;
                self.held(&body.limit, rest(places), scope, found)
            }
            None => self.held(&body.limit, places, scope, found),
        }
    }

    #[cycle(names)]
    fn held(
        &self,
        held: &Option<Boxed<SqlExpr>>,
        places: &[Places],
        scope: &Frames<'_>,
        found: &mut List<u32>,
    ) -> Result<(), AllocError>
        ensures { OnOk result (found.new ≡ found.old ++ lists.names_in_held self.now.catalog.now held.now places.now (entries scope.now)) }
    {
        match held {
            Some(expr) => self.expr(expr.get(), places, scope, found),
            None => Ok(()),
        }
    }

    /// No alias stands twice in a core.
    #[cycle(names)]
    fn items(
        &self,
        items: &[FromItem],
        places: &[Places],
        scope: &Frames<'_>,
        found: &mut List<u32>,
    ) -> Result<(), AllocError>
        ensures { OnOk result (found.new ≡ found.old ++ lists.names_in_item_list self.now.catalog.now items.now [] places.now (entries scope.now)) }
    {
        let mut left = places;
        for (i, item) in items.iter().enumerate() {
            self.next_item(item, &items[..i], left, scope, found)?;
            left = rest(left);
        }
        Ok(())
    }

    #[cycle(names)]
    fn next_item(
        &self,
        item: &FromItem,
        before: &[FromItem],
        places: &[Places],
        scope: &Frames<'_>,
        found: &mut List<u32>,
    ) -> Result<(), AllocError>
        ensures { OnOk result (found.new ≡ found.old ++ lists.names_in_next self.now.catalog.now item.now before.now places.now (entries scope.now)) }
    {
        self.item_behind(item, before, places, scope, found)?;
        note(!has_alias(alias(item), before), start(places), found)
    }

    /// An item sees the aliases of those before it.
    #[cycle(names)]
    #[tactic(auto, using(crate::proofs::NameForms::frame_items))]
    fn item_behind(
        &self,
        item: &FromItem,
        before: &[FromItem],
        places: &[Places],
        scope: &Frames<'_>,
        found: &mut List<u32>,
    ) -> Result<(), AllocError>
        ensures { OnOk result (found.new ≡ found.old ++ names.names_in_item self.now.catalog.now item.now places.now (names.with_items before.now (entries scope.now))) }
    {
        let inside = Frames::Items(&*scope, &*before);
        self.item(item, places, &inside, found)
    }

    #[cycle(names)]
    #[tactic(auto, using(crate::proofs::NameForms::of_table, crate::proofs::NameForms::of_lateral, crate::proofs::NameForms::of_left, crate::proofs::NameForms::of_unnest))]
    fn item(
        &self,
        item: &FromItem,
        places: &[Places],
        scope: &Frames<'_>,
        found: &mut List<u32>,
    ) -> Result<(), AllocError>
        ensures { OnOk result (found.new ≡ found.old ++ names.names_in_item self.now.catalog.now item.now places.now (entries scope.now)) }
    {
        match item {
            FromItem::Table(name, _) => note(
                is_table(name, self.catalog.tables.as_slice()),
                start(inner(places)),
                found,
            ),
            FromItem::Lateral(select, _) => self.cores(
                select.cores.as_slice(),
                inner(inner(places)),
                scope,
                found,
            ),
            FromItem::LeftLateral(select, _) => self.cores(
                select.cores.as_slice(),
                inner(inner(places)),
                scope,
                found,
            ),
            FromItem::Unnest(array, _) => self.expr(array, inner(places), scope, found),
        }
    }

    #[cycle(names)]
    fn keys(
        &self,
        keys: &[Key],
        places: &[Places],
        scope: &Frames<'_>,
        found: &mut List<u32>,
    ) -> Result<(), AllocError>
        ensures { OnOk result (found.new ≡ found.old ++ lists.names_in_key_list self.now.catalog.now keys.now places.now (entries scope.now)) }
    {
        let mut left = places;
        for key in keys {
            self.key(key, left, scope, found)?;
            left = rest(left);
        }
        Ok(())
    }

    #[cycle(names)]
    #[tactic(auto, using(crate::proofs::NameForms::of_ascending, crate::proofs::NameForms::of_descending))]
    fn key(
        &self,
        key: &Key,
        places: &[Places],
        scope: &Frames<'_>,
        found: &mut List<u32>,
    ) -> Result<(), AllocError>
        ensures { OnOk result (found.new ≡ found.old ++ names.names_in_key self.now.catalog.now key.now places.now (entries scope.now)) }
    {
        match key {
            Key::Ascending(value, _) => self.expr(value, places, scope, found),
            Key::Descending(value, _) => self.expr(value, places, scope, found),
        }
    }
}
