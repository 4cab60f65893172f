//! Expressions and selects, by recursion on their trees.
ghost use Rattle.std.specs.Prelude.{◌≡◌, ◌++◌, IfOk, OnOk, if◌then◌else◌};
ghost use Rattle.ev_value.specs.Item.{bind};
ghost use Rattle.ev_value.specs.declared.item.Item.{Item};
ghost use Rattle.ev_value.specs.declared.item.Item.TheVariants as item;
ghost use Rattle.ev_value.specs.declared.value.Val as val;
ghost use Rattle.sql_table.specs.declared.cell.Cell.{Cell};
ghost use Rattle.sql_table.specs.declared.cell.Cell.TheVariants as cell_form;
ghost use Rattle.sql_table.specs.Forms.{cells_of_all, cells_of, values_of, turns_of, rows_of, truth_of, bound_of, names_of_cores};
ghost use Rattle.sql_table.specs.Meaning.{cell_of_expr, cell_of_key, counted as counted_item, each_under, element_rows as element_rows_of, for_value, or_nulls as or_nulls_of, first_cells as first_cells_of, on_value, rows_of_core, turns_of_item};
ghost use Rattle.sql_table.specs.Names.{column as column_in, element_columns, entry as entry_in};
ghost use Rattle.sql_table.specs.Operators.{binary_item, cast_item, function_item, holds as holds_cell, part as part_of, unary_item};
ghost use Rattle.sql_table.specs.Outcome.{Gives};
ghost use Rattle.sql_exec.specs.Engine.{world_of, arranged_rows, kept_turn, kept_turns, row_turn, keyed_turn};

use crate::arrange::{Clauses, limited};
use crate::row::{element_rows, first_cells, or_nulls, orders, select_names};
use crate::turn::{Turn, shared_scope, table_turns, turns_under};
use ev_list::{Keyed, limit_of, one_item};
use ev_value::{Args, Item, List, OpError, Text, Val};
use sql_ast::{
    Binary, Body, Case, Column, Core, FromItem, Function, Key, Select, SqlExpr, SqlTy, UnaryOp,
};
use sql_table::{
    Cell, Frame, Row, Scope, Shared, Tables, binary, call, cast_cell, column, entry, holds, part,
    unary, value_of,
};
use std::alloc::{AllocError, Global};

/// What a statement runs over.
#[derive(Clone, Copy)]
pub(crate) struct Engine<'a> {
    pub alloc: Global,
    pub tables: &'a Tables,
    pub args: &'a Args,
}

/// How many rows a bound says.
fn counted(bound: Result<Cell, OpError>) -> Result<Item<Option<u64>>, AllocError>
    ensures { (due : Item Cell) → Gives bound due → IfOk result (λ n. n ≡ counted_item due) }
{
    match bound {
        Ok(cell) => Ok(limit_of(value_of(cell))),
        Err(OpError::Fault(fault)) => Ok(Item::Fault(fault)),
        Err(OpError::Memory) => Err(AllocError),
    }
}

impl Engine<'_> {
    fn column(&self, alias: &Text, name: &Text, scope: &[Shared<Frame>]) -> Result<Cell, OpError>
        ensures { Gives result (item.Value (column_in alias.now name.now scope.now)) }
    {
        Ok(column(self.alloc, alias, name, scope)?)
    }

    fn argument(&self, name: &Text) -> Result<Cell, OpError>
        ensures { Gives result (item.Value (entry_in name.now self.now.args.now.params)) }
    {
        Ok(entry(self.alloc, name, self.args.params.as_slice())?)
    }

    fn global(&self, name: &Text) -> Result<Cell, OpError>
        ensures { Gives result (item.Value (entry_in name.now self.now.args.now.globals)) }
    {
        Ok(entry(self.alloc, name, self.args.globals.as_slice())?)
    }

    fn text(&self, text: &Text) -> Result<Cell, OpError>
        ensures { Gives result (item.Value (cell_form.Val (val.Str text.now))) }
    {
        Ok(Cell::Val(Val::Str(text.copied(self.alloc)?)))
    }

    /// The cell of an expression in a scope, or its fault.
    #[cycle(run)]
    #[tactic(auto, using(sql_table::proofs::Equations::of_int, sql_table::proofs::Equations::of_text, sql_table::proofs::Equations::of_bool, sql_table::proofs::Equations::of_uuid, sql_table::proofs::Equations::of_null, sql_table::proofs::Equations::of_column, sql_table::proofs::Equations::of_arg, sql_table::proofs::Equations::of_global, sql_table::proofs::Equations::of_array, sql_table::proofs::Equations::of_row, sql_table::proofs::Equations::of_part, sql_table::proofs::Equations::of_case, sql_table::proofs::Equations::of_cast, sql_table::proofs::Equations::of_unary, sql_table::proofs::Equations::of_binary, sql_table::proofs::Equations::of_call))]
    fn cell(&self, expr: &SqlExpr, scope: &[Shared<Frame>]) -> Result<Cell, OpError>
        ensures { Gives result (cell_of_expr (world_of self.now) expr.now scope.now) }
    {
        match expr {
            SqlExpr::Int(number) => Ok(Cell::Val(Val::Int(*number))),
            SqlExpr::Text(text) => self.text(text),
            SqlExpr::Bool(truth) => Ok(Cell::Val(Val::Bool(*truth))),
            SqlExpr::Uuid(id) => Ok(Cell::Val(Val::Id(*id))),
            SqlExpr::Null(_) => Ok(Cell::Null),
            SqlExpr::Column(alias, name) => self.column(alias, name, scope),
            SqlExpr::Arg(name, _) => self.argument(name),
            SqlExpr::Global(name) => self.global(name),
            SqlExpr::Array(select) => self.array(select, scope),
            SqlExpr::Row(parts) => self.row(parts.as_slice(), scope),
            SqlExpr::Part(row, number) => self.part(row.get(), *number, scope),
            SqlExpr::Case(form) => self.case(form, scope),
            SqlExpr::Cast(operand, ty) => self.cast(operand.get(), ty, scope),
            SqlExpr::Unary(operator, operand) => self.unary(operand.get(), *operator, scope),
            SqlExpr::Binary(form) => self.binary(form, scope),
            SqlExpr::Call(function, operand) => self.call(operand.get(), *function, scope),
        }
    }

    #[cycle(run)]
    fn array(&self, select: &Select, scope: &[Shared<Frame>]) -> Result<Cell, OpError>
        ensures { Gives result (on_value (first_cells_of (rows_of (world_of self.now) select.now.cores scope.now)) (λ cs. item.Value (cell_form.Array cs))) }
    {
        let rows = self.rows(select.cores.as_slice(), scope)?;
        Ok(Cell::Array(first_cells(self.alloc, rows.as_slice())?))
    }

    #[cycle(run)]
    fn row(&self, parts: &[SqlExpr], scope: &[Shared<Frame>]) -> Result<Cell, OpError>
        ensures { Gives result (on_value (cells_of_all (world_of self.now) parts.now scope.now) (λ cs. item.Value (cell_form.Row cs))) }
    {
        Ok(Cell::Row(self.cells(parts, scope)?))
    }

    #[cycle(run)]
    fn part(&self, row: &SqlExpr, number: i64, scope: &[Shared<Frame>]) -> Result<Cell, OpError>
        ensures { Gives result (on_value (cell_of_expr (world_of self.now) row.now scope.now) (λ x. item.Value (part_of number x))) }
    {
        let cell = self.cell(row, scope)?;
        Ok(part(self.alloc, cell, number)?)
    }

    #[cycle(run)]
    fn case(&self, form: &Case, scope: &[Shared<Frame>]) -> Result<Cell, OpError>
        ensures { Gives result (on_value (cell_of_expr (world_of self.now) form.now.condition scope.now) (λ x. if holds_cell x then cell_of_expr (world_of self.now) form.now.value scope.now else cell_of_expr (world_of self.now) form.now.other scope.now)) }
    {
        let condition = self.cell(form.condition.get(), scope)?;
        if holds(&condition) {
            self.cell(form.value.get(), scope)
        } else {
            self.cell(form.other.get(), scope)
        }
    }

    #[cycle(run)]
    fn cast(&self, operand: &SqlExpr, ty: &SqlTy, scope: &[Shared<Frame>]) -> Result<Cell, OpError>
        ensures { Gives result (on_value (cell_of_expr (world_of self.now) operand.now scope.now) (cast_item ty.now)) }
    {
        let cell = self.cell(operand, scope)?;
        cast_cell(self.alloc, cell, ty)
    }

    #[cycle(run)]
    fn unary(
        &self,
        operand: &SqlExpr,
        operator: UnaryOp,
        scope: &[Shared<Frame>],
    ) -> Result<Cell, OpError>
        ensures { Gives result (on_value (cell_of_expr (world_of self.now) operand.now scope.now) (unary_item operator)) }
    {
        let cell = self.cell(operand, scope)?;
        unary(operator, cell)
    }

    #[cycle(run)]
    fn binary(&self, form: &Binary, scope: &[Shared<Frame>]) -> Result<Cell, OpError>
        ensures { Gives result (on_value (cell_of_expr (world_of self.now) form.now.left scope.now) (λ x. on_value (cell_of_expr (world_of self.now) form.now.right scope.now) (λ y. binary_item form.now.operator x y))) }
    {
        let left = self.cell(form.left.get(), scope)?;
        let right = self.cell(form.right.get(), scope)?;
        binary(form.operator, left, right)
    }

    #[cycle(run)]
    fn call(
        &self,
        operand: &SqlExpr,
        function: Function,
        scope: &[Shared<Frame>],
    ) -> Result<Cell, OpError>
        ensures { Gives result (on_value (cell_of_expr (world_of self.now) operand.now scope.now) (function_item function)) }
    {
        let cell = self.cell(operand, scope)?;
        call(self.alloc, function, cell)
    }

    /// The cells of expressions, or the first fault.
    #[cycle(run)]
    fn cells(&self, exprs: &[SqlExpr], scope: &[Shared<Frame>]) -> Result<List<Cell>, OpError>
        ensures { Gives result (cells_of_all (world_of self.now) exprs.now scope.now) }
    {
        let mut cells = List::new(self.alloc);
        for expr in exprs {
            cells.push(self.cell(expr, scope)?)?;
        }
        Ok(cells)
    }

    /// The cells of columns, or the first fault.
    #[cycle(run)]
    fn columns(&self, columns: &[Column], scope: &[Shared<Frame>]) -> Result<List<Cell>, OpError>
        ensures { Gives result (cells_of (world_of self.now) columns.now scope.now) }
    {
        let mut cells = List::new(self.alloc);
        for column in columns {
            cells.push(self.cell(&column.value, scope)?)?;
        }
        Ok(cells)
    }

    #[cycle(run)]
    #[tactic(auto, using(sql_table::proofs::Equations::of_ascending, sql_table::proofs::Equations::of_descending))]
    fn key(&self, key: &Key, scope: &[Shared<Frame>]) -> Result<Cell, OpError>
        ensures { Gives result (cell_of_key (world_of self.now) key.now scope.now) }
    {
        match key {
            Key::Ascending(value, _) => self.cell(value, scope),
            Key::Descending(value, _) => self.cell(value, scope),
        }
    }

    /// The values of keys, or the first fault. A null is absent.
    #[cycle(run)]
    fn keys(&self, keys: &[Key], scope: &[Shared<Frame>]) -> Result<List<Option<Val>>, OpError>
        ensures { Gives result (values_of (world_of self.now) keys.now scope.now) }
    {
        let mut values = List::new(self.alloc);
        for key in keys {
            values.push(value_of(self.key(key, scope)?))?;
        }
        Ok(values)
    }

    /// The rows of cores, one after the other.
    #[cycle(run)]
    pub(crate) fn rows(
        &self,
        cores: &[Core],
        scope: &[Shared<Frame>],
    ) -> Result<List<Item<Row>>, AllocError>
        ensures { IfOk result (λ l. l ≡ rows_of (world_of self.now) cores.now scope.now) }
    {
        let mut rows = List::new(self.alloc);
        for core in cores {
            rows.append(self.core(core, scope)?)?;
        }
        Ok(rows)
    }

    #[cycle(run)]
    #[tactic(auto, using(crate::proofs::Passes::all_passes, crate::proofs::Passes::distinct_passes))]
    fn core(&self, core: &Core, scope: &[Shared<Frame>]) -> Result<List<Item<Row>>, AllocError>
        ensures { IfOk result (λ l. l ≡ rows_of_core (world_of self.now) core.now scope.now) }
    {
        match core {
            Core::All(columns, body) => {
                let turns = self.kept_turns(body, scope)?;
                let rows = self.with_cells(columns.as_slice(), turns.as_slice())?;
                self.arranged(body, false, rows.as_slice(), scope)
            }
            Core::Distinct(columns, body) => {
                let turns = self.kept_turns(body, scope)?;
                let rows = self.with_cells(columns.as_slice(), turns.as_slice())?;
                self.arranged(body, true, rows.as_slice(), scope)
            }
        }
    }

    /// The turns of FROM where WHERE is true.
    #[cycle(run)]
    fn kept_turns(
        &self,
        body: &Body,
        scope: &[Shared<Frame>],
    ) -> Result<List<Item<Shared<Scope>>>, AllocError>
        ensures { IfOk result (λ l. l ≡ kept_turns (world_of self.now) body.now scope.now) }
    {
        let turns = self.turns(body.from.as_slice(), scope)?;
        self.kept(body, turns.as_slice())
    }

    /// The turns where WHERE is true.
    #[cycle(run)]
    fn kept(
        &self,
        body: &Body,
        turns: &[Item<Shared<Scope>>],
    ) -> Result<List<Item<Shared<Scope>>>, AllocError>
        ensures { IfOk result (λ l. l ≡ bind turns.now (kept_turn (world_of self.now) body.now)) }
    {
        let mut all = List::new(self.alloc);
        for turn in turns {
            match turn {
                Item::Value(scope) => self.keep(body, scope, &mut all)?,
                Item::Fault(fault) => all.push(Item::Fault(*fault))?,
            }
        }
        Ok(all)
    }

    #[cycle(run)]
    fn keep(
        &self,
        body: &Body,
        turn: &Shared<Scope>,
        all: &mut List<Item<Shared<Scope>>>,
    ) -> Result<(), AllocError>
        ensures { OnOk result (all.new ≡ all.old ++ kept_turn (world_of self.now) body.now turn.now) }
    {
        match self.truth(body, turn.get().as_slice()) {
            Ok(true) => all.push(Item::Value(turn.share()?)),
            Ok(false) => Ok(()),
            Err(OpError::Fault(fault)) => all.push(Item::Fault(fault)),
            Err(OpError::Memory) => Err(AllocError),
        }
    }

    /// Whether WHERE is true in a turn.
    #[cycle(run)]
    fn truth(&self, body: &Body, turn: &[Shared<Frame>]) -> Result<bool, OpError>
        ensures { Gives result (truth_of (world_of self.now) body.now.condition turn.now) }
    {
        match &body.condition {
            None => Ok(true),
            Some(condition) => {
                let cell = self.cell(condition.get(), turn)?;
                Ok(holds(&cell))
            }
        }
    }

    /// Each turn with the cells of its columns.
    #[cycle(run)]
    fn with_cells(
        &self,
        columns: &[Column],
        turns: &[Item<Shared<Scope>>],
    ) -> Result<List<Item<Turn>>, AllocError>
        ensures { IfOk result (λ l. l ≡ bind turns.now (row_turn (world_of self.now) columns.now)) }
    {
        let mut all = List::new(self.alloc);
        for turn in turns {
            match turn {
                Item::Value(scope) => self.add_cells(columns, scope, &mut all)?,
                Item::Fault(fault) => all.push(Item::Fault(*fault))?,
            }
        }
        Ok(all)
    }

    #[cycle(run)]
    fn add_cells(
        &self,
        columns: &[Column],
        turn: &Shared<Scope>,
        all: &mut List<Item<Turn>>,
    ) -> Result<(), AllocError>
        ensures { OnOk result (all.new ≡ all.old ++ row_turn (world_of self.now) columns.now turn.now) }
    {
        match self.columns(columns, turn.get().as_slice()) {
            Ok(cells) => {
                let row = Shared::new(self.alloc, cells)?;
                let scope = turn.share()?;
                all.push(Item::Value(Turn { scope, row }))
            }
            Err(OpError::Fault(fault)) => all.push(Item::Fault(fault)),
            Err(OpError::Memory) => Err(AllocError),
        }
    }

    /// Each row with its keys.
    #[cycle(run)]
    fn with_keys(
        &self,
        keys: &[Key],
        rows: &[Item<Turn>],
    ) -> Result<List<Item<Keyed<Row>>>, AllocError>
        ensures { IfOk result (λ l. l ≡ bind rows.now (keyed_turn (world_of self.now) keys.now)) }
    {
        let mut all = List::new(self.alloc);
        for turn in rows {
            match turn {
                Item::Value(turn) => self.add_keys(keys, turn, &mut all)?,
                Item::Fault(fault) => all.push(Item::Fault(*fault))?,
            }
        }
        Ok(all)
    }

    #[cycle(run)]
    fn add_keys(
        &self,
        keys: &[Key],
        turn: &Turn,
        all: &mut List<Item<Keyed<Row>>>,
    ) -> Result<(), AllocError>
        ensures { OnOk result (all.new ≡ all.old ++ keyed_turn (world_of self.now) keys.now turn.now) }
    {
        match self.keys(keys, turn.scope.get().as_slice()) {
            Ok(keys) => {
                let value = turn.row.share()?;
                all.push(Item::Value(Keyed { keys, value }))
            }
            Err(OpError::Fault(fault)) => all.push(Item::Fault(fault)),
            Err(OpError::Memory) => Err(AllocError),
        }
    }

    #[cycle(run)]
    fn offset(&self, body: &Body, scope: &[Shared<Frame>]) -> Result<Item<Option<u64>>, AllocError>
        ensures { IfOk result (λ n. n ≡ counted_item (bound_of (world_of self.now) body.now.offset scope.now)) }
    {
        match &body.offset {
            None => Ok(Item::Value(None)),
            Some(bound) => counted(self.cell(bound.get(), scope)),
        }
    }

    #[cycle(run)]
    fn limit(&self, body: &Body, scope: &[Shared<Frame>]) -> Result<Item<Option<u64>>, AllocError>
        ensures { IfOk result (λ n. n ≡ counted_item (bound_of (world_of self.now) body.now.limit scope.now)) }
    {
        match &body.limit {
            None => Ok(Item::Value(None)),
            Some(bound) => counted(self.cell(bound.get(), scope)),
        }
    }

    /// What the clauses behind WHERE make of rows.
    #[cycle(run)]
    fn arranged(
        &self,
        body: &Body,
        is_distinct: bool,
        rows: &[Item<Turn>],
        scope: &[Shared<Frame>],
    ) -> Result<List<Item<Row>>, AllocError>
        ensures { IfOk result (λ l. l ≡ arranged_rows (world_of self.now) is_distinct body.now rows.now scope.now) }
    {
        let offset = self.offset(body, scope)?;
        let limit = self.limit(body, scope)?;
        let keyed = self.with_keys(body.keys.as_slice(), rows)?;
        let clauses = Clauses {
            is_distinct,
            orders: orders(self.alloc, body.keys.as_slice())?,
            has_offset: body.offset.is_some(),
            has_limit: body.limit.is_some(),
        };
        limited(self.alloc, &clauses, offset, limit, keyed)
    }

    /// The turns of a loop over items, from left to right.
    #[cycle(run)]
    fn turns(
        &self,
        items: &[FromItem],
        scope: &[Shared<Frame>],
    ) -> Result<List<Item<Shared<Scope>>>, AllocError>
        ensures { IfOk result (λ l. l ≡ turns_of (world_of self.now) items.now scope.now) }
    {
        let mut turns = one_item(self.alloc, Item::Value(shared_scope(self.alloc, scope)?))?;
        for item in items {
            turns = self.extended(item, turns.as_slice())?;
        }
        Ok(turns)
    }

    /// The turns that one item makes of others.
    #[cycle(run)]
    fn extended(
        &self,
        item: &FromItem,
        turns: &[Item<Shared<Scope>>],
    ) -> Result<List<Item<Shared<Scope>>>, AllocError>
        ensures { IfOk result (λ l. l ≡ bind turns.now (turns_of_item (world_of self.now) item.now)) }
    {
        let mut all = List::new(self.alloc);
        for turn in turns {
            match turn {
                Item::Value(scope) => all.append(self.item(item, scope.get().as_slice())?)?,
                Item::Fault(fault) => all.push(Item::Fault(*fault))?,
            }
        }
        Ok(all)
    }

    /// The turns that one item makes of a scope.
    #[cycle(run)]
    #[tactic(auto, using(sql_table::proofs::Equations::of_table, sql_table::proofs::Equations::of_lateral, sql_table::proofs::Equations::of_left, sql_table::proofs::Equations::of_unnest))]
    fn item(
        &self,
        item: &FromItem,
        scope: &[Shared<Frame>],
    ) -> Result<List<Item<Shared<Scope>>>, AllocError>
        ensures { IfOk result (λ l. l ≡ turns_of_item (world_of self.now) item.now scope.now) }
    {
        match item {
            FromItem::Table(name, alias) => {
                table_turns(self.alloc, self.tables, name, alias, scope)
            }
            FromItem::Lateral(select, alias) => self.lateral(select, alias, scope),
            FromItem::LeftLateral(select, alias) => self.left_lateral(select, alias, scope),
            FromItem::Unnest(array, alias) => self.unnested(array, alias, scope),
        }
    }

    #[cycle(run)]
    fn lateral(
        &self,
        select: &Select,
        alias: &Text,
        scope: &[Shared<Frame>],
    ) -> Result<List<Item<Shared<Scope>>>, AllocError>
        ensures { IfOk result (λ l. l ≡ each_under alias.now (names_of_cores select.now.cores) scope.now (rows_of (world_of self.now) select.now.cores scope.now)) }
    {
        let rows = self.rows(select.cores.as_slice(), scope)?;
        let names = select_names(self.alloc, select.cores.as_slice())?;
        turns_under(self.alloc, alias, names, rows.as_slice(), scope)
    }

    #[cycle(run)]
    fn left_lateral(
        &self,
        select: &Select,
        alias: &Text,
        scope: &[Shared<Frame>],
    ) -> Result<List<Item<Shared<Scope>>>, AllocError>
        ensures { IfOk result (λ l. l ≡ each_under alias.now (names_of_cores select.now.cores) scope.now (or_nulls_of (names_of_cores select.now.cores) (rows_of (world_of self.now) select.now.cores scope.now))) }
    {
        let rows = self.rows(select.cores.as_slice(), scope)?;
        let names = select_names(self.alloc, select.cores.as_slice())?;
        let rows = or_nulls(self.alloc, names.as_slice(), rows)?;
        turns_under(self.alloc, alias, names, rows.as_slice(), scope)
    }

    #[cycle(run)]
    fn unnested(
        &self,
        array: &SqlExpr,
        alias: &Text,
        scope: &[Shared<Frame>],
    ) -> Result<List<Item<Shared<Scope>>>, AllocError>
        ensures { IfOk result (λ l. l ≡ for_value (cell_of_expr (world_of self.now) array.now scope.now) (λ x. each_under alias.now element_columns scope.now (element_rows_of x))) }
    {
        match self.cell(array, scope) {
            Ok(cell) => element_turns(self.alloc, cell, alias, scope),
            Err(OpError::Fault(fault)) => one_item(self.alloc, Item::Fault(fault)),
            Err(OpError::Memory) => Err(AllocError),
        }
    }
}

/// The elements of an array, each under the alias in the column "c1".
fn element_turns(
    alloc: Global,
    array: Cell,
    alias: &Text,
    scope: &[Shared<Frame>],
) -> Result<List<Item<Shared<Scope>>>, AllocError>
    ensures { IfOk result (λ l. l ≡ each_under alias.now element_columns scope.now (element_rows_of array)) }
{
    let rows = element_rows(alloc, array)?;
    let mut names = List::new(alloc);
    names.push(Text::from_str(alloc, "c1")?)?;
    turns_under(alloc, alias, names, rows.as_slice(), scope)
}
