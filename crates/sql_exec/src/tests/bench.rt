//! Statements written as steps of a stack machine.

use ev_list::Absent;
use ev_value::{Boxed, List, ScalarTy, Text};
use sql_ast::{
    Binary, BinaryOp, Body, Case, Column, Core, FromItem, Function, Key, Select, SqlExpr, SqlTy,
    Stmt, UnaryOp,
};
use std::alloc::{AllocError, Global};

/// One step: expressions take their operands from the stack, and clauses take what they are of.
#[derive(Clone, Copy)]
pub enum Step {
    Int(i64),
    Text(&'static str),
    Truth(bool),
    Null(ScalarTy),
    Column(&'static str, &'static str),
    Arg(&'static str),
    Global(&'static str),
    /// The array of the select that was ended last.
    Array,
    /// A row of the two expressions on the stack.
    Pair,
    Part(i64),
    /// Condition, value and other.
    Case,
    Unary(UnaryOp),
    Binary(BinaryOp),
    Call(Function),
    /// A select begins.
    Begin,
    Named(&'static str),
    Table(&'static str, &'static str),
    Lateral(&'static str),
    LeftLateral(&'static str),
    Unnest(&'static str),
    Where,
    Ascending(Absent),
    Descending(Absent),
    Offset,
    Limit,
    /// The core is ready: `SELECT`, or `SELECT DISTINCT`.
    Core,
    Distinct,
    /// The select is ready.
    End,
}

/// A core in the making, and the cores before it.
#[derive(Drop)]
struct Draft {
    cores: List<Core>,
    columns: List<Column>,
    from: List<FromItem>,
    keys: List<Key>,
    condition: Option<Boxed<SqlExpr>>,
    offset: Option<Boxed<SqlExpr>>,
    limit: Option<Boxed<SqlExpr>>,
}

fn begun(alloc: Global, cores: List<Core>) -> Draft {
    Draft {
        cores,
        columns: List::new(alloc),
        from: List::new(alloc),
        keys: List::new(alloc),
        condition: None,
        offset: None,
        limit: None,
    }
}

#[derive(Drop)]
struct Bench {
    alloc: Global,
    exprs: Vec<SqlExpr>,
    drafts: Vec<Draft>,
    selects: Vec<Select>,
}

/// The statement that the steps make; the outermost select ends by itself.
pub fn statement(alloc: Global, steps: &[Step]) -> Result<Option<Stmt>, AllocError> {
    let mut bench = Bench {
        alloc,
        exprs: Vec::new(alloc),
        drafts: Vec::new(alloc),
        selects: Vec::new(alloc),
    };
    match bench.take_all(steps) {
        Ok(()) => Ok(bench.selects.pop().map(|select| Stmt { select })),
        Err(error) => Err(error),
    }
}

// Two and three values in memory of their own: generic code, which is checked once and for any type.
fn box_two<T: Drop>(alloc: Global, a: T, b: T) -> Result<(Boxed<T>, Boxed<T>), AllocError> {
    let a = Boxed::new(alloc, a)?;
    let b = Boxed::new(alloc, b)?;
    Ok((a, b))
}

fn list_two<T: Drop>(alloc: Global, a: T, b: T) -> Result<List<T>, AllocError> {
    let mut all = List::new(alloc);
    all.push(a)?;
    all.push(b)?;
    Ok(all)
}

impl Bench {
    fn take_all(&mut self, steps: &[Step]) -> Result<(), AllocError> {
        for step in steps {
            self.take(*step)?;
        }
        self.end()
    }

    fn take(&mut self, step: Step) -> Result<(), AllocError> {
        match step {
            Step::Int(number) => self.push(SqlExpr::Int(number)),
            Step::Truth(truth) => self.push(SqlExpr::Bool(truth)),
            Step::Null(ty) => self.push(SqlExpr::Null(SqlTy::Scalar(ty))),
            Step::Text(text) => self.text(text),
            Step::Column(alias, name) => self.column(alias, name),
            Step::Arg(name) => self.argument(name),
            Step::Global(name) => self.global(name),
            Step::Array => self.array(),
            Step::Pair => self.pair(),
            Step::Case => self.case(),
            Step::Binary(operator) => self.binary(operator),
            Step::Part(number) => self.part(number),
            Step::Unary(operator) => self.unary(operator),
            Step::Call(function) => self.call(function),
            Step::Begin => self.begin(),
            Step::Named(name) => self.named(name),
            Step::Table(name, alias) => self.table(name, alias),
            Step::Lateral(alias) => self.lateral(alias),
            Step::LeftLateral(alias) => self.left_lateral(alias),
            Step::Unnest(alias) => self.unnest(alias),
            Step::Where => self.condition(),
            Step::Offset => self.offset(),
            Step::Limit => self.limit(),
            Step::Ascending(nulls) => self.ascending(nulls),
            Step::Descending(nulls) => self.descending(nulls),
            Step::Core => self.core(false),
            Step::Distinct => self.core(true),
            Step::End => self.end(),
        }
    }

    fn push(&mut self, expr: SqlExpr) -> Result<(), AllocError> {
        Ok(self.exprs.push(expr)?)
    }

    fn text(&mut self, text: &str) -> Result<(), AllocError> {
        let text = Text::from_str(self.alloc, text)?;
        self.push(SqlExpr::Text(text))
    }

    fn column(&mut self, alias: &str, name: &str) -> Result<(), AllocError> {
        let alias = Text::from_str(self.alloc, alias)?;
        let name = Text::from_str(self.alloc, name)?;
        self.push(SqlExpr::Column(alias, name))
    }

    fn argument(&mut self, name: &str) -> Result<(), AllocError> {
        let name = Text::from_str(self.alloc, name)?;
        self.push(SqlExpr::Arg(name, SqlTy::Scalar(ScalarTy::Int64)))
    }

    fn global(&mut self, name: &str) -> Result<(), AllocError> {
        let name = Text::from_str(self.alloc, name)?;
        self.push(SqlExpr::Global(name))
    }

    fn array(&mut self) -> Result<(), AllocError> {
        match self.selects.pop() {
            Some(select) => self.push(SqlExpr::Array(select)),
            None => Ok(()),
        }
    }

    /// The expression on the stack, in memory of its own.
    fn boxed(&mut self) -> Result<Option<Boxed<SqlExpr>>, AllocError> {
        match self.exprs.pop() {
            Some(expr) => Ok(Some(Boxed::new(self.alloc, expr)?)),
            None => Ok(None),
        }
    }

    fn part(&mut self, number: i64) -> Result<(), AllocError> {
        match self.boxed()? {
            Some(operand) => self.push(SqlExpr::Part(operand, number)),
            None => Ok(()),
        }
    }

    fn unary(&mut self, operator: UnaryOp) -> Result<(), AllocError> {
        match self.boxed()? {
            Some(operand) => self.push(SqlExpr::Unary(operator, operand)),
            None => Ok(()),
        }
    }

    fn call(&mut self, function: Function) -> Result<(), AllocError> {
        match self.boxed()? {
            Some(operand) => self.push(SqlExpr::Call(function, operand)),
            None => Ok(()),
        }
    }

    fn pair(&mut self) -> Result<(), AllocError> {
        match (self.exprs.pop(), self.exprs.pop()) {
            (Some(second), Some(first)) => {
                let parts = list_two(self.alloc, first, second)?;
                self.push(SqlExpr::Row(parts))
            }
            _ => Ok(()),
        }
    }

    fn binary(&mut self, operator: BinaryOp) -> Result<(), AllocError> {
        match (self.exprs.pop(), self.exprs.pop()) {
            (Some(right), Some(left)) => {
                let (left, right) = box_two(self.alloc, left, right)?;
                self.push(SqlExpr::Binary(Binary {
                    operator,
                    left,
                    right,
                }))
            }
            _ => Ok(()),
        }
    }

    fn case(&mut self) -> Result<(), AllocError> {
        match (self.exprs.pop(), self.exprs.pop()) {
            (Some(other), Some(value)) => {
                let (value, other) = box_two(self.alloc, value, other)?;
                match self.boxed() {
                    Ok(Some(condition)) => self.push(SqlExpr::Case(Case {
                        condition,
                        value,
                        other,
                    })),
                    Ok(None) => Ok(()),
                    Err(error) => Err(error),
                }
            }
            _ => Ok(()),
        }
    }

    fn begin(&mut self) -> Result<(), AllocError> {
        Ok(self.drafts.push(begun(self.alloc, List::new(self.alloc)))?)
    }

    fn add_item(&mut self, item: FromItem) -> Result<(), AllocError> {
        match self.drafts.last_mut() {
            Some(draft) => draft.from.push(item),
            None => Ok(()),
        }
    }

    fn table(&mut self, name: &str, alias: &str) -> Result<(), AllocError> {
        let name = Text::from_str(self.alloc, name)?;
        let alias = Text::from_str(self.alloc, alias)?;
        self.add_item(FromItem::Table(name, alias))
    }

    fn lateral(&mut self, alias: &str) -> Result<(), AllocError> {
        let alias = Text::from_str(self.alloc, alias)?;
        match self.selects.pop() {
            Some(select) => self.add_item(FromItem::Lateral(select, alias)),
            None => Ok(()),
        }
    }

    fn left_lateral(&mut self, alias: &str) -> Result<(), AllocError> {
        let alias = Text::from_str(self.alloc, alias)?;
        match self.selects.pop() {
            Some(select) => self.add_item(FromItem::LeftLateral(select, alias)),
            None => Ok(()),
        }
    }

    fn unnest(&mut self, alias: &str) -> Result<(), AllocError> {
        let alias = Text::from_str(self.alloc, alias)?;
        match self.exprs.pop() {
            Some(array) => self.add_item(FromItem::Unnest(array, alias)),
            None => Ok(()),
        }
    }

    fn named(&mut self, name: &str) -> Result<(), AllocError> {
        let name = Text::from_str(self.alloc, name)?;
        match (self.exprs.pop(), self.drafts.last_mut()) {
            (Some(value), Some(draft)) => draft.columns.push(Column { value, name }),
            _ => Ok(()),
        }
    }

    fn condition(&mut self) -> Result<(), AllocError> {
        let condition = self.boxed()?;
        if let Some(draft) = self.drafts.last_mut() {
            draft.condition = condition;
        }
        Ok(())
    }

    fn offset(&mut self) -> Result<(), AllocError> {
        let offset = self.boxed()?;
        if let Some(draft) = self.drafts.last_mut() {
            draft.offset = offset;
        }
        Ok(())
    }

    fn limit(&mut self) -> Result<(), AllocError> {
        let limit = self.boxed()?;
        if let Some(draft) = self.drafts.last_mut() {
            draft.limit = limit;
        }
        Ok(())
    }

    fn ascending(&mut self, nulls: Absent) -> Result<(), AllocError> {
        match (self.exprs.pop(), self.drafts.last_mut()) {
            (Some(value), Some(draft)) => draft.keys.push(Key::Ascending(value, nulls)),
            _ => Ok(()),
        }
    }

    fn descending(&mut self, nulls: Absent) -> Result<(), AllocError> {
        match (self.exprs.pop(), self.drafts.last_mut()) {
            (Some(value), Some(draft)) => draft.keys.push(Key::Descending(value, nulls)),
            _ => Ok(()),
        }
    }

    fn core(&mut self, is_distinct: bool) -> Result<(), AllocError> {
        match self.drafts.pop() {
            Some(ready) => self.add_core(is_distinct, ready),
            None => Ok(()),
        }
    }

    fn add_core(&mut self, is_distinct: bool, ready: Draft) -> Result<(), AllocError> {
        let Draft {
            mut cores,
            columns,
            from,
            keys,
            condition,
            offset,
            limit,
        } = ready;
        let body = Body {
            from,
            condition,
            keys,
            offset,
            limit,
        };
        cores.push(if is_distinct {
            Core::Distinct(columns, body)
        } else {
            Core::All(columns, body)
        })?;
        Ok(self.drafts.push(begun(self.alloc, cores))?)
    }

    fn end(&mut self) -> Result<(), AllocError> {
        match self.drafts.pop() {
            Some(ready) => self.add_select(ready),
            None => Ok(()),
        }
    }

    fn add_select(&mut self, ready: Draft) -> Result<(), AllocError> {
        let Draft {
            cores,
            columns: _,
            from: _,
            keys: _,
            condition: _,
            offset: _,
            limit: _,
        } = ready;
        Ok(self.selects.push(Select { cores })?)
    }
}
