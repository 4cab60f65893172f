//! What is said of expressions, and the columns that items and selects give.
ghost use Rattle.std.specs.Prelude.{◌≡◌, IfOk};
ghost use Rattle.sql_check.specs.SortFrames.{sorts, with_known};
ghost use Rattle.sql_check.specs.TypeLists as lists;
ghost use Rattle.sql_check.specs.Types as types;

use crate::columns::{column_type, element_sorts, global_type, named, table_sorts};
use crate::judge;
use crate::scope::alias;
use crate::sort::{Known, Sort, SortFrames};
use crate::verdict::Verdict;
use ev_value::{List, ScalarTy, Text};
use sql_ast::{
    Binary, Case, Catalog, Column, Core, FromItem, Function, SqlExpr, SqlTy, Typed, UnaryOp,
};
use std::alloc::{AllocError, Global};

/// What types stand on.
#[derive(Clone, Copy)]
pub struct Typing<'a> {
    pub alloc: Global,
    pub catalog: &'a Catalog,
    /// The statement's ARGs in the order of the text: the first with a name says its type.
    pub params: &'a [Typed],
}

impl<'a> Typing<'a> {
    /// What is said of an expression.
    #[cycle(typing)]
    #[tactic(auto, using(crate::proofs::TypeForms::int_verdict, crate::proofs::TypeForms::text_verdict, crate::proofs::TypeForms::bool_verdict, crate::proofs::TypeForms::uuid_verdict, crate::proofs::TypeForms::null_verdict, crate::proofs::TypeForms::column_verdict, crate::proofs::TypeForms::arg_is, crate::proofs::TypeForms::global_verdict, crate::proofs::TypeForms::array_is, crate::proofs::TypeForms::row_is, crate::proofs::TypeForms::part_is, crate::proofs::TypeForms::case_is, crate::proofs::TypeForms::cast_is, crate::proofs::TypeForms::unary_is, crate::proofs::TypeForms::binary_is, crate::proofs::TypeForms::call_is))]
    pub fn verdict(&self, expr: &SqlExpr, scope: &SortFrames<'_>) -> Result<Verdict, AllocError>
        ensures { IfOk result (λ v. v ≡ types.verdict self.now.catalog.now self.now.params.now expr.now (sorts scope.now)) }
    {
        match expr {
            SqlExpr::Int(_) => Ok(Verdict::Has(SqlTy::Scalar(ScalarTy::Int64))),
            SqlExpr::Text(_) => Ok(Verdict::Has(SqlTy::Scalar(ScalarTy::Str))),
            SqlExpr::Bool(_) => Ok(Verdict::Has(SqlTy::Scalar(ScalarTy::Bool))),
            SqlExpr::Uuid(_) => Ok(Verdict::Has(SqlTy::Scalar(ScalarTy::Uuid))),
            SqlExpr::Null(ty) => judge::typed(self.alloc, ty),
            SqlExpr::Column(alias, name) => column_type(self.alloc, scope, alias, name),
            SqlExpr::Arg(name, ty) => Ok(judge::arg(ty, name, self.params)),
            SqlExpr::Global(name) => global_type(self.alloc, name, self.catalog.globals.as_slice()),
            SqlExpr::Array(select) => self.array(select.cores.as_slice(), scope),
            SqlExpr::Row(parts) => self.row(parts.as_slice(), scope),
            SqlExpr::Part(row, number) => self.part(row.get(), *number, scope),
            SqlExpr::Case(form) => self.case(form, scope),
            SqlExpr::Cast(operand, ty) => self.cast(operand.get(), ty, scope),
            SqlExpr::Unary(operator, operand) => self.unary(*operator, operand.get(), scope),
            SqlExpr::Binary(form) => self.binary(form, scope),
            SqlExpr::Call(called, operand) => self.call(*called, operand.get(), scope),
        }
    }

    #[cycle(typing)]
    fn array(&self, cores: &[Core], scope: &SortFrames<'_>) -> Result<Verdict, AllocError>
        ensures { IfOk result (λ v. v ≡ types.array_verdict (lists.sorts_of_cores self.now.catalog.now self.now.params.now cores.now (sorts scope.now))) }
    {
        let columns = self.select(cores, scope)?;
        judge::array(self.alloc, columns.as_slice())
    }

    #[cycle(typing)]
    fn row(&self, parts: &[SqlExpr], scope: &SortFrames<'_>) -> Result<Verdict, AllocError>
        ensures { IfOk result (λ v. v ≡ types.row_verdict (lists.verdicts_of self.now.catalog.now self.now.params.now parts.now (sorts scope.now))) }
    {
        let parts = self.verdicts(parts, scope)?;
        Ok(judge::row(parts))
    }

    #[cycle(typing)]
    fn part(
        &self,
        row: &SqlExpr,
        number: i64,
        scope: &SortFrames<'_>,
    ) -> Result<Verdict, AllocError>
        ensures { IfOk result (λ v. v ≡ lists.of_part (types.verdict self.now.catalog.now self.now.params.now row.now (sorts scope.now)) number) }
    {
        let row = self.verdict(row, scope)?;
        judge::part(self.alloc, &row, number)
    }

    #[cycle(typing)]
    fn case(&self, form: &Case, scope: &SortFrames<'_>) -> Result<Verdict, AllocError>
        ensures { IfOk result (λ v. v ≡ lists.of_case (types.verdict self.now.catalog.now self.now.params.now form.now.condition (sorts scope.now)) (types.verdict self.now.catalog.now self.now.params.now form.now.value (sorts scope.now)) (types.verdict self.now.catalog.now self.now.params.now form.now.other (sorts scope.now))) }
    {
        let condition = self.verdict(form.condition.get(), scope)?;
        let value = self.verdict(form.value.get(), scope)?;
        let other = self.verdict(form.other.get(), scope)?;
        Ok(judge::case(&condition, value, &other))
    }

    #[cycle(typing)]
    fn cast(
        &self,
        operand: &SqlExpr,
        to: &SqlTy,
        scope: &SortFrames<'_>,
    ) -> Result<Verdict, AllocError>
        ensures { IfOk result (λ v. v ≡ lists.of_cast (types.verdict self.now.catalog.now self.now.params.now operand.now (sorts scope.now)) to.now) }
    {
        let operand = self.verdict(operand, scope)?;
        Ok(judge::cast(&operand, to))
    }

    #[cycle(typing)]
    fn unary(
        &self,
        operator: UnaryOp,
        operand: &SqlExpr,
        scope: &SortFrames<'_>,
    ) -> Result<Verdict, AllocError>
        ensures { IfOk result (λ v. v ≡ lists.of_unary operator (types.verdict self.now.catalog.now self.now.params.now operand.now (sorts scope.now))) }
    {
        let operand = self.verdict(operand, scope)?;
        Ok(judge::unary(operator, &operand))
    }

    #[cycle(typing)]
    fn binary(&self, form: &Binary, scope: &SortFrames<'_>) -> Result<Verdict, AllocError>
        ensures { IfOk result (λ v. v ≡ lists.of_binary form.now.operator (types.verdict self.now.catalog.now self.now.params.now form.now.left (sorts scope.now)) (types.verdict self.now.catalog.now self.now.params.now form.now.right (sorts scope.now))) }
    {
        let left = self.verdict(form.left.get(), scope)?;
        let right = self.verdict(form.right.get(), scope)?;
        Ok(judge::binary(form.operator, &left, &right))
    }

    #[cycle(typing)]
    fn call(
        &self,
        called: Function,
        operand: &SqlExpr,
        scope: &SortFrames<'_>,
    ) -> Result<Verdict, AllocError>
        ensures { IfOk result (λ v. v ≡ lists.of_call called (types.verdict self.now.catalog.now self.now.params.now operand.now (sorts scope.now))) }
    {
        let operand = self.verdict(operand, scope)?;
        judge::call(self.alloc, called, &operand)
    }

    /// The types of expressions, where each has one.
    #[cycle(typing)]
    #[tactic(auto, using(crate::proofs::Behind::behind_none, crate::proofs::Behind::behind_more, crate::proofs::Behind::behind_all))]
    fn verdicts(
        &self,
        exprs: &[SqlExpr],
        scope: &SortFrames<'_>,
    ) -> Result<Option<List<SqlTy>>, AllocError>
        ensures { IfOk result (λ ts. ts ≡ lists.verdicts_of self.now.catalog.now self.now.params.now exprs.now (sorts scope.now)) }
    {
        let mut all = List::new(self.alloc);
        for expr in exprs {
            let verdict = self.verdict(expr, scope)?;
            match verdict {
                Verdict::Has(ty) => all.push(ty)?,
                Verdict::Fails => return Ok(None),
                Verdict::Unjudged => return Ok(None),
            }
        }
        Ok(Some(all))
    }

    /// The columns of a select, which are those of its first core.
    #[cycle(typing)]
    pub fn select(&self, cores: &[Core], scope: &SortFrames<'_>) -> Result<List<Sort>, AllocError>
        ensures { IfOk result (λ s. s ≡ lists.sorts_of_cores self.now.catalog.now self.now.params.now cores.now (sorts scope.now)) }
    {
        match cores {
            [first, ..] => self.core(first, scope),
            [] => Ok(List::new(self.alloc)),
        }
    }

    #[cycle(typing)]
    #[tactic(auto, using(crate::proofs::TypeForms::sorts_all, crate::proofs::TypeForms::sorts_distinct))]
    pub fn core(&self, core: &Core, scope: &SortFrames<'_>) -> Result<List<Sort>, AllocError>
        ensures { IfOk result (λ s. s ≡ types.core_sorts self.now.catalog.now self.now.params.now core.now (sorts scope.now)) }
    {
        match core {
            Core::All(columns, body) => {
                let known = self.known(body.from.as_slice(), scope)?;
                self.given(columns.as_slice(), known.as_slice(), scope)
            }
            Core::Distinct(columns, body) => {
                let known = self.known(body.from.as_slice(), scope)?;
                self.given(columns.as_slice(), known.as_slice(), scope)
            }
        }
    }

    /// What columns give behind the items of their core.
    #[cycle(typing)]
    #[tactic(auto, using(crate::proofs::ScopeForms::frame_known))]
    fn given(
        &self,
        columns: &[Column],
        known: &[Known],
        scope: &SortFrames<'_>,
    ) -> Result<List<Sort>, AllocError>
        ensures { IfOk result (λ s. s ≡ lists.sorts_of_columns self.now.catalog.now self.now.params.now columns.now (with_known known.now (sorts scope.now))) }
    {
        let inside = SortFrames::Items(&*scope, &*known);
        self.columns(columns, &inside)
    }

    #[cycle(typing)]
    fn columns(&self, columns: &[Column], scope: &SortFrames<'_>) -> Result<List<Sort>, AllocError>
        ensures { IfOk result (λ s. s ≡ lists.sorts_of_columns self.now.catalog.now self.now.params.now columns.now (sorts scope.now)) }
    {
        let mut given = List::new(self.alloc);
        for column in columns {
            let sort = self.column(column, scope)?;
            given.push(sort)?;
        }
        Ok(given)
    }

    #[cycle(typing)]
    fn column(&self, column: &Column, scope: &SortFrames<'_>) -> Result<Sort, AllocError>
        ensures { IfOk result (λ s. s ≡ lists.column_of self.now.catalog.now self.now.params.now column.now (sorts scope.now)) }
    {
        let verdict = self.verdict(&column.value, scope)?;
        named(self.alloc, &column.name, verdict)
    }

    /// What items give, each seen by those behind it.
    #[cycle(typing)]
    #[tactic(auto, using(crate::proofs::ScopeForms::known_push))]
    fn known(&self, items: &[FromItem], scope: &SortFrames<'_>) -> Result<List<Known>, AllocError>
        ensures { IfOk result (λ k. with_known k (sorts scope.now) ≡ lists.within_items self.now.catalog.now self.now.params.now items.now (sorts scope.now)) }
    {
        let mut known = List::new(self.alloc);
        for item in items {
            let entry = self.next(item, known.as_slice(), scope)?;
            known.push(entry)?;
        }
        Ok(known)
    }

    /// What an item gives behind those before it.
    #[cycle(typing)]
    #[tactic(auto, using(crate::proofs::ScopeForms::frame_known))]
    pub fn next(
        &self,
        item: &FromItem,
        before: &[Known],
        scope: &SortFrames<'_>,
    ) -> Result<Known, AllocError>
        ensures { IfOk result (λ k. k ≡ lists.known_of self.now.catalog.now self.now.params.now item.now (with_known before.now (sorts scope.now))) }
    {
        let inside = SortFrames::Items(&*scope, &*before);
        let columns = self.item(item, &inside)?;
        let alias = alias(item).copied(self.alloc)?;
        Ok(Known { alias, columns })
    }

    #[cycle(typing)]
    #[tactic(auto, using(crate::proofs::TypeForms::sorts_table, crate::proofs::TypeForms::sorts_lateral, crate::proofs::TypeForms::sorts_left, crate::proofs::TypeForms::sorts_unnest))]
    fn item(&self, item: &FromItem, scope: &SortFrames<'_>) -> Result<List<Sort>, AllocError>
        ensures { IfOk result (λ s. s ≡ types.item_sorts self.now.catalog.now self.now.params.now item.now (sorts scope.now)) }
    {
        match item {
            FromItem::Table(name, _) => table_sorts(
                self.alloc,
                name,
                self.catalog.tables.as_slice(),
            ),
            FromItem::Lateral(select, _) => self.select(select.cores.as_slice(), scope),
            FromItem::LeftLateral(select, _) => self.select(select.cores.as_slice(), scope),
            FromItem::Unnest(array, _) => self.elements(array, scope),
        }
    }

    #[cycle(typing)]
    fn elements(&self, array: &SqlExpr, scope: &SortFrames<'_>) -> Result<List<Sort>, AllocError>
        ensures { IfOk result (λ s. s ≡ types.element_sort (types.element_in (types.type_in (types.verdict self.now.catalog.now self.now.params.now array.now (sorts scope.now))))) }
    {
        let array = self.verdict(array, scope)?;
        element_sorts(self.alloc, &array)
    }
}
