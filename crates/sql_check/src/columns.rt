//! The columns that a scope gives, with copies of their types.
ghost use Rattle.std.specs.Prelude.{◌≡◌, [], ◌∷◌, IfOk, None, codes};
ghost use Rattle.sql_ast.specs.WellFormed.{columns_under, type_under};
ghost use Rattle.sql_check.specs.SortFrames.{sorts};
ghost use Rattle.sql_check.specs.TypeLists as lists;
ghost use Rattle.sql_check.specs.Types as types;

use crate::judge::typed;
use crate::sort::{Known, Sort, SortFrames};
use crate::verdict::Verdict;
use ev_value::{List, Text};
use sql_ast::{SqlTy, TableShape, Typed};
use std::alloc::{AllocError, Global};

/// The type that is there, or no judgement.
fn of_option(alloc: Global, ty: &Option<SqlTy>) -> Result<Verdict, AllocError>
    ensures { IfOk result (λ v. v ≡ types.known ty.now) }
{
    match ty {
        Some(ty) => typed(alloc, ty),
        None => Ok(Verdict::Unjudged),
    }
}

/// The type of the first column with a name.
fn sort_under(alloc: Global, name: &Text, columns: &[Sort]) -> Result<Verdict, AllocError>
    ensures { IfOk result (λ v. v ≡ types.known (types.sort_under name.now columns.now)) }
{
    for column in columns {
        if column.name.as_str() == name.as_str() {
            return of_option(alloc, &column.ty);
        }
    }
    Ok(Verdict::Unjudged)
}

/// The newest entry under an alias.
fn newest<'a>(alias: &Text, known: &'a [Known]) -> Option<&'a Known>
    ensures { lists.known_now result ≡ lists.newest_known alias.now known.now None }
{
    let mut found = None;
    for entry in known {
        if entry.alias.as_str() == alias.as_str() {
            found = Some(entry);
        }
    }
    found
}

/// The type of a column of the newest entry in scope under an alias.
#[tactic(auto, using(crate::proofs::ScopeForms::sort_top, crate::proofs::ScopeForms::sort_found))]
pub fn column_type(
    alloc: Global,
    scope: &SortFrames<'_>,
    alias: &Text,
    name: &Text,
) -> Result<Verdict, AllocError>
    ensures { IfOk result (λ v. v ≡ types.known (types.column_type alias.now name.now (sorts scope.now))) }
{
    match scope {
        SortFrames::Top => Ok(Verdict::Unjudged),
        SortFrames::Items(outer, known) => match newest(alias, known) {
            Some(entry) => sort_under(alloc, name, entry.columns.as_slice()),
            None => column_type(alloc, outer, alias, name),
        },
    }
}

/// The type of the first global with a name.
pub fn global_type(alloc: Global, name: &Text, globals: &[Typed]) -> Result<Verdict, AllocError>
    ensures { IfOk result (λ v. v ≡ types.known (type_under name.now globals.now)) }
{
    for global in globals {
        if global.name.as_str() == name.as_str() {
            return typed(alloc, &global.ty);
        }
    }
    Ok(Verdict::Unjudged)
}

/// A column of a table, which has a type.
fn sort_of(alloc: Global, column: &Typed) -> Result<Sort, AllocError>
    ensures { IfOk result (λ s. s ≡ lists.sort_of column.now) }
{
    let name = column.name.copied(alloc)?;
    let ty = column.ty.copied(alloc)?;
    Ok(Sort { name, ty: Some(ty) })
}

fn sorts_of(alloc: Global, columns: &[Typed]) -> Result<List<Sort>, AllocError>
    ensures { IfOk result (λ s. s ≡ types.sorts_of columns.now) }
{
    let mut sorts = List::new(alloc);
    for column in columns {
        let sort = sort_of(alloc, column)?;
        sorts.push(sort)?;
    }
    Ok(sorts)
}

/// The columns of the first table with a name; none where there is no such table.
pub fn table_sorts(
    alloc: Global,
    name: &Text,
    tables: &[TableShape],
) -> Result<List<Sort>, AllocError>
    ensures { IfOk result (λ s. s ≡ types.table_sorts (columns_under name.now tables.now)) }
{
    for table in tables {
        if table.name.as_str() == name.as_str() {
            return sorts_of(alloc, table.columns.as_slice());
        }
    }
    Ok(List::new(alloc))
}

/// The type, where there is one.
pub fn type_in(verdict: Verdict) -> Option<SqlTy>
    ensures { result ≡ types.type_in verdict }
{
    match verdict {
        Verdict::Has(ty) => Some(ty),
        Verdict::Fails => None,
        Verdict::Unjudged => None,
    }
}

/// A column with a name and what is said of its expression.
pub fn named(alloc: Global, name: &Text, verdict: Verdict) -> Result<Sort, AllocError>
    ensures { IfOk result (λ s. s ≡ lists.named name.now (types.type_in verdict)) }
{
    let name = name.copied(alloc)?;
    Ok(Sort {
        name,
        ty: type_in(verdict),
    })
}

/// The type of the elements, where there is one and it is an array.
#[tactic(auto, using(crate::proofs::TyForms::element_scalar, crate::proofs::TyForms::element_row, crate::proofs::TyForms::element_array))]
fn element_in(alloc: Global, verdict: &Verdict) -> Result<Option<SqlTy>, AllocError>
    ensures { IfOk result (λ t. t ≡ types.element_in (types.type_in verdict.now)) }
{
    match verdict {
        Verdict::Has(ty) => element_of(alloc, ty),
        Verdict::Fails => Ok(None),
        Verdict::Unjudged => Ok(None),
    }
}

/// The type of the elements, where the type is an array.
#[tactic(auto, using(crate::proofs::TyForms::element_scalar, crate::proofs::TyForms::element_row, crate::proofs::TyForms::element_array))]
fn element_of(alloc: Global, ty: &SqlTy) -> Result<Option<SqlTy>, AllocError>
    ensures { IfOk result (λ t. t ≡ types.element_of ty.now) }
{
    match ty {
        SqlTy::Scalar(_) => Ok(None),
        SqlTy::Row(_) => Ok(None),
        SqlTy::Array(element) => {
            let element = element.get().copied(alloc)?;
            Ok(Some(element))
        }
    }
}

/// The one column of what UNNEST gives.
pub fn element_sorts(alloc: Global, array: &Verdict) -> Result<List<Sort>, AllocError>
    ensures { IfOk result (λ s. s ≡ types.element_sort (types.element_in (types.type_in array.now))) }
{
    let ty = element_in(alloc, array)?;
    let name = Text::from_str(alloc, "c1")?;
    let mut sorts = List::new(alloc);
    sorts.push(Sort { name, ty })?;
    Ok(sorts)
}
