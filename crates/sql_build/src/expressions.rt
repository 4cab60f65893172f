//! Expressions that hold no operator.
ghost use Rattle.std.specs.Prelude.{◌≡◌, [], IfOk};
ghost use Rattle.sql_grammar.specs.Trees as t;

use crate::held::{below, boxed_beside, placed, pushed_beside, round_beside};
use crate::types::above;
use ev_value::{Boxed, List, Text};
use sql_ast::{Case, SqlExpr};
use sql_grammar::{Bunch, Called, Grown, GrownSelect, GrownTy, Name, Places};
use std::alloc::{AllocError, Global};

fn bare(alloc: Global, start: u32, expr: SqlExpr, height: usize) -> Result<Boxed<Grown>, AllocError>
    ensures { IfOk result (λ made. made ≡ t.node start expr [] height) }
{
    placed(
        alloc,
        start,
        expr,
        Places::At(start, List::new(alloc)),
        height,
    )
}

/// An expression in parentheses, which are no node.
#[inline(never)]
pub fn grouped(alloc: Global, start: u32, x: Boxed<Grown>) -> Result<Boxed<Grown>, AllocError>
    ensures { IfOk result (λ made. made ≡ t.grouped start x) }
{
    let x = x.into_inner();
    placed(alloc, start, x.expr, x.place, x.height)
}

/// `UUID 'id'`
#[inline(never)]
pub fn uuid(alloc: Global, start: u32, id: u128) -> Result<Boxed<Grown>, AllocError>
    ensures { IfOk result (λ made. made ≡ t.uuid start id) }
{
    bare(alloc, start, SqlExpr::Uuid(id), 1)
}

/// `NULL::ty`
#[inline(never)]
pub fn null_of(alloc: Global, start: u32, ty: Boxed<GrownTy>) -> Result<Boxed<Grown>, AllocError>
    ensures { IfOk result (λ made. made ≡ t.null_of start ty) }
{
    let ty = ty.into_inner();
    let height = above(ty.height);
    bare(alloc, start, SqlExpr::Null(ty.ty), height)
}

/// `"alias"."name"`
#[inline(never)]
pub fn column(alloc: Global, alias: Name, name: Name) -> Result<Boxed<Grown>, AllocError>
    ensures { IfOk result (λ made. made ≡ t.column alias name) }
{
    let start = alias.start;
    bare(alloc, start, SqlExpr::Column(alias.text, name.text), 1)
}

/// `ARG('name', ty)`
#[inline(never)]
pub fn argument(
    alloc: Global,
    start: u32,
    name: Text,
    ty: Boxed<GrownTy>,
) -> Result<Boxed<Grown>, AllocError>
    ensures { IfOk result (λ made. made ≡ t.argument start name ty) }
{
    let ty = ty.into_inner();
    let height = above(ty.height);
    bare(alloc, start, SqlExpr::Arg(name, ty.ty), height)
}

/// `GLOBAL('name')`
#[inline(never)]
pub fn global(alloc: Global, start: u32, name: Text) -> Result<Boxed<Grown>, AllocError>
    ensures { IfOk result (λ made. made ≡ t.global start name) }
{
    bare(alloc, start, SqlExpr::Global(name), 1)
}

/// `ARRAY(select)`
#[inline(never)]
pub fn array(alloc: Global, start: u32, s: Boxed<GrownSelect>) -> Result<Boxed<Grown>, AllocError>
    ensures { IfOk result (λ made. made ≡ t.array start s) }
{
    let s = s.into_inner();
    let height = above(s.height);
    let (place, select) = round_beside(alloc, start, s.place, s.select)?;
    placed(alloc, start, SqlExpr::Array(select), place, height)
}

/// No expressions.
pub fn nothing_yet(alloc: Global) -> Result<Boxed<Bunch>, AllocError>
    ensures { IfOk result (λ made. made ≡ t.nothing_yet) }
{
    let made = Bunch {
        items: List::new(alloc),
        places: List::new(alloc),
        height: 0,
    };
    Boxed::new(alloc, made)
}

/// One expression.
#[inline(never)]
pub fn alone(alloc: Global, x: Boxed<Grown>) -> Result<Boxed<Bunch>, AllocError>
    ensures { IfOk result (λ made. made ≡ t.alone x) }
{
    let x = x.into_inner();
    let height = x.height;
    let (items, place) = pushed_beside(List::new(alloc), x.expr, x.place)?;
    let (places, items) = pushed_beside(List::new(alloc), place, items)?;
    let made = Bunch {
        items,
        places,
        height,
    };
    Boxed::new(alloc, made)
}

/// The expressions with one more behind them.
#[inline(never)]
pub fn added(alloc: Global, all: Boxed<Bunch>, x: Boxed<Grown>) -> Result<Boxed<Bunch>, AllocError>
    ensures { IfOk result (λ made. made ≡ t.added all x) }
{
    let (all, x) = (all.into_inner(), x.into_inner());
    let height = all.height.max(x.height);
    let (items, (places, place)) = pushed_beside(all.items, x.expr, (all.places, x.place))?;
    let (places, items) = pushed_beside(places, place, items)?;
    let made = Bunch {
        items,
        places,
        height,
    };
    Boxed::new(alloc, made)
}

/// `ROW(first, ..)`
#[inline(never)]
pub fn row(alloc: Global, start: u32, all: Boxed<Bunch>) -> Result<Boxed<Grown>, AllocError>
    ensures { IfOk result (λ made. made ≡ t.row start all) }
{
    let all = all.into_inner();
    let height = above(all.height);
    let place = Places::At(start, all.places);
    placed(alloc, start, SqlExpr::Row(all.items), place, height)
}

/// `PART(row, number)`
#[inline(never)]
pub fn part(
    alloc: Global,
    start: u32,
    x: Boxed<Grown>,
    number: i64,
) -> Result<Boxed<Grown>, AllocError>
    ensures { IfOk result (λ made. made ≡ t.part start x number) }
{
    let x = x.into_inner();
    let height = above(x.height);
    let (expr, place) = below(alloc, start, x)?;
    placed(alloc, start, SqlExpr::Part(expr, number), place, height)
}

/// `CASE WHEN condition THEN value ELSE other END`
#[inline(never)]
pub fn case_of(
    alloc: Global,
    start: u32,
    condition: Boxed<Grown>,
    value: Boxed<Grown>,
    other: Boxed<Grown>,
) -> Result<Boxed<Grown>, AllocError>
    ensures { IfOk result (λ made. made ≡ t.case_of start condition value other) }
{
    let condition = condition.into_inner();
    let value = value.into_inner();
    let other = other.into_inner();
    let height = above(condition.height.max(value.height.max(other.height)));
    let (first, (second, third, a, b, c)) = boxed_beside(
        alloc,
        condition.expr,
        (
            value.expr,
            other.expr,
            condition.place,
            value.place,
            other.place,
        ),
    )?;
    let (second, (first, third, a, b, c)) = boxed_beside(alloc, second, (first, third, a, b, c))?;
    let (third, (first, second, a, b, c)) = boxed_beside(alloc, third, (first, second, a, b, c))?;
    let (inner, (first, second, third, b, c)) = pushed_beside(
        List::new(alloc),
        a,
        (first, second, third, b, c),
    )?;
    let (inner, (first, second, third, c)) = pushed_beside(inner, b, (first, second, third, c))?;
    let (inner, (first, second, third)) = pushed_beside(inner, c, (first, second, third))?;
    let form = SqlExpr::Case(Case {
        condition: first,
        value: second,
        other: third,
    });
    placed(alloc, start, form, Places::At(start, inner), height)
}

/// `CAST(x AS ty)`
#[inline(never)]
pub fn cast(
    alloc: Global,
    start: u32,
    x: Boxed<Grown>,
    ty: Boxed<GrownTy>,
) -> Result<Boxed<Grown>, AllocError>
    ensures { IfOk result (λ made. made ≡ t.cast start x ty) }
{
    let (x, ty) = (x.into_inner(), ty.into_inner());
    let height = above(x.height.max(ty.height));
    let (expr, (place, ty)) = boxed_beside(alloc, x.expr, (x.place, ty.ty))?;
    let (place, (expr, ty)) = round_beside(alloc, start, place, (expr, ty))?;
    placed(alloc, start, SqlExpr::Cast(expr, ty), place, height)
}

/// A function of an expression.
#[inline(never)]
pub fn call(alloc: Global, found: Called, x: Boxed<Grown>) -> Result<Boxed<Grown>, AllocError>
    ensures { IfOk result (λ made. made ≡ t.call found x) }
{
    let x = x.into_inner();
    let height = above(x.height);
    let (expr, place) = below(alloc, found.start, x)?;
    placed(
        alloc,
        found.start,
        SqlExpr::Call(found.function, expr),
        place,
        height,
    )
}
