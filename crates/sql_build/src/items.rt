//! Columns, the items of `FROM`, and the keys of an order.
ghost use Rattle.std.specs.Prelude.{◌≡◌, IfOk};
ghost use Rattle.sql_grammar.specs.Trees as t;

use crate::held::round_beside;
use ev_list::{Absent, Direction};
use ev_value::{Boxed, List};
use sql_ast::{Column, FromItem, Key};
use sql_grammar::{Grown, GrownColumn, GrownItem, GrownKey, GrownSelect, Name, Places};
use std::alloc::{AllocError, Global};

/// `x AS name`
#[inline(never)]
pub fn named_column(
    alloc: Global,
    x: Boxed<Grown>,
    name: Name,
) -> Result<Boxed<GrownColumn>, AllocError>
    ensures { IfOk result (λ made. made ≡ t.named_column x name) }
{
    let x = x.into_inner();
    let height = x.height;
    let (place, (value, name)) = round_beside(alloc, name.start, x.place, (x.expr, name.text))?;
    let made = GrownColumn {
        column: Column { value, name },
        place,
        height,
    };
    Boxed::new(alloc, made)
}

/// `table AS alias`
#[inline(never)]
pub fn table_item(alloc: Global, table: Name, alias: Name) -> Result<Boxed<GrownItem>, AllocError>
    ensures { IfOk result (λ made. made ≡ t.table_item table alias) }
{
    let inner = Places::At(table.start, List::new(alloc));
    let (place, (table, alias)) = round_beside(
        alloc,
        alias.start,
        inner,
        (table.text, alias.text),
    )?;
    let made = GrownItem {
        item: FromItem::Table(table, alias),
        place,
        height: 0,
    };
    Boxed::new(alloc, made)
}

/// `LATERAL (select) AS alias`
#[inline(never)]
pub fn lateral_item(
    alloc: Global,
    s: Boxed<GrownSelect>,
    alias: Name,
) -> Result<Boxed<GrownItem>, AllocError>
    ensures { IfOk result (λ made. made ≡ t.lateral_item s alias) }
{
    let s = s.into_inner();
    let height = s.height;
    let (place, (select, alias)) = round_beside(
        alloc,
        alias.start,
        s.place,
        (s.select, alias.text),
    )?;
    let made = GrownItem {
        item: FromItem::Lateral(select, alias),
        place,
        height,
    };
    Boxed::new(alloc, made)
}

/// `LEFT JOIN LATERAL (select) AS alias ON TRUE`
#[inline(never)]
pub fn left_item(
    alloc: Global,
    s: Boxed<GrownSelect>,
    alias: Name,
) -> Result<Boxed<GrownItem>, AllocError>
    ensures { IfOk result (λ made. made ≡ t.left_item s alias) }
{
    let s = s.into_inner();
    let height = s.height;
    let (place, (select, alias)) = round_beside(
        alloc,
        alias.start,
        s.place,
        (s.select, alias.text),
    )?;
    let made = GrownItem {
        item: FromItem::LeftLateral(select, alias),
        place,
        height,
    };
    Boxed::new(alloc, made)
}

/// `UNNEST(x) AS alias`
#[inline(never)]
pub fn unnest_item(
    alloc: Global,
    x: Boxed<Grown>,
    alias: Name,
) -> Result<Boxed<GrownItem>, AllocError>
    ensures { IfOk result (λ made. made ≡ t.unnest_item x alias) }
{
    let x = x.into_inner();
    let height = x.height;
    let (place, (array, alias)) = round_beside(alloc, alias.start, x.place, (x.expr, alias.text))?;
    let made = GrownItem {
        item: FromItem::Unnest(array, alias),
        place,
        height,
    };
    Boxed::new(alloc, made)
}

/// A key of an order.
#[inline(never)]
pub fn key_of(
    alloc: Global,
    x: Boxed<Grown>,
    way: Direction,
    nulls: Absent,
) -> Result<Boxed<GrownKey>, AllocError>
    ensures { IfOk result (λ made. made ≡ t.key_of x way nulls) }
{
    let x = x.into_inner();
    let height = x.height;
    let key = match way {
        Direction::Ascending => Key::Ascending(x.expr, nulls),
        Direction::Descending => Key::Descending(x.expr, nulls),
    };
    let made = GrownKey {
        key,
        place: x.place,
        height,
    };
    Boxed::new(alloc, made)
}
