//! Cores with their clauses, and selects.
ghost use Rattle.std.specs.Prelude.{◌≡◌, IfOk, OnOk};
ghost use Rattle.sql_grammar.specs.Trees as t;

use crate::held::pushed_beside;
use crate::types::above;
use ev_value::{Boxed, List};
use sql_ast::{Body, Core, Select};
use sql_grammar::{Cores, Grown, GrownColumn, GrownCore, GrownItem, GrownKey, GrownSelect, Places};
use std::alloc::{AllocError, Global};

fn no_body(alloc: Global) -> Body
    ensures { result ≡ t.no_body }
{
    Body {
        from: List::new(alloc),
        condition: None,
        keys: List::new(alloc),
        offset: None,
        limit: None,
    }
}

/// A core of one column.
#[inline(never)]
pub fn first_column(
    alloc: Global,
    start: u32,
    distinct: bool,
    x: Boxed<GrownColumn>,
) -> Result<Boxed<GrownCore>, AllocError>
    ensures { IfOk result (λ made. made ≡ t.first_column start distinct x) }
{
    let x = x.into_inner();
    let height = x.height;
    let (columns, at) = pushed_beside(List::new(alloc), x.column, x.place)?;
    let (places, columns) = pushed_beside(List::new(alloc), at, columns)?;
    let made = GrownCore {
        start,
        distinct,
        columns,
        body: no_body(alloc),
        places,
        height,
    };
    Boxed::new(alloc, made)
}

/// Adds a column to a core, with its place and its height.
fn add_column(g: &mut GrownCore, x: GrownColumn) -> Result<(), AllocError>
    ensures { OnOk result (g.new ≡ t.added_column g.old x) }
{
    g.height = g.height.max(x.height);
    g.columns.push(x.column)?;
    g.places.push(x.place)
}

/// The core with a further column.
#[inline(never)]
pub fn added_column(
    alloc: Global,
    g: Boxed<GrownCore>,
    x: Boxed<GrownColumn>,
) -> Result<Boxed<GrownCore>, AllocError>
    ensures { IfOk result (λ made. made ≡ t.added_column g x) }
{
    let mut made = g.into_inner();
    add_column(&mut made, x.into_inner())?;
    Boxed::new(alloc, made)
}

/// Adds an item to a core, with its place and its height.
fn add_item(g: &mut GrownCore, x: GrownItem) -> Result<(), AllocError>
    ensures { OnOk result (g.new ≡ t.with_item g.old x) }
{
    g.height = g.height.max(x.height);
    g.body.from.push(x.item)?;
    g.places.push(x.place)
}

/// The core with a further item.
#[inline(never)]
pub fn with_item(
    alloc: Global,
    g: Boxed<GrownCore>,
    x: Boxed<GrownItem>,
) -> Result<Boxed<GrownCore>, AllocError>
    ensures { IfOk result (λ made. made ≡ t.with_item g x) }
{
    let mut made = g.into_inner();
    add_item(&mut made, x.into_inner())?;
    Boxed::new(alloc, made)
}

/// Puts a condition into a core, with its place and its height.
fn put_condition(alloc: Global, g: &mut GrownCore, x: Grown) -> Result<(), AllocError>
    ensures { OnOk result (g.new ≡ t.with_condition g.old x) }
{
    g.height = g.height.max(x.height);
    g.body.condition = Some(Boxed::new(alloc, x.expr)?);
    g.places.push(x.place)
}

/// The core with a condition.
#[inline(never)]
pub fn with_condition(
    alloc: Global,
    g: Boxed<GrownCore>,
    x: Boxed<Grown>,
) -> Result<Boxed<GrownCore>, AllocError>
    ensures { IfOk result (λ made. made ≡ t.with_condition g x) }
{
    let mut made = g.into_inner();
    put_condition(alloc, &mut made, x.into_inner())?;
    Boxed::new(alloc, made)
}

/// Adds a key to a core, with its place and its height.
fn add_key(g: &mut GrownCore, x: GrownKey) -> Result<(), AllocError>
    ensures { OnOk result (g.new ≡ t.with_key g.old x) }
{
    g.height = g.height.max(x.height);
    g.body.keys.push(x.key)?;
    g.places.push(x.place)
}

/// The core with a further key.
#[inline(never)]
pub fn with_key(
    alloc: Global,
    g: Boxed<GrownCore>,
    x: Boxed<GrownKey>,
) -> Result<Boxed<GrownCore>, AllocError>
    ensures { IfOk result (λ made. made ≡ t.with_key g x) }
{
    let mut made = g.into_inner();
    add_key(&mut made, x.into_inner())?;
    Boxed::new(alloc, made)
}

/// Puts an offset into a core, with its place and its height.
fn put_offset(alloc: Global, g: &mut GrownCore, x: Grown) -> Result<(), AllocError>
    ensures { OnOk result (g.new ≡ t.with_offset g.old x) }
{
    g.height = g.height.max(x.height);
    g.body.offset = Some(Boxed::new(alloc, x.expr)?);
    g.places.push(x.place)
}

/// The core with an offset.
#[inline(never)]
pub fn with_offset(
    alloc: Global,
    g: Boxed<GrownCore>,
    x: Boxed<Grown>,
) -> Result<Boxed<GrownCore>, AllocError>
    ensures { IfOk result (λ made. made ≡ t.with_offset g x) }
{
    let mut made = g.into_inner();
    put_offset(alloc, &mut made, x.into_inner())?;
    Boxed::new(alloc, made)
}

/// Puts a limit into a core, with its place and its height.
fn put_limit(alloc: Global, g: &mut GrownCore, x: Grown) -> Result<(), AllocError>
    ensures { OnOk result (g.new ≡ t.with_limit g.old x) }
{
    g.height = g.height.max(x.height);
    g.body.limit = Some(Boxed::new(alloc, x.expr)?);
    g.places.push(x.place)
}

/// The core with a limit.
#[inline(never)]
pub fn with_limit(
    alloc: Global,
    g: Boxed<GrownCore>,
    x: Boxed<Grown>,
) -> Result<Boxed<GrownCore>, AllocError>
    ensures { IfOk result (λ made. made ≡ t.with_limit g x) }
{
    let mut made = g.into_inner();
    put_limit(alloc, &mut made, x.into_inner())?;
    Boxed::new(alloc, made)
}

/// The core as it was read, and its place.
fn core_of(g: GrownCore) -> (Core, Places)
    ensures core { result.0 ≡ t.core_of g }
    ensures place { result.1 ≡ Places.At g.start g.places }
{
    let place = Places::At(g.start, g.places);
    if g.distinct {
        (Core::Distinct(g.columns, g.body), place)
    } else {
        (Core::All(g.columns, g.body), place)
    }
}

/// One core.
#[inline(never)]
pub fn first_core(alloc: Global, g: Boxed<GrownCore>) -> Result<Boxed<Cores>, AllocError>
    ensures { IfOk result (λ made. made ≡ t.first_core g) }
{
    let g = g.into_inner();
    let (start, height) = (g.start, g.height);
    let (core, at) = core_of(g);
    let (cores, at) = pushed_beside(List::new(alloc), core, at)?;
    let (places, cores) = pushed_beside(List::new(alloc), at, cores)?;
    let made = Cores {
        start,
        cores,
        places,
        height,
    };
    Boxed::new(alloc, made)
}

/// The cores with one more behind them.
#[inline(never)]
pub fn added_core(
    alloc: Global,
    all: Boxed<Cores>,
    g: Boxed<GrownCore>,
) -> Result<Boxed<Cores>, AllocError>
    ensures { IfOk result (λ made. made ≡ t.added_core all g) }
{
    let (all, g) = (all.into_inner(), g.into_inner());
    let start = all.start;
    let height = all.height.max(g.height);
    let (core, at) = core_of(g);
    let (cores, (places, at)) = pushed_beside(all.cores, core, (all.places, at))?;
    let (places, cores) = pushed_beside(places, at, cores)?;
    let made = Cores {
        start,
        cores,
        places,
        height,
    };
    Boxed::new(alloc, made)
}

/// The select of all of its cores.
#[inline(never)]
pub fn select_of(alloc: Global, all: Boxed<Cores>) -> Result<Boxed<GrownSelect>, AllocError>
    ensures { IfOk result (λ made. made ≡ t.select_of all) }
{
    let all = all.into_inner();
    let height = above(all.height);
    let found = GrownSelect {
        select: Select { cores: all.cores },
        place: Places::At(all.start, all.places),
        height,
    };
    Boxed::new(alloc, found)
}
