//! The rows of a select: with their keys, in order, and cut.
ghost use Rattle.std.specs.Prelude.{◌≡◌, ◌++◌, IfOk, OnOk, map};
ghost use Rattle.ev_value.specs.Item.{bind};
ghost use Rattle.eql_sem.specs.Meaning.{order_of as order_by};
ghost use Rattle.eql_sem.specs.Parts.{is_cut_select};
ghost use Rattle.eql_sem.specs.Selects.{first_of as first_in, keyed_rows as keyed, plain_rows as rows_alone, cut_rows as rows_cut, counted as counted_in, range_of, ranges as ranges_of};

use crate::binding::{Bound, copied_bounds};
use crate::copies::Copies;
use crate::form::Formed;
use crate::item::{Settled, all_values, fault_items, one, settle};
use crate::operation::add_later_faults;
use core_ir::{Key, Select};
use ev_list::{Direction, KeyOrder, Keyed, in_order, keyless, limit_of, section};
use ev_value::{Item, List, Val};
use std::alloc::{AllocError, Global};

/// A row: what the names in scope stand for, and an item of the subject.
#[derive(Drop)]
pub struct Row {
    pub now: List<Bound>,
    pub item: Formed,
}

/// What an offset and a limit ask for.
#[derive(Clone, Copy)]
pub struct Range {
    /// How many rows are left out at the front.
    pub offset: Option<u64>,
    /// How many rows stay behind those.
    pub limit: Option<u64>,
}

// The same keys, in memory of their own.
fn copied_keys(alloc: Global, keys: &[Option<Val>]) -> Result<List<Option<Val>>, AllocError>
    ensures { IfOk result (λ ks. ks ≡ keys.now) }
{
    let mut all = List::new(alloc);
    for key in keys {
        let copy = match key {
            Some(value) => Some(value.copied(alloc)?),
            None => None,
        };
        all.push(copy)?;
    }
    Ok(all)
}

impl Copies for Row {
    fn copied_in(&self, alloc: Global) -> Result<Row, AllocError> {
        let now = copied_bounds(alloc, self.now.as_slice())?;
        let item = self.item.copied_in(alloc)?;
        Ok(Row { now, item })
    }
}

impl Copies for Keyed<Row> {
    fn copied_in(&self, alloc: Global) -> Result<Keyed<Row>, AllocError> {
        let keys = copied_keys(alloc, self.keys.as_slice())?;
        let value = self.value.copied_in(alloc)?;
        Ok(Keyed { keys, value })
    }
}

impl Copies for Option<Val> {
    fn copied_in(&self, alloc: Global) -> Result<Option<Val>, AllocError> {
        match self {
            Some(value) => Ok(Some(value.copied(alloc)?)),
            None => Ok(None),
        }
    }
}

impl Copies for Range {
    fn copied_in(&self, alloc: Global) -> Result<Range, AllocError> {
        Ok(*self)
    }
}

// The order that a key asks for.
#[tactic(auto, using(crate::proofs::Equations::key_forms))]
fn order_of(key: &Key) -> KeyOrder
    ensures { result ≡ order_by key.now }
{
    match key {
        Key::Ascending(absent, _) => KeyOrder {
            direction: Direction::Ascending,
            absent: *absent,
        },
        Key::Descending(absent, _) => KeyOrder {
            direction: Direction::Descending,
            absent: *absent,
        },
    }
}

/// The orders that keys ask for.
pub fn orders_of(alloc: Global, keys: &[Key]) -> Result<List<KeyOrder>, AllocError>
    ensures { IfOk result (λ ks. ks ≡ map order_by keys.now) }
{
    let mut all = List::new(alloc);
    for key in keys {
        all.push(order_of(key))?;
    }
    Ok(all)
}

/// The first value, if there is one, or the faults alone.
pub fn first_of(alloc: Global, items: &[Item]) -> Result<List<Item<Option<Val>>>, AllocError>
    ensures { IfOk result (λ xs. xs ≡ first_in items.now) }
{
    match settle(alloc, items)? {
        Settled::Values(values) => {
            let first = match values.as_slice().first() {
                Some(value) => Some(value.copied(alloc)?),
                None => None,
            };
            one(alloc, Item::Value(first))
        }
        Settled::Faults(faults) => fault_items(alloc, faults.as_slice()),
    }
}

/// A row with each list of keys.
pub fn keyed_rows(
    alloc: Global,
    bounds: &[Bound],
    item: &Formed,
    keys: &[Item<List<Option<Val>>>],
) -> Result<List<Item<Keyed<Row>>>, AllocError>
    ensures { IfOk result (λ xs. xs ≡ keyed bounds.now item.now keys.now) }
{
    let mut all = List::new(alloc);
    for list in keys {
        let row = match list {
            Item::Value(keys) => {
                let keys = keys.copied_in(alloc)?;
                let now = copied_bounds(alloc, bounds)?;
                let item = item.copied_in(alloc)?;
                Item::Value(Keyed {
                    keys,
                    value: Row { now, item },
                })
            }
            Item::Fault(fault) => Item::Fault(*fault),
        };
        all.push(row)?;
    }
    Ok(all)
}

/// The rows without their keys.
pub fn plain_rows(alloc: Global, rows: &[Item<Keyed<Row>>]) -> Result<List<Item<Row>>, AllocError>
    ensures { IfOk result (λ xs. xs ≡ rows_alone rows.now) }
{
    let mut all = List::new(alloc);
    for item in rows {
        let row = match item {
            Item::Value(keyed) => Item::Value(keyed.value.copied_in(alloc)?),
            Item::Fault(fault) => Item::Fault(*fault),
        };
        all.push(row)?;
    }
    Ok(all)
}

/// What is cut out of the rows in order, or the faults alone.
pub fn cut_rows(
    alloc: Global,
    orders: &[KeyOrder],
    range: Range,
    rows: &[Item<Keyed<Row>>],
) -> Result<List<Item<Row>>, AllocError>
    ensures { IfOk result (λ xs. xs ≡ rows_cut orders.now range.offset range.limit rows.now) }
{
    match settle(alloc, rows)? {
        Settled::Values(rows) => {
            let sorted = in_order(alloc, orders, rows)?;
            let rows = section(alloc, range.offset, range.limit, keyless(alloc, sorted)?)?;
            all_values(alloc, rows.as_slice())
        }
        Settled::Faults(faults) => fault_items(alloc, faults.as_slice()),
    }
}

/// Whether a select has an order, an offset or a limit.
pub fn is_cut(select: &Select) -> bool
    ensures { result ≡ is_cut_select select.now }
{
    !(select.keys.is_empty() && select.offset.is_none() && select.limit.is_none())
}

// How many rows an offset or a limit asks for, or the faults that it tells.
fn counted(alloc: Global, items: &[Item]) -> Result<List<Item<Option<u64>>>, AllocError>
    ensures { IfOk result (λ xs. xs ≡ counted_in items.now) }
{
    let firsts = first_of(alloc, items)?;
    let mut all = List::new(alloc);
    for item in firsts.as_slice() {
        let count = match item {
            Item::Value(value) => limit_of(value.copied_in(alloc)?),
            Item::Fault(fault) => Item::Fault(*fault),
        };
        all.push(count)?;
    }
    Ok(all)
}

// Appends the range of an offset with each limit.
fn add_ranges(
    offset: Option<u64>,
    limits: &[Item<Option<u64>>],
    all: &mut List<Item<Range>>,
) -> Result<(), AllocError>
    ensures { OnOk result (all.new ≡ all.old ++ bind limits.now (range_of offset)) }
{
    for item in limits {
        let range = match item {
            Item::Value(limit) => Item::Value(Range {
                offset,
                limit: *limit,
            }),
            Item::Fault(fault) => Item::Fault(*fault),
        };
        all.push(range)?;
    }
    Ok(())
}

/// What the lists of an offset and of a limit ask for: one range, or the faults of both.
pub fn ranges(
    alloc: Global,
    offset: &[Item],
    limit: &[Item],
) -> Result<List<Item<Range>>, AllocError>
    ensures { IfOk result (λ xs. xs ≡ ranges_of offset.now limit.now) }
{
    let offsets = counted(alloc, offset)?;
    let offsets = offsets.as_slice();
    let limits = counted(alloc, limit)?;
    let limits = limits.as_slice();
    let mut all = List::new(alloc);
    for item in offsets {
        match item {
            Item::Value(offset) => add_ranges(*offset, limits, &mut all)?,
            Item::Fault(fault) => all.push(Item::Fault(*fault))?,
        }
    }
    add_later_faults(alloc, offsets, limits, &mut all)?;
    Ok(all)
}
