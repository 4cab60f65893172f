//! What DISTINCT, ORDER BY, OFFSET and LIMIT make of rows.
ghost use Rattle.std.specs.Prelude.{◌≡◌, IfOk, map};
ghost use Rattle.sql_table.specs.Meaning.{has_clause as has_clause_of, once as once_of, arranged as arranged_of};
ghost use Rattle.sql_exec.specs.Engine.{clauses_in, keyless_item, put_in_order as put_in_order_of, limited as limited_of};

use ev_list::{
    KeyOrder, Keyed, all_values, distinct, faults_alone, has_fault, in_order, keyless, one_item,
    section, values,
};
use ev_value::{Item, List};
use sql_table::Row;
use std::alloc::{AllocError, Global};

/// Which clauses a core has.
#[derive(Drop)]
pub(crate) struct Clauses {
    pub is_distinct: bool,
    pub orders: List<KeyOrder>,
    pub has_offset: bool,
    pub has_limit: bool,
}

fn has_clause(clauses: &Clauses) -> bool
    ensures { result ≡ has_clause_of (clauses_in clauses.now) }
{
    clauses.is_distinct || !clauses.orders.is_empty() || clauses.has_offset || clauses.has_limit
}

/// Each row once, where only distinct ones are wanted.
fn once(alloc: Global, is_distinct: bool, rows: List<Row>) -> Result<List<Row>, AllocError>
    ensures { IfOk result (λ l. l ≡ once_of is_distinct rows) }
{
    if is_distinct {
        distinct(alloc, rows)
    } else {
        Ok(rows)
    }
}

fn without_keys(item: Item<Keyed<Row>>) -> Item<Row>
    ensures { result ≡ keyless_item item }
{
    match item {
        Item::Value(keyed) => {
            let Keyed { keys, value } = keyed;
            drop(keys);
            Item::Value(value)
        }
        Item::Fault(fault) => Item::Fault(fault),
    }
}

/// The rows without keys, with the faults in their places.
fn plain(alloc: Global, rows: List<Item<Keyed<Row>>>) -> Result<List<Item<Row>>, AllocError>
    ensures { IfOk result (λ l. l ≡ map keyless_item rows) }
{
    let mut left = rows;
    let mut taken = Vec::new(alloc);
    while let Some(item) = left.pop() {
        taken.push(without_keys(item))?;
    }
    taken.reverse();
    Ok(List::from_vec(taken))
}

/// The rows in order, each once where that is wanted, and cut.
fn put_in_order(
    alloc: Global,
    clauses: &Clauses,
    offset: Option<u64>,
    limit: Option<u64>,
    rows: List<Keyed<Row>>,
) -> Result<List<Item<Row>>, AllocError>
    ensures { IfOk result (λ l. l ≡ put_in_order_of (clauses_in clauses.now) offset limit rows) }
{
    let sorted = in_order(alloc, clauses.orders.as_slice(), rows)?;
    let rows = keyless(alloc, sorted)?;
    let rows = once(alloc, clauses.is_distinct, rows)?;
    let rows = section(alloc, offset, limit, rows)?;
    all_values(alloc, rows)
}

/// What the clauses make of rows. With a clause the faults stand alone where there are any.
#[tactic(auto, using(crate::proofs::Lists::plain_is))]
fn arranged(
    alloc: Global,
    clauses: &Clauses,
    offset: Option<u64>,
    limit: Option<u64>,
    rows: List<Item<Keyed<Row>>>,
) -> Result<List<Item<Row>>, AllocError>
    ensures { IfOk result (λ l. l ≡ arranged_of (clauses_in clauses.now) offset limit rows) }
{
    if !has_clause(clauses) {
        return plain(alloc, rows);
    }
    if has_fault(rows.as_slice()) {
        return faults_alone(alloc, rows.as_slice());
    }
    let found = values(alloc, rows)?;
    put_in_order(alloc, clauses, offset, limit, found)
}

/// What the clauses make of rows. The first fault of OFFSET and LIMIT is the whole list.
pub(crate) fn limited(
    alloc: Global,
    clauses: &Clauses,
    offset: Item<Option<u64>>,
    limit: Item<Option<u64>>,
    rows: List<Item<Keyed<Row>>>,
) -> Result<List<Item<Row>>, AllocError>
    ensures { IfOk result (λ l. l ≡ limited_of (clauses_in clauses.now) offset limit rows) }
{
    match (offset, limit) {
        (Item::Fault(fault), _) => one_item(alloc, Item::Fault(fault)),
        (Item::Value(_), Item::Fault(fault)) => one_item(alloc, Item::Fault(fault)),
        (Item::Value(offset), Item::Value(limit)) => arranged(alloc, clauses, offset, limit, rows),
    }
}
