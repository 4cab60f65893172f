//! Trees that are held while something else may fail. A tree is let go in a function of any type, where the check need not
//! look into it.
ghost use Rattle.std.specs.Prelude.{◌≡◌, [], ◌∷◌, ◌++◌, IfOk};
ghost use Rattle.sql_grammar.specs.declared.grown.Places as places;

use ev_value::{Boxed, List};
use sql_ast::SqlExpr;
use sql_grammar::{Grown, Places};
use std::alloc::{AllocError, Global};

/// Lets the value go.
pub fn discard<T: Drop>(_value: T) {}

/// What was read, or the error, for which the held value is let go.
#[macro_export]
macro_rules! holding {
    ($held:expr, $read:expr) => {
        match $read {
            Ok(found) => found,
            Err(error) => {
                $crate::discard($held);
                return Err(From::from(error));
            }
        }
    };
}

/// A list of one item.
pub fn list_of<T: Drop>(alloc: Global, item: T) -> Result<List<T>, AllocError>
    ensures { IfOk result (λ made. made ≡ item ∷ []) }
{
    let mut list = List::new(alloc);
    list.push(item)?;
    Ok(list)
}

/// The list with the item behind it.
pub fn pushed<T: Drop>(list: List<T>, item: T) -> Result<List<T>, AllocError>
    ensures { IfOk result (λ made. made ≡ list ++ item ∷ []) }
{
    let mut list = list;
    list.push(item)?;
    Ok(list)
}

/// The list with the item behind it, and what is held beside it.
pub fn pushed_beside<T: Drop, K: Drop>(
    list: List<T>,
    item: T,
    held: K,
) -> Result<(List<T>, K), AllocError>
    ensures { IfOk result (λ made. (made.0 ≡ list ++ item ∷ []) × (made.1 ≡ held)) }
{
    let list = pushed(list, item)?;
    Ok((list, held))
}

/// The value in memory of its own, and what is held beside it.
pub fn boxed_beside<T: Drop, K: Drop>(
    alloc: Global,
    value: T,
    held: K,
) -> Result<(Boxed<T>, K), AllocError>
    ensures { IfOk result (λ made. (made.0 ≡ value) × (made.1 ≡ held)) }
{
    let value = Boxed::new(alloc, value)?;
    Ok((value, held))
}

/// An expression in memory of its own, and the place of a node round it.
pub fn below(alloc: Global, start: u32, x: Grown) -> Result<(Boxed<SqlExpr>, Places), AllocError>
    ensures { IfOk result (λ made. (made.0 ≡ x.expr) × (made.1 ≡ places.At start (x.place ∷ []))) }
{
    let (expr, place) = boxed_beside(alloc, x.expr, x.place)?;
    let (inner, expr) = pushed_beside(List::new(alloc), place, expr)?;
    Ok((expr, Places::At(start, inner)))
}

/// The expression with its places and its height, in memory of its own.
pub fn placed(
    alloc: Global,
    start: u32,
    expr: SqlExpr,
    place: Places,
    height: usize,
) -> Result<Boxed<Grown>, AllocError>
    ensures { IfOk result (λ made. made ≡ record { expr = expr; place = place; start = start; height = height }) }
{
    let found = Grown {
        expr,
        place,
        start,
        height,
    };
    Boxed::new(alloc, found)
}

/// The place of a node round one part.
pub fn round(alloc: Global, start: u32, place: Places) -> Result<Places, AllocError>
    ensures { IfOk result (λ made. made ≡ places.At start (place ∷ [])) }
{
    Ok(Places::At(start, list_of(alloc, place)?))
}

/// The place of a node round one part, and what is held beside it.
pub fn round_beside<K: Drop>(
    alloc: Global,
    start: u32,
    place: Places,
    held: K,
) -> Result<(Places, K), AllocError>
    ensures { IfOk result (λ made. (made.0 ≡ places.At start (place ∷ [])) × (made.1 ≡ held)) }
{
    let place = round(alloc, start, place)?;
    Ok((place, held))
}
