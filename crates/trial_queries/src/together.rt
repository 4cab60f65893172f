//! Parts that are made one by one, of which each may fail: so that no part is held where another fails.

use ev_value::{Boxed, List};
use std::alloc::{AllocError, Global};

/// Both, or the first error.
pub fn both<A: Drop, B: Drop>(
    first: Result<A, AllocError>,
    second: Result<B, AllocError>,
) -> Result<(A, B), AllocError> {
    let first = first?;
    let second = second?;
    Ok((first, second))
}

/// The value in a box.
pub fn boxed<T: Drop>(alloc: Global, value: Result<T, AllocError>) -> Result<Boxed<T>, AllocError> {
    Boxed::new(alloc, value?)
}

/// A list of one.
pub fn one<T: Drop>(alloc: Global, value: Result<T, AllocError>) -> Result<List<T>, AllocError> {
    let value = value?;
    let mut all = List::new(alloc);
    all.push(value)?;
    Ok(all)
}

/// The list with one more behind it.
pub fn more<T: Drop>(
    list: Result<List<T>, AllocError>,
    value: Result<T, AllocError>,
) -> Result<List<T>, AllocError> {
    let (mut all, value) = both(list, value)?;
    all.push(value)?;
    Ok(all)
}
