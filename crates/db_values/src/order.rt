//! Things in ascending order of a key.
ghost use Rattle.std.specs.Prelude.{◌≡◌, ◌∷◌, [], Some, IfOk};

use ev_list::{Absent, Direction, KeyOrder, Keyed};
use ev_value::{List, Val};
use std::alloc::{AllocError, Global};

/// By the first key, in ascending order.
pub const BY_KEY: KeyOrder = KeyOrder {
    direction: Direction::Ascending,
    absent: Absent::First,
};

/// Something with a key.
pub fn keyed<T: Drop>(alloc: Global, key: Val, value: T) -> Result<Keyed<T>, AllocError>
    ensures { IfOk result (λ k. k ≡ record { keys = Some key ∷ []; value = value }) }
{
    let mut keys = List::new(alloc);
    keys.push(Some(key))?;
    Ok(Keyed { keys, value })
}
