//! Which object holds a value of an exclusive pointer.
ghost use Rattle.std.specs.Prelude.{◌≡◌, Some, refl, IfOk, OnOk};
ghost use Rattle.std.specs.Cmp.{partial_equiv_from_equiv, partial_order_from_total, eq_by_cmp_equiv};
ghost use Rattle.std.specs.Ordering.{is_eq};
ghost use Rattle.db_check.specs.Exclusive.{nobody, held_too};
ghost use Rattle.db_check.specs.Holders.{held_by, key_cmp};
ghost use Rattle.db_check.specs.KeyLaws.{key_total};

use core_ir::PtrId;
use ev_value::{Val, cmp_val};
use std::alloc::{AllocError, Global};
use std::cmp::Ordering;
use std::collections::BTreeMap;

/// A pointer and a value that an object has for it.
#[derive(Drop)]
pub struct Key {
    pub pointer: u32,
    pub value: Val,
}

impl PartialEq for Key {
    ghost eq = { λ j k. is_eq (key_cmp j k) };

    ghost laws = { partial_equiv_from_equiv (eq_by_cmp_equiv key_total) };

    fn eq(&self, other: &Key) -> bool {
        compare(self, other).is_eq()
    }
}

impl Eq for Key {
    ghost laws = { eq_by_cmp_equiv key_total };
}

impl PartialOrd for Key {
    ghost partial_cmp = { λ j k. Some (key_cmp j k) };

    ghost laws = { partial_order_from_total key_total };

    fn partial_cmp(&self, other: &Key) -> Option<Ordering> {
        Some(compare(self, other))
    }
}

impl Ord for Key {
    ghost cmp = { key_cmp };

    ghost total = { key_total };

    ghost matches_partial_cmp = { λ j k. refl };

    ghost matches_eq = { λ j k. refl };

    fn cmp(&self, other: &Key) -> Ordering {
        compare(self, other)
    }
}

/// By pointer, and of one pointer by value.
fn compare(left: &Key, right: &Key) -> Ordering
    ensures { result ≡ key_cmp left.now right.now }
{
    left.pointer
        .cmp(&right.pointer)
        .then(cmp_val(&left.value, &right.value))
}

/// The objects that hold values of exclusive pointers, each by its number.
#[derive(Drop)]
pub struct Holders {
    map: BTreeMap<Key, u32>,
}

impl Holders {
    pub fn new(alloc: Global) -> Holders
        ensures { held_by result ≡ nobody }
    {
        Holders {
            map: BTreeMap::new(alloc),
        }
    }

    /// The object that holds a value already. Where none does, the given one holds it from now on.
    pub fn note(
        &mut self,
        pointer: PtrId,
        value: Val,
        object: u32,
    ) -> Result<Option<u32>, AllocError>
        ensures holder { IfOk result (λ o. o ≡ held_by self.old pointer value) }
        ensures held { OnOk result (held_by self.new ≡ held_too (held_by self.old) pointer value object) }
    {
        let key = Key {
            pointer: pointer.0,
            value,
        };
        match self.map.get(&key) {
            Some(other) => Ok(Some(*other)),
            None => {
                self.map.insert(key, object)?;
                Ok(None)
            }
        }
    }
}
