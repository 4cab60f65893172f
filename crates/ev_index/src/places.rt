//! The places of the expressions of computed pointers.
ghost use Rattle.std.specs.Prelude.{◌≡◌, ◌==◌, IfOk, OnOk};
ghost use Rattle.ev_index.specs.First.{nothing, with_one};
ghost use Rattle.ev_index.specs.Index.{at_place, place_of};
ghost use Rattle.ev_schema.specs.Pointers.{computed_among};

use core_ir::PtrId;
use ev_schema::Computed;
use std::alloc::{AllocError, Global};
use std::collections::BTreeMap;

/// A place for each of some pointers.
#[derive(Drop)]
pub struct Places {
    found: BTreeMap<u32, usize>,
}

impl Places {
    fn new(alloc: Global) -> Places
        ensures { place_of result ≡ nothing }
    {
        Places {
            found: BTreeMap::new(alloc),
        }
    }

    /// The place of a pointer.
    pub fn find(&self, pointer: PtrId) -> Option<usize>
        ensures { result ≡ place_of self.now pointer.0 }
    {
        self.found.get(&pointer.0).copied()
    }

    // The place of a pointer that has none yet; else the first one stays.
    fn add(&mut self, pointer: PtrId, place: usize) -> Result<(), AllocError>
        ensures { OnOk result (place_of self.new ≡ with_one (λ a b. a == b) (place_of self.old) pointer.0 place) }
    {
        if self.find(pointer).is_some() {
            return Ok(());
        }
        self.found.insert(pointer.0, place)?;
        Ok(())
    }
}

/// The first place of each pointer among some expressions.
pub fn places_of(alloc: Global, computed: &[Computed]) -> Result<Places, AllocError>
    ensures { IfOk result (λ m. (pointer : PtrId) → at_place computed.now (place_of m pointer.0) ≡ computed_among computed.now pointer) }
{
    let mut places = Places::new(alloc);
    for (place, expression) in computed.iter().enumerate() {
        places.add(expression.pointer, place)?;
    }
    Ok(places)
}
