//! Ids and types in the order of the document, with a quick way to find the place of an id.
ghost use Rattle.std.specs.Prelude.{◌≡◌, ◌<◌, ◌++◌, ◌∷◌, [], ◌^◌, length, None, Some, slice_get, OnOk};
ghost use Rattle.std.specs.Option.{option_copied};
ghost use Rattle.db_ids.specs.Heads.{place_of};

use core_ir::TypeId;
use ev_value::List;
use sqlite_items::at;
use std::alloc::{AllocError, Global};
use std::collections::BTreeMap;
use std::marker::Model;

/// The id and the type of an object.
#[derive(Clone, Copy, Drop)]
pub struct Head {
    pub id: u128,
    pub ty: TypeId,
}

/// The ids and types of some objects, in their order. Contracts see the list of them.
#[derive(Drop)]
pub struct Heads {
    list: List<Head>,
    places: BTreeMap<u128, u32>,
}

impl Model for Heads {
    ghost use Rattle.std.specs.Prelude.{List};
    ghost use Rattle.db_ids.specs.Heads.{Finds};
    ghost use Rattle.db_ids.specs.declared.heads.Head.{Head};

    ghost Value = { List Head };

    ghost view = { λ h. h.list };

    ghost invariant = { λ h. Finds h.places h.list };
}

impl Heads {
    pub fn new(alloc: Global) -> Heads
        ensures { result ≡ [] }
    {
        Heads {
            list: List::new(alloc),
            places: BTreeMap::new(alloc),
        }
    }

    pub fn len(&self) -> usize
        ensures { result ≡ length self.now }
    {
        self.list.len()
    }

    /// The place of the first object with an id.
    pub fn find(&self, id: u128) -> Option<u32>
        ensures { result ≡ place_of self.now id }
    {
        self.places.get(&id).copied()
    }

    /// The id and the type at a place.
    pub fn at(&self, place: u32) -> Option<Head>
        ensures { result ≡ slice_get self.now place }
    {
        at(self.list.as_slice(), place as usize).copied()
    }

    /// Puts an object with a new id last.
    pub fn add(&mut self, head: Head) -> Result<(), AllocError>
        requires is_new { place_of self.old head.id ≡ None }
        requires fits { length self.old < 2 ^ 32 }
        ensures ok { OnOk result (self.new ≡ self.old ++ head ∷ []) }
    {
        let place = self.list.len() as u32;
        self.list.push(head)?;
        match self.places.insert(head.id, place) {
            Ok(_) => Ok(()),
            Err(_) => {
                let _ = self.list.pop();
                Err(AllocError)
            }
        }
    }
}
