//! Objects that break no rule.
ghost use Rattle.std.specs.Prelude.{◌≡◌, ◌<◌, ◌≤◌, ◌^◌, List, ◌∷◌, [], length, nat_lt, slice_get, IfOk, Ok};
ghost use Rattle.std.specs.Option.{option_copied};
ghost use Rattle.ev_schema.specs.declared.types.TypeInfo.{TypeInfo};
ghost use Rattle.db_draft.specs.declared.draft.ObjectDraft.{ObjectDraft};
ghost use Rattle.db_store.specs.Fits.{Ascend};
ghost use Rattle.db_store.specs.Objects.{find as find_in};
ghost use Rattle.db_store.specs.declared.object.Object.{Object};
ghost use Rattle.db_check.specs.Check.{IsWritten, checked, keyed_objects as keyed_objects_of, ordered as ordered_of, store_of as store_of_objects};
ghost use Rattle.db_check.specs.Extent.{extent_places, AreExtentPlaces};
ghost use Rattle.db_check.specs.Store.{kept_if_known, kept_places, IsOver};

use crate::extent::extents;
use core_ir::TypeId;
use db_store::Object;
use ev_list::{Absent, Direction, KeyOrder, Keyed, backward, in_order, keyless};
use ev_schema::Schema;
use ev_value::{List, Val};
use sqlite_items::at;
use std::alloc::{AllocError, Global};
use std::marker::Model;

/// The objects of a document that breaks no rule, in order of id, and for each type the places of its objects.
#[derive(Drop)]
pub struct Store {
    objects: List<Object>,
    // By the number of the type: the places of its objects and of those that extend it.
    extents: List<List<u32>>,
}

impl Model for Store {
    ghost use Rattle.std.specs.Coded.{codes};
    ghost use Rattle.ev_value.specs.contracts.value.Val as val_contract;
    ghost use Rattle.db_check.specs.Store.{StoreView};

    ghost Value = { StoreView };

    ghost coded = { Prim.hlevel (codes, val_contract.the_row.coded) };

    ghost use Rattle.db_check.specs.Check.{IsWritten};

    ghost view = { λ s. record { objects = s.objects; extents = s.extents } };

    ghost invariant = { λ s. IsWritten (record { objects = s.objects; extents = s.extents }) };
}

impl Store {
    /// The objects, in order of id.
    pub fn objects(&self) -> &[Object]
        ensures all { result.now ≡ self.now.objects }
        ensures in_order { Ascend (λ (a b : Object). nat_lt a.id b.id) self.now.objects }
        ensures written { IsWritten self.now }
    {
        self.objects.as_slice()
    }

    /// The object with an id. None where there is none.
    pub fn find(&self, id: u128) -> Option<&Object>
        ensures { option_copied result ≡ find_in self.now.objects id }
    {
        let objects = self.objects();
        match objects.binary_search_by_key(&id, |object| object.id) {
            Ok(place) => Some(&objects[place]),
            Err(_) => None,
        }
    }

    /// The places, from 0, of the objects of a type and of those that extend it, in order of id. None where the store's
    /// schema has no such type.
    pub fn extent(&self, ty: TypeId) -> &[u32]
        ensures kept { result.now ≡ kept_places self.now ty }
        ensures places { (types : List TypeInfo) → IsOver types self.now → ty.0 < length types → result.now ≡ extent_places types ty self.now.objects }
        ensures others { (types : List TypeInfo) → IsOver types self.now → length types ≤ ty.0 → result.now ≡ [] }
        ensures objects { (types : List TypeInfo) → IsOver types self.now → ty.0 < length types → AreExtentPlaces types ty self.now.objects result.now }
    {
        places_at(self.extents.as_slice(), ty)
    }
}

fn places_at(extents: &[List<u32>], ty: TypeId) -> &[u32]
    ensures { result.now ≡ kept_if_known (slice_get extents.now ty.0) }
{
    match at(extents, ty.0 as usize) {
        Some(places) => places.as_slice(),
        None => &[],
    }
}

fn keyed(alloc: Global, object: Object) -> Result<Keyed<Object>, AllocError>
    ensures { IfOk result (λ k. k ∷ [] ≡ keyed_objects_of (object ∷ [])) }
{
    let mut keys = List::new(alloc);
    keys.push(Some(Val::Id(object.id)))?;
    Ok(Keyed {
        keys,
        value: object,
    })
}

/// Objects with their ids as keys.
fn keyed_objects(alloc: Global, objects: List<Object>) -> Result<List<Keyed<Object>>, AllocError>
    ensures { IfOk result (λ l. l ≡ keyed_objects_of objects) }
{
    let mut left = backward(alloc, objects)?;
    let mut all = List::new(alloc);
    while let Some(object) = left.pop() {
        all.push(keyed(alloc, object)?)?;
    }
    Ok(all)
}

/// By id.
const BY_ID: KeyOrder = KeyOrder {
    direction: Direction::Ascending,
    absent: Absent::First,
};

/// Objects in order of id.
fn ordered(alloc: Global, objects: List<Object>) -> Result<List<Object>, AllocError>
    ensures { IfOk result (λ l. l ≡ ordered_of objects) }
{
    let all = keyed_objects(alloc, objects)?;
    keyless(alloc, in_order(alloc, &[BY_ID], all)?)
}

/// The store of some objects.
pub fn store_of(alloc: Global, schema: &Schema, objects: List<Object>) -> Result<Store, AllocError>
    requires objects { length objects < 2 ^ 32 }
    requires written { (drafts : List ObjectDraft) × (checked schema.now drafts ≡ Ok (store_of_objects schema.now.types objects)) }
    ensures { IfOk result (λ s. s ≡ store_of_objects schema.now.types objects) }
{
    let objects = ordered(alloc, objects)?;
    let extents = extents(alloc, schema.types(), objects.as_slice())?;
    Ok(Store { objects, extents })
}
