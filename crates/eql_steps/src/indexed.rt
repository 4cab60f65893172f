//! Objects with an index.
ghost use Rattle.std.specs.Prelude.{◌≡◌, zero, slice_get, IfOk};
ghost use Rattle.std.specs.Option.{option_copied};
ghost use Rattle.db_store.specs.Objects.{find as find_in, object_of as object_of_value};
ghost use Rattle.eql_steps.specs.Index.{placed, sourced};

use crate::by_id::ById;
use crate::index::{places_by_id, sources_by_id};
use crate::source::Source;
use db_store::Object;
use ev_value::Val;
use sqlite_items::at;
use std::alloc::{AllocError, Global};
use std::marker::Model;

/// Objects, each found by its id and by what it leads to. Contracts see the list of them.
#[derive(Drop)]
pub struct Indexed<'a> {
    objects: &'a [Object],
    places: ById<usize>,
    sources: ById<Source>,
}

impl<'a> Model for Indexed<'a> {
    ghost use Rattle.std.specs.Prelude.{◌≡◌, List};
    ghost use Rattle.db_store.specs.declared.object.Object.{Object};
    ghost use Rattle.eql_steps.specs.ById.{by_id};
    ghost use Rattle.eql_steps.specs.Index.{placed, sourced};
    ghost use Rattle.ev_value.specs.contracts.value.Val as val_contract;
    ghost use Rattle.std.specs.Coded.{codes};

    ghost Value = { List Object };

    ghost coded = { Prim.hlevel (codes, val_contract.the_row.coded) };

    ghost view = { λ x. x.objects.now };

    ghost invariant = { λ x. (by_id x.places ≡ placed x.objects.now) × (by_id x.sources ≡ sourced x.objects.now) };
}

impl<'a> Indexed<'a> {
    pub fn new(alloc: Global, objects: &'a [Object]) -> Result<Indexed<'a>, AllocError>
        ensures { IfOk result (λ x. x ≡ objects.now) }
    {
        let places = places_by_id(alloc, objects)?;
        let sources = sources_by_id(alloc, objects)?;
        Ok(Indexed {
            objects,
            places,
            sources,
        })
    }

    /// The objects, in their order.
    pub fn all(&self) -> &[Object]
        ensures { result.now ≡ self.now }
    {
        self.objects
    }

    /// The places of the objects with an id.
    pub fn places(&self, id: u128) -> &[usize]
        ensures { result.now ≡ placed self.now id }
    {
        self.places.at(id)
    }

    /// The links that lead to an id, each with the place of its object.
    pub fn sources(&self, id: u128) -> &[Source]
        ensures { result.now ≡ sourced self.now id }
    {
        self.sources.at(id)
    }

    /// The place of the first object with an id. None where there is none.
    pub fn place(&self, id: u128) -> Option<usize>
        ensures { result ≡ slice_get (placed self.now id) zero }
    {
        at(self.places(id), 0).copied()
    }

    /// The first object with an id. None where there is none.
    #[tactic(auto, using(crate::proofs::Placed::found_there, crate::proofs::Placed::found_nowhere))]
    pub fn find(&self, id: u128) -> Option<&Object>
        ensures { option_copied result ≡ find_in self.now id }
    {
        match self.place(id) {
            Some(place) => at(self.all(), place),
            None => None,
        }
    }

    /// The object that a value is. None where it is no object, or no such object is there.
    pub fn object_of(&self, value: &Val) -> Option<&Object>
        ensures { option_copied result ≡ object_of_value self.now value.now }
    {
        match value {
            Val::Obj(id) => self.find(*id),
            Val::Int(_) | Val::Str(_) | Val::Bool(_) | Val::Id(_) => None,
            Val::Tuple(_) => None,
            Val::Array(_) => None,
        }
    }
}
