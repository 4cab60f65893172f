//! A schema with quick ways to find things by their names.
ghost use Rattle.std.specs.Prelude.{◌≡◌, slice_get, IfOk};
ghost use Rattle.std.specs.Option.{option_copied};
ghost use Rattle.ev_index.specs.Globals.{global_type as global_type_in};
ghost use Rattle.ev_index.specs.Index.{by_name};
ghost use Rattle.ev_schema.specs.Named.{type_named as type_named_in};
ghost use Rattle.ev_schema.specs.Numbered.{IsNumbered};
ghost use Rattle.ev_schema.specs.Pointers.{pointer_named, first_named, id_named, computed_among};
ghost use Rattle.ev_schema.specs.Types.{listed_pointers};

use crate::by_name::ByName;
use crate::globals::globals_by_name;
use crate::places::{Places, places_of};
use crate::pointers::pointers_by_type;
use crate::types::types_by_name;
use core_ir::{PtrId, TypeId};
use ev_schema::{Computed, Schema};
use ev_value::{List, ScalarTy, Text};
use sqlite_items::at;
use std::alloc::{AllocError, Global};
use std::marker::Model;

/// A schema whose types, globals, pointers and expressions are found quickly. Contracts see the schema.
#[derive(Drop)]
pub struct Index<'a> {
    schema: &'a Schema,
    types: ByName<TypeId>,
    globals: ByName<ScalarTy>,
    /// By the number of the type.
    pointers: List<ByName<PtrId>>,
    computed: Places,
}

impl<'a> Model for Index<'a> {
    ghost use Rattle.ev_schema.specs.declared.schema.Schema.{Schema};
    ghost use Rattle.core_ir.specs.contracts.tree.Scope as scope_contract;
    ghost use Rattle.core_ir.specs.contracts.ty.Ty as ty_contract;
    ghost use Rattle.ev_value.specs.contracts.value.Val as val_contract;
    ghost use Rattle.ev_index.specs.Index.{Finds};
    ghost use Rattle.std.specs.Coded.{codes};

    ghost Value = { Schema };

    ghost coded = { Prim.hlevel (codes, val_contract.the_row.coded, ty_contract.the_row.coded, scope_contract.the_row.coded) };

    ghost view = { λ x. x.schema.now };

    ghost invariant = { λ x. Finds x.schema.now x.types x.globals x.pointers x.computed };
}

impl<'a> Index<'a> {
    /// An index of a schema.
    pub fn new(alloc: Global, schema: &'a Schema) -> Result<Index<'a>, AllocError>
        requires { IsNumbered schema.now }
        ensures { IfOk result (λ x. x ≡ schema.now) }
    {
        let types = types_by_name(alloc, schema.types())?;
        let globals = globals_by_name(alloc, schema.globals())?;
        let pointers = pointers_by_type(alloc, schema.pointers(), schema.types())?;
        let computed = places_of(alloc, schema.all_computed())?;
        Ok(Index {
            schema,
            types,
            globals,
            pointers,
            computed,
        })
    }

    /// The schema.
    pub fn schema(&self) -> &'a Schema
        ensures { result.now ≡ self.now }
    {
        self.schema
    }

    /// The type that has a name, abstract or not.
    pub fn type_named(&self, name: &Text) -> Option<TypeId>
        ensures { result ≡ type_named_in self.now.types name.now }
    {
        self.types.find(name)
    }

    /// The type of the first global that has a name.
    pub fn global_type(&self, name: &Text) -> Option<ScalarTy>
        ensures { result ≡ global_type_in self.now.globals name.now }
    {
        self.globals.find(name)
    }

    // The pointer of a type that has a name, but for `id`.
    fn listed(&self, ty: TypeId, name: &Text) -> Option<PtrId>
        ensures { result ≡ first_named self.now.pointers (listed_pointers self.now.types ty) name.now }
    {
        match at(self.pointers.as_slice(), ty.0 as usize) {
            Some(found) => found.find(name),
            None => None,
        }
    }

    // `id`, where that is the name.
    fn id(&self, name: &Text) -> Option<PtrId>
        ensures { result ≡ id_named self.now.pointers name.now }
    {
        let id = self.schema.id();
        if &self.schema.info(id).name == name {
            Some(id)
        } else {
            None
        }
    }

    /// The pointer of a type that has a name. None where there is none.
    pub fn pointer(&self, ty: TypeId, name: &Text) -> Option<PtrId>
        ensures { result ≡ pointer_named self.now ty name.now }
    {
        match self.listed(ty, name) {
            Some(pointer) => Some(pointer),
            None => self.id(name),
        }
    }

    /// The expression of a computed pointer, once it is known.
    pub fn computed(&self, pointer: PtrId) -> Option<&'a Computed>
        ensures { option_copied result ≡ computed_among self.now.computed pointer }
    {
        match self.computed.find(pointer) {
            Some(place) => at(self.schema.all_computed(), place),
            None => None,
        }
    }
}
