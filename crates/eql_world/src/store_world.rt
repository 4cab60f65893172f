//! The world of some objects.
ghost use Rattle.std.specs.Prelude.{◌≡◌, IfOk};
ghost use Rattle.eql_world.specs.StoreWorld.{stepped, by_columns, world_where};

use crate::arguments::argument;
use crate::column::{Column, computed};
use core_ir::{PtrId, Step, TypeId};
use eql_sem::World;
use eql_steps::{Indexed, back_links, extent, link_property, links, narrowed, properties};
use ev_schema::Schema;
use ev_value::{Args, Item, List, Text, Val};
use std::alloc::{AllocError, Global};

/// Objects with an index under a schema, with a caller's arguments, and with what computed pointers give.
#[derive(Clone, Copy)]
pub struct StoreWorld<'a> {
    pub schema: &'a Schema,
    pub objects: &'a Indexed<'a>,
    pub args: &'a Args,
    pub columns: &'a [Column],
}

impl World for StoreWorld<'_> {
    ghost means = { λ w. world_where w.schema.now w.objects.now w.args.now (by_columns w.objects.now w.columns.now) };

    fn extent(&self, alloc: Global, ty: TypeId) -> Result<List<Item>, AllocError> {
        extent(alloc, self.schema, self.objects, ty)
    }

    fn step(&self, alloc: Global, step: &Step, from: List<Item>) -> Result<List<Item>, AllocError> {
        match step {
            Step::Prop(pointer) => {
                properties(alloc, self.schema, self.objects, *pointer, from.as_slice())
            }
            Step::Link(link) => links(alloc, self.objects, *link, from),
            Step::Comp(pointer) => {
                computed(alloc, self.objects, self.columns, *pointer, from.as_slice())
            }
            Step::Back(link, ty) => back_links(alloc, self.schema, self.objects, *link, *ty, from),
            Step::Is(ty) => narrowed(alloc, self.schema, self.objects, *ty, from.as_slice()),
            Step::Dot(_) | Step::BackDot(_, _) | Step::LinkProp(_) => Ok(List::new(alloc)),
        }
    }

    fn link_property(
        &self,
        alloc: Global,
        link: PtrId,
        name: &Text,
        source: &Val,
        target: &Val,
    ) -> Result<List<Item>, AllocError> {
        link_property(alloc, self.objects, link, name, source, target)
    }

    fn param(&self, alloc: Global, name: &Text) -> Result<List<Item>, AllocError> {
        argument(alloc, self.args.params.as_slice(), name)
    }

    fn global(&self, alloc: Global, name: &Text) -> Result<List<Item>, AllocError> {
        argument(alloc, self.args.globals.as_slice(), name)
    }
}
