//! The types behind steps.
ghost use Rattle.std.specs.Prelude.{◌≡◌, slice_get, IfOk, Some, None};
ghost use Rattle.std.specs.Option.{option_copied};
ghost use Rattle.ev_schema.specs.Steps as spec;
ghost use Rattle.ev_schema.specs.Pointers.{computed_among};

use crate::pointer::{Body, Computed, LinkProperty, PtrInfo};
use crate::schema::Schema;
use core_ir::{PtrId, Step, Ty, TypeId};
use ev_value::Text;
use sqlite_items::at;
use std::alloc::{AllocError, Global};

fn type_of_body(alloc: Global, body: &Body) -> Result<Option<Ty>, AllocError>
    ensures { IfOk result (λ t. t ≡ spec.type_of_body body.now) }
{
    match body {
        Body::Stored(ty) => Ok(Some(ty.copied(alloc)?)),
        Body::Computed => Ok(None),
    }
}

fn type_stored(alloc: Global, info: Option<&PtrInfo>) -> Result<Option<Ty>, AllocError>
    ensures { IfOk result (λ t. t ≡ spec.type_stored (option_copied info.entry)) }
{
    match info {
        Some(info) => type_of_body(alloc, &info.body),
        None => Ok(None),
    }
}

fn type_computed(alloc: Global, computed: Option<&Computed>) -> Result<Option<Ty>, AllocError>
    ensures { IfOk result (λ t. t ≡ spec.type_computed (option_copied computed.entry)) }
{
    match computed {
        Some(computed) => Ok(Some(computed.ty.copied(alloc)?)),
        None => Ok(None),
    }
}

fn type_among(properties: &[LinkProperty], name: &Text) -> Option<Ty>
    ensures { result ≡ spec.type_among properties.now name.now }
{
    for property in properties {
        if &property.name == name {
            return Some(Ty::Scalar(property.ty));
        }
    }
    None
}

fn type_of_property(info: Option<&PtrInfo>, name: &Text) -> Option<Ty>
    ensures { result ≡ spec.type_of_property (option_copied info.entry) name.now }
{
    match info {
        Some(info) => type_among(info.link_props.as_slice(), name),
        None => None,
    }
}

/// The link that a step takes.
fn link_of(step: &Step) -> Option<PtrId>
    ensures { result ≡ spec.link_of step.now }
{
    match step {
        Step::Link(pointer) => Some(*pointer),
        Step::Dot(_) => None,
        Step::BackDot(_, _) => None,
        Step::Prop(_) => None,
        Step::Comp(_) => None,
        Step::Back(_, _) => None,
        Step::Is(_) => None,
        Step::LinkProp(_) => None,
    }
}

impl Schema {
    /// The lower one of two object types.
    fn lower_type(&self, ty: TypeId, other: TypeId) -> Option<Ty>
        ensures { result ≡ spec.lower_type self.now.types ty other }
    {
        if self.is_subtype(ty, other) {
            Some(Ty::Object(ty))
        } else if self.is_subtype(other, ty) {
            Some(Ty::Object(other))
        } else {
            None
        }
    }

    fn type_at_link(&self, link: Option<PtrId>, name: &Text) -> Option<Ty>
        ensures { result ≡ spec.type_at_link self.now link name.now }
    {
        match link {
            Some(link) => type_of_property(at(self.pointers(), link.0 as usize), name),
            None => None,
        }
    }

    fn type_from_object(
        &self,
        alloc: Global,
        link: Option<PtrId>,
        ty: TypeId,
        step: &Step,
    ) -> Result<Option<Ty>, AllocError>
        ensures { IfOk result (λ t. t ≡ spec.type_from_object self.now link ty step.now) }
    {
        let pointers = self.pointers();
        match step {
            Step::Prop(pointer) => type_stored(alloc, at(pointers, pointer.0 as usize)),
            Step::Link(pointer) => type_stored(alloc, at(pointers, pointer.0 as usize)),
            Step::Comp(pointer) => type_computed(alloc, self.computed(*pointer)),
            Step::Back(_, source) => Ok(Some(Ty::Object(*source))),
            Step::Is(narrow) => Ok(self.lower_type(ty, *narrow)),
            Step::LinkProp(name) => Ok(self.type_at_link(link, name)),
            Step::Dot(_) => Ok(None),
            Step::BackDot(_, _) => Ok(None),
        }
    }

    /// The type behind a step from values of a type, where names are looked up; none where such values have no such step.
    /// `link` is the link that the step before takes, if it takes one.
    pub fn type_after(
        &self,
        alloc: Global,
        link: Option<PtrId>,
        ty: &Ty,
        step: &Step,
    ) -> Result<Option<Ty>, AllocError>
        ensures { IfOk result (λ t. t ≡ spec.type_after self.now link ty.now step.now) }
    {
        match ty {
            Ty::Object(ty) => self.type_from_object(alloc, link, *ty, step),
            Ty::Scalar(_) => Ok(None),
            Ty::Tuple(_) => Ok(None),
            Ty::Array(_) => Ok(None),
        }
    }

    /// The type behind some steps, one after the other; none where one of them has none.
    pub fn type_along(
        &self,
        alloc: Global,
        ty: &Ty,
        steps: &[Step],
    ) -> Result<Option<Ty>, AllocError>
        ensures { IfOk result (λ t. t ≡ spec.type_along self.now None (Some ty.now) steps.now) }
    {
        let mut link = None;
        let mut reached = ty.copied(alloc)?;
        for step in steps {
            let Some(next) = self.type_after(alloc, link, &reached, step)? else {
                return Ok(None);
            };
            reached = next;
            link = link_of(step);
        }
        Ok(Some(reached))
    }
}
