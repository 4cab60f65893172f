//! Properties and links.
ghost use Rattle.std.specs.Prelude.{◌≡◌, IfOk};
ghost use Rattle.ev_schema.specs.Facts.{bounded as bounded_of};

use core_ir::{Card, Carded, PtrId, Ty, TypeId};
use ev_value::{List, ScalarTy, Text, Val, copied_values};
use std::alloc::{AllocError, Global};

/// A constraint on the values of a pointer (the EdgeDB documentation's page on constraints).
#[derive(Drop)]
pub enum Limit {
    /// No two objects have one value.
    Exclusive,
    MinValue(i64),
    MaxValue(i64),
    MinExValue(i64),
    MaxExValue(i64),
    /// In characters.
    MinLen(i64),
    /// In characters.
    MaxLen(i64),
    OneOf(List<Val>),
}

/// A property of a link: at most one value for each pair of a source and a target.
#[derive(Drop)]
pub struct LinkProperty {
    pub name: Text,
    pub ty: ScalarTy,
}

/// Where the values of a pointer come from.
#[derive(Drop)]
pub enum Body {
    /// From the objects. The type is a scalar, an array of scalars or an object type.
    Stored(Ty),
    /// From an expression over the object, which a schema has beside its pointers once it is known.
    Computed,
}

/// A pointer: a property or a link.
#[derive(Drop)]
pub struct PtrInfo {
    pub name: Text,
    /// The type that declares it; of `id` it has no meaning.
    pub origin: TypeId,
    /// The declared bounds of a stored pointer. Of a computed one the bounds of its expression, once that is known, and no
    /// meaning before.
    pub card: Card,
    pub body: Body,
    pub limits: List<Limit>,
    /// In byte order of their names.
    pub link_props: List<LinkProperty>,
    /// What `insert` puts where nothing is said.
    pub default: Option<Val>,
}

/// The expression of a computed pointer (the EdgeDB documentation's page on computeds).
#[derive(Drop)]
pub struct Computed {
    pub pointer: PtrId,
    pub ty: Ty,
    pub card: Card,
    /// Over one object, which is its subject.
    pub expr: Carded,
}

impl Limit {
    /// The same constraint, in memory of its own.
    fn copied(&self, alloc: Global) -> Result<Limit, AllocError>
        ensures { IfOk result (λ limit. limit ≡ self.now) }
    {
        match self {
            Limit::Exclusive => Ok(Limit::Exclusive),
            Limit::MinValue(least) => Ok(Limit::MinValue(*least)),
            Limit::MaxValue(most) => Ok(Limit::MaxValue(*most)),
            Limit::MinExValue(bound) => Ok(Limit::MinExValue(*bound)),
            Limit::MaxExValue(bound) => Ok(Limit::MaxExValue(*bound)),
            Limit::MinLen(least) => Ok(Limit::MinLen(*least)),
            Limit::MaxLen(most) => Ok(Limit::MaxLen(*most)),
            Limit::OneOf(values) => Ok(Limit::OneOf(copied_values(alloc, values.as_slice())?)),
        }
    }
}

/// The same constraints, in memory of their own.
fn copied_limits(alloc: Global, limits: &[Limit]) -> Result<List<Limit>, AllocError>
    ensures { IfOk result (λ copies. copies ≡ limits.now) }
{
    let mut copies = List::new(alloc);
    for limit in limits {
        copies.push(limit.copied(alloc)?)?;
    }
    Ok(copies)
}

impl LinkProperty {
    /// The same property, in memory of its own.
    fn copied(&self, alloc: Global) -> Result<LinkProperty, AllocError>
        ensures { IfOk result (λ property. property ≡ self.now) }
    {
        let name = self.name.copied(alloc)?;
        Ok(LinkProperty { name, ty: self.ty })
    }
}

/// The same properties, in memory of their own.
fn copied_properties(
    alloc: Global,
    properties: &[LinkProperty],
) -> Result<List<LinkProperty>, AllocError>
    ensures { IfOk result (λ copies. copies ≡ properties.now) }
{
    let mut copies = List::new(alloc);
    for property in properties {
        copies.push(property.copied(alloc)?)?;
    }
    Ok(copies)
}

impl Body {
    /// The same, in memory of its own.
    fn copied(&self, alloc: Global) -> Result<Body, AllocError>
        ensures { IfOk result (λ body. body ≡ self.now) }
    {
        match self {
            Body::Stored(ty) => Ok(Body::Stored(ty.copied(alloc)?)),
            Body::Computed => Ok(Body::Computed),
        }
    }
}

/// The same value, in memory of its own, if there is one.
fn copied_default(alloc: Global, default: &Option<Val>) -> Result<Option<Val>, AllocError>
    ensures { IfOk result (λ copy. copy ≡ default.now) }
{
    match default {
        Some(value) => Ok(Some(value.copied(alloc)?)),
        None => Ok(None),
    }
}

impl PtrInfo {
    /// The same pointer within other bounds, in memory of its own.
    pub fn bounded(&self, alloc: Global, card: Card) -> Result<PtrInfo, AllocError>
        ensures { IfOk result (λ info. info ≡ bounded_of card self.now) }
    {
        let name = self.name.copied(alloc)?;
        let body = self.body.copied(alloc)?;
        let limits = copied_limits(alloc, self.limits.as_slice())?;
        let link_props = copied_properties(alloc, self.link_props.as_slice())?;
        let default = copied_default(alloc, &self.default)?;
        Ok(PtrInfo {
            name,
            origin: self.origin,
            card,
            body,
            limits,
            link_props,
            default,
        })
    }
}
