//! Extents, links and back links.
ghost use Rattle.std.specs.Prelude.{◌≡◌, ◌++◌, ◌∷◌, [], ℕ, nat_eq, map, filter, IfOk, OnOk};
ghost use Rattle.std.specs.List.{list_any};
ghost use Rattle.std.specs.List.Sorted.{IsStrictlyIncreasing};
ghost use Rattle.ev_value.specs.Item.{all_of};
ghost use Rattle.eql_steps.specs.Index.{led_places_of as led_places_in, source_places_of as source_places_in};
ghost use Rattle.eql_steps.specs.Steps.{extent as extent_of, links as links_of, back_links as back_links_of, targets_among, sources_among};

use crate::ascending::ascend;
use crate::indexed::Indexed;
use crate::places::{add_led_places, add_source_places, objects_at, objects_of_type_at};
use core_ir::{PtrId, TypeId};
use ev_list::{faults_alone, has_fault, values};
use ev_schema::Schema;
use ev_value::{Item, List, Val};
use std::alloc::{AllocError, Global};

/// The objects of a type and of those that extend it, in order of id.
pub fn extent(
    alloc: Global,
    schema: &Schema,
    objects: &Indexed<'_>,
    ty: TypeId,
) -> Result<List<Item>, AllocError>
    ensures { IfOk result (λ xs. xs ≡ all_of (extent_of schema.now objects.now ty)) }
{
    let mut out = List::new(alloc);
    for object in objects.all() {
        if schema.is_subtype(object.ty, ty) {
            out.push(Item::Value(Val::Obj(object.id)))?;
        }
    }
    Ok(out)
}

/// The places of the targets of some objects, in ascending order.
fn led_places(
    alloc: Global,
    objects: &Indexed<'_>,
    link: PtrId,
    sources: &[Val],
) -> Result<Vec<usize>, AllocError>
    ensures rises { IfOk result (λ v. IsStrictlyIncreasing v.items) }
    ensures same { IfOk result (λ v. (i : ℕ) → list_any (nat_eq i) v.items ≡ list_any (nat_eq i) (led_places_in objects.now link sources.now)) }
{
    let mut places = Vec::new(alloc);
    for source in sources {
        add_led_places(objects, link, source, &mut places)?;
    }
    ascend(&mut places);
    Ok(places)
}

/// Each target of some objects once, in order of id.
fn targets_of(
    alloc: Global,
    objects: &Indexed<'_>,
    link: PtrId,
    sources: &[Val],
) -> Result<List<Item>, AllocError>
    ensures { IfOk result (λ xs. xs ≡ all_of (targets_among objects.now link sources.now)) }
{
    let places = led_places(alloc, objects, link, sources)?;
    objects_at(alloc, objects, places.as_slice())
}

/// Each target of any object once, in order of id; the faults alone where there are some.
pub fn links(
    alloc: Global,
    objects: &Indexed<'_>,
    link: PtrId,
    from: List<Item>,
) -> Result<List<Item>, AllocError>
    ensures { IfOk result (λ xs. xs ≡ links_of objects.now link from) }
{
    if has_fault(from.as_slice()) {
        return faults_alone(alloc, from.as_slice());
    }
    let sources = values(alloc, from)?;
    targets_of(alloc, objects, link, sources.as_slice())
}

/// The places of the objects whose link leads to one of some objects, in ascending order.
fn source_places(
    alloc: Global,
    objects: &Indexed<'_>,
    link: PtrId,
    targets: &[Val],
) -> Result<Vec<usize>, AllocError>
    ensures rises { IfOk result (λ v. IsStrictlyIncreasing v.items) }
    ensures same { IfOk result (λ v. (i : ℕ) → list_any (nat_eq i) v.items ≡ list_any (nat_eq i) (source_places_in objects.now link targets.now)) }
{
    let mut found = Vec::new(alloc);
    for target in targets {
        add_source_places(objects, link, target, &mut found)?;
    }
    ascend(&mut found);
    Ok(found)
}

/// Each object of a type, or of one that extends it, whose link leads to one of some objects, once, in order of id.
fn sources_of(
    alloc: Global,
    schema: &Schema,
    objects: &Indexed<'_>,
    link: PtrId,
    ty: TypeId,
    targets: &[Val],
) -> Result<List<Item>, AllocError>
    ensures { IfOk result (λ xs. xs ≡ all_of (sources_among schema.now objects.now link ty targets.now)) }
{
    let places = source_places(alloc, objects, link, targets)?;
    objects_of_type_at(alloc, schema, objects, ty, places.as_slice())
}

/// The objects of a type whose link leads to one of some objects; the faults alone where there are some.
pub fn back_links(
    alloc: Global,
    schema: &Schema,
    objects: &Indexed<'_>,
    link: PtrId,
    ty: TypeId,
    from: List<Item>,
) -> Result<List<Item>, AllocError>
    ensures { IfOk result (λ xs. xs ≡ back_links_of schema.now objects.now link ty from) }
{
    if has_fault(from.as_slice()) {
        return faults_alone(alloc, from.as_slice());
    }
    let targets = values(alloc, from)?;
    sources_of(alloc, schema, objects, link, ty, targets.as_slice())
}
