//! The objects that a caller sees: those that the rules of their types show, with links cut to them.
ghost use Rattle.std.specs.Prelude.{◌≡◌, ◌++◌, filter, map, not, ℕ, Bool, false, slice_get, IfOk, OnOk};
ghost use Rattle.std.specs.List.{list_any};
ghost use Rattle.std.specs.Option.{unwrap_or};
ghost use Rattle.eql_world.specs.View.{flag_for as flag_for_in, flagged, cut_targets as cut_targets_by, cut_value as cut_value_by, cut as cut_by, cut_entry as cut_entry_by, is_filled as is_filled_value};

use db_store::{Entry, LinkValue, Object, PtrValue, Target};
use eql_steps::Indexed;
use ev_value::{List, copied_values};
use sqlite_items::at;
use std::alloc::{AllocError, Global};

/// The flag at a place. False where there is none.
fn flag_at(flags: &[bool], place: usize) -> bool
    ensures { result ≡ unwrap_or (slice_get flags.now place) false }
{
    at(flags, place).copied().unwrap_or(false)
}

/// The flag that stands beside the first object with an id.
#[tactic(auto, using(crate::proofs::Beside::flag_there, crate::proofs::Beside::flag_nowhere))]
fn flag_for(objects: &Indexed<'_>, flags: &[bool], id: u128) -> bool
    ensures { result ≡ flag_for_in objects.now flags.now id }
{
    match objects.place(id) {
        Some(place) => flag_at(flags, place),
        None => false,
    }
}

fn copied_properties(alloc: Global, properties: &[LinkValue]) -> Result<List<LinkValue>, AllocError>
    ensures { IfOk result (λ ps. ps ≡ properties.now) }
{
    let mut copies = List::new(alloc);
    for property in properties {
        copies.push(LinkValue {
            name: property.name.copied(alloc)?,
            value: property.value.copied(alloc)?,
        })?;
    }
    Ok(copies)
}

/// The targets whose objects have a true flag.
fn cut_targets(
    alloc: Global,
    objects: &Indexed<'_>,
    flags: &[bool],
    targets: &[Target],
) -> Result<List<Target>, AllocError>
    ensures { IfOk result (λ ts. ts ≡ cut_targets_by (flag_for_in objects.now flags.now) targets.now) }
{
    let mut kept = List::new(alloc);
    for target in targets {
        if flag_for(objects, flags, target.id) {
            kept.push(Target {
                id: target.id,
                properties: copied_properties(alloc, target.properties.as_slice())?,
            })?;
        }
    }
    Ok(kept)
}

/// What is stored of a pointer, a link cut to the targets whose objects have a true flag.
fn cut_value(
    alloc: Global,
    objects: &Indexed<'_>,
    flags: &[bool],
    value: &PtrValue,
) -> Result<PtrValue, AllocError>
    ensures { IfOk result (λ v. v ≡ cut_value_by (flag_for_in objects.now flags.now) value.now) }
{
    match value {
        PtrValue::Vals(values) => Ok(PtrValue::Vals(copied_values(alloc, values.as_slice())?)),
        PtrValue::Links(targets) => Ok(PtrValue::Links(cut_targets(
            alloc,
            objects,
            flags,
            targets.as_slice(),
        )?)),
    }
}

fn is_filled(value: &PtrValue) -> bool
    ensures { result ≡ is_filled_value value.now }
{
    match value {
        PtrValue::Vals(values) => !values.is_empty(),
        PtrValue::Links(targets) => !targets.is_empty(),
    }
}

/// An object with its links cut.
fn cut(
    alloc: Global,
    objects: &Indexed<'_>,
    flags: &[bool],
    object: &Object,
) -> Result<Object, AllocError>
    ensures { IfOk result (λ o. o ≡ cut_by (flag_for_in objects.now flags.now) object.now) }
{
    let mut values = List::new(alloc);
    for entry in object.values.as_slice() {
        let value = cut_value(alloc, objects, flags, &entry.value)?;
        if is_filled(&value) {
            values.push(Entry {
                pointer: entry.pointer,
                value,
            })?;
        }
    }
    Ok(Object {
        id: object.id,
        ty: object.ty,
        values,
    })
}

/// The objects that have a true flag, with their links cut to them.
pub fn flagged_objects(
    alloc: Global,
    objects: &Indexed<'_>,
    flags: &[bool],
) -> Result<List<Object>, AllocError>
    ensures { IfOk result (λ os. os ≡ flagged (flag_for_in objects.now flags.now) objects.now flags.now) }
{
    let mut kept = List::new(alloc);
    let mut rest = flags;
    for object in objects.all() {
        let Some((flag, more)) = rest.split_first() else {
            return Ok(kept);
        };
        if *flag {
            kept.push(cut(alloc, objects, flags, object)?)?;
        }
        rest = more;
    }
    Ok(kept)
}
