//! The places of targets and of sources, and the objects at some places.
ghost use Rattle.std.specs.Prelude.{◌≡◌, ◌++◌, ◌∷◌, [], true, IfOk, OnOk};
ghost use Rattle.std.specs.Option.{option_copied};
ghost use Rattle.ev_value.specs.Item.{all_of};
ghost use Rattle.ev_schema.specs.Types.{is_subtype};
ghost use Rattle.db_store.specs.Objects.{object_of as object_of_value};
ghost use Rattle.eql_steps.specs.Index.{by_link, target_places, led_places as led_places_in, source_places as source_places_in, kept_at};

use crate::indexed::Indexed;
use crate::source::Source;
use core_ir::{PtrId, TypeId};
use db_store::Target;
use ev_schema::Schema;
use ev_value::{Item, List, Val};
use sqlite_items::at;
use std::alloc::{AllocError, Global};

fn add_all(places: &[usize], out: &mut Vec<usize>) -> Result<(), AllocError>
    ensures { OnOk result (out.new.items ≡ out.old.items ++ places.now) }
{
    for place in places {
        out.push(*place)?;
    }
    Ok(())
}

fn add_target_places(
    objects: &Indexed<'_>,
    targets: &[Target],
    out: &mut Vec<usize>,
) -> Result<(), AllocError>
    ensures { OnOk result (out.new.items ≡ out.old.items ++ target_places objects.now targets.now) }
{
    for target in targets {
        add_all(objects.places(target.id), out)?;
    }
    Ok(())
}

/// Adds the places of the objects that a link of a value leads to.
pub fn add_led_places(
    objects: &Indexed<'_>,
    link: PtrId,
    value: &Val,
    out: &mut Vec<usize>,
) -> Result<(), AllocError>
    ensures { OnOk result (out.new.items ≡ out.old.items ++ led_places_in objects.now link value.now) }
{
    match objects.object_of(value) {
        Some(source) => add_target_places(objects, source.targets(link), out),
        None => Ok(()),
    }
}

fn add_by_link(link: PtrId, sources: &[Source], out: &mut Vec<usize>) -> Result<(), AllocError>
    ensures { OnOk result (out.new.items ≡ out.old.items ++ by_link link sources.now) }
{
    for source in sources {
        if source.link.0 == link.0 {
            out.push(source.place)?;
        }
    }
    Ok(())
}

/// Adds the places of the objects whose link leads to a value.
pub fn add_source_places(
    objects: &Indexed<'_>,
    link: PtrId,
    value: &Val,
    out: &mut Vec<usize>,
) -> Result<(), AllocError>
    ensures { OnOk result (out.new.items ≡ out.old.items ++ source_places_in objects.now link value.now) }
{
    match objects.object_of(value) {
        Some(target) => add_by_link(link, objects.sources(target.id), out),
        None => Ok(()),
    }
}

/// The objects at some places.
pub fn objects_at(
    alloc: Global,
    objects: &Indexed<'_>,
    places: &[usize],
) -> Result<List<Item>, AllocError>
    ensures { IfOk result (λ xs. xs ≡ all_of (kept_at (λ o. true) objects.now places.now)) }
{
    let mut out = List::new(alloc);
    for place in places {
        if let Some(object) = at(objects.all(), *place) {
            out.push(Item::Value(Val::Obj(object.id)))?;
        }
    }
    Ok(out)
}

/// The objects at some places that are of a type or of one that extends it.
pub fn objects_of_type_at(
    alloc: Global,
    schema: &Schema,
    objects: &Indexed<'_>,
    ty: TypeId,
    places: &[usize],
) -> Result<List<Item>, AllocError>
    ensures { IfOk result (λ xs. xs ≡ all_of (kept_at (λ o. is_subtype schema.now.types o.ty ty) objects.now places.now)) }
{
    let mut out = List::new(alloc);
    for place in places {
        if let Some(object) = at(objects.all(), *place) {
            if schema.is_subtype(object.ty, ty) {
                out.push(Item::Value(Val::Obj(object.id)))?;
            }
        }
    }
    Ok(out)
}
