//! Objects that are found by id, and by what they lead to, without looking at all of them.
ghost use Rattle.std.specs.Prelude.{◌≡◌, zero, suc, IfOk, OnOk};
ghost use Rattle.eql_steps.specs.ById.{by_id, nothing};
ghost use Rattle.eql_steps.specs.Index.{placed, sourced, with_targets, with_entries, with_objects};

use crate::by_id::ById;
use crate::source::Source;
use core_ir::PtrId;
use db_store::{Object, Target};
use std::alloc::{AllocError, Global};

/// The places of objects by their ids.
pub fn places_by_id(alloc: Global, objects: &[Object]) -> Result<ById<usize>, AllocError>
    ensures { IfOk result (λ m. by_id m ≡ placed objects.now) }
{
    let mut places = ById::new(alloc);
    for (place, object) in objects.iter().enumerate() {
        places.add(alloc, object.id, place)?;
    }
    Ok(places)
}

fn add_targets(
    alloc: Global,
    link: PtrId,
    place: usize,
    targets: &[Target],
    sources: &mut ById<Source>,
) -> Result<(), AllocError>
    ensures { OnOk result (by_id sources.new ≡ with_targets link place (by_id sources.old) targets.now) }
{
    for target in targets {
        sources.add(alloc, target.id, Source { link, place })?;
    }
    Ok(())
}

fn add_entries(
    alloc: Global,
    place: usize,
    object: &Object,
    sources: &mut ById<Source>,
) -> Result<(), AllocError>
    ensures { OnOk result (by_id sources.new ≡ with_entries object.now place (by_id sources.old) object.now.values) }
{
    for entry in object.values.as_slice() {
        add_targets(
            alloc,
            entry.pointer,
            place,
            object.targets(entry.pointer),
            sources,
        )?;
    }
    Ok(())
}

/// The links of objects by the ids that they lead to.
pub fn sources_by_id(alloc: Global, objects: &[Object]) -> Result<ById<Source>, AllocError>
    ensures { IfOk result (λ m. by_id m ≡ sourced objects.now) }
{
    let mut sources = ById::new(alloc);
    for (place, object) in objects.iter().enumerate() {
        add_entries(alloc, place, object, &mut sources)?;
    }
    Ok(sources)
}
