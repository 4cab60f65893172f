//! The types along a path, as the EdgeDB documentation's page on paths says.
ghost use Rattle.std.specs.Prelude.{◌≡◌, ◌<◌, IfOk, Some, None, [], length};
ghost use Rattle.std.specs.Option.{option_copied};
ghost use Rattle.ev_schema.specs.Steps.{link_of as link_of_step};
ghost use Rattle.plan.specs.Plan.{tells};
ghost use Rattle.type_rules.specs.Steps as rule;
ghost use Rattle.type_rules.specs.Refusal.{Answers};

use crate::agreement::related;
use crate::refusal::{TypeRefusal, TypeRule};
use core_ir::{Occurrence, PtrId, Step, Ty, TypeId};
use ev_index::Index;
use ev_schema::{Body, Computed, PtrInfo, Schema};
use ev_value::{List, Text};
use sqlite_items::at;
use std::alloc::Global;

/// A path as far as it has types.
#[derive(Drop)]
pub struct Walked {
    /// The steps so far, by their pointers.
    pub steps: List<Step>,
    /// The link that the last step takes, whose properties the next one may name.
    pub link: Option<PtrId>,
    /// The type behind the last step.
    pub reached: Ty,
}

/// The step that a pointer's name stands for.
fn step_by(pointer: PtrId, body: &Body, computed: Option<&Computed>) -> Option<Step>
    ensures { result ≡ rule.step_by pointer body.now (option_copied computed.entry) }
{
    match body {
        Body::Stored(Ty::Object(_)) => Some(Step::Link(pointer)),
        Body::Stored(Ty::Scalar(_) | Ty::Tuple(_) | Ty::Array(_)) => Some(Step::Prop(pointer)),
        Body::Computed => match computed {
            Some(_) => Some(Step::Comp(pointer)),
            None => None,
        },
    }
}

/// The same, where there is such a pointer.
fn step_of(pointer: PtrId, info: Option<&PtrInfo>, computed: Option<&Computed>) -> Option<Step>
    ensures { result ≡ rule.step_of pointer (option_copied info.entry) (option_copied computed.entry) }
{
    match info {
        Some(info) => step_by(pointer, &info.body, computed),
        None => None,
    }
}

/// The type that a stored link leads to.
fn target_at(info: Option<&PtrInfo>) -> Option<TypeId>
    ensures { result ≡ rule.target_at (option_copied info.entry) }
{
    match info {
        Some(info) => match &info.body {
            Body::Stored(Ty::Object(ty)) => Some(*ty),
            Body::Stored(Ty::Scalar(_) | Ty::Tuple(_) | Ty::Array(_)) | Body::Computed => None,
        },
        None => None,
    }
}

/// A pointer with the type that it leads to, if it is a stored link.
fn as_link(schema: &Schema, pointer: Option<PtrId>) -> Option<(PtrId, TypeId)>
    ensures { result ≡ rule.as_link schema.now pointer }
{
    let pointer = pointer?;
    let target = target_at(at(schema.pointers(), pointer.0 as usize))?;
    Some((pointer, target))
}

/// Whether a type is one of objects that are of a type or can be.
fn is_related(schema: &Schema, target: TypeId, ty: &Ty) -> bool
    ensures { result ≡ rule.is_related schema.now target ty.now }
{
    match ty {
        Ty::Object(ty) => related(schema, *ty, target),
        Ty::Scalar(_) | Ty::Tuple(_) | Ty::Array(_) => false,
    }
}

/// The link that a step takes.
fn link_of(step: &Step) -> Option<PtrId>
    ensures { result ≡ link_of_step step.now }
{
    match step {
        Step::Link(pointer) => Some(*pointer),
        Step::Dot(_)
        | Step::BackDot(..)
        | Step::Prop(_)
        | Step::Comp(_)
        | Step::Back(..)
        | Step::Is(_)
        | Step::LinkProp(_) => None,
    }
}

/// Where a step stands that has so many behind it.
fn place_of(start: u32, places: &[u32], behind: usize) -> u32
    ensures { result ≡ rule.place_of start places.now behind }
{
    if behind < places.len() {
        places[places.len() - (behind + 1)]
    } else {
        start
    }
}

/// The rule that is told where no type is behind a step.
fn unsuited(step: &Step) -> TypeRule
    ensures { result ≡ rule.unsuited step.now }
{
    match step {
        Step::LinkProp(_) => TypeRule::N2,
        Step::Dot(_)
        | Step::BackDot(..)
        | Step::Prop(_)
        | Step::Link(_)
        | Step::Comp(_)
        | Step::Back(..)
        | Step::Is(_) => TypeRule::T5,
    }
}

/// `.name`
#[tactic(auto, unfolding(crate::specs::Steps::dot))]
fn dot(index: &Index, from: &Ty, name: &Text, place: u32) -> Result<Step, TypeRefusal>
    ensures { Answers (tells (rule.dot index.now from.now name.now place tt)) result tt }
{
    let Ty::Object(ty) = from else {
        return Err(TypeRefusal::Rule(TypeRule::T5, place));
    };
    let Some(pointer) = index.pointer(*ty, name) else {
        return Err(TypeRefusal::Rule(TypeRule::N2, place));
    };
    let info = at(index.schema().pointers(), pointer.0 as usize);
    match step_of(pointer, info, index.computed(pointer)) {
        Some(step) => Ok(step),
        None => Err(TypeRefusal::Needs(pointer)),
    }
}

/// `.<name[is T]`
#[tactic(auto, unfolding(crate::specs::Steps::back))]
fn back(
    index: &Index,
    from: &Ty,
    name: &Text,
    source: TypeId,
    place: u32,
) -> Result<Step, TypeRefusal>
    ensures { Answers (tells (rule.back index.now from.now name.now source place tt)) result tt }
{
    let schema = index.schema();
    let Some((link, target)) = as_link(schema, index.pointer(source, name)) else {
        return Err(TypeRefusal::Rule(TypeRule::N2, place));
    };
    if !is_related(schema, target, from) {
        return Err(TypeRefusal::Rule(TypeRule::T5, place));
    }
    Ok(Step::Back(link, source))
}

/// What a step stands for from values of a type.
fn looked_up(
    alloc: Global,
    index: &Index,
    from: &Ty,
    step: &Step,
    place: u32,
) -> Result<Step, TypeRefusal>
    ensures { Answers (tells (rule.looked_up index.now from.now step.now place tt)) result tt }
{
    match step {
        Step::Dot(name) => dot(index, from, name, place),
        Step::BackDot(name, source) => back(index, from, name, *source, place),
        Step::Is(narrow) => Ok(Step::Is(*narrow)),
        Step::LinkProp(name) => Ok(Step::LinkProp(name.copied(alloc)?)),
        Step::Prop(_) | Step::Link(_) | Step::Comp(_) | Step::Back(..) => {
            Err(TypeRefusal::Rule(TypeRule::T1, place))
        }
    }
}

/// One more step behind those that have types.
#[tactic(auto, unfolding(crate::specs::Steps::walk_on))]
fn walk_on(
    alloc: Global,
    index: &Index,
    done: Walked,
    step: &Step,
    place: u32,
) -> Result<Walked, TypeRefusal>
    ensures { Answers (tells (rule.walk_on index.now done step.now place tt)) result tt }
{
    let step = looked_up(alloc, index, &done.reached, step, place)?;
    let schema = index.schema();
    let Some(reached) = schema.type_after(alloc, done.link, &done.reached, &step)? else {
        return Err(TypeRefusal::Rule(unsuited(&step), place));
    };
    let link = link_of(&step);
    let mut steps = done.steps;
    steps.push(step)?;
    Ok(Walked {
        steps,
        link,
        reached,
    })
}

/// The steps of a path in turn, from values of a type: each name becomes the pointer that it stands for in the type reached
/// so far (the EdgeDB documentation's page on paths). `start` is the byte where the path begins, `occurrence.places` those
/// of its last steps. Refuses by the first step that fails, or that needs an expression that is not known yet.
pub fn walk(
    alloc: Global,
    index: &Index,
    start: u32,
    occurrence: &Occurrence,
    from: Ty,
) -> Result<Walked, TypeRefusal>
    ensures { Answers (tells (rule.walk index.now start occurrence.now.places (record { steps = []; link = None; reached = from }) occurrence.now.path.steps tt)) result tt }
{
    let steps = occurrence.path.steps.as_slice();
    let places = occurrence.places.as_slice();
    let mut done = Walked {
        steps: List::new(alloc),
        link: None,
        reached: from,
    };
    let mut behind = steps.len();
    for step in steps {
        behind -= 1;
        done = walk_on(alloc, index, done, step, place_of(start, places, behind))?;
    }
    Ok(done)
}
