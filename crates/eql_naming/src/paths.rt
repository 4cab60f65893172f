//! Paths as naming makes them.
ghost use Rattle.std.specs.Prelude.{◌≡◌, ◌+◌, ◌++◌, ◌∷◌, [], IfOk, false};
ghost use Rattle.plan.specs.Plan.{tells};
ghost use Rattle.eql_naming.specs.Naming.{Answers};
ghost use Rattle.eql_naming.specs.Paths as rule;
ghost use Rattle.eql_naming.specs.Around.{entries};
ghost use Rattle.eql_naming.specs.Names.{object_of, type_meant as type_meant_of};

use crate::around::{Around, Subject, element_of, find, subject_of};
use crate::meaning::{Meant, is_module, type_meant};
use crate::refusal::{NameRefusal, NameRule};
use ast::QualifiedName;
use core_ir::{Expr, Misfit, Occurrence, Path, Root, Scope, Step, copied_steps};
use ev_index::Index;
use ev_value::{Boxed, List, Text};
use std::alloc::{AllocError, Global};

/// The next fresh number.
pub fn next(fresh: &mut u32) -> Result<u32, AllocError>
    ensures { IfOk result (λ k. (k ≡ fresh.old) × (fresh.new ≡ fresh.old + 1)) }
{
    let number = *fresh;
    *fresh = number.checked_add(1).ok_or(AllocError)?;
    Ok(number)
}

/// An expression whose paths are bound for themselves, from the first byte of its text on.
pub fn scope_at(alloc: Global, start: u32, body: Expr) -> Result<Scope, AllocError>
    ensures { IfOk result (λ s. s ≡ rule.scope_at start body) }
{
    let body = Boxed::new(alloc, body)?;
    Ok(Scope {
        start,
        ty: None,
        body,
    })
}

/// A path with one more step, which stands at a byte.
pub fn stepped(o: Occurrence, step: Step, place: u32) -> Result<Occurrence, AllocError>
    ensures { IfOk result (λ p. p ≡ rule.stepped o step place) }
{
    let Occurrence {
        name,
        path: Path { root, steps },
        places,
    } = o;
    let mut steps = steps;
    let mut places = places;
    steps.push(step)?;
    places.push(place)?;
    Ok(Occurrence {
        name,
        path: Path { root, steps },
        places,
    })
}

/// The path of a subject, with no steps of its own text.
pub fn occurrence_of(alloc: Global, subject: &Subject) -> Result<Occurrence, AllocError>
    ensures { IfOk result (λ o. o ≡ rule.occurrence_of subject.now) }
{
    let name = subject.name.copied(alloc)?;
    let path = subject.path.copied(alloc)?;
    Ok(Occurrence {
        name,
        path,
        places: List::new(alloc),
    })
}

fn subject_on(alloc: Global, o: &Occurrence) -> Result<Subject, AllocError>
    ensures { IfOk result (λ s. s ≡ record { name = o.now.name; path = o.now.path; of_element = false }) }
{
    let name = o.name.copied(alloc)?;
    let path = o.path.copied(alloc)?;
    Ok(Subject {
        name,
        path,
        of_element: false,
    })
}

/// A root of its own as a subject.
pub fn own_subject(alloc: Global, number: u32) -> Result<Subject, AllocError>
    ensures { IfOk result (λ s. s ≡ rule.own_subject number) }
{
    let name = Text::from_str(alloc, "_")?;
    Ok(Subject {
        name,
        path: Path {
            root: Root::Subject(number),
            steps: List::new(alloc),
        },
        of_element: false,
    })
}

/// The subject that an expression gives to what stands behind it: its path, through a shape too, or else a root of its own.
#[tactic(auto, using(crate::proofs::Subjects::at_base, crate::proofs::Subjects::at_shape))]
pub fn subject_at(alloc: Global, x: &Expr, number: u32) -> Result<Subject, AllocError>
    ensures { IfOk result (λ s. s ≡ rule.subject_at x.now number) }
{
    match x {
        Expr::Path(_, o) => subject_on(alloc, o),
        Expr::OnBase(_, _, o) => subject_on(alloc, o),
        Expr::Shaped(_, base, _, _, _) => subject_at(alloc, base.get(), number),
        _ => own_subject(alloc, number),
    }
}

/// The subject of what stands behind an expression, under the next fresh number.
pub fn next_subject(alloc: Global, x: &Expr, fresh: &mut u32) -> Result<Subject, AllocError>
    ensures { IfOk result (λ s. (s ≡ rule.subject_at x.now fresh.old) × (fresh.new ≡ fresh.old + 1)) }
{
    let number = next(fresh)?;
    subject_at(alloc, x, number)
}

/// The subject of an element `p: {..}`.
pub fn element_subject(alloc: Global, subject: &Subject, name: &Text) -> Result<Subject, AllocError>
    ensures { IfOk result (λ s. s ≡ rule.element_subject subject.now name.now) }
{
    let root_name = subject.name.copied(alloc)?;
    let mut steps = copied_steps(alloc, subject.path.steps.as_slice())?;
    steps.push(Step::Dot(name.copied(alloc)?))?;
    Ok(Subject {
        name: root_name,
        path: Path {
            root: subject.path.root,
            steps,
        },
        of_element: true,
    })
}

fn new_base(
    alloc: Global,
    start: u32,
    from: u32,
    step: Step,
    place: u32,
    base: Expr,
    number: u32,
) -> Result<Expr, AllocError>
    ensures { IfOk result (λ x. x ≡ rule.on_new_base start from step place base number) }
{
    let name = Text::from_str(alloc, "_")?;
    let scope = scope_at(alloc, from, base)?;
    let mut steps = List::new(alloc);
    steps.push(step)?;
    let mut places = List::new(alloc);
    places.push(place)?;
    let path = Path {
        root: Root::Base(number),
        steps,
    };
    Ok(Expr::OnBase(start, scope, Occurrence { name, path, places }))
}

/// A step behind an expression: a path goes on, and of any other expression a new base begins.
#[tactic(auto, unfolding(crate::specs::Paths::step_behind), using(crate::proofs::Subjects::behind_base))]
pub fn step_behind(
    alloc: Global,
    base: Expr,
    start: u32,
    from: u32,
    step: Step,
    place: u32,
    fresh: &mut u32,
) -> Result<Expr, NameRefusal>
    ensures { Answers (tells (rule.step_behind start from step place base fresh.old)) result fresh.new }
{
    match base {
        Expr::Path(_, o) => Ok(Expr::Path(start, stepped(o, step, place)?)),
        Expr::OnBase(_, scope, o) => Ok(Expr::OnBase(start, scope, stepped(o, step, place)?)),
        other => {
            let number = next(fresh)?;
            Ok(new_base(alloc, start, from, step, place, other, number)?)
        }
    }
}

fn root_path(alloc: Global, start: u32, name: &Text, root: Root) -> Result<Expr, AllocError>
    ensures { IfOk result (λ x. x ≡ rule.root_path start name.now root) }
{
    let name = name.copied(alloc)?;
    let path = Path {
        root,
        steps: List::new(alloc),
    };
    let places = List::new(alloc);
    Ok(Expr::Path(start, Occurrence { name, path, places }))
}

// The objects of the type that a name means.
fn extent_named(index: &Index<'_>, name: &QualifiedName) -> Option<Root>
    ensures { result ≡ rule.extent_of (object_of (type_meant_of index.now name.now)) }
{
    match type_meant(index, name) {
        Some(Meant::Object(ty)) => Some(Root::Extent(ty)),
        _ => None,
    }
}

// What a name alone stands for.
fn root_named(index: &Index<'_>, around: &Around<'_>, name: &QualifiedName) -> Option<Root>
    ensures { result ≡ rule.root_in index.now (entries around.now) name.now.module name.now }
{
    match &name.module {
        None => match find(around, &name.name.text) {
            Some(root) => Some(root),
            None => extent_named(index, name),
        },
        Some(_) => extent_named(index, name),
    }
}

/// A name alone.
#[tactic(auto, unfolding(crate::specs::Paths::name))]
pub fn name(
    alloc: Global,
    index: &Index<'_>,
    start: u32,
    name: &QualifiedName,
    around: &Around<'_>,
    fresh: &mut u32,
) -> Result<Expr, NameRefusal>
    ensures { Answers (tells (rule.name index.now (entries around.now) start name.now fresh.old)) result fresh.new }
{
    if !is_module(&name.module) {
        return Err(NameRefusal::Rule(NameRule::N7, name.start()));
    }
    let Some(root) = root_named(index, around, name) else {
        return Err(NameRefusal::Rule(NameRule::N1, name.start()));
    };
    Ok(root_path(alloc, start, &name.name.text, root)?)
}

/// A step from the subject.
pub fn step_from(
    alloc: Global,
    subject: &Subject,
    start: u32,
    step: Step,
) -> Result<Expr, AllocError>
    ensures { IfOk result (λ x. x ≡ rule.step_from subject.now start step) }
{
    let o = occurrence_of(alloc, subject)?;
    Ok(Expr::Path(start, stepped(o, step, start)?))
}

/// `.name`: a step from the subject.
#[tactic(auto, unfolding(crate::specs::Paths::partial_step))]
pub fn partial_step(
    alloc: Global,
    start: u32,
    name: &Text,
    around: &Around<'_>,
    fresh: &mut u32,
) -> Result<Expr, NameRefusal>
    ensures { Answers (tells (rule.partial_step (entries around.now) start name.now fresh.old)) result fresh.new }
{
    let Some(subject) = subject_of(around) else {
        return Err(NameRefusal::Rule(NameRule::N4, start));
    };
    let step = Step::Dot(name.copied(alloc)?);
    Ok(step_from(alloc, subject, start, step)?)
}

/// `.<name` that no `[is T]` follows.
#[tactic(auto, unfolding(crate::specs::Paths::partial_back_link))]
pub fn partial_back_link(
    start: u32,
    around: &Around<'_>,
    fresh: &mut u32,
) -> Result<Expr, NameRefusal>
    ensures { Answers (tells (rule.partial_back_link (entries around.now) start fresh.old)) result fresh.new }
{
    match subject_of(around) {
        Some(_) => Err(NameRefusal::Rule(NameRule::P3, start)),
        None => Err(NameRefusal::Rule(NameRule::N4, start)),
    }
}

/// `@name`: a link property of the element round it.
#[tactic(auto, unfolding(crate::specs::Paths::partial_property))]
pub fn partial_property(
    alloc: Global,
    start: u32,
    name: &Text,
    around: &Around<'_>,
    fresh: &mut u32,
) -> Result<Expr, NameRefusal>
    ensures { Answers (tells (rule.partial_property (entries around.now) start name.now fresh.old)) result fresh.new }
{
    let Some(subject) = element_of(around) else {
        return Err(NameRefusal::Rule(NameRule::P1, start));
    };
    let step = Step::LinkProp(name.copied(alloc)?);
    Ok(step_from(alloc, subject, start, step)?)
}

/// The type that a name means, in a cast or in `[is T]`.
#[tactic(auto, unfolding(crate::specs::Paths::type_of))]
pub fn type_of(
    index: &Index<'_>,
    name: &QualifiedName,
    fresh: &mut u32,
) -> Result<Meant, NameRefusal>
    ensures { Answers (tells (rule.type_of index.now name.now fresh.old)) result fresh.new }
{
    if !is_module(&name.module) {
        return Err(NameRefusal::Rule(NameRule::N7, name.start()));
    }
    match type_meant(index, name) {
        Some(meant) => Ok(meant),
        None => Err(NameRefusal::Rule(NameRule::N3, name.start())),
    }
}

// What types refuse behind one part.
fn unfit(
    alloc: Global,
    start: u32,
    misfit: Misfit,
    place: u32,
    part: Expr,
) -> Result<Expr, AllocError>
    ensures { IfOk result (λ x. x ≡ rule.unfit start misfit place part) }
{
    let mut parts = List::new(alloc);
    parts.push(part)?;
    Ok(Expr::Unfit(start, misfit, place, parts))
}

/// `[is T]` behind an expression that is no back link, over the meaning of `T`.
pub fn narrowed_to(
    alloc: Global,
    base: Expr,
    start: u32,
    from: u32,
    place: u32,
    meant: Meant,
    fresh: &mut u32,
) -> Result<Expr, NameRefusal>
    ensures { Answers (tells (rule.narrowed_to start from place base meant fresh.old)) result fresh.new }
{
    match meant {
        Meant::Object(ty) => step_behind(alloc, base, start, from, Step::Is(ty), place, fresh),
        Meant::Scalar(_) => Ok(unfit(alloc, start, Misfit::ScalarNarrowing, place, base)?),
    }
}

/// A back link behind an expression, over the meaning of the `T` of its `[is T]`.
pub fn linked_to(
    alloc: Global,
    base: Expr,
    start: u32,
    from: u32,
    name: &Text,
    place: u32,
    meant: Meant,
    fresh: &mut u32,
) -> Result<Expr, NameRefusal>
    ensures { Answers (tells (rule.linked_to start from name.now place base meant fresh.old)) result fresh.new }
{
    match meant {
        Meant::Object(ty) => {
            let step = Step::BackDot(name.copied(alloc)?, ty);
            step_behind(alloc, base, start, from, step, place, fresh)
        }
        Meant::Scalar(_) => Ok(unfit(alloc, start, Misfit::ScalarBackLink, place, base)?),
    }
}

/// A back link from the subject and the `[is T]` that follows it.
#[tactic(auto, unfolding(crate::specs::Paths::partial_linked))]
pub fn partial_linked(
    alloc: Global,
    index: &Index<'_>,
    start: u32,
    name: &Text,
    place: u32,
    ty: &QualifiedName,
    around: &Around<'_>,
    fresh: &mut u32,
) -> Result<Expr, NameRefusal>
    ensures { Answers (tells (rule.partial_linked index.now (entries around.now) start name.now place ty.now fresh.old)) result fresh.new }
{
    let Some(subject) = subject_of(around) else {
        return Err(NameRefusal::Rule(NameRule::N4, place));
    };
    let meant = type_of(index, ty, fresh)?;
    let o = occurrence_of(alloc, subject)?;
    let base = Expr::Path(place, o);
    linked_to(alloc, base, start, place, name, place, meant, fresh)
}
