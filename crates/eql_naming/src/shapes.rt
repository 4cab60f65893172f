//! Elements of shapes over their values.
ghost use Rattle.std.specs.Prelude.{◌≡◌, ◌++◌, ◌∷◌, [], IfOk, None};
ghost use Rattle.plan.specs.Plan.{tells};
ghost use Rattle.eql_naming.specs.Around.{entries};
ghost use Rattle.eql_naming.specs.Naming.{Answers};
ghost use Rattle.core_ir.specs.declared.path.Step.TheVariants as step;
ghost use Rattle.eql_naming.specs.Paths.{step_from as rule_step_from};
ghost use Rattle.eql_naming.specs.Shapes as rule;

use crate::around::{Around, Subject, element_of, subject_of};
use crate::clauses::{Clauses, Elements};
use crate::paths::{scope_at, step_from};
use crate::refusal::{NameRefusal, NameRule};
use crate::statements::selected;
use core_ir::{Element, Expr, Need, Scope, Step, Width};
use ev_names::Names;
use ev_value::{Boxed, List, Text};
use std::alloc::{AllocError, Global};

/// An element with a value, after elements of these keys.
#[tactic(auto, unfolding(crate::specs::Shapes::kept))]
pub fn kept(
    keys: &Names,
    start: u32,
    key: Text,
    need: Option<Need>,
    width: Option<Width>,
    value: Scope,
    fresh: &mut u32,
) -> Result<Element, NameRefusal>
    ensures { Answers (tells (rule.kept keys.now start key need width value fresh.old)) result fresh.new }
{
    if keys.has(&key) {
        return Err(NameRefusal::Rule(NameRule::N6, start));
    }
    Ok(Element {
        start,
        name: key,
        need,
        width,
        ty: None,
        card: None,
        value,
    })
}

#[tactic(auto, unfolding(crate::specs::Shapes::pointer))]
fn pointer(
    alloc: Global,
    start: u32,
    name: &Text,
    around: &Around<'_>,
    fresh: &mut u32,
) -> Result<Scope, NameRefusal>
    ensures { Answers (tells (rule.pointer (entries around.now) start name.now fresh.old)) result fresh.new }
{
    let Some(subject) = subject_of(around) else {
        return Err(NameRefusal::Rule(NameRule::N4, start));
    };
    let step = Step::Dot(name.copied(alloc)?);
    let path = step_from(alloc, subject, start, step)?;
    Ok(scope_at(alloc, start, path)?)
}

#[tactic(auto, unfolding(crate::specs::Shapes::property))]
fn property(
    alloc: Global,
    start: u32,
    name: &Text,
    around: &Around<'_>,
    fresh: &mut u32,
) -> Result<Scope, NameRefusal>
    ensures { Answers (tells (rule.property (entries around.now) start name.now fresh.old)) result fresh.new }
{
    let Some(subject) = element_of(around) else {
        return Err(NameRefusal::Rule(NameRule::P1, start));
    };
    let step = Step::LinkProp(name.copied(alloc)?);
    let path = step_from(alloc, subject, start, step)?;
    Ok(scope_at(alloc, start, path)?)
}

/// `p`: the path to a pointer.
#[tactic(auto, unfolding(crate::specs::Shapes::element))]
pub fn pointer_element(
    alloc: Global,
    start: u32,
    name: &Text,
    keys: &Names,
    around: &Around<'_>,
    fresh: &mut u32,
) -> Result<Element, NameRefusal>
    ensures { Answers (tells (rule.element keys.now start name.now None None (rule.pointer (entries around.now) start name.now) fresh.old)) result fresh.new }
{
    let value = pointer(alloc, start, name, around, fresh)?;
    let key = name.copied(alloc)?;
    kept(keys, start, key, None, None, value, fresh)
}

// The key of a link property in the answer.
fn property_key(alloc: Global, name: &Text) -> Result<Text, AllocError>
    ensures { IfOk result (λ key. key ≡ rule.property_key name.now) }
{
    Text::from_str(alloc, "@")?.joined(name)
}

/// `@p`: a link property.
#[tactic(auto, unfolding(crate::specs::Shapes::element))]
pub fn property_element(
    alloc: Global,
    start: u32,
    name: &Text,
    keys: &Names,
    around: &Around<'_>,
    fresh: &mut u32,
) -> Result<Element, NameRefusal>
    ensures { Answers (tells (rule.element keys.now start (rule.property_key name.now) None None (rule.property (entries around.now) start name.now) fresh.old)) result fresh.new }
{
    let value = property(alloc, start, name, around, fresh)?;
    let key = property_key(alloc, name)?;
    kept(keys, start, key, None, None, value, fresh)
}

/// The select of an element `p: {..}`, over the path to the pointer.
pub fn nested_scope(
    alloc: Global,
    start: u32,
    path: Expr,
    shape_number: u32,
    elements: List<Element>,
    number: u32,
    clauses: Clauses,
) -> Result<Scope, AllocError>
    ensures { IfOk result (λ s. s ≡ rule.nested_scope start path shape_number elements number clauses) }
{
    let path = Boxed::new(alloc, path)?;
    let shaped = Expr::Shaped(start, path, None, shape_number, elements);
    let select = selected(alloc, start, List::new(alloc), shaped, number, clauses)?;
    scope_at(alloc, start, select)
}

/// A shape of these elements, which stands only where a result does.
#[tactic(auto, unfolding(crate::specs::Shapes::shape_made))]
pub fn shape_made(
    alloc: Global,
    start: u32,
    in_result: bool,
    brace: u32,
    x: Expr,
    number: u32,
    elements: List<Element>,
    fresh: &mut u32,
) -> Result<Expr, NameRefusal>
    ensures { Answers (tells (rule.shape_made start in_result brace x number elements fresh.old)) result fresh.new }
{
    if !in_result {
        return Err(NameRefusal::Rule(NameRule::P2, brace));
    }
    let x = Boxed::new(alloc, x)?;
    Ok(Expr::Shaped(start, x, None, number, elements))
}

/// No elements.
pub fn no_elements(alloc: Global) -> Elements
    ensures keys { result.keys ≡ [] }
    ensures list { result.list ≡ [] }
{
    Elements {
        keys: Names::new(alloc),
        list: List::new(alloc),
    }
}

/// One more element.
pub fn with_element(alloc: Global, elements: Elements, x: Element) -> Result<Elements, AllocError>
    ensures { IfOk result (λ e. (e.keys ≡ elements.keys ++ x.name ∷ []) × (e.list ≡ elements.list ++ x ∷ [])) }
{
    let Elements { keys, list } = elements;
    let mut keys = keys;
    let mut list = list;
    keys.add(alloc, &x.name)?;
    list.push(x)?;
    Ok(Elements { keys, list })
}

/// The select of an element `p: {..}`, over the subject round it.
pub fn nested_made(
    alloc: Global,
    start: u32,
    outer: &Subject,
    name: &Text,
    shape_number: u32,
    elements: List<Element>,
    number: u32,
    clauses: Clauses,
) -> Result<Scope, AllocError>
    ensures { IfOk result (λ s. s ≡ rule.nested_scope start (rule_step_from outer.now start (step.Dot name.now)) shape_number elements number clauses) }
{
    let step = Step::Dot(name.copied(alloc)?);
    let path = step_from(alloc, outer, start, step)?;
    nested_scope(alloc, start, path, shape_number, elements, number, clauses)
}
