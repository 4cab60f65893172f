//! The rules that concern a type, and what they come to (the EdgeDB documentation's page on access policies).
ghost use Rattle.std.specs.Prelude.{◌≡◌, ◌<◌, ◌^◌, zero, length, map, IfOk};
ghost use Rattle.std.specs.List.{list_any};
ghost use Rattle.std.specs.Option.{option_copied};
ghost use Rattle.tree_weight.specs.Capped.{brought_of, capped_sizes, no_size};
ghost use Rattle.tree_weight.specs.Rules.{heirs_below, concerns as concerns_in, is_select as is_select_in, condition_at as condition_at_of, of_condition as of_condition_in, rulings as rulings_of, alone as alone_of, rules_behind, rules_of as rules_of_in, rules_below};
ghost use Rattle.tree_weight.specs.Trees.{measured as measured_of};

use crate::ruling::Ruling;
use crate::size::Size;
use crate::weights::Weights;
use core_ir::{Carded, TypeId};
use ev_schema::{Policy, PolicyKind, Schema};
use ev_value::List;
use sqlite_items::at;
use std::alloc::{AllocError, Global};

/// The types that are a type or extend it.
fn heirs(alloc: Global, schema: &Schema, ty: TypeId) -> Result<List<TypeId>, AllocError>
    requires { length schema.now.types < 2 ^ 32 }
    ensures { IfOk result (λ l. l ≡ heirs_below schema.now.types ty (length schema.now.types)) }
{
    let mut found = List::new(alloc);
    for i in 0..schema.types().len() {
        let other = TypeId(i as u32);
        if schema.is_subtype(other, ty) {
            found.push(other)?;
        }
    }
    Ok(found)
}

/// Whether the rules that a type declares concern the type that has these heirs.
fn concerns(schema: &Schema, heirs: &[TypeId], origin: TypeId) -> bool
    ensures { result ≡ concerns_in schema.now.types heirs.now origin }
{
    for heir in heirs {
        if schema.is_subtype(*heir, origin) {
            return true;
        }
    }
    false
}

/// Whether a rule is for reading.
fn reads(kinds: &[PolicyKind]) -> bool
    ensures { result ≡ list_any is_select_in kinds.now }
{
    for kind in kinds {
        if *kind == PolicyKind::Select {
            return true;
        }
    }
    false
}

/// The condition of the rule at a place.
fn condition_at(conditions: &[Option<Carded>], place: usize) -> Option<&Carded>
    ensures { option_copied result ≡ condition_at_of conditions.now place }
{
    match at(conditions, place) {
        Some(Some(condition)) => Some(condition),
        Some(None) => None,
        None => None,
    }
}

/// What a condition comes to where its rule is for reading.
fn of_condition(plain: &Weights, reads: bool, condition: Option<&Carded>) -> Size
    ensures { result ≡ of_condition_in capped_sizes (measured_of capped_sizes (brought_of plain.now)) reads (option_copied condition.entry) }
{
    match condition {
        Some(condition) if reads => plain.measured(condition.typed.core.root.body.get()),
        Some(_) => Size::NONE,
        None => Size::NONE,
    }
}

/// Each rule above its condition, in which rules do not count.
pub fn rulings(
    alloc: Global,
    plain: &Weights,
    conditions: &[Option<Carded>],
    policies: &[Policy],
) -> Result<List<Ruling<Size>>, AllocError>
    ensures { IfOk result (λ l. l ≡ rulings_of capped_sizes (measured_of capped_sizes (brought_of plain.now)) conditions.now zero policies.now) }
{
    let mut rules = List::new(alloc);
    for (i, policy) in policies.iter().enumerate() {
        let below = of_condition(
            plain,
            reads(policy.kinds.as_slice()),
            condition_at(conditions, i),
        );
        rules.push(Ruling {
            origin: policy.origin,
            size: below.above(),
        })?;
    }
    Ok(rules)
}

/// Each rule alone.
pub fn rulings_alone(alloc: Global, policies: &[Policy]) -> Result<List<Ruling<Size>>, AllocError>
    ensures { IfOk result (λ l. l ≡ map (alone_of capped_sizes) policies.now) }
{
    let mut rules = List::new(alloc);
    for policy in policies {
        rules.push(Ruling {
            origin: policy.origin,
            size: Size::NONE.above(),
        })?;
    }
    Ok(rules)
}

/// What those of some rules come to that concern the type that has these heirs.
fn rules_together(schema: &Schema, heirs: &[TypeId], rules: &[Ruling<Size>]) -> Size
    ensures { result ≡ rules_behind capped_sizes schema.now.types heirs.now no_size rules.now }
{
    let mut total = Size::NONE;
    for rule in rules {
        if concerns(schema, heirs, rule.origin) {
            total = total.beside(rule.size);
        }
    }
    total
}

/// What the rules that concern a type come to.
fn rules_of(
    alloc: Global,
    schema: &Schema,
    rules: &[Ruling<Size>],
    ty: TypeId,
) -> Result<Size, AllocError>
    requires { length schema.now.types < 2 ^ 32 }
    ensures { IfOk result (λ s. s ≡ rules_of_in capped_sizes schema.now.types rules.now ty) }
{
    if rules.is_empty() {
        return Ok(Size::NONE);
    }
    let heirs = heirs(alloc, schema, ty)?;
    Ok(rules_together(schema, heirs.as_slice(), rules))
}

/// The same of each type.
pub fn sizes_of_types(
    alloc: Global,
    schema: &Schema,
    rules: &[Ruling<Size>],
) -> Result<List<Size>, AllocError>
    requires { length schema.now.types < 2 ^ 32 }
    ensures { IfOk result (λ l. l ≡ rules_below capped_sizes schema.now.types rules.now (length schema.now.types)) }
{
    let mut sizes = List::new(alloc);
    for i in 0..schema.types().len() {
        sizes.push(rules_of(alloc, schema, rules, TypeId(i as u32))?)?;
    }
    Ok(sizes)
}
