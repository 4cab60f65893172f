//! Types that extend others, and the rules that hold for them.
ghost use Rattle.std.specs.Prelude.{◌≡◌, ◌<◌, ◌^◌, ◌∷◌, [], zero, length, slice_get, IfOk};
ghost use Rattle.std.specs.List.{list_any};
ghost use Rattle.std.specs.Option.{option_copied};
ghost use Rattle.ev_schema.specs.Types.{is_subtype as is_subtype_in, same_type, ancestors as ancestors_in};
ghost use Rattle.ev_schema.specs.Policies.{rules_of as rules_of_in, has_rules as has_rules_in, governed_below, named_rules as named_rules_in, name_if_known, by_name as by_name_order};

use crate::named::BY_NAME;
use crate::policy::Policy;
use crate::types::TypeInfo;
use core_ir::TypeId;
use ev_list::{Keyed, in_order, keyless};
use ev_value::{List, Val};
use std::alloc::{AllocError, Global};

/// Whether a type is among some.
fn is_among(ty: TypeId, types: &[TypeId]) -> bool
    ensures { result ≡ list_any (same_type ty) types.now }
{
    for other in types {
        if ty.0 == other.0 {
            return true;
        }
    }
    false
}

/// The types that a type extends.
fn ancestors(types: &[TypeInfo], ty: TypeId) -> &[TypeId]
    ensures { result.now ≡ ancestors_in types.now ty }
{
    match types.get(ty.0 as usize) {
        Some(info) => info.ancestors.as_slice(),
        None => &[],
    }
}

/// Whether a type is the other one, or extends it.
pub fn is_subtype(types: &[TypeInfo], ty: TypeId, of: TypeId) -> bool
    ensures { result ≡ is_subtype_in types.now ty of }
{
    ty.0 == of.0 || is_among(of, ancestors(types, ty))
}

/// The name of a type, if there is such a type.
fn name_of(alloc: Global, types: &[TypeInfo], ty: TypeId) -> Result<Option<Val>, AllocError>
    ensures { IfOk result (λ v. v ≡ name_if_known (slice_get types.now ty.0)) }
{
    match types.get(ty.0 as usize) {
        Some(info) => Ok(Some(Val::Str(info.name.copied(alloc)?))),
        None => Ok(None),
    }
}

/// A number with the name of a type as its key.
fn named(
    alloc: Global,
    types: &[TypeInfo],
    ty: TypeId,
    value: usize,
) -> Result<Keyed<usize>, AllocError>
    ensures { IfOk result (λ k. k ≡ record { keys = name_if_known (slice_get types.now ty.0) ∷ []; value = value }) }
{
    let mut keys = List::new(alloc);
    keys.push(name_of(alloc, types, ty)?)?;
    Ok(Keyed { keys, value })
}

/// The rules that hold for a type in the order of the text, each with the name of the type that declares it.
fn named_rules(
    alloc: Global,
    types: &[TypeInfo],
    policies: &[Policy],
    ty: TypeId,
) -> Result<List<Keyed<usize>>, AllocError>
    ensures { IfOk result (λ l. l ≡ named_rules_in types.now ty zero policies.now) }
{
    let mut rules = List::new(alloc);
    for (i, policy) in policies.iter().enumerate() {
        if is_subtype(types, ty, policy.origin) {
            rules.push(named(alloc, types, policy.origin, i)?)?;
        }
    }
    Ok(rules)
}

/// The numbers of the rules that hold for a type.
pub fn rules_of(
    alloc: Global,
    types: &[TypeInfo],
    policies: &[Policy],
    ty: TypeId,
) -> Result<List<usize>, AllocError>
    ensures { IfOk result (λ l. l ≡ rules_of_in types.now policies.now ty) }
{
    let rules = named_rules(alloc, types, policies, ty)?;
    keyless(alloc, in_order(alloc, &[BY_NAME], rules)?)
}

/// Whether some rule holds for a type.
fn has_rules(types: &[TypeInfo], policies: &[Policy], ty: TypeId) -> bool
    ensures { result ≡ has_rules_in types.now policies.now ty }
{
    for policy in policies {
        if is_subtype(types, ty, policy.origin) {
            return true;
        }
    }
    false
}

/// Whether rules hold for a type or for one that extends it.
pub fn is_governed(types: &[TypeInfo], policies: &[Policy], ty: TypeId) -> bool
    requires { length types.now < 2 ^ 32 }
    ensures { result ≡ governed_below types.now policies.now ty (length types.now) }
{
    let mut governed = false;
    for i in 0..types.len() {
        let other = TypeId(i as u32);
        governed = (is_subtype(types, other, ty) && has_rules(types, policies, other)) || governed;
    }
    governed
}
