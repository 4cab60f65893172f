//! What fails in an object, at the least name.
ghost use Rattle.std.specs.Prelude.{◌≡◌, ◌<◌, ◌^◌, length, slice_get, IfOk, Some, None};
ghost use Rattle.std.specs.Option.{option_copied};
ghost use Rattle.db_store.specs.Fits.{text_before, name_of};
ghost use Rattle.db_values.specs.Names.{is_stored as is_stored_body, is_unknown_key as is_unknown_key_in, lesser as lesser_of, least_unknown as least_unknown_in, scalar_flaw as scalar_flaw_of, array_flaw as array_flaw_of, target_flaw as target_flaw_of, pointer_flaw as pointer_flaw_of, flaw_if_known, first_flawed as first_flawed_of, sooner as sooner_of, object_flaw as object_flaw_of};

use crate::elements::{elements, form_flaw};
use crate::flaw::{Flaw, Flawed};
use crate::links::{alone, link_flaw};
use crate::properties::property_flaw;
use core_ir::{PtrId, Ty, TypeId};
use db_draft::{Draft, Element, Member, Rule, member};
use db_ids::Heads;
use ev_schema::{Body, PtrInfo, Schema};
use ev_value::{ScalarTy, Text};
use sqlite_items::at;
use std::alloc::{AllocError, Global};

fn is_stored(body: &Body) -> bool
    ensures { result ≡ is_stored_body body.now }
{
    match body {
        Body::Stored(_) => true,
        Body::Computed => false,
    }
}

/// Whether a key names no stored pointer of a type.
fn is_unknown_key(schema: &Schema, ty: TypeId, key: &Text) -> bool
    requires some { 0 < length schema.now.pointers }
    requires few { length schema.now.pointers < 2 ^ 32 }
    ensures { result ≡ is_unknown_key_in schema.now ty key.now }
{
    match schema.pointer(ty, key.as_str()) {
        Some(pointer) => match at(schema.pointers(), pointer.0 as usize) {
            Some(info) => !is_stored(&info.body),
            None => true,
        },
        None => true,
    }
}

/// The lesser of two keys, in byte order.
fn lesser<'a>(found: Option<&'a Text>, key: &'a Text) -> &'a Text
    ensures { Some result.now ≡ lesser_of (option_copied found.entry) key.now }
{
    match found {
        Some(least) => {
            if key.as_str() < least.as_str() {
                key
            } else {
                least
            }
        }
        None => key,
    }
}

/// The least of some keys that name no stored pointer.
fn least_unknown<'a>(schema: &Schema, ty: TypeId, members: &'a [Member]) -> Option<&'a Text>
    requires some { 0 < length schema.now.pointers }
    requires few { length schema.now.pointers < 2 ^ 32 }
    ensures { option_copied result ≡ least_unknown_in schema.now ty None members.now }
{
    let mut found = None;
    for member in members {
        if is_unknown_key(schema, ty, &member.name) {
            found = Some(lesser(found, &member.name));
        }
    }
    found
}

fn scalar_flaw(
    alloc: Global,
    info: &PtrInfo,
    ty: ScalarTy,
    draft: Option<&Draft>,
) -> Result<Option<Flaw>, AllocError>
    ensures { IfOk result (λ f. f ≡ scalar_flaw_of info.now ty (option_copied draft.entry)) }
{
    if let Some(rule) = form_flaw(info.card.is_many(), draft) {
        return Ok(Some(alone(rule)));
    }
    match property_flaw(alloc, info, ty, elements(draft))? {
        Some(rule) => Ok(Some(alone(rule))),
        None => Ok(None),
    }
}

fn target_flaw(
    alloc: Global,
    schema: &Schema,
    heads: &Heads,
    info: &PtrInfo,
    ty: TypeId,
    draft: Option<&Draft>,
) -> Result<Option<Flaw>, AllocError>
    ensures { IfOk result (λ f. f ≡ target_flaw_of schema.now.types heads.now info.now ty (option_copied draft.entry)) }
{
    if let Some(rule) = form_flaw(info.card.is_many(), draft) {
        return Ok(Some(alone(rule)));
    }
    link_flaw(alloc, schema, heads, info, ty, elements(draft))
}

/// What fails where this stands for a pointer of an array type.
fn array_flaw(elements: &[Element]) -> Option<Flaw>
    ensures { result ≡ array_flaw_of elements.now }
{
    match elements {
        [] => None,
        [_, ..] => Some(alone(Rule::X7)),
    }
}

/// What fails at a pointer, for which this stands.
fn pointer_flaw(
    alloc: Global,
    schema: &Schema,
    heads: &Heads,
    info: &PtrInfo,
    draft: Option<&Draft>,
) -> Result<Option<Flaw>, AllocError>
    ensures { IfOk result (λ f. f ≡ pointer_flaw_of schema.now.types heads.now info.now info.now.body (option_copied draft.entry)) }
{
    match &info.body {
        Body::Stored(Ty::Scalar(ty)) => scalar_flaw(alloc, info, *ty, draft),
        Body::Stored(Ty::Object(ty)) => target_flaw(alloc, schema, heads, info, *ty, draft),
        Body::Stored(Ty::Tuple(_)) => Ok(None),
        Body::Stored(Ty::Array(_)) => Ok(array_flaw(elements(draft))),
        Body::Computed => Ok(None),
    }
}

fn flaw_at(
    alloc: Global,
    schema: &Schema,
    heads: &Heads,
    members: &[Member],
    pointer: PtrId,
) -> Result<Option<Flawed>, AllocError>
    ensures { IfOk result (λ f. f ≡ flaw_if_known schema.now.types heads.now members.now pointer (slice_get schema.now.pointers pointer.0)) }
{
    let Some(info) = at(schema.pointers(), pointer.0 as usize) else {
        return Ok(None);
    };
    let draft = member(members, info.name.as_str());
    match pointer_flaw(alloc, schema, heads, info, draft)? {
        Some(flaw) => Ok(Some(Flawed { pointer, flaw })),
        None => Ok(None),
    }
}

/// The first of some pointers at which something fails.
fn first_flawed(
    alloc: Global,
    schema: &Schema,
    heads: &Heads,
    members: &[Member],
    listed: &[PtrId],
) -> Result<Option<Flawed>, AllocError>
    ensures { IfOk result (λ f. f ≡ first_flawed_of schema.now.types heads.now schema.now.pointers members.now listed.now) }
{
    for pointer in listed {
        if let Some(flawed) = flaw_at(alloc, schema, heads, members, *pointer)? {
            return Ok(Some(flawed));
        }
    }
    Ok(None)
}

/// Whether a pointer's name stands before a key, in byte order. A pointer that is not there has the empty name.
fn is_before(infos: &[PtrInfo], pointer: PtrId, key: &Text) -> bool
    ensures { result ≡ text_before (name_of (slice_get infos.now pointer.0)) key.now }
{
    match at(infos, pointer.0 as usize) {
        Some(info) => info.name.as_str() < key.as_str(),
        None => "" < key.as_str(),
    }
}

/// The flaw at the least name.
fn sooner(infos: &[PtrInfo], unknown: Option<&Text>, flawed: Option<Flawed>) -> Option<Flaw>
    ensures { result ≡ sooner_of infos.now (option_copied unknown.entry) flawed }
{
    match (unknown, flawed) {
        (None, None) => None,
        (None, Some(flawed)) => Some(flawed.flaw),
        (Some(_), None) => Some(alone(Rule::X6)),
        (Some(key), Some(flawed)) => {
            if is_before(infos, flawed.pointer, key) {
                Some(flawed.flaw)
            } else {
                Some(alone(Rule::X6))
            }
        }
    }
}

/// What fails in an object of a type, whose pointers are given in byte order of their names: the first of the rules that
/// fails at the least name at which one does.
pub fn object_flaw(
    alloc: Global,
    schema: &Schema,
    heads: &Heads,
    ty: TypeId,
    listed: &[PtrId],
    members: &[Member],
) -> Result<Option<Flaw>, AllocError>
    requires some { 0 < length schema.now.pointers }
    requires few { length schema.now.pointers < 2 ^ 32 }
    ensures { IfOk result (λ f. f ≡ object_flaw_of schema.now heads.now ty listed.now members.now) }
{
    let unknown = least_unknown(schema, ty, members);
    let flawed = first_flawed(alloc, schema, heads, members, listed)?;
    Ok(sooner(schema.pointers(), unknown, flawed))
}
