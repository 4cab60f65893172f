//! The schema as a whole.
ghost use Rattle.std.specs.Prelude.{◌≡◌, ◌<◌, ◌^◌, ◌++◌, ◌∷◌, [], length, codes, slice_get, option_map, IfOk, OnOk, OnErr, Some, None};
ghost use Rattle.std.specs.Option.{option_copied};
ghost use Rattle.core_ir.specs.Card.{card_with, most};
ghost use Rattle.ev_schema.specs.Facts.{made_of, id_info, with_conditions as with_conditions_of, with_computed, bounded as bounded_of};
ghost use Rattle.ev_schema.specs.Named.{type_named as type_named_in, pointers_in_order as pointers_in_order_of};
ghost use Rattle.ev_schema.specs.Types.{is_subtype as is_subtype_in, listed_pointers as listed_pointers_in};
ghost use Rattle.ev_schema.specs.Policies.{rules_of as rules_of_in};
ghost use Rattle.ev_schema.specs.Pointers.{pointer_named, first_named, id_named, id_pointer, is_id as is_id_in, has_name as has_name_of, computed_among, weakened as weakened_of, target_of as target_of_body};

use crate::named::{pointers_in_order, type_named};
use crate::pointer::{Body, Computed, Limit, PtrInfo};
use crate::policy::Policy;
use crate::rules::{is_governed, is_subtype, rules_of};
use crate::types::{GlobalInfo, TypeInfo};
use core_ir::{Card, Carded, PtrId, Ty, TypeId};
use ev_value::{List, ScalarTy, Text};
use sqlite_items::at;
use std::alloc::{AllocError, Global};

/// What a schema says. Types, pointers and rules are named by their places in these lists.
#[derive(Drop)]
pub struct Schema {
    types: List<TypeInfo>,
    // The last is `id`, which every type has.
    pointers: List<PtrInfo>,
    globals: List<GlobalInfo>,
    policies: List<Policy>,
    // By the place of the rule.
    conditions: List<Option<Carded>>,
    // Each names only pointers whose expressions stand before it.
    computed: List<Computed>,
}

/// The pointer that every type has (the EdgeDB documentation's page on object types).
fn id_pointer_info(alloc: Global) -> Result<PtrInfo, AllocError>
    ensures { IfOk result (λ info. info ≡ id_info) }
{
    let name = Text::from_str(alloc, "id")?;
    let mut limits = List::new(alloc);
    limits.push(Limit::Exclusive)?;
    Ok(PtrInfo {
        name,
        origin: TypeId(0),
        card: Card::One,
        body: Body::Stored(Ty::Scalar(ScalarTy::Uuid)),
        limits,
        link_props: List::new(alloc),
        default: None,
    })
}

/// The first of some pointers that has a name.
fn named_among(pointers: &[PtrInfo], listed: &[PtrId], name: &str) -> Option<PtrId>
    ensures { result ≡ first_named pointers.now listed.now name.now }
{
    for pointer in listed {
        if has_name(pointers, *pointer, name) {
            return Some(*pointer);
        }
    }
    None
}

fn has_name(pointers: &[PtrInfo], pointer: PtrId, name: &str) -> bool
    ensures { result ≡ has_name_of (slice_get pointers.now pointer.0) name.now }
{
    match at(pointers, pointer.0 as usize) {
        Some(info) => info.name.as_str() == name,
        None => false,
    }
}

/// The type whose objects a stored link leads to.
fn target_of(body: &Body) -> Option<TypeId>
    ensures { result ≡ target_of_body body.now }
{
    match body {
        Body::Stored(Ty::Object(ty)) => Some(*ty),
        Body::Stored(Ty::Scalar(_) | Ty::Tuple(_) | Ty::Array(_)) | Body::Computed => None,
    }
}

/// A pointer among some within other bounds, in memory of its own.
fn bounded_among(
    alloc: Global,
    pointers: &[PtrInfo],
    pointer: PtrId,
    card: Card,
) -> Result<Option<PtrInfo>, AllocError>
    ensures { IfOk result (λ o. o ≡ option_map (bounded_of card) (slice_get pointers.now pointer.0)) }
{
    match at(pointers, pointer.0 as usize) {
        Some(info) => Ok(Some(info.bounded(alloc, card)?)),
        None => Ok(None),
    }
}

/// The same most, and none at least.
fn or_none(card: Card) -> Card
    ensures { result ≡ card_with 0 (most card) }
{
    match card {
        Card::Empty => Card::Empty,
        Card::AtMostOne | Card::One => Card::AtMostOne,
        Card::AtLeastOne | Card::Many => Card::Many,
    }
}

impl Schema {
    /// The schema of these parts and of the pointer `id`, whose number follows the last. No expression of a computed
    /// pointer and no condition of a rule is known yet.
    pub fn from_parts(
        alloc: Global,
        types: List<TypeInfo>,
        pointers: List<PtrInfo>,
        globals: List<GlobalInfo>,
        policies: List<Policy>,
    ) -> Result<Schema, AllocError>
        ensures { IfOk result (λ s. s ≡ made_of types pointers globals policies) }
    {
        let mut pointers = pointers;
        pointers.push(id_pointer_info(alloc)?)?;
        Ok(Schema {
            types,
            pointers,
            globals,
            policies,
            conditions: List::new(alloc),
            computed: List::new(alloc),
        })
    }

    /// The expression of one more computed pointer. Its bounds are those of the pointer from then on.
    pub fn set_computed(&mut self, alloc: Global, computed: Computed) -> Result<(), AllocError>
        requires { computed_among self.old.computed computed.pointer ≡ None }
        ensures ok { OnOk result (self.new ≡ with_computed computed self.old) }
        ensures err { OnErr result (self.new ≡ self.old) }
    {
        let pointer = computed.pointer;
        let pointers = self.pointers.as_slice();
        let bounded = bounded_among(alloc, pointers, pointer, computed.card)?;
        self.computed.push(computed)?;
        if let Some(info) = bounded {
            self.pointers.set(pointer.0 as usize, info);
        }
        Ok(())
    }

    /// The same schema with the conditions of its rules, one for each.
    pub fn with_conditions(self, conditions: List<Option<Carded>>) -> Schema
        requires { length conditions ≡ length self.policies }
        ensures { result ≡ with_conditions_of conditions self }
    {
        let Schema {
            types,
            pointers,
            globals,
            policies,
            conditions: _,
            computed,
        } = self;
        Schema {
            types,
            pointers,
            globals,
            policies,
            conditions,
            computed,
        }
    }

    /// The types, by number.
    pub fn types(&self) -> &[TypeInfo]
        ensures { result.now ≡ self.now.types }
    {
        self.types.as_slice()
    }

    /// The pointers, by number. The last is `id`, which every type has.
    pub fn pointers(&self) -> &[PtrInfo]
        ensures { result.now ≡ self.now.pointers }
    {
        self.pointers.as_slice()
    }

    /// The globals, in the order of the text.
    pub fn globals(&self) -> &[GlobalInfo]
        ensures { result.now ≡ self.now.globals }
    {
        self.globals.as_slice()
    }

    /// The rules, in the order of the text.
    pub fn policies(&self) -> &[Policy]
        ensures { result.now ≡ self.now.policies }
    {
        self.policies.as_slice()
    }

    /// The conditions of the rules, by the place of the rule. A rule without one applies to every object.
    pub fn conditions(&self) -> &[Option<Carded>]
        ensures { result.now ≡ self.now.conditions }
    {
        self.conditions.as_slice()
    }

    /// The expressions of computed pointers, in the order in which they came to be known: each names only pointers whose
    /// expressions stand before it.
    pub fn all_computed(&self) -> &[Computed]
        ensures { result.now ≡ self.now.computed }
    {
        self.computed.as_slice()
    }

    /// The pointer with a number.
    pub fn info(&self, pointer: PtrId) -> &PtrInfo
        requires { pointer.0 < length self.now.pointers }
        ensures { slice_get self.now.pointers pointer.0 ≡ Some result.now }
    {
        &self.pointers.as_slice()[pointer.0 as usize]
    }

    /// Whether a type is the other one, or extends it.
    pub fn is_subtype(&self, ty: TypeId, of: TypeId) -> bool
        ensures { result ≡ is_subtype_in self.now.types ty of }
    {
        is_subtype(self.types.as_slice(), ty, of)
    }

    /// The type that has a name, abstract or not.
    pub fn type_named(&self, name: &str) -> Option<TypeId>
        requires { length self.now.types < 2 ^ 32 }
        ensures { result ≡ type_named_in self.now.types name.now }
    {
        type_named(self.types.as_slice(), name)
    }

    /// The pointers of a type, those of its ancestors too, but for `id`.
    pub fn listed_pointers(&self, ty: TypeId) -> &[PtrId]
        ensures { result.now ≡ listed_pointers_in self.now.types ty }
    {
        match self.types.as_slice().get(ty.0 as usize) {
            Some(info) => info.pointers.as_slice(),
            None => &[],
        }
    }

    /// The same pointers in byte order of their names.
    pub fn pointers_in_order(&self, alloc: Global, ty: TypeId) -> Result<List<PtrId>, AllocError>
        ensures { IfOk result (λ l. l ≡ pointers_in_order_of self.now ty) }
    {
        pointers_in_order(alloc, self.pointers.as_slice(), self.listed_pointers(ty))
    }

    /// The pointer `id`.
    pub fn id(&self) -> PtrId
        requires some { 0 < length self.now.pointers }
        requires few { length self.now.pointers < 2 ^ 32 }
        ensures { result ≡ id_pointer self.now.pointers }
    {
        PtrId((self.pointers.len() - 1) as u32)
    }

    /// Whether a pointer is `id`.
    pub fn is_id(&self, pointer: PtrId) -> bool
        ensures { result ≡ is_id_in self.now.pointers pointer }
    {
        pointer.0 as usize + 1 == self.pointers.len()
    }

    /// The pointer of a type that has a name. None where there is none.
    pub fn pointer(&self, ty: TypeId, name: &str) -> Option<PtrId>
        requires some { 0 < length self.now.pointers }
        requires few { length self.now.pointers < 2 ^ 32 }
        ensures { result ≡ pointer_named self.now ty name.now }
    {
        let pointers = self.pointers.as_slice();
        match named_among(pointers, self.listed_pointers(ty), name) {
            Some(pointer) => Some(pointer),
            None => named_among(pointers, &[self.id()], name),
        }
    }

    /// The expression of a computed pointer, once it is known.
    pub fn computed(&self, pointer: PtrId) -> Option<&Computed>
        ensures { option_copied result ≡ computed_among self.now.computed pointer }
    {
        for computed in self.computed.as_slice() {
            if computed.pointer.0 == pointer.0 {
                return Some(computed);
            }
        }
        None
    }

    /// The bounds of a stored pointer as a caller sees them: a link whose targets rules may hide may have none.
    pub fn weakened(&self, info: &PtrInfo) -> Card
        requires { length self.now.types < 2 ^ 32 }
        ensures { result ≡ weakened_of self.now info.now }
    {
        match target_of(&info.body) {
            Some(ty) if is_governed(self.types.as_slice(), self.policies.as_slice(), ty) => {
                or_none(info.card)
            }
            _ => info.card,
        }
    }

    /// The numbers of the rules that hold for a type: by the name of the type that declares them, in byte order, and of one
    /// type in the order of the text.
    pub fn rules(&self, alloc: Global, ty: TypeId) -> Result<List<usize>, AllocError>
        ensures { IfOk result (λ l. l ≡ rules_of_in self.now.types self.now.policies ty) }
    {
        rules_of(alloc, self.types.as_slice(), self.policies.as_slice(), ty)
    }
}
