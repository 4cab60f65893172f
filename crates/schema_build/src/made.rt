//! The schema of a text that breaks no rule.
ghost use Rattle.std.specs.Prelude.{◌≡◌, ◌<◌, ◌+◌, ◌^◌, ◌++◌, ◌∷◌, [], length, IfOk, OnOk};
ghost use Rattle.schema_build.specs.Made as spec;
ghost use Rattle.schema_build.specs.Lineage.{IsSmall};

use crate::lineage::at;
use crate::link_properties::{is_multi, is_required};
use crate::literal::literal;
use crate::names::{Meant, meaning_of};
use crate::suits::{Constraining, constraint_named};
use ast::{Expr, QualifiedName, Qualifiers};
use core_ir::{Card, PtrId, Ty, TypeId};
use ev_list::{Absent, Direction, KeyOrder, Keyed, in_order, keyless};
use ev_names::Names;
use ev_schema::{Body, GlobalInfo, Limit, LinkProperty, PtrInfo, TypeInfo};
use ev_value::{List, ScalarTy, Text, Val};
use sdl_ast::{Decl, Item, Member, Pointer, PointerBody};
use std::alloc::{AllocError, Global};

fn card_of(qualifiers: Qualifiers) -> Card
    ensures { result ≡ spec.card_of qualifiers }
{
    match (is_required(qualifiers.need), is_multi(qualifiers.width)) {
        (false, false) => Card::AtMostOne,
        (false, true) => Card::Many,
        (true, false) => Card::One,
        (true, true) => Card::AtLeastOne,
    }
}

fn type_of(alloc: Global, meant: Option<Meant>) -> Ty
    requires { IsSmall meant }
    ensures { result ≡ spec.type_of meant }
{
    match meant {
        Some(Meant::Scalar(scalar)) => Ty::Scalar(scalar),
        Some(Meant::Object(place)) => Ty::Object(TypeId(place as u32)),
        None => Ty::Tuple(List::new(alloc)),
    }
}

fn scalar_of(meant: Option<Meant>) -> ScalarTy
    ensures { result ≡ spec.scalar_of meant }
{
    match meant {
        Some(Meant::Scalar(scalar)) => scalar,
        Some(Meant::Object(_)) => ScalarTy::Str,
        None => ScalarTy::Str,
    }
}

fn number_in(value: Option<Val>) -> Option<i64>
    ensures { result ≡ spec.number_in value }
{
    match value {
        Some(Val::Int(number)) => Some(number),
        _ => None,
    }
}

fn first_number(alloc: Global, arguments: &[Expr]) -> Result<Option<i64>, AllocError>
    ensures { IfOk result (λ n. n ≡ spec.first_number arguments.now) }
{
    match arguments.split_first() {
        Some((first, _)) => Ok(number_in(literal(alloc, first)?)),
        None => Ok(None),
    }
}

fn add_value(values: &mut List<Val>, value: Option<Val>) -> Result<(), AllocError>
    ensures { OnOk result (values.new ≡ values.old ++ spec.value_in value) }
{
    match value {
        Some(value) => values.push(value),
        None => Ok(()),
    }
}

fn values_of(alloc: Global, arguments: &[Expr]) -> Result<List<Val>, AllocError>
    ensures { IfOk result (λ l. l ≡ spec.values_of arguments.now) }
{
    let mut values = List::new(alloc);
    for argument in arguments {
        add_value(&mut values, literal(alloc, argument)?)?;
    }
    Ok(values)
}

fn bound_of(constraining: Constraining, number: i64) -> Option<Limit>
    ensures { result ≡ spec.bound_of constraining number }
{
    match constraining {
        Constraining::MinValue => Some(Limit::MinValue(number)),
        Constraining::MaxValue => Some(Limit::MaxValue(number)),
        Constraining::MinExValue => Some(Limit::MinExValue(number)),
        Constraining::MaxExValue => Some(Limit::MaxExValue(number)),
        Constraining::MinLen => Some(Limit::MinLen(number)),
        Constraining::MaxLen => Some(Limit::MaxLen(number)),
        Constraining::Exclusive | Constraining::OneOf => None,
    }
}

fn bound_if_some(constraining: Constraining, number: Option<i64>) -> Option<Limit>
    ensures { result ≡ spec.bound_if_some constraining number }
{
    match number {
        Some(number) => bound_of(constraining, number),
        None => None,
    }
}

fn limit_of(
    alloc: Global,
    constraining: Constraining,
    arguments: &[Expr],
) -> Result<Option<Limit>, AllocError>
    ensures { IfOk result (λ l. l ≡ spec.limit_of constraining arguments.now) }
{
    match constraining {
        Constraining::Exclusive => Ok(Some(Limit::Exclusive)),
        Constraining::OneOf => Ok(Some(Limit::OneOf(values_of(alloc, arguments)?))),
        Constraining::MinValue
        | Constraining::MaxValue
        | Constraining::MinExValue
        | Constraining::MaxExValue
        | Constraining::MinLen
        | Constraining::MaxLen => {
            Ok(bound_if_some(constraining, first_number(alloc, arguments)?))
        }
    }
}

fn limit_if_known(
    alloc: Global,
    constraining: Option<Constraining>,
    arguments: &[Expr],
) -> Result<Option<Limit>, AllocError>
    ensures { IfOk result (λ l. l ≡ spec.limit_if_known constraining arguments.now) }
{
    match constraining {
        Some(constraining) => limit_of(alloc, constraining, arguments),
        None => Ok(None),
    }
}

fn add_limit(limits: &mut List<Limit>, limit: Option<Limit>) -> Result<(), AllocError>
    ensures { OnOk result (limits.new ≡ limits.old ++ spec.limit_in limit) }
{
    match limit {
        Some(limit) => limits.push(limit),
        None => Ok(()),
    }
}

fn add_limit_at(alloc: Global, limits: &mut List<Limit>, item: &Item) -> Result<(), AllocError>
    ensures { OnOk result (limits.new ≡ limits.old ++ spec.limit_at item.now) }
{
    match item {
        Item::Constraint(_, constraint) => {
            let constraining = constraint_named(constraint.name.text.as_str());
            let arguments = constraint.arguments.as_slice();
            add_limit(limits, limit_if_known(alloc, constraining, arguments)?)
        }
        Item::Default(_, _) => Ok(()),
        Item::Deletion(_, _) => Ok(()),
        Item::Annotation(_) => Ok(()),
        Item::Property(_, _) => Ok(()),
    }
}

fn limits_in(alloc: Global, items: &[Item]) -> Result<List<Limit>, AllocError>
    ensures { IfOk result (λ l. l ≡ spec.limits_in items.now) }
{
    let mut limits = List::new(alloc);
    for item in items {
        add_limit_at(alloc, &mut limits, item)?;
    }
    Ok(limits)
}

fn default_at(alloc: Global, item: &Item) -> Result<Option<Val>, AllocError>
    ensures { IfOk result (λ v. v ≡ spec.default_at item.now) }
{
    match item {
        Item::Default(_, value) => literal(alloc, value),
        Item::Constraint(_, _) => Ok(None),
        Item::Deletion(_, _) => Ok(None),
        Item::Annotation(_) => Ok(None),
        Item::Property(_, _) => Ok(None),
    }
}

fn or_before(later: Option<Val>, before: Option<Val>) -> Option<Val>
    ensures { result ≡ spec.or_before later before }
{
    match later {
        Some(value) => Some(value),
        None => before,
    }
}

/// The last default of a pointer.
#[tactic(auto, using(crate::proofs::DefaultLaws::or_before_none, crate::proofs::DefaultLaws::or_before_assoc))]
fn default_in(alloc: Global, items: &[Item]) -> Result<Option<Val>, AllocError>
    ensures { IfOk result (λ v. v ≡ spec.default_in items.now) }
{
    let mut found = None;
    for item in items {
        found = or_before(default_at(alloc, item)?, found);
    }
    Ok(found)
}

fn keyed_property(
    alloc: Global,
    name: &Text,
    ty: ScalarTy,
) -> Result<Keyed<LinkProperty>, AllocError>
    ensures { IfOk result (λ k. k ≡ spec.keyed_property name.now ty) }
{
    let mut keys = List::new(alloc);
    keys.push(Some(Val::Str(name.copied(alloc)?)))?;
    let name = name.copied(alloc)?;
    Ok(Keyed {
        keys,
        value: LinkProperty { name, ty },
    })
}

fn add_property(
    alloc: Global,
    types: &Names,
    properties: &mut List<Keyed<LinkProperty>>,
    item: &Item,
) -> Result<(), AllocError>
    ensures { OnOk result (properties.new ≡ properties.old ++ spec.property_at types.now item.now) }
{
    match item {
        Item::Property(_, property) => {
            let ty = scalar_of(meaning_of(types, &property.ty));
            properties.push(keyed_property(alloc, &property.name.text, ty)?)
        }
        Item::Constraint(_, _) => Ok(()),
        Item::Default(_, _) => Ok(()),
        Item::Deletion(_, _) => Ok(()),
        Item::Annotation(_) => Ok(()),
    }
}

fn properties_in(
    alloc: Global,
    types: &Names,
    items: &[Item],
) -> Result<List<Keyed<LinkProperty>>, AllocError>
    ensures { IfOk result (λ l. l ≡ spec.properties_in types.now items.now) }
{
    let mut properties = List::new(alloc);
    for item in items {
        add_property(alloc, types, &mut properties, item)?;
    }
    Ok(properties)
}

/// By names, in byte order.
const BY_NAME: KeyOrder = KeyOrder {
    direction: Direction::Ascending,
    absent: Absent::First,
};

fn link_properties(
    alloc: Global,
    types: &Names,
    items: &[Item],
) -> Result<List<LinkProperty>, AllocError>
    ensures { IfOk result (λ l. l ≡ spec.link_properties types.now items.now) }
{
    let properties = properties_in(alloc, types, items)?;
    keyless(alloc, in_order(alloc, &[BY_NAME], properties)?)
}

fn stored_info(
    alloc: Global,
    types: &Names,
    origin: TypeId,
    pointer: &Pointer,
    ty: &QualifiedName,
    items: &[Item],
) -> Result<PtrInfo, AllocError>
    requires { length types.now < 2 ^ 32 }
    ensures { IfOk result (λ i. i ≡ spec.stored_info types.now origin pointer.now ty.now items.now) }
{
    let name = pointer.name.text.copied(alloc)?;
    let limits = limits_in(alloc, items)?;
    let link_props = link_properties(alloc, types, items)?;
    let default = default_in(alloc, items)?;
    Ok(PtrInfo {
        name,
        origin,
        card: card_of(pointer.qualifiers),
        body: Body::Stored(type_of(alloc, meaning_of(types, ty))),
        limits,
        link_props,
        default,
    })
}

fn computed_info(alloc: Global, origin: TypeId, pointer: &Pointer) -> Result<PtrInfo, AllocError>
    ensures { IfOk result (λ i. i ≡ spec.computed_info origin pointer.now) }
{
    Ok(PtrInfo {
        name: pointer.name.text.copied(alloc)?,
        origin,
        card: card_of(pointer.qualifiers),
        body: Body::Computed,
        limits: List::new(alloc),
        link_props: List::new(alloc),
        default: None,
    })
}

fn pointer_info(
    alloc: Global,
    types: &Names,
    origin: TypeId,
    pointer: &Pointer,
) -> Result<PtrInfo, AllocError>
    requires { length types.now < 2 ^ 32 }
    ensures { IfOk result (λ i. i ≡ spec.pointer_info types.now origin pointer.now pointer.now.body) }
{
    match &pointer.body {
        PointerBody::Stored(ty, items) => {
            stored_info(alloc, types, origin, pointer, ty, items.as_slice())
        }
        PointerBody::Computed(_) => computed_info(alloc, origin, pointer),
    }
}

fn add_pointer(
    alloc: Global,
    types: &Names,
    origin: TypeId,
    pointers: &mut List<PtrInfo>,
    member: &Member,
) -> Result<(), AllocError>
    requires { length types.now < 2 ^ 32 }
    ensures { OnOk result (pointers.new ≡ pointers.old ++ spec.pointer_at types.now origin member.now) }
{
    match member {
        Member::Pointer(_, pointer) => pointers.push(pointer_info(alloc, types, origin, pointer)?),
        Member::Policy(_, _) => Ok(()),
        Member::Index(_, _) => Ok(()),
        Member::Annotation(_) => Ok(()),
    }
}

fn add_pointers(
    alloc: Global,
    types: &Names,
    origin: TypeId,
    pointers: &mut List<PtrInfo>,
    members: &[Member],
) -> Result<(), AllocError>
    requires { length types.now < 2 ^ 32 }
    ensures { OnOk result (pointers.new ≡ pointers.old ++ spec.pointers_in types.now origin members.now) }
{
    for member in members {
        add_pointer(alloc, types, origin, pointers, member)?;
    }
    Ok(())
}

/// The pointers of all types, in the order of the text.
pub fn pointers_of(
    alloc: Global,
    types: &Names,
    decls: &[Decl],
) -> Result<List<PtrInfo>, AllocError>
    requires types { length types.now < 2 ^ 32 }
    requires decls { length decls.now < 2 ^ 32 }
    ensures { IfOk result (λ l. l ≡ spec.pointers_from types.now 0 decls.now) }
{
    let mut pointers = List::new(alloc);
    let mut number: u32 = 0;
    for decl in decls {
        if let Decl::Type(_, found) = decl {
            let members = found.members.as_slice();
            add_pointers(alloc, types, TypeId(number), &mut pointers, members)?;
            number += 1;
        }
    }
    Ok(pointers)
}

fn global_info(
    alloc: Global,
    types: &Names,
    name: &Text,
    ty: &QualifiedName,
) -> Result<GlobalInfo, AllocError>
    ensures { IfOk result (λ g. g ≡ spec.global_info types.now name.now ty.now) }
{
    Ok(GlobalInfo {
        name: name.copied(alloc)?,
        ty: scalar_of(meaning_of(types, ty)),
    })
}

/// The globals, in the order of the text.
pub fn globals_of(
    alloc: Global,
    types: &Names,
    decls: &[Decl],
) -> Result<List<GlobalInfo>, AllocError>
    ensures { IfOk result (λ l. l ≡ spec.globals_of types.now decls.now) }
{
    let mut globals = List::new(alloc);
    for decl in decls {
        if let Decl::Global(_, found) = decl {
            globals.push(global_info(alloc, types, &found.name.text, &found.ty)?)?;
        }
    }
    Ok(globals)
}

fn numbers_from(alloc: Global, first: u32, count: usize) -> Result<List<PtrId>, AllocError>
    requires { first + count < 2 ^ 32 }
    ensures { IfOk result (λ l. l ≡ spec.numbers_from first count) }
{
    let mut numbers = List::new(alloc);
    for place in 0..count {
        numbers.push(PtrId(first + place as u32))?;
    }
    Ok(numbers)
}

/// The numbers of the pointers that each type declares.
pub fn declared_numbers(
    alloc: Global,
    names: &[List<Text>],
) -> Result<List<List<PtrId>>, AllocError>
    requires { spec.count_of names.now < 2 ^ 32 }
    ensures { IfOk result (λ l. l ≡ spec.declared_numbers 0 names.now) }
{
    let mut all = List::new(alloc);
    let mut first: u32 = 0;
    for own in names {
        all.push(numbers_from(alloc, first, own.len())?)?;
        first += own.len() as u32;
    }
    Ok(all)
}

fn add_numbers(all: &mut List<PtrId>, more: &[PtrId]) -> Result<(), AllocError>
    ensures { OnOk result (all.new ≡ all.old ++ more.now) }
{
    for number in more {
        all.push(*number)?;
    }
    Ok(())
}

fn pointers_along(
    alloc: Global,
    numbers: &[List<PtrId>],
    own: &[PtrId],
    line: &[TypeId],
) -> Result<List<PtrId>, AllocError>
    ensures { IfOk result (λ l. l ≡ spec.pointers_along numbers.now own.now line.now) }
{
    let mut all = List::new(alloc);
    add_numbers(&mut all, own)?;
    for ty in line {
        add_numbers(&mut all, at(numbers, ty.0 as usize))?;
    }
    Ok(all)
}

fn copied_line(alloc: Global, line: &[TypeId]) -> Result<List<TypeId>, AllocError>
    ensures { IfOk result (λ l. l ≡ line.now) }
{
    List::from_slice(alloc, line)
}

fn type_info(
    alloc: Global,
    name: &Text,
    is_abstract: bool,
    numbers: &[List<PtrId>],
    own: &[PtrId],
    line: &[TypeId],
) -> Result<TypeInfo, AllocError>
    ensures { IfOk result (λ t. t ≡ spec.type_info name.now is_abstract numbers.now own.now line.now) }
{
    Ok(TypeInfo {
        name: name.copied(alloc)?,
        is_abstract,
        ancestors: copied_line(alloc, line)?,
        pointers: pointers_along(alloc, numbers, own, line)?,
    })
}

/// What the schema says of the types, in the order of the text.
pub fn infos_of(
    alloc: Global,
    numbers: &[List<PtrId>],
    lines: &[List<TypeId>],
    decls: &[Decl],
) -> Result<List<TypeInfo>, AllocError>
    ensures { IfOk result (λ l. l ≡ spec.infos_from numbers.now lines.now 0 decls.now) }
{
    let mut infos = List::new(alloc);
    let mut number: usize = 0;
    for decl in decls {
        if let Decl::Type(_, found) = decl {
            let own = at(numbers, number);
            let line = at(lines, number);
            let name = &found.name.text;
            infos.push(type_info(alloc, name, found.is_abstract, numbers, own, line)?)?;
            number += 1;
        }
    }
    Ok(infos)
}
