//! The schema and its objects: users with friends, and posts of theirs.

use crate::together::{both, more, one};
use crate::tree::Made;
use core_ir::{Card, Carded, Core, PtrId, Scope, Ty, TypeId};
use db_store::{Entry, LinkValue, Object, PtrValue, Target};
use ev_schema::{
    Body, GlobalInfo, Limit, LinkProperty, Policy, PolicyKind, PtrInfo, Schema, TypeInfo,
};
use ev_value::{List, ScalarTy, Text, Val};
use std::alloc::{AllocError, Global};

pub const NAMED: u32 = 0;

pub const USER: u32 = 1;

pub const POST: u32 = 2;

pub const NAME: u32 = 0;

pub const AGE: u32 = 1;

pub const FRIENDS: u32 = 2;

pub const TITLE: u32 = 3;

pub const AUTHOR: u32 = 4;

pub const TAGS: u32 = 5;

// ---- the schema

fn numbers(alloc: Global, pointers: &[u32]) -> Made<List<PtrId>> {
    let mut all = List::new(alloc);
    for pointer in pointers {
        all.push(PtrId(*pointer))?;
    }
    Ok(all)
}

fn ancestors(alloc: Global, types: &[u32]) -> Made<List<TypeId>> {
    let mut all = List::new(alloc);
    for ty in types {
        all.push(TypeId(*ty))?;
    }
    Ok(all)
}

fn type_info(
    alloc: Global,
    name: &str,
    is_abstract: bool,
    extends: &[u32],
    pointers: &[u32],
) -> Made<TypeInfo> {
    let lists = both(ancestors(alloc, extends), numbers(alloc, pointers));
    let (name, (ancestors, pointers)) = both(Text::from_str(alloc, name), lists)?;
    Ok(TypeInfo {
        name,
        is_abstract,
        ancestors,
        pointers,
    })
}

fn types(alloc: Global) -> Made<List<TypeInfo>> {
    let named = one(alloc, type_info(alloc, "Named", true, &[], &[NAME]));
    let user = type_info(alloc, "User", false, &[NAMED], &[NAME, AGE, FRIENDS]);
    let post = type_info(alloc, "Post", false, &[], &[TITLE, AUTHOR, TAGS]);
    more(more(named, user), post)
}

fn pointer(
    alloc: Global,
    name: &str,
    origin: u32,
    card: Card,
    ty: Ty,
    link_props: Made<List<LinkProperty>>,
) -> Made<PtrInfo> {
    let (name, link_props) = both(Text::from_str(alloc, name), link_props)?;
    Ok(PtrInfo {
        name,
        origin: TypeId(origin),
        card,
        body: Body::Stored(ty),
        limits: List::new(alloc),
        link_props,
        default: None,
    })
}

fn no_properties(alloc: Global) -> Made<List<LinkProperty>> {
    Ok(List::new(alloc))
}

fn strength(alloc: Global) -> Made<List<LinkProperty>> {
    let name = Text::from_str(alloc, "strength")?;
    one(
        alloc,
        Ok(LinkProperty {
            name,
            ty: ScalarTy::Int64,
        }),
    )
}

fn plain(alloc: Global, name: &str, origin: u32, card: Card, ty: Ty) -> Made<PtrInfo> {
    pointer(alloc, name, origin, card, ty, no_properties(alloc))
}

fn text_pointer(alloc: Global, name: &str, origin: u32, card: Card) -> Made<PtrInfo> {
    plain(alloc, name, origin, card, Ty::Scalar(ScalarTy::Str))
}

fn user_pointers(alloc: Global) -> Made<List<PtrInfo>> {
    let name = one(alloc, text_pointer(alloc, "name", NAMED, Card::One));
    let number = Ty::Scalar(ScalarTy::Int64);
    let age = plain(alloc, "age", USER, Card::AtMostOne, number);
    let users = Ty::Object(TypeId(USER));
    let friends = pointer(alloc, "friends", USER, Card::Many, users, strength(alloc));
    more(more(name, age), friends)
}

fn pointers(alloc: Global) -> Made<List<PtrInfo>> {
    let titled = more(
        user_pointers(alloc),
        text_pointer(alloc, "title", POST, Card::One),
    );
    let users = Ty::Object(TypeId(USER));
    let author = plain(alloc, "author", POST, Card::One, users);
    let tags = text_pointer(alloc, "tags", POST, Card::Many);
    more(more(titled, author), tags)
}

fn globals(alloc: Global) -> Made<List<GlobalInfo>> {
    let name = Text::from_str(alloc, "me")?;
    one(
        alloc,
        Ok(GlobalInfo {
            name,
            ty: ScalarTy::Str,
        }),
    )
}

/// A rule for reading of a type.
pub fn rule(alloc: Global, origin: u32, allow: bool) -> Made<Policy> {
    let kinds = one(alloc, Ok(PolicyKind::Select));
    let (name, kinds) = both(Text::from_str(alloc, "rule"), kinds)?;
    Ok(Policy {
        origin: TypeId(origin),
        name,
        allow,
        kinds,
    })
}

/// No condition.
pub fn always() -> Made<Option<Carded>> {
    Ok(None)
}

/// A condition on objects of a type.
pub fn condition(ty: u32, root: Made<Scope>) -> Made<Option<Carded>> {
    let root = root?;
    Ok(Some(Carded {
        typed: core_ir::Typed {
            core: Core {
                subject: Some(TypeId(ty)),
                root,
            },
            ty: Ty::Scalar(ScalarTy::Bool),
        },
        card: Card::One,
    }))
}

/// The schema with these rules.
pub fn schema(
    alloc: Global,
    rules: Made<List<Policy>>,
    conditions: Made<List<Option<Carded>>>,
) -> Made<Schema> {
    let parts = both(types(alloc), both(pointers(alloc), globals(alloc)));
    let (parts, (rules, conditions)) = both(parts, both(rules, conditions))?;
    let (types, (pointers, globals)) = parts;
    finished(
        Schema::from_parts(alloc, types, pointers, globals, rules),
        conditions,
    )
}

fn finished(schema: Made<Schema>, conditions: List<Option<Carded>>) -> Made<Schema> {
    let (schema, conditions) = both(schema, Ok(conditions))?;
    // Each rule of the sample has its condition.
    if conditions.len() != schema.policies().len() {
        return Ok(schema);
    }
    Ok(schema.with_conditions(conditions))
}

// ---- the objects

fn entry(pointer: u32, value: Made<PtrValue>) -> Made<Entry> {
    let value = value?;
    Ok(Entry {
        pointer: PtrId(pointer),
        value,
    })
}

fn value(alloc: Global, value: Made<Val>) -> Made<PtrValue> {
    Ok(PtrValue::Vals(one(alloc, value)?))
}

fn text_value(alloc: Global, text: &str) -> Made<PtrValue> {
    let text = Text::from_str(alloc, text)?;
    value(alloc, Ok(Val::Str(text)))
}

fn links(targets: Made<List<Target>>) -> Made<PtrValue> {
    Ok(PtrValue::Links(targets?))
}

fn target(alloc: Global, id: u128) -> Made<Target> {
    Ok(Target {
        id,
        properties: List::new(alloc),
    })
}

fn strong_target(alloc: Global, id: u128, strength: i64) -> Made<Target> {
    let name = Text::from_str(alloc, "strength")?;
    let properties = one(
        alloc,
        Ok(LinkValue {
            name,
            value: Val::Int(strength),
        }),
    )?;
    Ok(Target { id, properties })
}

fn object(id: u128, ty: u32, values: Made<List<Entry>>) -> Made<Object> {
    let values = values?;
    Ok(Object {
        id,
        ty: TypeId(ty),
        values,
    })
}

fn ann(alloc: Global) -> Made<Object> {
    let age = one(alloc, entry(AGE, value(alloc, Ok(Val::Int(30)))));
    let friends = one(alloc, strong_target(alloc, 2, 5));
    let friends = entry(FRIENDS, links(friends));
    let name = entry(NAME, text_value(alloc, "Ann"));
    object(1, USER, more(more(age, friends), name))
}

fn bob(alloc: Global) -> Made<Object> {
    let friends = more(one(alloc, strong_target(alloc, 1, 1)), target(alloc, 3));
    let friends = one(alloc, entry(FRIENDS, links(friends)));
    let name = entry(NAME, text_value(alloc, "Bob"));
    object(2, USER, more(friends, name))
}

fn cid(alloc: Global) -> Made<Object> {
    let age = one(alloc, entry(AGE, value(alloc, Ok(Val::Int(7)))));
    let name = entry(NAME, text_value(alloc, "Cid"));
    object(3, USER, more(age, name))
}

fn post(alloc: Global, id: u128, title: &str) -> Made<Object> {
    let author = entry(AUTHOR, links(one(alloc, target(alloc, 1))));
    let title = entry(TITLE, text_value(alloc, title));
    object(id, POST, more(one(alloc, author), title))
}

/// All objects, in order of id.
pub fn objects(alloc: Global) -> Made<List<Object>> {
    let users = more(more(one(alloc, ann(alloc)), bob(alloc)), cid(alloc));
    more(more(users, post(alloc, 4, "A")), post(alloc, 5, "B"))
}
