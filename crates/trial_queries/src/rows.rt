//! Queries whose answers are known from the language's own examples.

use crate::print::printed;
use crate::sample::{
    AGE, AUTHOR, FRIENDS, NAME, POST, TITLE, USER, always, condition, objects, rule, schema,
};
use crate::together::{both, more, one};
use crate::tree::*;
use core_ir::{Carded, Expr, Root, Scope, Select, SetFunction, Step, TypeId};
use db_store::Object;
use eql_world::answer_over_view;
use ev_schema::{Policy, Schema};
use ev_value::{Args, Argument, List, Op, Text, Val};
use std::alloc::{AllocError, Global};
use std::test::Fail;

// ---- asking

/// A caller who gives no arguments.
fn nobody(alloc: Global) -> Args {
    Args {
        globals: List::new(alloc),
        params: List::new(alloc),
    }
}

/// A caller under a name.
fn caller(alloc: Global, name: &str) -> Made<Args> {
    let (global, name) = both(Text::from_str(alloc, "me"), Text::from_str(alloc, name))?;
    let value = Val::Str(name);
    let globals = one(
        alloc,
        Ok(Argument {
            name: global,
            value,
        }),
    )?;
    Ok(Args {
        globals,
        params: List::new(alloc),
    })
}

fn shown(
    alloc: Global,
    schema: &Schema,
    objects: &[Object],
    args: &Args,
    query: &Scope,
) -> Made<String> {
    let items = answer_over_view(alloc, schema, objects, args, query)?;
    printed(alloc, items.as_slice())
}

/// What a query gives under a schema.
fn answer(alloc: Global, schema: &Schema, args: &Args, query: Made<Expr>) -> Made<String> {
    let (query, objects) = both(scope(alloc, query), objects(alloc))?;
    shown(alloc, schema, objects.as_slice(), args, &query)
}

fn is_answered(
    alloc: Global,
    schema: &Schema,
    args: &Args,
    query: Made<Expr>,
    expected: &str,
) -> Made<bool> {
    Ok(answer(alloc, schema, args, query)?.as_str() == expected)
}

/// Whether a query gives that answer, where nothing is hidden.
pub fn gives(alloc: Global, query: Made<Expr>, expected: &str) -> Made<bool> {
    let schema = schema(alloc, Ok(List::new(alloc)), Ok(List::new(alloc)))?;
    is_answered(alloc, &schema, &nobody(alloc), query, expected)
}

// ---- paths

fn users(alloc: Global) -> Made<Expr> {
    path(alloc, Root::Extent(TypeId(USER)), no_steps(alloc))
}

fn of_users(alloc: Global, step: Step) -> Made<Expr> {
    path(
        alloc,
        Root::Extent(TypeId(USER)),
        then(no_steps(alloc), step),
    )
}

pub fn user_names(alloc: Global) -> Made<Expr> {
    of_users(alloc, prop(NAME))
}

fn user_friends(alloc: Global) -> Made<Expr> {
    of_users(alloc, link(FRIENDS))
}

fn to_friends(alloc: Global) -> Made<List<Step>> {
    then(no_steps(alloc), link(FRIENDS))
}

fn friend_names(alloc: Global) -> Made<Expr> {
    let steps = then(to_friends(alloc), prop(NAME));
    path(alloc, Root::Extent(TypeId(USER)), steps)
}

fn from_root(alloc: Global, root: Root, step: Step) -> Made<Expr> {
    path(alloc, root, then(no_steps(alloc), step))
}

fn from_subject(alloc: Global, step: Step) -> Made<Expr> {
    from_root(alloc, Root::Subject(1), step)
}

// ---- queries

/// `{2, 1} + 1`
fn sums(alloc: Global) -> Made<Expr> {
    plain(
        alloc,
        operation(alloc, Op::Add, set(alloc, int(2), int(1)), int(1)),
    )
}

/// `User.name ++ '/' ++ User.name`
fn names_twice(alloc: Global) -> Made<Expr> {
    let first = operation(alloc, Op::Concat, user_names(alloc), text(alloc, "/"));
    plain(
        alloc,
        operation(alloc, Op::Concat, first, user_names(alloc)),
    )
}

fn select_all(alloc: Global, subject: Made<Expr>) -> Made<Select> {
    selecting(alloc, subject, no_clause(), no_keys(alloc), no_clause())
}

/// `with U := User select User.name ++ U.name`
fn pairs_of_names(alloc: Global) -> Made<Expr> {
    let other = from_root(alloc, Root::Alias(1), prop(NAME));
    let subject = operation(alloc, Op::Concat, user_names(alloc), other);
    statement(alias(alloc, 1, users(alloc)), select_all(alloc, subject))
}

/// `(User.name, User.friends.name)`
fn names_of_friends(alloc: Global) -> Made<Expr> {
    plain(alloc, tuple(alloc, user_names(alloc), friend_names(alloc)))
}

fn user_ages(alloc: Global) -> Made<Expr> {
    of_users(alloc, prop(AGE))
}

fn count(alloc: Global, set: Made<Expr>) -> Made<Expr> {
    of_set(alloc, SetFunction::Count, set)
}

/// `count(User.friends) + count(User)`
fn counts(alloc: Global) -> Made<Expr> {
    let friends = count(alloc, user_friends(alloc));
    plain(
        alloc,
        operation(alloc, Op::Add, friends, count(alloc, users(alloc))),
    )
}

/// `(User.name, count(User.friends))`
fn counts_of_each(alloc: Global) -> Made<Expr> {
    let friends = count(alloc, user_friends(alloc));
    plain(alloc, tuple(alloc, user_names(alloc), friends))
}

/// `User.friends {name, @strength}`
fn friends_shaped(alloc: Global) -> Made<Expr> {
    let name = one(alloc, element(alloc, "name", friend_names(alloc)));
    let steps = then_property(alloc, to_friends(alloc), "strength");
    let strength = path(alloc, Root::Extent(TypeId(USER)), steps);
    let elements = more(name, element(alloc, "@strength", strength));
    shaped(alloc, user_friends(alloc), 3, elements)
}

/// `.name = 'Bob'`
fn is_named(alloc: Global, root: Root, name: &str) -> Made<Expr> {
    let named = from_root(alloc, root, prop(NAME));
    operation(alloc, Op::Eq, named, text(alloc, name))
}

/// `User {name, friends: {name, @strength}} filter .name = 'Bob'`
fn bob(alloc: Global) -> Made<Expr> {
    let name = one(alloc, element(alloc, "name", user_names(alloc)));
    let elements = more(name, element(alloc, "friends", friends_shaped(alloc)));
    let subject = shaped(alloc, users(alloc), 2, elements);
    let filter = clause(alloc, is_named(alloc, Root::Subject(1), "Bob"));
    let select = selecting(alloc, subject, filter, no_keys(alloc), no_clause());
    statement(no_aliases(alloc), select)
}

/// `1 // 0`
pub fn by_zero(alloc: Global) -> Made<Expr> {
    operation(alloc, Op::FloorDiv, int(1), int(0))
}

/// `User {name}`
fn users_shaped(alloc: Global) -> Made<Expr> {
    let name = one(alloc, element(alloc, "name", user_names(alloc)));
    shaped(alloc, users(alloc), 2, name)
}

/// `User {name} order by .age`
fn by_age(alloc: Global) -> Made<Expr> {
    let keys = ascending(alloc, from_subject(alloc, prop(AGE)));
    let select = selecting(alloc, users_shaped(alloc), no_clause(), keys, no_clause());
    statement(no_aliases(alloc), select)
}

/// `User {name} limit -1`
fn negative_limit(alloc: Global) -> Made<Expr> {
    let limit = clause(alloc, int(-1));
    let select = selecting(
        alloc,
        users_shaped(alloc),
        no_clause(),
        no_keys(alloc),
        limit,
    );
    statement(no_aliases(alloc), select)
}

/// `User offset o limit l`
fn cut(alloc: Global, offset: Made<Expr>, limit: Made<Expr>) -> Made<Expr> {
    let limit = clause(alloc, limit);
    let select = selecting(alloc, users(alloc), no_clause(), no_keys(alloc), limit);
    statement(no_aliases(alloc), behind(alloc, offset, select))
}

/// `with X := (1, 2) select X`
fn named_tuple(alloc: Global) -> Made<Expr> {
    let named = path(alloc, Root::Alias(1), no_steps(alloc));
    let pair = tuple(alloc, int(1), int(2));
    statement(alias(alloc, 1, pair), select_all(alloc, named))
}

/// `for u in User union (select u.name filter exists u.age)`
fn names_of_aged(alloc: Global) -> Made<Expr> {
    let age = from_root(alloc, Root::Var(1), prop(AGE));
    let filter = clause(alloc, of_set(alloc, SetFunction::Exists, age));
    let name = from_root(alloc, Root::Var(1), prop(NAME));
    let select = selecting(alloc, name, filter, no_keys(alloc), no_clause());
    repeat(alloc, 1, users(alloc), statement(no_aliases(alloc), select))
}

/// `with X := 1 // 0 select 5`
fn unused_fault(alloc: Global) -> Made<Expr> {
    statement(alias(alloc, 1, by_zero(alloc)), select_all(alloc, int(5)))
}

/// `Post.title`
fn titles(alloc: Global) -> Made<Expr> {
    plain(
        alloc,
        from_root(alloc, Root::Extent(TypeId(POST)), prop(TITLE)),
    )
}

/// `Post {title, author: {name}}`
fn posts(alloc: Global) -> Made<Expr> {
    let root = Root::Extent(TypeId(POST));
    let title = from_root(alloc, root, prop(TITLE));
    let author = from_root(alloc, root, link(AUTHOR));
    let steps = then(then(no_steps(alloc), link(AUTHOR)), prop(NAME));
    let name = one(alloc, element(alloc, "name", path(alloc, root, steps)));
    let elements = one(alloc, element(alloc, "title", title));
    let author = element(alloc, "author", shaped(alloc, author, 3, name));
    let posts = path(alloc, root, no_steps(alloc));
    plain(alloc, shaped(alloc, posts, 2, more(elements, author)))
}

// ---- rules

/// In User: `allow all; deny select using (.name = 'Ann')`
fn without_ann(alloc: Global) -> Made<Schema> {
    let rules = more(
        one(alloc, rule(alloc, USER, true)),
        rule(alloc, USER, false),
    );
    let hidden = scope(alloc, is_named(alloc, Root::Subject(0), "Ann"));
    let conditions = more(one(alloc, always()), condition(USER, hidden));
    schema(alloc, rules, conditions)
}

/// In Post: `allow all using (global me ?= .author.name)`
fn own_posts(alloc: Global) -> Made<Schema> {
    let steps = then(then(no_steps(alloc), link(AUTHOR)), prop(NAME));
    let author = path(alloc, Root::Subject(0), steps);
    let own = scope(alloc, optional_equal(alloc, global(alloc, "me"), author));
    let rules = one(alloc, rule(alloc, POST, true));
    schema(alloc, rules, one(alloc, condition(POST, own)))
}

fn gives_without_ann(alloc: Global, query: Made<Expr>, expected: &str) -> Made<bool> {
    let schema = without_ann(alloc)?;
    is_answered(alloc, &schema, &nobody(alloc), query, expected)
}

fn gives_to(alloc: Global, name: &str, query: Made<Expr>, expected: &str) -> Made<bool> {
    let (schema, args) = both(own_posts(alloc), caller(alloc, name))?;
    is_answered(alloc, &schema, &args, query, expected)
}

#[test]
fn operators_walk_their_operands(rt: HostRuntime) -> Result<(), Fail> {
    let alloc = rt.alloc();
    assert!(rt; gives(alloc, sums(alloc), "[3,2]")?);
    let first = operation(alloc, Op::Add, by_zero(alloc), no_ints());
    assert!(rt; gives(alloc, plain(alloc, first), "[!2]")?);
    let second = operation(alloc, Op::Add, no_ints(), by_zero(alloc));
    assert!(rt; gives(alloc, plain(alloc, second), "[]")?);
    let other = choose(alloc, truth(false), by_zero(alloc), int(2));
    assert!(rt; gives(alloc, plain(alloc, other), "[2]")?);
    Ok(())
}

#[test]
fn a_prefix_is_bound_once(rt: HostRuntime) -> Result<(), Fail> {
    let alloc = rt.alloc();
    let twice = "['Ann/Ann','Bob/Bob','Cid/Cid']";
    assert!(rt; gives(alloc, names_twice(alloc), twice)?);
    let pairs =
        "['AnnAnn','AnnBob','AnnCid','BobAnn','BobBob','BobCid','CidAnn','CidBob','CidCid']";
    assert!(rt; gives(alloc, pairs_of_names(alloc), pairs)?);
    assert!(rt;
        gives(
            alloc,
            plain(alloc, friend_names(alloc)),
            "['Ann','Bob','Cid']"
        )?
    );
    let friends = "[['Ann','Bob'],['Bob','Ann'],['Bob','Cid']]";
    assert!(rt; gives(alloc, names_of_friends(alloc), friends)?);
    Ok(())
}

#[test]
fn sets_are_arguments(rt: HostRuntime) -> Result<(), Fail> {
    let alloc = rt.alloc();
    let or_zero = coalesce(alloc, user_ages(alloc), int(0));
    assert!(rt; gives(alloc, plain(alloc, or_zero), "[30,7]")?);
    let or_length = coalesce(alloc, user_ages(alloc), len(alloc, user_names(alloc)));
    assert!(rt; gives(alloc, plain(alloc, or_length), "[30,3,7]")?);
    assert!(rt; gives(alloc, counts(alloc), "[6]")?);
    let each = "[['Ann',1],['Bob',2],['Cid',0]]";
    assert!(rt; gives(alloc, counts_of_each(alloc), each)?);
    Ok(())
}

#[test]
fn statements_have_clauses(rt: HostRuntime) -> Result<(), Fail> {
    let alloc = rt.alloc();
    let friends =
        "[{name:['Bob'],friends:[{name:['Ann'],@strength:[1]},{name:['Cid'],@strength:[]}]}]";
    assert!(rt; gives(alloc, bob(alloc), friends)?);
    let names = "[{name:['Bob']},{name:['Cid']},{name:['Ann']}]";
    assert!(rt; gives(alloc, by_age(alloc), names)?);
    assert!(rt; gives(alloc, negative_limit(alloc), "[!7]")?);
    let both = cut(alloc, int(-1), by_zero(alloc));
    assert!(rt; gives(alloc, both, "[!7,!2]")?);
    let both = cut(alloc, by_zero(alloc), int(-1));
    assert!(rt; gives(alloc, both, "[!2,!7]")?);
    assert!(rt; gives(alloc, cut(alloc, int(1), int(1)), "[#2]")?);
    assert!(rt; gives(alloc, names_of_aged(alloc), "['Ann','Cid']")?);
    assert!(rt; gives(alloc, unused_fault(alloc), "[!2]")?);
    Ok(())
}

#[test]
fn tuples_have_one_form(rt: HostRuntime) -> Result<(), Fail> {
    let alloc = rt.alloc();
    let pair = plain(alloc, tuple(alloc, int(1), int(2)));
    assert!(rt; gives(alloc, pair, "[[1,2]]")?);
    assert!(rt; gives(alloc, named_tuple(alloc), "[[1,2]]")?);
    Ok(())
}

#[test]
fn rules_hide_objects(rt: HostRuntime) -> Result<(), Fail> {
    let alloc = rt.alloc();
    let names = plain(alloc, user_names(alloc));
    assert!(rt; gives_without_ann(alloc, names, "['Bob','Cid']")?);
    let friends = plain(alloc, friend_names(alloc));
    assert!(rt; gives_without_ann(alloc, friends, "['Cid']")?);
    let unknown = "[{title:['A'],author:[]},{title:['B'],author:[]}]";
    assert!(rt; gives_without_ann(alloc, posts(alloc), unknown)?);
    Ok(())
}

#[test]
fn rules_know_the_caller(rt: HostRuntime) -> Result<(), Fail> {
    let alloc = rt.alloc();
    assert!(rt; gives_to(alloc, "Bob", titles(alloc), "[]")?);
    assert!(rt; gives_to(alloc, "Ann", titles(alloc), "['A','B']")?);
    Ok(())
}
