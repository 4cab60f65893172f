//! Which objects the rules of their types show.
ghost use Rattle.std.specs.Prelude.{◌≡◌, ◌++◌, map, not, List, [], true, false, slice_get, IfOk};
ghost use Rattle.std.specs.List.{list_any};
ghost use Rattle.std.specs.Option.{option_copied};
ghost use Rattle.ev_value.specs.Item.{values};
ghost use Rattle.ev_list.specs.Aggregate.{is_true};
ghost use Rattle.db_store.specs.Objects.{as_value};
ghost use Rattle.eql_world.specs.View.{holds_for as holds_for_object, reads as reads_of, applies as applies_to, speaks as speaks_of, some_speaks as some_speaks_of, shown as shown_of, is_select};
ghost use Rattle.eql_world.specs.Worked.{IsWhole};

use crate::computing::whole_list_for;
use crate::store_world::StoreWorld;
use core_ir::Carded;
use db_store::Object;
use ev_schema::{Policy, PolicyKind};
use ev_value::{Item, List, Val};
use sqlite_items::at;
use std::alloc::{AllocError, Global};

/// Whether a rule is one for reading.
fn reads(policy: &Policy) -> bool
    ensures { result ≡ reads_of policy.now }
{
    for kind in policy.kinds.as_slice() {
        if let PolicyKind::Select = kind {
            return true;
        }
    }
    false
}

/// Whether some item is true.
fn any_true(items: &[Item]) -> bool
    ensures { result ≡ list_any is_true (values items.now) }
{
    for item in items {
        if let Item::Value(Val::Bool(true)) = item {
            return true;
        }
    }
    false
}

/// Whether a condition holds for an object; a rule without one applies to every object.
fn holds_for(
    alloc: Global,
    world: &StoreWorld<'_>,
    condition: Option<&Option<Carded>>,
    object: &Object,
) -> Result<bool, AllocError>
    requires { IsWhole world.now.schema.now world.now.objects.now world.now.args.now world.now.columns.now }
    ensures { IfOk result (λ b. b ≡ holds_for_object world.now.schema.now world.now.objects.now world.now.args.now (option_copied condition.entry) object.now) }
{
    match condition {
        Some(Some(expr)) => {
            let items = whole_list_for(alloc, world, expr, object)?;
            Ok(any_true(items.as_slice()))
        }
        Some(None) | None => Ok(true),
    }
}

/// Whether a rule applies to an object.
fn applies(
    alloc: Global,
    world: &StoreWorld<'_>,
    object: &Object,
    rule: usize,
) -> Result<bool, AllocError>
    requires { IsWhole world.now.schema.now world.now.objects.now world.now.args.now world.now.columns.now }
    ensures { IfOk result (λ b. b ≡ applies_to world.now.schema.now world.now.objects.now world.now.args.now object.now rule) }
{
    let conditions = world.schema.conditions();
    holds_for(alloc, world, at(conditions, rule), object)
}

/// Whether a rule for reading that shows, or one that hides, applies to an object.
fn speaks(
    alloc: Global,
    world: &StoreWorld<'_>,
    allow: bool,
    object: &Object,
    rule: usize,
) -> Result<bool, AllocError>
    requires { IsWhole world.now.schema.now world.now.objects.now world.now.args.now world.now.columns.now }
    ensures { IfOk result (λ b. b ≡ speaks_of world.now.schema.now world.now.objects.now world.now.args.now allow object.now rule (slice_get world.now.schema.now.policies rule)) }
{
    match at(world.schema.policies(), rule) {
        Some(policy) if reads(policy) && policy.allow == allow => {
            applies(alloc, world, object, rule)
        }
        _ => Ok(false),
    }
}

fn some_speaks(
    alloc: Global,
    world: &StoreWorld<'_>,
    allow: bool,
    object: &Object,
    rules: &[usize],
) -> Result<bool, AllocError>
    requires { IsWhole world.now.schema.now world.now.objects.now world.now.args.now world.now.columns.now }
    ensures { IfOk result (λ b. b ≡ some_speaks_of world.now.schema.now world.now.objects.now world.now.args.now allow object.now rules.now) }
{
    for rule in rules {
        if speaks(alloc, world, allow, object, *rule)? {
            return Ok(true);
        }
    }
    Ok(false)
}

/// Whether a caller sees an object.
fn shown(alloc: Global, world: &StoreWorld<'_>, object: &Object) -> Result<bool, AllocError>
    requires { IsWhole world.now.schema.now world.now.objects.now world.now.args.now world.now.columns.now }
    ensures { IfOk result (λ b. b ≡ shown_of world.now.schema.now world.now.objects.now world.now.args.now object.now) }
{
    let rules = world.schema.rules(alloc, object.ty)?;
    let rules = rules.as_slice();
    match rules {
        [] => Ok(true),
        [_, ..] => Ok(
            some_speaks(alloc, world, true, object, rules)?
                && !some_speaks(alloc, world, false, object, rules)?,
        ),
    }
}

/// Of each object whether a caller sees it.
pub fn shown_flags(alloc: Global, world: &StoreWorld<'_>) -> Result<List<bool>, AllocError>
    requires { IsWhole world.now.schema.now world.now.objects.now world.now.args.now world.now.columns.now }
    ensures { IfOk result (λ fs. fs ≡ map (shown_of world.now.schema.now world.now.objects.now world.now.args.now) world.now.objects.now) }
{
    let mut flags = List::new(alloc);
    for object in world.objects.all() {
        flags.push(shown(alloc, world, object)?)?;
    }
    Ok(flags)
}
