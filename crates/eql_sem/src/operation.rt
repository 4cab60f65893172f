//! What operators and functions make of the lists of their operands.
ghost use Rattle.std.specs.Prelude.{◌≡◌, ◌∷◌, ◌++◌, [], IfOk, OnOk, Bool};
ghost use Rattle.std.specs.List.{list_any};
ghost use Rattle.ev_value.specs.Item.{bind, both, one as one_of, all_of};
ghost use Rattle.ev_value.specs.Operator.{item_of_op, bool_item};
ghost use Rattle.ev_value.specs.Casts.{item_of_cast};
ghost use Rattle.eql_sem.specs.Operations.{product as product_of, gathered as gathered_of, operated as operated_by, cast_to as cast_items, tupled as tuples_of, tuple_of, turned as turned_by, same as same_value, same_place as same_places, or_empty as places_of, optional_equal as optionally_equal, in_set as is_in_set, asserted as asserted_list, optional as optional_list, of_values as function_of, of_set as set_function, coalesced as coalesced_lists, chosen as chosen_lists, equal_places, member_items, branch_items, later_faults, arrayed as arrays_of, unpacked as elements_in, elements_of};

use crate::copies::Copies;
use crate::form::{Form, Formed};
use crate::item::{
    Settled, all_values, any_fault, copied_items, fault_items, faults_among, one, settle,
};
use core_ir::SetFunction;
use ev_list::{
    all_true, any_true, count, distinct, distinct_fault, exists_fault, greatest, is_true, least,
    single_fault, sum,
};
use ev_value::{
    Fault, Item, List, Op, OpError, ScalarTy, Val, apply_op, cast, cmp_val, copied_values,
};
use std::alloc::{AllocError, Global};

// A value in front of others.
fn with_front<T: Copies>(alloc: Global, front: &T, rest: &[T]) -> Result<List<T>, AllocError>
    ensures { IfOk result (λ xs. xs ≡ front.now ∷ rest.now) }
{
    let mut all = List::new(alloc);
    all.push(front.copied_in(alloc)?)?;
    for item in rest {
        all.push(item.copied_in(alloc)?)?;
    }
    Ok(all)
}

// Appends a value in front of each of the tails.
fn add_fronts<T: Copies>(
    alloc: Global,
    front: &T,
    tails: &[Item<List<T>>],
    all: &mut List<Item<List<T>>>,
) -> Result<(), AllocError>
    ensures { OnOk result (all.new ≡ all.old ++ bind tails.now (λ rest. one_of (front.now ∷ rest))) }
{
    for tail in tails {
        match tail {
            Item::Value(rest) => {
                all.push(Item::Value(with_front(alloc, front, rest.as_slice())?))?
            }
            Item::Fault(fault) => all.push(Item::Fault(*fault))?,
        }
    }
    Ok(())
}

// Each value of the first list in front of each of the tails.
fn fronts<T: Copies>(
    alloc: Global,
    first: &[Item<T>],
    tails: &[Item<List<T>>],
) -> Result<List<Item<List<T>>>, AllocError>
    ensures { IfOk result (λ xs. xs ≡ bind first.now (λ x. bind tails.now (λ rest. one_of (x ∷ rest)))) }
{
    let mut all = List::new(alloc);
    for item in first {
        match item {
            Item::Value(value) => add_fronts(alloc, value, tails, &mut all)?,
            Item::Fault(fault) => all.push(Item::Fault(*fault))?,
        }
    }
    Ok(all)
}

/// One value of each list, the last list fastest; faults where they came up.
#[tactic(auto, using(crate::proofs::Products::product_turn))]
pub fn product<T: Copies>(
    alloc: Global,
    lists: &[List<Item<T>>],
) -> Result<List<Item<List<T>>>, AllocError>
    ensures { IfOk result (λ xs. xs ≡ product_of lists.now) }
{
    match lists.split_first() {
        None => one(alloc, Item::Value(List::new(alloc))),
        Some((first, more)) => {
            let tails = product(alloc, more)?;
            fronts(alloc, first.as_slice(), tails.as_slice())
        }
    }
}

/// Appends the faults of the second list where the first one has some.
pub fn add_later_faults<S, T, U: Drop>(
    alloc: Global,
    first: &[Item<S>],
    second: &[Item<T>],
    all: &mut List<Item<U>>,
) -> Result<(), AllocError>
    ensures { OnOk result (all.new ≡ all.old ++ later_faults first.now second.now) }
{
    if any_fault(first) {
        let faults = faults_among(alloc, second)?;
        all.append(fault_items(alloc, faults.as_slice())?)?;
    }
    Ok(())
}

// Each value of the first list in front of each of the tails; the faults of the tails too where the first list has some.
fn both_fronts<T: Copies>(
    alloc: Global,
    first: &[Item<T>],
    tails: &[Item<List<T>>],
) -> Result<List<Item<List<T>>>, AllocError>
    ensures { IfOk result (λ xs. xs ≡ both first.now tails.now (λ x rest. one_of (x ∷ rest))) }
{
    let mut all = fronts(alloc, first, tails)?;
    add_later_faults(alloc, first, tails, &mut all)?;
    Ok(all)
}

/// One value of each list, the last list fastest; the faults of all lists where there are some.
pub fn gathered<T: Copies>(
    alloc: Global,
    lists: &[List<Item<T>>],
) -> Result<List<Item<List<T>>>, AllocError>
    ensures { IfOk result (λ xs. xs ≡ gathered_of lists.now) }
{
    match lists.split_first() {
        None => one(alloc, Item::Value(List::new(alloc))),
        Some((first, more)) => {
            let tails = gathered(alloc, more)?;
            both_fronts(alloc, first.as_slice(), tails.as_slice())
        }
    }
}

// What an operator gives for the values of its operands.
fn item_of(operator: Op, operands: &[Val]) -> Result<Item, AllocError>
    ensures { IfOk result (λ x. x ≡ item_of_op operator operands.now) }
{
    match apply_op(operator, operands) {
        Ok(value) => Ok(Item::Value(value)),
        Err(OpError::Fault(fault)) => Ok(Item::Fault(fault)),
        Err(OpError::Memory) => Err(AllocError),
    }
}

/// The items of an operator or a plain function.
pub fn operated(alloc: Global, operator: Op, lists: &[List<Item>]) -> Result<List<Item>, AllocError>
    ensures { IfOk result (λ xs. xs ≡ operated_by operator lists.now) }
{
    let operands = product(alloc, lists)?;
    let mut all = List::new(alloc);
    for operand in operands.as_slice() {
        let item = match operand {
            Item::Value(values) => item_of(operator, values.as_slice())?,
            Item::Fault(fault) => Item::Fault(*fault),
        };
        all.push(item)?;
    }
    Ok(all)
}

// What a cast gives for a value.
fn cast_item(alloc: Global, ty: ScalarTy, value: &Val) -> Result<Item, AllocError>
    ensures { IfOk result (λ x. x ≡ item_of_cast ty value.now) }
{
    match cast(alloc, ty, value) {
        Ok(value) => Ok(Item::Value(value)),
        Err(OpError::Fault(fault)) => Ok(Item::Fault(fault)),
        Err(OpError::Memory) => Err(AllocError),
    }
}

/// The items of a cast.
pub fn cast_to(alloc: Global, ty: ScalarTy, items: &[Item]) -> Result<List<Item>, AllocError>
    ensures { IfOk result (λ xs. xs ≡ cast_items ty items.now) }
{
    let mut all = List::new(alloc);
    for item in items {
        let made = match item {
            Item::Value(value) => cast_item(alloc, ty, value)?,
            Item::Fault(fault) => Item::Fault(*fault),
        };
        all.push(made)?;
    }
    Ok(all)
}

// The tuple of some values, and that of their forms.
fn tuple(alloc: Global, parts: &[Formed]) -> Result<Formed, AllocError>
    ensures { IfOk result (λ x. x ≡ tuple_of parts.now) }
{
    let mut values = List::new(alloc);
    let mut forms = List::new(alloc);
    for part in parts {
        values.push(part.value.copied(alloc)?)?;
        forms.push(part.form.copied(alloc)?)?;
    }
    Ok(Formed {
        value: Val::Tuple(values),
        form: Form::Tuple(forms),
    })
}

/// The tuples of the components' items.
pub fn tupled(alloc: Global, lists: &[List<Item<Formed>>]) -> Result<List<Item<Formed>>, AllocError>
    ensures { IfOk result (λ xs. xs ≡ tuples_of lists.now) }
{
    let components = product(alloc, lists)?;
    let mut all = List::new(alloc);
    for component in components.as_slice() {
        let item = match component {
            Item::Value(parts) => Item::Value(tuple(alloc, parts.as_slice())?),
            Item::Fault(fault) => Item::Fault(*fault),
        };
        all.push(item)?;
    }
    Ok(all)
}

/// The arrays of the elements' values.
pub fn arrayed(alloc: Global, lists: &[List<Item>]) -> Result<List<Item>, AllocError>
    ensures { IfOk result (λ xs. xs ≡ arrays_of lists.now) }
{
    let turns = product(alloc, lists)?;
    let mut all = List::new(alloc);
    for turn in turns.as_slice() {
        let item = match turn {
            Item::Value(values) => {
                Item::Value(Val::Array(copied_values(alloc, values.as_slice())?))
            }
            Item::Fault(fault) => Item::Fault(*fault),
        };
        all.push(item)?;
    }
    Ok(all)
}

// Appends the elements of an array, in their order; another value has none.
#[tactic(auto, using(crate::proofs::Elements::elements_of_each))]
fn add_elements(alloc: Global, value: &Val, all: &mut List<Item>) -> Result<(), AllocError>
    ensures { OnOk result (all.new ≡ all.old ++ all_of (elements_of value.now)) }
{
    match value {
        Val::Array(elements) => all.append(all_values(alloc, elements.as_slice())?),
        Val::Int(_) => Ok(()),
        Val::Str(_) => Ok(()),
        Val::Bool(_) => Ok(()),
        Val::Id(_) => Ok(()),
        Val::Obj(_) => Ok(()),
        Val::Tuple(_) => Ok(()),
    }
}

/// The elements of each array in turn.
pub fn unpacked(alloc: Global, items: &[Item]) -> Result<List<Item>, AllocError>
    ensures { IfOk result (λ xs. xs ≡ elements_in items.now) }
{
    let mut all = List::new(alloc);
    for item in items {
        match item {
            Item::Value(value) => add_elements(alloc, value, &mut all)?,
            Item::Fault(fault) => all.push(Item::Fault(*fault))?,
        }
    }
    Ok(all)
}

fn turned(negated: bool, truth: bool) -> bool
    ensures { result ≡ turned_by negated truth }
{
    if negated { !truth } else { truth }
}

fn same(left: &Val, right: &Val) -> bool
    ensures { result ≡ same_value left.now right.now }
{
    cmp_val(left, right).is_eq()
}

// The values as places, or one empty place where nothing is.
fn or_empty(alloc: Global, items: &[Item]) -> Result<List<Item<Option<Val>>>, AllocError>
    ensures { IfOk result (λ xs. xs ≡ places_of items.now) }
{
    if items.is_empty() {
        return one(alloc, Item::Value(None));
    }
    let mut all = List::new(alloc);
    for item in items {
        let place = match item {
            Item::Value(value) => Item::Value(Some(value.copied(alloc)?)),
            Item::Fault(fault) => Item::Fault(*fault),
        };
        all.push(place)?;
    }
    Ok(all)
}

fn same_place(left: &Option<Val>, right: &Option<Val>) -> bool
    ensures { result ≡ same_places left.now right.now }
{
    match (left, right) {
        (None, None) => true,
        (Some(left), Some(right)) => same(left, right),
        _ => false,
    }
}

// Appends what comes of one place of the left operand with each of the right one.
fn add_equal(
    negated: bool,
    left: &Option<Val>,
    right: &[Item<Option<Val>>],
    all: &mut List<Item>,
) -> Result<(), AllocError>
    ensures { OnOk result (all.new ≡ all.old ++ equal_places negated left.now right.now) }
{
    for place in right {
        let item = match place {
            Item::Value(other) => Item::Value(Val::Bool(turned(negated, same_place(left, other)))),
            Item::Fault(fault) => Item::Fault(*fault),
        };
        all.push(item)?;
    }
    Ok(())
}

/// The items of `?=`, or of `?!=` where it is negated.
pub fn optional_equal(
    alloc: Global,
    negated: bool,
    left: &[Item],
    right: &[Item],
) -> Result<List<Item>, AllocError>
    ensures { IfOk result (λ xs. xs ≡ optionally_equal negated left.now right.now) }
{
    let places = or_empty(alloc, left)?;
    let others = or_empty(alloc, right)?;
    let others = others.as_slice();
    let mut all = List::new(alloc);
    for place in places.as_slice() {
        match place {
            Item::Value(value) => add_equal(negated, value, others, &mut all)?,
            Item::Fault(fault) => all.push(Item::Fault(*fault))?,
        }
    }
    Ok(all)
}

fn is_member(value: &Val, set: &[Val]) -> bool
    ensures { result ≡ list_any (same_value value.now) set.now }
{
    for other in set {
        if same(value, other) {
            return true;
        }
    }
    false
}

// Of each item whether it is in the set.
fn members(
    alloc: Global,
    negated: bool,
    left: &[Item],
    set: &[Val],
) -> Result<List<Item>, AllocError>
    ensures { IfOk result (λ xs. xs ≡ member_items negated left.now set.now) }
{
    let mut all = List::new(alloc);
    for item in left {
        let found = match item {
            Item::Value(value) => Item::Value(Val::Bool(turned(negated, is_member(value, set)))),
            Item::Fault(fault) => Item::Fault(*fault),
        };
        all.push(found)?;
    }
    Ok(all)
}

/// The items of `in`, or of `not in` where it is negated.
pub fn in_set(
    alloc: Global,
    negated: bool,
    left: &[Item],
    set: &[Item],
) -> Result<List<Item>, AllocError>
    ensures { IfOk result (λ xs. xs ≡ is_in_set negated left.now set.now) }
{
    match settle(alloc, set)? {
        Settled::Values(values) => members(alloc, negated, left, values.as_slice()),
        Settled::Faults(faults) => fault_items(alloc, faults.as_slice()),
    }
}

fn optional(alloc: Global, value: Option<Val>) -> Result<List<Item>, AllocError>
    ensures { IfOk result (λ xs. xs ≡ optional_list value) }
{
    match value {
        Some(value) => one(alloc, Item::Value(value)),
        None => Ok(List::new(alloc)),
    }
}

fn asserted(alloc: Global, fault: Option<Fault>, values: &[Val]) -> Result<List<Item>, AllocError>
    ensures { IfOk result (λ xs. xs ≡ asserted_list fault values.now) }
{
    match fault {
        Some(fault) => one(alloc, Item::Fault(fault)),
        None => all_values(alloc, values),
    }
}

// What a function makes of all the values of its set.
fn of_values(
    alloc: Global,
    function: SetFunction,
    values: List<Val>,
) -> Result<List<Item>, AllocError>
    ensures { IfOk result (λ xs. xs ≡ function_of function values) }
{
    let all = values.as_slice();
    match function {
        SetFunction::Count => one(alloc, count(all)),
        SetFunction::Sum => one(alloc, sum(all)),
        SetFunction::Min => optional(alloc, least(values)),
        SetFunction::Max => optional(alloc, greatest(values)),
        SetFunction::Any => one(alloc, Item::Value(Val::Bool(any_true(all)))),
        SetFunction::All => one(alloc, Item::Value(Val::Bool(all_true(all)))),
        SetFunction::Exists => one(alloc, Item::Value(Val::Bool(!all.is_empty()))),
        SetFunction::Distinct => all_values(alloc, distinct(alloc, values)?.as_slice()),
        SetFunction::AssertSingle => asserted(alloc, single_fault(all), all),
        SetFunction::AssertExists => asserted(alloc, exists_fault(all), all),
        SetFunction::AssertDistinct => asserted(alloc, distinct_fault(all), all),
        SetFunction::ArrayAgg => one(alloc, Item::Value(Val::Array(values))),
    }
}

/// The items of a function of a set.
pub fn of_set(alloc: Global, function: SetFunction, set: &[Item]) -> Result<List<Item>, AllocError>
    ensures { IfOk result (λ xs. xs ≡ set_function function set.now) }
{
    match settle(alloc, set)? {
        Settled::Values(values) => of_values(alloc, function, values),
        Settled::Faults(faults) => fault_items(alloc, faults.as_slice()),
    }
}

/// The items of `??`.
pub fn coalesced(
    alloc: Global,
    first: &[Item],
    second: List<Item>,
) -> Result<List<Item>, AllocError>
    ensures { IfOk result (λ xs. xs ≡ coalesced_lists first.now second) }
{
    match settle(alloc, first)? {
        Settled::Values(values) => {
            if values.is_empty() {
                Ok(second)
            } else {
                all_values(alloc, values.as_slice())
            }
        }
        Settled::Faults(faults) => fault_items(alloc, faults.as_slice()),
    }
}

// The list of one branch for each truth of the condition.
fn branches(
    alloc: Global,
    truths: &[Val],
    value: &[Item],
    other: &[Item],
) -> Result<List<Item>, AllocError>
    ensures { IfOk result (λ xs. xs ≡ branch_items truths.now value.now other.now) }
{
    let mut all = List::new(alloc);
    for truth in truths {
        let branch = if is_true(truth) { value } else { other };
        all.append(copied_items(alloc, branch)?)?;
    }
    Ok(all)
}

/// The items of `if`.
pub fn chosen(
    alloc: Global,
    condition: &[Item],
    value: &[Item],
    other: &[Item],
) -> Result<List<Item>, AllocError>
    ensures { IfOk result (λ xs. xs ≡ chosen_lists condition.now value.now other.now) }
{
    match settle(alloc, condition)? {
        Settled::Values(truths) => branches(alloc, truths.as_slice(), value, other),
        Settled::Faults(faults) => fault_items(alloc, faults.as_slice()),
    }
}
