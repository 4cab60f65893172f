//! The rules on the values of a property.
ghost use Rattle.std.specs.Prelude.{◌≡◌, IfOk};
ghost use Rattle.std.specs.List.{list_any};
ghost use Rattle.db_values.specs.Properties.{values_of as values_by, some_ill as some_ill_by, breaks as breaks_limits, property_flaw as property_flaw_of};

use crate::elements::is_lacking;
use crate::limits::breaks;
use db_draft::{Element, Rule, element_value};
use ev_schema::{Limit, PtrInfo};
use ev_value::{List, ScalarTy, Val};
use std::alloc::{AllocError, Global};

/// The values that elements write. Those that write none are left out.
pub fn values_of(alloc: Global, ty: ScalarTy, elements: &[Element]) -> Result<List<Val>, AllocError>
    ensures { IfOk result (λ vs. vs ≡ values_by ty elements.now) }
{
    let mut values = List::new(alloc);
    for element in elements {
        if let Some(value) = element_value(alloc, ty, element)? {
            values.push(value)?;
        }
    }
    Ok(values)
}

/// Whether an element is no value of the type.
fn some_ill(alloc: Global, ty: ScalarTy, elements: &[Element]) -> Result<bool, AllocError>
    ensures { IfOk result (λ b. b ≡ some_ill_by ty elements.now) }
{
    for element in elements {
        if element_value(alloc, ty, element)?.is_none() {
            return Ok(true);
        }
    }
    Ok(false)
}

fn some_break(limits: &[Limit], values: &[Val]) -> bool
    ensures { result ≡ list_any (breaks_limits limits.now) values.now }
{
    for value in values {
        if breaks(limits, value) {
            return true;
        }
    }
    false
}

/// The first of the rules that fails for what stands for a property.
pub fn property_flaw(
    alloc: Global,
    info: &PtrInfo,
    ty: ScalarTy,
    elements: &[Element],
) -> Result<Option<Rule>, AllocError>
    ensures { IfOk result (λ r. r ≡ property_flaw_of info.now ty elements.now) }
{
    if some_ill(alloc, ty, elements)? {
        return Ok(Some(Rule::X7));
    }
    if is_lacking(info.card, elements) {
        return Ok(Some(Rule::X8));
    }
    let values = values_of(alloc, ty, elements)?;
    if some_break(info.limits.as_slice(), values.as_slice()) {
        return Ok(Some(Rule::X12));
    }
    Ok(None)
}
