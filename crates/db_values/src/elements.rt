//! What stands for a pointer, as elements.
ghost use Rattle.std.specs.Prelude.{◌≡◌};
ghost use Rattle.std.specs.Option.{option_copied};
ghost use Rattle.db_values.specs.Elements.{is_null as is_null_plain, is_empty as is_empty_element, form_flaw as form_flaw_of, elements as elements_of, is_lacking as is_lacking_of};

use core_ir::Card;
use db_draft::{Draft, Element, Plain, Rule};
use std::slice;

/// Whether it is `null`.
pub fn is_null(plain: &Plain) -> bool
    ensures { result ≡ is_null_plain plain.now }
{
    match plain {
        Plain::Null => true,
        Plain::Bool(_) | Plain::Int(_) | Plain::Str(_) | Plain::Other => false,
    }
}

/// Whether `null` stands there.
fn is_empty(element: &Element) -> bool
    ensures { result ≡ is_empty_element element.now }
{
    match element {
        Element::Plain(plain) => is_null(plain),
        Element::Object(_) => false,
    }
}

/// No array stands for a single pointer, and only an array or `null` for a multi one.
pub fn form_flaw(many: bool, draft: Option<&Draft>) -> Option<Rule>
    ensures { result ≡ form_flaw_of many (option_copied draft.entry) }
{
    match draft {
        None => None,
        Some(Draft::One(element)) => {
            if many {
                if is_empty(element) {
                    None
                } else {
                    Some(Rule::X7)
                }
            } else {
                None
            }
        }
        Some(Draft::Array(_)) => { if many { None } else { Some(Rule::X9) } }
    }
}

/// The elements that stand for a pointer: none where nothing or `null` does.
pub fn elements(draft: Option<&Draft>) -> &[Element]
    ensures { result.now ≡ elements_of (option_copied draft.entry) }
{
    match draft {
        None => &[],
        Some(Draft::One(element)) => {
            if is_empty(element) {
                &[]
            } else {
                slice::from_ref(element)
            }
        }
        Some(Draft::Array(elements)) => elements.as_slice(),
    }
}

/// Whether a required pointer has no element.
pub fn is_lacking(card: Card, elements: &[Element]) -> bool
    ensures { result ≡ is_lacking_of card elements.now }
{
    if elements.is_empty() {
        card.is_required()
    } else {
        false
    }
}
