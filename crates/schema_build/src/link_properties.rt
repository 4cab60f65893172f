//! M6: link properties that are none.
ghost use Rattle.std.specs.Prelude.{◌≡◌, ◌++◌, [], IfOk, OnOk};
ghost use Rattle.schema_build.specs.LinkProperties as spec;

use crate::least::{at_if, sooner};
use crate::names::{Meant, is_object, is_scalar, meaning_of};
use ast::{Need, Qualifiers, Width};
use ev_names::Names;
use sdl_ast::Item;
use std::alloc::{AllocError, Global};

pub fn is_required(need: Option<Need>) -> bool
    ensures { result ≡ spec.is_required need }
{
    match need {
        Some(Need::Required) => true,
        Some(Need::Optional) => false,
        None => false,
    }
}

pub fn is_multi(width: Option<Width>) -> bool
    ensures { result ≡ spec.is_multi width }
{
    match width {
        Some(Width::Multi) => true,
        Some(Width::Single) => false,
        None => false,
    }
}

fn is_plain(qualifiers: Qualifiers) -> bool
    ensures { result ≡ spec.is_plain qualifiers }
{
    !(is_required(qualifiers.need) || is_multi(qualifiers.width))
}

/// A link property of a pointer of a type that is not plain, is of no scalar type, or stands on a property.
pub fn misplaced_item(types: &Names, meant: Option<Meant>, item: &Item) -> Option<u32>
    ensures { result ≡ spec.misplaced_item types.now meant item.now }
{
    match item {
        Item::Property(span, property) => {
            let has_scalar = is_scalar(meaning_of(types, &property.ty));
            let suits = is_plain(property.qualifiers) && (has_scalar && is_object(meant));
            at_if(!suits, span.start)
        }
        Item::Constraint(_, _) => None,
        Item::Default(_, _) => None,
        Item::Deletion(_, _) => None,
        Item::Annotation(_) => None,
    }
}

/// A link property whose name is among those before it.
fn repeated_item(before: &Names, item: &Item) -> Option<u32>
    ensures { result ≡ spec.repeated_item before.now item.now }
{
    match item {
        Item::Property(span, property) => at_if(before.has(&property.name.text), span.start),
        Item::Constraint(_, _) => None,
        Item::Default(_, _) => None,
        Item::Deletion(_, _) => None,
        Item::Annotation(_) => None,
    }
}

fn add_property(alloc: Global, names: &mut Names, item: &Item) -> Result<(), AllocError>
    ensures { OnOk result (names.new ≡ names.old ++ spec.property_name item.now) }
{
    match item {
        Item::Property(_, property) => names.add(alloc, &property.name.text),
        Item::Constraint(_, _) => Ok(()),
        Item::Default(_, _) => Ok(()),
        Item::Deletion(_, _) => Ok(()),
        Item::Annotation(_) => Ok(()),
    }
}

#[tactic(auto, using(crate::proofs::LeastLaws::sooner_none, crate::proofs::LeastLaws::sooner_assoc))]
/// The least byte of a link property that is written a second time.
pub fn repeated_items(alloc: Global, items: &[Item]) -> Result<Option<u32>, AllocError>
    ensures { IfOk result (λ b. b ≡ spec.repeated_items [] items.now) }
{
    let mut found = None;
    let mut names = Names::new(alloc);
    for item in items {
        found = sooner(found, repeated_item(&names, item));
        add_property(alloc, &mut names, item)?;
    }
    Ok(found)
}
