//! The rules on ids and types.
ghost use Rattle.std.specs.Prelude.{◌≡◌, ◌<◌, ◌^◌, length, zero};
ghost use Rattle.std.specs.Option.{option_copied};
ghost use Rattle.db_draft.specs.Told.{IsAnswer, told};
ghost use Rattle.db_ids.specs.Heads.{type_from, type_in as type_in_draft, own_id as id_of_draft, head as head_of, heads as heads_of};

use crate::heads::{Head, Heads};
use core_ir::TypeId;
use db_draft::{Broken, DataRefusal, Draft, Element, ObjectDraft, Plain, Rule, id_in, member};
use ev_schema::TypeInfo;
use std::alloc::Global;

/// The type that a name names, where it is not abstract.
fn type_named(types: &[TypeInfo], name: &str) -> Option<TypeId>
    requires { length types.now < 2 ^ 32 }
    ensures { result ≡ type_from zero types.now name.now }
{
    for (i, info) in types.iter().enumerate() {
        if info.name.as_str() == name {
            return if info.is_abstract {
                None
            } else {
                Some(TypeId(i as u32))
            };
        }
    }
    None
}

/// The type that a draft names.
fn type_in(types: &[TypeInfo], draft: &Option<Draft>) -> Option<TypeId>
    requires { length types.now < 2 ^ 32 }
    ensures { result ≡ type_in_draft types.now draft.now }
{
    match draft {
        Some(Draft::One(Element::Plain(Plain::Str(name)))) => type_named(types, name.as_str()),
        Some(
            Draft::One(Element::Plain(Plain::Null | Plain::Bool(_) | Plain::Int(_) | Plain::Other)),
        ) => None,
        Some(Draft::One(Element::Object(_)) | Draft::Array(_)) | None => None,
    }
}

/// The id that an object has for its own.
fn own_id(draft: &ObjectDraft) -> Option<u128>
    ensures { result ≡ id_of_draft draft.now }
{
    id_in(member(draft.members.as_slice(), "id"))
}

/// The id and the type of an object, or what fails at it, where nothing does at those before it.
fn head(heads: &Heads, types: &[TypeInfo], draft: &ObjectDraft) -> Result<Head, Broken>
    requires few { length heads.now < 2 ^ 32 }
    requires types { length types.now < 2 ^ 32 }
    ensures { result ≡ head_of types.now heads.now draft.now }
{
    let object = Some(heads.len() as u32);
    let Some(id) = own_id(draft) else {
        return Err(Broken {
            rule: Rule::X3,
            object,
            other: None,
        });
    };
    if let Some(other) = heads.find(id) {
        return Err(Broken {
            rule: Rule::X4,
            object,
            other: Some(other),
        });
    }
    match type_in(types, &draft.ty) {
        Some(ty) => Ok(Head { id, ty }),
        None => Err(Broken {
            rule: Rule::X5,
            object,
            other: None,
        }),
    }
}

/// The ids and types of the objects of a document, whose own ids are uuids and differ, and whose types are known and
/// not abstract.
///
/// # Errors
///
/// `Rule`: X3, X4 or X5 at the first object at which one fails, and there the first of them.
pub fn check_heads(
    alloc: Global,
    types: &[TypeInfo],
    drafts: &[ObjectDraft],
) -> Result<Heads, DataRefusal>
    requires few { length drafts.now < 2 ^ 32 }
    requires types { length types.now < 2 ^ 32 }
    ensures { IsAnswer result (told (heads_of types.now drafts.now)) }
{
    let mut heads = Heads::new(alloc);
    for draft in drafts {
        match head(&heads, types, draft) {
            Ok(head) => match heads.add(head) {
                Ok(()) => {}
                Err(_) => return Err(DataRefusal::Memory),
            },
            Err(broken) => return Err(DataRefusal::Rule(broken)),
        }
    }
    Ok(heads)
}
