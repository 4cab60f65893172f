//! M10: names that are not free.
ghost use Rattle.std.specs.Prelude.{◌≡◌};
ghost use Rattle.schema_build.specs.Reserved as spec;

use crate::least::at_if;
use ev_names::scalar_named;
use ev_value::Text;
use sdl_ast::{Decl, Item, Member};

fn is_dunder(name: &Text) -> bool
    ensures { result ≡ spec.is_dunder name.now }
{
    name.as_str().as_bytes().starts_with(b"__")
}

/// A type with the name of a scalar type, or a name of a type or a global that begins with two low lines.
pub fn reserved_decl(decl: &Decl) -> Option<u32>
    ensures { result ≡ spec.reserved_decl decl.now }
{
    match decl {
        Decl::Type(span, found) => {
            let name = &found.name.text;
            at_if(
                scalar_named(name.as_str()).is_some() || is_dunder(name),
                span.start,
            )
        }
        Decl::Global(span, found) => at_if(is_dunder(&found.name.text), span.start),
    }
}

/// A pointer named `id`, or a name of a pointer or a policy that begins with two low lines.
pub fn reserved_member(member: &Member) -> Option<u32>
    ensures { result ≡ spec.reserved_member member.now }
{
    match member {
        Member::Pointer(span, pointer) => {
            let name = &pointer.name.text;
            at_if(name.as_str() == "id" || is_dunder(name), span.start)
        }
        Member::Policy(span, policy) => at_if(is_dunder(&policy.name.text), span.start),
        Member::Index(_, _) => None,
        Member::Annotation(_) => None,
    }
}

/// A name of a link property that begins with two low lines.
pub fn reserved_item(item: &Item) -> Option<u32>
    ensures { result ≡ spec.reserved_item item.now }
{
    match item {
        Item::Property(span, property) => at_if(is_dunder(&property.name.text), span.start),
        Item::Constraint(_, _) => None,
        Item::Default(_, _) => None,
        Item::Deletion(_, _) => None,
        Item::Annotation(_) => None,
    }
}
