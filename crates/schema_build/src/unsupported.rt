//! M11: what the schema language has and this one has not. Modules stand in `parts`.
ghost use Rattle.std.specs.Prelude.{◌≡◌};
ghost use Rattle.schema_build.specs.Unsupported as spec;

use crate::least::at_if;
use crate::literal::literal_type;
use sdl_ast::{Deletion, DeletionWord, Item, Member};

/// `overloaded`
pub fn unsupported_member(member: &Member) -> Option<u32>
    ensures { result ≡ spec.unsupported_member member.now }
{
    match member {
        Member::Pointer(span, pointer) => at_if(pointer.overloaded, span.start),
        Member::Policy(_, _) => None,
        Member::Index(_, _) => None,
        Member::Annotation(_) => None,
    }
}

fn says_restrict(word: &DeletionWord) -> bool
    ensures { result ≡ spec.says_restrict word.now }
{
    match word {
        DeletionWord::Name(name) => name
            .text
            .as_str()
            .as_bytes()
            .eq_ignore_ascii_case(b"restrict"),
        DeletionWord::Delete(_) => false,
    }
}

fn is_restrict(deletion: &Deletion) -> bool
    ensures { result ≡ spec.is_restrict deletion.now }
{
    says_restrict(&deletion.first) && deletion.more.is_empty()
}

/// `overloaded`, `delegated`, a deletion rule other than `restrict`, or a default that is no literal.
pub fn unsupported_item(item: &Item) -> Option<u32>
    ensures { result ≡ spec.unsupported_item item.now }
{
    match item {
        Item::Property(span, property) => at_if(property.overloaded, span.start),
        Item::Constraint(span, constraint) => at_if(constraint.delegated, span.start),
        Item::Default(span, value) => at_if(literal_type(value).is_none(), span.start),
        Item::Deletion(span, deletion) => at_if(!is_restrict(deletion), span.start),
        Item::Annotation(_) => None,
    }
}
