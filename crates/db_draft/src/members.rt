//! What stands under a name.
ghost use Rattle.std.specs.Prelude.{◌≡◌};
ghost use Rattle.std.specs.Option.{option_copied};
ghost use Rattle.db_draft.specs.Members.{member as member_in, field as field_in};

use crate::draft::{Draft, Field, Member, Plain};

/// What stands under a pointer's name. None where nothing does.
pub fn member<'a>(members: &'a [Member], name: &str) -> Option<&'a Draft>
    ensures { option_copied result ≡ member_in members.now name.now }
{
    for member in members {
        if member.name.as_str() == name {
            return Some(&member.value);
        }
    }
    None
}

/// What stands under a key of a target. None where nothing does.
pub fn field<'a>(fields: &'a [Field], name: &str) -> Option<&'a Plain>
    ensures { option_copied result ≡ field_in fields.now name.now }
{
    for field in fields {
        if field.name.as_str() == name {
            return Some(&field.value);
        }
    }
    None
}
