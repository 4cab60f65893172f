//! What is around a place in the text.
ghost use Rattle.std.specs.Prelude.{◌≡◌};
ghost use Rattle.ev_names.specs.Names.{place_of};
ghost use Rattle.std.specs.Option.{option_copied};
ghost use Rattle.eql_naming.specs.Around as spec;

use core_ir::{Alias, Path, Root};
use ev_names::Names;
use ev_value::Text;
use sqlite_items::at;

/// What partial paths go on from.
#[derive(Drop)]
pub struct Subject {
    /// The root's name as written, `_` for one that is no name.
    pub name: Text,
    pub path: Path,
    /// Whether it is that of an element `p: {..}`, whose link properties `@` names.
    pub of_element: bool,
}

/// The names and subjects around a place, the innermost first.
#[derive(Clone, Copy)]
pub enum Around<'a> {
    Nothing,
    /// The variable of a `for` and its number.
    Variable(&'a Around<'a>, &'a Text, u32),
    /// The aliases of one `with`, as far as they are defined.
    Aliases(&'a Around<'a>, &'a Names, &'a [Alias]),
    Subject(&'a Around<'a>, &'a Subject),
}

// The alias with a name among those of one `with`.
fn alias_named(names: &Names, aliases: &[Alias], name: &Text) -> Option<Root>
    ensures { result ≡ spec.alias_at aliases.now (place_of name.now names.now) }
{
    let place = names.find(name)?;
    match at(aliases, place) {
        Some(alias) => Some(Root::Alias(alias.number)),
        None => None,
    }
}

/// The alias or variable with a name, the innermost one.
pub fn find(around: &Around<'_>, name: &Text) -> Option<Root>
    ensures { result ≡ spec.find (spec.entries around.now) name.now }
{
    match around {
        Around::Nothing => None,
        Around::Variable(outer, other, number) => {
            if other.as_str() == name.as_str() {
                Some(Root::Var(*number))
            } else {
                find(outer, name)
            }
        }
        Around::Aliases(outer, names, aliases) => match alias_named(names, aliases, name) {
            Some(root) => Some(root),
            None => find(outer, name),
        },
        Around::Subject(outer, _) => find(outer, name),
    }
}

/// The innermost subject.
pub fn subject_of<'a>(around: &Around<'a>) -> Option<&'a Subject>
    ensures { option_copied result ≡ spec.subject_of (spec.entries around.now) }
{
    match around {
        Around::Nothing => None,
        Around::Variable(outer, _, _) => subject_of(outer),
        Around::Aliases(outer, _, _) => subject_of(outer),
        Around::Subject(_, subject) => Some(*subject),
    }
}

/// The innermost subject, where it is that of an element `p: {..}`.
pub fn element_of<'a>(around: &Around<'a>) -> Option<&'a Subject>
    ensures { option_copied result ≡ spec.of_element (spec.subject_of (spec.entries around.now)) }
{
    match subject_of(around) {
        Some(subject) if subject.of_element => Some(subject),
        _ => None,
    }
}
