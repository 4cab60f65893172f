//! Words that are no reserved words, and mean something where a member or an item begins.

use ast::Name;

/// What a word means where a member begins, if a further word stands behind it.
#[derive(Clone, Copy, Debug, PartialEq, Eq)]
pub enum MemberForm {
    Overloaded,
    Property,
    Link,
    Index,
    Annotation,
    Access,
    /// The word is a name there, whatever stands behind it.
    Other,
}

/// A word where a member begins, which may be a name.
#[derive(Drop)]
pub struct MemberWord {
    pub form: MemberForm,
    pub name: Name,
}

/// What a word means where an item begins, if it is no name there.
#[derive(Clone, Copy, Debug, PartialEq, Eq)]
pub enum ItemForm {
    Overloaded,
    Property,
    Constraint,
    Delegated,
    Default,
    On,
    Annotation,
    /// The word is a name there, whatever stands behind it.
    Other,
}

/// A word where an item begins, which may be a name.
#[derive(Drop)]
pub struct ItemWord {
    pub form: ItemForm,
    pub name: Name,
}
