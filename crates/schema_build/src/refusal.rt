//! Why a schema text is refused.

use std::alloc::AllocError;

/// A rule that schemas keep.
#[derive(Clone, Copy, Debug, PartialEq, Eq)]
pub enum Rule {
    /// A type or a global is declared twice.
    M1,
    /// A type is unknown, or does not suit where it stands.
    M2,
    /// A type extends itself.
    M3,
    /// A type has one name of a pointer from two types, or declares it twice.
    M4,
    /// A constraint or a default does not suit the type of its pointer.
    M5,
    /// A link property is not plain, is of no scalar type, stands on a property or is written twice.
    M6,
    /// A name is not free.
    M10,
    /// A part of the schema language that is left out here.
    M11,
}

/// A rule that fails, and the byte at which it does.
#[derive(Clone, Copy, Debug, PartialEq, Eq)]
pub struct Broken {
    pub rule: Rule,
    pub byte: u32,
}

/// Why there is no schema.
#[derive(Clone, Copy, Debug, PartialEq, Eq)]
pub enum SchemaRefusal {
    Build(Broken),
    /// A computed pointer or a policy stands in the text.
    Unbuilt,
    /// Want of memory, which may come anywhere.
    Memory,
}

impl From<AllocError> for SchemaRefusal {
    ghost use Rattle.std.specs.Prelude.{◌≡◌};
    ghost use Rattle.schema_build.specs.declared.refusal.SchemaRefusal.TheVariants as variant;

    ghost from_gives = { λ _ e. e ≡ variant.Memory };

    fn from(_: AllocError) -> SchemaRefusal {
        SchemaRefusal::Memory
    }
}
