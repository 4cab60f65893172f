//! Why a query or an expression of a schema is refused by its names.
ghost use Rattle.std.specs.Prelude.{◌≡◌};
ghost use Rattle.eql_naming.specs.declared.refusal.NameRefusal.TheVariants as refusal;

use std::alloc::AllocError;

/// A rule on names and on where parts may stand.
#[derive(Clone, Copy, Debug, PartialEq, Eq)]
pub enum NameRule {
    /// A name, a function, a global or a parameter is unknown.
    N1,
    /// A type in a cast or in `[is T]` is unknown.
    N3,
    /// A partial path stands where there is no subject.
    N4,
    /// One `with` names an alias twice.
    N5,
    /// One shape names an element twice.
    N6,
    /// A form that is no part of the language here, or a module that is neither `std` nor `default`.
    N7,
    /// `@` is a step, or stands outside the shape and clauses of an element `p: {..}`.
    P1,
    /// A shape stands where no result does.
    P2,
    /// No `[is T]` follows a back link.
    P3,
}

/// Why no tree is answered.
#[derive(Clone, Copy, Debug, PartialEq, Eq)]
pub enum NameRefusal {
    /// Memory ran out.
    Memory,
    /// The rule that fails first, and the byte where it does.
    Rule(NameRule, u32),
}

impl From<AllocError> for NameRefusal {
    ghost from_gives = { λ _ e. e ≡ refusal.Memory };

    fn from(_e: AllocError) -> NameRefusal {
        NameRefusal::Memory
    }
}
