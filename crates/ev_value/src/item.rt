//! Items: what an expression gives, one after the other.
ghost use Rattle.std.specs.Prelude.{◌≡◌};
ghost use Rattle.ev_value.specs.Item.{fault_number};

use crate::value::Val;

/// Why an expression has no value at some place. A fault stands in the list of items where the value would stand.
#[derive(Clone, Copy, PartialEq, Eq)]
pub enum Fault {
    /// A number left the range of 64 bits.
    IntOverflow,
    DivisionByZero,
    /// A text that a cast could not read.
    CastText,
    /// `assert_single` saw more than one item.
    AssertSingle,
    /// `assert_exists` saw none.
    AssertExists,
    /// `assert_distinct` saw an item twice.
    AssertDistinct,
    /// An offset or a limit below zero.
    NegativeLimit,
}

impl Fault {
    /// The number that the fault is told by.
    pub fn number(self) -> u8
        ensures { result ≡ fault_number self }
    {
        match self {
            Fault::IntOverflow => 1,
            Fault::DivisionByZero => 2,
            Fault::CastText => 3,
            Fault::AssertSingle => 4,
            Fault::AssertExists => 5,
            Fault::AssertDistinct => 6,
            Fault::NegativeLimit => 7,
        }
    }
}

/// A value, or the fault that stands in its place.
#[derive(Drop)]
pub enum Item<T = Val> {
    Value(T),
    Fault(Fault),
}
