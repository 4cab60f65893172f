//! The laws of lists of items, for proofs that cite them.
ghost use Rattle.ev_value.specs.Laws.{BindIsLawful, StandingIsLawful};

/// A loop over the values of a list, with faults in their places, may be split and joined.
pub fn bind_is_lawful<A, B, C>()
    ensures { BindIsLawful A B C }
{}

/// What stands for a list goes on to stand for it in whatever is made of both alike.
pub fn standing_is_lawful<A, B, C, D>()
    ensures { StandingIsLawful A B C D }
{}
