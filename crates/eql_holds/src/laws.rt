//! Laws of what holds, as the contract of a function that does nothing.
ghost use Rattle.eql_holds.specs.Holds.{HoldingIsKept};

/// What holds of lists holds of what is made of them.
#[tactic(auto, using(crate::proofs::Keeping::holding_is_kept))]
pub fn holding_is_kept<A, B>()
    ensures { HoldingIsKept A B }
{}
