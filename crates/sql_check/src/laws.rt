//! The law of the check.
ghost use Rattle.sql_check.specs.Laws.{ChecksDecide};

/// The checks of names and types decide whether a statement that was read is well formed.
pub fn checks_decide()
    ensures { ChecksDecide }
{}
