//! Laws of schemas, for proofs that cite them.
ghost use Rattle.ev_schema.specs.Facts.{ComputedIsBounded};
ghost use Rattle.ev_schema.specs.Numbered.{MadeIsNumbered};

/// Once an expression is known, its pointer has its bounds, and what is known of the others stays.
pub fn computed_is_bounded()
    ensures { ComputedIsBounded }
{}

/// Each type and each pointer of a schema of some parts has a number of 32 bits, where the parts leave one for `id`.
pub fn made_is_numbered()
    ensures { MadeIsNumbered }
{}
