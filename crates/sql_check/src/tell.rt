//! What fails is told.
ghost use Rattle.std.specs.Prelude.{◌≡◌, ◌++◌, OnOk};
ghost use Rattle.sql_check.specs.Types as types;

use crate::verdict::Verdict;
use ev_value::List;
use std::alloc::AllocError;

/// Adds the byte of what fails.
pub fn told(verdict: &Verdict, byte: u32, found: &mut List<u32>) -> Result<(), AllocError>
    ensures { OnOk result (found.new ≡ found.old ++ types.failing verdict.now byte) }
{
    match verdict {
        Verdict::Has(_) => Ok(()),
        Verdict::Fails => found.push(byte),
        Verdict::Unjudged => Ok(()),
    }
}
