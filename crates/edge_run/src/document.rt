//! Documents, read and measured.
ghost use Rattle.std.specs.Prelude.{◌≡◌, IfOk};
ghost use Rattle.edge_run.specs.Limits.{limit_of, IsShort};
ghost use Rattle.edge_run.specs.Modes.{document};
ghost use Rattle.edge_run.specs.Plan.{Goes};

use crate::outcome::{Doc, Outcome};
use ev_io::{Shelf, ShelfError};
use ev_value::{Bytes, Text};

/// How many bytes a document may have.
pub fn limit(doc: Doc) -> u64
    ensures { result ≡ limit_of doc }
{
    match doc {
        Doc::Data => 67_108_864,
        Doc::Schema | Doc::Query | Doc::Args => 1_048_576,
    }
}

/// The text of a document, unless it is too long: one byte more than its limit is asked for, so that a longer one shows itself.
#[tactic(auto, using(crate::proofs::Documents::read_short, crate::proofs::Documents::read_long, crate::proofs::Documents::read_failed, crate::proofs::Documents::read_stopped))]
pub fn read<H: Shelf>(shelf: &mut H, doc: Doc, name: &Text) -> Result<Bytes, Outcome>
    ensures text { Goes (document doc name.now) (H.seen shelf.old) result (H.seen shelf.new) }
    ensures short { IfOk result (λ text. IsShort doc text) }
{
    match shelf.read(name.as_str(), limit(doc) + 1) {
        Ok(text) if text.len() as u64 <= limit(doc) => Ok(text),
        Ok(_) => Err(Outcome::TooLong(doc)),
        Err(ShelfError::Failed) => Err(Outcome::ReadFault(doc)),
        Err(ShelfError::Memory) => Err(Outcome::Memory),
    }
}
