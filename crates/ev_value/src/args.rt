//! What a caller hands to a query beside its text.

use crate::text::Text;
use crate::value::Val;
use sqlite_items::Items;

/// A name with its value.
#[derive(Drop)]
pub struct Argument {
    pub name: Text,
    pub value: Val,
}

/// The values of globals and of parameters. Of two entries with one name in a list the first counts.
#[derive(Drop)]
pub struct Args {
    pub globals: Items<Argument>,
    pub params: Items<Argument>,
}
