//! The paths that a scope binds.

use core_ir::Path;
use ev_value::Text;

/// A path that a scope binds to one value after the other, with everything that begins with it.
#[derive(Drop)]
pub struct Prefix {
    pub path: Path,
    /// The name of the path's root as written; `_` for a subject or a base.
    pub name: Text,
    /// Whether the scope goes on, without a value, where the path has none.
    pub optional: bool,
}
