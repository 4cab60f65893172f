//! Where a link leads from.

use core_ir::PtrId;

/// A link and the place of an object that has it.
#[derive(Clone, Copy, Drop)]
pub struct Source {
    pub link: PtrId,
    pub place: usize,
}
