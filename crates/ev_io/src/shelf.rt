//! A shelf: documents under names, read one at a time.
ghost use Rattle.std.specs.Prelude.{◌≡◌, MatchResult};
ghost use Rattle.ev_io.specs.Shelf.{ShelfView, ReadGives, ReadEnds};

use ev_value::Bytes;

/// Why a read gave no bytes.
#[derive(Clone, Copy)]
pub enum ShelfError {
    /// The shelf could not read the name. Its count of faults rose.
    Failed,
    /// Want of memory, which may come anywhere. The shelf is as it was.
    Memory,
}

/// Documents under names, as files in a folder.
pub trait Shelf {
    ghost seen: { Self → ShelfView };

    /// The first `most` bytes under the name, or all of them if there are fewer.
    fn read(&mut self, name: &str, most: u64) -> Result<Bytes, ShelfError>
        ensures { MatchResult result
            (λ bytes. ReadGives (seen self.old) name.now most bytes (seen self.new))
            (λ e. ReadEnds e (seen self.old) name.now (seen self.new)) };
}
