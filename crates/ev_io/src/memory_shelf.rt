//! A shelf in memory, whose reads fail where it is told.
ghost use Rattle.std.specs.Prelude.{◌≡◌, MatchResult, is_none, option_copied, take, IfOk, OnOk, OnErr, true, false};
ghost use Rattle.ev_io.specs.Shelf.{ReadGives, ReadEnds};
ghost use Rattle.ev_io.specs.MemoryShelf.{fresh_shelf, first_named, calls_told, with_call, due_bytes, ReadStops, shelf_seen};

use crate::shelf::{Shelf, ShelfError};
use ev_value::{Bytes, List, Text};
use std::alloc::{AllocError, Global};
use std::marker::Model;

/// A document under its name.
#[derive(Drop)]
pub struct File {
    pub name: Text,
    pub bytes: Bytes,
}

/// A read that a shelf answered: under which name, and whether by a failure.
#[derive(Drop)]
pub struct ReadCall {
    pub name: Text,
    pub failed: bool,
}

/// A shelf that holds its files in memory and tells them, with the calls that it answered.
/// Of several files with one name it holds the first.
#[derive(Drop)]
pub struct MemShelf {
    alloc: Global,
    files: List<File>,
    failing: List<u64>,
    calls: List<ReadCall>,
}

impl Model for MemShelf {
    ghost use Rattle.ev_io.specs.MemoryShelf.{ShelfState, calls_told};

    ghost Value = { ShelfState };

    ghost view = { λ s. record { files = s.files; failing = s.failing; calls = calls_told s.calls } };
}

impl MemShelf {
    /// A shelf of these files without a call. A call fails where its place in the list of calls, counted from 0,
    /// is among the `failing`, or where no file has its name.
    pub fn new(alloc: Global, files: List<File>, failing: List<u64>) -> MemShelf
        ensures { result ≡ fresh_shelf files failing }
    {
        MemShelf {
            alloc,
            files,
            failing,
            calls: List::new(alloc),
        }
    }

    /// The calls that were answered, in their order.
    pub fn calls(&self) -> &[ReadCall]
        ensures { calls_told result.now ≡ self.now.calls }
    {
        self.calls.as_slice()
    }

    /// What the next call is due to give, in memory of its own; nothing where it is due to fail.
    fn next_bytes(&self, name: &str, most: u64) -> Result<Option<Bytes>, AllocError>
        ensures { IfOk result (λ given. given ≡ due_bytes self.now name.now most) }
    {
        let place = self.calls.len() as u64;
        if self.failing.as_slice().contains(&place) {
            return Ok(None);
        }
        match find_file(self.files.as_slice(), name) {
            None => Ok(None),
            Some(file) => Ok(Some(front(self.alloc, file.bytes.as_slice(), most)?)),
        }
    }

    /// Notes an answered call.
    fn note(&mut self, name: &str, failed: bool) -> Result<(), AllocError>
        ensures ok { OnOk result (self.new ≡ with_call self.old name.now failed) }
        ensures err { OnErr result (self.new ≡ self.old) }
    {
        let name = Text::from_str(self.alloc, name)?;
        self.calls.push(ReadCall { name, failed })?;
        Ok(())
    }

    fn answer(&mut self, name: &str, most: u64) -> Result<Option<Bytes>, AllocError>
        ensures ok { IfOk result (λ given. (given ≡ due_bytes self.old name.now most)
            × (self.new ≡ with_call self.old name.now (is_none given))) }
        ensures err { OnErr result (self.new ≡ self.old) }
    {
        let given = self.next_bytes(name, most)?;
        self.note(name, given.is_none())?;
        Ok(given)
    }
}

/// The first file with the name.
fn find_file<'a>(files: &'a [File], name: &str) -> Option<&'a File>
    ensures { option_copied result ≡ first_named files.now name.now }
{
    files.iter().find(|file| file.name.as_str() == name)
}

/// The first `most` bytes, or all where there are fewer.
fn front(alloc: Global, bytes: &[u8], most: u64) -> Result<Bytes, AllocError>
    ensures { IfOk result (λ given. given ≡ take most bytes.now) }
{
    let end = bytes.len().min(most as usize);
    Bytes::from_slice(alloc, &bytes[..end])
}

impl Shelf for MemShelf {
    ghost use Rattle.ev_io.specs.MemoryShelf.{shelf_seen};

    ghost seen = { shelf_seen };

    fn read(&mut self, name: &str, most: u64) -> Result<Bytes, ShelfError>
        ensures told { MatchResult result
            (λ bytes. ReadGives (shelf_seen self.old) name.now most bytes (shelf_seen self.new))
            (λ e. ReadEnds e (shelf_seen self.old) name.now (shelf_seen self.new)) }
        ensures exact { MatchResult result
            (λ bytes. (due_bytes self.old name.now most ≡ Some bytes) × (self.new ≡ with_call self.old name.now false))
            (λ e. ReadStops e (due_bytes self.old name.now most) self.old name.now self.new) }
    {
        match self.answer(name, most) {
            Ok(Some(bytes)) => Ok(bytes),
            Ok(None) => Err(ShelfError::Failed),
            Err(_) => Err(ShelfError::Memory),
        }
    }
}

#[cfg(test)]
mod tests {
    use super::*;
    use std::test::Fail;

    fn file(alloc: Global, name: &str, text: &str) -> Result<File, AllocError> {
        Ok(File {
            name: Text::from_str(alloc, name)?,
            bytes: Bytes::from_slice(alloc, text.as_bytes())?,
        })
    }

    #[test]
    fn reads_what_is_held(rt: HostRuntime) -> Result<(), Fail> {
        let mut files = List::new(rt.alloc());
        for (name, text) in [("a", "1"), ("b", "22"), ("a", "333")] {
            files.push(file(rt.alloc(), name, text)?)?;
        }
        let failing = List::from_slice(rt.alloc(), &[1, 4])?;
        let mut shelf = MemShelf::new(rt.alloc(), files, failing);
        let rows = [
            ("a", 10, Some("1")),
            ("b", 10, None),
            ("b", 1, Some("2")),
            ("c", 10, None),
            ("a", 10, None),
            ("b", 0, Some("")),
        ];
        for (name, most, due) in rows {
            match (shelf.read(name, most), due) {
                (Ok(bytes), Some(text)) => assert_eq!(rt;
                    bytes.as_slice(),
                    text.as_bytes(),
                    "under {name}"
                ),
                (Err(ShelfError::Failed), None) => {}
                _ => panic!(rt; "{most} bytes under {name}"),
            }
        }
        assert_eq!(rt; shelf.calls().len(), rows.len());
        for (call, (name, _, due)) in shelf.calls().iter().zip(rows) {
            assert_eq!(rt; call.name.as_str(), name);
            assert_eq!(rt; call.failed, due.is_none(), "under {name}");
        }
        Ok(())
    }
}
