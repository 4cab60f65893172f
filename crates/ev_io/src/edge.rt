//! The trusted edge: a shelf over real files and a sink over a real stream. Neither tells what it holds or has taken.
//! An interrupted read or write is a fault as any other, and is not tried again.
ghost use Rattle.std.specs.Prelude.{◌≡◌, ◌↔◌, ◌<◌, ◌≤◌, MatchResult, is_ok, if◌then◌else◌, IfOk, IfSome, length, take, vec_len};
ghost use Rattle.std.specs.Io.KnownBytes.{Appends};
ghost use Rattle.std.specs.IoError.{error_kind};
ghost use Rattle.ev_io.specs.Shelf.{ReadGives, ReadEnds};
ghost use Rattle.ev_io.specs.Sink.{PutTakes, PutFails};
ghost use Rattle.ev_io.specs.Count.{counted};
ghost use Rattle.ev_io.specs.Edge.{AppendsFront, GivesBlock, count_after};

use crate::shelf::{Shelf, ShelfError};
use crate::sink::{Sink, SinkError};
use ev_value::Bytes;
use std::alloc::{AllocError, Global};
use std::io::{ErrorKind, Read, Write};
use std::rt::Files;
use std::{fs, io};

/// How many bytes one read asks for.
const BLOCK: usize = 65536;

/// A shelf over the files of a runtime, where a name is a path. It counts its faults.
#[derive(Drop)]
pub struct FileShelf<R> {
    rt: R,
    faults: u64,
}

impl<R> FileShelf<R> {
    /// A shelf that has no fault yet. The runtime may be lent, as `&rt`.
    pub fn new(rt: R) -> FileShelf<R>
        ensures { result ≡ record { rt = rt; faults = 0 } }
    {
        FileShelf { rt, faults: 0 }
    }
}

impl<R: Files + AllocGlobal> Shelf for FileShelf<R> {
    ghost use Rattle.ev_io.specs.Edge.{untold_shelf};

    ghost seen = { λ s. untold_shelf s.faults };

    fn read(&mut self, name: &str, most: u64) -> Result<Bytes, ShelfError>
        ensures told { MatchResult result
            (λ bytes. ReadGives (untold_shelf self.old.faults) name.now most bytes (untold_shelf self.new.faults))
            (λ e. ReadEnds e (untold_shelf self.old.faults) name.now (untold_shelf self.new.faults)) }
        ensures count { self.new.faults ≡ count_after result self.old.faults }
    {
        match read_file(&self.rt, name, most) {
            Ok(bytes) => Ok(Bytes::from_vec(bytes)),
            Err(ShelfError::Memory) => Err(ShelfError::Memory),
            Err(ShelfError::Failed) => {
                self.faults = self.faults.saturating_add(1);
                Err(ShelfError::Failed)
            }
        }
    }
}

/// Why a step of the outside gave nothing: want of memory, or a failure.
fn cause_of(error: io::Error) -> ShelfError
    ensures { (result ≡ ShelfError.Memory) ↔ (error_kind error ≡ ErrorKind.OutOfMemory) }
{
    match error.kind() {
        ErrorKind::OutOfMemory => ShelfError::Memory,
        _ => ShelfError::Failed,
    }
}

fn read_file<R: Files + AllocGlobal>(rt: &R, path: &str, most: u64) -> Result<Vec<u8>, ShelfError>
    ensures { IfOk result (λ bytes. length bytes.items ≤ most) }
{
    let mut file = fs::open(rt, path).map_err(cause_of)?;
    read_front(rt.alloc(), &mut file, most)
}

/// The first `most` bytes of what the reader has left, or all where there are fewer.
fn read_front<F: Read>(alloc: Global, file: &mut F, most: u64) -> Result<Vec<u8>, ShelfError>
    ensures within { IfOk result (λ bytes. length bytes.items ≤ most) }
    ensures front { IfOk result (λ bytes. IfSome (F.remaining file.old) (λ left. bytes.items ≡ take most left)) }
{
    let mut block = block_of(alloc).map_err(|_| ShelfError::Memory)?;
    let mut bytes = Vec::new(alloc);
    while (bytes.len() as u64) < most {
        if read_block(file, &mut block, &mut bytes, most)? == 0 {
            return Ok(bytes);
        }
    }
    Ok(bytes)
}

fn block_of(alloc: Global) -> Result<Vec<u8>, AllocError>
    ensures { IfOk result (λ block. 0 < vec_len block) }
{
    vec![in alloc; 0u8; BLOCK]
}

/// Reads one block to the end of `bytes`, up to `most` bytes in all. Says how many came; none is the end.
fn read_block<F: Read>(
    file: &mut F,
    block: &mut [u8],
    bytes: &mut Vec<u8>,
    most: u64,
) -> Result<usize, ShelfError>
    requires room { 0 < length block.old }
    requires more { vec_len bytes.old < most }
    ensures { IfOk result (GivesBlock (F.remaining file.old) (F.remaining file.new) bytes.old.items bytes.new.items most) }
{
    let wanted = ((most - bytes.len() as u64) as usize).min(block.len());
    let part = &mut block[..wanted];
    let count = file.read(part).map_err(cause_of)?;
    bytes
        .extend_from_slice(&part[..count])
        .map_err(|_| ShelfError::Memory)?;
    Ok(count)
}

/// A sink over a stream, as standard output or standard error. It counts its faults.
#[derive(Drop)]
pub struct StreamSink<W> {
    stream: W,
    faults: u64,
}

impl<W> StreamSink<W> {
    /// A sink that has no fault yet.
    pub fn new(stream: W) -> StreamSink<W>
        ensures { result ≡ record { stream = stream; faults = 0 } }
    {
        StreamSink { stream, faults: 0 }
    }
}

impl<W: Write> Sink for StreamSink<W> {
    ghost use Rattle.ev_io.specs.Edge.{untold_sink};

    ghost seen = { λ s. untold_sink s.faults };

    /// Ends with a flush. Where the stream tells what it holds, `Ok` says that the whole piece came to it.
    fn put(&mut self, piece: &[u8]) -> Result<(), SinkError>
        ensures told { MatchResult result
            (λ _. PutTakes (untold_sink self.old.faults) piece.now (untold_sink self.new.faults))
            (λ _. PutFails (untold_sink self.old.faults) piece.now (untold_sink self.new.faults)) }
        ensures bytes { MatchResult result
            (λ _. Appends (W.contents self.old.stream) (W.contents self.new.stream) piece.now)
            (λ _. AppendsFront (W.contents self.old.stream) (W.contents self.new.stream) piece.now) }
        ensures count { self.new.faults ≡ (if is_ok result then self.old.faults else counted 1 self.old.faults) }
    {
        match write_whole(&mut self.stream, piece) {
            Ok(()) => Ok(()),
            Err(_) => {
                self.faults = self.faults.saturating_add(1);
                Err(SinkError::Failed)
            }
        }
    }
}

/// Writes the whole piece, and flushes.
fn write_whole<W: Write>(stream: &mut W, piece: &[u8]) -> Result<(), SinkError>
    ensures { MatchResult result
        (λ _. Appends (W.contents stream.old) (W.contents stream.new) piece.now)
        (λ _. AppendsFront (W.contents stream.old) (W.contents stream.new) piece.now) }
{
    let mut done = 0;
    while done < piece.len() {
        match stream.write(&piece[done..]) {
            Ok(0) | Err(_) => return Err(SinkError::Failed),
            Ok(count) => done += count,
        }
    }
    match stream.flush() {
        Ok(()) => Ok(()),
        Err(_) => Err(SinkError::Failed),
    }
}

#[cfg(test)]
mod tests {
    use super::*;
    use std::test::Fail;

    /// A writer that takes at most two bytes at a time, and fails or takes nothing after some writes.
    #[derive(Drop)]
    struct Flaky {
        taken: Vec<u8>,
        writes_left: u64,
        is_full: bool,
        flushes: bool,
    }

    impl Write for Flaky {
        fn write(&mut self, buf: &[u8]) -> io::Result<usize> {
            if self.writes_left == 0 {
                if self.is_full {
                    return Ok(0);
                }
                return Err(io::Error::from(ErrorKind::BrokenPipe));
            }
            self.writes_left -= 1;
            let count = buf.len().min(2);
            self.taken.extend_from_slice(&buf[..count])?;
            Ok(count)
        }

        fn flush(&mut self) -> io::Result<()> {
            if self.flushes {
                Ok(())
            } else {
                Err(io::Error::from(ErrorKind::StorageFull))
            }
        }
    }

    #[test]
    fn puts_to_a_stream(rt: HostRuntime) -> Result<(), Fail> {
        // How many writes go well, whether the writer then takes nothing, whether it flushes;
        // what came to the stream, and the count of faults.
        let rows = [
            (9, false, true, "abcde", 0),
            (3, false, true, "abcde", 0),
            (2, false, true, "abcd", 1),
            (1, true, true, "ab", 1),
            (0, false, true, "", 1),
            (9, false, false, "abcde", 1),
        ];
        for (writes_left, is_full, flushes, taken, faults) in rows {
            let mut sink = StreamSink::new(Flaky {
                taken: Vec::new(rt.alloc()),
                writes_left,
                is_full,
                flushes,
            });
            let is_ok = sink.put(b"abcde").is_ok();
            assert_eq!(rt;
                (is_ok, sink.faults),
                (faults == 0, faults),
                "after {writes_left} writes"
            );
            assert!(rt;
                sink.stream.taken.as_slice() == taken.as_bytes(),
                "after {writes_left} writes"
            );
        }
        Ok(())
    }

    fn gives<H: Shelf>(shelf: &mut H, name: &str, most: u64, due: &[u8]) -> bool {
        match shelf.read(name, most) {
            Ok(bytes) => bytes.as_slice() == due,
            Err(_) => false,
        }
    }

    fn fails<H: Shelf>(shelf: &mut H, name: &str) -> bool {
        matches!(shelf.read(name, 9), Err(ShelfError::Failed))
    }

    /// Three blocks and a bit, of which no two neighbours are alike.
    fn long_text(alloc: Global) -> Result<Vec<u8>, AllocError>
        ensures { IfOk result (λ text. vec_len text ≡ 200000) }
    {
        let mut text = vec![in alloc; 0u8; 200000]?;
        for (i, byte) in text.iter_mut().enumerate() {
            *byte = (i % 251) as u8;
        }
        Ok(text)
    }

    #[test]
    fn reads_a_file(rt: HostRuntime) -> Result<(), Fail> {
        let path = "ev_io_reads_a_file.tmp";
        let text = long_text(rt.alloc())?;
        fs::write(&rt, path, text.as_slice())?;
        let mut shelf = FileShelf::new(&rt);
        for most in [0usize, 1, 65536, 65537, 199999, 200000, 200001] {
            let due = &text[..most.min(200000)];
            assert!(rt;
                gives(&mut shelf, path, most as u64, due),
                "the first {most} bytes"
            );
        }
        fs::remove_file(&rt, path)?;
        assert!(rt; fails(&mut shelf, path), "a name without a file");
        assert!(rt; fails(&mut shelf, "."), "a folder");
        assert_eq!(rt; shelf.faults, 2);
        Ok(())
    }
}
