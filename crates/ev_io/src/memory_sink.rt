//! A sink in memory, with a bound on what it takes, whose puts fail where it is told.
ghost use Rattle.std.specs.Prelude.{◌≡◌, MatchResult, IfOk, length, is_err, is_some, min, unwrap_or, option_copied, find, nat_eq};
ghost use Rattle.ev_io.specs.Sink.{PutTakes, PutFails};
ghost use Rattle.ev_io.specs.MemorySink.{fresh_sink, first_entry, next_failure, part_taken, does_fail, after_put, IsCalm, sink_seen};

use crate::sink::{Sink, SinkError};
use ev_value::List;
use std::alloc::{AllocError, Global};
use std::marker::Model;

/// A put that is to fail: its place among the puts, counted from 0, and how many bytes it takes at most.
#[derive(Clone, Copy)]
pub struct FailingPut {
    pub call: u64,
    pub takes: u64,
}

/// A sink that keeps what it takes, up to its room, and tells it with the number of its puts and of the bytes handed in.
#[derive(Drop)]
pub struct MemSink {
    room: usize,
    failing: List<FailingPut>,
    taken: Vec<u8>,
    puts: u64,
    handed: u64,
    faults: u64,
}

impl Model for MemSink {
    ghost use Rattle.std.specs.Prelude.{◌≤◌, ◌<◌, ◌^◌, vec_len, vec_capacity};
    ghost use Rattle.ev_io.specs.MemorySink.{SinkState, IsKept};

    ghost Value = { SinkState };

    ghost view = { λ s. record { room = s.room; failing = s.failing; taken = s.taken.items; puts = s.puts; handed = s.handed; faults = s.faults } };

    ghost invariant = { λ s. (s.room ≤ vec_capacity s.taken) × (s.room < 2 ^ 63) × IsKept (record { room = s.room; failing = s.failing; taken = s.taken.items; puts = s.puts; handed = s.handed; faults = s.faults }) };
}

impl MemSink {
    /// An empty sink with memory for `room` bytes. A put whose place, counted from 0, is listed among the `failing`
    /// takes that many bytes, at most the piece and the room that is left, and fails; of several entries for one put
    /// the first counts. A put that is not listed fails where the piece is past the room, and takes what fits.
    pub fn new(alloc: Global, room: u64, failing: List<FailingPut>) -> Result<MemSink, AllocError>
        ensures fresh { IfOk result (λ sink. sink ≡ fresh_sink room failing) }
        ensures calm { IfOk result IsCalm }
    {
        let room = room as usize;
        let taken = Vec::with_capacity(alloc, room)?;
        Ok(MemSink {
            room,
            failing,
            taken,
            puts: 0,
            handed: 0,
            faults: 0,
        })
    }

    /// All that was taken, in its order.
    pub fn taken(&self) -> &[u8]
        ensures bytes { result.now ≡ self.now.taken }
        ensures calm { IsCalm self.now }
    {
        self.taken.as_slice()
    }

    /// The entry for the next put. No entry is for the place where the count of puts stops.
    fn next_failure(&self) -> Option<FailingPut>
        ensures { result ≡ next_failure self.now }
    {
        if self.puts == u64::MAX {
            return None;
        }
        find_entry(self.failing.as_slice(), self.puts).copied()
    }

    /// How many bytes of a piece of this size the next put takes.
    fn part_of(&self, size: usize, listed: Option<FailingPut>) -> usize
        requires { listed ≡ next_failure self.now }
        ensures { result ≡ part_taken self.now size }
    {
        let left = self.room - self.taken.len();
        match listed {
            Some(failure) => size.min(failure.takes as usize).min(left),
            None => size.min(left),
        }
    }
}

/// The first entry that names the put at this place.
fn find_entry(failing: &[FailingPut], place: u64) -> Option<&FailingPut>
    ensures { option_copied result ≡ first_entry failing.now place }
{
    failing.iter().find(|failure| failure.call == place)
}

impl Sink for MemSink {
    ghost use Rattle.ev_io.specs.MemorySink.{sink_seen};

    ghost seen = { sink_seen };

    fn put(&mut self, piece: &[u8]) -> Result<(), SinkError>
        ensures told { MatchResult result
            (λ _. PutTakes (sink_seen self.old) piece.now (sink_seen self.new))
            (λ _. PutFails (sink_seen self.old) piece.now (sink_seen self.new)) }
        ensures fails { is_err result ≡ does_fail self.old (length piece.now) }
        ensures after { self.new ≡ after_put self.old piece.now }
        ensures calm { IsCalm self.new }
    {
        let listed = self.next_failure();
        let part = self.part_of(piece.len(), listed);
        let fails = listed.is_some() || part < piece.len();
        match self.taken.extend_from_slice(&piece[..part]) {
            Ok(()) => {}
            // The memory was taken at the start.
            Err(_) => unreachable!(),
        }
        self.puts = self.puts.saturating_add(1);
        self.handed = self.handed.saturating_add(piece.len() as u64);
        if fails {
            self.faults = self.faults.saturating_add(1);
            return Err(SinkError::Failed);
        }
        Ok(())
    }
}

#[cfg(test)]
mod tests {
    use super::*;
    use std::test::Fail;

    #[test]
    fn takes_up_to_its_room(rt: HostRuntime) -> Result<(), Fail> {
        let piece = b"[3,2]\n";
        for room in 0..8u64 {
            let mut sink = MemSink::new(rt.alloc(), room, List::new(rt.alloc()))?;
            let result = sink.put(piece);
            let end = piece.len().min(room as usize);
            assert_eq!(rt; result.is_ok(), room >= 6, "room for {room}");
            assert_eq!(rt; sink.taken(), &piece[..end], "room for {room}");
        }
        Ok(())
    }

    #[test]
    fn fails_where_it_is_told(rt: HostRuntime) -> Result<(), Fail> {
        let listed = [
            FailingPut { call: 1, takes: 2 },
            FailingPut { call: 3, takes: 9 },
            FailingPut { call: 1, takes: 0 },
        ];
        let failing = List::from_slice(rt.alloc(), &listed)?;
        let mut sink = MemSink::new(rt.alloc(), 9, failing)?;
        let rows = [
            ("ab", true, "ab"),
            ("cde", false, "abcd"),
            ("", true, "abcd"),
            ("fg", false, "abcdfg"),
            ("hijk", false, "abcdfghij"),
        ];
        for (piece, well, taken) in rows {
            let result = sink.put(piece.as_bytes());
            assert_eq!(rt; result.is_ok(), well, "at {piece}");
            assert_eq!(rt; sink.taken(), taken.as_bytes(), "at {piece}");
        }
        assert_eq!(rt; (sink.puts, sink.handed, sink.faults), (5, 11, 3));
        Ok(())
    }
}
