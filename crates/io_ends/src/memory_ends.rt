ghost use Rattle.std.specs.Prelude.{◌≡◌, ℕ, ◌+◌, ◌-◌, ◌<◌, ◌≤◌, ◌↔◌, ◌⊎◌, [], ◌++◌, length, take, drop, min, Contains, Some, IfOk, IsErr, OnOk, OnErr};
ghost use Rattle.io_ends.specs.Bytes.{Gives, Appends};
ghost use Rattle.io_ends.specs.Count.{one_more, Rose};

use crate::ends::{Sink, Source};
use crate::refusals::Failed;
use no_memory::Memory;
use std::alloc::Global;
use std::marker::Model;

/// A source in memory, some of whose reads fail: reads are counted from 1 up to `u64::MAX`, where the count stops, and a
/// list has the numbers of those that fail.
#[derive(Debug, Drop)]
pub struct MemSource {
    bytes: Vec<u8>,
    given: usize,
    fail: Vec<u64>,
    calls: u64,
    faults: u64,
}

impl Model for MemSource {
    ghost use Rattle.std.specs.Prelude.{◌≤◌, drop, vec_len};
    ghost use Rattle.io_ends.specs.MemSource.{SourceState};

    ghost Value = { SourceState };

    ghost view = { λ s. record {
      left = drop s.given s.bytes.items;
      failing = s.fail.items;
      calls = s.calls;
      faults = s.faults;
    } };

    ghost invariant = { λ s. s.given ≤ vec_len s.bytes };
}

impl MemSource {
    /// A source of these bytes, whose reads with a number in `fail` fail.
    pub fn new(bytes: Vec<u8>, fail: Vec<u64>) -> MemSource
        ensures { result ≡ record { left = bytes.items; failing = fail.items; calls = 0; faults = 0 } }
    {
        MemSource {
            bytes,
            given: 0,
            fail,
            calls: 0,
            faults: 0,
        }
    }
}

impl Source for MemSource {
    ghost remaining = { λ s. Some s.left };

    ghost fault_count = { λ s. s.faults };

    /// Gives as many bytes as are left and fit in `into`, and leaves the rest of `into` as it was.
    ///
    /// # Errors
    ///
    /// `Failed` exactly where this read's number is one of those that fail. It leaves `into` as it was.
    #[tactic(auto, using(crate::proofs::MemSourceLemmas::reads))]
    fn read(&mut self, into: &mut [u8]) -> Result<usize, Failed>
        requires { 0 < length into.old }
        ensures fails { IsErr result ↔ Contains self.old.failing (one_more self.old.calls) }
        ensures count { IfOk result (λ k. k ≡ min (length self.old.left) (length into.old)) }
        ensures filled { IfOk result (λ k. into.new ≡ take k self.old.left ++ drop k into.old) }
        ensures after { IfOk result (λ k. self.new ≡
            record self.old { left = drop k self.old.left; calls = one_more self.old.calls }) }
        ensures untouched { OnErr result (into.new ≡ into.old) }
        ensures after_failed { OnErr result (self.new ≡
            record self.old { calls = one_more self.old.calls; faults = one_more self.old.faults }) }

        // What holds of each source.
        ensures within { IfOk result (λ k. k ≤ length into.new) }
        ensures given { IfOk result (λ k. Gives (Some self.old.left) (Some self.new.left) (take k into.new)) }
        ensures end { IfOk result (λ k. k ≡ 0 ↔ (self.old.left ≡ [])) }
        ensures stays { OnOk result (self.new.faults ≡ self.old.faults) }
        ensures kept { OnErr result (self.new.left ≡ self.old.left) }
        ensures rose { OnErr result (Rose self.old.faults self.new.faults) }
        ensures never_falls { self.old.faults ≤ self.new.faults }
    {
        self.calls = self.calls.saturating_add(1);
        if self.fail.contains(&self.calls) {
            return Err(Failed::counted(&mut self.faults));
        }
        let left = &self.bytes[self.given..];
        let count = left.len().min(into.len());
        into[..count].copy_from_slice(&left[..count]);
        self.given += count;
        Ok(count)
    }

    fn faults(&self) -> u64 {
        self.faults
    }
}

/// A sink in memory with a fixed room, some of whose writes fail: writes are counted from 1 up to `u64::MAX`, where the
/// count stops, and a list has the numbers of those that fail.
///
/// It takes its memory when it is made, and no later call takes any.
#[derive(Debug, Drop)]
pub struct MemSink {
    bytes: Vec<u8>,
    free: usize,
    fail: Vec<u64>,
    calls: u64,
    faults: u64,
}

impl Model for MemSink {
    ghost use Rattle.std.specs.Prelude.{◌+◌, ◌≤◌, vec_len, vec_capacity};
    ghost use Rattle.io_ends.specs.MemSink.{SinkState};

    ghost Value = { SinkState };

    ghost view = { λ s. record {
      held = s.bytes.items;
      free = s.free;
      failing = s.fail.items;
      calls = s.calls;
      faults = s.faults;
    } };

    ghost invariant = { λ s. vec_len s.bytes + s.free ≤ vec_capacity s.bytes };
}

impl MemSink {
    /// An empty sink with room for `room` bytes, whose writes with a number in `fail` fail.
    ///
    /// # Errors
    ///
    /// `Memory` where there is too little memory.
    pub fn new(alloc: Global, room: usize, fail: Vec<u64>) -> Result<MemSink, Memory>
        ensures { IfOk result (λ sink. sink ≡
            record { held = []; free = room; failing = fail.items; calls = 0; faults = 0 }) }
    {
        Ok(MemSink {
            bytes: Vec::with_capacity(alloc, room)?,
            free: room,
            fail,
            calls: 0,
            faults: 0,
        })
    }

    /// What the sink holds.
    pub fn bytes(&self) -> &[u8]
        ensures { result.now ≡ self.now.held }
    {
        &self.bytes
    }
}

impl Sink for MemSink {
    ghost contents = { λ s. Some s.held };

    ghost fault_count = { λ s. s.faults };

    /// Takes as many bytes of `piece` as there is room for.
    ///
    /// # Errors
    ///
    /// `Failed` exactly where this write's number is one of those that fail, or no room is left.
    fn write(&mut self, piece: &[u8]) -> Result<usize, Failed>
        requires { 0 < length piece.now }
        ensures fails { IsErr result ↔ ((self.old.free ≡ 0) ⊎ Contains self.old.failing (one_more self.old.calls)) }
        ensures count { IfOk result (λ k. k ≡ min (length piece.now) self.old.free) }
        ensures after { IfOk result (λ k. self.new ≡ record self.old {
          held = self.old.held ++ take k piece.now;
          free = self.old.free - k;
          calls = one_more self.old.calls;
        }) }
        ensures after_failed { OnErr result (self.new ≡
            record self.old { calls = one_more self.old.calls; faults = one_more self.old.faults }) }

        // What holds of each sink.
        ensures some { IfOk result (λ k. 0 < k) }
        ensures within { IfOk result (λ k. k ≤ length piece.now) }
        ensures appended { IfOk result (λ k. Appends (Some self.old.held) (Some self.new.held) (take k piece.now)) }
        ensures stays { OnOk result (self.new.faults ≡ self.old.faults) }
        ensures kept { OnErr result (self.new.held ≡ self.old.held) }
        ensures rose { OnErr result (Rose self.old.faults self.new.faults) }
        ensures never_falls { self.old.faults ≤ self.new.faults }
    {
        self.calls = self.calls.saturating_add(1);
        if self.free == 0 || self.fail.contains(&self.calls) {
            return Err(Failed::counted(&mut self.faults));
        }
        let count = piece.len().min(self.free);
        self.bytes.extend_from_slice(&piece[..count]).unwrap();
        self.free -= count;
        Ok(count)
    }

    fn faults(&self) -> u64 {
        self.faults
    }
}

#[cfg(test)]
mod tests {
    use super::*;
    use crate::ends::write_all;
    use std::test::Fail;

    #[test]
    fn source_gives_all(rt: HostRuntime) -> Result<(), Fail> {
        let bytes = b"abcdefgh".to_vec(rt.alloc())?;
        let mut source = MemSource::new(bytes, vec![in rt.alloc(); 2, 5]?);
        let mut into = [0; 3];
        for (want, seen) in [
            (Ok(3), b"abc"),
            (Err(Failed), b"abc"),
            (Ok(3), b"def"),
            (Ok(2), b"ghf"),
            (Err(Failed), b"ghf"),
            (Ok(0), b"ghf"),
        ] {
            assert_eq!(rt; source.read(&mut into), want);
            assert_eq!(rt; into.as_slice(), seen.as_slice());
        }
        assert_eq!(rt; source.faults(), 2);
        Ok(())
    }

    #[test]
    fn sink_holds_all(rt: HostRuntime) -> Result<(), Fail> {
        let mut sink = MemSink::new(rt.alloc(), 5, vec![in rt.alloc(); 2]?)?;
        for (piece, want, held) in [
            ("abc", Ok(3), "abc"),
            ("def", Err(Failed), "abc"),
            ("def", Ok(2), "abcde"),
            ("f", Err(Failed), "abcde"),
        ] {
            assert_eq!(rt; sink.write(piece.as_bytes()), want);
            assert_eq!(rt; sink.bytes(), held.as_bytes());
        }
        assert_eq!(rt; sink.faults(), 2);
        Ok(())
    }

    #[test]
    fn whole_pieces_are_written(rt: HostRuntime) -> Result<(), Fail> {
        let mut sink = MemSink::new(rt.alloc(), 5, vec![in rt.alloc()]?)?;
        for (piece, want, held) in [
            ("", Ok(()), ""),
            ("abcd", Ok(()), "abcd"),
            ("efg", Err(Failed), "abcde"),
        ] {
            assert_eq!(rt; write_all(&mut sink, piece.as_bytes()), want);
            assert_eq!(rt; sink.bytes(), held.as_bytes());
        }
        assert_eq!(rt; sink.faults(), 1);
        Ok(())
    }
}
