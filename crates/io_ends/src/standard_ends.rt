ghost use Rattle.std.specs.Prelude.{◌≡◌, ℕ, ◌<◌, ◌≤◌, length, take, None, IfOk, OnOk, OnErr};
ghost use Rattle.std.specs.Io.KnownBytes.{ReadConsumes, WriteAppends};
ghost use Rattle.io_ends.specs.Count.{Rose};

use crate::ends::{Sink, Source};
use crate::refusals::Failed;
use std::io::{Read, Stderr, Stdin, Stdout, Write};
use std::marker::Model;

/// A source over a reader of `std`, which holds nothing back of what it reads. It tells nothing of its bytes as a source,
/// but passes on what the reader tells.
#[derive(Debug, Drop)]
pub struct ReaderEnds<R> {
    reader: R,
    faults: u64,
}

/// The process's standard input.
pub type StdinEnds = ReaderEnds<Stdin>;

impl<R> Model for ReaderEnds<R> {
    ghost use Rattle.io_ends.specs.Adapted.{Adapted};

    ghost Value = { Adapted R };

    ghost view = { λ ends. record { stream = ends.reader; faults = ends.faults } };
}

impl<R> ReaderEnds<R> {
    /// A source over this reader, of which no read failed yet.
    pub fn new(reader: R) -> ReaderEnds<R>
        ensures { result ≡ record { stream = reader; faults = 0 } }
    {
        ReaderEnds { reader, faults: 0 }
    }
}

impl<R: Read> Source for ReaderEnds<R> {
    ghost remaining = { λ _. None };

    ghost fault_count = { λ ends. ends.faults };

    /// Reads once, up to the length of `into`.
    ///
    /// # Errors
    ///
    /// `Failed` where the reader answered an error.
    fn read(&mut self, into: &mut [u8]) -> Result<usize, Failed>
        requires { 0 < length into.old }
        ensures passed_on { ReadConsumes (R.remaining self.old.stream) (R.remaining self.new.stream) result into.new }

        // What holds of each source.
        ensures within { IfOk result (λ k. k ≤ length into.new) }
        ensures stays { OnOk result (self.new.faults ≡ self.old.faults) }
        ensures rose { OnErr result (Rose self.old.faults self.new.faults) }
        ensures never_falls { self.old.faults ≤ self.new.faults }
    {
        match self.reader.read(into) {
            Ok(count) => Ok(count),
            Err(_) => Err(Failed::counted(&mut self.faults)),
        }
    }

    fn faults(&self) -> u64 {
        self.faults
    }
}

/// A sink over a writer of `std`, which holds nothing back of what it takes. It tells nothing of its bytes as a sink, but
/// passes on what the writer tells.
#[derive(Debug, Drop)]
pub struct WriterEnds<W> {
    writer: W,
    faults: u64,
}

/// The process's standard output.
pub type StdoutEnds = WriterEnds<Stdout>;

/// The process's standard error.
pub type StderrEnds = WriterEnds<Stderr>;

impl<W> Model for WriterEnds<W> {
    ghost use Rattle.io_ends.specs.Adapted.{Adapted};

    ghost Value = { Adapted W };

    ghost view = { λ ends. record { stream = ends.writer; faults = ends.faults } };
}

impl<W> WriterEnds<W> {
    /// A sink over this writer, of which no write failed yet.
    pub fn new(writer: W) -> WriterEnds<W>
        ensures { result ≡ record { stream = writer; faults = 0 } }
    {
        WriterEnds { writer, faults: 0 }
    }
}

impl<W: Write> Sink for WriterEnds<W> {
    ghost contents = { λ _. None };

    ghost fault_count = { λ ends. ends.faults };

    /// Writes once.
    ///
    /// # Errors
    ///
    /// `Failed` where the writer answered an error, or took nothing.
    fn write(&mut self, piece: &[u8]) -> Result<usize, Failed>
        requires { 0 < length piece.now }
        ensures passed_on { WriteAppends (W.contents self.old.stream) (W.contents self.new.stream) result piece.now }

        // What holds of each sink.
        ensures some { IfOk result (λ k. 0 < k) }
        ensures within { IfOk result (λ k. k ≤ length piece.now) }
        ensures stays { OnOk result (self.new.faults ≡ self.old.faults) }
        ensures rose { OnErr result (Rose self.old.faults self.new.faults) }
        ensures never_falls { self.old.faults ≤ self.new.faults }
    {
        match self.writer.write(piece) {
            Ok(count) if count > 0 => Ok(count),
            _ => Err(Failed::counted(&mut self.faults)),
        }
    }

    fn faults(&self) -> u64 {
        self.faults
    }
}

#[cfg(test)]
mod tests {
    use super::*;
    use crate::ends::write_all;
    use std::io;

    /// Gives `ab`, then fails, then gives `c`, and then is at its end.
    #[derive(Drop)]
    struct Faltering {
        reads: u8,
    }

    impl Read for Faltering {
        fn read(&mut self, buf: &mut [u8]) -> io::Result<usize> {
            self.reads = self.reads.saturating_add(1);
            let given: &[u8] = match self.reads {
                1 => b"ab",
                2 => return Err(io::Error::from(io::ErrorKind::Other)),
                3 => b"c",
                _ => b"",
            };
            if given.len() > buf.len() {
                return Ok(0);
            }
            buf[..given.len()].copy_from_slice(given);
            Ok(given.len())
        }
    }

    #[test]
    fn counts_faults(rt: HostRuntime) {
        let mut source = ReaderEnds::new(Faltering { reads: 0 });
        let mut into = [0; 4];
        for (want, faults) in [(Ok(2), 0), (Err(Failed), 1), (Ok(1), 1), (Ok(0), 1)] {
            assert_eq!(rt; source.read(&mut into), want);
            assert_eq!(rt; source.faults(), faults);
        }
        assert_eq!(rt; into, *b"cb\0\0");
    }

    #[test]
    fn reaches_the_process(rt: HostRuntime) {
        let mut stdin = StdinEnds::new(rt.stdin());
        let mut stdout = StdoutEnds::new(rt.stdout());
        let mut stderr = StderrEnds::new(rt.stderr());
        let read = stdin.read(&mut [0; 4]);
        assert_eq!(rt; stdin.faults(), u64::from(read.is_err()));
        assert_eq!(rt; write_all(&mut stdout, b"to the output\n"), Ok(()));
        assert_eq!(rt; write_all(&mut stderr, b"to the error\n"), Ok(()));
        assert_eq!(rt; (stdout.faults(), stderr.faults()), (0, 0));
    }
}
