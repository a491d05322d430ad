ghost use Rattle.std.specs.Prelude.{◌≡◌, ◌≤◌, [], None, IfOk, IfErr, IfSome, IfNone, OnOk, OnSome};
ghost use Rattle.mps_cards.specs.NextLine.{AnswersEnd, AnswersLine, IsCause, TakesAsNeeded};

use crate::ahead::Ahead;
use crate::faults::ReadFault;
use crate::gathering::{Asked, gather};
use crate::lines::Line;
use io_ends::Source;
use no_memory::Memory;
use std::alloc::Global;
use std::marker::Model;

/// A reader of the lines of a source.
#[derive(Debug, Drop)]
pub struct LineReader {
    alloc: Global,
    ahead: Ahead,
    count: u64,
    since: u64,
    fault: Option<ReadFault>,
}

impl Model for LineReader {
    ghost use Rattle.mps_cards.specs.ReaderState.{ReaderState};

    ghost Value = { ReaderState };

    ghost view = { λ r. record { kept = r.ahead; count = r.count; since = r.since; fault = r.fault } };
}

impl LineReader {
    /// A reader that has read nothing. Its mark stands before the first line.
    ///
    /// # Errors
    ///
    /// `Memory` where there is too little memory.
    pub fn new(alloc: Global) -> Result<LineReader, Memory>
        ensures { IfOk result (λ reader. reader ≡ record { kept = []; count = 0; since = 0; fault = None }) }
    {
        Ok(LineReader {
            alloc,
            ahead: Ahead::new(alloc)?,
            count: 0,
            since: 0,
            fault: None,
        })
    }

    /// The next line of the input, which is what the reader keeps and then what the source has left. There is none at the
    /// input's end.
    ///
    /// The first `keep` bytes of the line are kept, with a carriage return that stands before its line feed. The source is
    /// read by up to 4,096 bytes, and only while no line stands whole in the kept bytes.
    ///
    /// # Errors
    ///
    /// `TooMany`, with the number of this line, where the bytes from the mark through the last answered line, or those
    /// through this line and its line feed, are more than `most`. It is answered as soon as so many were read. `Read` where
    /// the source failed, `Memory` where there is too little memory. A reader gives its fault again at each later call.
    #[tactic(auto, using(crate::proofs::GatheringLemmas::unread))]
    pub fn line<S: Source>(
        &mut self,
        source: &mut S,
        keep: usize,
        most: u64,
    ) -> Result<Option<Line>, ReadFault>
        ensures line { IfOk result (λ answer. IfSome answer
            (AnswersLine self.old self.new (S.remaining source.old) (S.remaining source.new) keep most)) }
        ensures end { IfOk result (λ answer. IfNone answer
            (AnswersEnd self.old self.new (S.remaining source.old) (S.remaining source.new) most)) }
        ensures sound { OnOk result (self.new.fault ≡ None) }
        ensures stays { OnOk result (S.fault_count source.new ≡ S.fault_count source.old) }

        // The first fault.
        ensures cause { IfNone self.old.fault (IfErr result (IsCause self.old most (S.remaining source.old)
            (S.remaining source.new) (S.fault_count source.old) (S.fault_count source.new))) }
        ensures refused { IfNone self.old.fault (IfErr result (λ fault. self.new ≡
            record self.old { kept = []; fault = Some fault })) }
        ensures needed { IfNone self.old.fault (TakesAsNeeded self.old.kept self.old.since most (S.remaining source.old)
            (S.remaining source.new)) }
        ensures never_falls { S.fault_count source.old ≤ S.fault_count source.new }

        // The same fault again.
        ensures again { IfSome self.old.fault (λ fault. result ≡ Err fault) }
        ensures idle { OnSome self.old.fault (self.new ≡ self.old) }
        ensures unread { OnSome self.old.fault (S.remaining source.new ≡ S.remaining source.old) }
        ensures uncounted { OnSome self.old.fault (S.fault_count source.new ≡ S.fault_count source.old) }
    {
        if let Some(fault) = self.fault {
            return Err(fault);
        }
        let number = self.count.saturating_add(1);
        if most < self.since {
            return Err(self.refuse(ReadFault::TooMany(number)));
        }
        let asked = Asked { number, keep, most };
        match gather(self.alloc, &mut self.ahead, source, self.since, asked) {
            Ok(Some(gathered)) => {
                self.count = number;
                self.since = gathered.through;
                Ok(Some(gathered.line))
            }
            Ok(None) => Ok(None),
            Err(fault) => Err(self.refuse(fault)),
        }
    }

    /// Gives a fault from here on.
    fn refuse(&mut self, fault: ReadFault) -> ReadFault
        ensures state { self.new ≡ record self.old { kept = []; fault = Some fault } }
        ensures same { result ≡ fault }
    {
        self.ahead.clear();
        self.fault = Some(fault);
        fault
    }

    /// How many lines were answered.
    pub fn lines(&self) -> u64
        requires { self.now.fault ≡ None }
        ensures { result ≡ self.now.count }
    {
        self.count
    }

    /// Puts the mark behind the last line that was answered.
    pub fn mark(&mut self)
        requires { self.old.fault ≡ None }
        ensures { self.new ≡ record self.old { since = 0 } }
    {
        self.since = 0;
    }
}
