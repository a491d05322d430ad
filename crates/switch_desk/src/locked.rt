//! The board as it stands behind the gate.
ghost use Rattle.std.specs.Prelude.{◌≡◌, ◌≤◌, length, IfErr, IfOk};
ghost use Rattle.two_phase.specs.Board.{BoardStands, IsChoiceFor};
ghost use Rattle.two_phase.specs.Drafts.{IsDraftFor};

use crate::glimpse::Glimpse;
use crate::lineage::Lineage;
use bland_ratio::{Choice, Ticket};
use deck_model::Log;
use exact_frac::Arith;
use no_memory::Memory;
use std::alloc::Global;
use std::marker::Model;
use std::thread::Threads;
use switch_gate::Numbered;
use two_phase::{Board, BoardFault, Draft, Recorded, Snapshot, SwapFault};

/// A board that stands, with its number, as it is behind a desk's gate.
#[derive(Drop)]
pub struct Locked<A: Arith> {
    board: Board<A>,
    // the board's own, kept beside it for the gate
    number: u64,
}

impl<A: Arith> Model for Locked<A> {
    ghost use Rattle.std.specs.Prelude.{◌≡◌, length};
    ghost use Rattle.two_phase.specs.declared.board.Board.{Board};

    ghost Value = { Board A };

    ghost use Rattle.two_phase.specs.Board.{BoardStands};

    ghost view = { λ l. l.board };

    ghost invariant = { λ l. BoardStands (A.width l.board.arith) l.board × (l.number ≡ length l.board.log) };
}

impl<A: Arith> Numbered for Locked<A> {
    ghost use Rattle.std.specs.Prelude.{length};
    ghost use Rattle.switch_desk.specs.Lineages.{lineage_of};

    type Lineage = Lineage;

    ghost number = { λ b. length b.log };

    ghost lineage = { lineage_of A.width };

    fn number(&self) -> u64 {
        self.number
    }
}

impl<A: Arith> Locked<A> {
    ghost use Rattle.counting.specs.Counting.{numbers_between};
    ghost use Rattle.switch_desk.specs.Answers.{AreEntriesFrom, IsGlimpseAt, IsRecordRefusal, IsRecordedAt, IsSnapshotAt, IsSwapAnswer, IsTicketAt, IsTicketRefusal, added};
    ghost use Rattle.switch_desk.specs.Lineages.{lineage_of};

    /// A board behind the gate.
    pub(crate) fn of(board: Board<A>) -> Locked<A>
        requires { BoardStands (A.width board.arith) board }
        ensures { result ≡ board }
    {
        let number = board.number();
        Locked { board, number }
    }

    /// The board.
    pub(crate) fn into_board(self) -> Board<A>
        ensures board { result ≡ self }
        ensures stands { BoardStands (A.width result.arith) result }
    {
        self.board
    }

    /// The ticket of the board's state.
    pub(crate) fn ticket<R: Threads + Sync>(
        &mut self,
        rt: &R,
        alloc: Global,
    ) -> Result<Ticket, BoardFault>
        ensures lineage { lineage_of A.width self.new ≡ lineage_of A.width self.old }
        ensures number { length self.new.log ≡ length self.old.log }
        ensures asks { IfOk result (IsTicketAt self.old.inst.value (length self.old.log)) }
        ensures refused { IfErr result (IsTicketRefusal (lineage_of A.width self.old) (length self.old.log)) }
    {
        self.board.ticket(rt, alloc)
    }

    /// Takes in what follows from a choice.
    pub(crate) fn record<R: Threads + Sync>(
        &mut self,
        rt: &R,
        alloc: Global,
        choice: Choice,
    ) -> Result<Recorded, BoardFault>
        requires { IsChoiceFor (A.width self.old.arith) self.old.inst.value (length self.old.log) choice }
        ensures lineage { lineage_of A.width self.new ≡ lineage_of A.width self.old }
        ensures number { length self.old.log ≤ length self.new.log }
        ensures added { numbers_between (length self.old.log) (length self.new.log) ≡ added result choice.number }
        ensures recorded { IfOk result (IsRecordedAt (lineage_of A.width self.old) (length self.new.log) choice) }
        ensures refused { IfErr result (IsRecordRefusal (lineage_of A.width self.old) (length self.new.log) choice) }
    {
        let answer = self.board.record(rt, alloc, choice);
        self.number = self.board.number();
        answer
    }

    /// The board's state under its number.
    pub(crate) fn snapshot(&self) -> Result<Snapshot, Memory>
        ensures { IfOk result (IsSnapshotAt self.now.inst.value (length self.now.log)) }
    {
        self.board.snapshot()
    }

    /// The entries of the log from this number on.
    pub(crate) fn since(&self, alloc: Global, number: u64) -> Result<Log, Memory>
        requires { number ≤ length self.now.log }
        ensures { IfOk result (AreEntriesFrom self.now.inst.value number (length self.now.log)) }
    {
        self.board.since(alloc, number)
    }

    /// Takes a draft's factors.
    pub(crate) fn swap(&mut self, draft: Draft) -> Result<(), SwapFault>
        requires { IsDraftFor self.old.inst.value (length self.old.log) draft }
        ensures lineage { lineage_of A.width self.new ≡ lineage_of A.width self.old }
        ensures number { length self.new.log ≡ length self.old.log }
        ensures answer { IsSwapAnswer (length self.old.log) draft result }
    {
        self.board.swap(draft)
    }

    /// How the board stands.
    pub(crate) fn glimpse(&self) -> Glimpse
        ensures { IsGlimpseAt (lineage_of A.width self.now) (length self.now.log) result }
    {
        Glimpse {
            standing: self.board.standing(),
            mode: self.board.mode(),
            number: self.board.number(),
            epoch: self.board.epoch(),
            updates: self.board.updates(),
        }
    }
}
