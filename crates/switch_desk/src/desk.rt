//! The desk.
ghost use Rattle.std.specs.Prelude.{◌≡◌, ◌-◌, ◌+◌, ◌<◌, ◌≤◌, [], ◌++◌, max, length, IsOk, IfErr, IfOk};
ghost use Rattle.counting.specs.Counting.{HasEachOnce};
ghost use Rattle.switch_gate.specs.Passes.{IsPassOf, mine_of, parts_in, parts_of, seen_of};
ghost use Rattle.two_phase.specs.Board.{BoardStands, IsChoiceFor};
ghost use Rattle.two_phase.specs.Drafts.{IsDraftFor};

use crate::glimpse::Glimpse;
use crate::locked::Locked;
use bland_ratio::{Choice, Ticket};
use deck_model::Log;
use exact_frac::Arith;
use no_memory::Memory;
use std::alloc::Global;
use std::sync::Wait;
use std::thread::Threads;
use switch_gate::Gate;
use two_phase::{Board, BoardFault, Draft, Recorded, Snapshot, SwapFault};

/// A board behind a gate. A call waits for its turn, makes one call on the board, and hands the pass back beside its answer.
#[derive(Drop)]
pub struct Desk<A: Arith> {
    pub(crate) gate: Gate<Locked<A>>,
}

/// The right to use a desk: a pass of its gate.
pub type Pass<A> = switch_gate::Pass<Locked<A>>;

impl<A: Arith> Desk<A> {
    ghost use Rattle.switch_desk.specs.Answers.{AreEntriesFrom, IsGlimpseAt, IsRecordRefusal, IsRecordedAt, IsSnapshotAt, IsSwapAnswer, IsTicketAt, IsTicketRefusal, added};
    ghost use Rattle.switch_desk.specs.Desks.{IsSession, run_of};
    ghost use Rattle.switch_desk.specs.Lineages.{lineage_of};

    /// A desk round a board whose log is empty, and its first pass, which has all of the `parts`. The `Err` is want of memory,
    /// and hands the board back.
    pub fn new(alloc: Global, board: Board<A>, parts: u64) -> Result<(Desk<A>, Pass<A>), Board<A>>
        requires parts { 1 ≤ parts }
        requires stands { BoardStands (A.width board.arith) board }
        requires start { board.log ≡ [] }
        ensures run { IfOk result (λ made. run_of A.width made.0 ≡ lineage_of A.width board) }
        ensures pass { IfOk result (λ made. IsPassOf made.0.gate made.1 × (parts_of made.1 ≡ parts) × (parts_in made.0.gate ≡ parts)) }
        ensures fresh { IfOk result (λ made. (seen_of made.1 ≡ 0) × (mine_of made.1 ≡ [])) }
        ensures back { IfErr result (λ back. back ≡ board) }
    {
        match Gate::new(alloc, Locked::of(board), parts) {
            Ok((gate, pass)) => Ok((Desk { gate }, pass)),
            Err(back) => Err(back.into_board()),
        }
    }

    /// The ticket of the board's state, exact for its number.
    ///
    /// # Errors
    ///
    /// `Ended` with the standing, where the run does not go on; `Overflow` with the place of the first value of the run that
    /// does not fit the width; `Memory` for want of memory.
    pub fn ticket<R: Threads + Wait + Sync>(
        &self,
        rt: &R,
        alloc: Global,
        pass: Pass<A>,
    ) -> (Result<Ticket, BoardFault>, Pass<A>)
        requires { IsPassOf self.now.gate pass }
        ensures session { IsSession self.now pass result.1 }
        ensures mine { mine_of result.1 ≡ mine_of pass }
        ensures asks { IfOk result.0 (IsTicketAt (run_of A.width self.now).inst (seen_of result.1)) }
        ensures refused { IfErr result.0 (IsTicketRefusal (run_of A.width self.now) (seen_of result.1)) }
    {
        let mut held = self.gate.take(rt, pass);
        let answer = held.value_mut().ticket(rt, alloc);
        (answer, self.gate.give(held))
    }

    /// Takes in what follows from a choice that is exact for its number: the next entry, whose number the pass gains; a
    /// rescue, for an unfit choice of the board's number; or the end of the run.
    ///
    /// # Errors
    ///
    /// `Ended` with the standing, where the run does not go on; `Stale` with the board's number, which is above the choice's;
    /// `Overflow` with the place of the first value of the run that does not fit the width; `Memory` for want of memory.
    pub fn record<R: Threads + Wait + Sync>(
        &self,
        rt: &R,
        alloc: Global,
        pass: Pass<A>,
        choice: Choice,
    ) -> (Result<Recorded, BoardFault>, Pass<A>)
        requires pass { IsPassOf self.now.gate pass }
        requires exact { IsChoiceFor (run_of A.width self.now).width (run_of A.width self.now).inst (seen_of pass) choice }
        ensures session { IsSession self.now pass result.1 }
        ensures mine { mine_of result.1 ≡ mine_of pass ++ added result.0 choice.number }
        ensures recorded { IfOk result.0 (IsRecordedAt (run_of A.width self.now) (seen_of result.1) choice) }
        ensures refused { IfErr result.0 (IsRecordRefusal (run_of A.width self.now) (seen_of result.1) choice) }
    {
        let mut held = self.gate.take(rt, pass);
        let answer = held.value_mut().record(rt, alloc, choice);
        (answer, self.gate.give(held))
    }

    /// The board's state under its number.
    ///
    /// # Errors
    ///
    /// `Memory` for want of memory.
    pub fn snapshot<R: Wait>(&self, rt: &R, pass: Pass<A>) -> (Result<Snapshot, Memory>, Pass<A>)
        requires { IsPassOf self.now.gate pass }
        ensures session { IsSession self.now pass result.1 }
        ensures mine { mine_of result.1 ≡ mine_of pass }
        ensures exact { IfOk result.0 (IsSnapshotAt (run_of A.width self.now).inst (seen_of result.1)) }
    {
        let held = self.gate.take(rt, pass);
        let answer = held.value().snapshot();
        (answer, self.gate.give(held))
    }

    /// The entries of the run from this number up to the board's.
    ///
    /// # Errors
    ///
    /// `Memory` for want of memory.
    pub fn since<R: Wait>(
        &self,
        rt: &R,
        alloc: Global,
        pass: Pass<A>,
        number: u64,
    ) -> (Result<Log, Memory>, Pass<A>)
        requires pass { IsPassOf self.now.gate pass }
        requires number { number ≤ seen_of pass }
        ensures session { IsSession self.now pass result.1 }
        ensures mine { mine_of result.1 ≡ mine_of pass }
        ensures entries { IfOk result.0 (AreEntriesFrom (run_of A.width self.now).inst number (seen_of result.1)) }
    {
        let held = self.gate.take(rt, pass);
        let answer = held.value().since(alloc, number);
        (answer, self.gate.give(held))
    }

    /// Takes a draft's factors in place of the board's own. It takes no memory.
    ///
    /// # Errors
    ///
    /// In this order: `Plain` where the board has given its factors up, `Older` with its epoch, where the draft's base is not
    /// above it, `Behind` with its number, where the draft's is below it. The draft comes back.
    pub fn swap<R: Wait>(
        &self,
        rt: &R,
        pass: Pass<A>,
        draft: Draft,
    ) -> (Result<(), SwapFault>, Pass<A>)
        requires pass { IsPassOf self.now.gate pass }
        requires draft { IsDraftFor (run_of A.width self.now).inst (seen_of pass) draft }
        ensures session { IsSession self.now pass result.1 }
        ensures mine { mine_of result.1 ≡ mine_of pass }
        ensures answer { IsSwapAnswer (seen_of result.1) draft result.0 }
    {
        let mut held = self.gate.take(rt, pass);
        let answer = held.value_mut().swap(draft);
        (answer, self.gate.give(held))
    }

    /// How the board stands. It takes no memory.
    pub fn standing<R: Wait>(&self, rt: &R, pass: Pass<A>) -> (Glimpse, Pass<A>)
        requires { IsPassOf self.now.gate pass }
        ensures session { IsSession self.now pass result.1 }
        ensures mine { mine_of result.1 ≡ mine_of pass }
        ensures glimpse { IsGlimpseAt (run_of A.width self.now) (seen_of result.1) result.0 }
    {
        let held = self.gate.take(rt, pass);
        let glimpse = held.value().glimpse();
        (glimpse, self.gate.give(held))
    }

    /// Cuts `give` parts from the pass, for a second one. The `Err` would be want of memory, and a cut takes none.
    pub fn split(&self, pass: Pass<A>, give: u64) -> Result<(Pass<A>, Pass<A>), Pass<A>>
        requires pass { IsPassOf self.now.gate pass }
        requires given { (1 ≤ give) × (give < parts_of pass) }
        ensures cut { IsOk result }
        ensures passes { IfOk result (λ cut. IsPassOf self.now.gate cut.0 × IsPassOf self.now.gate cut.1) }
        ensures seen { IfOk result (λ cut. (seen_of cut.0 ≡ seen_of pass) × (seen_of cut.1 ≡ seen_of pass)) }
        ensures first { IfOk result (λ cut. (mine_of cut.0 ≡ mine_of pass) × (parts_of cut.0 ≡ parts_of pass - give)) }
        ensures second { IfOk result (λ cut. (mine_of cut.1 ≡ []) × (parts_of cut.1 ≡ give)) }
    {
        self.gate.split(pass, give)
    }

    /// Makes two passes one.
    pub fn join(&self, first: Pass<A>, second: Pass<A>) -> Pass<A>
        requires first { IsPassOf self.now.gate first }
        requires second { IsPassOf self.now.gate second }
        ensures pass { IsPassOf self.now.gate result }
        ensures seen { seen_of result ≡ max (seen_of first) (seen_of second) }
        ensures mine { mine_of result ≡ mine_of first ++ mine_of second }
        ensures parts { parts_of result ≡ parts_of first + parts_of second }
    {
        self.gate.join(first, second)
    }

    /// Ends the desk with the pass that has all its parts, and gives the board out: each number below its own was added by one
    /// session. The `Err` would be want of memory, and the end takes none.
    pub fn close(self, pass: Pass<A>) -> Result<Board<A>, Memory>
        requires pass { IsPassOf self.gate pass }
        requires all { parts_of pass ≡ parts_in self.gate }
        ensures closed { IsOk result }
        ensures stands { IfOk result (λ board. BoardStands (A.width board.arith) board) }
        ensures run { IfOk result (λ board. lineage_of A.width board ≡ run_of A.width self) }
        ensures seen { IfOk result (λ board. seen_of pass ≤ length board.log) }
        ensures once { IfOk result (λ board. HasEachOnce (mine_of pass) (length board.log)) }
    {
        let locked = self.gate.close(pass)?;
        Ok(locked.into_board())
    }
}
