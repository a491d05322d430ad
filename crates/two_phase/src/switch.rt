//! What a board gives to those who work beside it, and takes from them: its state, its later entries, and factors.
ghost use Rattle.std.specs.Prelude.{◌≡◌, ◌≤◌, ℕ, drop, length, IfOk, OnErr, OnOk};
ghost use Rattle.lp_run.specs.Run.{IsAt};
ghost use Rattle.two_phase.specs.Board.{BoardStands, state_of};
ghost use Rattle.two_phase.specs.Drafts.{IsDraftFor, IsSwitched, TakesFactors, swap_answer};
ghost use Rattle.two_phase.specs.Modes.{mode_of};

use crate::board::Board;
use crate::draft::{Draft, Snapshot};
use crate::ground::Ground;
use deck_model::Log;
use exact_frac::Arith;
use ftran_btran::Factors;
use instance_model::State;
use no_memory::Memory;
use std::alloc::Global;

/// Why a draft's factors did not come into a board; the draft comes back.
#[derive(Drop)]
pub enum SwapFault {
    /// The board has given its factors up.
    Plain(Draft),
    /// The draft's factors were made no later than this number, which is the board's epoch.
    Older(Draft, u64),
    /// The draft is of an earlier number than this, which is the board's.
    Behind(Draft, u64),
}

impl<A: Arith> Board<A> {
    /// The board's state under its number.
    ///
    /// # Errors
    ///
    /// `Memory` for want of memory.
    pub fn snapshot(&self) -> Result<Snapshot, Memory>
        ensures number { IfOk result (λ snapshot. snapshot.number ≡ length self.now.log) }
        ensures state { IfOk result (λ snapshot. snapshot.state ≡ state_of self.now) }
        ensures exact { (w : ℕ) → BoardStands w self.now → IfOk result (λ snapshot. IsAt self.now.inst.value snapshot.number snapshot.state) }
    {
        let state = self.ground.state().copy()?;
        Ok(Snapshot {
            number: self.number(),
            state,
        })
    }

    /// The entries of the log from this number on.
    ///
    /// # Errors
    ///
    /// `Memory` for want of memory.
    pub fn since(&self, alloc: Global, number: u64) -> Result<Log, Memory>
        requires { number ≤ length self.now.log }
        ensures { IfOk result (λ log. log ≡ drop number self.now.log) }
    {
        let mut later = Log::new(alloc);
        for entry in &self.log.entries()[number as usize..] {
            later.push(*entry)?;
        }
        Ok(later)
    }

    /// Takes a draft's factors in place of the board's own, which are dropped. Log, number, state, basic values, prices and
    /// standing stay. It takes no memory.
    ///
    /// # Errors
    ///
    /// In this order: `Plain` where the board has given its factors up, `Older` where the draft's base is not above the epoch,
    /// `Behind` where the draft's number is below the board's. The draft comes back, and the board is as it was.
    pub fn swap(&mut self, draft: Draft) -> Result<(), SwapFault>
        requires { IsDraftFor self.old.inst.value (length self.old.log) draft }
        ensures answer { result ≡ swap_answer (mode_of self.old.ground) self.old.epoch (length self.old.log) draft }
        ensures switched { OnOk result (IsSwitched draft self.old self.new) }
        ensures kept { OnErr result (self.new ≡ self.old) }
        ensures stands { (w : ℕ) → BoardStands w self.old → BoardStands w self.new }
    {
        if self.ground.is_plain() {
            return Err(SwapFault::Plain(draft));
        }
        if draft.base() <= self.epoch {
            return Err(SwapFault::Older(draft, self.epoch));
        }
        if draft.number() < self.number() {
            return Err(SwapFault::Behind(draft, self.number()));
        }
        let parts = draft.into_parts();
        self.epoch = parts.base;
        self.updates = parts.factors.updates();
        self.ground.take_factors(parts.factors);
        Ok(())
    }
}

impl Ground {
    ghost use Rattle.two_phase.specs.Inner.Grounds.{IsPlain, ground_state};

    // The state that is stood on.
    fn state(&self) -> &State
        ensures { result.now ≡ ground_state self.now }
    {
        match self {
            Ground::Factors(iterate) => &iterate.state,
            Ground::Plain(plain) => plain.state(),
        }
    }

    // Takes these factors in place of its own.
    fn take_factors(&mut self, factors: Factors)
        requires { IsPlain self.old → ⊥ }
        ensures { TakesFactors factors self.old self.new }
    {
        if let Ground::Factors(iterate) = self {
            iterate.factors = factors;
        }
    }
}
