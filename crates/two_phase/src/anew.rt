//! Iterates whose factors are made anew of the basis where a value that is worked with the updated ones does not fit.
ghost use Rattle.std.specs.Prelude.{◌≡◌, ◌≤◌, List, true, IfOk, OnErr, OnOk};
ghost use Rattle.lp_model.specs.declared.Entry.{Entry as LogEntry};
ghost use Rattle.lp_model.specs.Log.{moves};
ghost use Rattle.lp_run.specs.Instance.{IsWellFormed};

use crate::iterate::Iterate;
use crate::reached::Reached;
use basis_solves::{Refusal, factors_of};
use deck_model::Log;
use exact_frac::Arith;
use instance_model::Instance;
use std::alloc::Global;

impl Iterate {
    ghost use Rattle.two_phase.specs.Inner.Iterates.{IsIterate, IsIterateOf};
    ghost use Rattle.two_phase.specs.Inner.Reaching.{IsChosen, Reaches};

    /// The iterate at the same state, with factors that are made of its basis at this number; its prices are not worked.
    ///
    /// # Errors
    ///
    /// `Unfit` where a value that is worked for the factors does not fit the width, `Memory` for want of memory.
    pub fn anew<A: Arith>(
        &self,
        alloc: Global,
        inst: &Instance,
        number: u64,
        arith: &mut A,
    ) -> Result<Iterate, Refusal>
        requires { IsIterateOf (A.width arith.old) inst.now self.now }
        ensures stands { (log : List LogEntry) → IsIterate (A.width arith.old) inst.now log self.now → IfOk result (IsIterate (A.width arith.old) inst.now log) }
        ensures width { A.width arith.new ≡ A.width arith.old }
        ensures unfit { A.unfit_count arith.old ≤ A.unfit_count arith.new }
    {
        let state = self.state.copy()?;
        let factors = factors_of(alloc, inst, state.basis(), number, arith)?;
        let values = Vec::from_slice(alloc, &self.values)?;
        Ok(Iterate::of(alloc, inst.rows(), state, factors, values)?)
    }

    // Makes the factors anew of the basis. After a refusal nothing has changed.
    fn refactor<A: Arith>(
        &mut self,
        alloc: Global,
        inst: &Instance,
        number: u64,
        arith: &mut A,
    ) -> Result<(), Refusal>
        requires { IsIterateOf (A.width arith.old) inst.now self.old }
        ensures stands { (log : List LogEntry) → IsIterate (A.width arith.old) inst.now log self.old → IsIterate (A.width arith.old) inst.now log self.new }
        ensures state { self.new.state ≡ self.old.state }
        ensures width { A.width arith.new ≡ A.width arith.old }
        ensures unfit { A.unfit_count arith.old ≤ A.unfit_count arith.new }
    {
        let made = factors_of(alloc, inst, self.state.basis(), number, arith)?;
        self.factors = made;
        Ok(())
    }

    /// Works the prices, where they are not yet worked: where a value does not fit, once more with factors made anew.
    ///
    /// # Errors
    ///
    /// `Unfit` where a value does not fit with those either, `Memory` for want of memory.
    pub fn price_again<A: Arith>(
        &mut self,
        alloc: Global,
        inst: &Instance,
        number: u64,
        arith: &mut A,
    ) -> Result<(), Refusal>
        requires { IsIterateOf (A.width arith.old) inst.now self.old }
        ensures stands { (log : List LogEntry) → IsIterate (A.width arith.old) inst.now log self.old → IsIterate (A.width arith.old) inst.now log self.new }
        ensures state { self.new.state ≡ self.old.state }
        ensures priced { OnOk result (self.new.is_priced ≡ true) }
        ensures width { A.width arith.new ≡ A.width arith.old }
        ensures unfit { A.unfit_count arith.old ≤ A.unfit_count arith.new }
    {
        if self.price(inst, arith).is_ok() {
            return Ok(());
        }
        self.refactor(alloc, inst, number, arith)?;
        Ok(self.price(inst, arith)?)
    }

    /// Goes on from the state as `advance` does: where a value does not fit, once more with factors made anew.
    ///
    /// # Errors
    ///
    /// `Unfit` where a value does not fit with those either, `Memory` for want of memory. The iterate still stands at the
    /// log then.
    pub fn advance_again<A: Arith>(
        &mut self,
        alloc: Global,
        inst: &Instance,
        budget: u64,
        log: &mut Log,
        entering: Option<u32>,
        arith: &mut A,
    ) -> Result<Reached, Refusal>
        requires well_formed { IsWellFormed inst.now }
        requires stands { IsIterate (A.width arith.old) inst.now log.old self.old }
        requires chosen { IsChosen inst.now self.old.state entering }
        requires within { moves log.old ≤ budget }
        ensures reached { IfOk result (Reaches (A.width arith.old) inst.now budget log.old self.old.state log.new self.new) }
        ensures log_kept { OnErr result (log.new ≡ log.old) }
        ensures stands { OnErr result (IsIterate (A.width arith.old) inst.now log.old self.new) }
        ensures state { OnErr result (self.new.state ≡ self.old.state) }
        ensures width { A.width arith.new ≡ A.width arith.old }
        ensures unfit { A.unfit_count arith.old ≤ A.unfit_count arith.new }
    {
        match self.advance(alloc, inst, budget, log, entering, arith) {
            Ok(reached) => return Ok(reached),
            Err(Refusal::Memory) => return Err(Refusal::Memory),
            Err(Refusal::Unfit) => {}
        }
        let number = log.len() as u64;
        self.refactor(alloc, inst, number, arith)?;
        self.advance(alloc, inst, budget, log, entering, arith)
    }
}
