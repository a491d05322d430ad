//! What a run stands on: factors of its state's basis, or, where they are given up, what it goes on over then.
ghost use Rattle.std.specs.Prelude.{◌≡◌, ◌+◌, ◌≤◌, ◌↔◌, ℕ, IsTrue, true, false, length, IfErr, IfNone, IfOk, IfSome, OnErr, OnOk};
ghost use Rattle.lp_model.specs.Log.{moves};
ghost use Rattle.lp_run.specs.Instance.{IsWellFormed, row_count};
ghost use Rattle.lp_run.specs.Listing.{StartFits};
ghost use Rattle.bland_ratio.specs.Pricing.{IsExactChoice};

use crate::fallback::Fallback;
use crate::iterate::Iterate;
use crate::reached::Reached;
use basis_solves::Refusal;
use bland_ratio::{Choice, choose};
use deck_model::Log;
use exact_frac::Arith;
use instance_model::Instance;
use no_memory::Memory;
use plain_table::TableFault;
use std::alloc::Global;
use std::thread::Threads;

/// What a run stands on.
#[derive(Drop)]
pub enum Ground {
    /// Factors of the basis, with the basic values.
    Factors(Iterate),
    /// What the run goes on over once they are given up.
    Plain(Fallback),
}

impl Ground {
    ghost use Rattle.two_phase.specs.Inner.Grounds.{FactorsGo, GivesUp, GroundReaches, GroundRescues, GroundStands, HasCause, IsPlain, IsStill, ground_state};
    ghost use Rattle.two_phase.specs.Modes.{mode_of};
    ghost use Rattle.two_phase.specs.Inner.Plains.{HasRisen, IsCountedFault, IsRunFault, OverflowsFor};
    ghost use Rattle.two_phase.specs.Inner.Reaching.{IsChosen};
    ghost use Rattle.two_phase.specs.Works.{ground_owed, move_work};
    ghost use Rattle.two_phase.specs.Inner.Works.{ground_updates, reached_work};

    // Goes on over the factors, where there are; none where they meet a value that does not fit.
    fn over_factors<A: Arith>(
        &mut self,
        alloc: Global,
        inst: &Instance,
        budget: u64,
        log: &mut Log,
        entering: Option<u32>,
        arith: &mut A,
    ) -> Result<Option<Reached>, Memory>
        requires well_formed { IsWellFormed inst.now }
        requires stands { GroundStands (A.width arith.old) inst.now log.old self.old }
        requires chosen { IsChosen inst.now (ground_state self.old) entering }
        requires within { moves log.old ≤ budget }
        ensures reached { IfOk result (λ tried. IfSome tried (GroundReaches (A.width arith.old) inst.now budget log.old (ground_state self.old) log.new self.new)) }
        ensures goes { IfOk result (λ tried. IfSome tried (FactorsGo (A.width arith.old) inst.now (length log.old) self.old self.new)) }
        ensures left { IfOk result (λ tried. IfNone tried (HasCause (A.width arith.old) inst.now log.old self.old × IsStill (A.width arith.old) inst.now log.old self.old self.new)) }
        ensures log_kept { IfOk result (λ tried. IfNone tried (log.new ≡ log.old)) × OnErr result (log.new ≡ log.old) }
        ensures still { OnErr result (IsStill (A.width arith.old) inst.now log.old self.old self.new) }
        ensures mode { mode_of self.new ≡ mode_of self.old }
        ensures width { A.width arith.new ≡ A.width arith.old }
        ensures unfit { A.unfit_count arith.old ≤ A.unfit_count arith.new }
        ensures fits { IfOk result (λ tried. IfSome tried (λ _. A.unfit_count arith.new ≡ A.unfit_count arith.old)) × OnErr result (A.unfit_count arith.new ≡ A.unfit_count arith.old) }
        ensures spent { IfOk result (λ tried. IfSome tried (λ reached. A.work_count arith.new ≤ A.work_count arith.old
            + (ground_owed (row_count inst.now) self.old + (move_work (row_count inst.now) + reached_work (row_count inst.now) (ground_updates self.old) reached)))) }
    {
        match self {
            Ground::Plain(_) => Ok(None),
            Ground::Factors(iterate) => match iterate.advance(
                alloc, inst, budget, log, entering, arith,
            ) {
                Ok(reached) => Ok(Some(reached)),
                Err(Refusal::Memory) => Err(Memory),
                Err(Refusal::Unfit) => Ok(None),
            },
        }
    }

    // Gives the factors up, where there are, for ones that are made anew, or for the plain table. After a refusal nothing has
    // changed.
    fn give_up<R: Threads + Sync, A: Arith>(
        &mut self,
        rt: &R,
        alloc: Global,
        inst: &Instance,
        log: &Log,
        arith: &mut A,
    ) -> Result<(), TableFault>
        requires well_formed { IsWellFormed inst.now }
        requires fits { StartFits (A.width arith.old) inst.now }
        requires stands { GroundStands (A.width arith.old) inst.now log.now self.old }
        ensures plain { OnOk result (IsPlain self.new) }
        ensures stands { OnOk result (GroundStands (A.width arith.old) inst.now log.now self.new) }
        ensures kept { OnErr result (self.new ≡ self.old) }
        ensures fault { IfErr result (IsRunFault (A.width arith.old) inst.now log.now) }
        ensures rose { IfErr result (HasRisen (A.unfit_count arith.old) (A.unfit_count arith.new)) }
        ensures width { A.width arith.new ≡ A.width arith.old }
        ensures unfit { A.unfit_count arith.old ≤ A.unfit_count arith.new }
    {
        match self {
            Ground::Plain(_) => Ok(()),
            Ground::Factors(iterate) => {
                let plain = Fallback::begin(rt, alloc, inst, log, iterate, arith)?;
                *self = Ground::Plain(plain);
                Ok(())
            }
        }
    }

    // Goes on once the factors are given up. Where there are some, what comes in their place is made first, and comes once it
    // has gone on.
    fn over_plain<R: Threads + Sync, A: Arith>(
        &mut self,
        rt: &R,
        alloc: Global,
        inst: &Instance,
        budget: u64,
        log: &mut Log,
        entering: Option<u32>,
        arith: &mut A,
    ) -> Result<Reached, TableFault>
        requires well_formed { IsWellFormed inst.now }
        requires fits { StartFits (A.width arith.old) inst.now }
        requires stands { GroundStands (A.width arith.old) inst.now log.old self.old }
        requires chosen { IsChosen inst.now (ground_state self.old) entering }
        requires within { moves log.old ≤ budget }
        ensures reached { IfOk result (λ reached. GroundReaches (A.width arith.old) inst.now budget log.old (ground_state self.old) log.new self.new reached × IsPlain self.new) }
        ensures refused { OnErr result ((log.new ≡ log.old) × IsStill (A.width arith.old) inst.now log.old self.old self.new) }
        ensures fault { IfErr result (IsCountedFault (A.width arith.old) inst.now log.old (A.unfit_count arith.old) (A.unfit_count arith.new)) }
        ensures width { A.width arith.new ≡ A.width arith.old }
        ensures unfit { A.unfit_count arith.old ≤ A.unfit_count arith.new }
    {
        match self {
            Ground::Plain(plain) => plain.advance(rt, alloc, inst, budget, log, entering, arith),
            Ground::Factors(iterate) => {
                let mut plain = Fallback::begin(rt, alloc, inst, log, iterate, arith)?;
                let reached = plain.advance(rt, alloc, inst, budget, log, entering, arith)?;
                *self = Ground::Plain(plain);
                Ok(reached)
            }
        }
    }

    // Goes on, where the factors are given up, by the column that the reduced costs choose.
    fn settle_unfit<R: Threads + Sync, A: Arith>(
        &mut self,
        rt: &R,
        alloc: Global,
        inst: &Instance,
        budget: u64,
        log: &mut Log,
        arith: &mut A,
    ) -> Result<Reached, TableFault>
        requires well_formed { IsWellFormed inst.now }
        requires fits { StartFits (A.width arith.old) inst.now }
        requires stands { GroundStands (A.width arith.old) inst.now log.old self.old }
        requires plain { IsPlain self.old }
        requires within { moves log.old ≤ budget }
        ensures reached { IfOk result (λ reached. GroundReaches (A.width arith.old) inst.now budget log.old (ground_state self.old) log.new self.new reached × IsPlain self.new) }
        ensures refused { OnErr result ((log.new ≡ log.old) × IsStill (A.width arith.old) inst.now log.old self.old self.new) }
        ensures fault { IfErr result (IsCountedFault (A.width arith.old) inst.now log.old (A.unfit_count arith.old) (A.unfit_count arith.new)) }
        ensures width { A.width arith.new ≡ A.width arith.old }
        ensures unfit { A.unfit_count arith.old ≤ A.unfit_count arith.new }
    {
        let ticket = self.ask_plain(rt, alloc, inst, log, arith)?;
        let choice = choose(inst, &ticket, arith);
        self.over_plain(rt, alloc, inst, budget, log, choice.stopper, arith)
    }

    // Goes on from the state by the column that enters; where none is eligible, to phase two or to the end. Where a value
    // that is worked with the factors does not fit, they are given up. After a refusal the log is as it was, and what is
    // stood on but for its prices and, where they are given up, its factors.
    fn advance<R: Threads + Sync, A: Arith>(
        &mut self,
        rt: &R,
        alloc: Global,
        inst: &Instance,
        budget: u64,
        log: &mut Log,
        entering: Option<u32>,
        arith: &mut A,
    ) -> Result<Reached, TableFault>
        requires well_formed { IsWellFormed inst.now }
        requires fits { StartFits (A.width arith.old) inst.now }
        requires stands { GroundStands (A.width arith.old) inst.now log.old self.old }
        requires chosen { IsChosen inst.now (ground_state self.old) entering }
        requires within { moves log.old ≤ budget }
        ensures reached { IfOk result (GroundReaches (A.width arith.old) inst.now budget log.old (ground_state self.old) log.new self.new) }
        ensures goes { IfOk result (FactorsGo (A.width arith.old) inst.now (length log.old) self.old self.new) }
        ensures given_up { OnOk result (GivesUp (A.width arith.old) inst.now log.old self.old self.new) }
        ensures plain_stays { OnOk result (IsPlain self.old → IsPlain self.new) }
        ensures log_kept { OnErr result (log.new ≡ log.old) }
        ensures still { OnErr result (IsStill (A.width arith.old) inst.now log.old self.old self.new) }
        ensures fault { IfErr result (IsRunFault (A.width arith.old) inst.now log.old) }
        ensures cause { IfErr result (OverflowsFor (HasCause (A.width arith.old) inst.now log.old self.old)) }
        ensures rose { IfErr result (HasRisen (A.unfit_count arith.old) (A.unfit_count arith.new)) }
        ensures width { A.width arith.new ≡ A.width arith.old }
        ensures unfit { A.unfit_count arith.old ≤ A.unfit_count arith.new }
        ensures fits { (HasCause (A.width arith.old) inst.now log.old self.old → ⊥) → A.unfit_count arith.new ≡ A.unfit_count arith.old }
        ensures spent { (HasCause (A.width arith.old) inst.now log.old self.old → ⊥) → IfOk result (λ reached. A.work_count arith.new ≤ A.work_count arith.old
            + (ground_owed (row_count inst.now) self.old + (move_work (row_count inst.now) + reached_work (row_count inst.now) (ground_updates self.old) reached))) }
    {
        if let Some(reached) = self.over_factors(alloc, inst, budget, log, entering, arith)? {
            return Ok(reached);
        }
        self.over_plain(rt, alloc, inst, budget, log, entering, arith)
    }

    /// Whether the factors are given up.
    pub fn is_plain(&self) -> bool
        ensures { IsTrue result ↔ IsPlain self.now }
    {
        match self {
            Ground::Plain(_) => true,
            Ground::Factors(_) => false,
        }
    }

    /// Takes in what follows from a choice that is exact for the state. None where it is unfit and met factors: they are
    /// given up then, and a new choice is wanted. Once they are given up an unfit choice is settled by the reduced costs.
    ///
    /// # Errors
    ///
    /// `Overflow` with the place of the first value of the run that does not fit the width, `Memory` for want of memory.
    /// The log is as it was then, and it is stood on at the same state, by the same factors or with none still.
    pub fn record<R: Threads + Sync, A: Arith>(
        &mut self,
        rt: &R,
        alloc: Global,
        inst: &Instance,
        budget: u64,
        log: &mut Log,
        choice: &Choice,
        arith: &mut A,
    ) -> Result<Option<Reached>, TableFault>
        requires well_formed { IsWellFormed inst.now }
        requires fits { StartFits (A.width arith.old) inst.now }
        requires stands { GroundStands (A.width arith.old) inst.now log.old self.old }
        requires exact { IsExactChoice (A.width arith.old) inst.now (ground_state self.old) choice.now }
        requires within { moves log.old ≤ budget }
        ensures reached { IfOk result (λ gone. IfSome gone (GroundReaches (A.width arith.old) inst.now budget log.old (ground_state self.old) log.new self.new)) }
        ensures goes { IfOk result (λ gone. IfSome gone (FactorsGo (A.width arith.old) inst.now (length log.old) self.old self.new)) }
        ensures rescued { IfOk result (GroundRescues choice.now.unfit (A.width arith.old) inst.now log.old self.old log.new self.new) }
        ensures given_up { choice.now.unfit ≡ false → OnOk result (GivesUp (A.width arith.old) inst.now log.old self.old self.new) }
        ensures plain_stays { OnOk result (IsPlain self.old → IsPlain self.new) }
        ensures log_kept { OnErr result (log.new ≡ log.old) }
        ensures still { OnErr result (IsStill (A.width arith.old) inst.now log.old self.old self.new) }
        ensures fault { IfErr result (IsRunFault (A.width arith.old) inst.now log.old) }
        ensures cause { choice.now.unfit ≡ false → IfErr result (OverflowsFor (HasCause (A.width arith.old) inst.now log.old self.old)) }
        ensures rose { IfErr result (HasRisen (A.unfit_count arith.old) (A.unfit_count arith.new)) }
        ensures width { A.width arith.new ≡ A.width arith.old }
        ensures unfit { A.unfit_count arith.old ≤ A.unfit_count arith.new }
        ensures fits { choice.now.unfit ≡ false → (HasCause (A.width arith.old) inst.now log.old self.old → ⊥) → A.unfit_count arith.new ≡ A.unfit_count arith.old }
        ensures spent { choice.now.unfit ≡ false → (HasCause (A.width arith.old) inst.now log.old self.old → ⊥)
            → IfOk result (λ gone. IfSome gone (λ reached. A.work_count arith.new ≤ A.work_count arith.old
            + (ground_owed (row_count inst.now) self.old + (move_work (row_count inst.now) + reached_work (row_count inst.now) (ground_updates self.old) reached)))) }
    {
        if choice.unfit {
            if self.is_plain() {
                let reached = self.settle_unfit(rt, alloc, inst, budget, log, arith)?;
                return Ok(Some(reached));
            }
            self.give_up(rt, alloc, inst, log, arith)?;
            return Ok(None);
        }
        let reached = self.advance(rt, alloc, inst, budget, log, choice.stopper, arith)?;
        Ok(Some(reached))
    }
}
