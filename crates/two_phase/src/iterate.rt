//! A state of the run over factors of its basis.
ghost use Rattle.std.specs.Prelude.{◌≡◌, ◌+◌, ◌*◌, ◌<◌, ◌≤◌, ◌^◌, ◌++◌, ℕ, Some, None, List, [], ◌∷◌, length, true, false, IfErr, IfOk, OnErr, OnOk, slice_set};
ghost use Rattle.rational.specs.Worked.{settle};
ghost use Rattle.exact_frac.specs.Count.{unfit_after};
ghost use Rattle.lp_model.specs.declared.Entry.{Entry as LogEntry};
ghost use Rattle.lp_model.specs.declared.Entry.TheVariants.{Flip, Swap, Turn};
ghost use Rattle.lp_model.specs.declared.Place.{Place};
ghost use Rattle.bland_ratio.specs.declared.ratio_test.Leave.TheVariants as leave;
ghost use Rattle.bland_ratio.specs.Entries.{stored_entries};
ghost use Rattle.bland_ratio.specs.Leave.{IsBasisOf};
ghost use Rattle.factor_run.specs.Bound.{making_work};
ghost use Rattle.instance_model.specs.Entries.{CanTake};
ghost use Rattle.lp_run.specs.Listing.{StartFits, first_unfit};
ghost use Rattle.lp_model.specs.declared.Side.{Side as End};
ghost use Rattle.lp_run.specs.Solution.{Values, basis_entry};
ghost use Rattle.lp_run.specs.State.{after, rest, start_of};
ghost use Rattle.plain_table.specs.Inner.Values.{values_listing};
ghost use Rattle.lp_model.specs.Log.{moves};
ghost use Rattle.lp_run.specs.Instance.{Instance as Equations, IsWellFormed, column_count, row_count};
ghost use Rattle.lp_run.specs.Step.{Enters, IsNext, NoneEligible};
ghost use Rattle.factor_model.specs.Eta.{apply, stored};
ghost use Rattle.factor_model.specs.Factors.{AreFactors};
ghost use Rattle.factor_model.specs.Update.{HasPivot};
ghost use Rattle.factor_run.specs.Built.{entering_column, exchanged, made_anew};
ghost use Rattle.basis_solves.specs.Bases.{IsBasis};
ghost use Rattle.basis_solves.specs.Works.{follow_work, solve_most};
ghost use Rattle.factor_run.specs.Causes.{Cause};
ghost use Rattle.two_phase.specs.Board.{StartsUnfit};
ghost use Rattle.basis_solves.specs.Refusals.{Explains, count_after};

use crate::decision::{Decision, decide};
use crate::reached::Reached;
use basis_solves::{Refusal, factors_of, follow, solve_column, solve_prices};
use bland_ratio::Leave;
use deck_model::Log;
use exact_frac::{Arith, Frac, Unfit};
use ftran_btran::Factors;
use instance_model::{Instance, State, rest_of};
use lp_model::{Entry, Phase, Side};
use no_memory::Memory;
use plain_table::{artificials_are_zero, move_values, work_start_values};
use run_outcome::Stop;
use std::alloc::{AllocError, Global};

/// A state of the run, with factors of its basis, its basic values, and its prices where they are worked.
#[derive(Drop)]
pub struct Iterate {
    pub state: State,
    pub factors: Factors,
    pub values: Vec<Frac>,
    pub prices: Vec<Frac>,
    pub is_priced: bool,
    // the entering column in terms of the basis, and what the operations make of it
    pub alpha: Vec<Frac>,
    pub spike: Vec<Frac>,
    // where the basic values after a step are worked
    pub spare: Vec<Frac>,
}

impl Iterate {
    ghost use Rattle.two_phase.specs.Inner.Iterates.{AreWorked, HasFollowed, HasUnfitPrices, IsEntered, IsIterate, IsIterateOf, IsKept, IsSpared, IsTaken};
    ghost use Rattle.two_phase.specs.Inner.Reaching.{GoesWith, IsChosen, Reaches};
    ghost use Rattle.two_phase.specs.Works.{move_work, owed};
    ghost use Rattle.two_phase.specs.Inner.Works.{reached_work};

    /// Works the prices, where they are not yet worked.
    pub fn price<A: Arith>(&mut self, inst: &Instance, arith: &mut A) -> Result<(), Unfit>
        requires { IsIterateOf (A.width arith.old) inst.now self.old }
        ensures stands { (log : List LogEntry) → IsIterate (A.width arith.old) inst.now log self.old → IsIterate (A.width arith.old) inst.now log self.new }
        ensures kept { IsKept self.old self.new }
        ensures priced { OnOk result (self.new.is_priced ≡ true) }
        ensures refusal { OnErr result (HasUnfitPrices (A.width arith.old) inst.now self.old) }
        ensures fits { OnOk result (HasUnfitPrices (A.width arith.old) inst.now self.old → ⊥) }
        ensures width { A.width arith.new ≡ A.width arith.old }
        ensures unfit { A.unfit_count arith.new ≡ unfit_after (A.unfit_count arith.old) result }
        ensures work { A.work_count arith.new ≤ A.work_count arith.old + (stored self.old.factors.etas + (row_count inst.now * row_count inst.now + row_count inst.now)) }
        ensures owed { A.work_count arith.new ≤ A.work_count arith.old + owed (row_count inst.now) self.old }
    {
        if self.is_priced {
            return Ok(());
        }
        let _ = self.factors.updates();
        solve_prices(
            inst,
            &self.state,
            &self.factors,
            &mut self.alpha,
            &mut self.spike,
            &mut self.prices,
            arith,
        )?;
        self.is_priced = true;
        Ok(())
    }

    /// Solves for the entering column, and finds how it enters.
    pub fn enter<A: Arith>(
        &mut self,
        alloc: Global,
        inst: &Instance,
        q: u32,
        arith: &mut A,
    ) -> Result<Decision, Refusal>
        requires well_formed { IsWellFormed inst.now }
        requires stands { IsIterateOf (A.width arith.old) inst.now self.old }
        requires priced { self.old.is_priced ≡ true }
        requires enters { Enters inst.now self.old.state self.old.prices.items q }
        ensures stands { (log : List LogEntry) → IsIterate (A.width arith.old) inst.now log self.old → IsIterate (A.width arith.old) inst.now log self.new }
        ensures kept { IsKept self.old self.new }
        ensures prices { self.new.prices.items ≡ self.old.prices.items }
        ensures priced { self.new.is_priced ≡ true }
        ensures entered { IfOk result (IsEntered inst.now q self.new) }
        ensures refusal { (log : List LogEntry) → IsIterate (A.width arith.old) inst.now log self.old
            → IfErr result (Explains (Cause (A.width arith.old) inst.now (length log) self.old.state self.old.factors)) }
        ensures width { A.width arith.new ≡ A.width arith.old }
        ensures unfit { A.unfit_count arith.new ≡ count_after (A.unfit_count arith.old) result }
        ensures work { A.work_count arith.new ≤ A.work_count arith.old + (stored self.old.factors.etas + (row_count inst.now * row_count inst.now + 3 * row_count inst.now)) }
        ensures solve { A.work_count arith.new ≤ A.work_count arith.old + (solve_most (row_count inst.now) + 2 * row_count inst.now) }
    {
        let _ = self.factors.updates();
        solve_column(
            alloc,
            inst,
            &self.factors,
            q as usize,
            &mut self.spike,
            &mut self.alpha,
            arith,
        )?;
        Ok(decide(
            inst,
            &self.state,
            &self.values,
            &self.prices,
            q as usize,
            &self.alpha,
            arith,
        )?)
    }

    // Works the basic values after a move of column `q` into the spare list; it takes the position where that is below m.
    fn work_values<A: Arith>(
        &mut self,
        inst: &Instance,
        number: u64,
        position: usize,
        q: u32,
        down: bool,
        ratio: Frac,
        arith: &mut A,
    ) -> Result<(), Unfit>
        requires column { q < column_count inst.now }
        requires status { q < length self.old.state.statuses }
        requires alpha { length self.old.alpha.items ≡ length self.old.values.items }
        requires spare { length self.old.spare.items ≡ length self.old.values.items }
        requires few { length self.old.values.items < 2 ^ 32 }
        ensures worked { OnOk result (AreWorked inst.now position q down ratio self.old self.new) }
        ensures unfit_value { OnErr result ((here : Place) × (first_unfit (A.width arith.old)
            (values_listing number position down (rest inst.now self.old.state q) ratio self.old.values.items self.old.alpha.items) ≡ Some here)) }
        ensures spared { IsSpared self.old self.new }
        ensures width { A.width arith.new ≡ A.width arith.old }
        ensures unfit { A.unfit_count arith.new ≡ unfit_after (A.unfit_count arith.old) result }
        ensures work { A.work_count arith.new ≤ A.work_count arith.old + length self.old.values.items }
    {
        match move_values(
            number,
            position,
            down,
            rest_of(inst, &self.state, q as usize),
            ratio,
            &self.values,
            &self.alpha,
            arith,
            &mut self.spare,
        ) {
            Ok(()) => Ok(()),
            Err(_) => Err(Unfit),
        }
    }

    // Takes in an entry: the spare list has the basic values after it.
    fn take(&mut self, entry: Entry)
        requires { CanTake self.old.state entry }
        ensures { IsTaken entry self.old self.new }
    {
        std::mem::swap(&mut self.values, &mut self.spare);
        self.state.after(entry);
        self.is_priced = false;
    }

    /// Takes in the flip of the column that has entered, by which it goes to its other end.
    ///
    /// # Errors
    ///
    /// `Unfit` where a basic value after it does not fit the width, `Memory` for want of memory. Nothing has changed then.
    pub fn flip<A: Arith>(
        &mut self,
        inst: &Instance,
        log: &mut Log,
        q: u32,
        down: bool,
        ratio: Frac,
        arith: &mut A,
    ) -> Result<(), Refusal>
        requires well_formed { IsWellFormed inst.now }
        requires stands { IsIterate (A.width arith.old) inst.now log.old self.old }
        requires priced { self.old.is_priced ≡ true }
        requires enters { Enters inst.now self.old.state self.old.prices.items q }
        requires entered { IsEntered inst.now q self.old (record { down = down; leave = leave.Flip ratio }) }
        ensures log { OnOk result (log.new ≡ log.old ++ Flip q ∷ []) }
        ensures stands { OnOk result (IsIterate (A.width arith.old) inst.now log.new self.new) }
        ensures same { OnOk result (self.new.factors ≡ self.old.factors) }
        ensures log_kept { OnErr result (log.new ≡ log.old) }
        ensures spared { OnErr result (IsSpared self.old self.new) }
        ensures refusal { IfErr result (Explains (Cause (A.width arith.old) inst.now (length log.old) self.old.state self.old.factors)) }
        ensures width { A.width arith.new ≡ A.width arith.old }
        ensures unfit { A.unfit_count arith.new ≡ count_after (A.unfit_count arith.old) result }
        ensures work { A.work_count arith.new ≤ A.work_count arith.old + row_count inst.now }
    {
        let number = log.len() as u64;
        let past = inst.rows();
        self.work_values(inst, number, past, q, down, ratio, arith)?;
        log.push(Entry::Flip(q))?;
        self.take(Entry::Flip(q));
        Ok(())
    }

    // Follows the swap of the column that has entered with the factors.
    fn follow<A: Arith>(
        &mut self,
        alloc: Global,
        inst: &Instance,
        q: u32,
        p: u32,
        number: u64,
        arith: &mut A,
    ) -> Result<(), Refusal>
        requires positions { length self.old.state.basis ≡ row_count inst.now }
        requires position { p < row_count inst.now }
        requires factors { AreFactors (row_count inst.now) self.old.factors (basis_entry inst.now self.old.state) }
        requires length { length self.old.spike.items ≡ row_count inst.now }
        requires spike { self.old.spike.items ≡ (apply (entering_column inst.now q) self.old.factors.etas).answer }
        requires pivot { HasPivot self.old.factors.upper p self.old.spike.items }
        requires basis { (end : End) × IsBasis inst.now (after self.old.state (Swap q p end)) (slice_set self.old.state.basis p q) }
        ensures followed { (end : End) → IsBasis inst.now (after self.old.state (Swap q p end)) (slice_set self.old.state.basis p q)
            → OnOk result (settle (A.width arith.old) (exchanged inst.now (after self.old.state (Swap q p end)) number self.old.factors p q) ≡ Some (Some self.new.factors)) }
        ensures represents { (end : End) → IsBasis inst.now (after self.old.state (Swap q p end)) (slice_set self.old.state.basis p q)
            → OnOk result (AreFactors (row_count inst.now) self.new.factors (basis_entry inst.now (after self.old.state (Swap q p end)))) }
        ensures refusal { (end : End) → IsBasis inst.now (after self.old.state (Swap q p end)) (slice_set self.old.state.basis p q)
            → IfErr result (Explains (settle (A.width arith.old) (exchanged inst.now (after self.old.state (Swap q p end)) number self.old.factors p q) ≡ None)) }
        ensures kept { OnErr result (self.new ≡ self.old) }
        ensures others { HasFollowed self.old self.new }
        ensures width { A.width arith.new ≡ A.width arith.old }
        ensures unfit { A.unfit_count arith.new ≡ count_after (A.unfit_count arith.old) result }
        ensures work { A.work_count arith.new ≤ A.work_count arith.old + follow_work (row_count inst.now) self.old.factors.updates }
    {
        follow(
            alloc,
            inst,
            &self.state,
            &mut self.factors,
            q,
            p,
            number,
            &self.spike,
            arith,
        )
    }

    /// Takes in the swap by which the column that has entered takes position `p`, and the one that was there stands at
    /// the end.
    ///
    /// # Errors
    ///
    /// `Unfit` where a basic value after it does not fit the width, or a value that is worked for the factors after it;
    /// `Memory` for want of memory. Nothing has changed then.
    pub fn exchange<A: Arith>(
        &mut self,
        alloc: Global,
        inst: &Instance,
        log: &mut Log,
        q: u32,
        p: u32,
        end: Side,
        down: bool,
        ratio: Frac,
        arith: &mut A,
    ) -> Result<(), Refusal>
        requires well_formed { IsWellFormed inst.now }
        requires stands { IsIterate (A.width arith.old) inst.now log.old self.old }
        requires priced { self.old.is_priced ≡ true }
        requires enters { Enters inst.now self.old.state self.old.prices.items q }
        requires entered { IsEntered inst.now q self.old (record { down = down; leave = leave.Out p end ratio }) }
        ensures log { OnOk result (log.new ≡ log.old ++ Swap q p end ∷ []) }
        ensures stands { OnOk result (IsIterate (A.width arith.old) inst.now log.new self.new) }
        ensures followed { OnOk result (settle (A.width arith.old) (exchanged inst.now (after self.old.state (Swap q p end)) (length log.old + 1) self.old.factors p q) ≡ Some (Some self.new.factors)) }
        ensures log_kept { OnErr result (log.new ≡ log.old) }
        ensures spared { OnErr result (IsSpared self.old self.new) }
        ensures refusal { IfErr result (Explains (Cause (A.width arith.old) inst.now (length log.old) self.old.state self.old.factors)) }
        ensures width { A.width arith.new ≡ A.width arith.old }
        ensures unfit { A.unfit_count arith.new ≡ count_after (A.unfit_count arith.old) result }
        ensures work { A.work_count arith.new ≤ A.work_count arith.old + (row_count inst.now + follow_work (row_count inst.now) self.old.factors.updates) }
    {
        let number = log.len() as u64;
        self.work_values(inst, number, p as usize, q, down, ratio, arith)?;
        log.push(Entry::Swap(q, p, end))?;
        let next = log.len() as u64;
        match self.follow(alloc, inst, q, p, next, arith) {
            Ok(()) => {
                self.take(Entry::Swap(q, p, end));
                Ok(())
            }
            Err(refusal) => {
                let _ = log.pop();
                Err(refusal)
            }
        }
    }

    /// Takes in the turn to phase two, at which the basic values stay.
    ///
    /// # Errors
    ///
    /// `Memory` for want of memory. Nothing has changed then.
    pub fn turn(&mut self, log: &mut Log) -> Result<(), Memory>
        ensures log { OnOk result (log.new ≡ log.old ++ Turn ∷ []) }
        ensures stands { (w : ℕ) (inst : Equations) → IsWellFormed inst → IsIterate w inst log.old self.old → IsNext inst self.old.state Turn → OnOk result (IsIterate w inst log.new self.new) }
        ensures same { OnOk result (self.new.factors ≡ self.old.factors) }
        ensures log_kept { OnErr result (log.new ≡ log.old) }
        ensures kept { OnErr result (self.new ≡ self.old) }
    {
        log.push(Entry::Turn)?;
        self.state.after(Entry::Turn);
        self.is_priced = false;
        Ok(())
    }

    // Goes on where no column is eligible: to phase two, or to the end.
    fn rest(&mut self, inst: &Instance, log: &mut Log) -> Result<Reached, Memory>
        requires none { NoneEligible inst.now self.old.state self.old.prices.items }
        requires basis { IsBasisOf inst.now self.old.state }
        requires values { length self.old.values.items ≡ row_count inst.now }
        ensures reached { (w budget : ℕ) → IsWellFormed inst.now → IsIterate w inst.now log.old self.old → self.old.is_priced ≡ true → moves log.old ≤ budget
            → IfOk result (Reaches w inst.now budget log.old self.old.state log.new self.new) }
        ensures goes { (w : ℕ) → IfOk result (GoesWith w inst.now (length log.old) self.old.state self.old.factors self.new.factors) }
        ensures log_kept { OnErr result (log.new ≡ log.old) }
        ensures kept { OnErr result (self.new ≡ self.old) }
    {
        match self.state.phase() {
            Phase::Two => Ok(Reached::End(Stop::Optimal)),
            Phase::One => {
                if artificials_are_zero(inst, &self.state, &self.values) {
                    self.turn(log)?;
                    Ok(Reached::Entry(Entry::Turn))
                } else {
                    Ok(Reached::End(Stop::Infeasible))
                }
            }
        }
    }

    // Goes on by the flip of the column that has entered, where the budget has a move left.
    fn flip_on<A: Arith>(
        &mut self,
        inst: &Instance,
        budget: u64,
        log: &mut Log,
        q: u32,
        down: bool,
        ratio: Frac,
        arith: &mut A,
    ) -> Result<Reached, Refusal>
        requires well_formed { IsWellFormed inst.now }
        requires stands { IsIterate (A.width arith.old) inst.now log.old self.old }
        requires priced { self.old.is_priced ≡ true }
        requires enters { Enters inst.now self.old.state self.old.prices.items q }
        requires entered { IsEntered inst.now q self.old (record { down = down; leave = leave.Flip ratio }) }
        requires within { moves log.old ≤ budget }
        ensures reached { IfOk result (Reaches (A.width arith.old) inst.now budget log.old self.old.state log.new self.new) }
        ensures goes { IfOk result (GoesWith (A.width arith.old) inst.now (length log.old) self.old.state self.old.factors self.new.factors) }
        ensures log_kept { OnErr result (log.new ≡ log.old) }
        ensures spared { OnErr result (IsSpared self.old self.new) }
        ensures refusal { IfErr result (Explains (Cause (A.width arith.old) inst.now (length log.old) self.old.state self.old.factors)) }
        ensures width { A.width arith.new ≡ A.width arith.old }
        ensures unfit { A.unfit_count arith.new ≡ count_after (A.unfit_count arith.old) result }
        ensures work { A.work_count arith.new ≤ A.work_count arith.old + row_count inst.now }
    {
        if log.moves() == budget {
            return Ok(Reached::Spent);
        }
        self.flip(inst, log, q, down, ratio, arith)?;
        Ok(Reached::Entry(Entry::Flip(q)))
    }

    // Goes on by the swap of the column that has entered, where the budget has a move left.
    fn exchange_on<A: Arith>(
        &mut self,
        alloc: Global,
        inst: &Instance,
        budget: u64,
        log: &mut Log,
        q: u32,
        p: u32,
        end: Side,
        down: bool,
        ratio: Frac,
        arith: &mut A,
    ) -> Result<Reached, Refusal>
        requires well_formed { IsWellFormed inst.now }
        requires stands { IsIterate (A.width arith.old) inst.now log.old self.old }
        requires priced { self.old.is_priced ≡ true }
        requires enters { Enters inst.now self.old.state self.old.prices.items q }
        requires entered { IsEntered inst.now q self.old (record { down = down; leave = leave.Out p end ratio }) }
        requires within { moves log.old ≤ budget }
        ensures reached { IfOk result (Reaches (A.width arith.old) inst.now budget log.old self.old.state log.new self.new) }
        ensures goes { IfOk result (GoesWith (A.width arith.old) inst.now (length log.old) self.old.state self.old.factors self.new.factors) }
        ensures log_kept { OnErr result (log.new ≡ log.old) }
        ensures spared { OnErr result (IsSpared self.old self.new) }
        ensures refusal { IfErr result (Explains (Cause (A.width arith.old) inst.now (length log.old) self.old.state self.old.factors)) }
        ensures width { A.width arith.new ≡ A.width arith.old }
        ensures unfit { A.unfit_count arith.new ≡ count_after (A.unfit_count arith.old) result }
        ensures work { A.work_count arith.new ≤ A.work_count arith.old + (row_count inst.now + follow_work (row_count inst.now) self.old.factors.updates) }
        ensures spent { IfOk result (λ reached. A.work_count arith.new ≤ A.work_count arith.old + (row_count inst.now + reached_work (row_count inst.now) self.old.factors.updates reached)) }
    {
        if log.moves() == budget {
            return Ok(Reached::Spent);
        }
        self.exchange(alloc, inst, log, q, p, end, down, ratio, arith)?;
        Ok(Reached::Entry(Entry::Swap(q, p, end)))
    }

    // Goes on by the column that enters.
    fn move_on<A: Arith>(
        &mut self,
        alloc: Global,
        inst: &Instance,
        budget: u64,
        log: &mut Log,
        q: u32,
        arith: &mut A,
    ) -> Result<Reached, Refusal>
        requires well_formed { IsWellFormed inst.now }
        requires stands { IsIterate (A.width arith.old) inst.now log.old self.old }
        requires priced { self.old.is_priced ≡ true }
        requires enters { Enters inst.now self.old.state self.old.prices.items q }
        requires within { moves log.old ≤ budget }
        ensures reached { IfOk result (Reaches (A.width arith.old) inst.now budget log.old self.old.state log.new self.new) }
        ensures goes { IfOk result (GoesWith (A.width arith.old) inst.now (length log.old) self.old.state self.old.factors self.new.factors) }
        ensures log_kept { OnErr result (log.new ≡ log.old) }
        ensures stands { OnErr result (IsIterate (A.width arith.old) inst.now log.old self.new) }
        ensures kept { OnErr result (IsKept self.old self.new) }
        ensures refusal { IfErr result (Explains (Cause (A.width arith.old) inst.now (length log.old) self.old.state self.old.factors)) }
        ensures width { A.width arith.new ≡ A.width arith.old }
        ensures unfit { A.unfit_count arith.new ≡ count_after (A.unfit_count arith.old) result }
        ensures work { A.work_count arith.new ≤ A.work_count arith.old
            + (stored self.old.factors.etas + (row_count inst.now * row_count inst.now + 4 * row_count inst.now) + follow_work (row_count inst.now) self.old.factors.updates) }
        ensures spent { IfOk result (λ reached. A.work_count arith.new ≤ A.work_count arith.old
            + (move_work (row_count inst.now) + reached_work (row_count inst.now) self.old.factors.updates reached)) }
    {
        let Decision { down, leave } = self.enter(alloc, inst, q, arith)?;
        match leave {
            Leave::Free => Ok(Reached::End(Stop::Free(q, down))),
            Leave::Flip(ratio) => self.flip_on(inst, budget, log, q, down, ratio, arith),
            Leave::Out(p, end, ratio) => {
                self.exchange_on(alloc, inst, budget, log, q, p, end, down, ratio, arith)
            }
        }
    }

    /// Goes on from the state by the column that enters; where none is eligible, to phase two or to the end.
    ///
    /// # Errors
    ///
    /// `Unfit` where a value that is worked does not fit the width, `Memory` for want of memory. The iterate still stands
    /// at the log then.
    pub fn advance<A: Arith>(
        &mut self,
        alloc: Global,
        inst: &Instance,
        budget: u64,
        log: &mut Log,
        entering: Option<u32>,
        arith: &mut A,
    ) -> Result<Reached, Refusal>
        requires well_formed { IsWellFormed inst.now }
        requires stands { IsIterate (A.width arith.old) inst.now log.old self.old }
        requires chosen { IsChosen inst.now self.old.state entering }
        requires within { moves log.old ≤ budget }
        ensures reached { IfOk result (Reaches (A.width arith.old) inst.now budget log.old self.old.state log.new self.new) }
        ensures goes { IfOk result (GoesWith (A.width arith.old) inst.now (length log.old) self.old.state self.old.factors self.new.factors) }
        ensures log_kept { OnErr result (log.new ≡ log.old) }
        ensures stands { OnErr result (IsIterate (A.width arith.old) inst.now log.old self.new) }
        ensures kept { OnErr result (IsKept self.old self.new) }
        ensures refusal { IfErr result (Explains (Cause (A.width arith.old) inst.now (length log.old) self.old.state self.old.factors)) }
        ensures width { A.width arith.new ≡ A.width arith.old }
        ensures unfit { A.unfit_count arith.new ≡ count_after (A.unfit_count arith.old) result }
        ensures work { A.work_count arith.new ≤ A.work_count arith.old
            + (2 * stored self.old.factors.etas + (2 * (row_count inst.now * row_count inst.now) + 5 * row_count inst.now) + follow_work (row_count inst.now) self.old.factors.updates) }
        ensures spent { IfOk result (λ reached. A.work_count arith.new ≤ A.work_count arith.old
            + (owed (row_count inst.now) self.old + (move_work (row_count inst.now) + reached_work (row_count inst.now) self.old.factors.updates reached))) }
    {
        self.price(inst, arith)?;
        match entering {
            Some(q) => self.move_on(alloc, inst, budget, log, q, arith),
            None => Ok(self.rest(inst, log)?),
        }
    }

    /// The iterate at the start.
    ///
    /// # Errors
    ///
    /// `Unfit` where a basic value does not fit the width; `Memory` for want of memory. For the factors no value is worked.
    pub fn start<A: Arith>(
        alloc: Global,
        inst: &Instance,
        arith: &mut A,
    ) -> Result<Iterate, Refusal>
        requires { StartFits (A.width arith.old) inst.now }
        ensures stands { IfOk result (IsIterate (A.width arith.old) inst.now []) }
        ensures made { IfOk result (λ it. settle (A.width arith.old) (made_anew inst.now (start_of inst.now) 0) ≡ Some (Some it.factors)) }
        ensures refusal { IfErr result (Explains (StartsUnfit (A.width arith.old) inst.now)) }
        ensures width { A.width arith.new ≡ A.width arith.old }
        ensures unfit { A.unfit_count arith.new ≡ count_after (A.unfit_count arith.old) result }
        ensures work { A.work_count arith.new ≤ A.work_count arith.old + (stored_entries inst.now + making_work inst.now) }
    {
        let values = start_values(alloc, inst, arith)?;
        let state = inst.start(alloc)?;
        let factors = factors_of(alloc, inst, state.basis(), 0, arith)?;
        Ok(Iterate::of(alloc, inst.rows(), state, factors, values)?)
    }

    // The iterate of these parts, whose prices are not worked.
    pub(crate) fn of(
        alloc: Global,
        rows: usize,
        state: State,
        factors: Factors,
        values: Vec<Frac>,
    ) -> Result<Iterate, AllocError>
        ensures state { IfOk result (λ it. it.state ≡ state) }
        ensures factors { IfOk result (λ it. it.factors ≡ factors) }
        ensures values { IfOk result (λ it. it.values.items ≡ values.items) }
        ensures unpriced { IfOk result (λ it. it.is_priced ≡ false) }
        ensures prices { IfOk result (λ it. length it.prices.items ≡ rows) }
        ensures alpha { IfOk result (λ it. length it.alpha.items ≡ rows) }
        ensures spike { IfOk result (λ it. length it.spike.items ≡ rows) }
        ensures spare { IfOk result (λ it. length it.spare.items ≡ rows) }
    {
        Ok(Iterate {
            state,
            factors,
            values,
            prices: zeros(alloc, rows)?,
            is_priced: false,
            alpha: zeros(alloc, rows)?,
            spike: zeros(alloc, rows)?,
            spare: zeros(alloc, rows)?,
        })
    }
}

// So many zeros.
#[tactic(auto, using(exact_frac::specs::Constants::constants))]
fn zeros(alloc: Global, count: usize) -> Result<Vec<Frac>, AllocError>
    ensures { IfOk result (λ line. length line.items ≡ count) }
{
    vec![in alloc; Frac::ZERO; count]
}

// The basic values at the start.
fn start_values<A: Arith>(
    alloc: Global,
    inst: &Instance,
    arith: &mut A,
) -> Result<Vec<Frac>, Refusal>
    requires { StartFits (A.width arith.old) inst.now }
    ensures values { IfOk result (λ values. Values inst.now (start_of inst.now) values.items) }
    ensures refusal { IfErr result (Explains (StartsUnfit (A.width arith.old) inst.now)) }
    ensures width { A.width arith.new ≡ A.width arith.old }
    ensures unfit { A.unfit_count arith.new ≡ count_after (A.unfit_count arith.old) result }
    ensures work { A.work_count arith.new ≤ A.work_count arith.old + stored_entries inst.now }
{
    let mut values = zeros(alloc, inst.rows())?;
    match work_start_values(inst, arith, &mut values) {
        Ok(()) => Ok(values),
        Err(_) => Err(Refusal::Unfit),
    }
}
