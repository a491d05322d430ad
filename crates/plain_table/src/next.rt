//! What comes next at a table.
ghost use Rattle.std.specs.Prelude.{◌≡◌, ◌<◌, ◌↔◌, length, IfErr, IfOk, IsTrue, List, MatchOption};
ghost use Rattle.exact_frac.specs.Count.{unfit_after};
ghost use Rattle.lp_run.specs.Instance.{column_count, row_count};
ghost use Rattle.lp_run.specs.Listing.{Judges, Listed};
ghost use Rattle.lp_run.specs.Step.{ArtificialsZero, Eligible, Enters, NoneEligible, direction};
ghost use Rattle.bland_ratio.specs.Leave.{IsBasisOf, direction_where, ratio_place};
ghost use Rattle.plain_table.specs.Next.{ComesNext, IsTableOf, OverflowsNext, RatioLists, prices as prices_of};
ghost use Rattle.plain_table.specs.Inner.Next.{DecidesAt, StandsOff, tested_at};

use crate::motion::{Parts, decide};
use crate::table::Table;
use bland_ratio::{Leave, RatioUnfit, improves};
use exact_frac::{Arith, Frac};
use instance_model::{Instance, State};
use lp_model::{Entry, Kind, Phase, Place};
use lp_run::ColumnKind;

/// The end of a run.
#[derive(Clone, Copy, Debug, PartialEq, Eq)]
pub enum End {
    /// An optimum: phase two, and no column is eligible.
    Optimal,
    /// No feasible point: phase one, no column is eligible, and some artificial is not 0.
    Infeasible,
    /// The step of this column, the least eligible one, has no limit.
    Unbounded(u32),
}

/// What comes next at a state of a run.
#[derive(Clone, Copy, Debug, PartialEq, Eq)]
pub enum Next {
    /// An entry of the log.
    Entry(Entry),
    /// The end of the run.
    End(End),
}

/// The place of a distance or a ratio of the step of column `q`.
pub fn ratio_place(number: u64, q: u32, refusal: RatioUnfit) -> Place
    ensures { result ≡ ratio_place number q refusal }
{
    match refusal.position {
        Some(position) => Place {
            number,
            kind: Kind::Ratio,
            row: Some(position),
            column: None,
        },
        None => Place {
            number,
            kind: Kind::Ratio,
            row: None,
            column: Some(q),
        },
    }
}

/// Whether a column with that reduced cost falls as it enters; else it rises.
#[tactic(auto, using(exact_frac::specs::Constants::constants))]
pub fn falls(cost: Frac) -> bool
    ensures { direction cost ≡ direction_where result }
{
    !cost.cmp(&Frac::ZERO).is_lt()
}

/// Whether each artificial is 0, at these basic values of a state.
pub fn artificials_are_zero(inst: &Instance, state: &State, values: &[Frac]) -> bool
    requires basis { IsBasisOf inst.now state.now }
    requires values { length values.now ≡ row_count inst.now }
    ensures { IsTrue result ↔ ArtificialsZero inst.now state.now values.now }
{
    for p in 0..inst.rows() {
        if is_needed(inst, state, values, p) {
            return false;
        }
    }
    true
}

// Whether an artificial stands in a position at another value than 0.
fn is_needed(inst: &Instance, state: &State, values: &[Frac], p: usize) -> bool
    requires basis { IsBasisOf inst.now state.now }
    requires values { length values.now ≡ row_count inst.now }
    requires position { p < row_count inst.now }
    ensures { IsTrue result ↔ StandsOff inst.now state.now values.now p }
{
    match inst.kind(state.basic(p) as usize) {
        ColumnKind::Artificial(_) => !values[p].is_zero(),
        _ => false,
    }
}

impl Table {
    /// What comes next at the table's state, by Bland's rule: the least eligible column enters, and the least column of
    /// the least ratio leaves. The table stays. Of all numbers only the distances and ratios of the step are worked
    /// (`RatioLists`): none where no column is eligible.
    ///
    /// # Errors
    ///
    /// The place of the first distance or ratio of the step that does not fit the width, where there is one.
    pub fn next<A: Arith>(&mut self, inst: &Instance, arith: &mut A) -> Result<Next, Place>
        requires { IsTableOf inst.now self.old }
        ensures next { IfOk result (ComesNext inst.now self.old) }
        ensures overflow { IfErr result (OverflowsNext (A.width arith.old) inst.now self.old) }
        ensures tested { (tested : List Listed) → RatioLists inst.now self.old.number self.old.state tested → Judges (A.width arith.old) tested result }
        ensures kept { self.new ≡ self.old }
        ensures width { A.width arith.new ≡ A.width arith.old }
        ensures unfit { A.unfit_count arith.new ≡ unfit_after (A.unfit_count arith.old) result }
    {
        let Some(q) = self.entering(inst) else {
            return Ok(self.rest(inst));
        };
        Ok(match self.leave(inst, q, arith)? {
            Leave::Flip(_) => Next::Entry(Entry::Flip(q)),
            Leave::Out(position, end, _) => Next::Entry(Entry::Swap(q, position, end)),
            Leave::Free => Next::End(End::Unbounded(q)),
        })
    }

    // Whether a column may enter.
    fn may_enter(&self, inst: &Instance, j: usize) -> bool
        requires table { IsTableOf inst.now self.now }
        requires column { j < column_count inst.now }
        ensures { IsTrue result ↔ Eligible inst.now self.now.state (prices_of inst.now self.now) j }
    {
        if !improves(self.state().status(j), self.cost(j)) {
            return false;
        }
        !inst.bounds(self.state().phase(), j).is_fixed()
    }

    // The least eligible column.
    fn entering(&self, inst: &Instance) -> Option<u32>
        requires { IsTableOf inst.now self.now }
        ensures { MatchOption result (NoneEligible inst.now self.now.state (prices_of inst.now self.now)) (Enters inst.now self.now.state (prices_of inst.now self.now)) }
    {
        for j in 0..inst.columns() {
            if self.may_enter(inst, j) {
                return Some(j as u32);
            }
        }
        None
    }

    // The limit that decides the step of a column.
    fn leave<A: Arith>(&mut self, inst: &Instance, q: u32, arith: &mut A) -> Result<Leave, Place>
        requires table { IsTableOf inst.now self.old }
        requires column { q < column_count inst.now }
        ensures decides { IfOk result (DecidesAt inst.now self.old q) }
        ensures answer { Judges (A.width arith.old) (tested_at inst.now self.old q) result }
        ensures kept { self.new ≡ self.old }
        ensures width { A.width arith.new ≡ A.width arith.old }
        ensures unfit { A.unfit_count arith.new ≡ unfit_after (A.unfit_count arith.old) result }
    {
        let parts = Parts {
            state: &self.state,
            rows: &self.rows,
            values: &self.values,
            costs: &self.costs,
            number: self.number,
        };
        decide(inst, &parts, q, arith, &mut self.alpha)
    }

    // What comes next where no column is eligible.
    fn rest(&self, inst: &Instance) -> Next
        requires table { IsTableOf inst.now self.now }
        requires none { NoneEligible inst.now self.now.state (prices_of inst.now self.now) }
        ensures { ComesNext inst.now self.now result }
    {
        match self.state().phase() {
            Phase::Two => Next::End(End::Optimal),
            Phase::One => {
                if artificials_are_zero(inst, self.state(), self.values()) {
                    Next::Entry(Entry::Turn)
                } else {
                    Next::End(End::Infeasible)
                }
            }
        }
    }
}
