//! The changes of a cost.
ghost use Rattle.std.specs.Prelude.{◌≡◌, ◌+◌, ◌<◌, ◌≤◌, length};
ghost use Rattle.exact_frac.specs.Count.{unfit_after};
ghost use Rattle.rational.specs.Sum.{at};
ghost use Rattle.lp_run.specs.Instance.{column_count};
ghost use Rattle.ranging.specs.Inner.Found.{LimitsAll, LimitsOne, own_limit};
ghost use Rattle.ranging.specs.Listing.{is_basic, is_looked_at};

use crate::interval::{counted, everything, limit_by, meet};
use exact_frac::{Arith, Frac, Unfit};
use instance_model::{Bounds, Instance, State};
use lp_model::Status;
use std::cmp::Ordering;

/// The changes by which no column comes to improve: the reduced cost of each falls by the change times its entry in `row`. A
/// quotient is worked for each column that is looked at and has an entry.
pub fn cost_limits<A: Arith>(
    inst: &Instance,
    state: &State,
    costs: &[Frac],
    row: &[Frac],
    arith: &mut A,
) -> Result<Bounds, Unfit>
    requires statuses { length state.now.statuses ≡ column_count inst.now }
    requires costs { length costs.now ≡ column_count inst.now }
    requires row { length row.now ≡ column_count inst.now }
    ensures limits { LimitsAll (A.width arith.old) inst.now state.now (at costs.now) (at row.now) result }
    ensures width { A.width arith.new ≡ A.width arith.old }
    ensures unfit { A.unfit_count arith.new ≡ unfit_after (A.unfit_count arith.old) result }
    ensures work { A.work_count arith.new ≤ A.work_count arith.old + column_count inst.now }
{
    let mut limits = everything();
    for k in 0..inst.columns() {
        let next = cost_limit(inst, state, costs[k], row[k], k, arith)?;
        limits = meet(limits, next);
    }
    Ok(limits)
}

// The changes by which one column does not come to improve, of that reduced cost and with that entry.
#[tactic(auto, using(exact_frac::specs::Constants::constants))]
fn cost_limit<A: Arith>(
    inst: &Instance,
    state: &State,
    cost: Frac,
    entry: Frac,
    k: usize,
    arith: &mut A,
) -> Result<Bounds, Unfit>
    requires statuses { length state.now.statuses ≡ column_count inst.now }
    requires column { k < column_count inst.now }
    ensures limits { LimitsOne (A.width arith.old) inst.now state.now cost entry k result }
    ensures width { A.width arith.new ≡ A.width arith.old }
    ensures unfit { A.unfit_count arith.new ≡ unfit_after (A.unfit_count arith.old) result }
    ensures work { A.work_count arith.new ≤ A.work_count arith.old + 1 }
{
    if entry.is_zero() {
        return Ok(everything());
    }
    if !is_looked_at(inst, state, k) {
        return Ok(everything());
    }
    let quotient = arith.div(cost, entry)?;
    Ok(limit_by(state.status(k), entry.cmp(&Frac::ZERO), quotient))
}

/// Whether a column is looked at: it is not basic and its ends differ.
pub fn is_looked_at(inst: &Instance, state: &State, k: usize) -> bool
    requires statuses { length state.now.statuses ≡ column_count inst.now }
    requires column { k < column_count inst.now }
    ensures { result ≡ is_looked_at inst.now state.now k }
{
    !is_basic(state.status(k)) && !inst.bounds(state.phase(), k).is_fixed()
}

// Whether a column with that status is basic.
fn is_basic(status: Status) -> bool
    ensures { result ≡ is_basic status }
{
    match status {
        Status::Basic => true,
        Status::Lower | Status::Upper | Status::Zero => false,
    }
}

/// The changes of the cost of a column that is not basic, of that reduced cost: no other reduced cost moves.
pub fn own_limit(inst: &Instance, state: &State, cost: Frac, j: usize) -> Bounds
    requires statuses { length state.now.statuses ≡ column_count inst.now }
    requires column { j < column_count inst.now }
    ensures { result ≡ own_limit inst.now state.now cost j }
{
    if !is_looked_at(inst, state, j) {
        return counted(inst.sense(), everything());
    }
    counted(
        inst.sense(),
        limit_by(state.status(j), Ordering::Less, cost.negated()),
    )
}
