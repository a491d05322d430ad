//! A position, taken into the ranges.
ghost use Rattle.std.specs.Prelude.{◌≡◌, ◌<◌, ◌≤◌, length, None};
ghost use Rattle.rational.specs.Sum.{at};
ghost use Rattle.lp_run.specs.Instance.{column_count, row_count, structural_count};
ghost use Rattle.exact_frac.specs.Count.{raised};
ghost use Rattle.ranging.specs.Inner.Found.{AreSized, IsCostLimit, RisesFor, RisesForLimits, TakesCost, TakesPosition};
ghost use Rattle.lp_run.specs.State.{basic};

use crate::cost::cost_limits;
use crate::interval::counted;
use crate::limits::Limits;
use crate::value::take_moves;
use exact_frac::{Arith, Frac};
use instance_model::{Bounds, Instance, State};

/// What is read of a position: its basic value, its row, and of that the entries of the logicals.
#[derive(Clone, Copy)]
pub(crate) struct Reading<'a> {
    pub(crate) value: Frac,
    pub(crate) row: &'a [Frac],
    pub(crate) rates: &'a [Frac],
}

/// Takes a position into the ranges: the cost of the structural that is basic in it, and each right side.
pub(crate) fn take_position<A: Arith>(
    inst: &Instance,
    state: &State,
    costs: &[Frac],
    p: usize,
    read: &Reading,
    limits: &mut Limits,
    arith: &mut A,
)
    requires position { p < row_count inst.now }
    requires column { basic state.now p < column_count inst.now }
    requires sized { AreSized inst.now state.now costs.now read.now.row.now read.now.rates.now limits.old }
    ensures taken { TakesPosition (A.width arith.old) inst.now state.now costs.now p read.now.value read.now.row.now read.now.rates.now limits.old limits.new }
    ensures width { A.width arith.new ≡ A.width arith.old }
    ensures unfit { A.unfit_count arith.old ≤ A.unfit_count arith.new }
    ensures rose { RisesForLimits (A.unfit_count arith.old) (A.unfit_count arith.new) limits.old limits.new }
{
    let bounds = inst.bounds(state.phase(), state.basic(p) as usize);
    take_cost(
        inst,
        state,
        costs,
        p,
        read.row,
        limits.costs.as_mut_slice(),
        arith,
    );
    take_moves(
        bounds,
        read.value,
        read.rates,
        limits.rights.as_mut_slice(),
        arith,
    );
}

// Takes a position into the costs: that of the structural that is basic in it, where it is one.
fn take_cost<A: Arith>(
    inst: &Instance,
    state: &State,
    costs: &[Frac],
    p: usize,
    row: &[Frac],
    limits: &mut [Option<Bounds>],
    arith: &mut A,
)
    requires statuses { length state.now.statuses ≡ column_count inst.now }
    requires positions { length state.now.basis ≡ row_count inst.now }
    requires position { p < row_count inst.now }
    requires costs { length costs.now ≡ column_count inst.now }
    requires row { length row.now ≡ column_count inst.now }
    requires each { length limits.old ≡ structural_count inst.now }
    ensures taken { TakesCost (A.width arith.old) inst.now state.now costs.now p row.now limits.old limits.new }
    ensures width { A.width arith.new ≡ A.width arith.old }
    ensures unfit { A.unfit_count arith.old ≤ A.unfit_count arith.new }
    ensures rose { RisesFor (A.unfit_count arith.old) (A.unfit_count arith.new) limits.old limits.new }
{
    let column = state.basic(p) as usize;
    if column < inst.structurals() {
        limits[column] = basic_limit(inst, state, costs, row, arith);
    }
}

// The changes of the cost of the structural that is basic in the position of a row.
fn basic_limit<A: Arith>(
    inst: &Instance,
    state: &State,
    costs: &[Frac],
    row: &[Frac],
    arith: &mut A,
) -> Option<Bounds>
    requires statuses { length state.now.statuses ≡ column_count inst.now }
    requires costs { length costs.now ≡ column_count inst.now }
    requires row { length row.now ≡ column_count inst.now }
    ensures limit { IsCostLimit (A.width arith.old) inst.now state.now (at costs.now) (at row.now) result }
    ensures width { A.width arith.new ≡ A.width arith.old }
    ensures unfit { A.unfit_count arith.old ≤ A.unfit_count arith.new }
    ensures rose { result ≡ None → raised (A.unfit_count arith.old) 1 ≤ A.unfit_count arith.new }
{
    match cost_limits(inst, state, costs, row, arith) {
        Ok(limits) => Some(counted(inst.sense(), limits)),
        Err(_) => None,
    }
}
