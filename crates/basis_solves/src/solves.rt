//! What factors of a state's basis solve for: the prices, and a column in terms of the basis.
ghost use Rattle.std.specs.Prelude.{◌≡◌, ◌+◌, ◌*◌, ◌<◌, ◌≤◌, ◌^◌, ℕ, Some, None, length, IfErr, IfOk, OnErr, OnOk};
ghost use Rattle.rational.specs.Worked.{settle};
ghost use Rattle.exact_frac.specs.Count.{unfit_after};
ghost use Rattle.exact_frac.specs.Settles.{Leaves};
ghost use Rattle.lp_run.specs.Instance.{column_count, row_count};
ghost use Rattle.lp_run.specs.Solution.{ColumnOf, Prices, basis_entry};
ghost use Rattle.lp_run.specs.State.{State as Position, basic};
ghost use Rattle.factor_model.specs.Eta.{apply, stored};
ghost use Rattle.factor_model.specs.Factors as model;
ghost use Rattle.factor_model.specs.Factors.{AreFactors};
ghost use Rattle.factor_model.specs.Upper.{Solves};
ghost use Rattle.factor_run.specs.Built.{entering_column};
ghost use Rattle.factor_run.specs.Calm.{basic_costs as costs_of};
ghost use Rattle.ftran_btran.specs.Kept.{size};
ghost use Rattle.basis_solves.specs.Refusals.{Explains, count_after};

use crate::columns::column_of;
use crate::refusal::Refusal;
use exact_frac::{Arith, Frac, Unfit};
use ftran_btran::Factors;
use instance_model::{Instance, State};
use plain_table::basic_costs;
use std::alloc::Global;

/// The prices of a state, by row, by the factors of its basis. The costs of the basic columns come into `costs`; each list
/// has length m.
///
/// # Errors
///
/// `Unfit` exactly where a worked value does not fit the width of the arithmetic; the lists hold anything then.
pub fn solve_prices<A: Arith>(
    inst: &Instance,
    state: &State,
    factors: &Factors,
    costs: &mut [Frac],
    work: &mut [Frac],
    out: &mut [Frac],
    arith: &mut A,
) -> Result<(), Unfit>
    requires positions { length state.now.basis ≡ row_count inst.now }
    requires within { (p : ℕ) → p < row_count inst.now → basic state.now p < column_count inst.now }
    requires size { size factors.now ≡ row_count inst.now }
    requires costs { length costs.old ≡ row_count inst.now }
    requires work { length work.old ≡ row_count inst.now }
    requires out { length out.old ≡ row_count inst.now }
    ensures settled { Leaves (A.width arith.old) (model.btran factors.now (costs_of inst.now state.now)) result out.new }
    ensures prices { AreFactors (row_count inst.now) factors.now (basis_entry inst.now state.now) → OnOk result (Prices inst.now state.now out.new) }
    ensures width { A.width arith.new ≡ A.width arith.old }
    ensures unfit { A.unfit_count arith.new ≡ unfit_after (A.unfit_count arith.old) result }
    ensures work { A.work_count arith.new ≤ A.work_count arith.old + (stored factors.now.etas + (row_count inst.now * row_count inst.now + row_count inst.now)) }
{
    basic_costs(inst, state, state.phase(), costs);
    factors.btran(costs, work, out, arith)
}

/// Column `q` in terms of the basis of the factors, in `alpha`; its spike, which an update asks for, in `spike`. Both have
/// length m.
///
/// # Errors
///
/// `Unfit` exactly where a worked value does not fit the width of the arithmetic, `Memory` for want of memory; the lists hold
/// anything then.
pub fn solve_column<A: Arith>(
    alloc: Global,
    inst: &Instance,
    factors: &Factors,
    q: usize,
    spike: &mut [Frac],
    alpha: &mut [Frac],
    arith: &mut A,
) -> Result<(), Refusal>
    requires column { q < column_count inst.now }
    requires size { size factors.now ≡ row_count inst.now }
    requires spike { length spike.old ≡ row_count inst.now }
    requires alpha { length alpha.old ≡ row_count inst.now }
    ensures settled { OnOk result (settle (A.width arith.old) (model.ftran factors.now (entering_column inst.now q)) ≡ Some (spike.new, alpha.new)) }
    ensures column { (s : Position) → AreFactors (row_count inst.now) factors.now (basis_entry inst.now s) → OnOk result (ColumnOf inst.now s q alpha.new) }
    ensures spike { OnOk result (spike.new ≡ (apply (entering_column inst.now q) factors.now.etas).answer) }
    ensures form { OnOk result (Solves factors.now.upper alpha.new spike.new) }
    ensures refusal { IfErr result (Explains (settle (A.width arith.old) (model.ftran factors.now (entering_column inst.now q)) ≡ None)) }
    ensures width { A.width arith.new ≡ A.width arith.old }
    ensures unfit { A.unfit_count arith.new ≡ count_after (A.unfit_count arith.old) result }
    ensures work { A.work_count arith.new ≤ A.work_count arith.old + (stored factors.now.etas + (row_count inst.now * row_count inst.now + row_count inst.now)) }
{
    let column = column_of(alloc, inst, q)?;
    Ok(factors.ftran(column.as_ref(), spike, alpha, arith)?)
}
