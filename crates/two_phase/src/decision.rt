//! How a column enters: in which direction, and what limits its step.
ghost use Rattle.std.specs.Prelude.{◌≡◌, ◌+◌, ◌*◌, ◌<◌, ◌≤◌, ℕ, length, IfOk, OnErr};
ghost use Rattle.exact_frac.specs.Count.{unfit_after};
ghost use Rattle.bland_ratio.specs.Leave.{IsBasisOf};
ghost use Rattle.lp_run.specs.Instance.{IsWellFormed, column_count, row_count};
ghost use Rattle.two_phase.specs.Inner.Decisions.{IsDecided, IsUndecided};

use bland_ratio::{Leave, leaving, price};
use exact_frac::{Arith, Frac, Unfit};
use instance_model::{Instance, State};
use plain_table::falls;

/// How a column enters: it falls where `down` says so, or else rises, and `leave` limits its step.
#[derive(Clone, Copy, Debug)]
pub struct Decision {
    pub down: bool,
    pub leave: Leave,
}

/// How column `q` enters, at these basic values and prices, where `alpha` is the column in terms of the basis.
pub fn decide<A: Arith>(
    inst: &Instance,
    state: &State,
    values: &[Frac],
    prices: &[Frac],
    q: usize,
    alpha: &[Frac],
    arith: &mut A,
) -> Result<Decision, Unfit>
    requires well_formed { IsWellFormed inst.now }
    requires state { IsBasisOf inst.now state.now }
    requires values { length values.now ≡ row_count inst.now }
    requires prices { length prices.now ≡ row_count inst.now }
    requires column { q < column_count inst.now }
    requires alpha { length alpha.now ≡ row_count inst.now }
    ensures decided { IfOk result (IsDecided inst.now state.now values.now prices.now alpha.now q) }
    ensures undecided { OnErr result (IsUndecided (A.width arith.old) inst.now state.now values.now prices.now alpha.now q) }
    ensures width { A.width arith.new ≡ A.width arith.old }
    ensures unfit { A.unfit_count arith.new ≡ unfit_after (A.unfit_count arith.old) result }
    ensures work { A.work_count arith.new ≤ A.work_count arith.old + 2 * row_count inst.now }
{
    let cost = price(inst, state.phase(), prices, q, arith)?;
    let down = falls(cost);
    match leaving(inst, state, values, q, down, alpha, arith) {
        Ok(leave) => Ok(Decision { down, leave }),
        Err(_) => Err(Unfit),
    }
}
