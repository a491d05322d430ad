//! The outcome of a final state.
ghost use Rattle.std.specs.Prelude.{◌≡◌, ◌+◌, ◌≤◌, List, length, IfErr, IfOk};
ghost use Rattle.bland_ratio.specs.Entries.{nonzero_costs};
ghost use Rattle.deck_model.specs.Outcome.{outcome_of};
ghost use Rattle.lp_model.specs.declared.Entry.{Entry};
ghost use Rattle.lp_run.specs.Ends.{Yields};
ghost use Rattle.lp_run.specs.Instance.{column_count, row_count};
ghost use Rattle.run_outcome.specs.Endings.{EndsAt, IsOutcomeCause, count_after};
ghost use Rattle.run_outcome.specs.declared.stop.Stop.TheVariants as stop;

use crate::fault::OutcomeFault;
use crate::points::{count_in, point, ray};
use crate::stop::Stop;
use crate::total::objective;
use deck_model::Outcome;
use exact_frac::{Arith, Frac, Fracs};
use instance_model::{Instance, State};
use std::alloc::Global;

/// A final state of a run, with what is worked at it.
#[derive(Drop)]
pub struct Ending<'a> {
    /// How many entries of the log come before the state.
    pub number: u64,
    /// The state.
    pub state: &'a State,
    /// The prices of the m rows.
    pub prices: &'a [Frac],
    /// The m basic values, by position.
    pub values: &'a [Frac],
    /// Where a column moves without a limit, that column in terms of the basis, by position.
    pub alpha: &'a [Frac],
}

/// The outcome of a final state, at which the run ends as `stop` says.
///
/// # Errors
///
/// At an optimum `Overflow` with the place of the first sum of the objective that does not fit the width of the
/// arithmetic; `Memory` for want of memory.
pub fn outcome<A: Arith>(
    alloc: Global,
    inst: &Instance,
    ending: &Ending,
    stop: Stop,
    arith: &mut A,
) -> Result<Outcome, OutcomeFault>
    requires ends { EndsAt inst.now ending.now stop }
    ensures outcome { IfOk result (λ outcome. Yields inst.now ending.now.state.now (outcome_of outcome)) }
    ensures fault { IfErr result (λ fault. (log : List Entry) → length log ≡ ending.now.number → IsOutcomeCause (A.width arith.old) inst.now log ending.now.state.now fault) }
    ensures width { A.width arith.new ≡ A.width arith.old }
    ensures unfit { A.unfit_count arith.new ≡ count_after (A.unfit_count arith.old) result }
    ensures work { A.work_count arith.new ≤ A.work_count arith.old + nonzero_costs inst.now }
{
    match stop {
        Stop::Optimal => optimum(alloc, inst, ending, arith),
        Stop::Infeasible => Ok(Outcome::Infeasible {
            y: Fracs::of(Vec::from_slice(alloc, ending.prices)?),
        }),
        Stop::Free(q, down) => Ok(Outcome::Unbounded {
            x: Fracs::of(point(alloc, inst, ending.state, ending.values)?),
            ray: Fracs::of(ray(alloc, inst, ending.state, ending.alpha, q, down)?),
        }),
    }
}

// The optimum that a final state shows.
fn optimum<A: Arith>(
    alloc: Global,
    inst: &Instance,
    ending: &Ending,
    arith: &mut A,
) -> Result<Outcome, OutcomeFault>
    requires { EndsAt inst.now ending.now stop.Optimal }
    ensures outcome { IfOk result (λ outcome. Yields inst.now ending.now.state.now (outcome_of outcome)) }
    ensures fault { IfErr result (λ fault. (log : List Entry) → length log ≡ ending.now.number → IsOutcomeCause (A.width arith.old) inst.now log ending.now.state.now fault) }
    ensures width { A.width arith.new ≡ A.width arith.old }
    ensures unfit { A.unfit_count arith.new ≡ count_after (A.unfit_count arith.old) result }
    ensures work { A.work_count arith.new ≤ A.work_count arith.old + nonzero_costs inst.now }
{
    let x = point(alloc, inst, ending.state, ending.values)?;
    let mut y = Vec::from_slice(alloc, ending.prices)?;
    count_in(inst.sense(), y.as_mut_slice());
    match objective(inst, ending.number, &x, arith) {
        Ok(objective) => Ok(Outcome::Optimal {
            x: Fracs::of(x),
            y: Fracs::of(y),
            objective,
        }),
        Err(place) => Err(OutcomeFault::Overflow(place)),
    }
}
