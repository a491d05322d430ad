//! The reduced costs of a state, worked from its prices.
ghost use Rattle.std.specs.Prelude.{◌≡◌, ◌≤◌, ◌<◌, IfOk};
ghost use Rattle.bland_ratio.specs.Pricing.{IsExactPay};
ghost use Rattle.bland_ratio.specs.declared.tickets.Pay.TheVariants as pay;
ghost use Rattle.lp_run.specs.Instance.{column_count};
ghost use Rattle.lp_run.specs.Solution.{Prices, reduced};
ghost use Rattle.two_phase.specs.Inner.Fallbacks.{IsReached};

use basis_solves::Refusal;
use bland_ratio::price;
use exact_frac::{Arith, Frac};
use instance_model::{Instance, State};
use lp_model::Status;
use std::alloc::Global;

/// The reduced cost of each column at the prices of the state. That of a basic column is 0, and nothing is worked for it.
///
/// # Errors
///
/// `Unfit` where a value that is worked does not fit the width, `Memory` for want of memory.
#[tactic(auto, using(exact_frac::specs::Constants::constants))]
pub fn reduced_costs<A: Arith>(
    alloc: Global,
    inst: &Instance,
    state: &State,
    prices: &[Frac],
    arith: &mut A,
) -> Result<Vec<Frac>, Refusal>
    requires reached { IsReached inst.now state.now }
    requires prices { Prices inst.now state.now prices.now }
    ensures exact { IfOk result (λ costs. IsExactPay inst.now state.now (pay.Costs costs.items)) }
    ensures width { A.width arith.new ≡ A.width arith.old }
    ensures unfit { A.unfit_count arith.old ≤ A.unfit_count arith.new }
{
    let mut costs = vec![in alloc; Frac::ZERO; inst.columns()]?;
    for j in 0..inst.columns() {
        costs[j] = reduced_cost(inst, state, prices, j, arith)?;
    }
    Ok(costs)
}

// The reduced cost of a column.
#[tactic(auto, using(exact_frac::specs::Constants::constants))]
fn reduced_cost<A: Arith>(
    inst: &Instance,
    state: &State,
    prices: &[Frac],
    j: usize,
    arith: &mut A,
) -> Result<Frac, Refusal>
    requires reached { IsReached inst.now state.now }
    requires prices { Prices inst.now state.now prices.now }
    requires column { j < column_count inst.now }
    ensures cost { IfOk result (λ d. d ≡ reduced inst.now state.now prices.now j) }
    ensures width { A.width arith.new ≡ A.width arith.old }
    ensures unfit { A.unfit_count arith.old ≤ A.unfit_count arith.new }
{
    if let Status::Basic = state.status(j) {
        return Ok(Frac::ZERO);
    }
    let cost = price(inst, state.phase(), prices, j, arith)?;
    Ok(cost)
}
