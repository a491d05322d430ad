//! The ranges over factors of the last basis.
ghost use Rattle.std.specs.Prelude.{◌≡◌, ◌<◌, ◌≤◌, true, IfErr, IfOk};
ghost use Rattle.basis_solves.specs.Refusals.{Explains};
ghost use Rattle.lp_run.specs.Instance.{IsWellFormed, column_count};
ghost use Rattle.lp_run.specs.Run.{IsRun};
ghost use Rattle.lp_run.specs.Solution.{Prices, reduced};
ghost use Rattle.plain_table.specs.Answers.{IsRunLog};
ghost use Rattle.ranging.specs.Causes.{GivesUp};
ghost use Rattle.ranging.specs.Inner.Found.{AreWorked, AreWorkedAt, GivesUpAt, HasRisen, RaisedFor};
ghost use Rattle.ranging.specs.Inner.Solves.{AreMadeFor, AreReduced, IsReached, IsSolved};
ghost use Rattle.ranging.specs.Listing.{is_looked_at};

use crate::basic_values::values_of;
use crate::cost::is_looked_at;
use crate::limits::Limits;
use crate::position::{Reading, take_position};
use crate::row::Vectors;
use basis_solves::{Refusal, factors_of, solve_prices};
use bland_ratio::price;
use deck_model::Log;
use exact_frac::{Arith, Frac};
use ftran_btran::Factors;
use instance_model::{Instance, State};
use no_memory::Memory;
use std::alloc::Global;

/// What is known of the ranges by factors of the basis of the state that a log leads to.
///
/// # Errors
///
/// `Unfit` where a value that is worked with them does not fit the width, `Memory` for want of memory.
pub(crate) fn over_factors<A: Arith>(
    alloc: Global,
    inst: &Instance,
    log: &Log,
    arith: &mut A,
) -> Result<Limits, Refusal>
    requires formed { IsWellFormed inst.now }
    requires run { IsRunLog inst.now log.now }
    ensures worked { IfOk result (AreWorkedAt (A.width arith.old) inst.now log.now) }
    ensures refusal { IfErr result (Explains (GivesUpAt (A.width arith.old) inst.now log.now)) }
    ensures rose { IfOk result (HasRisen (A.unfit_count arith.old) (A.unfit_count arith.new)) }
    ensures raised { IfErr result (RaisedFor (A.unfit_count arith.old) (A.unfit_count arith.new)) }
    ensures width { A.width arith.new ≡ A.width arith.old }
    ensures unfit { A.unfit_count arith.old ≤ A.unfit_count arith.new }
{
    let state = last_state(alloc, inst, log)?;
    let solved = solve_once(alloc, inst, &state, arith)?;
    by_positions(alloc, inst, &state, &solved, arith)
}

// What is solved for once: the factors of the last basis, its basic values, and the reduced costs of the columns that are
// looked at.
#[derive(Drop)]
struct Solved {
    factors: Factors,
    values: Vec<Frac>,
    costs: Vec<Frac>,
}

// What is solved for once at a state.
fn solve_once<A: Arith>(
    alloc: Global,
    inst: &Instance,
    state: &State,
    arith: &mut A,
) -> Result<Solved, Refusal>
    requires { IsReached inst.now state.now }
    ensures solved { IfOk result (IsSolved (A.width arith.old) inst.now state.now) }
    ensures refusal { IfErr result (Explains (GivesUp (A.width arith.old) inst.now state.now)) }
    ensures raised { IfErr result (RaisedFor (A.unfit_count arith.old) (A.unfit_count arith.new)) }
    ensures width { A.width arith.new ≡ A.width arith.old }
    ensures unfit { A.unfit_count arith.old ≤ A.unfit_count arith.new }
{
    let factors = make(alloc, inst, state, arith)?;
    let values = values_of(alloc, inst, state, &factors, arith)?;
    let prices = prices_of(alloc, inst, state, &factors, arith)?;
    let costs = reduced_costs(alloc, inst, state, &prices, arith)?;
    Ok(Solved {
        factors,
        values,
        costs,
    })
}

// What is known of the ranges by the rows of all positions, each solved for in turn.
fn by_positions<A: Arith>(
    alloc: Global,
    inst: &Instance,
    state: &State,
    solved: &Solved,
    arith: &mut A,
) -> Result<Limits, Refusal>
    requires reached { IsReached inst.now state.now }
    requires solved { IsSolved (A.width arith.old) inst.now state.now solved.now }
    ensures worked { IfOk result (AreWorked (A.width arith.old) inst.now state.now) }
    ensures refusal { IfErr result (Explains (GivesUp (A.width arith.old) inst.now state.now)) }
    ensures rose { IfOk result (HasRisen (A.unfit_count arith.old) (A.unfit_count arith.new)) }
    ensures raised { IfErr result (RaisedFor (A.unfit_count arith.old) (A.unfit_count arith.new)) }
    ensures width { A.width arith.new ≡ A.width arith.old }
    ensures unfit { A.unfit_count arith.old ≤ A.unfit_count arith.new }
{
    let mut limits = Limits::begin(alloc, inst, state, &solved.costs)?;
    let mut vectors = Vectors::new(alloc, inst)?;
    for p in 0..inst.rows() {
        vectors.read(inst, state, &solved.factors, p, arith)?;
        let read = Reading {
            value: solved.values[p],
            row: &vectors.row,
            rates: &vectors.rates,
        };
        take_position(inst, state, &solved.costs, p, &read, &mut limits, arith);
    }
    Ok(limits)
}

// The state that the run of a log leads to.
fn last_state(alloc: Global, inst: &Instance, log: &Log) -> Result<State, Memory>
    requires formed { IsWellFormed inst.now }
    requires run { IsRunLog inst.now log.now }
    ensures { IfOk result (IsRun inst.now log.now) }
{
    let mut state = inst.start(alloc)?;
    let entries = log.entries();
    for k in 0..entries.len() {
        state.after(entries[k]);
    }
    Ok(state)
}

// The factors of the basis of a state.
fn make<A: Arith>(
    alloc: Global,
    inst: &Instance,
    state: &State,
    arith: &mut A,
) -> Result<Factors, Refusal>
    requires { IsReached inst.now state.now }
    ensures made { IfOk result (AreMadeFor (A.width arith.old) inst.now state.now) }
    ensures refusal { IfErr result (Explains (GivesUp (A.width arith.old) inst.now state.now)) }
    ensures raised { IfErr result (RaisedFor (A.unfit_count arith.old) (A.unfit_count arith.new)) }
    ensures width { A.width arith.new ≡ A.width arith.old }
    ensures unfit { A.unfit_count arith.old ≤ A.unfit_count arith.new }
{
    factors_of(alloc, inst, state.basis(), 0, arith)
}

// The prices of a state.
#[tactic(auto, using(exact_frac::specs::Constants::constants))]
fn prices_of<A: Arith>(
    alloc: Global,
    inst: &Instance,
    state: &State,
    factors: &Factors,
    arith: &mut A,
) -> Result<Vec<Frac>, Refusal>
    requires reached { IsReached inst.now state.now }
    requires made { AreMadeFor (A.width arith.old) inst.now state.now factors.now }
    ensures prices { IfOk result (λ y. Prices inst.now state.now y.items) }
    ensures refusal { IfErr result (Explains (GivesUp (A.width arith.old) inst.now state.now)) }
    ensures raised { IfErr result (RaisedFor (A.unfit_count arith.old) (A.unfit_count arith.new)) }
    ensures width { A.width arith.new ≡ A.width arith.old }
    ensures unfit { A.unfit_count arith.old ≤ A.unfit_count arith.new }
{
    let mut costs = vec![in alloc; Frac::ZERO; inst.rows()]?;
    let mut work = vec![in alloc; Frac::ZERO; inst.rows()]?;
    let mut prices = vec![in alloc; Frac::ZERO; inst.rows()]?;
    solve_prices(
        inst,
        state,
        factors,
        costs.as_mut_slice(),
        work.as_mut_slice(),
        prices.as_mut_slice(),
        arith,
    )?;
    Ok(prices)
}

// The reduced costs of the columns that are looked at, at the prices of the state.
#[tactic(auto, using(exact_frac::specs::Constants::constants))]
fn reduced_costs<A: Arith>(
    alloc: Global,
    inst: &Instance,
    state: &State,
    prices: &[Frac],
    arith: &mut A,
) -> Result<Vec<Frac>, Refusal>
    requires reached { IsReached inst.now state.now }
    requires prices { Prices inst.now state.now prices.now }
    ensures reduced { IfOk result (λ costs. AreReduced inst.now state.now costs.items) }
    ensures refusal { IfErr result (Explains (GivesUp (A.width arith.old) inst.now state.now)) }
    ensures raised { IfErr result (RaisedFor (A.unfit_count arith.old) (A.unfit_count arith.new)) }
    ensures width { A.width arith.new ≡ A.width arith.old }
    ensures unfit { A.unfit_count arith.old ≤ A.unfit_count arith.new }
{
    let mut costs = vec![in alloc; Frac::ZERO; inst.columns()]?;
    for k in 0..inst.columns() {
        costs[k] = reduced_cost(inst, state, prices, k, arith)?;
    }
    Ok(costs)
}

// The reduced cost of a column, where it is looked at.
#[tactic(auto, using(exact_frac::specs::Constants::constants))]
fn reduced_cost<A: Arith>(
    inst: &Instance,
    state: &State,
    prices: &[Frac],
    k: usize,
    arith: &mut A,
) -> Result<Frac, Refusal>
    requires reached { IsReached inst.now state.now }
    requires prices { Prices inst.now state.now prices.now }
    requires column { k < column_count inst.now }
    ensures cost { IfOk result (λ d. is_looked_at inst.now state.now k ≡ true → d ≡ reduced inst.now state.now prices.now k) }
    ensures refusal { IfErr result (Explains (GivesUp (A.width arith.old) inst.now state.now)) }
    ensures raised { IfErr result (RaisedFor (A.unfit_count arith.old) (A.unfit_count arith.new)) }
    ensures width { A.width arith.new ≡ A.width arith.old }
    ensures unfit { A.unfit_count arith.old ≤ A.unfit_count arith.new }
{
    if !is_looked_at(inst, state, k) {
        return Ok(Frac::ZERO);
    }
    let cost = price(inst, state.phase(), prices, k, arith)?;
    Ok(cost)
}
