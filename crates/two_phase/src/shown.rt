//! The outcome that the end of a run shows, over factors or over the plain table.
ghost use Rattle.std.specs.Prelude.{◌≡◌, ◌+◌, ◌<◌, ◌≤◌, ℕ, List, length, IfErr, IfOk};
ghost use Rattle.bland_ratio.specs.Entries.{nonzero_costs};
ghost use Rattle.deck_model.specs.Outcome.{outcome_of};
ghost use Rattle.lp_model.specs.declared.Entry.{Entry};
ghost use Rattle.lp_run.specs.Ends.{Yields};
ghost use Rattle.lp_run.specs.Instance.{IsWellFormed, column_count};
ghost use Rattle.plain_table.specs.Next.{IsTableOf, column as column_of};
ghost use Rattle.run_outcome.specs.Endings.{IsOutcomeCause, count_after};
ghost use Rattle.two_phase.specs.Inner.Fallbacks.{FallbackStands, FallbackStops, fallback_state};
ghost use Rattle.two_phase.specs.Inner.Grounds.{GroundStands, GroundStops, ground_state};
ghost use Rattle.two_phase.specs.Inner.Iterates.{IsIterate};
ghost use Rattle.two_phase.specs.Inner.Plains.{IsFitted, TableStops, free_column};
ghost use Rattle.two_phase.specs.Inner.Reaching.{StopsAt};

use crate::fallback::Fallback;
use crate::ground::Ground;
use crate::iterate::Iterate;
use deck_model::Outcome;
use exact_frac::{Arith, Frac};
use instance_model::Instance;
use plain_table::Table;
use run_outcome::{Ending, OutcomeFault, Stop, outcome};
use std::alloc::{AllocError, Global};

/// The outcome at the end of a run, at this number.
pub fn show<A: Arith>(
    alloc: Global,
    inst: &Instance,
    number: u64,
    ground: &Ground,
    stop: Stop,
    arith: &mut A,
) -> Result<Outcome, OutcomeFault>
    requires well_formed { IsWellFormed inst.now }
    requires stands { (w : ℕ) × (log : List Entry) × GroundStands w inst.now log ground.now }
    requires stops { GroundStops inst.now ground.now stop }
    ensures outcome { IfOk result (λ outcome. Yields inst.now (ground_state ground.now) (outcome_of outcome)) }
    ensures fault { IfErr result (λ fault. (log : List Entry) → length log ≡ number → IsOutcomeCause (A.width arith.old) inst.now log (ground_state ground.now) fault) }
    ensures width { A.width arith.new ≡ A.width arith.old }
    ensures unfit { A.unfit_count arith.new ≡ count_after (A.unfit_count arith.old) result }
    ensures work { A.work_count arith.new ≤ A.work_count arith.old + nonzero_costs inst.now }
{
    match ground {
        Ground::Factors(iterate) => show_iterate(alloc, inst, number, iterate, stop, arith),
        Ground::Plain(fallback) => show_fallback(alloc, inst, number, fallback, stop, arith),
    }
}

// The outcome where the factors are given up.
fn show_fallback<A: Arith>(
    alloc: Global,
    inst: &Instance,
    number: u64,
    fallback: &Fallback,
    stop: Stop,
    arith: &mut A,
) -> Result<Outcome, OutcomeFault>
    requires well_formed { IsWellFormed inst.now }
    requires stands { (w : ℕ) × (log : List Entry) × FallbackStands w inst.now log fallback.now }
    requires stops { FallbackStops inst.now fallback.now stop }
    ensures outcome { IfOk result (λ outcome. Yields inst.now (fallback_state fallback.now) (outcome_of outcome)) }
    ensures fault { IfErr result (λ fault. (log : List Entry) → length log ≡ number → IsOutcomeCause (A.width arith.old) inst.now log (fallback_state fallback.now) fault) }
    ensures width { A.width arith.new ≡ A.width arith.old }
    ensures unfit { A.unfit_count arith.new ≡ count_after (A.unfit_count arith.old) result }
    ensures work { A.work_count arith.new ≤ A.work_count arith.old + nonzero_costs inst.now }
{
    match fallback {
        Fallback::Anew(iterate) => show_iterate(alloc, inst, number, iterate, stop, arith),
        Fallback::Table(table) => show_table(alloc, inst, number, table, stop, arith),
    }
}

// The outcome at an iterate.
fn show_iterate<A: Arith>(
    alloc: Global,
    inst: &Instance,
    number: u64,
    iterate: &Iterate,
    stop: Stop,
    arith: &mut A,
) -> Result<Outcome, OutcomeFault>
    requires well_formed { IsWellFormed inst.now }
    requires stands { (w : ℕ) × (log : List Entry) × IsIterate w inst.now log iterate.now }
    requires stops { StopsAt inst.now iterate.now stop }
    ensures outcome { IfOk result (λ outcome. Yields inst.now iterate.now.state (outcome_of outcome)) }
    ensures fault { IfErr result (λ fault. (log : List Entry) → length log ≡ number → IsOutcomeCause (A.width arith.old) inst.now log iterate.now.state fault) }
    ensures width { A.width arith.new ≡ A.width arith.old }
    ensures unfit { A.unfit_count arith.new ≡ count_after (A.unfit_count arith.old) result }
    ensures work { A.work_count arith.new ≤ A.work_count arith.old + nonzero_costs inst.now }
{
    let ending = Ending {
        number,
        state: &iterate.state,
        prices: &iterate.prices,
        values: &iterate.values,
        alpha: &iterate.alpha,
    };
    outcome(alloc, inst, &ending, stop, arith)
}

// The outcome at a table.
fn show_table<A: Arith>(
    alloc: Global,
    inst: &Instance,
    number: u64,
    table: &Table,
    stop: Stop,
    arith: &mut A,
) -> Result<Outcome, OutcomeFault>
    requires well_formed { IsWellFormed inst.now }
    requires stands { (w : ℕ) × (log : List Entry) × IsFitted w inst.now log table.now }
    requires stops { TableStops inst.now table.now stop }
    ensures outcome { IfOk result (λ outcome. Yields inst.now table.now.state (outcome_of outcome)) }
    ensures fault { IfErr result (λ fault. (log : List Entry) → length log ≡ number → IsOutcomeCause (A.width arith.old) inst.now log table.now.state fault) }
    ensures width { A.width arith.new ≡ A.width arith.old }
    ensures unfit { A.unfit_count arith.new ≡ count_after (A.unfit_count arith.old) result }
    ensures work { A.work_count arith.new ≤ A.work_count arith.old + nonzero_costs inst.now }
{
    let prices = table.prices(alloc, inst)?;
    let alpha = column(alloc, inst, table, free_column(stop) as usize)?;
    let ending = Ending {
        number,
        state: table.state(),
        prices: &prices,
        values: table.values(),
        alpha: &alpha,
    };
    outcome(alloc, inst, &ending, stop, arith)
}

// The column of an end that has one.
fn free_column(stop: Stop) -> u32
    ensures { result ≡ free_column stop }
{
    match stop {
        Stop::Optimal | Stop::Infeasible => 0,
        Stop::Free(q, _) => q,
    }
}

// The column of an end in terms of the table's basis; any list where there is no such column.
fn column(alloc: Global, inst: &Instance, table: &Table, q: usize) -> Result<Vec<Frac>, AllocError>
    requires table { IsTableOf inst.now table.now }
    ensures { q < column_count inst.now → IfOk result (λ alpha. alpha.items ≡ column_of inst.now table.now q) }
{
    if q >= inst.columns() {
        return Ok(Vec::new(alloc));
    }
    table.column(alloc, inst, q)
}
