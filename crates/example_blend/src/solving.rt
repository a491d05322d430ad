//! A deck, solved.
ghost use Rattle.std.specs.Prelude.{IfOk};
ghost use Rattle.bland_laws.specs.OutcomeProves.{OutcomeProves};
ghost use Rattle.deck_model.specs.Outcome.{outcome_of};

use bland_laws::outcome_proves;
use crew::solve_alone;
use deck_model::{Deck, Outcome};
use exact_frac::Full127;
use instance_model::Instance;
use std::alloc::Global;
use std::sync::Arc;
use std::thread::Threads;

/// How many moves a run may have.
const BUDGET: u64 = 1_000_000;

/// What a deck comes to, with the lists that prove it.
///
/// # Errors
///
/// The text of the refusal: a value of the run does not fit 127 bits, the budget of moves is spent, or memory ran out.
pub fn solve<R: Threads + Sync>(rt: &R, alloc: Global, deck: &Deck) -> anyhow::Result<Outcome>
    ensures { IfOk result (λ outcome. OutcomeProves deck.now (outcome_of outcome)) }
{
    // (every deck in memory has sparse columns and ends that do not cross)
    let _rows = deck.rows();
    outcome_proves();
    let mut arith = Full127::new();
    let inst = Instance::of(alloc, deck, &mut arith)?;
    let closed = solve_alone(rt, alloc, Arc::new(alloc, inst)?, BUDGET, &mut arith)?;
    Ok(closed.outcome)
}
