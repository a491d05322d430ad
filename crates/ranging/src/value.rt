//! The changes of a right side.
ghost use Rattle.std.specs.Prelude.{◌≡◌, ◌≢◌, ◌+◌, ◌<◌, ◌≤◌, ℕ, length, get_or, None};
ghost use Rattle.exact_frac.specs.Count.{raised, unfit_after};
ghost use Rattle.rational.specs.Rational.{zero_ℚ};
ghost use Rattle.rational.specs.Sum.{at};
ghost use Rattle.ranging.specs.Inner.Found.{IsEndLimit, IsMoveLimit, RisesFor, TakesMove};

use crate::interval::{everything, meet};
use exact_frac::{Arith, Frac, Unfit};
use instance_model::Bounds;

/// Takes a position into what is known of each right side: the value in it stays within its bounds. It moves at a rate for
/// each row. A row of which a value does not fit has no interval from then on.
pub fn take_moves<A: Arith>(
    bounds: Bounds,
    value: Frac,
    rates: &[Frac],
    rights: &mut [Option<Bounds>],
    arith: &mut A,
)
    requires { length rates.now ≡ length rights.old }
    ensures length { length rights.new ≡ length rights.old }
    ensures taken { (i : ℕ) → i < length rights.old → TakesMove (A.width arith.old) bounds value (at rates.now i) (get_or rights.old i None) (get_or rights.new i None) }
    ensures width { A.width arith.new ≡ A.width arith.old }
    ensures unfit { A.unfit_count arith.old ≤ A.unfit_count arith.new }
    ensures rose { RisesFor (A.unfit_count arith.old) (A.unfit_count arith.new) rights.old rights.new }
{
    for i in 0..rights.len() {
        rights[i] = take_move(bounds, value, rates[i], rights[i], arith);
    }
}

// Takes a value that moves at a rate into what is known of a right side.
fn take_move<A: Arith>(
    bounds: Bounds,
    value: Frac,
    rate: Frac,
    known: Option<Bounds>,
    arith: &mut A,
) -> Option<Bounds>
    ensures taken { TakesMove (A.width arith.old) bounds value rate known result }
    ensures width { A.width arith.new ≡ A.width arith.old }
    ensures unfit { A.unfit_count arith.old ≤ A.unfit_count arith.new }
    ensures rose { result ≡ None → known ≢ None → raised (A.unfit_count arith.old) 1 ≤ A.unfit_count arith.new }
{
    match known {
        None => None,
        Some(known) => match value_limit(bounds, value, rate, arith) {
            Ok(limit) => Some(meet(known, limit)),
            Err(_) => None,
        },
    }
}

// The changes by which a value within these bounds, which moves at that rate, stays within them. Where it moves, a
// difference and a quotient are worked for each end.
#[tactic(auto, using(exact_frac::specs::Constants::constants))]
fn value_limit<A: Arith>(
    bounds: Bounds,
    value: Frac,
    rate: Frac,
    arith: &mut A,
) -> Result<Bounds, Unfit>
    ensures limit { IsMoveLimit (A.width arith.old) bounds value rate result }
    ensures width { A.width arith.new ≡ A.width arith.old }
    ensures unfit { A.unfit_count arith.new ≡ unfit_after (A.unfit_count arith.old) result }
    ensures work { A.work_count arith.new ≤ A.work_count arith.old + 2 }
{
    if rate.is_zero() {
        return Ok(everything());
    }
    let lower = end_over(bounds.lower(), value, rate, arith)?;
    let upper = end_over(bounds.upper(), value, rate, arith)?;
    if rate.cmp(&Frac::ZERO).is_lt() {
        Ok(Bounds::new(upper, lower))
    } else {
        Ok(Bounds::new(lower, upper))
    }
}

// The distance of a value to an end, over its rate, where the end is finite.
fn end_over<A: Arith>(
    end: Option<Frac>,
    value: Frac,
    rate: Frac,
    arith: &mut A,
) -> Result<Option<Frac>, Unfit>
    requires { rate ≢ zero_ℚ }
    ensures limit { IsEndLimit (A.width arith.old) end value rate result }
    ensures width { A.width arith.new ≡ A.width arith.old }
    ensures unfit { A.unfit_count arith.new ≡ unfit_after (A.unfit_count arith.old) result }
    ensures work { A.work_count arith.new ≤ A.work_count arith.old + 1 }
{
    match end {
        None => Ok(None),
        Some(end) => {
            let distance = arith.sub(end, value)?;
            let change = arith.div(distance, rate)?;
            Ok(Some(change))
        }
    }
}
