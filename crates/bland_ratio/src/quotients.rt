//! The limit of one position, and that of the entering column itself.
ghost use Rattle.std.specs.Prelude.{◌≡◌, ◌≢◌, ◌+◌, ◌<◌, ◌≤◌, length};
ghost use Rattle.rational.specs.Rational.{zero_ℚ, ◌*ℚ◌, cmp_ℚ, neg_ℚ};
ghost use Rattle.exact_frac.specs.Exact.{Exact};
ghost use Rattle.exact_frac.specs.Count.{unfit_after};
ghost use Rattle.exact_frac.specs.Settles.{Settles};
ghost use Rattle.lp_run.specs.Instance.{row_count};
ghost use Rattle.bland_ratio.specs.Leave.{IsBasisOf, direction_where};
ghost use Rattle.bland_ratio.specs.Inner.Limits as limits;

use crate::limits::Limit;
use exact_frac::{Arith, Frac, Unfit};
use instance_model::{Bounds, Instance, State};
use lp_model::Side;
use std::cmp::Ordering;

// The rate at which a basic value moves, where the entering column's element is `alpha`.
fn rate(alpha: Frac, down: bool) -> Frac
    ensures { result ≡ neg_ℚ (direction_where down) *ℚ alpha }
{
    if down { alpha } else { alpha.negated() }
}

// The end towards which a value moves at the rate, where it is finite.
#[tactic(auto, using(exact_frac::specs::Constants::constants))]
fn end_ahead(rate: Frac, bounds: Bounds) -> Option<(Frac, Side)>
    ensures { result ≡ limits.end_ahead (cmp_ℚ rate zero_ℚ) bounds }
{
    match rate.cmp(&Frac::ZERO) {
        Ordering::Less => bounds.lower().map(|end| (end, Side::Lower)),
        Ordering::Equal => None,
        Ordering::Greater => bounds.upper().map(|end| (end, Side::Upper)),
    }
}

// The distance of a value to an end.
fn distance<A: Arith>(value: Frac, end: Frac, side: Side, arith: &mut A) -> Result<Frac, Unfit>
    ensures answer { Exact (A.width arith.old) (limits.distance value end side) result }
    ensures width { A.width arith.new ≡ A.width arith.old }
    ensures unfit { A.unfit_count arith.new ≡ unfit_after (A.unfit_count arith.old) result }
    ensures work { A.work_count arith.new ≡ A.work_count arith.old }
{
    match side {
        Side::Lower => arith.sub(value, end),
        Side::Upper => arith.sub(end, value),
    }
}

// The limit that an end sets to the entering column, whose element is `alpha`: the distance over the element's size.
fn limit_to<A: Arith>(
    ahead: Option<(Frac, Side)>,
    value: Frac,
    alpha: Frac,
    column: usize,
    position: u32,
    arith: &mut A,
) -> Result<Option<Limit>, Unfit>
    requires { alpha ≢ zero_ℚ }
    ensures settled { Settles (A.width arith.old) (limits.limit_by ahead value alpha column position) result }
    ensures width { A.width arith.new ≡ A.width arith.old }
    ensures unfit { A.unfit_count arith.new ≡ unfit_after (A.unfit_count arith.old) result }
    ensures work { A.work_count arith.new ≤ A.work_count arith.old + 1 }
{
    let Some(ahead) = ahead else { return Ok(None) };
    let distance = distance(value, ahead.0, ahead.1, arith)?;
    let ratio = arith.div(distance, alpha.abs())?;
    Ok(Some(Limit {
        ratio,
        column,
        out: Some((position, ahead.1)),
    }))
}

/// The limit of a position: none where its value stands still or has no end ahead. At most one quotient is worked.
pub fn position_limit<A: Arith>(
    inst: &Instance,
    state: &State,
    values: &[Frac],
    down: bool,
    alpha: &[Frac],
    position: u32,
    arith: &mut A,
) -> Result<Option<Limit>, Unfit>
    requires state { IsBasisOf inst.now state.now }
    requires values { length values.now ≡ row_count inst.now }
    requires alpha { length alpha.now ≡ row_count inst.now }
    requires position { position < row_count inst.now }
    ensures settled { Settles (A.width arith.old) (limits.limit_work inst.now state.now (direction_where down) values.now alpha.now position) result }
    ensures width { A.width arith.new ≡ A.width arith.old }
    ensures unfit { A.unfit_count arith.new ≡ unfit_after (A.unfit_count arith.old) result }
    ensures work { A.work_count arith.new ≤ A.work_count arith.old + 1 }
{
    let element = alpha[position as usize];
    if element.is_zero() {
        return Ok(None);
    }
    let column = state.basic(position as usize) as usize;
    let bounds = inst.bounds(state.phase(), column);
    let ahead = end_ahead(rate(element, down), bounds);
    limit_to(
        ahead,
        values[position as usize],
        element,
        column,
        position,
        arith,
    )
}

/// The limit of the entering column itself: the distance between its ends, where both are finite.
pub fn own_limit<A: Arith>(bounds: Bounds, q: usize, arith: &mut A) -> Result<Option<Limit>, Unfit>
    ensures settled { Settles (A.width arith.old) (limits.own_work bounds q) result }
    ensures width { A.width arith.new ≡ A.width arith.old }
    ensures unfit { A.unfit_count arith.new ≡ unfit_after (A.unfit_count arith.old) result }
    ensures work { A.work_count arith.new ≡ A.work_count arith.old }
{
    let Some(lower) = bounds.lower() else {
        return Ok(None)
    };
    let Some(upper) = bounds.upper() else {
        return Ok(None)
    };
    let ratio = arith.sub(upper, lower)?;
    Ok(Some(Limit {
        ratio,
        column: q,
        out: None,
    }))
}
