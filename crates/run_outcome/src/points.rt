//! The point, the prices and the ray that a final state shows.
ghost use Rattle.std.specs.Prelude.{◌≡◌, ◌<◌, ◌==◌, ℕ, if◌then◌else◌, length, map, IfOk};
ghost use Rattle.rational.specs.Rational.{◌*ℚ◌, neg_ℚ, zero_ℚ};
ghost use Rattle.rational.specs.Sparse.{upto};
ghost use Rattle.rational.specs.Sum.{at};
ghost use Rattle.lp_run.specs.Ends.{by_position, point as point_of, prices_in, ray as ray_of};
ghost use Rattle.lp_run.specs.Instance.{column_count, structural_count};
ghost use Rattle.lp_run.specs.State.{rest};
ghost use Rattle.lp_run.specs.Step.{direction};
ghost use Rattle.bland_ratio.specs.Leave.{direction_where};

use exact_frac::Frac;
use instance_model::{Instance, State, rest_of};
use lp_model::Sense;
use std::alloc::{AllocError, Global};

/// The values of the n structurals, at these m basic values, by position.
///
/// # Errors
///
/// `AllocError` for want of memory.
pub fn point(
    alloc: Global,
    inst: &Instance,
    state: &State,
    values: &[Frac],
) -> Result<Vec<Frac>, AllocError>
    requires values { length values.now ≡ length state.now.basis }
    requires statuses { length state.now.statuses ≡ column_count inst.now }
    ensures { IfOk result (λ x. x.items ≡ point_of inst.now state.now values.now) }
{
    let mut x = rests(alloc, inst, state)?;
    place_basic(state, values, x.as_mut_slice());
    Ok(x)
}

/// Turns the prices of the m rows, of the least objective, into those that the sense counts.
pub fn count_in(sense: Sense, y: &mut [Frac])
    ensures { y.new ≡ prices_in sense y.old }
{
    match sense {
        Sense::Min => {}
        Sense::Max => negate_all(y),
    }
}

/// The ray along which column `q`, which is `alpha` in terms of the basis, by position, moves without end: it falls, or
/// rises. It has a number for each of the n structurals.
///
/// # Errors
///
/// `AllocError` for want of memory.
pub fn ray(
    alloc: Global,
    inst: &Instance,
    state: &State,
    alpha: &[Frac],
    q: u32,
    down: bool,
) -> Result<Vec<Frac>, AllocError>
    requires { length alpha.now ≡ length state.now.basis }
    ensures { IfOk result (λ r. r.items ≡ ray_of inst.now state.now q (direction_where down) alpha.now) }
{
    let mut r = unit_step(alloc, inst.structurals(), q as usize, down)?;
    let rates = rates(alloc, alpha, down)?;
    place_basic(state, &rates, r.as_mut_slice());
    Ok(r)
}

// Puts the number of each position at the column that is basic there, where the list goes so far.
fn place_basic(state: &State, numbers: &[Frac], out: &mut [Frac])
    requires { length numbers.now ≡ length state.now.basis }
    ensures { (j : ℕ) → j < length out.old → at out.new j ≡ by_position state.now.basis numbers.now j (at out.old j) }
{
    // (from the last position on, so that the first one of a column stays)
    for p in (0..state.positions()).rev() {
        let j = state.basic(p) as usize;
        if j < out.len() {
            out[j] = numbers[p];
        }
    }
}

// Where the structurals rest.
fn rests(alloc: Global, inst: &Instance, state: &State) -> Result<Vec<Frac>, AllocError>
    requires { length state.now.statuses ≡ column_count inst.now }
    ensures { IfOk result (λ x. x.items ≡ map (rest inst.now state.now) (upto (structural_count inst.now))) }
{
    let mut x = Vec::with_capacity(alloc, inst.structurals())?;
    for j in 0..inst.structurals() {
        x.push(rest_of(inst, state, j))?;
    }
    Ok(x)
}

// The negated numbers.
fn negate_all(y: &mut [Frac])
    ensures { y.new ≡ map neg_ℚ y.old }
{
    for number in y.iter_mut() {
        *number = number.negated();
    }
}

// One step of a column, which falls or rises: by so many structurals, all others 0.
#[tactic(auto, using(exact_frac::specs::Constants::constants))]
fn unit_step(
    alloc: Global,
    structurals: usize,
    q: usize,
    down: bool,
) -> Result<Vec<Frac>, AllocError>
    ensures { IfOk result (λ r. r.items ≡ map (λ j. if j == q then direction_where down else zero_ℚ) (upto structurals)) }
{
    let mut r = Vec::with_capacity(alloc, structurals)?;
    for j in 0..structurals {
        r.push(step_of(j == q, down))?;
    }
    Ok(r)
}

// The step of the column itself, or that of another.
#[tactic(auto, using(exact_frac::specs::Constants::constants))]
fn step_of(own: bool, down: bool) -> Frac
    ensures { result ≡ (if own then direction_where down else zero_ℚ) }
{
    if !own {
        return Frac::ZERO;
    }
    if down { Frac::ONE.negated() } else { Frac::ONE }
}

// How the basic values move with one step of a column, which falls or rises, by position.
fn rates(alloc: Global, alpha: &[Frac], down: bool) -> Result<Vec<Frac>, AllocError>
    ensures { IfOk result (λ rates. rates.items ≡ map (λ a. neg_ℚ (direction_where down) *ℚ a) alpha.now) }
{
    let mut rates = Vec::with_capacity(alloc, alpha.len())?;
    for element in alpha {
        rates.push(rate(down, *element))?;
    }
    Ok(rates)
}

// How a basic value moves, by its element in the column.
fn rate(down: bool, element: Frac) -> Frac
    ensures { result ≡ neg_ℚ (direction_where down) *ℚ element }
{
    if down { element } else { element.negated() }
}
