//! The basic values at the start.
ghost use Rattle.std.specs.Prelude.{◌≡◌, ℕ, ◌+◌, ◌<◌, ◌≤◌, ◌^◌, length, OnOk, Some};
ghost use Rattle.rational.specs.Rational.{◌-ℚ◌};
ghost use Rattle.rational.specs.Sum.{at};
ghost use Rattle.lp_run.specs.Instance.{IsWellFormed, passed_side, residual as residual_of, row_count};
ghost use Rattle.lp_run.specs.Listing.{AllFit, StartFits, start_sums, Judges};
ghost use Rattle.exact_frac.specs.Count.{unfit_after};
ghost use Rattle.bland_ratio.specs.Entries.{stored_entries};
ghost use Rattle.plain_table.specs.Inner.Starts.{basic_start, logical_rest, row_entries, start_values_listing};

use crate::residual::residual;
use crate::values::value_place;
use exact_frac::{Arith, Frac};
use instance_model::Instance;
use lp_model::{Phase, Place, Side};

// The end of a row's logical that the row's residual passes, at which the logical rests.
#[tactic(auto, using(exact_frac::specs::Constants::constants))]
fn end_passed(inst: &Instance, row: usize, side: Side) -> Frac
    requires well_formed { IsWellFormed inst.now }
    requires row { row < row_count inst.now }
    requires few { row < 2 ^ 32 }
    requires side { passed_side inst.now row ≡ Some side }
    ensures { result ≡ logical_rest inst.now row }
{
    let bounds = inst.bounds(Phase::One, inst.structurals() + row);
    match side {
        Side::Lower => bounds.lower().unwrap_or(Frac::ZERO),
        Side::Upper => bounds.upper().unwrap_or(Frac::ZERO),
    }
}

// What the residual of a row leaves beside that end, a start sum.
fn left_beside<A: Arith>(
    inst: &Instance,
    row: usize,
    side: Side,
    residual: Frac,
    arith: &mut A,
) -> Frac
    requires well_formed { IsWellFormed inst.now }
    requires row { row < row_count inst.now }
    requires few { row < 2 ^ 32 }
    requires side { passed_side inst.now row ≡ Some side }
    requires residual { residual ≡ residual_of inst.now row }
    requires fits { AllFit (A.width arith.old) (start_sums inst.now row) }
    ensures difference { result ≡ residual_of inst.now row -ℚ logical_rest inst.now row }
    ensures width { A.width arith.new ≡ A.width arith.old }
    ensures unfit { A.unfit_count arith.new ≡ A.unfit_count arith.old }
    ensures work { A.work_count arith.new ≡ A.work_count arith.old }
{
    match arith.sub(residual, end_passed(inst, row, side)) {
        Ok(left) => left,
        Err(_) => unreachable!(),
    }
}

// The residual of a row whose start sums fit.
fn fitting_residual<A: Arith>(inst: &Instance, row: usize, arith: &mut A) -> Frac
    requires row { row < row_count inst.now }
    requires fits { AllFit (A.width arith.old) (start_sums inst.now row) }
    ensures residual { result ≡ residual_of inst.now row }
    ensures width { A.width arith.new ≡ A.width arith.old }
    ensures unfit { A.unfit_count arith.new ≡ A.unfit_count arith.old }
    ensures work { A.work_count arith.new ≤ A.work_count arith.old + row_entries inst.now row }
{
    match residual(inst, row, arith) {
        Ok(residual) => residual,
        Err(_) => unreachable!(),
    }
}

/// The basic value at the start in the position of a row whose start sums fit.
fn basic_start<A: Arith>(inst: &Instance, row: usize, arith: &mut A) -> Frac
    requires well_formed { IsWellFormed inst.now }
    requires row { row < row_count inst.now }
    requires few { row < 2 ^ 32 }
    requires fits { AllFit (A.width arith.old) (start_sums inst.now row) }
    ensures value { result ≡ basic_start inst.now row }
    ensures width { A.width arith.new ≡ A.width arith.old }
    ensures unfit { A.unfit_count arith.new ≡ A.unfit_count arith.old }
    ensures work { A.work_count arith.new ≤ A.work_count arith.old + row_entries inst.now row }
{
    let residual = fitting_residual(inst, row, arith);
    match inst.passed(row) {
        Some(Side::Lower) => left_beside(inst, row, Side::Lower, residual, arith).negated(),
        Some(Side::Upper) => left_beside(inst, row, Side::Upper, residual, arith),
        None => residual,
    }
}

/// The basic values at the start, by position. At most one product is worked for each stored entry of the structurals.
pub fn work_start_values<A: Arith>(
    inst: &Instance,
    arith: &mut A,
    out: &mut [Frac],
) -> Result<(), Place>
    requires fits { StartFits (A.width arith.old) inst.now }
    requires count { length out.old ≡ row_count inst.now }
    ensures answer { Judges (A.width arith.old) (start_values_listing inst.now) result }
    ensures values { OnOk result ((p : ℕ) → p < row_count inst.now → at out.new p ≡ basic_start inst.now p) }
    ensures width { A.width arith.new ≡ A.width arith.old }
    ensures unfit { A.unfit_count arith.new ≡ unfit_after (A.unfit_count arith.old) result }
    ensures work { A.work_count arith.new ≤ A.work_count arith.old + stored_entries inst.now }
{
    for p in 0..inst.rows() {
        let value = basic_start(inst, p, arith);
        match arith.fit(value) {
            Ok(value) => out[p] = value,
            Err(_) => return Err(value_place(0, p)),
        }
    }
    Ok(())
}
