//! The objective at a point.
ghost use Rattle.std.specs.Prelude.{◌≡◌, ◌≢◌, ◌+◌, ◌≤◌, ◌↔◌, length, IfOk, IsTrue, None};
ghost use Rattle.rational.specs.Rational.{zero_ℚ};
ghost use Rattle.exact_frac.specs.Count.{unfit_after};
ghost use Rattle.lp_model.specs.declared.Kind.TheVariants as kind;
ghost use Rattle.lp_run.specs.Ends.{objective_at};
ghost use Rattle.lp_run.specs.Instance.{structural_count};
ghost use Rattle.lp_run.specs.Listing.{added, place, total_listing, Judges};
ghost use Rattle.bland_ratio.specs.Entries.{nonzero_costs};
ghost use Rattle.run_outcome.specs.Inner.Parts.{HasProduct, terms};

use exact_frac::{Arith, Frac};
use instance_model::Instance;
use lp_model::{Kind, Place};
use sparse_steps::more_product;

// The place of a sum of the objective, with the column whose product it takes in.
fn total_place(number: u64, column: Option<u32>) -> Place
    ensures { result ≡ place number kind.Total None column }
{
    Place {
        number,
        kind: Kind::Total,
        row: None,
        column,
    }
}

/// The objective at a point, a number for each of the n structurals: the constant and, in rising structurals, each product
/// of a cost and a value that are not 0. Where there is none, the constant itself has to fit the width.
///
/// # Errors
///
/// The place under this number of the first sum, or product, that does not fit the width of the arithmetic.
pub fn objective<A: Arith>(
    inst: &Instance,
    number: u64,
    x: &[Frac],
    arith: &mut A,
) -> Result<Frac, Place>
    requires { length x.now ≡ structural_count inst.now }
    ensures value { IfOk result (λ v. v ≡ objective_at inst.now x.now) }
    ensures listed { Judges (A.width arith.old) (total_listing inst.now number x.now) result }
    ensures width { A.width arith.new ≡ A.width arith.old }
    ensures unfit { A.unfit_count arith.new ≡ unfit_after (A.unfit_count arith.old) result }
    ensures work { A.work_count arith.new ≤ A.work_count arith.old + nonzero_costs inst.now }
{
    if has_product(inst, x) {
        return add_up(inst, number, x, arith);
    }
    match arith.fit(inst.constant()) {
        Ok(constant) => Ok(constant),
        Err(_) => Err(total_place(number, None)),
    }
}

// Whether some structural with a cost has a value.
fn has_product(inst: &Instance, x: &[Frac]) -> bool
    requires { length x.now ≡ structural_count inst.now }
    ensures { IsTrue result ↔ HasProduct inst.now x.now }
{
    for j in 0..inst.structurals() {
        if is_worked(inst.deck_cost(j), x[j]) {
            return true;
        }
    }
    false
}

// Whether a product is worked: neither factor is 0.
fn is_worked(a: Frac, b: Frac) -> bool
    ensures { IsTrue result ↔ ((a ≢ zero_ℚ) × (b ≢ zero_ℚ)) }
{
    !a.is_zero() && !b.is_zero()
}

// The constant and all products.
fn add_up<A: Arith>(inst: &Instance, number: u64, x: &[Frac], arith: &mut A) -> Result<Frac, Place>
    requires { length x.now ≡ structural_count inst.now }
    ensures value { IfOk result (λ v. v ≡ objective_at inst.now x.now) }
    ensures listed { Judges (A.width arith.old) (added inst.now.constant (terms inst.now number x.now 0 (structural_count inst.now))) result }
    ensures width { A.width arith.new ≡ A.width arith.old }
    ensures unfit { A.unfit_count arith.new ≡ unfit_after (A.unfit_count arith.old) result }
    ensures work { A.work_count arith.new ≤ A.work_count arith.old + nonzero_costs inst.now }
{
    let mut total = inst.constant();
    for j in 0..inst.structurals() {
        match more_product(total, inst.deck_cost(j), x[j], arith) {
            Ok(sum) => total = sum,
            Err(_) => return Err(total_place(number, Some(j as u32))),
        }
    }
    Ok(total)
}
