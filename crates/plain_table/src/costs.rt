//! The reduced costs worked anew from the rows.
ghost use Rattle.std.specs.Prelude.{◌≡◌, ◌≢◌, ◌<◌, ◌^◌, ℕ, [], false, get_or, length, IsTrue, OnOk};
ghost use Rattle.lp_model.specs.declared.Kind.TheVariants as kind;
ghost use Rattle.rational.specs.Rational.{zero_ℚ};
ghost use Rattle.rational.specs.Sum.{at};
ghost use Rattle.rational.specs.Worked.{is_skipped};
ghost use Rattle.lp_run.specs.Instance.{column_count, cost as cost_of, row_count};
ghost use Rattle.lp_run.specs.State.{basic};
ghost use Rattle.lp_run.specs.Listing.{place, Judges};
ghost use Rattle.exact_frac.specs.Count.{unfit_after};
ghost use Rattle.exact_frac.specs.Settles.{Settles};
ghost use Rattle.plain_table.specs.Inner.Costs.{AreCosts, HasProduct, cost_work, costs_work_listing, priced, terms_from};
ghost use Rattle.plain_table.specs.Inner.Rows.{AreWide};

use crate::row::Row;
use exact_frac::{Arith, Frac, Unfit};
use instance_model::{Instance, State};
use lp_model::{Kind, Phase, Place};
use sparse_steps::less_product;

// Whether a product is worked: neither factor is 0.
fn is_worked(a: Frac, b: Frac) -> bool
    ensures some { IsTrue result → (a ≢ zero_ℚ) × (b ≢ zero_ℚ) }
    ensures none { result ≡ false → IsTrue (is_skipped a b) }
{
    if a.is_zero() || b.is_zero() {
        return false;
    }
    true
}

/// Whether some basic column with a cost has an entry in column `j`.
fn is_priced(j: usize, basic_costs: &[Frac], rows: &[Row]) -> bool
    requires costs { length basic_costs.now ≡ length rows.now }
    requires columns { (p : ℕ) → p < length rows.now → j < length (get_or rows.now p []) }
    ensures some { IsTrue result → HasProduct basic_costs.now rows.now j }
    ensures none { result ≡ false → (p : ℕ) → p < length rows.now → IsTrue (is_skipped (at basic_costs.now p) (at (get_or rows.now p []) j)) }
{
    for p in 0..rows.len() {
        if is_worked(basic_costs[p], rows[p].get(j)) {
            return true;
        }
    }
    false
}

/// A cost less the products of the costs of the basic columns with their entries in column `j`, in rising positions.
fn less_basic_costs<A: Arith>(
    own: Frac,
    j: usize,
    basic_costs: &[Frac],
    rows: &[Row],
    arith: &mut A,
) -> Result<Frac, Unfit>
    requires costs { length basic_costs.now ≡ length rows.now }
    requires columns { (p : ℕ) → p < length rows.now → j < length (get_or rows.now p []) }
    ensures settled { Settles (A.width arith.old) (priced own (terms_from basic_costs.now rows.now j 0 (length rows.now))) result }
    ensures width { A.width arith.new ≡ A.width arith.old }
    ensures unfit { A.unfit_count arith.new ≡ unfit_after (A.unfit_count arith.old) result }
{
    let mut rest = own;
    for p in 0..rows.len() {
        rest = less_product(rest, basic_costs[p], rows[p].get(j), arith)?;
    }
    Ok(rest)
}

/// The reduced cost of column `j`, whose own cost is given. Where no product is worked, that cost itself has to fit.
fn reduced_cost<A: Arith>(
    own: Frac,
    j: usize,
    basic_costs: &[Frac],
    rows: &[Row],
    arith: &mut A,
) -> Result<Frac, Unfit>
    requires costs { length basic_costs.now ≡ length rows.now }
    requires columns { (p : ℕ) → p < length rows.now → j < length (get_or rows.now p []) }
    ensures settled { Settles (A.width arith.old) (cost_work own basic_costs.now rows.now j) result }
    ensures width { A.width arith.new ≡ A.width arith.old }
    ensures unfit { A.unfit_count arith.new ≡ unfit_after (A.unfit_count arith.old) result }
{
    if is_priced(j, basic_costs, rows) {
        less_basic_costs(own, j, basic_costs, rows, arith)
    } else {
        arith.fit(own)
    }
}

// The place of a reduced cost.
fn cost_place(number: u64, column: usize) -> Place
    requires { column < 2 ^ 32 }
    ensures { result ≡ place number kind.Cost None (Some column) }
{
    Place {
        number,
        kind: Kind::Cost,
        row: None,
        column: Some(column as u32),
    }
}

/// The reduced costs of all columns, with the costs of the basic columns by position.
pub fn work_costs<A: Arith>(
    number: u64,
    inst: &Instance,
    phase: Phase,
    basic_costs: &[Frac],
    rows: &[Row],
    arith: &mut A,
    out: &mut [Frac],
) -> Result<(), Place>
    requires costs { length basic_costs.now ≡ length rows.now }
    requires wide { AreWide (column_count inst.now) rows.now }
    requires count { length out.old ≡ column_count inst.now }
    ensures answer { Judges (A.width arith.old) (costs_work_listing inst.now phase number basic_costs.now rows.now) result }
    ensures costs { OnOk result (AreCosts inst.now phase basic_costs.now rows.now out.new) }
    ensures width { A.width arith.new ≡ A.width arith.old }
    ensures unfit { A.unfit_count arith.new ≡ unfit_after (A.unfit_count arith.old) result }
{
    for j in 0..inst.columns() {
        match reduced_cost(inst.cost(phase, j), j, basic_costs, rows, arith) {
            Ok(cost) => out[j] = cost,
            Err(_) => return Err(cost_place(number, j)),
        }
    }
    Ok(())
}

/// The costs of the basic columns in a phase, by position.
pub fn basic_costs(inst: &Instance, state: &State, phase: Phase, out: &mut [Frac])
    requires count { length out.old ≡ length state.now.basis }
    requires columns { (p : ℕ) → p < length state.now.basis → basic state.now p < column_count inst.now }
    ensures { (p : ℕ) → p < length state.now.basis → at out.new p ≡ cost_of inst.now phase (basic state.now p) }
{
    for p in 0..state.positions() {
        out[p] = inst.cost(phase, state.basic(p) as usize);
    }
}
