//! Lines of numbers by column, worked one after another: a quotient or a difference in each.
ghost use Rattle.std.specs.Prelude.{◌≡◌, ◌≢◌, ◌<◌, ◌≤◌, ◌^◌, ℕ, get_or, length, OnOk};
ghost use Rattle.rational.specs.Rational.{zero_ℚ, ◌/ℚ◌};
ghost use Rattle.rational.specs.Worked.{less};
ghost use Rattle.exact_frac.specs.Count.{unfit_after};
ghost use Rattle.exact_frac.specs.Exact.{Exact};
ghost use Rattle.exact_frac.specs.Settles.{Settles};
ghost use Rattle.lp_run.specs.Listing.{Judges};
ghost use Rattle.plain_table.specs.Inner.Lines.{in_column as there, AreDivided, AreLess, AreLessPacked, AreRising, IsSupport, IsUnpacked, less_listing, quotients_listing};

use exact_frac::{Arith, Frac, Unfit};
use lp_model::Place;
use sparse_steps::less_product;

// The place in a column.
fn in_column(here: Place, column: usize) -> Place
    requires { column < 2 ^ 32 }
    ensures { result ≡ there here column }
{
    Place {
        column: Some(column as u32),
        ..here
    }
}

// A quotient. That of 0 is 0, and is not divided.
fn divided<A: Arith>(x: Frac, pivot: Frac, arith: &mut A) -> Result<Frac, Unfit>
    requires { pivot ≢ zero_ℚ }
    ensures answer { Exact (A.width arith.old) (x /ℚ pivot) result }
    ensures width { A.width arith.new ≡ A.width arith.old }
    ensures unfit { A.unfit_count arith.new ≡ unfit_after (A.unfit_count arith.old) result }
{
    if x.is_zero() {
        return arith.fit(x);
    }
    arith.div(x, pivot)
}

// A number less a product of two that are not 0. (`less_product` would ask each time whether they are.)
fn less_worked<A: Arith>(x: Frac, a: Frac, b: Frac, arith: &mut A) -> Result<Frac, Unfit>
    requires left { a ≢ zero_ℚ }
    requires right { b ≢ zero_ℚ }
    ensures settled { Settles (A.width arith.old) (less x a b) result }
    ensures width { A.width arith.new ≡ A.width arith.old }
    ensures unfit { A.unfit_count arith.new ≡ unfit_after (A.unfit_count arith.old) result }
{
    let product = arith.mul(a, b)?;
    arith.sub(x, product)
}

/// Divides each number of a line by the pivot.
pub fn divide_line<A: Arith>(
    here: Place,
    line: &[Frac],
    pivot: Frac,
    arith: &mut A,
    out: &mut [Frac],
) -> Result<(), Place>
    requires apart { pivot ≢ zero_ℚ }
    requires count { length out.old ≡ length line.now }
    requires few { length line.now < 2 ^ 32 }
    ensures answer { Judges (A.width arith.old) (quotients_listing here line.now pivot) result }
    ensures divided { OnOk result (AreDivided line.now pivot out.new) }
    ensures width { A.width arith.new ≡ A.width arith.old }
    ensures unfit { A.unfit_count arith.new ≡ unfit_after (A.unfit_count arith.old) result }
{
    for j in 0..line.len() {
        match divided(line[j], pivot, arith) {
            Ok(quotient) => out[j] = quotient,
            Err(_) => return Err(in_column(here, j)),
        }
    }
    Ok(())
}

/// Takes a multiple of one line from another. A product of 0 is not worked.
pub fn subtract_line<A: Arith>(
    here: Place,
    line: &[Frac],
    factor: Frac,
    by: &[Frac],
    arith: &mut A,
    out: &mut [Frac],
) -> Result<(), Place>
    requires by { length by.now ≡ length line.now }
    requires count { length out.old ≡ length line.now }
    requires few { length line.now < 2 ^ 32 }
    ensures answer { Judges (A.width arith.old) (less_listing here line.now factor by.now) result }
    ensures less { OnOk result (AreLess line.now factor by.now out.new) }
    ensures width { A.width arith.new ≡ A.width arith.old }
    ensures unfit { A.unfit_count arith.new ≡ unfit_after (A.unfit_count arith.old) result }
{
    for j in 0..line.len() {
        match less_product(line[j], factor, by[j], arith) {
            Ok(rest) => out[j] = rest,
            Err(_) => return Err(in_column(here, j)),
        }
    }
    Ok(())
}

/// Takes a multiple of one line from another in the columns where that one is not 0. The numbers come one after another.
pub fn subtract_packed<A: Arith>(
    here: Place,
    line: &[Frac],
    factor: Frac,
    by: &[Frac],
    columns: &[u32],
    arith: &mut A,
    out: &mut [Frac],
) -> Result<(), Place>
    requires factor { factor ≢ zero_ℚ }
    requires by { length by.now ≡ length line.now }
    requires support { IsSupport by.now columns.now }
    requires count { length columns.now ≤ length out.old }
    requires few { length line.now < 2 ^ 32 }
    ensures answer { Judges (A.width arith.old) (less_listing here line.now factor by.now) result }
    ensures less { OnOk result (AreLessPacked line.now factor by.now columns.now out.new) }
    ensures width { A.width arith.new ≡ A.width arith.old }
    ensures unfit { A.unfit_count arith.new ≡ unfit_after (A.unfit_count arith.old) result }
{
    for k in 0..columns.len() {
        let j = columns[k] as usize;
        match less_worked(line[j], factor, by[j], arith) {
            Ok(rest) => out[k] = rest,
            Err(_) => return Err(in_column(here, j)),
        }
    }
    Ok(())
}

/// Writes numbers that come one after another into their columns, which rise.
pub fn unpack(columns: &[u32], packed: &[Frac], line: &mut [Frac])
    requires rising { AreRising columns.now }
    requires within { (k : ℕ) → k < length columns.now → get_or columns.now k 0 < length line.old }
    requires count { length columns.now ≤ length packed.now }
    ensures { IsUnpacked columns.now packed.now line.old line.new }
{
    for k in 0..columns.len() {
        line[columns[k] as usize] = packed[k];
    }
}
