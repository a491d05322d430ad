//! A sparse column worked into a vector, and out of one item: the two loops of all sparse solves; and its entry in a row.
//!
//! **Model.** A column is seen as its pairs of row and entry in rising rows (`Sparse` of `sparse_cols`), a vector as
//! the list of its numbers, a calculation as its worked values in order and its answer (`Worked` of `rational`).
//!
//! **Contract.** [`gather`] takes the product of each entry with the vector's item in its row from one number;
//! [`subtract`] takes the product of each entry with one number from the vector's items. A product of a zero factor
//! is skipped, and so is one row of choice. `Lines` of `rational` gives both as calculations. Each of them makes four
//! promises: it answers what the calculation settles to at the arithmetic's width, which is `Unfit` exactly where a
//! worked value does not fit; it keeps the width; the count of unfit results rises by one exactly at `Unfit`; and
//! the count of work rises at most by the number of stored entries. After `Unfit` the vector of `subtract` holds
//! what was worked so far.
//!
//! No call takes memory. It stands on `sparse_cols` for columns and on `exact_frac` for numbers.

#![tactic(auto)]

ghost use Rattle.std.specs.Prelude.{◌≡◌, ◌+◌, ◌≤◌, length};
ghost use Rattle.rational.specs.Rational.{one_unless_zero};
ghost use Rattle.rational.specs.Worked.{less, less_unless, more};
ghost use Rattle.rational.specs.Lines as lines;
ghost use Rattle.rational.specs.Sparse.{entry_at};
ghost use Rattle.sparse_cols.specs.Sparse.{IsRising};
ghost use Rattle.exact_frac.specs.Count.{unfit_after};
ghost use Rattle.exact_frac.specs.Settles.{Settles, Leaves};

use exact_frac::{Arith, Frac, Unfit};
use sparse_cols::SparseCol;

/// The entry of a column in a row, which is 0 where none is stored.
#[tactic(auto, using(exact_frac::specs::Constants::constants))]
pub fn entry(column: &SparseCol<Frac>, row: usize) -> Frac
    ensures { result ≡ entry_at column.now.pairs row }
{
    column.get(row).unwrap_or(Frac::ZERO)
}

/// `x` less the product of `a` and `b`. A product of 0 is skipped: at most one is worked, and none where `a` is 0.
pub fn less_product<A: Arith>(x: Frac, a: Frac, b: Frac, arith: &mut A) -> Result<Frac, Unfit>
    ensures settled { Settles (A.width arith.old) (less x a b) result }
    ensures width { A.width arith.new ≡ A.width arith.old }
    ensures unfit { A.unfit_count arith.new ≡ unfit_after (A.unfit_count arith.old) result }
    ensures work { A.work_count arith.new ≤ A.work_count arith.old + one_unless_zero a }
{
    if a.is_zero() || b.is_zero() {
        return Ok(x);
    }
    let product = arith.mul(a, b)?;
    arith.sub(x, product)
}

/// `x` and the product of `a` and `b`. A product of 0 is skipped: at most one is worked, and none where `a` is 0.
pub fn more_product<A: Arith>(x: Frac, a: Frac, b: Frac, arith: &mut A) -> Result<Frac, Unfit>
    ensures settled { Settles (A.width arith.old) (more x a b) result }
    ensures width { A.width arith.new ≡ A.width arith.old }
    ensures unfit { A.unfit_count arith.new ≡ unfit_after (A.unfit_count arith.old) result }
    ensures work { A.work_count arith.new ≤ A.work_count arith.old + one_unless_zero a }
{
    if a.is_zero() || b.is_zero() {
        return Ok(x);
    }
    let product = arith.mul(a, b)?;
    arith.add(x, product)
}

// The same, unless it is left out.
fn less_unless<A: Arith>(out: bool, x: Frac, a: Frac, b: Frac, arith: &mut A) -> Result<Frac, Unfit>
    ensures settled { Settles (A.width arith.old) (less_unless out x a b) result }
    ensures width { A.width arith.new ≡ A.width arith.old }
    ensures unfit { A.unfit_count arith.new ≡ unfit_after (A.unfit_count arith.old) result }
    ensures work { A.work_count arith.new ≤ A.work_count arith.old + 1 }
{
    if out {
        return Ok(x);
    }
    less_product(x, a, b, arith)
}

/// `r` less the product of each entry of the column with the vector's item in its row. The row `skip` is left out.
/// The column's rows are rows of the vector.
pub fn gather<A: Arith>(
    skip: usize,
    v: &[Frac],
    r: Frac,
    column: &SparseCol<Frac>,
    arith: &mut A,
) -> Result<Frac, Unfit>
    requires { IsRising (length v.now) 0 column.now.pairs }
    ensures settled { Settles (A.width arith.old) (lines.gather skip v.now r column.now.pairs) result }
    ensures width { A.width arith.new ≡ A.width arith.old }
    ensures unfit { A.unfit_count arith.new ≡ unfit_after (A.unfit_count arith.old) result }
    ensures work { A.work_count arith.new ≤ A.work_count arith.old + length column.now.pairs }
{
    let mut rest = r;
    for k in 0..column.count() {
        let (i, e) = column.pair(k);
        let item = v[i];
        rest = less_unless(i == skip, rest, e, item, arith)?;
    }
    Ok(rest)
}

/// Takes the product of each entry of the column with `x` from the vector's item in its row. The row `skip` is left
/// out. The column's rows are rows of the vector. Where `x` is 0 the column is not walked.
pub fn subtract<A: Arith>(
    skip: usize,
    x: Frac,
    v: &mut [Frac],
    column: &SparseCol<Frac>,
    arith: &mut A,
) -> Result<(), Unfit>
    requires { IsRising (length v.old) 0 column.now.pairs }
    ensures settled { Leaves (A.width arith.old) (lines.subtract skip x v.old column.now.pairs) result v.new }
    ensures width { A.width arith.new ≡ A.width arith.old }
    ensures unfit { A.unfit_count arith.new ≡ unfit_after (A.unfit_count arith.old) result }
    ensures work { A.work_count arith.new ≤ A.work_count arith.old + length column.now.pairs }
{
    if x.is_zero() {
        return Ok(());
    }
    for k in 0..column.count() {
        let (i, e) = column.pair(k);
        let item = v[i];
        v[i] = less_unless(i == skip, item, e, x, arith)?;
    }
    Ok(())
}
