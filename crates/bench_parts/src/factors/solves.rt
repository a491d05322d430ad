// The calls that are measured, each so many times.
ghost use Rattle.std.specs.Prelude.{◌≡◌, ◌<◌, OnErr, length};
ghost use Rattle.std.specs.List.{All};
ghost use Rattle.sparse_cols.specs.Sparse.{IsRising};
ghost use Rattle.factor_model.specs.Factors.{most_updates};
ghost use Rattle.factor_model.specs.Upper.{Solves};
ghost use Rattle.ftran_btran.specs.Kept.{size};

use crate::draws::Checksum;
use crate::factors::draws::Entering;
use exact_frac::{Arith, Frac, Full127};
use ft_update::UpdateFault;
use ftran_btran::Factors;
use sparse_cols::SparseCol;
use std::alloc::Global;

/// One more than the largest number of 64 bits.
const WORD: u128 = 0x1_0000_0000_0000_0000;

/// Takes numbers in: of each its sign, and the low words of its numerator and of its denominator.
pub(crate) fn fold(checksum: &mut Checksum, items: &[Frac]) {
    for item in items {
        let numer = item.numer();
        checksum.fold(if numer < 0 { 1 } else { 0 });
        checksum.fold((numer.unsigned_abs() % WORD) as u64);
        checksum.fold((item.denom().unsigned_abs() % WORD) as u64);
    }
}

// Solves for a column so many times.
fn solve_column(
    factors: &Factors,
    column: &SparseCol<Frac>,
    times: u16,
    spike: &mut [Frac],
    out: &mut [Frac],
) -> Option<()>
    requires column { IsRising (size factors.now) 0 column.now.pairs }
    requires spike { length spike.old ≡ size factors.now }
    requires out { length out.old ≡ size factors.now }
{
    for _ in 0..times {
        factors.ftran(column, spike, out, &mut Full127::new()).ok()?;
    }
    Some(())
}

/// Solves for each column so many times.
pub(crate) fn solve_columns(
    factors: &Factors,
    entering: &[Entering],
    times: u16,
    spike: &mut [Frac],
    out: &mut [Frac],
    checksum: &mut Checksum,
) -> Option<()>
    requires columns { All (λ e. IsRising (size factors.now) 0 e.column.pairs) entering.now }
    requires spike { length spike.old ≡ size factors.now }
    requires out { length out.old ≡ size factors.now }
{
    for each in entering {
        solve_column(factors, &each.column, times, spike, out)?;
        fold(checksum, out);
    }
    Some(())
}

// Solves for a row so many times.
fn solve_row(
    factors: &Factors,
    row: &[Frac],
    times: u16,
    work: &mut [Frac],
    out: &mut [Frac],
) -> Option<()>
    requires row { length row.now ≡ size factors.now }
    requires work { length work.old ≡ size factors.now }
    requires out { length out.old ≡ size factors.now }
{
    for _ in 0..times {
        factors.btran(row, work, out, &mut Full127::new()).ok()?;
    }
    Some(())
}

/// Solves for each row so many times.
pub(crate) fn solve_rows(
    factors: &Factors,
    rows: &[Vec<Frac>],
    times: u16,
    work: &mut [Frac],
    out: &mut [Frac],
    checksum: &mut Checksum,
) -> Option<()>
    requires rows { All (λ row. length row.items ≡ size factors.now) rows.now }
    requires work { length work.old ≡ size factors.now }
    requires out { length out.old ≡ size factors.now }
{
    for row in rows {
        solve_row(factors, row, times, work, out)?;
        fold(checksum, out);
    }
    Some(())
}

// The first number that is not 0, from that place on, and then from the first on.
fn leaving(out: &[Frac], from: usize) -> Option<usize> {
    for p in from..out.len() {
        if !out[p].is_zero() {
            return Some(p);
        }
    }
    out.iter().position(|item| !item.is_zero())
}

/// Puts a column, whose spike and solution are given, into a position. Nothing changes where the solution has 0 there,
/// since the basis would be dependent, and where a worked value does not fit.
pub(crate) fn replace<A: Arith>(
    alloc: Global,
    factors: &mut Factors,
    p: usize,
    spike: &[Frac],
    out: &[Frac],
    arith: &mut A,
) -> Result<(), UpdateFault>
    requires updates { factors.old.updates < most_updates }
    requires position { p < size factors.old }
    requires spike { length spike.now ≡ size factors.old }
    requires out { length out.now ≡ size factors.old }
    requires form { Solves factors.old.upper out.now spike.now }
    ensures size { size factors.new ≡ size factors.old }
    ensures kept { OnErr result (factors.new ≡ factors.old) }
{
    let element = out[p];
    if element.is_zero() {
        return Ok(());
    }
    factors.update(alloc, p, spike, arith)
}

// Solves for a column once more, and puts it into a position.
fn exchange(
    alloc: Global,
    factors: &mut Factors,
    p: usize,
    column: &SparseCol<Frac>,
    spike: &mut [Frac],
    out: &mut [Frac],
) -> Option<()>
    requires updates { factors.old.updates < most_updates }
    requires position { p < size factors.old }
    requires column { IsRising (size factors.old) 0 column.now.pairs }
    requires spike { length spike.old ≡ size factors.old }
    requires out { length out.old ≡ size factors.old }
    ensures size { size factors.new ≡ size factors.old }
{
    let mut arith = Full127::new();
    match factors.ftran(column, spike, out, &mut arith) {
        Ok(()) => replace(alloc, factors, p, spike, out, &mut arith).ok(),
        Err(_unfit) => None,
    }
}

// Lets a column enter, which is solved for so many times before.
fn enter(
    alloc: Global,
    factors: &mut Factors,
    entering: &Entering,
    times: u16,
    spike: &mut [Frac],
    out: &mut [Frac],
) -> Option<()>
    requires column { IsRising (size factors.old) 0 entering.now.column.pairs }
    requires spike { length spike.old ≡ size factors.old }
    requires out { length out.old ≡ size factors.old }
    ensures size { size factors.new ≡ size factors.old }
{
    solve_column(factors, &entering.column, times, spike, out)?;
    match leaving(out, entering.row) {
        Some(p) if p < factors.len() && factors.updates() < 64 => {
            exchange(alloc, factors, p, &entering.column, spike, out)
        }
        _ => Some(()),
    }
}

/// Lets the columns enter one after another, each solved for so many times, and once more where it enters.
pub(crate) fn exchanges(
    alloc: Global,
    factors: &mut Factors,
    entering: &[Entering],
    times: u16,
    spike: &mut [Frac],
    out: &mut [Frac],
    checksum: &mut Checksum,
) -> Option<()>
    requires columns { All (λ e. IsRising (size factors.old) 0 e.column.pairs) entering.now }
    requires spike { length spike.old ≡ size factors.old }
    requires out { length out.old ≡ size factors.old }
    ensures size { size factors.new ≡ size factors.old }
{
    for each in entering {
        enter(alloc, factors, each, times, spike, out)?;
        fold(checksum, out);
    }
    Some(())
}
