//! The rows of a table as a column takes a position: the worked ones stand in spare rows until all are worked.
ghost use Rattle.std.specs.Prelude.{◌≡◌, ◌+◌, ◌<◌, ◌^◌, ◌==◌, ℕ, [], get_or, length, OnOk};
ghost use Rattle.std.specs.Thread.{IsSync};
ghost use Rattle.rational.specs.Sum.{at};
ghost use Rattle.exact_frac.specs.Count.{unfit_after};
ghost use Rattle.lp_run.specs.Listing.{Judges};
ghost use Rattle.plain_table.specs.Inner.Rows.{AreTaken, AreWide, EliminatesRow, IsTaken, row_listing};
ghost use Rattle.plain_table.specs.Inner.Eliminations.{CanEliminate, CanWorkRows, WorksRows};

use crate::row::Row;
use exact_frac::{Arith, Frac};
use lp_model::{Kind, Place};
use rayon::join_mut;
use std::thread::Threads;

/// A column that is taken out of the rows of a table by a line, which the row of one position becomes.
#[derive(Drop)]
pub struct Elimination<'a> {
    /// How many entries of the log come before it.
    pub number: u64,
    /// The position of the row that becomes the line.
    pub position: usize,
    /// The column.
    pub column: usize,
    /// The line.
    pub line: &'a [Frac],
    /// The columns in which the line is not 0.
    pub support: &'a [u32],
}

/// Takes the column out of the row in position `index`: the row's numbers in the columns of the support come one after
/// another into a spare row. Nothing is worked for the row that becomes the line, and where the row has no entry in the
/// column.
fn eliminate<A: Arith>(
    elimination: &Elimination,
    index: u32,
    row: &Row,
    arith: &mut A,
    out: &mut Row,
) -> Result<(), Place>
    requires elimination { CanEliminate elimination.now }
    requires length { length row.now ≡ length elimination.now.line.now }
    requires spare { length out.old ≡ length elimination.now.line.now }
    requires few { length elimination.now.line.now < 2 ^ 32 }
    ensures answer { let e = elimination.now in Judges (A.width arith.old) (row_listing e.number (index == e.position) index e.column e.line.now row.now) result }
    ensures eliminated { let e = elimination.now in OnOk result (EliminatesRow (index == e.position) e.column e.line.now e.support.now row.now out.new) }
    ensures spare { length out.new ≡ length elimination.now.line.now }
    ensures width { A.width arith.new ≡ A.width arith.old }
    ensures unfit { A.unfit_count arith.new ≡ unfit_after (A.unfit_count arith.old) result }
{
    let own = index as usize == elimination.position;
    if own {
        return Ok(());
    }
    let factor = row.get(elimination.column);
    if factor.is_zero() {
        return Ok(());
    }
    let here = Place {
        number: elimination.number,
        kind: Kind::Entry,
        row: Some(index),
        column: None,
    };
    out.set_less(
        here,
        row.as_slice(),
        factor,
        elimination.line,
        elimination.support,
        arith,
    )
}

// Works rows into spare ones, one after another. The first of them stands in position `base`.
fn eliminate_in_turn<A: Arith>(
    elimination: &Elimination,
    base: usize,
    rows: &[Row],
    arith: &mut A,
    out: &mut [Row],
) -> Result<(), Place>
    requires { CanWorkRows elimination.now base rows.now out.old }
    ensures { WorksRows (A.width arith.old) (A.width arith.new) (A.unfit_count arith.old) (A.unfit_count arith.new)
        elimination.now base rows.now out.new result }
{
    for i in 0..rows.len() {
        eliminate(elimination, (i + base) as u32, &rows[i], arith, &mut out[i])?;
    }
    Ok(())
}

/// Works rows into spare ones, by halves of halves in threads of their own while there is depth left. The first of the
/// rows stands in position `base`. The answer and the counts are those of the rows one after another.
#[cycle(rows)]
pub fn eliminate_all<R: Threads + Sync, A: Arith>(
    rt: &R,
    depth: u32,
    elimination: &Elimination,
    base: usize,
    rows: &[Row],
    arith: &mut A,
    out: &mut [Row],
) -> Result<(), Place>
    requires { CanWorkRows elimination.now base rows.now out.old }
    ensures { WorksRows (A.width arith.old) (A.width arith.new) (A.unfit_count arith.old) (A.unfit_count arith.new)
        elimination.now base rows.now out.new result }
{
    if depth == 0 || rows.len() < 2 {
        return eliminate_in_turn(elimination, base, rows, arith, out);
    }
    let half = rows.len() / 2;
    let (low, high) = rows.split_at(half);
    let (low_out, high_out) = out.split_at_mut(half);
    let mut own = arith.fresh();
    let (first, second) = eliminate_halves(
        rt,
        depth - 1,
        elimination,
        base,
        half + base,
        low,
        high,
        arith,
        &mut own,
        low_out,
        high_out,
    );
    // (the counts of the second half are nobody's where the first is refused, as in turn it would not be worked)
    first?;
    arith.absorb(own);
    second
}

// Both halves side by side, each with an arithmetic of its own.
#[cycle(rows)]
fn eliminate_halves<R: Threads + Sync, A: Arith>(
    rt: &R,
    depth: u32,
    elimination: &Elimination,
    base: usize,
    up: usize,
    low: &[Row],
    high: &[Row],
    arith: &mut A,
    own: &mut A,
    low_out: &mut [Row],
    high_out: &mut [Row],
) -> (Result<(), Place>, Result<(), Place>)
    requires low { CanWorkRows elimination.now base low.now low_out.old }
    requires high { CanWorkRows elimination.now up high.now high_out.old }
    ensures low { WorksRows (A.width arith.old) (A.width arith.new) (A.unfit_count arith.old) (A.unfit_count arith.new)
        elimination.now base low.now low_out.new result.0 }
    ensures high { WorksRows (A.width own.old) (A.width own.new) (A.unfit_count own.old) (A.unfit_count own.new)
        elimination.now up high.now high_out.new result.1 }
{
    let mut front = || -> Result<(), Place>
        requires { IsSync R.row × CanWorkRows elimination.now base low.now low_out.now }
        ensures { WorksRows (A.width arith.entry.now) (A.width arith.exit.now) (A.unfit_count arith.entry.now) (A.unfit_count arith.exit.now)
            elimination.entry.now base low.entry.now low_out.exit.now result }
    { eliminate_all(rt, depth, elimination, base, low, arith, low_out) };
    let mut back = || -> Result<(), Place>
        requires { IsSync R.row × CanWorkRows elimination.now up high.now high_out.now }
        ensures { WorksRows (A.width own.entry.now) (A.width own.exit.now) (A.unfit_count own.entry.now) (A.unfit_count own.exit.now)
            elimination.entry.now up high.entry.now high_out.exit.now result }
    { eliminate_all(rt, depth, elimination, up, high, own, high_out) };
    join_mut(rt, &mut front, &mut back)
}

/// Takes over what was worked for the row in position `index`.
fn take_over(elimination: &Elimination, index: usize, row: &mut Row, packed: &Row)
    requires elimination { CanEliminate elimination.now }
    requires length { length row.old ≡ length elimination.now.line.now }
    requires spare { length packed.now ≡ length elimination.now.line.now }
    ensures taken { let e = elimination.now in IsTaken (index == e.position) e.column e.line.now e.support.now row.old packed.now row.new }
    ensures length { length row.new ≡ length elimination.now.line.now }
{
    let own = index == elimination.position;
    if own {
        row.copy_from(elimination.line);
    } else if !row.get(elimination.column).is_zero() {
        row.take_in(elimination.support, packed.as_slice());
    }
}

/// Takes over what was worked for all rows, the first of which stands in position `base`. A row for which nothing was
/// worked is not touched.
pub fn take_all_over(elimination: &Elimination, base: usize, rows: &mut [Row], packed: &[Row])
    requires elimination { CanEliminate elimination.now }
    requires count { length packed.now ≡ length rows.old }
    requires wide { AreWide (length elimination.now.line.now) rows.old }
    requires spare { AreWide (length elimination.now.line.now) packed.now }
    requires few_rows { length rows.old + base < 2 ^ 32 }
    ensures taken { let e = elimination.now in AreTaken e.position base e.column e.line.now e.support.now rows.old packed.now rows.new }
    ensures wide { AreWide (length elimination.now.line.now) rows.new }
{
    for i in 0..rows.len() {
        take_over(elimination, i + base, &mut rows[i], &packed[i]);
    }
}

/// Column `q` of the rows, by position.
pub fn read_column(rows: &[Row], q: usize, out: &mut [Frac])
    requires count { length out.old ≡ length rows.now }
    requires columns { (p : ℕ) → p < length rows.now → q < length (get_or rows.now p []) }
    ensures { (p : ℕ) → p < length rows.now → at out.new p ≡ at (get_or rows.now p []) q }
{
    for p in 0..rows.len() {
        out[p] = rows[p].get(q);
    }
}
