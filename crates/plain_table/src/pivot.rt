//! The parts of a table as a column takes a position, worked into spare parts.
ghost use Rattle.std.specs.Prelude.{◌≡◌, ◌≢◌, ◌<◌, ◌≤◌, ◌^◌, [], get_or, length, take, IfOk, OnOk, Some, None};
ghost use Rattle.lp_model.specs.declared.Kind.TheVariants as kind;
ghost use Rattle.lp_run.specs.Listing.{place, Judges};
ghost use Rattle.rational.specs.Rational.{zero_ℚ};
ghost use Rattle.rational.specs.Sum.{at};
ghost use Rattle.exact_frac.specs.Count.{unfit_after};
ghost use Rattle.plain_table.specs.Inner.Lines.{IsSupport};
ghost use Rattle.plain_table.specs.Inner.Pivots.{ArePivoted, line_listing, pivot_line, swap_listing};
ghost use Rattle.plain_table.specs.Inner.Rows.{AreWide};

use crate::line::{divide_line, subtract_line};
use crate::row::Row;
use crate::rows::{Elimination, eliminate_all};
use crate::support::find_support;
use crate::values::move_values;
use exact_frac::{Arith, Frac};
use lp_model::{Kind, Place};
use std::thread::Threads;

/// What a column does that takes a position: it falls where `down` says so, or else rises, by the ratio, from `rest`.
#[derive(Debug, Drop)]
pub struct Pivot {
    pub number: u64,
    pub position: u32,
    pub column: usize,
    pub down: bool,
    pub rest: Frac,
    pub ratio: Frac,
}

// The place of the pivot row.
fn line_place(number: u64, position: u32) -> Place
    ensures { result ≡ place number kind.Entry (Some position) None }
{
    Place {
        number,
        kind: Kind::Entry,
        row: Some(position),
        column: None,
    }
}

// The place of the reduced costs.
fn costs_place(number: u64) -> Place
    ensures { result ≡ place number kind.Cost None None }
{
    Place {
        number,
        kind: Kind::Cost,
        row: None,
        column: None,
    }
}

// The pivot row divided by its element in the column.
fn divide_pivot_row<A: Arith>(
    pivot: &Pivot,
    rows: &[Row],
    arith: &mut A,
    by: &mut [Frac],
) -> Result<(), Place>
    requires position { pivot.now.position < length rows.now }
    requires wide { length (get_or rows.now pivot.now.position []) ≡ length by.old }
    requires column { pivot.now.column < length by.old }
    requires element { at (get_or rows.now pivot.now.position []) pivot.now.column ≢ zero_ℚ }
    requires few { length by.old < 2 ^ 32 }
    ensures answer { Judges (A.width arith.old) (line_listing pivot.now rows.now) result }
    ensures divided { OnOk result (by.new ≡ pivot_line pivot.now rows.now) }
    ensures width { A.width arith.new ≡ A.width arith.old }
    ensures unfit { A.unfit_count arith.new ≡ unfit_after (A.unfit_count arith.old) result }
{
    let row = &rows[pivot.position as usize];
    let here = line_place(pivot.number, pivot.position);
    divide_line(here, row.as_slice(), row.get(pivot.column), arith, by)
}

// How many numbers are not 0.
fn count_nonzero(line: &[Frac]) -> usize {
    line.iter().filter(|number| !number.is_zero()).count()
}

// How often the rows are halved for threads of their own: a thread costs some 14 microseconds, an item that is worked a
// tenth of one. More halves than processors even out rows that differ.
fn depth_for(alpha: &[Frac], columns: usize) -> u32 {
    let worked = count_nonzero(alpha).saturating_mul(columns);
    if worked < 2_000 {
        0
    } else if worked <= 100_000 {
        2
    } else {
        3
    }
}

/// Works all parts of the table after the pivot into spare ones: the pivot row, the columns in which it is not 0, the
/// other rows in these columns, the basic values, whose elements in the entering column are `alpha`, and the reduced
/// costs. It answers how many these columns are.
pub fn work_swap<R: Threads + Sync, A: Arith>(
    rt: &R,
    pivot: &Pivot,
    alpha: &[Frac],
    rows: &[Row],
    values: &[Frac],
    costs: &[Frac],
    arith: &mut A,
    by: &mut [Frac],
    support: &mut [u32],
    out_rows: &mut [Row],
    out_values: &mut [Frac],
    out_costs: &mut [Frac],
) -> Result<usize, Place>
    requires wide { AreWide (length costs.now) rows.now }
    requires values { length values.now ≡ length rows.now }
    requires alpha { length alpha.now ≡ length rows.now }
    requires column { pivot.now.column < length costs.now }
    requires position { pivot.now.position < length rows.now }
    requires element { at (get_or rows.now pivot.now.position []) pivot.now.column ≢ zero_ℚ }
    requires few_columns { length costs.now < 2 ^ 32 }
    requires few_rows { length rows.now < 2 ^ 32 }
    requires spare_line { length by.old ≡ length costs.now }
    requires spare_support { length support.old ≡ length costs.now }
    requires spare_rows { length out_rows.old ≡ length rows.now }
    requires spare_wide { AreWide (length costs.now) out_rows.old }
    requires spare_values { length out_values.old ≡ length rows.now }
    requires spare_costs { length out_costs.old ≡ length costs.now }
    ensures answer { Judges (A.width arith.old) (swap_listing pivot.now alpha.now rows.now values.now costs.now) result }
    ensures pivoted { IfOk result (λ count. ArePivoted pivot.now alpha.now rows.now values.now costs.now (take count support.new) out_rows.new out_values.new out_costs.new) }
    ensures line { OnOk result (by.new ≡ pivot_line pivot.now rows.now) }
    ensures support { IfOk result (λ count. (count ≤ length support.new) × IsSupport by.new (take count support.new)) }
    ensures spare_wide { AreWide (length costs.now) out_rows.new }
    ensures width { A.width arith.new ≡ A.width arith.old }
    ensures unfit { A.unfit_count arith.new ≡ unfit_after (A.unfit_count arith.old) result }
{
    let number = pivot.number;
    let q = pivot.column;
    let position = pivot.position as usize;
    let (down, rest, ratio) = (pivot.down, pivot.rest, pivot.ratio);
    divide_pivot_row(pivot, rows, arith, by)?;
    let count = find_support(by, support);
    let depth = depth_for(alpha, count);
    let elimination = Elimination {
        number,
        position,
        column: q,
        line: by,
        support: &support[..count],
    };
    eliminate_all(rt, depth, &elimination, 0, rows, arith, out_rows)?;
    move_values(
        number, position, down, rest, ratio, values, alpha, arith, out_values,
    )?;
    subtract_line(costs_place(number), costs, costs[q], by, arith, out_costs)?;
    Ok(count)
}
