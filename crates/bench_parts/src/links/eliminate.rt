// An elimination by pivots, in which a last digit stands for the arithmetic.
ghost use Rattle.std.specs.Prelude.{◌≡◌, ◌<◌, true, IfOk, MatchOption};
ghost use Rattle.std.specs.List.{All};
ghost use Rattle.cross_links.specs.Matrix.{is_active, Has, IsLink, IsMatrix};

use crate::draws::Checksum;
use cross_links::Cross;
use exact_frac::Frac;
use no_memory::Memory;
use std::alloc::Global;

/// Works the row of the entry into the other rows of its column, removes the row and the column, and answers them.
/// The checksum takes in the entries of both.
pub(crate) fn eliminate(
    alloc: Global,
    cross: &mut Cross,
    link: u32,
    checksum: &mut Checksum,
) -> Result<(usize, usize), Memory>
    requires link { IsLink cross.old link }
    requires matrix { IsMatrix cross.old }
    ensures size { cross.new.size ≡ cross.old.size }
    ensures matrix { IsMatrix cross.new }
{
    let (r, c, _) = cross.entry(link);
    let in_col = col_entries(alloc, cross, c)?;
    let in_row = row_entries(alloc, cross, r)?;
    fold(checksum, &in_col);
    fold(checksum, &in_row);
    work_rows(cross, (r, c), &in_col, &in_row)?;
    cross.remove_row(r);
    cross.remove_col(c);
    Ok((r, c))
}

// Takes the entries of a line in.
fn fold(checksum: &mut Checksum, entries: &[(usize, u64)]) {
    for (i, digit) in entries {
        checksum.fold(*i as u64);
        checksum.fold(*digit);
    }
}

// The row and the last digit of each entry of column `c`.
fn col_entries(alloc: Global, cross: &Cross, c: usize) -> Result<Vec<(usize, u64)>, Memory>
    requires col { c < cross.now.size }
    ensures { IfOk result (λ all. All (λ p. (p.0 < cross.now.size) × (is_active cross.now.active_rows p.0 ≡ true)) all.items) }
{
    let mut all = Vec::new(alloc);
    let mut next = cross.col_first(c);
    for _ in 0..cross.col_count(c) {
        let Some(link) = next else { break };
        let (r, _, v) = cross.entry(link);
        all.push((r, last_digit(v)))?;
        next = cross.col_next(link);
    }
    Ok(all)
}

// The column and the last digit of each entry of row `r`.
fn row_entries(alloc: Global, cross: &Cross, r: usize) -> Result<Vec<(usize, u64)>, Memory>
    requires row { r < cross.now.size }
    ensures { IfOk result (λ all. All (λ p. (p.0 < cross.now.size) × (is_active cross.now.active_cols p.0 ≡ true)) all.items) }
{
    let mut all = Vec::new(alloc);
    let mut next = cross.row_first(r);
    for _ in 0..cross.row_count(r) {
        let Some(link) = next else { break };
        let (_, c, v) = cross.entry(link);
        all.push((c, last_digit(v)))?;
        next = cross.row_next(link);
    }
    Ok(all)
}

// Works the pivot's row into each other row of its column.
fn work_rows(
    cross: &mut Cross,
    pivot: (usize, usize),
    in_col: &[(usize, u64)],
    in_row: &[(usize, u64)],
) -> Result<(), Memory>
    requires matrix { IsMatrix cross.old }
    requires rows { All (λ p. (p.0 < cross.old.size) × (is_active cross.old.active_rows p.0 ≡ true)) in_col.now }
    requires cols { All (λ p. (p.0 < cross.old.size) × (is_active cross.old.active_cols p.0 ≡ true)) in_row.now }
    ensures size { cross.new.size ≡ cross.old.size }
    ensures active_rows { cross.new.active_rows ≡ cross.old.active_rows }
    ensures active_cols { cross.new.active_cols ≡ cross.old.active_cols }
    ensures matrix { IsMatrix cross.new }
{
    for (i, digit) in in_col {
        if *i != pivot.0 {
            work_row(cross, *i, *digit, pivot.1, in_row)?;
        }
    }
    Ok(())
}

// Works the pivot's row into row `i`.
fn work_row(
    cross: &mut Cross,
    i: usize,
    digit: u64,
    c: usize,
    in_row: &[(usize, u64)],
) -> Result<(), Memory>
    requires matrix { IsMatrix cross.old }
    requires row { i < cross.old.size }
    requires active { is_active cross.old.active_rows i ≡ true }
    requires cols { All (λ p. (p.0 < cross.old.size) × (is_active cross.old.active_cols p.0 ≡ true)) in_row.now }
    ensures size { cross.new.size ≡ cross.old.size }
    ensures active_rows { cross.new.active_rows ≡ cross.old.active_rows }
    ensures active_cols { cross.new.active_cols ≡ cross.old.active_cols }
    ensures matrix { IsMatrix cross.new }
{
    for (j, other) in in_row {
        if *j != c {
            add(cross, i, *j, digit.wrapping_mul(*other) % 10)?;
        }
    }
    Ok(())
}

// Adds to the entry in row `i` and column `j`, which is put in where there is none, and cancelled where it comes to 0.
fn add(cross: &mut Cross, i: usize, j: usize, more: u64) -> Result<(), Memory>
    requires matrix { IsMatrix cross.old }
    requires row { i < cross.old.size }
    requires col { j < cross.old.size }
    requires active_row { is_active cross.old.active_rows i ≡ true }
    requires active_col { is_active cross.old.active_cols j ≡ true }
    requires digit { more < 10 }
    ensures size { cross.new.size ≡ cross.old.size }
    ensures active_rows { cross.new.active_rows ≡ cross.old.active_rows }
    ensures active_cols { cross.new.active_cols ≡ cross.old.active_cols }
    ensures matrix { IsMatrix cross.new }
{
    let Some(link) = find(cross, i, j) else {
        if more > 0 {
            cross.fill(i, j, Frac::of(more as i128, 1))?;
        }
        return Ok(());
    };
    let (_, _, v) = cross.entry(link);
    let sum = (last_digit(v) + more) % 10;
    if sum > 0 {
        cross.set(link, Frac::of(sum as i128, 1));
    } else {
        cross.cancel(link);
    }
    Ok(())
}

// The last digit of a numerator.
fn last_digit(v: Frac) -> u64
    ensures { result < 10 }
{
    (v.numer().unsigned_abs() % 10) as u64
}

// The link of the entry in row `r` and column `c`.
fn find(cross: &Cross, r: usize, c: usize) -> Option<u32>
    requires matrix { IsMatrix cross.now }
    requires row { r < cross.now.size }
    ensures { MatchOption result (¬ Has cross.now r c) (λ link. IsLink cross.now link) }
{
    let mut next = cross.row_first(r);
    'entries: while let Some(link) = next {
        let (_, at, _) = cross.entry(link);
        if at == c {
            return Some(link);
        }
        next = cross.row_next(link);
    }
    None
}
