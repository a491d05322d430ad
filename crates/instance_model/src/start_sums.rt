//! The start sums of a row: its right side less the structurals at their start, how far that passes an end of the
//! logical's bounds, and the end that the range gives.
ghost use Rattle.std.specs.Prelude.{◌≡◌, ◌+◌, ◌<◌, ◌≤◌, ◌^◌, length, IfOk, Some};
ghost use Rattle.deck_model.specs.End.{finite_end};
ghost use Rattle.exact_frac.specs.Count.{unfit_after};
ghost use Rattle.lp_model.specs.declared.Kind.TheVariants as kind;
ghost use Rattle.lp_model.specs.Deck.{column as column_at, logical_bounds as logical_bounds_at, logical_bounds_of, row as row_at};
ghost use Rattle.lp_run.specs.Instance.{equations_of, range_sum as range_sum_of, residual as residual_of, structural_count};
ghost use Rattle.lp_run.specs.Listing.{listed_at, place, start_sums, Judges};
ghost use Rattle.rational.specs.Sparse.{upto};
ghost use Rattle.rational.specs.Sum.{at};
ghost use Rattle.instance_model.specs.Inner.Starts.{excess_listing, off_zero, range_shift as shift_of, row_place as place_of_row, row_products, row_start as row_start_of, side_past, takings};

use crate::bounds::Bounds;
use deck_model::{Deck, End, MAX_COLUMNS};
use exact_frac::{Arith, Frac};
use lp_model::{Kind, Place, RowKind, Side};
use sparse_steps::{entry, less_product};
use std::alloc::{AllocError, Global};
use std::cmp::Ordering;

/// What a row has of its start sums: the end of its logical that its residual passes, and the end that its range gives.
#[derive(Clone, Copy)]
pub(crate) struct RowStart {
    pub(crate) passed: Option<Side>,
    pub(crate) range_sum: Option<Frac>,
}

/// The start sums of a row, worked in order; or the place of the first one that does not fit.
pub(crate) fn row_start<A: Arith>(
    deck: &Deck,
    moved: &[usize],
    row: usize,
    arith: &mut A,
) -> Result<RowStart, Place>
    requires moved { moved.now ≡ off_zero (equations_of deck.now) }
    requires columns { length deck.now.columns ≤ MAX_COLUMNS }
    requires row { row < length deck.now.rows }
    requires place { row < 2 ^ 32 }
    ensures answer { Judges (A.width arith.old) (start_sums (equations_of deck.now) row) result }
    ensures value { IfOk result (λ start. start ≡ row_start_of deck.now row) }
    ensures width { A.width arith.new ≡ A.width arith.old }
    ensures unfit { A.unfit_count arith.new ≡ unfit_after (A.unfit_count arith.old) result }
    ensures work { A.work_count arith.new ≤ A.work_count arith.old + row_products (equations_of deck.now) row }
{
    let rest = residual(deck, moved, row, arith)?;
    let passed = passed_side(logical_bounds(deck, row), rest, row, arith)?;
    let range_sum = range_sum(deck, row, arith)?;
    Ok(RowStart { passed, range_sum })
}

// The right side of a row less the structurals at their start, in rising structurals. Those that start at 0 take nothing.
fn residual<A: Arith>(
    deck: &Deck,
    moved: &[usize],
    row: usize,
    arith: &mut A,
) -> Result<Frac, Place>
    requires moved { moved.now ≡ off_zero (equations_of deck.now) }
    requires columns { length deck.now.columns ≤ MAX_COLUMNS }
    requires row { row < length deck.now.rows }
    requires place { row < 2 ^ 32 }
    ensures answer { Judges (A.width arith.old)
        (takings (equations_of deck.now) row (at (equations_of deck.now).right row) (upto (structural_count (equations_of deck.now)))) result }
    ensures value { IfOk result (λ rest. rest ≡ residual_of (equations_of deck.now) row) }
    ensures width { A.width arith.new ≡ A.width arith.old }
    ensures unfit { A.unfit_count arith.new ≡ unfit_after (A.unfit_count arith.old) result }
    ensures work { A.work_count arith.new ≤ A.work_count arith.old + row_products (equations_of deck.now) row }
{
    let mut rest = deck.right(row);
    for k in 0..moved.len() {
        let j = moved[k];
        let value = column_bounds(deck, j).start_value();
        match less_product(rest, entry(deck.column(j), row), value, arith) {
            Ok(left) => rest = left,
            Err(_) => return Err(product_place(row, j)),
        }
    }
    Ok(rest)
}

/// The columns that do not start at 0.
pub(crate) fn columns_off_zero(alloc: Global, deck: &Deck) -> Result<Vec<usize>, AllocError>
    ensures items { IfOk result (λ columns. columns.items ≡ off_zero (equations_of deck.now)) }
    ensures few { length deck.now.columns ≤ MAX_COLUMNS }
{
    let mut columns = Vec::new(alloc);
    for j in 0..deck.columns() {
        if !column_bounds(deck, j).start_value().is_zero() {
            columns.push(j)?;
        }
    }
    Ok(columns)
}

// The side of the end that a residual passes, where it passes one; how far it does so is worked.
fn passed_side<A: Arith>(
    bounds: Bounds,
    rest: Frac,
    row: usize,
    arith: &mut A,
) -> Result<Option<Side>, Place>
    requires { row < 2 ^ 32 }
    ensures answer { Judges (A.width arith.old) (excess_listing row bounds rest) result }
    ensures value { IfOk result (λ side. side ≡ side_past bounds rest) }
    ensures width { A.width arith.new ≡ A.width arith.old }
    ensures unfit { A.unfit_count arith.new ≡ unfit_after (A.unfit_count arith.old) result }
    ensures work { A.work_count arith.new ≡ A.work_count arith.old }
{
    match bounds.passed_end(rest) {
        None => Ok(None),
        Some(passed) => match arith.sub(rest, passed.1) {
            Ok(_) => Ok(Some(passed.0)),
            Err(_) => Err(row_place(row)),
        },
    }
}

// The end of a row's interval that its range gives, where it gives one.
fn range_sum<A: Arith>(deck: &Deck, row: usize, arith: &mut A) -> Result<Option<Frac>, Place>
    requires row { row < length deck.now.rows }
    requires place { row < 2 ^ 32 }
    ensures answer { Judges (A.width arith.old) (listed_at (place_of_row row) (range_sum_of (row_at deck.now row))) result }
    ensures value { IfOk result (λ sum. sum ≡ range_sum_of (row_at deck.now row)) }
    ensures width { A.width arith.new ≡ A.width arith.old }
    ensures unfit { A.unfit_count arith.new ≡ unfit_after (A.unfit_count arith.old) result }
    ensures work { A.work_count arith.new ≡ A.work_count arith.old }
{
    match range_shift(deck.row_kind(row), deck.range(row)) {
        None => Ok(None),
        Some(shift) => match arith.add(deck.right(row), shift) {
            Ok(sum) => Ok(Some(sum)),
            Err(_) => Err(row_place(row)),
        },
    }
}

// How far a range puts the other end of the row's interval from its right side.
#[tactic(auto, using(exact_frac::specs::Constants::constants))]
fn range_shift(kind: RowKind, range: Option<Frac>) -> Option<Frac>
    ensures { result ≡ shift_of kind range }
{
    match (kind, range) {
        (_, None) => None,
        (RowKind::L, Some(range)) => Some(range.abs().negated()),
        (RowKind::G, Some(range)) => Some(range.abs()),
        (RowKind::E, Some(range)) => match range.cmp(&Frac::ZERO) {
            Ordering::Less => Some(range),
            Ordering::Equal => None,
            Ordering::Greater => Some(range),
        },
    }
}

/// The bounds of the logical of a row.
pub(crate) fn logical_bounds(deck: &Deck, row: usize) -> Bounds
    requires { row < length deck.now.rows }
    ensures { result ≡ logical_bounds_at (row_at deck.now row) }
{
    slack(deck.row_kind(row), deck.range(row))
}

// The bounds of the logical of a row of that kind and range.
#[tactic(auto, using(exact_frac::specs::Constants::constants))]
fn slack(kind: RowKind, range: Option<Frac>) -> Bounds
    ensures { result ≡ logical_bounds_of kind range }
{
    match (kind, range) {
        (RowKind::L, None) => Bounds::new(Some(Frac::ZERO), None),
        (RowKind::L, Some(range)) => Bounds::new(Some(Frac::ZERO), Some(range.abs())),
        (RowKind::G, None) => Bounds::new(None, Some(Frac::ZERO)),
        (RowKind::G, Some(range)) => Bounds::new(Some(range.abs().negated()), Some(Frac::ZERO)),
        (RowKind::E, None) => Bounds::new(Some(Frac::ZERO), Some(Frac::ZERO)),
        (RowKind::E, Some(range)) => match range.cmp(&Frac::ZERO) {
            Ordering::Less => Bounds::new(Some(Frac::ZERO), Some(range.abs())),
            Ordering::Equal => Bounds::new(Some(Frac::ZERO), Some(Frac::ZERO)),
            Ordering::Greater => Bounds::new(Some(range.negated()), Some(Frac::ZERO)),
        },
    }
}

/// The bounds of a column of a deck.
pub(crate) fn column_bounds(deck: &Deck, column: usize) -> Bounds
    requires { column < length deck.now.columns }
    ensures { result ≡ (column_at deck.now column).bounds }
{
    let (lower, upper) = deck.bounds(column);
    Bounds::new(finite(lower), finite(upper))
}

// The number of an end, where it has one.
fn finite(end: End) -> Option<Frac>
    ensures { result ≡ finite_end end }
{
    match end {
        End::At(value) => Some(value),
        End::Minus | End::Plus => None,
    }
}

// The place of a product that is taken from a row's right side.
fn product_place(row: usize, column: usize) -> Place
    requires row { row < 2 ^ 32 }
    requires column { column < 2 ^ 32 }
    ensures { result ≡ place 0 kind.Start (Some row) (Some column) }
{
    Place {
        number: 0,
        kind: Kind::Start,
        row: Some(row as u32),
        column: Some(column as u32),
    }
}

// The place of a sum of a row that stands in no column.
fn row_place(row: usize) -> Place
    requires { row < 2 ^ 32 }
    ensures { result ≡ place_of_row row }
{
    Place {
        number: 0,
        kind: Kind::Start,
        row: Some(row as u32),
        column: None,
    }
}
