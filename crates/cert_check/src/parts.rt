//! The greatest contributions of columns and logicals to a combination of the rows.
ghost use Rattle.std.specs.Prelude.{◌≡◌, ◌<◌, length, Some, None};
ghost use Rattle.std.specs.Option.{unwrap_or};
ghost use Rattle.exact_frac.specs.Count.{unfit_after};
ghost use Rattle.exact_frac.specs.Settles.{Settles};
ghost use Rattle.rational.specs.Rational.{zero_ℚ};
ghost use Rattle.cert_check.specs.Sums.{all_parts, column_part, greatest_sum, logical_part, parts_sum, plus, product};
ghost use Rattle.cert_check.specs.Inner.Groups.{scaled, with_part};

use crate::ends::{Ends, column_ends, logical_ends};
use crate::sums::{is_skipped, weighted};
use deck_model::Deck;
use exact_frac::{Arith, Frac, Unfit};
use std::cmp::Ordering;

/// The greatest contribution of a column, where it is finite.
pub(crate) fn column_part<A: Arith>(
    deck: &Deck,
    y: &[Frac],
    column: usize,
    arith: &mut A,
) -> Result<Option<Frac>, Unfit>
    requires column { column < length deck.now.columns }
    requires rows { length y.now ≡ length deck.now.rows }
    ensures settled { Settles (A.width arith.old) (column_part deck.now y.now column) result }
    ensures width { A.width arith.new ≡ A.width arith.old }
    ensures unfit { A.unfit_count arith.new ≡ unfit_after (A.unfit_count arith.old) result }
{
    let c = weighted(deck, y, column, arith)?;
    greatest(c, column_ends(deck, column), arith)
}

/// The greatest contribution of the logical of a row, where it is finite.
pub(crate) fn logical_part<A: Arith>(
    deck: &Deck,
    y: &[Frac],
    row: usize,
    arith: &mut A,
) -> Result<Option<Frac>, Unfit>
    requires row { row < length deck.now.rows }
    requires rows { length y.now ≡ length deck.now.rows }
    ensures settled { Settles (A.width arith.old) (logical_part deck.now y.now row) result }
    ensures width { A.width arith.new ≡ A.width arith.old }
    ensures unfit { A.unfit_count arith.new ≡ unfit_after (A.unfit_count arith.old) result }
{
    let price = y[row];
    greatest(price, logical_ends(deck, row), arith)
}

// The greatest value of `c` times a number within the ends, where it is finite.
#[tactic(auto, using(exact_frac::specs::Constants::constants))]
fn greatest<A: Arith>(c: Frac, ends: Ends, arith: &mut A) -> Result<Option<Frac>, Unfit>
    ensures settled { Settles (A.width arith.old) (greatest_sum c ends) result }
    ensures width { A.width arith.new ≡ A.width arith.old }
    ensures unfit { A.unfit_count arith.new ≡ unfit_after (A.unfit_count arith.old) result }
{
    match c.cmp(&Frac::ZERO) {
        Ordering::Less => scaled(c, ends.lower(), arith),
        Ordering::Equal => Ok(Some(Frac::ZERO)),
        Ordering::Greater => scaled(c, ends.upper(), arith),
    }
}

// `c` times an end, where it is finite.
fn scaled<A: Arith>(c: Frac, end: Option<Frac>, arith: &mut A) -> Result<Option<Frac>, Unfit>
    ensures settled { Settles (A.width arith.old) (scaled c end) result }
    ensures width { A.width arith.new ≡ A.width arith.old }
    ensures unfit { A.unfit_count arith.new ≡ unfit_after (A.unfit_count arith.old) result }
{
    match end {
        None => Ok(None),
        Some(end) => Ok(Some(product(c, end, arith)?)),
    }
}

// A product; one of a zero factor is 0, and not worked.
#[tactic(auto, using(exact_frac::specs::Constants::constants))]
fn product<A: Arith>(a: Frac, b: Frac, arith: &mut A) -> Result<Frac, Unfit>
    ensures settled { Settles (A.width arith.old) (product a b) result }
    ensures width { A.width arith.new ≡ A.width arith.old }
    ensures unfit { A.unfit_count arith.new ≡ unfit_after (A.unfit_count arith.old) result }
{
    if is_skipped(a, b) {
        return Ok(Frac::ZERO);
    }
    arith.mul(a, b)
}

/// The greatest contributions of all columns and then of all logicals, added up. One that is not finite counts as 0.
#[tactic(auto, using(exact_frac::specs::Constants::constants))]
pub(crate) fn all_parts<A: Arith>(deck: &Deck, y: &[Frac], arith: &mut A) -> Result<Frac, Unfit>
    requires { length y.now ≡ length deck.now.rows }
    ensures settled { Settles (A.width arith.old) (parts_sum zero_ℚ (all_parts deck.now y.now)) result }
    ensures width { A.width arith.new ≡ A.width arith.old }
    ensures unfit { A.unfit_count arith.new ≡ unfit_after (A.unfit_count arith.old) result }
{
    let mut sum = Frac::ZERO;
    for j in 0..deck.columns() {
        sum = with_column(sum, deck, y, j, arith)?;
    }
    for i in 0..deck.rows() {
        sum = with_logical(sum, deck, y, i, arith)?;
    }
    Ok(sum)
}

// A sum with the greatest contribution of a column.
fn with_column<A: Arith>(
    sum: Frac,
    deck: &Deck,
    y: &[Frac],
    column: usize,
    arith: &mut A,
) -> Result<Frac, Unfit>
    requires column { column < length deck.now.columns }
    requires rows { length y.now ≡ length deck.now.rows }
    ensures settled { Settles (A.width arith.old) (with_part sum (column_part deck.now y.now column)) result }
    ensures width { A.width arith.new ≡ A.width arith.old }
    ensures unfit { A.unfit_count arith.new ≡ unfit_after (A.unfit_count arith.old) result }
{
    let part = column_part(deck, y, column, arith)?;
    plus(sum, part, arith)
}

// A sum with the greatest contribution of the logical of a row.
fn with_logical<A: Arith>(
    sum: Frac,
    deck: &Deck,
    y: &[Frac],
    row: usize,
    arith: &mut A,
) -> Result<Frac, Unfit>
    requires row { row < length deck.now.rows }
    requires rows { length y.now ≡ length deck.now.rows }
    ensures settled { Settles (A.width arith.old) (with_part sum (logical_part deck.now y.now row)) result }
    ensures width { A.width arith.new ≡ A.width arith.old }
    ensures unfit { A.unfit_count arith.new ≡ unfit_after (A.unfit_count arith.old) result }
{
    let part = logical_part(deck, y, row, arith)?;
    plus(sum, part, arith)
}

// A sum with a part; a part that is 0, or not finite, adds nothing.
#[tactic(auto, using(exact_frac::specs::Constants::constants))]
fn plus<A: Arith>(sum: Frac, part: Option<Frac>, arith: &mut A) -> Result<Frac, Unfit>
    ensures settled { Settles (A.width arith.old) (plus sum (unwrap_or part zero_ℚ)) result }
    ensures width { A.width arith.new ≡ A.width arith.old }
    ensures unfit { A.unfit_count arith.new ≡ unfit_after (A.unfit_count arith.old) result }
{
    let part = part.unwrap_or(Frac::ZERO);
    if part.is_zero() {
        return Ok(sum);
    }
    arith.add(sum, part)
}
