//! The sums of an outcome, worked in order: products of a zero factor are skipped.
ghost use Rattle.std.specs.Prelude.{◌≡◌, ◌<◌, ◌≤◌, length};
ghost use Rattle.std.specs.List.{list_all};
ghost use Rattle.exact_frac.specs.Count.{unfit_after};
ghost use Rattle.exact_frac.specs.Settles.{Settles};
ghost use Rattle.lp_model.specs.Deck.{column as column_at};
ghost use Rattle.rational.specs.Worked.{is_skipped};
ghost use Rattle.cert_check.specs.Sums.{activity_sum, added, cost_sum, cost_terms, entry_terms, objective_sum, reduced_sum, right_sum, weighted_sum};

use deck_model::Deck;
use exact_frac::{Arith, Frac, Unfit};
use sparse_steps::{entry, gather, more_product};

/// The activity of a row at `v`, an item for each column.
#[tactic(auto, using(exact_frac::specs::Constants::constants))]
pub(crate) fn activity<A: Arith>(
    deck: &Deck,
    v: &[Frac],
    row: usize,
    arith: &mut A,
) -> Result<Frac, Unfit>
    requires { length v.now ≡ length deck.now.columns }
    ensures settled { Settles (A.width arith.old) (activity_sum deck.now v.now row) result }
    ensures width { A.width arith.new ≡ A.width arith.old }
    ensures unfit { A.unfit_count arith.new ≡ unfit_after (A.unfit_count arith.old) result }
{
    let mut sum = Frac::ZERO;
    for j in 0..deck.columns() {
        sum = more_product(sum, entry(deck.column(j), row), v[j], arith)?;
    }
    Ok(sum)
}

/// The objective at `x`, an item for each column.
pub(crate) fn objective<A: Arith>(deck: &Deck, x: &[Frac], arith: &mut A) -> Result<Frac, Unfit>
    requires { length x.now ≡ length deck.now.columns }
    ensures settled { Settles (A.width arith.old) (objective_sum deck.now x.now) result }
    ensures width { A.width arith.new ≡ A.width arith.old }
    ensures unfit { A.unfit_count arith.new ≡ unfit_after (A.unfit_count arith.old) result }
{
    if has_no_cost(deck, x) {
        return arith.fit(deck.constant());
    }
    costs(deck, deck.constant(), x, arith)
}

// Whether no product of a cost and an item is worked.
fn has_no_cost(deck: &Deck, x: &[Frac]) -> bool
    requires { length x.now ≡ length deck.now.columns }
    ensures { result ≡ list_all (λ term. is_skipped term.0 term.1) (cost_terms deck.now x.now) }
{
    for j in 0..deck.columns() {
        if !is_skipped(deck.cost(j), x[j]) {
            return false;
        }
    }
    true
}

/// Whether a product has a zero factor.
pub(crate) fn is_skipped(a: Frac, b: Frac) -> bool
    ensures { result ≡ is_skipped a b }
{
    a.is_zero() || b.is_zero()
}

/// The products of the costs and the items of `v`, one for each column, added to a number.
pub(crate) fn costs<A: Arith>(
    deck: &Deck,
    start: Frac,
    v: &[Frac],
    arith: &mut A,
) -> Result<Frac, Unfit>
    requires { length v.now ≡ length deck.now.columns }
    ensures settled { Settles (A.width arith.old) (added start (cost_terms deck.now v.now)) result }
    ensures width { A.width arith.new ≡ A.width arith.old }
    ensures unfit { A.unfit_count arith.new ≡ unfit_after (A.unfit_count arith.old) result }
{
    let mut sum = start;
    for j in 0..deck.columns() {
        sum = more_product(sum, deck.cost(j), v[j], arith)?;
    }
    Ok(sum)
}

/// The right sides combined by `y`, an item for each row.
#[tactic(auto, using(exact_frac::specs::Constants::constants))]
pub(crate) fn right_side<A: Arith>(deck: &Deck, y: &[Frac], arith: &mut A) -> Result<Frac, Unfit>
    requires { length y.now ≡ length deck.now.rows }
    ensures settled { Settles (A.width arith.old) (right_sum deck.now y.now) result }
    ensures width { A.width arith.new ≡ A.width arith.old }
    ensures unfit { A.unfit_count arith.new ≡ unfit_after (A.unfit_count arith.old) result }
{
    let mut sum = Frac::ZERO;
    for i in 0..deck.rows() {
        sum = more_product(sum, deck.right(i), y[i], arith)?;
    }
    Ok(sum)
}

/// A column combined by `y`, an item for each row.
#[tactic(auto, using(exact_frac::specs::Constants::constants))]
pub(crate) fn weighted<A: Arith>(
    deck: &Deck,
    y: &[Frac],
    column: usize,
    arith: &mut A,
) -> Result<Frac, Unfit>
    requires column { column < length deck.now.columns }
    requires rows { length y.now ≡ length deck.now.rows }
    ensures settled { Settles (A.width arith.old) (weighted_sum deck.now y.now column) result }
    ensures width { A.width arith.new ≡ A.width arith.old }
    ensures unfit { A.unfit_count arith.new ≡ unfit_after (A.unfit_count arith.old) result }
{
    let entries = deck.column(column);
    let mut sum = Frac::ZERO;
    for k in 0..entries.count() {
        let (i, e) = entries.pair(k);
        sum = more_product(sum, e, y[i], arith)?;
    }
    Ok(sum)
}

/// The reduced cost of a column at `y`, a price for each row.
pub(crate) fn reduced<A: Arith>(
    deck: &Deck,
    y: &[Frac],
    column: usize,
    arith: &mut A,
) -> Result<Frac, Unfit>
    requires column { column < length deck.now.columns }
    requires rows { length y.now ≡ length deck.now.rows }
    ensures settled { Settles (A.width arith.old) (reduced_sum deck.now y.now column) result }
    ensures width { A.width arith.new ≡ A.width arith.old }
    ensures unfit { A.unfit_count arith.new ≡ unfit_after (A.unfit_count arith.old) result }
{
    let cost = deck.cost(column);
    if is_unpriced(deck, y, column) {
        return arith.fit(cost);
    }
    gather(deck.rows(), y, cost, deck.column(column), arith)
}

// Whether no product of an entry of the column and a price is worked.
fn is_unpriced(deck: &Deck, y: &[Frac], column: usize) -> bool
    requires column { column < length deck.now.columns }
    requires rows { length y.now ≡ length deck.now.rows }
    ensures { result ≡ list_all (λ term. is_skipped term.0 term.1) (entry_terms y.now (column_at deck.now column).entries) }
{
    let entries = deck.column(column);
    for k in 0..entries.count() {
        let (i, e) = entries.pair(k);
        if !is_skipped(e, y[i]) {
            return false;
        }
    }
    true
}
