//! What each item works, and whether it holds.
ghost use Rattle.std.specs.Prelude.{◌≡◌, ◌<◌, length};
ghost use Rattle.exact_frac.specs.Count.{unfit_after};
ghost use Rattle.exact_frac.specs.Settles.{Settles};
ghost use Rattle.lp_model.specs.Deck.{row as row_at};
ghost use Rattle.rational.specs.Rational.{lt_ℚ};
ghost use Rattle.cert_check.specs.Inner.Groups.{IsAhead, exceeded, priced_by, within_interval};
ghost use Rattle.cert_check.specs.Items.{column_item, endless_column_item, endless_row_item, gap_item, objective_item, price_item, ray_column_item, ray_cost_item, ray_row_item, reduced_item, row_item};
ghost use Rattle.cert_check.specs.Sums.{activity_sum};

use crate::ends::{
    activity_ends, allows, column_ends, in_sense, is_at_end, is_open_above, is_open_below,
};
use crate::parts::{all_parts, column_part, logical_part};
use crate::sums::{activity, costs, objective, reduced, right_side};
use deck_model::Deck;
use exact_frac::{Arith, Frac, Unfit};

/// The value of a column fits, and lies within its bounds.
pub(crate) fn column<A: Arith>(
    deck: &Deck,
    x: &[Frac],
    j: usize,
    arith: &mut A,
) -> Result<bool, Unfit>
    requires column { j < length deck.now.columns }
    requires given { length x.now ≡ length deck.now.columns }
    ensures settled { Settles (A.width arith.old) (column_item deck.now x.now j) result }
    ensures width { A.width arith.new ≡ A.width arith.old }
    ensures unfit { A.unfit_count arith.new ≡ unfit_after (A.unfit_count arith.old) result }
{
    let value = arith.fit(x[j])?;
    Ok(column_ends(deck, j).contains(value))
}

// The activity of a row: the one that is worked ahead, where there is one.
fn activity_of<A: Arith>(
    deck: &Deck,
    v: &[Frac],
    ahead: &[Frac],
    i: usize,
    arith: &mut A,
) -> Result<Frac, Unfit>
    requires given { length v.now ≡ length deck.now.columns }
    requires ahead { IsAhead (A.width arith.old) deck.now v.now ahead.now }
    ensures settled { Settles (A.width arith.old) (activity_sum deck.now v.now i) result }
    ensures width { A.width arith.new ≡ A.width arith.old }
    ensures unfit { A.unfit_count arith.new ≡ unfit_after (A.unfit_count arith.old) result }
{
    if i < ahead.len() {
        return Ok(ahead[i]);
    }
    activity(deck, v, i, arith)
}

/// The activity of a row lies within its interval.
pub(crate) fn row<A: Arith>(
    deck: &Deck,
    x: &[Frac],
    ahead: &[Frac],
    i: usize,
    arith: &mut A,
) -> Result<bool, Unfit>
    requires row { i < length deck.now.rows }
    requires given { length x.now ≡ length deck.now.columns }
    requires ahead { IsAhead (A.width arith.old) deck.now x.now ahead.now }
    ensures settled { Settles (A.width arith.old) (row_item deck.now x.now i) result }
    ensures width { A.width arith.new ≡ A.width arith.old }
    ensures unfit { A.unfit_count arith.new ≡ unfit_after (A.unfit_count arith.old) result }
{
    let activity = activity_of(deck, x, ahead, i, arith)?;
    lies_within(deck, i, activity, arith)
}

// Whether an activity lies within its row's interval.
fn lies_within<A: Arith>(
    deck: &Deck,
    i: usize,
    activity: Frac,
    arith: &mut A,
) -> Result<bool, Unfit>
    requires { i < length deck.now.rows }
    ensures settled { Settles (A.width arith.old) (within_interval (row_at deck.now i) activity) result }
    ensures width { A.width arith.new ≡ A.width arith.old }
    ensures unfit { A.unfit_count arith.new ≡ unfit_after (A.unfit_count arith.old) result }
{
    let ends = activity_ends(deck, i, arith)?;
    Ok(ends.contains(activity))
}

/// The stated objective is that of the point.
pub(crate) fn stated_objective<A: Arith>(
    deck: &Deck,
    x: &[Frac],
    stated: Frac,
    arith: &mut A,
) -> Result<bool, Unfit>
    requires { length x.now ≡ length deck.now.columns }
    ensures settled { Settles (A.width arith.old) (objective_item deck.now x.now stated) result }
    ensures width { A.width arith.new ≡ A.width arith.old }
    ensures unfit { A.unfit_count arith.new ≡ unfit_after (A.unfit_count arith.old) result }
{
    let value = objective(deck, x, arith)?;
    Ok(value == stated)
}

/// The reduced cost of a column is on the side of 0 that its value allows.
pub(crate) fn reduced_cost<A: Arith>(
    deck: &Deck,
    x: &[Frac],
    y: &[Frac],
    j: usize,
    arith: &mut A,
) -> Result<bool, Unfit>
    requires column { j < length deck.now.columns }
    requires columns { length x.now ≡ length deck.now.columns }
    requires rows { length y.now ≡ length deck.now.rows }
    ensures settled { Settles (A.width arith.old) (reduced_item deck.now x.now y.now j) result }
    ensures width { A.width arith.new ≡ A.width arith.old }
    ensures unfit { A.unfit_count arith.new ≡ unfit_after (A.unfit_count arith.old) result }
{
    let cost = reduced(deck, y, j, arith)?;
    let ends = column_ends(deck, j);
    let value = x[j];
    let lower = is_at_end(ends.lower(), value);
    let upper = is_at_end(ends.upper(), value);
    Ok(allows(in_sense(deck.sense(), cost), lower, upper))
}

/// The price of a row is on the side of 0 that its activity allows.
pub(crate) fn price<A: Arith>(
    deck: &Deck,
    x: &[Frac],
    y: &[Frac],
    ahead: &[Frac],
    i: usize,
    arith: &mut A,
) -> Result<bool, Unfit>
    requires row { i < length deck.now.rows }
    requires columns { length x.now ≡ length deck.now.columns }
    requires rows { length y.now ≡ length deck.now.rows }
    requires ahead { IsAhead (A.width arith.old) deck.now x.now ahead.now }
    ensures settled { Settles (A.width arith.old) (price_item deck.now x.now y.now i) result }
    ensures width { A.width arith.new ≡ A.width arith.old }
    ensures unfit { A.unfit_count arith.new ≡ unfit_after (A.unfit_count arith.old) result }
{
    let activity = activity_of(deck, x, ahead, i, arith)?;
    let price = in_sense(deck.sense(), y[i]);
    allows_price(deck, i, price, activity, arith)
}

// Whether an activity allows a price, as the sense counts it.
fn allows_price<A: Arith>(
    deck: &Deck,
    i: usize,
    price: Frac,
    activity: Frac,
    arith: &mut A,
) -> Result<bool, Unfit>
    requires { i < length deck.now.rows }
    ensures settled { Settles (A.width arith.old) (priced_by (row_at deck.now i) price activity) result }
    ensures width { A.width arith.new ≡ A.width arith.old }
    ensures unfit { A.unfit_count arith.new ≡ unfit_after (A.unfit_count arith.old) result }
{
    let ends = activity_ends(deck, i, arith)?;
    let lower = is_at_end(ends.lower(), activity);
    let upper = is_at_end(ends.upper(), activity);
    Ok(allows(price, lower, upper))
}

/// The greatest contribution of a column is finite.
pub(crate) fn endless_column<A: Arith>(
    deck: &Deck,
    y: &[Frac],
    j: usize,
    arith: &mut A,
) -> Result<bool, Unfit>
    requires column { j < length deck.now.columns }
    requires rows { length y.now ≡ length deck.now.rows }
    ensures settled { Settles (A.width arith.old) (endless_column_item deck.now y.now j) result }
    ensures width { A.width arith.new ≡ A.width arith.old }
    ensures unfit { A.unfit_count arith.new ≡ unfit_after (A.unfit_count arith.old) result }
{
    let part = column_part(deck, y, j, arith)?;
    Ok(part.is_some())
}

/// The greatest contribution of the logical of a row is finite.
pub(crate) fn endless_row<A: Arith>(
    deck: &Deck,
    y: &[Frac],
    i: usize,
    arith: &mut A,
) -> Result<bool, Unfit>
    requires row { i < length deck.now.rows }
    requires rows { length y.now ≡ length deck.now.rows }
    ensures settled { Settles (A.width arith.old) (endless_row_item deck.now y.now i) result }
    ensures width { A.width arith.new ≡ A.width arith.old }
    ensures unfit { A.unfit_count arith.new ≡ unfit_after (A.unfit_count arith.old) result }
{
    let part = logical_part(deck, y, i, arith)?;
    Ok(part.is_some())
}

/// All greatest contributions together are less than the combination of the right sides.
pub(crate) fn gap<A: Arith>(deck: &Deck, y: &[Frac], arith: &mut A) -> Result<bool, Unfit>
    requires { length y.now ≡ length deck.now.rows }
    ensures settled { Settles (A.width arith.old) (gap_item deck.now y.now) result }
    ensures width { A.width arith.new ≡ A.width arith.old }
    ensures unfit { A.unfit_count arith.new ≡ unfit_after (A.unfit_count arith.old) result }
{
    let most = all_parts(deck, y, arith)?;
    is_exceeded(deck, y, most, arith)
}

// Whether the combination of the right sides is greater than a number.
fn is_exceeded<A: Arith>(deck: &Deck, y: &[Frac], most: Frac, arith: &mut A) -> Result<bool, Unfit>
    requires { length y.now ≡ length deck.now.rows }
    ensures settled { Settles (A.width arith.old) (exceeded deck.now y.now most) result }
    ensures width { A.width arith.new ≡ A.width arith.old }
    ensures unfit { A.unfit_count arith.new ≡ unfit_after (A.unfit_count arith.old) result }
{
    let right = right_side(deck, y, arith)?;
    Ok(is_less(most, right))
}

// Whether one number is less than another.
#[tactic(auto, using(crate::proofs::Tests::less))]
fn is_less(a: Frac, b: Frac) -> bool
    ensures { result ≡ lt_ℚ a b }
{
    a < b
}

/// A column's item of a ray fits, and is on a side of 0 on which the column has no end.
pub(crate) fn ray_column<A: Arith>(
    deck: &Deck,
    ray: &[Frac],
    j: usize,
    arith: &mut A,
) -> Result<bool, Unfit>
    requires column { j < length deck.now.columns }
    requires given { length ray.now ≡ length deck.now.columns }
    ensures settled { Settles (A.width arith.old) (ray_column_item deck.now ray.now j) result }
    ensures width { A.width arith.new ≡ A.width arith.old }
    ensures unfit { A.unfit_count arith.new ≡ unfit_after (A.unfit_count arith.old) result }
{
    let item = arith.fit(ray[j])?;
    let ends = column_ends(deck, j);
    Ok(allows(item, ends.upper().is_none(), ends.lower().is_none()))
}

/// The activity of a ray is on a side of 0 on which the row's interval has no end.
pub(crate) fn ray_row<A: Arith>(
    deck: &Deck,
    ray: &[Frac],
    ahead: &[Frac],
    i: usize,
    arith: &mut A,
) -> Result<bool, Unfit>
    requires row { i < length deck.now.rows }
    requires given { length ray.now ≡ length deck.now.columns }
    requires ahead { IsAhead (A.width arith.old) deck.now ray.now ahead.now }
    ensures settled { Settles (A.width arith.old) (ray_row_item deck.now ray.now i) result }
    ensures width { A.width arith.new ≡ A.width arith.old }
    ensures unfit { A.unfit_count arith.new ≡ unfit_after (A.unfit_count arith.old) result }
{
    let activity = activity_of(deck, ray, ahead, i, arith)?;
    Ok(allows(activity, is_open_above(deck, i), is_open_below(deck, i)))
}

/// The cost gets better along a ray.
#[tactic(auto, using(exact_frac::specs::Constants::constants))]
pub(crate) fn ray_cost<A: Arith>(deck: &Deck, ray: &[Frac], arith: &mut A) -> Result<bool, Unfit>
    requires { length ray.now ≡ length deck.now.columns }
    ensures settled { Settles (A.width arith.old) (ray_cost_item deck.now ray.now) result }
    ensures width { A.width arith.new ≡ A.width arith.old }
    ensures unfit { A.unfit_count arith.new ≡ unfit_after (A.unfit_count arith.old) result }
{
    let cost = costs(deck, Frac::ZERO, ray, arith)?;
    Ok(in_sense(deck.sense(), cost) < Frac::ZERO)
}
