//! The ends of columns, of activities and of logicals.
ghost use Rattle.std.specs.Prelude.{◌≡◌, ◌<◌, ◌↔◌, Bool, IsTrue, Some, None, length};
ghost use Rattle.std.specs.Option.{is_none};
ghost use Rattle.deck_model.specs.End.{finite_end};
ghost use Rattle.exact_frac.specs.Count.{unfit_after};
ghost use Rattle.exact_frac.specs.Settles.{Settles};
ghost use Rattle.lp_model.specs.Deck.{activity_interval, activity_interval_of, column as column_at, in_sense, logical_bounds, logical_bounds_of, row as row_at};
ghost use Rattle.rational.specs.Rational.{abs_ℚ};
ghost use Rattle.cert_check.specs.Inner.Groups.{span_above, span_below};
ghost use Rattle.cert_check.specs.Items.{allows, is_at_end, is_not_above, is_not_below, is_within};
ghost use Rattle.cert_check.specs.Sums.{interval_of, interval_sum};

use deck_model::{Deck, End, RowKind};
use exact_frac::{Arith, Frac, Unfit};
use lp_model::Sense;
use std::cmp::Ordering;
use std::marker::Model;

/// The numbers from a lower to an upper end; an absent end is infinite.
#[derive(Clone, Copy)]
pub(crate) struct Ends {
    lower: Option<Frac>,
    upper: Option<Frac>,
}

impl Model for Ends {
    ghost use Rattle.lp_model.specs.Deck.{Interval};

    ghost Value = { Interval };

    ghost view = { λ ends. record { lower = ends.lower; upper = ends.upper } };

    ghost inverse = { λ i. record { lower = i.lower; upper = i.upper } };
}

impl Ends {
    /// The interval with these ends.
    pub(crate) fn new(lower: Option<Frac>, upper: Option<Frac>) -> Ends
        ensures { result ≡ record { lower = lower; upper = upper } }
    {
        Ends { lower, upper }
    }

    /// The lower end, where it is finite.
    pub(crate) fn lower(self) -> Option<Frac>
        ensures { result ≡ self.lower }
    {
        self.lower
    }

    /// The upper end, where it is finite.
    pub(crate) fn upper(self) -> Option<Frac>
        ensures { result ≡ self.upper }
    {
        self.upper
    }

    /// Whether a number lies within.
    pub(crate) fn contains(self, x: Frac) -> bool
        ensures { result ≡ is_within self x }
    {
        is_not_below(self.lower(), x) && is_not_above(self.upper(), x)
    }
}

// Whether a number is not below a lower end.
fn is_not_below(lower: Option<Frac>, x: Frac) -> bool
    ensures { result ≡ is_not_below lower x }
{
    match lower {
        None => true,
        Some(end) => end <= x,
    }
}

// Whether a number is not above an upper end.
fn is_not_above(upper: Option<Frac>, x: Frac) -> bool
    ensures { result ≡ is_not_above upper x }
{
    match upper {
        None => true,
        Some(end) => x <= end,
    }
}

/// Whether a number is at a finite end.
pub(crate) fn is_at_end(end: Option<Frac>, x: Frac) -> bool
    ensures { result ≡ is_at_end end x }
{
    match end {
        None => false,
        Some(end) => end == x,
    }
}

/// Whether a number may be: above 0 only where `above` says so, and below 0 only where `below` does.
#[tactic(auto, using(exact_frac::specs::Constants::constants))]
pub(crate) fn allows(c: Frac, above: bool, below: bool) -> bool
    ensures { result ≡ allows c above below }
{
    match c.cmp(&Frac::ZERO) {
        Ordering::Less => below,
        Ordering::Equal => true,
        Ordering::Greater => above,
    }
}

/// A number as the sense counts it.
pub(crate) fn in_sense(sense: Sense, v: Frac) -> Frac
    ensures { result ≡ in_sense sense v }
{
    match sense {
        Sense::Min => v,
        Sense::Max => v.negated(),
    }
}

/// The bounds of a column.
pub(crate) fn column_ends(deck: &Deck, column: usize) -> Ends
    requires { column < length deck.now.columns }
    ensures { result ≡ (column_at deck.now column).bounds }
{
    let (lower, upper) = deck.bounds(column);
    Ends::new(finite(lower), finite(upper))
}

// The number of an end, where it has one.
fn finite(end: End) -> Option<Frac>
    ensures { result ≡ finite_end end }
{
    match end {
        End::At(value) => Some(value),
        End::Minus | End::Plus => None,
    }
}

/// The bounds of the logical of a row.
pub(crate) fn logical_ends(deck: &Deck, row: usize) -> Ends
    requires { row < length deck.now.rows }
    ensures { result ≡ logical_bounds (row_at deck.now row) }
{
    slack(deck.row_kind(row), deck.range(row))
}

// The bounds of the logical of a row of that kind and range.
#[tactic(auto, using(exact_frac::specs::Constants::constants))]
fn slack(kind: RowKind, range: Option<Frac>) -> Ends
    ensures { result ≡ logical_bounds_of kind range }
{
    match (kind, range) {
        (RowKind::L, None) => Ends::new(Some(Frac::ZERO), None),
        (RowKind::L, Some(range)) => Ends::new(Some(Frac::ZERO), Some(size(range))),
        (RowKind::G, None) => Ends::new(None, Some(Frac::ZERO)),
        (RowKind::G, Some(range)) => Ends::new(Some(size(range).negated()), Some(Frac::ZERO)),
        (RowKind::E, None) => Ends::new(Some(Frac::ZERO), Some(Frac::ZERO)),
        (RowKind::E, Some(range)) => match range.cmp(&Frac::ZERO) {
            Ordering::Less => Ends::new(Some(Frac::ZERO), Some(size(range))),
            Ordering::Equal => Ends::new(Some(Frac::ZERO), Some(Frac::ZERO)),
            Ordering::Greater => Ends::new(Some(range.negated()), Some(Frac::ZERO)),
        },
    }
}

/// Whether the interval of a row's activity has no upper end.
pub(crate) fn is_open_above(deck: &Deck, row: usize) -> bool
    requires { row < length deck.now.rows }
    ensures { result ≡ is_none (activity_interval (row_at deck.now row)).upper }
{
    deck.row_kind(row) == RowKind::G && deck.range(row).is_none()
}

/// Whether the interval of a row's activity has no lower end.
pub(crate) fn is_open_below(deck: &Deck, row: usize) -> bool
    requires { row < length deck.now.rows }
    ensures { result ≡ is_none (activity_interval (row_at deck.now row)).lower }
{
    deck.row_kind(row) == RowKind::L && deck.range(row).is_none()
}

/// The interval of a row's activity; the end that its range gives is worked.
pub(crate) fn activity_ends<A: Arith>(deck: &Deck, row: usize, arith: &mut A) -> Result<Ends, Unfit>
    requires { row < length deck.now.rows }
    ensures settled { Settles (A.width arith.old) (interval_sum (row_at deck.now row)) result }
    ensures width { A.width arith.new ≡ A.width arith.old }
    ensures unfit { A.unfit_count arith.new ≡ unfit_after (A.unfit_count arith.old) result }
{
    let kind = deck.row_kind(row);
    let right = deck.right(row);
    let range = deck.range(row);
    interval(kind, right, range, arith)
}

// The interval of an activity, by the kind, the right side and the range of its row.
#[tactic(auto, using(exact_frac::specs::Constants::constants))]
fn interval<A: Arith>(
    kind: RowKind,
    right: Frac,
    range: Option<Frac>,
    arith: &mut A,
) -> Result<Ends, Unfit>
    ensures settled { Settles (A.width arith.old) (interval_of kind right range) result }
    ensures width { A.width arith.new ≡ A.width arith.old }
    ensures unfit { A.unfit_count arith.new ≡ unfit_after (A.unfit_count arith.old) result }
{
    match (kind, range) {
        (RowKind::L, None) => Ok(Ends::new(None, Some(right))),
        (RowKind::L, Some(range)) => span_below(right, size(range), arith),
        (RowKind::G, None) => Ok(Ends::new(Some(right), None)),
        (RowKind::G, Some(range)) => span_above(right, size(range), arith),
        (RowKind::E, None) => Ok(Ends::new(Some(right), Some(right))),
        (RowKind::E, Some(range)) => match range.cmp(&Frac::ZERO) {
            Ordering::Less => span_below(right, size(range), arith),
            Ordering::Equal => Ok(Ends::new(Some(right), Some(right))),
            Ordering::Greater => span_above(right, range, arith),
        },
    }
}

// The interval from so far below a number up to it.
fn span_below<A: Arith>(b: Frac, r: Frac, arith: &mut A) -> Result<Ends, Unfit>
    ensures settled { Settles (A.width arith.old) (span_below b r) result }
    ensures width { A.width arith.new ≡ A.width arith.old }
    ensures unfit { A.unfit_count arith.new ≡ unfit_after (A.unfit_count arith.old) result }
{
    let lower = arith.sub(b, r)?;
    Ok(Ends::new(Some(lower), Some(b)))
}

// The interval from a number to so far above it.
fn span_above<A: Arith>(b: Frac, r: Frac, arith: &mut A) -> Result<Ends, Unfit>
    ensures settled { Settles (A.width arith.old) (span_above b r) result }
    ensures width { A.width arith.new ≡ A.width arith.old }
    ensures unfit { A.unfit_count arith.new ≡ unfit_after (A.unfit_count arith.old) result }
{
    let upper = arith.add(b, r)?;
    Ok(Ends::new(Some(b), Some(upper)))
}

// The size of a fraction.
#[tactic(auto, using(exact_frac::specs::Constants::constants))]
fn size(a: Frac) -> Frac
    ensures { result ≡ abs_ℚ a }
{
    match a.cmp(&Frac::ZERO) {
        Ordering::Less => a.negated(),
        Ordering::Equal => a,
        Ordering::Greater => a,
    }
}
