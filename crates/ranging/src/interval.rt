//! Intervals of changes.
ghost use Rattle.std.specs.Prelude.{◌≡◌};
ghost use Rattle.ranging.specs.Inner.Limits.{counted, greater_end, lesser_end, limit_by, meet};
ghost use Rattle.ranging.specs.Ranges.{everything};
ghost use Rattle.rational.specs.Rational.{neg_ℚ};
ghost use Rattle.std.specs.Option.{option_map};

use exact_frac::Frac;
use instance_model::Bounds;
use lp_model::{Sense, Status};
use std::cmp::Ordering;

/// All numbers.
pub fn everything() -> Bounds
    ensures { result ≡ everything }
{
    Bounds::new(None, None)
}

/// The changes by which a column of that status does not come to improve: its reduced cost falls by the change times a
/// number of that sign, and `quotient` is the reduced cost over that number.
pub fn limit_by(status: Status, sign: Ordering, quotient: Frac) -> Bounds
    ensures { result ≡ limit_by status sign quotient }
{
    match (status, sign) {
        (Status::Lower, Ordering::Less) => Bounds::new(Some(quotient), None),
        (Status::Lower, Ordering::Greater) => Bounds::new(None, Some(quotient)),
        (Status::Upper, Ordering::Less) => Bounds::new(None, Some(quotient)),
        (Status::Upper, Ordering::Greater) => Bounds::new(Some(quotient), None),
        (Status::Zero, Ordering::Less) => Bounds::new(Some(quotient), Some(quotient)),
        (Status::Zero, Ordering::Greater) => Bounds::new(Some(quotient), Some(quotient)),
        _ => everything(),
    }
}

/// The numbers that two intervals have in common.
pub fn meet(a: Bounds, b: Bounds) -> Bounds
    ensures { result ≡ meet a b }
{
    Bounds::new(
        greater_end(a.lower(), b.lower()),
        lesser_end(a.upper(), b.upper()),
    )
}

/// The numbers that the sense counts as those of the interval: themselves, or their negatives where the greatest is sought.
pub fn counted(sense: Sense, limits: Bounds) -> Bounds
    ensures { result ≡ counted sense limits }
{
    match sense {
        Sense::Min => limits,
        Sense::Max => Bounds::new(negated(limits.upper()), negated(limits.lower())),
    }
}

// The negative of a number, where there is one.
fn negated(end: Option<Frac>) -> Option<Frac>
    ensures { result ≡ option_map neg_ℚ end }
{
    match end {
        Some(end) => Some(end.negated()),
        None => None,
    }
}

// The greater of two lower ends.
fn greater_end(a: Option<Frac>, b: Option<Frac>) -> Option<Frac>
    ensures { result ≡ greater_end a b }
{
    match (a, b) {
        (None, _) => b,
        (Some(_), None) => a,
        (Some(x), Some(y)) => { if x < y { b } else { a } }
    }
}

// The lesser of two upper ends.
fn lesser_end(a: Option<Frac>, b: Option<Frac>) -> Option<Frac>
    ensures { result ≡ lesser_end a b }
{
    match (a, b) {
        (None, _) => b,
        (Some(_), None) => a,
        (Some(x), Some(y)) => { if y < x { b } else { a } }
    }
}
