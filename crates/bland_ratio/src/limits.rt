//! The limits of a step, and which of two comes first.
ghost use Rattle.std.specs.Prelude.{◌≡◌, ℕ, MatchBool, Some};
ghost use Rattle.std.specs.Option.{option_map};
ghost use Rattle.lp_run.specs.Step.{NotAfter};
ghost use Rattle.bland_ratio.specs.Inner.Limits.{IsEarlier, limit_of};

use exact_frac::Frac;
use lp_model::Side;
use std::cmp::Ordering;

/// A limit of a step: the ratio at which it comes and the column that meets its end. A column that leaves has its
/// position and that end; the entering column has none.
#[derive(Debug, Drop)]
pub struct Limit {
    pub ratio: Frac,
    pub column: usize,
    pub out: Option<(u32, Side)>,
}

/// The limit that comes first, where there are two: by the ratio, and at equal ratios by the column.
pub fn earlier(a: Option<Limit>, b: Option<Limit>) -> Option<Limit>
    ensures { (q : ℕ) → IsEarlier (option_map (limit_of q) a) (option_map (limit_of q) b) (option_map (limit_of q) result) }
{
    match a {
        None => b,
        Some(a) => Some(first_of(a, b)),
    }
}

// The one of two limits that comes first, where there is a second.
fn first_of(a: Limit, b: Option<Limit>) -> Limit
    ensures { (q : ℕ) → IsEarlier (Some (limit_of q a)) (option_map (limit_of q) b) (Some (limit_of q result)) }
{
    match b {
        None => a,
        Some(b) => { if precedes(&a, &b) { a } else { b } }
    }
}

// Whether the first of two limits does not come after the second; else the second does not come after the first.
fn precedes(a: &Limit, b: &Limit) -> bool
    ensures { (q : ℕ) → MatchBool result (NotAfter (limit_of q a.now) (limit_of q b.now)) (NotAfter (limit_of q b.now) (limit_of q a.now)) }
{
    match a.ratio.cmp(&b.ratio) {
        Ordering::Less => true,
        Ordering::Equal => a.column <= b.column,
        Ordering::Greater => false,
    }
}
