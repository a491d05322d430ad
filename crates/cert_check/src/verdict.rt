//! Rules, verdicts and refusals.

ghost use Rattle.std.specs.Prelude.{◌≡◌};

use std::alloc::AllocError;
use thiserror::Error;

/// A rule of the checker, with its column or its row.
#[derive(Clone, Copy, Debug, PartialEq, Eq)]
pub enum Rule {
    /// The value of a column lies within its bounds.
    Column(u32),
    /// The activity of a row lies within its interval.
    Row(u32),
    /// The stated objective is that of the point.
    Objective,
    /// The reduced cost of a column is above 0 only at its lower end, and below 0 only at its upper end.
    Reduced(u32),
    /// The price of a row is above 0 only where its activity is the lower end of its interval, and below 0 only where it is
    /// the upper end.
    Price(u32),
    /// The greatest contribution of a column to a row combination is finite.
    EndlessColumn(u32),
    /// The greatest contribution of a row's logical to a row combination is finite.
    EndlessRow(u32),
    /// All greatest contributions together are less than the combination of the right sides.
    Gap,
    /// A column's item of a ray is above 0 only without an upper end, and below 0 only without a lower end.
    RayColumn(u32),
    /// A row's activity along a ray is above 0 only without an upper end of its interval, and below 0 only without a lower
    /// one.
    RayRow(u32),
    /// The cost gets better along a ray.
    RayCost,
    /// No column stands in two positions of a basis, and none that is told at its upper end is basic.
    Basis,
    /// The value of a column that is not basic is the end at which the basis tells it to stand.
    Rest(u32),
    /// The reduced cost of a basic column, or its combination by a Farkas row, is 0.
    Basic(u32),
}

/// What the checker says of an outcome.
#[derive(Clone, Copy, Debug, PartialEq, Eq)]
pub enum Verdict {
    /// Each item holds.
    Yes,
    /// The rule of the first item that does not hold.
    No(Rule),
}

/// Why the checker says nothing of an outcome.
#[derive(Clone, Copy, Debug, PartialEq, Eq, Error)]
pub enum CheckFault {
    /// The allocator had no memory left.
    #[error("out of memory")]
    Memory,
    /// A value that is worked for this rule does not fit the width of the arithmetic, and each item before it holds.
    #[error("a sum does not fit")]
    Overflow(Rule),
}

/// Why an item stops the walk.
#[derive(Clone, Copy, Debug)]
pub(crate) enum Stop {
    /// It does not hold.
    Broken(Rule),
    /// A value that is worked for it does not fit.
    Unfit(Rule),
}

impl From<AllocError> for CheckFault {
    ghost use Rattle.cert_check.specs.declared.verdict.CheckFault.{CheckFault};

    ghost from_gives = { λ _ fault. fault ≡ CheckFault.Memory };

    fn from(_refusal: AllocError) -> CheckFault {
        CheckFault::Memory
    }
}
