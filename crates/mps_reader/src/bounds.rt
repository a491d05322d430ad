// Cards of the bounds.
ghost use Rattle.std.specs.Prelude.{◌≡◌, ◌≢◌, ◌&&◌, ◌||◌, MatchResult, None, Ok, not, if◌then◌else◌};
ghost use Rattle.rational.specs.Rational.{lt_ℚ, zero_ℚ};
ghost use Rattle.deck_model.specs.End.{finite_end};
ghost use Rattle.mps_model.specs.DeckSoFar.{DeckSoFar};
ghost use Rattle.mps_model.specs.BoundCards.{bound_number, bounds_after, has_number, infinity, is_wrong_infinity, judge_bound, kind_of, lower_end, sets_lower, upper_end};
ghost use Rattle.mps_model.specs.DeckOf.{is_crossed};
ghost use Rattle.mps_reader.specs.Inner.Refusals.{line_fault};
ghost use Rattle.mps_reader.specs.Inner.Standing.{IsFound, Judged, IsDraftOf, interval_of};

use crate::draft::Draft;
use crate::fields::CardFields;
use crate::refusal::Refusal;
use deck_model::{End, Name};
use exact_frac::Frac;
use lp_text::LineFault;
use mps_model::BoundKind;
use number_fields::field;
use std::alloc::Global;

// The bounds of a column, absent ends being infinite, and whether a bound has set the lower one.
#[derive(Clone, Copy, Debug, PartialEq, Eq)]
pub(crate) struct Ends {
    lower: Option<Frac>,
    upper: Option<Frac>,
    is_lowered: bool,
}

// The number from which on numbers are infinite, 10^30.
fn infinity() -> Frac
    ensures { result ≡ infinity }
{
    Frac::of(1_000_000_000_000_000_000_000_000_000_000, 1)
}

// An upper end at the number, absent where that is infinite.
fn below_infinity(value: Frac) -> Option<Frac>
    ensures { result ≡ upper_end value }
{
    if infinity() <= value {
        None
    } else {
        Some(value)
    }
}

// A lower end at the number, absent where that is infinite.
fn above_infinity(value: Frac) -> Option<Frac>
    ensures { result ≡ lower_end value }
{
    if value <= infinity().negated() {
        None
    } else {
        Some(value)
    }
}

// The kind of a word.
#[tactic(auto, using(crate::proofs::BoundWords::no_kind))]
pub(crate) fn kind_of(word: &[u8]) -> Result<BoundKind, Refusal>
    ensures { MatchResult result (λ kind. kind_of word.now ≡ Ok kind) (λ refusal. IsFound (kind_of word.now) (line_fault refusal)) }
{
    match word {
        b"UP" => Ok(BoundKind::Upper),
        b"LO" => Ok(BoundKind::Lower),
        b"FX" => Ok(BoundKind::Fixed),
        b"FR" => Ok(BoundKind::Free),
        b"MI" => Ok(BoundKind::Minus),
        b"PL" => Ok(BoundKind::Plus),
        b"BV" | b"LI" | b"UI" | b"SC" => Err(Refusal::Fault(LineFault::Integer)),
        _ => Err(Refusal::Fault(LineFault::Bound)),
    }
}

// Whether a bound of the kind has a number.
pub(crate) fn has_number(kind: BoundKind) -> bool
    ensures { result ≡ has_number kind }
{
    matches!(kind, BoundKind::Upper | BoundKind::Lower | BoundKind::Fixed)
}

// Whether a bound of the kind sets the lower end.
fn sets_lower(kind: BoundKind) -> bool
    ensures { result ≡ sets_lower kind }
{
    matches!(
        kind,
        BoundKind::Lower | BoundKind::Fixed | BoundKind::Free | BoundKind::Minus
    )
}

// Whether the number is an infinity that the kind does not admit.
fn is_wrong_infinity(kind: BoundKind, value: Frac) -> bool
    ensures { result ≡ is_wrong_infinity kind value }
{
    match kind {
        BoundKind::Upper => value <= infinity().negated(),
        BoundKind::Lower => infinity() <= value,
        BoundKind::Fixed => value <= infinity().negated() || infinity() <= value,
        BoundKind::Free | BoundKind::Minus | BoundKind::Plus => false,
    }
}

// The number of a bound; a kind without one leaves the field unread.
#[tactic(auto, using(exact_frac::specs::Constants::constants))]
fn bound_number(kind: BoundKind, text: &[u8]) -> Result<Frac, Refusal>
    ensures { MatchResult result (λ value. bound_number kind text.now ≡ Ok value) (λ refusal. IsFound (bound_number kind text.now) (line_fault refusal)) }
{
    if !has_number(kind) {
        return Ok(Frac::ZERO);
    }
    let Ok(value) = field(text) else {
        return Err(Refusal::Fault(LineFault::Number));
    };
    if is_wrong_infinity(kind, value) {
        return Err(Refusal::Fault(LineFault::Bound));
    }
    Ok(value)
}

impl Ends {
    // The ends of a column that no bound has named: 0 and ∞.
    pub(crate) const NONNEGATIVE: Ends = Ends {
        lower: Some(Frac::ZERO),
        upper: None,
        is_lowered: false,
    };

    // The lower end below an upper end that is set to the number: one below 0 takes away a lower end that no bound has set.
    #[tactic(auto, using(exact_frac::specs::Constants::constants))]
    fn lower_below(self, value: Frac) -> Option<Frac>
        ensures { result ≡ (if lt_ℚ value zero_ℚ && not self.is_lowered then None else self.lower) }
    {
        if value < Frac::ZERO && !self.is_lowered {
            None
        } else {
            self.lower
        }
    }

    // The ends after a bound of the kind with the number.
    fn after(self, kind: BoundKind, value: Frac) -> Ends
        ensures bounds { interval_of result ≡ bounds_after kind value self.is_lowered (interval_of self) }
        ensures lowered { result.is_lowered ≡ (sets_lower kind || self.is_lowered) }
    {
        let (lower, upper) = match kind {
            BoundKind::Upper => (self.lower_below(value), below_infinity(value)),
            BoundKind::Lower => (above_infinity(value), self.upper),
            BoundKind::Fixed => (Some(value), Some(value)),
            BoundKind::Free => (None, None),
            BoundKind::Minus => (None, self.upper),
            BoundKind::Plus => (self.lower, None),
        };
        Ends {
            lower,
            upper,
            is_lowered: sets_lower(kind) || self.is_lowered,
        }
    }

    // Whether the lower end is above the upper one.
    pub(crate) fn are_crossed(self) -> bool
        ensures { result ≡ is_crossed (interval_of self) }
    {
        match (self.lower, self.upper) {
            (Some(lower), Some(upper)) => upper < lower,
            _ => false,
        }
    }

    // The lower end as a deck has it.
    pub(crate) fn lower_end(self) -> End
        ensures end { finite_end result ≡ self.lower }
        ensures not_plus { result ≢ End.Plus }
    {
        self.lower.map_or(End::Minus, End::At)
    }

    // The upper end as a deck has it.
    pub(crate) fn upper_end(self) -> End
        ensures end { finite_end result ≡ self.upper }
        ensures not_minus { result ≢ End.Minus }
    {
        self.upper.map_or(End::Plus, End::At)
    }
}

impl Draft {
    // Takes a bound.
    pub(crate) fn take_bound(&mut self, alloc: Global, fields: &CardFields) -> Result<(), Refusal>
        requires { (s : DeckSoFar) × IsDraftOf self.old s }
        ensures { (s : DeckSoFar) → IsDraftOf self.old s → Judged (judge_bound s fields.now) self.new result }
    {
        let kind = kind_of(fields.get(1))?;
        let name = Name::of(alloc, fields.get(3))?;
        let Some(column) = self.deck.find_column(&name) else {
            return Err(Refusal::Fault(LineFault::UnknownColumn));
        };
        let value = bound_number(kind, fields.get(4))?;
        self.bounds[column] = self.bounds[column].after(kind, value);
        Ok(())
    }
}
