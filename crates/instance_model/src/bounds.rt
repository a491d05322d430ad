//! The bounds of a column.
ghost use Rattle.std.specs.Prelude.{◌≡◌, ◌↔◌, IsTrue};
ghost use Rattle.lp_run.specs.Instance.{is_above, is_below, passed_end, start_value};
ghost use Rattle.lp_run.specs.Step.{is_fixed};

use exact_frac::Frac;
use lp_model::Side;
use std::marker::Model;

/// The numbers from a lower to an upper end, each of which may be infinite.
#[derive(Clone, Copy, Debug)]
pub struct Bounds {
    lower: Option<Frac>,
    upper: Option<Frac>,
}

impl Model for Bounds {
    ghost use Rattle.lp_model.specs.Deck.{Interval};

    ghost Value = { Interval };

    ghost view = { λ b. record { lower = b.lower; upper = b.upper } };

    ghost inverse = { λ i. record { lower = i.lower; upper = i.upper } };
}

impl Bounds {
    /// The bounds with these ends; an absent end is infinite.
    pub fn new(lower: Option<Frac>, upper: Option<Frac>) -> Bounds
        ensures { result ≡ record { lower = lower; upper = upper } }
    {
        Bounds { lower, upper }
    }

    /// The lower end, where it is finite.
    pub fn lower(&self) -> Option<Frac>
        ensures { result ≡ self.now.lower }
    {
        self.lower
    }

    /// The upper end, where it is finite.
    pub fn upper(&self) -> Option<Frac>
        ensures { result ≡ self.now.upper }
    {
        self.upper
    }

    /// Whether both ends are finite and equal.
    pub fn is_fixed(&self) -> bool
        ensures { result ≡ is_fixed self.now }
    {
        match (self.lower, self.upper) {
            (Some(lower), Some(upper)) => lower == upper,
            _ => false,
        }
    }

    /// Where a column within these bounds starts: at the finite lower end, else at the finite upper end, else at 0.
    #[tactic(auto, using(exact_frac::specs::Constants::constants))]
    pub fn start_value(&self) -> Frac
        ensures { result ≡ start_value self.now }
    {
        match (self.lower, self.upper) {
            (Some(lower), _) => lower,
            (None, Some(upper)) => upper,
            (None, None) => Frac::ZERO,
        }
    }

    /// The end that a number passes, where it passes one.
    pub fn passed_end(&self, x: Frac) -> Option<(Side, Frac)>
        ensures { result ≡ passed_end self.now x }
    {
        if self.is_below(x) {
            self.lower.map(|end| (Side::Lower, end))
        } else if self.is_above(x) {
            self.upper.map(|end| (Side::Upper, end))
        } else {
            None
        }
    }

    // Whether a number is below the lower end.
    fn is_below(&self, x: Frac) -> bool
        ensures { result ≡ is_below self.now.lower x }
    {
        match self.lower {
            Some(lower) => x < lower,
            None => false,
        }
    }

    // Whether a number is above the upper end.
    fn is_above(&self, x: Frac) -> bool
        ensures { result ≡ is_above self.now.upper x }
    {
        match self.upper {
            Some(upper) => upper < x,
            None => false,
        }
    }
}
