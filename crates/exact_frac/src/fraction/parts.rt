// A fraction as its sign, its size and its denominator, on which sums and products work.
ghost use Rattle.std.specs.Prelude.{◌≡◌, ◌<◌, ◌≤◌, ◌↔◌, IsTrue};
ghost use Rattle.exact_frac.specs.Parts.{AreLowest, Splits};

use crate::fraction::Frac;
use crate::magnitude::signed;

/// The sign, the size and the denominator of a fraction in lowest terms.
#[derive(Clone, Copy)]
pub struct Parts {
    pub negative: bool,
    pub size: u128,
    pub denom: u128,
}

impl Parts {
    /// Whether these are the parts of -1, 0 or 1.
    pub fn is_unit(self) -> bool
        ensures { IsTrue result ↔ ((self.denom ≡ 1) × (self.size ≤ 1)) }
    {
        self.denom == 1 && self.size <= 1
    }
}

impl Frac {
    /// The parts of this fraction.
    pub(crate) fn parts(self) -> Parts
        ensures splits { Splits self result.negative result.size result.denom }
        ensures below { IsTrue result.negative → 0 < result.size }
    {
        Parts {
            negative: self.numer < 0,
            size: self.numer.unsigned_abs(),
            denom: self.denom,
        }
    }

    /// The fraction of these parts.
    pub(crate) fn from_parts(parts: Parts) -> Frac
        requires { AreLowest parts.size parts.denom }
        ensures { Splits result parts.negative parts.size parts.denom }
    {
        Frac {
            numer: signed(parts.negative, parts.size),
            denom: parts.denom,
        }
    }
}
