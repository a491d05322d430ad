// The type `Frac` and its methods.
ghost use Rattle.std.specs.Prelude.{◌≡◌, ◌^◌, ◌<◌, ◌≤◌, pos, ◌<ℤ◌, nat_abs, unsigned_abs, IsTrue, ◌↔◌, FitsSigned, neg_ℤ};
ghost use Rattle.rational.specs.Rational.{abs_ℚ, ratio, neg_ℚ, zero_ℚ, one_ℚ};
ghost use Rattle.rational.specs.Width.{FitsWidth};
ghost use Rattle.exact_frac.specs.Exact.{Exact};
ghost use Rattle.exact_frac.specs.Parts.{sign_of};

use crate::divisor::gcd;
use crate::magnitude::div_rem;
use crate::unfit::Unfit;
use parts::Parts;
use std::cmp::Ordering;
use std::marker::Model;

pub mod comparison;
pub mod parts;
pub mod product;
pub mod sum;
pub mod whole;

/// An exact fraction in lowest terms, whose numerator's size and denominator are below 2^127.
///
/// Equality and hash are those of the parts, the order is that of the values.
#[tactic(auto, using(crate::proofs::Seen::seen))]
#[derive(Clone, Copy, PartialEq, Eq, Hash, Debug)]
pub struct Frac {
    numer: i128,
    denom: u128,
}

impl Model for Frac {
    ghost use Rattle.rational.specs.Rational.{ℚ, ratio};
    ghost use Rattle.rational.specs.Stored.{code_ℚ};
    ghost use Rattle.rational.proofs.Ratio.{numerator-ratio, denominator-ratio};
    ghost use Rattle.exact_frac.specs.Parts.{FitsLowest};
    ghost use Rattle.std.proofs.Common.{ap₂};

    ghost Value = { ℚ };

    ghost coded = { code_ℚ };

    ghost view = { λ f. ratio f.numer f.denom };

    ghost invariant = { λ f. FitsLowest f.numer f.denom };

    ghost inverse = { λ a. record { numer = a.numerator; denom = a.denominator } };

    ghost inverse_ok = { λ f h. ap₂ (λ p q. record { numer = p; denom = q }) (numerator-ratio f.numer f.denom h.lowest) (denominator-ratio f.numer f.denom h.lowest) };
}

#[tactic(auto, using(crate::proofs::Seen::seen))]
impl Frac {
    /// The number 0.
    pub const ZERO: Frac = Frac { numer: 0, denom: 1 };

    /// The number 1.
    pub const ONE: Frac = Frac { numer: 1, denom: 1 };

    /// The fraction `numer / denom`, reduced to lowest terms. The denominator is above 0, and the
    /// numerator above `i128::MIN`.
    pub fn of(numer: i128, denom: i128) -> Frac
        requires positive { pos 0 <ℤ denom }
        requires in_range { unsigned_abs numer < 2 ^ 127 }
        ensures { result ≡ ratio numer (unsigned_abs denom) }
    {
        let size = numer.unsigned_abs();
        let denom = denom.unsigned_abs();
        let common = gcd(size, denom);
        Frac::from_parts(Parts {
            negative: numer < 0,
            size: div_rem(size, common).0,
            denom: div_rem(denom, common).0,
        })
    }

    /// The numerator in lowest terms. Its size is below 2^127.
    pub fn numer(self) -> i128
        ensures value { result ≡ self.numerator }
        ensures fits { FitsWidth 127 self }
    {
        self.numer
    }

    /// The denominator in lowest terms, which is positive and below 2^127.
    pub fn denom(self) -> i128
        ensures value { result ≡ pos self.denominator }
        ensures fits { FitsWidth 127 self }
    {
        self.denom as i128
    }

    /// The opposite.
    pub fn negated(self) -> Frac
        ensures { result ≡ neg_ℚ self }
    {
        Frac {
            numer: -self.numer,
            denom: self.denom,
        }
    }

    /// The size: the fraction itself, or its opposite where it is below 0.
    #[tactic(auto, using(crate::specs::Constants::constants))]
    pub fn abs(self) -> Frac
        ensures { result ≡ abs_ℚ self }
    {
        match self.cmp(&Frac::ZERO) {
            Ordering::Less => self.negated(),
            Ordering::Equal => self,
            Ordering::Greater => self,
        }
    }

    /// Whether this is 0.
    pub fn is_zero(self) -> bool
        ensures { IsTrue result ↔ (self ≡ zero_ℚ) }
    {
        self.numer == 0
    }

    /// -1, 0 or 1, as the fraction is below, at or above 0.
    pub fn sign(self) -> i8
        ensures { result ≡ sign_of self }
    {
        if self.numer < 0 {
            -1
        } else if self.numer == 0 {
            0
        } else {
            1
        }
    }

    /// Whether both parts are below 2^bits.
    pub(crate) fn fits(self, bits: u32) -> bool
        requires { bits ≤ 127 }
        ensures { IsTrue result ↔ FitsWidth bits self }
    {
        self.numer.unsigned_abs() >> bits == 0 && self.denom >> bits == 0
    }

    /// This fraction, which fits 127 bits as all do.
    pub(crate) fn in_full(self) -> Result<Frac, Unfit>
        ensures { Exact 127 self result }
    {
        // (a look at a field wakes the invariant, that both parts are below 2^127)
        let _ = &self.numer;
        Ok(self)
    }
}

impl Ord for Frac {
    ghost use Rattle.rational.specs.Rational.{cmp_ℚ};
    ghost use Rattle.rational.proofs.OrderLaws.{cmp_ℚ_total, eq_by_parts};
    ghost use Rattle.std.proofs.Common.{refl};

    ghost cmp = { cmp_ℚ };

    ghost total = { cmp_ℚ_total };

    ghost matches_partial_cmp = { λ _ _. refl };

    ghost matches_eq = { eq_by_parts };

    fn cmp(&self, other: &Frac) -> Ordering {
        comparison::compare(self.parts(), other.parts())
    }
}

impl PartialOrd for Frac {
    ghost use Rattle.std.specs.Ordering.{as_partial_cmp};
    ghost use Rattle.std.specs.Cmp.{partial_order_from_agreeing_total};
    ghost use Rattle.std.proofs.Common.{refl};
    ghost use Rattle.rational.specs.Rational.{cmp_ℚ};
    ghost use Rattle.rational.proofs.OrderLaws.{cmp_ℚ_total, eq_by_parts};

    ghost partial_cmp = { as_partial_cmp cmp_ℚ };

    ghost laws = { partial_order_from_agreeing_total cmp_ℚ cmp_ℚ_total (λ _ _. refl) eq_by_parts };

    fn partial_cmp(&self, other: &Frac) -> Option<Ordering> {
        Some(self.cmp(other))
    }
}
