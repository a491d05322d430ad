// Products and reciprocals.
ghost use Rattle.std.specs.Prelude.{◌≡◌, ◌^◌, ◌<◌, ◌≤◌, ◌≢◌, SomeIff};
ghost use Rattle.rational.specs.Rational.{◌*ℚ◌, ◌/ℚ◌, inverse, zero_ℚ, whole};
ghost use Rattle.exact_frac.specs.Exact.{Exact};
ghost use Rattle.exact_frac.specs.Parts.{signed};
ghost use Rattle.exact_frac.specs.Product.{product_size, product_denom};

use crate::divisor::gcd;
use crate::fraction::Frac;
use crate::fraction::parts::Parts;
use crate::fraction::whole::whole_product;
use crate::magnitude;
use crate::magnitude::div_rem;
use crate::unfit::Unfit;

/// The size and the denominator of a/b times c/d in lowest terms, where both are below 2^127.
#[tactic(auto, using(rational::proofs::Gcd::gcd_pos))]
fn reduced(a: u128, b: u128, c: u128, d: u128) -> Option<(u128, u128)>
    requires left { 0 < b }
    requires right { 0 < d }
    ensures { SomeIff result
        ((product_size a b c d < 2 ^ 127) × (product_denom a b c d < 2 ^ 127))
        (product_size a b c d, product_denom a b c d) }
{
    let first = gcd(a, d);
    let second = gcd(c, b);
    let size = magnitude::product(div_rem(a, first).0, div_rem(c, second).0)?;
    let denom = magnitude::product(div_rem(b, second).0, div_rem(d, first).0)?;
    Some((size, denom))
}

impl Frac {
    /// The exact product, or `Unfit` exactly where it does not fit 127 bits.
    pub(crate) fn times(self, other: Frac) -> Result<Frac, Unfit>
        ensures { Exact 127 (self *ℚ other) result }
    {
        if self.denom == 1 && other.denom == 1 {
            return whole_product(self.numer, other.numer);
        }
        let (a, b) = (self.parts(), other.parts());
        if a.is_unit() {
            return other.by_unit(a).in_full();
        }
        if b.is_unit() {
            return self.by_unit(b).in_full();
        }
        match reduced(a.size, a.denom, b.size, b.denom) {
            Some((size, denom)) => Ok(Frac::from_parts(Parts {
                negative: a.negative != b.negative,
                size,
                denom,
            })),
            None => Err(Unfit),
        }
    }

    /// The exact quotient, or `Unfit` exactly where it does not fit 127 bits.
    pub(crate) fn over(self, other: Frac) -> Result<Frac, Unfit>
        requires { other ≢ zero_ℚ }
        ensures { Exact 127 (self /ℚ other) result }
    {
        self.times(other.inverted())
    }

    /// One over this.
    fn inverted(self) -> Frac
        requires { self ≢ zero_ℚ }
        ensures { result ≡ inverse self }
    {
        let parts = self.parts();
        Frac::from_parts(Parts {
            negative: parts.negative,
            size: parts.denom,
            denom: parts.size,
        })
    }

    /// The product with -1, 0 or 1.
    #[tactic(auto, using(crate::specs::Constants::constants))]
    fn by_unit(self, unit: Parts) -> Frac
        requires { unit.size ≤ 1 }
        ensures { result ≡ self *ℚ whole (signed unit.negative unit.size) }
    {
        if unit.size == 0 {
            Frac::ZERO
        } else if unit.negative {
            self.negated()
        } else {
            self
        }
    }
}
