// Sums and products of integers.
ghost use Rattle.std.specs.Prelude.{◌≡◌, ◌^◌, ℤ, ◌+ℤ◌, ◌*ℤ◌, SomeIff, FitsSigned};
ghost use Rattle.std.specs.Int.{w128};
ghost use Rattle.rational.specs.Rational.{whole};
ghost use Rattle.exact_frac.specs.Exact.{Exact};

use crate::fraction::Frac;
use crate::magnitude::LIMIT;
use crate::unfit::Unfit;

const LEAST: i128 = i64::MIN as i128;

const MOST: i128 = i64::MAX as i128;

/// The fraction of an integer, where it is there and fits 127 bits.
fn settled(numer: Option<i128>) -> Result<Frac, Unfit>
    ensures { (value : ℤ) → SomeIff numer (FitsSigned w128 value) value → Exact 127 (whole value) result }
{
    match numer {
        Some(numer) => {
            if numer.unsigned_abs() < LIMIT {
                Ok(Frac { numer, denom: 1 })
            } else {
                Err(Unfit)
            }
        }
        None => Err(Unfit),
    }
}

/// The product of two integers where it fits 128 bits, at once where both fit 64.
fn product(a: i128, b: i128) -> Option<i128>
    ensures { SomeIff result (FitsSigned w128 (a *ℤ b)) (a *ℤ b) }
{
    if LEAST <= a && a <= MOST && LEAST <= b && b <= MOST {
        Some(a * b)
    } else {
        a.checked_mul(b)
    }
}

/// The sum of two integers, or `Unfit` exactly where it does not fit 127 bits.
pub fn whole_sum(a: i128, b: i128) -> Result<Frac, Unfit>
    ensures { Exact 127 (whole (a +ℤ b)) result }
{
    settled(a.checked_add(b))
}

/// The product of two integers, or `Unfit` exactly where it does not fit 127 bits.
pub fn whole_product(a: i128, b: i128) -> Result<Frac, Unfit>
    ensures { Exact 127 (whole (a *ℤ b)) result }
{
    settled(product(a, b))
}
