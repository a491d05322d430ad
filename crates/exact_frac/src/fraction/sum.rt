// Sums.
ghost use Rattle.std.specs.Prelude.{◌≡◌, ℕ, ◌+◌, ◌*◌, ◌/◌, ◌%◌, ◌^◌, ◌<◌, ◌≤◌, pos, ◌+ℤ◌, ◌*ℤ◌, nat_abs, SomeIff, IfSome, MatchOption};
ghost use Rattle.std.specs.Int.{◌∣◌};
ghost use Rattle.rational.specs.Gcd.{gcd};
ghost use Rattle.rational.specs.Rational.{whole, ◌+ℚ◌, ◌-ℚ◌};
ghost use Rattle.rational.specs.Width.{FitsWidth};
ghost use Rattle.exact_frac.specs.Exact.{Exact};
ghost use Rattle.exact_frac.specs.Parts.{signed, Splits, SplitsBelow};
ghost use Rattle.exact_frac.specs.Floor.{IsFloor};

use crate::divisor::gcd;
use crate::fraction::Frac;
use crate::fraction::parts::Parts;
use crate::fraction::whole::whole_sum;
use crate::magnitude;
use crate::magnitude::{LIMIT, div_rem};
use crate::unfit::Unfit;

/// The floor of a fraction, and the numerator of what is left above it.
fn floor_and_part(parts: Parts) -> (i128, u128)
    requires some { 0 < parts.denom }
    requires below { parts.size < 2 ^ 127 }
    ensures { IsFloor (signed parts.negative parts.size) parts.denom result.0 result.1 }
{
    let (whole, rest) = div_rem(parts.size, parts.denom);
    if !parts.negative {
        (whole as i128, rest)
    } else if rest == 0 {
        (-(whole as i128), 0)
    } else {
        (-(whole as i128) - 1, parts.denom - rest)
    }
}

/// a * by over a divisor, and what is left, without the whole product.
fn scaled(a: u128, by: u128, divisor: u128) -> (u128, u128)
    requires some { 0 < divisor }
    requires step_fits { by * divisor < 2 ^ 128 }
    requires fits { a * by / divisor < 2 ^ 128 }
    ensures quotient { result.0 ≡ a * by / divisor }
    ensures rest { result.1 ≡ a * by % divisor }
{
    let (whole, rest) = div_rem(a, divisor);
    let (more, left) = div_rem(rest * by, divisor);
    (whole * by + more, left)
}

/// What is left of a * by over a divisor.
fn scaled_rest(a: u128, by: u128, divisor: u128) -> u128
    requires some { 0 < divisor }
    requires step_fits { by * divisor < 2 ^ 128 }
    ensures { result ≡ a * by % divisor }
{
    div_rem(div_rem(a, divisor).1 * by, divisor).1
}

/// The greatest common divisor of a * by_a + b * by_b and a number.
fn shared_divisor(a: u128, by_a: u128, b: u128, by_b: u128, common: u128) -> u128
    requires some { 0 < common }
    requires below { common < 2 ^ 127 }
    requires left_fits { by_a * common < 2 ^ 128 }
    requires right_fits { by_b * common < 2 ^ 128 }
    ensures { result ≡ gcd (a * by_a + b * by_b) common }
{
    if common == 1 {
        return 1;
    }
    let left = scaled_rest(a, by_a, common);
    let right = scaled_rest(b, by_b, common);
    let sum = left + right;
    gcd(if sum < common { sum } else { sum - common }, common)
}

/// a * by_a + b * by_b over a divisor of it.
fn part_over(a: u128, by_a: u128, b: u128, by_b: u128, divisor: u128) -> u128
    requires divides { divisor ∣ a * by_a + b * by_b }
    requires some { 0 < divisor }
    requires left_fits { by_a * divisor < 2 ^ 128 }
    requires right_fits { by_b * divisor < 2 ^ 128 }
    requires fits { (a * by_a + b * by_b) / divisor < 2 ^ 128 }
    ensures { result ≡ (a * by_a + b * by_b) / divisor }
{
    let (left, rest) = scaled(a, by_a, divisor);
    let (right, _) = scaled(b, by_b, divisor);
    if rest == 0 {
        left + right
    } else {
        left + right + 1
    }
}

/// The sign and the size of floor * denom + part, where the size is below 2^127.
fn settled(floor: i128, part: u128, denom: u128) -> Option<(bool, u128)>
    requires part_below { part < denom }
    requires denom_below { denom < 2 ^ 127 }
    ensures { SplitsBelow (floor *ℤ pos denom +ℤ pos part) result }
{
    let negative = floor < 0;
    let size = if negative {
        magnitude::product(floor.unsigned_abs() - 1, denom)? + (denom - part)
    } else {
        magnitude::product(floor.unsigned_abs(), denom)? + part
    };
    if size < LIMIT {
        Some((negative, size))
    } else {
        None
    }
}

/// The sign and the size of (left + right) * denom + part, where the size is below 2^127.
fn joined(left: i128, right: i128, part: u128, denom: u128) -> Option<(bool, u128)>
    requires part_below { part < 2 * denom }
    requires denom_below { denom < 2 ^ 127 }
    ensures { SplitsBelow ((left +ℤ right) *ℤ pos denom +ℤ pos part) result }
{
    let floor = left.checked_add(right)?;
    if part < denom {
        settled(floor, part, denom)
    } else {
        settled(floor.checked_add(1)?, part - denom, denom)
    }
}

/// Two denominators over their greatest common divisor.
#[derive(Clone, Copy)]
struct Common {
    divisor: u128,
    left: u128,
    right: u128,
}

/// Two denominators over their greatest common divisor, which is sought only where they differ and
/// neither is 1.
#[tactic(auto, using(rational::proofs::Gcd::gcd_pos))]
fn over_common(left: u128, right: u128) -> Common
    requires left_some { 0 < left }
    requires right_some { 0 < right }
    ensures divisor { result.divisor ≡ gcd left right }
    ensures left { result.left ≡ left / result.divisor }
    ensures right { result.right ≡ right / result.divisor }
{
    if left == right {
        return Common {
            divisor: left,
            left: 1,
            right: 1,
        };
    }
    let divisor = gcd(left, right);
    Common {
        divisor,
        left: div_rem(left, divisor).0,
        right: div_rem(right, divisor).0,
    }
}

/// The sign and the size of a * by_a + b * by_b, where both products are below 2^127.
fn crosswise(a: Parts, by_a: u128, b: Parts, by_b: u128) -> Option<(bool, u128)>
    ensures { IfSome result (λ r. signed r.0 r.1 ≡ signed a.negative a.size *ℤ pos by_a +ℤ signed b.negative b.size *ℤ pos by_b) }
{
    let left = magnitude::product(a.size, by_a)?;
    let right = magnitude::product(b.size, by_b)?;
    if a.negative == b.negative {
        Some((a.negative, left + right))
    } else if left < right {
        Some((b.negative, right - left))
    } else {
        Some((a.negative, left - right))
    }
}

/// The parts of the sum, where it fits 127 bits. Floors and what is left above them are added on
/// their own, since the products of the whole numerators may be too large where the sum is not.
#[tactic(auto, using(rational::proofs::Gcd::gcd_pos))]
fn by_floors(a: Frac, b: Frac, common: Common) -> Option<Parts>
    requires divisor { common.divisor ≡ gcd a.denominator b.denominator }
    requires left { common.left ≡ a.denominator / common.divisor }
    requires right { common.right ≡ b.denominator / common.divisor }
    ensures { MatchOption result (¬ FitsWidth 127 (a +ℚ b)) (λ r. Splits (a +ℚ b) r.negative r.size r.denom) }
{
    let (a, b) = (a.parts(), b.parts());
    let (floor_a, part_a) = floor_and_part(a);
    let (floor_b, part_b) = floor_and_part(b);
    let shared = shared_divisor(part_a, common.right, part_b, common.left, common.divisor);
    let denom = magnitude::product(div_rem(a.denom, shared).0, common.right)?;
    let part = part_over(part_a, common.right, part_b, common.left, shared);
    let (negative, size) = joined(floor_a, floor_b, part, denom)?;
    Some(Parts {
        negative,
        size,
        denom,
    })
}

/// The parts of the sum, where it fits 127 bits: by the products of each numerator with what the other's
/// denominator does not share, or by floors where these are too large.
#[tactic(auto, using(rational::proofs::Gcd::gcd_pos))]
fn added(a: Frac, b: Frac) -> Option<Parts>
    ensures { MatchOption result (¬ FitsWidth 127 (a +ℚ b)) (λ r. Splits (a +ℚ b) r.negative r.size r.denom) }
{
    let (left, right) = (a.parts(), b.parts());
    let common = over_common(left.denom, right.denom);
    let apart = magnitude::product(common.left, common.right)?;
    let Some((negative, total)) = crosswise(left, common.right, right, common.left) else {
        return by_floors(a, b, common);
    };
    let shared = gcd(total, common.divisor);
    let denom = magnitude::product(apart, div_rem(common.divisor, shared).0)?;
    let size = magnitude::below_limit(div_rem(total, shared).0)?;
    Some(Parts {
        negative,
        size,
        denom,
    })
}

impl Frac {
    /// The exact sum, or `Unfit` exactly where it does not fit 127 bits.
    pub(crate) fn plus(self, other: Frac) -> Result<Frac, Unfit>
        ensures { Exact 127 (self +ℚ other) result }
    {
        if self.is_zero() {
            return other.in_full();
        }
        if other.is_zero() {
            return self.in_full();
        }
        if self.denom == 1 && other.denom == 1 {
            return whole_sum(self.numer, other.numer);
        }
        match added(self, other) {
            Some(parts) => Ok(Frac::from_parts(parts)),
            None => Err(Unfit),
        }
    }

    /// The exact difference, or `Unfit` exactly where it does not fit 127 bits.
    pub(crate) fn minus(self, other: Frac) -> Result<Frac, Unfit>
        ensures { Exact 127 (self -ℚ other) result }
    {
        self.plus(other.negated())
    }
}
