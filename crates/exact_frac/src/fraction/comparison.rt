// The order of fractions by value.
ghost use Rattle.std.specs.Prelude.{◌≡◌, ℕ, ◌*◌, ◌<◌, pos, ◌*ℤ◌, IsTrue};
ghost use Rattle.std.specs.Ordering.{nat_cmp, int_cmp};
ghost use Rattle.exact_frac.specs.Parts.{signed};

use crate::fraction::parts::Parts;
use crate::magnitude::{LOW, wide_product};
use std::cmp::Ordering;

/// How a/b and c/d compare: by the products of each numerator with the other denominator.
fn compare_sizes(a: u128, b: u128, c: u128, d: u128) -> Ordering
    requires left { 0 < b }
    requires right { 0 < d }
    ensures { result ≡ nat_cmp (a * d) (c * b) }
{
    if b == d {
        return a.cmp(&c);
    }
    if a <= LOW && b <= LOW && c <= LOW && d <= LOW {
        return (a * d).cmp(&(c * b));
    }
    let (high_left, low_left) = wide_product(a, d);
    let (high_right, low_right) = wide_product(c, b);
    if high_left == high_right {
        low_left.cmp(&low_right)
    } else {
        high_left.cmp(&high_right)
    }
}

/// How two fractions compare: by their signs, then by their sizes.
pub fn compare(a: Parts, b: Parts) -> Ordering
    requires left { 0 < a.denom }
    requires right { 0 < b.denom }
    requires left_below { IsTrue a.negative → 0 < a.size }
    requires right_below { IsTrue b.negative → 0 < b.size }
    ensures { result ≡ int_cmp (signed a.negative a.size *ℤ pos b.denom) (signed b.negative b.size *ℤ pos a.denom) }
{
    match (a.negative, b.negative) {
        (false, false) => compare_sizes(a.size, a.denom, b.size, b.denom),
        (true, true) => compare_sizes(b.size, b.denom, a.size, a.denom),
        (true, false) => Ordering::Less,
        (false, true) => Ordering::Greater,
    }
}
