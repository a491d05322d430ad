//! A digit and a fraction, over ten.
ghost use Rattle.std.specs.Prelude.{◌≡◌, ◌+◌, ◌*◌, ◌≤◌};
ghost use Rattle.number_fields.specs.Parts.{IsProper, Reduces};
ghost use Rattle.rational.specs.Gcd.{gcd};

use crate::LIMIT;

// The greatest common divisor of a number and ten.
fn shared(number: u128) -> u128
    ensures { result ≡ gcd number 10 }
{
    let last = number % 10;
    if last == 0 {
        10
    } else if last == 5 {
        5
    } else if last % 2 == 0 {
        2
    } else {
        1
    }
}

// A tenth of a digit and a fraction below 1 in lowest terms: its parts in lowest terms, where the denominator is below
// 2^127. Its numerator is worked from the tenths of the parts, since ten times a part may be too large.
pub(crate) fn tenth(digit: u128, numer: u128, denom: u128) -> Option<(u128, u128)>
    requires digit { digit ≤ 9 }
    requires proper { IsProper numer denom }
    ensures { Reduces (digit * denom + numer) (10 * denom) result }
{
    let rest = digit * (denom % 10) + numer % 10;
    let common = shared(rest);
    let left = 10 / common;
    if denom > (LIMIT - 1) / left {
        return None;
    }
    let above = left * (digit * (denom / 10) + numer / 10) + rest / common;
    Some((above, left * denom))
}
