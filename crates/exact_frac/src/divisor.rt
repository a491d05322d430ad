// The greatest common divisor, by the binary method.
ghost use Rattle.std.specs.Prelude.{◌≡◌, ◌%◌, ◌<◌};
ghost use Rattle.rational.specs.Gcd.{gcd};

use crate::magnitude::LOW;

/// The greatest common divisor of two odd numbers of 64 bits.
fn odd_low(a: u64, b: u64) -> u64
    requires left { a % 2 ≡ 1 }
    requires right { b % 2 ≡ 1 }
    ensures { result ≡ gcd a b }
{
    let (mut x, mut y) = (a, b);
    while x != y {
        let rest = x.abs_diff(y);
        y = x.min(y);
        x = rest >> rest.trailing_zeros();
    }
    x
}

/// The greatest common divisor of two odd numbers, in 64 bits as soon as both fit these.
fn odd(a: u128, b: u128) -> u128
    requires left { a % 2 ≡ 1 }
    requires right { b % 2 ≡ 1 }
    ensures { result ≡ gcd a b }
{
    let (mut x, mut y) = (a, b);
    while x > LOW || y > LOW {
        if x == y {
            return x;
        }
        let rest = x.abs_diff(y);
        y = x.min(y);
        x = rest >> rest.trailing_zeros();
    }
    odd_low(x as u64, y as u64) as u128
}

/// The greatest common divisor of two numbers of 64 bits above 0.
fn positive_low(a: u64, b: u64) -> u64
    requires left { 0 < a }
    requires right { 0 < b }
    ensures { result ≡ gcd a b }
{
    let (twos_a, twos_b) = (a.trailing_zeros(), b.trailing_zeros());
    odd_low(a >> twos_a, b >> twos_b) << twos_a.min(twos_b)
}

/// The greatest common divisor of two numbers above 0.
fn positive(a: u128, b: u128) -> u128
    requires left { 0 < a }
    requires right { 0 < b }
    ensures { result ≡ gcd a b }
{
    let (twos_a, twos_b) = (a.trailing_zeros(), b.trailing_zeros());
    odd(a >> twos_a, b >> twos_b) << twos_a.min(twos_b)
}

/// The greatest common divisor with a number of 64 bits above 0, which takes a larger one's rest first.
fn with_low(a: u128, b: u64) -> u64
    requires { 0 < b }
    ensures { result ≡ gcd a b }
{
    let rest = if a > LOW { a % b as u128 } else { a };
    if rest == 0 {
        b
    } else {
        positive_low(rest as u64, b)
    }
}

/// The greatest common divisor, which is the other number where one is 0.
pub fn gcd(a: u128, b: u128) -> u128
    ensures { result ≡ gcd a b }
{
    if a == 1 || b == 1 {
        1
    } else if b == 0 {
        a
    } else if a == 0 {
        b
    } else if b <= LOW {
        with_low(a, b as u64) as u128
    } else if a <= LOW {
        with_low(b, a as u64) as u128
    } else {
        positive(a, b)
    }
}
