// Steps on the sizes of numerators and denominators, in 64 bits wherever these suffice.
ghost use Rattle.std.specs.Prelude.{◌≡◌, ◌+◌, ◌*◌, ◌/◌, ◌%◌, ◌^◌, ◌<◌, SomeIff};
ghost use Rattle.exact_frac.specs.Parts.{signed};

/// 2^127, below which the parts of every fraction lie.
pub const LIMIT: u128 = 0x8000_0000_0000_0000_0000_0000_0000_0000;

/// The largest number of 64 bits.
pub const LOW: u128 = 0xffff_ffff_ffff_ffff;

/// One more than the largest number of 64 bits.
const WORD: u128 = 0x1_0000_0000_0000_0000;

/// Quotient and remainder, without a 128-bit division where both numbers fit 64 bits.
pub fn div_rem(a: u128, b: u128) -> (u128, u128)
    requires { 0 < b }
    ensures quotient { result.0 ≡ a / b }
    ensures rest { result.1 ≡ a % b }
{
    if b == 1 {
        (a, 0)
    } else if a <= LOW && b <= LOW {
        let (a, b) = (a as u64, b as u64);
        ((a / b) as u128, (a % b) as u128)
    } else {
        (a / b, a % b)
    }
}

/// The number itself, or `None` exactly where it is 2^127 or more.
pub fn below_limit(size: u128) -> Option<u128>
    ensures { SomeIff result (size < 2 ^ 127) size }
{
    if size < LIMIT { Some(size) } else { None }
}

/// The product, or `None` exactly where it is 2^127 or more.
pub fn product(a: u128, b: u128) -> Option<u128>
    ensures { SomeIff result (a * b < 2 ^ 127) (a * b) }
{
    if a <= LOW && b <= LOW {
        return below_limit((a as u64) as u128 * (b as u64) as u128);
    }
    if a.leading_zeros() + b.leading_zeros() < 128 {
        return None;
    }
    below_limit(a * b)
}

/// The product in 256 bits: its high and its low half.
pub fn wide_product(a: u128, b: u128) -> (u128, u128)
    ensures { result.0 * 2 ^ 128 + result.1 ≡ a * b }
{
    let (a_high, a_low) = ((a / WORD) as u64, (a % WORD) as u64);
    let (b_high, b_low) = ((b / WORD) as u64, (b % WORD) as u64);
    let (first, carry) = a_low.carrying_mul(b_low, 0);
    let (middle, carry_middle) = a_high.carrying_mul(b_low, carry);
    let (second, carry_second) = a_low.carrying_mul(b_high, middle);
    let (third, fourth) = a_high.carrying_mul_add(b_high, carry_middle, carry_second);
    (
        fourth as u128 * WORD + third as u128,
        second as u128 * WORD + first as u128,
    )
}

/// The number of that size, negative where asked.
pub fn signed(negative: bool, size: u128) -> i128
    requires { size < 2 ^ 127 }
    ensures { result ≡ signed negative size }
{
    if negative {
        -(size as i128)
    } else {
        size as i128
    }
}
