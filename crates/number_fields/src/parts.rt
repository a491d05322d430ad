//! The value of a spelling from its parts.
ghost use Rattle.std.specs.Prelude.{◌≡◌, ◌+◌, ◌^◌, ◌*◌, ◌<◌, ◌≤◌, ◌++◌, length, true, MatchOption};
ghost use Rattle.std.specs.List.{list_all};
ghost use Rattle.rational.specs.Rational.{ratio, ◌*ℚ◌};
ghost use Rattle.lp_text.specs.Digits.{digits_value, is_digit};
ghost use Rattle.mps_model.specs.NumberField.{signed, power_of_ten};
ghost use Rattle.number_fields.specs.Parts.{Fitting, IsProper};

use crate::LIMIT;
use crate::digits::{SHORT, last_part, short_number, short_power, whole_part};
use exact_frac::Frac;

// The whole number and the fraction as one fraction, with its sign, where it fits.
fn joined(negative: bool, whole: u128, numer: u128, denom: u128) -> Option<Frac>
    requires { IsProper numer denom }
    ensures { MatchOption result (2 ^ 127 ≤ whole * denom + numer) (λ r. (r ≡ ratio (signed negative (whole * denom + numer)) denom) × (whole * denom + numer < 2 ^ 127)) }
{
    if whole > (LIMIT - 1 - numer) / denom {
        return None;
    }
    let size = (whole * denom + numer) as i128;
    Some(Frac::of(if negative { -size } else { size }, denom as i128))
}

// The fraction that few digits spell over ten for each of a few places, worked in 64 bits.
fn short(negative: bool, whole: &[u8], decimals: &[u8], places: usize) -> Frac
    requires whole { list_all is_digit whole.now ≡ true }
    requires decimals { list_all is_digit decimals.now ≡ true }
    requires short { length whole.now + length decimals.now ≤ 18 }
    requires places { places ≤ 18 }
    ensures { result ≡ ratio (signed negative (digits_value (whole.now ++ decimals.now))) (10 ^ places) }
{
    let size = short_number(whole, decimals) as i128;
    let denom = short_power(places) as i128;
    Frac::of(if negative { -size } else { size }, denom)
}

// The fraction that the digits spell, with so many zeros after them, over ten for each of these places.
fn shifted(negative: bool, whole: &[u8], decimals: &[u8], places: usize, zeros: u32) -> Option<Frac>
    requires whole { list_all is_digit whole.now ≡ true }
    requires decimals { list_all is_digit decimals.now ≡ true }
    requires zeros { zeros ≤ 30 }
    requires one_way { 0 < zeros → places ≡ 0 }
    ensures { Fitting (ratio (signed negative (digits_value (whole.now ++ decimals.now) * 10 ^ zeros)) (10 ^ places)) result }
{
    if zeros == 0 && places <= SHORT && whole.len() + decimals.len() <= SHORT {
        return Some(short(negative, whole, decimals, places));
    }
    match whole_part(whole, decimals, places, zeros) {
        None => None,
        Some(number) => match last_part(whole, decimals, places) {
            None => None,
            Some((numer, denom)) => joined(negative, number, numer, denom),
        },
    }
}

// The value of the digits before and after the point, with the exponent of ten, where it fits.
pub(crate) fn value(
    negative: bool,
    whole: &[u8],
    decimals: &[u8],
    down: bool,
    size: u32,
) -> Option<Frac>
    requires whole { list_all is_digit whole.now ≡ true }
    requires decimals { list_all is_digit decimals.now ≡ true }
    requires size { size ≤ 30 }
    ensures { Fitting (ratio (signed negative (digits_value (whole.now ++ decimals.now))) (10 ^ length decimals.now) *ℚ power_of_ten (signed down size)) result }
{
    let count = decimals.len();
    let up = size as usize;
    if down {
        shifted(negative, whole, decimals, count + up, 0)
    } else if up <= count {
        shifted(negative, whole, decimals, count - up, 0)
    } else {
        shifted(negative, whole, decimals, 0, (up - count) as u32)
    }
}
