//! The digits of a number, those before the point and those after it, by their places from the last on.
ghost use Rattle.std.specs.Prelude.{◌≡◌, true, ◌+◌, ◌^◌, ◌/◌, ◌%◌, ◌*◌, ◌<◌, ◌≤◌, ◌++◌, length};
ghost use Rattle.std.specs.List.{list_all};
ghost use Rattle.lp_text.specs.Digits.{digits_value, is_digit};
ghost use Rattle.number_fields.specs.Parts.{Below, Reduces};

use crate::LIMIT;
use crate::tenths::tenth;

// How many digits are read in 64 bits.
pub(crate) const SHORT: usize = 18;

// Ten to a few places.
#[tactic(auto, using(crate::proofs::Places::ten_pos))]
pub(crate) fn short_power(places: usize) -> u64
    requires { places ≤ 18 }
    ensures value { result ≡ 10 ^ places }
    ensures positive { 0 < result }
{
    10u64.pow(places as u32)
}

// The number that few digits spell.
pub(crate) fn short_number(whole: &[u8], decimals: &[u8]) -> u64
    requires whole { list_all is_digit whole.now ≡ true }
    requires decimals { list_all is_digit decimals.now ≡ true }
    requires short { length whole.now + length decimals.now ≤ 18 }
    ensures { result ≡ digits_value (whole.now ++ decimals.now) }
{
    let mut number = 0;
    for byte in whole {
        number = 10 * number + u64::from(*byte - b'0');
    }
    for decimal in decimals {
        number = 10 * number + u64::from(*decimal - b'0');
    }
    number
}

// The digit at this place, counted from the last; 0 before the first.
#[tactic(auto, using(crate::proofs::Places::decimal_at, crate::proofs::Places::whole_at, crate::proofs::Places::no_digit))]
fn digit(whole: &[u8], decimals: &[u8], place: usize) -> u128
    requires whole { list_all is_digit whole.now ≡ true }
    requires decimals { list_all is_digit decimals.now ≡ true }
    ensures { result ≡ digits_value (whole.now ++ decimals.now) / 10 ^ place % 10 }
{
    if place < decimals.len() {
        u128::from(decimals[decimals.len() - 1 - place] - b'0')
    } else if place - decimals.len() < whole.len() {
        u128::from(whole[whole.len() - 1 - (place - decimals.len())] - b'0')
    } else {
        0
    }
}

// The number that the digits before these last places spell, where it is below 2^127.
fn front(whole: &[u8], decimals: &[u8], places: usize) -> Option<u128>
    requires whole { list_all is_digit whole.now ≡ true }
    requires decimals { list_all is_digit decimals.now ≡ true }
    ensures { Below (digits_value (whole.now ++ decimals.now) / 10 ^ places) result }
{
    let mut number = 0;
    let mut place = (whole.len() + decimals.len()).max(places);
    while place > places {
        place -= 1;
        let last = digit(whole, decimals, place);
        if number > (LIMIT - 1 - last) / 10 {
            return None;
        }
        number = 10 * number + last;
    }
    Some(number)
}

// The number with so many zeros put after it, where it is below 2^127.
fn with_zeros(number: u128, zeros: u32) -> Option<u128>
    requires { zeros ≤ 30 }
    ensures { Below (number * 10 ^ zeros) result }
{
    match number.checked_mul(10u128.pow(zeros)) {
        Some(product) if product < LIMIT => Some(product),
        _ => None,
    }
}

// The whole part of the digits with so many zeros after them and the point before these last places.
pub(crate) fn whole_part(whole: &[u8], decimals: &[u8], places: usize, zeros: u32) -> Option<u128>
    requires whole { list_all is_digit whole.now ≡ true }
    requires decimals { list_all is_digit decimals.now ≡ true }
    requires zeros { zeros ≤ 30 }
    ensures { Below (digits_value (whole.now ++ decimals.now) / 10 ^ places * 10 ^ zeros) result }
{
    match front(whole, decimals, places) {
        None => None,
        Some(number) => with_zeros(number, zeros),
    }
}

// The last places as a fraction in lowest terms: its numerator and its denominator, where that is below 2^127.
pub(crate) fn last_part(whole: &[u8], decimals: &[u8], places: usize) -> Option<(u128, u128)>
    requires whole { list_all is_digit whole.now ≡ true }
    requires decimals { list_all is_digit decimals.now ≡ true }
    ensures { Reduces (digits_value (whole.now ++ decimals.now) % 10 ^ places) (10 ^ places) result }
{
    let mut numer = 0;
    let mut denom = 1;
    for place in 0..places {
        let next = digit(whole, decimals, place);
        match tenth(next, numer, denom) {
            None => return None,
            Some((above, below)) => {
                numer = above;
                denom = below;
            }
        }
    }
    Some((numer, denom))
}
