//! Reading the text of a fraction.
//!
//! The parts of the text are read as numbers, and the fraction of these numbers is the answer where the text is its
//! own. So a text that spells a fraction in another way is not read.
ghost use Rattle.std.specs.Prelude.{◌≡◌, ◌≢◌, ℕ, ◌^◌, ◌<◌, ◌++◌, ◌∷◌, drop, length, IsTrue, ◌↔◌, IfSome, MatchOption, Some, take_while};
ghost use Rattle.std.specs.Fmt.{decimal};
ghost use Rattle.rational.specs.Rational.{ℚ, ratio};
ghost use Rattle.rational.specs.Width.{FitsWidth};
ghost use Rattle.exact_frac.specs.Parts.{signed};
ghost use Rattle.lp_text.specs.Fraction.{fraction_text};
ghost use Rattle.frac_text.specs.Inner.{is_negative, unsigned, is_no_stroke, denominator_text};

use exact_frac::Frac;
use itoa::Buffer;
use std::str;

// What the parts of a fraction stay below.
const LIMIT: u128 = 1 << 127;

/// The fraction of this text, or none where no fraction whose parts are below 2^127 has it.
///
/// A fraction has one text, as [`text`](crate::text) writes it: other spellings, as `2/4`, `3/1`, `+3`, `03` and `-0`,
/// are no fraction's.
pub fn read(bytes: &[u8]) -> Option<Frac>
    ensures { MatchOption result ((v : ℚ) → FitsWidth 127 v → fraction_text v ≢ bytes.now) (λ v. (fraction_text v ≡ bytes.now) × FitsWidth 127 v) }
{
    let value = spelled(bytes)?;
    if is_text(value, bytes) {
        Some(value)
    } else {
        None
    }
}

// The fraction that the text spells, if it is the text of one.
fn spelled(bytes: &[u8]) -> Option<Frac>
    ensures { (v : ℚ) → FitsWidth 127 v → fraction_text v ≡ bytes.now → result ≡ Some v }
{
    let (negative, unsigned) = sign(bytes);
    let (above, below) = halves(unsigned);
    let size = number(above)?;
    let denom = denominator(below)?;
    fraction(negative, size, denom)
}

// Whether a minus begins the text, and the text after it.
fn sign(text: &[u8]) -> (bool, &[u8])
    ensures negative { result.0 ≡ is_negative text.now }
    ensures rest { result.1.now ≡ unsigned text.now }
{
    match text {
        [b'-', rest @ ..] => (true, rest),
        _ => (false, text),
    }
}

// The text before the first stroke, and what follows from the stroke on.
fn halves(text: &[u8]) -> (&[u8], &[u8])
    ensures before { result.0.now ≡ take_while is_no_stroke text.now }
    ensures after { result.1.now ≡ drop (length (take_while is_no_stroke text.now)) text.now }
{
    let end = count_before_stroke(text);
    (&text[..end], &text[end..])
}

// How many bytes stand before the first stroke.
fn count_before_stroke(text: &[u8]) -> usize
    ensures { result ≡ length (take_while is_no_stroke text.now) }
{
    text.iter().take_while(|byte| **byte != b'/').count()
}

// The number that the digits spell, if they are its text and it is below 2^127.
fn number(digits: &[u8]) -> Option<u128>
    ensures below { IfSome result (λ n. n < 2 ^ 127) }
    ensures read { (n : ℕ) → n < 2 ^ 127 → decimal n ≡ digits.now → result ≡ Some n }
{
    let digits = str::from_utf8(digits).ok()?;
    let number = digits.parse::<u128>().ok()?;
    if number < LIMIT { Some(number) } else { None }
}

// The denominator that stands after a stroke; 1 where there is no stroke.
fn denominator(text: &[u8]) -> Option<u128>
    ensures below { IfSome result (λ n. n < 2 ^ 127) }
    ensures read { (n : ℕ) → n < 2 ^ 127 → denominator_text n ≡ text.now → result ≡ Some n }
{
    match text {
        [] => Some(1),
        [_, digits @ ..] => number(digits),
    }
}

// The fraction of a sign, a size and a denominator, if that is not 0.
fn fraction(negative: bool, size: u128, denom: u128) -> Option<Frac>
    requires size { size < 2 ^ 127 }
    requires denom { denom < 2 ^ 127 }
    ensures { 0 < denom → result ≡ Some (ratio (signed negative size) denom) }
{
    if denom == 0 {
        return None;
    }
    let size = size as i128;
    Some(Frac::of(if negative { -size } else { size }, denom as i128))
}

// Whether the text is the fraction's.
fn is_text(value: Frac, bytes: &[u8]) -> bool
    ensures text { IsTrue result ↔ (fraction_text value ≡ bytes.now) }
    ensures fits { FitsWidth 127 value }
{
    let mut above = Buffer::new();
    let numerator = above.format(value.numer()).as_bytes();
    let denominator = value.denom();
    if denominator == 1 {
        return bytes == numerator;
    }
    let mut below = Buffer::new();
    is_joined(numerator, below.format(denominator).as_bytes(), bytes)
}

// Whether the text is the two others with a stroke between them.
fn is_joined(before: &[u8], after: &[u8], text: &[u8]) -> bool
    ensures { IsTrue result ↔ (before.now ++ 47 ∷ after.now ≡ text.now) }
{
    match text.strip_prefix(before) {
        None => false,
        Some(rest) => is_after_stroke(after, rest),
    }
}

// Whether the text is a stroke and then the other.
fn is_after_stroke(after: &[u8], text: &[u8]) -> bool
    ensures { IsTrue result ↔ (47 ∷ after.now ≡ text.now) }
{
    match text {
        [first, rest @ ..] if *first == b'/' => rest == after,
        _ => false,
    }
}
