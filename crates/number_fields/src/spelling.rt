//! The parts of a spelling: sign, digits and exponent.
ghost use Rattle.std.specs.Prelude.{◌≡◌, true, ◌≤◌, length, min, MatchResult, Ok, Err};
ghost use Rattle.std.specs.List.{list_all};
ghost use Rattle.lp_text.specs.Digits.{digits_value, is_digit};
ghost use Rattle.mps_model.specs.NumberField.{is_negative, unsigned, leading_digits, after_digits, decimals, after_decimals, is_exponent_letter, is_digits, signed};
ghost use Rattle.number_fields.specs.Spelled.{exponent_within};

use mps_model::FieldFault;

// Whether a minus begins the text, and the text after its sign.
pub(crate) fn sign(text: &[u8]) -> (bool, &[u8])
    ensures negative { result.0 ≡ is_negative text.now }
    ensures rest { result.1.now ≡ unsigned text.now }
{
    match text {
        [b'-', rest @ ..] => (true, rest),
        [b'+', rest @ ..] => (false, rest),
        _ => (false, text),
    }
}

// How many digits begin the text.
fn count_digits(text: &[u8]) -> usize
    ensures { result ≡ length (leading_digits text.now) }
{
    text.iter().take_while(|byte| byte.is_ascii_digit()).count()
}

// The digits that begin the text, and what follows them.
#[tactic(auto, using(crate::proofs::SpellingLemmas::take_leading, crate::proofs::SpellingLemmas::leading_within))]
fn digits(text: &[u8]) -> (&[u8], &[u8])
    ensures front { result.0.now ≡ leading_digits text.now }
    ensures back { result.1.now ≡ after_digits text.now }
{
    let end = count_digits(text);
    (&text[..end], &text[end..])
}

// The digits before the point, those after it, and what follows.
pub(crate) fn mantissa(body: &[u8]) -> (&[u8], &[u8], &[u8])
    ensures whole { result.0.now ≡ leading_digits body.now }
    ensures decimals { result.1.now ≡ decimals body.now }
    ensures rest { result.2.now ≡ after_decimals body.now }
{
    let (whole, rest) = digits(body);
    match rest {
        [b'.', tail @ ..] => {
            let (decimals, rest) = digits(tail);
            (whole, decimals, rest)
        }
        _ => (whole, &[], rest),
    }
}

fn is_exponent_letter(byte: u8) -> bool
    ensures { result ≡ is_exponent_letter byte }
{
    byte == b'E' || byte == b'e' || byte == b'D' || byte == b'd'
}

// Whether each byte is a digit.
fn all_digits(text: &[u8]) -> bool
    ensures { result ≡ list_all is_digit text.now }
{
    text.iter().all(|byte| byte.is_ascii_digit())
}

// Whether the text is digits alone, and at least one.
fn are_digits(text: &[u8]) -> bool
    ensures { result ≡ is_digits text.now }
{
    1 <= text.len() && all_digits(text)
}

// The number that the digits spell, or 31 where it is above 30.
#[tactic(auto, using(crate::proofs::SpellingLemmas::stops_after))]
fn small_number(text: &[u8]) -> u32
    requires { list_all is_digit text.now ≡ true }
    ensures { result ≡ min (digits_value text.now) 31 }
{
    let mut number = 0;
    for byte in text {
        number = (10 * number + u32::from(*byte - b'0')).min(31);
    }
    number
}

// Whether the exponent is below 0, and its size, which is at most 30.
pub(crate) fn exponent(text: &[u8]) -> Result<(bool, u32), FieldFault>
    ensures { MatchResult result (λ e. (exponent_within text.now ≡ Ok (signed e.0 e.1)) × (e.1 ≤ 30)) (λ fault. exponent_within text.now ≡ Err fault) }
{
    match text {
        [] => Ok((false, 0)),
        [letter, rest @ ..] => {
            let (negative, digits) = sign(rest);
            if !is_exponent_letter(*letter) || !are_digits(digits) {
                return Err(FieldFault::Malformed);
            }
            let size = small_number(digits);
            if size > 30 {
                return Err(FieldFault::Exponent);
            }
            Ok((negative, size))
        }
    }
}
