//! The number of an option.
ghost use Rattle.std.specs.Prelude.{◌≡◌, ◌^◌, ◌-◌, ◌<◌, min, true};
ghost use Rattle.std.specs.List.{list_all};
ghost use Rattle.lp_text.specs.Digits.{digits_value, is_digit};
ghost use Rattle.lp_words.specs.Words.{is_number, number_from_to};

// The number of a text, if it is one from the least to the most.
pub fn number(text: &str, least: u32, most: u32) -> Option<u32>
    requires { most < 10000000 }
    ensures { result ≡ number_from_to least most text.now }
{
    let text = text.as_bytes();
    if !is_number(text) {
        return None;
    }
    let number = capped(text);
    if least <= number && number <= most {
        Some(number)
    } else {
        None
    }
}

// Whether the text is 1 to 7 digits.
fn is_number(text: &[u8]) -> bool
    ensures result { result ≡ is_number text.now }
    ensures digits { result ≡ true → list_all is_digit text.now ≡ true }
{
    1 <= text.len() && text.len() <= 7 && all_digits(text)
}

// Whether each byte is a digit.
fn all_digits(text: &[u8]) -> bool
    ensures { result ≡ list_all is_digit text.now }
{
    text.iter().all(|byte| byte.is_ascii_digit())
}

// The number that the digits spell; the largest `u32` where it is above that.
#[tactic(auto, using(crate::proofs::Capped::capped_after))]
fn capped(text: &[u8]) -> u32
    requires { list_all is_digit text.now ≡ true }
    ensures { result ≡ min (digits_value text.now) (2 ^ 32 - 1) }
{
    let mut number: u32 = 0;
    for byte in text {
        number = number
            .saturating_mul(10)
            .saturating_add(u32::from(*byte - b'0'));
    }
    number
}
