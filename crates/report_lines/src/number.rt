//! Plain numbers.
ghost use Rattle.std.specs.Prelude.{◌≡◌, ◌^◌, ◌-◌, min, true, false, MatchOption};
ghost use Rattle.std.specs.List.{list_all};
ghost use Rattle.lp_text.specs.Digits.{digits_value, is_digit};
ghost use Rattle.report_lines.specs.Numbers.{is_plain};

// The number that the text spells, if it is a plain one; the largest `u64` where it is above that.
pub fn number(text: &[u8]) -> Option<u64>
    ensures { MatchOption result (is_plain text.now ≡ false) (λ n. (is_plain text.now ≡ true) × (n ≡ min (digits_value text.now) (2 ^ 64 - 1))) }
{
    if is_plain(text) {
        Some(capped(text))
    } else {
        None
    }
}

fn is_plain(text: &[u8]) -> bool
    ensures result { result ≡ is_plain text.now }
    ensures digits { result ≡ true → list_all is_digit text.now ≡ true }
{
    !text.is_empty() && (text.len() == 1 || text[0] != b'0') && all_digits(text)
}

// Whether each byte is a digit.
fn all_digits(text: &[u8]) -> bool
    ensures { result ≡ list_all is_digit text.now }
{
    text.iter().all(|byte| byte.is_ascii_digit())
}

// The number that the digits spell; the largest `u64` where it is above that.
#[tactic(auto, using(crate::proofs::Plain::capped_after))]
fn capped(text: &[u8]) -> u64
    requires { list_all is_digit text.now ≡ true }
    ensures { result ≡ min (digits_value text.now) (2 ^ 64 - 1) }
{
    let mut number: u64 = 0;
    for byte in text {
        number = number
            .saturating_mul(10)
            .saturating_add(u64::from(*byte - b'0'));
    }
    number
}
