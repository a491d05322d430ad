//! Number fields: a decimal number with an exponent of ten, as an exact fraction.
//!
//! - **What it is.** [`field`] reads a number as it stands on a card: an optional sign; digits with at
//!   most one point, and at least one digit; then at most one of `E`, `e`, `D` and `d` with an optional
//!   sign and at least one digit.
//! - **The model.** A field is its list of bytes; its value is a number `ℚ` of the crate `rational`.
//! - **The contract.** `field_value` of the crate `mps_model` says which number a field spells and which
//!   fault it has. [`field`] answers just that: the exact value, or the first of three faults, `Malformed`,
//!   `Exponent` and `Unfit`. It takes no memory.
//! - **Limits.** A field may have any length, and every value that fits is read, also one whose digits
//!   spell a number far above 128 bits, as 2^-126 with its 89 digits. The digits after the point, with the
//!   exponent counted in, are read from the last to the first as a fraction in lowest terms, whose
//!   denominator only grows; those before it from the first on.
//! - **Stands on** `exact_frac` for the fraction, and on `mps_model` and `lp_text` for the definitions and the faults.
#![tactic(auto)]

ghost use Rattle.std.specs.Prelude.{◌≡◌, MatchResult, Ok, Err};
ghost use Rattle.mps_model.specs.NumberField.{field_value};

mod digits;
mod parts;
mod spelling;
mod tenths;

use exact_frac::Frac;
use mps_model::FieldFault;

// What the parts of a fraction stay below.
const LIMIT: u128 = 1 << 127;

/// The number that a field spells.
///
/// # Errors
///
/// The first that is so: `Malformed` where it spells none, `Exponent` where the exponent's size is above
/// 30, `Unfit` where the value does not fit 127 bits.
pub fn field(bytes: &[u8]) -> Result<Frac, FieldFault>
    ensures { MatchResult result (λ value. field_value bytes.now ≡ Ok value) (λ fault. field_value bytes.now ≡ Err fault) }
{
    let (negative, body) = spelling::sign(bytes);
    let (whole, decimals, rest) = spelling::mantissa(body);
    if whole.is_empty() && decimals.is_empty() {
        return Err(FieldFault::Malformed);
    }
    let (down, size) = spelling::exponent(rest)?;
    match parts::value(negative, whole, decimals, down, size) {
        None => Err(FieldFault::Unfit),
        Some(value) => Ok(value),
    }
}
