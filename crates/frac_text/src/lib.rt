//! Fractions as texts.
//!
//! A fraction is written as its numerator in lowest terms, with a minus sign before it where it is below 0, and after a
//! stroke its denominator, where that is not 1: `7`, `-3/2`, `0`. No number begins with a zero, but 0 itself.
//!
//! # Contract
//!
//! [`text`] answers this text, which `lp_text` defines as `fraction_text`, and [`append`] puts it at the end of a list of
//! bytes. Both refuse only for want of memory; `append` then leaves the list as it was.
//!
//! [`read`] answers the fraction of a text, and none exactly where no fraction whose parts are below 2^127 has it. It takes
//! no memory.
//!
//! [`card`] answers the spelling of a fraction on a card of a deck, which has 12 bytes for it: its digits, with a point where it has decimal
//! places, or a whole number and a power of ten where that would be too long. `Wide` comes exactly where a fraction has no such spelling
//! (`specs/Card.antt`).
//!
//! The crate stands on `exact_frac`, on `lp_text` for the definition of the text, on `itoa`, which prints integers of up to 128
//! bits, on `rational`, `no_memory` and `thiserror`.
#![tactic(auto)]

ghost use Rattle.std.specs.Prelude.{◌≡◌, ◌++◌, IfOk, OnOk, OnErr};
ghost use Rattle.lp_text.specs.Fraction.{fraction_text};

mod reading;
mod spelling;

use exact_frac::Frac;
use itoa::Buffer;
use no_memory::Memory;
pub use reading::read;
pub use spelling::{SpellFault, card};
use std::alloc::Global;

/// The text of a fraction.
///
/// # Errors
///
/// `Memory` for want of memory.
pub fn text(alloc: Global, value: Frac) -> Result<Vec<u8>, Memory>
    ensures { IfOk result (λ bytes. bytes.items ≡ fraction_text value) }
{
    let mut bytes = Vec::new(alloc);
    append(&mut bytes, value)?;
    Ok(bytes)
}

/// Appends the text of a fraction to a list of bytes.
///
/// # Errors
///
/// `Memory` for want of memory. The list is then as it was.
pub fn append(bytes: &mut Vec<u8>, value: Frac) -> Result<(), Memory>
    ensures ok { OnOk result (bytes.new.items ≡ bytes.old.items ++ fraction_text value) }
    ensures err { OnErr result (bytes.new.items ≡ bytes.old.items) }
{
    let mut above = Buffer::new();
    let numerator = above.format(value.numer()).as_bytes();
    let denominator = value.denom();
    if denominator == 1 {
        bytes.extend_from_slice(numerator)?;
        return Ok(());
    }
    let mut below = Buffer::new();
    let denominator = below.format(denominator).as_bytes();
    bytes.reserve(numerator.len() + 1 + denominator.len())?;
    bytes.extend_from_slice(numerator).unwrap();
    bytes.push(b'/').unwrap();
    bytes.extend_from_slice(denominator).unwrap();
    Ok(())
}

#[cfg(test)]
mod tests;
