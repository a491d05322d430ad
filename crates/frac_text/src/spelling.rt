//! The spelling of a number on a card of a deck.
//!
//! A number is spelled by its digits, with a point where it has decimal places. Where that takes more than 12 bytes it is
//! spelled by a whole number and a power of ten, and where that takes more than 12 bytes too, it has no spelling.
ghost use Rattle.std.specs.Prelude.{◌≡◌, ◌≢◌, ℕ, ◌+◌, ◌-◌, ◌*◌, ◌/◌, ◌%◌, ◌^◌, ◌<◌, ◌≤◌, ◌++◌, ◌∷◌, [], length, replicate, IfOk, OnOk, OnErr, MatchResult, MatchOption, Some, None, nat_abs, nat_lt, ⊤, if◌then◌else◌};
ghost use Rattle.std.specs.Fmt.{decimal};
ghost use Rattle.rational.specs.Gcd.{IsCoprime};
ghost use Rattle.frac_text.specs.Card.{IsNoText, card_text, decimal_of, places_card, pointed, signed_text, whole_card, with_places, zeros_of, zeros_text};

use exact_frac::Frac;
use itoa::Buffer;
use no_memory::Memory;
use std::alloc::{AllocError, AllocFailed, Global};
use thiserror::Error;

// How many bytes a card has for a number.
const ROOM: usize = 12;

// What a whole number of 12 digits stays below.
const MANTISSA_LIMIT: u128 = 1_000_000_000_000;

// The largest denominator of a number with at most 37 decimal places, 10^37.
const MOST_DENOM: u128 = 10_000_000_000_000_000_000_000_000_000_000_000_000;

/// Why a number was not spelled.
#[derive(Clone, Copy, Debug, PartialEq, Eq, Error)]
pub enum SpellFault {
    /// The allocator had no memory left.
    #[error("out of memory")]
    Memory,
    /// The number has no spelling on a card.
    #[error("too wide for a card")]
    Wide,
}

impl From<AllocError> for SpellFault {
    ghost use Rattle.frac_text.specs.declared.spelling.SpellFault.{SpellFault};

    ghost from_gives = { λ _ fault. fault ≡ SpellFault.Memory };

    fn from(_refusal: AllocError) -> SpellFault {
        SpellFault::Memory
    }
}

/// The spelling of a number on a card of a deck: at most 12 bytes, which a number field reads as this number.
///
/// # Errors
///
/// `Wide` exactly where the number has no spelling on a card: it is no decimal fraction, or would take more than 12 bytes.
/// `Memory` for want of memory.
pub fn card(alloc: Global, value: Frac) -> Result<Vec<u8>, SpellFault>
    ensures { MatchResult result (λ bytes. card_text value ≡ Some bytes.items) (IsNoText (card_text value)) }
{
    let negative = value.numer() < 0;
    let (size, denom) = size_and_denominator(value);
    if size % denom == 0 {
        return whole(alloc, negative, size / denom);
    }
    match places(size, denom) {
        Some((mantissa, count)) => with_point(alloc, negative, mantissa, count),
        None => Err(SpellFault::Wide),
    }
}

// The size of the numerator, and the denominator.
fn size_and_denominator(value: Frac) -> (u128, u128)
    ensures size { result.0 ≡ nat_abs value.numerator }
    ensures denom { result.1 ≡ value.denominator }
    ensures below { result.0 < 2 ^ 127 }
{
    (value.numer().unsigned_abs(), value.denom().unsigned_abs())
}

// The spelling of a whole number.
fn whole(alloc: Global, negative: bool, size: u128) -> Result<Vec<u8>, SpellFault>
    requires { size < 2 ^ 127 }
    ensures { MatchResult result (λ bytes. whole_card negative size ≡ Some bytes.items) (IsNoText (whole_card negative size)) }
{
    let mut plain = sign(alloc, negative)?;
    plain.extend_from_slice(Buffer::new().format(size).as_bytes())?;
    if plain.len() <= ROOM {
        return Ok(plain);
    }
    let (mantissa, zeros) = trimmed(size);
    let mut scaled = sign(alloc, negative)?;
    scaled.extend_from_slice(Buffer::new().format(mantissa).as_bytes())?;
    put_zeros_text(&mut scaled, zeros)?;
    if scaled.len() <= ROOM {
        Ok(scaled)
    } else {
        Err(SpellFault::Wide)
    }
}

// The number without the zeros that it ends in, and how many these are.
fn trimmed(size: u128) -> (u128, usize)
    ensures mantissa { result.0 ≡ size / 10 ^ zeros_of size }
    ensures zeros { result.1 ≡ zeros_of size }
    ensures few { result.1 ≤ 39 }
{
    let mut rest = size;
    for zeros in 0..39 {
        if rest % 10 != 0 {
            return (rest, zeros);
        }
        rest /= 10;
    }
    (rest, 39)
}

// Appends what tells so many zeros.
fn put_zeros_text(text: &mut Vec<u8>, zeros: usize) -> Result<(), AllocError>
    ensures { OnOk result (text.new.items ≡ text.old.items ++ zeros_text zeros) }
{
    if zeros <= 30 {
        text.push(b'E')?;
        return text.extend_from_slice(Buffer::new().format(zeros).as_bytes());
    }
    put_zeros(text, zeros - 30)?;
    text.extend_from_slice(b"E30")
}

// The spelling of a number with decimal places.
fn with_point(
    alloc: Global,
    negative: bool,
    mantissa: u64,
    places: usize,
) -> Result<Vec<u8>, SpellFault>
    requires { mantissa < 10 ^ 12 }
    ensures { MatchResult result (λ bytes. places_card negative (mantissa, places) ≡ Some bytes.items) (IsNoText (places_card negative (mantissa, places))) }
{
    let mut buffer = Buffer::new();
    let digits = buffer.format(mantissa).as_bytes();
    let mut plain = sign(alloc, negative)?;
    put_pointed(&mut plain, digits, places)?;
    if plain.len() <= ROOM {
        return Ok(plain);
    }
    let mut scaled = sign(alloc, negative)?;
    put_scaled(&mut scaled, digits, places)?;
    if scaled.len() <= ROOM {
        Ok(scaled)
    } else {
        Err(SpellFault::Wide)
    }
}

// The number without its point, and its decimal places.
fn places(size: u128, denom: u128) -> Option<(u64, usize)>
    requires size { size < 2 ^ 127 }
    requires coprime { IsCoprime size denom }
    requires some { 0 < denom }
    requires broken { size % denom ≢ 0 }
    ensures places { result ≡ decimal_of size denom }
    ensures small { MatchOption result (⊤) (λ r. r.0 < 10 ^ 12) }
{
    if denom > MOST_DENOM {
        return None;
    }
    let mut whole = size / denom;
    let mut rest = size % denom;
    for before in 0..37 {
        if whole >= MANTISSA_LIMIT {
            return None;
        }
        rest *= 10;
        whole = 10 * whole + rest / denom;
        rest %= denom;
        if rest == 0 {
            return small(whole, before + 1);
        }
    }
    None
}

// Digits and places, if there are at most 12 digits.
fn small(mantissa: u128, places: usize) -> Option<(u64, usize)>
    ensures value { result ≡ (if nat_lt mantissa (10 ^ 12) then Some (mantissa, places) else None) }
    ensures small { MatchOption result (⊤) (λ r. r.0 < 10 ^ 12) }
{
    if mantissa < MANTISSA_LIMIT {
        Some((mantissa as u64, places))
    } else {
        None
    }
}

// Appends digits with a point before the last of them.
fn put_pointed(text: &mut Vec<u8>, digits: &[u8], places: usize) -> Result<(), AllocError>
    ensures { OnOk result (text.new.items ≡ text.old.items ++ pointed digits.now places) }
{
    if places < digits.len() {
        let (before, after) = digits.split_at(digits.len() - places);
        text.extend_from_slice(before)?;
        text.push(b'.')?;
        return text.extend_from_slice(after);
    }
    text.push(b'.')?;
    put_zeros(text, places - digits.len())?;
    text.extend_from_slice(digits)
}

// Appends digits, and how many of them are decimal places.
fn put_scaled(text: &mut Vec<u8>, digits: &[u8], places: usize) -> Result<(), AllocError>
    ensures { OnOk result (text.new.items ≡ text.old.items ++ with_places digits.now places) }
{
    if places <= 30 {
        text.extend_from_slice(digits)?;
        text.extend_from_slice(b"E-")?;
        return text.extend_from_slice(Buffer::new().format(places).as_bytes());
    }
    put_pointed(text, digits, places - 30)?;
    text.extend_from_slice(b"E-30")
}

// Appends zeros.
fn put_zeros(text: &mut Vec<u8>, count: usize) -> Result<(), AllocError>
    ensures { OnOk result (text.new.items ≡ text.old.items ++ replicate count 48) }
{
    for _ in 0..count {
        text.push(b'0')?;
    }
    Ok(())
}

// A minus where it is asked for, and nothing else.
fn sign(alloc: Global, negative: bool) -> Result<Vec<u8>, AllocError>
    ensures { IfOk result (λ text. text.items ≡ signed_text negative []) }
{
    let mut text = Vec::new(alloc);
    if negative {
        text.push(b'-')?;
    }
    Ok(text)
}
