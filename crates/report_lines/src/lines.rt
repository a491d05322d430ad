//! The lines that are expected in a report.
ghost use Rattle.std.specs.Prelude.{◌≡◌, ◌<◌, ◌≤◌, ◌∷◌, ◌++◌, codes, MatchResult};
ghost use Rattle.std.specs.Fmt.{decimal};
ghost use Rattle.rational.specs.Width.{FitsWidth};
ghost use Rattle.lp_text.specs.Fraction.{fraction_text};
ghost use Rattle.lp_text.specs.Report.{value_line};
ghost use Rattle.report_lines.specs.Judged.{IsCountFlaw, IsCountLine, IsFixedFlaw, IsIndexFlaw, IsObjectiveFlaw, IsTitleFlaw, IsValueFlaw};

use crate::flaw::Flaw;
use crate::number::number;
use crate::parts::{is_name, split};
use exact_frac::Frac;

/// A line of this text and no other.
///
/// # Errors
///
/// `Word` at any other line.
pub fn fixed(line: &[u8], text: &[u8]) -> Result<(), Flaw>
    ensures { MatchResult result (λ _. line.now ≡ text.now) (IsFixedFlaw line.now text.now) }
{
    if line == text {
        Ok(())
    } else {
        Err(Flaw::Word)
    }
}

/// The line of the deck's name.
///
/// # Errors
///
/// `Word` where the word is another, `Name` where the name is missing or another.
pub fn title(line: &[u8], name: &[u8]) -> Result<(), Flaw>
    ensures { MatchResult result (λ _. line.now ≡ codes "DECK " ++ name.now) (IsTitleFlaw line.now name.now) }
{
    let (word, rest) = split(line);
    fixed(word, b"DECK")?;
    if is_name(rest, name) {
        Ok(())
    } else {
        Err(Flaw::Name)
    }
}

/// The line of the objective's value.
///
/// # Errors
///
/// `Word` where the word is another, `Number` where the number is missing or spelled in another way.
pub fn objective(line: &[u8]) -> Result<Frac, Flaw>
    ensures { MatchResult result (λ v. (line.now ≡ codes "OBJECTIVE " ++ fraction_text v) × FitsWidth 127 v) (IsObjectiveFlaw line.now) }
{
    let (word, rest) = split(line);
    fixed(word, b"OBJECTIVE")?;
    let Some(number) = rest else {
        return Err(Flaw::Number);
    };
    match frac_text::read(number) {
        Some(value) => Ok(value),
        None => Err(Flaw::Number),
    }
}

/// The line of a word, a value and the name of its column or row.
///
/// # Errors
///
/// `Word` where the word is another, `Number` where the number is missing or spelled in another way, `Name` where the name
/// is missing or another.
pub fn value(line: &[u8], word: &[u8], name: &[u8]) -> Result<Frac, Flaw>
    ensures { MatchResult result (λ v. (line.now ≡ value_line word.now v name.now) × FitsWidth 127 v) (IsValueFlaw line.now word.now name.now) }
{
    let (given_word, rest) = split(line);
    fixed(given_word, word)?;
    let Some(rest) = rest else {
        return Err(Flaw::Number);
    };
    let (number, given) = split(rest);
    let Some(value) = frac_text::read(number) else {
        return Err(Flaw::Number);
    };
    if is_name(given, name) {
        Ok(value)
    } else {
        Err(Flaw::Name)
    }
}

/// The line of a word and a count of any size. A count above `u64::MAX` is told as that.
///
/// # Errors
///
/// `Word` where the word is another, `Number` where the count is missing or spelled in another way.
pub fn counted(line: &[u8], word: &[u8]) -> Result<u64, Flaw>
    ensures { MatchResult result (IsCountLine word.now line.now) (IsCountFlaw word.now line.now) }
{
    let (given, rest) = split(line);
    fixed(given, word)?;
    let Some(text) = rest else {
        return Err(Flaw::Number);
    };
    match number(text) {
        Some(count) => Ok(count),
        None => Err(Flaw::Number),
    }
}

/// The line of a word and the number of a column or a position, which is at least the first bound and below the second.
///
/// # Errors
///
/// `Word` where the word is another, `Number` where the number is missing or spelled in another way, `Name` where it is out
/// of these bounds.
pub fn index(line: &[u8], word: &[u8], least: u32, below: u32) -> Result<u32, Flaw>
    ensures { MatchResult result (λ n. (line.now ≡ word.now ++ 32 ∷ decimal n) × (least ≤ n) × (n < below)) (IsIndexFlaw word.now least below line.now) }
{
    let (given, rest) = split(line);
    fixed(given, word)?;
    let Some(text) = rest else {
        return Err(Flaw::Number);
    };
    let Some(value) = number(text) else {
        return Err(Flaw::Number);
    };
    if value < u64::from(least) || u64::from(below) <= value {
        return Err(Flaw::Name);
    }
    Ok(value as u32)
}
