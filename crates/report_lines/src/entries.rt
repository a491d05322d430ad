//! The lines of the log's entries.
ghost use Rattle.std.specs.Prelude.{◌≡◌, ◌↔◌, IsTrue, codes, MatchOption, MatchResult};
ghost use Rattle.lp_text.specs.Report.{entry_line, side_word};
ghost use Rattle.report_lines.specs.Judged.{IsEntryFlaw, IsIndexFlaw, IsNoSide, IsSwapFlaw, IsWithin};

use crate::flaw::Flaw;
use crate::lines::{fixed, index};
use crate::number::number;
use crate::parts::split;
use lp_model::{Entry, Side};

/// The line of an entry, whose column and position are below these bounds.
///
/// # Errors
///
/// `Word` where the line is of no entry's kind, also where no side stands behind the numbers of a swap; `Number` where a
/// number is missing or spelled in another way; `Name` where one is out of range.
pub fn entry(line: &[u8], columns: u32, positions: u32) -> Result<Entry, Flaw>
    ensures { MatchResult result (λ e. (line.now ≡ entry_line e) × IsWithin columns positions e) (IsEntryFlaw columns positions line.now) }
{
    if is(line, b"TURN") {
        return Ok(Entry::Turn);
    }
    let (word, _) = split(line);
    if is(word, b"FLIP") {
        return flip(line, columns);
    }
    swap(line, columns, positions)
}

fn flip(line: &[u8], columns: u32) -> Result<Entry, Flaw>
    ensures { MatchResult result (λ e. (line.now ≡ entry_line e) × IsWithin columns 0 e) (IsIndexFlaw (codes "FLIP") 0 columns line.now) }
{
    let column = index(line, b"FLIP", 0, columns)?;
    Ok(Entry::Flip(column))
}

fn swap(line: &[u8], columns: u32, positions: u32) -> Result<Entry, Flaw>
    ensures { MatchResult result (λ e. (line.now ≡ entry_line e) × IsWithin columns positions e) (IsSwapFlaw columns positions line.now) }
{
    let (word, rest) = split(line);
    let Some(rest) = rest else {
        return Err(Flaw::Word);
    };
    let (column, rest) = split(rest);
    let Some(rest) = rest else {
        return Err(Flaw::Word);
    };
    let (position, end) = split(rest);
    let Some(end) = end else {
        return Err(Flaw::Word);
    };
    let Some(end) = side(end) else {
        return Err(Flaw::Word);
    };
    fixed(word, b"SWAP")?;
    let Some(column) = number(column) else {
        return Err(Flaw::Number);
    };
    let Some(position) = number(position) else {
        return Err(Flaw::Number);
    };
    if u64::from(columns) <= column || u64::from(positions) <= position {
        return Err(Flaw::Name);
    }
    Ok(Entry::Swap(column as u32, position as u32, end))
}

// The side that the text names, if it names one.
fn side(text: &[u8]) -> Option<Side>
    ensures { MatchOption result (IsNoSide text.now) (λ end. text.now ≡ side_word end) }
{
    if is(text, b"LOWER") {
        Some(Side::Lower)
    } else if is(text, b"UPPER") {
        Some(Side::Upper)
    } else {
        None
    }
}

// Whether a text is this one.
fn is(given: &[u8], text: &[u8]) -> bool
    ensures { IsTrue result ↔ (given.now ≡ text.now) }
{
    given == text
}
