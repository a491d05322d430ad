// The lines of the faults of a deck.
ghost use Rattle.std.specs.Prelude.{◌≡◌, ◌++◌, IfOk, codes};
ghost use Rattle.std.specs.Fmt.{decimal};
ghost use Rattle.lp_main.specs.Refusals.{ended, wide_line};
ghost use Rattle.mps_model.specs.DeckOf.{crossed_bounds, in_line};
ghost use Rattle.lp_main.specs.FaultLines.{fault_line, limit_words, reader_line};

use deck_model::Name;
use lp_text::{Counted, LineFault};
use mps_reader::DeckFault;
use std::alloc::{AllocError, Global};

/// A line of this text.
pub fn whole_line(alloc: Global, text: &str) -> Result<Vec<u8>, AllocError>
    ensures { IfOk result (λ line. line.items ≡ ended text.now) }
{
    let mut line = Vec::from_slice(alloc, text.as_bytes())?;
    line.push(b'\n')?;
    Ok(line)
}

/// A line with a number in it.
pub fn numbered(
    alloc: Global,
    before: &str,
    number: u64,
    after: &str,
) -> Result<Vec<u8>, AllocError>
    ensures { IfOk result (λ line. line.items ≡ ended (before.now ++ decimal number ++ after.now)) }
{
    let mut line = String::from_str(alloc, before)?;
    let digits = number.to_string(alloc)?;
    line.push_str(digits.as_str())?;
    line.push_str(after)?;
    whole_line(alloc, line.as_str())
}

/// A line that names a column of a line.
fn at_column(alloc: Global, number: u64, column: u8) -> Result<Vec<u8>, AllocError>
    ensures { IfOk result (λ line. line.items ≡ ended (codes "lp: line " ++ decimal number ++ (codes ": column " ++ decimal column))) }
{
    let mut place = String::from_str(alloc, ": column ")?;
    let digits = column.to_string(alloc)?;
    place.push_str(digits.as_str())?;
    numbered(alloc, "lp: line ", number, place.as_str())
}

/// The line of a column whose bounds cross.
fn crossed(alloc: Global, name: &Name) -> Result<Vec<u8>, AllocError>
    ensures { IfOk result (λ line. line.items ≡ fault_line (crossed_bounds name.now)) }
{
    let mut line = Vec::from_slice(alloc, b"lp: column ")?;
    line.extend_from_slice(name.bytes())?;
    line.extend_from_slice(b": crossed bounds")?;
    line.push(b'\n')?;
    Ok(line)
}

/// The line of a number without a spelling on a card, which belongs to this name.
pub fn wide_line(alloc: Global, name: &Name) -> Result<Vec<u8>, AllocError>
    ensures { IfOk result (λ line. line.items ≡ wide_line name.now) }
{
    let mut line = Vec::from_slice(alloc, b"lp: number without card spelling at ")?;
    line.extend_from_slice(name.bytes())?;
    line.push(b'\n')?;
    Ok(line)
}

/// What is said of a limit.
fn limit_words(what: Counted) -> &'static str
    ensures { result.now ≡ limit_words what }
{
    match what {
        Counted::Rows => ": limit of rows",
        Counted::Columns => ": limit of columns",
        Counted::Entries => ": limit of entries",
        Counted::Bytes => ": limit of bytes",
    }
}

/// The line of a fault of a line.
fn in_line(alloc: Global, line: u64, fault: LineFault) -> Result<Vec<u8>, AllocError>
    ensures { IfOk result (λ text. text.items ≡ fault_line (in_line line fault)) }
{
    match fault {
        LineFault::Limit(what) => numbered(alloc, "lp: line ", line, limit_words(what)),
        LineFault::NotAscii => numbered(alloc, "lp: line ", line, ": byte not printable"),
        LineFault::Columns(column) => at_column(alloc, line, column),
        LineFault::Token => numbered(alloc, "lp: line ", line, ": token"),
        LineFault::Sense => numbered(alloc, "lp: line ", line, ": sense"),
        LineFault::Section => numbered(alloc, "lp: line ", line, ": section"),
        LineFault::RowType => numbered(alloc, "lp: line ", line, ": row type"),
        LineFault::UnknownRow => numbered(alloc, "lp: line ", line, ": unknown row"),
        LineFault::UnknownColumn => numbered(alloc, "lp: line ", line, ": unknown column"),
        LineFault::Repeated => numbered(alloc, "lp: line ", line, ": repeated"),
        LineFault::Scattered => numbered(alloc, "lp: line ", line, ": scattered column"),
        LineFault::Number => numbered(alloc, "lp: line ", line, ": number"),
        LineFault::Bound => numbered(alloc, "lp: line ", line, ": bound"),
        LineFault::Integer => numbered(alloc, "lp: line ", line, ": integer"),
    }
}

/// The line of a fault of a deck.
pub fn fault_line(alloc: Global, fault: &DeckFault) -> Result<Vec<u8>, AllocError>
    ensures { IfOk result (λ line. line.items ≡ reader_line fault.now) }
{
    match fault {
        DeckFault::Read => whole_line(alloc, "lp: read failed"),
        DeckFault::Memory => whole_line(alloc, "lp: out of memory"),
        DeckFault::InLine(line, fault) => in_line(alloc, *line, *fault),
        DeckFault::NoObjective => whole_line(alloc, "lp: no objective row"),
        DeckFault::NoEnd(lines) => {
            numbered(
                alloc,
                "lp: deck ends without ENDATA after ",
                *lines,
                " lines",
            )
        }
        DeckFault::CrossedBounds(name) => crossed(alloc, name),
    }
}
