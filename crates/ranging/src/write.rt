//! The text of ranges.
ghost use Rattle.std.specs.Prelude.{◌≡◌, ◌≤◌, [], ◌∷◌, length, codes, OnOk, IsErrOf};
ghost use Rattle.io_ends.specs.Bytes.{Appends, AppendsPrefix};
ghost use Rattle.io_ends.specs.Count.{Rose};
ghost use Rattle.lp_text.specs.Report.{column_names, row_names};
ghost use Rattle.cert_text.specs.Names.{names_of};
ghost use Rattle.cert_text.specs.Writes.{Writes};
ghost use Rattle.ranging.specs.Inner.Lines.{line_text};
ghost use Rattle.ranging.specs.Text.{HasLengthsOf, range_lines, range_text, ranged_lines};

use crate::found::Ranges;
use crate::line::Line;
use cert_text::Names;
pub use cert_text::ReportWriteFault as RangeWriteFault;
use deck_model::Deck;
use instance_model::Bounds;
use io_ends::{Sink, write_all};
use std::alloc::Global;

/// Writes the ranges of a deck, each line as one piece.
///
/// # Errors
///
/// `Write` where the sink failed, and `Memory` for want of memory. The sink has then gained a beginning of the text.
pub fn write_ranges<K: Sink>(
    alloc: Global,
    deck: &Deck,
    found: &Ranges,
    out: &mut K,
) -> Result<(), RangeWriteFault>
    requires { HasLengthsOf deck.now found.now }
    ensures appended { OnOk result (Appends (K.contents out.old) (K.contents out.new) (range_text deck.now found.now)) }
    ensures stays { OnOk result (K.fault_count out.new ≡ K.fault_count out.old) }
    ensures part { AppendsPrefix (K.contents out.old) (K.contents out.new) (range_text deck.now found.now) }
    ensures write { IsErrOf result RangeWriteFault.Write → Rose (K.fault_count out.old) (K.fault_count out.new) }
    ensures memory { IsErrOf result RangeWriteFault.Memory → K.fault_count out.new ≡ K.fault_count out.old }
    ensures never_falls { K.fault_count out.old ≤ K.fault_count out.new }
{
    let mut buffer = Vec::new(alloc);
    write_lines(&mut buffer, deck, found, out)
}

// Writes all lines of the ranges of a deck.
fn write_lines<K: Sink>(
    buffer: &mut Vec<u8>,
    deck: &Deck,
    found: &Ranges,
    out: &mut K,
) -> Result<(), RangeWriteFault>
    requires { HasLengthsOf deck.now found.now }
    ensures { Writes K.contents K.fault_count out.old out.new (range_lines deck.now found.now) result }
{
    write_line(buffer, &Line::Word(b"LPRANGE 1"), out)?;
    write_line(buffer, &Line::Deck(deck.name().bytes()), out)?;
    write_line(buffer, &Line::Word(b"OPTIMAL"), out)?;
    write_costs(buffer, deck, found, out)?;
    write_rights(buffer, deck, found, out)?;
    write_line(buffer, &Line::Word(b"END"), out)
}

// Writes the lines of the costs.
fn write_costs<K: Sink>(
    buffer: &mut Vec<u8>,
    deck: &Deck,
    found: &Ranges,
    out: &mut K,
) -> Result<(), RangeWriteFault>
    requires { HasLengthsOf deck.now found.now }
    ensures { Writes K.contents K.fault_count out.old out.new (ranged_lines (codes "COST") found.now.costs (column_names deck.now)) result }
{
    let ranges = found.cost_intervals();
    write_each(buffer, b"COST", ranges, &Names::Columns(deck), out)
}

// Writes the lines of the right sides.
fn write_rights<K: Sink>(
    buffer: &mut Vec<u8>,
    deck: &Deck,
    found: &Ranges,
    out: &mut K,
) -> Result<(), RangeWriteFault>
    requires { HasLengthsOf deck.now found.now }
    ensures { Writes K.contents K.fault_count out.old out.new (ranged_lines (codes "RIGHT") found.now.rights (row_names deck.now)) result }
{
    let ranges = found.right_intervals();
    write_each(buffer, b"RIGHT", ranges, &Names::Rows(deck), out)
}

// Writes a line for each name, with the word and the interval at its index.
fn write_each<K: Sink>(
    buffer: &mut Vec<u8>,
    word: &[u8],
    ranges: &[Bounds],
    names: &Names,
    out: &mut K,
) -> Result<(), RangeWriteFault>
    requires { length ranges.now ≡ length (names_of names.now) }
    ensures { Writes K.contents K.fault_count out.old out.new (ranged_lines word.now ranges.now (names_of names.now)) result }
{
    for index in 0..names.len() {
        let range = ranges[index];
        let name = names.get(index);
        write_line(buffer, &Line::Range(word, range, name), out)?;
    }
    Ok(())
}

// Writes a line as one piece, by way of the buffer.
fn write_line<K: Sink>(
    buffer: &mut Vec<u8>,
    line: &Line,
    out: &mut K,
) -> Result<(), RangeWriteFault>
    ensures { Writes K.contents K.fault_count out.old out.new (line_text line.now ∷ []) result }
{
    line.fill(buffer)?;
    write_all(out, buffer)?;
    Ok(())
}
