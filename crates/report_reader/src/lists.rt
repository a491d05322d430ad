// The lists of a report, taken line by line.
ghost use Rattle.std.specs.Prelude.{◌≡◌, ◌<◌, ◌≤◌, ◌+◌, [], codes, length, map};
ghost use Rattle.std.specs.List.{All};
ghost use Rattle.rational.specs.Width.{FitsWidth};
ghost use Rattle.lp_model.specs.Deck.{Deck as Program};
ghost use Rattle.lp_text.specs.Report.{entry_line, number_line, value_lines};
ghost use Rattle.cert_text.specs.Names.{names_of};
ghost use Rattle.report_lines.specs.Judged.{IsWithin};
ghost use Rattle.report_lines.specs.FirstFlaw as expected;
ghost use Rattle.report_lines.specs.FirstFlaw.{column_total, repeated, values};
ghost use Rattle.report_reader.specs.Reading.{IsRising};
ghost use Rattle.report_reader.specs.Inner.Reads.{IsReady, Reads};

use crate::fault::ReportFault;
use crate::judges::column_total;
use crate::single::{read_basic_column, read_entry, read_upper_column, read_value};
use cert_text::Names;
use deck_model::{Deck, Log, Numbers};
use exact_frac::Fracs;
use io_ends::Source;
use mps_cards::LineReader;
use std::alloc::Global;

/// A line of a word and a value for each of these names.
pub(crate) fn read_values<S: Source>(
    alloc: Global,
    lines: &mut LineReader,
    source: &mut S,
    word: &[u8],
    names: &Names,
) -> Result<Fracs, ReportFault>
    requires { IsReady lines.old }
    ensures { (d : Program) → Reads d S.remaining S.fault_count lines.old lines.new source.old source.new
        (values word.now (names_of names.now)) (λ _. [])
        (λ v ls. ((length v ≡ length (names_of names.now)) × All (FitsWidth 127) v) × (ls ≡ value_lines word.now v (names_of names.now))) result }
{
    let mut list = Vec::new(alloc);
    for index in 0..names.len() {
        let value = read_value(lines, source, word, names.get(index))?;
        list.push(value)?;
    }
    Ok(Fracs::of(list))
}

/// A line of a basic column for each row.
pub(crate) fn read_basic<S: Source>(
    alloc: Global,
    lines: &mut LineReader,
    source: &mut S,
    deck: &Deck,
) -> Result<Numbers, ReportFault>
    requires { IsReady lines.old }
    ensures { Reads deck.now S.remaining S.fault_count lines.old lines.new source.old source.new
        (repeated expected.basic (length deck.now.rows)) (λ _. [])
        (λ b ls. (length b ≡ length deck.now.rows) × All (λ q. q < column_total deck.now) b × (ls ≡ map (number_line (codes "BASIC")) b)) result }
{
    let mut list = Vec::new(alloc);
    for _position in 0..deck.rows() {
        let column = read_basic_column(lines, source, deck)?;
        list.push(column)?;
    }
    Ok(Numbers::of(list))
}

/// So many lines of columns at their upper ends, which rise.
pub(crate) fn read_upper<S: Source>(
    alloc: Global,
    lines: &mut LineReader,
    source: &mut S,
    deck: &Deck,
    count: u64,
) -> Result<Numbers, ReportFault>
    requires { IsReady lines.old }
    ensures { Reads deck.now S.remaining S.fault_count lines.old lines.new source.old source.new
        (repeated (expected.at 0) count) (λ _. [])
        (λ u ls. (length u ≡ count) × All (λ q. q < column_total deck.now) u × IsRising u × (ls ≡ map (number_line (codes "AT")) u)) result }
{
    let mut list = Vec::new(alloc);
    let columns = column_total(deck);
    let mut least = 0;
    for _index in 0..count {
        let column = read_upper_column(lines, source, deck, least)?;
        list.push(column)?;
        prove!(column < columns);
        least = column + 1;
    }
    Ok(Numbers::of(list))
}

/// So many lines of entries of the log.
pub(crate) fn read_entries<S: Source>(
    alloc: Global,
    lines: &mut LineReader,
    source: &mut S,
    deck: &Deck,
    count: u64,
) -> Result<Log, ReportFault>
    requires { IsReady lines.old }
    ensures { Reads deck.now S.remaining S.fault_count lines.old lines.new source.old source.new
        (repeated expected.entry count) (λ _. [])
        (λ log ls. (length log ≡ count) × All (IsWithin (column_total deck.now) (length deck.now.rows)) log × (ls ≡ map entry_line log)) result }
{
    let mut log = Log::new(alloc);
    for _index in 0..count {
        let entry = read_entry(lines, source, deck)?;
        log.push(entry)?;
    }
    Ok(log)
}
