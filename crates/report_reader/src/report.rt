//! Reading a report.
ghost use Rattle.std.specs.Prelude.{◌≡◌, ◌≤◌, ◌∷◌, [], IfOk, IfErr, IfSome, IsErrOf, OnOk, None};
ghost use Rattle.std.specs.Io.KnownBytes.{prepend_known};
ghost use Rattle.io_ends.specs.Count.{Rose};
ghost use Rattle.lp_text.specs.Report.{report_lines};
ghost use Rattle.mps_cards.specs.NextLine.{IsAtEnd};
ghost use Rattle.report_lines.specs.FirstFlaw as expected;
ghost use Rattle.report_reader.specs.Causes.{StandsAfter};
ghost use Rattle.report_reader.specs.Reading.{IsMarked, IsReportCause, IsReportOf, IsTextOf};
ghost use Rattle.report_reader.specs.Inner.Reads.{IsReady, Reads};

use crate::fault::ReportFault;
use crate::parts::{read_basis, read_log, read_outcome};
use crate::reading::read_rest;
use crate::single::{read_title, read_version};
use cert_text::Report;
use deck_model::Deck;
use io_ends::Source;
use mps_cards::LineReader;
use std::alloc::Global;

/// Reads a report of a deck, of either version, which follows the reader's mark and is the rest of the input.
///
/// The report is one of the deck: its lists have the deck's lengths, its basis has a basic column for each row, the numbers of
/// columns and positions are in range, and those of the columns at their upper ends rise. Its text is the rest of the input, in
/// which the last line feed may be missing. The text has at most 32 MiB, and no line of it more than 255 bytes.
///
/// # Errors
///
/// `At` with the first flaw, and the number of its line counted from the input's first. `Read` where the source failed, which
/// comes only where its count of faults rose: no line that was read whole has a flaw then. `Memory` where there is too little
/// memory.
///
/// After `At` the reader stands behind the line that has the flaw, and at the input's end where a line is missing; past the limit
/// of bytes, and after `Read`, it gives that fault again.
pub fn read_report<S: Source>(
    alloc: Global,
    lines: &mut LineReader,
    source: &mut S,
    deck: &Deck,
) -> Result<Report, ReportFault>
    requires { IsMarked lines.old }
    ensures report { IfOk result (IsReportOf deck.now) }
    ensures text { IfOk result (λ report. IfSome (prepend_known lines.old.kept (S.remaining source.old)) (IsTextOf deck.now report)) }
    ensures sound { OnOk result (lines.new.fault ≡ None) }
    ensures end { OnOk result (IsAtEnd lines.new.kept (S.remaining source.new)) }
    ensures cause { IfErr result (IsReportCause deck.now lines.old (S.remaining source.old) (S.remaining source.new)
        (S.fault_count source.old) (S.fault_count source.new)) }
    ensures after { IfErr result (StandsAfter lines.new) }
    ensures rose { IsErrOf result ReportFault.Read → Rose (S.fault_count source.old) (S.fault_count source.new) }
    ensures stays { ¬ IsErrOf result ReportFault.Read → S.fault_count source.new ≡ S.fault_count source.old }
    ensures never_falls { S.fault_count source.old ≤ S.fault_count source.new }
{
    let report = read_lines(alloc, lines, source, deck)?;
    read_rest(lines, source)?;
    Ok(report)
}

// Reads the lines of a report, through its last.
fn read_lines<S: Source>(
    alloc: Global,
    lines: &mut LineReader,
    source: &mut S,
    deck: &Deck,
) -> Result<Report, ReportFault>
    requires { IsReady lines.old }
    ensures { Reads deck.now S.remaining S.fault_count lines.old lines.new source.old source.new (expected.version ∷ []) (λ _. [])
        (λ report ls. IsReportOf deck.now report × (ls ≡ report_lines deck.now report)) result }
{
    let tells = read_version(lines, source)?;
    read_title(lines, source, deck)?;
    let outcome = read_outcome(alloc, lines, source, deck)?;
    let basis = read_basis(alloc, lines, source, deck, tells)?;
    let log = read_log(alloc, lines, source, deck)?;
    Ok(Report {
        outcome,
        basis,
        log,
    })
}
