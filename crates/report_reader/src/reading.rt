// The lines of a report from those of a source.
ghost use Rattle.std.specs.Prelude.{◌≡◌, ◌≤◌, None, IfOk, IfErr, OnOk, IsErrOf, false, if◌then◌else◌};
ghost use Rattle.io_ends.specs.Count.{Rose};
ghost use Rattle.lp_text.specs.Limits.{report_limit, report_line_limit};
ghost use Rattle.lp_model.specs.Deck.{Deck};
ghost use Rattle.mps_cards.specs.NextLine.{AnswersLine, IsAtEnd, TakesAsNeeded};
ghost use Rattle.report_reader.specs.Causes.{IsLineCause, StandsAfter};
ghost use Rattle.report_reader.specs.Inner.Reads.{IsReady, IsRestCause};
ghost use Rattle.report_reader.specs.Inner.Told.{told};

use crate::fault::ReportFault;
use io_ends::Source;
use mps_cards::{Line, LineReader, ReadFault};
use report_lines::Flaw;

// The bytes that a report may have.
const REPORT_LIMIT: u64 = 33_554_432;

// The bytes that a line of a report may have, without its line feed.
const LINE_LIMIT: usize = 255;

/// The next line of a report that follows the reader's mark.
///
/// # Errors
///
/// `At` with the number of this line: `Bytes` where the report is too long, `Long` where the line is, `Missing` where the
/// input has ended. `Read` where the source failed, `Memory` where there is too little memory.
pub(crate) fn next_line<S: Source>(
    lines: &mut LineReader,
    source: &mut S,
) -> Result<Line, ReportFault>
    requires { lines.old.fault ≡ None }
    ensures line { IfOk result (AnswersLine lines.old lines.new (S.remaining source.old) (S.remaining source.new) report_line_limit report_limit) }
    ensures whole { IfOk result (λ line. line.longer ≡ false) }
    ensures cause { IfErr result (IsLineCause lines.old lines.new (S.remaining source.old) (S.remaining source.new)
        (S.fault_count source.old) (S.fault_count source.new)) }
    ensures after { IfErr result (StandsAfter lines.new) }
    ensures needed { TakesAsNeeded lines.old.kept lines.old.since report_limit (S.remaining source.old) (S.remaining source.new) }
    ensures rose { IsErrOf result ReportFault.Read → Rose (S.fault_count source.old) (S.fault_count source.new) }
    ensures stays { ¬ IsErrOf result ReportFault.Read → S.fault_count source.new ≡ S.fault_count source.old }
    ensures never_falls { S.fault_count source.old ≤ S.fault_count source.new }
{
    match lines.line(source, LINE_LIMIT, REPORT_LIMIT) {
        Ok(Some(line)) => {
            if line.longer {
                return Err(ReportFault::At(line.number, Flaw::Long));
            }
            Ok(line)
        }
        Ok(None) => Err(ReportFault::At(lines.lines().saturating_add(1), Flaw::Missing)),
        Err(ReadFault::Memory) => Err(ReportFault::Memory),
        Err(ReadFault::Read) => Err(ReportFault::Read),
        Err(ReadFault::TooMany(line)) => Err(ReportFault::At(line, Flaw::Bytes)),
    }
}

/// Takes nothing where the input has ended.
///
/// # Errors
///
/// `At` with the number of the next line: `Bytes` where the report is too long with it, `Long` where it is too long, else `Rest`.
/// `Read` where the source failed, `Memory` where there is too little memory.
pub(crate) fn read_rest<S: Source>(
    lines: &mut LineReader,
    source: &mut S,
) -> Result<(), ReportFault>
    requires { IsReady lines.old }
    ensures end { OnOk result (IsAtEnd lines.old.kept (S.remaining source.old)) }
    ensures unmoved { OnOk result ((lines.new ≡ lines.old) × (S.remaining source.new ≡ S.remaining source.old)) }
    ensures cause { (d : Deck) → IfErr result (IsRestCause d lines.old (S.remaining source.old) (S.remaining source.new)
        (S.fault_count source.old) (S.fault_count source.new)) }
    ensures after { IfErr result (StandsAfter lines.new) }
    ensures rose { IsErrOf result ReportFault.Read → Rose (S.fault_count source.old) (S.fault_count source.new) }
    ensures stays { ¬ IsErrOf result ReportFault.Read → S.fault_count source.new ≡ S.fault_count source.old }
    ensures never_falls { S.fault_count source.old ≤ S.fault_count source.new }
{
    match lines.line(source, LINE_LIMIT, REPORT_LIMIT) {
        Ok(None) => Ok(()),
        Ok(Some(line)) => Err(ReportFault::At(line.number, flaw_of_rest(&line))),
        Err(ReadFault::Memory) => Err(ReportFault::Memory),
        Err(ReadFault::Read) => Err(ReportFault::Read),
        Err(ReadFault::TooMany(line)) => Err(ReportFault::At(line, Flaw::Bytes)),
    }
}

// The flaw of a line that follows a report's last.
fn flaw_of_rest(line: &Line) -> Flaw
    ensures { result ≡ (if line.now.longer then Flaw.Long else Flaw.Rest) }
{
    if line.longer { Flaw::Long } else { Flaw::Rest }
}

/// A line's judgement, with a flaw told at the line's number.
pub(crate) fn judged<T>(number: u64, judgement: Result<T, Flaw>) -> Result<T, ReportFault>
    ensures { result ≡ told number judgement }
{
    match judgement {
        Ok(value) => Ok(value),
        Err(flaw) => Err(ReportFault::At(number, flaw)),
    }
}
