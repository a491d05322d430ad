// The lines of a report, taken one by one.
ghost use Rattle.std.specs.Prelude.{◌≡◌, ◌<◌, ◌≤◌, ◌+◌, ◌∷◌, ◌++◌, [], ℕ, codes, length, List};
ghost use Rattle.rational.specs.Width.{FitsWidth};
ghost use Rattle.lp_model.specs.Deck.{Deck as Program};
ghost use Rattle.lp_text.specs.Fraction.{fraction_text};
ghost use Rattle.lp_text.specs.Report.{entry_line, number_line, value_line};
ghost use Rattle.report_lines.specs.Judged.{IsWithin};
ghost use Rattle.report_lines.specs.FirstFlaw as expected;
ghost use Rattle.report_lines.specs.FirstFlaw.{column_total, repeated};
ghost use Rattle.report_reader.specs.Inner.Lines.{after_count, after_kind, after_version, kind_line, log_line, version_of};
ghost use Rattle.report_reader.specs.Inner.Reads.{IsReady, Reads};

use crate::fault::ReportFault;
use crate::judges::{
    Kind, basis_count, column_total, log_count, outcome_kind, upper_count, version,
};
use crate::reading::{judged, next_line};
use deck_model::{Deck, Entry};
use exact_frac::Frac;
use io_ends::Source;
use mps_cards::LineReader;
use report_lines::{entry, fixed, index, objective, title, value};

/// The first line: whether the report tells a basis.
pub(crate) fn read_version<S: Source>(
    lines: &mut LineReader,
    source: &mut S,
) -> Result<bool, ReportFault>
    requires { IsReady lines.old }
    ensures { (d : Program) → Reads d S.remaining S.fault_count lines.old lines.new source.old source.new
        (expected.version ∷ []) (after_version) (λ tells lines. lines ≡ version_of tells ∷ []) result }
{
    let line = next_line(lines, source)?;
    judged(line.number, version(line.bytes.bytes()))
}

/// The line of the deck's name.
pub(crate) fn read_title<S: Source>(
    lines: &mut LineReader,
    source: &mut S,
    deck: &Deck,
) -> Result<(), ReportFault>
    requires { IsReady lines.old }
    ensures { Reads deck.now S.remaining S.fault_count lines.old lines.new source.old source.new
        (expected.title ∷ []) (λ _. []) (λ _ lines. lines ≡ (codes "DECK " ++ deck.now.name) ∷ []) result }
{
    let line = next_line(lines, source)?;
    judged(line.number, title(line.bytes.bytes(), deck.name().bytes()))
}

/// The line of the outcome's kind.
pub(crate) fn read_kind<S: Source>(
    lines: &mut LineReader,
    source: &mut S,
) -> Result<Kind, ReportFault>
    requires { IsReady lines.old }
    ensures { (d : Program) → Reads d S.remaining S.fault_count lines.old lines.new source.old source.new
        (expected.kind ∷ []) (after_kind d) (λ k lines. lines ≡ kind_line k ∷ []) result }
{
    let line = next_line(lines, source)?;
    judged(line.number, outcome_kind(line.bytes.bytes()))
}

/// The line of the objective's value.
pub(crate) fn read_objective<S: Source>(
    lines: &mut LineReader,
    source: &mut S,
) -> Result<Frac, ReportFault>
    requires { IsReady lines.old }
    ensures { (d : Program) → Reads d S.remaining S.fault_count lines.old lines.new source.old source.new
        (expected.objective ∷ []) (λ _. []) (λ v lines. (lines ≡ (codes "OBJECTIVE " ++ fraction_text v) ∷ []) × FitsWidth 127 v) result }
{
    let line = next_line(lines, source)?;
    judged(line.number, objective(line.bytes.bytes()))
}

/// A line of a word, a value and a name.
pub(crate) fn read_value<S: Source>(
    lines: &mut LineReader,
    source: &mut S,
    word: &[u8],
    name: &[u8],
) -> Result<Frac, ReportFault>
    requires { IsReady lines.old }
    ensures { (d : Program) → Reads d S.remaining S.fault_count lines.old lines.new source.old source.new
        (expected.value word.now name.now ∷ []) (λ _. []) (λ v lines. (lines ≡ value_line word.now v name.now ∷ []) × FitsWidth 127 v) result }
{
    let line = next_line(lines, source)?;
    judged(line.number, value(line.bytes.bytes(), word, name))
}

/// The line of the count of basic columns, one for each row.
pub(crate) fn read_basis_count<S: Source>(
    lines: &mut LineReader,
    source: &mut S,
    deck: &Deck,
) -> Result<(), ReportFault>
    requires { IsReady lines.old }
    ensures { Reads deck.now S.remaining S.fault_count lines.old lines.new source.old source.new
        (expected.basis ∷ []) (λ _. repeated expected.basic (length deck.now.rows)) (λ _ lines. lines ≡ number_line (codes "BASIS") (length deck.now.rows) ∷ []) result }
{
    let line = next_line(lines, source)?;
    judged(line.number, basis_count(line.bytes.bytes(), deck))
}

/// The line of a basic column.
pub(crate) fn read_basic_column<S: Source>(
    lines: &mut LineReader,
    source: &mut S,
    deck: &Deck,
) -> Result<u32, ReportFault>
    requires { IsReady lines.old }
    ensures { (more : ℕ) → Reads deck.now S.remaining S.fault_count lines.old lines.new source.old source.new
        (expected.basic more ∷ []) (λ _. repeated expected.basic more) (λ q lines. (q < column_total deck.now) × (lines ≡ number_line (codes "BASIC") q ∷ [])) result }
{
    let line = next_line(lines, source)?;
    judged(
        line.number,
        index(line.bytes.bytes(), b"BASIC", 0, column_total(deck)),
    )
}

/// The line of the count of columns at their upper ends, which is at most that of all columns.
pub(crate) fn read_upper_count<S: Source>(
    lines: &mut LineReader,
    source: &mut S,
    deck: &Deck,
) -> Result<u64, ReportFault>
    requires { IsReady lines.old }
    ensures { Reads deck.now S.remaining S.fault_count lines.old lines.new source.old source.new
        (expected.upper ∷ []) (λ count. repeated (expected.at 0) count) (λ count lines. lines ≡ number_line (codes "UPPER") count ∷ []) result }
{
    let line = next_line(lines, source)?;
    judged(line.number, upper_count(line.bytes.bytes(), deck))
}

/// The line of a column at its upper end, which is at least this.
pub(crate) fn read_upper_column<S: Source>(
    lines: &mut LineReader,
    source: &mut S,
    deck: &Deck,
    least: u32,
) -> Result<u32, ReportFault>
    requires { IsReady lines.old }
    ensures { (more : ℕ) → Reads deck.now S.remaining S.fault_count lines.old lines.new source.old source.new
        (expected.at least more ∷ []) (λ q. repeated (expected.at (q + 1)) more) (λ q lines. (least ≤ q) × (q < column_total deck.now) × (lines ≡ number_line (codes "AT") q ∷ [])) result }
{
    let line = next_line(lines, source)?;
    judged(
        line.number,
        index(line.bytes.bytes(), b"AT", least, column_total(deck)),
    )
}

/// The line of the count of the log's entries, or that of the end.
pub(crate) fn read_log_count<S: Source>(
    lines: &mut LineReader,
    source: &mut S,
) -> Result<Option<u64>, ReportFault>
    requires { IsReady lines.old }
    ensures { (d : Program) → Reads d S.remaining S.fault_count lines.old lines.new source.old source.new
        (expected.log_or_end ∷ []) (after_count) (λ count lines. (line : List ℕ) × (lines ≡ line ∷ []) × log_line line count) result }
{
    let line = next_line(lines, source)?;
    judged(line.number, log_count(line.bytes.bytes()))
}

/// The line of an entry of the log.
pub(crate) fn read_entry<S: Source>(
    lines: &mut LineReader,
    source: &mut S,
    deck: &Deck,
) -> Result<Entry, ReportFault>
    requires { IsReady lines.old }
    ensures { (more : ℕ) → Reads deck.now S.remaining S.fault_count lines.old lines.new source.old source.new
        (expected.entry more ∷ []) (λ _. repeated expected.entry more) (λ e lines. IsWithin (column_total deck.now) (length deck.now.rows) e × (lines ≡ entry_line e ∷ [])) result }
{
    let line = next_line(lines, source)?;
    judged(
        line.number,
        entry(line.bytes.bytes(), column_total(deck), deck.rows() as u32),
    )
}

/// The last line.
pub(crate) fn read_end<S: Source>(lines: &mut LineReader, source: &mut S) -> Result<(), ReportFault>
    requires { IsReady lines.old }
    ensures { (d : Program) → Reads d S.remaining S.fault_count lines.old lines.new source.old source.new
        (expected.end ∷ []) (λ _. []) (λ _ lines. lines ≡ codes "END" ∷ []) result }
{
    let line = next_line(lines, source)?;
    judged(line.number, fixed(line.bytes.bytes(), b"END"))
}
