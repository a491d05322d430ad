// The parts of a report: the outcome, the basis and the log.
ghost use Rattle.std.specs.Prelude.{◌≡◌, ◌++◌, ◌∷◌, [], codes, length, is_some, IfSome, Some};
ghost use Rattle.std.specs.List.{All};
ghost use Rattle.lp_text.specs.Report.{basis_lines, column_names, log_lines, outcome_lines, row_names};
ghost use Rattle.deck_model.specs.Outcome.{HasLengthsOf, outcome_of};
ghost use Rattle.report_lines.specs.Judged.{IsWithin};
ghost use Rattle.report_lines.specs.FirstFlaw as expected;
ghost use Rattle.report_lines.specs.FirstFlaw.{column_total, values};
ghost use Rattle.report_reader.specs.Reading.{AreNarrow, IsBasisOf};
ghost use Rattle.report_reader.specs.Inner.Lines.{of_basis};
ghost use Rattle.report_reader.specs.Inner.Reads.{IsReady, Reads};

use crate::fault::ReportFault;
use crate::judges::Kind;
use crate::lists::{read_basic, read_entries, read_upper, read_values};
use crate::single::{
    read_basis_count, read_end, read_kind, read_log_count, read_objective, read_upper_count,
};
use cert_text::Names;
use deck_model::{Basis, Deck, Log, Outcome};
use io_ends::Source;
use mps_cards::LineReader;
use std::alloc::Global;

/// The outcome that a report states.
pub(crate) fn read_outcome<S: Source>(
    alloc: Global,
    lines: &mut LineReader,
    source: &mut S,
    deck: &Deck,
) -> Result<Outcome, ReportFault>
    requires { IsReady lines.old }
    ensures { Reads deck.now S.remaining S.fault_count lines.old lines.new source.old source.new (expected.kind ∷ []) (λ _. [])
        (λ o ls. (HasLengthsOf deck.now (outcome_of o) × AreNarrow (outcome_of o)) × (ls ≡ outcome_lines deck.now (outcome_of o))) result }
{
    match read_kind(lines, source)? {
        Kind::Optimal => read_optimal(alloc, lines, source, deck),
        Kind::Infeasible => read_infeasible(alloc, lines, source, deck),
        Kind::Unbounded => read_unbounded(alloc, lines, source, deck),
    }
}

// The lists of an optimum.
fn read_optimal<S: Source>(
    alloc: Global,
    lines: &mut LineReader,
    source: &mut S,
    deck: &Deck,
) -> Result<Outcome, ReportFault>
    requires { IsReady lines.old }
    ensures { Reads deck.now S.remaining S.fault_count lines.old lines.new source.old source.new
        (expected.objective ∷ values (codes "VALUE") (column_names deck.now) ++ values (codes "PRICE") (row_names deck.now)) (λ _. [])
        (λ o ls. (HasLengthsOf deck.now (outcome_of o) × AreNarrow (outcome_of o)) × (codes "OPTIMAL" ∷ ls ≡ outcome_lines deck.now (outcome_of o))) result }
{
    let objective = read_objective(lines, source)?;
    let x = read_values(alloc, lines, source, b"VALUE", &Names::Columns(deck))?;
    let y = read_values(alloc, lines, source, b"PRICE", &Names::Rows(deck))?;
    Ok(Outcome::Optimal { x, y, objective })
}

// The list of a Farkas row.
fn read_infeasible<S: Source>(
    alloc: Global,
    lines: &mut LineReader,
    source: &mut S,
    deck: &Deck,
) -> Result<Outcome, ReportFault>
    requires { IsReady lines.old }
    ensures { Reads deck.now S.remaining S.fault_count lines.old lines.new source.old source.new (values (codes "FARKAS") (row_names deck.now)) (λ _. [])
        (λ o ls. (HasLengthsOf deck.now (outcome_of o) × AreNarrow (outcome_of o)) × (codes "INFEASIBLE" ∷ ls ≡ outcome_lines deck.now (outcome_of o))) result }
{
    let y = read_values(alloc, lines, source, b"FARKAS", &Names::Rows(deck))?;
    Ok(Outcome::Infeasible { y })
}

// The lists of a point and a ray.
fn read_unbounded<S: Source>(
    alloc: Global,
    lines: &mut LineReader,
    source: &mut S,
    deck: &Deck,
) -> Result<Outcome, ReportFault>
    requires { IsReady lines.old }
    ensures { Reads deck.now S.remaining S.fault_count lines.old lines.new source.old source.new
        (values (codes "VALUE") (column_names deck.now) ++ values (codes "RAY") (column_names deck.now)) (λ _. [])
        (λ o ls. (HasLengthsOf deck.now (outcome_of o) × AreNarrow (outcome_of o)) × (codes "UNBOUNDED" ∷ ls ≡ outcome_lines deck.now (outcome_of o))) result }
{
    let x = read_values(alloc, lines, source, b"VALUE", &Names::Columns(deck))?;
    let ray = read_values(alloc, lines, source, b"RAY", &Names::Columns(deck))?;
    Ok(Outcome::Unbounded { x, ray })
}

/// The basis, where the report tells one.
pub(crate) fn read_basis<S: Source>(
    alloc: Global,
    lines: &mut LineReader,
    source: &mut S,
    deck: &Deck,
    tells: bool,
) -> Result<Option<Basis>, ReportFault>
    requires { IsReady lines.old }
    ensures { Reads deck.now S.remaining S.fault_count lines.old lines.new source.old source.new (of_basis tells) (λ _. [])
        (λ b ls. (is_some b ≡ tells) × IfSome b (IsBasisOf deck.now) × (ls ≡ basis_lines b)) result }
{
    if tells {
        Ok(Some(read_told_basis(alloc, lines, source, deck)?))
    } else {
        Ok(None)
    }
}

// A basis.
fn read_told_basis<S: Source>(
    alloc: Global,
    lines: &mut LineReader,
    source: &mut S,
    deck: &Deck,
) -> Result<Basis, ReportFault>
    requires { IsReady lines.old }
    ensures { Reads deck.now S.remaining S.fault_count lines.old lines.new source.old source.new (expected.basis ∷ expected.upper ∷ []) (λ _. [])
        (λ b ls. IsBasisOf deck.now b × (ls ≡ basis_lines (Some b))) result }
{
    read_basis_count(lines, source, deck)?;
    let basic = read_basic(alloc, lines, source, deck)?;
    let count = read_upper_count(lines, source, deck)?;
    let upper = read_upper(alloc, lines, source, deck, count)?;
    Ok(Basis { basic, upper })
}

/// The log, where the report has one, and the last line.
pub(crate) fn read_log<S: Source>(
    alloc: Global,
    lines: &mut LineReader,
    source: &mut S,
    deck: &Deck,
) -> Result<Option<Log>, ReportFault>
    requires { IsReady lines.old }
    ensures { Reads deck.now S.remaining S.fault_count lines.old lines.new source.old source.new (expected.log_or_end ∷ []) (λ _. [])
        (λ log ls. IfSome log (All (IsWithin (column_total deck.now) (length deck.now.rows))) × (ls ≡ log_lines log ++ codes "END" ∷ [])) result }
{
    let Some(count) = read_log_count(lines, source)? else {
        return Ok(None);
    };
    let log = read_entries(alloc, lines, source, deck, count)?;
    read_end(lines, source)?;
    Ok(Some(log))
}
