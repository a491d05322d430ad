// What a line of a report is, where more than one line, or a count that the deck has, is expected.
ghost use Rattle.std.specs.Prelude.{◌≡◌, ◌<◌, ◌≤◌, ◌^◌, ◌↔◌, IfOk, OnOk, IsTrue, codes, length, MatchResult};
ghost use Rattle.lp_model.specs.Deck.{Deck as Program};
ghost use Rattle.report_lines.specs.FirstFlaw.{HasFlaw, Meets, basis, column_total, kind, log_or_end, upper, version};
ghost use Rattle.report_lines.specs.Judged.{IsCountLine};
ghost use Rattle.report_reader.specs.Inner.Lines.{after_count, after_kind, after_version, kind_line, log_line, version_of};

use deck_model::Deck;
use report_lines::{Flaw, counted};

/// A kind of outcome.
#[derive(Clone, Copy)]
pub(crate) enum Kind {
    Optimal,
    Infeasible,
    Unbounded,
}

/// Whether the first line of a report says that it tells a basis.
pub(crate) fn version(line: &[u8]) -> Result<bool, Flaw>
    ensures { (d : Program) → MatchResult result (λ tells. (line.now ≡ version_of tells) × Meets d version line.now (after_version tells)) (HasFlaw d version line.now) }
{
    if is(line, b"LPCERT 1") {
        Ok(false)
    } else if is(line, b"LPCERT 2") {
        Ok(true)
    } else {
        Err(Flaw::Word)
    }
}

/// The kind of the outcome that a report states.
pub(crate) fn outcome_kind(line: &[u8]) -> Result<Kind, Flaw>
    ensures { (d : Program) → MatchResult result (λ k. (line.now ≡ kind_line k) × Meets d kind line.now (after_kind d k)) (HasFlaw d kind line.now) }
{
    if is(line, b"OPTIMAL") {
        Ok(Kind::Optimal)
    } else if is(line, b"INFEASIBLE") {
        Ok(Kind::Infeasible)
    } else if is(line, b"UNBOUNDED") {
        Ok(Kind::Unbounded)
    } else {
        Err(Flaw::Word)
    }
}

/// The line of the count of basic columns, which is that of the rows.
pub(crate) fn basis_count(line: &[u8], deck: &Deck) -> Result<(), Flaw>
    ensures basis { MatchResult result (λ _. IsCountLine (codes "BASIS") line.now (length deck.now.rows)) (HasFlaw deck.now basis line.now) }
    ensures few { OnOk result (length deck.now.rows < 2 ^ 32) }
{
    if counted(line, b"BASIS")? == deck.rows() as u64 {
        Ok(())
    } else {
        Err(Flaw::Number)
    }
}

/// The line of the count of columns at their upper ends, which is at most that of the columns.
pub(crate) fn upper_count(line: &[u8], deck: &Deck) -> Result<u64, Flaw>
    ensures upper { MatchResult result (λ count. (count ≤ column_total deck.now) × IsCountLine (codes "UPPER") line.now count) (HasFlaw deck.now upper line.now) }
    ensures few { IfOk result (λ count. count < 2 ^ 32) }
{
    let count = counted(line, b"UPPER")?;
    if count <= u64::from(column_total(deck)) {
        Ok(count)
    } else {
        Err(Flaw::Number)
    }
}

/// The line of the count of the log's entries, or that of the end.
pub(crate) fn log_count(line: &[u8]) -> Result<Option<u64>, Flaw>
    ensures { (d : Program) → MatchResult result (λ count. log_line line.now count × Meets d log_or_end line.now (after_count count)) (HasFlaw d log_or_end line.now) }
{
    if is(line, b"END") {
        return Ok(None);
    }
    Ok(Some(counted(line, b"LOG")?))
}

// Whether a line is this text.
fn is(line: &[u8], text: &[u8]) -> bool
    ensures { IsTrue result ↔ (line.now ≡ text.now) }
{
    line == text
}

/// How many columns the method has of a deck: the structurals, the logicals and the artificials.
pub(crate) fn column_total(deck: &Deck) -> u32
    ensures { result ≡ column_total deck.now }
{
    (deck.columns() + 2 * deck.rows()) as u32
}
