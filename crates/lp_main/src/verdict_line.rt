// The lines of a check.
ghost use Rattle.std.specs.Prelude.{◌≡◌, ◌++◌, IfOk, codes};
ghost use Rattle.lp_model.specs.Deck.{column as column_at, row as row_at};
ghost use Rattle.deck_model.specs.Outcome.{outcome_of};
ghost use Rattle.lp_main.specs.Refusals.{ended};
ghost use Rattle.lp_main.specs.Verdicts.{accepted_line, flaw_line, flaw_word, outcome_word, rule_name, rule_text, rule_word, unfit_line};

use crate::fault_line::{numbered, whole_line};
use cert_check::Rule;
use deck_model::{Deck, Name, Outcome};
use no_memory::Memory;
use report_lines::Flaw;
use std::alloc::{AllocError, Global};

/// The word of a rule.
fn rule_word(rule: Rule) -> &'static [u8]
    ensures { result.now ≡ rule_word rule }
{
    match rule {
        Rule::Column(_) => b"COLUMN",
        Rule::Row(_) => b"ROW",
        Rule::Objective => b"OBJECTIVE",
        Rule::Reduced(_) => b"REDUCED",
        Rule::Price(_) => b"PRICE",
        Rule::EndlessColumn(_) => b"ENDLESS",
        Rule::EndlessRow(_) => b"ENDLESS",
        Rule::Gap => b"GAP",
        Rule::RayColumn(_) => b"RAYCOLUMN",
        Rule::RayRow(_) => b"RAYROW",
        Rule::RayCost => b"RAYCOST",
        Rule::Basis => b"BASIS",
        Rule::Rest(_) => b"REST",
        Rule::Basic(_) => b"BASIC",
    }
}

/// The name of a column, or none where there is no such column.
pub fn column_name(deck: &Deck, column: u32) -> &[u8]
    ensures { result.now ≡ (column_at deck.now column).name }
{
    if (column as usize) < deck.columns() {
        deck.column_name(column as usize).bytes()
    } else {
        b""
    }
}

/// The name of a row, or none where there is no such row.
pub fn row_name(deck: &Deck, row: u32) -> &[u8]
    ensures { result.now ≡ (row_at deck.now row).name }
{
    if (row as usize) < deck.rows() {
        deck.row_name(row as usize).bytes()
    } else {
        b""
    }
}

/// The name of a rule's column or row.
pub fn rule_name(alloc: Global, deck: &Deck, rule: Rule) -> Result<Option<Name>, Memory>
    ensures { IfOk result (λ name. name ≡ rule_name deck.now rule) }
{
    let name = match rule {
        Rule::Objective | Rule::Gap | Rule::RayCost | Rule::Basis => return Ok(None),
        Rule::Column(column)
        | Rule::Reduced(column)
        | Rule::EndlessColumn(column)
        | Rule::RayColumn(column)
        | Rule::Rest(column)
        | Rule::Basic(column) => column_name(deck, column),
        Rule::Row(row) | Rule::Price(row) | Rule::EndlessRow(row) | Rule::RayRow(row) => row_name(
            deck, row,
        ),
    };
    Ok(Some(Name::of(alloc, name)?))
}

/// A line of a rule, behind other words.
fn rule_line(
    alloc: Global,
    before: &[u8],
    rule: Rule,
    name: &Option<Name>,
) -> Result<Vec<u8>, AllocError>
    ensures { IfOk result (λ line. line.items ≡ ended (before.now ++ rule_text rule name.now)) }
{
    let mut line = Vec::from_slice(alloc, before)?;
    line.extend_from_slice(rule_word(rule))?;
    if let Some(name) = name {
        line.push(b' ')?;
        line.extend_from_slice(name.bytes())?;
    }
    line.push(b'\n')?;
    Ok(line)
}

/// The line of a report that is refused.
pub fn refused_line(alloc: Global, rule: Rule, name: &Option<Name>) -> Result<Vec<u8>, AllocError>
    ensures { IfOk result (λ line. line.items ≡ ended (codes "REFUSED " ++ rule_text rule name.now)) }
{
    rule_line(alloc, b"REFUSED ", rule, name)
}

/// The line of a sum of a rule that does not fit.
pub fn unfit_line(alloc: Global, rule: Rule, name: &Option<Name>) -> Result<Vec<u8>, AllocError>
    ensures { IfOk result (λ line. line.items ≡ unfit_line rule name.now) }
{
    rule_line(alloc, b"lp: check overflow at ", rule, name)
}

/// The word of an outcome.
pub fn outcome_word(outcome: &Outcome) -> &'static str
    ensures { result.now ≡ outcome_word (outcome_of outcome.now) }
{
    match outcome {
        Outcome::Optimal { .. } => "OPTIMAL",
        Outcome::Infeasible { .. } => "INFEASIBLE",
        Outcome::Unbounded { .. } => "UNBOUNDED",
    }
}

/// The line of a report that is accepted.
pub fn accepted_line(alloc: Global, outcome: &Outcome) -> Result<Vec<u8>, AllocError>
    ensures { IfOk result (λ line. line.items ≡ accepted_line (outcome_of outcome.now)) }
{
    let mut line = String::from_str(alloc, "ACCEPTED ")?;
    line.push_str(outcome_word(outcome))?;
    whole_line(alloc, line.as_str())
}

/// What is said of a flaw.
fn flaw_word(flaw: Flaw) -> &'static str
    ensures { result.now ≡ flaw_word flaw }
{
    match flaw {
        Flaw::Bytes => "bytes",
        Flaw::Long => "long",
        Flaw::Word => "word",
        Flaw::Number => "number",
        Flaw::Name => "name",
        Flaw::Missing => "missing",
        Flaw::Rest => "rest",
    }
}

/// The line of a report's first flaw.
pub fn flaw_line(alloc: Global, number: u64, flaw: Flaw) -> Result<Vec<u8>, AllocError>
    ensures { IfOk result (λ line. line.items ≡ flaw_line number flaw) }
{
    let mut after = String::from_str(alloc, ": ")?;
    after.push_str(flaw_word(flaw))?;
    numbered(alloc, "lp: report line ", number, after.as_str())
}
