// Writing a report.
ghost use Rattle.std.specs.Prelude.{◌≡◌, ◌≤◌, [], ◌∷◌, length, map, OnOk, IsErrOf};
ghost use Rattle.io_ends.specs.Bytes.{Appends, AppendsPrefix};
ghost use Rattle.io_ends.specs.Count.{Rose};
ghost use Rattle.lp_text.specs.Report.{basis_lines, entry_line, log_lines, number_line, number_lines, outcome_lines, report_lines, text_of_report, value_lines, version_line};
ghost use Rattle.deck_model.specs.Outcome.{HasLengthsOf, outcome_of};
ghost use Rattle.cert_text.specs.Line.{line_text};
ghost use Rattle.cert_text.specs.Names.{names_of};
ghost use Rattle.cert_text.specs.Writes.{Writes};

use crate::fault::ReportWriteFault;
use crate::line::Line;
use crate::names::Names;
use crate::report::Report;
use deck_model::{Basis, Deck, Entry, Log, Numbers, Outcome};
use exact_frac::Fracs;
use io_ends::{Sink, write_all};
use std::alloc::Global;

/// Writes the report of a deck, each line as one piece: of version 2 where it tells a basis, and else of version 1.
///
/// # Errors
///
/// `Write` where the sink failed, and `Memory` for want of memory. The sink has then gained a beginning of the report.
pub fn write_report<K: Sink>(
    alloc: Global,
    deck: &Deck,
    report: &Report,
    out: &mut K,
) -> Result<(), ReportWriteFault>
    requires { HasLengthsOf deck.now report.now.outcome }
    ensures appended { OnOk result (Appends (K.contents out.old) (K.contents out.new) (text_of_report deck.now report.now)) }
    ensures stays { OnOk result (K.fault_count out.new ≡ K.fault_count out.old) }

    ensures part { AppendsPrefix (K.contents out.old) (K.contents out.new) (text_of_report deck.now report.now) }
    ensures write { IsErrOf result ReportWriteFault.Write → Rose (K.fault_count out.old) (K.fault_count out.new) }
    ensures memory { IsErrOf result ReportWriteFault.Memory → K.fault_count out.new ≡ K.fault_count out.old }
    ensures never_falls { K.fault_count out.old ≤ K.fault_count out.new }
{
    let mut buffer = Vec::new(alloc);
    write_lines(
        &mut buffer,
        deck,
        &report.outcome,
        &report.basis,
        &report.log,
        out,
    )
}

// Writes all lines of a report of these parts.
fn write_lines<K: Sink>(
    buffer: &mut Vec<u8>,
    deck: &Deck,
    outcome: &Outcome,
    basis: &Option<Basis>,
    log: &Option<Log>,
    out: &mut K,
) -> Result<(), ReportWriteFault>
    requires { HasLengthsOf deck.now (outcome_of outcome.now) }
    ensures { Writes K.contents K.fault_count out.old out.new
        (report_lines deck.now (record { outcome = outcome_of outcome.now; basis = basis.now; log = log.now })) result }
{
    write_line(buffer, &Line::Word(version(basis)), out)?;
    write_line(buffer, &Line::Deck(deck.name().bytes()), out)?;
    write_outcome(buffer, deck, outcome, out)?;
    write_basis(buffer, basis, out)?;
    write_log(buffer, log, out)?;
    write_line(buffer, &Line::Word(b"END"), out)
}

// The first line of a report with such a basis.
fn version(basis: &Option<Basis>) -> &'static [u8]
    ensures { result.now ≡ version_line basis.now }
{
    match basis {
        None => b"LPCERT 1",
        Some(_) => b"LPCERT 2",
    }
}

// Writes the lines of an outcome.
fn write_outcome<K: Sink>(
    buffer: &mut Vec<u8>,
    deck: &Deck,
    outcome: &Outcome,
    out: &mut K,
) -> Result<(), ReportWriteFault>
    requires { HasLengthsOf deck.now (outcome_of outcome.now) }
    ensures { Writes K.contents K.fault_count out.old out.new (outcome_lines deck.now (outcome_of outcome.now)) result }
{
    match outcome {
        Outcome::Optimal { x, y, objective } => {
            write_line(buffer, &Line::Word(b"OPTIMAL"), out)?;
            write_line(buffer, &Line::Objective(*objective), out)?;
            write_values(buffer, b"VALUE", x, &Names::Columns(deck), out)?;
            write_values(buffer, b"PRICE", y, &Names::Rows(deck), out)
        }
        Outcome::Infeasible { y } => {
            write_line(buffer, &Line::Word(b"INFEASIBLE"), out)?;
            write_values(buffer, b"FARKAS", y, &Names::Rows(deck), out)
        }
        Outcome::Unbounded { x, ray } => {
            write_line(buffer, &Line::Word(b"UNBOUNDED"), out)?;
            write_values(buffer, b"VALUE", x, &Names::Columns(deck), out)?;
            write_values(buffer, b"RAY", ray, &Names::Columns(deck), out)
        }
    }
}

// Writes a line for each name, with the word and the value at its index.
fn write_values<K: Sink>(
    buffer: &mut Vec<u8>,
    word: &[u8],
    values: &Fracs,
    names: &Names,
    out: &mut K,
) -> Result<(), ReportWriteFault>
    requires { length values.now ≡ length (names_of names.now) }
    ensures { Writes K.contents K.fault_count out.old out.new (value_lines word.now values.now (names_of names.now)) result }
{
    for index in 0..names.len() {
        let value = values.get(index);
        let name = names.get(index);
        write_line(buffer, &Line::Value(word, value, name), out)?;
    }
    Ok(())
}

// Writes the lines of the basis, where the report tells one.
fn write_basis<K: Sink>(
    buffer: &mut Vec<u8>,
    basis: &Option<Basis>,
    out: &mut K,
) -> Result<(), ReportWriteFault>
    ensures { Writes K.contents K.fault_count out.old out.new (basis_lines basis.now) result }
{
    let Some(basis) = basis else {
        return Ok(());
    };
    write_numbers(buffer, b"BASIS", b"BASIC", &basis.basic, out)?;
    write_numbers(buffer, b"UPPER", b"AT", &basis.upper, out)
}

// Writes a line that tells how many numbers there are, and one for each of them.
fn write_numbers<K: Sink>(
    buffer: &mut Vec<u8>,
    count_word: &[u8],
    word: &[u8],
    numbers: &Numbers,
    out: &mut K,
) -> Result<(), ReportWriteFault>
    ensures { Writes K.contents K.fault_count out.old out.new (number_lines count_word.now word.now numbers.now) result }
{
    write_line(buffer, &Line::Number(count_word, numbers.len()), out)?;
    write_each_number(buffer, word, numbers.as_slice(), out)
}

// Writes a line for each number, behind a word.
fn write_each_number<K: Sink>(
    buffer: &mut Vec<u8>,
    word: &[u8],
    numbers: &[u32],
    out: &mut K,
) -> Result<(), ReportWriteFault>
    ensures { Writes K.contents K.fault_count out.old out.new (map (number_line word.now) numbers.now) result }
{
    for number in numbers {
        write_line(buffer, &Line::Number(word, *number as usize), out)?;
    }
    Ok(())
}

// Writes the lines of the log, where the report has one.
fn write_log<K: Sink>(
    buffer: &mut Vec<u8>,
    log: &Option<Log>,
    out: &mut K,
) -> Result<(), ReportWriteFault>
    ensures { Writes K.contents K.fault_count out.old out.new (log_lines log.now) result }
{
    let Some(log) = log else {
        return Ok(());
    };
    write_line(buffer, &Line::Number(b"LOG", log.len()), out)?;
    write_entries(buffer, log.entries(), out)
}

// Writes a line for each entry.
fn write_entries<K: Sink>(
    buffer: &mut Vec<u8>,
    entries: &[Entry],
    out: &mut K,
) -> Result<(), ReportWriteFault>
    ensures { Writes K.contents K.fault_count out.old out.new (map entry_line entries.now) result }
{
    for entry in entries {
        write_line(buffer, &Line::Entry(*entry), out)?;
    }
    Ok(())
}

// Writes a line as one piece, by way of the buffer.
fn write_line<K: Sink>(
    buffer: &mut Vec<u8>,
    line: &Line,
    out: &mut K,
) -> Result<(), ReportWriteFault>
    ensures { Writes K.contents K.fault_count out.old out.new (line_text line.now ∷ []) result }
{
    line.fill(buffer)?;
    write_all(out, buffer)?;
    Ok(())
}
