// A check of the report behind a deck.
ghost use Rattle.std.specs.Prelude.{◌≡◌, ◌≤◌, ℕ, IfOk, IfSome, IfErr, IsErrOf, Ok, OnOk, Some};
ghost use Rattle.io_ends.specs.Count.{Rose};
ghost use Rattle.cert_check.specs.Judged.{Judges};
ghost use Rattle.cert_check.specs.Proved.{Tells};
ghost use Rattle.cert_check.specs.Walk.{walk};
ghost use Rattle.report_reader.specs.Reading.{IsReportOf};
ghost use Rattle.lp_main.specs.declared.words.Task.{Task};
ghost use Rattle.lp_main.specs.Checks.{IsVerdictOn, TellsReport};
ghost use Rattle.lp_main.specs.Ends.{Writes, IsAtEnd, IsCause, IsReadOut};
ghost use Rattle.lp_main.specs.Inner.Checking.{IsBothCause, IsJudgeCause, answer_of, refusal_of_report};
ghost use Rattle.lp_main.specs.World.{stream};

use crate::refusal::Refusal;
use crate::solve::load;
use crate::status::Answer;
use crate::verdict_line::{accepted_line, refused_line, rule_name};
use cert_check::{CheckFault, Verdict};
use cert_text::Report;
use deck_model::Deck;
use exact_frac::Arith;
use io_ends::{Sink, Source, write_all};
use lp_text::Form;
use mps_cards::LineReader;
use no_memory::Memory;
use report_reader::{ReportFault, read_report};
use std::alloc::Global;
use std::thread::Threads;

/// The refusal where the reader of reports refuses.
fn refusal_of_report(fault: ReportFault) -> Refusal
    ensures { result ≡ refusal_of_report fault }
{
    match fault {
        ReportFault::Read => Refusal::Read,
        ReportFault::Memory => Refusal::Memory,
        ReportFault::At(number, flaw) => Refusal::Report(number, flaw),
    }
}

/// Reads a deck, and the report behind it.
pub fn read_both<S: Source>(
    alloc: Global,
    form: Form,
    source: &mut S,
) -> Result<(Deck, Report), Refusal>
    ensures told { IfOk result (λ both. IfSome (S.remaining source.old) (λ text. TellsReport form text both.0 both.1)) }
    ensures of_deck { IfOk result (λ both. IsReportOf both.0 both.1) }
    ensures end { OnOk result (IsAtEnd (S.remaining source.new)) }
    ensures cause { IfErr result (IsBothCause form (S.remaining source.old) (S.remaining source.new) (S.fault_count source.old) (S.fault_count source.new)) }
    ensures rose { IsErrOf result Refusal.Read → Rose (S.fault_count source.old) (S.fault_count source.new) }
    ensures stays { ¬ IsErrOf result Refusal.Read → S.fault_count source.new ≡ S.fault_count source.old }
    ensures never_falls { S.fault_count source.old ≤ S.fault_count source.new }
{
    let Ok(mut lines) = LineReader::new(alloc) else {
        return Err(Refusal::Memory);
    };
    let deck = load(alloc, &mut lines, source, form)?;
    lines.mark();
    match read_report(alloc, &mut lines, source, &deck) {
        Ok(report) => Ok((deck, report)),
        Err(fault) => Err(refusal_of_report(fault)),
    }
}

/// The verdict on a report of a deck.
fn judge<R: Threads + Sync, A: Arith>(
    rt: &R,
    alloc: Global,
    deck: &Deck,
    report: &Report,
    arith: &mut A,
) -> Result<Verdict, Refusal>
    requires { IsReportOf deck.now report.now }
    ensures verdict { IfOk result (λ verdict. Judges (A.width arith.old) (walk deck.now report.now.outcome report.now.basis) (Ok verdict)
        × Tells (A.width arith.old) deck.now report.now.outcome report.now.basis (Ok verdict)) }
    ensures cause { IfErr result (IsJudgeCause (A.width arith.old) deck.now report.now) }
    ensures same_width { A.width arith.new ≡ A.width arith.old }
{
    match cert_check::check(
        rt,
        alloc,
        deck,
        &report.outcome,
        report.basis.as_ref(),
        arith,
    ) {
        Ok(verdict) => Ok(verdict),
        Err(CheckFault::Memory) => Err(Refusal::Memory),
        Err(CheckFault::Overflow(rule)) => match rule_name(alloc, deck, rule) {
            Ok(name) => Err(Refusal::Unfit(rule, name)),
            Err(_) => Err(Refusal::Memory),
        },
    }
}

/// The line of a verdict.
fn verdict_line(
    alloc: Global,
    deck: &Deck,
    report: &Report,
    verdict: Verdict,
) -> Result<Vec<u8>, Memory>
    ensures { IfOk result (λ line. (w : ℕ) → Judges w (walk deck.now report.now.outcome report.now.basis) (Ok verdict)
        → Tells w deck.now report.now.outcome report.now.basis (Ok verdict) → IsVerdictOn w deck.now report.now (answer_of verdict) line.items) }
{
    match verdict {
        Verdict::Yes => Ok(accepted_line(alloc, &report.outcome)?),
        Verdict::No(rule) => {
            let name = rule_name(alloc, deck, rule)?;
            Ok(refused_line(alloc, rule, &name)?)
        }
    }
}

/// The answer of a verdict.
fn answer_of(verdict: Verdict) -> Answer
    ensures { result ≡ answer_of verdict }
{
    match verdict {
        Verdict::Yes => Answer::Done,
        Verdict::No(_) => Answer::Refused,
    }
}

/// Judges the report behind the deck of a source, and writes the verdict to a sink.
pub fn check<R: Threads + Sync, S: Source, K: Sink, A: Arith>(
    rt: &R,
    alloc: Global,
    form: Form,
    source: &mut S,
    out: &mut K,
    arith: &mut A,
) -> Result<Answer, Refusal>
    ensures done { IfOk result (Writes (Some (Task.Check form)) (A.width arith.old) (S.remaining source.old) (K.contents out.old) (K.contents out.new)) }
    ensures end { OnOk result (IsReadOut (Some (Task.Check form)) (S.remaining source.new)) }
    ensures cause { IfErr result (IsCause (Some (Task.Check form)) (A.width arith.old) (stream (S.remaining source.old) (S.fault_count source.old))
        (stream (S.remaining source.new) (S.fault_count source.new)) (K.contents out.old) (K.contents out.new)) }
    ensures source_rose { IsErrOf result Refusal.Read → Rose (S.fault_count source.old) (S.fault_count source.new) }
    ensures source_stays { ¬ IsErrOf result Refusal.Read → S.fault_count source.new ≡ S.fault_count source.old }
    ensures source_never_falls { S.fault_count source.old ≤ S.fault_count source.new }
    ensures sink_rose { IsErrOf result Refusal.Write → Rose (K.fault_count out.old) (K.fault_count out.new) }
    ensures sink_stays { ¬ IsErrOf result Refusal.Write → K.fault_count out.new ≡ K.fault_count out.old }
    ensures sink_never_falls { K.fault_count out.old ≤ K.fault_count out.new }
    ensures same_width { A.width arith.new ≡ A.width arith.old }
{
    let (deck, report) = read_both(alloc, form, source)?;
    let verdict = judge(rt, alloc, &deck, &report, arith)?;
    let Ok(line) = verdict_line(alloc, &deck, &report, verdict) else {
        return Err(Refusal::Memory);
    };
    match write_all(out, line.as_slice()) {
        Ok(()) => Ok(answer_of(verdict)),
        Err(_) => Err(Refusal::Write),
    }
}
