// An audit of the report behind a deck.
ghost use Rattle.std.specs.Prelude.{◌≡◌, ◌≤◌, IfErr, IfOk, IsErrOf, OnOk, Some};
ghost use Rattle.io_ends.specs.Count.{Rose};
ghost use Rattle.report_reader.specs.Reading.{IsReportOf};
ghost use Rattle.lp_main.specs.declared.words.Task.{Task};
ghost use Rattle.lp_main.specs.Audits.{IsAudited, answer_of_audit, audit_line};
ghost use Rattle.lp_main.specs.Ends.{Writes, IsCause, IsReadOut};
ghost use Rattle.lp_main.specs.Inner.Auditing.{IsUnauditedCause};
ghost use Rattle.lp_main.specs.World.{stream};

use crate::checking::read_both;
use crate::fault_line::{numbered, whole_line};
use crate::refusal::Refusal;
use crate::status::Answer;
use cert_text::Report;
use deck_model::Deck;
use exact_frac::Arith;
use io_ends::{Sink, Source, write_all};
use lp_text::Form;
use run_audit::{Audit, AuditFault};
use std::alloc::{AllocError, Global};
use std::thread::Threads;

/// How the report of a deck is judged.
fn judged<R: Threads + Sync, A: Arith>(
    rt: &R,
    alloc: Global,
    deck: &Deck,
    report: &Report,
    arith: &mut A,
) -> Result<Audit, Refusal>
    requires { IsReportOf deck.now report.now }
    ensures audited { IfOk result (IsAudited deck.now report.now) }
    ensures cause { IfErr result (IsUnauditedCause (A.width arith.old) deck.now report.now) }
    ensures same_width { A.width arith.new ≡ A.width arith.old }
{
    match run_audit::audit(rt, alloc, deck, report, arith) {
        Ok(judgement) => Ok(judgement),
        Err(AuditFault::Memory) => Err(Refusal::Memory),
        Err(AuditFault::Overflow(place)) => Err(Refusal::Overflow(place)),
    }
}

/// The line of a judgement.
fn audit_line(alloc: Global, judgement: Audit) -> Result<Vec<u8>, AllocError>
    ensures { IfOk result (λ line. line.items ≡ audit_line judgement) }
{
    match judgement {
        Audit::Yes(number) => numbered(alloc, "AUDITED ", number, ""),
        Audit::NoLog => whole_line(alloc, "REFUSED NOLOG"),
        Audit::Log(number) => numbered(alloc, "REFUSED LOG ", number, ""),
        Audit::Outcome => whole_line(alloc, "REFUSED OUTCOME"),
        Audit::Basis => whole_line(alloc, "REFUSED BASIS"),
    }
}

/// The answer of a judgement.
fn answer_of(judgement: Audit) -> Answer
    ensures { result ≡ answer_of_audit judgement }
{
    match judgement {
        Audit::Yes(_) => Answer::Done,
        _ => Answer::Refused,
    }
}

/// Judges whether the report behind the deck of a source is the deck's run, and writes so to a sink.
pub fn audit<R: Threads + Sync, S: Source, K: Sink, A: Arith>(
    rt: &R,
    alloc: Global,
    form: Form,
    source: &mut S,
    out: &mut K,
    arith: &mut A,
) -> Result<Answer, Refusal>
    ensures done { IfOk result (Writes (Some (Task.Audit form)) (A.width arith.old) (S.remaining source.old) (K.contents out.old) (K.contents out.new)) }
    ensures end { OnOk result (IsReadOut (Some (Task.Audit form)) (S.remaining source.new)) }
    ensures cause { IfErr result (IsCause (Some (Task.Audit form)) (A.width arith.old) (stream (S.remaining source.old) (S.fault_count source.old))
        (stream (S.remaining source.new) (S.fault_count source.new)) (K.contents out.old) (K.contents out.new)) }
    ensures source_rose { IsErrOf result Refusal.Read → Rose (S.fault_count source.old) (S.fault_count source.new) }
    ensures source_stays { ¬ IsErrOf result Refusal.Read → S.fault_count source.new ≡ S.fault_count source.old }
    ensures source_never_falls { S.fault_count source.old ≤ S.fault_count source.new }
    ensures sink_rose { IsErrOf result Refusal.Write → Rose (K.fault_count out.old) (K.fault_count out.new) }
    ensures sink_stays { ¬ IsErrOf result Refusal.Write → K.fault_count out.new ≡ K.fault_count out.old }
    ensures sink_never_falls { K.fault_count out.old ≤ K.fault_count out.new }
    ensures same_width { A.width arith.new ≡ A.width arith.old }
{
    let (deck, report) = read_both(alloc, form, source)?;
    let judgement = judged(rt, alloc, &deck, &report, arith)?;
    let Ok(line) = audit_line(alloc, judgement) else {
        return Err(Refusal::Memory);
    };
    match write_all(out, line.as_slice()) {
        Ok(()) => Ok(answer_of(judgement)),
        Err(_) => Err(Refusal::Write),
    }
}
