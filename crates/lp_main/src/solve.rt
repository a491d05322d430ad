// A solve from a source to a sink.
ghost use Rattle.std.specs.Prelude.{◌≡◌, ◌+◌, ◌≤◌, [], None, Some, drop, option_map, IfOk, IfSome, IfErr, OnOk, IsErrOf, MatchResult};
ghost use Rattle.io_ends.specs.Bytes.{Appends, AppendsPrefix};
ghost use Rattle.io_ends.specs.Count.{Rose};
ghost use Rattle.lp_text.specs.Report.{text_of_report};
ghost use Rattle.deck_model.specs.Outcome.{HasLengthsOf, outcome_of};
ghost use Rattle.plain_table.specs.Answers.{IsRunLog};
ghost use Rattle.lp_run.specs.Run.{IsRun};
ghost use Rattle.lp_run.specs.State.{State};
ghost use Rattle.lp_model.specs.Deck.{IsDeck};
ghost use Rattle.lp_run.specs.Instance.{IsWellFormed, instance_of};
ghost use Rattle.lp_run.specs.Listing.{StartFits};
ghost use Rattle.mps_cards.specs.NextLine.{lines_left};
ghost use Rattle.mps_model.specs.DeckOf.{IsDeckOf};
ghost use Rattle.mps_reader.specs.Answers.{IsReadAsNeeded};
ghost use Rattle.bland_ratio.specs.Entries.{stored_entries};
ghost use Rattle.factor_run.specs.Bound.{solve_work};
ghost use Rattle.factor_run.specs.Calm.{IsCalm};
ghost use Rattle.crew.specs.Answers.{Solves};
ghost use Rattle.crew.specs.Inner.Works.{IsCalmFault};
ghost use Rattle.lp_main.specs.declared.words.Task.{Task};
ghost use Rattle.lp_main.specs.Ends.{Writes, IsCause, status_of_end};
ghost use Rattle.lp_main.specs.Works.{IsBounded, Works, counts};
ghost use Rattle.lp_main.specs.Inner.Solving.{IsReadingCause, IsReportCause, IsReportOf, IsWriteCause, refusal_of};
ghost use Rattle.lp_main.specs.Solves.{stated};
ghost use Rattle.lp_main.specs.World.{stream};

use crate::last_basis::told_basis;
use crate::refusal::Refusal;
use crate::status::Answer;
use crate::words::Asked;
use cert_text::{Report, ReportWriteFault, write_report};
use crew::{Closed, CrewFault, Silent, solve_alone};
use deck_model::Deck;
use exact_frac::Arith;
use instance_model::{Instance, InstanceFault};
use io_ends::{Sink, Source};
use lp_text::Form;
use mps_cards::LineReader;
use mps_reader::{DeckFault, read_deck};
use std::alloc::Global;
use std::sync::Arc;
use std::thread::Threads;

/// The refusal where the reader of decks refuses.
fn refusal_of(fault: DeckFault) -> Refusal
    ensures { result ≡ refusal_of fault }
{
    match fault {
        DeckFault::Read => Refusal::Read,
        DeckFault::Memory => Refusal::Memory,
        fault => Refusal::Deck(fault),
    }
}

/// Reads a deck, with a reader that has read nothing.
pub fn load<S: Source>(
    alloc: Global,
    lines: &mut LineReader,
    source: &mut S,
    form: Form,
) -> Result<Deck, Refusal>
    requires { lines.old ≡ record { kept = []; count = 0; since = 0; fault = None } }
    ensures read { IfOk result (λ deck. IfSome (S.remaining source.old) (λ text. IsDeckOf form text deck lines.new.count)) }
    ensures rest { OnOk result (lines_left lines.new.kept (S.remaining source.new) ≡ option_map (drop lines.new.count) (lines_left [] (S.remaining source.old))) }
    ensures sound { OnOk result (lines.new.fault ≡ None) }
    ensures cause { IfErr result (IsReadingCause form (S.remaining source.old) (S.remaining source.new)) }
    ensures needed { IsReadAsNeeded form [] (S.remaining source.old) (S.remaining source.new) }
    ensures rose { IsErrOf result Refusal.Read → Rose (S.fault_count source.old) (S.fault_count source.new) }
    ensures stays { ¬ IsErrOf result Refusal.Read → S.fault_count source.new ≡ S.fault_count source.old }
    ensures never_falls { S.fault_count source.old ≤ S.fault_count source.new }
{
    match read_deck(alloc, lines, source, form) {
        Ok(deck) => Ok(deck),
        Err(fault) => Err(refusal_of(fault)),
    }
}

/// The report of a deck. Where its instance is calm no result is unfit, and without workers the products and quotients are within
/// the bound of a solve over factors, those of the start sums included.
pub fn report_of<R: Threads + Sync, A: Arith>(
    rt: &R,
    alloc: Global,
    asked: Asked,
    deck: &Deck,
    arith: &mut A,
) -> Result<Report, Refusal>
    ensures report { IfOk result (IsReportOf asked deck.now) }
    ensures cause { IfErr result (IsReportCause asked (A.width arith.old) deck.now) }
    ensures same_width { A.width arith.new ≡ A.width arith.old }
    ensures calm { IsCalm (A.width arith.old) (instance_of deck.now) → A.unfit_count arith.new ≡ A.unfit_count arith.old }
    ensures work { asked.workers ≡ 0 → IsCalm (A.width arith.old) (instance_of deck.now)
        → IfOk result (λ _. IsBounded deck.now (A.work_count arith.old) (A.work_count arith.new)) }
{
    let _rows = deck.rows();
    match Instance::of(alloc, deck, arith) {
        Ok(inst) => report_of_shared(rt, alloc, asked, deck, inst, arith),
        Err(InstanceFault::Overflow(place)) => Err(Refusal::Overflow(place)),
        Err(InstanceFault::Memory) => Err(Refusal::Memory),
    }
}

/// The report of a deck by its instance, which the run shares.
fn report_of_shared<R: Threads + Sync, A: Arith>(
    rt: &R,
    alloc: Global,
    asked: Asked,
    deck: &Deck,
    inst: Instance,
    arith: &mut A,
) -> Result<Report, Refusal>
    requires deck { IsDeck deck.now }
    requires instance { inst ≡ instance_of deck.now }
    requires fits { StartFits (A.width arith.old) (instance_of deck.now) }
    ensures report { IfOk result (IsReportOf asked deck.now) }
    ensures cause { IfErr result (IsReportCause asked (A.width arith.old) deck.now) }
    ensures same_width { A.width arith.new ≡ A.width arith.old }
    ensures calm { IsCalm (A.width arith.old) (instance_of deck.now) → A.unfit_count arith.new ≡ A.unfit_count arith.old }
    ensures work { asked.workers ≡ 0 → IsCalm (A.width arith.old) (instance_of deck.now)
        → IfOk result (λ _. IsBounded deck.now (A.work_count arith.old) (A.work_count arith.new + stored_entries (instance_of deck.now))) }
{
    let Ok(shared) = Arc::new(alloc, inst) else {
        return Err(Refusal::Memory);
    };
    let Ok(run) = shared.clone() else {
        return Err(Refusal::Memory);
    };
    report_of_instance(rt, alloc, asked, deck, run, &shared, arith)
}

/// The end of an instance's run, which one thread makes, or for which so many workers price.
fn run<R: Threads + Sync, A: Arith>(
    rt: &R,
    alloc: Global,
    asked: Asked,
    inst: Arc<Instance>,
    arith: &mut A,
) -> Result<Closed, CrewFault>
    requires fits { StartFits (A.width arith.old) inst.value }
    ensures solves { Solves (A.width arith.old) inst.value asked.budget result }
    ensures width { A.width arith.new ≡ A.width arith.old }
    ensures calm { IsCalm (A.width arith.old) inst.value → (A.unfit_count arith.new ≡ A.unfit_count arith.old) × IfErr result IsCalmFault }
    ensures work { asked.workers ≡ 0 → IsCalm (A.width arith.old) inst.value
        → IfOk result (λ closed. A.work_count arith.new + stored_entries inst.value ≤ A.work_count arith.old + solve_work inst.value closed.moves) }
{
    match asked.workers {
        0 => solve_alone(rt, alloc, inst, asked.budget, arith),
        workers => crew::solve(rt, alloc, inst, workers, asked.budget, arith, &Silent),
    }
}

/// The report of a deck by its instance, which the run shares.
fn report_of_instance<R: Threads + Sync, A: Arith>(
    rt: &R,
    alloc: Global,
    asked: Asked,
    deck: &Deck,
    shared: Arc<Instance>,
    inst: &Instance,
    arith: &mut A,
) -> Result<Report, Refusal>
    requires deck { IsDeck deck.now }
    requires shared { shared.value ≡ instance_of deck.now }
    requires instance { inst.now ≡ instance_of deck.now }
    requires fits { StartFits (A.width arith.old) (instance_of deck.now) }
    ensures report { IfOk result (IsReportOf asked deck.now) }
    ensures cause { IfErr result (IsReportCause asked (A.width arith.old) deck.now) }
    ensures same_width { A.width arith.new ≡ A.width arith.old }
    ensures calm { IsCalm (A.width arith.old) (instance_of deck.now) → A.unfit_count arith.new ≡ A.unfit_count arith.old }
    ensures work { asked.workers ≡ 0 → IsCalm (A.width arith.old) (instance_of deck.now)
        → IfOk result (λ _. IsBounded deck.now (A.work_count arith.old) (A.work_count arith.new + stored_entries (instance_of deck.now))) }
{
    match run(rt, alloc, asked, shared, arith) {
        Ok(closed) => report_of_closed(alloc, asked, inst, closed),
        Err(CrewFault::Overflow(place)) => Err(Refusal::Overflow(place)),
        Err(CrewFault::Budget(moves)) => Err(Refusal::Budget(moves)),
        Err(CrewFault::Memory) => Err(Refusal::Memory),
    }
}

/// The report of what a run comes to.
fn report_of_closed(
    alloc: Global,
    asked: Asked,
    inst: &Instance,
    closed: Closed,
) -> Result<Report, Refusal>
    requires formed { IsWellFormed inst.now }
    requires run { IsRunLog inst.now closed.log }
    ensures { MatchResult result
        (λ report. (last : State) × IsRun inst.now closed.log last × (report ≡ stated asked closed.log (outcome_of closed.outcome) last))
        (λ refusal. refusal ≡ Refusal.Memory) }
{
    let Ok(basis) = told_basis(alloc, asked.version, inst, &closed.log) else {
        return Err(Refusal::Memory);
    };
    Ok(Report {
        outcome: closed.outcome,
        basis,
        log: asked.log.then_some(closed.log),
    })
}

/// Writes a report.
fn write<K: Sink>(alloc: Global, deck: &Deck, report: &Report, out: &mut K) -> Result<(), Refusal>
    requires { HasLengthsOf deck.now report.now.outcome }
    ensures written { OnOk result (Appends (K.contents out.old) (K.contents out.new) (text_of_report deck.now report.now)) }
    ensures cause { IfErr result IsWriteCause }
    ensures begun { AppendsPrefix (K.contents out.old) (K.contents out.new) (text_of_report deck.now report.now) }
    ensures rose { IsErrOf result Refusal.Write → Rose (K.fault_count out.old) (K.fault_count out.new) }
    ensures stays { ¬ IsErrOf result Refusal.Write → K.fault_count out.new ≡ K.fault_count out.old }
    ensures never_falls { K.fault_count out.old ≤ K.fault_count out.new }
{
    match write_report(alloc, deck, report, out) {
        Ok(()) => Ok(()),
        Err(ReportWriteFault::Write) => Err(Refusal::Write),
        Err(ReportWriteFault::Memory) => Err(Refusal::Memory),
    }
}

/// Solves the deck of a source, and writes the report that is asked for to a sink.
pub fn solve<R: Threads + Sync, S: Source, K: Sink, A: Arith>(
    rt: &R,
    alloc: Global,
    asked: Asked,
    source: &mut S,
    out: &mut K,
    arith: &mut A,
) -> Result<Answer, Refusal>
    ensures done { IfOk result (Writes (Some (Task.Solve asked)) (A.width arith.old) (S.remaining source.old) (K.contents out.old) (K.contents out.new)) }
    ensures cause { IfErr result (IsCause (Some (Task.Solve asked)) (A.width arith.old) (stream (S.remaining source.old) (S.fault_count source.old))
        (stream (S.remaining source.new) (S.fault_count source.new)) (K.contents out.old) (K.contents out.new)) }
    ensures needed { IsReadAsNeeded asked.form [] (S.remaining source.old) (S.remaining source.new) }
    ensures source_rose { IsErrOf result Refusal.Read → Rose (S.fault_count source.old) (S.fault_count source.new) }
    ensures source_stays { ¬ IsErrOf result Refusal.Read → S.fault_count source.new ≡ S.fault_count source.old }
    ensures source_never_falls { S.fault_count source.old ≤ S.fault_count source.new }
    ensures sink_rose { IsErrOf result Refusal.Write → Rose (K.fault_count out.old) (K.fault_count out.new) }
    ensures sink_stays { ¬ IsErrOf result Refusal.Write → K.fault_count out.new ≡ K.fault_count out.old }
    ensures sink_never_falls { K.fault_count out.old ≤ K.fault_count out.new }
    ensures same_width { A.width arith.new ≡ A.width arith.old }
    ensures works { Works (Some (Task.Solve asked)) (A.width arith.old) (S.remaining source.old)
        (counts (A.unfit_count arith.old) (A.work_count arith.old)) (counts (A.unfit_count arith.new) (A.work_count arith.new)) (status_of_end result) }
{
    let Ok(mut lines) = LineReader::new(alloc) else {
        return Err(Refusal::Memory);
    };
    let deck = load(alloc, &mut lines, source, asked.form)?;
    let report = report_of(rt, alloc, asked, &deck, arith)?;
    write(alloc, &deck, &report, out)?;
    Ok(Answer::Done)
}
