// The ranges of a deck.
ghost use Rattle.std.specs.Prelude.{◌≡◌, ◌≤◌, ℕ, [], List, IfErr, IfOk, IsErrOf, OnOk, Some};
ghost use Rattle.io_ends.specs.Bytes.{Appends, AppendsPrefix};
ghost use Rattle.io_ends.specs.Count.{Rose};
ghost use Rattle.lp_model.specs.Deck.{IsDeck};
ghost use Rattle.lp_model.specs.Outcome.{optimal};
ghost use Rattle.lp_run.specs.Instance.{instance_of};
ghost use Rattle.lp_run.specs.Run.{IsRun};
ghost use Rattle.lp_run.specs.State.{State};
ghost use Rattle.mps_reader.specs.Answers.{IsReadAsNeeded};
ghost use Rattle.lp_model.specs.declared.Entry.{Entry};
ghost use Rattle.rational.specs.Rational.{ℚ};
ghost use Rattle.ranging.specs.Ranges.{AreRanges};
ghost use Rattle.ranging.specs.Text.{HasLengthsOf, range_text};
ghost use Rattle.lp_main.specs.declared.words.Task.{Task};
ghost use Rattle.lp_main.specs.Ends.{Writes, IsCause};
ghost use Rattle.lp_main.specs.Inner.Ranging.{FitsDeck, IsFound, IsUnrangedCause, found_text};
ghost use Rattle.lp_main.specs.Inner.Solving.{IsWriteCause};
ghost use Rattle.lp_main.specs.RangeTexts.{bare_text};
ghost use Rattle.lp_main.specs.Ranged.{range_name};
ghost use Rattle.lp_main.specs.Solves.{IsSolved};
ghost use Rattle.lp_main.specs.Summaries.{summary_budget};
ghost use Rattle.lp_main.specs.World.{stream};

use crate::refusal::Refusal;
use crate::solve::{load, report_of};
use crate::status::Answer;
use crate::verdict_line::{column_name, row_name};
use crate::words::Asked;
use deck_model::{Deck, Log, Name, Outcome};
use exact_frac::Arith;
use instance_model::{Instance, InstanceFault};
use io_ends::{Sink, Source, write_all};
use lp_text::Form;
use mps_cards::LineReader;
use no_memory::Memory;
use ranging::{RangeFault, RangePlace, RangeWriteFault, Ranges, ranges, write_ranges};
use std::alloc::Global;
use std::thread::Threads;

/// What is told of a deck: the ranges of its optimum, or that it has none.
#[derive(Drop)]
pub enum Found {
    /// How far each cost and each right side may change.
    Ranges(Ranges),
    /// There is no feasible point.
    Infeasible,
    /// The objective gets better without end.
    Unbounded,
}

/// The name of the column or row of a range.
fn range_name(alloc: Global, deck: &Deck, place: RangePlace) -> Result<Name, Memory>
    ensures { IfOk result (λ name. name ≡ range_name deck.now place) }
{
    let name = match place {
        RangePlace::Cost(column) => column_name(deck, column),
        RangePlace::Right(row) => row_name(deck, row),
    };
    Ok(Name::of(alloc, name)?)
}

/// The ranges of the last state of a run that ends at an optimum.
fn ranges_of<R: Threads + Sync, A: Arith>(
    rt: &R,
    alloc: Global,
    deck: &Deck,
    log: &Log,
    arith: &mut A,
) -> Result<Ranges, Refusal>
    requires deck { IsDeck deck.now }
    requires optimum { (x y : List ℚ) × (v : ℚ) × IsSolved summary_budget deck.now log.now (optimal x y v) }
    ensures ranges { IfOk result (λ found. (s : State) → IsRun (instance_of deck.now) log.now s → AreRanges (instance_of deck.now) s found) }
    ensures cause { IfErr result (IsUnrangedCause (A.width arith.old) deck.now) }
    ensures same_width { A.width arith.new ≡ A.width arith.old }
{
    let inst = match Instance::of(alloc, deck, arith) {
        Ok(inst) => inst,
        Err(InstanceFault::Overflow(place)) => return Err(Refusal::Overflow(place)),
        Err(InstanceFault::Memory) => return Err(Refusal::Memory),
    };
    match ranges(rt, alloc, &inst, log, arith) {
        Ok(found) => Ok(found),
        Err(RangeFault::Memory) => Err(Refusal::Memory),
        Err(RangeFault::Overflow(place)) => Err(Refusal::Overflow(place)),
        Err(RangeFault::Unfit(place)) => match range_name(alloc, deck, place) {
            Ok(name) => Err(Refusal::RangeUnfit(place, name)),
            Err(_) => Err(Refusal::Memory),
        },
    }
}

/// The log, which is there.
fn own_log(log: &Option<Log>) -> &Log
    requires { (entries : List Entry) × (log.now ≡ Some entries) }
    ensures { Some result.now ≡ log.now }
{
    match log {
        Some(log) => log,
        None => unreachable!(),
    }
}

/// What is told of a deck: its run is made by one thread, and its last state ranged where it is an optimum.
fn found_of<R: Threads + Sync, A: Arith>(
    rt: &R,
    alloc: Global,
    deck: &Deck,
    arith: &mut A,
) -> Result<Found, Refusal>
    ensures found { IfOk result (IsFound deck.now) }
    ensures cause { IfErr result (IsUnrangedCause (A.width arith.old) deck.now) }
    ensures same_width { A.width arith.new ≡ A.width arith.old }
{
    // (a deck of the reader has the limits of a deck)
    let _rows = deck.rows();
    let report = report_of(rt, alloc, Asked::WHOLE_RUN, deck, arith)?;
    match &report.outcome {
        Outcome::Optimal { .. } => {
            let found = ranges_of(rt, alloc, deck, own_log(&report.log), arith)?;
            Ok(Found::Ranges(found))
        }
        Outcome::Infeasible { .. } => Ok(Found::Infeasible),
        Outcome::Unbounded { .. } => Ok(Found::Unbounded),
    }
}

/// The text of a deck without an optimum.
fn bare_text(alloc: Global, deck: &Deck, word: &[u8]) -> Result<Vec<u8>, Memory>
    ensures { IfOk result (λ text. text.items ≡ bare_text deck.now word.now) }
{
    let mut text = Vec::from_slice(alloc, b"LPRANGE 1\nDECK ")?;
    text.extend_from_slice(deck.name().bytes())?;
    text.push(b'\n')?;
    text.extend_from_slice(word)?;
    text.extend_from_slice(b"\nEND\n")?;
    Ok(text)
}

/// Writes the ranges of a deck.
fn write_found<K: Sink>(
    alloc: Global,
    deck: &Deck,
    ranges: &Ranges,
    out: &mut K,
) -> Result<(), Refusal>
    requires { HasLengthsOf deck.now ranges.now }
    ensures written { OnOk result (Appends (K.contents out.old) (K.contents out.new) (range_text deck.now ranges.now)) }
    ensures cause { IfErr result IsWriteCause }
    ensures begun { AppendsPrefix (K.contents out.old) (K.contents out.new) (range_text deck.now ranges.now) }
    ensures rose { IsErrOf result Refusal.Write → Rose (K.fault_count out.old) (K.fault_count out.new) }
    ensures stays { ¬ IsErrOf result Refusal.Write → K.fault_count out.new ≡ K.fault_count out.old }
    ensures never_falls { K.fault_count out.old ≤ K.fault_count out.new }
{
    match write_ranges(alloc, deck, ranges, out) {
        Ok(()) => Ok(()),
        Err(RangeWriteFault::Write) => Err(Refusal::Write),
        Err(RangeWriteFault::Memory) => Err(Refusal::Memory),
    }
}

/// Writes what is told of a deck without an optimum.
fn write_bare<K: Sink>(alloc: Global, deck: &Deck, word: &[u8], out: &mut K) -> Result<(), Refusal>
    ensures written { OnOk result (Appends (K.contents out.old) (K.contents out.new) (bare_text deck.now word.now)) }
    ensures cause { IfErr result IsWriteCause }
    ensures begun { AppendsPrefix (K.contents out.old) (K.contents out.new) (bare_text deck.now word.now) }
    ensures rose { IsErrOf result Refusal.Write → Rose (K.fault_count out.old) (K.fault_count out.new) }
    ensures stays { ¬ IsErrOf result Refusal.Write → K.fault_count out.new ≡ K.fault_count out.old }
    ensures never_falls { K.fault_count out.old ≤ K.fault_count out.new }
{
    let Ok(text) = bare_text(alloc, deck, word) else {
        return Err(Refusal::Memory);
    };
    match write_all(out, text.as_slice()) {
        Ok(()) => Ok(()),
        Err(_) => Err(Refusal::Write),
    }
}

/// Writes what is told of a deck.
fn write<K: Sink>(alloc: Global, deck: &Deck, found: &Found, out: &mut K) -> Result<(), Refusal>
    requires { FitsDeck deck.now found.now }
    ensures written { OnOk result (Appends (K.contents out.old) (K.contents out.new) (found_text deck.now found.now)) }
    ensures cause { IfErr result IsWriteCause }
    ensures begun { AppendsPrefix (K.contents out.old) (K.contents out.new) (found_text deck.now found.now) }
    ensures rose { IsErrOf result Refusal.Write → Rose (K.fault_count out.old) (K.fault_count out.new) }
    ensures stays { ¬ IsErrOf result Refusal.Write → K.fault_count out.new ≡ K.fault_count out.old }
    ensures never_falls { K.fault_count out.old ≤ K.fault_count out.new }
{
    match found {
        Found::Ranges(ranges) => write_found(alloc, deck, ranges, out),
        Found::Infeasible => write_bare(alloc, deck, b"INFEASIBLE", out),
        Found::Unbounded => write_bare(alloc, deck, b"UNBOUNDED", out),
    }
}

/// Tells how far each cost and each right side of the deck of a source may change, and writes so to a sink.
pub fn range<R: Threads + Sync, S: Source, K: Sink, A: Arith>(
    rt: &R,
    alloc: Global,
    form: Form,
    source: &mut S,
    out: &mut K,
    arith: &mut A,
) -> Result<Answer, Refusal>
    ensures done { IfOk result (Writes (Some (Task.Range form)) (A.width arith.old) (S.remaining source.old) (K.contents out.old) (K.contents out.new)) }
    ensures cause { IfErr result (IsCause (Some (Task.Range form)) (A.width arith.old) (stream (S.remaining source.old) (S.fault_count source.old))
        (stream (S.remaining source.new) (S.fault_count source.new)) (K.contents out.old) (K.contents out.new)) }
    ensures needed { IsReadAsNeeded form [] (S.remaining source.old) (S.remaining source.new) }
    ensures source_rose { IsErrOf result Refusal.Read → Rose (S.fault_count source.old) (S.fault_count source.new) }
    ensures source_stays { ¬ IsErrOf result Refusal.Read → S.fault_count source.new ≡ S.fault_count source.old }
    ensures source_never_falls { S.fault_count source.old ≤ S.fault_count source.new }
    ensures sink_rose { IsErrOf result Refusal.Write → Rose (K.fault_count out.old) (K.fault_count out.new) }
    ensures sink_stays { ¬ IsErrOf result Refusal.Write → K.fault_count out.new ≡ K.fault_count out.old }
    ensures sink_never_falls { K.fault_count out.old ≤ K.fault_count out.new }
    ensures same_width { A.width arith.new ≡ A.width arith.old }
{
    let Ok(mut lines) = LineReader::new(alloc) else {
        return Err(Refusal::Memory);
    };
    let deck = load(alloc, &mut lines, source, form)?;
    let found = found_of(rt, alloc, &deck, arith)?;
    write(alloc, &deck, &found, out)?;
    Ok(Answer::Done)
}
