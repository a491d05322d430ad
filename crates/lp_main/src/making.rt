// A transport deck, made and solved.
ghost use Rattle.std.specs.Prelude.{◌≡◌, List, codes, ◌≤◌, ◌++◌, ◌*◌, ℕ, IfErr, IfOk, IsErrOf, OnOk, Option, Some};
ghost use Rattle.std.specs.Fmt.{decimal};
ghost use Rattle.io_ends.specs.Count.{Rose};
ghost use Rattle.deck_tools.specs.Transport.{transport};
ghost use Rattle.deck_model.specs.Outcome.{outcome_of};
ghost use Rattle.lp_model.specs.declared.Entry.{Entry};
ghost use Rattle.lp_model.specs.Log.{moves};
ghost use Rattle.lp_model.specs.Outcome.{optimal};
ghost use Rattle.lp_text.specs.Fraction.{fraction_text};
ghost use Rattle.rational.specs.Rational.{ℚ};
ghost use Rattle.lp_main.specs.Refusals.{ended};
ghost use Rattle.lp_main.specs.declared.words.Task.{Task};
ghost use Rattle.lp_main.specs.Ends.{Writes, IsCause, status_of_end};
ghost use Rattle.lp_main.specs.Works.{WorksCalmly, counts};
ghost use Rattle.lp_main.specs.Summaries.{summary};
ghost use Rattle.lp_main.specs.World.{Stream};

use crate::refusal::Refusal;
use crate::solve::report_of;
use crate::status::Answer;
use crate::words::Asked;
use cert_text::Report;
use deck_model::{Log, Outcome};
use deck_tools::make;
use exact_frac::{Arith, Frac};
use io_ends::{Sink, write_all};
use no_memory::Memory;
use std::alloc::Global;
use std::thread::Threads;

/// Appends a line with a number behind a word.
fn put_number(text: &mut Vec<u8>, word: &[u8], number: u64) -> Result<(), Memory>
    ensures { OnOk result (text.new.items ≡ text.old.items ++ ended (word.now ++ decimal number)) }
{
    let digits = number.to_string(*text.allocator())?;
    text.extend_from_slice(word)?;
    text.extend_from_slice(digits.as_bytes())?;
    text.push(b'\n')?;
    Ok(())
}

/// Appends the line of an objective.
fn put_objective(text: &mut Vec<u8>, objective: Frac) -> Result<(), Memory>
    ensures { OnOk result (text.new.items ≡ text.old.items ++ ended (codes "OBJECTIVE " ++ fraction_text objective)) }
{
    text.extend_from_slice(b"OBJECTIVE ")?;
    frac_text::append(text, objective)?;
    text.push(b'\n')?;
    Ok(())
}

/// The objective of an outcome that is an optimum.
fn objective_of(outcome: &Outcome) -> Frac
    requires { (x y : List ℚ) × (v : ℚ) × (outcome_of outcome.now ≡ optimal x y v) }
    ensures { (x y : List ℚ) (v : ℚ) → outcome_of outcome.now ≡ optimal x y v → result ≡ v }
{
    match outcome {
        Outcome::Optimal { objective, .. } => *objective,
        _ => unreachable!(),
    }
}

/// How many moves a log has.
fn moves_of(log: &Option<Log>) -> u64
    ensures { (entries : List Entry) → log.now ≡ Some entries → result ≡ moves entries }
{
    match log {
        Some(log) => log.moves(),
        None => 0,
    }
}

/// The summary of the run of a deck of a size, which has come to an optimum.
fn summary(alloc: Global, size: u32, report: &Report) -> Result<Vec<u8>, Memory>
    requires few { size ≤ 20 }
    requires optimum { (x y : List ℚ) × (v : ℚ) × (report.now.outcome ≡ optimal x y v) }
    ensures { (log : List Entry) (x y : List ℚ) (v : ℚ) → report.now.log ≡ Some log → report.now.outcome ≡ optimal x y v
        → IfOk result (λ text. text.items ≡ summary size log v) }
{
    let size = u64::from(size);
    let mut text = Vec::new(alloc);
    put_number(&mut text, b"MAKE ", size)?;
    put_number(&mut text, b"ROWS ", 2 * size)?;
    put_number(&mut text, b"COLUMNS ", size * size)?;
    put_number(&mut text, b"MOVES ", moves_of(&report.log))?;
    put_objective(&mut text, objective_of(&report.outcome))?;
    Ok(text)
}

/// Makes the transport deck of a size, solves it, and writes what its run comes to.
pub fn make_and_solve<R: Threads + Sync, K: Sink, A: Arith>(
    rt: &R,
    alloc: Global,
    size: u32,
    out: &mut K,
    arith: &mut A,
) -> Result<Answer, Refusal>
    requires some { 1 ≤ size }
    requires few { size ≤ 20 }
    ensures done { (text : Option (List ℕ)) → IfOk result (Writes (Some (Task.Make size)) (A.width arith.old) text (K.contents out.old) (K.contents out.new)) }
    ensures cause { (input : Stream) → IfErr result (IsCause (Some (Task.Make size)) (A.width arith.old) input input (K.contents out.old) (K.contents out.new)) }
    ensures no_read { ¬ IsErrOf result Refusal.Read }
    ensures sink_rose { IsErrOf result Refusal.Write → Rose (K.fault_count out.old) (K.fault_count out.new) }
    ensures sink_stays { ¬ IsErrOf result Refusal.Write → K.fault_count out.new ≡ K.fault_count out.old }
    ensures sink_never_falls { K.fault_count out.old ≤ K.fault_count out.new }
    ensures same_width { A.width arith.new ≡ A.width arith.old }
    ensures works { WorksCalmly 0 (A.width arith.old) (transport size)
        (counts (A.unfit_count arith.old) (A.work_count arith.old)) (counts (A.unfit_count arith.new) (A.work_count arith.new)) (status_of_end result) }
{
    let Ok(deck) = make(alloc, size) else {
        return Err(Refusal::Memory);
    };
    let report = report_of(rt, alloc, Asked::WHOLE_RUN, &deck, arith)?;
    let Ok(text) = summary(alloc, size, &report) else {
        return Err(Refusal::Memory);
    };
    match write_all(out, text.as_slice()) {
        Ok(()) => Ok(Answer::Done),
        Err(_) => Err(Refusal::Write),
    }
}
