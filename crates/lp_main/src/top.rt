// The top call.
ghost use Rattle.std.specs.Prelude.{◌≡◌, ◌≤◌, IsErrOf, map};
ghost use Rattle.std.specs.String.{string_bytes};
ghost use Rattle.io_ends.specs.Count.{Rose};
ghost use Rattle.lp_words.specs.Words.{wish_of};
ghost use Rattle.lp_main.specs.Ends.{LeavesBy, TakesAsNeeded, status_of_end};
ghost use Rattle.lp_main.specs.Runs.{Runs};
ghost use Rattle.lp_main.specs.Truths.{IsDoneTruly};
ghost use Rattle.lp_main.specs.Words.{task_of};
ghost use Rattle.lp_main.specs.Works.{Works, counts};
ghost use Rattle.lp_main.specs.World.{stream, world};

use crate::auditing::audit;
use crate::checking::check;
use crate::layout::lay_out;
use crate::making::make_and_solve;
use crate::range::range;
use crate::refusal::{Refusal, refuse};
use crate::solve::solve;
use crate::status::{Answer, Status};
use crate::words::{Task, served};
use exact_frac::Arith;
use io_ends::{Sink, Source};
use std::alloc::Global;
use std::thread::Threads;

/// Serves what the words ask for: reads a deck from `input`, and writes its report to `out`, or the deck in its layout, or reads a
/// report too, and writes the verdict on it, or whether it is the run; or tells the ranges of a deck; or makes a deck, solves it, and
/// writes a summary.
fn serve<R: Threads + Sync, S: Source, K: Sink, A: Arith>(
    rt: &R,
    alloc: Global,
    words: &[String],
    input: &mut S,
    out: &mut K,
    arith: &mut A,
) -> Result<Answer, Refusal>
    ensures leaves { LeavesBy (task_of (wish_of (map string_bytes words.now))) (A.width arith.old)
        (stream (S.remaining input.old) (S.fault_count input.old)) (stream (S.remaining input.new) (S.fault_count input.new))
        (K.contents out.old) (K.contents out.new) result }
    ensures needed { TakesAsNeeded (task_of (wish_of (map string_bytes words.now)))
        (stream (S.remaining input.old) (S.fault_count input.old)) (stream (S.remaining input.new) (S.fault_count input.new)) }
    ensures source_rose { IsErrOf result Refusal.Read → Rose (S.fault_count input.old) (S.fault_count input.new) }
    ensures source_stays { ¬ IsErrOf result Refusal.Read → S.fault_count input.new ≡ S.fault_count input.old }
    ensures source_never_falls { S.fault_count input.old ≤ S.fault_count input.new }
    ensures sink_rose { IsErrOf result Refusal.Write → Rose (K.fault_count out.old) (K.fault_count out.new) }
    ensures sink_stays { ¬ IsErrOf result Refusal.Write → K.fault_count out.new ≡ K.fault_count out.old }
    ensures sink_never_falls { K.fault_count out.old ≤ K.fault_count out.new }
    ensures same_width { A.width arith.new ≡ A.width arith.old }
    ensures works { Works (task_of (wish_of (map string_bytes words.now))) (A.width arith.old) (S.remaining input.old)
        (counts (A.unfit_count arith.old) (A.work_count arith.old)) (counts (A.unfit_count arith.new) (A.work_count arith.new)) (status_of_end result) }
{
    match served(alloc, words) {
        Ok(Task::Solve(asked)) => solve(rt, alloc, asked, input, out, arith),
        Ok(Task::Check(form)) => check(rt, alloc, form, input, out, arith),
        Ok(Task::Deck(form)) => lay_out(alloc, form, input, out),
        Ok(Task::Make(size)) => make_and_solve(rt, alloc, size, out, arith),
        Ok(Task::Range(form)) => range(rt, alloc, form, input, out, arith),
        Ok(Task::Audit(form)) => audit(rt, alloc, form, input, out, arith),
        Err(unserved) => Err(unserved),
    }
}

/// Does what the words say, and waits for nobody: reads a deck from `input` and writes its report to `out`, or the deck in its
/// layout, or how far each cost and right side of it may change, or reads a deck and a report behind it and writes the verdict, or
/// whether the report is the deck's run, or makes a transport deck, solves it and writes a summary; and says on `err` why it refuses,
/// where it does. Where `input` tells the text that it has left:
///
/// - `truth`: where a solve is `Done`, `out` gained a report of the deck that the text is, and what the report states is so: no
///   feasible point is better than its point, and its value is that point's; or no point is feasible; or feasible points pass every
///   objective. The lists of the report prove it. Where a check or an audit is `Done`, that is so of the report behind the deck.
///   Where ranging is `Done`, so is an outcome, and `out` gained the ranges of a state that yields it, or the word that there are none.
/// - `runs`: how the call ends, what it replies and what it leaves, in five parts:
///   - `ends`: in one way, which has this status. Either `err` gained nothing, and `out` gained what was asked for: the report of the
///     deck's one run by Bland's rule; the verdict on a report, by the first of the checker's rules that it breaks, or by the first
///     entry of its log that is not the run's, and the input was read to its end; the deck in its layout; the ranges of the run's
///     last basis; or the summary of a made deck's run. Or `err` gained the one line of a refusal, or a beginning of it where a write
///     there failed, and the refusal has its cause: words that ask for nothing that is served, the first fault of the text or flaw of
///     the report, the first value of the run or its ranges or sum of the check that does not fit, a spent budget, which is below the
///     bound of Bland's theorem, the first number without a spelling on a card, a failed read or write, or want of memory. `out` may
///     have a beginning of what was to be written where a write failed or memory ran out; any other refusal leaves it as it was.
///   - `needed`: `solve`, `range` and `deck` read only as needed, however the call ends: before the last read no whole line has a
///     fault, none ends the deck, and the bytes are no more than a deck may have. `make` reads nothing, nor do words that ask for nothing.
///   - `input_never_falls`, `output_never_falls`: the counts of faults of `input` and `out` do not fall.
///   - `reads`, `writes`: the count of faults stands, and the status is not that of a failed read or write; or it rose, since a read
///     failed that was needed, or a write behind a beginning of what was to be written, and the status is that or `Memory`.
///   - `answered`: where neither count rose, and memory sufficed, a text with a fault has `BadInput` and the line of its first fault;
///     a deck to be solved, or ranged, whose run ends within the budget has `Done`, or `Overflow` where a value of the run, or of
///     the ranges that are asked for, does not fit; a deck to be written has `Done`, or `BadInput` and the line of its first number
///     without a spelling; and a report without a flaw that is to be audited has `Done` or `Refused`, or `Overflow` where a value of
///     the run does not fit, as far as it goes.
/// - `works`: a solve of a deck that is calm, so that each value fits that a solver by factors works along its run, is not refused by
///   `Overflow`, and no result is unfit; one whose run ends within the budget has `Done`, where `answered` speaks, and without workers
///   it took at most so many products and quotients, by the rows, entries, costs and moves of the deck's run, as `solve_work` says.
/// - `same_width`: the arithmetic keeps its width.
///
/// The number of workers, and how their threads take turns, change nothing but this bound on work.
pub fn run_alone<R: Threads + Sync, S: Source, K: Sink, E: Sink, A: Arith>(
    rt: &R,
    alloc: Global,
    words: &[String],
    input: &mut S,
    out: &mut K,
    err: &mut E,
    arith: &mut A,
) -> Status
    ensures truth { IsDoneTruly (task_of (wish_of (map string_bytes words.now))) (S.remaining input.old) (K.contents out.old) (K.contents out.new) result }
    ensures runs { Runs (task_of (wish_of (map string_bytes words.now))) (A.width arith.old)
        (world (stream (S.remaining input.old) (S.fault_count input.old)) (stream (K.contents out.old) (K.fault_count out.old)) (stream (E.contents err.old) (E.fault_count err.old)))
        (world (stream (S.remaining input.new) (S.fault_count input.new)) (stream (K.contents out.new) (K.fault_count out.new)) (stream (E.contents err.new) (E.fault_count err.new)))
        result }
    ensures works { Works (task_of (wish_of (map string_bytes words.now))) (A.width arith.old) (S.remaining input.old)
        (counts (A.unfit_count arith.old) (A.work_count arith.old)) (counts (A.unfit_count arith.new) (A.work_count arith.new)) result }
    ensures same_width { A.width arith.new ≡ A.width arith.old }
{
    match serve(rt, alloc, words, input, out, arith) {
        Ok(answer) => answer.status(),
        Err(refusal) => refuse(&refusal, alloc, err),
    }
}
