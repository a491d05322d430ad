//! The run of an instance.
ghost use Rattle.std.specs.Prelude.{◌≡◌, ◌≢◌, ◌↔◌, ℕ, ◌+◌, ◌≤◌, false, length, IfErr, IfOk, OnOk};
ghost use Rattle.lp_run.specs.Listing.{StartFits};
ghost use Rattle.exact_frac.specs.Count.{raised};
ghost use Rattle.two_phase.specs.Board.{AreBuilt, BoardStands, HasEnded, HasGivenUpFor, HasNoCause, IsChoiceFor, IsSameRun, IsUnmoved, Records, standing_on};
ghost use Rattle.two_phase.specs.Modes.{mode_of};
ghost use Rattle.two_phase.specs.declared.standing.Mode.{Mode};
ghost use Rattle.two_phase.specs.declared.standing.Standing.{Standing};
ghost use Rattle.lp_model.specs.Log.{moves};
ghost use Rattle.lp_run.specs.Instance.{row_count};
ghost use Rattle.bland_ratio.specs.Entries.{nonzero_costs, stored_entries};
ghost use Rattle.factor_run.specs.Bound.{making_work, solve_work};
ghost use Rattle.factor_run.specs.Calm.{IsCalm};
ghost use Rattle.two_phase.specs.Inner.Grounds.{Asks, IsPlain, WantsTable};
ghost use Rattle.two_phase.specs.Works.{ground_owed, move_work, recorded_work};
ghost use Rattle.two_phase.specs.Tally.{HasRoundWorked, HasWorked, IsFresh};
ghost use Rattle.crew.specs.Answers.{IsCause, Solves};
ghost use Rattle.crew.specs.Inner.Works.{HasRisen, IsCalmFault};
ghost use Rattle.crew.specs.Inner.Faults.{IsFaultFor, IsHandedOn};
ghost use Rattle.crew.specs.Inner.Rounds.{GoesOn};
ghost use Rattle.crew.specs.declared.faults.CrewFault.{CrewFault};

use crate::faults::CrewFault;
use bland_ratio::{Choice, Ticket, choose};
use exact_frac::Arith;
use instance_model::Instance;
use std::alloc::Global;
use std::sync::Arc;
use std::thread::Threads;
use two_phase::{Board, BoardFault, CloseFault, Closed, NewFault, Recorded, Standing};

/// The outcome of an instance, by its one Bland run of at most so many moves, over factors of its bases. Where a value that is
/// worked with them does not fit the width, they are made anew, and where it does not fit so either the run goes on over a plain
/// table, whose rows are worked in several threads where it is large.
/// The counts of the arithmetic used come into `arith`; an overflow has raised that of unfit results. On a calm instance, of
/// m rows and so many entries (the stored entries of the structurals and their costs that are not 0), no result is unfit, and
/// a run of so many moves takes at most (moves + 4)·(4m² + 256m + entries) + (moves/64 + 1)·m³ products and quotients, less
/// one for each stored entry, which is left to the making of the instance.
///
/// # Errors
///
/// `Overflow` with the place of a value of the run that does not fit the width of the arithmetic, where the run comes to
/// it within the budget; `Budget` with the budget where the run has more moves; `Memory` for want of memory.
pub fn solve_alone<R: Threads + Sync, A: Arith>(
    rt: &R,
    alloc: Global,
    inst: Arc<Instance>,
    budget: u64,
    arith: &mut A,
) -> Result<Closed, CrewFault>
    requires { StartFits (A.width arith.old) inst.value }
    ensures solves { Solves (A.width arith.old) inst.value budget result }
    ensures width { A.width arith.new ≡ A.width arith.old }
    ensures unfit { A.unfit_count arith.old ≤ A.unfit_count arith.new }
    ensures rose { IfErr result (HasRisen (A.unfit_count arith.old) (A.unfit_count arith.new)) }
    ensures calm { IsCalm (A.width arith.old) inst.value → (A.unfit_count arith.new ≡ A.unfit_count arith.old) × IfErr result IsCalmFault }
    ensures work { IsCalm (A.width arith.old) inst.value → IfOk result (λ closed. A.work_count arith.new + stored_entries inst.value ≤ A.work_count arith.old + solve_work inst.value closed.moves) }
{
    match Board::new(alloc, inst, budget, arith.fresh()) {
        Ok(board) => go_on(rt, alloc, budget, board, arith),
        Err(NewFault { arith: used, fault }) => {
            arith.absorb(used);
            Err(fault_of(fault))
        }
    }
}

// Goes on with a board to the end of its run, and closes it. Its arithmetic is absorbed.
fn go_on<R: Threads + Sync, A: Arith>(
    rt: &R,
    alloc: Global,
    budget: u64,
    board: Board<A>,
    arith: &mut A,
) -> Result<Closed, CrewFault>
    requires stands { BoardStands (A.width board.arith) board }
    requires running { standing_on board ≡ Standing.Running }
    requires budget { board.budget ≡ budget }
    requires width { A.width board.arith ≡ A.width arith.old }
    ensures solves { Solves (A.width arith.old) board.inst.value board.budget result }
    ensures width { A.width arith.new ≡ A.width arith.old }
    ensures unfit { A.unfit_count arith.old ≤ A.unfit_count arith.new }
    ensures rose { IfErr result (HasRisen (A.unfit_count arith.old) (A.unfit_count arith.new)) }
    ensures calm { IsCalm (A.width arith.old) board.inst.value → IsFresh (A.width board.arith) board → A.unfit_count board.arith ≡ 0 → (A.unfit_count arith.new ≡ A.unfit_count arith.old) × IfErr result IsCalmFault }
    ensures work { IsCalm (A.width arith.old) board.inst.value → IsFresh (A.width board.arith) board → A.work_count board.arith ≤ stored_entries board.inst.value + making_work board.inst.value
        → IfOk result (λ closed. A.work_count arith.new + stored_entries board.inst.value ≤ A.work_count arith.old + solve_work board.inst.value closed.moves) }
{
    let mut board = board;
    match run(rt, alloc, budget, &mut board, arith) {
        Ok(()) => close(alloc, board, arith),
        Err(fault) => {
            arith.absorb(board.into_arith());
            Err(fault)
        }
    }
}

// Closes a board whose run has ended. Its arithmetic is absorbed.
pub(crate) fn close<A: Arith>(
    alloc: Global,
    board: Board<A>,
    arith: &mut A,
) -> Result<Closed, CrewFault>
    requires stands { BoardStands (A.width board.arith) board }
    requires ended { HasEnded board }
    requires width { A.width board.arith ≡ A.width arith.old }
    ensures solves { Solves (A.width arith.old) board.inst.value board.budget result }
    ensures width { A.width arith.new ≡ A.width arith.old }
    ensures unfit { A.unfit_count arith.old ≤ A.unfit_count arith.new }
    ensures absorbed { IfOk result (λ _. A.unfit_count arith.new ≡ raised (A.unfit_count arith.old) (A.unfit_count board.arith)) }
    ensures rose { IfErr result (HasRisen (A.unfit_count arith.old) (A.unfit_count arith.new)) }
    ensures calm { IsCalm (A.width arith.old) board.inst.value → A.unfit_count board.arith ≡ 0 → (A.unfit_count arith.new ≡ A.unfit_count arith.old) × IfErr result IsCalmFault }
    ensures work { IfOk result (λ closed. (closed.moves ≡ moves board.log) × (A.work_count arith.new ≤ A.work_count arith.old + (A.work_count board.arith + nonzero_costs board.inst.value))) }
{
    match board.close(alloc) {
        Ok((closed, worked)) => {
            arith.absorb(worked);
            Ok(closed)
        }
        Err(
            CloseFault {
                board: refused,
                fault,
            },
        ) => {
            arith.absorb(refused.into_arith());
            Err(fault_of(fault))
        }
    }
}

// Goes on by rounds to the end of the run: a ticket of the board's state, its choice, and what follows from that.
fn run<R: Threads + Sync, A: Arith>(
    rt: &R,
    alloc: Global,
    budget: u64,
    board: &mut Board<A>,
    arith: &mut A,
) -> Result<(), CrewFault>
    requires stands { BoardStands (A.width board.old.arith) board.old }
    requires running { standing_on board.old ≡ Standing.Running }
    requires budget { board.old.budget ≡ budget }
    requires width { A.width board.old.arith ≡ A.width arith.old }
    ensures ended { OnOk result (HasEnded board.new) }
    ensures stands { OnOk result (BoardStands (A.width board.old.arith) board.new) }
    ensures instance { board.new.inst ≡ board.old.inst }
    ensures budget { board.new.budget ≡ board.old.budget }
    ensures board_width { A.width board.new.arith ≡ A.width board.old.arith }
    ensures fault { IfErr result (IsCause (A.width board.old.arith) board.old.inst.value budget) }
    ensures width { A.width arith.new ≡ A.width arith.old }
    ensures unfit { A.unfit_count arith.old ≤ A.unfit_count arith.new }
    ensures rose { IfErr result (HasRisen (A.unfit_count board.old.arith) (A.unfit_count board.new.arith)) }
    ensures calm { IsCalm (A.width board.old.arith) board.old.inst.value → IsFresh (A.width board.old.arith) board.old
        → (A.unfit_count board.new.arith ≡ A.unfit_count board.old.arith) × (A.unfit_count arith.new ≡ A.unfit_count arith.old) × IfErr result IsCalmFault }
    ensures work { IsCalm (A.width board.old.arith) board.old.inst.value → IsFresh (A.width board.old.arith) board.old
        → OnOk result (HasWorked board.old.inst.value board.new.log (length board.new.log + 1) board.new.updates
        (A.work_count board.old.arith + A.work_count arith.old) (A.work_count board.new.arith + A.work_count arith.new)) }
{
    'rounds: loop {
        match round(rt, alloc, board, arith)? {
            Recorded::Entry(_) => {}
            Recorded::Rescued => {}
            Recorded::Ended(standing) => return end_of(standing, budget),
        }
    }
}

// A round at the board's state.
fn round<R: Threads + Sync, A: Arith>(
    rt: &R,
    alloc: Global,
    board: &mut Board<A>,
    arith: &mut A,
) -> Result<Recorded, CrewFault>
    requires stands { BoardStands (A.width board.old.arith) board.old }
    requires running { standing_on board.old ≡ Standing.Running }
    requires width { A.width board.old.arith ≡ A.width arith.old }
    ensures stands { BoardStands (A.width board.old.arith) board.new }
    ensures instance { board.new.inst ≡ board.old.inst }
    ensures budget { board.new.budget ≡ board.old.budget }
    ensures board_width { A.width board.new.arith ≡ A.width board.old.arith }
    ensures goes { IfOk result (GoesOn board.old board.new) }
    ensures fault { IfErr result (IsCause (A.width board.old.arith) board.old.inst.value board.old.budget) }
    ensures width { A.width arith.new ≡ A.width arith.old }
    ensures unfit { A.unfit_count arith.old ≤ A.unfit_count arith.new }
    ensures board_unfit { A.unfit_count board.old.arith ≤ A.unfit_count board.new.arith }
    ensures rose { IfErr result (HasRisen (A.unfit_count board.old.arith) (A.unfit_count board.new.arith)) }
    ensures built { IfOk result (λ _. AreBuilt (A.width board.old.arith) board.old → AreBuilt (A.width board.old.arith) board.new) }
    ensures calm { IsCalm (A.width board.old.arith) board.old.inst.value → AreBuilt (A.width board.old.arith) board.old → (IsPlain board.old.ground → ⊥)
        → (A.unfit_count board.new.arith ≡ A.unfit_count board.old.arith) × (A.unfit_count arith.new ≡ A.unfit_count arith.old) × IfErr result IsCalmFault }
    ensures work { (before : ℕ) → IsCalm (A.width board.old.arith) board.old.inst.value → AreBuilt (A.width board.old.arith) board.old → (IsPlain board.old.ground → ⊥)
        → HasWorked board.old.inst.value board.old.log (length board.old.log) board.old.updates before (A.work_count board.old.arith + A.work_count arith.old)
        → IfOk result (HasRoundWorked board.old.inst.value board.new before (A.work_count board.new.arith + A.work_count arith.new)) }
{
    let ticket = ask(rt, alloc, board)?;
    let choice = choose(board.instance(), &ticket, arith);
    take(rt, alloc, board, choice)
}

// The ticket of the board's state.
pub(crate) fn ask<R: Threads + Sync, A: Arith>(
    rt: &R,
    alloc: Global,
    board: &mut Board<A>,
) -> Result<Ticket, CrewFault>
    requires stands { BoardStands (A.width board.old.arith) board.old }
    requires running { standing_on board.old ≡ Standing.Running }
    ensures stands { BoardStands (A.width board.old.arith) board.new }
    ensures same { IsSameRun board.old board.new }
    ensures unmoved { IsUnmoved board.old board.new }
    ensures asks { IfOk result (Asks board.old.inst.value board.old.log board.new.ground) }
    ensures rescued { OnOk result ((mode_of board.new.ground ≡ Mode.Plain) ↔ WantsTable (A.width board.old.arith) board.old.inst.value board.old.ground) }
    ensures fault { IfErr result (IsCause (A.width board.old.arith) board.old.inst.value board.old.budget) }
    ensures board_width { A.width board.new.arith ≡ A.width board.old.arith }
    ensures board_unfit { A.unfit_count board.old.arith ≤ A.unfit_count board.new.arith }
    ensures rose { IfErr result (HasRisen (A.unfit_count board.old.arith) (A.unfit_count board.new.arith)) }
    ensures built { AreBuilt (A.width board.old.arith) board.old → AreBuilt (A.width board.old.arith) board.new }
    ensures calm { HasNoCause (A.width board.old.arith) board.old → (A.unfit_count board.new.arith ≡ A.unfit_count board.old.arith) × IfErr result IsCalmFault }
    ensures owed { HasNoCause (A.width board.old.arith) board.old
        → IfOk result (λ _. A.work_count board.new.arith ≤ A.work_count board.old.arith + ground_owed (row_count board.old.inst.value) board.old.ground) }
    ensures unowed { HasNoCause (A.width board.old.arith) board.old → IfOk result (λ _. ground_owed (row_count board.old.inst.value) board.new.ground ≡ 0) }
{
    match board.ticket(rt, alloc) {
        Ok(ticket) => Ok(ticket),
        Err(fault) => Err(fault_of(fault)),
    }
}

// Takes in a choice of the board's own number.
pub(crate) fn take<R: Threads + Sync, A: Arith>(
    rt: &R,
    alloc: Global,
    board: &mut Board<A>,
    choice: Choice,
) -> Result<Recorded, CrewFault>
    requires stands { BoardStands (A.width board.old.arith) board.old }
    requires running { standing_on board.old ≡ Standing.Running }
    requires exact { IsChoiceFor (A.width board.old.arith) board.old.inst.value (length board.old.log) choice }
    requires number { choice.number ≡ length board.old.log }
    ensures stands { BoardStands (A.width board.old.arith) board.new }
    ensures same { IsSameRun board.old board.new }
    ensures recorded { IfOk result (Records board.old board.new choice) }
    ensures fault { IfErr result (IsCause (A.width board.old.arith) board.old.inst.value board.old.budget) }
    ensures board_width { A.width board.new.arith ≡ A.width board.old.arith }
    ensures board_unfit { A.unfit_count board.old.arith ≤ A.unfit_count board.new.arith }
    ensures rose { IfErr result (HasRisen (A.unfit_count board.old.arith) (A.unfit_count board.new.arith)) }
    ensures given_up { HasGivenUpFor (A.width board.old.arith) board.old board.new choice }
    ensures built { AreBuilt (A.width board.old.arith) board.old → AreBuilt (A.width board.old.arith) board.new }
    ensures calm { choice.unfit ≡ false → HasNoCause (A.width board.old.arith) board.old → (A.unfit_count board.new.arith ≡ A.unfit_count board.old.arith) × IfErr result IsCalmFault }
    ensures spent { choice.unfit ≡ false → HasNoCause (A.width board.old.arith) board.old → IfOk result (λ recorded. A.work_count board.new.arith ≤ A.work_count board.old.arith
        + (ground_owed (row_count board.old.inst.value) board.old.ground + (move_work (row_count board.old.inst.value) + recorded_work (row_count board.old.inst.value) board.old.updates recorded))) }
{
    match board.record(rt, alloc, choice) {
        Ok(recorded) => Ok(recorded),
        Err(fault) => Err(fault_of(fault)),
    }
}

// What the standing at the end of a run comes to.
pub(crate) fn end_of(standing: Standing, budget: u64) -> Result<(), CrewFault>
    requires { standing ≢ Standing.Running }
    ensures within { OnOk result (standing ≢ Standing.Spent) }
    ensures spent { IfErr result (λ fault. (fault ≡ CrewFault.Budget budget) × (standing ≡ Standing.Spent)) }
{
    match standing {
        Standing::Optimal | Standing::Infeasible | Standing::Unbounded => Ok(()),
        Standing::Spent => Err(CrewFault::Budget(budget)),
        Standing::Running => unreachable!(),
    }
}

// The refusal of a solve for one of a board.
pub(crate) fn fault_of(fault: BoardFault) -> CrewFault
    requires { IsHandedOn fault }
    ensures { IsFaultFor fault result }
{
    match fault {
        BoardFault::Memory => CrewFault::Memory,
        BoardFault::Overflow(place) => CrewFault::Overflow(place),
        BoardFault::Stale(_) | BoardFault::Ended(_) => unreachable!(),
    }
}
