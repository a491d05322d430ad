//! The run of an instance, whose tickets are priced by seats.
ghost use Rattle.std.specs.Prelude.{◌≡◌, ◌≤◌, IfErr, IfOk, OnOk};
ghost use Rattle.lp_run.specs.Listing.{StartFits};
ghost use Rattle.factor_run.specs.Calm.{IsCalm};
ghost use Rattle.two_phase.specs.Board.{HasEnded};
ghost use Rattle.two_phase.specs.Tally.{IsFresh};
ghost use Rattle.crew.specs.Answers.{IsCause, Solves};
ghost use Rattle.crew.specs.Inner.Driving.{IsCalmOn, IsRunning, StandsOn};
ghost use Rattle.crew.specs.Inner.Rounds.{GoesOn};
ghost use Rattle.crew.specs.Inner.Works.{HasRisen, IsCalmFault};

use crate::faults::CrewFault;
use crate::pricing::price;
use crate::probe::{Probe, Spot};
use crate::solving::{ask, close, end_of, fault_of, take};
use exact_frac::Arith;
use instance_model::Instance;
use std::alloc::Global;
use std::sync::Arc;
use std::thread::Threads;
use two_phase::{Board, Closed, NewFault, Recorded};

/// The outcome of an instance, by its one Bland run of at most so many moves, as `solve_alone` answers it. Each ticket is
/// priced by so many workers, by each in a thread of its own where its columns are worth it and the threads can be made.
/// The counts of the arithmetic used come into `arith`, but where memory is wanted not all of them; an overflow has raised
/// that of unfit results. On a calm instance no result is unfit. Each thread calls the probe at its spots.
///
/// # Errors
///
/// `Overflow` with the place of a value of the run that does not fit the width of the arithmetic, where the run comes to
/// it within the budget; `Budget` with the budget where the run has more moves; `Memory` for want of memory.
pub fn solve<R: Threads + Sync, A: Arith, P: Probe>(
    rt: &R,
    alloc: Global,
    inst: Arc<Instance>,
    workers: u32,
    budget: u64,
    arith: &mut A,
    probe: &P,
) -> Result<Closed, CrewFault>
    requires fits { StartFits (A.width arith.old) inst.value }
    requires workers { 1 ≤ workers }
    ensures solves { Solves (A.width arith.old) inst.value budget result }
    ensures width { A.width arith.new ≡ A.width arith.old }
    ensures unfit { A.unfit_count arith.old ≤ A.unfit_count arith.new }
    ensures rose { IfErr result (HasRisen (A.unfit_count arith.old) (A.unfit_count arith.new)) }
    ensures calm { IsCalm (A.width arith.old) inst.value → (A.unfit_count arith.new ≡ A.unfit_count arith.old) × IfErr result IsCalmFault }
{
    match Board::new(alloc, inst, budget, arith.fresh()) {
        Ok(board) => finish(rt, alloc, workers, budget, board, arith, probe),
        Err(NewFault { arith: used, fault }) => {
            arith.absorb(used);
            Err(fault_of(fault))
        }
    }
}

// Drives a board to the end of its run, and closes it. Its arithmetic is absorbed.
fn finish<R: Threads + Sync, A: Arith, P: Probe>(
    rt: &R,
    alloc: Global,
    workers: u32,
    budget: u64,
    board: Board<A>,
    arith: &mut A,
    probe: &P,
) -> Result<Closed, CrewFault>
    requires workers { 1 ≤ workers }
    requires running { IsRunning (A.width board.arith) board }
    requires budget { board.budget ≡ budget }
    requires width { A.width board.arith ≡ A.width arith.old }
    ensures solves { Solves (A.width arith.old) board.inst.value board.budget result }
    ensures width { A.width arith.new ≡ A.width arith.old }
    ensures unfit { A.unfit_count arith.old ≤ A.unfit_count arith.new }
    ensures rose { IfErr result (HasRisen (A.unfit_count arith.old) (A.unfit_count arith.new)) }
    ensures calm { IsCalmOn (A.width board.arith) board → A.unfit_count board.arith ≡ 0
        → (A.unfit_count arith.new ≡ A.unfit_count arith.old) × IfErr result IsCalmFault }
{
    let mut board = board;
    match drive(rt, alloc, workers, budget, &mut board, arith, probe) {
        Ok(()) => close(alloc, board, arith),
        Err(fault) => {
            arith.absorb(board.into_arith());
            Err(fault)
        }
    }
}

// Goes on by rounds to the end of the run.
fn drive<R: Threads + Sync, A: Arith, P: Probe>(
    rt: &R,
    alloc: Global,
    workers: u32,
    budget: u64,
    board: &mut Board<A>,
    arith: &mut A,
    probe: &P,
) -> Result<(), CrewFault>
    requires workers { 1 ≤ workers }
    requires running { IsRunning (A.width board.old.arith) board.old }
    requires budget { board.old.budget ≡ budget }
    requires width { A.width board.old.arith ≡ A.width arith.old }
    ensures ended { OnOk result (HasEnded board.new) }
    ensures same { StandsOn (A.width board.old.arith) board.old board.new }
    ensures board_width { A.width board.new.arith ≡ A.width board.old.arith }
    ensures counts { (A.width arith.new ≡ A.width arith.old) × (A.unfit_count arith.old ≤ A.unfit_count arith.new) }
    ensures fault { IfErr result (λ fault. IsCause (A.width board.old.arith) board.old.inst.value budget fault
        × HasRisen (A.unfit_count board.old.arith) (A.unfit_count board.new.arith) fault) }
    ensures calm { IsCalmOn (A.width board.old.arith) board.old
        → (A.unfit_count board.new.arith ≡ A.unfit_count board.old.arith)
        × (A.unfit_count arith.new ≡ A.unfit_count arith.old) × IfErr result IsCalmFault }
{
    'rounds: loop {
        if let Recorded::Ended(standing) = round(rt, alloc, workers, board, arith, probe)? {
            return end_of(standing, budget);
        }
    }
}

// A round at the board's state: its ticket, priced by seats, and what follows from the choice.
fn round<R: Threads + Sync, A: Arith, P: Probe>(
    rt: &R,
    alloc: Global,
    workers: u32,
    board: &mut Board<A>,
    arith: &mut A,
    probe: &P,
) -> Result<Recorded, CrewFault>
    requires workers { 1 ≤ workers }
    requires running { IsRunning (A.width board.old.arith) board.old }
    requires width { A.width board.old.arith ≡ A.width arith.old }
    ensures same { StandsOn (A.width board.old.arith) board.old board.new }
    ensures board_counts { (A.width board.new.arith ≡ A.width board.old.arith)
        × (A.unfit_count board.old.arith ≤ A.unfit_count board.new.arith) }
    ensures counts { (A.width arith.new ≡ A.width arith.old) × (A.unfit_count arith.old ≤ A.unfit_count arith.new) }
    ensures goes { IfOk result (GoesOn board.old board.new) }
    ensures fault { IfErr result (λ fault. IsCause (A.width board.old.arith) board.old.inst.value board.old.budget fault
        × HasRisen (A.unfit_count board.old.arith) (A.unfit_count board.new.arith) fault) }
    ensures calm { IsCalmOn (A.width board.old.arith) board.old
        → (A.unfit_count board.new.arith ≡ A.unfit_count board.old.arith)
        × (A.unfit_count arith.new ≡ A.unfit_count arith.old)
        × IfErr result IsCalmFault × OnOk result (IsCalmOn (A.width board.old.arith) board.new) }
{
    let ticket = ask(rt, alloc, board)?;
    let choice = price(rt, alloc, board.instance(), ticket, workers, arith, probe)?;
    probe.at(Spot::Driver, choice.number);
    take(rt, alloc, board, choice)
}
