//! How a board stands, what a record on it comes to, and why a call on it is refused.
ghost use Rattle.std.specs.Prelude.{◌≡◌};
ghost use Rattle.two_phase.specs.Standing.{board_fault, closing_fault, course_after, answer_of, standing_at, standing_of};

use crate::reached::Reached;
use lp_model::{Entry, Place};
use plain_table::TableFault;
use run_outcome::{OutcomeFault, Stop};
use thiserror::Error;

/// How a board stands.
#[derive(Clone, Copy, Debug, PartialEq, Eq)]
pub enum Standing {
    /// The run goes on.
    Running,
    /// It has ended at an optimum.
    Optimal,
    /// It has ended, and there is no feasible point.
    Infeasible,
    /// It has ended at a step without a limit.
    Unbounded,
    /// The budget has no move left for the next entry, which is one.
    Spent,
}

/// What a board works with.
#[derive(Clone, Copy, Debug, PartialEq, Eq)]
pub enum Mode {
    /// Factors of the basis.
    Factors,
    /// The basis factored anew, or the plain table: the factors are given up.
    Plain,
}

/// How far the run of a board has come.
#[derive(Clone, Copy, Debug)]
pub enum Course {
    /// It goes on.
    Running,
    /// It has ended so.
    Ended(Stop),
    /// Its budget is spent.
    Spent,
}

/// What a record on a board comes to.
#[derive(Clone, Copy, Debug, PartialEq, Eq)]
pub enum Recorded {
    /// The entry is in the log.
    Entry(Entry),
    /// The choice was unfit, and the factors are given up: a new choice is wanted.
    Rescued,
    /// The run has ended, or its budget is spent.
    Ended(Standing),
}

/// Why a call on a board is refused.
#[derive(Clone, Copy, Debug, PartialEq, Eq, Error)]
pub enum BoardFault {
    /// The allocator had no memory left.
    #[error("out of memory")]
    Memory,
    /// The place of the first value of the run that does not fit the width of the arithmetic.
    #[error("a value of the run does not fit")]
    Overflow(Place),
    /// The choice is of an earlier number than this, which is the board's.
    #[error("the choice is of an earlier state")]
    Stale(u64),
    /// The run does not go on.
    #[error("the run has ended")]
    Ended(Standing),
}

/// The standing of an end.
pub fn standing_at(stop: Stop) -> Standing
    ensures { result ≡ standing_at stop }
{
    match stop {
        Stop::Optimal => Standing::Optimal,
        Stop::Infeasible => Standing::Infeasible,
        Stop::Free(_, _) => Standing::Unbounded,
    }
}

/// The standing of a course.
pub fn standing_of(course: Course) -> Standing
    ensures { result ≡ standing_of course }
{
    match course {
        Course::Running => Standing::Running,
        Course::Ended(stop) => standing_at(stop),
        Course::Spent => Standing::Spent,
    }
}

/// The course after what a step comes to.
pub fn course_after(reached: Reached) -> Course
    ensures { result ≡ course_after reached }
{
    match reached {
        Reached::Entry(_) => Course::Running,
        Reached::End(stop) => Course::Ended(stop),
        Reached::Spent => Course::Spent,
    }
}

/// What a record comes to, by the step that it led to.
pub fn answer_of(gone: Option<Reached>) -> Recorded
    ensures { result ≡ answer_of gone }
{
    match gone {
        None => Recorded::Rescued,
        Some(Reached::Entry(entry)) => Recorded::Entry(entry),
        Some(Reached::End(stop)) => Recorded::Ended(standing_at(stop)),
        Some(Reached::Spent) => Recorded::Ended(Standing::Spent),
    }
}

/// The refusal of a board for one of a run.
pub fn board_fault(fault: TableFault) -> BoardFault
    ensures { result ≡ board_fault fault }
{
    match fault {
        TableFault::Memory => BoardFault::Memory,
        TableFault::Overflow(place) => BoardFault::Overflow(place),
    }
}

/// The refusal of a board for one of an outcome.
pub fn closing_fault(fault: OutcomeFault) -> BoardFault
    ensures { result ≡ closing_fault fault }
{
    match fault {
        OutcomeFault::Memory => BoardFault::Memory,
        OutcomeFault::Overflow(place) => BoardFault::Overflow(place),
    }
}
