//! States of the method.
ghost use Rattle.std.specs.Prelude.{◌≡◌, ◌<◌, ◌≤◌, ◌^◌, length, IfOk};
ghost use Rattle.lp_run.specs.State.{after, basic, other_end, standing_at, status_of};
ghost use Rattle.instance_model.specs.Entries.{CanTake};

use crate::statuses::Statuses;
use lp_model::{Entry, Phase, Side, Status};
use no_memory::Memory;
use std::marker::Model;

/// A state: the m basic columns by position, a status for each of the N columns, and the phase.
#[derive(Debug, Drop)]
pub struct State {
    basis: Vec<u32>,
    statuses: Vec<Status>,
    phase: Phase,
}

impl Model for State {
    ghost use Rattle.std.specs.Prelude.{◌≤◌, ◌^◌, length};
    ghost use Rattle.lp_run.specs.State.{State as Position};

    ghost Value = { Position };

    ghost view = { λ s. record { basis = s.basis.items; statuses = s.statuses.items; phase = s.phase } };

    ghost invariant = { λ s. length s.statuses.items ≤ 2 ^ 32 };
}

impl State {
    /// The state of these parts.
    pub(crate) fn of(basis: Vec<u32>, statuses: Vec<Status>, phase: Phase) -> State
        requires { length statuses.items ≤ 2 ^ 32 }
        ensures { result ≡ record { basis = basis.items; statuses = statuses.items; phase = phase } }
    {
        State {
            basis,
            statuses,
            phase,
        }
    }

    /// How many positions there are.
    pub fn positions(&self) -> usize
        ensures { result ≡ length self.now.basis }
    {
        self.basis.len()
    }

    /// The column that is basic in a position.
    pub fn basic(&self, position: usize) -> u32
        requires { position < length self.now.basis }
        ensures { result ≡ basic self.now position }
    {
        self.basis[position]
    }

    /// The basic columns, by position.
    pub fn basis(&self) -> &[u32]
        ensures { result.now ≡ self.now.basis }
    {
        &self.basis
    }

    /// How many columns there are.
    pub fn columns(&self) -> usize
        ensures count { result ≡ length self.now.statuses }
        ensures few { result ≤ 2 ^ 32 }
    {
        self.statuses.len()
    }

    /// The status of a column.
    pub fn status(&self, column: usize) -> Status
        requires { column < length self.now.statuses }
        ensures { result ≡ status_of self.now column }
    {
        self.statuses[column]
    }

    /// The statuses of all columns.
    pub fn statuses(&self) -> &[Status]
        ensures { result.now ≡ self.now.statuses }
    {
        &self.statuses
    }

    /// A copy of the statuses of all columns.
    pub fn statuses_copy(&self) -> Result<Statuses, Memory>
        ensures { IfOk result (λ s. s ≡ self.now.statuses) }
    {
        Ok(Statuses::of(self.statuses.clone()?))
    }

    /// The phase.
    pub fn phase(&self) -> Phase
        ensures { result ≡ self.now.phase }
    {
        self.phase
    }

    /// Takes in an entry, without memory: a flip puts its column at the other end, a swap puts its column into the
    /// position and the one that was there at the end, a turn begins phase two.
    pub fn after(&mut self, entry: Entry)
        requires { CanTake self.old entry }
        ensures { self.new ≡ after self.old entry }
    {
        match entry {
            Entry::Flip(column) => self.statuses[column as usize] = other_end(
                self.statuses[column as usize],
            ),
            Entry::Swap(column, position, end) => {
                let leaving = self.basis[position as usize];
                self.basis[position as usize] = column;
                self.statuses[leaving as usize] = standing_at(end);
                self.statuses[column as usize] = Status::Basic;
            }
            Entry::Turn => self.phase = Phase::Two,
        }
    }

    /// A copy of the state.
    pub fn copy(&self) -> Result<State, Memory>
        ensures { IfOk result (λ s. s ≡ self.now) }
    {
        Ok(State {
            basis: self.basis.clone()?,
            statuses: self.statuses.clone()?,
            phase: self.phase,
        })
    }
}

// The other end of a column that stands at one.
fn other_end(status: Status) -> Status
    ensures { result ≡ other_end status }
{
    match status {
        Status::Lower => Status::Upper,
        Status::Upper => Status::Lower,
        Status::Basic | Status::Zero => status,
    }
}

// The status of a column that stands at an end.
pub(crate) fn standing_at(end: Side) -> Status
    ensures { result ≡ standing_at end }
{
    match end {
        Side::Lower => Status::Lower,
        Side::Upper => Status::Upper,
    }
}
