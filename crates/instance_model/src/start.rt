//! The start of the method.
ghost use Rattle.std.specs.Prelude.{◌≡◌, ◌<◌, ◌≤◌, ◌^◌, IfOk, length, map, if◌then◌else◌, is_some};
ghost use Rattle.std.specs.List.{list_any};
ghost use Rattle.lp_model.specs.declared.Phase.TheVariants.{One, Two};
ghost use Rattle.lp_run.specs.Instance.{row_count};
ghost use Rattle.lp_run.specs.State.{artificial_start, logical_start, start_basic, start_of, structural_start};
ghost use Rattle.rational.specs.Sparse.{upto};

use crate::bounds::Bounds;
use crate::instance::{Instance, Structural};
use crate::state::{State, standing_at};
use lp_model::{Phase, Side, Status};
use no_memory::Memory;
use std::alloc::{AllocError, Global};

impl Instance {
    /// The start of the method. A structural stands at its lower end, or else at its upper end, or else at 0. In a row
    /// whose residual passes an end of its logical, the logical stands at that end and the artificial is basic; in any
    /// other row the logical is basic. Phase one comes first where some artificial is basic.
    ///
    /// # Errors
    ///
    /// `Memory` for want of memory.
    pub fn start(&self, alloc: Global) -> Result<State, Memory>
        ensures { IfOk result (λ s. s ≡ start_of self.now) }
    {
        let basis = self.start_basis(alloc)?;
        let statuses = self.start_statuses(alloc)?;
        Ok(State::of(basis, statuses, self.start_phase()))
    }

    // The basic columns by position.
    fn start_basis(&self, alloc: Global) -> Result<Vec<u32>, AllocError>
        ensures { IfOk result (λ basis. basis.items ≡ map (start_basic self.now) (upto (row_count self.now))) }
    {
        let mut basis = Vec::with_capacity(alloc, self.rows())?;
        for row in 0..self.rows() {
            basis.push(self.start_basic(row))?;
        }
        Ok(basis)
    }

    // The column that is basic in the position of a row.
    fn start_basic(&self, row: usize) -> u32
        requires { row < row_count self.now }
        ensures { result ≡ start_basic self.now row }
    {
        let structurals = self.structurals();
        let rows = self.rows();
        if self.passed(row).is_some() {
            (structurals + rows + row) as u32
        } else {
            (structurals + row) as u32
        }
    }

    // The statuses of all columns.
    fn start_statuses(&self, alloc: Global) -> Result<Vec<Status>, AllocError>
        ensures statuses { IfOk result (λ statuses. statuses.items ≡ (start_of self.now).statuses) }
        ensures few { IfOk result (λ statuses. length statuses.items ≤ 2 ^ 32) }
    {
        let mut statuses = structural_starts(alloc, &self.structurals)?;
        let logicals = logical_starts(alloc, &self.passed)?;
        let artificials = artificial_starts(alloc, &self.passed)?;
        statuses.extend_from_slice(&logicals)?;
        statuses.extend_from_slice(&artificials)?;
        Ok(statuses)
    }

    // Phase one where some artificial is needed, else phase two.
    fn start_phase(&self) -> Phase
        ensures { result ≡ (if list_any is_some self.now.passed then One else Two) }
    {
        if self.passes() {
            Phase::One
        } else {
            Phase::Two
        }
    }

    // Whether the residual of some row passes an end.
    fn passes(&self) -> bool
        ensures { result ≡ list_any is_some self.now.passed }
    {
        self.passed.iter().any(|passed| passed.is_some())
    }
}

// The statuses of structurals, of logicals and of artificials.
fn structural_starts(alloc: Global, structurals: &[Structural]) -> Result<Vec<Status>, AllocError>
    ensures { IfOk result (λ statuses. statuses.items ≡ map (λ c. structural_start c.bounds) structurals.now) }
{
    structurals
        .iter()
        .map(|c| structural_start(c.bounds))
        .collect(alloc)
}

fn logical_starts(alloc: Global, passed: &[Option<Side>]) -> Result<Vec<Status>, AllocError>
    ensures { IfOk result (λ statuses. statuses.items ≡ map logical_start passed.now) }
{
    passed.iter().map(|end| logical_start(*end)).collect(alloc)
}

fn artificial_starts(alloc: Global, passed: &[Option<Side>]) -> Result<Vec<Status>, AllocError>
    ensures { IfOk result (λ statuses. statuses.items ≡ map artificial_start passed.now) }
{
    passed
        .iter()
        .map(|end| artificial_start(*end))
        .collect(alloc)
}

// Where a structural stands at the start.
fn structural_start(bounds: Bounds) -> Status
    ensures { result ≡ structural_start bounds }
{
    match (bounds.lower(), bounds.upper()) {
        (Some(_), _) => Status::Lower,
        (None, Some(_)) => Status::Upper,
        (None, None) => Status::Zero,
    }
}

// Where the logical of a row stands, by the end that the row's residual passes.
fn logical_start(passed: Option<Side>) -> Status
    ensures { result ≡ logical_start passed }
{
    match passed {
        None => Status::Basic,
        Some(end) => standing_at(end),
    }
}

// Where the artificial of a row stands, by the end that the row's residual passes.
fn artificial_start(passed: Option<Side>) -> Status
    ensures { result ≡ artificial_start passed }
{
    match passed {
        None => Status::Lower,
        Some(_) => Status::Basic,
    }
}
