//! The basis that a state tells.
ghost use Rattle.std.specs.Prelude.{◌≡◌, length, IfOk};
ghost use Rattle.std.specs.List.{filter};
ghost use Rattle.rational.specs.Sparse.{upto};
ghost use Rattle.lp_run.specs.State.{status_of};
ghost use Rattle.instance_model.specs.Basis.{basis_of, is_at_upper};

use crate::state::State;
use deck_model::{Basis, Numbers};
use lp_model::Status;
use no_memory::Memory;
use std::alloc::{AllocError, Global};

/// The basis of a state: the basic columns by position and, rising, the nonbasic columns that stand
/// at their upper ends.
///
/// # Errors
///
/// `Memory` for want of memory.
pub fn basis_of(alloc: Global, state: &State) -> Result<Basis, Memory>
    ensures { IfOk result (λ basis. basis ≡ basis_of state.now) }
{
    Ok(Basis {
        basic: Numbers::of(basic_columns(alloc, state)?),
        upper: Numbers::of(columns_at_upper(alloc, state)?),
    })
}

// The basic columns by position.
fn basic_columns(alloc: Global, state: &State) -> Result<Vec<u32>, AllocError>
    ensures { IfOk result (λ columns. columns.items ≡ state.now.basis) }
{
    Vec::from_slice(alloc, state.basis())
}

// The columns that stand at their upper ends, rising.
fn columns_at_upper(alloc: Global, state: &State) -> Result<Vec<u32>, AllocError>
    ensures { IfOk result (λ columns. columns.items ≡ filter (λ j. is_at_upper (status_of state.now j)) (upto (length state.now.statuses))) }
{
    let mut columns = Vec::new(alloc);
    for column in 0..state.columns() {
        if is_at_upper(state.status(column)) {
            columns.push(column as u32)?;
        }
    }
    Ok(columns)
}

// Whether a column stands at its upper end.
fn is_at_upper(status: Status) -> bool
    ensures { result ≡ is_at_upper status }
{
    match status {
        Status::Upper => true,
        Status::Basic | Status::Lower | Status::Zero => false,
    }
}
