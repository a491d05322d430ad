//! The update of Forrest and Tomlin: the factors of a basis follow the exchange of one of its columns.
//!
//! **Model.** Operations are seen as their list (`Eta` of `factor_model`), a form as its columns, rows and order
//! (`Triangle` in `Upper`). Together they stand for a matrix (`Represents`).
//!
//! **Contract.** [`update`] puts a new column in a position, given its spike, which the operations make of it. It adds
//! one row operation, which takes out what the position's row has behind it, and moves the position to the end of
//! the order, with the spike as its column; the item in its row is what the row operation leaves of it
//! (`updated_parts` in `Update`). No other column, row or operation changes. What stood for a matrix then stands for
//! the matrix with the new column (`represents`), and the new diagonal is the old one times the pivot element, the
//! position's item in the form's solution for the spike (`diagonal`). The call answers `Unfit` exactly where a worked
//! value does not fit the width, and a refusal leaves both parts as they were. Of m rows it works at most m² products
//! and quotients, and adds fewer than m entries to the operations.
//!
//! **Method.** J. J. H. Forrest and J. A. Tomlin, "Updated triangular factors of the basis to maintain sparsity in the
//! product form simplex method", Mathematical Programming 2 (1972). The multipliers are found by a solve for a row over
//! the positions behind, which keeps those that are not 0, flags their rows, and looks at no more than the stored rows of a
//! column that has none of these.
//!
//! It stands on `row_eta` and `upper_form` for the parts, on `factor_model` for its definitions and laws, and on
//! `sparse_steps` for its products.

#![tactic(auto)]

ghost use Rattle.std.specs.Prelude.{◌≡◌, ℕ, ◌+◌, ◌*◌, ◌<◌, ◌≤◌, Some, OnOk, OnErr, IfOk, IfErr, length, List, [], vec_capacity};
ghost use Rattle.rational.specs.Rational.{ℚ, ◌*ℚ◌};
ghost use Rattle.rational.specs.Sum.{at};
ghost use Rattle.rational.specs.Worked.{settle};
ghost use Rattle.factor_model.specs.Eta.{apply, stored};
ghost use Rattle.factor_model.specs.Represents.{Represents};
ghost use Rattle.factor_model.specs.Update.{HasPivot, updated_parts, with_column};
ghost use Rattle.factor_model.specs.Upper.{Solves, diagonal};
ghost use Rattle.factor_model.specs.Vectors.{vector};
ghost use Rattle.ft_update.specs.Fault.{IsCause, count_after};

mod columns;
mod fault;
mod multipliers;

use columns::{by_row, with_item};
use exact_frac::{Arith, Frac};
pub use fault::UpdateFault;
use multipliers::reduce;
use no_memory::Memory;
use row_eta::{EtaFile, Op};
use std::alloc::Global;
use upper_form::Upper;

/// Puts a new column, whose spike is given, in position `p`.
///
/// # Errors
///
/// `Unfit` where a worked value does not fit the width of the arithmetic, `Memory` for want of memory. Both parts are
/// then as they were.
pub fn update<A: Arith>(
    alloc: Global,
    etas: &mut EtaFile,
    upper: &mut Upper,
    p: usize,
    spike: &[Frac],
    arith: &mut A,
) -> Result<(), UpdateFault>
    requires position { p < length upper.old.rows }
    requires length { length spike.now ≡ length upper.old.rows }
    requires pivot { HasPivot upper.old p spike.now }
    ensures settled { OnOk result (settle (A.width arith.old) (updated_parts etas.old upper.old p spike.now) ≡ Some (etas.new, upper.new)) }
    ensures fault { IfErr result (IsCause (A.width arith.old) (updated_parts etas.old upper.old p spike.now)) }
    ensures etas_kept { OnErr result (etas.new ≡ etas.old) }
    ensures upper_kept { OnErr result (upper.new ≡ upper.old) }
    ensures represents { (b : ℕ → ℕ → ℚ) → (a : ℕ → ℚ) → Represents (length upper.old.rows) etas.old upper.old b
        → spike.now ≡ (apply (vector (length upper.old.rows) a) etas.old).answer
        → OnOk result (Represents (length upper.old.rows) etas.new upper.new (with_column b p a)) }
    ensures diagonal { (x : List ℚ) → Solves upper.old x spike.now → OnOk result (diagonal upper.new p ≡ diagonal upper.old p *ℚ at x p) }
    ensures entries { OnOk result (stored etas.new < stored etas.old + length upper.old.rows) }
    ensures width { A.width arith.new ≡ A.width arith.old }
    ensures unfit { A.unfit_count arith.new ≡ count_after (A.unfit_count arith.old) result }
    ensures work { A.work_count arith.new ≤ A.work_count arith.old + length upper.old.rows * length upper.old.rows }
{
    let row = upper.row_of(p);
    let mut taken = room(alloc, upper.len())?;
    let mut flags = no_flags(alloc, upper.len())?;
    let pivot = reduce(upper, p, spike, &mut taken, &mut flags, arith)?;
    let operation = by_row(alloc, upper.len(), &taken)?;
    let column = with_item(alloc, spike, row, pivot)?;
    if etas.push(Op::Row(row as u32, operation)).is_err() {
        return Err(UpdateFault::Memory);
    }
    upper.clear_row(p);
    upper.replace_col(p, column);
    Ok(())
}

// No multipliers, with room for so many.
fn room(alloc: Global, count: usize) -> Result<Vec<(usize, Frac)>, Memory>
    ensures none { IfOk result (λ taken. taken.items ≡ []) }
    ensures room { IfOk result (λ taken. count ≤ vec_capacity taken) }
{
    Ok(Vec::with_capacity(alloc, count)?)
}

// So many flags, none of which is set.
fn no_flags(alloc: Global, count: usize) -> Result<Vec<bool>, Memory>
    ensures { IfOk result (λ flags. length flags.items ≡ count) }
{
    Ok(vec![in alloc; false; count]?)
}
