//! The factors of a basis, by Gaussian elimination with pivots of least Markowitz cost.
//!
//! **Model.** A matrix is the list of its sparse columns, seen as its entries by row and position (`matrix_of` in
//! `specs/Columns.antt`). Factors are a list of operations and a triangular form (`Represents` of `factor_model`).
//!
//! **Contract.** [`factor`] answers what the elimination leaves (`factored` in `Factoring` of `factor_model`): each
//! pivot is the active entry of least cost, then of least row, then of least position. Where every row gets a pivot,
//! the answer is the factors. Else the columns are dependent, and `Singular` has the numbers by which the rows combine
//! to 0. The call answers `Unfit` exactly where a worked value does not fit the width. Of m rows it works at most m³
//! products and quotients, and the operations have at most m(m − 1)/2 entries.
//!
//! **Method.** H. M. Markowitz, "The Elimination Form of the Inverse and its Application to Linear Programming",
//! Management Science 3 (1957): the cost of a pivot is the number of fills that it makes at most.
//!
//! It stands on `cross_links` for the active part and its pivots, on `row_eta` and `upper_form` for the factors, and on
//! `factor_model` for its definitions and laws.

#![tactic(auto)]

ghost use Rattle.std.specs.Prelude.{◌≡◌, ◌+◌, ◌-◌, ◌*◌, ◌^◌, ◌<◌, ◌≤◌, Some, IfOk, IfErr, length};
ghost use Rattle.std.specs.List.{All};
ghost use Rattle.rational.specs.Worked.{settle};
ghost use Rattle.factor_model.specs.Eta.{stored};
ghost use Rattle.factor_model.specs.Factoring.{factored, whole};
ghost use Rattle.markowitz_lu.specs.Columns.{HasNoZero, matrix_of};
ghost use Rattle.factor_model.specs.Represents.{Represents};
ghost use Rattle.markowitz_lu.specs.Fault.{IsCause, IsDependent, count_after};

mod fault;
mod lines;
mod rows;
mod stage;

use exact_frac::{Arith, Frac};
pub use fault::LuFault;
use row_eta::EtaFile;
use sparse_cols::SparseCol;
use stage::{Buffers, Stage};
use std::alloc::Global;
use upper_form::Upper;

/// The factors of the matrix of `m` columns of `m` rows each, none of which stores a 0.
///
/// # Errors
///
/// `Singular` where the columns are dependent, with a combination of the rows that is 0. `Unfit` where a worked value
/// does not fit the width of the arithmetic, and `Memory` for want of memory.
pub fn factor<A: Arith>(
    alloc: Global,
    m: usize,
    columns: &[SparseCol<Frac>],
    arith: &mut A,
) -> Result<(EtaFile, Upper), LuFault>
    requires small { m < 2 ^ 16 }
    requires columns { length columns.now ≡ m }
    requires rows { All (λ column. column.length ≡ m) columns.now }
    requires stored { All HasNoZero columns.now }
    ensures settled { IfOk result (λ made. settle (A.width arith.old) (factored m (matrix_of columns.now)) ≡ Some (whole made.0 made.1)) }
    ensures fault { IfErr result (IsCause (A.width arith.old) (factored m (matrix_of columns.now))) }
    ensures represents { IfOk result (λ made. Represents m made.0 made.1 (matrix_of columns.now)) }
    ensures dependent { IfErr result (IsDependent m (matrix_of columns.now)) }
    ensures operations { IfOk result (λ made. length made.0 ≡ m) }
    ensures entries { IfOk result (λ made. 2 * stored made.0 ≤ m * (m - 1)) }
    ensures width { A.width arith.new ≡ A.width arith.old }
    ensures unfit { A.unfit_count arith.new ≡ count_after (A.unfit_count arith.old) result }
    ensures work { A.work_count arith.new ≤ A.work_count arith.old + m * m * m }
{
    let mut buffers = Buffers::new(alloc, m)?;
    let mut stage = Stage::new(alloc, m, columns)?;
    'pivots: while let Some(link) = stage.cross.least() {
        stage.pivot(alloc, m, link, &mut buffers, arith)?;
    }
    stage.factors(alloc, m, arith)
}
