//! The columns of the equations.
ghost use Rattle.std.specs.Prelude.{◌≡◌, ◌<◌, [], ◌∷◌, IfOk};
ghost use Rattle.std.specs.Cow.{cow_value};
ghost use Rattle.sparse_cols.specs.Sparse.{IsRising};
ghost use Rattle.lp_run.specs.Instance.{column_count, row_count};
ghost use Rattle.basis_solves.specs.Bases.{sparse_column};

use exact_frac::Frac;
use instance_model::Instance;
use lp_run::ColumnKind;
use no_memory::Memory;
use sparse_cols::SparseCol;
use std::alloc::Global;
use std::borrow::Cow;

// The column of so many rows with one entry.
fn unit(alloc: Global, rows: usize, row: usize, value: Frac) -> Result<SparseCol<Frac>, Memory>
    requires { row < rows }
    ensures { IfOk result (λ c. c ≡ record { length = rows; pairs = (row, value) ∷ [] }) }
{
    let mut column = SparseCol::empty(alloc, rows);
    column.insert(row, value)?;
    Ok(column)
}

/// Column `q` of the equations: the entries of a structural, which are lent, or the one entry of a logical or an
/// artificial.
#[tactic(auto, using(exact_frac::specs::Constants::constants))]
pub fn column_of(
    alloc: Global,
    inst: &Instance,
    q: usize,
) -> Result<Cow<'_, SparseCol<Frac>>, Memory>
    requires { q < column_count inst.now }
    ensures column { IfOk result (λ c. cow_value c ≡ sparse_column inst.now q) }
    ensures rising { IfOk result (λ c. IsRising (row_count inst.now) 0 (cow_value c).pairs) }
{
    let rows = inst.rows();
    match inst.kind(q) {
        ColumnKind::Structural(k) => Ok(Cow::Borrowed(inst.entries(k))),
        ColumnKind::Logical(i) => {
            let column = unit(alloc, rows, i, Frac::ONE)?;
            Ok(Cow::Owned(column))
        }
        ColumnKind::Artificial(i) => {
            let column = unit(alloc, rows, i, inst.sign(i))?;
            Ok(Cow::Owned(column))
        }
    }
}

/// The same as a column of its own.
pub fn owned(column: Cow<'_, SparseCol<Frac>>) -> Result<SparseCol<Frac>, Memory>
    ensures { IfOk result (λ c. c ≡ cow_value column.entry) }
{
    match column {
        Cow::Borrowed(column) => column.copy(),
        Cow::Owned(column) => Ok(column),
    }
}
