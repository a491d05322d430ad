//! Vectors as sparse columns.

ghost use Rattle.std.specs.Prelude.{◌≡◌, ◌<◌, ◌++◌, IfOk, OnOk, length, replicate, slice_set};
ghost use Rattle.rational.specs.Rational.{zero_ℚ};
ghost use Rattle.sparse_cols.specs.Sparse.{IsRising};
ghost use Rattle.factor_model.specs.Vectors as vectors;
ghost use Rattle.factor_model.specs.Vectors.{entry, stored_pair, vector};
ghost use Rattle.factor_model.specs.Update.{AreApart};
ghost use Rattle.ft_update.specs.Inner.Rows.{placed};

use exact_frac::Frac;
use no_memory::Memory;
use sparse_cols::SparseCol;
use std::alloc::Global;

/// The column of a vector's items that are not 0.
pub(crate) fn sparse(alloc: Global, v: &[Frac]) -> Result<SparseCol<Frac>, Memory>
    ensures { IfOk result (λ column. column ≡ vectors.sparse v.now) }
{
    let mut column = SparseCol::empty(alloc, v.len());
    for i in 0..v.len() {
        store(&mut column, i, v[i])?;
    }
    Ok(column)
}

// Stores a number in a row behind all others, where it is not 0.
fn store(column: &mut SparseCol<Frac>, i: usize, x: Frac) -> Result<(), Memory>
    requires within { i < column.old.length }
    requires below { IsRising i 0 column.old.pairs }
    ensures { OnOk result (column.new ≡ record column.old { pairs = column.old.pairs ++ stored_pair i x }) }
{
    if x.is_zero() {
        return Ok(());
    }
    column.insert(i, x)
}

/// The column of the multipliers by row.
pub(crate) fn by_row(
    alloc: Global,
    len: usize,
    taken: &[(usize, Frac)],
) -> Result<SparseCol<Frac>, Memory>
    requires { AreApart len taken.now }
    ensures { IfOk result (λ column. column ≡ vectors.sparse (vector len (entry taken.now))) }
{
    let mut v = zeros(alloc, len)?;
    place(taken, &mut v);
    sparse(alloc, &v)
}

// A vector of 0.
#[tactic(auto, using(exact_frac::specs::Constants::constants))]
fn zeros(alloc: Global, len: usize) -> Result<Vec<Frac>, Memory>
    ensures { IfOk result (λ v. v.items ≡ replicate len zero_ℚ) }
{
    Ok(vec![in alloc; Frac::ZERO; len]?)
}

// Puts each number into its row.
fn place(taken: &[(usize, Frac)], v: &mut Vec<Frac>)
    requires apart { AreApart (length v.old.items) taken.now }
    ensures { v.new.items ≡ placed v.old.items taken.now }
{
    for (i, k) in taken {
        v[*i] = *k;
    }
}

/// The column of a vector in which one item is another number.
pub(crate) fn with_item(
    alloc: Global,
    v: &[Frac],
    i: usize,
    x: Frac,
) -> Result<SparseCol<Frac>, Memory>
    requires { i < length v.now }
    ensures { IfOk result (λ column. column ≡ vectors.sparse (slice_set v.now i x)) }
{
    let mut changed = Vec::from_slice(alloc, v)?;
    changed[i] = x;
    sparse(alloc, &changed)
}
