//! An elimination on the way.

ghost use Rattle.std.specs.Prelude.{◌≡◌, ◌≢◌, ℕ, ◌+◌, ◌*◌, ◌^◌, ◌<◌, ◌≤◌, List, [], ◌∷◌, None, Some, true, false, MatchOption, OnOk, IfOk, IfErr, length, replicate};
ghost use Rattle.std.specs.List.{All};
ghost use Rattle.rational.specs.Rational.{ℚ, zero_ℚ};
ghost use Rattle.rational.specs.Worked.{settle};
ghost use Rattle.sparse_cols.specs.Sparse.{value_at};
ghost use Rattle.exact_frac.specs.Count.{unfit_after};
ghost use Rattle.factor_model.specs.Edits.{column_in};
ghost use Rattle.factor_model.specs.Eta as eta;
ghost use Rattle.factor_model.specs.Eta.{AreOps, stored};
ghost use Rattle.factor_model.specs.Factoring.{Elimination, factored_by, pivoted, start, whole};
ghost use Rattle.factor_model.specs.Update.{AreApart};
ghost use Rattle.factor_model.specs.Vectors.{unit_vector};
ghost use Rattle.factor_model.proofs.FactorReaches.{IsReached};
ghost use Rattle.cross_links.specs.Matrix.{IsLink, col_of, is_active, row_of};
ghost use Rattle.markowitz_lu.specs.Columns.{HasNoZero, matrix_of};
ghost use Rattle.markowitz_lu.specs.Fault.{IsCause, count_after};
ghost use Rattle.markowitz_lu.specs.Inner.Kept.{IsKept, IsKeptPivot, IsOpen, stored_at};
ghost use Rattle.markowitz_lu.specs.Inner.Stops.{Stops};

use crate::fault::LuFault;
use crate::lines::{read_col, read_row};
use crate::rows::eliminate;
use cross_links::Cross;
use exact_frac::{Arith, Frac};
use no_memory::Memory;
use order_chain::OrderChain;
use row_eta::{EtaFile, Op};
use sparse_cols::{SparseCol, Work};
use std::alloc::Global;
use upper_form::Upper;

/// The active part, and what the pivots so far left: the columns, the rows paired with positions, the positions that
/// have no pivot before those that have one, which rows have none, and the operations.
#[derive(Drop)]
pub(crate) struct Stage {
    pub(crate) cross: Cross,
    columns: Vec<SparseCol<Frac>>,
    rows: Vec<u32>,
    order: OrderChain,
    left: Vec<bool>,
    etas: EtaFile,
}

/// A pivot's row and column, and the links of a row by position.
#[derive(Drop)]
pub(crate) struct Buffers {
    row: Vec<(usize, Frac)>,
    column: Vec<(usize, Frac)>,
    index: Work<u32>,
}

impl Buffers {
    pub(crate) fn new(alloc: Global, m: usize) -> Result<Buffers, Memory>
        ensures { IfOk result (λ buffers. buffers.index ≡ replicate m None) }
    {
        Ok(Buffers {
            row: Vec::new(alloc),
            column: Vec::new(alloc),
            index: Work::new(alloc, m)?,
        })
    }
}

impl Stage {
    /// The elimination that begins with these columns.
    pub(crate) fn new(alloc: Global, m: usize, columns: &[SparseCol<Frac>]) -> Result<Stage, Memory>
        requires small { m < 2 ^ 16 }
        requires columns { length columns.now ≡ m }
        requires rows { All (λ column. column.length ≡ m) columns.now }
        requires stored { All HasNoZero columns.now }
        ensures { IfOk result (IsKept m (start m (matrix_of columns.now))) }
    {
        let rows = no_rows(alloc, m)?;
        let left = all_left(alloc, m)?;
        let order = OrderChain::new(alloc, m)?;
        let made = empty_columns(alloc, m)?;
        let cross = Cross::load(alloc, m, columns)?;
        let etas = EtaFile::new(alloc);
        Ok(Stage {
            cross,
            columns: made,
            rows,
            order,
            left,
            etas,
        })
    }

    /// Eliminates with the pivot at a link of the active part.
    pub(crate) fn pivot<A: Arith>(
        &mut self,
        alloc: Global,
        m: usize,
        link: u32,
        buffers: &mut Buffers,
        arith: &mut A,
    ) -> Result<(), LuFault>
        requires small { m < 2 ^ 16 }
        requires link { IsLink self.old.cross link }
        requires kept { (b : ℕ → ℕ → ℚ) × (e : Elimination) × IsReached m b e × IsKept m e self.old }
        requires index { buffers.old.index ≡ replicate m None }
        ensures settled { (b : ℕ → ℕ → ℚ) → (e : Elimination) → IsReached m b e → IsKept m e self.old
            → OnOk result (settle (A.width arith.old) (pivoted m e (row_of self.old.cross link, col_of self.old.cross link))
            ≡ Some (pivoted m e (row_of self.old.cross link, col_of self.old.cross link)).answer) }
        ensures kept { (b : ℕ → ℕ → ℚ) → (e : Elimination) → IsReached m b e → IsKept m e self.old
            → OnOk result (IsKept m (pivoted m e (row_of self.old.cross link, col_of self.old.cross link)).answer self.new) }
        ensures fault { (b : ℕ → ℕ → ℚ) → (e : Elimination) → IsReached m b e → IsKept m e self.old
            → IfErr result (Stops (A.width arith.old) (pivoted m e (row_of self.old.cross link, col_of self.old.cross link))) }
        ensures index { OnOk result (buffers.new.index ≡ replicate m None) }
        ensures width { A.width arith.new ≡ A.width arith.old }
        ensures unfit { A.unfit_count arith.new ≡ count_after (A.unfit_count arith.old) result }
        ensures work { A.work_count arith.new ≤ A.work_count arith.old + m * m }
    {
        let (r, c, value) = self.cross.entry(link);
        self.cross.cancel(link);
        read_row(&self.cross, r, &mut buffers.row)?;
        read_col(&self.cross, c, &mut buffers.column)?;
        self.cross.remove_row(r);
        self.cross.remove_col(c);
        let multipliers = eliminate(
            alloc,
            m,
            &mut self.cross,
            value,
            &buffers.row,
            &buffers.column,
            &mut buffers.index,
            arith,
        )?;
        self.keep(r, c, value, &buffers.row, multipliers)?;
        Ok(())
    }

    // Keeps a pivot, its row and its multipliers.
    fn keep(
        &mut self,
        r: usize,
        c: usize,
        value: Frac,
        row: &[(usize, Frac)],
        multipliers: SparseCol<Frac>,
    ) -> Result<(), Memory>
        requires row_small { r < 2 ^ 32 }
        requires row_paired { c < length self.old.rows.items }
        requires row_left { r < length self.old.left.items }
        requires position { c < length self.old.order }
        requires apart { AreApart (length self.old.columns.items) ((c, value) ∷ row.now) }
        requires open_columns { (p : ℕ) → p < length self.old.columns.items → IsOpen r (column_in self.old.columns.items p) }
        ensures { OnOk result (IsKeptPivot self.old r c ((c, value) ∷ row.now) multipliers self.new) }
    {
        self.columns[c].insert(r, value)?;
        store_row(&mut self.columns, r, row)?;
        self.rows[c] = r as u32;
        self.order.move_to_end(c);
        self.left[r] = false;
        if self.etas.push(Op::Column(r as u32, multipliers)).is_err() {
            return Err(Memory);
        }
        Ok(())
    }

    /// The factors, where each row has a pivot.
    pub(crate) fn factors<A: Arith>(
        self,
        alloc: Global,
        m: usize,
        arith: &mut A,
    ) -> Result<(EtaFile, Upper), LuFault>
        requires kept { (b : ℕ → ℕ → ℚ) × (e : Elimination) × IsReached m b e × IsKept m e self }
        ensures settled { (b : ℕ → ℕ → ℚ) → (e : Elimination) → IsReached m b e → IsKept m e self
            → IfOk result (λ made. settle (A.width arith.old) (factored_by m e e.rows) ≡ Some (whole made.0 made.1)) }
        ensures fault { (b : ℕ → ℕ → ℚ) → (e : Elimination) → IsReached m b e → IsKept m e self
            → IfErr result (IsCause (A.width arith.old) (factored_by m e e.rows)) }
        ensures width { A.width arith.new ≡ A.width arith.old }
        ensures unfit { A.unfit_count arith.new ≡ count_after (A.unfit_count arith.old) result }
        ensures work { (b : ℕ → ℕ → ℚ) → (e : Elimination) → IsReached m b e → IsKept m e self
            → A.work_count arith.new ≤ A.work_count arith.old + length e.rows * (m * m) }
    {
        let row = first_left(&self.left);
        let Stage {
            cross: _,
            columns,
            rows,
            order,
            left: _,
            etas,
        } = self;
        match row {
            None => Ok((etas, Upper::of(columns, rows, order))),
            Some(r) => {
                let y = combination(alloc, m, r, &etas, arith)?;
                Err(LuFault::Singular(y))
            }
        }
    }
}

// No row is paired with a position.
fn no_rows(alloc: Global, m: usize) -> Result<Vec<u32>, Memory>
    ensures { IfOk result (λ rows. rows.items ≡ replicate m 0) }
{
    Ok(vec![in alloc; 0; m]?)
}

// Each row is left.
fn all_left(alloc: Global, m: usize) -> Result<Vec<bool>, Memory>
    ensures { IfOk result (λ left. left.items ≡ replicate m true) }
{
    Ok(vec![in alloc; true; m]?)
}

// So many empty columns, each of so many rows.
fn empty_columns(alloc: Global, m: usize) -> Result<Vec<SparseCol<Frac>>, Memory>
    ensures count { IfOk result (λ columns. length columns.items ≡ m) }
    ensures empty { IfOk result (λ columns. (p : ℕ) → p < m → column_in columns.items p ≡ record { length = m; pairs = [] }) }
{
    let mut columns = Vec::with_capacity(alloc, m)?;
    for p in 0..m {
        columns.push(SparseCol::empty(alloc, m))?;
    }
    Ok(columns)
}

// Stores each entry of row `r` in its column.
fn store_row(
    columns: &mut Vec<SparseCol<Frac>>,
    r: usize,
    row: &[(usize, Frac)],
) -> Result<(), Memory>
    requires apart { AreApart (length columns.old.items) row.now }
    requires open_columns { (p : ℕ) (u : ℚ) → value_at row.now p ≡ Some u → IsOpen r (column_in columns.old.items p) }
    ensures count { length columns.new.items ≡ length columns.old.items }
    ensures stored { OnOk result ((p : ℕ) → column_in columns.new.items p ≡ stored_at r (value_at row.now p) (column_in columns.old.items p)) }
{
    for (p, u) in row {
        columns[*p].insert(r, *u)?;
    }
    Ok(())
}

// The least row that has no pivot.
fn first_left(left: &[bool]) -> Option<usize>
    ensures { MatchOption result
        ((i : ℕ) → is_active left.now i ≡ false)
        (λ r. (is_active left.now r ≡ true) × ((i : ℕ) → i < r → is_active left.now i ≡ false)) }
{
    for (i, is_left) in left.iter().enumerate() {
        if *is_left {
            return Some(i);
        }
    }
    None
}

// The operations back from the unit vector of a row.
fn combination<A: Arith>(
    alloc: Global,
    m: usize,
    r: usize,
    etas: &EtaFile,
    arith: &mut A,
) -> Result<Vec<Frac>, LuFault>
    requires row { r < m }
    requires operations { AreOps m etas.now }
    ensures settled { IfOk result (λ y. settle (A.width arith.old) (eta.apply_back (unit_vector m r) etas.now) ≡ Some y.items) }
    ensures fault { IfErr result (Stops (A.width arith.old) (eta.apply_back (unit_vector m r) etas.now)) }
    ensures width { A.width arith.new ≡ A.width arith.old }
    ensures unfit { A.unfit_count arith.new ≡ count_after (A.unfit_count arith.old) result }
    ensures work { A.work_count arith.new ≤ A.work_count arith.old + stored etas.now }
{
    let mut y = unit(alloc, m, r)?;
    etas.apply_back(&mut y, arith)?;
    Ok(y)
}

// The vector of `m` items that is 1 in row `r` and else 0.
#[tactic(auto, using(exact_frac::specs::Constants::constants))]
fn unit(alloc: Global, m: usize, r: usize) -> Result<Vec<Frac>, Memory>
    requires { r < m }
    ensures { IfOk result (λ y. y.items ≡ unit_vector m r) }
{
    let mut y = zeros(alloc, m)?;
    y[r] = Frac::ONE;
    Ok(y)
}

// A vector of 0.
#[tactic(auto, using(exact_frac::specs::Constants::constants))]
fn zeros(alloc: Global, m: usize) -> Result<Vec<Frac>, Memory>
    ensures { IfOk result (λ y. y.items ≡ replicate m zero_ℚ) }
{
    Ok(vec![in alloc; Frac::ZERO; m]?)
}
