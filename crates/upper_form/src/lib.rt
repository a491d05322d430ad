//! Triangular forms of a factorisation, and solving by them.
//!
//! **Model.** An [`Upper`] is seen as its columns by position, the row paired with each position, and the order of the
//! positions (`Triangle` in `Upper` of `factor_model`). It is triangular: along the order no column has an entry in
//! the row of a later position, and no diagonal is 0 (`IsUpper`).
//!
//! **Contract.** `solve` gives the x with U·x = v, `solve_back` the z with z·U = c. Each answers what the
//! calculation settles to at the arithmetic's width, `Unfit` exactly where one of its worked values does not fit; it
//! keeps the width, the count of unfit results rises by one exactly at `Unfit`, and the count of work rises at most by
//! one and the number of its stored entries for each position. After `Unfit` the buffers hold anything. `solve` uses
//! its vector up, and `solve_keeping` gives it back. Neither walks the column of a position whose item is 0. `meets` says
//! whether a position's column has an entry in a flagged row (`specs/Flags.antt`).
//!
//! `clear_row` takes the entries of a position's row out of all columns but the position's own, and `replace_col` puts
//! a new column in a position whose row is clear, and the position behind all others (`Edits` of `factor_model`). So a
//! form is changed as the update of J. J. H. Forrest and J. A. Tomlin ("Updated triangular factors of the basis to
//! maintain sparsity in the product form simplex method", 1972) asks.
//!
//! No call takes memory. It stands on `factor_model` for its definitions, on `sparse_steps` for its loops and on
//! `order_chain` for the order.

#![tactic(auto)]

ghost use Rattle.std.specs.Prelude.{if◌then◌else◌, ◌≡◌, ◌≢◌, ◌+◌, ◌^◌, ◌≤◌, ◌<◌, length, replicate, reverse, ◌∷◌, Some, IfSome, OnOk, slice_set};
ghost use Rattle.chain_links.specs.Lists.{rest};
ghost use Rattle.rational.specs.Rational.{zero_ℚ};
ghost use Rattle.exact_frac.specs.Count.{unfit_after};
ghost use Rattle.exact_frac.specs.Settles.{Leaves, Settles};
ghost use Rattle.factor_model.specs.Upper as upper;
ghost use Rattle.factor_model.specs.Edits as edits;
ghost use Rattle.factor_model.specs.Edits.{StandsAlone, cleared_columns};
ghost use Rattle.factor_model.specs.Vectors.{entry};
ghost use Rattle.sparse_cols.specs.Sparse.{IsRising, without_row};
ghost use Rattle.upper_form.specs.Flags as rows;
ghost use Rattle.factor_model.specs.Upper.{IsUpper, Solves, SolvesBack, by_position, cell, place_one, solve_one, solve_rows, solve_work};

use exact_frac::{Arith, Frac, Unfit};
use order_chain::OrderChain;
use sparse_cols::SparseCol;
use sparse_steps::{gather, subtract};
use std::marker::Model;

/// A triangular form.
#[derive(Drop)]
pub struct Upper {
    columns: Vec<SparseCol<Frac>>,
    rows: Vec<u32>,
    order: OrderChain,
}

impl Model for Upper {
    ghost use Rattle.std.specs.Prelude.{length};
    ghost use Rattle.factor_model.specs.Upper.{Triangle, IsUpper};

    ghost Value = { Triangle };

    ghost view = { λ u. record { columns = u.columns.items; rows = u.rows.items; order = u.order } };

    ghost invariant = { λ u. IsUpper (length u.rows.items) (record { columns = u.columns.items; rows = u.rows.items; order = u.order }) };
}

impl Upper {
    /// The form with these columns by position, the row paired with each position, and this order.
    pub fn of(columns: Vec<SparseCol<Frac>>, rows: Vec<u32>, order: OrderChain) -> Upper
        requires { IsUpper (length rows.items) (record { columns = columns.items; rows = rows.items; order = order }) }
        ensures { result ≡ record { columns = columns.items; rows = rows.items; order = order } }
    {
        Upper {
            columns,
            rows,
            order,
        }
    }

    /// How many positions there are.
    pub fn len(&self) -> usize
        ensures value { result ≡ length self.now.rows }
        ensures upper { IsUpper (length self.now.rows) self.now }
    {
        self.rows.len()
    }

    /// The entry of a position's column in the row paired with the position, which is not 0.
    pub fn diagonal(&self, p: usize) -> Frac
        requires { p < length self.now.rows }
        ensures value { result ≡ upper.diagonal self.now p }
        ensures nonzero { result ≢ zero_ℚ }
    {
        match self.columns[p].get(self.row_of(p)) {
            Some(entry) => entry,
            None => Frac::ZERO,
        }
    }

    /// The entry in a row of a position's column; 0 where nothing is stored.
    #[tactic(auto, using(exact_frac::specs::Constants::constants))]
    pub fn entry(&self, row: usize, p: usize) -> Frac
        requires { p < length self.now.rows }
        ensures { result ≡ cell self.now row p }
    {
        match self.columns[p].get(row) {
            Some(entry) => entry,
            None => Frac::ZERO,
        }
    }

    /// Whether a position's column has an entry in a flagged row.
    pub fn meets(&self, p: usize, flags: &[bool]) -> bool
        requires position { p < length self.now.rows }
        requires length { length flags.now ≡ length self.now.rows }
        ensures { result ≡ rows.meets flags.now (upper.column self.now p) }
    {
        meets(&self.columns[p], flags)
    }

    /// The order of the positions.
    pub fn order(&self) -> &OrderChain
        ensures { result.now ≡ self.now.order }
    {
        &self.order
    }

    /// The row paired with a position.
    pub fn row_of(&self, p: usize) -> usize
        requires { p < length self.now.rows }
        ensures value { result ≡ upper.row_of self.now p }
        ensures within { result < length self.now.rows }
        ensures small { result < 2 ^ 32 }
    {
        self.rows[p] as usize
    }

    /// Takes the entries of the row of `p` out of all columns but that of `p`.
    pub fn clear_row(&mut self, p: usize)
        requires { p < length self.old.rows }
        ensures { self.new ≡ edits.clear_row self.old p }
    {
        let row = self.row_of(p);
        clear_others(&mut self.columns, p, row);
    }

    /// Puts a column in position `p` and the position behind all others. The row of `p` has no entry in another
    /// column, and the new column, whose rows are rows of the form, has one there that is not 0.
    pub fn replace_col(&mut self, p: usize, column: SparseCol<Frac>)
        requires position { p < length self.old.rows }
        requires alone { StandsAlone self.old p }
        requires rows { IsRising (length self.old.rows) 0 column.pairs }
        requires nonzero { entry column.pairs (upper.row_of self.old p) ≢ zero_ℚ }
        ensures { self.new ≡ edits.replace_column self.old p column }
    {
        self.columns[p] = column;
        self.order.move_to_end(p);
    }

    /// Solves U·x = v in place, by rows: position p's item of x is left in p's row. After `Unfit` the vector holds
    /// anything.
    pub fn solve_in_rows<A: Arith>(&self, v: &mut [Frac], arith: &mut A) -> Result<(), Unfit>
        requires { length v.old ≡ length self.now.rows }
        ensures settled { Leaves (A.width arith.old) (solve_rows self.now v.old (reverse self.now.order)) result v.new }
        ensures width { A.width arith.new ≡ A.width arith.old }
        ensures unfit { A.unfit_count arith.new ≡ unfit_after (A.unfit_count arith.old) result }
        ensures work { A.work_count arith.new ≤ A.work_count arith.old + solve_work self.now (reverse self.now.order) }
    {
        let mut next = self.last();
        while let Some(p) = next {
            next = self.before(p);
            self.solve_position(p, v, arith)?;
        }
        Ok(())
    }

    // One position's step of `solve_in_rows`. Where the item of its row is 0 its column is not walked.
    fn solve_position<A: Arith>(&self, p: usize, v: &mut [Frac], arith: &mut A) -> Result<(), Unfit>
        requires position { p < length self.now.rows }
        requires length { length v.old ≡ length self.now.rows }
        ensures settled { Leaves (A.width arith.old) (solve_one self.now v.old p) result v.new }
        ensures width { A.width arith.new ≡ A.width arith.old }
        ensures unfit { A.unfit_count arith.new ≡ unfit_after (A.unfit_count arith.old) result }
        ensures work { A.work_count arith.new ≤ A.work_count arith.old + (1 + length (upper.column self.now p)) }
    {
        let row = self.row_of(p);
        let item = v[row];
        if item.is_zero() {
            return Ok(());
        }
        let x = arith.div(item, self.diagonal(p))?;
        self.place(p, row, x, v, arith)
    }

    // Takes x times the column of p from the vector, and leaves x in p's row.
    fn place<A: Arith>(
        &self,
        p: usize,
        row: usize,
        x: Frac,
        v: &mut [Frac],
        arith: &mut A,
    ) -> Result<(), Unfit>
        requires position { p < length self.now.rows }
        requires row { row ≡ upper.row_of self.now p }
        requires length { length v.old ≡ length self.now.rows }
        ensures settled { Leaves (A.width arith.old) (place_one self.now v.old p x) result v.new }
        ensures width { A.width arith.new ≡ A.width arith.old }
        ensures unfit { A.unfit_count arith.new ≡ unfit_after (A.unfit_count arith.old) result }
        ensures work { A.work_count arith.new ≤ A.work_count arith.old + length (upper.column self.now p) }
    {
        subtract(row, x, v, &self.columns[p], arith)?;
        v[row] = x;
        Ok(())
    }

    // The last position.
    fn last(&self) -> Option<usize>
        ensures rest { rest result (reverse self.now.order) ≡ reverse self.now.order }
        ensures position { IfSome result (λ p. p < length self.now.rows) }
    {
        self.order.last()
    }

    // The position before `p`.
    fn before(&self, p: usize) -> Option<usize>
        requires { p < length self.now.rows }
        ensures rest { rest (Some p) (reverse self.now.order) ≡ p ∷ rest result (reverse self.now.order) }
        ensures position { IfSome result (λ q. q < length self.now.rows) }
    {
        self.order.before(p)
    }

    /// Solves U·x = v: `out` has position p's item of x. The vector `v` is used up. After `Unfit` both hold anything.
    pub fn solve<A: Arith>(
        &self,
        v: &mut [Frac],
        out: &mut [Frac],
        arith: &mut A,
    ) -> Result<(), Unfit>
        requires vector { length v.old ≡ length self.now.rows }
        requires length { length out.old ≡ length self.now.rows }
        ensures settled { Leaves (A.width arith.old) (upper.solve self.now v.old) result out.new }
        ensures solves { OnOk result (Solves self.now out.new v.old) }
        ensures width { A.width arith.new ≡ A.width arith.old }
        ensures unfit { A.unfit_count arith.new ≡ unfit_after (A.unfit_count arith.old) result }
        ensures work { A.work_count arith.new ≤ A.work_count arith.old + solve_work self.now (reverse self.now.order) }
    {
        // (a look at a field wakes the invariant, that the form is triangular: `solves` stands on it)
        let _ = &self.columns;
        self.solve_in_rows(v, arith)?;
        self.copy_by_position(v, out);
        Ok(())
    }

    /// Solves U·x = v as `solve` does, and keeps the vector `v`. After `Unfit` both hold anything.
    pub fn solve_keeping<A: Arith>(
        &self,
        v: &mut [Frac],
        out: &mut [Frac],
        arith: &mut A,
    ) -> Result<(), Unfit>
        requires vector { length v.old ≡ length self.now.rows }
        requires length { length out.old ≡ length self.now.rows }
        ensures settled { Leaves (A.width arith.old) (upper.solve self.now v.old) result out.new }
        ensures kept { OnOk result (v.new ≡ v.old) }
        ensures width { A.width arith.new ≡ A.width arith.old }
        ensures unfit { A.unfit_count arith.new ≡ unfit_after (A.unfit_count arith.old) result }
        ensures work { A.work_count arith.new ≤ A.work_count arith.old + solve_work self.now (reverse self.now.order) }
    {
        // (a look at a field wakes the invariant, that the form is triangular: by its pairs of rows and positions `v` comes back)
        let _ = &self.columns;
        self.copy_by_position(v, out);
        self.solve_in_rows(v, arith)?;
        self.exchange(v, out);
        Ok(())
    }

    // Exchanges the item of each position's row with that of the position.
    fn exchange(&self, rows: &mut [Frac], positions: &mut [Frac])
        requires rows { length rows.old ≡ length self.now.rows }
        requires length { length positions.old ≡ length self.now.rows }
        ensures positions { positions.new ≡ by_position self.now rows.old }
        ensures rows { by_position self.now rows.new ≡ positions.old }
    {
        // (a look at a field wakes the invariant, that the form is triangular: so no row stands in two positions)
        let _ = &self.columns;
        for p in 0..positions.len() {
            let row = self.row_of(p);
            let item = rows[row];
            rows[row] = positions[p];
            positions[p] = item;
        }
    }

    // Copies the item of each position's row to the position.
    fn copy_by_position(&self, rows: &[Frac], out: &mut [Frac])
        requires rows { length rows.now ≡ length self.now.rows }
        requires length { length out.old ≡ length self.now.rows }
        ensures { out.new ≡ by_position self.now rows.now }
    {
        for p in 0..out.len() {
            let row = self.row_of(p);
            out[p] = rows[row];
        }
    }

    /// Solves z·U = c: `out` has the item of z for each row. After `Unfit` it holds anything.
    pub fn solve_back<A: Arith>(
        &self,
        c: &[Frac],
        out: &mut [Frac],
        arith: &mut A,
    ) -> Result<(), Unfit>
        requires vector { length c.now ≡ length self.now.rows }
        requires length { length out.old ≡ length self.now.rows }
        ensures settled { Leaves (A.width arith.old) (upper.solve_back self.now c.now) result out.new }
        ensures solves { OnOk result (SolvesBack self.now out.new c.now) }
        ensures width { A.width arith.new ≡ A.width arith.old }
        ensures unfit { A.unfit_count arith.new ≡ unfit_after (A.unfit_count arith.old) result }
        ensures work { A.work_count arith.new ≤ A.work_count arith.old + solve_work self.now self.now.order }
    {
        // (a look at a field wakes the invariant, that the form is triangular: `solves` stands on it)
        let _ = &self.columns;
        clear(out);
        let mut next = self.first();
        while let Some(p) = next {
            next = self.after(p);
            let item = self.back_item(p, c, out, arith)?;
            out[self.row_of(p)] = item;
        }
        Ok(())
    }

    // The item of z in a position's row, where those of all earlier positions are known.
    fn back_item<A: Arith>(
        &self,
        p: usize,
        c: &[Frac],
        z: &[Frac],
        arith: &mut A,
    ) -> Result<Frac, Unfit>
        requires position { p < length self.now.rows }
        requires vector { length c.now ≡ length self.now.rows }
        requires length { length z.now ≡ length self.now.rows }
        ensures settled { Settles (A.width arith.old) (upper.back_item self.now c.now z.now p) result }
        ensures width { A.width arith.new ≡ A.width arith.old }
        ensures unfit { A.unfit_count arith.new ≡ unfit_after (A.unfit_count arith.old) result }
        ensures work { A.work_count arith.new ≤ A.work_count arith.old + (1 + length (upper.column self.now p)) }
    {
        let row = self.row_of(p);
        let cost = c[p];
        let rest = gather(row, z, cost, &self.columns[p], arith)?;
        if rest.is_zero() {
            return Ok(rest);
        }
        arith.div(rest, self.diagonal(p))
    }

    // The first position.
    fn first(&self) -> Option<usize>
        ensures rest { rest result self.now.order ≡ self.now.order }
        ensures position { IfSome result (λ p. p < length self.now.rows) }
    {
        self.order.first()
    }

    // The position behind `p`.
    fn after(&self, p: usize) -> Option<usize>
        requires { p < length self.now.rows }
        ensures rest { rest (Some p) self.now.order ≡ p ∷ rest result self.now.order }
        ensures position { IfSome result (λ q. q < length self.now.rows) }
    {
        self.order.after(p)
    }
}

// Whether a column has an entry in a flagged row.
fn meets(column: &SparseCol<Frac>, flags: &[bool]) -> bool
    requires { IsRising (length flags.now) 0 column.now.pairs }
    ensures { result ≡ rows.meets flags.now column.now.pairs }
{
    for k in 0..column.count() {
        let (i, _) = column.pair(k);
        let flagged = flags[i];
        if flagged {
            return true;
        }
    }
    false
}

// Takes a row out of each column but that of position `p`.
fn clear_others(columns: &mut Vec<SparseCol<Frac>>, p: usize, row: usize)
    ensures { columns.new.items ≡ cleared_columns columns.old.items p row }
{
    for q in 0..columns.len() {
        clear_unless(q == p, &mut columns[q], row);
    }
}

// Takes a row out of a column that does not keep it.
fn clear_unless(keeps: bool, column: &mut SparseCol<Frac>, row: usize)
    ensures { column.new ≡ (if keeps then column.old else without_row column.old row) }
{
    if !keeps {
        column.remove(row);
    }
}

/// Makes all items 0.
#[tactic(auto, using(exact_frac::specs::Constants::constants))]
pub fn clear(out: &mut [Frac])
    ensures { out.new ≡ replicate (length out.old) zero_ℚ }
{
    for x in out.iter_mut() {
        *x = Frac::ZERO;
    }
}
