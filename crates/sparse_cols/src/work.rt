//! A work row: a dense row that is cleared at the cost of what was set.

ghost use Rattle.std.specs.Prelude.{◌≡◌, ◌<◌, ℕ, Some, None, IfOk, length, replicate, slice_set};
ghost use Rattle.sparse_cols.specs.Sparse.{value_at};
ghost use Rattle.sparse_cols.specs.Work.{value_in, gathered, or_else};

use crate::SparseCol;
use no_memory::Memory;
use std::alloc::Global;
use std::marker::Model;

/// A value or none at each row, with the rows that have one.
#[derive(Drop)]
pub struct Work<V: Copy> {
    values: Vec<Option<V>>,
    // The rows that have a value, in the order in which they got it.
    filled: Vec<usize>,
}

impl<V: Copy> Model for Work<V> {
    ghost use Rattle.std.specs.Prelude.{List, Option, vec_capacity};
    ghost use Rattle.sparse_cols.specs.Work.{IsFilledAt};

    ghost Value = { List (Option V) };

    ghost view = { λ w. w.values.items };

    ghost invariant = { λ w. IsFilledAt w.values.items w.filled.items (vec_capacity w.filled) };
}

impl<V: Copy> Work<V> {
    /// A work row of `len` rows, none of which has a value.
    pub fn new(alloc: Global, len: usize) -> Result<Work<V>, Memory>
        ensures { IfOk result (λ work. work ≡ replicate len None) }
    {
        Ok(Work {
            values: vec![in alloc; None; len]?,
            filled: Vec::with_capacity(alloc, len)?,
        })
    }

    /// Stores each value of `column` at its row. The other rows are as they were.
    pub fn scatter(&mut self, column: &SparseCol<V>)
        requires { length self.old ≡ column.now.length }
        ensures same_length { length self.new ≡ length self.old }
        ensures values { (i : ℕ)
            → value_in self.new i ≡ or_else (value_at column.now.pairs i) (value_in self.old i) }
    {
        for k in 0..column.count() {
            let (i, v) = column.pair(k);
            self.set(i, v);
        }
    }

    /// Stores `v` at row `i`, in place of what was there.
    pub fn set(&mut self, i: usize, v: V)
        requires { i < length self.old }
        ensures { self.new ≡ slice_set self.old i (Some v) }
    {
        let before = self.values[i];
        self.values[i] = Some(v);
        if before.is_none() {
            self.filled.push_reserved(i);
        }
    }

    /// The value at row `i`.
    pub fn at(&self, i: usize) -> Option<V>
        requires { i < length self.now }
        ensures { result ≡ value_in self.now i }
    {
        self.values[i]
    }

    /// The column of the rows that have a value.
    pub fn gather(&self) -> Result<SparseCol<V>, Memory>
        ensures { IfOk result (λ column. column ≡ gathered self.now) }
    {
        let mut pairs = Vec::with_capacity(*self.filled.allocator(), self.filled.len())?;
        for (i, value) in self.values.iter().enumerate() {
            if let Some(v) = value {
                pairs.push((i, *v))?;
            }
        }
        Ok(SparseCol {
            len: self.values.len(),
            pairs,
        })
    }

    /// Takes every value out. This costs a step for each row that has one.
    pub fn clear(&mut self)
        ensures { self.new ≡ replicate (length self.old) None }
    {
        while let Some(i) = self.filled.pop() {
            self.values[i] = None;
        }
    }
}
