//! Sparse columns, which are the stored entries of a column in rising rows, and the work rows that they are
//! built in.
//!
//! **Model.** [`SparseCol`] is seen as the number of its rows and the list of its pairs of row and value
//! (`Sparse` in `specs/Sparse.antt`). The rows rise strictly and lie below the number of rows (`IsRising`),
//! so each row has one pair at most. [`Work`] is seen as a vector with a value or none at each row.
//!
//! **Contract.** `get` answers the value at a row (`value_at`), `pair` the pair at a place, `insert` puts a
//! pair in its place (`insert_pair`), and `remove` takes one out (`remove_row`). `from_pairs` makes the
//! column of a list of pairs, or names what is at fault with it (`IsFault` in `specs/Fault.antt`): the
//! first row out of range, or else the least row that stands twice. Of a work row, `set` and `at` write and
//! read one row, `scatter` stores a column's values over it, `gather` makes the column of its values
//! (`gathered`), and `clear` takes all values out. A refusal leaves the column as it was. `from_pairs`, `remove`
//! and all calls of a work row but `new` and `gather` take no memory.
//!
//! **Method.** A row is found by binary search. A list of pairs is sorted by row, so that a row that stands
//! twice has its pairs side by side. A work row keeps the list of the rows that have a value, with room for
//! all rows from the start, so that `clear` costs a step for each of them and not for each row (the sparse
//! accumulator of J. R. Gilbert, C. Moler and R. Schreiber, "Sparse matrices in MATLAB", 1992).
//!
//! It stands on `no_memory` for the refusal for memory and on the kit's `thiserror`.

#![tactic(auto)]

ghost use Rattle.std.specs.Prelude.{◌≡◌, ◌<◌, ◌+◌, [], List, ℕ, length, slice_get, Some, None, OnOk, OnErr, IfOk, IfErr};
ghost use Rattle.std.specs.List.Sorted.{IsPermutation};
ghost use Rattle.sparse_cols.specs.Fault.{first_beyond, first_repeated, IsFault};
ghost use Rattle.sparse_cols.specs.Sparse.{value_at, with_pair, without_row, IsRising, IsAt, IsGapFor};

mod fault;
mod work;

pub use fault::SparseFault;
pub use no_memory::Memory;
use std::alloc::Global;
use std::marker::Model;
pub use work::Work;

/// The stored entries of a column: pairs of row and value, in rising rows.
#[derive(Drop)]
pub struct SparseCol<V: Copy> {
    len: usize,
    pairs: Vec<(usize, V)>,
}

impl<V: Copy> Model for SparseCol<V> {
    ghost use Rattle.sparse_cols.specs.Sparse.{Sparse, IsRising};

    ghost Value = { Sparse V };

    ghost view = { λ c. record { length = c.len; pairs = c.pairs.items } };

    ghost invariant = { λ c. IsRising c.len 0 c.pairs.items };
}

impl<V: Copy> SparseCol<V> {
    /// A column of `len` rows with nothing stored.
    pub fn empty(alloc: Global, len: usize) -> SparseCol<V>
        ensures value { result ≡ record { length = len; pairs = [] } }
    {
        SparseCol {
            len,
            pairs: Vec::new(alloc),
        }
    }

    /// The column of `len` rows with these pairs, in any order. It refuses a row that is not below `len`,
    /// and then one that stands twice, and takes no memory.
    pub fn from_pairs(len: usize, mut pairs: Vec<(usize, V)>) -> Result<SparseCol<V>, SparseFault>
        ensures rising { IfOk result (λ column. IsRising len 0 column.pairs) }
        ensures same_pairs { IfOk result
            (λ column. (column.length ≡ len) × IsPermutation pairs.items column.pairs) }
        ensures fault { IfErr result (IsFault len pairs.items) }
    {
        if let Some(i) = first_beyond(&pairs, len) {
            return Err(SparseFault::Range(i));
        }
        pairs.sort_unstable_by_key(|pair| pair.0);
        match first_repeated(&pairs) {
            Some(i) => Err(SparseFault::Repeated(i)),
            None => Ok(SparseCol { len, pairs }),
        }
    }

    /// A copy of the column.
    pub fn copy(&self) -> Result<SparseCol<V>, Memory>
        ensures { IfOk result (λ column. column ≡ self.now) }
    {
        Ok(SparseCol {
            len: self.len,
            pairs: Vec::from_slice(*self.pairs.allocator(), &self.pairs)?,
        })
    }

    /// How many pairs are stored.
    pub fn count(&self) -> usize
        ensures value { result ≡ length self.now.pairs }
        ensures rising { IsRising self.now.length 0 self.now.pairs }
    {
        self.pairs.len()
    }

    /// The pair of row and value at place `k`, in rising rows.
    pub fn pair(&self, k: usize) -> (usize, V)
        requires { k < length self.now.pairs }
        ensures value { slice_get self.now.pairs k ≡ Some result }
        ensures row { result.0 < self.now.length }
    {
        self.pairs[k]
    }

    /// The value at row `i`.
    pub fn get(&self, i: usize) -> Option<V>
        ensures { result ≡ value_at self.now.pairs i }
    {
        match self.search(i) {
            Ok(k) => Some(self.pairs[k].1),
            Err(_) => None,
        }
    }

    /// Stores `v` at row `i`, which has no value. After a refusal the column is as it was.
    pub fn insert(&mut self, i: usize, v: V) -> Result<(), Memory>
        requires within { i < self.old.length }
        requires absent { value_at self.old.pairs i ≡ None }
        ensures ok { OnOk result (self.new ≡ with_pair self.old i v) }
        ensures err { OnErr result (self.new ≡ self.old) }
    {
        match self.search(i) {
            Ok(_) => unreachable!(),
            Err(k) => Ok(self.pairs.insert(k, (i, v))?),
        }
    }

    /// Takes the value at row `i` out, if there is one.
    pub fn remove(&mut self, i: usize) -> Option<V>
        ensures value { result ≡ value_at self.old.pairs i }
        ensures rest { self.new ≡ without_row self.old i }
    {
        match self.search(i) {
            Ok(k) => Some(self.pairs.remove(k).1),
            Err(_) => None,
        }
    }

    // The place of row `i`, or the place where it would stand.
    fn search(&self, i: usize) -> Result<usize, usize>
        ensures found { IfOk result (IsAt self.now.pairs i) }
        ensures absent { IfErr result (IsGapFor self.now.pairs i) }
    {
        self.pairs.binary_search_by_key(&i, |pair| pair.0)
    }
}

// The first row in the list that is not below `len`.
fn first_beyond<V: Copy>(pairs: &[(usize, V)], len: usize) -> Option<usize>
    ensures { result ≡ first_beyond len pairs.now }
{
    for (i, _) in pairs {
        if *i >= len {
            return Some(*i);
        }
    }
    None
}

// The first row that two neighbours share.
fn first_repeated<V: Copy>(pairs: &[(usize, V)]) -> Option<usize>
    ensures { result ≡ first_repeated pairs.now }
{
    for k in 1..pairs.len() {
        if pairs[k - 1].0 == pairs[k].0 {
            return Some(pairs[k].0);
        }
    }
    None
}
