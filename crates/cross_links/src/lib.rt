//! The active part of a matrix in a factorisation, by rows and by columns.
//!
//! An elimination takes pivot after pivot out of the active part, puts fills in and cancels entries. Each
//! entry is linked in its row and in its column, and each row and each column that was not removed stands in
//! the bucket of its count, so that [`Cross::least`] finds Markowitz's pivot from the lowest counts on.
//!
//! **Model.** [`Cross`] is seen as a matrix (`Matrix` in `specs/Matrix.antt`): what stands at each link, for each
//! row the links of its entries in order, for each column the same, and which rows and columns were not removed.
//! Both directions have the links of the same entries, each once (`IsMatrix`), no two entries stand at one place,
//! and a removed row or column has none. A count is the length of such a list.
//!
//! **Contract.** An entry is named by its link, which `fill`, `least` and the walks give out. `row_first`, `row_next`,
//! `col_first` and `col_next` lead along the entries of a row or a column, and `entry` says what stands at a
//! link. Each change says what the whole matrix is afterwards. `least` answers the entry of least cost, then
//! least row, then least column (`IsLeast`), and nothing exactly where there is no entry. Only `load` and `fill`
//! take memory; after a refusal of `fill` the matrix is as it was. A link that was freed is used again: `fill`
//! makes more links only where an entry stands at each, and then at most twice as many and one (`IsFilled`).
//! `specs/Cells.antt` has the value in a row and a column, and `proofs/Cells.antt` what each change does to it.
//!
//! It stands on `count_chain`. The entries of the rows are linked in one chain and those of the columns in
//! another, both ways, so an entry goes and comes in constant time; two more chains are the buckets, and a
//! fifth has the free links. An entry of cost 0 is alone in its row or in its column: the rows of such entries
//! are flagged in `flag_tree`s, so that the first of them is found in steps of the logarithm of m.
//!
//! Method: H. M. Markowitz, The Elimination Form of the Inverse and its Application to Linear Programming,
//! Management Science 3 (1957); the search by buckets as in Duff, Erisman and Reid, Direct Methods for Sparse
//! Matrices, chapter 10.

#![tactic(auto)]

ghost use Rattle.std.specs.Prelude.{◌≡◌, ◌<◌, ◌^◌, ℕ, [], true, false, IfOk, IfSome, OnOk, OnErr, MatchOption, Some, length, map, replicate, slice_get, slice_index_or, slice_set};
ghost use Rattle.std.specs.List.{All};
ghost use Rattle.chain_links.specs.Lists.{after};
ghost use Rattle.cross_links.specs.Matrix.{row, col, entry_at, is_active, row_of, col_of, col_pairs, line, IsLink, Has, IsMatrix, IsFilled, with_value, without_entry, without_entries, without_row, without_col, IsLeast};

use crate::cheap::Cheap;
use crate::table::Table;
use exact_frac::Frac;
pub use no_memory::Memory;
use sparse_cols::SparseCol;
use std::alloc::Global;
use std::marker::{Brand, Model};
use std::sync::ledger::{Blank, Ledger};
use step_counter::Steps;

mod cheap;
mod pivot;
mod side;
mod table;

/// The entries of the active part, by rows and by columns.
#[derive(Drop)]
pub struct Cross {
    table: Table,
    cheap: Cheap,
}

impl Model for Cross {
    ghost use Rattle.cross_links.specs.Matrix.{Matrix};
    ghost use Rattle.cross_links.specs.Held.{matrix_of, IsReady};

    ghost Value = { Matrix };

    ghost view = { λ a. matrix_of a.table };

    ghost invariant = { λ a. IsReady a.table a.cheap };
}

impl Cross {
    /// The matrix of `m` columns of `m` rows each.
    pub fn load(alloc: Global, m: usize, columns: &[SparseCol<Frac>]) -> Result<Cross, Memory>
        requires small { m < 2 ^ 16 }
        requires columns { length columns.now ≡ m }
        requires rows { All (λ column. column.length ≡ m) columns.now }
        ensures size { IfOk result (λ a. a.size ≡ m) }
        ensures cols { IfOk result (λ a. (c : ℕ) → col_pairs a c ≡ slice_index_or (map (λ column. column.pairs) columns.now) c []) }
        ensures active_rows { IfOk result (λ a. a.active_rows ≡ replicate m true) }
        ensures active_cols { IfOk result (λ a. a.active_cols ≡ replicate m true) }
        ensures matrix { IfOk result (λ a. IsMatrix a) }
    {
        let mut cross = Self::empty::<Brand>(alloc, m, Blank::new(1))?;
        for c in 0..m {
            cross.load_column(c, &columns[c])?;
        }
        Ok(cross)
    }

    // A matrix with no entry, with a counter on the ledger of `blank`.
    fn empty<L: Ledger>(alloc: Global, m: usize, blank: Blank) -> Result<Cross, Memory>
        requires name { blank.name ≡ L.name }
        requires parts { blank.parts ≡ L.parts }
        requires some { 0 < blank.parts }
        requires small { m < 2 ^ 16 }
        ensures size { IfOk result (λ a. a.size ≡ m) }
        ensures cols { IfOk result (λ a. (c : ℕ) → col a c ≡ []) }
        ensures active_rows { IfOk result (λ a. a.active_rows ≡ replicate m true) }
        ensures active_cols { IfOk result (λ a. a.active_cols ≡ replicate m true) }
        ensures matrix { IfOk result (λ a. IsMatrix a) }
    {
        let mut steps = Steps::<L>::new(blank);
        Ok(Cross {
            table: Table::new(alloc, m, &mut steps)?,
            cheap: Cheap::new(alloc, m)?,
        })
    }

    // Puts in the entries of column `c`, which has none.
    fn load_column(&mut self, c: usize, column: &SparseCol<Frac>) -> Result<(), Memory>
        requires matrix { IsMatrix self.old }
        requires col { c < self.old.size }
        requires rows { column.now.length ≡ self.old.size }
        requires empty { col self.old c ≡ [] }
        requires active_rows { self.old.active_rows ≡ replicate self.old.size true }
        requires active_cols { self.old.active_cols ≡ replicate self.old.size true }
        ensures size { self.new.size ≡ self.old.size }
        ensures col { OnOk result (col_pairs self.new c ≡ column.now.pairs) }
        ensures others { (d : ℕ) → (d ≡ c → ⊥) → col self.new d ≡ col self.old d }
        ensures pairs { (d : ℕ) → (d ≡ c → ⊥) → col_pairs self.new d ≡ col_pairs self.old d }
        ensures active_rows { self.new.active_rows ≡ self.old.active_rows }
        ensures active_cols { self.new.active_cols ≡ self.old.active_cols }
        ensures matrix { IsMatrix self.new }
    {
        for k in 0..column.count() {
            let (r, v) = column.pair(k);
            self.fill(r, c, v)?;
        }
        Ok(())
    }

    /// How many entries row `r` has.
    pub fn row_count(&self, r: usize) -> usize
        requires { r < self.now.size }
        ensures count { result ≡ length (row self.now r) }
        ensures matrix { IsMatrix self.now }
    {
        self.table.rows.counts[r]
    }

    /// How many entries column `c` has.
    pub fn col_count(&self, c: usize) -> usize
        requires { c < self.now.size }
        ensures count { result ≡ length (col self.now c) }
        ensures matrix { IsMatrix self.now }
    {
        self.table.cols.counts[c]
    }

    /// The first entry of row `r`.
    pub fn row_first(&self, r: usize) -> Option<u32>
        requires { r < self.now.size }
        ensures first { result ≡ slice_get (row self.now r) 0 }
        ensures link { IfSome result (IsLink self.now) }
        ensures matrix { IsMatrix self.now }
    {
        match self.table.rows.lines.first(r) {
            Some(link) => Some(link as u32),
            None => None,
        }
    }

    /// The entry behind that of `link` in its row.
    pub fn row_next(&self, link: u32) -> Option<u32>
        requires { IsLink self.now link }
        ensures next { result ≡ after link (row self.now (row_of self.now link)) }
        ensures link { IfSome result (IsLink self.now) }
        ensures matrix { IsMatrix self.now }
    {
        match self.table.rows.lines.next(link as usize) {
            Some(behind) => Some(behind as u32),
            None => None,
        }
    }

    /// The first entry of column `c`.
    pub fn col_first(&self, c: usize) -> Option<u32>
        requires { c < self.now.size }
        ensures first { result ≡ slice_get (col self.now c) 0 }
        ensures link { IfSome result (IsLink self.now) }
        ensures matrix { IsMatrix self.now }
    {
        match self.table.cols.lines.first(c) {
            Some(link) => Some(link as u32),
            None => None,
        }
    }

    /// The entry behind that of `link` in its column.
    pub fn col_next(&self, link: u32) -> Option<u32>
        requires { IsLink self.now link }
        ensures next { result ≡ after link (col self.now (col_of self.now link)) }
        ensures link { IfSome result (IsLink self.now) }
        ensures matrix { IsMatrix self.now }
    {
        match self.table.cols.lines.next(link as usize) {
            Some(behind) => Some(behind as u32),
            None => None,
        }
    }

    /// The row, the column and the value of an entry. Neither was removed.
    pub fn entry(&self, link: u32) -> (usize, usize, Frac)
        requires { IsLink self.now link }
        ensures entry { entry_at self.now link ≡ Some result }
        ensures row { result.0 < self.now.size }
        ensures col { result.1 < self.now.size }
        ensures active_row { is_active self.now.active_rows result.0 ≡ true }
        ensures active_col { is_active self.now.active_cols result.1 ≡ true }
        ensures matrix { IsMatrix self.now }
    {
        self.table.entry(link as usize)
    }

    /// Changes the value of an entry.
    pub fn set(&mut self, link: u32, v: Frac)
        requires { IsLink self.old link }
        ensures set { self.new ≡ with_value self.old link v }
        ensures matrix { IsMatrix self.new }
    {
        self.table.set(link as usize, v);
    }

    /// Takes an entry out. Its link may name an entry of a later fill.
    pub fn cancel(&mut self, link: u32)
        requires { IsLink self.old link }
        ensures cancelled { self.new ≡ without_entry self.old link }
        ensures matrix { IsMatrix self.new }
    {
        self.cancel_counted::<Brand>(link, Blank::new(1));
    }

    // `cancel`, with a counter on the ledger of `blank`.
    fn cancel_counted<L: Ledger>(&mut self, link: u32, blank: Blank)
        requires name { blank.name ≡ L.name }
        requires parts { blank.parts ≡ L.parts }
        requires some { 0 < blank.parts }
        requires link { IsLink self.old link }
        ensures cancelled { self.new ≡ without_entry self.old link }
        ensures matrix { IsMatrix self.new }
    {
        let mut steps = Steps::<L>::new(blank);
        self.take_out(link, &mut steps);
    }

    // Takes an entry out.
    fn take_out<L: Ledger>(&mut self, link: u32, steps: &mut Steps<L>)
        requires { IsLink self.old link }
        ensures cancelled { self.new ≡ without_entry self.old link }
        ensures matrix { IsMatrix self.new }
    {
        let (r, c, _) = self.table.entry(link as usize);
        let before = self.table.lone_row(c);
        self.cheap.take(c, before, steps);
        self.table.cancel(link as usize, steps);
        let after = self.table.lone_row(c);
        self.cheap.put(c, after, steps);
        self.cheap.singles.set(r, self.table.is_single(r));
    }

    /// Puts an entry into row `r` and column `c`, where there is none and neither of which was removed, and
    /// answers its link. After a refusal the matrix is as it was.
    pub fn fill(&mut self, r: usize, c: usize, v: Frac) -> Result<u32, Memory>
        requires row { r < self.old.size }
        requires col { c < self.old.size }
        requires active_row { is_active self.old.active_rows r ≡ true }
        requires active_col { is_active self.old.active_cols c ≡ true }
        requires absent { ¬ Has self.old r c }
        ensures ok { IfOk result (λ link. IsFilled self.old link (r, c, v) self.new) }
        ensures entry { IfOk result (IsLink self.new) }
        ensures err { OnErr result (self.new ≡ self.old) }
        ensures matrix { IsMatrix self.new }
    {
        self.fill_counted::<Brand>(r, c, v, Blank::new(1))
    }

    // `fill`, with a counter on the ledger of `blank`.
    fn fill_counted<L: Ledger>(
        &mut self,
        r: usize,
        c: usize,
        v: Frac,
        blank: Blank,
    ) -> Result<u32, Memory>
        requires name { blank.name ≡ L.name }
        requires parts { blank.parts ≡ L.parts }
        requires some { 0 < blank.parts }
        requires row { r < self.old.size }
        requires col { c < self.old.size }
        requires active_row { is_active self.old.active_rows r ≡ true }
        requires active_col { is_active self.old.active_cols c ≡ true }
        requires absent { ¬ Has self.old r c }
        ensures ok { IfOk result (λ link. IsFilled self.old link (r, c, v) self.new) }
        ensures entry { IfOk result (IsLink self.new) }
        ensures err { OnErr result (self.new ≡ self.old) }
        ensures matrix { IsMatrix self.new }
    {
        let mut steps = Steps::<L>::new(blank);
        let before = self.table.lone_row(c);
        let link = self.table.fill(r, c, v, &mut steps)?;
        self.cheap.take(c, before, &mut steps);
        let after = self.table.lone_row(c);
        self.cheap.put(c, after, &mut steps);
        self.cheap.singles.set(r, self.table.is_single(r));
        Ok(link as u32)
    }

    /// Removes row `r`, which was not removed, with its entries.
    pub fn remove_row(&mut self, r: usize)
        requires row { r < self.old.size }
        requires active { is_active self.old.active_rows r ≡ true }
        ensures removed { self.new ≡ without_row self.old r }
        ensures size { self.new.size ≡ self.old.size }
        ensures active_rows { self.new.active_rows ≡ slice_set self.old.active_rows r false }
        ensures active_cols { self.new.active_cols ≡ self.old.active_cols }
        ensures matrix { IsMatrix self.new }
    {
        self.remove_row_counted::<Brand>(r, Blank::new(1));
    }

    // `remove_row`, with a counter on the ledger of `blank`.
    fn remove_row_counted<L: Ledger>(&mut self, r: usize, blank: Blank)
        requires name { blank.name ≡ L.name }
        requires parts { blank.parts ≡ L.parts }
        requires some { 0 < blank.parts }
        requires row { r < self.old.size }
        requires active { is_active self.old.active_rows r ≡ true }
        ensures removed { self.new ≡ without_row self.old r }
        ensures size { self.new.size ≡ self.old.size }
        ensures active_rows { self.new.active_rows ≡ slice_set self.old.active_rows r false }
        ensures active_cols { self.new.active_cols ≡ self.old.active_cols }
        ensures matrix { IsMatrix self.new }
    {
        let mut steps = Steps::<L>::new(blank);
        self.clear_row(r, &mut steps);
        self.table.retire_row(r, &mut steps);
    }

    // Takes the entries of row `r` out, one after the other.
    fn clear_row<L: Ledger>(&mut self, r: usize, steps: &mut Steps<L>)
        requires row { r < self.old.size }
        ensures cleared { self.new ≡ without_entries (row self.old r) self.old }
        ensures empty { row self.new r ≡ [] }
        ensures size { self.new.size ≡ self.old.size }
        ensures active_rows { self.new.active_rows ≡ self.old.active_rows }
        ensures active_cols { self.new.active_cols ≡ self.old.active_cols }
    {
        'entries: while let Some(link) = self.row_first(r) {
            self.take_out(link, steps);
        }
    }

    /// Removes column `c`, which was not removed, with its entries.
    pub fn remove_col(&mut self, c: usize)
        requires col { c < self.old.size }
        requires active { is_active self.old.active_cols c ≡ true }
        ensures removed { self.new ≡ without_col self.old c }
        ensures size { self.new.size ≡ self.old.size }
        ensures active_rows { self.new.active_rows ≡ self.old.active_rows }
        ensures active_cols { self.new.active_cols ≡ slice_set self.old.active_cols c false }
        ensures matrix { IsMatrix self.new }
    {
        self.remove_col_counted::<Brand>(c, Blank::new(1));
    }

    // `remove_col`, with a counter on the ledger of `blank`.
    fn remove_col_counted<L: Ledger>(&mut self, c: usize, blank: Blank)
        requires name { blank.name ≡ L.name }
        requires parts { blank.parts ≡ L.parts }
        requires some { 0 < blank.parts }
        requires col { c < self.old.size }
        requires active { is_active self.old.active_cols c ≡ true }
        ensures removed { self.new ≡ without_col self.old c }
        ensures size { self.new.size ≡ self.old.size }
        ensures active_rows { self.new.active_rows ≡ self.old.active_rows }
        ensures active_cols { self.new.active_cols ≡ slice_set self.old.active_cols c false }
        ensures matrix { IsMatrix self.new }
    {
        let mut steps = Steps::<L>::new(blank);
        self.clear_col(c, &mut steps);
        self.table.retire_col(c, &mut steps);
    }

    // Takes the entries of column `c` out, one after the other.
    fn clear_col<L: Ledger>(&mut self, c: usize, steps: &mut Steps<L>)
        requires col { c < self.old.size }
        ensures cleared { self.new ≡ without_entries (col self.old c) self.old }
        ensures empty { col self.new c ≡ [] }
        ensures size { self.new.size ≡ self.old.size }
        ensures active_rows { self.new.active_rows ≡ self.old.active_rows }
        ensures active_cols { self.new.active_cols ≡ self.old.active_cols }
    {
        'entries: while let Some(link) = self.col_first(c) {
            self.take_out(link, steps);
        }
    }

    /// The entry of least cost, then least row, then least column; nothing exactly where there is no entry.
    ///
    /// The cost is the product of the other entries' numbers in its row and in its column.
    pub fn least(&self) -> Option<u32>
        ensures least { MatchOption result ((l : ℕ) → ¬ IsLink self.now l) (λ link. IsLeast self.now link) }
        ensures matrix { IsMatrix self.now }
    {
        match pivot::best(&self.table, &self.cheap) {
            Some(link) => Some(link as u32),
            None => None,
        }
    }
}
