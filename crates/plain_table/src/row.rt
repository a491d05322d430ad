//! Rows of a table.
ghost use Rattle.std.specs.Prelude.{◌≡◌, ◌≢◌, ◌<◌, ◌≤◌, ◌^◌, ℕ, get_or, length, OnOk};
ghost use Rattle.rational.specs.Rational.{zero_ℚ};
ghost use Rattle.rational.specs.Sum.{at};
ghost use Rattle.lp_run.specs.Instance.{column_count, row_count};
ghost use Rattle.lp_run.specs.Listing.{Judges};
ghost use Rattle.plain_table.specs.Inner.Starts.{IsStartRow, start_row_listing};
ghost use Rattle.exact_frac.specs.Count.{unfit_after};
ghost use Rattle.plain_table.specs.Inner.Lines.{AreLessPacked, AreRising, IsSupport, IsUnpacked, less_listing};

use crate::line::{subtract_packed, unpack};
use crate::start::fill_row;
use exact_frac::{Arith, Frac};
use instance_model::Instance;
use lp_model::Place;
use std::marker::Model;

/// A row of a table, by column.
#[derive(Debug, Drop)]
pub struct Row {
    cells: Vec<Frac>,
}

impl Model for Row {
    ghost use Rattle.std.specs.Prelude.{List};
    ghost use Rattle.rational.specs.Rational.{ℚ};
    ghost use Rattle.rational.specs.Stored.{code_ℚ};
    ghost use Rattle.std.specs.Coded.{coded_list};

    ghost Value = { List ℚ };

    ghost coded = { coded_list code_ℚ };

    ghost view = { λ r. r.cells.items };
}

impl Row {
    /// The row of these numbers.
    pub fn of(cells: Vec<Frac>) -> Row
        ensures { result ≡ cells.items }
    {
        Row { cells }
    }

    /// The number of column `j`.
    pub fn get(&self, j: usize) -> Frac
        requires { j < length self.now }
        ensures { result ≡ at self.now j }
    {
        self.cells[j]
    }

    /// All numbers, by column.
    pub fn as_slice(&self) -> &[Frac]
        ensures { result.now ≡ self.now }
    {
        self.cells.as_slice()
    }

    /// Takes the numbers of a line of the same length.
    pub fn copy_from(&mut self, numbers: &[Frac])
        requires { length self.old ≡ length numbers.now }
        ensures { self.new ≡ numbers.now }
    {
        self.cells.as_mut_slice().copy_from_slice(numbers);
    }

    /// Takes a line less a multiple of another, in the columns where that one is not 0, one after another.
    pub fn set_less<A: Arith>(
        &mut self,
        here: Place,
        line: &[Frac],
        factor: Frac,
        by: &[Frac],
        columns: &[u32],
        arith: &mut A,
    ) -> Result<(), Place>
        requires factor { factor ≢ zero_ℚ }
        requires by { length by.now ≡ length line.now }
        requires support { IsSupport by.now columns.now }
        requires count { length columns.now ≤ length self.old }
        requires few { length line.now < 2 ^ 32 }
        ensures answer { Judges (A.width arith.old) (less_listing here line.now factor by.now) result }
        ensures less { OnOk result (AreLessPacked line.now factor by.now columns.now self.new) }
        ensures length { length self.new ≡ length self.old }
        ensures width { A.width arith.new ≡ A.width arith.old }
        ensures unfit { A.unfit_count arith.new ≡ unfit_after (A.unfit_count arith.old) result }
    {
        subtract_packed(
            here,
            line,
            factor,
            by,
            columns,
            arith,
            self.cells.as_mut_slice(),
        )
    }

    /// Takes numbers that come one after another into their columns, which rise.
    pub fn take_in(&mut self, columns: &[u32], packed: &[Frac])
        requires rising { AreRising columns.now }
        requires within { (k : ℕ) → k < length columns.now → get_or columns.now k 0 < length self.old }
        requires count { length columns.now ≤ length packed.now }
        ensures unpacked { IsUnpacked columns.now packed.now self.old self.new }
        ensures length { length self.new ≡ length self.old }
    {
        unpack(columns, packed, self.cells.as_mut_slice());
    }

    /// Takes the numbers of the row in that position of the first table.
    pub fn set_start<A: Arith>(
        &mut self,
        inst: &Instance,
        row: usize,
        arith: &mut A,
    ) -> Result<(), Place>
        requires row { row < row_count inst.now }
        requires count { length self.old ≡ column_count inst.now }
        ensures answer { Judges (A.width arith.old) (start_row_listing inst.now row) result }
        ensures filled { OnOk result (IsStartRow inst.now row self.new) }
        ensures length { length self.new ≡ length self.old }
        ensures width { A.width arith.new ≡ A.width arith.old }
        ensures unfit { A.unfit_count arith.new ≡ unfit_after (A.unfit_count arith.old) result }
    {
        fill_row(inst, row, arith, self.cells.as_mut_slice())
    }
}
