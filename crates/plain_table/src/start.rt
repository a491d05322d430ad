//! The entries of the first table.
ghost use Rattle.std.specs.Prelude.{◌≡◌, ◌<◌, ◌^◌, ℕ, length, OnOk};
ghost use Rattle.lp_model.specs.declared.Kind.TheVariants as kind;
ghost use Rattle.rational.specs.Sparse.{at_index};
ghost use Rattle.rational.specs.Sum.{at};
ghost use Rattle.lp_run.specs.Instance.{coefficient as coefficient_of, column_count, row_count};
ghost use Rattle.lp_run.specs.Listing.{entries_listing, place, start_entry as entry_of, Judges};
ghost use Rattle.exact_frac.specs.Count.{unfit_after};
ghost use Rattle.plain_table.specs.Inner.Rows.{AreWide};
ghost use Rattle.plain_table.specs.Inner.Starts.{AreStartRows, IsStartRow, start_row_listing};

use crate::row::Row;
use exact_frac::{Arith, Frac};
use instance_model::Instance;
use lp_model::{Kind, Place, Side};
use lp_run::ColumnKind;
use sparse_steps::entry;

// An item of a multiple of a unit vector.
#[tactic(auto, using(exact_frac::specs::Constants::constants))]
fn unit(i: usize, k: usize, value: Frac) -> Frac
    ensures { result ≡ at_index i k value }
{
    if i == k { value } else { Frac::ZERO }
}

// The entry of the equations in a row and a column.
#[tactic(auto, using(exact_frac::specs::Constants::constants))]
fn coefficient(inst: &Instance, row: usize, column: usize) -> Frac
    requires row { row < row_count inst.now }
    requires column { column < column_count inst.now }
    ensures { result ≡ coefficient_of inst.now row column }
{
    match inst.kind(column) {
        ColumnKind::Structural(j) => entry(inst.entries(j), row),
        ColumnKind::Logical(i) => unit(row, i, Frac::ONE),
        ColumnKind::Artificial(i) => unit(row, i, inst.sign(i)),
    }
}

// An entry of the table at the start: that of the equations, times the sign of the row's artificial where it is needed.
fn start_entry(inst: &Instance, row: usize, column: usize) -> Frac
    requires row { row < row_count inst.now }
    requires column { column < column_count inst.now }
    ensures { result ≡ entry_of inst.now row column }
{
    let entry = coefficient(inst, row, column);
    match inst.passed(row) {
        Some(Side::Lower) => entry.negated(),
        Some(Side::Upper) => entry,
        None => entry,
    }
}

// The place of an entry of the first table.
fn entry_place(row: usize, column: usize) -> Place
    requires row { row < 2 ^ 32 }
    requires column { column < 2 ^ 32 }
    ensures { result ≡ place 0 kind.Entry (Some row) (Some column) }
{
    Place {
        number: 0,
        kind: Kind::Entry,
        row: Some(row as u32),
        column: Some(column as u32),
    }
}

/// The numbers of a row of the first table.
pub fn fill_row<A: Arith>(
    inst: &Instance,
    row: usize,
    arith: &mut A,
    out: &mut [Frac],
) -> Result<(), Place>
    requires row { row < row_count inst.now }
    requires count { length out.old ≡ column_count inst.now }
    ensures answer { Judges (A.width arith.old) (start_row_listing inst.now row) result }
    ensures filled { OnOk result (IsStartRow inst.now row out.new) }
    ensures width { A.width arith.new ≡ A.width arith.old }
    ensures unfit { A.unfit_count arith.new ≡ unfit_after (A.unfit_count arith.old) result }
{
    for j in 0..inst.columns() {
        match arith.fit(start_entry(inst, row, j)) {
            Ok(entry) => out[j] = entry,
            Err(_) => return Err(entry_place(row, j)),
        }
    }
    Ok(())
}

/// The rows of the first table.
pub fn fill_rows<A: Arith>(inst: &Instance, arith: &mut A, out: &mut [Row]) -> Result<(), Place>
    requires count { length out.old ≡ row_count inst.now }
    requires wide { AreWide (column_count inst.now) out.old }
    ensures answer { Judges (A.width arith.old) (entries_listing inst.now) result }
    ensures filled { OnOk result (AreStartRows inst.now out.new) }
    ensures wide { AreWide (column_count inst.now) out.new }
    ensures width { A.width arith.new ≡ A.width arith.old }
    ensures unfit { A.unfit_count arith.new ≡ unfit_after (A.unfit_count arith.old) result }
{
    for i in 0..inst.rows() {
        out[i].set_start(inst, i, arith)?;
    }
    Ok(())
}
