//! The rows that a pivot changes: each is less its multiple of the pivot's row.

ghost use Rattle.std.specs.Prelude.{◌≡◌, ◌≢◌, ◌+◌, ◌*◌, ◌<◌, ◌≤◌, ℕ, [], true, None, Some, OnOk, IfOk, IfErr, IfSome, length, replicate};
ghost use Rattle.std.specs.List.{All};
ghost use Rattle.rational.specs.Rational.{zero_ℚ};
ghost use Rattle.rational.specs.Worked.{settle};
ghost use Rattle.sparse_cols.specs.Work.{value_in};
ghost use Rattle.exact_frac.specs.Count.{unfit_after};
ghost use Rattle.factor_model.specs.Update.{AreApart};
ghost use Rattle.cross_links.specs.Cells.{cell, HasNoZero};
ghost use Rattle.cross_links.specs.Matrix.{IsLink, IsMatrix, Has, col_of, is_active, row_of};
ghost use Rattle.markowitz_lu.specs.Fault.{count_after};
ghost use Rattle.markowitz_lu.specs.Inner.Lines as lines;
ghost use Rattle.markowitz_lu.specs.Inner.Lines.{less_lines};
ghost use Rattle.markowitz_lu.specs.Inner.Links.{IsAlike, IsLinkAt, IsPut};
ghost use Rattle.markowitz_lu.specs.Inner.Stops.{Stops};

use crate::fault::LuFault;
use crate::lines::index_row;
use cross_links::Cross;
use exact_frac::{Arith, Frac};
use no_memory::Memory;
use sparse_cols::{SparseCol, Work};
use sparse_steps::less_product;
use std::alloc::Global;

// The value at a link; 0 where there is none.
#[tactic(auto, using(exact_frac::specs::Constants::constants))]
fn value(cross: &Cross, link: Option<u32>) -> Frac
    requires matrix { IsMatrix cross.now }
    requires link { IfSome link (IsLink cross.now) }
    ensures { (i p : ℕ) → IsLinkAt cross.now i p link → result ≡ cell cross.now i p }
{
    match link {
        Some(link) => cross.entry(link).2,
        None => Frac::ZERO,
    }
}

// Gives the entry at a link a value, or takes it out where that is 0.
fn replace(cross: &mut Cross, link: u32, x: Frac)
    requires matrix { IsMatrix cross.old }
    requires no_zero { HasNoZero cross.old }
    requires link { IsLink cross.old link }
    ensures { IsPut cross.old (row_of cross.old link) (col_of cross.old link) x cross.new }
{
    if x.is_zero() {
        cross.cancel(link);
    } else {
        cross.set(link, x);
    }
}

// Puts in an entry where there is none, unless it is 0.
fn fill(cross: &mut Cross, i: usize, p: usize, x: Frac) -> Result<(), Memory>
    requires matrix { IsMatrix cross.old }
    requires no_zero { HasNoZero cross.old }
    requires row { i < cross.old.size }
    requires col { p < cross.old.size }
    requires active_row { is_active cross.old.active_rows i ≡ true }
    requires active_col { is_active cross.old.active_cols p ≡ true }
    requires absent { ¬ Has cross.old i p }
    ensures { OnOk result (IsPut cross.old i p x cross.new) }
{
    if x.is_zero() {
        return Ok(());
    }
    cross.fill(i, p, x)?;
    Ok(())
}

// Puts a value in row `i` and position `p`, where the entry at the link stands, if there is one.
fn put(cross: &mut Cross, link: Option<u32>, i: usize, p: usize, x: Frac) -> Result<(), Memory>
    requires matrix { IsMatrix cross.old }
    requires no_zero { HasNoZero cross.old }
    requires row { i < cross.old.size }
    requires col { p < cross.old.size }
    requires active_row { is_active cross.old.active_rows i ≡ true }
    requires active_col { is_active cross.old.active_cols p ≡ true }
    requires link { IsLinkAt cross.old i p link }
    ensures { OnOk result (IsPut cross.old i p x cross.new) }
{
    match link {
        Some(link) => {
            replace(cross, link, x);
            Ok(())
        }
        None => fill(cross, i, p, x),
    }
}

// Row `i` less `k` times the pivot's row.
fn less_line<A: Arith>(
    cross: &mut Cross,
    i: usize,
    k: Frac,
    row: &[(usize, Frac)],
    index: &Work<u32>,
    arith: &mut A,
) -> Result<(), LuFault>
    requires matrix { IsMatrix cross.old }
    requires no_zero { HasNoZero cross.old }
    requires within { i < cross.old.size }
    requires active { is_active cross.old.active_rows i ≡ true }
    requires apart { AreApart cross.old.size row.now }
    requires active_cols { All (λ pair. is_active cross.old.active_cols pair.0 ≡ true) row.now }
    requires len { length index.now ≡ cross.old.size }
    requires links { (p : ℕ) → IsLinkAt cross.old i p (value_in index.now p) }
    ensures settled { OnOk result (settle (A.width arith.old) (lines.less_line i k (cell cross.old) row.now) ≡ Some (cell cross.new)) }
    ensures fault { IfErr result (Stops (A.width arith.old) (lines.less_line i k (cell cross.old) row.now)) }
    ensures alike { OnOk result (IsAlike cross.old cross.new) }
    ensures matrix { OnOk result (IsMatrix cross.new) }
    ensures no_zero { OnOk result (HasNoZero cross.new) }
    ensures width { A.width arith.new ≡ A.width arith.old }
    ensures unfit { A.unfit_count arith.new ≡ count_after (A.unfit_count arith.old) result }
    ensures work { A.work_count arith.new ≤ A.work_count arith.old + length row.now }
{
    for (p, u) in row {
        let link = index.at(*p);
        let old = value(cross, link);
        let x = less_product(old, k, *u, arith)?;
        put(cross, link, i, *p, x)?;
    }
    Ok(())
}

/// Each row with an entry in the pivot's column less its multiple of the pivot's row. Answers the multipliers.
pub(crate) fn eliminate<A: Arith>(
    alloc: Global,
    m: usize,
    cross: &mut Cross,
    pivot: Frac,
    row: &[(usize, Frac)],
    column: &[(usize, Frac)],
    index: &mut Work<u32>,
    arith: &mut A,
) -> Result<SparseCol<Frac>, LuFault>
    requires matrix { IsMatrix cross.old }
    requires no_zero { HasNoZero cross.old }
    requires size { cross.old.size ≡ m }
    requires pivot { pivot ≢ zero_ℚ }
    requires row { AreApart m row.now }
    requires active_cols { All (λ pair. is_active cross.old.active_cols pair.0 ≡ true) row.now }
    requires column { AreApart m column.now }
    requires active_rows { All (λ pair. is_active cross.old.active_rows pair.0 ≡ true) column.now }
    requires index { index.old ≡ replicate m None }
    ensures settled { IfOk result (λ multipliers. settle (A.width arith.old) (less_lines pivot row.now (cell cross.old) [] column.now)
        ≡ Some (cell cross.new, multipliers.pairs)) }
    ensures fault { IfErr result (Stops (A.width arith.old) (less_lines pivot row.now (cell cross.old) [] column.now)) }
    ensures len { IfOk result (λ multipliers. multipliers.length ≡ m) }
    ensures alike { OnOk result (IsAlike cross.old cross.new) }
    ensures matrix { OnOk result (IsMatrix cross.new) }
    ensures no_zero { OnOk result (HasNoZero cross.new) }
    ensures index { OnOk result (index.new ≡ replicate m None) }
    ensures width { A.width arith.new ≡ A.width arith.old }
    ensures unfit { A.unfit_count arith.new ≡ count_after (A.unfit_count arith.old) result }
    ensures work { A.work_count arith.new ≤ A.work_count arith.old + length column.now * (1 + length row.now) }
{
    let mut multipliers = SparseCol::empty(alloc, m);
    for (i, entry) in column {
        let k = arith.div(*entry, pivot)?;
        multipliers.insert(*i, k)?;
        index_row(cross, *i, index);
        less_line(cross, *i, k, row, index, arith)?;
        index.clear();
    }
    Ok(multipliers)
}
