//! The rows and columns of the active part, read into buffers.

ghost use Rattle.std.specs.Prelude.{◌≡◌, ◌<◌, ℕ, None, OnOk, length, replicate};
ghost use Rattle.sparse_cols.specs.Work.{value_in};
ghost use Rattle.cross_links.specs.Matrix.{col_pairs};
ghost use Rattle.markowitz_lu.specs.Inner.Lines.{row_pairs};
ghost use Rattle.markowitz_lu.specs.Inner.Links.{IsLinkAt};

use cross_links::Cross;
use exact_frac::Frac;
use no_memory::Memory;
use sparse_cols::Work;

/// Reads the entries of row `r` into the buffer: the column and the value of each.
pub(crate) fn read_row(
    cross: &Cross,
    r: usize,
    buffer: &mut Vec<(usize, Frac)>,
) -> Result<(), Memory>
    requires { r < cross.now.size }
    ensures { OnOk result (buffer.new.items ≡ row_pairs cross.now r) }
{
    buffer.clear();
    let mut next = cross.row_first(r);
    while let Some(link) = next {
        next = cross.row_next(link);
        let (_, p, value) = cross.entry(link);
        buffer.push((p, value))?;
    }
    Ok(())
}

/// Reads the entries of column `c` into the buffer: the row and the value of each.
pub(crate) fn read_col(
    cross: &Cross,
    c: usize,
    buffer: &mut Vec<(usize, Frac)>,
) -> Result<(), Memory>
    requires { c < cross.now.size }
    ensures { OnOk result (buffer.new.items ≡ col_pairs cross.now c) }
{
    buffer.clear();
    let mut next = cross.col_first(c);
    while let Some(link) = next {
        next = cross.col_next(link);
        let (i, _, value) = cross.entry(link);
        buffer.push((i, value))?;
    }
    Ok(())
}

/// Puts the link of each entry of row `i` at its column.
pub(crate) fn index_row(cross: &Cross, i: usize, index: &mut Work<u32>)
    requires row { i < cross.now.size }
    requires none { index.old ≡ replicate cross.now.size None }
    ensures len { length index.new ≡ cross.now.size }
    ensures links { (p : ℕ) → IsLinkAt cross.now i p (value_in index.new p) }
{
    let mut next = cross.row_first(i);
    while let Some(link) = next {
        next = cross.row_next(link);
        let (_, p, _) = cross.entry(link);
        index.set(p, link);
    }
}
