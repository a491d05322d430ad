// The search for the entry of least cost, by the buckets.
ghost use Rattle.std.specs.Prelude.{◌≡◌, ◌<◌, ◌≤◌, ℕ, IsSome, IsTrue, length};
ghost use Rattle.std.specs.List.{Contains};
ghost use Rattle.cross_links.specs.Matrix.{row, col, row_of, col_of, cost_of, IsLink, IsNotWorse};
ghost use Rattle.cross_links.specs.Sides.{IsLinkIfSome, Covers};
ghost use Rattle.cross_links.specs.Cheap.{IsCheap};
ghost use Rattle.cross_links.specs.Held.{matrix_of, IsHeld};

use crate::cheap::Cheap;
use crate::table::Table;

/// The entry of least cost, then least row, then least column.
pub fn best(table: &Table, cheap: &Cheap) -> Option<usize>
    requires held { IsHeld table.now }
    requires cheap { IsCheap (matrix_of table.now) cheap.now }
    ensures link { IsLinkIfSome (matrix_of table.now) result }
    ensures covers { (k : ℕ) → IsLink (matrix_of table.now) k → Covers (matrix_of table.now) result k }
{
    match first_cheap(table, cheap) {
        Some(link) => Some(link),
        None => best_by_count(table),
    }
}

// The first entry of cost 0.
fn first_cheap(table: &Table, cheap: &Cheap) -> Option<usize>
    requires held { IsHeld table.now }
    requires cheap { IsCheap (matrix_of table.now) cheap.now }
    ensures link { IsLinkIfSome (matrix_of table.now) result }
    ensures covers { IsSome result → (k : ℕ) → IsLink (matrix_of table.now) k → Covers (matrix_of table.now) result k }
{
    let r = cheap.first_row()?;
    if table.is_single(r) {
        return table.rows.lines.first(r);
    }
    let c = cheap.least_col(r)?;
    table.cols.lines.first(c)
}

// The entry of least cost, then least row, then least column, by the buckets.
//
// Lines of few entries come first. The search ends once an entry costs less than any in lines of more entries.
fn best_by_count(table: &Table) -> Option<usize>
    requires held { IsHeld table.now }
    ensures link { IsLinkIfSome (matrix_of table.now) result }
    ensures covers { (k : ℕ) → IsLink (matrix_of table.now) k → Covers (matrix_of table.now) result k }
{
    let mut best = None;
    for count in 1..table.size + 1 {
        best = best_of_rows(table, best, count);
        best = best_of_cols(table, best, count);
        if is_settled(table, best, count) {
            return best;
        }
    }
    best
}

// Whether the entry that was found costs less than any in a row and a column of more than `count` entries.
fn is_settled(table: &Table, best: Option<usize>, count: usize) -> bool
    requires held { IsHeld table.now }
    requires link { IsLinkIfSome (matrix_of table.now) best }
    requires count { count ≤ table.now.size }
    ensures { IsTrue result → (k : ℕ) → count < length (row (matrix_of table.now) (row_of (matrix_of table.now) k))
        → count < length (col (matrix_of table.now) (col_of (matrix_of table.now) k)) → Covers (matrix_of table.now) best k }
{
    match best {
        Some(link) => cost(table, link) < count * count,
        None => false,
    }
}

// The best of the entry that was found and of those in rows of `count` entries.
fn best_of_rows(table: &Table, mut best: Option<usize>, count: usize) -> Option<usize>
    requires held { IsHeld table.now }
    requires link { IsLinkIfSome (matrix_of table.now) best }
    requires count { count ≤ table.now.size }
    ensures link { IsLinkIfSome (matrix_of table.now) result }
    ensures covers { (k : ℕ) → IsLink (matrix_of table.now) k → length (row (matrix_of table.now) (row_of (matrix_of table.now) k)) ≡ count → Covers (matrix_of table.now) result k }
    ensures kept { (k : ℕ) → Covers (matrix_of table.now) best k → Covers (matrix_of table.now) result k }
{
    let mut next = table.rows.buckets.first(count);
    'bucket: while let Some(r) = next {
        best = best_in_row(table, best, r);
        next = table.rows.buckets.next(r);
    }
    best
}

// The best of the entry that was found and of those in columns of `count` entries.
fn best_of_cols(table: &Table, mut best: Option<usize>, count: usize) -> Option<usize>
    requires held { IsHeld table.now }
    requires link { IsLinkIfSome (matrix_of table.now) best }
    requires count { count ≤ table.now.size }
    ensures link { IsLinkIfSome (matrix_of table.now) result }
    ensures covers { (k : ℕ) → IsLink (matrix_of table.now) k → length (col (matrix_of table.now) (col_of (matrix_of table.now) k)) ≡ count → Covers (matrix_of table.now) result k }
    ensures kept { (k : ℕ) → Covers (matrix_of table.now) best k → Covers (matrix_of table.now) result k }
{
    let mut next = table.cols.buckets.first(count);
    'bucket: while let Some(c) = next {
        best = best_in_col(table, best, c);
        next = table.cols.buckets.next(c);
    }
    best
}

// The best of the entry that was found and of those in row `r`.
fn best_in_row(table: &Table, mut best: Option<usize>, r: usize) -> Option<usize>
    requires held { IsHeld table.now }
    requires link { IsLinkIfSome (matrix_of table.now) best }
    requires row { r < table.now.size }
    ensures link { IsLinkIfSome (matrix_of table.now) result }
    ensures covers { (k : ℕ) → Contains (row (matrix_of table.now) r) k → Covers (matrix_of table.now) result k }
    ensures kept { (k : ℕ) → Covers (matrix_of table.now) best k → Covers (matrix_of table.now) result k }
{
    let mut next = table.rows.lines.first(r);
    'entries: while let Some(link) = next {
        best = better(table, best, link);
        next = table.rows.lines.next(link);
    }
    best
}

// The best of the entry that was found and of those in column `c`.
fn best_in_col(table: &Table, mut best: Option<usize>, c: usize) -> Option<usize>
    requires held { IsHeld table.now }
    requires link { IsLinkIfSome (matrix_of table.now) best }
    requires col { c < table.now.size }
    ensures link { IsLinkIfSome (matrix_of table.now) result }
    ensures covers { (k : ℕ) → Contains (col (matrix_of table.now) c) k → Covers (matrix_of table.now) result k }
    ensures kept { (k : ℕ) → Covers (matrix_of table.now) best k → Covers (matrix_of table.now) result k }
{
    let mut next = table.cols.lines.first(c);
    'entries: while let Some(link) = next {
        best = better(table, best, link);
        next = table.cols.lines.next(link);
    }
    best
}

// The better of the entry that was found and that at `link`.
fn better(table: &Table, best: Option<usize>, link: usize) -> Option<usize>
    requires held { IsHeld table.now }
    requires best { IsLinkIfSome (matrix_of table.now) best }
    requires link { IsLink (matrix_of table.now) link }
    ensures link { IsLinkIfSome (matrix_of table.now) result }
    ensures covers { Covers (matrix_of table.now) result link }
    ensures kept { (k : ℕ) → Covers (matrix_of table.now) best k → Covers (matrix_of table.now) result k }
{
    match best {
        Some(found) => Some(better_of(table, found, link)),
        None => Some(link),
    }
}

// The better of two entries.
fn better_of(table: &Table, p: usize, q: usize) -> usize
    requires held { IsHeld table.now }
    requires has { IsLink (matrix_of table.now) p }
    requires has_other { IsLink (matrix_of table.now) q }
    ensures has { IsLink (matrix_of table.now) result }
    ensures first { (k : ℕ) → IsNotWorse (matrix_of table.now) p k → IsNotWorse (matrix_of table.now) result k }
    ensures second { (k : ℕ) → IsNotWorse (matrix_of table.now) q k → IsNotWorse (matrix_of table.now) result k }
{
    let (cost_of_p, cost_of_q) = (cost(table, p), cost(table, q));
    if cost_of_p < cost_of_q {
        return p;
    }
    if cost_of_q < cost_of_p {
        return q;
    }
    let (r, c, _) = table.entry(p);
    let (s, d, _) = table.entry(q);
    if r < s || (r == s && c <= d) { p } else { q }
}

// How many fills the entry makes at most as pivot.
fn cost(table: &Table, link: usize) -> usize
    requires held { IsHeld table.now }
    requires has { IsLink (matrix_of table.now) link }
    ensures { result ≡ cost_of (matrix_of table.now) link }
{
    let (r, c, _) = table.entry(link);
    (table.rows.counts[r] - 1) * (table.cols.counts[c] - 1)
}
