// The entries with their links, and the calls that change both directions at once.
ghost use Rattle.std.specs.Prelude.{◌≡◌, ◌<◌, ◌≤◌, ◌+◌, ◌*◌, ◌^◌, ℕ, [], true, None, Some, length, slice_get, replicate, IfOk, IfSome, OnOk, OnErr};
ghost use Rattle.std.specs.List.{Contains};
ghost use Rattle.count_chain.specs.Chains.{list_at};
ghost use Rattle.cross_links.specs.Matrix.{at_link, entry_at, is_active, IsLink, Has, IsGrown, IsFilled, with_value, with_entry, without_entry, retired_row, retired_col, row, col};
ghost use Rattle.cross_links.specs.Sides.{AreFree};
ghost use Rattle.cross_links.specs.Cheap.{is_one, lone_row};
ghost use Rattle.cross_links.specs.Held.{matrix_of, IsHeld};

use crate::side::Side;
use count_chain::CountChain;
use exact_frac::Frac;
use no_memory::Memory;
use std::alloc::Global;
use std::sync::ledger::Ledger;
use step_counter::Steps;

// How many links there can be: more than a matrix of this size has entries.
const MOST_LINKS: usize = 1 << 32;

/// What stands at each link, the free links, and the links by rows and by columns.
#[derive(Drop)]
pub struct Table {
    pub alloc: Global,
    pub size: usize,
    pub entries: Vec<Option<(usize, usize, Frac)>>,
    pub free: CountChain,
    pub rows: Side,
    pub cols: Side,
}

impl Table {
    /// A table of `size` rows and columns with no entry.
    pub fn new<L: Ledger>(alloc: Global, size: usize, steps: &mut Steps<L>) -> Result<Table, Memory>
        requires small { size < 2 ^ 16 }
        ensures empty { IfOk result (λ t. matrix_of t ≡ record {
          size = size;
          entries = [];
          rows = replicate size [];
          cols = replicate size [];
          active_rows = replicate size true;
          active_cols = replicate size true;
        }) }
        ensures held { IfOk result (λ t. IsHeld t) }
    {
        Ok(Table {
            alloc,
            size,
            entries: Vec::new(alloc),
            free: CountChain::new(alloc, 0, 1)?,
            rows: Side::new(alloc, size, 0, steps)?,
            cols: Side::new(alloc, size, 0, steps)?,
        })
    }

    /// What stands at a link.
    pub fn entry(&self, link: usize) -> (usize, usize, Frac)
        requires { IsLink (matrix_of self.now) link }
        ensures { entry_at (matrix_of self.now) link ≡ Some result }
    {
        match self.entries[link] {
            Some(entry) => entry,
            None => unreachable!(),
        }
    }

    /// Changes the value of an entry.
    pub fn set(&mut self, link: usize, v: Frac)
        requires held { IsHeld self.old }
        requires link { IsLink (matrix_of self.old) link }
        ensures set { matrix_of self.new ≡ with_value (matrix_of self.old) link v }
        ensures held { IsHeld self.new }
    {
        let (r, c, _) = self.entry(link);
        self.entries[link] = Some((r, c, v));
    }

    /// Takes an entry out. Its link is free.
    pub fn cancel<L: Ledger>(&mut self, link: usize, steps: &mut Steps<L>)
        requires held { IsHeld self.old }
        requires link { IsLink (matrix_of self.old) link }
        ensures cancelled { matrix_of self.new ≡ without_entry (matrix_of self.old) link }
        ensures held { IsHeld self.new }
    {
        let (r, c, _) = self.entry(link);
        self.rows.unlink(r, link, steps);
        self.cols.unlink(c, link, steps);
        self.entries[link] = None;
        self.free.place(link, 0, steps);
    }

    /// Puts an entry in at a free link, and answers that.
    pub fn fill<L: Ledger>(
        &mut self,
        r: usize,
        c: usize,
        v: Frac,
        steps: &mut Steps<L>,
    ) -> Result<usize, Memory>
        requires held { IsHeld self.old }
        requires row { r < self.old.size }
        requires col { c < self.old.size }
        requires active_row { is_active self.old.rows.active.items r ≡ true }
        requires active_col { is_active self.old.cols.active.items c ≡ true }
        requires absent { ¬ Has (matrix_of self.old) r c }
        ensures ok { IfOk result (λ link. IsFilled (matrix_of self.old) link (r, c, v) (matrix_of self.new)) }
        ensures err { OnErr result (matrix_of self.new ≡ matrix_of self.old) }
        ensures held { IsHeld self.new }
    {
        let link = self.free_link(steps)?;
        self.put(link, r, c, v, steps);
        Ok(link)
    }

    // A free link. Where none is free, more are made.
    fn free_link<L: Ledger>(&mut self, steps: &mut Steps<L>) -> Result<usize, Memory>
        requires held { IsHeld self.old }
        ensures ok { OnOk result (IsGrown (matrix_of self.old) (matrix_of self.new)) }
        ensures free { IfOk result (λ link. Contains (list_at self.new.free 0) link) }
        ensures err { OnErr result (matrix_of self.new ≡ matrix_of self.old) }
        ensures held { IsHeld self.new }
    {
        match self.free.first(0) {
            Some(link) => Ok(link),
            None => self.grow(steps),
        }
    }

    // Puts an entry in at a free link.
    fn put<L: Ledger>(&mut self, link: usize, r: usize, c: usize, v: Frac, steps: &mut Steps<L>)
        requires held { IsHeld self.old }
        requires free { Contains (list_at self.old.free 0) link }
        requires row { r < self.old.size }
        requires col { c < self.old.size }
        requires active_row { is_active self.old.rows.active.items r ≡ true }
        requires active_col { is_active self.old.cols.active.items c ≡ true }
        requires absent { ¬ Has (matrix_of self.old) r c }
        ensures put { matrix_of self.new ≡ with_entry (matrix_of self.old) link (r, c, v) }
        ensures held { IsHeld self.new }
    {
        self.free.unlink(link, steps);
        self.entries[link] = Some((r, c, v));
        self.rows.link(r, link, steps);
        self.cols.link(c, link, steps);
    }

    // Makes as many links again, where none is free, and answers the first of them.
    fn grow<L: Ledger>(&mut self, steps: &mut Steps<L>) -> Result<usize, Memory>
        requires held { IsHeld self.old }
        requires full { list_at self.old.free 0 ≡ [] }
        ensures ok { OnOk result (IsGrown (matrix_of self.old) (matrix_of self.new)) }
        ensures free { IfOk result (λ link. Contains (list_at self.new.free 0) link) }
        ensures err { OnErr result (matrix_of self.new ≡ matrix_of self.old) }
        ensures held { IsHeld self.new }
    {
        let links = self.entries.len();
        let total = twice(links)?;
        let entries = longer(self.alloc, &self.entries, total)?;
        let free = free_from(self.alloc, links, total, steps)?;
        let by_row = self.rows.lines.grown(self.alloc, total)?;
        let by_col = self.cols.lines.grown(self.alloc, total)?;
        self.entries = entries;
        self.free = free;
        self.rows.lines = by_row;
        self.cols.lines = by_col;
        Ok(links)
    }

    /// Removes row `r`, which has no entry.
    pub fn retire_row<L: Ledger>(&mut self, r: usize, steps: &mut Steps<L>)
        requires held { IsHeld self.old }
        requires row { r < self.old.size }
        requires active { is_active self.old.rows.active.items r ≡ true }
        requires empty { row (matrix_of self.old) r ≡ [] }
        ensures removed { matrix_of self.new ≡ retired_row (matrix_of self.old) r }
        ensures held { IsHeld self.new }
    {
        self.rows.retire(r, steps);
    }

    /// Removes column `c`, which has no entry.
    pub fn retire_col<L: Ledger>(&mut self, c: usize, steps: &mut Steps<L>)
        requires held { IsHeld self.old }
        requires col { c < self.old.size }
        requires active { is_active self.old.cols.active.items c ≡ true }
        requires empty { col (matrix_of self.old) c ≡ [] }
        ensures removed { matrix_of self.new ≡ retired_col (matrix_of self.old) c }
        ensures held { IsHeld self.new }
    {
        self.cols.retire(c, steps);
    }

    /// Whether row `r` has one entry.
    pub fn is_single(&self, r: usize) -> bool
        requires held { IsHeld self.now }
        requires row { r < self.now.size }
        ensures { result ≡ is_one (row (matrix_of self.now) r) }
    {
        self.rows.counts[r] == 1
    }

    /// The row of the entry of column `c`, where that has one entry.
    pub fn lone_row(&self, c: usize) -> Option<usize>
        requires held { IsHeld self.now }
        requires col { c < self.now.size }
        ensures lone { result ≡ lone_row (matrix_of self.now) c }
        ensures row { IfSome result (λ r. r < self.now.size) }
    {
        let link = self.cols.lines.first(c)?;
        if self.cols.counts[c] == 1 {
            Some(self.entry(link).0)
        } else {
            None
        }
    }
}

// Twice as many links, and some at first.
fn twice(links: usize) -> Result<usize, Memory>
    ensures more { IfOk result (λ total. links < total) }
    ensures most { IfOk result (λ total. total ≤ 2 ^ 32) }
    ensures few { IfOk result (λ total. total ≤ 2 * links + 1) }
{
    if links >= MOST_LINKS {
        return Err(Memory);
    }
    if links >= MOST_LINKS / 2 {
        return Ok(MOST_LINKS);
    }
    Ok(2 * links + 1)
}

// The entries with free links behind them.
fn longer(
    alloc: Global,
    entries: &[Option<(usize, usize, Frac)>],
    total: usize,
) -> Result<Vec<Option<(usize, usize, Frac)>>, Memory>
    requires more { length entries.now ≤ total }
    ensures len { IfOk result (λ more. length more.items ≡ total) }
    ensures same { IfOk result (λ more. (l : ℕ) → at_link more.items l ≡ at_link entries.now l) }
{
    let mut more = Vec::with_capacity(alloc, total)?;
    for link in 0..entries.len() {
        more.push(entries[link])?;
    }
    for _link in entries.len()..total {
        more.push(None)?;
    }
    Ok(more)
}

// The links from `links` on in one list.
fn free_from<L: Ledger>(
    alloc: Global,
    links: usize,
    total: usize,
    steps: &mut Steps<L>,
) -> Result<CountChain, Memory>
    requires { links < total }
    ensures { IfOk result (λ free. AreFree links total total free) }
{
    let mut free = CountChain::new(alloc, total, 1)?;
    for link in links..total {
        free.place(link, 0, steps);
    }
    Ok(free)
}
