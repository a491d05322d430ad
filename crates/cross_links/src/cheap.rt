// The entries of cost 0: those that are alone in their row or in their column. The first row with one is at hand.
ghost use Rattle.std.specs.Prelude.{◌≡◌, ◌<◌, ◌≤◌, ◌⊎◌, ℕ, None, Some, [], length, replicate, IfOk, IfSome, MatchOption};
ghost use Rattle.std.specs.List.{Contains};
ghost use Rattle.flag_tree.specs.Flags.{NoneSet};
ghost use Rattle.count_chain.specs.Chains.{list_at, IsPlaced};
ghost use Rattle.cross_links.specs.Cheap.{taken, placed, IsFlagged, IsMarked, IsFirstMarked, IsLeastIn};

use count_chain::CountChain;
use flag_tree::FlagTree;
use no_memory::Memory;
use std::alloc::Global;
use std::sync::ledger::Ledger;
use step_counter::Steps;

/// Which rows have one entry, and for each row the columns whose one entry stands in it.
#[derive(Drop)]
pub struct Cheap {
    pub singles: FlagTree,
    pub lone: CountChain,
    // The rows that have such a column.
    pub holders: FlagTree,
}

impl Cheap {
    /// Of a matrix of `size` rows and columns with no entry.
    pub fn new(alloc: Global, size: usize) -> Result<Cheap, Memory>
        ensures singles_len { IfOk result (λ h. size ≤ length h.singles) }
        ensures singles { IfOk result (λ h. NoneSet h.singles) }
        ensures lone { IfOk result (λ h. h.lone ≡ record { items = size; lists = replicate size [] }) }
        ensures flagged { IfOk result (λ h. IsFlagged h) }
    {
        Ok(Cheap {
            singles: FlagTree::new(alloc, size)?,
            lone: CountChain::new(alloc, size, size)?,
            holders: FlagTree::new(alloc, size)?,
        })
    }

    /// Takes column `c` out of the list of that row.
    pub fn take<L: Ledger>(&mut self, c: usize, row: Option<usize>, steps: &mut Steps<L>)
        requires flagged { IsFlagged self.old }
        requires held { IfSome row (λ r. Contains (list_at self.old.lone r) c) }
        ensures lone { self.new.lone ≡ taken self.old.lone c row }
        ensures singles { self.new.singles ≡ self.old.singles }
        ensures flagged { IsFlagged self.new }
    {
        if let Some(r) = row {
            self.lone.unlink(c, steps);
            let left = self.lone.first(r).is_some();
            self.holders.set(r, left);
        }
    }

    /// Puts column `c` into the list of that row.
    pub fn put<L: Ledger>(&mut self, c: usize, row: Option<usize>, steps: &mut Steps<L>)
        requires flagged { IsFlagged self.old }
        requires column { c < self.old.lone.items }
        requires loose { ¬ IsPlaced self.old.lone c }
        requires row { IfSome row (λ r. r < length self.old.lone.lists) }
        ensures lone { self.new.lone ≡ placed self.old.lone c row }
        ensures singles { self.new.singles ≡ self.old.singles }
        ensures flagged { IsFlagged self.new }
    {
        if let Some(r) = row {
            self.lone.place(c, r, steps);
            self.holders.set(r, true);
        }
    }

    /// The first row with an entry of cost 0.
    pub fn first_row(&self) -> Option<usize>
        ensures { MatchOption result ((r : ℕ) → ¬ IsMarked self.now r) (λ r. IsFirstMarked self.now r) }
    {
        let single = self.singles.first();
        let holder = self.holders.first();
        earlier(single, holder)
    }

    /// The least of the columns whose one entry stands in row `r`.
    pub fn least_col(&self, r: usize) -> Option<usize>
        requires { r < length self.now.lone.lists }
        ensures { MatchOption result (list_at self.now.lone r ≡ []) (λ c. IsLeastIn (list_at self.now.lone r) c) }
    {
        let mut least = self.lone.first(r)?;
        let mut next = self.lone.next(least);
        'columns: while let Some(c) = next {
            least = least.min(c);
            next = self.lone.next(c);
        }
        Some(least)
    }
}

// The lesser of two numbers, where there are two.
fn earlier(p: Option<usize>, q: Option<usize>) -> Option<usize>
    ensures first { (r : ℕ) → result ≡ Some r → (p ≡ Some r) ⊎ (q ≡ Some r) }
    ensures least_of_first { IfSome p (λ i. IfSome result (λ r. r ≤ i)) }
    ensures least_of_second { IfSome q (λ i. IfSome result (λ r. r ≤ i)) }
    ensures none { result ≡ None → (p ≡ None) × (q ≡ None) }
{
    match p {
        Some(i) => match q {
            Some(k) if k < i => q,
            _ => p,
        },
        None => q,
    }
}
