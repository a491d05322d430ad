// The rows, or the columns: the links of each, their counts, and the bucket of each count.
ghost use Rattle.std.specs.Prelude.{◌≡◌, ◌<◌, ◌+◌, ◌^◌, ℕ, [], true, false, length, replicate, slice_set, IfOk};
ghost use Rattle.std.specs.List.{Contains};
ghost use Rattle.count_chain.specs.Chains.{list_at, IsPlaced, with_item, without_item};
ghost use Rattle.cross_links.specs.Matrix.{is_active};
ghost use Rattle.cross_links.specs.Sides.{IsKept};

use count_chain::CountChain;
use no_memory::Memory;
use std::alloc::Global;
use std::sync::ledger::Ledger;
use step_counter::Steps;

/// The links of each line of one direction and their number, which lines were not removed, and these in the
/// buckets of their counts.
#[derive(Drop)]
pub struct Side {
    pub lines: CountChain,
    pub counts: Vec<usize>,
    pub active: Vec<bool>,
    pub buckets: CountChain,
}

impl Side {
    /// As many lines as `size` says, each with no entry, for `links` links.
    pub fn new<L: Ledger>(
        alloc: Global,
        size: usize,
        links: usize,
        steps: &mut Steps<L>,
    ) -> Result<Side, Memory>
        ensures lines { IfOk result (λ side. side.lines ≡ record { items = links; lists = replicate size [] }) }
        ensures active { IfOk result (λ side. side.active.items ≡ replicate size true) }
        ensures kept { IfOk result (λ side. IsKept side) }
    {
        let lines = CountChain::new(alloc, links, size)?;
        let counts_below = size.checked_add(1).ok_or(Memory)?;
        let mut buckets = CountChain::new(alloc, size, counts_below)?;
        let mut counts = Vec::new(alloc);
        let mut active = Vec::new(alloc);
        for i in 0..size {
            counts.push(0)?;
            active.push(true)?;
            buckets.place(i, 0, steps);
        }
        Ok(Side {
            lines,
            counts,
            active,
            buckets,
        })
    }

    /// Puts a link, which is in no line, at the end of line `i`.
    pub fn link<L: Ledger>(&mut self, i: usize, link: usize, steps: &mut Steps<L>)
        requires kept { IsKept self.old }
        requires line { i < length self.old.lines.lists }
        requires link { link < self.old.lines.items }
        requires loose { ¬ IsPlaced self.old.lines link }
        requires active { is_active self.old.active.items i ≡ true }
        requires fits { length (list_at self.old.lines i) < length self.old.lines.lists }
        requires small { length self.old.lines.lists < 2 ^ 16 }
        ensures lines { self.new.lines ≡ with_item self.old.lines link i }
        ensures active { self.new.active.items ≡ self.old.active.items }
        ensures kept { IsKept self.new }
    {
        self.lines.place(link, i, steps);
        self.counts[i] += 1;
        self.buckets.shift(i, self.counts[i], steps);
    }

    /// Takes a link out of line `i`.
    pub fn unlink<L: Ledger>(&mut self, i: usize, link: usize, steps: &mut Steps<L>)
        requires kept { IsKept self.old }
        requires held { Contains (list_at self.old.lines i) link }
        requires active { is_active self.old.active.items i ≡ true }
        requires fits { length (list_at self.old.lines i) < length self.old.lines.lists + 1 }
        ensures lines { self.new.lines ≡ without_item self.old.lines link }
        ensures active { self.new.active.items ≡ self.old.active.items }
        ensures kept { IsKept self.new }
    {
        self.lines.unlink(link, steps);
        self.counts[i] -= 1;
        self.buckets.shift(i, self.counts[i], steps);
    }

    /// Takes line `i`, which has no entry left, out of its bucket.
    pub fn retire<L: Ledger>(&mut self, i: usize, steps: &mut Steps<L>)
        requires kept { IsKept self.old }
        requires line { i < length self.old.lines.lists }
        requires active { is_active self.old.active.items i ≡ true }
        requires empty { list_at self.old.lines i ≡ [] }
        ensures lines { self.new.lines ≡ self.old.lines }
        ensures active { self.new.active.items ≡ slice_set self.old.active.items i false }
        ensures kept { IsKept self.new }
    {
        self.active[i] = false;
        self.buckets.unlink(i, steps);
    }
}
