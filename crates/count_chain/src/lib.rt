//! Chains of counts: the items of each count in a list of their own, with a move from list to list in constant time.
//!
//! Where rows are chosen by the number of their entries, those of each number stand in one list. A row whose
//! number changes is shifted to the end of another list, and no such call looks through a list or takes memory.
//!
//! **Model.** [`CountChain`] is seen as the number of its items and a list of lists, the items of each count in
//! order. An item stands in one list at most, and there once (`IsChained` in `specs/Chains.antt`).
//!
//! **Contract.** `place` appends an item that is in no list, `unlink` takes one out, and `shift` does both. Each
//! says what all lists are afterwards, and sets at most eight links, counted by `steps`: no other way of this
//! crate sets a link than `Links::join`, which counts. `grown` copies the lists into chains for more items.
//!
//! It stands on `chain_links`: each count's list is a ring through a node of its own, behind the items' nodes.
//! An item in no list is linked to itself.
//!
//! Method: lists of rows and of columns with equally many entries, as in Duff, Erisman and Reid, Direct Methods
//! for Sparse Matrices, chapter 10 (the search for a Markowitz pivot).

#![tactic(auto)]

ghost use Rattle.std.specs.Prelude.{◌≡◌, ◌+◌, ◌<◌, ◌≤◌, [], length, ◌↔◌, IfOk, IfSome, IsSome, IsTrue, replicate, slice_get, ℕ};
ghost use Rattle.std.specs.List.{Contains};
ghost use Rattle.chain_links.specs.Lists.{after};
ghost use Rattle.count_chain.specs.Chains.{list_at, IsPlaced, with_item, without_item, with_list, IsChained};

use chain_links::Links;
pub use no_memory::Memory;
use std::alloc::Global;
use std::marker::{Brand, Model};
use std::sync::ledger::{Blank, Ledger};
use step_counter::Steps;

/// Items 0 to n − 1, each in the list of one count or in none.
#[derive(Drop)]
pub struct CountChain {
    items: usize,
    counts: usize,
    links: Links,
}

impl Model for CountChain {
    ghost use Rattle.count_chain.specs.Chains.{Chains, chains_of, IsLinked};

    ghost Value = { Chains };

    ghost view = { λ a. chains_of a.links a.items a.counts };

    ghost invariant = { λ a. IsLinked a.links a.items a.counts };
}

impl CountChain {
    /// Chains for the items below `items` and the counts below `counts`, with nothing placed.
    pub fn new(alloc: Global, items: usize, counts: usize) -> Result<CountChain, Memory>
        ensures { IfOk result (λ chain. chain ≡ record { items = items; lists = replicate counts [] }) }
    {
        let nodes = items.checked_add(counts).ok_or(Memory)?;
        let links = Links::loops(alloc, nodes)?;
        Ok(CountChain {
            items,
            counts,
            links,
        })
    }

    /// The first item of the list of `count`.
    pub fn first(&self, count: usize) -> Option<usize>
        requires { count < length self.now.lists }
        ensures first { result ≡ slice_get (list_at self.now count) 0 }
        ensures item { IfSome result (λ i. i < self.now.items) }
        ensures chained { IsChained self.now }
    {
        let node = self.links.next(self.items + count);
        if node < self.items { Some(node) } else { None }
    }

    /// The item behind item `i` in its list.
    pub fn next(&self, i: usize) -> Option<usize>
        requires { i < self.now.items }
        ensures next { (c : ℕ) → Contains (list_at self.now c) i → result ≡ after i (list_at self.now c) }
        ensures placed { IsSome result → IsPlaced self.now i }
        ensures item { IfSome result (λ behind. behind < self.now.items) }
        ensures chained { IsChained self.now }
    {
        let node = self.links.next(i);
        if node < self.items && node != i {
            Some(node)
        } else {
            None
        }
    }

    /// Whether item `i` is in a list.
    pub fn is_placed(&self, i: usize) -> bool
        requires { i < self.now.items }
        ensures { IsTrue result ↔ IsPlaced self.now i }
    {
        self.links.next(i) != i
    }

    /// Puts item `i`, which is in no list, at the end of the list of `count`.
    pub fn place<L: Ledger>(&mut self, i: usize, count: usize, steps: &mut Steps<L>)
        requires item { i < self.old.items }
        requires count { count < length self.old.lists }
        requires loose { ¬ IsPlaced self.old i }
        ensures placed { self.new ≡ with_item self.old i count }
        ensures chained { IsChained self.new }
        ensures steps { steps.new ≤ steps.old + 4 }
    {
        let end = self.items + count;
        let last = self.links.prev(end);
        self.links.join(last, i, steps);
        self.links.join(i, end, steps);
    }

    /// Takes item `i` out of its list.
    pub fn unlink<L: Ledger>(&mut self, i: usize, steps: &mut Steps<L>)
        requires { IsPlaced self.old i }
        ensures unlinked { self.new ≡ without_item self.old i }
        ensures was_chained { IsChained self.old }
        ensures chained { IsChained self.new }
        ensures steps { steps.new ≤ steps.old + 4 }
    {
        let before = self.links.prev(i);
        let behind = self.links.next(i);
        self.links.join(before, behind, steps);
        self.links.join(i, i, steps);
    }

    /// The same lists with more items: those from the old number on are in no list.
    pub fn grown(&self, alloc: Global, items: usize) -> Result<CountChain, Memory>
        requires { self.now.items ≤ items }
        ensures grown { IfOk result (λ chain. chain ≡ record { items = items; lists = self.now.lists }) }
        ensures chained { IfOk result (λ chain. IsChained chain) }
    {
        self.grown_counted::<Brand>(alloc, items, Blank::new(1))
    }

    // `grown`, with a counter on the ledger of `blank`.
    fn grown_counted<L: Ledger>(
        &self,
        alloc: Global,
        items: usize,
        blank: Blank,
    ) -> Result<CountChain, Memory>
        requires name { blank.name ≡ L.name }
        requires parts { blank.parts ≡ L.parts }
        requires some { 0 < blank.parts }
        requires items { self.now.items ≤ items }
        ensures grown { IfOk result (λ chain. chain ≡ record { items = items; lists = self.now.lists }) }
        ensures chained { IfOk result (λ chain. IsChained chain) }
    {
        let mut steps = Steps::<L>::new(blank);
        let mut chain = CountChain::new(alloc, items, self.counts)?;
        for count in 0..self.counts {
            self.copy_list(&mut chain, count, &mut steps);
        }
        Ok(chain)
    }

    // Puts the items of the list of `count`, none of which `chain` has in a list, into the empty list of `count` there.
    fn copy_list<L: Ledger>(&self, chain: &mut CountChain, count: usize, steps: &mut Steps<L>)
        requires count { count < length self.now.lists }
        requires there { count < length chain.old.lists }
        requires items { self.now.items ≤ chain.old.items }
        requires empty { list_at chain.old count ≡ [] }
        requires loose { (i : ℕ) → Contains (list_at self.now count) i → ¬ IsPlaced chain.old i }
        ensures { chain.new ≡ with_list chain.old count (list_at self.now count) }
    {
        let mut next = self.first(count);
        'items: while let Some(i) = next {
            chain.place(i, count, steps);
            next = self.next(i);
        }
    }

    /// Takes item `i` out of its list and puts it at the end of the list of `count`.
    pub fn shift<L: Ledger>(&mut self, i: usize, count: usize, steps: &mut Steps<L>)
        requires count { count < length self.old.lists }
        requires placed { IsPlaced self.old i }
        ensures shifted { self.new ≡ with_item (without_item self.old i) i count }
        ensures chained { IsChained self.new }
        ensures steps { steps.new ≤ steps.old + 8 }
    {
        self.unlink(i, steps);
        self.place(i, count, steps);
    }
}
