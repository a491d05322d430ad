//! One order of the positions 0 to m − 1, in which a position comes to the end in constant time.
//!
//! A triangular form is kept in an order of its positions. An update takes one position out of the middle and
//! puts it behind all others; no other position changes its place among the rest.
//!
//! **Model.** [`OrderChain`] is seen as the list of its positions in order. Each stands in it once
//! (`IsWhole` in `specs/Order.antt`).
//!
//! **Contract.** `move_to_end` leaves the list without the position, and the position behind it. `first`, `last`,
//! `before` and `after` read the list. Only `new` takes memory.
//!
//! It stands on `chain_links`: the order is a ring through one node of its own, behind the positions' nodes.
//! The links are counted there. This crate promises nothing on their number, so each call makes a counter of
//! its own.

#![tactic(auto)]

ghost use Rattle.std.specs.Prelude.{◌≡◌, ◌+◌, ◌<◌, length, IfOk, IfSome, reverse, slice_get};
ghost use Rattle.std.specs.List.{range_with_len};
ghost use Rattle.chain_links.specs.Lists.{after, before};
ghost use Rattle.chain_links.specs.Links.{prev_of, with_node_before};
ghost use Rattle.order_chain.specs.Order.{IsWhole, order_with_last, position_of};

use chain_links::Links;
pub use no_memory::Memory;
use std::alloc::Global;
use std::marker::{Brand, Model};
use std::sync::ledger::{Blank, Ledger};
use step_counter::Steps;

/// The positions 0 to m − 1 in one order.
#[derive(Drop)]
pub struct OrderChain {
    len: usize,
    links: Links,
}

impl Model for OrderChain {
    ghost use Rattle.std.specs.Prelude.{List, ℕ};
    ghost use Rattle.order_chain.specs.Order.{order_of, IsOrdered};

    ghost Value = { List ℕ };

    ghost view = { λ a. order_of a.links a.len };

    ghost invariant = { λ a. IsOrdered a.links a.len };
}

impl OrderChain {
    /// The positions from 0 to `m` − 1, in this order.
    pub fn new(alloc: Global, m: usize) -> Result<OrderChain, Memory>
        ensures order { IfOk result (λ order. order ≡ range_with_len 0 m) }
        ensures len { IfOk result (λ order. length order ≡ m) }
    {
        Self::new_counted::<Brand>(alloc, m, Blank::new(1))
    }

    // `new`, with a counter on the ledger of `blank`.
    fn new_counted<L: Ledger>(alloc: Global, m: usize, blank: Blank) -> Result<OrderChain, Memory>
        requires name { blank.name ≡ L.name }
        requires parts { blank.parts ≡ L.parts }
        requires some { 0 < blank.parts }
        ensures order { IfOk result (λ order. order ≡ range_with_len 0 m) }
        ensures len { IfOk result (λ order. length order ≡ m) }
    {
        let nodes = m.checked_add(1).ok_or(Memory)?;
        let mut links = Links::loops(alloc, nodes)?;
        let mut steps = Steps::<L>::new(blank);
        for p in 0..m {
            append(&mut links, p, m, &mut steps);
        }
        Ok(OrderChain { len: m, links })
    }

    /// The first position.
    pub fn first(&self) -> Option<usize>
        ensures first { result ≡ slice_get self.now 0 }
        ensures position { IfSome result (λ q. q < length self.now) }
        ensures whole { IsWhole self.now }
    {
        position(self.links.next(self.len), self.len)
    }

    /// The last position.
    pub fn last(&self) -> Option<usize>
        ensures last { result ≡ slice_get (reverse self.now) 0 }
        ensures position { IfSome result (λ q. q < length self.now) }
        ensures whole { IsWhole self.now }
    {
        position(self.links.prev(self.len), self.len)
    }

    /// The position before `p`.
    pub fn before(&self, p: usize) -> Option<usize>
        requires { p < length self.now }
        ensures before { result ≡ before p self.now }
        ensures position { IfSome result (λ q. q < length self.now) }
        ensures whole { IsWhole self.now }
    {
        position(self.links.prev(p), self.len)
    }

    /// The position behind `p`.
    pub fn after(&self, p: usize) -> Option<usize>
        requires { p < length self.now }
        ensures after { result ≡ after p self.now }
        ensures position { IfSome result (λ q. q < length self.now) }
        ensures whole { IsWhole self.now }
    {
        position(self.links.next(p), self.len)
    }

    /// Puts position `p` behind all others.
    pub fn move_to_end(&mut self, p: usize)
        requires { p < length self.old }
        ensures moved { self.new ≡ order_with_last self.old p }
        ensures len { length self.new ≡ length self.old }
        ensures whole { IsWhole self.new }
    {
        self.move_to_end_counted::<Brand>(p, Blank::new(1));
    }

    // `move_to_end`, with a counter on the ledger of `blank`.
    fn move_to_end_counted<L: Ledger>(&mut self, p: usize, blank: Blank)
        requires name { blank.name ≡ L.name }
        requires parts { blank.parts ≡ L.parts }
        requires some { 0 < blank.parts }
        requires position { p < length self.old }
        ensures moved { self.new ≡ order_with_last self.old p }
        ensures len { length self.new ≡ length self.old }
        ensures whole { IsWhole self.new }
    {
        let mut steps = Steps::<L>::new(blank);
        let before = self.links.prev(p);
        let behind = self.links.next(p);
        self.links.join(before, behind, &mut steps);
        append(&mut self.links, p, self.len, &mut steps);
    }
}

// Puts node `p` before the node `end`.
fn append<L: Ledger>(links: &mut Links, p: usize, end: usize, steps: &mut Steps<L>)
    requires p_next { p < length links.old.next }
    requires p_prev { p < length links.old.prev }
    requires end { end < length links.old.prev }
    requires last { prev_of links.old end < length links.old.next }
    ensures { links.new ≡ with_node_before links.old p end }
{
    let last = links.prev(end);
    links.join(last, p, steps);
    links.join(p, end, steps);
}

// A node, where it is a position.
fn position(node: usize, len: usize) -> Option<usize>
    ensures position { result ≡ position_of node len }
    ensures below { IfSome result (λ p. p < len) }
{
    if node < len { Some(node) } else { None }
}
