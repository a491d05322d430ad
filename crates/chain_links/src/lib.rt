//! Links between numbered nodes, both ways, in two vectors.
//!
//! The chains of counts and the order of positions keep their items in linked lists, so that an item leaves
//! its list or comes to the end of one in constant time. Here are the links that both stand on. A list is a
//! ring: its end is a node of its own, behind which the first item stands and before which the last one.
//! So no link is ever empty, and taking an item out or putting it in has no case for an end.
//!
//! **Model.** [`Links`] is seen as two lists of nodes: for each node the next one and the previous one.
//!
//! **Contract.** [`Links::join`] is the only way to set links. It sets two, one each way, and counts both on
//! the caller's counter. `proofs/Rings.antt` has what the crates above use: where the links lead round closed
//! rings, they still do when an item is taken out, put in or linked to itself, and the rings are then the
//! lists that one expects.
//!
//! Method: doubly linked circular lists with list heads (Knuth, The Art of Computer Programming, volume 1,
//! section 2.2.5).

#![tactic(auto)]

ghost use Rattle.std.specs.Prelude.{◌≡◌, ◌+◌, ◌<◌, IfOk, length};
ghost use Rattle.std.specs.List.{range_with_len};
ghost use Rattle.chain_links.specs.Links.{with_link, loops, next_of, prev_of};

use std::alloc::{AllocError, Global};
use std::marker::Model;
use std::sync::ledger::Ledger;
use step_counter::Steps;

/// For each node the next one and the previous one.
#[derive(Drop)]
pub struct Links {
    next: Vec<usize>,
    prev: Vec<usize>,
}

impl Model for Links {
    ghost use Rattle.std.specs.Prelude.{◌≡◌};
    ghost use Rattle.chain_links.specs.Links.{BothWays};

    ghost Value = { BothWays };

    ghost view = { λ a. record { next = a.next.items; prev = a.prev.items } };
}

impl Links {
    /// The nodes from 0 to `nodes` − 1, each linked to itself.
    pub fn loops(alloc: Global, nodes: usize) -> Result<Links, AllocError>
        ensures { IfOk result (λ links. links ≡ loops nodes) }
    {
        Ok(Links {
            next: in_order(alloc, nodes)?,
            prev: in_order(alloc, nodes)?,
        })
    }

    /// The node behind `node`.
    pub fn next(&self, node: usize) -> usize
        requires { node < length self.now.next }
        ensures { result ≡ next_of self.now node }
    {
        self.next[node]
    }

    /// The node before `node`.
    pub fn prev(&self, node: usize) -> usize
        requires { node < length self.now.prev }
        ensures { result ≡ prev_of self.now node }
    {
        self.prev[node]
    }

    /// Makes `to` the next of `from`, and `from` the previous of `to`: two link writes.
    pub fn join<L: Ledger>(&mut self, from: usize, to: usize, steps: &mut Steps<L>)
        requires from { from < length self.old.next }
        requires to { to < length self.old.prev }
        ensures linked { self.new ≡ with_link self.old from to }
        ensures steps { steps.new ≡ steps.old + 2 }
    {
        self.next[from] = to;
        steps.tick();
        self.prev[to] = from;
        steps.tick();
    }
}

// The nodes in order.
fn in_order(alloc: Global, nodes: usize) -> Result<Vec<usize>, AllocError>
    ensures { IfOk result (λ all. all.items ≡ range_with_len 0 nodes) }
{
    let mut all = Vec::with_capacity(alloc, nodes)?;
    for node in 0..nodes {
        all.push(node)?;
    }
    Ok(all)
}
