//! Flags of the numbers 0 to n − 1, with the first that is set found in steps of the logarithm of n.
//!
//! Where the least of some rows is wanted again and again, each row has a flag here. Setting or clearing one
//! and finding the first take no memory, and as many steps as the number of rows has binary digits.
//!
//! **Model.** [`FlagTree`] is seen as the list of its flags.
//!
//! **Contract.** `set` changes one flag. `first` answers the first number whose flag is set (`IsFirstSet` in
//! `specs/Flags.antt`), and nothing exactly where none is. Only `new` takes memory. There may be more
//! flags than were asked for.
//!
//! Method: a tournament (D. E. Knuth, The Art of Computer Programming, volume 3, section 5.2.3, tree selection).
//! The flags are the leaves of a binary tree of which each inner node says whether a flag below it is set.
//!
//! It stands on `no_memory` for the refusal for memory.

#![tactic(auto)]

ghost use Rattle.std.specs.Prelude.{◌≡◌, ◌*◌, ◌^◌, ◌<◌, ◌≤◌, ℕ, true, false, length, drop, slice_set, IfOk, IfSome, MatchOption};
ghost use Rattle.flag_tree.specs.Flags.{is_set, IsFirstSet, NoneSet};
ghost use Rattle.flag_tree.specs.Tree.{IsTree, AreJoinedBut};

pub use no_memory::Memory;
use std::alloc::Global;
use std::marker::Model;

/// A flag for each number below a length.
#[derive(Drop)]
pub struct FlagTree {
    height: usize,
    leaves: usize,
    // Node 1 is the root, nodes 2k and 2k + 1 stand below node k, and the flags are the nodes from `leaves` on.
    nodes: Vec<bool>,
}

impl Model for FlagTree {
    ghost use Rattle.std.specs.Prelude.{List, Bool, drop};
    ghost use Rattle.flag_tree.specs.Tree.{IsTree};

    ghost Value = { List Bool };

    ghost view = { λ t. drop t.leaves t.nodes.items };

    ghost invariant = { λ t. IsTree t.height t.leaves t.nodes.items };
}

impl FlagTree {
    /// At least `len` flags, none of which is set.
    pub fn new(alloc: Global, len: usize) -> Result<FlagTree, Memory>
        ensures len { IfOk result (λ flags. len ≤ length flags) }
        ensures none { IfOk result (λ flags. NoneSet flags) }
    {
        let (height, leaves) = leaves_for(len)?;
        let nodes = leaves.checked_mul(2).ok_or(Memory)?;
        Ok(FlagTree {
            height,
            leaves,
            nodes: vec![in alloc; false; nodes]?,
        })
    }

    /// Sets the flag of `i`, or clears it.
    pub fn set(&mut self, i: usize, value: bool)
        requires { i < length self.old }
        ensures { self.new ≡ slice_set self.old i value }
    {
        let leaf = self.leaves + i;
        self.nodes[leaf] = value;
        join_above(&mut self.nodes, self.leaves, leaf / 2);
    }

    /// The first number whose flag is set.
    pub fn first(&self) -> Option<usize>
        ensures first { MatchOption result (NoneSet self.now) (λ i. IsFirstSet self.now i) }
        ensures below { IfSome result (λ i. i < length self.now) }
    {
        if self.nodes[1] {
            Some(leftmost(&self.nodes, self.height) - self.leaves)
        } else {
            None
        }
    }
}

// The height of a tree with leaves for `len` flags, and how many leaves it has.
fn leaves_for(len: usize) -> Result<(usize, usize), Memory>
    ensures { IfOk result (λ size. (size.1 ≡ 2 ^ size.0) × (len ≤ size.1)) }
{
    let mut height = 0;
    let mut leaves: usize = 1;
    'levels: while leaves < len {
        leaves = leaves.checked_mul(2).ok_or(Memory)?;
        height += 1;
    }
    Ok((height, leaves))
}

// Joins node `k` and all above it anew, up to the first that stays.
fn join_above(nodes: &mut Vec<bool>, leaves: usize, mut k: usize)
    requires len { length nodes.old.items ≡ 2 * leaves }
    requires inner { k < leaves }
    requires joined { AreJoinedBut k leaves nodes.old.items }
    ensures joined { AreJoinedBut 0 leaves nodes.new.items }
    ensures len { length nodes.new.items ≡ 2 * leaves }
    ensures flags { drop leaves nodes.new.items ≡ drop leaves nodes.old.items }
{
    'path: while k > 0 {
        let joined = nodes[2 * k] || nodes[2 * k + 1];
        if nodes[k] == joined {
            return;
        }
        nodes[k] = joined;
        k /= 2;
    }
}

// The first leaf that is set.
fn leftmost(nodes: &[bool], height: usize) -> usize
    requires tree { IsTree height (2 ^ height) nodes.now }
    requires some { is_set nodes.now 1 ≡ true }
    ensures leaf { 2 ^ height ≤ result }
    ensures set { is_set nodes.now result ≡ true }
    ensures first { (j : ℕ) → 2 ^ height ≤ j → j < result → is_set nodes.now j ≡ false }
{
    let mut k = 1;
    for level in 0..height {
        k = if nodes[2 * k] { 2 * k } else { 2 * k + 1 };
    }
    k
}
