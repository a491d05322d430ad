//! What a pass knows of its gate, and what a gate is told when it is made.

use std::collections::LinkedList;
use std::snapshot::Snapshot;

/// Where a pass stands. Turns are counted without an end here, and modulo 2^64 in the gate's words.
pub enum Place {
    /// It has no turn.
    Idle,
    /// It has drawn this turn.
    Waits(u64),
    /// Its turn, this one, is served, and the value is still in the slot.
    Called(u64),
    /// Its turn, this one, is served, and the value is out with it.
    Holds(u64),
}

/// What a pass knows. No value of it is made.
pub struct View<L> {
    /// How many of the gate's parts it has.
    pub parts: u64,
    /// The number that the value had when this pass saw it last.
    pub seen: u64,
    /// The numbers that its sessions added.
    pub mine: LinkedList<u64>,
    pub place: Place,
    /// The lineage of the gate's value.
    pub lineage: Option<L>,
}

/// How a gate begins: the parts of its passes, and the value.
#[derive(Drop)]
pub struct Start<T> {
    pub parts: u64,
    pub value: Snapshot<T>,
}
