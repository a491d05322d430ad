//! What a seat knows of its round, and what a round is told when it is made.

use bland_ratio::Ticket;
use instance_model::Instance;
use std::collections::LinkedList;
use std::snapshot::Snapshot;

/// What a round is about: how many seats it has, the width of their arithmetic, the instance and the ticket.
#[derive(Drop)]
pub struct Plan {
    pub seats: u32,
    pub width: u32,
    pub inst: Snapshot<Instance>,
    pub ticket: Snapshot<Ticket>,
}

/// What a seat knows. No value of it is made.
pub struct View {
    /// How many of the round's seats it stands for.
    pub parts: u64,
    /// How many of its claims found no chunk left.
    pub nones: u64,
    /// The chunks that it claimed and has not offered.
    pub held: LinkedList<u64>,
    /// The chunks that it offered.
    pub done: LinkedList<u64>,
    /// The least code that it has seen or offered.
    pub seen: u64,
    /// What its round is about.
    pub plan: Option<Plan>,
}
