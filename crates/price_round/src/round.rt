//! The round and its seats.
ghost use Rattle.std.specs.Prelude.{◌≡◌, ◌^◌, ◌<◌, ◌≤◌, [], if◌then◌else◌};
ghost use Rattle.lp_run.specs.Instance.{column_count};
ghost use Rattle.bland_ratio.specs.Pricing.{IsTicketOf};
ghost use Rattle.price_round.specs.Inner.{ticket-prop};

use crate::kinds::ChunkRule;
use crate::view::{Plan, View};
use atomic_table::Table;
use bland_ratio::Ticket;
use instance_model::Instance;
use std::alloc::Global;
use std::sync::Arc;
use thiserror::Error;

/// A round of pricing: an instance, a ticket, and which chunks of the columns are given away.
#[derive(Drop)]
pub struct Round {
    pub(crate) table: Table<(), View, Plan, ChunkRule, Global>,
    pub(crate) inst: Arc<Instance>,
    pub(crate) ticket: Ticket,
    ghost words: { table.shared.table_id.words ≡ 2 },
    ghost of_instance: { table.shared.key.inst.value ≡ inst.value },
    ghost of_ticket: { table.shared.key.ticket.value ≡ ticket },
    ghost some_seats: { 1 ≤ table.shared.key.seats },
    ghost few: { column_count table.shared.key.inst.value < 2 ^ 32 },
    ghost priced: { IsTicketOf inst.value ticket } by { ticket-prop inst.value ticket },
}

/// The right to claim chunks of a round, with what its holder knows.
#[derive(Drop)]
pub struct Seat {
    pub(crate) seat: atomic_table::Seat<(), View>,
    pub(crate) over: bool,
    ghost one: { seat.me.0.parts ≡ 1 },
    ghost empty: { seat.me.1 ≡ [] },
    ghost over_is: { seat.me.0.nones ≡ (if over then 1 else 0) },
}

/// Why no round was opened.
#[derive(Debug, Drop, Error)]
pub enum RoundFault {
    /// Want of memory. The ticket comes back.
    #[error("out of memory")]
    Memory(Ticket),
}
