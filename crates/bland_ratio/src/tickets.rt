//! Tickets and choices: what is asked of a round of pricing, and what it answers.

use exact_frac::Fracs;
use instance_model::Statuses;
use lp_model::Phase;

/// What the columns of a state are priced by. A ticket is exact for a state where its phase, its statuses and its
/// prices or reduced costs are those of the state.
#[derive(Debug, Drop)]
pub struct Ticket {
    /// The number of the state: how many entries of the log come before it.
    pub number: u64,
    /// The phase.
    pub phase: Phase,
    /// A status for each of the N columns.
    pub status: Statuses,
    /// The prices or the reduced costs.
    pub pay: Pay,
}

/// The prices of the m rows, or the reduced costs of the N columns.
#[derive(Debug, Drop)]
pub enum Pay {
    /// The price of each row.
    Prices(Fracs),
    /// The reduced cost of each column.
    Costs(Fracs),
}

/// The least stopper of a ticket: a column that may enter, or one whose reduced cost does not fit the width.
#[derive(Clone, Copy, Debug, PartialEq, Eq)]
pub struct Choice {
    /// The ticket's number.
    pub number: u64,
    /// The column, where there is a stopper.
    pub stopper: Option<u32>,
    /// Whether there is a stopper whose reduced cost does not fit.
    pub unfit: bool,
}
