//! What a step of a run comes to.

use lp_model::Entry;
use run_outcome::Stop;

/// What a step of a run comes to.
#[derive(Clone, Copy, Debug)]
pub enum Reached {
    /// The entry is in the log.
    Entry(Entry),
    /// The run has ended.
    End(Stop),
    /// The budget has no move left for the next entry, which is one.
    Spent,
}
