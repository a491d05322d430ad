//! What is glimpsed of a board.

use two_phase::{Mode, Standing};

/// How a board stands, all of it at one moment.
#[derive(Clone, Copy, Debug, PartialEq, Eq)]
pub struct Glimpse {
    /// How it stands.
    pub standing: Standing,
    /// What it works with.
    pub mode: Mode,
    /// How many entries its log has.
    pub number: u64,
    /// The number at which its factors were made, or, where they are given up, the last ones were.
    pub epoch: u64,
    /// How many updates the factors have had, or, where they are given up, the last ones had.
    pub updates: u32,
}
