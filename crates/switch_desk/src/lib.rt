//! A board behind the counted gate: each session is one call on it, by whichever thread.
//!
//! **Model.** A [`Desk`] is a gate of `switch_gate` round a board of `two_phase`. A [`Pass`] is the right to use it: of it are known
//! its parts of the desk, `seen`, the number that the board had when the pass saw it last, and `mine`, the numbers of the entries
//! that its sessions brought into the log. Of the board are known its instance, its budget and the width of its arithmetic alone,
//! which no session changes (`lineage_of`).
//!
//! **Contract.** Each call takes the pass by value and hands it back beside the board's answer (`IsSession`). The answer is exact
//! for the number t that the pass has seen then: a ticket or a snapshot is of the run's state of number t, later entries
//! lead there, a standing or a refusal is that of the state (`specs/Answers.antt`). An entry alone adds to `mine`, and its
//! number is the choice's (`added`). At [`Desk::close`] each number below the board's stands in `mine` once: whatever the
//! threads did, the log is the run, and each entry was brought by one session.
//!
//! **Limits.** A call may wait for its turn, and no contract says that it returns.
//!
//! It stands on `two_phase` for the board and on `switch_gate` for the gate.
#![tactic(auto)]

mod desk;
mod glimpse;
mod lineage;
mod locked;

pub use desk::{Desk, Pass};
pub use glimpse::Glimpse;
pub use lineage::Lineage;
pub use locked::Locked;
