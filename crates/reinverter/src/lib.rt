//! Drafts of a run: factors that are made beside a board, and catch up with it entry by entry.
//!
//! **Model.** A `Draft` of `two_phase` is a state of a run under its number, with factors of the state's basis that were made at
//! its base (`DraftStands`, `IsOfRun`). A [`DraftFault`] is want of memory or a worked value that does not fit the width of the
//! arithmetic.
//!
//! **Contract.** [`begin`] makes the factors of a snapshot's basis: base and number of the draft are the snapshot's.
//! [`replay`] takes in the run's next entry: number and state go on by it, and at a swap the column that enters is solved for
//! and the factors are updated (`replayed` in `specs/Replays.antt`). Each answers what its calculation settles to at the
//! arithmetic's width, `Unfit` exactly where one of its worked values does not fit, and then the count of unfit results rises
//! by one. A refused replay hands the draft back as it was.
//!
//! **Limits.** A draft takes up to 64 swaps. That it ever catches up with its board is not said.
//!
//! It stands on `basis_solves` for the factors, and on `two_phase` for what a draft is and for the board that takes it.
#![tactic(auto)]

mod beginning;
mod replaying;

pub use basis_solves::Refusal as DraftFault;
pub use beginning::begin;
pub use replaying::{ReplayFault, replay};
