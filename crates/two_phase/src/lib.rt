//! The board of a run over factors of its bases, which are made anew, or give way to the plain table, where a value does not fit.
//!
//! **Model.** A [`Board`] is a run with the budget of its moves, its arithmetic and its log. It stands on a [`Ground`]: an
//! [`Iterate`], a state of the run with factors of its basis, its basic values and, where they are worked, its prices
//! (`IsIterate`), or, once its factors are given up, a [`Fallback`]: an iterate whose factors are made anew of the basis where a
//! value does not fit, or a plain table ([`Mode`]). `BoardStands` in `specs/Board.antt` holds between any two calls: the log is
//! the first entries of the run within the budget, the ground is of the state that it reaches, and the [`Standing`] is that
//! state's. `HasFactors` says what the factors are: of the state's basis, with at most 64 updates since a number not above
//! the board's; `AreBuilt` that they are the ones built along the log.
//!
//! **Contract.** [`Board::new`] makes the board of the start, with factors of its basis, for which no value is worked; it is
//! refused for a basic value that does not fit (`IsStartCause`). [`Board::ticket`] asks for a choice at its state, with its
//! prices or its reduced costs, and is exact for it; [`Board::record`] takes in what follows from an exact choice
//! (`Records`): the next entry, or the end; a swap after 64 updates makes the factors anew (`FollowsEntry`).
//! [`Board::close`] gives the outcome of a run that has ended, with the log. Factors are given up for a cause alone
//! (`HasGivenUp`, `Cause` of `factor_run`) or at an unfit choice. The run then goes on over its basis factored anew, and where
//! a value does not fit so either, over a plain table made along the log; which of them no clause tells, and none of them has
//! another answer.
//! Each refusal has its cause (`IsTicketCause`, `IsRecordCause`, `IsClosingCause`): an overflow has the place of the first
//! value of the run that does not fit, or at the close of the first sum, and the count of unfit results has risen.
//! [`Ground::ticket`] and [`Ground::record`] are the same for a log that the caller keeps, and [`Iterate::advance`] is a
//! step over factors alone (`Reaches`).
//!
//! **Work.** Of m rows, a step over factors works at most 2m² + 5m products and quotients, twice the entries of the
//! factors' operations, and m² for an update, or m³ where the factors are made anew.
//!
//! It stands on `basis_solves` for the factors of a state's basis and what is solved with them, on `factor_run` for what they
//! are along a run, on `bland_ratio` for pricing and the ratio test, on `plain_table`, and on `run_outcome` for outcomes.
#![tactic(auto)]

mod anew;
mod asking;
mod board;
mod costs;
mod decision;
mod draft;
mod fallback;
mod ground;
mod iterate;
mod plain;
mod reached;
mod shown;
mod standing;
mod switch;
mod tickets;

pub use board::{Board, CloseFault, Closed, NewFault};
pub use draft::{Draft, DraftParts, Snapshot};
pub use fallback::Fallback;
pub use ground::Ground;
pub use iterate::Iterate;
pub use reached::Reached;
pub use standing::{BoardFault, Course, Mode, Recorded, Standing};
pub use switch::SwapFault;
pub use tickets::{costs_ticket, prices_ticket};
