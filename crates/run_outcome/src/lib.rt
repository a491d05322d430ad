//! The outcome that a final state gives: an optimal point with its prices, a Farkas row, or a feasible point with a ray.
//!
//! **Model.** An [`Ending`] is a final state with what is worked at it: its number, its prices, its basic values, and a
//! column in terms of its basis. A [`Stop`] says how the run ends there (`Stops`).
//!
//! **Contract.** [`outcome`] gives the outcome of the state (`Yields` of `lp_run`). It is refused for want of memory, or
//! at an optimum with the place of the first sum of the objective that does not fit the width of the arithmetic
//! (`IsOutcomeCause`). The count of unfit results rises by one exactly then. Its parts are public, for whoever compares them
//! one by one with what is said of a run: [`point`], [`count_in`] for the prices, [`ray`], and [`objective`], the only one
//! that works numbers.
//!
//! **Work.** At most one product for each structural with a cost (`nonzero_costs` of `bland_ratio`).
//!
//! It stands on `instance_model` for instances and states, on `deck_model` for outcomes, on `sparse_steps` and
//! `exact_frac` for numbers, and on `bland_ratio` for the direction of a column.
#![tactic(auto)]

mod ending;
mod fault;
mod points;
mod stop;
mod total;

pub use ending::{Ending, outcome};
pub use fault::OutcomeFault;
pub use points::{count_in, point, ray};
pub use stop::Stop;
pub use total::objective;
