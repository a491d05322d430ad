//! The factors of a state's basis: made, solved with, and following a swap.
//!
//! **Model.** The factors are those of `ftran_btran`, and the state is one of a run: m positions, each with a column of the
//! equations. `IsBasis` of `specs/Bases.antt` says of a list that it has the basic columns of a state whose basis is regular.
//! A [`Refusal`] is want of memory or a worked value that does not fit the width of the arithmetic.
//!
//! **Contract.** [`factors_of`] makes the factors of a basis under a number of the log (`FactorsFrom`). [`solve_prices`]
//! gives the prices of a state, and [`solve_column`] a column in terms of its basis, with the spike that an update asks for.
//! [`update`] follows the exchange of one column; [`follow`] follows a swap of a run by an update, or after 64 of them by
//! factors made anew. Each answers what its calculation settles to at the arithmetic's width (`made_anew` and `exchanged` of
//! `factor_run`; `ftran`, `btran` and `updated` of `factor_model`), `Unfit` exactly where one of its worked values does not
//! fit, and then the count of unfit results rises by one. A refused update leaves the factors as they were.
//!
//! **Work.** Of m rows a solve works at most m² + m products and quotients and one for each entry of the operations, an
//! update m², and a making m³ (`specs/Works.antt`).
//!
//! It stands on `ftran_btran` for the factors, on `factor_run` for what they are along a run, on `instance_model` for the
//! columns of the equations, and on `plain_table` for the costs of a basis.
#![tactic(auto)]

mod columns;
mod factoring;
mod refusal;
mod solves;

pub use factoring::{factors_of, follow, update};
pub use refusal::Refusal;
pub use solves::{solve_column, solve_prices};
