//! The solver: a run from its start to its end, and its outcome.
//!
//! **Model.** An instance, its states and its run are those of `lp_run`; a log is a list of entries, an outcome an optimal
//! point with its prices, a Farkas row, or a feasible point with a ray.
//!
//! **Contract.** [`solve_alone`] answers the outcome of the instance's one run, with the log and its moves, within the budget
//! (`HasClosed`); or a fault with its cause (`IsCause`): the place of the first value that the run lists and that does not fit
//! the width of the arithmetic, a run with more moves than the budget, or want of memory. It waits for nobody, and ends by
//! Bland's theorem. On a calm instance (`IsCalm` of `factor_run`), where each value fits that is worked over factors, the count
//! of unfit results stays, only a spent budget or want of memory refuses, and at most `solve_work` products and quotients
//! are worked, less one for each stored entry, which is left to the making of the instance.
//!
//! [`solve`] answers the same with each ticket priced by so many workers, for every number of them and every order of what
//! they do: they are the seats of a round of `price_round`, each in a thread where its columns are worth it, and the round's
//! choice is that of one thread. On a calm instance the count of unfit results stays, and only a spent budget or want of memory
//! refuses. It makes no lock, and ends where its [`Probe`] does, which is called at its [`Spot`]s and may hold the thread that
//! calls it; [`Silent`] does nothing. Nothing is proved of how much it works or how many threads it makes.
//!
//! It stands on `two_phase` for the board, whose rounds it makes, on `bland_ratio` and `price_round` for choices, on `bland_laws`
//! for the end of runs, and on `instance_model` and `exact_frac`. Its tests are the program's cases and `tests_round`.
#![tactic(auto)]

mod driving;
mod faults;
mod pricing;
mod probe;
mod solving;

pub use driving::solve;
pub use faults::CrewFault;
pub use probe::{Probe, Silent, Spot};
pub use solving::solve_alone;
pub use two_phase::Closed;
