//! Instances in memory: the equations that the method works on, and the states of a run.
//!
//! **Model.** An [`Instance`] is seen as `lp_run`'s record `Instance`: the right sides, the structurals, the bounds
//! of the logicals, the ends that ranges give, the end that each row's residual passes, the constant and the sense.
//! Of m rows and n structurals it has N = n + 2m columns: the structurals 0 to n - 1 in the deck's order, the logicals
//! n to n + m - 1, and the artificials n + m to N - 1. A [`State`] is seen as `lp_run`'s record `State`, [`Statuses`] as the
//! list of them, and [`Bounds`] as an `Interval`. Every instance is well formed (`IsWellFormed`), since it is made of a deck.
//!
//! **Contract.** [`Instance::of`] makes the instance of a deck (`instance_of`). It works the start sums row by row
//! (`start_listing`): what the structurals at their start take from the right side, how far the rest passes an end of the
//! logical's bounds, and the end that the range gives. Where one of them does not fit the width of the arithmetic, it
//! answers the place of the first, and the count of unfit results rises by one. `bounds`, `cost` and `entries` are those
//! of the definitions, in each phase. [`Instance::start`] is the start of the method (`start_of`), and [`State::after`]
//! takes in an entry (`after`) without memory. [`rest_of`] is the value at which a column rests in a state (`rest`).
//! [`basis_of`] is the basis that a state tells (`specs/Basis.antt`). Each call that takes memory answers [`Memory`] for
//! want of it.
//!
//! **Method.** A structural that starts at 0 takes nothing from any right side, so the making lists the others once, and
//! looks up their entry in each row by binary search: a look-up for each row and each structural that does not start at 0.
//!
//! It stands on `lp_run`, `deck_model`, `sparse_cols`, `sparse_steps` and `exact_frac`.
#![tactic(auto)]

mod basis;
mod bounds;
mod instance;
mod making;
mod resting;
mod start;
mod start_sums;
mod state;
mod statuses;

pub use basis::basis_of;
pub use bounds::Bounds;
pub use instance::Instance;
pub use making::InstanceFault;
pub use no_memory::Memory;
pub use resting::rest_of;
pub use state::State;
pub use statuses::Statuses;
