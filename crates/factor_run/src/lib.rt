//! The factors that stand at each state of a run, and which decks are calm: there no value that the factors work, and
//! none of the run's own, is too wide.
//!
//! `specs/Built.antt` gives the factors as a calculation along the log: they are made for the start's basis, follow
//! each exchange by an update, and are made anew where they have had as many updates as they may have. `specs/Calm.antt`
//! says of a width that each value that a solver over these factors works fits it.
//!
//! The crate has no code. It stands on `factor_model` and `lp_run`.
#![tactic(auto)]
