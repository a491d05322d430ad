//! The run of the bounded two-phase simplex method by Bland's rule, as definitions (Bland 1977).
//!
//! They say how an answer is reached and are needed to believe a log, a budget or a place of
//! overflow; that an answer is right is said in `lp_model` alone.
//!
//! - `Instance`: the equations that the method works on, of m rows and N = n + 2m columns.
//! - `State`, `Solution`: a basis with its statuses, and the values, prices and columns that it has,
//!   each stated by its equations.
//! - `Step`, `Run`, `Ends`: the next entry, the run, and the outcome that its end gives.
//! - `Listing`: the values that the plain table works, in order, each with its place.
//! - `Tableau`: inner, the plain table as its laws need it.
//!
//! Proved of them: every state of a run has a table, so it is regular; there is one run; a pivot
//! keeps the table; the start of each instance has one.
//!
//! The crate declares one plain enum and has no other code. It stands on `rational` and `lp_model`.
#![tactic(auto)]

/// Which column of an instance a number names: a structural by its index, a logical or an artificial by its row.
#[derive(Clone, Copy, Debug, PartialEq, Eq)]
pub enum ColumnKind {
    Structural(usize),
    Logical(usize),
    Artificial(usize),
}
