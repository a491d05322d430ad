//! The linear program, as definitions: what a user of an answer has to believe, and no more.
//!
//! The crate has almost no code: it declares the plain enums that the solver's crates share, and its
//! `specs/` say what a deck is, when a point is feasible and when it is optimal, and which lists prove
//! an answer. The crates above see their values through these definitions, and their contracts cite
//! them.
//!
//! - `Deck`: a linear program with its names and its sense, its feasible points and its optima.
//! - `Certificate`: the three proofs that an answer carries.
//! - `Outcome`, `Basis`, `Log`: the answers, the basis that a run ends with, and the entries of a run.
//! - `Edit`: how a deck is built, call by call.
//!
//! How the method reaches an answer is said in `lp_run`. It stands on `rational`.
#![tactic(auto)]

/// Whether a deck asks for the least or for the greatest objective.
#[derive(Clone, Copy, Debug, PartialEq, Eq)]
pub enum Sense {
    Min,
    Max,
}

/// The kind of a row: its activity is at most, at least or equal to its right side.
#[derive(Clone, Copy, Debug, PartialEq, Eq)]
pub enum RowKind {
    L,
    G,
    E,
}

/// The phase of the simplex method: the first seeks a feasible point, the second an optimum.
#[derive(Clone, Copy, Debug, PartialEq, Eq)]
pub enum Phase {
    One,
    Two,
}

/// An end of a column's bounds.
#[derive(Clone, Copy, Debug, PartialEq, Eq)]
pub enum Side {
    Lower,
    Upper,
}

/// Where a column stands: in the basis, at one of its ends, or at 0 where it has no end.
#[derive(Clone, Copy, Debug, PartialEq, Eq)]
pub enum Status {
    Basic,
    Lower,
    Upper,
    Zero,
}

/// One entry of the log of a run.
#[derive(Clone, Copy, Debug, PartialEq, Eq)]
pub enum Entry {
    /// The column goes to its other end.
    Flip(u32),
    /// The column becomes basic in the position, and the column that was there stands at the end.
    Swap(u32, u32, Side),
    /// Phase one becomes phase two.
    Turn,
}

/// What a value is that does not fit the width of the arithmetic.
#[derive(Clone, Copy, Debug, PartialEq, Eq)]
pub enum Kind {
    Start,
    Entry,
    Value,
    Cost,
    Ratio,
    Total,
}

/// Where in the plain run a value stands: the number of the log's entries before it, its kind, and
/// its row and column where it has them.
#[derive(Clone, Copy, Debug, PartialEq, Eq)]
pub struct Place {
    pub number: u64,
    pub kind: Kind,
    pub row: Option<u32>,
    pub column: Option<u32>,
}
