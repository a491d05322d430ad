//! How a run ends.

/// How a run ends.
#[derive(Clone, Copy, Debug, PartialEq, Eq)]
pub enum Stop {
    /// An optimum: phase two, and no column is eligible.
    Optimal,
    /// No feasible point: phase one, no column is eligible, and some artificial is not 0.
    Infeasible,
    /// The step of the least eligible column has no limit: the column, and whether it falls.
    Free(u32, bool),
}
