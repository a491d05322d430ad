//! The outcome of a linear program.
use exact_frac::{Frac, Fracs};

/// What solving a deck comes to, with the lists that prove it. A list over the deck's columns, and one over its rows, has
/// a number for each of them, in the deck's order.
#[derive(Debug, Drop)]
pub enum Outcome {
    /// A point over the columns, a price for each row, and the objective at the point, which no feasible point goes below.
    Optimal { x: Fracs, y: Fracs, objective: Frac },
    /// A number for each row: the rows so weighed give an inequality that no point within the bounds meets.
    Infeasible { y: Fracs },
    /// A feasible point over the columns, and a ray from it on which all points are feasible and the objective falls
    /// without end.
    Unbounded { x: Fracs, ray: Fracs },
}
