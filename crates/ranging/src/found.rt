//! The ranges of a state.
ghost use Rattle.std.specs.Prelude.{◌≡◌, ◌<◌, length};
ghost use Rattle.deck_model.specs.End.{ends_of, lower_end, upper_end};
ghost use Rattle.ranging.specs.Ranges.{cost_range, right_range};

use deck_model::End;
use exact_frac::Frac;
use instance_model::Bounds;
use std::marker::Model;

/// How far each cost and each right side may change: an interval for each structural and one for each row.
#[derive(Debug, Drop)]
pub struct Ranges {
    costs: Vec<Bounds>,
    rights: Vec<Bounds>,
}

impl Model for Ranges {
    ghost use Rattle.ranging.specs.Ranges.{Ranges as Found};

    ghost Value = { Found };

    ghost view = { λ r. record { costs = r.costs.items; rights = r.rights.items } };
}

impl Ranges {
    // The ranges of these intervals.
    pub(crate) fn of(costs: Vec<Bounds>, rights: Vec<Bounds>) -> Ranges
        ensures { result ≡ record { costs = costs.items; rights = rights.items } }
    {
        Ranges { costs, rights }
    }

    // The interval of each structural, and that of each row.
    pub(crate) fn cost_intervals(&self) -> &[Bounds]
        ensures { result.now ≡ self.now.costs }
    {
        &self.costs
    }

    pub(crate) fn right_intervals(&self) -> &[Bounds]
        ensures { result.now ≡ self.now.rights }
    {
        &self.rights
    }

    /// How many structurals have a range of their cost.
    pub fn costs(&self) -> usize
        ensures { result ≡ length self.now.costs }
    {
        self.costs.len()
    }

    /// How many rows have a range of their right side.
    pub fn rights(&self) -> usize
        ensures { result ≡ length self.now.rights }
    {
        self.rights.len()
    }

    /// The least and the greatest change of the cost of a structural.
    pub fn cost(&self, structural: usize) -> (End, End)
        requires { structural < length self.now.costs }
        ensures { result ≡ ends_of (cost_range self.now structural) }
    {
        ends_of(self.costs[structural])
    }

    /// The least and the greatest change of the right side of a row.
    pub fn right(&self, row: usize) -> (End, End)
        requires { row < length self.now.rights }
        ensures { result ≡ ends_of (right_range self.now row) }
    {
        ends_of(self.rights[row])
    }
}

// Both ends of an interval.
fn ends_of(bounds: Bounds) -> (End, End)
    ensures { result ≡ ends_of bounds }
{
    (lower_end(bounds.lower()), upper_end(bounds.upper()))
}

// The lower end that has this number.
fn lower_end(value: Option<Frac>) -> End
    ensures { result ≡ lower_end value }
{
    value.map_or(End::Minus, End::At)
}

// The upper end that has this number.
fn upper_end(value: Option<Frac>) -> End
    ensures { result ≡ upper_end value }
{
    value.map_or(End::Plus, End::At)
}
