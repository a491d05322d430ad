//! Instances: their parts and their columns.
ghost use Rattle.std.specs.Prelude.{◌≡◌, ◌<◌, ◌≤◌, ◌+◌, ◌*◌};
ghost use Rattle.rational.specs.Sum.{at};
ghost use Rattle.lp_run.specs.Instance.{bounds, column_count, column_kind, cost, passed_side, row_count, sign_past, structural as structural_at, structural_count, IsWellFormed};
ghost use Rattle.instance_model.specs.Parts.{artificial_bounds, artificial_cost, structural_cost};

use crate::bounds::Bounds;
use deck_model::{MAX_COLUMNS, MAX_ROWS};
use exact_frac::Frac;
use lp_model::{Phase, Sense, Side};
use lp_run::ColumnKind;
use no_memory::Memory;
use sparse_cols::SparseCol;
use std::marker::Model;

/// A column of the deck without its name.
#[derive(Drop)]
pub(crate) struct Structural {
    pub(crate) cost: Frac,
    pub(crate) entries: SparseCol<Frac>,
    pub(crate) bounds: Bounds,
}

/// The equations of a deck, of m rows and N = n + 2m columns.
#[derive(Drop)]
pub struct Instance {
    pub(crate) right: Vec<Frac>,
    pub(crate) structurals: Vec<Structural>,
    pub(crate) logicals: Vec<Bounds>,
    pub(crate) range_sums: Vec<Option<Frac>>,
    pub(crate) passed: Vec<Option<Side>>,
    pub(crate) constant: Frac,
    pub(crate) sense: Sense,
}

impl Model for Instance {
    ghost use Rattle.lp_run.specs.Instance.{Instance as Equations};
    ghost use Rattle.instance_model.specs.Parts.{equations_of, IsSound};

    ghost Value = { Equations };

    ghost view = { equations_of };

    ghost invariant = { IsSound };
}

impl Instance {
    /// How many rows there are, m.
    pub fn rows(&self) -> usize
        ensures count { result ≡ row_count self.now }
        ensures few { result ≤ MAX_ROWS }
        ensures well_formed { IsWellFormed self.now }
    {
        self.right.len()
    }

    /// How many structurals there are, n.
    pub fn structurals(&self) -> usize
        ensures count { result ≡ structural_count self.now }
        ensures few { result ≤ MAX_COLUMNS }
    {
        self.structurals.len()
    }

    /// How many columns there are, N = n + 2m.
    pub fn columns(&self) -> usize
        ensures count { result ≡ column_count self.now }
        ensures few { result ≤ MAX_COLUMNS + 2 * MAX_ROWS }
    {
        self.structurals.len() + 2 * self.right.len()
    }

    /// The right side of a row.
    pub fn right(&self, row: usize) -> Frac
        requires { row < row_count self.now }
        ensures { result ≡ at self.now.right row }
    {
        self.right[row]
    }

    /// The constant of the objective.
    pub fn constant(&self) -> Frac
        ensures { result ≡ self.now.constant }
    {
        self.constant
    }

    /// Whether the least or the greatest objective is sought.
    pub fn sense(&self) -> Sense
        ensures { result ≡ self.now.sense }
    {
        self.sense
    }

    /// The end of its logical that the residual of a row passes; its artificial is needed where there is one.
    pub fn passed(&self, row: usize) -> Option<Side>
        requires { row < row_count self.now }
        ensures { result ≡ passed_side self.now row }
    {
        self.passed[row]
    }

    /// The entry of the artificial of a row: the sign of the residual less the end that it passes, and 1 where it passes
    /// none.
    #[tactic(auto, using(exact_frac::specs::Constants::constants))]
    pub fn sign(&self, row: usize) -> Frac
        requires { row < row_count self.now }
        ensures { result ≡ sign_past (passed_side self.now row) }
    {
        match self.passed[row] {
            Some(Side::Lower) => Frac::ONE.negated(),
            Some(Side::Upper) => Frac::ONE,
            None => Frac::ONE,
        }
    }

    /// Which column a number names.
    pub fn kind(&self, column: usize) -> ColumnKind
        requires { column < column_count self.now }
        ensures { result ≡ column_kind self.now column }
    {
        let n = self.structurals.len();
        let m = self.right.len();
        if column < n {
            ColumnKind::Structural(column)
        } else if column < n + m {
            ColumnKind::Logical(column - n)
        } else {
            ColumnKind::Artificial(column - n - m)
        }
    }

    /// The entries of a structural by rows, none of them 0.
    pub fn entries(&self, structural: usize) -> &SparseCol<Frac>
        requires { structural < structural_count self.now }
        ensures { result.now ≡ record { length = row_count self.now; pairs = (structural_at self.now structural).entries } }
    {
        &self.structurals[structural].entries
    }

    /// The cost that the deck gives a structural.
    pub fn deck_cost(&self, structural: usize) -> Frac
        requires { structural < structural_count self.now }
        ensures { result ≡ (structural_at self.now structural).cost }
    {
        self.structurals[structural].cost
    }

    /// The bounds of a column in a phase.
    pub fn bounds(&self, phase: Phase, column: usize) -> Bounds
        requires { column < column_count self.now }
        ensures { result ≡ bounds self.now phase column }
    {
        match self.kind(column) {
            ColumnKind::Structural(j) => self.structurals[j].bounds,
            ColumnKind::Logical(i) => self.logicals[i],
            ColumnKind::Artificial(i) => artificial_bounds(phase, self.passed[i]),
        }
    }

    /// The cost of a column in a phase, which the method minimises.
    #[tactic(auto, using(exact_frac::specs::Constants::constants))]
    pub fn cost(&self, phase: Phase, column: usize) -> Frac
        requires { column < column_count self.now }
        ensures { result ≡ cost self.now phase column }
    {
        match self.kind(column) {
            ColumnKind::Structural(j) => structural_cost(
                phase,
                self.sense,
                self.structurals[j].cost,
            ),
            ColumnKind::Logical(_) => Frac::ZERO,
            ColumnKind::Artificial(i) => artificial_cost(phase, self.passed[i]),
        }
    }
}

// The bounds of an artificial in a phase; it is needed where its row's residual passes an end.
#[tactic(auto, using(exact_frac::specs::Constants::constants))]
fn artificial_bounds(phase: Phase, passed: Option<Side>) -> Bounds
    ensures { result ≡ artificial_bounds phase passed }
{
    match (phase, passed) {
        (Phase::One, Some(_)) => Bounds::new(Some(Frac::ZERO), None),
        _ => Bounds::new(Some(Frac::ZERO), Some(Frac::ZERO)),
    }
}

// The cost of an artificial in a phase; it is needed where its row's residual passes an end.
#[tactic(auto, using(exact_frac::specs::Constants::constants))]
fn artificial_cost(phase: Phase, passed: Option<Side>) -> Frac
    ensures { result ≡ artificial_cost phase passed }
{
    match (phase, passed) {
        (Phase::One, Some(_)) => Frac::ONE,
        _ => Frac::ZERO,
    }
}

// The cost of a structural in a phase, as the sense counts it.
#[tactic(auto, using(exact_frac::specs::Constants::constants))]
fn structural_cost(phase: Phase, sense: Sense, cost: Frac) -> Frac
    ensures { result ≡ structural_cost phase sense cost }
{
    match (phase, sense) {
        (Phase::One, _) => Frac::ZERO,
        (Phase::Two, Sense::Min) => cost,
        (Phase::Two, Sense::Max) => cost.negated(),
    }
}
