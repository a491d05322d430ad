//! The type `Table`.
ghost use Rattle.std.specs.Prelude.{◌≡◌, ◌<◌, length};
ghost use Rattle.rational.specs.Sum.{at};
ghost use Rattle.plain_table.specs.Plain.{cell};

use crate::row::Row;
use exact_frac::Frac;
use instance_model::State;
use std::marker::Model;

/// The whole table of a state of a run, of m rows by position and N columns, with the basic values and the reduced
/// costs beside it, and the number of entries of the log before the state.
#[derive(Drop)]
pub struct Table {
    pub(crate) state: State,
    pub(crate) rows: Vec<Row>,
    pub(crate) values: Vec<Frac>,
    pub(crate) costs: Vec<Frac>,
    pub(crate) number: u64,
    // where a step is worked until all of it fits, so that it takes no memory and a refused one changes nothing
    pub(crate) spare_rows: Vec<Row>,
    pub(crate) spare_values: Vec<Frac>,
    pub(crate) spare_costs: Vec<Frac>,
    pub(crate) pivot_row: Vec<Frac>,
    // the columns in which the pivot row is not 0
    pub(crate) support: Vec<u32>,
    // the entering column, by position
    pub(crate) alpha: Vec<Frac>,
}

impl Model for Table {
    ghost use Rattle.plain_table.specs.Plain.{Plain};

    ghost Value = { Plain };

    ghost use Rattle.plain_table.specs.Inner.Tables.{IsSound, plain_of};

    ghost view = { plain_of };

    ghost invariant = { IsSound };
}

impl Table {
    /// The state that the table belongs to.
    pub fn state(&self) -> &State
        ensures { result.now ≡ self.now.state }
    {
        &self.state
    }

    /// How many entries of the log come before the state.
    pub fn number(&self) -> u64
        ensures { result ≡ self.now.number }
    {
        self.number
    }

    /// The basic value in a position.
    pub fn value(&self, position: usize) -> Frac
        requires { position < length self.now.values }
        ensures { result ≡ at self.now.values position }
    {
        self.values[position]
    }

    /// The basic values, by position.
    pub fn values(&self) -> &[Frac]
        ensures { result.now ≡ self.now.values }
    {
        self.values.as_slice()
    }

    /// The reduced costs, by column.
    pub fn costs(&self) -> &[Frac]
        ensures { result.now ≡ self.now.costs }
    {
        self.costs.as_slice()
    }

    /// The reduced cost of a column.
    pub fn cost(&self, column: usize) -> Frac
        requires { column < length self.now.costs }
        ensures { result ≡ at self.now.costs column }
    {
        self.costs[column]
    }

    /// The entry of the table in a position and a column.
    pub fn entry(&self, position: usize, column: usize) -> Frac
        requires position { position < length self.now.rows }
        requires column { column < length self.now.costs }
        ensures { result ≡ cell self.now position column }
    {
        self.rows[position].get(column)
    }
}
