//! Lists of statuses.
ghost use Rattle.std.specs.Prelude.{◌≡◌, ◌<◌, length, slice_get, Some};

use lp_model::Status;
use std::marker::Model;

/// A status for each column, made from a `Vec` and given back as one without taking memory.
#[derive(Debug, Drop)]
pub struct Statuses {
    list: Vec<Status>,
}

impl Model for Statuses {
    ghost use Rattle.std.specs.Prelude.{List};
    ghost use Rattle.lp_model.specs.declared.Status.{Status};

    ghost Value = { List Status };

    ghost view = { λ s. s.list.items };
}

impl Statuses {
    /// The list of these statuses.
    pub fn of(list: Vec<Status>) -> Statuses
        ensures { result ≡ list.items }
    {
        Statuses { list }
    }

    /// How many columns have a status.
    pub fn len(&self) -> usize
        ensures { result ≡ length self.now }
    {
        self.list.len()
    }

    /// The status of that column.
    pub fn get(&self, column: usize) -> Status
        requires { column < length self.now }
        ensures { slice_get self.now column ≡ Some result }
    {
        self.list[column]
    }

    /// All statuses, by columns.
    pub fn as_slice(&self) -> &[Status]
        ensures { result.now ≡ self.now }
    {
        self.list.as_slice()
    }

    /// The statuses as a `Vec`.
    pub fn into_vec(self) -> Vec<Status>
        ensures { result.items ≡ self }
    {
        let Statuses { list } = self;
        list
    }
}
