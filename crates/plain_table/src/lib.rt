//! The plain table of a run: every column in terms of the basis, with the basic values and the reduced costs beside it.
//!
//! **Model.** A [`Table`] is seen as the record `Plain`: the state, the rows by position, the basic values, the reduced
//! costs by column, and the number of entries before the state. It has m rows and N = n + 2m columns.
//!
//! **Contract.** [`Table::start`] makes the table of the start, and [`Table::replay`] that of the state that a log leads to:
//! Ok is a table that stands there (`Stands`: its columns, basic values and reduced costs are those of the state) before
//! which all that is worked fits, `Overflow` the place of the first value that does not (`MakesTable`). [`Table::next`] says
//! what comes next by Bland's rule (`ComesNext`), and [`Table::step`] takes in the next entry without memory: Ok exactly
//! where all fits that the run lists under its number, else the place of the first value that does not, with the table as
//! it was (`JudgesStep`). `specs/Answers.antt` and `specs/Next.antt` have these.
//!
//! **Threads.** The rows of a swap are worked by halves of halves, in threads where they are many. The answer is that of the
//! rows one after another: the place of the first value in their order that does not fit, and the counts of one thread.
//!
//! It stands on `instance_model` for instances and states, on `deck_model` for logs, on `bland_ratio` for the ratio test, on
//! `sparse_steps` and `exact_frac` for numbers, on `rayon` for threads, and on `table_laws` for what an entry makes of a
//! table.
#![tactic(auto)]

mod costs;
mod faults;
mod flip;
mod line;
mod making;
mod motion;
mod next;
mod pivot;
mod reading;
mod residual;
mod row;
mod rows;
mod start;
mod start_values;
mod step;
mod support;
mod swap;
mod table;
mod values;

pub use costs::basic_costs;
pub use faults::TableFault;
pub use next::{End, Next, artificials_are_zero, falls};
pub use start_values::work_start_values;
pub use table::Table;
pub use values::move_values;
