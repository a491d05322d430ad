//! Ranging: how far each cost and each right side of a deck may change, alone, with the last basis staying optimal.
//!
//! **Model.** An instance, its states and its run are those of `lp_run`. [`Ranges`] are seen as two lists of intervals, one for
//! each structural and one for each row. All their numbers are changes, not new values.
//!
//! **Contract.** [`ranges`] answers, for the log of a run that ends at an optimum, the exact ranges of its last state
//! (`AreRanges`): no column is eligible where the cost of one structural is changed by t exactly where t lies in that column's
//! range (`CostStays`), and the basic values stay within their bounds where one right side is changed by t exactly where t lies
//! in that row's (`RightStays`). Where an end is 0 the optimum is degenerate there: another basis of the same point may allow
//! more. A refusal has its cause (`IsRangeCause`): `Unfit` the place of the first value of the ranges that does not fit
//! (`RangeLists`), `Overflow` that of the run's first value that does not, where also a value that is worked over factors does
//! not fit (`GivesUp`); and the count of unfit results has risen. Where the run and the ranges fit, only want of memory refuses.
//! [`write_ranges`] gives a sink the text of ranges (`range_text`).
//!
//! **Method.** The factors of the last basis are made once. One solve for the basic values, one for the prices, and one for
//! each row of the inverse of the basis: a row gives the range of the cost of the column that is basic there, and its part of
//! the range of each right side (Chvátal 1983, chapter 10). So at most m + 2 solves, and memory for n + m intervals. Where a
//! value of these solves does not fit, the plain table is made along the log, and its rows are read.
//!
//! It stands on `basis_solves` for factors and what they solve for, on `plain_table`, `bland_ratio`, `instance_model` and
//! `exact_frac`, and on `cert_text`, `frac_text` and `io_ends` for the text.
#![tactic(auto)]

mod answer;
mod basic_values;
mod cost;
mod factors;
mod fault;
mod found;
mod interval;
mod limits;
mod line;
mod position;
mod row;
mod table;
mod value;
mod write;

pub use answer::ranges;
pub use fault::{RangeFault, RangePlace};
pub use found::Ranges;
pub use write::{RangeWriteFault, write_ranges};
