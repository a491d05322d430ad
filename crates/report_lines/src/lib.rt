//! The lines of a report, read one by one.
//!
//! A report states an outcome of a deck in lines, of which each has a fixed text, or a word, numbers and a name with one
//! blank between them. [`fixed`], [`title`], [`objective`], [`value`], [`counted`], [`index`] and [`entry`] each say of a
//! line whether it is the one that is expected in its place, and what is wrong with it where it is not.
//!
//! # Contract
//!
//! A line is its list of bytes, without the line feed that ends it. `specs/Judged.antt` says which flaw a line has: a wrong
//! word comes before a wrong number, and a wrong number before a wrong name. Each call answers `Ok` only at the line that
//! the report has, as `lp_text` defines it, and else this flaw. No call takes memory.
//!
//! `specs/FirstFlaw.antt` says which line of a text that should be a report has its first flaw.
//!
//! The crate stands on `frac_text` for the numbers, on `exact_frac`, on `lp_text`, `lp_model` and `rational` for the
//! definitions, and on `thiserror`.
#![tactic(auto)]

mod entries;
mod flaw;
mod lines;
mod number;
mod parts;

pub use entries::entry;
pub use flaw::Flaw;
pub use lines::{counted, fixed, index, objective, title, value};
