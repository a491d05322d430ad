//! Counting in lists of numbers, for proofs of what several threads share.
//!
//! A rule over the views of many threads often says that each number below a bound stands in exactly
//! one view, once, and that no other number stands in any. Said by counting, that is one equation for
//! each number: how often it stands in all views together (`sum_by` of std over `times`) is
//! `once_below`, which is 1 below the bound and 0 from there on.
//!
//! - `specs/Counting.antt` has the words: `times`, `one_if`, `once_below`.
//! - `proofs/Times.antt` has their laws, and those of std's `range_with_len`, the numbers from one on.
//! - `proofs/Sums.antt` has laws of `sum_by` for a list read by place: what a changed element does to
//!   the sum, which elements are below it, and where all of it stands in one element.
//!
//! The crate has no code, and stands on `std` alone.
#![tactic(auto)]
