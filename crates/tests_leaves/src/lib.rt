//! Tests of the lowest crates, where neither the built program nor a stored run reaches: texts of numbers beside known ones, a fault that is
//! given again, texts of refusals, and what a counter takes.
//!
//! The answers are known from outside or worked out by hand. The crate has no code but its tests.
#![tactic(auto)]

#[cfg(test)]
mod structures;
#[cfg(test)]
mod texts;
