//! Laws of the plain table: what a table with its basic values and reduced costs is worth at a state of a run, how an
//! entry changes it, and that what it works is what the run lists.
//!
//! **Model.** A table is a function of position and column, the basic values are a list by position, the reduced costs a
//! function of the column (`StandsAt` in `specs/Stands.antt`). The first table is `start_entry` of `lp_run`, and one pivot
//! makes `pivoted` of a table (the Gauss-Jordan step).
//!
//! **Laws.** `started`: the first table stands at the start. `swapped`, `flipped`, `turned`: the changed table stands at the
//! state after the entry. `fitted-start`, `fitted-more`: where what is worked fits, so does what the run lists (`HasFitted`).
//!
//! The crate has no code. It stands on `lp_run` and the laws of states (`bland_laws`).
#![tactic(auto)]
