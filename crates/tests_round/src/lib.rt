//! Tests of what threads share: `price_round`, `switch_gate` and `crew`.
//!
//! Rounds are closed in and out of order, by one thread and by four, and each choice is compared with that of `choose`
//! or with one worked out by hand. A gate's passes are taken, split and joined. A deck of seventy columns is solved by
//! seats, one of which is held with its chunk until a later chunk was offered.
#![tactic(auto)]

#[cfg(test)]
mod gates;
#[cfg(test)]
mod instances;
#[cfg(test)]
mod orders;
#[cfg(test)]
mod solves;
#[cfg(test)]
mod threads;
