//! A lock around one value whose number only grows, with passes that prove who made it grow.
//!
//! A value has a number and a lineage ([`Numbered`]). A session takes the value out of its [`Gate`], works on it as plain
//! memory, and gives it back with the lineage kept and the number no lower. Sessions follow one another in the order in
//! which their turns were drawn, so a gate is a ticket lock: a turn is drawn by one atomic addition, and its holder
//! waits until that turn is served. A thread that finds a turn out lets others go first for a while before it draws.
//!
//! **Model.** A [`Pass`] is the right to take the value. It has parts of the gate, `seen`, the number that the value had
//! when the pass saw it last, and `mine`, the numbers that its own sessions added (`parts_of`, `seen_of`, `mine_of` in
//! `specs/Passes.antt`). A [`Held`] is the value while it is out, with the pass that took it.
//!
//! **Contract.** `take` finds a value whose number is at least the pass's `seen`, and whose lineage is
//! that of the value that the gate was made with. After `give`, `seen` is the value's number, and `mine` has gained
//! exactly the numbers from the old one to one below the new. `split` and `join` share parts out among threads.
//! `close` with all parts gives the value back, and each number below the value's stands in `mine`, once, and no other:
//! whatever the threads did, each number was added by one session.
//!
//! **How it is kept.** The gate is an `atomic_table` of three words, the turn to be drawn next, the turn that is served
//! and the count, and of one slot, which has the value or nothing. Its rule (`Kept` in `specs/Gates.antt`) holds between
//! any two atomic steps, of which there are seven kinds (`kinds`). Turns are counted modulo 2^64 in the words, and
//! without an end in the rule: fewer than 2^64 are out at once.
//!
//! **Limits.** `take` alone may wait, and no contract says that it returns, that turns are fair, or that a holder gives
//! the value back: a [`Held`] can not be dropped, but a thread may never come to `give`. `take` and `give` take no
//! memory, and `split`, `join` and `close` never lack it.
//!
//! It stands on `atomic_table` and `crossbeam_utils` of the kit, on `counting` and on `no_memory`. The lock is the ticket lock of Reed and
//! Kanodia (1979).
#![tactic(auto)]

mod calls;
mod gate;
mod kinds;
#[cfg(test)]
mod tests;
mod view;

pub use gate::{Gate, Held, Numbered, Pass};
