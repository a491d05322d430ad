//! The ends of a program: where its bytes come from and where they go.
//!
//! Code that is generic over [`Source`] and [`Sink`] is proved for all ends at once: for the process's own streams,
//! which tell nothing of their bytes, and for ends in memory, whose bytes a contract can name. Both traits are shaped
//! after `std::io`'s `Read` and `Write`.
//!
//! # Model
//!
//! - `S.remaining source` is `Some` of the bytes that a source has left to give, and `K.contents sink` is `Some` of those
//!   that a sink holds, where the end tells them. At `None` an end tells nothing, and no clause on its bytes says
//!   anything. An end that tells its bytes goes on telling them, and one that does not never begins to.
//! - `S.fault_count source` and `K.fault_count sink` say how many calls failed so far. A count stops at `u64::MAX`.
//!
//! # Contract
//!
//! - [`Source::read`] gives the next of the bytes that are left, and none exactly where none is left.
//! - [`Sink::write`] appends the first bytes of a piece, at least one of them.
//! - [`Failed`] comes only from a call in which the count of faults rose, and such a call gives and takes no byte. All
//!   other calls leave the count as it is, so it never falls.
//! - [`write_all`] appends a whole piece, or fails where a write failed and has appended a beginning of the piece.
//!
//! # Ends
//!
//! - [`MemSource`] and [`MemSink`] tell all: which calls fail, how many bytes each other call moves, and what is left.
//! - [`ReaderEnds`] and [`WriterEnds`] pass on what a reader or a writer of `std` gives and takes, and count its errors.
//!   [`StdinEnds`], [`StdoutEnds`] and [`StderrEnds`] are those over the process's streams, of whose bytes no clause
//!   claims anything. `main` makes them of the streams' handles, as `StdinEnds::new(rt.stdin())`.
//!
//! The crate stands on `std`, on `no_memory` for the refusal for memory, and on `thiserror` for the text of [`Failed`].
#![tactic(auto)]

mod ends;
mod memory_ends;
mod refusals;
mod standard_ends;

pub use ends::{Sink, Source, write_all};
pub use memory_ends::{MemSink, MemSource};
pub use no_memory::Memory;
pub use refusals::Failed;
pub use standard_ends::{ReaderEnds, StderrEnds, StdinEnds, StdoutEnds, WriterEnds};
