//! Tools for decks: transport decks made from their size, and the writer of decks.
//!
//! # Model
//!
//! A deck is the record `Deck` of `lp_model`. `specs/Transport.antt` defines `transport`, the deck of so many sources and sinks, with a column for
//! each pair of them. `specs/Layout.antt` defines `deck_text`, the one text of a deck in fixed or in free form: a card for each number, in the order
//! of rows and of columns, or the name that the first number without a spelling belongs to.
//!
//! # Contract
//!
//! [`make`] answers `transport` of its size. It refuses only for want of memory.
//!
//! [`write_deck`] gives a sink `deck_text` of a deck. It answers `Wide` exactly where there is no such text, and then, or for want of memory, the sink
//! has gained nothing; after a failed write it has gained a beginning of the text.
//!
//! # Method
//!
//! The text is made in memory, line by line (`page`, `write`), so that each spelling is known before the first byte is handed on.
//!
//! The crate stands on `deck_model` for decks, on `exact_frac` for fractions, on `sparse_cols` for the entries of a column, on `frac_text` for the
//! spelling of numbers on cards, on `io_ends` for sinks, on `lp_model`, `lp_text` and `rational` for the definitions, on `itoa`, `thiserror` and
//! `no_memory`.
#![tactic(auto)]

mod fault;
mod making;
mod page;
mod write;

pub use fault::DeckWriteFault;
pub use making::make;
pub use write::write_deck;
