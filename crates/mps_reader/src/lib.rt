//! Decks in fixed MPS and in free form, read from a source.
//!
//! # The form
//!
//! A deck is a text of cards in the sections `NAME`, `OBJSENSE`, `ROWS`, `COLUMNS`, `RHS`, `RANGES`, `BOUNDS` and `ENDATA`, in
//! fixed columns (IBM, Mathematical Programming System/360, 1969, as planners' programs still write it) or in free form, where
//! blanks stand between the fields. The definitions are those
//! of `mps_model`: `judge_line` says what a line makes of the deck so far, or its first fault, and `reading_of` which deck, or
//! which first fault, a whole text is.
//!
//! # Contract
//!
//! [`read_deck`] answers the deck of the text that its reader kept and its source had left, or exactly the first fault of that text.
//! The lines through the deck's last, or through the one whose card has the first fault, are taken from the reader, and no other.
//! The source is read as needed (`IsReadAsNeeded`), however the call ends: a fault in a line that stands whole in the bytes that
//! were read is answered before the source is read again, nothing is read once the deck's last line stands there, nor once the
//! bytes are more than a deck may have. So after `Read`, where the source failed, no line that was read whole has a fault, none
//! ends the deck, and the bytes are no more than a deck may have. Want of memory may come at any line.
//!
//! After a fault of a card the reader stands behind its line, and after `NoEnd` at the end of the text; after a fault of the deck's
//! end it has given none. Where it has given none, the lines behind those that it has answered are left to read. After a failed
//! read, and at the limit of bytes, it gives that fault again (`StandsAfter`).
//!
//! No more of a line is kept than its columns, or in free form 256 bytes, however long it is.
//!
//! The crate stands on `mps_cards` for lines and cards, on `mps_free` for cards in free form and the words of a sense, on `number_fields` for numbers, on `deck_model` for the deck, on
//! `mps_model`, `lp_text` and `lp_model` for the definitions, on `sparse_cols` for the rows that a column has named, and on `io_ends`,
//! `exact_frac`, `no_memory`, `indexmap` and `thiserror`.
#![tactic(auto)]

mod bounds;
mod draft;
mod faults;
mod fields;
mod finish;
mod lines;
mod pairs;
mod reading;
mod refusal;
mod rows;
mod section;

pub use faults::DeckFault;
pub use reading::read_deck;
