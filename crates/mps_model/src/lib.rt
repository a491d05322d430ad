//! Decks in fixed MPS columns and in free form, as definitions.
//!
//! A text is a deck that ends at its ENDATA line, or it has a first fault: each line is judged by the
//! cards before it, in order, and the first fault of the first line that has one is the text's. The
//! columns, fields and tokens of a card are those of `lp_text`, and so is what may be wrong with a line;
//! here stand the number fields, the sections and their order, the fields that a card's tokens are, what
//! each card makes of the deck so far, and the faults in the order in which they are found. Past its
//! fields a card is judged alike in both forms.
//!
//! The crate has almost no code: it declares the plain enums that the readers share with the
//! definitions. Its `specs/` are what the contract of a deck's reader cites; read `DeckOf` first. It
//! stands on `lp_text`, `lp_model` and `rational`.
#![tactic(auto)]

use lp_model::RowKind;
use thiserror::Error;

/// A section of a deck, by what its cards give; the last one ends the deck.
#[derive(Clone, Copy, Debug, PartialEq, Eq)]
pub enum Section {
    /// NAME: the deck's name, on the section's own card.
    Title,
    /// OBJSENSE: the sense, as the second word of the section's own card or as the first word of the next card.
    ObjectiveSense,
    /// ROWS.
    Rows,
    /// COLUMNS.
    Columns,
    /// RHS.
    RightSides,
    /// RANGES.
    Ranges,
    /// BOUNDS.
    Bounds,
    /// ENDATA.
    Finish,
}

/// The type of a row: free, which N says, or a kind of row that the deck keeps.
#[derive(Clone, Copy, Debug, PartialEq, Eq)]
pub enum RowType {
    Free,
    Kept(RowKind),
}

/// What a bound sets.
#[derive(Clone, Copy, Debug, PartialEq, Eq)]
pub enum BoundKind {
    /// UP: the upper end.
    Upper,
    /// LO: the lower end.
    Lower,
    /// FX: both ends, to one number.
    Fixed,
    /// FR: both ends, to infinity.
    Free,
    /// MI: the lower end, to -∞.
    Minus,
    /// PL: the upper end, to ∞.
    Plus,
}

/// Why a number field has no value.
#[derive(Clone, Copy, Debug, PartialEq, Eq, Error)]
pub enum FieldFault {
    /// It spells no number.
    #[error("no number")]
    Malformed,
    /// The exponent's size is above 30.
    #[error("an exponent above 30")]
    Exponent,
    /// The value does not fit 127 bits.
    #[error("a number that does not fit 127 bits")]
    Unfit,
}
