//! The cards of a deck in free form, and the words of a deck's sense.
//!
//! A line in free form is cut into tokens at blanks; all its bytes count. A card whose first byte is not blank is a section's.
//! The definitions are those of `lp_text`: `free_card` says which card a line is, or which fault it has, and `sense_of` which
//! sense a word is.
//!
//! # Model
//!
//! A contract sees [`Tokens`] as the list of the tokens.
//!
//! # Contract
//!
//! [`free_card`] answers exactly the card of its line, or its fault; want of memory alone may come in place of either.
//! [`word_card`] does the same for a text that is part of a line, such as the columns of a fixed one that count. [`sense_of`]
//! takes no memory.
//!
//! The crate stands on `mps_cards` for lines and words, on `lp_text` and `lp_model` for the definitions, and on `thiserror`.
#![tactic(auto)]

mod cards;
mod cutting;
mod senses;
mod tokens;

pub use cards::{FreeCard, FreeFault};
pub use cutting::{free_card, word_card};
pub use senses::sense_of;
pub use tokens::Tokens;
