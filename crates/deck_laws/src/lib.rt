//! The laws of decks as texts.
//!
//! The text of a deck, as `deck_tools::write_deck` writes it, is read as that deck. Each law is the contract of a function that does nothing:
//!
//! - [`number_reads_back`]: a number's spelling on a card is read as the number.
//! - [`reading_is_kept`]: a deck that a text is in a form has what the next law asks for, but for the name that marks integer columns.
//! - [`deck_reads_back`]: the text of a deck in a form is the deck in that form.
//! - [`reading_reads_back`]: so a deck that a text is in a form, written in that form, is read as the same deck.
//!
//! # Premises
//!
//! A deck as a reading gives it (`IsKept` of `specs/Spellable.antt`) has each name once, entries in rising rows, none of them 0, bounds that do not cross,
//! ends of a size below 10^30, numbers that the arithmetic holds, and no more rows, columns and numbers than a deck may have. The form spells its names
//! (`IsSpellable`): so a deck that was read in one form may be written in the other one where its names are spelled there. No row and no objective has the
//! name that marks integer columns (`IsUnmarked`), and the text is within the limit of bytes.
//!
//! The crate has no code that runs. It stands on `deck_tools` and `frac_text` for the text, on `mps_model` for what a text is as a deck, on `number_fields`
//! for the value of digits, on `deck_model` for entries that are put in, on `exact_frac`, `rational` and `lp_model` for numbers and decks, and on `lp_text`
//! for lines and cards.
#![tactic(auto)]

ghost use Rattle.std.specs.Prelude.{◌≡◌, ◌≤◌, ℕ, List, Ok, Some, length};
ghost use Rattle.rational.specs.Rational.{ℚ};
ghost use Rattle.frac_text.specs.Card.{card_text};
ghost use Rattle.lp_model.specs.Deck.{Deck};
ghost use Rattle.lp_text.specs.Limits.{byte_limit};
ghost use Rattle.lp_text.specs.declared.Form.{Form};
ghost use Rattle.deck_tools.specs.Layout.{deck_text};
ghost use Rattle.mps_model.specs.DeckOf.{IsDeckOf};
ghost use Rattle.mps_model.specs.PairCards.{number_in};
ghost use Rattle.deck_laws.specs.Spellable.{IsKept, IsNumber, IsSpellable, IsUnmarked};

/// A number's spelling on a card is read as the number.
pub fn number_reads_back()
    ensures { (v : ℚ) (text : List ℕ) → IsNumber v → card_text v ≡ Some text → number_in text ≡ Ok v }
{}

/// A deck that a text is in a form is one as a reading gives it, and the form spells its names.
pub fn reading_is_kept()
    ensures { (form : Form) (text : List ℕ) (d : Deck) (line : ℕ) → IsDeckOf form text d line → IsKept d × IsSpellable form d }
{}

/// The text of a deck in a form is that deck in the form.
pub fn deck_reads_back()
    ensures { (form : Form) (d : Deck) (written : List ℕ) → IsKept d → IsSpellable form d → IsUnmarked d → deck_text form d ≡ Ok written
        → length written ≤ byte_limit → (line : ℕ) × IsDeckOf form written d line }
{}

/// A deck that a text is in a form, written in that form, is read as the same deck.
pub fn reading_reads_back()
    ensures { (form : Form) (text : List ℕ) (d : Deck) (line : ℕ) (written : List ℕ) → IsDeckOf form text d line → IsUnmarked d → deck_text form d ≡ Ok written
        → length written ≤ byte_limit → (last : ℕ) × IsDeckOf form written d last }
{}
