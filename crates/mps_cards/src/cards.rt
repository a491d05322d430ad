ghost use Rattle.std.specs.Prelude.{◌≡◌, ◌≤◌, IfOk};
ghost use Rattle.lp_text.specs.Cards.{bytes_in, data_fields, field_of, section_fields, trimmed};
ghost use Rattle.mps_cards.specs.Inner.FieldList.{field_list};

use crate::columns::{bytes_between, first_word, trim};
use crate::words::word_at;
use lp_text::LineFault;
use std::alloc::{AllocError, Global};
use std::marker::Model;
use thiserror::Error;

/// What a card is.
#[derive(Clone, Copy, Debug, PartialEq, Eq)]
pub enum CardKind {
    /// The head of a section: its first column is not blank.
    Section,
    /// A card of data: its first column is blank.
    Data,
}

/// A card: a line that is no comment and not blank.
#[derive(Debug, Drop)]
pub struct Card {
    /// The line's number.
    pub line: u64,
    /// What the card is.
    pub kind: CardKind,
    /// Its fields.
    pub fields: Fields,
}

/// Why a line is no card.
#[derive(Clone, Copy, Debug, PartialEq, Eq, Error)]
pub enum CardFault {
    /// Memory ran out.
    #[error("out of memory")]
    Memory,
    /// The line of this number has this fault: `NotAscii`, or `Columns`.
    #[error("line {0}: {1:?}")]
    InLine(u64, LineFault),
}

impl From<AllocError> for CardFault {
    ghost use Rattle.std.specs.Prelude.{◌≡◌};
    ghost use Rattle.mps_cards.specs.declared.cards.CardFault.TheVariants as card_faults;

    ghost from_gives = { λ _ fault. fault ≡ card_faults.Memory };

    fn from(_error: AllocError) -> CardFault {
        CardFault::Memory
    }
}

/// The six fields of a card, cut out of its text when they are asked for.
///
/// Those of a card of data are columns 2 to 3, 5 to 12, 15 to 22, 25 to 36, 40 to 47 and 50 to 61, without the blanks
/// around them. In the head of a section field 1 is its word, which runs to the first blank, field 2 is the next word, field 3
/// is the text of columns 15 to 22, and the others are empty.
#[derive(Debug, Drop)]
pub struct Fields {
    text: Vec<u8>,
    kind: CardKind,
}

impl Model for Fields {
    ghost use Rattle.std.specs.Prelude.{List, ℕ};

    ghost Value = { List (List ℕ) };

    ghost use Rattle.mps_cards.specs.Inner.FieldList.{field_list};

    ghost view = { λ f. field_list f.kind f.text.items };
}

impl Fields {
    /// The fields of a text, which are the columns of a card that count.
    pub(crate) fn new(alloc: Global, text: &[u8], kind: CardKind) -> Result<Fields, AllocError>
        ensures { IfOk result (λ fields. fields ≡ field_list kind text.now) }
    {
        Ok(Fields {
            text: Vec::from_slice(alloc, text)?,
            kind,
        })
    }

    /// A field, counted from 1.
    pub fn get(&self, field: usize) -> &[u8]
        requires low { 1 ≤ field }
        requires high { field ≤ 6 }
        ensures { result.now ≡ field_of self.now field }
    {
        match self.kind {
            CardKind::Section => section_field(&self.text, field),
            CardKind::Data => data_field(&self.text, field),
        }
    }
}

/// A field of the head of a section.
fn section_field(text: &[u8], field: usize) -> &[u8]
    requires low { 1 ≤ field }
    requires high { field ≤ 6 }
    ensures { result.now ≡ field_of (section_fields text.now) field }
{
    match field {
        1 => first_word(text),
        2 => word_at(text, 1),
        3 => field_between(text, 15, 22),
        _ => &text[..0],
    }
}

/// A field of a card of data.
fn data_field(text: &[u8], field: usize) -> &[u8]
    requires low { 1 ≤ field }
    requires high { field ≤ 6 }
    ensures { result.now ≡ field_of (data_fields text.now) field }
{
    match field {
        1 => field_between(text, 2, 3),
        2 => field_between(text, 5, 12),
        3 => field_between(text, 15, 22),
        4 => field_between(text, 25, 36),
        5 => field_between(text, 40, 47),
        _ => field_between(text, 50, 61),
    }
}

/// The text from one column through another, without the blanks around it.
fn field_between(text: &[u8], first: usize, last: usize) -> &[u8]
    requires low { 1 ≤ first }
    requires order { first ≤ last }
    ensures { result.now ≡ trimmed (bytes_in text.now first last) }
{
    trim(bytes_between(text, first, last))
}
