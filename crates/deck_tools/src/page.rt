// The lines of a deck's text, one after another.
ghost use Rattle.std.specs.Prelude.{◌≡◌, ℕ, List, [], ◌∷◌, ◌++◌, replicate, MatchResult, OnOk, Some, codes};
ghost use Rattle.frac_text.specs.Card.{card_text};
ghost use Rattle.deck_tools.specs.Layout.{bound_line, card, gap, number_text, pair_line, row_line, set_line, with_field};
ghost use Rattle.deck_tools.specs.Makes.{IsUnspelled, Makes, card_of, section_text};

use crate::fault::DeckWriteFault;
use deck_model::Name;
use exact_frac::Frac;
use frac_text::SpellFault;
use lp_text::Form;
use no_memory::Memory;
use std::alloc::Global;

/// A card of data: a kind, two names, a number where it has one, and the name that the number belongs to.
#[derive(Drop)]
pub struct Card<'a> {
    pub kind: &'a [u8],
    pub first: &'a [u8],
    pub second: &'a [u8],
    pub number: Option<Frac>,
    pub owner: &'a [u8],
}

/// The text so far, and room for its next line.
#[derive(Drop)]
pub struct Page {
    pub text: Vec<u8>,
    pub line: Vec<u8>,
}

impl Page {
    /// A page without a line.
    pub fn new(alloc: Global) -> Page
        ensures { result.text.items ≡ [] }
    {
        Page {
            text: Vec::new(alloc),
            line: Vec::new(alloc),
        }
    }

    /// Adds a line of this text.
    pub fn put_word(&mut self, word: &[u8]) -> Result<(), Memory>
        ensures { OnOk result (self.new.text.items ≡ self.old.text.items ++ (word.now ++ 10 ∷ [])) }
    {
        self.text.extend_from_slice(word)?;
        self.text.push(b'\n')?;
        Ok(())
    }

    /// Adds the line of the deck's name.
    pub fn put_title(&mut self, form: Form, name: &[u8]) -> Result<(), Memory>
        ensures { OnOk result (self.new.text.items ≡ self.old.text.items ++ (with_field form (codes "NAME") 14 name.now ++ 10 ∷ [])) }
    {
        self.line.clear();
        self.line.extend_from_slice(b"NAME")?;
        put_field(&mut self.line, form, 14, name)?;
        self.put_line()
    }

    // Adds the line that was made.
    fn put_line(&mut self) -> Result<(), Memory>
        ensures { OnOk result (self.new.text.items ≡ self.old.text.items ++ (self.old.line.items ++ 10 ∷ [])) }
    {
        self.text.extend_from_slice(&self.line)?;
        self.text.push(b'\n')?;
        Ok(())
    }

    /// Adds a section with the lines of another page, where that has lines.
    pub fn put_section(&mut self, word: &[u8], lines: &Page) -> Result<(), Memory>
        ensures { OnOk result (self.new.text.items ≡ self.old.text.items ++ section_text word.now lines.now.text.items) }
    {
        if lines.text.is_empty() {
            return Ok(());
        }
        self.put_word(word)?;
        self.text.extend_from_slice(&lines.text)?;
        Ok(())
    }

    /// Adds a card.
    fn put_card(&mut self, form: Form, fields: &Card) -> Result<(), DeckWriteFault>
        ensures { Makes form self.old.text.items self.new.text.items (card (card_of fields.now) ∷ []) result }
    {
        self.line.clear();
        put_field(&mut self.line, form, 1, fields.kind)?;
        put_field(&mut self.line, form, 4, fields.first)?;
        put_field(&mut self.line, form, 14, fields.second)?;
        put_number(&mut self.line, form, fields.number, fields.owner)?;
        self.put_line()?;
        Ok(())
    }

    /// Adds a card that has a row's kind and its name.
    pub fn put_row(&mut self, form: Form, kind: &[u8], name: &[u8]) -> Result<(), DeckWriteFault>
        ensures { Makes form self.old.text.items self.new.text.items (row_line kind.now name.now ∷ []) result }
    {
        let card = Card {
            kind,
            first: name,
            second: b"",
            number: None,
            owner: b"",
        };
        self.put_card(form, &card)
    }

    /// Adds a card that has a column's number in a row.
    pub fn put_pair(
        &mut self,
        form: Form,
        column: &[u8],
        row: &[u8],
        value: Frac,
    ) -> Result<(), DeckWriteFault>
        ensures { Makes form self.old.text.items self.new.text.items (pair_line column.now row.now value ∷ []) result }
    {
        let card = Card {
            kind: b"",
            first: column,
            second: row,
            number: Some(value),
            owner: column,
        };
        self.put_card(form, &card)
    }

    /// Adds a card that has a row's number in the set S.
    pub fn put_in_set(&mut self, form: Form, row: &[u8], value: Frac) -> Result<(), DeckWriteFault>
        ensures { Makes form self.old.text.items self.new.text.items (set_line row.now value ∷ []) result }
    {
        let card = Card {
            kind: b"",
            first: b"S",
            second: row,
            number: Some(value),
            owner: row,
        };
        self.put_card(form, &card)
    }

    /// Adds a card that has a bound of a column in the set S.
    pub fn put_bound(
        &mut self,
        form: Form,
        kind: &[u8],
        column: &[u8],
        number: Option<Frac>,
    ) -> Result<(), DeckWriteFault>
        ensures { Makes form self.old.text.items self.new.text.items (bound_line kind.now column.now number ∷ []) result }
    {
        let card = Card {
            kind,
            first: b"S",
            second: column,
            number,
            owner: column,
        };
        self.put_card(form, &card)
    }
}

// Appends a field that begins behind so many columns. An empty one leaves no trace.
fn put_field(line: &mut Vec<u8>, form: Form, place: usize, field: &[u8]) -> Result<(), Memory>
    ensures { OnOk result (line.new.items ≡ with_field form line.old.items place field.now) }
{
    if field.is_empty() {
        return Ok(());
    }
    put_gap(line, form, place)?;
    line.extend_from_slice(field)?;
    Ok(())
}

// Appends what stands before a field that begins behind so many columns.
fn put_gap(line: &mut Vec<u8>, form: Form, place: usize) -> Result<(), Memory>
    ensures { OnOk result (line.new.items ≡ line.old.items ++ gap form line.old.items place) }
{
    let count = match form {
        Form::Fixed => place.saturating_sub(line.len()),
        Form::Free => 1,
    };
    put_blanks(line, count)
}

// Appends blanks.
fn put_blanks(line: &mut Vec<u8>, count: usize) -> Result<(), Memory>
    ensures { OnOk result (line.new.items ≡ line.old.items ++ replicate count 32) }
{
    for _ in 0..count {
        line.push(b' ')?;
    }
    Ok(())
}

// Appends a number that belongs to a name, if there is one.
fn put_number(
    line: &mut Vec<u8>,
    form: Form,
    number: Option<Frac>,
    owner: &[u8],
) -> Result<(), DeckWriteFault>
    ensures { MatchResult result
        (λ _. (text : List ℕ) × (number_text number ≡ Some text) × (line.new.items ≡ with_field form line.old.items 24 text))
        (IsUnspelled (number_text number) owner.now) }
{
    let Some(value) = number else {
        return Ok(());
    };
    let digits = spelled(*line.allocator(), value, owner)?;
    put_field(line, form, 24, &digits)?;
    Ok(())
}

// The spelling of a number that belongs to a name.
fn spelled(alloc: Global, value: Frac, owner: &[u8]) -> Result<Vec<u8>, DeckWriteFault>
    ensures { MatchResult result (λ digits. card_text value ≡ Some digits.items) (IsUnspelled (card_text value) owner.now) }
{
    match frac_text::card(alloc, value) {
        Ok(digits) => Ok(digits),
        Err(SpellFault::Memory) => Err(DeckWriteFault::Memory),
        Err(SpellFault::Wide) => Err(DeckWriteFault::Wide(Name::of(alloc, owner)?)),
    }
}
