ghost use Rattle.std.specs.Prelude.{◌≡◌, ◌≤◌, ℕ, IfOk, IfErr, IsTrue, length};
ghost use Rattle.lp_text.specs.Cards.{card_in, card_of, counted, without_return};
ghost use Rattle.lp_text.specs.Lines.{Line as TextLine};
ghost use Rattle.mps_cards.specs.Inner.FieldList.{field_list};
ghost use Rattle.mps_cards.specs.NextLine.{answered};
ghost use Rattle.mps_cards.specs.Splitting.{Says, kept_bytes};

use crate::cards::{Card, CardFault, CardKind, Fields};
use crate::columns::{byte_at, first_filled_gap, is_no_card, prints};
use crate::lines::Line;
use lp_text::LineFault;
use std::alloc::Global;

/// How many columns of a line count.
const COLUMNS: usize = 61;

/// The card that a line is, or none for a comment and for a line of blanks.
///
/// A carriage return at the line's end is dropped, and columns past 61 are ignored. The line is one that a reader has
/// answered, or could have; so much of it is there that the card is that of the whole line.
///
/// # Errors
///
/// `NotAscii` where a byte outside 32 to 126 stands in columns 1 to 61 of a line that is no comment, else `Columns` with
/// the least column between the fields of a card of data that is not blank. `Memory` where there is too little memory.
pub fn split(alloc: Global, line: &Line) -> Result<Option<Card>, CardFault>
    requires { IsTrue line.now.longer → 61 ≤ length line.now.bytes }
    ensures { (keep : ℕ) (whole : TextLine) → line.now ≡ answered line.now.number keep whole
        → Says line.now.number (card_of whole.bytes) result }
{
    split_text(alloc, counted_columns(line), line.number)
}

/// The columns of a line that count: the first 61, without a carriage return at the line's end.
///
/// The line is one that a reader has answered, or could have, with 61 bytes of it kept or more.
pub fn counted_columns(line: &Line) -> &[u8]
    requires { IsTrue line.now.longer → 61 ≤ length line.now.bytes }
    ensures { (keep : ℕ) (whole : TextLine) → line.now ≡ answered line.now.number keep whole → result.now ≡ counted whole.bytes }
{
    let text = kept_bytes(line);
    &text[..COLUMNS.min(text.len())]
}

/// The bytes of a line that are there, without a carriage return at the line's end.
pub fn kept_bytes(line: &Line) -> &[u8]
    ensures { result.now ≡ kept_bytes line.now }
{
    let text = line.bytes.bytes();
    if line.longer {
        text
    } else {
        before_return(text)
    }
}

/// The line without a carriage return at its end.
fn before_return(line: &[u8]) -> &[u8]
    ensures { result.now ≡ without_return line.now }
{
    match line {
        [front @ .., b'\r'] => front,
        _ => line,
    }
}

/// The card in the columns that count.
fn split_text(alloc: Global, text: &[u8], number: u64) -> Result<Option<Card>, CardFault>
    ensures { Says number (card_in text.now) result }
{
    if is_no_card(text) {
        return Ok(None);
    }
    if !prints(text) {
        return Err(CardFault::InLine(number, LineFault::NotAscii));
    }
    if byte_at(text, 1) != b' ' {
        return Ok(Some(card(alloc, text, CardKind::Section, number)?));
    }
    if let Some(column) = first_filled_gap(text) {
        return Err(CardFault::InLine(number, LineFault::Columns(column)));
    }
    Ok(Some(card(alloc, text, CardKind::Data, number)?))
}

/// A card of this kind.
fn card(alloc: Global, text: &[u8], kind: CardKind, number: u64) -> Result<Card, CardFault>
    ensures ok { IfOk result (λ card. card ≡ record { line = number; kind = kind; fields = field_list kind text.now }) }
    ensures err { IfErr result (λ fault. fault ≡ CardFault.Memory) }
{
    Ok(Card {
        line: number,
        kind,
        fields: Fields::new(alloc, text, kind)?,
    })
}
