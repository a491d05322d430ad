ghost use Rattle.std.specs.Prelude.{◌≡◌, ◌≤◌, ℕ, IsTrue, length, nat_lt, take};
ghost use Rattle.std.specs.List.{list_all, list_any};
ghost use Rattle.lp_text.specs.Cards.{is_printable, words_of};
ghost use Rattle.lp_text.specs.FreeCards.{free_card, free_card_in, is_too_long};
ghost use Rattle.lp_text.specs.Limits.{free_line_limit, token_limit};
ghost use Rattle.lp_text.specs.Lines.{Line as TextLine};
ghost use Rattle.mps_cards.specs.NextLine.{answered};
ghost use Rattle.mps_free.specs.Cutting.{Says};

use crate::cards::{FreeCard, FreeFault};
use crate::tokens::Tokens;
use lp_text::{FREE_LINE_LIMIT, TOKEN_LIMIT};
use mps_cards::{Line, byte_at, has_only_blanks, kept_bytes, prints, split_word};
use std::alloc::Global;

/// The card that a line in free form is, or none for a comment and for a line of blanks.
///
/// A carriage return at the line's end is dropped. The line is one that a reader has answered, or could have; so much of it is
/// there that the card is that of the whole line.
///
/// # Errors
///
/// `NotAscii` where a byte outside 32 to 126 stands among the first 255 of a line that is no comment, else `Token` where a line
/// that is no comment has more than 255 bytes, or a token of more than 64. `Memory` where there is too little memory.
pub fn free_card(alloc: Global, line: &Line) -> Result<Option<FreeCard>, FreeFault>
    requires { IsTrue line.now.longer → 256 ≤ length line.now.bytes }
    ensures { (keep : ℕ) (whole : TextLine) → line.now ≡ answered line.now.number keep whole
        → Says line.now.number (free_card whole.bytes) result }
{
    word_card(alloc, kept_bytes(line), line.number)
}

/// The card in a text of the line of a number.
///
/// # Errors
///
/// As [`free_card`], with the text in place of the line.
pub fn word_card(alloc: Global, text: &[u8], number: u64) -> Result<Option<FreeCard>, FreeFault>
    ensures { Says number (free_card_in text.now) result }
{
    let first = byte_at(text, 1);
    if first == b'*' {
        return Ok(None);
    }
    if !front_prints(text) {
        return Err(FreeFault::NotAscii(number));
    }
    if is_too_long(text) {
        return Err(FreeFault::Token(number));
    }
    if has_only_blanks(text) {
        return Ok(None);
    }
    let tokens = Tokens::of(alloc, text)?;
    if first == b' ' {
        Ok(Some(FreeCard::Data(tokens)))
    } else {
        Ok(Some(FreeCard::Section(tokens)))
    }
}

/// Whether each byte prints, of as many as a line may have.
fn front_prints(text: &[u8]) -> bool
    ensures { result ≡ list_all is_printable (take free_line_limit text.now) }
{
    prints(&text[..FREE_LINE_LIMIT.min(text.len())])
}

/// Whether a text or one of its words has more bytes than it may have.
fn is_too_long(text: &[u8]) -> bool
    ensures { result ≡ is_too_long text.now }
{
    text.len() > FREE_LINE_LIMIT || has_long_word(text)
}

/// Whether a word of a text has more bytes than a token may have.
fn has_long_word(text: &[u8]) -> bool
    ensures { result ≡ list_any (λ word. nat_lt token_limit (length word)) (words_of text.now) }
{
    let mut rest = text;
    'words: while let Some((word, behind)) = split_word(rest) {
        if word.len() > TOKEN_LIMIT {
            return true;
        }
        rest = behind;
    }
    false
}
