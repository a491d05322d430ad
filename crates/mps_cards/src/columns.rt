ghost use Rattle.std.specs.Prelude.{◌≡◌, ◌≤◌, not};
ghost use Rattle.std.specs.List.{list_all, take_while};
ghost use Rattle.lp_text.specs.Cards.{byte_in, bytes_in, filled_gap, is_blank, is_ignored, is_printable, trimmed};

use crate::places::first_place;
use crate::words::skip_blanks;

/// The columns between the fields of a card of data.
const GAPS: [u8; 10] = [4, 13, 14, 23, 24, 37, 38, 39, 48, 49];

/// The byte in a column, a blank past the end.
pub fn byte_at(text: &[u8], column: usize) -> u8
    requires { 1 ≤ column }
    ensures { result ≡ byte_in text.now column }
{
    text.get(column - 1).copied().unwrap_or(b' ')
}

/// The bytes from one column through another, as far as the text goes.
pub(crate) fn bytes_between(text: &[u8], first: usize, last: usize) -> &[u8]
    requires low { 1 ≤ first }
    requires order { first ≤ last }
    ensures { result.now ≡ bytes_in text.now first last }
{
    let end = last.min(text.len());
    let start = (first - 1).min(end);
    &text[start..end]
}

/// The text without the blanks around it.
pub(crate) fn trim(text: &[u8]) -> &[u8]
    ensures { result.now ≡ trimmed text.now }
{
    let mut text = skip_blanks(text);
    'trailing: while let [rest @ .., b' '] = text {
        text = rest;
    }
    text
}

/// The text before the first blank.
#[tactic(auto, using(crate::proofs::ColumnLemmas::first_word))]
pub(crate) fn first_word(text: &[u8]) -> &[u8]
    ensures { result.now ≡ take_while (λ c. not (is_blank c)) text.now }
{
    &text[..first_place(text, b' ')]
}

/// Whether the text has nothing but blanks.
pub fn has_only_blanks(text: &[u8]) -> bool
    ensures { result ≡ list_all is_blank text.now }
{
    text.iter().all(|&c| c == b' ')
}

/// Whether the text is a comment or a line of blanks.
pub(crate) fn is_no_card(text: &[u8]) -> bool
    ensures { result ≡ is_ignored text.now }
{
    byte_at(text, 1) == b'*' || has_only_blanks(text)
}

/// Whether each byte of the text prints.
pub fn prints(text: &[u8]) -> bool
    ensures { result ≡ list_all is_printable text.now }
{
    text.iter().all(|&c| 32 <= c && c <= 126)
}

/// The least column between two fields that is not blank.
pub(crate) fn first_filled_gap(text: &[u8]) -> Option<u8>
    ensures { result ≡ filled_gap text.now }
{
    GAPS.iter()
        .copied()
        .find(|&column| byte_at(text, usize::from(column)) != b' ')
}
