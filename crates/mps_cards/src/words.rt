ghost use Rattle.std.specs.Prelude.{◌≡◌, ◌<◌, ◌∷◌, [], length, slice_index_or, IfSome, MatchOption};
ghost use Rattle.lp_text.specs.Cards.{without_leading, words_of};

use crate::places::first_place;

/// The text without the blanks before it.
pub(crate) fn skip_blanks(text: &[u8]) -> &[u8]
    ensures { result.now ≡ without_leading text.now }
{
    let mut text = text;
    'leading: while let [b' ', rest @ ..] = text {
        text = rest;
    }
    text
}

/// The first word of a text, and the text behind it. There is none where the text has nothing but blanks.
pub fn split_word(text: &[u8]) -> Option<(&[u8], &[u8])>
    ensures words { MatchOption result (words_of text.now ≡ []) (λ p. words_of text.now ≡ p.0.now ∷ words_of p.1.now) }
    ensures shorter { IfSome result (λ p. length p.1.now < length text.now) }
{
    let text = skip_blanks(text);
    let end = first_place(text, b' ');
    if end == 0 {
        return None;
    }
    Some((&text[..end], &text[end..]))
}

/// The word of an index in a text, counted from 0. It is empty where there are not so many words.
pub fn word_at(text: &[u8], index: usize) -> &[u8]
    ensures { result.now ≡ slice_index_or (words_of text.now) index [] }
{
    let mut rest = text;
    'words: for _ in 0..index {
        let Some((_, behind)) = split_word(rest) else {
            return &text[..0];
        };
        rest = behind;
    }
    match split_word(rest) {
        Some((word, _)) => word,
        None => &text[..0],
    }
}
