ghost use Rattle.std.specs.Prelude.{◌≡◌, ◌<◌, [], IfOk, length, slice_index_or};
ghost use Rattle.lp_text.specs.Cards.{words_of};

use mps_cards::{split_word, word_at};
use std::alloc::{AllocError, Global};
use std::marker::Model;

/// The tokens of a card, cut out of its text when they are asked for.
#[derive(Debug, Drop)]
pub struct Tokens {
    text: Vec<u8>,
}

impl Model for Tokens {
    ghost use Rattle.std.specs.Prelude.{List, ℕ};
    ghost use Rattle.lp_text.specs.Cards.{words_of};

    ghost Value = { List (List ℕ) };

    ghost view = { λ t. words_of t.text.items };
}

impl Tokens {
    /// The tokens of a text.
    pub(crate) fn of(alloc: Global, text: &[u8]) -> Result<Tokens, AllocError>
        ensures { IfOk result (λ tokens. tokens ≡ words_of text.now) }
    {
        Ok(Tokens {
            text: Vec::from_slice(alloc, text)?,
        })
    }

    /// How many there are.
    pub fn count(&self) -> usize
        ensures { result ≡ length self.now }
    {
        count_words(&self.text)
    }

    /// The token of an index, counted from 0.
    pub fn get(&self, index: usize) -> &[u8]
        requires { index < length self.now }
        ensures { result.now ≡ slice_index_or self.now index [] }
    {
        word_at(&self.text, index)
    }
}

/// How many words a text has.
fn count_words(text: &[u8]) -> usize
    ensures { result ≡ length (words_of text.now) }
{
    let mut count = 0;
    let mut rest = text;
    'words: while let Some((_, behind)) = split_word(rest) {
        count += 1;
        rest = behind;
    }
    count
}
