//! The names that stand in lines of values.
ghost use Rattle.std.specs.Prelude.{◌≡◌, ◌<◌, [], length, get_or};
ghost use Rattle.cert_text.specs.Names.{names_of};

use deck_model::Deck;

/// The names of a deck's columns, or of its rows.
#[derive(Drop)]
pub enum Names<'a> {
    Columns(&'a Deck),
    Rows(&'a Deck),
}

impl<'a> Names<'a> {
    /// How many names there are.
    pub fn len(&self) -> usize
        ensures { result ≡ length (names_of self.now) }
    {
        match self {
            Names::Columns(deck) => deck.columns(),
            Names::Rows(deck) => deck.rows(),
        }
    }

    /// The name at this index.
    pub fn get(&self, index: usize) -> &'a [u8]
        requires { index < length (names_of self.now) }
        ensures { result.now ≡ get_or (names_of self.now) index [] }
    {
        match self {
            Names::Columns(deck) => deck.column_name(index).bytes(),
            Names::Rows(deck) => deck.row_name(index).bytes(),
        }
    }
}
