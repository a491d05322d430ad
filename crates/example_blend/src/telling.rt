//! What an outcome says of a deck, as text.
ghost use Rattle.std.specs.Prelude.{◌≡◌, length};
ghost use Rattle.bland_laws.specs.OutcomeProves.{OutcomeProves};
ghost use Rattle.deck_model.specs.Outcome.{outcome_of};

use deck_model::{Deck, Outcome};
use exact_frac::{Frac, Fracs};
use no_memory::Memory;

/// Appends the lines of an outcome of the deck with this much protein.
///
/// # Errors
///
/// `Memory` for want of memory.
pub fn tell(text: &mut Vec<u8>, deck: &Deck, protein: Frac, outcome: &Outcome) -> Result<(), Memory>
    requires { OutcomeProves deck.now (outcome_of outcome.now) }
{
    put_line(text, b"PROTEIN", protein, b"")?;
    match outcome {
        Outcome::Optimal { x, y, objective } => {
            put_line(text, b"COST", *objective, b"")?;
            put_columns(text, deck, b"VALUE", x)?;
            put_rows(text, deck, b"PRICE", y)
        }
        Outcome::Infeasible { y } => put_rows(text, deck, b"FARKAS", y),
        Outcome::Unbounded { x: _, ray } => put_columns(text, deck, b"RAY", ray),
    }
}

// Appends a line for each column.
fn put_columns(text: &mut Vec<u8>, deck: &Deck, word: &[u8], numbers: &Fracs) -> Result<(), Memory>
    requires { length numbers.now ≡ length deck.now.columns }
{
    for j in 0..deck.columns() {
        put_line(text, word, numbers.get(j), deck.column_name(j).bytes())?;
    }
    Ok(())
}

// Appends a line for each row.
fn put_rows(text: &mut Vec<u8>, deck: &Deck, word: &[u8], numbers: &Fracs) -> Result<(), Memory>
    requires { length numbers.now ≡ length deck.now.rows }
{
    for i in 0..deck.rows() {
        put_line(text, word, numbers.get(i), deck.row_name(i).bytes())?;
    }
    Ok(())
}

// Appends a word, a number and a name.
fn put_line(text: &mut Vec<u8>, word: &[u8], number: Frac, name: &[u8]) -> Result<(), Memory> {
    text.extend_from_slice(word)?;
    text.push(b' ')?;
    frac_text::append(text, number)?;
    if !name.is_empty() {
        text.push(b' ')?;
        text.extend_from_slice(name)?;
    }
    text.push(b'\n')?;
    Ok(())
}
