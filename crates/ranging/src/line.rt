//! The lines of the text of ranges.
ghost use Rattle.std.specs.Prelude.{◌≡◌, ◌∷◌, ◌++◌, [], OnOk};
ghost use Rattle.ranging.specs.Inner.Lines.{line_text};
ghost use Rattle.ranging.specs.Text.{high_text, low_text};

use exact_frac::Frac;
use instance_model::Bounds;
use no_memory::Memory;

/// A line of the text of ranges, but for its line feed. Names are given by their bytes.
#[derive(Drop)]
pub enum Line<'a> {
    /// A word alone.
    Word(&'a [u8]),
    /// The deck's name.
    Deck(&'a [u8]),
    /// A word, and a range with the name of its column or row.
    Range(&'a [u8], Bounds, &'a [u8]),
}

impl Line<'_> {
    /// Puts the line with its line feed into a buffer, in place of what was there.
    pub fn fill(&self, buffer: &mut Vec<u8>) -> Result<(), Memory>
        ensures { OnOk result (buffer.new.items ≡ line_text self.now ++ 10 ∷ []) }
    {
        buffer.clear();
        self.put(buffer)?;
        buffer.push(b'\n')?;
        Ok(())
    }

    // Appends the line's text.
    fn put(&self, buffer: &mut Vec<u8>) -> Result<(), Memory>
        ensures { OnOk result (buffer.new.items ≡ buffer.old.items ++ line_text self.now) }
    {
        match self {
            Line::Word(word) => buffer.extend_from_slice(word)?,
            Line::Deck(name) => {
                buffer.extend_from_slice(b"DECK")?;
                put_text(buffer, name)?;
            }
            Line::Range(word, range, name) => {
                buffer.extend_from_slice(word)?;
                put_low(buffer, range.lower())?;
                put_high(buffer, range.upper())?;
                put_text(buffer, name)?;
            }
        }
        Ok(())
    }
}

// Appends a blank and a text.
fn put_text(buffer: &mut Vec<u8>, text: &[u8]) -> Result<(), Memory>
    ensures { OnOk result (buffer.new.items ≡ buffer.old.items ++ 32 ∷ text.now) }
{
    buffer.push(b' ')?;
    buffer.extend_from_slice(text)?;
    Ok(())
}

// Appends a blank and a lower end.
fn put_low(buffer: &mut Vec<u8>, end: Option<Frac>) -> Result<(), Memory>
    ensures { OnOk result (buffer.new.items ≡ buffer.old.items ++ 32 ∷ low_text end) }
{
    match end {
        None => put_text(buffer, b"-INF"),
        Some(value) => {
            buffer.push(b' ')?;
            frac_text::append(buffer, value)
        }
    }
}

// Appends a blank and an upper end.
fn put_high(buffer: &mut Vec<u8>, end: Option<Frac>) -> Result<(), Memory>
    ensures { OnOk result (buffer.new.items ≡ buffer.old.items ++ 32 ∷ high_text end) }
{
    match end {
        None => put_text(buffer, b"INF"),
        Some(value) => {
            buffer.push(b' ')?;
            frac_text::append(buffer, value)
        }
    }
}
