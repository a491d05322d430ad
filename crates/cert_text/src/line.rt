// The lines of a report.
ghost use Rattle.std.specs.Prelude.{◌≡◌, ◌∷◌, ◌++◌, [], OnOk};
ghost use Rattle.std.specs.Fmt.{decimal};
ghost use Rattle.lp_text.specs.Fraction.{fraction_text};
ghost use Rattle.lp_text.specs.Report.{entry_line, side_word};
ghost use Rattle.cert_text.specs.Line.{line_text};

use deck_model::{Entry, Side};
use exact_frac::Frac;
use itoa::{Buffer, Integer};
use no_memory::Memory;

/// A line of a report, but for its line feed. Names are given by their bytes.
#[derive(Drop)]
pub enum Line<'a> {
    /// A word alone.
    Word(&'a [u8]),
    /// The deck's name.
    Deck(&'a [u8]),
    /// The objective's value.
    Objective(Frac),
    /// A word, and a value with the name of its row or column.
    Value(&'a [u8], Frac, &'a [u8]),
    /// A word, and a number.
    Number(&'a [u8], usize),
    /// An entry of the log.
    Entry(Entry),
}

impl Line<'_> {
    /// Puts the line with its line feed into a buffer, in place of what was there.
    pub fn fill(&self, buffer: &mut Vec<u8>) -> Result<(), Memory>
        ensures { OnOk result (buffer.new.items ≡ line_text self.now ++ 10 ∷ []) }
    {
        buffer.clear();
        self.put(buffer)?;
        buffer.push(b'\n')?;
        Ok(())
    }

    // Appends the line's text.
    fn put(&self, buffer: &mut Vec<u8>) -> Result<(), Memory>
        ensures { OnOk result (buffer.new.items ≡ buffer.old.items ++ line_text self.now) }
    {
        match self {
            Line::Word(word) => buffer.extend_from_slice(word)?,
            Line::Deck(name) => {
                buffer.extend_from_slice(b"DECK")?;
                put_text(buffer, name)?;
            }
            Line::Objective(value) => {
                buffer.extend_from_slice(b"OBJECTIVE")?;
                put_fraction(buffer, *value)?;
            }
            Line::Value(word, value, name) => {
                buffer.extend_from_slice(word)?;
                put_fraction(buffer, *value)?;
                put_text(buffer, name)?;
            }
            Line::Number(word, number) => {
                buffer.extend_from_slice(word)?;
                put_number(buffer, *number)?;
            }
            Line::Entry(entry) => put_entry(buffer, *entry)?,
        }
        Ok(())
    }
}

// Appends a blank and a text.
fn put_text(buffer: &mut Vec<u8>, text: &[u8]) -> Result<(), Memory>
    ensures { OnOk result (buffer.new.items ≡ buffer.old.items ++ 32 ∷ text.now) }
{
    buffer.push(b' ')?;
    buffer.extend_from_slice(text)?;
    Ok(())
}

// Appends a blank and a fraction.
fn put_fraction(buffer: &mut Vec<u8>, value: Frac) -> Result<(), Memory>
    ensures { OnOk result (buffer.new.items ≡ buffer.old.items ++ 32 ∷ fraction_text value) }
{
    buffer.push(b' ')?;
    frac_text::append(buffer, value)
}

// Appends a blank and a number.
fn put_number(buffer: &mut Vec<u8>, number: usize) -> Result<(), Memory>
    ensures { OnOk result (buffer.new.items ≡ buffer.old.items ++ 32 ∷ decimal number) }
{
    put_text(buffer, Buffer::new().format(number).as_bytes())
}

// Appends the line of an entry.
fn put_entry(buffer: &mut Vec<u8>, entry: Entry) -> Result<(), Memory>
    ensures { OnOk result (buffer.new.items ≡ buffer.old.items ++ entry_line entry) }
{
    match entry {
        Entry::Flip(column) => {
            buffer.extend_from_slice(b"FLIP")?;
            put_number(buffer, column as usize)
        }
        Entry::Swap(column, position, end) => {
            buffer.extend_from_slice(b"SWAP")?;
            put_number(buffer, column as usize)?;
            put_number(buffer, position as usize)?;
            put_text(buffer, side_word(end))
        }
        Entry::Turn => Ok(buffer.extend_from_slice(b"TURN")?),
    }
}

// The word of an end.
fn side_word(end: Side) -> &'static [u8]
    ensures { result.now ≡ side_word end }
{
    match end {
        Side::Lower => b"LOWER",
        Side::Upper => b"UPPER",
    }
}
