// The sections of a deck and their order.
ghost use Rattle.std.specs.Prelude.{◌≡◌};
ghost use Rattle.mps_model.specs.Judgement.{has_no_sense};
ghost use Rattle.mps_model.specs.Sections.{has_begun, may_begin, section_of};

use mps_free::sense_of;
use mps_model::Section;

// The section of a word.
pub(crate) fn section_of(word: &[u8]) -> Option<Section>
    ensures { result ≡ section_of word.now }
{
    match word {
        b"NAME" => Some(Section::Title),
        b"OBJSENSE" => Some(Section::ObjectiveSense),
        b"ROWS" => Some(Section::Rows),
        b"COLUMNS" => Some(Section::Columns),
        b"RHS" => Some(Section::RightSides),
        b"RANGES" => Some(Section::Ranges),
        b"BOUNDS" => Some(Section::Bounds),
        b"ENDATA" => Some(Section::Finish),
        _ => None,
    }
}

// Whether a section is among those that have begun.
fn is_among(section: Section, begun: &[Section]) -> bool
    ensures { result ≡ has_begun section begun.now }
{
    begun.contains(&section)
}

// Whether a section may begin after those that have, the last one first.
pub(crate) fn may_begin(section: Section, begun: &[Section]) -> bool
    ensures { result ≡ may_begin section begun.now }
{
    match section {
        Section::Title => begun.is_empty(),
        Section::ObjectiveSense => !is_among(Section::Rows, begun) && !is_among(section, begun),
        Section::Rows => !is_among(section, begun),
        Section::Columns => is_among(Section::Rows, begun) && !is_among(section, begun),
        Section::RightSides | Section::Ranges | Section::Bounds => {
            is_among(Section::Columns, begun) && !is_among(section, begun)
        }
        Section::Finish => is_among(Section::Columns, begun),
    }
}

// Whether the second word of a section's card ought to be a sense and is none.
pub(crate) fn has_no_sense(section: Section, second: &[u8]) -> bool
    ensures { result ≡ has_no_sense section second.now }
{
    match section {
        Section::ObjectiveSense => !second.is_empty() && sense_of(second).is_none(),
        _ => false,
    }
}
