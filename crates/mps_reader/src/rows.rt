// Cards of the rows.
ghost use Rattle.std.specs.Prelude.{◌≡◌, None};
ghost use Rattle.lp_text.specs.Cards.{field_of};
ghost use Rattle.mps_model.specs.DeckSoFar.{DeckSoFar, place_of};
ghost use Rattle.mps_model.specs.declared.RowType.TheVariants.{Free, Kept};
ghost use Rattle.mps_model.specs.RowCards.{judge_row, row_type_of, with_row_of};
ghost use Rattle.mps_reader.specs.Inner.Standing.{InRows, IsSpelled, Judged, IsDraftOf};

use crate::draft::Draft;
use crate::fields::CardFields;
use crate::refusal::Refusal;
use deck_model::{Name, RowKind};
use lp_text::{Counted, LineFault, ROW_LIMIT};
use mps_model::RowType;
use std::alloc::Global;

// The type of a word.
fn row_type_of(word: &[u8]) -> Option<RowType>
    ensures { result ≡ row_type_of word.now }
{
    match word {
        b"N" => Some(RowType::Free),
        b"L" => Some(RowType::Kept(RowKind::L)),
        b"G" => Some(RowType::Kept(RowKind::G)),
        b"E" => Some(RowType::Kept(RowKind::E)),
        _ => None,
    }
}

impl Draft {
    // Takes a card of the rows, whose name a card may spell.
    pub(crate) fn take_row(&mut self, alloc: Global, fields: &CardFields) -> Result<(), Refusal>
        requires stands { (s : DeckSoFar) × IsDraftOf self.old s }
        requires rows { InRows self.old }
        requires spelled { IsSpelled (field_of fields.now 2) }
        ensures { (s : DeckSoFar) → IsDraftOf self.old s → Judged (judge_row s fields.now) self.new result }
    {
        let Some(kind) = row_type_of(fields.get(1)) else {
            return Err(Refusal::Fault(LineFault::RowType));
        };
        let name = Name::of(alloc, fields.get(2))?;
        if self.place(&name).is_some() {
            return Err(Refusal::Fault(LineFault::Repeated));
        }
        match kind {
            RowType::Free => self.add_free_row(alloc, name),
            RowType::Kept(kind) => self.add_row(name, kind),
        }
    }

    // Adds an N row, which is the objective where it is the first.
    fn add_free_row(&mut self, alloc: Global, name: Name) -> Result<(), Refusal>
        requires stands { (s : DeckSoFar) × IsDraftOf self.old s × (place_of s name ≡ None) }
        requires rows { InRows self.old }
        ensures { (s : DeckSoFar) → IsDraftOf self.old s → place_of s name ≡ None → Judged (with_row_of s name Free) self.new result }
    {
        if self.free_rows.is_empty() {
            self.deck.set_objective(Name::of(alloc, name.bytes())?);
        }
        self.free_rows.insert(name)?;
        Ok(())
    }

    // Adds a row that the deck keeps.
    fn add_row(&mut self, name: Name, kind: RowKind) -> Result<(), Refusal>
        requires stands { (s : DeckSoFar) × IsDraftOf self.old s × (place_of s name ≡ None) }
        requires rows { InRows self.old }
        requires spelled { IsSpelled name }
        ensures { (s : DeckSoFar) → IsDraftOf self.old s → place_of s name ≡ None → Judged (with_row_of s name (Kept kind)) self.new result }
    {
        if self.deck.rows() >= ROW_LIMIT {
            return Err(Refusal::Fault(LineFault::Limit(Counted::Rows)));
        }
        self.deck.add_row(name, kind)?;
        Ok(())
    }
}
