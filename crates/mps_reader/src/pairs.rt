// Cards with pairs of a row's name and a number: those of the columns, of the right sides and of the ranges.
ghost use Rattle.std.specs.Prelude.{◌≡◌, ◌<◌, MatchBool, None, OnOk, length};
ghost use Rattle.lp_model.specs.Edit.{find_column};
ghost use Rattle.mps_model.specs.DeckSoFar.{DeckSoFar};
ghost use Rattle.mps_model.specs.PairCards.{at_column, begin_column, has_second_pair, judge_column, judge_pair, judge_pairs};
ghost use Rattle.mps_reader.specs.Inner.Uses.{use_is};
ghost use Rattle.mps_reader.specs.Inner.Placed.{IsAmongRows, IsRoom, IsVacant, IsVacantFor, deck_after, has_room_at, has_room_for, has_room_in, with_number, with_range_at, with_right_at};
ghost use Rattle.mps_reader.specs.Inner.Standing.{InColumns, IsLast, Judged, MayUse, IsDraftOf};

use crate::bounds::Ends;
use crate::draft::{Draft, Place};
use crate::fields::CardFields;
use crate::refusal::Refusal;
use deck_model::{EditFault, Name};
use exact_frac::Frac;
use lp_text::{COLUMN_LIMIT, Counted, ENTRY_LIMIT, LineFault};
use number_fields::field;
use std::alloc::Global;

// What the number of a pair is used for.
#[derive(Clone, Copy, Debug, PartialEq, Eq)]
pub(crate) enum Use {
    InColumn,
    AsRight,
    AsRange,
}

impl From<EditFault> for Refusal {
    ghost use Rattle.mps_reader.specs.Inner.Refusals.{edit_refusal};

    ghost from_gives = { λ fault refusal. refusal ≡ edit_refusal fault };

    fn from(fault: EditFault) -> Refusal {
        match fault {
            EditFault::Memory => Refusal::Memory,
            EditFault::Repeated => Refusal::Fault(LineFault::Repeated),
        }
    }
}

// Whether a card has a second pair.
fn has_second_pair(fields: &CardFields) -> bool
    ensures { result ≡ has_second_pair fields.now }
{
    !fields.get(5).is_empty() || !fields.get(6).is_empty()
}

impl Draft {
    // Takes a card of a column.
    pub(crate) fn take_column(&mut self, alloc: Global, fields: &CardFields) -> Result<(), Refusal>
        requires stands { (s : DeckSoFar) × IsDraftOf self.old s }
        requires at { InColumns self.old }
        ensures { (s : DeckSoFar) → IsDraftOf self.old s → Judged (judge_column s fields.now) self.new result }
    {
        self.at_column(alloc, fields.get(2))?;
        self.take_pairs(alloc, Use::InColumn, fields)
    }

    // Makes the column of this name the last one, where it is that already or is new.
    fn at_column(&mut self, alloc: Global, name: &[u8]) -> Result<(), Refusal>
        requires stands { (s : DeckSoFar) × IsDraftOf self.old s }
        requires at { InColumns self.old }
        ensures judged { (s : DeckSoFar) → IsDraftOf self.old s → Judged (at_column s name.now) self.new result }
        ensures at { OnOk result (MayUse Use.InColumn self.new) }
    {
        if self.is_last_column(name) {
            return Ok(());
        }
        let name = Name::of(alloc, name)?;
        if self.deck.find_column(&name).is_some() {
            return Err(Refusal::Fault(LineFault::Scattered));
        }
        self.begin_column(name)
    }

    // Whether the last column has this name.
    fn is_last_column(&self, name: &[u8]) -> bool
        ensures { MatchBool result (IsLast self.now.deck name.now) (¬ IsLast self.now.deck name.now) }
    {
        let columns = self.deck.columns();
        if columns == 0 {
            return false;
        }
        self.deck.column_name(columns - 1).bytes() == name
    }

    // Adds a column.
    fn begin_column(&mut self, name: Name) -> Result<(), Refusal>
        requires stands { (s : DeckSoFar) × IsDraftOf self.old s }
        requires at { InColumns self.old }
        requires new { find_column self.old.deck name ≡ None }
        ensures judged { (s : DeckSoFar) → IsDraftOf self.old s → Judged (begin_column s name) self.new result }
        ensures at { OnOk result (MayUse Use.InColumn self.new) }
    {
        if self.deck.columns() >= COLUMN_LIMIT {
            return Err(Refusal::Fault(LineFault::Limit(Counted::Columns)));
        }
        self.bounds.push(Ends::NONNEGATIVE)?;
        self.deck.add_column(name)?;
        self.named.clear();
        Ok(())
    }

    // Takes the pairs of a card, one after the other.
    pub(crate) fn take_pairs(
        &mut self,
        alloc: Global,
        how: Use,
        fields: &CardFields,
    ) -> Result<(), Refusal>
        requires stands { (s : DeckSoFar) × IsDraftOf self.old s }
        requires may { MayUse how self.old }
        ensures { (s : DeckSoFar) → IsDraftOf self.old s → Judged (judge_pairs (use_is how) s fields.now) self.new result }
    {
        self.take_pair(alloc, how, fields.get(3), fields.get(4))?;
        if !has_second_pair(fields) {
            return Ok(());
        }
        self.take_pair(alloc, how, fields.get(5), fields.get(6))
    }

    // Takes a row's name and a number.
    fn take_pair(
        &mut self,
        alloc: Global,
        how: Use,
        name: &[u8],
        text: &[u8],
    ) -> Result<(), Refusal>
        requires stands { (s : DeckSoFar) × IsDraftOf self.old s }
        requires may { MayUse how self.old }
        ensures judged { (s : DeckSoFar) → IsDraftOf self.old s → Judged (judge_pair (use_is how) s name.now text.now) self.new result }
        ensures may { OnOk result (MayUse how self.new) }
    {
        let name = Name::of(alloc, name)?;
        let Some(place) = self.place(&name) else {
            return Err(Refusal::Fault(LineFault::UnknownRow));
        };
        if self.is_named(place) {
            return Err(Refusal::Fault(LineFault::Repeated));
        }
        let Ok(value) = field(text) else {
            return Err(Refusal::Fault(LineFault::Number));
        };
        let slot = self.slot(place);
        self.use_number(how, place, value)?;
        self.named.set(slot, true);
        Ok(())
    }

    // Uses a number at a place.
    fn use_number(&mut self, how: Use, place: Place, value: Frac) -> Result<(), Refusal>
        requires row { IsAmongRows self.old.deck place }
        requires may { MayUse how self.old }
        requires vacant { IsVacantFor how self.old.deck place }
        ensures ok { OnOk result (self.new ≡ record self.old { deck = deck_after how self.old.deck place value }) }
        ensures room { IsRoom (has_room_for how self.old.deck place value) result }
    {
        match how {
            Use::InColumn => self.put_number(place, value),
            Use::AsRight => {
                self.set_right(place, value);
                Ok(())
            }
            Use::AsRange => {
                self.set_range(place, value);
                Ok(())
            }
        }
    }

    // Gives the last column its number at a place: a cost or an entry.
    fn put_number(&mut self, place: Place, value: Frac) -> Result<(), Refusal>
        requires row { IsAmongRows self.old.deck place }
        requires column { 0 < length self.old.deck.columns }
        requires vacant { IsVacant self.old.deck place }
        ensures ok { OnOk result (self.new ≡ record self.old { deck = with_number self.old.deck place value }) }
        ensures room { IsRoom (has_room_at self.old.deck place value) result }
    {
        match place {
            Place::Objective => {
                self.check_room(value)?;
                self.deck.set_cost(self.deck.columns() - 1, value);
                Ok(())
            }
            Place::Row(row) => {
                self.check_room(value)?;
                Ok(self.deck.add_entry(self.deck.columns() - 1, row, value)?)
            }
            Place::Dropped(_) => Ok(()),
        }
    }

    // Refuses a number that is not 0 where there is no room for one more.
    fn check_room(&self, value: Frac) -> Result<(), Refusal>
        ensures { IsRoom (has_room_in self.now.deck value) result }
    {
        if value.is_zero() {
            return Ok(());
        }
        if self.deck.entries() >= ENTRY_LIMIT {
            return Err(Refusal::Fault(LineFault::Limit(Counted::Entries)));
        }
        Ok(())
    }

    // Gives the row at a place its right side; on the objective its negative is the constant.
    fn set_right(&mut self, place: Place, value: Frac)
        requires { IsAmongRows self.old.deck place }
        ensures { self.new ≡ record self.old { deck = with_right_at self.old.deck place value } }
    {
        match place {
            Place::Objective => self.deck.set_constant(value.negated()),
            Place::Row(row) => self.deck.set_right(row, value),
            Place::Dropped(_) => {}
        }
    }

    // Gives the row at a place its range.
    fn set_range(&mut self, place: Place, value: Frac)
        requires { IsAmongRows self.old.deck place }
        ensures { self.new ≡ record self.old { deck = with_range_at self.old.deck place value } }
    {
        if let Place::Row(row) = place {
            self.deck.set_range(row, value);
        }
    }
}
