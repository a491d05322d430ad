//! A deck as far as its cards have come.
ghost use Rattle.std.specs.Prelude.{◌≡◌, ◌<◌, ◌∷◌, ℕ, List, [], IfOk, IfSome, MatchResult, Some, length, if◌then◌else◌};
ghost use Rattle.std.specs.Option.{option_map, unwrap_or};
ghost use Rattle.lp_model.specs.Edit.{same_bytes};
ghost use Rattle.lp_text.specs.Cards.{field_of};
ghost use Rattle.mps_cards.specs.Splitting.{text_card};
ghost use Rattle.mps_model.specs.DeckSoFar.{DeckSoFar, no_cards, place_of};
ghost use Rattle.mps_free.specs.Cutting.{text_card as free_card};
ghost use Rattle.mps_model.specs.declared.Section.{Section};
ghost use Rattle.mps_model.specs.Judgement.{has_finished, judge_card, judge_data, judge_free_card, judge_section, judge_sense, with_sense_given};
ghost use Rattle.mps_model.specs.PairCards.{judge_in_set, with_set};
ghost use Rattle.mps_reader.specs.Inner.Standing.{IsSpelled, Judged, MayUse, IsDraftOf, is_marked, place_is, set_judge, slot_is, slot_of};

use crate::bounds::Ends;
use crate::fields::{CardFields, fixed_fields, free_fields, token};
use crate::pairs::Use;
use crate::refusal::Refusal;
use crate::section::{has_no_sense, may_begin, section_of};
use deck_model::{Deck, Memory, Name};
use indexmap::IndexSet;
use lp_model::Sense;
use lp_text::LineFault;
use mps_cards::{Card, CardKind};
use mps_free::{FreeCard, sense_of};
use mps_model::Section;
use sparse_cols::Work;
use std::alloc::Global;

// The objective's name before the first N row. No card spells it: in fixed columns it is too long, and in free form a blank
// parts tokens.
const NO_OBJECTIVE: &[u8] = b"no objective";

// What a row's name stands for: the objective, the row of an index, or the N row of a number, which is dropped.
#[derive(Clone, Copy, Debug, PartialEq, Eq)]
pub(crate) enum Place {
    Objective,
    Row(usize),
    Dropped(usize),
}

// A deck as far as its cards have come.
#[derive(Drop)]
pub(crate) struct Draft {
    // The sections that have begun, the last one first.
    begun: Vec<Section>,
    pub(crate) deck: Deck,
    // Whether the next card is to hold the sense.
    awaits_sense: bool,
    // The names of the N rows; the first is the objective's.
    pub(crate) free_rows: IndexSet<Name>,
    // The set that the section's first card of data names.
    set: Option<Name>,
    // A mark for each row, and then for each N row, that the last column, or the section, has named.
    pub(crate) named: Work<bool>,
    // The bounds of each column, which may cross until the deck ends.
    pub(crate) bounds: Vec<Ends>,
}

impl Draft {
    // A deck that no card has come to.
    pub(crate) fn new(alloc: Global) -> Result<Draft, Memory>
        ensures { IfOk result (λ draft. IsDraftOf draft no_cards) }
    {
        Ok(Draft {
            begun: Vec::new(alloc),
            deck: Deck::new(alloc, Name::of(alloc, b"")?, Name::of(alloc, NO_OBJECTIVE)?),
            awaits_sense: false,
            free_rows: IndexSet::new(alloc),
            set: None,
            named: Work::new(alloc, 0)?,
            bounds: Vec::new(alloc),
        })
    }

    // Whether the next card is to hold the sense.
    pub(crate) fn awaits_sense(&self) -> bool
        ensures { (s : DeckSoFar) → IsDraftOf self.now s → result ≡ s.awaits_sense }
    {
        self.awaits_sense
    }

    // Takes the next card in fixed columns, whose second field a card of data may spell.
    pub(crate) fn take(&mut self, alloc: Global, card: Card) -> Result<(), Refusal>
        requires stands { (s : DeckSoFar) × IsDraftOf self.old s }
        requires spelled { card.kind ≡ CardKind.Data → IsSpelled (field_of card.fields 2) }
        ensures { (s : DeckSoFar) → IsDraftOf self.old s → Judged (judge_card s (text_card card)) self.new result }
    {
        match card.kind {
            CardKind::Section => self.begin(
                alloc,
                card.fields.get(1),
                card.fields.get(2),
                card.fields.get(3),
            ),
            CardKind::Data => {
                let section = self.last_section()?;
                let fields = fixed_fields(section, card.fields)?;
                self.take_data(alloc, section, &fields)
            }
        }
    }

    // Takes the next card in free form, whose tokens a card may spell.
    pub(crate) fn take_free(&mut self, alloc: Global, card: FreeCard) -> Result<(), Refusal>
        requires stands { (s : DeckSoFar) × IsDraftOf self.old s }
        requires spelled { (number : ℕ) → IsSpelled (field_of (free_card card).tokens number) }
        ensures { (s : DeckSoFar) → IsDraftOf self.old s → Judged (judge_free_card s (free_card card)) self.new result }
    {
        match card {
            FreeCard::Section(tokens) => self.begin(
                alloc,
                token(&tokens, 1),
                token(&tokens, 2),
                token(&tokens, 2),
            ),
            FreeCard::Data(tokens) => {
                let section = self.last_section()?;
                let fields = free_fields(section, tokens)?;
                self.take_data(alloc, section, &fields)
            }
        }
    }

    // Takes the card that is to hold the sense.
    pub(crate) fn take_sense(&mut self, card: FreeCard) -> Result<(), Refusal>
        requires { (s : DeckSoFar) × IsDraftOf self.old s }
        ensures { (s : DeckSoFar) → IsDraftOf self.old s → Judged (judge_sense s (free_card card)) self.new result }
    {
        let FreeCard::Data(tokens) = card else {
            return Err(Refusal::Fault(LineFault::Sense));
        };
        let Some(sense) = sense_of(token(&tokens, 1)) else {
            return Err(Refusal::Fault(LineFault::Sense));
        };
        self.give_sense(Some(sense));
        Ok(())
    }

    // Gives the deck a sense, or awaits it where there is none.
    fn give_sense(&mut self, sense: Option<Sense>)
        ensures { (s : DeckSoFar) → IsDraftOf self.old s → IsDraftOf self.new (with_sense_given s sense) }
    {
        match sense {
            Some(sense) => {
                self.awaits_sense = false;
                self.deck.set_sense(sense);
            }
            None => self.awaits_sense = true,
        }
    }

    // Begins a section, with its card's word and second word, and the name that a title's card has.
    fn begin(
        &mut self,
        alloc: Global,
        word: &[u8],
        second: &[u8],
        name: &[u8],
    ) -> Result<(), Refusal>
        requires { (s : DeckSoFar) × IsDraftOf self.old s }
        ensures { (s : DeckSoFar) → IsDraftOf self.old s → Judged (judge_section s word.now second.now name.now) self.new result }
    {
        let Some(section) = section_of(word) else {
            return Err(Refusal::Fault(LineFault::Section));
        };
        if has_no_sense(section, second) {
            return Err(Refusal::Fault(LineFault::Sense));
        }
        if !may_begin(section, &self.begun) {
            return Err(Refusal::Fault(LineFault::Section));
        }
        match section {
            Section::Title => self.deck.set_name(Name::of(alloc, name)?),
            Section::ObjectiveSense => self.give_sense(sense_of(second)),
            Section::Columns => {
                self.set = None;
                let slots = self
                    .deck
                    .rows()
                    .checked_add(self.free_rows.len())
                    .ok_or(Memory)?;
                self.named = Work::new(alloc, slots)?;
            }
            _ => {
                self.set = None;
                self.named.clear();
            }
        }
        self.begun.insert(0, section)?;
        Ok(())
    }

    // The section that has begun last.
    fn last_section(&self) -> Result<Section, Refusal>
        ensures { MatchResult result (λ section. (before : List Section) × (self.now.begun.items ≡ section ∷ before))
            (λ refusal. (self.now.begun.items ≡ []) × (refusal ≡ Refusal.Fault LineFault.Section)) }
    {
        self.begun
            .first()
            .copied()
            .ok_or(Refusal::Fault(LineFault::Section))
    }

    // Takes the fields of a card of data, by the section that it stands in.
    fn take_data(
        &mut self,
        alloc: Global,
        section: Section,
        fields: &CardFields,
    ) -> Result<(), Refusal>
        requires stands { (s : DeckSoFar) × IsDraftOf self.old s }
        requires last { (before : List Section) × (self.old.begun.items ≡ section ∷ before) }
        requires spelled { IsSpelled (field_of fields.now 2) }
        ensures { (s : DeckSoFar) → IsDraftOf self.old s → Judged (judge_data s.begun s fields.now) self.new result }
    {
        match section {
            Section::Rows => self.take_row(alloc, fields),
            Section::Columns => self.take_column(alloc, fields),
            Section::RightSides => self.take_in_set(alloc, Some(Use::AsRight), fields),
            Section::Ranges => self.take_in_set(alloc, Some(Use::AsRange), fields),
            Section::Bounds => self.take_in_set(alloc, None, fields),
            Section::ObjectiveSense => Err(Refusal::Fault(LineFault::Sense)),
            Section::Title | Section::Finish => Err(Refusal::Fault(LineFault::Section)),
        }
    }

    // Takes a card of a set: its pairs for this use, or a bound. It is passed over where its set is not that of the section's
    // first card.
    fn take_in_set(
        &mut self,
        alloc: Global,
        pairs: Option<Use>,
        fields: &CardFields,
    ) -> Result<(), Refusal>
        requires stands { (s : DeckSoFar) × IsDraftOf self.old s }
        requires may { IfSome pairs (λ how. MayUse how self.old) }
        ensures { (s : DeckSoFar) → IsDraftOf self.old s → Judged (judge_in_set (set_judge pairs) s fields.now) self.new result }
    {
        if !self.is_of_set(alloc, fields.get(2))? {
            return Ok(());
        }
        match pairs {
            Some(how) => self.take_pairs(alloc, how, fields),
            None => self.take_bound(alloc, fields),
        }
    }

    // Whether the set of this name is the one that the section uses; its first card's name becomes that.
    fn is_of_set(&mut self, alloc: Global, name: &[u8]) -> Result<bool, Memory>
        ensures kept { self.new ≡ record self.old { set = self.new.set } }
        ensures used { (s : DeckSoFar) → IsDraftOf self.old s
            → IfOk result (λ used. (used ≡ same_bytes (unwrap_or s.set name.now) name.now) × IsDraftOf self.new (if used then with_set s name.now else s)) }
    {
        match &self.set {
            Some(set) => Ok(set.bytes() == name),
            None => {
                self.set = Some(Name::of(alloc, name)?);
                Ok(true)
            }
        }
    }

    // Whether the last card ended the deck.
    pub(crate) fn has_finished(&self) -> bool
        ensures { (s : DeckSoFar) → IsDraftOf self.now s → result ≡ has_finished s.begun }
    {
        self.begun.first() == Some(&Section::Finish)
    }

    // What a row's name stands for, if it is one.
    pub(crate) fn place(&self, name: &Name) -> Option<Place>
        ensures place { (s : DeckSoFar) → IsDraftOf self.now s → option_map place_is result ≡ place_of s name.now }
        ensures slot { option_map (slot_is (length self.now.deck.rows)) result ≡ slot_of self.now.deck self.now.free_rows.keys name.now }
    {
        if let Some(row) = self.deck.find_row(name) {
            return Some(Place::Row(row));
        }
        match self.free_rows.get_index_of(name) {
            Some(0) => Some(Place::Objective),
            Some(k) => {
                let free_rows = self.free_rows.len();
                prove!(k < free_rows);
                Some(Place::Dropped(self.deck.rows() + k))
            }
            None => None,
        }
    }

    // The number of a place, where the rows come first and the N rows after them.
    pub(crate) fn slot(&self, place: Place) -> usize
        requires { slot_is (length self.now.deck.rows) place < length self.now.named }
        ensures { result ≡ slot_is (length self.now.deck.rows) place }
    {
        match place {
            Place::Objective => self.deck.rows(),
            Place::Row(slot) | Place::Dropped(slot) => slot,
        }
    }

    // Whether the row at a place was named.
    pub(crate) fn is_named(&self, place: Place) -> bool
        requires { slot_is (length self.now.deck.rows) place < length self.now.named }
        ensures { result ≡ is_marked self.now.named (Some (slot_is (length self.now.deck.rows) place)) }
    {
        self.named.at(self.slot(place)).is_some()
    }
}
