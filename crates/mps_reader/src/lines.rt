// A line of a deck, by its form.
ghost use Rattle.std.specs.Prelude.{◌≡◌, ◌≤◌, IsTrue, length};
ghost use Rattle.lp_text.specs.FreeCards.{free_card_in};
ghost use Rattle.lp_text.specs.Lines.{Line as TextLine};
ghost use Rattle.lp_text.specs.declared.Form.TheVariants.{Fixed, Free};
ghost use Rattle.mps_cards.specs.NextLine.{answered};
ghost use Rattle.mps_free.specs.Cutting.{Says};
ghost use Rattle.mps_model.specs.DeckSoFar.{DeckSoFar};
ghost use Rattle.mps_model.specs.Judgement.{bytes_counted, judge_by_form, judge_sense, judge_text, judged_by};
ghost use Rattle.mps_reader.specs.Inner.Reached.{HasBytesOf, kept_size};
ghost use Rattle.mps_reader.specs.Inner.Standing.{Judged, IsDraftOf};

use crate::draft::Draft;
use crate::refusal::Refusal;
use lp_text::{FREE_LINE_LIMIT, Form};
use mps_cards::{Line, counted_columns, split};
use mps_free::{FreeCard, FreeFault, free_card, word_card};
use std::alloc::Global;

// How many columns of a line in fixed columns count.
const COLUMNS: usize = 61;

// How many bytes of a line are kept: those that count, and in free form one more, which tells that there are too many.
pub(crate) fn kept_size(form: Form) -> usize
    ensures { result ≡ kept_size form }
{
    match form {
        Form::Fixed => COLUMNS,
        Form::Free => FREE_LINE_LIMIT + 1,
    }
}

// A line cut into words, whatever its form.
fn words(alloc: Global, line: &Line, form: Form) -> Result<Option<FreeCard>, FreeFault>
    requires { IsTrue line.now.longer → kept_size form ≤ length line.now.bytes }
    ensures { (whole : TextLine) → HasBytesOf form line.now whole
        → Says line.now.number (free_card_in (bytes_counted form whole.bytes)) result }
{
    match form {
        Form::Fixed => word_card(alloc, counted_columns(line), line.number),
        Form::Free => free_card(alloc, line),
    }
}

impl Draft {
    // Takes the card of a line, if it is one.
    pub(crate) fn take_line(
        &mut self,
        alloc: Global,
        line: &Line,
        form: Form,
    ) -> Result<(), Refusal>
        requires stands { (s : DeckSoFar) × IsDraftOf self.old s }
        requires bytes { (whole : TextLine) × HasBytesOf form line.now whole }
        ensures { (s : DeckSoFar) (whole : TextLine) → IsDraftOf self.old s → HasBytesOf form line.now whole
            → Judged (judge_text form s (bytes_counted form whole.bytes)) self.new result }
    {
        if self.awaits_sense() {
            return self.take_sense_line(alloc, line, form);
        }
        match form {
            Form::Fixed => self.take_fixed_line(alloc, line),
            Form::Free => self.take_free_line(alloc, line),
        }
    }

    // Takes the line that is to hold the sense, if it is a card.
    fn take_sense_line(&mut self, alloc: Global, line: &Line, form: Form) -> Result<(), Refusal>
        requires stands { (s : DeckSoFar) × IsDraftOf self.old s }
        requires bytes { (whole : TextLine) × HasBytesOf form line.now whole }
        ensures { (s : DeckSoFar) (whole : TextLine) → IsDraftOf self.old s → HasBytesOf form line.now whole
            → Judged (judged_by judge_sense s (free_card_in (bytes_counted form whole.bytes))) self.new result }
    {
        match words(alloc, line, form)? {
            Some(card) => self.take_sense(card),
            None => Ok(()),
        }
    }

    // Takes the card of a line in fixed columns, if it is one.
    fn take_fixed_line(&mut self, alloc: Global, line: &Line) -> Result<(), Refusal>
        requires stands { (s : DeckSoFar) × IsDraftOf self.old s }
        requires bytes { (whole : TextLine) × HasBytesOf Fixed line.now whole }
        ensures { (s : DeckSoFar) (whole : TextLine) → IsDraftOf self.old s → HasBytesOf Fixed line.now whole
            → Judged (judge_by_form Fixed s (bytes_counted Fixed whole.bytes)) self.new result }
    {
        match split(alloc, line)? {
            Some(card) => self.take(alloc, card),
            None => Ok(()),
        }
    }

    // Takes the card of a line in free form, if it is one.
    fn take_free_line(&mut self, alloc: Global, line: &Line) -> Result<(), Refusal>
        requires stands { (s : DeckSoFar) × IsDraftOf self.old s }
        requires bytes { (whole : TextLine) × HasBytesOf Free line.now whole }
        ensures { (s : DeckSoFar) (whole : TextLine) → IsDraftOf self.old s → HasBytesOf Free line.now whole
            → Judged (judge_by_form Free s (bytes_counted Free whole.bytes)) self.new result }
    {
        match free_card(alloc, line)? {
            Some(card) => self.take_free(alloc, card),
            None => Ok(()),
        }
    }
}
