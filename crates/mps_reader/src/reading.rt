// A deck from the lines of a source.
ghost use Rattle.std.specs.Prelude.{◌≡◌, ◌≤◌, IfOk, IfErr, IfSome, IsErrOf, OnOk, OnErr, None, drop};
ghost use Rattle.std.specs.Option.{option_map};
ghost use Rattle.std.specs.Io.KnownBytes.{prepend_known};
ghost use Rattle.io_ends.specs.Count.{Rose};
ghost use Rattle.mps_cards.specs.NextLine.{AnswersLine, TakesAsNeeded, lines_left};
ghost use Rattle.lp_text.specs.Limits.{byte_limit};
ghost use Rattle.lp_text.specs.Lines.{Line as TextLine};
ghost use Rattle.mps_model.specs.DeckOf.{IsDeckOf};
ghost use Rattle.mps_model.specs.DeckSoFar.{DeckSoFar};
ghost use Rattle.mps_model.specs.Judgement.{bytes_counted, judge_text};
ghost use Rattle.mps_reader.specs.Answers.{IsFaultOf, IsFresh, IsReadAsNeeded, IsReadFault, StandsAfter};
ghost use Rattle.mps_reader.specs.Inner.Reached.{HasBytesOf, IsLineCause, TakesLine, kept_size};
ghost use Rattle.mps_reader.specs.Inner.Standing.{IsDraftOf};

use crate::draft::Draft;
use crate::faults::DeckFault;
use crate::lines::kept_size;
use deck_model::Deck;
use io_ends::Source;
use lp_text::{BYTE_LIMIT, Counted, Form, LineFault};
use mps_cards::{Line, LineReader, ReadFault};
use std::alloc::Global;

// The next line of the input.
fn next_line<S: Source>(
    lines: &mut LineReader,
    source: &mut S,
    form: Form,
) -> Result<Line, DeckFault>
    requires { lines.old.fault ≡ None }
    ensures line { IfOk result (AnswersLine lines.old lines.new (S.remaining source.old) (S.remaining source.new) (kept_size form) byte_limit) }
    ensures fault { IfErr result (IsLineCause lines.old (S.remaining source.old) (S.remaining source.new) (S.fault_count source.old) (S.fault_count source.new)) }
    ensures after { IfErr result (λ fault. StandsAfter fault lines.new) }
    ensures unmoved { OnErr result (lines.new.fault ≡ None → (lines.new ≡ lines.old) × (S.remaining source.new ≡ S.remaining source.old)) }
    ensures needed { TakesAsNeeded lines.old.kept lines.old.since byte_limit (S.remaining source.old) (S.remaining source.new) }
    ensures stays { ¬ IsErrOf result DeckFault.Read → S.fault_count source.new ≡ S.fault_count source.old }
    ensures never_falls { S.fault_count source.old ≤ S.fault_count source.new }
{
    match lines.line(source, kept_size(form), BYTE_LIMIT) {
        Ok(Some(line)) => Ok(line),
        Ok(None) => Err(DeckFault::NoEnd(lines.lines())),
        Err(ReadFault::Memory) => Err(DeckFault::Memory),
        Err(ReadFault::Read) => Err(DeckFault::Read),
        Err(ReadFault::TooMany(line)) => Err(DeckFault::InLine(
            line,
            LineFault::Limit(Counted::Bytes),
        )),
    }
}

// Takes the card of a line, if it is one.
fn take_line(alloc: Global, draft: &mut Draft, line: &Line, form: Form) -> Result<(), DeckFault>
    requires stands { (s : DeckSoFar) × IsDraftOf draft.old s }
    requires bytes { (whole : TextLine) × HasBytesOf form line.now whole }
    ensures taken { (s : DeckSoFar) (whole : TextLine) → IsDraftOf draft.old s → HasBytesOf form line.now whole
        → TakesLine line.now.number (judge_text form s (bytes_counted form whole.bytes)) draft.new result }
    ensures no_read { ¬ IsErrOf result DeckFault.Read }
{
    match draft.take_line(alloc, line, form) {
        Ok(()) => Ok(()),
        Err(refusal) => Err(refusal.at(line.number)),
    }
}

/// Reads a deck of a form from the lines of a reader that has answered none. The line that ends the deck is the last that is read.
///
/// The source is read only as needed (`needed`): before the last read, of up to 4,096 bytes, no line that stands whole in the
/// bytes that were kept and read has a fault, none ends the deck, and the bytes are no more than a deck may have.
///
/// # Errors
///
/// The first fault of the text, with its line, as [`DeckFault`] lists them; within a line the order is that of `judge_line`
/// of the crate `mps_model`. `Read` where the source failed, and then no line that was read whole has a fault, none ends the
/// deck, and the bytes are no more than a deck may have. `Memory` where there is too little memory.
///
/// After a fault of a card the reader stands behind its line, and has answered no line after it; after `NoEnd` it stands at the
/// end of the text; after `NoObjective` and `CrossedBounds` it has given no fault (`StandsAfter`). Wherever the reader has given
/// no fault, what is left to read are the lines behind those that it has answered (`rest`). After `Read`, and after the limit of
/// bytes, it gives that fault again. After `Memory` it may have given that fault or none.
pub fn read_deck<S: Source>(
    alloc: Global,
    lines: &mut LineReader,
    source: &mut S,
    form: Form,
) -> Result<Deck, DeckFault>
    requires { IsFresh lines.old }
    ensures deck { IfOk result (λ d. IfSome (prepend_known lines.old.kept (S.remaining source.old)) (λ text. IsDeckOf form text d lines.new.count)) }
    ensures rest { lines.new.fault ≡ None → lines_left lines.new.kept (S.remaining source.new)
        ≡ option_map (drop lines.new.count) (lines_left lines.old.kept (S.remaining source.old)) }
    ensures sound { OnOk result (lines.new.fault ≡ None) }
    ensures after { IfErr result (λ fault. StandsAfter fault lines.new) }
    ensures fault { IfErr result (IsFaultOf form (prepend_known lines.old.kept (S.remaining source.old))) }
    ensures needed { IsReadAsNeeded form lines.old.kept (S.remaining source.old) (S.remaining source.new) }
    ensures read { IsErrOf result DeckFault.Read → IsReadFault form lines.old.kept (S.remaining source.old) (S.remaining source.new) }
    ensures rose { IsErrOf result DeckFault.Read → Rose (S.fault_count source.old) (S.fault_count source.new) }
    ensures stays { ¬ IsErrOf result DeckFault.Read → S.fault_count source.new ≡ S.fault_count source.old }
    ensures never_falls { S.fault_count source.old ≤ S.fault_count source.new }
{
    let Ok(mut draft) = Draft::new(alloc) else {
        return Err(DeckFault::Memory);
    };
    'lines: loop {
        let line = next_line(lines, source, form)?;
        take_line(alloc, &mut draft, &line, form)?;
        if draft.has_finished() {
            return draft.into_deck(alloc);
        }
    }
}
