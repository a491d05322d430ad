// A deck, written in its layout.
ghost use Rattle.std.specs.Prelude.{◌≡◌, ◌≤◌, ℕ, [], IfErr, IfOk, IsErrOf, OnOk, Some};
ghost use Rattle.io_ends.specs.Count.{Rose};
ghost use Rattle.deck_tools.specs.Layout.{deck_text};
ghost use Rattle.deck_tools.specs.Writes.{IsWritten};
ghost use Rattle.mps_reader.specs.Answers.{IsReadAsNeeded};
ghost use Rattle.lp_main.specs.Inner.Laying.{IsUnwritten};
ghost use Rattle.lp_main.specs.declared.words.Task.{Task};
ghost use Rattle.lp_main.specs.Ends.{Writes, IsCause};
ghost use Rattle.lp_main.specs.World.{stream};

use crate::refusal::Refusal;
use crate::solve::load;
use crate::status::Answer;
use deck_model::Deck;
use deck_tools::{DeckWriteFault, write_deck};
use io_ends::{Sink, Source};
use lp_text::Form;
use mps_cards::LineReader;
use std::alloc::Global;

/// Writes a deck in a form.
fn write<K: Sink>(alloc: Global, deck: &Deck, form: Form, out: &mut K) -> Result<(), Refusal>
    ensures written { OnOk result (IsWritten (deck_text form deck.now) (K.contents out.old) (K.contents out.new)) }
    ensures cause { IfErr result (IsUnwritten (deck_text form deck.now) (K.contents out.old) (K.contents out.new)) }
    ensures rose { IsErrOf result Refusal.Write → Rose (K.fault_count out.old) (K.fault_count out.new) }
    ensures stays { ¬ IsErrOf result Refusal.Write → K.fault_count out.new ≡ K.fault_count out.old }
    ensures never_falls { K.fault_count out.old ≤ K.fault_count out.new }
{
    match write_deck(alloc, deck, form, out) {
        Ok(()) => Ok(()),
        Err(DeckWriteFault::Write) => Err(Refusal::Write),
        Err(DeckWriteFault::Wide(name)) => Err(Refusal::Wide(name)),
        Err(DeckWriteFault::Memory) => Err(Refusal::Memory),
    }
}

/// Reads the deck of a source in its form, and writes it to a sink in the layout of that form.
pub fn lay_out<S: Source, K: Sink>(
    alloc: Global,
    form: Form,
    source: &mut S,
    out: &mut K,
) -> Result<Answer, Refusal>
    ensures done { (w : ℕ) → IfOk result (Writes (Some (Task.Deck form)) w (S.remaining source.old) (K.contents out.old) (K.contents out.new)) }
    ensures cause { (w : ℕ) → IfErr result (IsCause (Some (Task.Deck form)) w (stream (S.remaining source.old) (S.fault_count source.old))
        (stream (S.remaining source.new) (S.fault_count source.new)) (K.contents out.old) (K.contents out.new)) }
    ensures needed { IsReadAsNeeded form [] (S.remaining source.old) (S.remaining source.new) }
    ensures source_rose { IsErrOf result Refusal.Read → Rose (S.fault_count source.old) (S.fault_count source.new) }
    ensures source_stays { ¬ IsErrOf result Refusal.Read → S.fault_count source.new ≡ S.fault_count source.old }
    ensures source_never_falls { S.fault_count source.old ≤ S.fault_count source.new }
    ensures sink_rose { IsErrOf result Refusal.Write → Rose (K.fault_count out.old) (K.fault_count out.new) }
    ensures sink_stays { ¬ IsErrOf result Refusal.Write → K.fault_count out.new ≡ K.fault_count out.old }
    ensures sink_never_falls { K.fault_count out.old ≤ K.fault_count out.new }
{
    let Ok(mut lines) = LineReader::new(alloc) else {
        return Err(Refusal::Memory);
    };
    let deck = load(alloc, &mut lines, source, form)?;
    write(alloc, &deck, form, out)?;
    Ok(Answer::Done)
}
