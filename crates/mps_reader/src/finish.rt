// The end of a deck.
ghost use Rattle.std.specs.Prelude.{◌≡◌, ℕ, MatchResult, IfSome, IsErrOf};
ghost use Rattle.mps_model.specs.DeckSoFar.{DeckSoFar};
ghost use Rattle.mps_model.specs.DeckOf.{finished, has_fault, is_deck};
ghost use Rattle.mps_reader.specs.Faults.{text_fault};
ghost use Rattle.mps_reader.specs.Inner.Standing.{IsDraftOf};

use crate::draft::Draft;
use crate::faults::DeckFault;
use deck_model::{Deck, Name};
use std::alloc::Global;

impl Draft {
    // The deck, with its bounds.
    pub(crate) fn into_deck(self, alloc: Global) -> Result<Deck, DeckFault>
        requires { (s : DeckSoFar) × IsDraftOf self s }
        ensures end { (s : DeckSoFar) (line : ℕ) → IsDraftOf self s → MatchResult result
            (λ deck. finished s line ≡ is_deck deck line) (λ fault. IfSome (text_fault fault) (λ first. finished s line ≡ has_fault first)) }
        ensures no_read { ¬ IsErrOf result DeckFault.Read }
    {
        if self.free_rows.is_empty() {
            return Err(DeckFault::NoObjective);
        }
        let Draft {
            mut deck,
            bounds,
            ..
        } = self;
        for (column, ends) in bounds.iter().enumerate() {
            if ends.are_crossed() {
                let Ok(name) = Name::of(alloc, deck.column_name(column).bytes()) else {
                    return Err(DeckFault::Memory);
                };
                return Err(DeckFault::CrossedBounds(name));
            }
            deck.set_bounds(column, ends.lower_end(), ends.upper_end());
        }
        Ok(deck)
    }
}
