// Why a card is refused.
ghost use Rattle.std.specs.Prelude.{◌≡◌};
ghost use Rattle.mps_reader.specs.Inner.Refusals.{at_line};

use crate::faults::DeckFault;
use deck_model::Memory;
use lp_text::LineFault;
use mps_cards::CardFault;
use mps_free::FreeFault;
use std::alloc::{AllocError, AllocFailed};

// Why a card is refused: memory ran out, or its first fault after the cards before it.
#[derive(Clone, Copy, Debug, PartialEq, Eq)]
pub(crate) enum Refusal {
    Memory,
    Fault(LineFault),
}

impl Refusal {
    // The refusal of a card of this line.
    pub(crate) fn at(self, line: u64) -> DeckFault
        ensures { result ≡ at_line line self }
    {
        match self {
            Refusal::Memory => DeckFault::Memory,
            Refusal::Fault(fault) => DeckFault::InLine(line, fault),
        }
    }
}

impl From<Memory> for Refusal {
    ghost use Rattle.mps_reader.specs.declared.refusal.Refusal.{Refusal};

    ghost from_gives = { λ _ refusal. refusal ≡ Refusal.Memory };

    fn from(_refusal: Memory) -> Refusal {
        Refusal::Memory
    }
}

impl From<CardFault> for Refusal {
    ghost use Rattle.mps_reader.specs.Inner.Refusals.{card_refusal};

    ghost from_gives = { λ fault refusal. refusal ≡ card_refusal fault };

    fn from(fault: CardFault) -> Refusal {
        match fault {
            CardFault::Memory => Refusal::Memory,
            CardFault::InLine(_, fault) => Refusal::Fault(fault),
        }
    }
}

impl From<FreeFault> for Refusal {
    ghost use Rattle.mps_reader.specs.Inner.Refusals.{free_refusal};

    ghost from_gives = { λ fault refusal. refusal ≡ free_refusal fault };

    fn from(fault: FreeFault) -> Refusal {
        match fault {
            FreeFault::Memory => Refusal::Memory,
            FreeFault::NotAscii(_) => Refusal::Fault(LineFault::NotAscii),
            FreeFault::Token(_) => Refusal::Fault(LineFault::Token),
        }
    }
}

impl From<AllocError> for Refusal {
    ghost use Rattle.mps_reader.specs.declared.refusal.Refusal.{Refusal};

    ghost from_gives = { λ _ refusal. refusal ≡ Refusal.Memory };

    fn from(_refusal: AllocError) -> Refusal {
        Refusal::Memory
    }
}

impl<T: Drop> From<AllocFailed<T>> for Refusal {
    ghost use Rattle.mps_reader.specs.declared.refusal.Refusal.{Refusal};

    ghost from_gives = { λ _ refusal. refusal ≡ Refusal.Memory };

    fn from(_refusal: AllocFailed<T>) -> Refusal {
        Refusal::Memory
    }
}
