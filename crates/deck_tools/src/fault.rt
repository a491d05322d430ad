//! Why a deck was not written.
ghost use Rattle.std.specs.Prelude.{◌≡◌};

use deck_model::Name;
use io_ends::Failed;
use no_memory::Memory;
use thiserror::Error;

/// Why a deck was not written to its end.
#[derive(Debug, Drop, Error)]
pub enum DeckWriteFault {
    /// The allocator had no memory left.
    #[error("out of memory")]
    Memory,
    /// The sink failed to take a piece.
    #[error("writing failed")]
    Write,
    /// A number has no spelling on a card; its row or column has this name, or the objective where it is the constant.
    #[error("number without card spelling")]
    Wide(Name),
}

impl From<Memory> for DeckWriteFault {
    ghost use Rattle.deck_tools.specs.declared.fault.DeckWriteFault.{DeckWriteFault};

    ghost from_gives = { λ _ fault. fault ≡ DeckWriteFault.Memory };

    fn from(_refusal: Memory) -> DeckWriteFault {
        DeckWriteFault::Memory
    }
}

impl From<Failed> for DeckWriteFault {
    ghost use Rattle.deck_tools.specs.declared.fault.DeckWriteFault.{DeckWriteFault};

    ghost from_gives = { λ _ fault. fault ≡ DeckWriteFault.Write };

    fn from(_refusal: Failed) -> DeckWriteFault {
        DeckWriteFault::Write
    }
}
