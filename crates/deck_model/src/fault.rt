//! Why a deck refuses an edit.
ghost use Rattle.std.specs.Prelude.{◌≡◌};

use no_memory::Memory;
use std::alloc::AllocFailed;
use thiserror::Error;

/// Why an edit of a deck was refused. The deck is then as it was.
#[derive(Clone, Copy, Debug, PartialEq, Eq, Error)]
pub enum EditFault {
    /// The allocator had no memory left.
    #[error("out of memory")]
    Memory,
    /// The name, or the pair of column and row, is there already.
    #[error("given before")]
    Repeated,
}

impl From<Memory> for EditFault {
    ghost use Rattle.deck_model.specs.declared.fault.EditFault.{EditFault};

    ghost from_gives = { λ _ fault. fault ≡ EditFault.Memory };

    fn from(_refusal: Memory) -> EditFault {
        EditFault::Memory
    }
}

impl<T: Drop> From<AllocFailed<T>> for EditFault {
    ghost use Rattle.deck_model.specs.declared.fault.EditFault.{EditFault};

    ghost from_gives = { λ _ fault. fault ≡ EditFault.Memory };

    fn from(_refusal: AllocFailed<T>) -> EditFault {
        EditFault::Memory
    }
}
