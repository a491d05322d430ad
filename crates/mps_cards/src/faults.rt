ghost use Rattle.std.specs.Prelude.{◌≡◌};
ghost use Rattle.mps_cards.specs.declared.faults.ReadFault.TheVariants as read_faults;

use io_ends::Failed;
use std::alloc::AllocError;
use thiserror::Error;

/// Why a reader gave no line. A reader that gave one gives it again at each later call.
#[derive(Clone, Copy, Debug, PartialEq, Eq, Error)]
pub enum ReadFault {
    /// The source failed.
    #[error("reading failed")]
    Read,
    /// Memory ran out.
    #[error("out of memory")]
    Memory,
    /// The bytes since the mark through the line of this number are more than were allowed.
    #[error("too many bytes at line {0}")]
    TooMany(u64),
}

impl From<Failed> for ReadFault {
    ghost from_gives = { λ _ fault. fault ≡ read_faults.Read };

    fn from(_error: Failed) -> ReadFault {
        ReadFault::Read
    }
}

impl From<AllocError> for ReadFault {
    ghost from_gives = { λ _ fault. fault ≡ read_faults.Memory };

    fn from(_error: AllocError) -> ReadFault {
        ReadFault::Memory
    }
}
