//! Why a solve has no outcome to show.

use lp_model::Place;
use no_memory::Memory;
use std::alloc::AllocError;
use thiserror::Error;

/// Why a solve has no outcome to show.
#[derive(Clone, Copy, Debug, PartialEq, Eq, Error)]
pub enum CrewFault {
    /// The allocator had no memory left.
    #[error("out of memory")]
    Memory,
    /// The place of a value of the run that does not fit the width of the arithmetic.
    #[error("a value of the run does not fit")]
    Overflow(Place),
    /// The run has more moves than this budget.
    #[error("the budget of moves is spent")]
    Budget(u64),
}

impl From<AllocError> for CrewFault {
    ghost use Rattle.std.specs.Prelude.{◌≡◌};
    ghost use Rattle.crew.specs.declared.faults.CrewFault.{CrewFault};

    ghost from_gives = { λ _ fault. fault ≡ CrewFault.Memory };

    fn from(_refusal: AllocError) -> CrewFault {
        CrewFault::Memory
    }
}

impl From<Memory> for CrewFault {
    ghost use Rattle.std.specs.Prelude.{◌≡◌};
    ghost use Rattle.crew.specs.declared.faults.CrewFault.{CrewFault};

    ghost from_gives = { λ _ fault. fault ≡ CrewFault.Memory };

    fn from(_refusal: Memory) -> CrewFault {
        CrewFault::Memory
    }
}
