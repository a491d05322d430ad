//! Why the outcome of a final state is not given.

use lp_model::Place;
use std::alloc::AllocError;
use thiserror::Error;

/// Why the outcome of a final state is not given.
#[derive(Clone, Copy, Debug, PartialEq, Eq, Error)]
pub enum OutcomeFault {
    /// The allocator had no memory left.
    #[error("out of memory")]
    Memory,
    /// The place of the first sum of the objective that does not fit the width of the arithmetic.
    #[error("a sum of the objective does not fit")]
    Overflow(Place),
}

impl From<AllocError> for OutcomeFault {
    ghost use Rattle.std.specs.Prelude.{◌≡◌};
    ghost use Rattle.run_outcome.specs.declared.fault.OutcomeFault.{OutcomeFault};

    ghost from_gives = { λ _ fault. fault ≡ OutcomeFault.Memory };

    fn from(_refusal: AllocError) -> OutcomeFault {
        OutcomeFault::Memory
    }
}
