//! Why there are no ranges.

use lp_model::Place;
use no_memory::Memory;
use std::alloc::AllocError;
use thiserror::Error;

/// Where a value of the ranges stands: at the cost of a structural, or at the right side of a row.
#[derive(Clone, Copy, Debug, PartialEq, Eq)]
pub enum RangePlace {
    Cost(u32),
    Right(u32),
}

/// Why there are no ranges.
#[derive(Clone, Copy, Debug, PartialEq, Eq, Error)]
pub enum RangeFault {
    /// The allocator had no memory left.
    #[error("out of memory")]
    Memory,
    /// The place of the first value of the run that does not fit the width of the arithmetic.
    #[error("a value of the run does not fit")]
    Overflow(Place),
    /// The place of the first value of the ranges that does not fit the width of the arithmetic.
    #[error("a value of the ranges does not fit")]
    Unfit(RangePlace),
}

impl From<AllocError> for RangeFault {
    ghost use Rattle.std.specs.Prelude.{◌≡◌};
    ghost use Rattle.ranging.specs.declared.fault.RangeFault.{RangeFault};

    ghost from_gives = { λ _ fault. fault ≡ RangeFault.Memory };

    fn from(_refusal: AllocError) -> RangeFault {
        RangeFault::Memory
    }
}

impl From<Memory> for RangeFault {
    ghost use Rattle.std.specs.Prelude.{◌≡◌};
    ghost use Rattle.ranging.specs.declared.fault.RangeFault.{RangeFault};

    ghost from_gives = { λ _ fault. fault ≡ RangeFault.Memory };

    fn from(_refusal: Memory) -> RangeFault {
        RangeFault::Memory
    }
}
