//! Why an update was not made.

use exact_frac::Unfit;
use no_memory::Memory;
use thiserror::Error;

/// Why an update was not made. The operations and the form are as they were.
#[derive(Clone, Copy, Debug, PartialEq, Eq, Error)]
pub enum UpdateFault {
    /// The allocator had no memory left.
    #[error("out of memory")]
    Memory,
    /// A worked value does not fit the width of the arithmetic.
    #[error("a worked value does not fit the width")]
    Unfit,
}

impl From<Memory> for UpdateFault {
    ghost use Rattle.std.specs.Prelude.{◌≡◌};
    ghost use Rattle.ft_update.specs.declared.fault.UpdateFault.{UpdateFault};

    ghost from_gives = { λ _ fault. fault ≡ UpdateFault.Memory };

    fn from(_refusal: Memory) -> UpdateFault {
        UpdateFault::Memory
    }
}

impl From<Unfit> for UpdateFault {
    ghost use Rattle.std.specs.Prelude.{◌≡◌};
    ghost use Rattle.ft_update.specs.declared.fault.UpdateFault.{UpdateFault};

    ghost from_gives = { λ _ fault. fault ≡ UpdateFault.Unfit };

    fn from(_refusal: Unfit) -> UpdateFault {
        UpdateFault::Unfit
    }
}
