//! Why a step with factors was not worked.

use exact_frac::Unfit;
use no_memory::Memory;
use std::alloc::AllocError;

/// Why a step with factors was not worked.
#[derive(Clone, Copy, Debug, PartialEq, Eq)]
pub enum Refusal {
    /// The allocator had no memory left.
    Memory,
    /// A worked value does not fit the width of the arithmetic.
    Unfit,
}

impl From<Memory> for Refusal {
    ghost use Rattle.std.specs.Prelude.{◌≡◌};
    ghost use Rattle.basis_solves.specs.declared.refusal.Refusal.{Refusal};

    ghost from_gives = { λ _ refusal. refusal ≡ Refusal.Memory };

    fn from(_refusal: Memory) -> Refusal {
        Refusal::Memory
    }
}

impl From<Unfit> for Refusal {
    ghost use Rattle.std.specs.Prelude.{◌≡◌};
    ghost use Rattle.basis_solves.specs.declared.refusal.Refusal.{Refusal};

    ghost from_gives = { λ _ refusal. refusal ≡ Refusal.Unfit };

    fn from(_refusal: Unfit) -> Refusal {
        Refusal::Unfit
    }
}

impl From<AllocError> for Refusal {
    ghost use Rattle.std.specs.Prelude.{◌≡◌};
    ghost use Rattle.basis_solves.specs.declared.refusal.Refusal.{Refusal};

    ghost from_gives = { λ _ refusal. refusal ≡ Refusal.Memory };

    fn from(_refusal: AllocError) -> Refusal {
        Refusal::Memory
    }
}
