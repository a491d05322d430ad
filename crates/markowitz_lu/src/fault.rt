//! Why a matrix was not factored.

use exact_frac::{Frac, Unfit};
use no_memory::Memory;
use thiserror::Error;

/// Why a matrix was not factored.
#[derive(Debug, Drop, Error)]
pub enum LuFault {
    /// The allocator had no memory left.
    #[error("out of memory")]
    Memory,
    /// A worked value does not fit the width of the arithmetic.
    #[error("a worked value does not fit the width")]
    Unfit,
    /// The columns are dependent. The combination of the rows by these numbers, which are not all 0, is 0.
    #[error("the columns are dependent")]
    Singular(Vec<Frac>),
}

impl From<Memory> for LuFault {
    ghost use Rattle.std.specs.Prelude.{◌≡◌};
    ghost use Rattle.markowitz_lu.specs.declared.fault.LuFault.{LuFault};

    ghost from_gives = { λ _ fault. fault ≡ LuFault.Memory };

    fn from(_refusal: Memory) -> LuFault {
        LuFault::Memory
    }
}

impl From<Unfit> for LuFault {
    ghost use Rattle.std.specs.Prelude.{◌≡◌};
    ghost use Rattle.markowitz_lu.specs.declared.fault.LuFault.{LuFault};

    ghost from_gives = { λ _ fault. fault ≡ LuFault.Unfit };

    fn from(_refusal: Unfit) -> LuFault {
        LuFault::Unfit
    }
}
