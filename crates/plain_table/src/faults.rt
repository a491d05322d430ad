//! Why no table is made.

use lp_model::Place;
use no_memory::Memory;
use std::alloc::AllocError;
use thiserror::Error;

/// Why no table is made.
#[derive(Clone, Copy, Debug, PartialEq, Eq, Error)]
pub enum TableFault {
    /// The allocator had no memory left.
    #[error("out of memory")]
    Memory,
    /// The place of the first value of the run that does not fit the width of the arithmetic.
    #[error("a value of the run does not fit")]
    Overflow(Place),
}

impl From<AllocError> for TableFault {
    ghost use Rattle.std.specs.Prelude.{◌≡◌};
    ghost use Rattle.plain_table.specs.declared.faults.TableFault.{TableFault};

    ghost from_gives = { λ _ fault. fault ≡ TableFault.Memory };

    fn from(_refusal: AllocError) -> TableFault {
        TableFault::Memory
    }
}

impl From<Memory> for TableFault {
    ghost use Rattle.std.specs.Prelude.{◌≡◌};
    ghost use Rattle.plain_table.specs.declared.faults.TableFault.{TableFault};

    ghost from_gives = { λ _ fault. fault ≡ TableFault.Memory };

    fn from(_refusal: Memory) -> TableFault {
        TableFault::Memory
    }
}
