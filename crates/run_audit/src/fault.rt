//! Why an audit has no answer.

use instance_model::InstanceFault;
use lp_model::Place;
use no_memory::Memory;
use plain_table::TableFault;
use std::alloc::AllocError;
use thiserror::Error;

/// Why an audit has no answer.
#[derive(Clone, Copy, Debug, PartialEq, Eq, Error)]
pub enum AuditFault {
    /// The allocator had no memory left.
    #[error("out of memory")]
    Memory,
    /// The place of the first value that does not fit the width of the arithmetic, of all that is worked for the answer.
    #[error("a value of the run does not fit")]
    Overflow(Place),
}

impl From<AllocError> for AuditFault {
    ghost use Rattle.std.specs.Prelude.{◌≡◌};
    ghost use Rattle.run_audit.specs.declared.fault.AuditFault.{AuditFault};

    ghost from_gives = { λ _ fault. fault ≡ AuditFault.Memory };

    fn from(_refusal: AllocError) -> AuditFault {
        AuditFault::Memory
    }
}

impl From<Memory> for AuditFault {
    ghost use Rattle.std.specs.Prelude.{◌≡◌};
    ghost use Rattle.run_audit.specs.declared.fault.AuditFault.{AuditFault};

    ghost from_gives = { λ _ fault. fault ≡ AuditFault.Memory };

    fn from(_refusal: Memory) -> AuditFault {
        AuditFault::Memory
    }
}

impl From<Place> for AuditFault {
    ghost use Rattle.std.specs.Prelude.{◌≡◌};
    ghost use Rattle.run_audit.specs.declared.fault.AuditFault.{AuditFault};

    ghost from_gives = { λ place fault. fault ≡ AuditFault.Overflow place };

    fn from(place: Place) -> AuditFault {
        AuditFault::Overflow(place)
    }
}

impl From<InstanceFault> for AuditFault {
    ghost use Rattle.std.specs.Prelude.{◌≡◌};
    ghost use Rattle.run_audit.specs.Inner.Parts.{of_instance};

    ghost from_gives = { λ refusal fault. fault ≡ of_instance refusal };

    fn from(refusal: InstanceFault) -> AuditFault {
        match refusal {
            InstanceFault::Memory => AuditFault::Memory,
            InstanceFault::Overflow(place) => AuditFault::Overflow(place),
        }
    }
}

impl From<TableFault> for AuditFault {
    ghost use Rattle.std.specs.Prelude.{◌≡◌};
    ghost use Rattle.run_audit.specs.Inner.Parts.{of_table};

    ghost from_gives = { λ refusal fault. fault ≡ of_table refusal };

    fn from(refusal: TableFault) -> AuditFault {
        match refusal {
            TableFault::Memory => AuditFault::Memory,
            TableFault::Overflow(place) => AuditFault::Overflow(place),
        }
    }
}
