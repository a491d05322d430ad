//! Why a report was not written.
ghost use Rattle.std.specs.Prelude.{◌≡◌};

use io_ends::Failed;
use no_memory::Memory;
use thiserror::Error;

/// Why a report was not written to its end.
#[derive(Clone, Copy, Debug, PartialEq, Eq, Error)]
pub enum ReportWriteFault {
    /// The allocator had no memory left.
    #[error("out of memory")]
    Memory,
    /// The sink failed to take a piece.
    #[error("writing failed")]
    Write,
}

impl From<Memory> for ReportWriteFault {
    ghost use Rattle.cert_text.specs.declared.fault.ReportWriteFault.{ReportWriteFault};

    ghost from_gives = { λ _ fault. fault ≡ ReportWriteFault.Memory };

    fn from(_refusal: Memory) -> ReportWriteFault {
        ReportWriteFault::Memory
    }
}

impl From<Failed> for ReportWriteFault {
    ghost use Rattle.cert_text.specs.declared.fault.ReportWriteFault.{ReportWriteFault};

    ghost from_gives = { λ _ fault. fault ≡ ReportWriteFault.Write };

    fn from(_refusal: Failed) -> ReportWriteFault {
        ReportWriteFault::Write
    }
}
