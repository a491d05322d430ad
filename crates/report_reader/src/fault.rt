//! Why no report was read.
ghost use Rattle.std.specs.Prelude.{◌≡◌};

use report_lines::Flaw;
use std::alloc::AllocFailed;
use thiserror::Error;

/// Why no report was read: the text's first flaw, or an end that failed.
#[derive(Clone, Copy, Debug, PartialEq, Eq, Error)]
pub enum ReportFault {
    /// The source failed.
    #[error("reading failed")]
    Read,
    /// Memory ran out.
    #[error("out of memory")]
    Memory,
    /// The line of this number, counted from the input's first, has this flaw.
    #[error("line {0}: {1:?}")]
    At(u64, Flaw),
}

impl<T: Drop> From<AllocFailed<T>> for ReportFault {
    ghost use Rattle.report_reader.specs.declared.fault.ReportFault.{ReportFault};

    ghost from_gives = { λ _ fault. fault ≡ ReportFault.Memory };

    fn from(_refusal: AllocFailed<T>) -> ReportFault {
        ReportFault::Memory
    }
}

impl From<no_memory::Memory> for ReportFault {
    ghost use Rattle.report_reader.specs.declared.fault.ReportFault.{ReportFault};

    ghost from_gives = { λ _ fault. fault ≡ ReportFault.Memory };

    fn from(_refusal: no_memory::Memory) -> ReportFault {
        ReportFault::Memory
    }
}
