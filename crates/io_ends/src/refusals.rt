ghost use Rattle.std.specs.Prelude.{◌≡◌, ◌≤◌};
ghost use Rattle.io_ends.specs.Count.{one_more};

use thiserror::Error;

/// A read or a write failed. It carries nothing: how often an end has failed is its count of faults.
#[derive(Clone, Copy, Debug, PartialEq, Eq, Error)]
#[error("reading or writing failed")]
pub struct Failed;

impl Failed {
    /// The answer of a call that failed, which raises the count of faults.
    pub(crate) fn counted(faults: &mut u64) -> Failed
        ensures raised { faults.new ≡ one_more faults.old }
        ensures never_falls { faults.old ≤ faults.new }
    {
        *faults = faults.saturating_add(1);
        Failed
    }
}
