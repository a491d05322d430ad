//! Why a column is not made.

use thiserror::Error;

/// Why no column was made of a list of pairs.
#[derive(Clone, Copy, Debug, PartialEq, Eq, Error)]
pub enum SparseFault {
    /// The allocator had no memory left. `from_pairs` takes none, and never answers this.
    #[error("out of memory")]
    Memory,
    /// The first row in the list that the column does not have.
    #[error("row {0} is out of range")]
    Range(usize),
    /// The least row that stands twice in the list.
    #[error("row {0} stands twice")]
    Repeated(usize),
}
