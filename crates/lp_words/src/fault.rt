//! Why words are no wish.
use thiserror::Error;

/// Why words are no wish.
#[derive(Clone, Copy, Debug, PartialEq, Eq, Error)]
pub enum WordsFault {
    /// The allocator had no memory left.
    #[error("out of memory")]
    Memory,
    /// The words are no command with its options.
    #[error("no command")]
    Usage,
}
