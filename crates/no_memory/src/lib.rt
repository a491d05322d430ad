//! The refusal of a call that could not get memory.
//!
//! A call that takes memory answers [`Memory`] where the allocator refuses it. When that happens is not
//! promised, and nothing else is ever answered by it. The crates that answer it pass it on under their own name.

#![tactic(auto)]

use std::alloc::{AllocError, AllocFailed};
use thiserror::Error;

/// The allocator had no memory left for the call.
#[derive(Clone, Copy, Debug, PartialEq, Eq, Hash, Error)]
#[error("out of memory")]
pub struct Memory;

impl From<AllocError> for Memory {
    fn from(_refusal: AllocError) -> Memory {
        Memory
    }
}

impl<T: Drop> From<AllocFailed<T>> for Memory {
    fn from(_refusal: AllocFailed<T>) -> Memory {
        Memory
    }
}
