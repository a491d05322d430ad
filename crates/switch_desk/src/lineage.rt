//! Of which run a board is.

use instance_model::Instance;

/// Of which run a board is: what no call on it changes. Only proofs see it, and no value of it is made.
pub struct Lineage {
    /// The instance.
    pub inst: Instance,
    /// How many moves its run may have.
    pub budget: u64,
    /// The width of its arithmetic, in bits.
    pub width: u32,
}
