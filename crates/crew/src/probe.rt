//! What watches a solve.

/// A place of a solve at which its probe is called.
#[derive(Clone, Copy, Debug, PartialEq, Eq)]
pub enum Spot {
    /// Before a choice is recorded.
    Driver,
    /// After a seat has claimed this chunk.
    Claimed(u32),
    /// After a seat has offered this chunk.
    Offered(u32),
}

/// What a solve calls at its spots, from any of its threads. It answers nothing, and may hold the thread that calls it.
pub trait Probe: Sync {
    /// The solve has come to the spot; the number is that of the choice or of the round's ticket.
    fn at(&self, spot: Spot, number: u64);
}

/// A probe that does nothing.
#[derive(Clone, Copy, Debug)]
pub struct Silent;

impl Probe for Silent {
    fn at(&self, _spot: Spot, _number: u64) {}
}
