// A counter with a checksum of its steps.
ghost use Rattle.std.specs.Prelude.{◌≡◌, ◌≤◌};

use crate::draws::{PRIME, START};
use switch_gate::Numbered;

/// What a run came to.
#[derive(Drop)]
pub(crate) struct Summary {
    pub count: u64,
    pub checksum: u64,
}

/// How many steps were made, and a checksum of their numbers, which begins with `start`. No step changes where it begins.
#[derive(Drop)]
pub(crate) struct Counter {
    pub start: u64,
    count: u64,
    checksum: u64,
}

impl Counter {
    pub(crate) fn new() -> Counter
        ensures { result.count ≡ 0 }
    {
        Counter {
            start: START,
            count: 0,
            checksum: START,
        }
    }

    /// One step more.
    pub(crate) fn step(&mut self)
        ensures count { self.old.count ≤ self.new.count }
        ensures start { self.new.start ≡ self.old.start }
    {
        self.count = self.count.saturating_add(1);
        self.checksum = (self.checksum ^ self.count).wrapping_mul(PRIME);
    }

    pub(crate) fn summary(&self) -> Summary {
        Summary {
            count: self.count,
            checksum: self.checksum,
        }
    }
}

impl Numbered for Counter {
    type Lineage = u64;

    ghost number = { λ c. c.count };

    ghost lineage = { λ c. c.start };

    fn number(&self) -> u64 {
        self.count
    }
}
