// The arithmetic of full width.
ghost use Rattle.std.specs.Prelude.{◌≡◌};

use crate::arithmetic::Arith;
use crate::counts::Counts;
use crate::fraction::Frac;
use crate::unfit::Unfit;

/// The arithmetic of width 127, which every `Frac` fits.
#[derive(Drop)]
pub struct Full127 {
    counts: Counts,
}

impl Full127 {
    /// The arithmetic with both counts 0.
    pub fn new() -> Full127
        ensures width { ⟦<Full127 as Arith>⟧.width result ≡ 127 }
        ensures unfit { ⟦<Full127 as Arith>⟧.unfit_count result ≡ 0 }
        ensures work { ⟦<Full127 as Arith>⟧.work_count result ≡ 0 }
    {
        Full127 {
            counts: Counts::NONE,
        }
    }
}

impl Arith for Full127 {
    ghost use Rattle.std.proofs.Common.{lit≤};

    ghost width = { λ _. 127 };

    ghost unfit_count = { λ arith. arith.counts.unfit };

    ghost work_count = { λ arith. arith.counts.work };

    ghost width_in_range = { λ _. (lit≤ tt, lit≤ tt) };

    fn width(&self) -> u32 {
        127
    }

    fn add(&mut self, a: Frac, b: Frac) -> Result<Frac, Unfit> {
        self.counts.settle(a.plus(b))
    }

    fn sub(&mut self, a: Frac, b: Frac) -> Result<Frac, Unfit> {
        self.counts.settle(a.minus(b))
    }

    fn mul(&mut self, a: Frac, b: Frac) -> Result<Frac, Unfit> {
        self.counts.count_work();
        self.counts.settle(a.times(b))
    }

    fn div(&mut self, a: Frac, b: Frac) -> Result<Frac, Unfit> {
        self.counts.count_work();
        self.counts.settle(a.over(b))
    }

    fn fit(&mut self, a: Frac) -> Result<Frac, Unfit> {
        a.in_full()
    }

    fn unfit(&self) -> u64 {
        self.counts.unfit
    }

    fn work(&self) -> u64 {
        self.counts.work
    }

    fn fresh(&self) -> Full127 {
        Full127::new()
    }

    fn absorb(&mut self, other: Full127) {
        self.counts.absorb(other.counts);
    }
}
