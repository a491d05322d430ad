// Arithmetics of less than full width.
ghost use Rattle.std.specs.Prelude.{◌≡◌, ◌≤◌};
ghost use Rattle.rational.specs.Rational.{ℚ};
ghost use Rattle.exact_frac.specs.Count.{unfit_after};
ghost use Rattle.exact_frac.specs.Exact.{Exact};

use crate::arithmetic::Arith;
use crate::counts::Counts;
use crate::fraction::Frac;
use crate::unfit::Unfit;

/// An arithmetic of a width from 1 to 127.
#[derive(Drop)]
pub struct Narrow {
    bits: u32,
    counts: Counts,
    ghost in_range: { (1 ≤ bits) × (bits ≤ 127) },
}

/// What is exact at 127 bits, at a smaller width.
fn narrowed(answer: Result<Frac, Unfit>, bits: u32) -> Result<Frac, Unfit>
    requires { bits ≤ 127 }
    ensures { (value : ℚ) → Exact 127 value answer → Exact bits value result }
{
    let value = answer?;
    if value.fits(bits) {
        Ok(value)
    } else {
        Err(Unfit)
    }
}

impl Narrow {
    /// The arithmetic of that width with both counts 0.
    pub fn new(bits: u32) -> Narrow
        requires low { 1 ≤ bits }
        requires high { bits ≤ 127 }
        ensures width { ⟦<Narrow as Arith>⟧.width result ≡ bits }
        ensures unfit { ⟦<Narrow as Arith>⟧.unfit_count result ≡ 0 }
        ensures work { ⟦<Narrow as Arith>⟧.work_count result ≡ 0 }
    {
        Narrow {
            bits,
            counts: Counts::NONE,
        }
    }

    /// What is exact at 127 bits, at this width, counted where it is unfit.
    fn settle(&mut self, answer: Result<Frac, Unfit>) -> Result<Frac, Unfit>
        ensures exact { (value : ℚ) → Exact 127 value answer → Exact self.old.bits value result }
        ensures same_width { self.new.bits ≡ self.old.bits }
        ensures unfit { self.new.counts.unfit ≡ unfit_after self.old.counts.unfit result }
        ensures work { self.new.counts.work ≡ self.old.counts.work }
    {
        self.counts.settle(narrowed(answer, self.bits))
    }
}

impl Arith for Narrow {
    ghost width = { λ arith. arith.bits };

    ghost unfit_count = { λ arith. arith.counts.unfit };

    ghost work_count = { λ arith. arith.counts.work };

    ghost width_in_range = { λ arith. arith.in_range };

    fn width(&self) -> u32 {
        self.bits
    }

    fn add(&mut self, a: Frac, b: Frac) -> Result<Frac, Unfit> {
        self.settle(a.plus(b))
    }

    fn sub(&mut self, a: Frac, b: Frac) -> Result<Frac, Unfit> {
        self.settle(a.minus(b))
    }

    fn mul(&mut self, a: Frac, b: Frac) -> Result<Frac, Unfit> {
        self.counts.count_work();
        self.settle(a.times(b))
    }

    fn div(&mut self, a: Frac, b: Frac) -> Result<Frac, Unfit> {
        self.counts.count_work();
        self.settle(a.over(b))
    }

    fn fit(&mut self, a: Frac) -> Result<Frac, Unfit> {
        self.settle(a.in_full())
    }

    fn unfit(&self) -> u64 {
        self.counts.unfit
    }

    fn work(&self) -> u64 {
        self.counts.work
    }

    fn fresh(&self) -> Narrow {
        Narrow::new(self.bits)
    }

    fn absorb(&mut self, other: Narrow) {
        let Narrow { bits: _, counts } = other;
        self.counts.absorb(counts);
    }
}
