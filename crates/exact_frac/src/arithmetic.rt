// The trait `Arith`.
ghost use Rattle.std.specs.Prelude.{◌≡◌, ◌≢◌, ℕ, ◌≤◌};
ghost use Rattle.rational.specs.Rational.{◌+ℚ◌, ◌-ℚ◌, ◌*ℚ◌, ◌/ℚ◌, zero_ℚ};
ghost use Rattle.exact_frac.specs.Count.{raised, unfit_after};
ghost use Rattle.exact_frac.specs.Exact.{Exact};

use crate::fraction::Frac;
use crate::unfit::Unfit;

/// Arithmetic on fractions at a width from 1 to 127, which counts what it does.
///
/// A fraction fits a width w where its numerator's size and its denominator are below 2^w. An
/// operation answers `Unfit` exactly where its exact value does not fit the arithmetic's width. No call
/// takes memory, changes the width, or makes a count fall.
pub trait Arith: Send + Sync + Drop {
    ghost width: { Self → ℕ };

    ghost unfit_count: { Self → ℕ };

    ghost work_count: { Self → ℕ };

    /// The width, from 1 to 127.
    fn width(&self) -> u32
        ensures { result ≡ width self.now };

    /// The exact sum, in lowest terms; `Unfit` where it does not fit.
    fn add(&mut self, a: Frac, b: Frac) -> Result<Frac, Unfit>
        ensures answer { Exact (width self.old) (a +ℚ b) result }
        ensures same_width { width self.new ≡ width self.old }
        ensures unfit { unfit_count self.new ≡ unfit_after (unfit_count self.old) result }
        ensures work { work_count self.new ≡ work_count self.old };

    /// The exact difference a - b, in lowest terms; `Unfit` where it does not fit.
    fn sub(&mut self, a: Frac, b: Frac) -> Result<Frac, Unfit>
        ensures answer { Exact (width self.old) (a -ℚ b) result }
        ensures same_width { width self.new ≡ width self.old }
        ensures unfit { unfit_count self.new ≡ unfit_after (unfit_count self.old) result }
        ensures work { work_count self.new ≡ work_count self.old };

    /// The exact product, in lowest terms; `Unfit` where it does not fit. Counts as work either way.
    fn mul(&mut self, a: Frac, b: Frac) -> Result<Frac, Unfit>
        ensures answer { Exact (width self.old) (a *ℚ b) result }
        ensures same_width { width self.new ≡ width self.old }
        ensures unfit { unfit_count self.new ≡ unfit_after (unfit_count self.old) result }
        ensures work { work_count self.new ≡ raised (work_count self.old) 1 };

    /// The exact quotient a / b, in lowest terms; `Unfit` where it does not fit. Counts as work either way.
    fn div(&mut self, a: Frac, b: Frac) -> Result<Frac, Unfit>
        requires { b ≢ zero_ℚ }
        ensures answer { Exact (width self.old) (a /ℚ b) result }
        ensures same_width { width self.new ≡ width self.old }
        ensures unfit { unfit_count self.new ≡ unfit_after (unfit_count self.old) result }
        ensures work { work_count self.new ≡ raised (work_count self.old) 1 };

    /// The fraction itself; `Unfit` where it does not fit, as one of another arithmetic may not.
    fn fit(&mut self, a: Frac) -> Result<Frac, Unfit>
        ensures answer { Exact (width self.old) a result }
        ensures same_width { width self.new ≡ width self.old }
        ensures unfit { unfit_count self.new ≡ unfit_after (unfit_count self.old) result }
        ensures work { work_count self.new ≡ work_count self.old };

    /// How many results were unfit, up to `u64::MAX`.
    fn unfit(&self) -> u64
        ensures { result ≡ unfit_count self.now };

    /// How many products and quotients were worked, up to `u64::MAX`.
    fn work(&self) -> u64
        ensures { result ≡ work_count self.now };

    /// An arithmetic of the same width with both counts 0.
    fn fresh(&self) -> Self
        ensures same_width { width result ≡ width self.now }
        ensures unfit { unfit_count result ≡ 0 }
        ensures work { work_count result ≡ 0 };

    /// Adds the counts of another arithmetic, up to `u64::MAX`.
    fn absorb(&mut self, other: Self)
        ensures same_width { width self.new ≡ width self.old }
        ensures unfit { unfit_count self.new ≡ raised (unfit_count self.old) (unfit_count other) }
        ensures work { work_count self.new ≡ raised (work_count self.old) (work_count other) };

    ghost width_in_range: { (arith : Self) → (1 ≤ width arith) × (width arith ≤ 127) };
}
