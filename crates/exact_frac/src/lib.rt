//! Exact fractions within 128 bits, and arithmetics that count what they do.
//!
//! - **What it is.** [`Frac`] is a fraction in lowest terms whose numerator's size and whose
//!   denominator are below 2^127. An [`Arith`] adds, subtracts, multiplies and divides fractions at a
//!   width w from 1 to 127: [`Full127`] at 127, [`Narrow`] at any. [`Fracs`] is a list of fractions.
//! - **The model.** Contracts see a `Frac` as a number `ℚ` of the crate `rational`, a `Fracs` as a
//!   list of them, and an arithmetic by three numbers: its width, its count of unfit results and its
//!   count of products and quotients.
//! - **The contract.** `specs/Exact.antt`: an operation answers the exact value where both its parts in
//!   lowest terms are below 2^w, and `Unfit` exactly where they are not. `specs/Count.antt`: the unfit
//!   count rises by one just there, the work count just at a product and a quotient, and each stands
//!   still at the largest `u64`. Code that is generic in `A: Arith` is proved from these clauses and
//!   from the law that a width is from 1 to 127.
//! - **Limits.** No call takes memory, and no integer is wider than 128 bits. Where all parts fit 64
//!   bits no 128-bit division is made. The constants [`Frac::ZERO`] and [`Frac::ONE`] owe the type's
//!   invariant at each use: name `exact_frac::specs::Constants::constants` in `using(..)` there.
//! - **Sources.** Knuth, *The Art of Computer Programming*, volume 2: section 4.5.2, algorithm B, for the
//!   greatest common divisor by halving and subtraction; section 4.5.1 for sums and products that divide
//!   by common divisors before they multiply; section 4.3.1 for products in words. Sums multiply each
//!   numerator by what the other's denominator does not share. Where such a product is 2^127 or more
//!   they add floors apart from what is left above them, since the sum may still fit.
//! - **Stands on** the crate `rational`, whose fractions and laws it cites.
#![tactic(auto)]

mod arithmetic;
mod counts;
mod divisor;
mod fraction;
mod full;
mod list;
mod magnitude;
mod narrow;
mod unfit;

pub use arithmetic::Arith;
pub use fraction::Frac;
pub use full::Full127;
pub use list::Fracs;
pub use narrow::Narrow;
pub use unfit::Unfit;
