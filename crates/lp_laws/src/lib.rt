//! The general laws of linear programs: what the lists that an answer carries prove of a deck.
//!
//! They hold of every deck, with both senses and all kinds of rows, ranges and bounds, and are stated in
//! the terms of `lp_model` alone. Each is the contract of a function that does nothing:
//!
//! - [`weak`]: a feasible point with prices that prove it is optimal (weak duality).
//! - [`gap`]: a deck that has a Farkas row has no feasible point.
//! - [`endless`]: a deck that has a feasible point with a ray has, for each number, a feasible point
//!   whose objective is better than it.
//! - [`bounded`]: a deck whose optimum is proved by prices has no ray, whatever its right sides are changed to.
//!
//! None asks how its list was found, so whoever has a deck and a list may check an answer. That each
//! deck has one of the three lists is a law of its run, in `bland_laws`.
//!
//! It stands on `rational` and `lp_model`.
#![tactic(auto)]

ghost use Rattle.std.specs.Prelude.{List};
ghost use Rattle.lp_model.specs.Certificate.{Farkas, Proves, Ray};
ghost use Rattle.lp_laws.specs.Rights.{IsSameButRights};
ghost use Rattle.lp_model.specs.Deck.{Deck, IsFeasible, IsOptimal, in_sense, objective};
ghost use Rattle.rational.specs.Rational.{ℚ, ◌<ℚ◌};

/// Prices that prove a point leave no feasible point with a better objective.
#[tactic(auto, using(crate::proofs::WeakDuality::weak))]
pub fn weak()
    ensures { (d : Deck) (x y : List ℚ) → Proves d x y → IsOptimal d x }
{}

/// A Farkas row leaves no feasible point.
#[tactic(auto, using(crate::proofs::FarkasGap::gap))]
pub fn gap()
    ensures { (d : Deck) (y : List ℚ) → Farkas d y → (x : List ℚ) → IsFeasible d x → ⊥ }
{}

/// Along a ray the objective gets better than any number, as the sense counts.
#[tactic(auto, using(crate::proofs::AlongRays::endless))]
pub fn endless()
    ensures { (d : Deck) (x r : List ℚ) → Ray d x r → (v : ℚ) → (x' : List ℚ) × IsFeasible d x' × (in_sense d.sense (objective d x') <ℚ v) }
{}

/// Prices that prove an optimum leave no ray, in this deck and in each that differs from it in right sides alone: its
/// feasible points, if it has any, are bounded in their objectives.
pub fn bounded()
    ensures { (d d' : Deck) (x y x' r : List ℚ) → Proves d x y → IsSameButRights d d' → Ray d' x' r → ⊥ }
{}
