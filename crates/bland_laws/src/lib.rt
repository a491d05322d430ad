//! Bland's theorem for the simplex method with bounds: the run of every deck ends, and its outcome
//! is proved (Bland 1977).
//!
//! The laws hold of every deck, with both senses and all kinds of rows, ranges and bounds, and are
//! stated in the terms of `lp_model` and `lp_run` alone. Each is the contract of a function that does nothing:
//!
//! - [`unique`]: a regular basis has one list of prices, of values and of each column's entries, and one next entry.
//! - [`kept`]: at every state of a run the basis is regular, the state is valid, each column stands
//!   at an end that it has, the basic values are within the bounds of the phase, and in phase one no
//!   eligible column moves without a limit.
//! - [`outcome_proves`]: the outcome of a whole run is an optimal point with prices that prove it, a
//!   Farkas row, or a feasible point with a ray.
//! - [`bland`]: within a phase no run comes back to the same statuses.
//! - [`ends`]: a run of m rows and n columns has fewer than 2 · 3^(n + 2 m) entries, so every deck has
//!   a whole run, one alone, and an outcome.
//! - [`one_of_three`], [`farkas_exactly`], [`bounded_has_optimum`]: what follows for linear programs.
//!
//! `docs/BLAND.md` tells the argument. The definitions that the laws cite are in `specs/`; a proof
//! about a run works with `Holds` of `proofs/Holding.antt`, which also has the values and the table.
//!
//! It stands on `rational`, `lp_model`, `lp_run` and `lp_laws`.
#![tactic(auto)]

ghost use Rattle.std.specs.Prelude.{List, ◌↔◌};
ghost use Rattle.rational.specs.Rational.{ℚ};
ghost use Rattle.lp_model.specs.declared.Entry.{Entry};
ghost use Rattle.lp_model.specs.Deck.{Deck, IsDeck};
ghost use Rattle.lp_run.specs.Instance.{Instance, IsWellFormed, instance_of};
ghost use Rattle.lp_run.specs.Ends.{HasOutcome};
ghost use Rattle.lp_model.specs.Outcome.{Outcome};
ghost use Rattle.lp_run.specs.Run.{IsRun};
ghost use Rattle.lp_run.specs.State.{State};
ghost use Rattle.bland_laws.specs.Alternatives.{HasFarkas, HasOptimum, HasPoint, IsObjectiveBound, OneOfThree};
ghost use Rattle.bland_laws.specs.Ends.{Ends, NeverReturns};
ghost use Rattle.bland_laws.specs.Kept.{Kept};
ghost use Rattle.bland_laws.specs.OutcomeProves.{OutcomeProves};
ghost use Rattle.bland_laws.specs.Unique.{Unique};
ghost use Rattle.lp_run.specs.Solution.{Regular};

/// What a regular basis has once.
#[tactic(auto, using(crate::proofs::Uniqueness::unique))]
pub fn unique()
    ensures { (inst : Instance) (s : State) → Regular inst s → Unique inst s }
{}

/// What holds at every state of a run.
#[tactic(auto, using(crate::proofs::Always::kept))]
pub fn kept()
    ensures { (inst : Instance) → IsWellFormed inst → (log : List Entry) (s : State) → IsRun inst log s → Kept inst s }
{}

/// The outcome of a whole run proves what it says of the deck.
pub fn outcome_proves()
    ensures { (d : Deck) → IsDeck d → (log : List Entry) (o : Outcome) → HasOutcome (instance_of d) log o → OutcomeProves d o }
{}

/// Within a phase no run comes back to the same statuses (Bland 1977).
#[tactic(auto, using(crate::proofs::Runs::bland))]
pub fn bland()
    ensures { (inst : Instance) → IsWellFormed inst → NeverReturns inst }
{}

/// Every run is short, and ends.
#[tactic(auto, using(crate::proofs::Runs::ends))]
pub fn ends()
    ensures { (inst : Instance) → IsWellFormed inst → Ends inst }
{}

/// Every deck has an optimal point with prices that prove it, or a Farkas row, or a feasible point
/// with a ray, and no two of them.
#[tactic(auto, using(crate::proofs::Alternatives::one_of_three))]
pub fn one_of_three()
    ensures { (d : Deck) → IsDeck d → OneOfThree d }
{}

/// A deck has a Farkas row exactly where it has no feasible point.
#[tactic(auto, using(crate::proofs::Alternatives::farkas_exactly))]
pub fn farkas_exactly()
    ensures { (d : Deck) → IsDeck d → HasFarkas d ↔ (HasPoint d → ⊥) }
{}

/// A deck that has a feasible point, and whose objective is bounded there, as the sense counts, has an optimum.
pub fn bounded_has_optimum()
    ensures { (d : Deck) → IsDeck d → HasPoint d → (v : ℚ) → IsObjectiveBound d v → HasOptimum d }
{}
