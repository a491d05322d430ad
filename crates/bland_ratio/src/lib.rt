//! Bland's rule for the bounded simplex method (Bland, New finite pivoting rules for the simplex method, 1977): which
//! column enters, and which leaves.
//!
//! **Model.** A [`Ticket`] says what the columns are priced by: the phase, a status for each of the N columns, and the
//! prices of the m rows or the reduced costs of the columns. A [`Choice`] is what it asks for: the least stopper, that
//! is a column that may enter, or one whose reduced cost does not fit the width. A [`Leave`] names the limit of a step.
//!
//! **Contract.** `specs/Pricing.antt` says which columns are stoppers (`Stops`), which is the first of a range
//! (`IsFirstStopper`) and what a choice is (`IsChoiceOf`). [`first_stopper`] searches a range and [`choose`] all
//! columns. The choice of a ticket that is exact for a state is the column that enters there (`Enters` of `lp_run`), or
//! says that none is eligible (`NoneEligible`), wherever it is not unfit (the law [`exact_choice_enters`]). [`leaving`] answers the
//! limit that decides the step of a column (`Decides`), or the place of the first distance or ratio that does not fit
//! (`RatioDoesNotFit`); `specs/Leave.antt` has both, over the definitions of `lp_run`. Each call keeps the width, says
//! when the count of unfit results rises, and bounds its work.
//!
//! No call takes memory. It stands on `instance_model` for instances and states, on `sparse_steps` for the products of
//! a column, on `exact_frac` for numbers and on `lp_run` for the definitions of the method.
#![tactic(auto)]

ghost use Rattle.std.specs.Prelude.{◌≡◌, ℕ, false};
ghost use Rattle.lp_run.specs.Instance.{Instance as Equations, IsWellFormed};
ghost use Rattle.lp_run.specs.State.{State};
ghost use Rattle.bland_ratio.specs.declared.tickets.Choice.{Choice as Answer};
ghost use Rattle.bland_ratio.specs.Pricing.{ChoiceEnters, IsExactChoice};

mod limits;
mod pricing;
mod quotients;
mod ratio_test;
mod tickets;

pub use pricing::{choose, eligible, first_stopper, improves, price};
pub use ratio_test::{Leave, RatioUnfit, leaving};
pub use tickets::{Choice, Pay, Ticket};

/// What an exact choice says, at any width, where it is not unfit: its column enters at the state, or none is eligible.
pub fn exact_choice_enters()
    ensures { (w : ℕ) (inst : Equations) (s : State) (choice : Answer) → IsWellFormed inst → IsExactChoice w inst s choice → choice.unfit ≡ false → ChoiceEnters inst s choice }
{}
