//! Where a column rests in a state.
ghost use Rattle.std.specs.Prelude.{◌≡◌, ◌<◌, length};
ghost use Rattle.lp_run.specs.Instance.{column_count};
ghost use Rattle.lp_run.specs.State.{rest};

use crate::instance::Instance;
use crate::state::State;
use exact_frac::Frac;
use lp_model::Status;

/// The value at which a column rests in a state: its lower or upper end, or 0.
#[tactic(auto, using(exact_frac::specs::Constants::constants))]
pub fn rest_of(inst: &Instance, state: &State, column: usize) -> Frac
    requires column { column < column_count inst.now }
    requires status { column < length state.now.statuses }
    ensures { result ≡ rest inst.now state.now column }
{
    let bounds = inst.bounds(state.phase(), column);
    match state.status(column) {
        Status::Basic | Status::Zero => Frac::ZERO,
        Status::Lower => bounds.lower().unwrap_or(Frac::ZERO),
        Status::Upper => bounds.upper().unwrap_or(Frac::ZERO),
    }
}
