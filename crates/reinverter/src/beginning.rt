//! How a draft is begun.
ghost use Rattle.std.specs.Prelude.{◌≡◌, ◌+◌, ◌*◌, ◌≤◌, Some, None, IfErr, IfOk};
ghost use Rattle.rational.specs.Worked.{settle};
ghost use Rattle.lp_run.specs.Instance.{row_count};
ghost use Rattle.lp_run.specs.Run.{IsAt};
ghost use Rattle.factor_run.specs.Built.{made_anew};
ghost use Rattle.basis_solves.specs.Refusals.{Explains, count_after};
ghost use Rattle.two_phase.specs.Drafts.{DraftStands, IsOfRun};
ghost use Rattle.reinverter.specs.Replays.{IsBegun};

use basis_solves::{Refusal as DraftFault, factors_of};
use exact_frac::Arith;
use instance_model::Instance;
use std::alloc::Global;
use std::sync::Arc;
use two_phase::{Draft, Snapshot};

/// The draft of a snapshot, whose factors are made for the basis of its state.
///
/// # Errors
///
/// `Unfit` exactly where a value that is worked for the factors does not fit the width of the arithmetic, `Memory` for want of
/// memory.
pub fn begin<A: Arith>(
    alloc: Global,
    inst: Arc<Instance>,
    snapshot: Snapshot,
    arith: &mut A,
) -> Result<Draft, DraftFault>
    requires { IsAt inst.value snapshot.number snapshot.state }
    ensures begun { IfOk result (IsBegun inst.value snapshot) }
    ensures made { IfOk result (λ draft. settle (A.width arith.old) (made_anew inst.value snapshot.state snapshot.number) ≡ Some (Some draft.factors)) }
    ensures stands { IfOk result (λ draft. DraftStands draft × IsOfRun draft) }
    ensures refusal { IfErr result (Explains (settle (A.width arith.old) (made_anew inst.value snapshot.state snapshot.number) ≡ None)) }
    ensures width { A.width arith.new ≡ A.width arith.old }
    ensures unfit { A.unfit_count arith.new ≡ count_after (A.unfit_count arith.old) result }
    ensures work { A.work_count arith.new ≤ A.work_count arith.old + row_count inst.value * row_count inst.value * row_count inst.value }
{
    let Snapshot { number, state } = snapshot;
    let factors = factors_of(alloc, &inst, state.basis(), number, arith)?;
    Ok(Draft::of_parts(inst, number, number, state, factors))
}
