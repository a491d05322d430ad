//! How a draft takes in an entry of the run.
ghost use Rattle.std.specs.Prelude.{◌≡◌, ◌+◌, ◌-◌, ◌<◌, ◌^◌, ℕ, Some, None, IfErr, IfOk, OnErr, OnOk};
ghost use Rattle.rational.specs.Worked.{settle};
ghost use Rattle.lp_run.specs.Instance.{IsWellFormed, column_count, row_count};
ghost use Rattle.lp_run.specs.Run.{IsAt};
ghost use Rattle.lp_run.specs.Solution.{basis_entry};
ghost use Rattle.lp_run.specs.Step.{IsNext};
ghost use Rattle.factor_model.specs.Eta.{apply};
ghost use Rattle.factor_model.specs.Factors.{AreFactors, most_updates};
ghost use Rattle.factor_model.specs.Update.{HasPivot};
ghost use Rattle.factor_run.specs.Built.{entering_column};
ghost use Rattle.ftran_btran.specs.Kept.{size};
ghost use Rattle.basis_solves.specs.Refusals.{Explains, count_after};
ghost use Rattle.two_phase.specs.Drafts.{DraftStands, IsOfRun};
ghost use Rattle.reinverter.specs.Replays.{IsReplayed, exchanged_once, replay_count, replayed};

use basis_solves::{Refusal as DraftFault, solve_column, update};
use exact_frac::{Arith, Frac};
use ftran_btran::Factors;
use instance_model::{Instance, State};
use lp_model::Entry;
use std::alloc::Global;
use two_phase::{Draft, DraftParts};

/// Why a draft did not take in an entry; it comes back.
#[derive(Drop)]
pub struct ReplayFault {
    /// The draft, as it was.
    pub draft: Draft,
    /// `Memory` or `Unfit`.
    pub fault: DraftFault,
}

/// Takes in the run's next entry: number and state go on by it, and at a swap the factors follow by an update.
///
/// # Errors
///
/// `Unfit` exactly where a value that is worked to follow a swap does not fit the width of the arithmetic, `Memory` for want of
/// memory. The draft comes back as it was.
pub fn replay<A: Arith>(
    alloc: Global,
    draft: Draft,
    entry: Entry,
    arith: &mut A,
) -> Result<Draft, ReplayFault>
    requires draft { DraftStands draft × IsOfRun draft }
    requires next { IsNext draft.inst.value draft.state entry }
    requires updates { draft.factors.updates < most_updates }
    requires number { draft.number < 2 ^ 64 - 1 }
    ensures replayed { IfOk result (IsReplayed entry draft) }
    ensures followed { IfOk result (λ new. settle (A.width arith.old) (replayed draft.inst.value draft.factors entry) ≡ Some new.factors) }
    ensures stands { IfOk result (λ new. DraftStands new × IsOfRun new) }
    ensures back { IfErr result (λ refused. refused.draft ≡ draft) }
    ensures refusal { IfErr result (λ refused. Explains (settle (A.width arith.old) (replayed draft.inst.value draft.factors entry) ≡ None) refused.fault) }
    ensures width { A.width arith.new ≡ A.width arith.old }
    ensures unfit { A.unfit_count arith.new ≡ replay_count (A.unfit_count arith.old) result }
{
    let DraftParts {
        inst,
        base,
        number,
        mut state,
        mut factors,
    } = draft.into_parts();
    match follow(alloc, &inst, &state, &mut factors, entry, arith) {
        Ok(()) => {
            state.after(entry);
            Ok(Draft::of_parts(inst, base, number + 1, state, factors))
        }
        Err(fault) => Err(ReplayFault {
            draft: Draft::of_parts(inst, base, number, state, factors),
            fault,
        }),
    }
}

// Follows the next entry of the state with factors of its basis.
fn follow<A: Arith>(
    alloc: Global,
    inst: &Instance,
    state: &State,
    factors: &mut Factors,
    entry: Entry,
    arith: &mut A,
) -> Result<(), DraftFault>
    requires exact { (k : ℕ) × IsAt inst.now k state.now }
    requires next { IsNext inst.now state.now entry }
    requires factors { AreFactors (row_count inst.now) factors.old (basis_entry inst.now state.now) }
    requires updates { factors.old.updates < most_updates }
    ensures well_formed { IsWellFormed inst.now }
    ensures followed { OnOk result (settle (A.width arith.old) (replayed inst.now factors.old entry) ≡ Some factors.new) }
    ensures kept { OnErr result (factors.new ≡ factors.old) }
    ensures refusal { IfErr result (Explains (settle (A.width arith.old) (replayed inst.now factors.old entry) ≡ None)) }
    ensures width { A.width arith.new ≡ A.width arith.old }
    ensures unfit { A.unfit_count arith.new ≡ count_after (A.unfit_count arith.old) result }
{
    // wakes that the instance is well formed
    let _rows = inst.rows();
    match entry {
        Entry::Swap(q, p, _) => exchange(alloc, inst, factors, q, p, arith),
        Entry::Flip(_) => Ok(()),
        Entry::Turn => Ok(()),
    }
}

// Solves for column `q`, and follows its exchange for the one in position `p`.
#[tactic(auto, using(exact_frac::specs::Constants::constants))]
fn exchange<A: Arith>(
    alloc: Global,
    inst: &Instance,
    factors: &mut Factors,
    q: u32,
    p: u32,
    arith: &mut A,
) -> Result<(), DraftFault>
    requires column { q < column_count inst.now }
    requires position { p < row_count inst.now }
    requires size { size factors.old ≡ row_count inst.now }
    requires updates { factors.old.updates < most_updates }
    requires pivot { HasPivot factors.old.upper p (apply (entering_column inst.now q) factors.old.etas).answer }
    ensures followed { OnOk result (settle (A.width arith.old) (exchanged_once inst.now factors.old q p) ≡ Some factors.new) }
    ensures kept { OnErr result (factors.new ≡ factors.old) }
    ensures refusal { IfErr result (Explains (settle (A.width arith.old) (exchanged_once inst.now factors.old q p) ≡ None)) }
    ensures width { A.width arith.new ≡ A.width arith.old }
    ensures unfit { A.unfit_count arith.new ≡ count_after (A.unfit_count arith.old) result }
{
    let mut spike = vec![in alloc; Frac::ZERO; inst.rows()]?;
    let mut alpha = vec![in alloc; Frac::ZERO; inst.rows()]?;
    solve_column(
        alloc, inst, factors, q as usize, &mut spike, &mut alpha, arith,
    )?;
    update(alloc, factors, p, &spike, arith)
}
