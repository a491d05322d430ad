//! The ranges of the last state of a run.
ghost use Rattle.std.specs.Prelude.{◌≡◌, ◌≤◌, IfErr, IfOk};
ghost use Rattle.lp_run.specs.Listing.{RunFits, StartFits};
ghost use Rattle.lp_run.specs.Run.{IsRun};
ghost use Rattle.lp_run.specs.State.{State};
ghost use Rattle.ranging.specs.Causes.{IsMemory, IsRangeCause};
ghost use Rattle.ranging.specs.Inner.Found.{AreWorkedAt, HasRisen};
ghost use Rattle.ranging.specs.Listing.{RangesFit};
ghost use Rattle.lp_run.specs.Instance.{IsWellFormed};
ghost use Rattle.ranging.specs.Ranges.{AreRanges, EndsAtOptimum};

use crate::factors::over_factors;
use crate::fault::RangeFault;
use crate::found::Ranges;
use crate::limits::Limits;
use crate::table::over_table;
use basis_solves::Refusal;
use deck_model::Log;
use exact_frac::Arith;
use instance_model::Instance;
use std::alloc::Global;
use std::thread::Threads;

/// How far each cost and each right side may change, alone, with the last basis of the run staying optimal. The log is the
/// whole run, which ends at an optimum.
///
/// The factors of the last basis are solved with; where a value of that does not fit, the plain table along the log is
/// read. The count of unfit results never falls, and has risen where it is refused for a value that does not fit.
///
/// # Errors
///
/// `Overflow` where a value of the solves with factors does not fit the width of the arithmetic, and then also one of the
/// run, with the place of the first of the run's. `Unfit` where a value of the ranges does not fit, with the place of the
/// first of these. `Memory` for want of memory.
pub fn ranges<R: Threads + Sync, A: Arith>(
    rt: &R,
    alloc: Global,
    inst: &Instance,
    log: &Log,
    arith: &mut A,
) -> Result<Ranges, RangeFault>
    requires fits { StartFits (A.width arith.old) inst.now }
    requires optimum { EndsAtOptimum inst.now log.now }
    ensures ranges { IfOk result (λ found. (s : State) → IsRun inst.now log.now s → AreRanges inst.now s found) }
    ensures cause { IfErr result (IsRangeCause (A.width arith.old) inst.now log.now (A.unfit_count arith.old) (A.unfit_count arith.new)) }
    ensures complete { RunFits (A.width arith.old) inst.now → RangesFit (A.width arith.old) inst.now log.now → IfErr result IsMemory }
    ensures width { A.width arith.new ≡ A.width arith.old }
    ensures unfit { A.unfit_count arith.old ≤ A.unfit_count arith.new }
{
    // (that the instance is well formed, and has few rows)
    let _ = inst.rows();
    // (that it has few columns)
    let _ = inst.structurals();
    let limits = known(rt, alloc, inst, log, arith)?;
    limits.complete(alloc)
}

// What is known of the ranges: by factors, or where a value that is worked with them does not fit by the plain table.
fn known<R: Threads + Sync, A: Arith>(
    rt: &R,
    alloc: Global,
    inst: &Instance,
    log: &Log,
    arith: &mut A,
) -> Result<Limits, RangeFault>
    requires fits { StartFits (A.width arith.old) inst.now }
    requires formed { IsWellFormed inst.now }
    requires optimum { EndsAtOptimum inst.now log.now }
    ensures worked { IfOk result (AreWorkedAt (A.width arith.old) inst.now log.now) }
    ensures cause { IfErr result (IsRangeCause (A.width arith.old) inst.now log.now (A.unfit_count arith.old) (A.unfit_count arith.new)) }
    ensures rose { IfOk result (HasRisen (A.unfit_count arith.old) (A.unfit_count arith.new)) }
    ensures width { A.width arith.new ≡ A.width arith.old }
    ensures unfit { A.unfit_count arith.old ≤ A.unfit_count arith.new }
{
    match over_factors(alloc, inst, log, arith) {
        Ok(limits) => Ok(limits),
        Err(Refusal::Memory) => Err(RangeFault::Memory),
        Err(Refusal::Unfit) => over_table(rt, alloc, inst, log, arith),
    }
}
