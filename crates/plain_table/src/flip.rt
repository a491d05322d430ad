//! A flip, worked into spare parts.
ghost use Rattle.std.specs.Prelude.{◌≡◌, ◌+◌, ◌<◌, ◌^◌, length, OnOk};
ghost use Rattle.lp_model.specs.declared.Entry.TheVariants.{Flip};
ghost use Rattle.exact_frac.specs.Count.{unfit_after};
ghost use Rattle.lp_run.specs.State.{after};
ghost use Rattle.plain_table.specs.Answers.{IsNextOf, JudgesStep};
ghost use Rattle.plain_table.specs.Inner.Steps.{StepsTo, parts_table, table_of};

use crate::motion::{Parts, find_motion};
use crate::values::move_values;
use exact_frac::{Arith, Frac};
use instance_model::Instance;
use lp_model::Place;

/// Works the basic values after the flip of column `q` into spare ones, and its elements into `alpha`.
pub fn work_flip<A: Arith>(
    inst: &Instance,
    parts: &Parts,
    q: u32,
    arith: &mut A,
    alpha: &mut [Frac],
    out: &mut [Frac],
) -> Result<(), Place>
    requires next { IsNextOf inst.now (parts_table parts.now) (Flip q) }
    requires few_rows { length parts.now.rows.now < 2 ^ 32 }
    requires alpha { length alpha.old ≡ length parts.now.rows.now }
    requires spare { length out.old ≡ length parts.now.values.now }
    ensures listed { JudgesStep (A.width arith.old) inst.now (parts_table parts.now) result }
    ensures stands { let t = parts_table parts.now in OnOk result (StepsTo inst.now t (Flip q) (table_of (after t.state (Flip q)) t.rows out.new t.costs (t.number + 1))) }
    ensures width { A.width arith.new ≡ A.width arith.old }
    ensures unfit { A.unfit_count arith.new ≡ unfit_after (A.unfit_count arith.old) result }
{
    let motion = find_motion(inst, parts, q, arith, alpha)?;
    move_values(
        parts.number,
        inst.rows(),
        motion.down,
        motion.ratio,
        motion.ratio,
        parts.values,
        alpha,
        arith,
        out,
    )
}
