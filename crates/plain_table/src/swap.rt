//! A swap, worked into spare parts.
ghost use Rattle.std.specs.Prelude.{◌≡◌, ◌<◌, ◌≤◌, ◌^◌, length, take, IfOk};
ghost use Rattle.lp_model.specs.declared.Entry.TheVariants.{Swap};
ghost use Rattle.lp_model.specs.declared.Side.{Side};
ghost use Rattle.exact_frac.specs.Count.{unfit_after};
ghost use Rattle.plain_table.specs.Answers.{IsNextOf, JudgesStep};
ghost use Rattle.plain_table.specs.Inner.Lines.{IsSupport};
ghost use Rattle.plain_table.specs.Inner.Rows.{AreWide};
ghost use Rattle.plain_table.specs.Inner.Steps.{SwapsTo, parts_table};

use crate::motion::{Parts, find_motion};
use crate::pivot::{Pivot, work_swap};
use crate::row::Row;
use exact_frac::{Arith, Frac};
use instance_model::{Instance, State, rest_of};
use lp_model::Place;
use std::thread::Threads;

/// Works all parts of the table after the swap by which column `q` takes the position into spare ones: the rows that
/// are worked anew, the basic values and the reduced costs. The elements of column `q` come into `alpha`, the pivot row
/// into `by`, and the columns in which it is not 0, as many as the answer says, into `support`.
pub fn work_entering<R: Threads + Sync, A: Arith>(
    rt: &R,
    inst: &Instance,
    parts: &Parts,
    q: u32,
    position: u32,
    arith: &mut A,
    alpha: &mut [Frac],
    by: &mut [Frac],
    support: &mut [u32],
    out_rows: &mut [Row],
    out_values: &mut [Frac],
    out_costs: &mut [Frac],
) -> Result<usize, Place>
    requires next { (end : Side) × IsNextOf inst.now (parts_table parts.now) (Swap q position end) }
    requires few_rows { length parts.now.rows.now < 2 ^ 32 }
    requires few_columns { length parts.now.costs.now < 2 ^ 32 }
    requires alpha { length alpha.old ≡ length parts.now.rows.now }
    requires spare_line { length by.old ≡ length parts.now.costs.now }
    requires spare_support { length support.old ≡ length parts.now.costs.now }
    requires spare_rows { length out_rows.old ≡ length parts.now.rows.now }
    requires spare_wide { AreWide (length parts.now.costs.now) out_rows.old }
    requires spare_values { length out_values.old ≡ length parts.now.rows.now }
    requires spare_costs { length out_costs.old ≡ length parts.now.costs.now }
    ensures listed { JudgesStep (A.width arith.old) inst.now (parts_table parts.now) result }
    ensures stands { IfOk result (λ count. SwapsTo inst.now (parts_table parts.now) q position by.new (take count support.new)
        out_rows.new out_values.new out_costs.new) }
    ensures support { IfOk result (λ count. (count ≤ length support.new) × IsSupport by.new (take count support.new)) }
    ensures spare_wide { AreWide (length parts.now.costs.now) out_rows.new }
    ensures width { A.width arith.new ≡ A.width arith.old }
    ensures unfit { A.unfit_count arith.new ≡ unfit_after (A.unfit_count arith.old) result }
{
    let motion = find_motion(inst, parts, q, arith, alpha)?;
    let positions = inst.rows();
    prove!(positions == parts.rows.len());
    let pivot = Pivot {
        number: parts.number,
        position,
        column: q as usize,
        down: motion.down,
        rest: rest_of(inst, parts.state, q as usize),
        ratio: motion.ratio,
    };
    work_swap(
        rt,
        &pivot,
        alpha,
        parts.rows,
        parts.values,
        parts.costs,
        arith,
        by,
        support,
        out_rows,
        out_values,
        out_costs,
    )
}
