//! What the structurals at their start leave of the right sides.
ghost use Rattle.std.specs.Prelude.{◌≡◌, ◌+◌, ◌<◌, ◌≤◌};
ghost use Rattle.exact_frac.specs.Count.{unfit_after};
ghost use Rattle.exact_frac.specs.Settles.{Settles};
ghost use Rattle.lp_run.specs.Instance.{row_count};
ghost use Rattle.plain_table.specs.Inner.Starts.{residual_work, row_entries};

use exact_frac::{Arith, Frac, Unfit};
use instance_model::Instance;
use lp_model::Phase;
use sparse_steps::{entry, less_product};

/// The right side of a row less the structurals at their start, in rising structurals.
pub fn residual<A: Arith>(inst: &Instance, row: usize, arith: &mut A) -> Result<Frac, Unfit>
    requires { row < row_count inst.now }
    ensures settled { Settles (A.width arith.old) (residual_work inst.now row) result }
    ensures width { A.width arith.new ≡ A.width arith.old }
    ensures unfit { A.unfit_count arith.new ≡ unfit_after (A.unfit_count arith.old) result }
    ensures work { A.work_count arith.new ≤ A.work_count arith.old + row_entries inst.now row }
{
    let mut rest = inst.right(row);
    for j in 0..inst.structurals() {
        let value = inst.bounds(Phase::One, j).start_value();
        rest = less_product(rest, entry(inst.entries(j), row), value, arith)?;
    }
    Ok(rest)
}
