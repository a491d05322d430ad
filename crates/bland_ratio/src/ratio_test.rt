//! The ratio test: which limit decides a step.
ghost use Rattle.std.specs.Prelude.{◌≡◌, ◌+◌, ◌<◌, ◌≤◌, ℕ, length, IfOk, IfErr, OnOk, OnErr};
ghost use Rattle.exact_frac.specs.Count.{raised};
ghost use Rattle.lp_run.specs.Instance.{column_count, row_count};
ghost use Rattle.bland_ratio.specs.Leave.{Decides, IsBasisOf, RatioDoesNotFit, RatiosFit, direction_where};
ghost use Rattle.bland_ratio.specs.Inner.Limits.{leave_of};

use crate::limits::{Limit, earlier};
use crate::quotients::{own_limit, position_limit};
use exact_frac::{Arith, Frac};
use instance_model::{Instance, State};
use lp_model::Side;
use thiserror::Error;

/// What limits the step of the entering column first. The fraction is the ratio: how far the column moves.
#[derive(Clone, Copy, Debug, PartialEq, Eq)]
pub enum Leave {
    /// The entering column goes to its other end.
    Flip(Frac),
    /// The column that is basic in the position leaves at that end of its bounds.
    Out(u32, Side, Frac),
    /// Nothing limits the step.
    Free,
}

/// A distance or a ratio does not fit the width of the arithmetic: that of a position, or else the distance between
/// the ends of the entering column.
#[derive(Clone, Copy, Debug, PartialEq, Eq, Error)]
#[error("a ratio does not fit the width")]
pub struct RatioUnfit {
    /// The position; none for the entering column's own range.
    pub position: Option<u32>,
}

/// The limit that decides the step of column `q`, which falls where `down` says so and else rises. The state has the
/// m positions of the instance, `values` are the basic values and `alpha` is column `q` in terms of the basis, both
/// by position.
///
/// Each position whose value moves towards a finite end limits the step at the ratio of the distance and the size of
/// its element, and a column with two finite ends limits itself at the distance between them. The least ratio
/// decides, and among equal ones the least column (Bland 1977).
///
/// `RatioUnfit` comes exactly where a distance or a ratio does not fit the width, with the first such place; the
/// positions come in order, and the column's own range last. Nothing else has changed then but the counts. The call
/// works at most m quotients and takes no memory.
pub fn leaving<A: Arith>(
    inst: &Instance,
    state: &State,
    values: &[Frac],
    q: usize,
    down: bool,
    alpha: &[Frac],
    arith: &mut A,
) -> Result<Leave, RatioUnfit>
    requires state { IsBasisOf inst.now state.now }
    requires values { length values.now ≡ row_count inst.now }
    requires column { q < column_count inst.now }
    requires alpha { length alpha.now ≡ row_count inst.now }
    ensures decides { IfOk result (Decides inst.now state.now q (direction_where down) values.now alpha.now) }
    ensures fits { OnOk result (RatiosFit (A.width arith.old) inst.now state.now q (direction_where down) values.now alpha.now) }
    ensures unfit { IfErr result (RatioDoesNotFit (A.width arith.old) inst.now state.now q (direction_where down) values.now alpha.now) }
    ensures width { A.width arith.new ≡ A.width arith.old }
    ensures counted { OnOk result (A.unfit_count arith.new ≡ A.unfit_count arith.old) }
    ensures raised { OnErr result (A.unfit_count arith.new ≡ raised (A.unfit_count arith.old) 1) }
    ensures work { A.work_count arith.new ≤ A.work_count arith.old + row_count inst.now }
{
    let mut best = None;
    for p in 0..inst.rows() as u32 {
        match position_limit(inst, state, values, down, alpha, p, arith) {
            Ok(next) => best = earlier(best, next),
            Err(_) => return Err(RatioUnfit { position: Some(p) }),
        }
    }
    match own_limit(inst.bounds(state.phase(), q), q, arith) {
        Ok(own) => Ok(leave_of(earlier(best, own))),
        Err(_) => Err(RatioUnfit { position: None }),
    }
}

// What the least limit says of the step.
fn leave_of(limit: Option<Limit>) -> Leave
    ensures { result ≡ leave_of limit }
{
    let Some(limit) = limit else {
        return Leave::Free;
    };
    match limit.out {
        Some((position, side)) => Leave::Out(position, side, limit.ratio),
        None => Leave::Flip(limit.ratio),
    }
}
