//! How far the column of a move goes, and in which direction.
ghost use Rattle.std.specs.Prelude.{◌≡◌, ◌≢◌, ◌<◌, ◌^◌, ℕ, [], get_or, length, OnOk, IfOk};
ghost use Rattle.rational.specs.Sum.{at};
ghost use Rattle.exact_frac.specs.Count.{unfit_after};
ghost use Rattle.bland_ratio.specs.Leave.{Decides, IsBasisOf};
ghost use Rattle.bland_ratio.specs.declared.ratio_test.Leave.TheVariants as leave;
ghost use Rattle.lp_run.specs.Instance.{column_count, row_count};
ghost use Rattle.lp_run.specs.Step.{Limit, direction};
ghost use Rattle.lp_run.specs.Listing.{Judges};
ghost use Rattle.plain_table.specs.Inner.Rows.{AreWide};
ghost use Rattle.plain_table.specs.Inner.Steps.{IsDecided, IsMotion, column_of, parts_table, ratio_by, test_listing};

use crate::next::{falls, ratio_place};
use crate::row::Row;
use crate::rows::read_column;
use bland_ratio::{Leave, leaving};
use exact_frac::{Arith, Frac};
use instance_model::{Instance, State};
use lp_model::Place;

/// The parts of a table that a move reads, while its spare parts are written.
#[derive(Drop)]
pub struct Parts<'a> {
    /// The state.
    pub state: &'a State,
    /// The rows, by position.
    pub rows: &'a [Row],
    /// The basic values, by position.
    pub values: &'a [Frac],
    /// The reduced costs, by column.
    pub costs: &'a [Frac],
    /// How many entries of the log come before the state.
    pub number: u64,
}

/// What the entering column does: it falls where `down` says so, or else rises, by the ratio.
#[derive(Clone, Copy, Debug)]
pub struct Motion {
    pub down: bool,
    pub ratio: Frac,
}

// The ratio of the limit that decides a step.
fn ratio_of(decided: Leave) -> Frac
    requires { decided ≢ leave.Free }
    ensures { result ≡ ratio_by decided }
{
    match decided {
        Leave::Flip(ratio) => ratio,
        Leave::Out(_, _, ratio) => ratio,
        Leave::Free => unreachable!(),
    }
}

/// Reads column `q` into `alpha`, and finds the limit that decides its step.
pub fn decide<A: Arith>(
    inst: &Instance,
    parts: &Parts,
    q: u32,
    arith: &mut A,
    alpha: &mut [Frac],
) -> Result<Leave, Place>
    requires state { IsBasisOf inst.now parts.now.state.now }
    requires rows { length parts.now.rows.now ≡ row_count inst.now }
    requires wide { AreWide (column_count inst.now) parts.now.rows.now }
    requires values { length parts.now.values.now ≡ row_count inst.now }
    requires costs { length parts.now.costs.now ≡ column_count inst.now }
    requires column { q < column_count inst.now }
    requires alpha { length alpha.old ≡ row_count inst.now }
    ensures answer { let t = parts_table parts.now in Judges (A.width arith.old) (test_listing inst.now t.number t.state t.rows t.values t.costs q) result }
    ensures decides { let t = parts_table parts.now in IfOk result (Decides inst.now t.state q (direction (at t.costs q)) t.values (column_of inst.now t.rows q)) }
    ensures column { alpha.new ≡ column_of inst.now parts.now.rows.now q }
    ensures width { A.width arith.new ≡ A.width arith.old }
    ensures unfit { A.unfit_count arith.new ≡ unfit_after (A.unfit_count arith.old) result }
{
    read_column(parts.rows, q as usize, alpha);
    let down = falls(parts.costs[q as usize]);
    match leaving(
        inst,
        parts.state,
        parts.values,
        q as usize,
        down,
        alpha,
        arith,
    ) {
        Ok(leave) => Ok(leave),
        Err(refusal) => Err(ratio_place(parts.number, q, refusal)),
    }
}

/// Reads column `q`, whose step has a limit, into `alpha`, and works its ratio test.
pub fn find_motion<A: Arith>(
    inst: &Instance,
    parts: &Parts,
    q: u32,
    arith: &mut A,
    alpha: &mut [Frac],
) -> Result<Motion, Place>
    requires state { IsBasisOf inst.now parts.now.state.now }
    requires rows { length parts.now.rows.now ≡ row_count inst.now }
    requires wide { AreWide (column_count inst.now) parts.now.rows.now }
    requires values { length parts.now.values.now ≡ row_count inst.now }
    requires costs { length parts.now.costs.now ≡ column_count inst.now }
    requires column { q < column_count inst.now }
    requires alpha { length alpha.old ≡ row_count inst.now }
    requires limited { let t = parts_table parts.now in (limit : Limit) × IsDecided inst.now t.state t.rows t.values t.costs q limit }
    ensures answer { let t = parts_table parts.now in Judges (A.width arith.old) (test_listing inst.now t.number t.state t.rows t.values t.costs q) result }
    ensures motion { let t = parts_table parts.now in IfOk result (IsMotion inst.now t.state t.rows t.values t.costs q) }
    ensures column { alpha.new ≡ column_of inst.now parts.now.rows.now q }
    ensures width { A.width arith.new ≡ A.width arith.old }
    ensures unfit { A.unfit_count arith.new ≡ unfit_after (A.unfit_count arith.old) result }
{
    let leave = decide(inst, parts, q, arith, alpha)?;
    Ok(Motion {
        down: falls(parts.costs[q as usize]),
        ratio: ratio_of(leave),
    })
}
