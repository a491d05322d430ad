//! The basic values as a column enters.
ghost use Rattle.std.specs.Prelude.{◌≡◌, ◌+◌, ◌<◌, ◌≤◌, ◌^◌, ◌==◌, length, OnOk};
ghost use Rattle.lp_model.specs.declared.Kind.TheVariants as kind;
ghost use Rattle.rational.specs.Worked.{work};
ghost use Rattle.lp_run.specs.Listing.{place, Judges};
ghost use Rattle.exact_frac.specs.Count.{unfit_after};
ghost use Rattle.exact_frac.specs.Settles.{Settles};
ghost use Rattle.plain_table.specs.Inner.Values.{AreMoved, entered_by, moved, value_work, values_listing};

use exact_frac::{Arith, Frac, Unfit};
use lp_model::{Kind, Place};
use sparse_steps::{less_product, more_product};

/// A basic value after the step, with its element in the entering column, which falls or rises by the ratio.
fn move_value<A: Arith>(
    down: bool,
    value: Frac,
    element: Frac,
    ratio: Frac,
    arith: &mut A,
) -> Result<Frac, Unfit>
    ensures settled { Settles (A.width arith.old) (moved down value element ratio) result }
    ensures width { A.width arith.new ≡ A.width arith.old }
    ensures unfit { A.unfit_count arith.new ≡ unfit_after (A.unfit_count arith.old) result }
    ensures work { A.work_count arith.new ≤ A.work_count arith.old + 1 }
{
    if down {
        more_product(value, element, ratio, arith)
    } else {
        less_product(value, element, ratio, arith)
    }
}

/// The value of the entering column after the step, which was `rest`.
fn enter<A: Arith>(down: bool, rest: Frac, ratio: Frac, arith: &mut A) -> Result<Frac, Unfit>
    ensures settled { Settles (A.width arith.old) (work (entered_by down rest ratio)) result }
    ensures width { A.width arith.new ≡ A.width arith.old }
    ensures unfit { A.unfit_count arith.new ≡ unfit_after (A.unfit_count arith.old) result }
    ensures work { A.work_count arith.new ≤ A.work_count arith.old + 1 }
{
    if down {
        arith.sub(rest, ratio)
    } else {
        arith.add(rest, ratio)
    }
}

/// The value in a position after the step: in its own position that of the entering column.
fn value_after<A: Arith>(
    own: bool,
    down: bool,
    rest: Frac,
    value: Frac,
    element: Frac,
    ratio: Frac,
    arith: &mut A,
) -> Result<Frac, Unfit>
    ensures settled { Settles (A.width arith.old) (value_work own down rest value element ratio) result }
    ensures width { A.width arith.new ≡ A.width arith.old }
    ensures unfit { A.unfit_count arith.new ≡ unfit_after (A.unfit_count arith.old) result }
    ensures work { A.work_count arith.new ≤ A.work_count arith.old + 1 }
{
    if own {
        enter(down, rest, ratio, arith)
    } else {
        move_value(down, value, element, ratio, arith)
    }
}

/// All basic values after a step in which the entering column, whose value was `rest`, falls or rises by the ratio
/// and takes the position. It takes none where the position is not below m. A product is worked for each position at most.
///
/// # Errors
///
/// The place of the first value that does not fit the width, where there is one.
pub fn move_values<A: Arith>(
    number: u64,
    position: usize,
    down: bool,
    rest: Frac,
    ratio: Frac,
    values: &[Frac],
    column: &[Frac],
    arith: &mut A,
    out: &mut [Frac],
) -> Result<(), Place>
    requires column { length column.now ≡ length values.now }
    requires count { length out.old ≡ length values.now }
    requires few { length values.now < 2 ^ 32 }
    ensures answer { Judges (A.width arith.old) (values_listing number position down rest ratio values.now column.now) result }
    ensures moved { OnOk result (AreMoved position down rest ratio values.now column.now out.new) }
    ensures width { A.width arith.new ≡ A.width arith.old }
    ensures unfit { A.unfit_count arith.new ≡ unfit_after (A.unfit_count arith.old) result }
    ensures work { A.work_count arith.new ≤ A.work_count arith.old + length values.now }
{
    for i in 0..values.len() {
        match value_after(
            i == position,
            down,
            rest,
            values[i],
            column[i],
            ratio,
            arith,
        ) {
            Ok(value) => out[i] = value,
            Err(_) => return Err(value_place(number, i)),
        }
    }
    Ok(())
}

/// The place of a basic value.
pub fn value_place(number: u64, position: usize) -> Place
    requires { position < 2 ^ 32 }
    ensures { result ≡ place number kind.Value (Some position) None }
{
    Place {
        number,
        kind: Kind::Value,
        row: Some(position as u32),
        column: None,
    }
}
