//! The basic values over factors of the last basis.
ghost use Rattle.std.specs.Prelude.{◌≡◌, [], ◌<◌, ◌≤◌, ◌∷◌, Some, length, map, IfErr, IfOk};
ghost use Rattle.basis_solves.specs.Refusals.{Explains};
ghost use Rattle.bland_ratio.specs.Pricing.{kind_entries};
ghost use Rattle.exact_frac.specs.Count.{unfit_after};
ghost use Rattle.exact_frac.specs.Settles.{Leaves};
ghost use Rattle.lp_run.specs.Instance.{column_count, column_kind, row_count};
ghost use Rattle.lp_run.specs.Solution.{Values};
ghost use Rattle.lp_run.specs.State.{rest};
ghost use Rattle.ranging.specs.Causes.{GivesUp, rests_taken};
ghost use Rattle.ranging.specs.Inner.Found.{RaisedFor};
ghost use Rattle.ranging.specs.Inner.Solves.{AreMadeFor, IsReached};
ghost use Rattle.rational.specs.Lines as lines;
ghost use Rattle.sparse_cols.specs.Work.{gathered};

use basis_solves::Refusal;
use exact_frac::{Arith, Frac, Unfit};
use ftran_btran::Factors;
use instance_model::{Instance, State, rest_of};
use lp_run::ColumnKind;
use no_memory::Memory;
use sparse_cols::{SparseCol, Work};
use sparse_steps::{less_product, subtract};
use std::alloc::Global;

/// The basic values of a state, by position.
///
/// # Errors
///
/// `Unfit` where a worked value does not fit the width of the arithmetic, `Memory` for want of memory.
#[tactic(auto, using(exact_frac::specs::Constants::constants))]
pub(crate) fn values_of<A: Arith>(
    alloc: Global,
    inst: &Instance,
    state: &State,
    factors: &Factors,
    arith: &mut A,
) -> Result<Vec<Frac>, Refusal>
    requires reached { IsReached inst.now state.now }
    requires made { AreMadeFor (A.width arith.old) inst.now state.now factors.now }
    ensures values { IfOk result (λ values. Values inst.now state.now values.items) }
    ensures refusal { IfErr result (Explains (GivesUp (A.width arith.old) inst.now state.now)) }
    ensures raised { IfErr result (RaisedFor (A.unfit_count arith.old) (A.unfit_count arith.new)) }
    ensures width { A.width arith.new ≡ A.width arith.old }
    ensures unfit { A.unfit_count arith.old ≤ A.unfit_count arith.new }
{
    let column = column_left(alloc, inst, state, arith)?;
    let mut spike = vec![in alloc; Frac::ZERO; inst.rows()]?;
    let mut values = vec![in alloc; Frac::ZERO; inst.rows()]?;
    factors.ftran(&column, spike.as_mut_slice(), values.as_mut_slice(), arith)?;
    Ok(values)
}

// What the columns at rest leave of the right sides, as a column.
#[tactic(auto, using(exact_frac::specs::Constants::constants))]
fn column_left<A: Arith>(
    alloc: Global,
    inst: &Instance,
    state: &State,
    arith: &mut A,
) -> Result<SparseCol<Frac>, Refusal>
    requires { IsReached inst.now state.now }
    ensures column { IfOk result (λ column. column ≡ gathered (map Some (rests_taken inst.now state.now).answer)) }
    ensures refusal { IfErr result (Explains (GivesUp (A.width arith.old) inst.now state.now)) }
    ensures raised { IfErr result (RaisedFor (A.unfit_count arith.old) (A.unfit_count arith.new)) }
    ensures width { A.width arith.new ≡ A.width arith.old }
    ensures unfit { A.unfit_count arith.old ≤ A.unfit_count arith.new }
{
    let mut left = vec![in alloc; Frac::ZERO; inst.rows()]?;
    put_left(inst, state, left.as_mut_slice(), arith)?;
    Ok(stored(alloc, &left)?)
}

// Puts what the columns at rest leave of the right sides into a vector.
fn put_left<A: Arith>(
    inst: &Instance,
    state: &State,
    out: &mut [Frac],
    arith: &mut A,
) -> Result<(), Unfit>
    requires reached { IsReached inst.now state.now }
    requires out { length out.old ≡ row_count inst.now }
    ensures settled { Leaves (A.width arith.old) (rests_taken inst.now state.now) result out.new }
    ensures width { A.width arith.new ≡ A.width arith.old }
    ensures unfit { A.unfit_count arith.new ≡ unfit_after (A.unfit_count arith.old) result }
{
    put_rights(inst, out);
    for j in 0..inst.columns() {
        take_rest(inst, state, j, out, arith)?;
    }
    Ok(())
}

// Puts the right sides into a vector.
fn put_rights(inst: &Instance, out: &mut [Frac])
    requires { length out.old ≡ row_count inst.now }
    ensures { out.new ≡ inst.now.right }
{
    for i in 0..out.len() {
        out[i] = inst.right(i);
    }
}

// Takes column `j` times the value at which it rests from a vector.
#[tactic(auto, using(exact_frac::specs::Constants::constants))]
fn take_rest<A: Arith>(
    inst: &Instance,
    state: &State,
    j: usize,
    out: &mut [Frac],
    arith: &mut A,
) -> Result<(), Unfit>
    requires reached { IsReached inst.now state.now }
    requires column { j < column_count inst.now }
    requires out { length out.old ≡ row_count inst.now }
    ensures settled { Leaves (A.width arith.old) (lines.subtract (row_count inst.now) (rest inst.now state.now j) out.old (kind_entries inst.now (column_kind inst.now j))) result out.new }
    ensures width { A.width arith.new ≡ A.width arith.old }
    ensures unfit { A.unfit_count arith.new ≡ unfit_after (A.unfit_count arith.old) result }
{
    let value = rest_of(inst, state, j);
    match inst.kind(j) {
        ColumnKind::Structural(k) => subtract(inst.rows(), value, out, inst.entries(k), arith),
        ColumnKind::Logical(i) => take_entry(i, Frac::ONE, value, out, arith),
        ColumnKind::Artificial(i) => take_entry(i, inst.sign(i), value, out, arith),
    }
}

// Takes an entry in row `i` times a value from a vector.
fn take_entry<A: Arith>(
    i: usize,
    entry: Frac,
    value: Frac,
    out: &mut [Frac],
    arith: &mut A,
) -> Result<(), Unfit>
    requires { i < length out.old }
    ensures settled { Leaves (A.width arith.old) (lines.subtract (length out.old) value out.old ((i, entry) ∷ [])) result out.new }
    ensures width { A.width arith.new ≡ A.width arith.old }
    ensures unfit { A.unfit_count arith.new ≡ unfit_after (A.unfit_count arith.old) result }
{
    out[i] = less_product(out[i], entry, value, arith)?;
    Ok(())
}

// A vector as a column, which stores each item.
fn stored(alloc: Global, v: &[Frac]) -> Result<SparseCol<Frac>, Memory>
    ensures { IfOk result (λ column. column ≡ gathered (map Some v.now)) }
{
    let mut row = Work::new(alloc, v.len())?;
    for i in 0..v.len() {
        row.set(i, v[i]);
    }
    row.gather()
}
