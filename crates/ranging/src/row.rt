//! The row of a position over factors of the last basis.
ghost use Rattle.std.specs.Prelude.{◌≡◌, ◌<◌, ◌≤◌, length, IfErr, IfOk, OnOk, true};
ghost use Rattle.rational.specs.Rational.{one_ℚ};
ghost use Rattle.rational.specs.Sparse.{at_index};
ghost use Rattle.exact_frac.specs.Count.{unfit_after};
ghost use Rattle.basis_solves.specs.Refusals.{Explains};
ghost use Rattle.factor_model.specs.Vectors.{unit_vector};
ghost use Rattle.lp_run.specs.Instance.{column_count, row_count};
ghost use Rattle.ranging.specs.Causes.{GivesUp, IsRowOf};
ghost use Rattle.ranging.specs.Inner.Found.{RaisedFor};
ghost use Rattle.ranging.specs.Inner.Solves.{AreEntries, AreMadeFor, AreVectors, IsRead, IsReached, IsUncrossed, entry_by, signed};
ghost use Rattle.ranging.specs.Listing.{is_looked_at};

use crate::cost::is_looked_at;
use basis_solves::Refusal;
use exact_frac::{Arith, Frac, Unfit};
use ftran_btran::Factors;
use instance_model::{Instance, State};
use lp_model::Side;
use lp_run::ColumnKind;
use sparse_steps::gather;
use std::alloc::{AllocError, Global};

/// The vectors of one position after the other: the row of the inverse of the basis matrix, and the entries of the columns.
#[derive(Drop)]
pub(crate) struct Vectors {
    unit: Vec<Frac>,
    work: Vec<Frac>,
    pub(crate) rates: Vec<Frac>,
    pub(crate) row: Vec<Frac>,
}

impl Vectors {
    /// Vectors for the positions of an instance, which hold anything.
    #[tactic(auto, using(exact_frac::specs::Constants::constants))]
    pub(crate) fn new(alloc: Global, inst: &Instance) -> Result<Vectors, AllocError>
        ensures { IfOk result (AreVectors inst.now) }
    {
        Ok(Vectors {
            unit: vec![in alloc; Frac::ZERO; inst.rows()]?,
            work: vec![in alloc; Frac::ZERO; inst.rows()]?,
            rates: vec![in alloc; Frac::ZERO; inst.rows()]?,
            row: vec![in alloc; Frac::ZERO; inst.columns()]?,
        })
    }

    /// Solves for the row of position `p`: the entries of the logicals come into `rates`. Where a structural is basic in the
    /// position, those of all columns that are looked at come into `row`.
    pub(crate) fn read<A: Arith>(
        &mut self,
        inst: &Instance,
        state: &State,
        factors: &Factors,
        p: usize,
        arith: &mut A,
    ) -> Result<(), Refusal>
        requires reached { IsReached inst.now state.now }
        requires made { AreMadeFor (A.width arith.old) inst.now state.now factors.now }
        requires position { p < row_count inst.now }
        requires vectors { AreVectors inst.now self.old }
        ensures read { OnOk result (IsRead inst.now state.now p self.new) }
        ensures refusal { IfErr result (Explains (GivesUp (A.width arith.old) inst.now state.now)) }
        ensures raised { IfErr result (RaisedFor (A.unfit_count arith.old) (A.unfit_count arith.new)) }
        ensures width { A.width arith.new ≡ A.width arith.old }
        ensures unfit { A.unfit_count arith.old ≤ A.unfit_count arith.new }
    {
        solve_row(
            inst,
            state,
            factors,
            p,
            self.unit.as_mut_slice(),
            self.work.as_mut_slice(),
            self.rates.as_mut_slice(),
            arith,
        )?;
        put_entries(inst, state, p, &self.rates, self.row.as_mut_slice(), arith)
    }
}

// Row `p` of the inverse of the basis matrix.
fn solve_row<A: Arith>(
    inst: &Instance,
    state: &State,
    factors: &Factors,
    p: usize,
    unit: &mut [Frac],
    work: &mut [Frac],
    row: &mut [Frac],
    arith: &mut A,
) -> Result<(), Refusal>
    requires made { AreMadeFor (A.width arith.old) inst.now state.now factors.now }
    requires position { p < row_count inst.now }
    requires unit { length unit.old ≡ row_count inst.now }
    requires work { length work.old ≡ row_count inst.now }
    requires row { length row.old ≡ row_count inst.now }
    ensures row { OnOk result (IsRowOf inst.now state.now p row.new) }
    ensures refusal { IfErr result (Explains (GivesUp (A.width arith.old) inst.now state.now)) }
    ensures raised { IfErr result (RaisedFor (A.unfit_count arith.old) (A.unfit_count arith.new)) }
    ensures width { A.width arith.new ≡ A.width arith.old }
    ensures unfit { A.unfit_count arith.old ≤ A.unfit_count arith.new }
{
    put_unit(p, unit);
    factors.btran(unit, work, row, arith)?;
    Ok(())
}

// Puts the unit vector of a position into a vector.
#[tactic(auto, using(exact_frac::specs::Constants::constants))]
fn put_unit(p: usize, out: &mut [Frac])
    ensures { out.new ≡ unit_vector (length out.old) p }
{
    for i in 0..out.len() {
        out[i] = unit_item(i, p);
    }
}

// The item of the unit vector of position `p` in row `i`.
#[tactic(auto, using(exact_frac::specs::Constants::constants))]
fn unit_item(i: usize, p: usize) -> Frac
    ensures { result ≡ at_index i p one_ℚ }
{
    if i == p { Frac::ONE } else { Frac::ZERO }
}

// Puts the entries of a position in the columns that are looked at, by its row of the inverse, where a structural is basic
// in the position.
fn put_entries<A: Arith>(
    inst: &Instance,
    state: &State,
    p: usize,
    rates: &[Frac],
    row: &mut [Frac],
    arith: &mut A,
) -> Result<(), Refusal>
    requires reached { IsReached inst.now state.now }
    requires position { p < row_count inst.now }
    requires rates { IsRowOf inst.now state.now p rates.now }
    requires row { length row.old ≡ column_count inst.now }
    ensures entries { OnOk result (AreEntries inst.now state.now p rates.now row.new) }
    ensures refusal { IfErr result (Explains (GivesUp (A.width arith.old) inst.now state.now)) }
    ensures raised { IfErr result (RaisedFor (A.unfit_count arith.old) (A.unfit_count arith.new)) }
    ensures width { A.width arith.new ≡ A.width arith.old }
    ensures unfit { A.unfit_count arith.old ≤ A.unfit_count arith.new }
{
    if state.basic(p) as usize >= inst.structurals() {
        return Ok(());
    }
    for k in 0..inst.columns() {
        row[k] = entry_of(inst, state, rates, k, arith)?;
    }
    Ok(())
}

// The entry of a column that is looked at, by a row of the inverse.
#[tactic(auto, using(exact_frac::specs::Constants::constants))]
fn entry_of<A: Arith>(
    inst: &Instance,
    state: &State,
    rates: &[Frac],
    k: usize,
    arith: &mut A,
) -> Result<Frac, Unfit>
    requires reached { IsReached inst.now state.now }
    requires rates { length rates.now ≡ row_count inst.now }
    requires column { k < column_count inst.now }
    ensures entry { IfOk result (λ a. is_looked_at inst.now state.now k ≡ true → a ≡ entry_by inst.now rates.now k) }
    ensures cause { IfErr result (λ _. IsUncrossed (A.width arith.old) inst.now rates.now k) }
    ensures width { A.width arith.new ≡ A.width arith.old }
    ensures unfit { A.unfit_count arith.new ≡ unfit_after (A.unfit_count arith.old) result }
{
    if !is_looked_at(inst, state, k) {
        return Ok(Frac::ZERO);
    }
    match inst.kind(k) {
        ColumnKind::Structural(j) => {
            let left = gather(inst.rows(), rates, Frac::ZERO, inst.entries(j), arith)?;
            Ok(left.negated())
        }
        ColumnKind::Logical(i) => Ok(rates[i]),
        ColumnKind::Artificial(i) => Ok(signed(inst.passed(i), rates[i])),
    }
}

// A number with the sign of an artificial, by the end that the residual of its row passes.
fn signed(passed: Option<Side>, x: Frac) -> Frac
    ensures { result ≡ signed passed x }
{
    match passed {
        Some(Side::Lower) => x.negated(),
        Some(Side::Upper) => x,
        None => x,
    }
}
