//! The factors of a basis: how they are made, and how they follow an exchange.
ghost use Rattle.std.specs.Prelude.{◌≡◌, ◌+◌, ◌*◌, ◌<◌, ◌≤◌, ℕ, Some, None, length, map, slice_set, IfErr, IfOk, OnErr, OnOk};
ghost use Rattle.std.specs.List.{All};
ghost use Rattle.lp_model.specs.declared.Side.{Side as End};
ghost use Rattle.lp_model.specs.declared.Entry.TheVariants.{Swap};
ghost use Rattle.rational.specs.Rational.{ℚ};
ghost use Rattle.rational.specs.Worked.{settle};
ghost use Rattle.lp_run.specs.Instance.{column_count, row_count};
ghost use Rattle.lp_run.specs.Solution.{basis_entry};
ghost use Rattle.lp_run.specs.State.{State as Position, after};
ghost use Rattle.factor_model.specs.Eta.{apply};
ghost use Rattle.factor_model.specs.Factors as model;
ghost use Rattle.factor_model.specs.Factors.{AreFactors, most_updates};
ghost use Rattle.factor_model.specs.Update.{HasPivot, with_column};
ghost use Rattle.factor_model.specs.Vectors.{vector};
ghost use Rattle.factor_run.specs.Built.{entering_column, exchanged, made_anew};
ghost use Rattle.ftran_btran.specs.Kept.{size};
ghost use Rattle.basis_solves.specs.Bases.{FactorsFrom, IsBasis, sparse_column};
ghost use Rattle.basis_solves.specs.Refusals.{Explains, count_after};
ghost use Rattle.basis_solves.specs.Works.{follow_work};

use crate::columns::{column_of, owned};
use crate::refusal::Refusal;
use exact_frac::{Arith, Frac};
use ft_update::UpdateFault;
use ftran_btran::{Factors, LuFault};
use instance_model::{Instance, State};
use no_memory::Memory;
use sparse_cols::SparseCol;
use std::alloc::Global;

// How many updates factors have before they are made anew.
const MOST_UPDATES: u32 = 64;

/// Factors of the basis of these columns, by position, made at a number of the log.
///
/// # Errors
///
/// `Unfit` exactly where a value that is worked for them does not fit the width of the arithmetic, `Memory` for want of
/// memory.
pub fn factors_of<A: Arith>(
    alloc: Global,
    inst: &Instance,
    basis: &[u32],
    number: u64,
    arith: &mut A,
) -> Result<Factors, Refusal>
    requires { (s : Position) × IsBasis inst.now s basis.now }
    ensures made { (s : Position) → IsBasis inst.now s basis.now → IfOk result (FactorsFrom (A.width arith.old) inst.now s number) }
    ensures refusal { (s : Position) → IsBasis inst.now s basis.now → IfErr result (Explains (settle (A.width arith.old) (made_anew inst.now s number) ≡ None)) }
    ensures width { A.width arith.new ≡ A.width arith.old }
    ensures unfit { A.unfit_count arith.new ≡ count_after (A.unfit_count arith.old) result }
    ensures work { A.work_count arith.new ≤ A.work_count arith.old + row_count inst.now * row_count inst.now * row_count inst.now }
{
    let columns = basis_columns(alloc, inst, basis)?;
    match Factors::make(alloc, inst.rows(), &columns, number, arith) {
        Ok(factors) => Ok(factors),
        Err(LuFault::Memory) => Err(Refusal::Memory),
        Err(LuFault::Unfit) => Err(Refusal::Unfit),
        Err(LuFault::Singular(_)) => unreachable!(),
    }
}

// The columns of these numbers.
fn basis_columns(
    alloc: Global,
    inst: &Instance,
    basis: &[u32],
) -> Result<Vec<SparseCol<Frac>>, Memory>
    requires { All (λ q. q < column_count inst.now) basis.now }
    ensures { IfOk result (λ columns. columns.items ≡ map (sparse_column inst.now) basis.now) }
{
    let mut columns = Vec::with_capacity(alloc, basis.len())?;
    for q in basis {
        let column = column_of(alloc, inst, *q as usize)?;
        columns.push(owned(column)?)?;
    }
    Ok(columns)
}

/// Follows the exchange of the column in position `p` by an update: `spike`, of length m, is that of its new column.
///
/// # Errors
///
/// `Unfit` exactly where a worked value does not fit the width of the arithmetic, `Memory` for want of memory. The factors
/// are then as they were.
pub fn update<A: Arith>(
    alloc: Global,
    factors: &mut Factors,
    p: u32,
    spike: &[Frac],
    arith: &mut A,
) -> Result<(), Refusal>
    requires updates { factors.old.updates < most_updates }
    requires position { p < size factors.old }
    requires length { length spike.now ≡ size factors.old }
    requires pivot { HasPivot factors.old.upper p spike.now }
    ensures settled { OnOk result (settle (A.width arith.old) (model.updated factors.old p spike.now) ≡ Some factors.new) }
    ensures refusal { IfErr result (Explains (settle (A.width arith.old) (model.updated factors.old p spike.now) ≡ None)) }
    ensures kept { OnErr result (factors.new ≡ factors.old) }
    ensures size { size factors.new ≡ size factors.old }
    ensures represents { (b : ℕ → ℕ → ℚ) → (a : ℕ → ℚ) → AreFactors (size factors.old) factors.old b
        → spike.now ≡ (apply (vector (size factors.old) a) factors.old.etas).answer
        → OnOk result (AreFactors (size factors.old) factors.new (with_column b p a)) }
    ensures width { A.width arith.new ≡ A.width arith.old }
    ensures unfit { A.unfit_count arith.new ≡ count_after (A.unfit_count arith.old) result }
    ensures work { A.work_count arith.new ≤ A.work_count arith.old + size factors.old * size factors.old }
{
    match factors.update(alloc, p as usize, spike, arith) {
        Ok(()) => Ok(()),
        Err(UpdateFault::Memory) => Err(Refusal::Memory),
        Err(UpdateFault::Unfit) => Err(Refusal::Unfit),
    }
}

// Factors of a state's basis with column `q` in position `p`.
fn make_after<A: Arith>(
    alloc: Global,
    inst: &Instance,
    state: &State,
    q: u32,
    p: u32,
    number: u64,
    arith: &mut A,
) -> Result<Factors, Refusal>
    requires position { p < length state.now.basis }
    requires basis { (end : End) × IsBasis inst.now (after state.now (Swap q p end)) (slice_set state.now.basis p q) }
    ensures made { (end : End) → IsBasis inst.now (after state.now (Swap q p end)) (slice_set state.now.basis p q)
        → IfOk result (FactorsFrom (A.width arith.old) inst.now (after state.now (Swap q p end)) number) }
    ensures refusal { (end : End) → IsBasis inst.now (after state.now (Swap q p end)) (slice_set state.now.basis p q)
        → IfErr result (Explains (settle (A.width arith.old) (made_anew inst.now (after state.now (Swap q p end)) number) ≡ None)) }
    ensures width { A.width arith.new ≡ A.width arith.old }
    ensures unfit { A.unfit_count arith.new ≡ count_after (A.unfit_count arith.old) result }
    ensures work { A.work_count arith.new ≤ A.work_count arith.old + row_count inst.now * row_count inst.now * row_count inst.now }
{
    let mut basis = Vec::from_slice(alloc, state.basis())?;
    basis[p as usize] = q;
    factors_of(alloc, inst, &basis, number, arith)
}

/// Follows the swap by which column `q`, whose spike is given, takes position `p` of the state's basis, under the number
/// of the state after it. The factors are made anew where they have had the most updates.
///
/// # Errors
///
/// `Unfit` exactly where a worked value does not fit the width of the arithmetic, `Memory` for want of memory. The factors
/// are then as they were.
pub fn follow<A: Arith>(
    alloc: Global,
    inst: &Instance,
    state: &State,
    factors: &mut Factors,
    q: u32,
    p: u32,
    number: u64,
    spike: &[Frac],
    arith: &mut A,
) -> Result<(), Refusal>
    requires positions { length state.now.basis ≡ row_count inst.now }
    requires position { p < row_count inst.now }
    requires factors { AreFactors (row_count inst.now) factors.old (basis_entry inst.now state.now) }
    requires length { length spike.now ≡ row_count inst.now }
    requires spike { spike.now ≡ (apply (entering_column inst.now q) factors.old.etas).answer }
    requires pivot { HasPivot factors.old.upper p spike.now }
    requires basis { (end : End) × IsBasis inst.now (after state.now (Swap q p end)) (slice_set state.now.basis p q) }
    ensures followed { (end : End) → IsBasis inst.now (after state.now (Swap q p end)) (slice_set state.now.basis p q)
        → OnOk result (settle (A.width arith.old) (exchanged inst.now (after state.now (Swap q p end)) number factors.old p q) ≡ Some (Some factors.new)) }
    ensures represents { (end : End) → IsBasis inst.now (after state.now (Swap q p end)) (slice_set state.now.basis p q)
        → OnOk result (AreFactors (row_count inst.now) factors.new (basis_entry inst.now (after state.now (Swap q p end)))) }
    ensures refusal { (end : End) → IsBasis inst.now (after state.now (Swap q p end)) (slice_set state.now.basis p q)
        → IfErr result (Explains (settle (A.width arith.old) (exchanged inst.now (after state.now (Swap q p end)) number factors.old p q) ≡ None)) }
    ensures kept { OnErr result (factors.new ≡ factors.old) }
    ensures width { A.width arith.new ≡ A.width arith.old }
    ensures unfit { A.unfit_count arith.new ≡ count_after (A.unfit_count arith.old) result }
    ensures work { A.work_count arith.new ≤ A.work_count arith.old + follow_work (row_count inst.now) factors.old.updates }
{
    if factors.updates() < MOST_UPDATES {
        return update(alloc, factors, p, spike, arith);
    }
    let made = make_after(alloc, inst, state, q, p, number, arith)?;
    *factors = made;
    Ok(())
}
