//! Whether the outcome and the basis that a report states are those of the end of the run.
ghost use Rattle.std.specs.Prelude.{◌≡◌, ◌<◌, ◌↔◌, List, ℕ, IfErr, IfOk, IsTrue};
ghost use Rattle.exact_frac.specs.Count.{unfit_after};
ghost use Rattle.deck_model.specs.Outcome.{outcome_of};
ghost use Rattle.instance_model.specs.Basis.{basis_of};
ghost use Rattle.lp_run.specs.Ends.{Yields, point as point_of, prices_in};
ghost use Rattle.lp_run.specs.Instance.{IsWellFormed};
ghost use Rattle.lp_run.specs.Listing.{AllFit, Listed};
ghost use Rattle.plain_table.specs.Next.{EndsBy, IsTableOf, prices as prices_of};
ghost use Rattle.plain_table.specs.declared.next.End.TheVariants as end;
ghost use Rattle.run_audit.specs.Answers.{unfit_after_audit};
ghost use Rattle.run_audit.specs.Inner.Parts.{TotalOverflows, ray_at};
ghost use Rattle.run_audit.specs.Works.{TotalLists};

use crate::fault::AuditFault;
use deck_model::{Basis, Outcome};
use exact_frac::{Arith, Frac};
use instance_model::{Instance, State, basis_of};
use no_memory::Memory;
use plain_table::{End, Table, falls};
use run_outcome::{count_in, objective, point, ray};
use std::alloc::{AllocError, Global};

/// Whether an outcome is that of the table's state, at which the run ends so. The sums of the objective are worked only
/// where the point and the prices of an optimum are the outcome's.
///
/// # Errors
///
/// `Overflow` with the place of the first of these sums that does not fit the width; `Memory` for want of memory.
pub fn is_outcome<A: Arith>(
    alloc: Global,
    inst: &Instance,
    table: &Table,
    end: End,
    outcome: &Outcome,
    arith: &mut A,
) -> Result<bool, AuditFault>
    requires well_formed { IsWellFormed inst.now }
    requires table { IsTableOf inst.now table.now }
    requires ends { EndsBy inst.now table.now end }
    ensures outcome { IfOk result (λ same. IsTrue same ↔ Yields inst.now table.now.state (outcome_of outcome.now)) }
    ensures totals { IfOk result (λ same. (vs : List Listed) × TotalLists inst.now table.now.number table.now.state (outcome_of outcome.now) vs × AllFit (A.width arith.old) vs) }
    ensures fault { IfErr result (TotalOverflows (A.width arith.old) inst.now table.now.number table.now.state (outcome_of outcome.now)) }
    ensures width { A.width arith.new ≡ A.width arith.old }
    ensures unfit { A.unfit_count arith.new ≡ unfit_after_audit (A.unfit_count arith.old) result }
{
    match end {
        End::Optimal => is_optimum(alloc, inst, table, outcome, arith),
        End::Infeasible => Ok(is_farkas(alloc, inst, table, outcome)?),
        End::Unbounded(q) => Ok(is_unbounded(alloc, inst, table, q, outcome)?),
    }
}

// Whether an outcome is the optimum of the table's state.
fn is_optimum<A: Arith>(
    alloc: Global,
    inst: &Instance,
    table: &Table,
    outcome: &Outcome,
    arith: &mut A,
) -> Result<bool, AuditFault>
    requires well_formed { IsWellFormed inst.now }
    requires table { IsTableOf inst.now table.now }
    requires ends { EndsBy inst.now table.now end.Optimal }
    ensures outcome { IfOk result (λ same. IsTrue same ↔ Yields inst.now table.now.state (outcome_of outcome.now)) }
    ensures totals { IfOk result (λ same. (vs : List Listed) × TotalLists inst.now table.now.number table.now.state (outcome_of outcome.now) vs × AllFit (A.width arith.old) vs) }
    ensures fault { IfErr result (TotalOverflows (A.width arith.old) inst.now table.now.number table.now.state (outcome_of outcome.now)) }
    ensures width { A.width arith.new ≡ A.width arith.old }
    ensures unfit { A.unfit_count arith.new ≡ unfit_after_audit (A.unfit_count arith.old) result }
{
    let Outcome::Optimal {
        x,
        y,
        objective: stated,
    } = outcome
    else {
        return Ok(false);
    };
    if !has_optimum(alloc, inst, table, x.as_slice(), y.as_slice())? {
        return Ok(false);
    }
    let value = objective(inst, table.number(), x.as_slice(), arith)?;
    Ok(value == *stated)
}

// Whether these are the point and the prices of the table's state.
fn has_optimum(
    alloc: Global,
    inst: &Instance,
    table: &Table,
    x: &[Frac],
    y: &[Frac],
) -> Result<bool, AllocError>
    requires well_formed { IsWellFormed inst.now }
    requires table { IsTableOf inst.now table.now }
    ensures { IfOk result (λ same. IsTrue same ↔ ((x.now ≡ point_of inst.now table.now.state table.now.values) × (y.now ≡ prices_in inst.now.sense (prices_of inst.now table.now)))) }
{
    let mut prices = table.prices(alloc, inst)?;
    count_in(inst.sense(), prices.as_mut_slice());
    Ok(same_numbers(y, &prices) && is_point(alloc, inst, table, x)?)
}

// Whether this is the point of the table's state.
fn is_point(alloc: Global, inst: &Instance, table: &Table, x: &[Frac]) -> Result<bool, AllocError>
    requires well_formed { IsWellFormed inst.now }
    requires table { IsTableOf inst.now table.now }
    ensures { IfOk result (λ same. IsTrue same ↔ (x.now ≡ point_of inst.now table.now.state table.now.values)) }
{
    let own = point(alloc, inst, table.state(), table.values())?;
    Ok(same_numbers(x, &own))
}

// Whether an outcome is the Farkas row of the table's state.
fn is_farkas(
    alloc: Global,
    inst: &Instance,
    table: &Table,
    outcome: &Outcome,
) -> Result<bool, AllocError>
    requires table { IsTableOf inst.now table.now }
    requires ends { EndsBy inst.now table.now end.Infeasible }
    ensures { IfOk result (λ same. IsTrue same ↔ Yields inst.now table.now.state (outcome_of outcome.now)) }
{
    let Outcome::Infeasible { y } = outcome else {
        return Ok(false);
    };
    let prices = table.prices(alloc, inst)?;
    Ok(same_numbers(y.as_slice(), &prices))
}

// Whether an outcome is the feasible point and the ray of the table's state, from which column `q` moves without a limit.
fn is_unbounded(
    alloc: Global,
    inst: &Instance,
    table: &Table,
    q: u32,
    outcome: &Outcome,
) -> Result<bool, AllocError>
    requires well_formed { IsWellFormed inst.now }
    requires table { IsTableOf inst.now table.now }
    requires ends { EndsBy inst.now table.now (end.Unbounded q) }
    ensures { IfOk result (λ same. IsTrue same ↔ Yields inst.now table.now.state (outcome_of outcome.now)) }
{
    let Outcome::Unbounded { x, ray } = outcome else {
        return Ok(false);
    };
    if !is_ray(alloc, inst, table, q, ray.as_slice())? {
        return Ok(false);
    }
    is_point(alloc, inst, table, x.as_slice())
}

// Whether this is the ray along which column `q` moves from the table's state.
fn is_ray(
    alloc: Global,
    inst: &Instance,
    table: &Table,
    q: u32,
    stated: &[Frac],
) -> Result<bool, AllocError>
    requires table { IsTableOf inst.now table.now }
    requires ends { EndsBy inst.now table.now (end.Unbounded q) }
    ensures { IfOk result (λ same. IsTrue same ↔ (stated.now ≡ ray_at inst.now table.now q)) }
{
    let alpha = table.column(alloc, inst, q as usize)?;
    let down = falls(table.cost(q as usize));
    let own = ray(alloc, inst, table.state(), &alpha, q, down)?;
    Ok(same_numbers(stated, &own))
}

/// Whether a basis is that which the state tells.
///
/// # Errors
///
/// `Memory` for want of memory.
pub fn is_basis(alloc: Global, state: &State, basis: &Basis) -> Result<bool, Memory>
    ensures { IfOk result (λ same. IsTrue same ↔ (basis.now ≡ basis_of state.now)) }
{
    let own = basis_of(alloc, state)?;
    Ok(
        same_columns(basis.basic.as_slice(), own.basic.as_slice())
            && same_columns(basis.upper.as_slice(), own.upper.as_slice()),
    )
}

// Whether two lists of numbers are the same.
fn same_numbers(a: &[Frac], b: &[Frac]) -> bool
    ensures { IsTrue result ↔ (a.now ≡ b.now) }
{
    a == b
}

// Whether two lists of columns are the same.
fn same_columns(a: &[u32], b: &[u32]) -> bool
    ensures { IsTrue result ↔ (a.now ≡ b.now) }
{
    a == b
}
