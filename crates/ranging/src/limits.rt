//! What is known of all ranges.
ghost use Rattle.std.specs.Prelude.{◌≡◌, ◌<◌, ◌^◌, ℕ, length, map, get_or, None, IfOk, Some};
ghost use Rattle.std.specs.Option.{unwrap_or};
ghost use Rattle.rational.specs.Rational.{ℚ};
ghost use Rattle.rational.specs.Sum.{at};
ghost use Rattle.lp_run.specs.Instance.{column_count, row_count, structural_count};
ghost use Rattle.ranging.specs.Inner.Found.{AreBegun, AreCompleted, IsFirstMissing, own_limit as own_limit_at};
ghost use Rattle.ranging.specs.Ranges.{everything};

use crate::cost::own_limit;
use crate::fault::{RangeFault, RangePlace};
use crate::found::Ranges;
use crate::interval::everything;
use exact_frac::Frac;
use instance_model::{Bounds, Instance, State};
use std::alloc::{AllocError, Global};

/// An interval for each structural and for each row; none where a value that is worked for it does not fit.
#[derive(Drop)]
pub(crate) struct Limits {
    pub(crate) costs: Vec<Option<Bounds>>,
    pub(crate) rights: Vec<Option<Bounds>>,
}

impl Limits {
    /// What is known before any position: the intervals of the structurals that are not basic.
    pub(crate) fn begin(
        alloc: Global,
        inst: &Instance,
        state: &State,
        costs: &[Frac],
    ) -> Result<Limits, AllocError>
        requires statuses { length state.now.statuses ≡ column_count inst.now }
        requires costs { length costs.now ≡ column_count inst.now }
        ensures { IfOk result (AreBegun inst.now state.now costs.now) }
    {
        let costs = own_limits(alloc, inst, state, costs)?;
        let rights = vec![in alloc; Some(everything()); inst.rows()]?;
        Ok(Limits { costs, rights })
    }

    /// The ranges.
    ///
    /// # Errors
    ///
    /// `Unfit` where an interval is missing, with the first place, costs before right sides. `Memory` for want of memory.
    pub(crate) fn complete(&self, alloc: Global) -> Result<Ranges, RangeFault>
        requires costs { length self.now.costs.items < 2 ^ 32 }
        requires rights { length self.now.rights.items < 2 ^ 32 }
        ensures { AreCompleted self.now result }
    {
        if let Some(j) = first_missing(&self.costs) {
            return Err(RangeFault::Unfit(RangePlace::Cost(j as u32)));
        }
        if let Some(i) = first_missing(&self.rights) {
            return Err(RangeFault::Unfit(RangePlace::Right(i as u32)));
        }
        let costs = intervals(alloc, &self.costs)?;
        let rights = intervals(alloc, &self.rights)?;
        Ok(Ranges::of(costs, rights))
    }
}

// The intervals of the structurals that are not basic.
fn own_limits(
    alloc: Global,
    inst: &Instance,
    state: &State,
    costs: &[Frac],
) -> Result<Vec<Option<Bounds>>, AllocError>
    requires statuses { length state.now.statuses ≡ column_count inst.now }
    requires costs { length costs.now ≡ column_count inst.now }
    ensures count { IfOk result (λ limits. length limits.items ≡ structural_count inst.now) }
    ensures own { IfOk result (λ limits. (j : ℕ) → j < structural_count inst.now → get_or limits.items j None ≡ Some (own_limit_at inst.now state.now (at costs.now j) j)) }
{
    let mut limits = Vec::with_capacity(alloc, inst.structurals())?;
    for j in 0..inst.structurals() {
        limits.push(Some(own_limit(inst, state, costs[j], j)))?;
    }
    Ok(limits)
}

// The first interval that is missing.
fn first_missing(limits: &[Option<Bounds>]) -> Option<usize>
    ensures { IsFirstMissing limits.now result }
{
    for k in 0..limits.len() {
        if limits[k].is_none() {
            return Some(k);
        }
    }
    None
}

// The intervals, none of which is missing.
fn intervals(alloc: Global, limits: &[Option<Bounds>]) -> Result<Vec<Bounds>, AllocError>
    ensures { IfOk result (λ ranges. ranges.items ≡ map (λ limit. unwrap_or limit everything) limits.now) }
{
    let mut ranges = Vec::with_capacity(alloc, limits.len())?;
    for limit in limits {
        ranges.push(limit.unwrap_or(everything()))?;
    }
    Ok(ranges)
}
