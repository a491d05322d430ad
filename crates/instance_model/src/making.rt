//! How an instance is made of a deck, and why none is.
ghost use Rattle.std.specs.Prelude.{◌≡◌, ◌+◌, ◌<◌, ◌≤◌, map, length, sum_by, IfOk};
ghost use Rattle.lp_model.specs.Deck.{IsDeck, column as column_at, logical_bounds as logical_bounds_at};
ghost use Rattle.lp_run.specs.Instance.{equations_of, instance_of};
ghost use Rattle.lp_run.specs.Listing.{start_listing};
ghost use Rattle.instance_model.specs.Inner.Starts.{JudgesOrWants, part_of, row_products, row_start as row_start_of};
ghost use Rattle.instance_model.specs.Making.{MakesInstance, unfit_after_making};
ghost use Rattle.rational.specs.Sparse.{upto};

use crate::bounds::Bounds;
use crate::instance::{Instance, Structural};
use crate::start_sums::{RowStart, column_bounds, columns_off_zero, logical_bounds, row_start};
use deck_model::{Deck, MAX_COLUMNS, MAX_ROWS};
use exact_frac::{Arith, Frac};
use lp_model::{Place, Side};
use no_memory::Memory;
use std::alloc::{AllocError, AllocFailed, Global};
use thiserror::Error;

/// Why no instance is made of a deck.
#[derive(Clone, Copy, Debug, PartialEq, Eq, Error)]
pub enum InstanceFault {
    /// The allocator had no memory left.
    #[error("out of memory")]
    Memory,
    /// The place of the first start sum that does not fit the width of the arithmetic.
    #[error("a start sum does not fit")]
    Overflow(Place),
}

impl From<AllocError> for InstanceFault {
    ghost use Rattle.instance_model.specs.declared.making.InstanceFault.{InstanceFault};

    ghost from_gives = { λ _ fault. fault ≡ InstanceFault.Memory };

    fn from(_refusal: AllocError) -> InstanceFault {
        InstanceFault::Memory
    }
}

impl<T: Drop> From<AllocFailed<T>> for InstanceFault {
    ghost use Rattle.instance_model.specs.declared.making.InstanceFault.{InstanceFault};

    ghost from_gives = { λ _ fault. fault ≡ InstanceFault.Memory };

    fn from(_refusal: AllocFailed<T>) -> InstanceFault {
        InstanceFault::Memory
    }
}

impl From<Memory> for InstanceFault {
    ghost use Rattle.instance_model.specs.declared.making.InstanceFault.{InstanceFault};

    ghost from_gives = { λ _ fault. fault ≡ InstanceFault.Memory };

    fn from(_refusal: Memory) -> InstanceFault {
        InstanceFault::Memory
    }
}

impl From<Place> for InstanceFault {
    ghost use Rattle.instance_model.specs.declared.making.InstanceFault.{InstanceFault};

    ghost from_gives = { λ place fault. fault ≡ InstanceFault.Overflow place };

    fn from(place: Place) -> InstanceFault {
        InstanceFault::Overflow(place)
    }
}

impl Instance {
    /// The instance of a deck. All start sums are worked, row by row: what the structurals at their start take from the
    /// right side, how far the rest passes an end of the logical's bounds, and the end that the range gives. That takes at
    /// most one product for each stored entry of the structurals.
    ///
    /// # Errors
    ///
    /// `Overflow` with the place of the first start sum that does not fit the width of the arithmetic. `Memory` for want
    /// of memory.
    pub fn of<A: Arith>(
        alloc: Global,
        deck: &Deck,
        arith: &mut A,
    ) -> Result<Instance, InstanceFault>
        ensures made { MakesInstance (A.width arith.old) deck.now result }
        ensures width { A.width arith.new ≡ A.width arith.old }
        ensures unfit { A.unfit_count arith.new ≡ unfit_after_making (A.unfit_count arith.old) result }
        ensures work { A.work_count arith.new ≤ A.work_count arith.old + sum_by (λ c. length c.entries) (instance_of deck.now).structurals }
    {
        let right = right_sides(alloc, deck)?;
        let structurals = structurals(alloc, deck)?;
        let logicals = logicals(alloc, deck)?;
        let starts = row_starts(alloc, deck, arith)?;
        Ok(Instance {
            right,
            structurals,
            logicals,
            range_sums: range_sums(alloc, &starts)?,
            passed: passed_sides(alloc, &starts)?,
            constant: deck.constant(),
            sense: deck.sense(),
        })
    }
}

// The right sides of the rows.
fn right_sides(alloc: Global, deck: &Deck) -> Result<Vec<Frac>, AllocError>
    ensures items { IfOk result (λ right. right.items ≡ map (λ r. r.right) deck.now.rows) }
    ensures few { length deck.now.rows ≤ MAX_ROWS }
{
    let mut right = Vec::with_capacity(alloc, deck.rows())?;
    for row in 0..deck.rows() {
        right.push(deck.right(row))?;
    }
    Ok(right)
}

// The columns without their names.
fn structurals(alloc: Global, deck: &Deck) -> Result<Vec<Structural>, Memory>
    ensures items { IfOk result (λ structurals. structurals.items ≡ map (part_of (length deck.now.rows)) deck.now.columns) }
    ensures few { length deck.now.columns ≤ MAX_COLUMNS }
    ensures deck { IsDeck deck.now }
{
    let mut structurals = Vec::with_capacity(alloc, deck.columns())?;
    for column in 0..deck.columns() {
        structurals.push(structural(deck, column)?)?;
    }
    Ok(structurals)
}

// A column without its name.
fn structural(deck: &Deck, column: usize) -> Result<Structural, Memory>
    requires { column < length deck.now.columns }
    ensures { IfOk result (λ c. c ≡ part_of (length deck.now.rows) (column_at deck.now column)) }
{
    Ok(Structural {
        cost: deck.cost(column),
        entries: deck.column(column).copy()?,
        bounds: column_bounds(deck, column),
    })
}

// The bounds of the logicals.
fn logicals(alloc: Global, deck: &Deck) -> Result<Vec<Bounds>, AllocError>
    ensures { IfOk result (λ logicals. logicals.items ≡ map logical_bounds_at deck.now.rows) }
{
    let mut logicals = Vec::with_capacity(alloc, deck.rows())?;
    for row in 0..deck.rows() {
        logicals.push(logical_bounds(deck, row))?;
    }
    Ok(logicals)
}

// The start sums of all rows, worked row by row.
fn row_starts<A: Arith>(
    alloc: Global,
    deck: &Deck,
    arith: &mut A,
) -> Result<Vec<RowStart>, InstanceFault>
    ensures judged { JudgesOrWants (A.width arith.old) (start_listing (equations_of deck.now)) result }
    ensures value { IfOk result (λ starts. starts.items ≡ map (row_start_of deck.now) (upto (length deck.now.rows))) }
    ensures width { A.width arith.new ≡ A.width arith.old }
    ensures unfit { A.unfit_count arith.new ≡ unfit_after_making (A.unfit_count arith.old) result }
    ensures work { A.work_count arith.new ≤ A.work_count arith.old + sum_by (row_products (equations_of deck.now)) (upto (length deck.now.rows)) }
{
    let moved = columns_off_zero(alloc, deck)?;
    let mut starts = Vec::with_capacity(alloc, deck.rows())?;
    for row in 0..deck.rows() {
        starts.push(row_start(deck, &moved, row, arith)?)?;
    }
    Ok(starts)
}

// The range sums of rows, and the ends that their residuals pass.
fn range_sums(alloc: Global, starts: &[RowStart]) -> Result<Vec<Option<Frac>>, AllocError>
    ensures { IfOk result (λ sums. sums.items ≡ map (λ s. s.range_sum) starts.now) }
{
    starts.iter().map(|start| start.range_sum).collect(alloc)
}

fn passed_sides(alloc: Global, starts: &[RowStart]) -> Result<Vec<Option<Side>>, AllocError>
    ensures { IfOk result (λ sides. sides.items ≡ map (λ s. s.passed) starts.now) }
{
    starts.iter().map(|start| start.passed).collect(alloc)
}
