//! The ranges over the plain table.
ghost use Rattle.std.specs.Prelude.{◌≡◌, ◌+◌, ◌<◌, ◌≤◌, ◌^◌, ℕ, length, IfErr, IfOk};
ghost use Rattle.rational.specs.Sum.{at};
ghost use Rattle.lp_run.specs.Instance.{IsWellFormed, column_count, row_count, structural_count};
ghost use Rattle.lp_run.specs.Listing.{StartFits};
ghost use Rattle.plain_table.specs.Answers.{IsRunLog};
ghost use Rattle.plain_table.specs.Next.{IsTableOf};
ghost use Rattle.plain_table.specs.Plain.{Stands, cell};
ghost use Rattle.ranging.specs.Inner.Found.{AreWorked, AreWorkedAt, HasRisen, IsTableFault, range_fault};

use crate::fault::RangeFault;
use crate::limits::Limits;
use crate::position::{Reading, take_position};
use deck_model::Log;
use exact_frac::{Arith, Frac};
use instance_model::Instance;
use plain_table::{Table, TableFault};
use std::alloc::{AllocError, Global};
use std::thread::Threads;

/// What is known of the ranges by the plain table at the state that a log leads to.
///
/// # Errors
///
/// `Overflow` with the place of the first value of the run that does not fit the width, `Memory` for want of memory.
pub(crate) fn over_table<R: Threads + Sync, A: Arith>(
    rt: &R,
    alloc: Global,
    inst: &Instance,
    log: &Log,
    arith: &mut A,
) -> Result<Limits, RangeFault>
    requires fits { StartFits (A.width arith.old) inst.now }
    requires run { IsRunLog inst.now log.now }
    ensures worked { IfOk result (AreWorkedAt (A.width arith.old) inst.now log.now) }
    ensures fault { IfErr result (IsTableFault (A.width arith.old) inst.now log.now (A.unfit_count arith.old) (A.unfit_count arith.new)) }
    ensures rose { IfOk result (HasRisen (A.unfit_count arith.old) (A.unfit_count arith.new)) }
    ensures width { A.width arith.new ≡ A.width arith.old }
    ensures unfit { A.unfit_count arith.old ≤ A.unfit_count arith.new }
{
    // (`rows` says that the instance is well formed)
    let _ = inst.rows();
    match Table::replay(rt, alloc, inst, log, arith) {
        Ok(table) => Ok(by_rows(alloc, inst, &table, arith)?),
        Err(fault) => Err(range_fault(fault)),
    }
}

// Why there are no ranges, where there is no table.
fn range_fault(fault: TableFault) -> RangeFault
    ensures { result ≡ range_fault fault }
{
    match fault {
        TableFault::Memory => RangeFault::Memory,
        TableFault::Overflow(place) => RangeFault::Overflow(place),
    }
}

// What is known of the ranges by the rows of a table.
#[tactic(auto, using(exact_frac::specs::Constants::constants))]
fn by_rows<A: Arith>(
    alloc: Global,
    inst: &Instance,
    table: &Table,
    arith: &mut A,
) -> Result<Limits, AllocError>
    requires { IsTableOf inst.now table.now }
    ensures worked { IfOk result (AreWorked (A.width arith.old) inst.now table.now.state) }
    ensures rose { IfOk result (HasRisen (A.unfit_count arith.old) (A.unfit_count arith.new)) }
    ensures width { A.width arith.new ≡ A.width arith.old }
    ensures unfit { A.unfit_count arith.old ≤ A.unfit_count arith.new }
{
    let mut limits = Limits::begin(alloc, inst, table.state(), table.costs())?;
    let mut row = vec![in alloc; Frac::ZERO; inst.columns()]?;
    let mut rates = vec![in alloc; Frac::ZERO; inst.rows()]?;
    for p in 0..inst.rows() {
        read_entries(table, p, 0, row.as_mut_slice());
        read_entries(table, p, inst.structurals(), rates.as_mut_slice());
        let read = Reading {
            value: table.value(p),
            row: &row,
            rates: &rates,
        };
        take_position(
            inst,
            table.state(),
            table.costs(),
            p,
            &read,
            &mut limits,
            arith,
        );
    }
    Ok(limits)
}

// The entries of a position, from that column on.
fn read_entries(table: &Table, p: usize, from: usize, out: &mut [Frac])
    requires position { p < length table.now.rows }
    requires columns { from + length out.old ≤ length table.now.costs }
    requires few { from + length out.old < 2 ^ 32 }
    ensures length { length out.new ≡ length out.old }
    ensures entries { (k : ℕ) → k < length out.old → at out.new k ≡ cell table.now p (from + k) }
{
    for k in 0..out.len() {
        out[k] = table.entry(p, from + k);
    }
}
