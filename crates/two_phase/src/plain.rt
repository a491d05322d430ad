//! A run that goes on over the plain table.
ghost use Rattle.std.specs.Prelude.{◌≡◌, ◌+◌, ◌<◌, ◌≤◌, ◌^◌, length, IfErr, IfOk, OnErr};
ghost use Rattle.lp_model.specs.Log.{is_move, moves};
ghost use Rattle.lp_run.specs.Instance.{IsWellFormed, column_count};
ghost use Rattle.lp_run.specs.Listing.{StartFits};
ghost use Rattle.lp_run.specs.Step.{IsNext};
ghost use Rattle.plain_table.specs.Answers.{IsRunLog};
ghost use Rattle.plain_table.specs.Next.{EndsBy, IsTableOf};
ghost use Rattle.two_phase.specs.Inner.Plains.{HasRisen, IsFitted, IsRunFault, TableReaches, TableStops};

use crate::reached::Reached;
use deck_model::Log;
use exact_frac::Arith;
use instance_model::Instance;
use lp_model::Entry;
use plain_table::{End, Next, Table, TableFault, falls};
use run_outcome::Stop;
use std::alloc::Global;
use std::thread::Threads;

/// The table at the state that the log reaches.
pub fn replay<R: Threads + Sync, A: Arith>(
    rt: &R,
    alloc: Global,
    inst: &Instance,
    log: &Log,
    arith: &mut A,
) -> Result<Table, TableFault>
    requires well_formed { IsWellFormed inst.now }
    requires fits { StartFits (A.width arith.old) inst.now }
    requires run { IsRunLog inst.now log.now }
    ensures fitted { IfOk result (IsFitted (A.width arith.old) inst.now log.now) }
    ensures fault { IfErr result (IsRunFault (A.width arith.old) inst.now log.now) }
    ensures width { A.width arith.new ≡ A.width arith.old }
    ensures unfit { A.unfit_count arith.old ≤ A.unfit_count arith.new }
    ensures rose { IfErr result (HasRisen (A.unfit_count arith.old) (A.unfit_count arith.new)) }
{
    match Table::replay(rt, alloc, inst, log, arith) {
        Ok(table) => Ok(table),
        Err(fault) => Err(fault),
    }
}

// The end of a run, with the direction of a column that moves without a limit.
fn stop_of(inst: &Instance, table: &Table, end: End) -> Stop
    requires table { IsTableOf inst.now table.now }
    requires ends { EndsBy inst.now table.now end }
    ensures { TableStops inst.now table.now result }
{
    let _ = inst.rows();
    match end {
        End::Optimal => Stop::Optimal,
        End::Infeasible => Stop::Infeasible,
        End::Unbounded(q) => Stop::Free(q, falls(table.cost(q as usize))),
    }
}

// Whether an entry counts for the budget.
fn is_move(entry: Entry) -> bool
    ensures { result ≡ is_move entry }
{
    match entry {
        Entry::Flip(_) | Entry::Swap(_, _, _) => true,
        Entry::Turn => false,
    }
}

// Takes in the next entry, where the budget has a move left for it.
fn take_on<R: Threads + Sync, A: Arith>(
    rt: &R,
    inst: &Instance,
    budget: u64,
    log: &mut Log,
    entry: Entry,
    table: &mut Table,
    arith: &mut A,
) -> Result<Reached, TableFault>
    requires well_formed { IsWellFormed inst.now }
    requires fitted { IsFitted (A.width arith.old) inst.now log.old table.old }
    requires next { IsNext inst.now table.old.state entry }
    requires within { moves log.old ≤ budget }
    ensures reached { IfOk result (TableReaches (A.width arith.old) inst.now budget log.old table.old log.new table.new) }
    ensures log_kept { OnErr result (log.new ≡ log.old) }
    ensures kept { OnErr result (table.new ≡ table.old) }
    ensures fault { IfErr result (IsRunFault (A.width arith.old) inst.now log.old) }
    ensures width { A.width arith.new ≡ A.width arith.old }
    ensures unfit { A.unfit_count arith.old ≤ A.unfit_count arith.new }
    ensures rose { IfErr result (HasRisen (A.unfit_count arith.old) (A.unfit_count arith.new)) }
{
    if is_move(entry) && log.moves() == budget {
        return Ok(Reached::Spent);
    }
    log.push(entry)?;
    let entries = log.len();
    prove!(table.number() < entries as u64);
    match table.step(rt, inst, entry, arith) {
        Ok(()) => Ok(Reached::Entry(entry)),
        Err(place) => {
            let _ = log.pop();
            Err(TableFault::Overflow(place))
        }
    }
}

/// Goes on from the table's state by what comes next there.
///
/// # Errors
///
/// `Overflow` with the place of the first value of the run that does not fit the width, `Memory` for want of memory. The
/// table and the log are as they were then.
pub fn advance_on<R: Threads + Sync, A: Arith>(
    rt: &R,
    inst: &Instance,
    budget: u64,
    log: &mut Log,
    table: &mut Table,
    arith: &mut A,
) -> Result<Reached, TableFault>
    requires well_formed { IsWellFormed inst.now }
    requires fitted { IsFitted (A.width arith.old) inst.now log.old table.old }
    requires within { moves log.old ≤ budget }
    ensures reached { IfOk result (TableReaches (A.width arith.old) inst.now budget log.old table.old log.new table.new) }
    ensures log_kept { OnErr result (log.new ≡ log.old) }
    ensures kept { OnErr result (table.new ≡ table.old) }
    ensures fault { IfErr result (IsRunFault (A.width arith.old) inst.now log.old) }
    ensures width { A.width arith.new ≡ A.width arith.old }
    ensures unfit { A.unfit_count arith.old ≤ A.unfit_count arith.new }
    ensures rose { IfErr result (HasRisen (A.unfit_count arith.old) (A.unfit_count arith.new)) }
{
    match table.next(inst, arith) {
        Ok(Next::Entry(entry)) => take_on(rt, inst, budget, log, entry, table, arith),
        Ok(Next::End(end)) => Ok(Reached::End(stop_of(inst, table, end))),
        Err(place) => Err(TableFault::Overflow(place)),
    }
}
