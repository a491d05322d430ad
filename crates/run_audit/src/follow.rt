//! How far a log goes along with the run.
ghost use Rattle.std.specs.Prelude.{◌≡◌, ◌+◌, ◌<◌, ◌^◌, ◌↔◌, [], List, IfErr, IfOk, IsTrue};
ghost use Rattle.exact_frac.specs.Count.{unfit_after};
ghost use Rattle.lp_model.specs.declared.Entry.{Entry as LogEntry};
ghost use Rattle.lp_run.specs.Instance.{IsWellFormed};
ghost use Rattle.plain_table.specs.declared.next.Next.TheVariants as own;
ghost use Rattle.run_audit.specs.Inner.Parts.{EntryOverflows, Follows, Goes, LogOverflows, Meets};

use exact_frac::Arith;
use instance_model::Instance;
use lp_model::{Entry, Place};
use plain_table::{End, Next, Table};
use std::thread::Threads;

/// Where a log and the run meet last.
#[derive(Clone, Copy, Debug)]
pub enum Met {
    /// They agree before this number and part there.
    Parts(u64),
    /// The log is the whole run, which ends so.
    End(End),
}

/// Takes the table along the entries of a log, as long as they are the run's. Only the run's own next entry is stepped.
///
/// # Errors
///
/// The place of the first value that does not fit the width, of all that is worked as long as log and run agree, and of the
/// ratio test where they part.
pub fn follow<R: Threads + Sync, A: Arith>(
    rt: &R,
    inst: &Instance,
    table: &mut Table,
    entries: &[Entry],
    arith: &mut A,
) -> Result<Met, Place>
    requires well_formed { IsWellFormed inst.now }
    requires start { Follows (A.width arith.old) inst.now [] table.old }
    ensures met { IfOk result (Meets (A.width arith.old) inst.now entries.now table.new) }
    ensures overflow { IfErr result (LogOverflows (A.width arith.old) inst.now entries.now) }
    ensures width { A.width arith.new ≡ A.width arith.old }
    ensures unfit { A.unfit_count arith.new ≡ unfit_after (A.unfit_count arith.old) result }
{
    for k in 0..entries.len() {
        if !goes_along(rt, inst, table, entries[k], arith)? {
            return Ok(Met::Parts(k as u64));
        }
    }
    Ok(match table.next(inst, arith)? {
        Next::Entry(_) => Met::Parts(entries.len() as u64),
        Next::End(end) => Met::End(end),
    })
}

// Takes in an entry where it is the next one of the run, and says whether it is.
fn goes_along<R: Threads + Sync, A: Arith>(
    rt: &R,
    inst: &Instance,
    table: &mut Table,
    entry: Entry,
    arith: &mut A,
) -> Result<bool, Place>
    requires follows { (log : List LogEntry) × Follows (A.width arith.old) inst.now log table.old }
    requires room { table.old.number + 1 < 2 ^ 64 }
    ensures goes { IfOk result (λ along. (log : List LogEntry) → Follows (A.width arith.old) inst.now log table.old → Goes (A.width arith.old) inst.now log table.old entry table.new along) }
    ensures overflow { IfErr result (λ here. (log : List LogEntry) → Follows (A.width arith.old) inst.now log table.old → EntryOverflows (A.width arith.old) inst.now log table.old entry here) }
    ensures width { A.width arith.new ≡ A.width arith.old }
    ensures unfit { A.unfit_count arith.new ≡ unfit_after (A.unfit_count arith.old) result }
{
    let next = table.next(inst, arith)?;
    if !is_entry(next, entry) {
        return Ok(false);
    }
    table.step(rt, inst, entry, arith)?;
    Ok(true)
}

// Whether that entry comes next.
fn is_entry(next: Next, entry: Entry) -> bool
    ensures { IsTrue result ↔ (next ≡ own.Entry entry) }
{
    next == Next::Entry(entry)
}
