//! The audit of a report.
ghost use Rattle.std.specs.Prelude.{◌≡◌, ◌≢◌, ◌↔◌, ℕ, [], IfErr, IfOk, IfSome, IsTrue, Ok, Some};
ghost use Rattle.bland_laws.specs.OutcomeProves.{OutcomeProves};
ghost use Rattle.instance_model.specs.Basis.{basis_of};
ghost use Rattle.lp_run.specs.Instance.{IsWellFormed, instance_of};
ghost use Rattle.lp_run.specs.Listing.{StartFits};
ghost use Rattle.plain_table.specs.Next.{EndsBy};
ghost use Rattle.run_audit.specs.Answers.{IsAuditCause, unfit_after_audit};
ghost use Rattle.run_audit.specs.Inner.Parts.{Follows, IsAlongCause, TestFits};
ghost use Rattle.run_audit.specs.Judged.{Judged};
ghost use Rattle.run_audit.specs.Works.{AuditFits};
ghost use Rattle.run_audit.specs.declared.answer.Audit.TheVariants as answer;

use crate::answer::Audit;
use crate::compare::{is_basis, is_outcome};
use crate::fault::AuditFault;
use crate::follow::{Met, follow};
use cert_text::Report;
use deck_model::Deck;
use exact_frac::Arith;
use instance_model::Instance;
use lp_model::Entry;
use no_memory::Memory;
use plain_table::{End, Table};
use std::alloc::Global;
use std::thread::Threads;

/// What a report of a deck is worth beside the deck's one run. The plain table is made and taken along the log, one step
/// for each entry that is the run's: nothing is solved. Where many items are worked, rows are worked in threads, which end
/// before it returns. It takes the memory of a table of m rows and N = n + 2m columns with its spare parts.
///
/// # Errors
///
/// `Overflow` with the place of the first value that does not fit the width of the arithmetic, of all that is worked for
/// the answer that is right: the start sums, the table's making, the steps along the log, the ratio test where log and run
/// part, and the sums of the objective where the report has the point and the prices of the optimum. `Memory` for want of
/// memory. The arithmetic keeps its width.
pub fn audit<R: Threads + Sync, A: Arith>(
    rt: &R,
    alloc: Global,
    deck: &Deck,
    report: &Report,
    arith: &mut A,
) -> Result<Audit, AuditFault>
    ensures judged { IfOk result (Judged (instance_of deck.now) report.now) }
    ensures fits { IfOk result (AuditFits (A.width arith.old) (instance_of deck.now) report.now) }
    ensures fault { IfErr result (IsAuditCause (A.width arith.old) (instance_of deck.now) report.now) }
    ensures proved { (k : ℕ) → result ≡ Ok (answer.Yes k) → OutcomeProves deck.now report.now.outcome }
    ensures width { A.width arith.new ≡ A.width arith.old }
    ensures unfit { A.unfit_count arith.new ≡ unfit_after_audit (A.unfit_count arith.old) result }
{
    // (the deck is one, as is promised of it)
    let _rows = deck.rows();
    let Some(log) = &report.log else {
        return Ok(Audit::NoLog);
    };
    let inst = Instance::of(alloc, deck, arith)?;
    audit_log(rt, alloc, &inst, log.entries(), report, arith)
}

// What a report is worth whose log has these entries.
fn audit_log<R: Threads + Sync, A: Arith>(
    rt: &R,
    alloc: Global,
    inst: &Instance,
    entries: &[Entry],
    report: &Report,
    arith: &mut A,
) -> Result<Audit, AuditFault>
    requires well_formed { IsWellFormed inst.now }
    requires fits { StartFits (A.width arith.old) inst.now }
    requires log { report.now.log ≡ Some entries.now }
    ensures judged { IfOk result (Judged inst.now report.now) }
    ensures fits { IfOk result (AuditFits (A.width arith.old) inst.now report.now) }
    ensures fault { IfErr result (IsAlongCause (A.width arith.old) inst.now entries.now report.now.outcome) }
    ensures width { A.width arith.new ≡ A.width arith.old }
    ensures unfit { A.unfit_count arith.new ≡ unfit_after_audit (A.unfit_count arith.old) result }
{
    let mut table = Table::start(alloc, inst, arith)?;
    audit_along(rt, alloc, inst, &mut table, entries, report, arith)
}

// What a report is worth whose log has these entries, by the table of the start.
fn audit_along<R: Threads + Sync, A: Arith>(
    rt: &R,
    alloc: Global,
    inst: &Instance,
    table: &mut Table,
    entries: &[Entry],
    report: &Report,
    arith: &mut A,
) -> Result<Audit, AuditFault>
    requires well_formed { IsWellFormed inst.now }
    requires start { Follows (A.width arith.old) inst.now [] table.old }
    requires log { report.now.log ≡ Some entries.now }
    ensures judged { IfOk result (Judged inst.now report.now) }
    ensures fits { IfOk result (AuditFits (A.width arith.old) inst.now report.now) }
    ensures fault { IfErr result (IsAlongCause (A.width arith.old) inst.now entries.now report.now.outcome) }
    ensures width { A.width arith.new ≡ A.width arith.old }
    ensures unfit { A.unfit_count arith.new ≡ unfit_after_audit (A.unfit_count arith.old) result }
{
    match follow(rt, inst, table, entries, arith)? {
        Met::Parts(k) => Ok(Audit::Log(k)),
        Met::End(end) => audit_end(alloc, inst, table, end, entries, report, arith),
    }
}

// What a report is worth whose log, of these entries, is the whole run, which ends so at the table's state.
fn audit_end<A: Arith>(
    alloc: Global,
    inst: &Instance,
    table: &Table,
    end: End,
    entries: &[Entry],
    report: &Report,
    arith: &mut A,
) -> Result<Audit, AuditFault>
    requires well_formed { IsWellFormed inst.now }
    requires follows { Follows (A.width arith.old) inst.now entries.now table.now }
    requires ends { EndsBy inst.now table.now end }
    requires tested { TestFits (A.width arith.old) inst.now table.now }
    requires log { report.now.log ≡ Some entries.now }
    ensures judged { IfOk result (Judged inst.now report.now) }
    ensures fits { IfOk result (AuditFits (A.width arith.old) inst.now report.now) }
    ensures fault { IfErr result (IsAlongCause (A.width arith.old) inst.now entries.now report.now.outcome) }
    ensures width { A.width arith.new ≡ A.width arith.old }
    ensures unfit { A.unfit_count arith.new ≡ unfit_after_audit (A.unfit_count arith.old) result }
{
    if !is_outcome(alloc, inst, table, end, &report.outcome, arith)? {
        return Ok(Audit::Outcome);
    }
    if !has_basis(alloc, table, report)? {
        return Ok(Audit::Basis);
    }
    Ok(Audit::Yes(entries.len() as u64))
}

// Whether the basis that a report tells, where it tells one, is that of the table's state.
fn has_basis(alloc: Global, table: &Table, report: &Report) -> Result<bool, Memory>
    ensures { IfOk result (λ has. IsTrue has ↔ IfSome report.now.basis (λ b. b ≡ basis_of table.now.state)) }
{
    match &report.basis {
        None => Ok(true),
        Some(basis) => is_basis(alloc, table.state(), basis),
    }
}
