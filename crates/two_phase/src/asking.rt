//! The start of a run, and what its grounds ask of a round of pricing.
ghost use Rattle.std.specs.Prelude.{◌≡◌, ◌+◌, ◌≤◌, ◌↔◌, [], IfErr, IfNone, IfOk, IfSome, OnErr, OnOk};
ghost use Rattle.lp_run.specs.Instance.{IsWellFormed, row_count};
ghost use Rattle.lp_run.specs.Listing.{StartFits};
ghost use Rattle.bland_ratio.specs.Entries.{stored_entries};
ghost use Rattle.factor_run.specs.Bound.{making_work};
ghost use Rattle.two_phase.specs.Board.{StartsUnfit};
ghost use Rattle.two_phase.specs.Inner.Plains.{HasRisen, IsRunFault};

use crate::fallback::Fallback;
use crate::ground::Ground;
use crate::iterate::Iterate;
use crate::tickets::prices_ticket;
use basis_solves::Refusal;
use bland_ratio::Ticket;
use deck_model::Log;
use exact_frac::Arith;
use instance_model::Instance;
use no_memory::Memory;
use plain_table::{Table, TableFault};
use std::alloc::Global;
use std::thread::Threads;

impl Ground {
    ghost use Rattle.two_phase.specs.Inner.Grounds.{Asks, BeginsBuilt, GroundStands, IsPlain, IsStill, KeepsFactors, WantsTable};
    ghost use Rattle.two_phase.specs.Works.{ground_owed};
    ghost use Rattle.two_phase.specs.Modes.{mode_of};
    ghost use Rattle.two_phase.specs.Inner.Plains.{IsCountedFault, OverflowsFor};
    ghost use Rattle.two_phase.specs.declared.standing.Mode.{Mode};

    // The ticket of a state over factors, where there are; none where a price does not fit.
    fn ask_factors<A: Arith>(
        &mut self,
        alloc: Global,
        inst: &Instance,
        log: &Log,
        arith: &mut A,
    ) -> Result<Option<Ticket>, Memory>
        requires { GroundStands (A.width arith.old) inst.now log.now self.old }
        ensures asks { IfOk result (λ asked. IfSome asked (Asks inst.now log.now self.new)) }
        ensures still { IsStill (A.width arith.old) inst.now log.now self.old self.new }
        ensures fitting { IfOk result (λ asked. IfSome asked (λ _. WantsTable (A.width arith.old) inst.now self.old → ⊥)) }
        ensures left { IfOk result (λ asked. IfNone asked (WantsTable (A.width arith.old) inst.now self.old)) }
        ensures width { A.width arith.new ≡ A.width arith.old }
        ensures unfit { A.unfit_count arith.old ≤ A.unfit_count arith.new }
        ensures fits { IfOk result (λ asked. IfSome asked (λ _. A.unfit_count arith.new ≡ A.unfit_count arith.old)) × OnErr result (A.unfit_count arith.new ≡ A.unfit_count arith.old) }
        ensures owed { IfOk result (λ asked. IfSome asked (λ _. A.work_count arith.new ≤ A.work_count arith.old + ground_owed (row_count inst.now) self.old)) }
        ensures unowed { IfOk result (λ asked. IfSome asked (λ _. ground_owed (row_count inst.now) self.new ≡ 0)) }
    {
        match self {
            Ground::Plain(_) => Ok(None),
            Ground::Factors(iterate) => {
                match prices_ticket(alloc, inst, log.len() as u64, iterate, arith) {
                    Ok(ticket) => Ok(Some(ticket)),
                    Err(Refusal::Memory) => Err(Memory),
                    Err(Refusal::Unfit) => Ok(None),
                }
            }
        }
    }

    /// The ticket of a state with its reduced costs, once the factors are given up. Where there are some, what comes in their
    /// place is made first, and comes once there is a ticket.
    ///
    /// # Errors
    ///
    /// `Overflow` with the place of the first value of the run that does not fit the width, `Memory` for want of memory.
    pub(crate) fn ask_plain<R: Threads + Sync, A: Arith>(
        &mut self,
        rt: &R,
        alloc: Global,
        inst: &Instance,
        log: &Log,
        arith: &mut A,
    ) -> Result<Ticket, TableFault>
        requires well_formed { IsWellFormed inst.now }
        requires fits { StartFits (A.width arith.old) inst.now }
        requires stands { GroundStands (A.width arith.old) inst.now log.now self.old }
        ensures asks { IfOk result (Asks inst.now log.now self.new) }
        ensures plain { OnOk result (IsPlain self.new) }
        ensures stands { OnOk result (GroundStands (A.width arith.old) inst.now log.now self.new) }
        ensures still { OnErr result (IsStill (A.width arith.old) inst.now log.now self.old self.new) }
        ensures fault { IfErr result (IsCountedFault (A.width arith.old) inst.now log.now (A.unfit_count arith.old) (A.unfit_count arith.new)) }
        ensures width { A.width arith.new ≡ A.width arith.old }
        ensures unfit { A.unfit_count arith.old ≤ A.unfit_count arith.new }
    {
        match self {
            Ground::Plain(plain) => plain.ticket(rt, alloc, inst, log, arith),
            Ground::Factors(iterate) => {
                let mut plain = Fallback::begin(rt, alloc, inst, log, iterate, arith)?;
                let ticket = plain.ticket(rt, alloc, inst, log, arith)?;
                *self = Ground::Plain(plain);
                Ok(ticket)
            }
        }
    }

    /// The ticket of the state that the log reaches: with its prices, or, where those do not fit or the factors are given up,
    /// with its reduced costs.
    ///
    /// # Errors
    ///
    /// `Overflow` with the place of the first value of the run that does not fit the width, `Memory` for want of memory. It
    /// is stood on at the same state then, by the same factors or with none still.
    pub fn ticket<R: Threads + Sync, A: Arith>(
        &mut self,
        rt: &R,
        alloc: Global,
        inst: &Instance,
        log: &Log,
        arith: &mut A,
    ) -> Result<Ticket, TableFault>
        requires well_formed { IsWellFormed inst.now }
        requires fits { StartFits (A.width arith.old) inst.now }
        requires stands { GroundStands (A.width arith.old) inst.now log.now self.old }
        ensures asks { IfOk result (Asks inst.now log.now self.new) }
        ensures stands { OnOk result (GroundStands (A.width arith.old) inst.now log.now self.new) }
        ensures keeps { OnOk result (KeepsFactors self.old self.new) }
        ensures rescued { OnOk result (IsPlain self.new ↔ WantsTable (A.width arith.old) inst.now self.old) }
        ensures still { OnErr result (IsStill (A.width arith.old) inst.now log.now self.old self.new) }
        ensures fault { IfErr result (IsRunFault (A.width arith.old) inst.now log.now) }
        ensures cause { IfErr result (OverflowsFor (WantsTable (A.width arith.old) inst.now self.old)) }
        ensures rose { IfErr result (HasRisen (A.unfit_count arith.old) (A.unfit_count arith.new)) }
        ensures width { A.width arith.new ≡ A.width arith.old }
        ensures unfit { A.unfit_count arith.old ≤ A.unfit_count arith.new }
        ensures fits { (WantsTable (A.width arith.old) inst.now self.old → ⊥) → A.unfit_count arith.new ≡ A.unfit_count arith.old }
        ensures owed { (WantsTable (A.width arith.old) inst.now self.old → ⊥)
            → IfOk result (λ _. A.work_count arith.new ≤ A.work_count arith.old + ground_owed (row_count inst.now) self.old) }
        ensures unowed { (WantsTable (A.width arith.old) inst.now self.old → ⊥) → IfOk result (λ _. ground_owed (row_count inst.now) self.new ≡ 0) }
    {
        if let Some(ticket) = self.ask_factors(alloc, inst, log, arith)? {
            return Ok(ticket);
        }
        self.ask_plain(rt, alloc, inst, log, arith)
    }

    /// The ground of the start: factors of its basis.
    ///
    /// # Errors
    ///
    /// Where a basic value does not fit the width, `Overflow` with the place of the first value of the plain table's making
    /// that does not; `Memory` for want of memory.
    pub fn start<A: Arith>(
        alloc: Global,
        inst: &Instance,
        arith: &mut A,
    ) -> Result<Ground, TableFault>
        requires well_formed { IsWellFormed inst.now }
        requires fits { StartFits (A.width arith.old) inst.now }
        ensures stands { IfOk result (GroundStands (A.width arith.old) inst.now []) }
        ensures made { IfOk result (BeginsBuilt (A.width arith.old) inst.now) }
        ensures factors { IfOk result (λ begun. mode_of begun ≡ Mode.Factors) }
        ensures fits { IfOk result (λ _. A.unfit_count arith.new ≡ A.unfit_count arith.old) }
        ensures work { IfOk result (λ _. A.work_count arith.new ≤ A.work_count arith.old + (stored_entries inst.now + making_work inst.now)) }
        ensures fault { IfErr result (IsRunFault (A.width arith.old) inst.now []) }
        ensures cause { IfErr result (OverflowsFor (StartsUnfit (A.width arith.old) inst.now)) }
        ensures fitted { (StartsUnfit (A.width arith.old) inst.now → ⊥) → A.unfit_count arith.new ≡ A.unfit_count arith.old }
        ensures width { A.width arith.new ≡ A.width arith.old }
        ensures unfit { A.unfit_count arith.old ≤ A.unfit_count arith.new }
        ensures rose { IfErr result (HasRisen (A.unfit_count arith.old) (A.unfit_count arith.new)) }
    {
        match Iterate::start(alloc, inst, arith) {
            Ok(iterate) => Ok(Ground::Factors(iterate)),
            Err(Refusal::Memory) => Err(TableFault::Memory),
            Err(Refusal::Unfit) => Err(unfit_start(alloc, inst, arith)),
        }
    }
}

// Why no run starts where a basic value does not fit: the place of the first value of the plain table's making that does
// not, for the making works that value too.
fn unfit_start<A: Arith>(alloc: Global, inst: &Instance, arith: &mut A) -> TableFault
    requires well_formed { IsWellFormed inst.now }
    requires fits { StartFits (A.width arith.old) inst.now }
    requires unfit { StartsUnfit (A.width arith.old) inst.now }
    ensures fault { IsRunFault (A.width arith.old) inst.now [] result }
    ensures width { A.width arith.new ≡ A.width arith.old }
    ensures unfit { A.unfit_count arith.old ≤ A.unfit_count arith.new }
    ensures rose { HasRisen (A.unfit_count arith.old) (A.unfit_count arith.new) result }
{
    match Table::start(alloc, inst, arith) {
        Ok(_) => unreachable!(),
        Err(fault) => fault,
    }
}
