//! What a run goes on over once its factors are given up: its basis factored anew, or the plain table.
ghost use Rattle.std.specs.Prelude.{◌≡◌, ◌≤◌, length, IfErr, IfNone, IfOk, IfSome, OnErr};
ghost use Rattle.lp_model.specs.Log.{moves};
ghost use Rattle.lp_run.specs.Instance.{IsWellFormed};
ghost use Rattle.lp_run.specs.Listing.{StartFits};
ghost use Rattle.bland_ratio.specs.Pricing.{IsExactTicket};
ghost use Rattle.two_phase.specs.declared.standing.Mode.{Mode};

use crate::iterate::Iterate;
use crate::plain::{advance_on, replay};
use crate::reached::Reached;
use crate::tickets::{costs_ticket, worked_ticket};
use basis_solves::Refusal;
use bland_ratio::Ticket;
use deck_model::Log;
use exact_frac::Arith;
use instance_model::{Instance, State};
use no_memory::Memory;
use plain_table::{Table, TableFault};
use std::alloc::Global;
use std::thread::Threads;

/// What a run goes on over once its factors are given up.
#[derive(Drop)]
pub enum Fallback {
    /// Factors of the basis, made anew where a value that is worked with them does not fit.
    Anew(Iterate),
    /// The plain table, where such a value does not fit with factors made anew.
    Table(Table),
}

impl Fallback {
    ghost use Rattle.two_phase.specs.Modes.{IsPaidBy};
    ghost use Rattle.two_phase.specs.Inner.Fallbacks.{FallbackReaches, FallbackStands, StaysAt, fallback_state};
    ghost use Rattle.two_phase.specs.Inner.Iterates.{IsIterate};
    ghost use Rattle.two_phase.specs.Inner.Plains.{IsCountedFault};
    ghost use Rattle.two_phase.specs.Inner.Reaching.{IsChosen};

    /// What a run goes on over at the state of an iterate: factors made anew, or, where they do not fit, the table.
    ///
    /// # Errors
    ///
    /// `Overflow` with the place of the first value of the run that does not fit the width, `Memory` for want of memory.
    pub fn begin<R: Threads + Sync, A: Arith>(
        rt: &R,
        alloc: Global,
        inst: &Instance,
        log: &Log,
        iterate: &Iterate,
        arith: &mut A,
    ) -> Result<Fallback, TableFault>
        requires well_formed { IsWellFormed inst.now }
        requires fits { StartFits (A.width arith.old) inst.now }
        requires stands { IsIterate (A.width arith.old) inst.now log.now iterate.now }
        ensures stands { IfOk result (FallbackStands (A.width arith.old) inst.now log.now) }
        ensures fault { IfErr result (IsCountedFault (A.width arith.old) inst.now log.now (A.unfit_count arith.old) (A.unfit_count arith.new)) }
        ensures width { A.width arith.new ≡ A.width arith.old }
        ensures unfit { A.unfit_count arith.old ≤ A.unfit_count arith.new }
    {
        match iterate.anew(alloc, inst, log.len() as u64, arith) {
            Ok(anew) => Ok(Fallback::Anew(anew)),
            Err(Refusal::Memory) => Err(TableFault::Memory),
            Err(Refusal::Unfit) => {
                let table = replay(rt, alloc, inst, log, arith)?;
                Ok(Fallback::Table(table))
            }
        }
    }

    /// The state.
    pub fn state(&self) -> &State
        ensures { result.now ≡ fallback_state self.now }
    {
        match self {
            Fallback::Anew(iterate) => &iterate.state,
            Fallback::Table(table) => table.state(),
        }
    }

    // Goes on over factors, where there are; none where a value does not fit with factors made anew.
    fn over_factors<A: Arith>(
        &mut self,
        alloc: Global,
        inst: &Instance,
        budget: u64,
        log: &mut Log,
        entering: Option<u32>,
        arith: &mut A,
    ) -> Result<Option<Reached>, Memory>
        requires well_formed { IsWellFormed inst.now }
        requires stands { FallbackStands (A.width arith.old) inst.now log.old self.old }
        requires chosen { IsChosen inst.now (fallback_state self.old) entering }
        requires within { moves log.old ≤ budget }
        ensures reached { IfOk result (λ tried. IfSome tried (FallbackReaches (A.width arith.old) inst.now budget log.old (fallback_state self.old) log.new self.new)) }
        ensures left { IfOk result (λ tried. IfNone tried ((log.new ≡ log.old) × StaysAt (A.width arith.old) inst.now log.old self.old self.new)) }
        ensures log_kept { OnErr result (log.new ≡ log.old) }
        ensures stays { OnErr result (StaysAt (A.width arith.old) inst.now log.old self.old self.new) }
        ensures width { A.width arith.new ≡ A.width arith.old }
        ensures unfit { A.unfit_count arith.old ≤ A.unfit_count arith.new }
    {
        match self {
            Fallback::Table(_) => Ok(None),
            Fallback::Anew(iterate) => {
                match iterate.advance_again(alloc, inst, budget, log, entering, arith) {
                    Ok(reached) => Ok(Some(reached)),
                    Err(Refusal::Memory) => Err(Memory),
                    Err(Refusal::Unfit) => Ok(None),
                }
            }
        }
    }

    // Goes on over the table. Where there is none yet it is made along the log, and comes in place of the factors once it
    // has gone on: after a refusal nothing has changed.
    fn over_table<R: Threads + Sync, A: Arith>(
        &mut self,
        rt: &R,
        alloc: Global,
        inst: &Instance,
        budget: u64,
        log: &mut Log,
        arith: &mut A,
    ) -> Result<Reached, TableFault>
        requires well_formed { IsWellFormed inst.now }
        requires fits { StartFits (A.width arith.old) inst.now }
        requires stands { FallbackStands (A.width arith.old) inst.now log.old self.old }
        requires within { moves log.old ≤ budget }
        ensures reached { IfOk result (FallbackReaches (A.width arith.old) inst.now budget log.old (fallback_state self.old) log.new self.new) }
        ensures log_kept { OnErr result (log.new ≡ log.old) }
        ensures kept { OnErr result (self.new ≡ self.old) }
        ensures fault { IfErr result (IsCountedFault (A.width arith.old) inst.now log.old (A.unfit_count arith.old) (A.unfit_count arith.new)) }
        ensures width { A.width arith.new ≡ A.width arith.old }
        ensures unfit { A.unfit_count arith.old ≤ A.unfit_count arith.new }
    {
        match self {
            Fallback::Table(table) => advance_on(rt, inst, budget, log, table, arith),
            Fallback::Anew(_) => {
                let mut table = replay(rt, alloc, inst, log, arith)?;
                let reached = advance_on(rt, inst, budget, log, &mut table, arith)?;
                *self = Fallback::Table(table);
                Ok(reached)
            }
        }
    }

    /// Goes on from the state by the column that enters; where none is eligible, to phase two or to the end. Where a value
    /// does not fit with factors made anew, the table goes on in their place.
    ///
    /// # Errors
    ///
    /// `Overflow` with the place of the first value of the run that does not fit the width, `Memory` for want of memory. The
    /// log is as it was then, and the state.
    pub fn advance<R: Threads + Sync, A: Arith>(
        &mut self,
        rt: &R,
        alloc: Global,
        inst: &Instance,
        budget: u64,
        log: &mut Log,
        entering: Option<u32>,
        arith: &mut A,
    ) -> Result<Reached, TableFault>
        requires well_formed { IsWellFormed inst.now }
        requires fits { StartFits (A.width arith.old) inst.now }
        requires stands { FallbackStands (A.width arith.old) inst.now log.old self.old }
        requires chosen { IsChosen inst.now (fallback_state self.old) entering }
        requires within { moves log.old ≤ budget }
        ensures reached { IfOk result (FallbackReaches (A.width arith.old) inst.now budget log.old (fallback_state self.old) log.new self.new) }
        ensures refused { OnErr result ((log.new ≡ log.old) × StaysAt (A.width arith.old) inst.now log.old self.old self.new) }
        ensures fault { IfErr result (IsCountedFault (A.width arith.old) inst.now log.old (A.unfit_count arith.old) (A.unfit_count arith.new)) }
        ensures width { A.width arith.new ≡ A.width arith.old }
        ensures unfit { A.unfit_count arith.old ≤ A.unfit_count arith.new }
    {
        if let Some(reached) = self.over_factors(alloc, inst, budget, log, entering, arith)? {
            return Ok(reached);
        }
        self.over_table(rt, alloc, inst, budget, log, arith)
    }

    // The ticket with reduced costs that are worked over factors, where there are; none where a value does not fit.
    fn ask_factors<A: Arith>(
        &mut self,
        alloc: Global,
        inst: &Instance,
        log: &Log,
        arith: &mut A,
    ) -> Result<Option<Ticket>, Memory>
        requires well_formed { IsWellFormed inst.now }
        requires stands { FallbackStands (A.width arith.old) inst.now log.now self.old }
        ensures exact { IfOk result (λ asked. IfSome asked (IsExactTicket inst.now (fallback_state self.old))) }
        ensures number { IfOk result (λ asked. IfSome asked (λ ticket. ticket.number ≡ length log.now)) }
        ensures paid { IfOk result (λ asked. IfSome asked (λ ticket. IsPaidBy Mode.Plain ticket.pay)) }
        ensures stays { StaysAt (A.width arith.old) inst.now log.now self.old self.new }
        ensures width { A.width arith.new ≡ A.width arith.old }
        ensures unfit { A.unfit_count arith.old ≤ A.unfit_count arith.new }
    {
        match self {
            Fallback::Table(_) => Ok(None),
            Fallback::Anew(iterate) => {
                match worked_ticket(alloc, inst, log.len() as u64, iterate, arith) {
                    Ok(ticket) => Ok(Some(ticket)),
                    Err(Refusal::Memory) => Err(Memory),
                    Err(Refusal::Unfit) => Ok(None),
                }
            }
        }
    }

    // The ticket of the table. Where there is none yet it is made along the log, and comes in place of the factors once there
    // is a ticket: after a refusal nothing has changed.
    fn ask_table<R: Threads + Sync, A: Arith>(
        &mut self,
        rt: &R,
        alloc: Global,
        inst: &Instance,
        log: &Log,
        arith: &mut A,
    ) -> Result<Ticket, TableFault>
        requires well_formed { IsWellFormed inst.now }
        requires fits { StartFits (A.width arith.old) inst.now }
        requires stands { FallbackStands (A.width arith.old) inst.now log.now self.old }
        ensures exact { IfOk result (IsExactTicket inst.now (fallback_state self.old)) }
        ensures number { IfOk result (λ ticket. ticket.number ≡ length log.now) }
        ensures paid { IfOk result (λ ticket. IsPaidBy Mode.Plain ticket.pay) }
        ensures stays { StaysAt (A.width arith.old) inst.now log.now self.old self.new }
        ensures fault { IfErr result (IsCountedFault (A.width arith.old) inst.now log.now (A.unfit_count arith.old) (A.unfit_count arith.new)) }
        ensures width { A.width arith.new ≡ A.width arith.old }
        ensures unfit { A.unfit_count arith.old ≤ A.unfit_count arith.new }
    {
        match self {
            Fallback::Table(table) => Ok(costs_ticket(alloc, inst, table)?),
            Fallback::Anew(_) => {
                let table = replay(rt, alloc, inst, log, arith)?;
                let ticket = costs_ticket(alloc, inst, &table)?;
                *self = Fallback::Table(table);
                Ok(ticket)
            }
        }
    }

    /// The ticket of the state that the log reaches, with its reduced costs: worked over factors, or those of the table where
    /// a value does not fit.
    ///
    /// # Errors
    ///
    /// `Overflow` with the place of the first value of the run that does not fit the width, `Memory` for want of memory. The
    /// state is as it was then.
    pub fn ticket<R: Threads + Sync, A: Arith>(
        &mut self,
        rt: &R,
        alloc: Global,
        inst: &Instance,
        log: &Log,
        arith: &mut A,
    ) -> Result<Ticket, TableFault>
        requires well_formed { IsWellFormed inst.now }
        requires fits { StartFits (A.width arith.old) inst.now }
        requires stands { FallbackStands (A.width arith.old) inst.now log.now self.old }
        ensures exact { IfOk result (IsExactTicket inst.now (fallback_state self.old)) }
        ensures number { IfOk result (λ ticket. ticket.number ≡ length log.now) }
        ensures paid { IfOk result (λ ticket. IsPaidBy Mode.Plain ticket.pay) }
        ensures stays { StaysAt (A.width arith.old) inst.now log.now self.old self.new }
        ensures fault { IfErr result (IsCountedFault (A.width arith.old) inst.now log.now (A.unfit_count arith.old) (A.unfit_count arith.new)) }
        ensures width { A.width arith.new ≡ A.width arith.old }
        ensures unfit { A.unfit_count arith.old ≤ A.unfit_count arith.new }
    {
        if let Some(ticket) = self.ask_factors(alloc, inst, log, arith)? {
            return Ok(ticket);
        }
        self.ask_table(rt, alloc, inst, log, arith)
    }
}
