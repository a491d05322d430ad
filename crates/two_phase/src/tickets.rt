//! What a round of pricing is asked at a state.
ghost use Rattle.std.specs.Prelude.{◌≡◌, ◌+◌, ◌*◌, ◌≤◌, List, true, IfErr, IfOk};
ghost use Rattle.lp_model.specs.declared.Entry.{Entry as LogEntry};
ghost use Rattle.lp_run.specs.Instance.{IsWellFormed, row_count};
ghost use Rattle.bland_ratio.specs.Pricing.{IsExactTicket};
ghost use Rattle.bland_ratio.specs.declared.tickets.Pay.TheVariants as pay;
ghost use Rattle.factor_model.specs.Eta.{stored};
ghost use Rattle.plain_table.specs.Next.{IsTableOf};
ghost use Rattle.two_phase.specs.Inner.Iterates.{HasUnfitPrices, IsIterate, IsIterateOf, IsKept};
ghost use Rattle.basis_solves.specs.Refusals.{Explains, count_after};
ghost use Rattle.two_phase.specs.Modes.{IsPaidBy};
ghost use Rattle.two_phase.specs.Works.{owed};
ghost use Rattle.two_phase.specs.declared.standing.Mode.{Mode};

use crate::costs::reduced_costs;
use crate::iterate::Iterate;
use basis_solves::Refusal;
use bland_ratio::{Pay, Ticket};
use exact_frac::{Arith, Fracs};
use instance_model::Instance;
use no_memory::Memory;
use plain_table::Table;
use std::alloc::Global;

/// The ticket of an iterate's state under a number, with its prices, which are worked where they are not yet.
pub fn prices_ticket<A: Arith>(
    alloc: Global,
    inst: &Instance,
    number: u64,
    iterate: &mut Iterate,
    arith: &mut A,
) -> Result<Ticket, Refusal>
    requires { IsIterateOf (A.width arith.old) inst.now iterate.old }
    ensures stands { (log : List LogEntry) → IsIterate (A.width arith.old) inst.now log iterate.old → IsIterate (A.width arith.old) inst.now log iterate.new }
    ensures kept { IsKept iterate.old iterate.new }
    ensures exact { IfOk result (IsExactTicket inst.now iterate.new.state) }
    ensures number { IfOk result (λ ticket. ticket.number ≡ number) }
    ensures prices { IfOk result (λ ticket. ticket.pay ≡ pay.Prices iterate.new.prices.items) }
    ensures refusal { IfErr result (Explains (HasUnfitPrices (A.width arith.old) inst.now iterate.old)) }
    ensures fits { IfOk result (λ _. HasUnfitPrices (A.width arith.old) inst.now iterate.old → ⊥) }
    ensures width { A.width arith.new ≡ A.width arith.old }
    ensures unfit { A.unfit_count arith.new ≡ count_after (A.unfit_count arith.old) result }
    ensures work { A.work_count arith.new ≤ A.work_count arith.old + (stored iterate.old.factors.etas + (row_count inst.now * row_count inst.now + row_count inst.now)) }
    ensures owed { A.work_count arith.new ≤ A.work_count arith.old + owed (row_count inst.now) iterate.old }
    ensures priced { IfOk result (λ _. iterate.new.is_priced ≡ true) }
{
    iterate.price(inst, arith)?;
    let prices = Vec::from_slice(alloc, &iterate.prices)?;
    let status = iterate.state.statuses_copy()?;
    Ok(Ticket {
        number,
        phase: iterate.state.phase(),
        status,
        pay: Pay::Prices(Fracs::of(prices)),
    })
}

/// The ticket of an iterate's state under a number, with its reduced costs, which are worked from its prices. Where those do
/// not fit, its factors are made anew, and they are worked once more.
///
/// # Errors
///
/// `Unfit` where a value does not fit the width with those factors either, or one of a reduced cost; `Memory` for want of
/// memory.
pub fn worked_ticket<A: Arith>(
    alloc: Global,
    inst: &Instance,
    number: u64,
    iterate: &mut Iterate,
    arith: &mut A,
) -> Result<Ticket, Refusal>
    requires well_formed { IsWellFormed inst.now }
    requires stands { IsIterateOf (A.width arith.old) inst.now iterate.old }
    ensures stands { (log : List LogEntry) → IsIterate (A.width arith.old) inst.now log iterate.old → IsIterate (A.width arith.old) inst.now log iterate.new }
    ensures state { iterate.new.state ≡ iterate.old.state }
    ensures exact { IfOk result (IsExactTicket inst.now iterate.old.state) }
    ensures number { IfOk result (λ ticket. ticket.number ≡ number) }
    ensures paid { IfOk result (λ ticket. IsPaidBy Mode.Plain ticket.pay) }
    ensures width { A.width arith.new ≡ A.width arith.old }
    ensures unfit { A.unfit_count arith.old ≤ A.unfit_count arith.new }
{
    iterate.price_again(alloc, inst, number, arith)?;
    let costs = reduced_costs(alloc, inst, &iterate.state, &iterate.prices, arith)?;
    let status = iterate.state.statuses_copy()?;
    Ok(Ticket {
        number,
        phase: iterate.state.phase(),
        status,
        pay: Pay::Costs(Fracs::of(costs)),
    })
}

/// The ticket of a table's state, with its reduced costs.
pub fn costs_ticket(alloc: Global, inst: &Instance, table: &Table) -> Result<Ticket, Memory>
    requires { IsTableOf inst.now table.now }
    ensures exact { IfOk result (IsExactTicket inst.now table.now.state) }
    ensures number { IfOk result (λ ticket. ticket.number ≡ table.now.number) }
    ensures costs { IfOk result (λ ticket. ticket.pay ≡ pay.Costs table.now.costs) }
{
    let costs = Vec::from_slice(alloc, table.costs())?;
    let status = table.state().statuses_copy()?;
    let _ = inst.rows();
    Ok(Ticket {
        number: table.number(),
        phase: table.state().phase(),
        status,
        pay: Pay::Costs(Fracs::of(costs)),
    })
}
