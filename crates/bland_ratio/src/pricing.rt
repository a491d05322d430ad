//! The entering column.
ghost use Rattle.std.specs.Prelude.{◌≡◌, ◌+◌, ◌*◌, ◌-◌, ◌<◌, ◌≤◌, ◌↔◌, ℕ, Bool, false, length, IsTrue, MatchOption, MatchResult};
ghost use Rattle.std.specs.Option.{unwrap_or};
ghost use Rattle.exact_frac.specs.Count.{unfit_after};
ghost use Rattle.exact_frac.specs.Settles.{Settles};
ghost use Rattle.lp_run.specs.Instance.{column_count, row_count};
ghost use Rattle.lp_run.specs.Step.{Improves};
ghost use Rattle.bland_ratio.specs.Entries.{column_entries, entries_from, stored_entries};
ghost use Rattle.bland_ratio.specs.Pricing.{HasCost, HasUnfitCost, IsChoiceOf, IsEligibleAt, IsFirstStopper, IsLookedAt, IsTicketOf, Stops, is_unfit, priced, unfit_where};

use crate::tickets::{Choice, Pay, Ticket};
use exact_frac::{Arith, Frac, Unfit};
use instance_model::Instance;
use lp_model::{Phase, Status};
use lp_run::ColumnKind;
use sparse_steps::{gather, less_product};

/// Whether column `j` may enter at the reduced cost `d`: its ends differ, and `d` is below 0 at `Lower`, above 0 at
/// `Upper`, or not 0 at `Zero`. The ticket has N statuses and m prices or N reduced costs.
pub fn eligible(inst: &Instance, ticket: &Ticket, j: usize, d: Frac) -> bool
    requires ticket { IsTicketOf inst.now ticket.now }
    requires column { j < column_count inst.now }
    ensures { IsTrue result ↔ IsEligibleAt inst.now ticket.now j d }
{
    if inst.bounds(ticket.phase, j).is_fixed() {
        return false;
    }
    improves(ticket.status.get(j), d)
}

/// The least stopper with from ≤ j < to, and whether it is unfit. Only columns that are not basic and whose two ends
/// differ are looked at. A column is a stopper where it may enter at its reduced cost, and an unfit one where a value
/// worked for that does not fit the width.
///
/// With `Prices` the reduced cost starts at the column's cost, and the product of each entry with the price of its row
/// is taken away by rising rows; products of a zero factor are skipped. With `Costs` it is the ticket's own, nothing
/// is worked and no column is unfit. The count of unfit results rises by one exactly at an unfit stopper, and at most
/// one product is worked for each stored entry of these columns. No memory is taken.
pub fn first_stopper<A: Arith>(
    inst: &Instance,
    ticket: &Ticket,
    from: usize,
    to: usize,
    arith: &mut A,
) -> Option<(u32, bool)>
    requires ticket { IsTicketOf inst.now ticket.now }
    requires ordered { from ≤ to }
    requires within { to ≤ column_count inst.now }
    ensures first { IsFirstStopper (A.width arith.old) inst.now ticket.now from to result }
    ensures width { A.width arith.new ≡ A.width arith.old }
    ensures unfit { A.unfit_count arith.new ≡ unfit_where (A.unfit_count arith.old) (is_unfit result) }
    ensures work { A.work_count arith.new ≤ A.work_count arith.old + entries_from inst.now from (to - from) }
{
    for j in from..to {
        if let Some(unfit) = stop(inst, ticket, j, arith) {
            return Some((number_of(inst, j), unfit));
        }
    }
    None
}

/// The choice of a ticket, on one thread: the least stopper of all N columns. The count of unfit results rises by one
/// exactly where the choice is unfit. At most one product is worked for each stored entry of the structurals, and one for
/// each logical and each artificial. No memory is taken.
pub fn choose<A: Arith>(inst: &Instance, ticket: &Ticket, arith: &mut A) -> Choice
    requires { IsTicketOf inst.now ticket.now }
    ensures choice { IsChoiceOf (A.width arith.old) inst.now ticket.now result }
    ensures width { A.width arith.new ≡ A.width arith.old }
    ensures unfit { A.unfit_count arith.new ≡ unfit_where (A.unfit_count arith.old) result.unfit }
    ensures work { A.work_count arith.new ≤ A.work_count arith.old + (stored_entries inst.now + 2 * row_count inst.now) }
{
    match first_stopper(inst, ticket, 0, inst.columns(), arith) {
        Some(stopper) => Choice {
            number: ticket.number,
            stopper: Some(stopper.0),
            unfit: stopper.1,
        },
        None => Choice {
            number: ticket.number,
            stopper: None,
            unfit: false,
        },
    }
}

// The number of a column, of which there are fewer than 2^32.
fn number_of(inst: &Instance, j: usize) -> u32
    requires { j < column_count inst.now }
    ensures { result ≡ j }
{
    let columns = inst.columns();
    prove!(j < columns);
    j as u32
}

// Whether a column is a stopper, and an unfit one.
fn stop<A: Arith>(inst: &Instance, ticket: &Ticket, j: usize, arith: &mut A) -> Option<bool>
    requires ticket { IsTicketOf inst.now ticket.now }
    requires column { j < column_count inst.now }
    ensures stops { MatchOption result ((unfit : Bool) → Stops (A.width arith.old) inst.now ticket.now j unfit → ⊥) (Stops (A.width arith.old) inst.now ticket.now j) }
    ensures width { A.width arith.new ≡ A.width arith.old }
    ensures unfit { A.unfit_count arith.new ≡ unfit_where (A.unfit_count arith.old) (unwrap_or result false) }
    ensures work { A.work_count arith.new ≤ A.work_count arith.old + column_entries inst.now j }
{
    if !is_looked_at(inst, ticket, j) {
        return None;
    }
    match cost_of(inst, ticket, j, arith) {
        Ok(d) => {
            if improves(ticket.status.get(j), d) {
                Some(false)
            } else {
                None
            }
        }
        Err(_) => Some(true),
    }
}

// Whether a column is looked at.
fn is_looked_at(inst: &Instance, ticket: &Ticket, j: usize) -> bool
    requires ticket { IsTicketOf inst.now ticket.now }
    requires column { j < column_count inst.now }
    ensures { IsTrue result ↔ IsLookedAt inst.now ticket.now j }
{
    if is_basic(ticket.status.get(j)) {
        return false;
    }
    !inst.bounds(ticket.phase, j).is_fixed()
}

// Whether a column with that status is basic.
fn is_basic(status: Status) -> bool
    ensures { IsTrue result ↔ (status ≡ Status.Basic) }
{
    status == Status::Basic
}

/// Whether a column with that status improves at that reduced cost: it is below 0 at `Lower`, above 0 at `Upper`, or
/// not 0 at `Zero`.
#[tactic(auto, using(exact_frac::specs::Constants::constants))]
pub fn improves(status: Status, d: Frac) -> bool
    ensures { IsTrue result ↔ Improves status d }
{
    match status {
        Status::Basic => false,
        Status::Lower => d.cmp(&Frac::ZERO).is_lt(),
        Status::Upper => Frac::ZERO.cmp(&d).is_lt(),
        Status::Zero => !d.is_zero(),
    }
}

// The reduced cost of a column.
fn cost_of<A: Arith>(
    inst: &Instance,
    ticket: &Ticket,
    j: usize,
    arith: &mut A,
) -> Result<Frac, Unfit>
    requires ticket { IsTicketOf inst.now ticket.now }
    requires column { j < column_count inst.now }
    ensures cost { MatchResult result (HasCost (A.width arith.old) inst.now ticket.now.phase ticket.now.pay j) (λ _. HasUnfitCost (A.width arith.old) inst.now ticket.now.phase ticket.now.pay j) }
    ensures width { A.width arith.new ≡ A.width arith.old }
    ensures unfit { A.unfit_count arith.new ≡ unfit_after (A.unfit_count arith.old) result }
    ensures work { A.work_count arith.new ≤ A.work_count arith.old + column_entries inst.now j }
{
    match &ticket.pay {
        Pay::Prices(prices) => price(inst, ticket.phase, prices.as_slice(), j, arith),
        Pay::Costs(costs) => Ok(costs.get(j)),
    }
}

/// The reduced cost of a column at the prices of the rows: its cost less the product of each entry with the price of its
/// row, by rising rows; products of a zero factor are skipped. `Unfit` comes exactly where a product or a difference
/// does not fit the width. At most one product is worked for each stored entry, and no memory is taken.
#[tactic(auto, using(exact_frac::specs::Constants::constants))]
pub fn price<A: Arith>(
    inst: &Instance,
    phase: Phase,
    prices: &[Frac],
    j: usize,
    arith: &mut A,
) -> Result<Frac, Unfit>
    requires column { j < column_count inst.now }
    requires prices { length prices.now ≡ row_count inst.now }
    ensures settled { Settles (A.width arith.old) (priced inst.now phase prices.now j) result }
    ensures width { A.width arith.new ≡ A.width arith.old }
    ensures unfit { A.unfit_count arith.new ≡ unfit_after (A.unfit_count arith.old) result }
    ensures work { A.work_count arith.new ≤ A.work_count arith.old + column_entries inst.now j }
{
    let rows = inst.rows();
    let cost = inst.cost(phase, j);
    match inst.kind(j) {
        ColumnKind::Structural(k) => gather(rows, prices, cost, inst.entries(k), arith),
        ColumnKind::Logical(i) => less_product(cost, Frac::ONE, prices[i], arith),
        ColumnKind::Artificial(i) => less_product(cost, inst.sign(i), prices[i], arith),
    }
}
