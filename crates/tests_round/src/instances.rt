// Instances and tickets to price.
ghost use Rattle.std.specs.Prelude.{◌≡◌, ◌+◌, ◌<◌, ◌≤◌, length, vec_len, IfOk, OnOk};
ghost use Rattle.lp_run.specs.Instance.{column_count, row_count};
ghost use Rattle.bland_ratio.specs.Pricing.{IsTicketOf, PaysEach};

use bland_ratio::{Pay, Ticket};
use deck_model::{Deck, Name, RowKind};
use exact_frac::{Frac, Fracs, Full127};
use instance_model::{Instance, Statuses};
use lp_model::{Phase, Status};
use std::alloc::Global;
use std::test::Fail;

// A column more: by turns with the entry 100, with the cost -1, and with neither.
fn add_column(alloc: Global, deck: &mut Deck, j: u16) -> Result<(), Fail>
    requires columns { length deck.old.columns ≡ j }
    requires rows { length deck.old.rows ≡ 1 }
    ensures columns { OnOk result (length deck.new.columns ≡ j + 1) }
    ensures rows { OnOk result (length deck.new.rows ≡ 1) }
{
    let name = format!(in alloc; "X{j}")?;
    let column = deck.add_column(Name::of(alloc, name.as_bytes())?)?;
    if j % 3 == 0 {
        deck.add_entry(column, 0, Frac::of(100, 1))?;
    }
    if j % 3 == 1 {
        deck.set_cost(column, Frac::of(-1, 1));
    }
    Ok(())
}

// A deck of one row and `count` columns.
fn thirds(alloc: Global, count: u16) -> Result<Deck, Fail>
    requires { count ≤ 1000 }
{
    let mut deck = Deck::new(
        alloc,
        Name::of(alloc, b"THIRDS")?,
        Name::of(alloc, b"COST")?,
    );
    deck.add_row(Name::of(alloc, b"R1")?, RowKind::E)?;
    for j in 0..count {
        add_column(alloc, &mut deck, j)?;
    }
    Ok(deck)
}

/// An instance of one row and 337 + 2 columns, of which the structurals are by turns unfit at the price 100 and 8 bits,
/// eligible in the second phase, and neither.
pub(crate) fn instance(alloc: Global) -> Result<Instance, Fail> {
    let deck = thirds(alloc, 337)?;
    Ok(Instance::of(alloc, &deck, &mut Full127::new())?)
}

/// The next number of a stream (Marsaglia, Xorshift RNGs, 2003).
pub(crate) fn next(state: u64) -> u64 {
    let x = state ^ (state << 13);
    let x = x ^ (x >> 7);
    x ^ (x << 17)
}

// A status for each column: `Lower` for one in so many, else `Basic`.
fn statuses(alloc: Global, inst: &Instance, mut state: u64, one_in: u64) -> Result<Statuses, Fail>
    requires { 0 < one_in }
    ensures { IfOk result (λ status. length status ≡ column_count inst.now) }
{
    let mut list = Vec::new(alloc);
    for _ in 0..inst.columns() {
        state = next(state);
        list.push(if state % one_in == 0 {
            Status::Lower
        } else {
            Status::Basic
        })?;
    }
    Ok(Statuses::of(list))
}

// The price 100 for each row.
fn prices(alloc: Global, inst: &Instance) -> Result<Fracs, Fail>
    ensures { IfOk result (λ list. length list ≡ row_count inst.now) }
{
    Ok(Fracs::of(vec![in alloc; Frac::of(100, 1); inst.rows()]?))
}

// A reduced cost for each column: -1, 0 or 1.
fn costs(alloc: Global, inst: &Instance, mut state: u64) -> Result<Fracs, Fail>
    ensures { IfOk result (λ list. length list ≡ column_count inst.now) }
{
    let mut list = Vec::new(alloc);
    for _ in 0..inst.columns() {
        state = next(state);
        list.push(Frac::of((state % 3) as i128 - 1, 1))?;
    }
    Ok(Fracs::of(list))
}

/// A ticket drawn from a seed: by turns one with prices and one with costs.
pub(crate) fn ticket(alloc: Global, inst: &Instance, seed: u64) -> Result<Ticket, Fail>
    ensures { IfOk result (IsTicketOf inst.now) }
{
    let state = next(seed.saturating_add(1));
    let status = statuses(alloc, inst, state, 1 + state % 200)?;
    let pay = if seed % 2 == 0 {
        Pay::Prices(prices(alloc, inst)?)
    } else {
        Pay::Costs(costs(alloc, inst, state)?)
    };
    Ok(Ticket {
        number: seed,
        phase: Phase::Two,
        status,
        pay,
    })
}
