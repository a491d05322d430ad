// The columns that are priced, and their ticket.
ghost use Rattle.std.specs.Prelude.{◌≡◌, ◌+◌, ◌<◌, length, IfSome, OnSome};
ghost use Rattle.lp_run.specs.Instance.{column_count, row_count};
ghost use Rattle.bland_ratio.specs.Pricing.{IsTicketOf};

use bland_ratio::{Pay, Ticket};
use deck_model::{Deck, Name, RowKind};
use exact_frac::{Frac, Fracs, Full127};
use instance_model::{Instance, Statuses};
use lp_model::{Phase, Status};
use std::alloc::Global;

const ROWS: u16 = 100;

const COLUMNS: u16 = 9800;

/// Which column is the first stopper.
#[derive(Clone, Copy)]
pub(crate) enum Stopper {
    First,
    Middle,
    Last,
    None,
}

impl Stopper {
    /// The one of that name.
    pub(crate) fn of(name: &str) -> Option<Stopper> {
        match name {
            "first" => Some(Stopper::First),
            "middle" => Some(Stopper::Middle),
            "last" => Some(Stopper::Last),
            "none" => Some(Stopper::None),
            _ => None,
        }
    }

    // The cost of column `j`, below all products where it is the stopper, and else above.
    fn cost(self, j: u16) -> Frac {
        let is_stopper = match self {
            Stopper::First => j == 0,
            Stopper::Middle => j == COLUMNS / 2,
            Stopper::Last => j == COLUMNS - 1,
            Stopper::None => false,
        };
        Frac::of(if is_stopper { -1000 } else { 1000 }, 1)
    }
}

// A row more, which no logical relaxes.
fn add_row(alloc: Global, deck: &mut Deck, i: u16) -> Option<()>
    requires columns { length deck.old.columns ≡ 0 }
    requires rows { (length deck.old.rows ≡ i) × (i < 1000) }
    ensures columns { OnSome result (length deck.new.columns ≡ 0) }
    ensures rows { OnSome result (length deck.new.rows ≡ i + 1) }
{
    let name = format!(in alloc; "R{i}").ok()?;
    deck.add_row(Name::of(alloc, name.as_bytes()).ok()?, RowKind::E)
        .ok()?;
    Some(())
}

// Ten entries of a column, in every seventh row from its own number on.
fn add_entries(deck: &mut Deck, column: usize, j: u16) -> Option<()>
    requires column { column < length deck.old.columns }
    requires rows { length deck.old.rows ≡ 100 }
    ensures columns { OnSome result (length deck.new.columns ≡ length deck.old.columns) }
    ensures rows { OnSome result (length deck.new.rows ≡ 100) }
{
    for k in 0..10 {
        let number = u32::from(j) + 7 * k;
        let value = Frac::of(i128::from(1 + number % 9), i128::from(1 + k % 4));
        deck.add_entry(column, number as usize % 100, value).ok()?;
    }
    Some(())
}

// A column more.
fn add_column(alloc: Global, deck: &mut Deck, j: u16, cost: Frac) -> Option<()>
    requires columns { length deck.old.columns ≡ j }
    requires rows { length deck.old.rows ≡ 100 }
    ensures columns { OnSome result (length deck.new.columns ≡ j + 1) }
    ensures rows { OnSome result (length deck.new.rows ≡ 100) }
{
    let name = format!(in alloc; "X{j}").ok()?;
    let column = deck
        .add_column(Name::of(alloc, name.as_bytes()).ok()?)
        .ok()?;
    deck.set_cost(column, cost);
    add_entries(deck, column, j)
}

// A deck of 100 rows and 9,800 columns.
fn deck(alloc: Global, stopper: Stopper) -> Option<Deck> {
    let name = Name::of(alloc, b"ROUND").ok()?;
    let mut deck = Deck::new(alloc, name, Name::of(alloc, b"COST").ok()?);
    for i in 0..ROWS {
        add_row(alloc, &mut deck, i)?;
    }
    for j in 0..COLUMNS {
        add_column(alloc, &mut deck, j, stopper.cost(j))?;
    }
    Some(deck)
}

/// The instance, but for want of memory.
pub(crate) fn instance(alloc: Global, stopper: Stopper) -> Option<Instance> {
    Instance::of(alloc, &deck(alloc, stopper)?, &mut Full127::new()).ok()
}

// The prices of the rows, between -2/3 and 2/3.
fn prices(alloc: Global, inst: &Instance) -> Option<Fracs>
    ensures { IfSome result (λ list. length list ≡ row_count inst.now) }
{
    let mut list = Vec::with_capacity(alloc, inst.rows()).ok()?;
    for i in 0..inst.rows() {
        list.push(Frac::of((i % 5) as i128 - 2, 3)).ok()?;
    }
    Some(Fracs::of(list))
}

/// A ticket of the second phase, in which each column is at its lower end.
pub(crate) fn ticket(alloc: Global, inst: &Instance) -> Option<Ticket>
    ensures { IfSome result (IsTicketOf inst.now) }
{
    let status = Statuses::of(vec![in alloc; Status::Lower; inst.columns()].ok()?);
    let pay = Pay::Prices(prices(alloc, inst)?);
    Some(Ticket {
        number: 0,
        phase: Phase::Two,
        status,
        pay,
    })
}
