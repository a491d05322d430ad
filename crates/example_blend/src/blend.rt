//! The deck of a feed, made by calls.
ghost use Rattle.std.specs.Prelude.{◌≡◌, ◌+◌, ◌<◌, length, OnOk, IfOk};

use deck_model::{Deck, EditFault, MAX_COLUMNS, MAX_ROWS, Name, RowKind};
use exact_frac::Frac;
use std::alloc::Global;

/// The row of the protein.
pub const PROTEIN: usize = 1;

/// The feed of least cost: 100 tons of barley and soy, at 3 and 8 a ton, with so much protein, at least 20, and so much fibre, at most 9.
///
/// # Errors
///
/// `Memory` for want of memory. `Repeated` does not come, since no name is given twice.
pub fn feed(alloc: Global) -> Result<Deck, EditFault>
    ensures rows { IfOk result (λ deck. length deck.rows ≡ 3) }
    ensures columns { IfOk result (λ deck. length deck.columns ≡ 2) }
{
    let mut deck = Deck::new(alloc, Name::of(alloc, b"FEED")?, Name::of(alloc, b"COST")?);
    add_row(alloc, &mut deck, b"TONS", RowKind::G, Frac::of(100, 1))?;
    add_row(alloc, &mut deck, b"PROTEIN", RowKind::G, Frac::of(20, 1))?;
    add_row(alloc, &mut deck, b"FIBRE", RowKind::L, Frac::of(9, 1))?;
    add_column(
        alloc,
        &mut deck,
        b"BARLEY",
        Frac::of(3, 1),
        Frac::of(1, 10),
        Frac::of(1, 20),
    )?;
    add_column(
        alloc,
        &mut deck,
        b"SOY",
        Frac::of(8, 1),
        Frac::of(9, 20),
        Frac::of(3, 20),
    )?;
    Ok(deck)
}

// Adds a row with its right side.
fn add_row(
    alloc: Global,
    deck: &mut Deck,
    name: &[u8],
    kind: RowKind,
    right: Frac,
) -> Result<(), EditFault>
    requires no_column { length deck.old.columns ≡ 0 }
    requires room { length deck.old.rows < MAX_ROWS }
    ensures count { OnOk result (length deck.new.rows ≡ length deck.old.rows + 1) }
    ensures no_column { OnOk result (length deck.new.columns ≡ 0) }
{
    let row = deck.add_row(Name::of(alloc, name)?, kind)?;
    deck.set_right(row, right);
    Ok(())
}

// Adds a column with its cost, and what a ton of it has: a ton, protein and fibre.
fn add_column(
    alloc: Global,
    deck: &mut Deck,
    name: &[u8],
    cost: Frac,
    protein: Frac,
    fibre: Frac,
) -> Result<(), EditFault>
    requires rows { length deck.old.rows ≡ 3 }
    requires room { length deck.old.columns < MAX_COLUMNS }
    ensures rows { OnOk result (length deck.new.rows ≡ 3) }
    ensures count { OnOk result (length deck.new.columns ≡ length deck.old.columns + 1) }
{
    let column = deck.add_column(Name::of(alloc, name)?)?;
    deck.set_cost(column, cost);
    add_entry(deck, column, 0, Frac::of(1, 1))?;
    add_entry(deck, column, PROTEIN, protein)?;
    add_entry(deck, column, 2, fibre)
}

// Adds an entry, which changes neither how many rows nor how many columns there are.
fn add_entry(deck: &mut Deck, column: usize, row: usize, value: Frac) -> Result<(), EditFault>
    requires column { column < length deck.old.columns }
    requires row { row < length deck.old.rows }
    ensures rows { OnOk result (length deck.new.rows ≡ length deck.old.rows) }
    ensures columns { OnOk result (length deck.new.columns ≡ length deck.old.columns) }
{
    deck.add_entry(column, row, value)
}
