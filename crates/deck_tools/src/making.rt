//! Transport decks, made from their size.
ghost use Rattle.std.specs.Prelude.{◌≡◌, ◌+◌, ◌*◌, ◌/◌, ◌%◌, ◌^◌, ◌<◌, ◌≤◌, List, [], ◌∷◌, ◌++◌, map, length, false, true, IfOk, OnOk, None, codes, pos};
ghost use Rattle.std.specs.Fmt.{decimal};
ghost use Rattle.rational.specs.Rational.{ℚ, ◌≤ℚ◌, one_ℚ, ratio, zero_ℚ};
ghost use Rattle.rational.specs.Sparse.{upto};
ghost use Rattle.lp_model.specs.Deck.{Column, IsFeasible, column as column_at, nonnegative, objective};
ghost use Rattle.lp_model.specs.Edit.{has_entry, is_column_name, is_row_name, new_deck, with_column, with_entry};
ghost use Rattle.deck_tools.specs.Transport.{cost_of, number, route, sink, source, transport};

use deck_model::{Deck, EditFault, MAX_COLUMNS, MAX_ROWS, Name, RowKind};
use exact_frac::Frac;
use itoa::Buffer;
use no_memory::Memory;
use std::alloc::Global;

/// The transport deck of this size: so many sources and sinks, and a column for each pair of them. It has a feasible point,
/// and none with an objective below 0, so it has an optimum.
///
/// # Errors
///
/// `Memory` for want of memory.
#[tactic(auto, using(crate::proofs::Shipping::not_below))]
pub fn make(alloc: Global, n: u32) -> Result<Deck, Memory>
    requires some { 1 ≤ n }
    requires few { n ≤ 20 }
    ensures deck { IfOk result (λ deck. deck ≡ transport n) }
    ensures feasible { IfOk result (λ deck. (x : List ℚ) × IsFeasible deck x) }
    ensures not_below { IfOk result (λ deck. (x : List ℚ) → IsFeasible deck x → zero_ℚ ≤ℚ objective deck x) }
{
    let n = n as usize;
    let mut deck = Deck::new(alloc, Name::of(alloc, b"MAKE")?, Name::of(alloc, b"COST")?);
    add_sources(alloc, &mut deck, n)?;
    add_sinks(alloc, &mut deck, n)?;
    add_routes(alloc, &mut deck, n)?;
    Ok(deck)
}

// Adds the rows of the sources.
fn add_sources(alloc: Global, deck: &mut Deck, n: usize) -> Result<(), Memory>
    requires few { n ≤ 20 }
    requires start { deck.old ≡ new_deck (codes "MAKE") (codes "COST") }
    ensures { OnOk result (deck.new ≡ record deck.old { rows = map source (upto n) }) }
{
    for k in 0..n {
        let name = numbered(alloc, b'S', k + 1)?;
        add_row(deck, name, RowKind::L, whole(20 + (k + 1) % 5))?;
    }
    Ok(())
}

// Adds the rows of the sinks.
fn add_sinks(alloc: Global, deck: &mut Deck, n: usize) -> Result<(), Memory>
    requires few { n ≤ 20 }
    requires start { deck.old ≡ record (new_deck (codes "MAKE") (codes "COST")) { rows = map source (upto n) } }
    ensures { OnOk result (deck.new ≡ record deck.old { rows = map source (upto n) ++ map sink (upto n) }) }
{
    for k in 0..n {
        let name = numbered(alloc, b'D', k + 1)?;
        add_row(deck, name, RowKind::G, whole(15 + (k + 1) % 4))?;
    }
    Ok(())
}

// Adds the columns of the routes.
fn add_routes(alloc: Global, deck: &mut Deck, n: usize) -> Result<(), Memory>
    requires some { 1 ≤ n }
    requires few { n ≤ 20 }
    requires start { deck.old ≡ record (transport n) { columns = [] } }
    ensures { OnOk result (deck.new ≡ transport n) }
{
    for k in 0..n * n {
        add_route(alloc, deck, n, k)?;
    }
    Ok(())
}

// Adds the column of a route.
fn add_route(alloc: Global, deck: &mut Deck, n: usize, k: usize) -> Result<(), Memory>
    requires few { n ≤ 20 }
    requires within { k < n * n }
    requires start { deck.old ≡ record (transport n) { columns = map (route n) (upto k) } }
    ensures { OnOk result (deck.new ≡ record (transport n) { columns = map (route n) (upto (k + 1)) }) }
{
    let (i, j) = (k / n, k % n);
    let name = route_name(alloc, i + 1, j + 1)?;
    add_column(deck, name, whole(cost_of(i + 1, j + 1)), i, n + j)
}

// What it costs to send from source i to sink j.
fn cost_of(i: usize, j: usize) -> usize
    requires source { i ≤ 20 }
    requires sink { j ≤ 20 }
    ensures cost { result ≡ cost_of i j }
    ensures small { result < 98 }
{
    (7 * i + 13 * j + 5 * i * j) % 97 + 1
}

// A whole number as a fraction.
fn whole(n: usize) -> Frac
    requires { n < 100 }
    ensures { result ≡ number n }
{
    Frac::of(n as i128, 1)
}

// The name of a letter and a number.
fn numbered(alloc: Global, letter: u8, n: usize) -> Result<Name, Memory>
    ensures { IfOk result (λ name. name ≡ letter ∷ decimal n) }
{
    let mut text = Vec::new(alloc);
    text.push(letter)?;
    text.extend_from_slice(Buffer::new().format(n).as_bytes())?;
    Name::of(alloc, &text)
}

// The name of a route.
fn route_name(alloc: Global, i: usize, j: usize) -> Result<Name, Memory>
    ensures { IfOk result (λ name. name ≡ 88 ∷ decimal i ++ 95 ∷ decimal j) }
{
    let mut text = Vec::new(alloc);
    text.push(b'X')?;
    text.extend_from_slice(Buffer::new().format(i).as_bytes())?;
    text.push(b'_')?;
    text.extend_from_slice(Buffer::new().format(j).as_bytes())?;
    Name::of(alloc, &text)
}

// Adds a row with its right side.
fn add_row(deck: &mut Deck, name: Name, kind: RowKind, right: Frac) -> Result<(), Memory>
    requires no_column { length deck.old.columns ≡ 0 }
    requires room { length deck.old.rows < MAX_ROWS }
    requires new { is_row_name deck.old name ≡ false }
    ensures { OnOk result (deck.new ≡ record deck.old { rows = deck.old.rows ++ record { name = name; kind = kind; right = right; range = None } ∷ [] }) }
{
    match deck.add_row(name, kind) {
        Ok(row) => {
            deck.set_right(row, right);
            Ok(())
        }
        Err(EditFault::Memory) => Err(Memory),
        Err(EditFault::Repeated) => unreachable!(),
    }
}

// Adds a column with its cost and with a 1 in two rows.
fn add_column(
    deck: &mut Deck,
    name: Name,
    cost: Frac,
    first: usize,
    second: usize,
) -> Result<(), Memory>
    requires room { length deck.old.columns < MAX_COLUMNS }
    requires new { is_column_name deck.old name ≡ false }
    requires order { first < second }
    requires within { second < length deck.old.rows }
    ensures { let column : Column = record { name = name; cost = cost; entries = (first, one_ℚ) ∷ (second, one_ℚ) ∷ []; bounds = nonnegative } in
        OnOk result (deck.new ≡ record deck.old { columns = deck.old.columns ++ column ∷ [] }) }
{
    let column = new_column(deck, name)?;
    deck.set_cost(column, cost);
    add_one(deck, column, first)?;
    add_one(deck, column, second)
}

// Adds a column without entries, and answers its index.
fn new_column(deck: &mut Deck, name: Name) -> Result<usize, Memory>
    requires room { length deck.old.columns < MAX_COLUMNS }
    requires new { is_column_name deck.old name ≡ false }
    ensures index { IfOk result (λ column. column ≡ length deck.old.columns) }
    ensures added { OnOk result (deck.new ≡ with_column deck.old name) }
{
    match deck.add_column(name) {
        Ok(column) => Ok(column),
        Err(EditFault::Memory) => Err(Memory),
        Err(EditFault::Repeated) => unreachable!(),
    }
}

// Adds a 1 to a column in a row where it has nothing.
fn add_one(deck: &mut Deck, column: usize, row: usize) -> Result<(), Memory>
    requires column { column < length deck.old.columns }
    requires row { row < length deck.old.rows }
    requires absent { has_entry (column_at deck.old column).entries row ≡ false }
    ensures { OnOk result (deck.new ≡ with_entry deck.old column row one_ℚ) }
{
    match deck.add_entry(column, row, whole(1)) {
        Ok(()) => Ok(()),
        Err(EditFault::Memory) => Err(Memory),
        Err(EditFault::Repeated) => unreachable!(),
    }
}
