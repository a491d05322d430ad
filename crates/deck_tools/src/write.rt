//! Writing a deck.
ghost use Rattle.std.specs.Prelude.{◌≡◌, ◌≤◌, ◌<◌, [], ◌∷◌, ◌++◌, OnOk, IfErr, IsErrOf, Some, length, map, codes, if◌then◌else◌};
ghost use Rattle.std.specs.List.{flat_map};
ghost use Rattle.io_ends.specs.Count.{Rose};
ghost use Rattle.rational.specs.Rational.{eq_ℚ, zero_ℚ};
ghost use Rattle.deck_model.specs.End.{finite_end};
ghost use Rattle.lp_model.specs.Deck.{column as column_at, row as row_at};
ghost use Rattle.deck_tools.specs.Layout.{bound_lines, column_lines, constant_lines, cost_lines, deck_lines, deck_text, ends_lines, entry_lines, kind_word};
ghost use Rattle.deck_tools.specs.Layout.{lower_lines, range_lines, right_lines, row_line, section, sense_lines, title, upper_lines, word};
ghost use Rattle.deck_tools.specs.Makes.{Makes};
ghost use Rattle.deck_tools.specs.Writes.{IsWriteCause, IsWritten};

use crate::fault::DeckWriteFault;
use crate::page::Page;
use deck_model::{Deck, End};
use exact_frac::Frac;
use io_ends::{Sink, write_all};
use lp_model::{RowKind, Sense};
use lp_text::Form;
use no_memory::Memory;
use std::alloc::Global;

/// Writes a deck in a form: the text that `specs/Layout.antt` defines as `deck_text`, as one piece.
///
/// # Errors
///
/// `Wide` exactly where a number has no spelling on a card, with the name that the first such belongs to: its row's or its
/// column's, or the objective's where it is the constant. The sink has then gained nothing. `Write` where the sink failed; it
/// has then gained a beginning of the text. `Memory` for want of memory; the sink has then gained nothing.
pub fn write_deck<K: Sink>(
    alloc: Global,
    deck: &Deck,
    form: Form,
    out: &mut K,
) -> Result<(), DeckWriteFault>
    ensures written { OnOk result (IsWritten (deck_text form deck.now) (K.contents out.old) (K.contents out.new)) }
    ensures cause { IfErr result (IsWriteCause (deck_text form deck.now) (K.contents out.old) (K.contents out.new)) }
    ensures rose { IsErrOf result DeckWriteFault.Write → Rose (K.fault_count out.old) (K.fault_count out.new) }
    ensures stays { ¬ IsErrOf result DeckWriteFault.Write → K.fault_count out.new ≡ K.fault_count out.old }
    ensures never_falls { K.fault_count out.old ≤ K.fault_count out.new }
{
    let mut page = Page::new(alloc);
    put_deck(alloc, deck, form, &mut page)?;
    write_all(out, &page.text)?;
    Ok(())
}

/// Puts all lines of a deck.
pub fn put_deck(
    alloc: Global,
    deck: &Deck,
    form: Form,
    page: &mut Page,
) -> Result<(), DeckWriteFault>
    ensures { Makes form page.old.text.items page.new.text.items (deck_lines deck.now) result }
{
    put_head(deck, form, page)?;
    put_rows(deck, form, page)?;
    put_columns(deck, form, page)?;
    put_rights(alloc, deck, form, page)?;
    put_ranges(alloc, deck, form, page)?;
    put_bounds(alloc, deck, form, page)?;
    put_end(form, page)
}

// Puts the deck's name, and its sense where that is the greatest.
fn put_head(deck: &Deck, form: Form, page: &mut Page) -> Result<(), DeckWriteFault>
    ensures { Makes form page.old.text.items page.new.text.items (title deck.now.name ∷ sense_lines deck.now.sense) result }
{
    page.put_title(form, deck.name().bytes())?;
    if deck.sense() == Sense::Max {
        page.put_word(b"OBJSENSE")?;
        page.put_word(b"    MAX")?;
    }
    Ok(())
}

// Puts the word that ends a deck.
fn put_end(form: Form, page: &mut Page) -> Result<(), DeckWriteFault>
    ensures { Makes form page.old.text.items page.new.text.items (word (codes "ENDATA") ∷ []) result }
{
    page.put_word(b"ENDATA")?;
    Ok(())
}

// ── rows and columns ──

// Puts the section of the rows.
fn put_rows(deck: &Deck, form: Form, page: &mut Page) -> Result<(), DeckWriteFault>
    ensures { Makes form page.old.text.items page.new.text.items
        (word (codes "ROWS") ∷ row_line (codes "N") deck.now.objective ∷ map (λ r. row_line (kind_word r.kind) r.name) deck.now.rows) result }
{
    page.put_word(b"ROWS")?;
    page.put_row(form, b"N", deck.objective().bytes())?;
    put_each_row(deck, form, page)
}

// Puts a card for each row.
fn put_each_row(deck: &Deck, form: Form, page: &mut Page) -> Result<(), DeckWriteFault>
    ensures { Makes form page.old.text.items page.new.text.items (map (λ r. row_line (kind_word r.kind) r.name) deck.now.rows) result }
{
    for row in 0..deck.rows() {
        page.put_row(
            form,
            kind_word(deck.row_kind(row)),
            deck.row_name(row).bytes(),
        )?;
    }
    Ok(())
}

// The word of a kind of row.
fn kind_word(kind: RowKind) -> &'static [u8]
    ensures { result.now ≡ kind_word kind }
{
    match kind {
        RowKind::L => b"L",
        RowKind::G => b"G",
        RowKind::E => b"E",
    }
}

// Puts the section of the columns.
fn put_columns(deck: &Deck, form: Form, page: &mut Page) -> Result<(), DeckWriteFault>
    ensures { Makes form page.old.text.items page.new.text.items (word (codes "COLUMNS") ∷ flat_map (column_lines deck.now) deck.now.columns) result }
{
    page.put_word(b"COLUMNS")?;
    put_each_column(deck, form, page)
}

// Puts the cards of each column.
fn put_each_column(deck: &Deck, form: Form, page: &mut Page) -> Result<(), DeckWriteFault>
    ensures { Makes form page.old.text.items page.new.text.items (flat_map (column_lines deck.now) deck.now.columns) result }
{
    for column in 0..deck.columns() {
        put_column(deck, column, form, page)?;
    }
    Ok(())
}

// Puts the cards of a column.
fn put_column(deck: &Deck, column: usize, form: Form, page: &mut Page) -> Result<(), DeckWriteFault>
    requires { column < length deck.now.columns }
    ensures { Makes form page.old.text.items page.new.text.items (column_lines deck.now (column_at deck.now column)) result }
{
    put_cost(deck, column, form, page)?;
    put_entries(deck, column, form, page)
}

// Puts the cost of a column, where it is not 0, or where no entry would name the column.
fn put_cost(deck: &Deck, column: usize, form: Form, page: &mut Page) -> Result<(), DeckWriteFault>
    requires { column < length deck.now.columns }
    ensures { Makes form page.old.text.items page.new.text.items (cost_lines deck.now (column_at deck.now column)) result }
{
    let cost = deck.cost(column);
    let count = deck.column(column).count();
    if cost.is_zero() && count > 0 {
        return Ok(());
    }
    page.put_pair(
        form,
        deck.column_name(column).bytes(),
        deck.objective().bytes(),
        cost,
    )
}

// Puts a card for each entry of a column.
fn put_entries(
    deck: &Deck,
    column: usize,
    form: Form,
    page: &mut Page,
) -> Result<(), DeckWriteFault>
    requires { column < length deck.now.columns }
    ensures { Makes form page.old.text.items page.new.text.items (entry_lines deck.now (column_at deck.now column)) result }
{
    let name = deck.column_name(column).bytes();
    let entries = deck.column(column);
    for k in 0..entries.count() {
        let (row, value) = entries.pair(k);
        page.put_pair(form, name, deck.row_name(row).bytes(), value)?;
    }
    Ok(())
}

// ── right sides and ranges ──

// Puts the section of the right sides, where it has lines.
fn put_rights(alloc: Global, deck: &Deck, form: Form, page: &mut Page) -> Result<(), DeckWriteFault>
    ensures { Makes form page.old.text.items page.new.text.items
        (section (codes "RHS") (constant_lines deck.now ++ flat_map right_lines deck.now.rows)) result }
{
    let mut lines = Page::new(alloc);
    put_constant(deck, form, &mut lines)?;
    put_each_right(deck, form, &mut lines)?;
    page.put_section(b"RHS", &lines)?;
    Ok(())
}

// Puts the constant with its sign turned, where it is not 0.
fn put_constant(deck: &Deck, form: Form, page: &mut Page) -> Result<(), DeckWriteFault>
    ensures { Makes form page.old.text.items page.new.text.items (constant_lines deck.now) result }
{
    let constant = deck.constant();
    if constant.is_zero() {
        return Ok(());
    }
    page.put_in_set(form, deck.objective().bytes(), constant.negated())
}

// Puts the right side of each row where it is not 0.
fn put_each_right(deck: &Deck, form: Form, page: &mut Page) -> Result<(), DeckWriteFault>
    ensures { Makes form page.old.text.items page.new.text.items (flat_map right_lines deck.now.rows) result }
{
    for row in 0..deck.rows() {
        put_right(deck, row, form, page)?;
    }
    Ok(())
}

// Puts the right side of a row, where it is not 0.
fn put_right(deck: &Deck, row: usize, form: Form, page: &mut Page) -> Result<(), DeckWriteFault>
    requires { row < length deck.now.rows }
    ensures { Makes form page.old.text.items page.new.text.items (right_lines (row_at deck.now row)) result }
{
    let right = deck.right(row);
    if right.is_zero() {
        return Ok(());
    }
    page.put_in_set(form, deck.row_name(row).bytes(), right)
}

// Puts the section of the ranges, where it has lines.
fn put_ranges(alloc: Global, deck: &Deck, form: Form, page: &mut Page) -> Result<(), DeckWriteFault>
    ensures { Makes form page.old.text.items page.new.text.items (section (codes "RANGES") (flat_map range_lines deck.now.rows)) result }
{
    let mut lines = Page::new(alloc);
    put_each_range(deck, form, &mut lines)?;
    page.put_section(b"RANGES", &lines)?;
    Ok(())
}

// Puts the range of each row that has one.
fn put_each_range(deck: &Deck, form: Form, page: &mut Page) -> Result<(), DeckWriteFault>
    ensures { Makes form page.old.text.items page.new.text.items (flat_map range_lines deck.now.rows) result }
{
    for row in 0..deck.rows() {
        put_range(deck, row, form, page)?;
    }
    Ok(())
}

// Puts the range of a row, if it has one.
fn put_range(deck: &Deck, row: usize, form: Form, page: &mut Page) -> Result<(), DeckWriteFault>
    requires { row < length deck.now.rows }
    ensures { Makes form page.old.text.items page.new.text.items (range_lines (row_at deck.now row)) result }
{
    match deck.range(row) {
        None => Ok(()),
        Some(range) => page.put_in_set(form, deck.row_name(row).bytes(), range),
    }
}

// ── bounds ──

// Puts the section of the bounds, where it has lines.
fn put_bounds(alloc: Global, deck: &Deck, form: Form, page: &mut Page) -> Result<(), DeckWriteFault>
    ensures { Makes form page.old.text.items page.new.text.items (section (codes "BOUNDS") (flat_map bound_lines deck.now.columns)) result }
{
    let mut lines = Page::new(alloc);
    put_each_bound(deck, form, &mut lines)?;
    page.put_section(b"BOUNDS", &lines)?;
    Ok(())
}

// Puts the bounds of each column that do not go without saying.
fn put_each_bound(deck: &Deck, form: Form, page: &mut Page) -> Result<(), DeckWriteFault>
    ensures { Makes form page.old.text.items page.new.text.items (flat_map bound_lines deck.now.columns) result }
{
    for column in 0..deck.columns() {
        put_bounds_of(deck, column, form, page)?;
    }
    Ok(())
}

// Puts the bounds of a column.
fn put_bounds_of(
    deck: &Deck,
    column: usize,
    form: Form,
    page: &mut Page,
) -> Result<(), DeckWriteFault>
    requires { column < length deck.now.columns }
    ensures { Makes form page.old.text.items page.new.text.items (bound_lines (column_at deck.now column)) result }
{
    let (lower, upper) = deck.bounds(column);
    put_ends(
        deck.column_name(column).bytes(),
        number_of(lower),
        number_of(upper),
        form,
        page,
    )
}

// The number of an end that is finite.
fn number_of(end: End) -> Option<Frac>
    ensures { result ≡ finite_end end }
{
    match end {
        End::At(value) => Some(value),
        End::Minus | End::Plus => None,
    }
}

/// Puts the bounds of a column with these ends; an end that is absent is infinite.
pub fn put_ends(
    name: &[u8],
    lower: Option<Frac>,
    upper: Option<Frac>,
    form: Form,
    page: &mut Page,
) -> Result<(), DeckWriteFault>
    ensures { Makes form page.old.text.items page.new.text.items (ends_lines name.now lower upper) result }
{
    match (lower, upper) {
        (None, None) => page.put_bound(form, b"FR", name, None),
        (Some(least), Some(most)) => put_finite(name, least, most, form, page),
        _ => {
            put_lower(name, lower, form, page)?;
            put_upper(name, upper, form, page)
        }
    }
}

// Puts the bounds of a column with finite ends.
fn put_finite(
    name: &[u8],
    least: Frac,
    most: Frac,
    form: Form,
    page: &mut Page,
) -> Result<(), DeckWriteFault>
    ensures { Makes form page.old.text.items page.new.text.items (ends_lines name.now (Some least) (Some most)) result }
{
    if least == most {
        return page.put_bound(form, b"FX", name, Some(least));
    }
    put_lower(name, Some(least), form, page)?;
    put_upper(name, Some(most), form, page)
}

// Puts a lower end, unless it is 0.
fn put_lower(
    name: &[u8],
    lower: Option<Frac>,
    form: Form,
    page: &mut Page,
) -> Result<(), DeckWriteFault>
    ensures { Makes form page.old.text.items page.new.text.items (lower_lines name.now lower) result }
{
    match lower {
        None => page.put_bound(form, b"MI", name, None),
        Some(least) if least.is_zero() => Ok(()),
        Some(_) => page.put_bound(form, b"LO", name, lower),
    }
}

// Puts an upper end that is finite.
fn put_upper(
    name: &[u8],
    upper: Option<Frac>,
    form: Form,
    page: &mut Page,
) -> Result<(), DeckWriteFault>
    ensures { Makes form page.old.text.items page.new.text.items (upper_lines name.now upper) result }
{
    match upper {
        None => Ok(()),
        Some(_) => page.put_bound(form, b"UP", name, upper),
    }
}
