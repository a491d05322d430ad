//! Decks: their calls, and the rows and columns that they keep.
ghost use Rattle.std.specs.Prelude.{◌≡◌, ◌≢◌, ◌<◌, ◌≤◌, ◌↔◌, false, IsTrue, IfOk, IsErrOf, OnOk, OnErr, None, length};
ghost use Rattle.lp_model.specs.Deck.{row as row_at, column as column_at, IsDeck, IsUncrossed};
ghost use Rattle.lp_model.specs.Edit.{new_deck, find_row, find_column, is_row_name, is_column_name, with_row, with_column, with_entry, with_cost, with_bounds, with_right, with_range, with_sense, with_constant, has_entry, entry_count};
ghost use Rattle.rational.specs.Rational.{one_unless_zero, zero_ℚ};
ghost use Rattle.deck_model.specs.End.{interval, ends_of};
ghost use Rattle.deck_model.specs.Named.{HasNamedRows, HasNamedColumns};

use crate::end::End;
use crate::fault::EditFault;
use crate::name::Name;
use exact_frac::Frac;
use indexmap::IndexMap;
use lp_model::{RowKind, Sense};
use no_memory::Memory;
use sparse_cols::SparseCol;
use std::alloc::Global;
use std::marker::Model;

/// How many rows a deck has at most.
pub const MAX_ROWS: usize = 65_535;

/// How many columns a deck has at most.
pub const MAX_COLUMNS: usize = 1 << 31;

/// A row but for its name.
#[derive(Clone, Copy)]
struct RowData {
    kind: RowKind,
    right: Frac,
    range: Option<Frac>,
}

/// A column but for its name. An end that is absent is infinite.
#[derive(Drop)]
struct ColumnData {
    cost: Frac,
    entries: SparseCol<Frac>,
    lower: Option<Frac>,
    upper: Option<Frac>,
}

/// A linear program with its names: to minimise or to maximise a cost over columns with bounds, where
/// each row's activity lies in an interval.
///
/// Rows and columns have the indices 0, 1, .. in the order in which they were added.
#[derive(Drop)]
pub struct Deck {
    name: Name,
    objective: Name,
    sense: Sense,
    rows: IndexMap<Name, RowData>,
    columns: IndexMap<Name, ColumnData>,
    constant: Frac,
    nonzeros: usize,
}

impl Model for Deck {
    ghost use Rattle.lp_model.specs.Deck.{Deck as Program};
    ghost use Rattle.deck_model.specs.Code.{code_deck};

    ghost Value = { Program };

    ghost coded = { code_deck };

    ghost use Rattle.deck_model.specs.Parts.{deck_of, IsSound};

    ghost view = { deck_of };

    ghost invariant = { IsSound };
}

impl Deck {
    /// A deck with these names, no row, no column and the constant 0, to be minimised. It takes no memory.
    #[tactic(auto, using(exact_frac::specs::Constants::constants))]
    pub fn new(alloc: Global, name: Name, objective: Name) -> Deck
        ensures { result ≡ new_deck name objective }
    {
        Deck {
            name,
            objective,
            sense: Sense::Min,
            rows: IndexMap::new(alloc),
            columns: IndexMap::new(alloc),
            constant: Frac::ZERO,
            nonzeros: 0,
        }
    }

    /// The deck's name.
    pub fn name(&self) -> &Name
        ensures { result.now ≡ self.now.name }
    {
        &self.name
    }

    /// The objective's name, which no row has.
    pub fn objective(&self) -> &Name
        ensures { result.now ≡ self.now.objective }
    {
        &self.objective
    }

    /// Gives the deck another name.
    pub fn set_name(&mut self, name: Name)
        ensures { self.new ≡ record self.old { name = name } }
    {
        self.name = name;
    }

    /// Gives the objective another name, which no row has.
    pub fn set_objective(&mut self, name: Name)
        requires { find_row self.old name ≡ None }
        ensures { self.new ≡ record self.old { objective = name } }
    {
        self.objective = name;
    }

    /// Whether the least or the greatest objective is sought.
    pub fn sense(&self) -> Sense
        ensures { result ≡ self.now.sense }
    {
        self.sense
    }

    /// Sets whether the least or the greatest objective is sought.
    pub fn set_sense(&mut self, sense: Sense)
        ensures { self.new ≡ with_sense self.old sense }
    {
        self.sense = sense;
    }

    /// How many rows there are, the objective not counted.
    pub fn rows(&self) -> usize
        ensures count { result ≡ length self.now.rows }
        ensures few { result ≤ MAX_ROWS }
        ensures named { HasNamedRows self.now }
        ensures deck { IsDeck self.now }
    {
        self.rows.len()
    }

    /// How many columns there are.
    pub fn columns(&self) -> usize
        ensures count { result ≡ length self.now.columns }
        ensures few { result ≤ MAX_COLUMNS }
        ensures named { HasNamedColumns self.now }
        ensures deck { IsDeck self.now }
    {
        self.columns.len()
    }

    /// How many entries and costs are not 0.
    pub fn entries(&self) -> usize
        ensures { result ≡ entry_count self.now }
    {
        self.nonzeros
    }

    /// The name of a row.
    pub fn row_name(&self, row: usize) -> &Name
        requires { row < length self.now.rows }
        ensures { result.now ≡ (row_at self.now row).name }
    {
        self.rows.get_index(row).unwrap().0
    }

    /// The kind of a row.
    pub fn row_kind(&self, row: usize) -> RowKind
        requires { row < length self.now.rows }
        ensures { result ≡ (row_at self.now row).kind }
    {
        self.rows[row].kind
    }

    /// The right side of a row.
    pub fn right(&self, row: usize) -> Frac
        requires { row < length self.now.rows }
        ensures { result ≡ (row_at self.now row).right }
    {
        self.rows[row].right
    }

    /// The range of a row, where one was set.
    pub fn range(&self, row: usize) -> Option<Frac>
        requires { row < length self.now.rows }
        ensures { result ≡ (row_at self.now row).range }
    {
        self.rows[row].range
    }

    /// The name of a column.
    pub fn column_name(&self, column: usize) -> &Name
        requires { column < length self.now.columns }
        ensures { result.now ≡ (column_at self.now column).name }
    {
        self.columns.get_index(column).unwrap().0
    }

    /// The cost of a column.
    pub fn cost(&self, column: usize) -> Frac
        requires { column < length self.now.columns }
        ensures { result ≡ (column_at self.now column).cost }
    {
        self.columns[column].cost
    }

    /// The lower and the upper end of a column.
    pub fn bounds(&self, column: usize) -> (End, End)
        requires { column < length self.now.columns }
        ensures { result ≡ ends_of (column_at self.now column).bounds }
    {
        let data = &self.columns[column];
        (End::lower(data.lower), End::upper(data.upper))
    }

    /// The entries of a column by their rows, none of them 0. The sparse column is as long as there are rows.
    pub fn column(&self, column: usize) -> &SparseCol<Frac>
        requires { column < length self.now.columns }
        ensures { result.now ≡ record { length = length self.now.rows; pairs = (column_at self.now column).entries } }
    {
        &self.columns[column].entries
    }

    /// The constant of the objective.
    pub fn constant(&self) -> Frac
        ensures { result ≡ self.now.constant }
    {
        self.constant
    }

    /// The index of the row of this name. The objective is no row.
    pub fn find_row(&self, name: &Name) -> Option<usize>
        ensures { result ≡ find_row self.now name.now }
    {
        self.rows.get_index_of(name)
    }

    /// The index of the column of this name.
    pub fn find_column(&self, name: &Name) -> Option<usize>
        ensures { result ≡ find_column self.now name.now }
    {
        self.columns.get_index_of(name)
    }

    // Whether a row or the objective has this name.
    fn has_row_name(&self, name: &Name) -> bool
        ensures { result ≡ is_row_name self.now name.now }
    {
        self.objective == *name || self.find_row(name).is_some()
    }

    // Whether a column has an entry in a row.
    fn has_entry(&self, column: usize, row: usize) -> bool
        requires { column < length self.now.columns }
        ensures { result ≡ has_entry (column_at self.now column).entries row }
    {
        self.column(column).get(row).is_some()
    }

    /// Adds a row with the right side 0 and no range, and answers its index. It asks that there is no column yet.
    ///
    /// `Repeated` comes exactly where a row or the objective has the name.
    #[tactic(auto, using(exact_frac::specs::Constants::constants))]
    pub fn add_row(&mut self, name: Name, kind: RowKind) -> Result<usize, EditFault>
        requires no_column { length self.old.columns ≡ 0 }
        requires room { length self.old.rows < MAX_ROWS }
        ensures index { IfOk result (λ i. i ≡ length self.old.rows) }
        ensures ok { OnOk result (self.new ≡ with_row self.old name kind) }
        ensures repeated { IsErrOf result EditFault.Repeated ↔ IsTrue (is_row_name self.old name) }
        ensures err { OnErr result (self.new ≡ self.old) }
    {
        if self.has_row_name(&name) {
            return Err(EditFault::Repeated);
        }
        let index = self.rows.len();
        let data = RowData {
            kind,
            right: Frac::ZERO,
            range: None,
        };
        self.rows.insert(name, data)?;
        Ok(index)
    }

    /// Adds a column with the cost 0, no entry and the bounds from 0 up, and answers its index.
    ///
    /// `Repeated` comes exactly where a column has the name.
    #[tactic(auto, using(exact_frac::specs::Constants::constants))]
    pub fn add_column(&mut self, name: Name) -> Result<usize, EditFault>
        requires { length self.old.columns < MAX_COLUMNS }
        ensures index { IfOk result (λ i. i ≡ length self.old.columns) }
        ensures ok { OnOk result (self.new ≡ with_column self.old name) }
        ensures repeated { IsErrOf result EditFault.Repeated ↔ IsTrue (is_column_name self.old name) }
        ensures err { OnErr result (self.new ≡ self.old) }
    {
        if self.find_column(&name).is_some() {
            return Err(EditFault::Repeated);
        }
        let index = self.columns.len();
        let data = ColumnData {
            cost: Frac::ZERO,
            entries: SparseCol::empty(*self.columns.allocator(), self.rows.len()),
            lower: Some(Frac::ZERO),
            upper: None,
        };
        self.columns.insert(name, data)?;
        Ok(index)
    }

    /// Adds an entry of a column in a row. A value 0 is not kept.
    ///
    /// `Repeated` comes exactly where the column has an entry in the row.
    pub fn add_entry(&mut self, column: usize, row: usize, value: Frac) -> Result<(), EditFault>
        requires column { column < length self.old.columns }
        requires row { row < length self.old.rows }
        ensures ok { OnOk result (self.new ≡ with_entry self.old column row value) }
        ensures repeated { IsErrOf result EditFault.Repeated ↔ IsTrue (has_entry (column_at self.old column).entries row) }
        ensures err { OnErr result (self.new ≡ self.old) }
    {
        if self.has_entry(column, row) {
            return Err(EditFault::Repeated);
        }
        if !value.is_zero() {
            self.insert_entry(column, row, value)?;
        }
        Ok(())
    }

    // Puts in an entry that is not 0 and not there.
    fn insert_entry(&mut self, column: usize, row: usize, value: Frac) -> Result<(), Memory>
        requires column { column < length self.old.columns }
        requires row { row < length self.old.rows }
        requires absent { has_entry (column_at self.old column).entries row ≡ false }
        requires nonzero { value ≢ zero_ℚ }
        ensures ok { OnOk result (self.new ≡ with_entry self.old column row value) }
        ensures err { OnErr result (self.new ≡ self.old) }
    {
        self.columns[column].entries.insert(row, value)?;
        self.nonzeros += 1;
        Ok(())
    }

    /// Sets the cost of a column.
    pub fn set_cost(&mut self, column: usize, value: Frac)
        requires { column < length self.old.columns }
        ensures { self.new ≡ with_cost self.old column value }
    {
        let data = &mut self.columns[column];
        let before = count(data.cost);
        data.cost = value;
        self.nonzeros = self.nonzeros - before + count(value);
    }

    /// Sets the lower and the upper end of a column. It asks that the lower end is not above the upper one.
    pub fn set_bounds(&mut self, column: usize, lower: End, upper: End)
        requires column { column < length self.old.columns }
        requires lower { lower ≢ End.Plus }
        requires upper { upper ≢ End.Minus }
        requires uncrossed { IsUncrossed (interval lower upper) }
        ensures { self.new ≡ with_bounds self.old column (interval lower upper) }
    {
        let data = &mut self.columns[column];
        data.lower = lower.finite();
        data.upper = upper.finite();
    }

    /// Sets the right side of a row.
    pub fn set_right(&mut self, row: usize, value: Frac)
        requires { row < length self.old.rows }
        ensures { self.new ≡ with_right self.old row value }
    {
        self.rows[row].right = value;
    }

    /// Sets the range of a row.
    pub fn set_range(&mut self, row: usize, value: Frac)
        requires { row < length self.old.rows }
        ensures { self.new ≡ with_range self.old row value }
    {
        self.rows[row].range = Some(value);
    }

    /// Sets the constant of the objective.
    pub fn set_constant(&mut self, value: Frac)
        ensures { self.new ≡ with_constant self.old value }
    {
        self.constant = value;
    }
}

// 0 for the number 0, and 1 for any other.
fn count(value: Frac) -> usize
    ensures { result ≡ one_unless_zero value }
{
    if value.is_zero() { 0 } else { 1 }
}
