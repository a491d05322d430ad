// The basis, the columns that may enter and the rows of costs, drawn from a fixed seed.
ghost use Rattle.std.specs.Prelude.{◌≡◌, ◌<◌, ◌≤◌, ◌^◌, IfSome, length};
ghost use Rattle.std.specs.List.{All};
ghost use Rattle.sparse_cols.specs.Sparse.{IsRising};
ghost use Rattle.markowitz_lu.specs.Columns.{HasNoZero};

use crate::draws::Draws;
use exact_frac::Frac;
use sparse_cols::SparseCol;
use std::alloc::Global;

/// How many rows a period of a staircase has.
const PERIOD: usize = 50;

/// Where the entries of a basis stand.
#[derive(Clone, Copy)]
pub(crate) enum Shape {
    /// In any row.
    Drawn,
    /// In the rows of the column's period and of the next.
    Stair,
    /// In the rows of an arc's source and sink.
    Transport,
}

impl Shape {
    /// The shape of that name.
    pub(crate) fn named(word: &str) -> Option<Shape> {
        match word {
            "drawn" => Some(Shape::Drawn),
            "stair" => Some(Shape::Stair),
            "transport" => Some(Shape::Transport),
            _ => None,
        }
    }
}

/// A column that may enter, with the row that it is drawn for.
#[derive(Drop)]
pub(crate) struct Entering {
    pub row: usize,
    pub column: SparseCol<Frac>,
}

/// Columns and rows of that shape and size, drawn one after another.
#[derive(Drop)]
pub(crate) struct Drawing {
    pub draws: Draws,
    pub shape: Shape,
    pub size: usize,
}

// Puts a value into a row that there is and that has none.
fn put(items: &mut [Frac], row: usize, value: Frac) {
    if let Some(item) = items.get_mut(row) {
        if item.is_zero() {
            *item = value;
        }
    }
}

/// A column by its items that are not 0.
pub(crate) fn column_of(alloc: Global, items: &[Frac]) -> Option<SparseCol<Frac>>
    ensures rows { IfSome result (λ column. column.length ≡ length items.now) }
    ensures rising { IfSome result (λ column. IsRising (length items.now) 0 column.pairs) }
    ensures stored { IfSome result HasNoZero }
{
    let mut pairs = Vec::new(alloc);
    for (i, item) in items.iter().enumerate() {
        if !item.is_zero() {
            pairs.push((i, *item)).ok()?;
        }
    }
    match SparseCol::from_pairs(items.len(), pairs) {
        Ok(column) => Some(column),
        Err(_fault) => None,
    }
}

impl Drawing {
    // -1, 0 or 1.
    fn sign(&mut self) -> Frac
        ensures { self.new.size ≡ self.old.size }
    {
        Frac::of(self.draws.below(3) as i128 - 1, 1)
    }

    // 3 in row `r`, and up to two of 1 or -1.
    fn sparse(&mut self, items: &mut [Frac], r: usize)
        requires row { r < 2 ^ 17 }
        requires size { self.old.size < 2 ^ 16 }
        ensures size { self.new.size ≡ self.old.size }
    {
        let (first, second, wide) = match self.shape {
            Shape::Stair => (r / PERIOD * PERIOD, r / PERIOD * PERIOD + PERIOD, PERIOD),
            _ => (0, 0, self.size + 1),
        };
        put(items, r, Frac::of(3, 1));
        let row = first + self.draws.below(wide);
        put(items, row, self.sign());
        let other = second + self.draws.below(wide);
        put(items, other, self.sign());
    }

    // An arc from a source to a sink.
    fn arc(&self, items: &mut [Frac], source: usize, sink: usize)
        requires sink { sink < 2 ^ 17 }
        requires size { self.now.size < 2 ^ 16 }
    {
        put(items, source, Frac::of(1, 1));
        put(items, self.size / 2 + sink, Frac::of(1, 1));
    }

    // The arc by which node `c` joins the tree.
    fn joining(&mut self, items: &mut [Frac], c: usize)
        requires node { c < 2 ^ 16 }
        requires size { self.old.size < 2 ^ 16 }
        ensures size { self.new.size ≡ self.old.size }
    {
        if c == 0 {
            put(items, 0, Frac::of(1, 1));
        } else if c % 2 == 1 {
            let source = self.draws.below(c / 2 + 1);
            self.arc(items, source, c / 2);
        } else {
            let sink = self.draws.below(c / 2);
            self.arc(items, c / 2, sink);
        }
    }

    // Column `c` of the basis.
    fn basic(&mut self, items: &mut [Frac], c: usize)
        requires column { c < 2 ^ 16 }
        requires size { self.old.size < 2 ^ 16 }
        ensures size { self.new.size ≡ self.old.size }
    {
        match self.shape {
            Shape::Transport => self.joining(items, c),
            _ if c % 2 == 0 => put(items, c, Frac::of(1, 1)),
            _ => self.sparse(items, c),
        }
    }

    // A column that may enter in the place of one that is not a unit matrix's. Answers the row that it is drawn for.
    fn enter(&mut self, items: &mut [Frac]) -> usize
        requires size { self.old.size < 2 ^ 16 }
        ensures size { self.new.size ≡ self.old.size }
    {
        let row = self.draws.below(self.size / 2 + 1) * 2 + 1;
        match self.shape {
            Shape::Transport => {
                let sink = self.draws.below(self.size / 2 + 1);
                self.arc(items, row / 2, sink);
            }
            _ => self.sparse(items, row),
        }
        row
    }

    /// The basis.
    pub(crate) fn basis(&mut self, alloc: Global) -> Option<Vec<SparseCol<Frac>>>
        requires size { self.old.size < 2 ^ 16 }
        ensures size { self.new.size ≡ self.old.size }
        ensures columns { IfSome result (λ basis. length basis.items ≡ self.old.size) }
        ensures rows { IfSome result (λ basis. All (λ column. column.length ≡ self.old.size) basis.items) }
        ensures stored { IfSome result (λ basis. All HasNoZero basis.items) }
    {
        let mut basis = Vec::new(alloc);
        for c in 0..self.size {
            let mut items = zeros(alloc, self.size)?;
            self.basic(&mut items, c);
            basis.push(column_of(alloc, &items)?).ok()?;
        }
        Some(basis)
    }

    /// So many columns that may enter.
    pub(crate) fn entering(&mut self, alloc: Global, count: usize) -> Option<Vec<Entering>>
        requires size { self.old.size < 2 ^ 16 }
        ensures size { self.new.size ≡ self.old.size }
        ensures rising { IfSome result (λ all. All (λ e. IsRising self.old.size 0 e.column.pairs) all.items) }
    {
        let mut all = Vec::new(alloc);
        for _ in 0..count {
            let mut items = zeros(alloc, self.size)?;
            let row = self.enter(&mut items);
            let column = column_of(alloc, &items)?;
            all.push(Entering { row, column }).ok()?;
        }
        Some(all)
    }

    // A row of costs, half of which are 0.
    fn row(&mut self, alloc: Global) -> Option<Vec<Frac>>
        ensures size { self.new.size ≡ self.old.size }
        ensures row { IfSome result (λ items. length items.items ≡ self.old.size) }
    {
        let mut items = zeros(alloc, self.size)?;
        for item in items.iter_mut() {
            let drawn = self.draws.below(10);
            *item = Frac::of(if drawn < 5 { 0 } else { drawn as i128 }, 1);
        }
        Some(items)
    }

    /// So many rows of costs.
    pub(crate) fn costs(&mut self, alloc: Global, count: usize) -> Option<Vec<Vec<Frac>>>
        ensures size { self.new.size ≡ self.old.size }
        ensures rows { IfSome result (λ all. All (λ row. length row.items ≡ self.old.size) all.items) }
    {
        let mut all = Vec::new(alloc);
        for _ in 0..count {
            let row = self.row(alloc)?;
            all.push(row).ok()?;
        }
        Some(all)
    }
}

/// So many numbers, all 0.
pub(crate) fn zeros(alloc: Global, count: usize) -> Option<Vec<Frac>>
    ensures { IfSome result (λ items. length items.items ≡ count) }
{
    vec![in alloc; Frac::of(0, 1); count].ok()
}
