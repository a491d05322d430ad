// The columns of the matrix, drawn from a fixed seed.
ghost use Rattle.std.specs.Prelude.{◌≡◌, ◌<◌, ◌≤◌, ◌^◌, IfOk, length};
ghost use Rattle.std.specs.List.{All};

use crate::draws::Draws;
use exact_frac::Frac;
use no_memory::Memory;
use sparse_cols::SparseCol;
use std::alloc::Global;

/// How many entries a column gets, where it has as many rows.
const ENTRIES: usize = 5;

/// How many rows are drawn for a column at most, with those that are drawn again.
const DRAWS: u32 = 64;

/// By how much the rows of a triangular matrix are moved apart: a prime that divides none of the sizes that are measured.
const APART: usize = 7919;

/// Where the entries of a column stand.
#[derive(Clone, Copy)]
pub(crate) enum Shape {
    /// In any row.
    Drawn,
    /// Up to the diagonal, but in every sixteenth column in any row, with the rows in another order.
    Triangular,
}

impl Shape {
    /// The shape of that name.
    pub(crate) fn named(word: &str) -> Option<Shape> {
        match word {
            "drawn" => Some(Shape::Drawn),
            "triangular" => Some(Shape::Triangular),
            _ => None,
        }
    }

    // Below which row the entries of column `c` are drawn.
    fn bound(self, c: usize, size: usize) -> usize
        requires { c < size }
        ensures some { 0 < result }
        ensures within { result ≤ size }
    {
        match self {
            Shape::Triangular if c % 16 > 0 => c + 1,
            _ => size,
        }
    }

    // Where row `r` of the drawing stands.
    fn place(self, r: usize, size: usize) -> usize
        requires row { r < size }
        requires small { size < 2 ^ 16 }
        ensures { result < size }
    {
        match self {
            Shape::Drawn => r,
            Shape::Triangular => r * APART % size,
        }
    }
}

/// The columns of a matrix, drawn one after another.
#[derive(Drop)]
struct Drawing {
    draws: Draws,
}

impl Drawing {
    /// The next value, an integer from 1 to 9.
    fn value(&mut self) -> Frac {
        Frac::of((self.draws.word() % 9) as i128 + 1, 1)
    }

    /// Column `c`. Its diagonal is drawn first in a triangular matrix.
    fn column(
        &mut self,
        alloc: Global,
        shape: Shape,
        c: usize,
        size: usize,
    ) -> Result<SparseCol<Frac>, Memory>
        requires col { c < size }
        requires small { size < 2 ^ 16 }
        ensures { IfOk result (λ column. column.length ≡ size) }
    {
        let mut column = SparseCol::empty(alloc, size);
        let bound = shape.bound(c, size);
        for _ in 0..DRAWS {
            let drawn = if column.count() == 0 && bound < size {
                c
            } else {
                self.draws.below(bound)
            };
            let r = shape.place(drawn, size);
            if column.count() < ENTRIES && column.get(r).is_none() {
                column.insert(r, self.value())?;
            }
        }
        Ok(column)
    }
}

/// The columns of the matrix of that size.
pub(crate) fn columns(
    alloc: Global,
    shape: Shape,
    size: usize,
) -> Result<Vec<SparseCol<Frac>>, Memory>
    requires small { size < 2 ^ 16 }
    ensures columns { IfOk result (λ columns. length columns.items ≡ size) }
    ensures rows { IfOk result (λ columns. All (λ column. column.length ≡ size) columns.items) }
{
    let mut drawn = Drawing {
        draws: Draws::new(),
    };
    let mut columns = Vec::with_capacity(alloc, size)?;
    for c in 0..size {
        columns.push(drawn.column(alloc, shape, c, size)?)?;
    }
    Ok(columns)
}
