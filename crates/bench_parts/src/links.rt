// The search for pivots, and a run of all calls of `cross_links`. The matrix has up to five entries a column, and pivot after pivot is taken until no
// entry is left: the entry of least cost, then least row, then least column. `least` and `eliminate` ask `cross_links` for it, `scan` looks at every
// entry, and `load` takes none. The row and the column of a pivot are removed; before that `eliminate` works the row into the others of the column: it
// changes entries, puts them in and cancels them.
//
// In a `triangular` matrix nearly all columns have no entry before their diagonal, with the rows in another order, as bases of linear programs are: most
// pivots cost nothing. `bench/links_peer.py` says what `eliminate` prints, by plain lists.
ghost use Rattle.std.specs.Prelude.{◌<◌, ◌^◌};

use crate::draws::Checksum;
use crate::links::draws::{Shape, columns};
use crate::links::search::{Search, take};
use cross_links::Cross;
use no_memory::Memory;
use std::alloc::Global;

mod draws;
mod eliminate;
mod scan;
mod search;

/// What to do, and with which matrix.
#[derive(Clone, Copy)]
pub(crate) struct Job {
    search: Search,
    shape: Shape,
    size: u16,
}

impl Job {
    /// What three words name, where they name all of it.
    pub(crate) fn named(search: &str, shape: &str, size: &str) -> Option<Job> {
        Some(Job {
            search: Search::named(search)?,
            shape: Shape::named(shape)?,
            size: size.parse::<u16>().ok()?,
        })
    }

    /// Draws the matrix, and takes pivots until none is left: how many there were.
    fn taken(self, alloc: Global, checksum: &mut Checksum) -> Result<usize, Memory> {
        let size = self.size as usize;
        let columns = columns(alloc, self.shape, size)?;
        let mut cross = Cross::load(alloc, size, &columns)?;
        let mut pivots = 0;
        for _ in 0..size {
            let Some(link) = self.search.pivot(&cross, size) else {
                break;
            };
            let (r, c) = take(alloc, self.search, &mut cross, link, checksum)?;
            checksum.fold(r as u64);
            checksum.fold(c as u64);
            pivots += 1;
        }
        Ok(pivots)
    }

    /// How many pivots there were, and a checksum of their places; with `eliminate` of the entries of their rows and columns too.
    pub(crate) fn text(self, alloc: Global) -> Option<String> {
        let mut checksum = Checksum::new();
        let pivots = self.taken(alloc, &mut checksum).ok()?;
        let sum = checksum.value();
        format!(in alloc; "{pivots} pivots, checksum {sum:016x}\n").ok()
    }
}
