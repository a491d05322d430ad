// How pivots are sought, and how they are taken.
ghost use Rattle.std.specs.Prelude.{◌≡◌, IfSome};
ghost use Rattle.cross_links.specs.Matrix.{IsLink, IsMatrix};

use crate::draws::Checksum;
use crate::links::eliminate::eliminate;
use crate::links::scan::scan;
use cross_links::Cross;
use no_memory::Memory;
use std::alloc::Global;

/// A way to seek the entry of least cost.
#[derive(Clone, Copy)]
pub(crate) enum Search {
    /// By the buckets of `cross_links`.
    Least,
    /// By a scan of all entries.
    Scan,
    /// None is sought.
    Load,
    /// By the buckets, with an elimination after each.
    Eliminate,
}

impl Search {
    /// The search of that name.
    pub(crate) fn named(word: &str) -> Option<Search> {
        match word {
            "least" => Some(Search::Least),
            "scan" => Some(Search::Scan),
            "load" => Some(Search::Load),
            "eliminate" => Some(Search::Eliminate),
            _ => None,
        }
    }

    /// The next pivot.
    pub(crate) fn pivot(self, cross: &Cross, size: usize) -> Option<u32>
        requires size { cross.now.size ≡ size }
        requires matrix { IsMatrix cross.now }
        ensures { IfSome result (IsLink cross.now) }
    {
        match self {
            Search::Least | Search::Eliminate => cross.least(),
            Search::Scan => scan(cross, size),
            Search::Load => None,
        }
    }
}

/// Takes a pivot out, and answers its row and its column.
pub(crate) fn take(
    alloc: Global,
    search: Search,
    cross: &mut Cross,
    link: u32,
    checksum: &mut Checksum,
) -> Result<(usize, usize), Memory>
    requires link { IsLink cross.old link }
    requires matrix { IsMatrix cross.old }
    ensures size { cross.new.size ≡ cross.old.size }
    ensures matrix { IsMatrix cross.new }
{
    match search {
        Search::Eliminate => eliminate(alloc, cross, link, checksum),
        _ => Ok(remove(cross, link)),
    }
}

// Removes the row and the column of an entry, and answers them.
fn remove(cross: &mut Cross, link: u32) -> (usize, usize)
    requires link { IsLink cross.old link }
    requires matrix { IsMatrix cross.old }
    ensures size { cross.new.size ≡ cross.old.size }
    ensures matrix { IsMatrix cross.new }
{
    let (r, c, _) = cross.entry(link);
    cross.remove_row(r);
    cross.remove_col(c);
    (r, c)
}
