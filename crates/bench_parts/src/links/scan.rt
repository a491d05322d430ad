// The search for the entry of least cost by a scan of all entries.
ghost use Rattle.std.specs.Prelude.{◌≡◌, ◌<◌, ◌⊎◌, IfSome, Some};
ghost use Rattle.cross_links.specs.Matrix.{IsLink, IsMatrix};

use cross_links::Cross;

/// The entry of least cost, then least row, then least column.
pub(crate) fn scan(cross: &Cross, size: usize) -> Option<u32>
    requires size { cross.now.size ≡ size }
    requires matrix { IsMatrix cross.now }
    ensures { IfSome result (IsLink cross.now) }
{
    let mut best = None;
    for r in 0..size {
        best = best_in_row(cross, r, best);
    }
    let (_, link) = best?;
    Some(link)
}

// The best of the entry that was found and of those in row `r`.
fn best_in_row(cross: &Cross, r: usize, mut best: Option<(usize, u32)>) -> Option<(usize, u32)>
    requires row { r < cross.now.size }
    requires matrix { IsMatrix cross.now }
    requires link { IfSome best (λ p. IsLink cross.now p.1) }
    ensures { IfSome result (λ p. IsLink cross.now p.1) }
{
    let mut at = cross.row_first(r);
    for _ in 0..cross.row_count(r) {
        let Some(link) = at else { break };
        best = better(best, (cost(cross, link), link));
        at = cross.row_next(link);
    }
    best
}

// The one that costs less; the one that was found where both cost the same.
fn better(best: Option<(usize, u32)>, other: (usize, u32)) -> Option<(usize, u32)>
    ensures { (result ≡ best) ⊎ (result ≡ Some other) }
{
    match best {
        Some((found, _)) if found <= other.0 => best,
        _ => Some(other),
    }
}

// How many fills the entry makes at most as pivot.
fn cost(cross: &Cross, link: u32) -> usize
    requires link { IsLink cross.now link }
    requires matrix { IsMatrix cross.now }
{
    let (r, c, _) = cross.entry(link);
    (cross.row_count(r) - 1) * (cross.col_count(c) - 1)
}
