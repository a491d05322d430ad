//! The multipliers of an update.

ghost use Rattle.std.specs.Prelude.{◌≡◌, ℕ, true, ◌+◌, ◌*◌, ◌<◌, ◌≤◌, ◌++◌, [], length, vec_capacity, MatchResult, Some, None};
ghost use Rattle.std.specs.List.{All};
ghost use Rattle.rational.specs.Rational.{ℚ};
ghost use Rattle.rational.specs.Sum.{at};
ghost use Rattle.rational.specs.Worked.{settle};
ghost use Rattle.exact_frac.specs.Count.{unfit_after};
ghost use Rattle.exact_frac.specs.Settles.{Leaves, Settles};
ghost use Rattle.factor_model.specs.Upper.{IsUpper, cell, row_of};
ghost use Rattle.factor_model.specs.Vectors.{stored_pair};
ghost use Rattle.factor_model.specs.Update as update;
ghost use Rattle.factor_model.specs.Update.{behind, less_multiples};
ghost use Rattle.ft_update.specs.Inner.Flagged.{AreFlagged};
ghost use Rattle.upper_form.specs.Flags.{is_flagged};

use exact_frac::{Arith, Frac, Unfit};
use sparse_steps::less_product;
use upper_form::Upper;

// `x` less the product of each multiplier with the entry in its row of a position's column.
fn less_entries<A: Arith>(
    upper: &Upper,
    s: usize,
    x: Frac,
    taken: &[(usize, Frac)],
    arith: &mut A,
) -> Result<Frac, Unfit>
    requires { s < length upper.now.rows }
    ensures settled { Settles (A.width arith.old) (less_multiples (λ i. cell upper.now i s) x taken.now) result }
    ensures width { A.width arith.new ≡ A.width arith.old }
    ensures unfit { A.unfit_count arith.new ≡ unfit_after (A.unfit_count arith.old) result }
    ensures work { A.work_count arith.new ≤ A.work_count arith.old + length taken.now }
{
    let mut rest = x;
    for (row, k) in taken {
        rest = less_product(rest, *k, upper.entry(*row, s), arith)?;
    }
    Ok(rest)
}

// `x` less the product of each multiplier with the item in its row of a vector.
fn less_items<A: Arith>(
    v: &[Frac],
    x: Frac,
    taken: &[(usize, Frac)],
    arith: &mut A,
) -> Result<Frac, Unfit>
    requires { All (λ pair. pair.0 < length v.now) taken.now }
    ensures settled { Settles (A.width arith.old) (less_multiples (at v.now) x taken.now) result }
    ensures width { A.width arith.new ≡ A.width arith.old }
    ensures unfit { A.unfit_count arith.new ≡ unfit_after (A.unfit_count arith.old) result }
    ensures work { A.work_count arith.new ≤ A.work_count arith.old + length taken.now }
{
    let mut rest = x;
    for (row, k) in taken {
        let item = v[*row];
        rest = less_product(rest, *k, item, arith)?;
    }
    Ok(rest)
}

// The multiplier of a position behind, where those of the positions between are known.
fn multiplier<A: Arith>(
    upper: &Upper,
    row: usize,
    s: usize,
    taken: &[(usize, Frac)],
    arith: &mut A,
) -> Result<Frac, Unfit>
    requires { s < length upper.now.rows }
    ensures settled { Settles (A.width arith.old) (update.multiplier upper.now row taken.now s) result }
    ensures width { A.width arith.new ≡ A.width arith.old }
    ensures unfit { A.unfit_count arith.new ≡ unfit_after (A.unfit_count arith.old) result }
    ensures work { A.work_count arith.new ≤ A.work_count arith.old + (1 + length taken.now) }
{
    let entry = upper.entry(row, s);
    let rest = less_entries(upper, s, entry, taken, arith)?;
    if rest.is_zero() {
        return Ok(rest);
    }
    arith.div(rest, upper.diagonal(s))
}

// Keeps a multiplier with its row, which it flags, where it is not 0.
fn keep(taken: &mut Vec<(usize, Frac)>, flags: &mut [bool], row: usize, k: Frac)
    requires space { length taken.old.items < vec_capacity taken.old }
    requires row { row < length flags.old }
    ensures kept { taken.new.items ≡ taken.old.items ++ stored_pair row k }
    ensures room { vec_capacity taken.new ≡ vec_capacity taken.old }
    ensures still { (i : ℕ) → is_flagged flags.old i ≡ true → is_flagged flags.new i ≡ true }
    ensures flagged { AreFlagged flags.old taken.old.items → AreFlagged flags.new taken.new.items }
{
    if !k.is_zero() {
        flags[row] = true;
        taken.push_reserved((row, k));
    }
}

// Adds the multiplier of a position behind. The row and those of the multipliers are flagged: where the position's column
// has an entry in none of them, the multiplier is 0.
fn add_multiplier<A: Arith>(
    upper: &Upper,
    row: usize,
    s: usize,
    taken: &mut Vec<(usize, Frac)>,
    flags: &mut [bool],
    arith: &mut A,
) -> Result<(), Unfit>
    requires position { s < length upper.now.rows }
    requires length { length flags.old ≡ length upper.now.rows }
    requires space { length taken.old.items < vec_capacity taken.old }
    requires row { is_flagged flags.old row ≡ true }
    requires flagged { AreFlagged flags.old taken.old.items }
    ensures settled { MatchResult result
        (λ _. (k : ℚ) × (settle (A.width arith.old) (update.multiplier upper.now row taken.old.items s) ≡ Some k)
        × (taken.new.items ≡ taken.old.items ++ stored_pair (row_of upper.now s) k))
        (λ _. settle (A.width arith.old) (update.multiplier upper.now row taken.old.items s) ≡ None) }
    ensures fewer { length taken.new.items ≤ length taken.old.items + 1 }
    ensures room { vec_capacity taken.new ≡ vec_capacity taken.old }
    ensures still { (i : ℕ) → is_flagged flags.old i ≡ true → is_flagged flags.new i ≡ true }
    ensures flagged { AreFlagged flags.new taken.new.items }
    ensures width { A.width arith.new ≡ A.width arith.old }
    ensures unfit { A.unfit_count arith.new ≡ unfit_after (A.unfit_count arith.old) result }
    ensures work { A.work_count arith.new ≤ A.work_count arith.old + (1 + length taken.old.items) }
{
    if !upper.meets(s, flags) {
        return Ok(());
    }
    let k = multiplier(upper, row, s, taken, arith)?;
    keep(taken, flags, upper.row_of(s), k);
    Ok(())
}

// The multipliers of the positions behind `p`, in their order.
fn multipliers<A: Arith>(
    upper: &Upper,
    p: usize,
    taken: &mut Vec<(usize, Frac)>,
    flags: &mut [bool],
    arith: &mut A,
) -> Result<(), Unfit>
    requires upper { IsUpper (length upper.now.rows) upper.now }
    requires position { p < length upper.now.rows }
    requires length { length flags.old ≡ length upper.now.rows }
    requires none { taken.old.items ≡ [] }
    requires room { length upper.now.rows ≤ vec_capacity taken.old }
    ensures settled { Leaves (A.width arith.old) (update.multipliers upper.now (row_of upper.now p) [] (behind p upper.now.order)) result taken.new.items }
    ensures fewer { length taken.new.items < length upper.now.rows }
    ensures width { A.width arith.new ≡ A.width arith.old }
    ensures unfit { A.unfit_count arith.new ≡ unfit_after (A.unfit_count arith.old) result }
    ensures work { A.work_count arith.new + length upper.now.rows ≤ A.work_count arith.old + length upper.now.rows * length upper.now.rows }
{
    let row = upper.row_of(p);
    flags[row] = true;
    let mut next = upper.order().after(p);
    while let Some(s) = next {
        next = upper.order().after(s);
        add_multiplier(upper, row, s, taken, flags, arith)?;
    }
    Ok(())
}

/// What an update works: the multipliers, in the buffer, and the new diagonal. The flags are used up.
pub(crate) fn reduce<A: Arith>(
    upper: &Upper,
    p: usize,
    spike: &[Frac],
    taken: &mut Vec<(usize, Frac)>,
    flags: &mut [bool],
    arith: &mut A,
) -> Result<Frac, Unfit>
    requires upper { IsUpper (length upper.now.rows) upper.now }
    requires position { p < length upper.now.rows }
    requires length { length spike.now ≡ length upper.now.rows }
    requires flags { length flags.old ≡ length upper.now.rows }
    requires none { taken.old.items ≡ [] }
    requires room { length upper.now.rows ≤ vec_capacity taken.old }
    ensures settled { MatchResult result
        (λ d. settle (A.width arith.old) (update.update upper.now p spike.now) ≡ Some (record { taken = taken.new.items; pivot = d }))
        (λ _. settle (A.width arith.old) (update.update upper.now p spike.now) ≡ None) }
    ensures width { A.width arith.new ≡ A.width arith.old }
    ensures unfit { A.unfit_count arith.new ≡ unfit_after (A.unfit_count arith.old) result }
    ensures work { A.work_count arith.new ≤ A.work_count arith.old + length upper.now.rows * length upper.now.rows }
{
    let row = upper.row_of(p);
    let item = spike[row];
    multipliers(upper, p, taken, flags, arith)?;
    less_items(spike, item, taken, arith)
}
