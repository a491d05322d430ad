//! What a basis says of an outcome.
ghost use Rattle.std.specs.Prelude.{◌≡◌, ◌+◌, ◌<◌, ℕ, false, ◌&&◌, ◌||◌, length, replicate, not, IfOk};
ghost use Rattle.std.specs.List.{All, list_all};
ghost use Rattle.deck_model.specs.Outcome.{HasLengthsOf, outcome_of};
ghost use Rattle.exact_frac.specs.Count.{unfit_after};
ghost use Rattle.exact_frac.specs.Settles.{Settles};
ghost use Rattle.lp_model.specs.Deck.{column as column_at};
ghost use Rattle.cert_check.specs.Inner.Groups.{FirstIs, Marks, basic_by, is_marked, marked_walk, rest_by, sum_by, unfit_by};
ghost use Rattle.cert_check.specs.Items.{is_at_lower, is_at_rest, is_distinct, zero_where};
ghost use Rattle.cert_check.specs.Judged.{Judges, unfit_after_check};
ghost use Rattle.cert_check.specs.Proved.{IsWithin};
ghost use Rattle.cert_check.specs.Walk.{basis_walk, each, first_stop};

use crate::ends::{column_ends, is_at_end};
use crate::sums::{reduced, weighted};
use crate::verdict::{CheckFault, Rule, Stop, Verdict};
use crate::walk::{judge, verdict};
use deck_model::{Basis, Deck, Outcome};
use exact_frac::{Arith, Frac, Unfit};
use std::alloc::{AllocError, Global};

/// Which number of a basic column is 0: its reduced cost, or its combination by a Farkas row.
#[derive(Clone, Copy)]
pub(crate) enum Priced {
    ByCost,
    ByWeight,
}

/// Whether a basis agrees with an outcome: that no column stands in two positions and none that is told at its upper end is
/// basic, then where the columns of a point stand, then that basic columns cost nothing.
pub(crate) fn told<A: Arith>(
    alloc: Global,
    deck: &Deck,
    outcome: &Outcome,
    basis: &Basis,
    arith: &mut A,
) -> Result<Verdict, CheckFault>
    requires lengths { HasLengthsOf deck.now (outcome_of outcome.now) }
    requires within { IsWithin deck.now basis.now }
    ensures judged { Judges (A.width arith.old) (basis_walk deck.now (outcome_of outcome.now) basis.now) result }
    ensures width { A.width arith.new ≡ A.width arith.old }
    ensures unfit { A.unfit_count arith.new ≡ unfit_after_check (A.unfit_count arith.old) result }
{
    let count = deck.columns() + deck.rows() + deck.rows();
    let (once, basic) = marks(alloc, count, basis.basic.as_slice())?;
    let (_, upper) = marks(alloc, count, basis.upper.as_slice())?;
    verdict(by_marks(deck, outcome, basis, once, &basic, &upper, arith))
}

// The items of a basis, by its marks and whether no basic column stands twice.
fn by_marks<A: Arith>(
    deck: &Deck,
    outcome: &Outcome,
    basis: &Basis,
    once: bool,
    basic: &[bool],
    upper: &[bool],
    arith: &mut A,
) -> Result<(), Stop>
    requires lengths { HasLengthsOf deck.now (outcome_of outcome.now) }
    requires within { IsWithin deck.now basis.now }
    requires once { once ≡ is_distinct basis.now.basic }
    requires basic { Marks (length deck.now.columns + length deck.now.rows + length deck.now.rows) basis.now.basic basic.now }
    requires upper { Marks (length deck.now.columns + length deck.now.rows + length deck.now.rows) basis.now.upper upper.now }
    ensures first { FirstIs (first_stop (A.width arith.old) (basis_walk deck.now (outcome_of outcome.now) basis.now)) result }
    ensures width { A.width arith.new ≡ A.width arith.old }
    ensures unfit { A.unfit_count arith.new ≡ unfit_by (A.unfit_count arith.old) result }
{
    let others = basis.upper.as_slice();
    if !is_sound(once, others, basic) {
        return Err(Stop::Broken(Rule::Basis));
    }
    agrees(deck, outcome, basic, upper, arith)
}

// The marks of a list among so many columns, and whether no number stands twice in it.
fn marks(alloc: Global, count: usize, list: &[u32]) -> Result<(bool, Vec<bool>), AllocError>
    requires { All (λ j. j < count) list.now }
    ensures once { IfOk result (λ r. r.0 ≡ is_distinct list.now) }
    ensures marks { IfOk result (λ r. Marks count list.now r.1.items) }
{
    let mut marks = vec![in alloc; false; count]?;
    let once = mark(list, &mut marks);
    Ok((once, marks))
}

// Marks each number of a list, and says whether none stands twice.
fn mark(list: &[u32], marks: &mut [bool]) -> bool
    requires within { All (λ j. j < length marks.old) list.now }
    requires none { marks.old ≡ replicate (length marks.old) false }
    ensures once { result ≡ is_distinct list.now }
    ensures marks { Marks (length marks.old) list.now marks.new }
{
    let mut once = true;
    for k in 0..list.len() {
        let j = list[k] as usize;
        once = and_not(once, marks[j]);
        marks[j] = true;
    }
    once
}

// Whether the one holds and the other does not.
fn and_not(holds: bool, fails: bool) -> bool
    ensures { result ≡ (holds && not fails) }
{
    holds && !fails
}

// Whether no basic column stands twice, and none of the others that are listed is marked as basic.
fn is_sound(once: bool, others: &[u32], basic: &[bool]) -> bool
    requires { All (λ j. j < length basic.now) others.now }
    ensures { result ≡ (once && list_all (λ j. not (is_marked basic.now j)) others.now) }
{
    once && is_apart(others, basic)
}

// Whether no number of a list is marked.
fn is_apart(list: &[u32], marks: &[bool]) -> bool
    requires { All (λ j. j < length marks.now) list.now }
    ensures { result ≡ list_all (λ j. not (is_marked marks.now j)) list.now }
{
    for k in 0..list.len() {
        if marks[list[k] as usize] {
            return false;
        }
    }
    true
}

// Where the columns of a point stand, and that basic columns cost nothing.
fn agrees<A: Arith>(
    deck: &Deck,
    outcome: &Outcome,
    basic: &[bool],
    upper: &[bool],
    arith: &mut A,
) -> Result<(), Stop>
    requires lengths { HasLengthsOf deck.now (outcome_of outcome.now) }
    requires basic { length basic.now ≡ length deck.now.columns + length deck.now.rows + length deck.now.rows }
    requires upper { length upper.now ≡ length deck.now.columns + length deck.now.rows + length deck.now.rows }
    ensures first { FirstIs (first_stop (A.width arith.old) (marked_walk deck.now (outcome_of outcome.now) basic.now upper.now)) result }
    ensures width { A.width arith.new ≡ A.width arith.old }
    ensures unfit { A.unfit_count arith.new ≡ unfit_by (A.unfit_count arith.old) result }
{
    match outcome {
        Outcome::Optimal { x, y, .. } => {
            rests(deck, x.as_slice(), basic, upper)?;
            basics(deck, Priced::ByCost, y.as_slice(), basic, arith)
        }
        Outcome::Infeasible { y } => basics(deck, Priced::ByWeight, y.as_slice(), basic, arith),
        Outcome::Unbounded { x, .. } => rests(deck, x.as_slice(), basic, upper),
    }
}

// Each column that is not basic has its value where it is told to stand.
fn rests(deck: &Deck, x: &[Frac], basic: &[bool], upper: &[bool]) -> Result<(), Stop>
    requires given { length x.now ≡ length deck.now.columns }
    requires basic { length basic.now ≡ length deck.now.columns + length deck.now.rows + length deck.now.rows }
    requires upper { length upper.now ≡ length deck.now.columns + length deck.now.rows + length deck.now.rows }
    ensures first { (w : ℕ) → FirstIs (first_stop w (each Rule.Rest (rest_by deck.now basic.now upper.now x.now) (length deck.now.columns))) result }
    ensures no_sum { (n : ℕ) → unfit_by n result ≡ n }
{
    for j in 0..deck.columns() {
        if !stands(deck, j, basic[j], upper[j], x[j]) {
            return Err(Stop::Broken(Rule::Rest(j as u32)));
        }
    }
    Ok(())
}

// Whether a column is basic, or a number is where it is told to stand.
fn stands(deck: &Deck, column: usize, basic: bool, told: bool, v: Frac) -> bool
    requires { column < length deck.now.columns }
    ensures { result ≡ (basic || is_at_rest (column_at deck.now column).bounds told v) }
{
    basic || is_at_rest(deck, column, told, v)
}

// Whether a number is at the upper end of a column's bounds where it is told there, and else at the lower end, or 0.
fn is_at_rest(deck: &Deck, column: usize, told: bool, v: Frac) -> bool
    requires { column < length deck.now.columns }
    ensures { result ≡ is_at_rest (column_at deck.now column).bounds told v }
{
    let ends = column_ends(deck, column);
    if told {
        is_at_end(ends.upper(), v)
    } else {
        is_at_lower(ends.lower(), v)
    }
}

// Whether a number is at a lower end where that is finite, and else 0.
#[tactic(auto, using(exact_frac::specs::Constants::constants))]
fn is_at_lower(lower: Option<Frac>, v: Frac) -> bool
    ensures { result ≡ is_at_lower lower v }
{
    match lower {
        Some(end) => end == v,
        None => Frac::ZERO == v,
    }
}

// Each basic column costs nothing.
fn basics<A: Arith>(
    deck: &Deck,
    priced: Priced,
    y: &[Frac],
    basic: &[bool],
    arith: &mut A,
) -> Result<(), Stop>
    requires given { length y.now ≡ length deck.now.rows }
    requires basic { length basic.now ≡ length deck.now.columns + length deck.now.rows + length deck.now.rows }
    ensures first { FirstIs (first_stop (A.width arith.old) (each Rule.Basic (basic_by priced deck.now basic.now y.now) (length deck.now.columns))) result }
    ensures width { A.width arith.new ≡ A.width arith.old }
    ensures unfit { A.unfit_count arith.new ≡ unfit_by (A.unfit_count arith.old) result }
{
    for j in 0..deck.columns() {
        let sums = costs_nothing(deck, priced, y, basic[j], j, arith);
        judge(Rule::Basic(j as u32), sums)?;
    }
    Ok(())
}

// Whether a column costs nothing, where that is asked for.
fn costs_nothing<A: Arith>(
    deck: &Deck,
    priced: Priced,
    y: &[Frac],
    asked: bool,
    j: usize,
    arith: &mut A,
) -> Result<bool, Unfit>
    requires column { j < length deck.now.columns }
    requires given { length y.now ≡ length deck.now.rows }
    ensures settled { Settles (A.width arith.old) (zero_where asked (sum_by priced deck.now y.now j)) result }
    ensures width { A.width arith.new ≡ A.width arith.old }
    ensures unfit { A.unfit_count arith.new ≡ unfit_after (A.unfit_count arith.old) result }
{
    if !asked {
        return Ok(true);
    }
    let cost = sum_by(deck, priced, y, j, arith)?;
    Ok(cost.is_zero())
}

// The number of a basic column that is 0.
fn sum_by<A: Arith>(
    deck: &Deck,
    priced: Priced,
    y: &[Frac],
    j: usize,
    arith: &mut A,
) -> Result<Frac, Unfit>
    requires column { j < length deck.now.columns }
    requires given { length y.now ≡ length deck.now.rows }
    ensures settled { Settles (A.width arith.old) (sum_by priced deck.now y.now j) result }
    ensures width { A.width arith.new ≡ A.width arith.old }
    ensures unfit { A.unfit_count arith.new ≡ unfit_after (A.unfit_count arith.old) result }
{
    match priced {
        Priced::ByCost => reduced(deck, y, j, arith),
        Priced::ByWeight => weighted(deck, y, j, arith),
    }
}
