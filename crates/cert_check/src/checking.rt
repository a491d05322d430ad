//! The verdict on an outcome.
ghost use Rattle.std.specs.Prelude.{◌≡◌, length, IfSome, Some};
ghost use Rattle.std.specs.Option.{option_map};
ghost use Rattle.deck_model.specs.Outcome.{HasLengthsOf, outcome_of};
ghost use Rattle.lp_model.specs.Deck.{IsDeck};
ghost use Rattle.lp_model.specs.Outcome.{infeasible, optimal, unbounded};
ghost use Rattle.cert_check.specs.Inner.Groups.{FirstIs, IsAhead, unfit_by};
ghost use Rattle.cert_check.specs.Judged.{Judges, unfit_after_check};
ghost use Rattle.cert_check.specs.Proved.{IsWithin, Tells};
ghost use Rattle.cert_check.specs.Walk.{first_stop, outcome_walk, point_walk, walk};

use crate::ahead::activities;
use crate::bases::told;
use crate::groups::Group;
use crate::items::{gap, ray_cost, stated_objective};
use crate::verdict::{CheckFault, Rule, Stop, Verdict};
use crate::walk::{each, judge, verdict};
use deck_model::{Basis, Deck, Outcome};
use exact_frac::{Arith, Frac};
use std::alloc::Global;
use std::thread::Threads;

/// Whether the lists of an outcome prove it for a deck, and whether a stated objective is that of the point. The outcome's
/// lists have a number for each column, or for each row.
///
/// The items are walked in order: the columns and the rows of a point, then the objective, the reduced costs and the
/// prices of an optimum, or the columns, the rows and the cost of a ray; of a Farkas row its columns, its logicals and the
/// gap. Where a basis is told, its items follow: the basis itself, then where the columns of a point that are not basic
/// stand, then that basic columns cost nothing. That they are independent is not asked. The numbers of the basis are
/// columns of the deck's equations, of which there are one for each column and two for each row. The first item that does
/// not hold, or whose worked values do not all fit the width, decides. `Yes` proves the outcome. `No` has the rule of the
/// first item that does not hold; each item before it holds. Where a deck has many columns some items are looked at in
/// threads, which end before the call does.
///
/// # Errors
///
/// `Overflow` with the rule of the first item of which a worked value does not fit; each item before it holds. The count
/// of unfit results rises by one just there. `Memory` for want of memory.
pub fn check<R: Threads + Sync, A: Arith>(
    rt: &R,
    alloc: Global,
    deck: &Deck,
    outcome: &Outcome,
    basis: Option<&Basis>,
    arith: &mut A,
) -> Result<Verdict, CheckFault>
    requires lengths { HasLengthsOf deck.now (outcome_of outcome.now) }
    requires within { IfSome basis (λ b. IsWithin deck.now b.now) }
    ensures judged { Judges (A.width arith.old) (walk deck.now (outcome_of outcome.now) (option_map (λ b. b.now) basis.entry)) result }
    ensures tells { Tells (A.width arith.old) deck.now (outcome_of outcome.now) (option_map (λ b. b.now) basis.entry) result }
    ensures width { A.width arith.new ≡ A.width arith.old }
    ensures unfit { A.unfit_count arith.new ≡ unfit_after_check (A.unfit_count arith.old) result }
{
    match basis {
        None => walked(rt, alloc, deck, outcome, arith),
        Some(basis) => with_basis(rt, alloc, deck, outcome, basis, arith),
    }
}

// What the walk of an outcome and of a basis comes to.
fn with_basis<R: Threads + Sync, A: Arith>(
    rt: &R,
    alloc: Global,
    deck: &Deck,
    outcome: &Outcome,
    basis: &Basis,
    arith: &mut A,
) -> Result<Verdict, CheckFault>
    requires lengths { HasLengthsOf deck.now (outcome_of outcome.now) }
    requires within { IsWithin deck.now basis.now }
    ensures judged { Judges (A.width arith.old) (walk deck.now (outcome_of outcome.now) (Some basis.now)) result }
    ensures deck { IsDeck deck.now }
    ensures width { A.width arith.new ≡ A.width arith.old }
    ensures unfit { A.unfit_count arith.new ≡ unfit_after_check (A.unfit_count arith.old) result }
{
    match walked(rt, alloc, deck, outcome, arith)? {
        Verdict::Yes => told(alloc, deck, outcome, basis, arith),
        Verdict::No(rule) => Ok(Verdict::No(rule)),
    }
}

// What the walk of an outcome comes to.
fn walked<R: Threads + Sync, A: Arith>(
    rt: &R,
    alloc: Global,
    deck: &Deck,
    outcome: &Outcome,
    arith: &mut A,
) -> Result<Verdict, CheckFault>
    requires { HasLengthsOf deck.now (outcome_of outcome.now) }
    ensures judged { Judges (A.width arith.old) (outcome_walk deck.now (outcome_of outcome.now)) result }
    ensures deck { IsDeck deck.now }
    ensures width { A.width arith.new ≡ A.width arith.old }
    ensures unfit { A.unfit_count arith.new ≡ unfit_after_check (A.unfit_count arith.old) result }
{
    match outcome {
        Outcome::Optimal { x, y, objective } => {
            let (x, y, stated) = (x.as_slice(), y.as_slice(), *objective);
            let ahead = activities(alloc, deck, x, arith)?;
            verdict(optimum(rt, deck, x, y, stated, &ahead, arith))
        }
        Outcome::Infeasible { y } => verdict(farkas(rt, deck, y.as_slice(), arith)),
        Outcome::Unbounded { x, ray } => {
            let (x, ray) = (x.as_slice(), ray.as_slice());
            let ahead = activities(alloc, deck, x, arith)?;
            let along = activities(alloc, deck, ray, arith)?;
            verdict(endless(rt, deck, x, ray, &ahead, &along, arith))
        }
    }
}

// Columns and rows of a point.
fn point<R: Threads + Sync, A: Arith>(
    rt: &R,
    deck: &Deck,
    x: &[Frac],
    ahead: &[Frac],
    arith: &mut A,
) -> Result<(), Stop>
    requires given { length x.now ≡ length deck.now.columns }
    requires ahead { IsAhead (A.width arith.old) deck.now x.now ahead.now }
    ensures first { FirstIs (first_stop (A.width arith.old) (point_walk deck.now x.now)) result }
    ensures deck { IsDeck deck.now }
    ensures width { A.width arith.new ≡ A.width arith.old }
    ensures unfit { A.unfit_count arith.new ≡ unfit_by (A.unfit_count arith.old) result }
{
    each(rt, deck, Group::Columns, x, &[], ahead, arith)?;
    each(rt, deck, Group::Rows, x, &[], ahead, arith)
}

// The items of an optimum.
fn optimum<R: Threads + Sync, A: Arith>(
    rt: &R,
    deck: &Deck,
    x: &[Frac],
    y: &[Frac],
    stated: Frac,
    ahead: &[Frac],
    arith: &mut A,
) -> Result<(), Stop>
    requires columns { length x.now ≡ length deck.now.columns }
    requires rows { length y.now ≡ length deck.now.rows }
    requires ahead { IsAhead (A.width arith.old) deck.now x.now ahead.now }
    ensures first { FirstIs (first_stop (A.width arith.old) (outcome_walk deck.now (optimal x.now y.now stated))) result }
    ensures deck { IsDeck deck.now }
    ensures width { A.width arith.new ≡ A.width arith.old }
    ensures unfit { A.unfit_count arith.new ≡ unfit_by (A.unfit_count arith.old) result }
{
    point(rt, deck, x, ahead, arith)?;
    judge(Rule::Objective, stated_objective(deck, x, stated, arith))?;
    each(rt, deck, Group::Reduced, x, y, ahead, arith)?;
    each(rt, deck, Group::Prices, x, y, ahead, arith)
}

// The items of a Farkas row.
fn farkas<R: Threads + Sync, A: Arith>(
    rt: &R,
    deck: &Deck,
    y: &[Frac],
    arith: &mut A,
) -> Result<(), Stop>
    requires { length y.now ≡ length deck.now.rows }
    ensures first { FirstIs (first_stop (A.width arith.old) (outcome_walk deck.now (infeasible y.now))) result }
    ensures deck { IsDeck deck.now }
    ensures width { A.width arith.new ≡ A.width arith.old }
    ensures unfit { A.unfit_count arith.new ≡ unfit_by (A.unfit_count arith.old) result }
{
    each(rt, deck, Group::EndlessColumns, &[], y, &[], arith)?;
    each(rt, deck, Group::EndlessRows, &[], y, &[], arith)?;
    judge(Rule::Gap, gap(deck, y, arith))
}

// The items of a ray.
fn endless<R: Threads + Sync, A: Arith>(
    rt: &R,
    deck: &Deck,
    x: &[Frac],
    ray: &[Frac],
    ahead: &[Frac],
    along: &[Frac],
    arith: &mut A,
) -> Result<(), Stop>
    requires point { length x.now ≡ length deck.now.columns }
    requires ray { length ray.now ≡ length deck.now.columns }
    requires ahead { IsAhead (A.width arith.old) deck.now x.now ahead.now }
    requires along { IsAhead (A.width arith.old) deck.now ray.now along.now }
    ensures first { FirstIs (first_stop (A.width arith.old) (outcome_walk deck.now (unbounded x.now ray.now))) result }
    ensures deck { IsDeck deck.now }
    ensures width { A.width arith.new ≡ A.width arith.old }
    ensures unfit { A.unfit_count arith.new ≡ unfit_by (A.unfit_count arith.old) result }
{
    point(rt, deck, x, ahead, arith)?;
    each(rt, deck, Group::RayColumns, ray, &[], along, arith)?;
    each(rt, deck, Group::RayRows, ray, &[], along, arith)?;
    judge(Rule::RayCost, ray_cost(deck, ray, arith))
}
