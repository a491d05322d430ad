//! The walk over the items of an outcome, up to the first that stops it.
ghost use Rattle.std.specs.Prelude.{◌≡◌, ◌<◌, ◌^◌};
ghost use Rattle.std.specs.Thread.{IsSync};
ghost use Rattle.exact_frac.specs.Count.{unfit_after};
ghost use Rattle.exact_frac.specs.Settles.{Settles};
ghost use Rattle.lp_model.specs.Deck.{IsDeck};
ghost use Rattle.cert_check.specs.Inner.Groups.{AreGiven, CanLook, FirstIs, IsAhead, Looks, claimed, count_of, items_of, rule_of, stopped, sums_of, unfit_by, verdict_of};
ghost use Rattle.cert_check.specs.Walk.{first_stop};

use crate::groups::{Claim, Group};
use crate::items::{
    column, endless_column, endless_row, price, ray_column, ray_row, reduced_cost, row,
};
use crate::verdict::{CheckFault, Rule, Stop, Verdict};
use deck_model::Deck;
use exact_frac::{Arith, Frac, Unfit};
use rayon::join_mut;
use std::thread::Threads;

// The rule of a group's item.
fn rule_of(group: Group, k: usize) -> Rule
    requires { k < 2 ^ 32 }
    ensures { result ≡ rule_of group k }
{
    let k = k as u32;
    match group {
        Group::Columns => Rule::Column(k),
        Group::Rows => Rule::Row(k),
        Group::Reduced => Rule::Reduced(k),
        Group::Prices => Rule::Price(k),
        Group::EndlessColumns => Rule::EndlessColumn(k),
        Group::EndlessRows => Rule::EndlessRow(k),
        Group::RayColumns => Rule::RayColumn(k),
        Group::RayRows => Rule::RayRow(k),
    }
}

// How many items a group has.
fn count_of(deck: &Deck, group: Group) -> usize
    ensures count { result ≡ count_of group deck.now }
    ensures few { result < 2 ^ 32 }
    ensures deck { IsDeck deck.now }
{
    match group {
        Group::Columns | Group::Reduced | Group::EndlessColumns | Group::RayColumns =>
            deck.columns(),
        Group::Rows | Group::Prices | Group::EndlessRows | Group::RayRows => deck.rows(),
    }
}

// What a claim's item works, and whether it holds.
fn sums_of<A: Arith>(claim: &Claim, k: usize, arith: &mut A) -> Result<bool, Unfit>
    requires item { k < count_of claim.now.group claim.now.deck.now }
    requires given { let c = claim.now in AreGiven c.group c.deck.now c.x.now c.y.now }
    requires ahead { let c = claim.now in IsAhead (A.width arith.old) c.deck.now c.x.now c.ahead.now }
    ensures settled { let c = claim.now in Settles (A.width arith.old) (sums_of c.group c.deck.now c.x.now c.y.now k) result }
    ensures width { A.width arith.new ≡ A.width arith.old }
    ensures unfit { A.unfit_count arith.new ≡ unfit_after (A.unfit_count arith.old) result }
{
    let Claim {
        deck,
        group,
        x,
        y,
        ahead,
    } = claim;
    match group {
        Group::Columns => column(deck, x, k, arith),
        Group::Rows => row(deck, x, ahead, k, arith),
        Group::Reduced => reduced_cost(deck, x, y, k, arith),
        Group::Prices => price(deck, x, y, ahead, k, arith),
        Group::EndlessColumns => endless_column(deck, y, k, arith),
        Group::EndlessRows => endless_row(deck, y, k, arith),
        Group::RayColumns => ray_column(deck, x, k, arith),
        Group::RayRows => ray_row(deck, x, ahead, k, arith),
    }
}

/// What an item whose sums settle so says of its rule.
pub(crate) fn judge(rule: Rule, sums: Result<bool, Unfit>) -> Result<(), Stop>
    ensures { result ≡ stopped rule sums }
{
    match sums {
        Ok(true) => Ok(()),
        Ok(false) => Err(Stop::Broken(rule)),
        Err(_) => Err(Stop::Unfit(rule)),
    }
}

// The items of a claim from one number up to another.
fn look<A: Arith>(claim: &Claim, from: usize, to: usize, arith: &mut A) -> Result<(), Stop>
    requires { CanLook (A.width arith.old) claim.now from to }
    ensures first { FirstIs (first_stop (A.width arith.old) (claimed claim.now from to)) result }
    ensures width { A.width arith.new ≡ A.width arith.old }
    ensures unfit { A.unfit_count arith.new ≡ unfit_by (A.unfit_count arith.old) result }
{
    for k in from..to {
        let sums = sums_of(claim, k, arith);
        judge(rule_of(claim.group, k), sums)?;
    }
    Ok(())
}

// How often a group is halved: its items are looked at one after another where they are few, or where the sums of each are
// short.
fn depth_for(group: Group, count: usize) -> u32 {
    match group {
        Group::Reduced | Group::EndlessColumns if 2_000 <= count => 2,
        _ => 0,
    }
}

// The items of a claim from one number up to another, by halves of halves in threads of their own while there is depth left.
// The answer and the counts are those of the items one after another.
#[cycle(halves)]
fn look_all<R: Threads + Sync, A: Arith>(
    rt: &R,
    depth: u32,
    claim: &Claim,
    from: usize,
    to: usize,
    arith: &mut A,
) -> Result<(), Stop>
    requires { CanLook (A.width arith.old) claim.now from to }
    ensures first { FirstIs (first_stop (A.width arith.old) (claimed claim.now from to)) result }
    ensures width { A.width arith.new ≡ A.width arith.old }
    ensures unfit { A.unfit_count arith.new ≡ unfit_by (A.unfit_count arith.old) result }
{
    if depth == 0 || to - from < 2 {
        return look(claim, from, to, arith);
    }
    let half = from + (to - from) / 2;
    let mut own = arith.fresh();
    let (first, second) = look_halves(rt, depth - 1, claim, from, half, to, arith, &mut own);
    // (the counts of the second half are nobody's where the first is stopped, as in turn it would not be worked)
    first?;
    arith.absorb(own);
    second
}

// Both halves side by side, each with an arithmetic of its own.
#[cycle(halves)]
fn look_halves<R: Threads + Sync, A: Arith>(
    rt: &R,
    depth: u32,
    claim: &Claim,
    from: usize,
    half: usize,
    to: usize,
    arith: &mut A,
    own: &mut A,
) -> (Result<(), Stop>, Result<(), Stop>)
    requires low { CanLook (A.width arith.old) claim.now from half }
    requires high { CanLook (A.width own.old) claim.now half to }
    ensures low { Looks (A.width arith.old) (A.width arith.new) (A.unfit_count arith.old) (A.unfit_count arith.new) claim.now from half result.0 }
    ensures high { Looks (A.width own.old) (A.width own.new) (A.unfit_count own.old) (A.unfit_count own.new) claim.now half to result.1 }
{
    let up = half;
    let mut front = || -> Result<(), Stop>
        requires { IsSync R.row × CanLook (A.width arith.now) claim.now from half }
        ensures { Looks (A.width arith.entry.now) (A.width arith.exit.now) (A.unfit_count arith.entry.now) (A.unfit_count arith.exit.now)
            claim.entry.now from half result }
    { look_all(rt, depth, claim, from, half, arith) };
    let mut back = || -> Result<(), Stop>
        requires { IsSync R.row × CanLook (A.width own.now) claim.now up to }
        ensures { Looks (A.width own.entry.now) (A.width own.exit.now) (A.unfit_count own.entry.now) (A.unfit_count own.exit.now)
            claim.entry.now up to result }
    { look_all(rt, depth, claim, up, to, own) };
    join_mut(rt, &mut front, &mut back)
}

/// All items of a group.
pub(crate) fn each<R: Threads + Sync, A: Arith>(
    rt: &R,
    deck: &Deck,
    group: Group,
    x: &[Frac],
    y: &[Frac],
    ahead: &[Frac],
    arith: &mut A,
) -> Result<(), Stop>
    requires given { AreGiven group deck.now x.now y.now }
    requires ahead { IsAhead (A.width arith.old) deck.now x.now ahead.now }
    ensures first { FirstIs (first_stop (A.width arith.old) (items_of group deck.now x.now y.now 0 (count_of group deck.now))) result }
    ensures deck { IsDeck deck.now }
    ensures width { A.width arith.new ≡ A.width arith.old }
    ensures unfit { A.unfit_count arith.new ≡ unfit_by (A.unfit_count arith.old) result }
{
    let count = count_of(deck, group);
    let depth = depth_for(group, count);
    let claim = Claim {
        deck,
        group,
        x,
        y,
        ahead,
    };
    look_all(rt, depth, &claim, 0, count, arith)
}

/// What is answered where a walk ends so.
pub(crate) fn verdict(walked: Result<(), Stop>) -> Result<Verdict, CheckFault>
    ensures { result ≡ verdict_of walked }
{
    match walked {
        Ok(()) => Ok(Verdict::Yes),
        Err(Stop::Broken(rule)) => Ok(Verdict::No(rule)),
        Err(Stop::Unfit(rule)) => Err(CheckFault::Overflow(rule)),
    }
}
