// Rounds that threads share.
ghost use Rattle.std.specs.Prelude.{◌≡◌, ◌<◌, ◌≤◌, true, [], vec_len, All, IfOk};
ghost use Rattle.std.specs.List.{list_any};
ghost use Rattle.bland_ratio.specs.Pricing.{IsTicketOf};
ghost use Rattle.price_round.specs.Seats.{seats_in, width_of, held_of, had_none, IsFresh, IsSeatOf};

use crate::instances::{instance, ticket};
use bland_ratio::{Choice, Ticket, choose};
use exact_frac::Narrow;
use instance_model::Instance;
use price_round::{Round, Seat};
use std::alloc::Global;
use std::sync::Arc;
use std::test::Fail;
use std::thread;
use std::thread::Threads;

const BITS: u32 = 8;

// All seats of a round, each in a thread of its own.
fn worked<R: Threads + Sync>(rt: &R, round: &Round, seats: Vec<Seat>) -> Result<Vec<Seat>, Fail>
    requires round { All (IsSeatOf round.now) seats.items }
    requires fresh { All IsFresh seats.items }
    requires width { width_of round.now ≡ BITS }
    ensures len { IfOk result (λ done. vec_len done ≡ vec_len seats) }
    ensures round { IfOk result (λ done. All (IsSeatOf round.now) done.items) }
    ensures free { IfOk result (λ done. All (λ seat. held_of seat ≡ []) done.items) }
    ensures over { IfOk result (λ done. All (λ seat. had_none seat ≡ true) done.items) }
{
    Ok(thread::map_vec(
        rt,
        seats,
        &|seat: Seat| -> Seat
            requires round { IsSeatOf round.now seat }
            requires free { held_of seat ≡ [] }
            requires width { width_of round.now ≡ BITS }
            ensures round { IsSeatOf round.entry.now result }
            ensures free { held_of result ≡ [] }
            ensures over { had_none result ≡ true }
        { round.work(seat, &mut Narrow::new(BITS)) },
    )?)
}

// The choice of a round whose first seat holds a chunk until all others are done.
#[tactic(auto, using(price_round::proofs::Seated::some_over))]
fn held<R: Threads + Sync>(
    rt: &R,
    alloc: Global,
    inst: Arc<Instance>,
    ticket: Ticket,
) -> Result<Option<Choice>, Fail>
    requires { IsTicketOf inst.value ticket }
{
    let (round, mut seats) = Round::open(alloc, inst, ticket, 4, BITS)?;
    let Some(mut first) = seats.pop() else {
        return Ok(None);
    };
    let Some(chunk) = round.claim(&mut first) else {
        return Ok(None);
    };
    let mut seats = worked(rt, &round, seats)?;
    let mut arith = Narrow::new(BITS);
    let found = round.price(chunk, &mut arith);
    round.offer(&mut first, chunk, found);
    seats.push(round.work(first, &mut arith))?;
    Ok(Some(round.close(seats)?))
}

// The choice of a round with so many seats, each in a thread of its own.
#[tactic(auto, using(price_round::proofs::Seated::some_over))]
fn shared<R: Threads + Sync>(
    rt: &R,
    alloc: Global,
    inst: Arc<Instance>,
    ticket: Ticket,
    workers: u32,
) -> Result<Choice, Fail>
    requires workers { 1 ≤ workers }
    requires ticket { IsTicketOf inst.value ticket }
{
    let (round, seats) = Round::open(alloc, inst, ticket, workers, BITS)?;
    let seats = worked(rt, &round, seats)?;
    Ok(round.close(seats)?)
}

// Whether `choose`, a round with four threads, and one with a chunk that is held back agree on the ticket of a seed.
fn agree<R: Threads + Sync>(
    rt: &R,
    alloc: Global,
    inst: &Arc<Instance>,
    seed: u64,
) -> Result<bool, Fail> {
    let question = ticket(alloc, inst, seed)?;
    let alone = choose(inst, &question, &mut Narrow::new(BITS));
    let choice = shared(rt, alloc, inst.clone()?, question, 4)?;
    let late = held(rt, alloc, inst.clone()?, ticket(alloc, inst, seed)?)?;
    Ok(choice == alone && late == Some(alone))
}

#[test]
fn rounds_of_four_threads_choose_what_one_thread_does(rt: HostRuntime) -> Result<(), Fail> {
    let inst = Arc::new(rt.alloc(), instance(rt.alloc())?)?;
    for seed in 0..200 {
        assert!(rt; agree(&rt, rt.alloc(), &inst, seed)?, "at {seed}");
    }
    Ok(())
}
