// Rounds, and the time that they take.
ghost use Rattle.std.specs.Prelude.{◌≡◌, ◌<◌, ◌≤◌, true, [], vec_len, All, IfSome};
ghost use Rattle.std.specs.List.{list_any};
ghost use Rattle.bland_ratio.specs.Pricing.{IsTicketOf};
ghost use Rattle.price_round.specs.Seats.{width_of, held_of, had_none, IsFresh, IsSeatOf};

use crate::round::columns::ticket;
use bland_ratio::{Choice, Ticket, choose};
use exact_frac::Full127;
use instance_model::Instance;
use price_round::{Round, Seat};
use std::alloc::Global;
use std::sync::Arc;
use std::thread;
use std::thread::Threads;
use std::time::{Clock, Duration, Instant};

/// Who prices a ticket.
#[derive(Clone, Copy)]
pub(crate) enum Pricing {
    /// `choose`, on one thread.
    Alone,
    /// A round with so many seats.
    Seats(u32),
}

// The seats of a round, each in a thread of its own.
fn in_threads<R: Threads + Sync>(rt: &R, round: &Round, seats: Vec<Seat>) -> Option<Vec<Seat>>
    requires round { All (IsSeatOf round.now) seats.items }
    requires free { All (λ seat. held_of seat ≡ []) seats.items }
    requires width { width_of round.now ≡ 127 }
    ensures len { IfSome result (λ done. vec_len done ≡ vec_len seats) }
    ensures round { IfSome result (λ done. All (IsSeatOf round.now) done.items) }
    ensures free { IfSome result (λ done. All (λ seat. held_of seat ≡ []) done.items) }
    ensures over { IfSome result (λ done. All (λ seat. had_none seat ≡ true) done.items) }
{
    thread::map_vec(
        rt,
        seats,
        &|seat: Seat| -> Seat
            requires round { IsSeatOf round.now seat }
            requires free { held_of seat ≡ [] }
            requires width { width_of round.now ≡ 127 }
            ensures round { IsSeatOf round.entry.now result }
            ensures free { held_of result ≡ [] }
            ensures over { had_none result ≡ true }
        { round.work(seat, &mut Full127::new()) },
    )
    .ok()
}

// All chunks of a round: the first one by one seat, and the others in threads where there is no stopper in it.
#[tactic(auto, using(price_round::proofs::Seated::some_over))]
fn worked<R: Threads + Sync>(rt: &R, round: &Round, mut seats: Vec<Seat>) -> Option<Vec<Seat>>
    requires round { All (IsSeatOf round.now) seats.items }
    requires fresh { All IsFresh seats.items }
    requires width { width_of round.now ≡ 127 }
    ensures len { IfSome result (λ done. vec_len done ≡ vec_len seats) }
    ensures round { IfSome result (λ done. All (IsSeatOf round.now) done.items) }
    ensures free { IfSome result (λ done. All (λ seat. held_of seat ≡ []) done.items) }
    ensures over { IfSome result (λ done. list_any had_none done.items ≡ true) }
{
    let mut first = seats.pop()?;
    let mut arith = Full127::new();
    let chunk = round.claim(&mut first)?;
    let found = round.price(chunk, &mut arith);
    round.offer(&mut first, chunk, found);
    if found.is_some() {
        first = round.work(first, &mut arith);
        seats.push_reserved(first);
        return Some(seats);
    }
    seats.push_reserved(first);
    Some(in_threads(rt, round, seats)?)
}

// The choice of `choose`, and how long it took.
fn alone<R: Clock>(rt: &R, inst: &Instance, question: &Ticket) -> Option<(Choice, Duration)>
    requires { IsTicketOf inst.now question.now }
{
    let mut arith = Full127::new();
    let start = Instant::now(rt).ok()?;
    let choice = choose(inst, question, &mut arith);
    Some((choice, start.elapsed(rt).ok()?))
}

// The choice of a round, and how long it took.
fn shared<R: Threads + Clock + Sync>(
    rt: &R,
    alloc: Global,
    inst: Arc<Instance>,
    question: Ticket,
    seats: u32,
) -> Option<(Choice, Duration)>
    requires seats { 1 ≤ seats }
    requires ticket { IsTicketOf inst.value question }
{
    let start = Instant::now(rt).ok()?;
    let (round, seats) = Round::open(alloc, inst, question, seats, 127).ok()?;
    let seats = worked(rt, &round, seats)?;
    let choice = round.close(seats).ok()?;
    Some((choice, start.elapsed(rt).ok()?))
}

// A choice, and how long it took.
fn timed<R: Threads + Clock + Sync>(
    rt: &R,
    alloc: Global,
    inst: &Arc<Instance>,
    pricing: Pricing,
) -> Option<(Choice, Duration)> {
    let question = ticket(alloc, inst)?;
    match pricing {
        Pricing::Seats(seats) if seats > 0 => {
            shared(rt, alloc, inst.clone().ok()?, question, seats)
        }
        _ => alone(rt, inst, &question),
    }
}

/// The choice, and the fastest of so many times.
pub(crate) fn fastest<R: Threads + Clock + Sync>(
    rt: &R,
    alloc: Global,
    inst: Instance,
    pricing: Pricing,
    times: u32,
) -> Option<(Choice, Duration)> {
    let inst = Arc::new(alloc, inst).ok()?;
    let mut fastest = timed(rt, alloc, &inst, pricing)?;
    for _ in 1..times {
        let next = timed(rt, alloc, &inst, pricing)?;
        if next.1 < fastest.1 {
            fastest = next;
        }
    }
    Some(fastest)
}
