//! Pricing a ticket by the seats of a round.
ghost use Rattle.std.specs.Prelude.{◌≡◌, ◌+◌, ◌<◌, ◌≤◌, [], ◌∷◌, true, length, vec_len, All, IfErr, IfOk};
ghost use Rattle.std.specs.List.{list_any};
ghost use Rattle.lp_run.specs.Instance.{column_count};
ghost use Rattle.bland_ratio.specs.Pricing.{IsChoiceOf, IsTicketOf};
ghost use Rattle.price_round.specs.Rounds.{NoneUnfit, chunk_count};
ghost use Rattle.price_round.specs.Seats.{FitsAll, IsFresh, IsSeatOf, done_of, had_none, held_of, inst_of, seats_in, width_of};
ghost use Rattle.price_round.specs.declared.round.Round.{Round};
ghost use Rattle.crew.specs.Inner.Seating.{IsDone};
ghost use Rattle.crew.specs.declared.faults.CrewFault.{CrewFault};

use crate::faults::CrewFault;
use crate::probe::{Probe, Spot};
use bland_ratio::{Choice, Ticket};
use exact_frac::Arith;
use instance_model::Instance;
use no_memory::Memory;
use price_round::{CHUNK, Round, Seat};
use std::alloc::Global;
use std::sync::Arc;
use std::thread;
use std::thread::Threads;

// How many products the first seat of a round works alone: they take some twenty times what three new threads cost.
const ALONE: u64 = 20_000;

// A seat of a round, with the arithmetic that it has priced with.
#[derive(Drop)]
struct Hand<A: Arith> {
    seat: Seat,
    arith: A,
}

/// The choice of a ticket, priced by at most so many seats of a round, and by no more than it has chunks. A round at the
/// start of a run opens its threads at once; a later one does where its first seat has worked long and met no stopper. Where
/// no column of the ticket is an unfit stopper, the count of unfit results stays, also after a refusal.
pub(crate) fn price<R: Threads + Sync, A: Arith, P: Probe>(
    rt: &R,
    alloc: Global,
    inst: &Arc<Instance>,
    ticket: Ticket,
    workers: u32,
    arith: &mut A,
    probe: &P,
) -> Result<Choice, CrewFault>
    requires workers { 1 ≤ workers }
    requires ticket { IsTicketOf inst.now.value ticket }
    ensures choice { IfOk result (IsChoiceOf (A.width arith.old) inst.now.value ticket) }
    ensures fault { IfErr result (λ fault. fault ≡ CrewFault.Memory) }
    ensures counts { (A.width arith.new ≡ A.width arith.old) × (A.unfit_count arith.old ≤ A.unfit_count arith.new) }
    ensures fit { NoneUnfit (A.width arith.old) inst.now.value ticket → A.unfit_count arith.new ≡ A.unfit_count arith.old }
{
    let at_once = ticket.number == 0;
    let seats = seats_for(inst, workers);
    let Ok((round, seats)) = Round::open(alloc, inst.clone()?, ticket, seats, arith.width()) else {
        return Err(CrewFault::Memory);
    };
    let seats = priced(rt, alloc, &round, seats, at_once, arith, probe)?;
    Ok(round.close(seats)?)
}

// How many seats a round has: one for each worker, but none without a chunk.
fn seats_for(inst: &Instance, workers: u32) -> u32
    requires { 1 ≤ workers }
    ensures { (1 ≤ result) × (result ≤ workers) }
{
    let chunks = inst.columns().div_ceil(CHUNK);
    workers.min(chunks as u32).max(1)
}

// All chunks of a round, by its seats.
#[tactic(auto, using(price_round::proofs::Seated::some_over))]
fn priced<R: Threads + Sync, A: Arith, P: Probe>(
    rt: &R,
    alloc: Global,
    round: &Round,
    mut seats: Vec<Seat>,
    at_once: bool,
    arith: &mut A,
    probe: &P,
) -> Result<Vec<Seat>, Memory>
    requires count { vec_len seats ≡ seats_in round.now }
    requires seats { All (IsSeatOf round.now) seats.items × All IsFresh seats.items }
    requires width { A.width arith.old ≡ width_of round.now }
    ensures count { IfOk result (λ done. vec_len done ≡ seats_in round.now) }
    ensures round { IfOk result (λ done. All (IsSeatOf round.now) done.items) }
    ensures free { IfOk result (λ done. All (λ seat. held_of seat ≡ []) done.items) }
    ensures over { IfOk result (λ done. list_any had_none done.items ≡ true) }
    ensures counts { (A.width arith.new ≡ A.width arith.old) × (A.unfit_count arith.old ≤ A.unfit_count arith.new) }
    ensures fit { FitsAll round.now → A.unfit_count arith.new ≡ A.unfit_count arith.old }
{
    let Some(first) = seats.pop() else {
        unreachable!()
    };
    let (first, wide) = begin(round, first, at_once, arith, probe);
    if !wide || seats.is_empty() {
        seats.push_reserved(work(round, first, arith, probe));
        return Ok(seats);
    }
    seats.push_reserved(first);
    joined(rt, alloc, round, seats, arith, probe)
}

// The first chunks of a round by its first seat, until that has met a stopper or worked long; none where all seats are to
// begin at once. Whether the others are to join it.
fn begin<A: Arith, P: Probe>(
    round: &Round,
    mut seat: Seat,
    at_once: bool,
    arith: &mut A,
    probe: &P,
) -> (Seat, bool)
    requires round { IsSeatOf round.now seat }
    requires free { held_of seat ≡ [] }
    requires width { A.width arith.old ≡ width_of round.now }
    ensures round { IsSeatOf round.now result.0 }
    ensures free { held_of result.0 ≡ [] }
    ensures counts { (A.width arith.new ≡ A.width arith.old) × (A.unfit_count arith.old ≤ A.unfit_count arith.new) }
    ensures fit { FitsAll round.now → A.unfit_count arith.new ≡ A.unfit_count arith.old }
{
    if at_once {
        return (seat, true);
    }
    let long = arith.work().saturating_add(ALONE);
    while let Some(chunk) = round.claim(&mut seat) {
        settle(round, &mut seat, chunk, arith, probe);
        if round.glance(&mut seat).is_some() {
            return (seat, false);
        }
        if long < arith.work() {
            return (seat, true);
        }
    }
    (seat, false)
}

// All seats of a round together, each in a thread of its own where one can be made.
fn joined<R: Threads + Sync, A: Arith, P: Probe>(
    rt: &R,
    alloc: Global,
    round: &Round,
    seats: Vec<Seat>,
    arith: &mut A,
    probe: &P,
) -> Result<Vec<Seat>, Memory>
    requires seats { All (IsSeatOf round.now) seats.items }
    requires free { All (λ seat. held_of seat ≡ []) seats.items }
    requires width { A.width arith.old ≡ width_of round.now }
    ensures count { IfOk result (λ done. vec_len done ≡ vec_len seats) }
    ensures done { IfOk result (λ done. All (IsDone round.now) done.items) }
    ensures counts { (A.width arith.new ≡ A.width arith.old) × (A.unfit_count arith.old ≤ A.unfit_count arith.new) }
    ensures fit { FitsAll round.now → A.unfit_count arith.new ≡ A.unfit_count arith.old }
{
    let hands = spread(rt, round, seats, &*arith, probe)?;
    gather(alloc, hands, arith)
}

// The seats' loops, each in a thread of its own where one can be made, with an arithmetic of its own.
fn spread<R: Threads + Sync, A: Arith, P: Probe>(
    rt: &R,
    round: &Round,
    seats: Vec<Seat>,
    like: &A,
    probe: &P,
) -> Result<Vec<Hand<A>>, Memory>
    requires seats { All (IsSeatOf round.now) seats.items }
    requires free { All (λ seat. held_of seat ≡ []) seats.items }
    requires width { A.width like.now ≡ width_of round.now }
    ensures count { IfOk result (λ hands. vec_len hands ≡ vec_len seats) }
    ensures round { IfOk result (λ hands. All (λ hand. IsSeatOf round.now hand.seat) hands.items) }
    ensures free { IfOk result (λ hands. All (λ hand. held_of hand.seat ≡ []) hands.items) }
    ensures over { IfOk result (λ hands. All (λ hand. had_none hand.seat ≡ true) hands.items) }
    ensures fit { IfOk result (λ hands. All (λ hand. FitsAll round.now → A.unfit_count hand.arith ≡ 0) hands.items) }
{
    Ok(thread::map_vec(
        rt,
        seats,
        &|seat: Seat| -> Hand<A>
            requires round { IsSeatOf round.now seat }
            requires free { held_of seat ≡ [] }
            requires width { A.width like.now ≡ width_of round.now }
            ensures round { IsSeatOf round.entry.now result.seat }
            ensures free { held_of result.seat ≡ [] }
            ensures over { had_none result.seat ≡ true }
            ensures fit { FitsAll round.entry.now → A.unfit_count result.arith ≡ 0 }
        { by_hand(round, seat, like, probe) },
    )?)
}

// A seat's loop with a fresh arithmetic of a width.
fn by_hand<A: Arith, P: Probe>(round: &Round, seat: Seat, like: &A, probe: &P) -> Hand<A>
    requires round { IsSeatOf round.now seat }
    requires free { held_of seat ≡ [] }
    requires width { A.width like.now ≡ width_of round.now }
    ensures round { IsSeatOf round.now result.seat }
    ensures free { held_of result.seat ≡ [] }
    ensures over { had_none result.seat ≡ true }
    ensures fit { FitsAll round.now → A.unfit_count result.arith ≡ 0 }
{
    let mut arith = like.fresh();
    let seat = work(round, seat, &mut arith, probe);
    Hand { seat, arith }
}

// The seats of the hands. What they have counted is absorbed.
fn gather<A: Arith>(
    alloc: Global,
    mut hands: Vec<Hand<A>>,
    arith: &mut A,
) -> Result<Vec<Seat>, Memory>
    ensures count { IfOk result (λ seats. vec_len seats ≡ vec_len hands) }
    ensures done { (round : Round) → All (λ hand. IsDone round hand.seat) hands.items → IfOk result (λ seats. All (IsDone round) seats.items) }
    ensures counts { (A.width arith.new ≡ A.width arith.old) × (A.unfit_count arith.old ≤ A.unfit_count arith.new) }
    ensures fit { All (λ hand. A.unfit_count hand.arith ≡ 0) hands.items → A.unfit_count arith.new ≡ A.unfit_count arith.old }
{
    let mut seats = Vec::new(alloc);
    while let Some(Hand { seat, arith: used }) = hands.pop() {
        arith.absorb(used);
        seats.push(seat)?;
    }
    Ok(seats)
}

// A seat's loop: it claims chunks until none is left, and offers what is in each.
fn work<A: Arith, P: Probe>(round: &Round, mut seat: Seat, arith: &mut A, probe: &P) -> Seat
    requires round { IsSeatOf round.now seat }
    requires free { held_of seat ≡ [] }
    requires width { A.width arith.old ≡ width_of round.now }
    ensures round { IsSeatOf round.now result }
    ensures free { held_of result ≡ [] }
    ensures over { had_none result ≡ true }
    ensures counts { (A.width arith.new ≡ A.width arith.old) × (A.unfit_count arith.old ≤ A.unfit_count arith.new) }
    ensures fit { FitsAll round.now → A.unfit_count arith.new ≡ A.unfit_count arith.old }
{
    while let Some(chunk) = round.claim(&mut seat) {
        settle(round, &mut seat, chunk, arith, probe);
    }
    seat
}

// What is in a chunk that the seat has claimed, offered between two calls of the probe.
fn settle<A: Arith, P: Probe>(round: &Round, seat: &mut Seat, chunk: u32, arith: &mut A, probe: &P)
    requires round { IsSeatOf round.now seat.old }
    requires chunk { chunk < chunk_count (inst_of round.now) }
    requires held { held_of seat.old ≡ chunk ∷ [] }
    requires width { A.width arith.old ≡ width_of round.now }
    ensures round { IsSeatOf round.now seat.new }
    ensures held { held_of seat.new ≡ [] }
    ensures done { done_of seat.new ≡ chunk ∷ done_of seat.old }
    ensures counts { (A.width arith.new ≡ A.width arith.old) × (A.unfit_count arith.old ≤ A.unfit_count arith.new) }
    ensures fit { FitsAll round.now → A.unfit_count arith.new ≡ A.unfit_count arith.old }
{
    let number = round.number();
    probe.at(Spot::Claimed(chunk), number);
    round.settle(seat, chunk, arith);
    probe.at(Spot::Offered(chunk), number);
}
