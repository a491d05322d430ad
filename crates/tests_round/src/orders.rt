// Rounds on one thread, out of order.
ghost use Rattle.std.specs.Prelude.{◌≡◌, ◌+◌, ◌<◌, ◌≤◌, [], true, length, vec_len, All, IfOk, IfSome, OnOk, OnSome};
ghost use Rattle.bland_ratio.specs.Pricing.{IsTicketOf};
ghost use Rattle.price_round.specs.Seats.{seats_in, width_of, held_of, had_none, IsFresh, IsSeatOf};

use bland_ratio::{Choice, Pay, Ticket};
use deck_model::{Deck, Name, RowKind};
use exact_frac::{Frac, Fracs, Full127};
use instance_model::Instance;
use price_round::{Round, Seat};
use std::alloc::Global;
use std::sync::Arc;
use std::test::Fail;

// A row more, named by its number.
fn add_row(alloc: Global, deck: &mut Deck, i: u16) -> Result<(), Fail>
    requires columns { length deck.old.columns ≡ 0 }
    requires rows { (length deck.old.rows ≡ i) × (i < 1000) }
    ensures columns { OnOk result (length deck.new.columns ≡ 0) }
    ensures rows { OnOk result (length deck.new.rows ≡ i + 1) }
{
    let name = format!(in alloc; "R{i}")?;
    let row = deck.add_row(Name::of(alloc, name.as_bytes())?, RowKind::L)?;
    deck.set_right(row, Frac::of(1, 1));
    Ok(())
}

// A column more, with the cost -1 and the entry 1 in the row of its number.
fn add_column(alloc: Global, deck: &mut Deck, j: u16) -> Result<(), Fail>
    requires columns { length deck.old.columns ≡ j }
    requires rows { j < length deck.old.rows }
    ensures columns { OnOk result (length deck.new.columns ≡ j + 1) }
    ensures rows { OnOk result (length deck.new.rows ≡ length deck.old.rows) }
{
    let name = format!(in alloc; "X{j}")?;
    let column = deck.add_column(Name::of(alloc, name.as_bytes())?)?;
    deck.set_cost(column, Frac::of(-1, 1));
    deck.add_entry(column, j.into(), Frac::of(1, 1))?;
    Ok(())
}

// Each of 70 columns alone in its row, at most 1, so that each is eligible at the start.
pub(crate) fn seventy(alloc: Global) -> Result<Deck, Fail> {
    let mut deck = Deck::new(
        alloc,
        Name::of(alloc, b"SEVENTY")?,
        Name::of(alloc, b"COST")?,
    );
    for i in 0..70 {
        add_row(alloc, &mut deck, i)?;
    }
    for j in 0..70 {
        add_column(alloc, &mut deck, j)?;
    }
    Ok(deck)
}

// The ticket of the start, at which all basic columns are logicals and all prices 0.
fn first_ticket(alloc: Global, inst: &Instance) -> Result<Option<Ticket>, Fail>
    ensures { IfOk result (λ ticket. IfSome ticket (IsTicketOf inst.now)) }
{
    let start = inst.start(alloc)?;
    let status = start.statuses_copy()?;
    if status.len() != inst.columns() {
        return Ok(None);
    }
    let prices = Fracs::of(vec![in alloc; Frac::of(0, 1); inst.rows()]?);
    Ok(Some(Ticket {
        number: 0,
        phase: start.phase(),
        status,
        pay: Pay::Prices(prices),
    }))
}

// One seat claims chunk 0 and the other chunk 1; the later chunk is offered first.
fn offer_late_first(round: &Round, one: &mut Seat, two: &mut Seat) -> Option<(u32, u32)>
    requires one { IsSeatOf round.now one.old × IsFresh one.old }
    requires two { IsSeatOf round.now two.old × IsFresh two.old }
    requires width { width_of round.now ≡ 127 }
    ensures one { OnSome result (IsSeatOf round.now one.new × (held_of one.new ≡ [])) }
    ensures two { OnSome result (IsSeatOf round.now two.new × (held_of two.new ≡ [])) }
{
    let first = round.claim(one)?;
    let second = round.claim(two)?;
    let mut arith = Full127::new();
    let found = round.price(second, &mut arith);
    round.offer(two, second, found);
    let later = found?.0;
    let found = round.price(first, &mut arith);
    round.offer(one, first, found);
    Some((later, found?.0))
}

// A seat claims two chunks more, glances, and offers none for both, as what it sees stands below them.
fn offer_none(round: &Round, seat: &mut Seat) -> Option<u32>
    requires round { IsSeatOf round.now seat.old }
    requires free { held_of seat.old ≡ [] }
    ensures round { OnSome result (IsSeatOf round.now seat.new) }
    ensures free { OnSome result (held_of seat.new ≡ []) }
    ensures over { OnSome result (had_none seat.new ≡ true) }
{
    let third = round.claim(seat)?;
    let fourth = round.claim(seat)?;
    let seen = round.glance(seat)?;
    if third != 2 || fourth != 3 || seen >= 128 {
        return None;
    }
    round.offer(seat, 2, None);
    round.offer(seat, 3, None);
    match round.claim(seat) {
        Some(_) => None,
        None => Some(seen),
    }
}

// What two seats find on the way, and what the round chooses.
#[derive(Clone, Copy, Debug, PartialEq, Eq)]
struct Found {
    late_and_first: (u32, u32),
    seen: u32,
    choice: Choice,
}

// A round of two seats, out of order.
fn out_of_order(round: Round, mut seats: Vec<Seat>) -> Option<Found>
    requires count { (vec_len seats ≡ 2) × (seats_in round ≡ 2) }
    requires round { All (IsSeatOf round) seats.items }
    requires fresh { All IsFresh seats.items }
    requires width { width_of round ≡ 127 }
{
    let mut two = seats.pop()?;
    let mut one = seats.pop()?;
    let late_and_first = offer_late_first(&round, &mut one, &mut two)?;
    let seen = offer_none(&round, &mut two)?;
    seats.push_reserved(one);
    seats.push_reserved(two);
    let choice = round.close(seats).ok()?;
    Some(Found {
        late_and_first,
        seen,
        choice,
    })
}

#[test]
fn two_seats_out_of_order_choose_the_least_column(rt: HostRuntime) -> Result<(), Fail> {
    let alloc = rt.alloc();
    let inst = Instance::of(alloc, &seventy(alloc)?, &mut Full127::new())?;
    let Some(ticket) = first_ticket(alloc, &inst)? else {
        panic!(rt; "no ticket")
    };
    let (round, seats) = Round::open(alloc, Arc::new(alloc, inst)?, ticket, 2, 127)?;
    let choice = Choice {
        number: 0,
        stopper: Some(0),
        unfit: false,
    };
    let found = Found {
        late_and_first: (64, 0),
        seen: 0,
        choice,
    };
    assert_eq!(rt; out_of_order(round, seats), Some(found));
    Ok(())
}

// A seat claims a chunk before a survey and one claims after it: the chunks, and how many seats are left then.
fn claims_round_a_survey(round: &Round, mut seats: Vec<Seat>) -> Option<(u32, u32, usize)>
    requires count { vec_len seats ≡ seats_in round.now }
    requires round { All (IsSeatOf round.now) seats.items }
{
    let mut seat = seats.pop()?;
    let before = round.claim(&mut seat)?;
    seats.push_reserved(seat);
    let mut seats = round.survey(seats);
    let after = round.claim(&mut seats.pop()?)?;
    Some((before, after, seats.len()))
}

#[test]
fn a_survey_leaves_the_seats_as_they_are(rt: HostRuntime) -> Result<(), Fail> {
    let alloc = rt.alloc();
    let inst = Instance::of(alloc, &seventy(alloc)?, &mut Full127::new())?;
    let Some(ticket) = first_ticket(alloc, &inst)? else {
        panic!(rt; "no ticket")
    };
    let (round, seats) = Round::open(alloc, Arc::new(alloc, inst)?, ticket, 3, 127)?;
    assert_eq!(rt; claims_round_a_survey(&round, seats), Some((0, 1, 2)));
    Ok(())
}
