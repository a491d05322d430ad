//! What all seats of a round know together.
ghost use Rattle.std.specs.Prelude.{◌≡◌, ◌+◌, ◌<◌, ◌≤◌, [], Some, map, vec_len, vec_capacity, All};
ghost use Rattle.price_round.specs.Rounds.{glanced};
ghost use Rattle.price_round.specs.Seats.{plan_of, seats_in, held_of, done_of, seen_of, had_none, IsSeatOf, IsSurvey};
ghost use Rattle.price_round.specs.Inner.{IsCut};
ghost use Rattle.price_round.specs.Surveyed.{IsStateWith, IsSurveyed};

use crate::calls::{LEAST, Token};
use crate::kinds::{Both, Glance, Pieces, Restore};
use crate::round::{Round, Seat};
use std::marker::Brand;
use std::snapshot::Snapshot;

impl Round {
    /// All seats of the round learn its state together: how many chunks are given away, each to one of them and once, and
    /// the least code of what they offered, which each has seen then. Else the seats stay as they are, in their order.
    pub fn survey(&self, mut seats: Vec<Seat>) -> Vec<Seat>
        requires count { vec_len seats ≡ seats_in self.now }
        requires seats { All (IsSeatOf self.now) seats.items }
        ensures round { All (IsSeatOf self.now) result.items }
        ensures held { map held_of result.items ≡ map held_of seats.items }
        ensures done { map done_of result.items ≡ map done_of seats.items }
        ensures over { map had_none result.items ≡ map had_none seats.items }
        ensures state { IsSurvey self.now seats.items result.items }
    {
        let Some(
            Seat {
                seat: mut token,
                over,
            },
        ) = seats.pop()
        else {
            unreachable!()
        };
        let mut seats = survey_with(self, &mut token, seats);
        seats.push_reserved(Seat { seat: token, over });
        seats
    }
}

// Takes the seats into the token, which has all others, glances with it, and cuts them off again.
fn survey_with(round: &Round, token: &mut Token, mut seats: Vec<Seat>) -> Vec<Seat>
    requires table { (token.old.table_id ≡ round.now.table.shared.table_id) × (token.old.me.0.plan ≡ Some (plan_of round.now)) }
    requires parts { (0 < token.old.me.0.parts) × (token.old.me.0.nones ≤ token.old.me.0.parts) }
    requires count { token.old.me.0.parts + vec_len seats ≡ seats_in round.now }
    requires seats { All (IsSeatOf round.now) seats.items }
    ensures table { token.new.table_id ≡ token.old.table_id }
    ensures token { (token.new.me ≡ (glanced token.new.me.0.seen token.old.me.0, token.old.me.1)) × (token.new.me.0.seen ≤ token.old.me.0.seen) }
    ensures room { (vec_len result ≡ vec_len seats) × (vec_capacity result ≡ vec_capacity seats) }
    ensures seats { IsSurveyed round.now token.new.me.0.seen seats.items result.items }
    ensures state { IsStateWith (plan_of round.now) token.old.me.0 seats.items token.new.me.0.seen }
{
    let Some(Seat { seat, over }) = seats.pop() else {
        round.table.shared.load::<Glance>(token, LEAST);
        return seats;
    };
    let rest = Snapshot::of(&*token);
    let piece = Snapshot::of(&seat);
    round.table.shared.join_seat::<Both>(token, seat);
    let mut seats = survey_with(round, token, seats);
    let seat = cut_back(round, token, rest, piece);
    seats.push_reserved(Seat { seat, over });
    seats
}

// Cuts the token back to what it was, and to the piece that it took in.
fn cut_back(
    round: &Round,
    token: &mut Token,
    rest: Snapshot<Token>,
    piece: Snapshot<Token>,
) -> Token
    requires table { token.old.table_id ≡ round.now.table.shared.table_id }
    requires cut { IsCut token.old.me.0 (glanced token.old.me.0.seen rest.value.me.0) (glanced token.old.me.0.seen piece.value.me.0) }
    ensures table { (token.new.table_id ≡ token.old.table_id) × (result.table_id ≡ token.old.table_id) }
    ensures rest { token.new.me ≡ (glanced token.old.me.0.seen rest.value.me.0, token.old.me.1) }
    ensures piece { result.me ≡ (glanced token.old.me.0.seen piece.value.me.0, []) }
{
    cut_at::<Brand>(round, token, &rest, &piece)
}

// Cuts the token in the two that `J` names.
fn cut_at<J: Pieces>(
    round: &Round,
    token: &mut Token,
    rest: &Snapshot<Token>,
    piece: &Snapshot<Token>,
) -> Token
    requires table { token.old.table_id ≡ round.now.table.shared.table_id }
    requires named { (rest.now.value.me.0 ≡ J.rest) × (piece.now.value.me.0 ≡ J.piece) }
    requires cut { IsCut token.old.me.0 (glanced token.old.me.0.seen rest.now.value.me.0) (glanced token.old.me.0.seen piece.now.value.me.0) }
    ensures table { (token.new.table_id ≡ token.old.table_id) × (result.table_id ≡ token.old.table_id) }
    ensures rest { token.new.me ≡ (glanced token.old.me.0.seen rest.now.value.me.0, token.old.me.1) }
    ensures piece { result.me ≡ (glanced token.old.me.0.seen piece.now.value.me.0, []) }
{
    round.table.shared.split_seat::<Restore<J>>(token)
}
