//! The calls of a round.
ghost use Rattle.std.specs.Prelude.{◌≡◌, ◌+◌, ◌*◌, ◌^◌, ◌<◌, ◌≤◌, [], ◌∷◌, true, Some, is_none, min, vec_len};
ghost use Rattle.std.specs.Prelude.{All, Contains, IsOk, IfOk, IfErr, IfSome, IfNone, MatchOption};
ghost use Rattle.std.specs.List.{list_any};
ghost use Rattle.lp_run.specs.Instance.{column_count, row_count};
ghost use Rattle.bland_ratio.specs.Pricing.{IsTicketOf, IsChoiceOf, is_unfit, unfit_where};
ghost use Rattle.price_round.specs.Rounds.{chunk_count, without, no_code, code_of, first_view, IsCode, IsLeastOfAll};
ghost use Rattle.price_round.specs.Seats.{plan_of, inst_of, ticket_of, width_of, seats_in, held_of, done_of, seen_of, had_none, found_code};
ghost use Rattle.price_round.specs.Seats.{IsSeatOf, IsFresh, IsFirstIn, IsGlance, IsNewSeat, MayOffer};

use crate::kinds::{Aim, Both, ChunkRule, Claim, Cut, Glance, Offer};
use crate::round::{Round, RoundFault, Seat};
use crate::view::{Plan, View};
use atomic_table::{Shared, Table};
use bland_ratio::{Choice, Ticket, first_stopper};
use exact_frac::Arith;
use instance_model::Instance;
use no_memory::Memory;
use std::alloc::{AllocError, Global};
use std::marker::Brand;
use std::snapshot::Snapshot;
use std::sync::Arc;

// The words of the table: the chunk to be claimed next, and the least code that was offered.
const CLAIM: usize = 0;

pub(crate) const LEAST: usize = 1;

// The word of a round in which no stopper was offered.
const NO_CODE: u64 = u64::MAX;

/// How many columns a chunk has.
pub const CHUNK: usize = 64;

type Words = Shared<(), View, Plan, ChunkRule>;

type Rows = Table<(), View, Plan, ChunkRule, Global>;

pub(crate) type Token = atomic_table::Seat<(), View>;

impl Round {
    /// A round of the ticket's columns for so many seats, whose arithmetic has this width. Chunk k has the columns 64k to
    /// 64k + 63, as far as there are columns. The `Err` is want of memory, and hands the ticket back.
    pub fn open(
        alloc: Global,
        inst: Arc<Instance>,
        ticket: Ticket,
        workers: u32,
        width: u32,
    ) -> Result<(Round, Vec<Seat>), RoundFault>
        requires workers { 1 ≤ workers }
        requires width { (1 ≤ width) × (width ≤ 127) }
        requires ticket { IsTicketOf inst.value ticket }
        ensures about { IfOk result (λ made. (inst_of made.0 ≡ inst.value) × (ticket_of made.0 ≡ ticket) × (width_of made.0 ≡ width)) }
        ensures count { IfOk result (λ made. (seats_in made.0 ≡ workers) × (vec_len made.1 ≡ workers)) }
        ensures seats { IfOk result (λ made. All (IsSeatOf made.0) made.1.items) }
        ensures fresh { IfOk result (λ made. All IsFresh made.1.items) }
        ensures back { IfErr result (λ fault. fault ≡ RoundFault.Memory ticket) }
    {
        let Ok((table, token)) = table_of(alloc, &inst, &ticket, workers, width) else {
            return Err(RoundFault::Memory(ticket));
        };
        let Ok(seats) = deal(alloc, &table.shared, token, workers) else {
            return Err(RoundFault::Memory(ticket));
        };
        let round = Round {
            table,
            inst,
            ticket,
        };
        Ok((round, seats))
    }

    /// The next chunk that nobody has claimed, which is above each chunk that the seat has claimed; none where the claim
    /// word had passed the last chunk. A seat that has had none is answered none, and leaves the word alone.
    pub fn claim(&self, seat: &mut Seat) -> Option<u32>
        requires { IsSeatOf self.now seat.old }
        ensures round { IsSeatOf self.now seat.new }
        ensures chunk { IfSome result (λ chunk. (chunk < chunk_count (inst_of self.now)) × (held_of seat.new ≡ chunk ∷ held_of seat.old)) }
        ensures above { IfSome result (λ chunk. All (λ x. x < chunk) (held_of seat.old) × All (λ x. x < chunk) (done_of seat.old)) }
        ensures none { IfNone result (held_of seat.new ≡ held_of seat.old) }
        ensures over { (is_none result ≡ had_none seat.new) × (had_none seat.old ≡ true → had_none seat.new ≡ true) }
        ensures same { (done_of seat.new ≡ done_of seat.old) × (seen_of seat.new ≡ seen_of seat.old) }
    {
        if seat.over {
            return None;
        }
        let chunks = self.chunks();
        let found = self
            .table
            .shared
            .fetch_add::<Claim>(&mut seat.seat, CLAIM, 1);
        if found < chunks {
            Some(found as u32)
        } else {
            seat.over = true;
            None
        }
    }

    /// The column of the least stopper that was offered so far, where the seat sees one: at least as low as it has seen
    /// before.
    pub fn glance(&self, seat: &mut Seat) -> Option<u32>
        requires { IsSeatOf self.now seat.old }
        ensures round { IsSeatOf self.now seat.new }
        ensures lower { seen_of seat.new ≤ seen_of seat.old }
        ensures stopper { IsGlance self.now (seen_of seat.new) result }
        ensures same { (held_of seat.new ≡ held_of seat.old) × (done_of seat.new ≡ done_of seat.old) × (had_none seat.new ≡ had_none seat.old) }
    {
        let code = self.table.shared.load::<Glance>(&mut seat.seat, LEAST);
        match stopper_of(code) {
            Some((column, _)) => Some(column),
            None => None,
        }
    }

    /// The first stopper of a chunk, and whether it is unfit.
    pub fn price<A: Arith>(&self, chunk: u32, arith: &mut A) -> Option<(u32, bool)>
        requires chunk { chunk < chunk_count (inst_of self.now) }
        requires width { A.width arith.old ≡ width_of self.now }
        ensures first { IsFirstIn self.now chunk result }
        ensures width { A.width arith.new ≡ A.width arith.old }
        ensures unfit { A.unfit_count arith.new ≡ unfit_where (A.unfit_count arith.old) (is_unfit result) }
        ensures work { A.work_count arith.new ≤ A.work_count arith.old + 64 * row_count (inst_of self.now) }
    {
        // `rows` says that the instance is well formed, so a column has at most m entries: `work` stands on that.
        let _rows = self.inst.rows();
        let from = CHUNK * chunk as usize;
        let to = (from + CHUNK).min(self.inst.columns());
        first_stopper(&self.inst, &self.ticket, from, to, arith)
    }

    /// Offers what was found in a chunk that the seat holds: its first stopper, or none where it has none or where the
    /// seat has seen a stopper below it.
    pub fn offer(&self, seat: &mut Seat, chunk: u32, found: Option<(u32, bool)>)
        requires round { IsSeatOf self.now seat.old }
        requires held { Contains (held_of seat.old) chunk }
        requires found { MayOffer self.now seat.old chunk found }
        ensures round { IsSeatOf self.now seat.new }
        ensures done { (held_of seat.new ≡ without chunk (held_of seat.old)) × (done_of seat.new ≡ chunk ∷ done_of seat.old) }
        ensures seen { seen_of seat.new ≡ min (seen_of seat.old) (found_code found) }
        ensures same { had_none seat.new ≡ had_none seat.old }
    {
        offer_at::<Brand>(self, seat, chunk, found);
    }

    /// Ends the round with all its seats, where each chunk that was claimed was offered and a claim has had none. The
    /// choice is that of one thread. The `Err` would be want of memory, and the end takes none.
    pub fn close(self, seats: Vec<Seat>) -> Result<Choice, Memory>
        requires count { vec_len seats ≡ seats_in self }
        requires seats { All (IsSeatOf self) seats.items }
        requires offered { All (λ seat. held_of seat ≡ []) seats.items }
        requires ended { list_any had_none seats.items ≡ true }
        ensures closed { IsOk result }
        ensures choice { IfOk result (IsChoiceOf (width_of self) (inst_of self) (ticket_of self)) }
    {
        let mut token = gather(&self, seats);
        let code = self.table.shared.load::<Glance>(&mut token, LEAST);
        Ok(choice_of(&self, code))
    }

    /// The number of its ticket.
    pub fn number(&self) -> u64
        ensures { result ≡ (ticket_of self.now).number }
    {
        self.ticket.number
    }

    // How many chunks there are.
    fn chunks(&self) -> u64
        ensures { result ≡ chunk_count (inst_of self.now) }
    {
        self.inst.columns().div_ceil(CHUNK) as u64
    }
}

// The table of a round, and the token of all its seats.
fn table_of(
    alloc: Global,
    inst: &Arc<Instance>,
    ticket: &Ticket,
    workers: u32,
    width: u32,
) -> Result<(Rows, Token), AllocError>
    requires { 1 ≤ workers }
    ensures words { IfOk result (λ made. made.0.shared.table_id.words ≡ 2) }
    ensures about { IfOk result (λ made. (made.0.shared.key.inst.value ≡ inst.now.value) × (made.0.shared.key.ticket.value ≡ ticket.now)) }
    ensures numbers { IfOk result (λ made. (made.0.shared.key.seats ≡ workers) × (made.0.shared.key.width ≡ width)) }
    ensures token { IfOk result (λ made. (made.1.table_id ≡ made.0.shared.table_id) × (made.1.me ≡ (first_view made.0.shared.key, []))) }
    ensures few { column_count inst.now.value < 2 ^ 32 }
{
    let columns = inst.columns();
    prove!(columns < 1 << 32);
    let plan = Plan {
        seats: workers,
        width,
        inst: Snapshot::of(&**inst),
        ticket: Snapshot::of(ticket),
    };
    Table::of_words(alloc, &[0, NO_CODE], &plan)
}

// Cuts a seat for each worker from the token of all seats.
fn deal(alloc: Global, words: &Words, mut token: Token, workers: u32) -> Result<Vec<Seat>, Memory>
    requires workers { (1 ≤ workers) × (words.now.key.seats ≡ workers) }
    requires words { words.now.table_id.words ≡ 2 }
    requires token { (token.table_id ≡ words.now.table_id) × (token.me ≡ (first_view words.now.key, [])) }
    ensures count { IfOk result (λ seats. vec_len seats ≡ workers) }
    ensures new { IfOk result (λ seats. All (IsNewSeat words.now.table_id words.now.key) seats.items) }
{
    let mut seats = Vec::new(alloc);
    for _ in 1..workers {
        let seat = words.split_seat::<Cut>(&mut token);
        seats.push(Seat { seat, over: false })?;
    }
    seats.push(Seat {
        seat: token,
        over: false,
    })?;
    Ok(seats)
}

// Offers what was found in the chunk that `J` names, which is `chunk`.
fn offer_at<J: Aim>(round: &Round, seat: &mut Seat, chunk: u32, found: Option<(u32, bool)>)
    requires round { IsSeatOf round.now seat.old }
    requires held { Contains (held_of seat.old) chunk }
    requires found { MayOffer round.now seat.old chunk found }
    requires aim { chunk ≡ J.chunk }
    ensures round { IsSeatOf round.now seat.new }
    ensures done { (held_of seat.new ≡ without chunk (held_of seat.old)) × (done_of seat.new ≡ chunk ∷ done_of seat.old) }
    ensures seen { seen_of seat.new ≡ min (seen_of seat.old) (found_code found) }
    ensures same { had_none seat.new ≡ had_none seat.old }
{
    round
        .table
        .shared
        .fetch_min::<Offer<J>>(&mut seat.seat, LEAST, code_of(found));
}

// Makes all seats of a round one token.
fn gather(round: &Round, mut seats: Vec<Seat>) -> Token
    requires count { vec_len seats ≡ seats_in round.now }
    requires seats { All (IsSeatOf round.now) seats.items }
    requires offered { All (λ seat. held_of seat ≡ []) seats.items }
    requires ended { list_any had_none seats.items ≡ true }
    ensures table { (result.table_id ≡ round.now.table.shared.table_id) × (result.me.0.plan ≡ Some (plan_of round.now)) }
    ensures all { (result.me.0.parts ≡ seats_in round.now) × (0 < result.me.0.parts) × (result.me.0.held ≡ []) × (0 < result.me.0.nones) }
{
    let Some(
        Seat {
            seat: mut token,
            over: _,
        },
    ) = seats.pop()
    else {
        unreachable!()
    };
    while let Some(Seat { seat, over: _ }) = seats.pop() {
        round.table.shared.join_seat::<Both>(&mut token, seat);
    }
    token
}

// The code of what was found.
fn code_of(found: Option<(u32, bool)>) -> u64
    ensures { result ≡ found_code found }
{
    match found {
        Some((column, unfit)) => 2 * u64::from(column) + u64::from(unfit),
        None => NO_CODE,
    }
}

// What a code stands for.
fn stopper_of(code: u64) -> Option<(u32, bool)>
    requires { IsCode code }
    ensures { MatchOption result (code ≡ no_code) (λ stopper. (stopper.0 < 2 ^ 32) × (code ≡ code_of stopper.0 stopper.1)) }
{
    if code == NO_CODE {
        return None;
    }
    Some(((code / 2) as u32, code % 2 == 1))
}

// The choice that the least code of all chunks stands for.
fn choice_of(round: &Round, code: u64) -> Choice
    requires { IsLeastOfAll (plan_of round.now) code }
    ensures { IsChoiceOf (width_of round.now) (inst_of round.now) (ticket_of round.now) result }
{
    let number = round.ticket.number;
    match stopper_of(code) {
        Some((column, unfit)) => Choice {
            number,
            stopper: Some(column),
            unfit,
        },
        None => Choice {
            number,
            stopper: None,
            unfit: false,
        },
    }
}
