//! What a seat does by itself.
ghost use Rattle.std.specs.Prelude.{◌≡◌, ◌+◌, ◌*◌, ◌<◌, ◌≤◌, [], ◌∷◌, true};
ghost use Rattle.lp_run.specs.Instance.{row_count};
ghost use Rattle.price_round.specs.Rounds.{chunk_count};
ghost use Rattle.price_round.specs.Seats.{inst_of, width_of, held_of, done_of, had_none, FitsAll, IsSeatOf};

use crate::calls::CHUNK;
use crate::round::{Round, Seat};
use exact_frac::Arith;

impl Round {
    /// Claims chunks until none is left, and offers what is in each. A chunk is priced unless the seat sees a stopper
    /// below it. The count of unfit results stays where no column of the round is an unfit stopper.
    pub fn work<A: Arith>(&self, mut seat: Seat, arith: &mut A) -> Seat
        requires round { IsSeatOf self.now seat }
        requires free { held_of seat ≡ [] }
        requires width { A.width arith.old ≡ width_of self.now }
        ensures round { IsSeatOf self.now result }
        ensures free { held_of result ≡ [] }
        ensures over { had_none result ≡ true }
        ensures width { A.width arith.new ≡ A.width arith.old }
        ensures fit { FitsAll self.now → A.unfit_count arith.new ≡ A.unfit_count arith.old }
    {
        while let Some(chunk) = self.claim(&mut seat) {
            self.settle(&mut seat, chunk, arith);
        }
        seat
    }

    /// Offers what is in a chunk that the seat holds alone. It is priced unless the seat sees a stopper below it. The count
    /// of unfit results stays where no column of the round is an unfit stopper.
    pub fn settle<A: Arith>(&self, seat: &mut Seat, chunk: u32, arith: &mut A)
        requires round { IsSeatOf self.now seat.old }
        requires chunk { chunk < chunk_count (inst_of self.now) }
        requires held { held_of seat.old ≡ chunk ∷ [] }
        requires width { A.width arith.old ≡ width_of self.now }
        ensures round { IsSeatOf self.now seat.new }
        ensures done { (held_of seat.new ≡ []) × (done_of seat.new ≡ chunk ∷ done_of seat.old) }
        ensures over { had_none seat.new ≡ had_none seat.old }
        ensures counts { (A.width arith.new ≡ A.width arith.old) × (A.unfit_count arith.old ≤ A.unfit_count arith.new) }
        ensures fit { FitsAll self.now → A.unfit_count arith.new ≡ A.unfit_count arith.old }
        ensures work { A.work_count arith.new ≤ A.work_count arith.old + 64 * row_count (inst_of self.now) }
    {
        let start = CHUNK as u64 * u64::from(chunk);
        let found = match self.glance(seat) {
            Some(column) if u64::from(column) < start => None,
            _ => self.price(chunk, arith),
        };
        self.offer(seat, chunk, found);
    }
}
