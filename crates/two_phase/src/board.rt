//! The board: a run with its budget, its arithmetic and its log.
ghost use Rattle.std.specs.Prelude.{◌≡◌, ◌≢◌, ◌+◌, ◌<◌, ◌≤◌, ◌↔◌, ℕ, [], length, false, IsTrue, IfErr, IfOk, OnErr, OnOk, Err};
ghost use Rattle.lp_model.specs.Log.{moves as moves_of};
ghost use Rattle.deck_model.specs.Outcome.{outcome_of};
ghost use Rattle.lp_run.specs.Ends.{HasOutcome, Yields};
ghost use Rattle.lp_run.specs.Instance.{IsWellFormed};
ghost use Rattle.lp_run.specs.Instance.{row_count};
ghost use Rattle.lp_run.specs.Listing.{StartFits};
ghost use Rattle.bland_ratio.specs.Entries.{nonzero_costs, stored_entries};
ghost use Rattle.factor_run.specs.Bound.{making_work};
ghost use Rattle.factor_run.specs.Calm.{IsCalm};
ghost use Rattle.two_phase.specs.Works.{ground_owed, move_work, recorded_work};
ghost use Rattle.lp_run.specs.Run.{IsRun};
ghost use Rattle.bland_ratio.specs.Pricing.{IsExactChoice};
ghost use Rattle.run_outcome.specs.Endings.{IsOutcomeCause, count_after};
ghost use Rattle.two_phase.specs.Board.{AreBuilt, BoardStands, HasFactors, HasGivenUp, HasGivenUpFor, HasNoCause, IsChoiceFor, HasEnded, IsClosingCause, IsRecordCause, IsSameRun, IsStandingOf, IsStartCause, IsTicketCause, IsUnmoved, Records, standing_on, state_of};
ghost use Rattle.two_phase.specs.Inner.Recording.{IsTakingCause, noted};
ghost use Rattle.two_phase.specs.Inner.Grounds.{Asks, BeginsBuilt, GroundStands, WantsTable};
ghost use Rattle.two_phase.specs.Modes.{mode_of};
ghost use Rattle.two_phase.specs.declared.standing.BoardFault.{BoardFault};
ghost use Rattle.two_phase.specs.declared.standing.Course.{Course};
ghost use Rattle.two_phase.specs.declared.standing.Mode.{Mode};
ghost use Rattle.two_phase.specs.declared.standing.Standing.{Standing};

use crate::ground::Ground;
use crate::reached::Reached;
use crate::shown::show;
use crate::standing::{
    BoardFault, Course, Mode, Recorded, Standing, answer_of, board_fault, closing_fault,
    course_after, standing_of,
};
use bland_ratio::{Choice, Ticket};
use deck_model::{Log, Outcome};
use exact_frac::Arith;
use instance_model::Instance;
use run_outcome::{OutcomeFault, Stop};
use std::alloc::Global;
use std::sync::Arc;
use std::thread::Threads;

/// A run of an instance, with the budget of its moves, its arithmetic and its log.
#[derive(Drop)]
pub struct Board<A: Arith> {
    pub(crate) inst: Arc<Instance>,
    pub(crate) budget: u64,
    pub(crate) arith: A,
    pub(crate) log: Log,
    pub(crate) ground: Ground,
    pub(crate) course: Course,
    // the factors' own while there are some, and what they were when they were given up
    pub(crate) epoch: u64,
    pub(crate) updates: u32,
}

/// Why no board was made; the arithmetic comes back.
#[derive(Drop)]
pub struct NewFault<A: Arith> {
    /// The arithmetic, which has worked up to the refusal.
    pub arith: A,
    /// `Memory` or `Overflow`.
    pub fault: BoardFault,
}

/// What a run comes to.
#[derive(Debug, Drop)]
pub struct Closed {
    /// The outcome, whose lists have a number for each structural or each row.
    pub outcome: Outcome,
    /// The whole run.
    pub log: Log,
    /// How many of its entries are flips and swaps.
    pub moves: u64,
}

/// Why a board was not closed; it comes back.
#[derive(Drop)]
pub struct CloseFault<A: Arith> {
    /// The board, as it was.
    pub board: Board<A>,
    /// `Memory` or `Overflow`.
    pub fault: BoardFault,
}

impl<A: Arith> Board<A> {
    /// The board at the start of a run, with factors of the start's basis, for which no value is worked.
    ///
    /// # Errors
    ///
    /// Where a basic value of the start does not fit the width, `Overflow` with the place of the first value of the plain
    /// table's making that does not; `Memory` for want of memory. The arithmetic comes back.
    pub fn new(
        alloc: Global,
        inst: Arc<Instance>,
        budget: u64,
        arith: A,
    ) -> Result<Board<A>, NewFault<A>>
        requires fits { StartFits (A.width arith) inst.value }
        ensures stands { IfOk result (λ board. BoardStands (A.width arith) board) }
        ensures start { IfOk result (λ board. (board.inst ≡ inst) × (board.budget ≡ budget) × (board.log ≡ []) × (standing_on board ≡ Standing.Running) × (board.epoch ≡ 0) × (board.updates ≡ 0)) }
        ensures width { IfOk result (λ board. A.width board.arith ≡ A.width arith) }
        ensures factors { IfOk result (λ board. mode_of board.ground ≡ Mode.Factors) }
        ensures built { IfOk result (AreBuilt (A.width arith)) }
        ensures fits { IfOk result (λ board. A.unfit_count board.arith ≡ A.unfit_count arith) }
        ensures work { IfOk result (λ board. A.work_count board.arith ≤ A.work_count arith + (stored_entries inst.value + making_work inst.value)) }
        ensures refused { IsCalm (A.width arith) inst.value → IfErr result (λ refused. (refused.fault ≡ BoardFault.Memory) × (A.unfit_count refused.arith ≡ A.unfit_count arith)) }
        ensures fault { IfErr result (λ refused. IsStartCause (A.width arith) inst.value (A.unfit_count arith) (A.unfit_count refused.arith) refused.fault) }
        ensures handed_back { IfErr result (λ refused. (A.width refused.arith ≡ A.width arith) × (A.unfit_count arith ≤ A.unfit_count refused.arith)) }
    {
        let mut arith = arith;
        match begin(alloc, &inst, &mut arith) {
            Ok(ground) => Ok(Board {
                inst,
                budget,
                arith,
                log: Log::new(alloc),
                ground,
                course: Course::Running,
                epoch: 0,
                updates: 0,
            }),
            Err(fault) => Err(NewFault { arith, fault }),
        }
    }

    /// The ticket of the board's state, exact for it: with its prices where the board works with factors, else with its
    /// reduced costs. Where the prices are not worked yet and do not fit the width, and only there, the factors are given up,
    /// and the mode becomes Plain.
    ///
    /// # Errors
    ///
    /// `Ended` exactly where the run does not go on; `Overflow` with the place of the first value of the run that does not
    /// fit the width, where the mode is Plain or the factors are given up; `Memory` for want of memory. The board is as it was then,
    /// but for its counts of unfit results and of work.
    pub fn ticket<R: Threads + Sync>(&mut self, rt: &R, alloc: Global) -> Result<Ticket, BoardFault>
        requires stands { BoardStands (A.width self.old.arith) self.old }
        ensures stands { BoardStands (A.width self.old.arith) self.new }
        ensures same { IsSameRun self.old self.new }
        ensures unmoved { IsUnmoved self.old self.new }
        ensures refused { OnErr result (mode_of self.new.ground ≡ mode_of self.old.ground) }
        ensures asks { IfOk result (Asks self.old.inst.value self.old.log self.new.ground) }
        ensures rescued { OnOk result ((mode_of self.new.ground ≡ Mode.Plain) ↔ WantsTable (A.width self.old.arith) self.old.inst.value self.old.ground) }
        ensures ended { standing_on self.old ≢ Standing.Running → result ≡ Err (BoardFault.Ended (standing_on self.old)) }
        ensures fault { IfErr result (IsTicketCause (A.width self.old.arith) self.old (A.unfit_count self.old.arith) (A.unfit_count self.new.arith)) }
        ensures built { AreBuilt (A.width self.old.arith) self.old → AreBuilt (A.width self.old.arith) self.new }
        ensures width { A.width self.new.arith ≡ A.width self.old.arith }
        ensures unfit { A.unfit_count self.old.arith ≤ A.unfit_count self.new.arith }
        ensures fits { HasNoCause (A.width self.old.arith) self.old → A.unfit_count self.new.arith ≡ A.unfit_count self.old.arith }
        ensures owed { HasNoCause (A.width self.old.arith) self.old
            → IfOk result (λ _. A.work_count self.new.arith ≤ A.work_count self.old.arith + ground_owed (row_count self.old.inst.value) self.old.ground) }
        ensures unowed { HasNoCause (A.width self.old.arith) self.old → IfOk result (λ _. ground_owed (row_count self.old.inst.value) self.new.ground ≡ 0) }
    {
        if !self.is_running() {
            return Err(BoardFault::Ended(self.standing()));
        }
        match self
            .ground
            .ticket(rt, alloc, &self.inst, &self.log, &mut self.arith)
        {
            Ok(ticket) => Ok(ticket),
            Err(fault) => Err(board_fault(fault)),
        }
    }

    // Takes in a choice of the board's own state.
    fn take<R: Threads + Sync>(
        &mut self,
        rt: &R,
        alloc: Global,
        choice: &Choice,
    ) -> Result<Recorded, BoardFault>
        requires stands { BoardStands (A.width self.old.arith) self.old }
        requires running { standing_on self.old ≡ Standing.Running }
        requires exact { IsExactChoice (A.width self.old.arith) self.old.inst.value (state_of self.old) choice.now }
        ensures stands { BoardStands (A.width self.old.arith) self.new }
        ensures same { IsSameRun self.old self.new }
        ensures recorded { IfOk result (Records self.old self.new choice.now) }
        ensures unmoved { OnErr result (IsUnmoved self.old self.new) }
        ensures refused { OnErr result (mode_of self.new.ground ≡ mode_of self.old.ground) }
        ensures fault { IfErr result (IsTakingCause (A.width self.old.arith) self.old choice.now (A.unfit_count self.old.arith) (A.unfit_count self.new.arith)) }
        ensures given_up { choice.now.unfit ≡ false → HasGivenUp (A.width self.old.arith) self.old self.new }
        ensures built { AreBuilt (A.width self.old.arith) self.old → AreBuilt (A.width self.old.arith) self.new }
        ensures width { A.width self.new.arith ≡ A.width self.old.arith }
        ensures unfit { A.unfit_count self.old.arith ≤ A.unfit_count self.new.arith }
        ensures fits { choice.now.unfit ≡ false → HasNoCause (A.width self.old.arith) self.old → A.unfit_count self.new.arith ≡ A.unfit_count self.old.arith }
        ensures spent { choice.now.unfit ≡ false → HasNoCause (A.width self.old.arith) self.old → IfOk result (λ recorded. A.work_count self.new.arith ≤ A.work_count self.old.arith
            + (ground_owed (row_count self.old.inst.value) self.old.ground + (move_work (row_count self.old.inst.value) + recorded_work (row_count self.old.inst.value) self.old.updates recorded))) }
    {
        match self.ground.record(
            rt,
            alloc,
            &self.inst,
            self.budget,
            &mut self.log,
            choice,
            &mut self.arith,
        ) {
            Ok(gone) => {
                self.note(gone);
                Ok(answer_of(gone))
            }
            Err(fault) => Err(board_fault(fault)),
        }
    }

    // Notes what a step comes to, and the counts of the factors where there are some.
    fn note(&mut self, gone: Option<Reached>)
        ensures { self.new ≡ noted gone self.old }
    {
        if let Some(reached) = gone {
            self.course = course_after(reached);
        }
        if let Ground::Factors(iterate) = &self.ground {
            self.epoch = iterate.factors.base();
            self.updates = iterate.factors.updates();
        }
    }

    /// Takes in what follows from a choice: the next entry of the run comes into the log, or the run ends. Where the choice
    /// is unfit and the board works with factors, and only there, the answer is `Rescued`: they are given up, the mode becomes
    /// Plain, and a new choice is wanted. In mode Plain an unfit choice is settled by the reduced costs. A swap after 64 updates
    /// makes the factors anew.
    ///
    /// # Errors
    ///
    /// `Ended` exactly where the run does not go on; then `Stale` exactly where the choice is of an earlier number than the
    /// board's. `Overflow` with the place of the first value of the run that does not fit the width, `Memory` for want of
    /// memory. The board is as it was then, but for its counts of unfit results and of work.
    pub fn record<R: Threads + Sync>(
        &mut self,
        rt: &R,
        alloc: Global,
        choice: Choice,
    ) -> Result<Recorded, BoardFault>
        requires stands { BoardStands (A.width self.old.arith) self.old }
        requires exact { IsChoiceFor (A.width self.old.arith) self.old.inst.value (length self.old.log) choice }
        ensures stands { BoardStands (A.width self.old.arith) self.new }
        ensures same { IsSameRun self.old self.new }
        ensures recorded { IfOk result (Records self.old self.new choice) }
        ensures unmoved { OnErr result (IsUnmoved self.old self.new) }
        ensures refused { OnErr result (mode_of self.new.ground ≡ mode_of self.old.ground) }
        ensures ended { standing_on self.old ≢ Standing.Running → result ≡ Err (BoardFault.Ended (standing_on self.old)) }
        ensures stale { standing_on self.old ≡ Standing.Running → choice.number < length self.old.log → result ≡ Err (BoardFault.Stale (length self.old.log)) }
        ensures fault { IfErr result (IsRecordCause (A.width self.old.arith) self.old choice (A.unfit_count self.old.arith) (A.unfit_count self.new.arith)) }
        ensures given_up { HasGivenUpFor (A.width self.old.arith) self.old self.new choice }
        ensures built { AreBuilt (A.width self.old.arith) self.old → AreBuilt (A.width self.old.arith) self.new }
        ensures width { A.width self.new.arith ≡ A.width self.old.arith }
        ensures unfit { A.unfit_count self.old.arith ≤ A.unfit_count self.new.arith }
        ensures fits { choice.unfit ≡ false → HasNoCause (A.width self.old.arith) self.old → A.unfit_count self.new.arith ≡ A.unfit_count self.old.arith }
        ensures spent { choice.unfit ≡ false → HasNoCause (A.width self.old.arith) self.old → IfOk result (λ recorded. A.work_count self.new.arith ≤ A.work_count self.old.arith
            + (ground_owed (row_count self.old.inst.value) self.old.ground + (move_work (row_count self.old.inst.value) + recorded_work (row_count self.old.inst.value) self.old.updates recorded))) }
    {
        if !self.is_running() {
            return Err(BoardFault::Ended(self.standing()));
        }
        if choice.number < self.number() {
            return Err(BoardFault::Stale(self.number()));
        }
        self.take(rt, alloc, &choice)
    }

    // The outcome at the end of the run.
    fn show(&mut self, alloc: Global, stop: Stop) -> Result<Outcome, OutcomeFault>
        requires stands { BoardStands (A.width self.old.arith) self.old }
        requires ended { self.old.course ≡ Course.Ended stop }
        ensures outcome { IfOk result (λ outcome. Yields self.old.inst.value (state_of self.old) (outcome_of outcome)) }
        ensures fault { IfErr result (IsOutcomeCause (A.width self.old.arith) self.old.inst.value self.old.log (state_of self.old)) }
        ensures kept { self.new ≡ record self.old { arith = self.new.arith } }
        ensures width { A.width self.new.arith ≡ A.width self.old.arith }
        ensures unfit { A.unfit_count self.new.arith ≡ count_after (A.unfit_count self.old.arith) result }
        ensures work { A.work_count self.new.arith ≤ A.work_count self.old.arith + nonzero_costs self.old.inst.value }
    {
        show(
            alloc,
            &self.inst,
            self.log.len() as u64,
            &self.ground,
            stop,
            &mut self.arith,
        )
    }

    /// Closes a board whose run has ended: the outcome with the log and its moves, and the arithmetic.
    ///
    /// # Errors
    ///
    /// At an optimum `Overflow` with the place of the first sum of the objective that does not fit the width; `Memory` for
    /// want of memory.
    pub fn close(self, alloc: Global) -> Result<(Closed, A), CloseFault<A>>
        requires stands { BoardStands (A.width self.arith) self }
        requires ended { HasEnded self }
        ensures outcome { IfOk result (λ closed. HasOutcome self.inst.value self.log (outcome_of closed.0.outcome)) }
        ensures log { IfOk result (λ closed. (closed.0.log ≡ self.log) × (closed.0.moves ≡ moves_of self.log)) }
        ensures arith { IfOk result (λ closed. (A.width closed.1 ≡ A.width self.arith) × (A.unfit_count closed.1 ≡ A.unfit_count self.arith)) }
        ensures fault { IfErr result (λ refused. IsClosingCause (A.width self.arith) self (A.unfit_count self.arith) (A.unfit_count refused.board.arith) refused.fault) }
        ensures kept { IfErr result (λ refused. refused.board ≡ record self { arith = refused.board.arith }) }
        ensures width { IfErr result (λ refused. (A.width refused.board.arith ≡ A.width self.arith) × (A.unfit_count self.arith ≤ A.unfit_count refused.board.arith)) }
        ensures work { IfOk result (λ closed. A.work_count closed.1 ≤ A.work_count self.arith + nonzero_costs self.inst.value) }
        ensures fits { IfErr result (λ refused. refused.fault ≡ BoardFault.Memory → A.unfit_count refused.board.arith ≡ A.unfit_count self.arith) }
    {
        let mut board = self;
        let stop = board.stop();
        match board.show(alloc, stop) {
            Ok(outcome) => {
                let moves = board.log.moves();
                Ok((
                    Closed {
                        outcome,
                        log: board.log,
                        moves,
                    },
                    board.arith,
                ))
            }
            Err(fault) => Err(CloseFault {
                board,
                fault: closing_fault(fault),
            }),
        }
    }

    // How the run has ended.
    fn stop(&self) -> Stop
        requires { HasEnded self.now }
        ensures { self.now.course ≡ Course.Ended result }
    {
        match self.course {
            Course::Ended(stop) => stop,
            Course::Running | Course::Spent => unreachable!(),
        }
    }

    // Whether the run goes on.
    fn is_running(&self) -> bool
        ensures { IsTrue result ↔ (standing_on self.now ≡ Standing.Running) }
    {
        match self.course {
            Course::Running => true,
            Course::Ended(_) | Course::Spent => false,
        }
    }

    /// The arithmetic.
    pub fn into_arith(self) -> A
        ensures { result ≡ self.arith }
    {
        self.arith
    }

    /// How many entries the log has.
    pub fn number(&self) -> u64
        ensures { result ≡ length self.now.log }
    {
        self.log.len() as u64
    }

    /// How many entries of the log are flips and swaps.
    pub fn moves(&self) -> u64
        ensures { result ≡ moves_of self.now.log }
    {
        self.log.moves()
    }

    /// The number at which the factors were made, or, where they are given up, the last ones were.
    pub fn epoch(&self) -> u64
        ensures { result ≡ self.now.epoch }
    {
        self.epoch
    }

    /// How many updates the factors have had, or, where they are given up, the last ones had.
    pub fn updates(&self) -> u32
        ensures { result ≡ self.now.updates }
    {
        self.updates
    }

    /// What the board works with.
    pub fn mode(&self) -> Mode
        ensures { result ≡ mode_of self.now.ground }
    {
        match &self.ground {
            Ground::Factors(_) => Mode::Factors,
            Ground::Plain(_) => Mode::Plain,
        }
    }

    /// How the board stands.
    pub fn standing(&self) -> Standing
        ensures value { result ≡ standing_on self.now }
        ensures so { (w : ℕ) → BoardStands w self.now → IsStandingOf self.now.inst.value self.now.budget (length self.now.log) (state_of self.now) result }
    {
        standing_of(self.course)
    }

    /// The instance.
    pub fn instance(&self) -> &Arc<Instance>
        ensures { result.now ≡ self.now.inst }
    {
        &self.inst
    }

    /// The log, the first entries of the instance's run.
    pub fn log(&self) -> &Log
        ensures value { result.now ≡ self.now.log }
        ensures run { (w : ℕ) → BoardStands w self.now → IsRun self.now.inst.value self.now.log (state_of self.now) }
        ensures factors { (w : ℕ) → BoardStands w self.now → HasFactors self.now }
    {
        &self.log
    }
}

// The ground of the start.
fn begin<A: Arith>(alloc: Global, inst: &Instance, arith: &mut A) -> Result<Ground, BoardFault>
    requires fits { StartFits (A.width arith.old) inst.now }
    ensures well_formed { IsWellFormed inst.now }
    ensures stands { IfOk result (GroundStands (A.width arith.old) inst.now []) }
    ensures made { IfOk result (BeginsBuilt (A.width arith.old) inst.now) }
    ensures fault { IfErr result (IsStartCause (A.width arith.old) inst.now (A.unfit_count arith.old) (A.unfit_count arith.new)) }
    ensures width { A.width arith.new ≡ A.width arith.old }
    ensures unfit { A.unfit_count arith.old ≤ A.unfit_count arith.new }
    ensures factors { IfOk result (λ begun. mode_of begun ≡ Mode.Factors) }
    ensures fits { IfOk result (λ _. A.unfit_count arith.new ≡ A.unfit_count arith.old) }
    ensures work { IfOk result (λ _. A.work_count arith.new ≤ A.work_count arith.old + (stored_entries inst.now + making_work inst.now)) }
    ensures refused { IsCalm (A.width arith.old) inst.now → IfErr result (λ fault. (fault ≡ BoardFault.Memory) × (A.unfit_count arith.new ≡ A.unfit_count arith.old)) }
{
    let _rows = inst.rows();
    match Ground::start(alloc, inst, arith) {
        Ok(ground) => Ok(ground),
        Err(fault) => Err(board_fault(fault)),
    }
}
