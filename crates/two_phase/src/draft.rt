//! What is worked beside a board: a state of its run under its number, and factors of the state's basis.
ghost use Rattle.std.specs.Prelude.{◌≡◌};

use ftran_btran::Factors;
use instance_model::{Instance, State};
use std::sync::Arc;

/// A state of a run under its number.
#[derive(Debug, Drop)]
pub struct Snapshot {
    /// How many entries of the run lead to the state.
    pub number: u64,
    /// The state.
    pub state: State,
}

/// Factors of the basis of a state, which may come into a board that stands at the state (`DraftStands`).
#[derive(Drop)]
pub struct Draft {
    inst: Arc<Instance>,
    base: u64,
    number: u64,
    state: State,
    factors: Factors,
}

/// The parts of a draft.
#[derive(Drop)]
pub struct DraftParts {
    /// The instance.
    pub inst: Arc<Instance>,
    /// The number at which the factors were made.
    pub base: u64,
    /// The state's number.
    pub number: u64,
    /// The state.
    pub state: State,
    /// Factors of its basis.
    pub factors: Factors,
}

impl Draft {
    ghost use Rattle.two_phase.specs.Drafts.{DraftStands};

    /// The draft of these parts: a state of this number, with factors of its basis that were made at the number `base`.
    pub fn of_parts(
        inst: Arc<Instance>,
        base: u64,
        number: u64,
        state: State,
        factors: Factors,
    ) -> Draft
        requires { DraftStands (record { inst = inst; base = base; number = number; state = state; factors = factors }) }
        ensures { result ≡ record { inst = inst; base = base; number = number; state = state; factors = factors } }
    {
        Draft {
            inst,
            base,
            number,
            state,
            factors,
        }
    }

    /// The parts of the draft.
    pub fn into_parts(self) -> DraftParts
        ensures { result ≡ record { inst = self.inst; base = self.base; number = self.number; state = self.state; factors = self.factors } }
    {
        DraftParts {
            inst: self.inst,
            base: self.base,
            number: self.number,
            state: self.state,
            factors: self.factors,
        }
    }

    /// The number at which the factors were made.
    pub fn base(&self) -> u64
        ensures { result ≡ self.now.base }
    {
        self.base
    }

    /// The number of the draft's state.
    pub fn number(&self) -> u64
        ensures { result ≡ self.now.number }
    {
        self.number
    }

    /// How many updates the factors have had.
    pub fn updates(&self) -> u32
        ensures { result ≡ self.now.factors.updates }
    {
        self.factors.updates()
    }
}
