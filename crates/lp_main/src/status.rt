// How a call of the program ends.
ghost use Rattle.std.specs.Prelude.{◌≡◌};
ghost use Rattle.lp_main.specs.Codes.{code_of, status_of_answer};

/// How a call of the program ends.
#[derive(Clone, Copy, Debug, PartialEq, Eq)]
pub enum Status {
    /// What was asked for is written whole.
    Done,
    /// A check found a rule broken, or an audit another run.
    Refused,
    /// The words are no wish.
    Usage,
    /// The input has a fault.
    BadInput,
    /// A read failed.
    ReadFault,
    /// A write failed.
    WriteFault,
    /// A value does not fit the width of the arithmetic.
    Overflow,
    /// The run needs more moves than the budget.
    Budget,
    /// Memory ran out.
    Memory,
}

impl Status {
    /// The exit status of the process.
    pub fn code(self) -> u8
        ensures { result ≡ code_of self }
    {
        self as u8
    }
}

/// How a call ends that is not refused.
#[derive(Clone, Copy, Debug)]
pub enum Answer {
    /// What was asked for is written whole; a report that was to be checked is accepted, and one that was to be audited is the run.
    Done,
    /// A check found a rule broken, or an audit another run, and wrote which or where.
    Refused,
}

impl Answer {
    /// The status that goes with it.
    pub fn status(self) -> Status
        ensures { result ≡ status_of_answer self }
    {
        match self {
            Answer::Done => Status::Done,
            Answer::Refused => Status::Refused,
        }
    }
}
