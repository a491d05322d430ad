// What a run does.
ghost use Rattle.std.specs.Prelude.{◌≡◌, ◌<◌, ◌^◌, IfSome, length};
ghost use Rattle.std.specs.List.{All};
ghost use Rattle.markowitz_lu.specs.Columns.{HasNoZero};
ghost use Rattle.sparse_cols.specs.Sparse.{IsRising};
ghost use Rattle.ftran_btran.specs.Kept.{size};

use crate::draws::{Checksum, Draws};
use crate::factors::draws::{Drawing, Entering, Shape, zeros};
use crate::factors::solves::{exchanges, solve_columns, solve_rows};
use exact_frac::{Frac, Full127};
use ftran_btran::Factors;
use sparse_cols::SparseCol;
use std::alloc::Global;

/// How many columns enter, and how many rows of costs are solved for.
const COUNT: usize = 64;

/// What is done.
#[derive(Clone, Copy)]
pub(crate) enum Work {
    /// What is worked on is made.
    Load,
    /// The basis is factored.
    Factor,
    /// The columns are solved for.
    Ftran,
    /// The rows of costs are solved for.
    Btran,
    /// The columns enter.
    Update,
    /// The columns are solved for after they entered.
    LateFtran,
    /// The rows are solved for after the columns entered.
    LateBtran,
}

impl Work {
    /// The work of that name.
    pub(crate) fn named(word: &str) -> Option<Work> {
        match word {
            "load" => Some(Work::Load),
            "factor" => Some(Work::Factor),
            "ftran" => Some(Work::Ftran),
            "btran" => Some(Work::Btran),
            "update" => Some(Work::Update),
            "late_ftran" => Some(Work::LateFtran),
            "late_btran" => Some(Work::LateBtran),
            _ => None,
        }
    }
}

/// What is done, how many times, and to which basis.
#[derive(Clone, Copy)]
pub(crate) struct Task {
    pub work: Work,
    pub shape: Shape,
    pub size: u16,
    pub times: u16,
}

// The factors of the basis, made so many times, and at least once.
fn made(alloc: Global, m: usize, basis: &[SparseCol<Frac>], times: u16) -> Option<Factors>
    requires small { m < 2 ^ 16 }
    requires columns { length basis.now ≡ m }
    requires rows { All (λ column. column.length ≡ m) basis.now }
    requires stored { All HasNoZero basis.now }
    ensures { IfSome result (λ f. size f ≡ m) }
{
    for _ in 1..times {
        Factors::make(alloc, m, basis, 0, &mut Full127::new()).ok()?;
    }
    Factors::make(alloc, m, basis, 0, &mut Full127::new()).ok()
}

// The work on the factors. Of factoring the checksum takes in what they answer then.
fn work_on(
    alloc: Global,
    job: Task,
    factors: &mut Factors,
    entering: &[Entering],
    costs: &[Vec<Frac>],
    checksum: &mut Checksum,
) -> Option<()>
    requires columns { All (λ e. IsRising (size factors.old) 0 e.column.pairs) entering.now }
    requires rows { All (λ row. length row.items ≡ size factors.old) costs.now }
    ensures size { size factors.new ≡ size factors.old }
{
    let times = job.times;
    let mut spike = zeros(alloc, factors.len())?;
    let mut out = zeros(alloc, factors.len())?;
    match job.work {
        Work::Load => Some(()),
        Work::Factor => solve_rows(factors, costs, 1, &mut spike, &mut out, checksum),
        Work::Ftran => solve_columns(factors, entering, times, &mut spike, &mut out, checksum),
        Work::Btran => solve_rows(factors, costs, times, &mut spike, &mut out, checksum),
        Work::Update => exchanges(
            alloc, factors, entering, times, &mut spike, &mut out, checksum,
        ),
        Work::LateFtran => {
            exchanges(alloc, factors, entering, 1, &mut spike, &mut out, checksum)?;
            solve_columns(factors, entering, times, &mut spike, &mut out, checksum)
        }
        Work::LateBtran => {
            exchanges(alloc, factors, entering, 1, &mut spike, &mut out, checksum)?;
            solve_rows(factors, costs, times, &mut spike, &mut out, checksum)
        }
    }
}

/// Draws what is worked on, and does the work. Answers how many updates the factors have had; none where the basis is
/// dependent, a number does not fit, or memory fails.
pub(crate) fn run(alloc: Global, job: Task, checksum: &mut Checksum) -> Option<u32> {
    let m = job.size as usize;
    let mut drawing = Drawing {
        draws: Draws::new(),
        shape: job.shape,
        size: m,
    };
    let basis = drawing.basis(alloc)?;
    let entering = drawing.entering(alloc, COUNT)?;
    let costs = drawing.costs(alloc, COUNT)?;
    let times = match job.work {
        Work::Load => return Some(0),
        Work::Factor => job.times,
        _ => 1,
    };
    let mut factors = made(alloc, m, &basis, times)?;
    work_on(alloc, job, &mut factors, &entering, &costs, checksum)?;
    Some(factors.updates())
}
