// All calls on factors of drawn matrices. At narrow widths it is said whether each answers or a worked value does not fit; at full width the answers are written out.
ghost use Rattle.std.specs.Prelude.{◌≡◌, ◌<◌, ◌≤◌, ◌^◌, IfSome, length};
ghost use Rattle.std.specs.List.{All};
ghost use Rattle.markowitz_lu.specs.Columns.{HasNoZero};
ghost use Rattle.factor_model.specs.Factors.{most_updates};
ghost use Rattle.factor_model.specs.Upper.{Solves};
ghost use Rattle.ftran_btran.specs.Kept.{size};

use crate::draws::{Checksum, Draws};
use crate::factors::draws::{column_of, zeros};
use crate::factors::solves::{fold, replace};
use exact_frac::{Frac, Full127, Narrow};
use ftran_btran::{Factors, LuFault};
use sparse_cols::SparseCol;
use std::alloc::Global;

/// How many rows a matrix has at most at a narrow width.
const MOST_ROWS: usize = 6;

/// The greatest narrow width.
const MOST_BITS: u32 = 20;

/// How many matrices are drawn for each size and narrow width.
const CASES: usize = 3;

/// The columns of the basis of a blending problem at its optimum: five rows of feeds, four of demands, three of qualities.
const BLEND: [[i8; 12]; 12] = [
    [1, 0, 0, 0, 0, 0, 0, 0, 0, 0, 0, 0],
    [0, 1, 0, 0, 0, 0, 0, 0, 0, 0, 0, 0],
    [0, 0, 1, 0, 0, 0, 0, 0, 0, 0, 0, 0],
    [0, 0, 0, 0, 1, 0, 0, 0, 0, 0, 0, 0],
    [0, 1, 0, 0, 0, 1, 0, 0, 0, -5, 0, 0],
    [0, 1, 0, 0, 0, 0, 1, 0, 0, 0, -3, 0],
    [0, 1, 0, 0, 0, 0, 0, 1, 0, 0, 0, -7],
    [0, 1, 0, 0, 0, 0, 0, 0, 1, 0, 0, 0],
    [0, 0, 1, 0, 0, 1, 0, 0, 0, 0, 0, 0],
    [0, 0, 0, 1, 0, 1, 0, 0, 0, 5, 0, 0],
    [0, 0, 0, 1, 0, 0, 1, 0, 0, 0, 7, 0],
    [0, 0, 0, 1, 0, 0, 0, 1, 0, 0, 0, 3],
];

/// Where the columns of a matrix come from.
#[derive(Clone, Copy, PartialEq, Eq)]
enum Source {
    /// Each is drawn.
    Drawn,
    /// Each is drawn but the last, which is the one before it.
    Repeated,
    /// They are those of a unit matrix.
    Unit,
    /// They are those of the blending problem.
    Blend,
    /// They are multiples of (1, 2).
    Multiples,
}

/// A matrix, the width of the calls, and how many rounds are made of a solve for a column, one for a row, and an exchange.
#[derive(Clone, Copy)]
struct Plan {
    source: Source,
    rows: usize,
    bits: u32,
    rounds: usize,
    // one number in so many that are drawn may differ from 0
    rare: usize,
}

// What the calls said so far, and the checksum of their answers.
#[derive(Drop)]
struct Said {
    alloc: Global,
    words: String,
    checksum: Checksum,
    // whether the answers are written out
    is_open: bool,
}

impl Said {
    // One word more.
    fn say(&mut self, word: &str) -> Option<()> {
        self.words.push_str(" ").ok()?;
        self.words.push_str(word).ok()
    }

    // A number.
    fn say_number(&mut self, number: Frac) -> Option<()> {
        let (numer, denom) = (number.numer(), number.denom());
        let text = if denom == 1 {
            format!(in self.alloc; "{numer}").ok()?
        } else {
            format!(in self.alloc; "{numer}/{denom}").ok()?
        };
        self.say(&text)
    }

    // A word with its answer.
    fn say_answer(&mut self, word: &str, answer: &[Frac]) -> Option<()> {
        self.say(word)?;
        fold(&mut self.checksum, answer);
        if self.is_open {
            for number in answer {
                self.say_number(*number)?;
            }
        }
        Some(())
    }

    // An answer, or that there is none.
    fn say_solved(&mut self, is_fit: bool, answer: &[Frac]) -> Option<()> {
        if is_fit {
            self.say_answer("fits", answer)
        } else {
            self.say("unfit")
        }
    }

    // The end of a round.
    fn end_round(&mut self) -> Option<()> {
        if self.is_open {
            self.words.push_str("\n").ok()?;
        }
        Some(())
    }
}

// Whether a number is 0, as all are but one in so many, and which, each drawn.
fn number(draws: &mut Draws, rare: usize) -> Frac
    requires { 0 < rare }
{
    if draws.below(rare) < rare - 1 {
        return Frac::of(0, 1);
    }
    let numer = draws.below(9) as i128 - 4;
    Frac::of(numer, draws.below(3) as i128 + 1)
}

// A vector of so many numbers.
fn vector(draws: &mut Draws, alloc: Global, m: usize, rare: usize) -> Option<Vec<Frac>>
    requires { 0 < rare }
    ensures { IfSome result (λ items. length items.items ≡ m) }
{
    let mut items = zeros(alloc, m)?;
    for item in items.iter_mut() {
        *item = number(draws, rare);
    }
    Some(items)
}

// Sets an item that there is.
fn set(items: &mut [Frac], i: usize, value: i8) {
    if let Some(item) = items.get_mut(i) {
        *item = Frac::of(i128::from(value), 1);
    }
}

// The items of column `c`.
fn items_of(draws: &mut Draws, alloc: Global, plan: Plan, c: usize) -> Option<Vec<Frac>>
    ensures { IfSome result (λ items. length items.items ≡ plan.rows) }
{
    let mut items = zeros(alloc, plan.rows)?;
    match plan.source {
        Source::Drawn | Source::Repeated => return vector(draws, alloc, plan.rows, 2),
        Source::Unit => set(&mut items, c, 1),
        Source::Blend => {
            for (i, value) in BLEND.get(c)?.iter().enumerate() {
                set(&mut items, i, *value);
            }
        }
        Source::Multiples => {
            set(&mut items, 0, if c == 0 { 1 } else { 2 });
            set(&mut items, 1, if c == 0 { 2 } else { 4 });
        }
    }
    Some(items)
}

// The matrix.
fn matrix(draws: &mut Draws, alloc: Global, plan: Plan) -> Option<Vec<SparseCol<Frac>>>
    ensures columns { IfSome result (λ all. length all.items ≡ plan.rows) }
    ensures rows { IfSome result (λ all. All (λ column. column.length ≡ plan.rows) all.items) }
    ensures stored { IfSome result (λ all. All HasNoZero all.items) }
{
    let mut all = Vec::new(alloc);
    let mut items = zeros(alloc, plan.rows)?;
    for c in 0..plan.rows {
        if plan.source != Source::Repeated || c + 1 < plan.rows {
            items = items_of(draws, alloc, plan, c)?;
        }
        all.push(column_of(alloc, &items)?).ok()?;
    }
    Some(all)
}

// The factors of a matrix, made at full width, after what factoring says at the width of the plan.
fn factored(
    alloc: Global,
    plan: Plan,
    columns: &[SparseCol<Frac>],
    said: &mut Said,
) -> Option<Factors>
    requires small { plan.rows < 2 ^ 16 }
    requires columns { length columns.now ≡ plan.rows }
    requires rows { All (λ column. column.length ≡ plan.rows) columns.now }
    requires stored { All HasNoZero columns.now }
    requires low { 1 ≤ plan.bits }
    requires high { plan.bits ≤ 127 }
    ensures { IfSome result (λ f. size f ≡ plan.rows) }
{
    match Factors::make(alloc, plan.rows, columns, 0, &mut Narrow::new(plan.bits)) {
        Ok(_factors) => said.say("fits")?,
        Err(LuFault::Singular(y)) => said.say_answer("dependent", &y)?,
        Err(_fault) => said.say("unfit")?,
    }
    Factors::make(alloc, plan.rows, columns, 0, &mut Full127::new()).ok()
}

// Solves for a column and for a row.
fn solve(alloc: Global, factors: &Factors, items: &[Frac], bits: u32, said: &mut Said) -> Option<()>
    requires items { length items.now ≡ size factors.now }
    requires low { 1 ≤ bits }
    requires high { bits ≤ 127 }
{
    let mut work = zeros(alloc, items.len())?;
    let mut out = zeros(alloc, items.len())?;
    let column = column_of(alloc, items)?;
    let is_fit = factors
        .ftran(&column, &mut work, &mut out, &mut Narrow::new(bits))
        .is_ok();
    said.say_solved(is_fit, &out)?;
    let is_fit = factors
        .btran(items, &mut work, &mut out, &mut Narrow::new(bits))
        .is_ok();
    said.say_solved(is_fit, &out)
}

// Puts a column, whose spike and solution are given, into a position: at full width where a worked value does not fit.
fn enter(
    alloc: Global,
    factors: &mut Factors,
    p: usize,
    spike: &[Frac],
    out: &[Frac],
    bits: u32,
    said: &mut Said,
) -> Option<()>
    requires updates { factors.old.updates < most_updates }
    requires position { p < size factors.old }
    requires spike { length spike.now ≡ size factors.old }
    requires out { length out.now ≡ size factors.old }
    requires form { Solves factors.old.upper out.now spike.now }
    requires low { 1 ≤ bits }
    requires high { bits ≤ 127 }
    ensures size { size factors.new ≡ size factors.old }
{
    match replace(alloc, factors, p, spike, out, &mut Narrow::new(bits)) {
        Ok(()) => said.say("fits"),
        Err(_fault) => {
            replace(alloc, factors, p, spike, out, &mut Full127::new()).ok()?;
            said.say("unfit")
        }
    }
}

// Exchanges the column of a drawn position for a drawn one, where the columns stay independent. Instead of a unit matrix's column one enters that
// has 2 in the row of its position.
fn exchange(
    alloc: Global,
    plan: Plan,
    factors: &mut Factors,
    draws: &mut Draws,
    said: &mut Said,
) -> Option<()>
    requires size { size factors.old ≡ plan.rows }
    requires rare { 0 < plan.rare }
    requires low { 1 ≤ plan.bits }
    requires high { plan.bits ≤ 127 }
    ensures size { size factors.new ≡ size factors.old }
{
    let m = plan.rows;
    if m == 0 || factors.updates() >= 64 {
        return said.say("none");
    }
    let p = draws.below(m);
    let mut items = vector(draws, alloc, m, plan.rare)?;
    if plan.source == Source::Unit {
        set(&mut items, p, 2);
    }
    let column = column_of(alloc, &items)?;
    let mut spike = zeros(alloc, m)?;
    let mut out = zeros(alloc, m)?;
    match factors.ftran(&column, &mut spike, &mut out, &mut Full127::new()) {
        Ok(()) if out[p].is_zero() => said.say("dependent"),
        Ok(()) => enter(alloc, factors, p, &spike, &out, plan.bits, said),
        Err(_unfit) => None,
    }
}

// A round: for the blending problem the solves alone, for the column of a unit matrix.
fn round(
    alloc: Global,
    plan: Plan,
    factors: &mut Factors,
    k: usize,
    draws: &mut Draws,
    said: &mut Said,
) -> Option<()>
    requires size { size factors.old ≡ plan.rows }
    requires rare { 0 < plan.rare }
    requires low { 1 ≤ plan.bits }
    requires high { plan.bits ≤ 127 }
    ensures size { size factors.new ≡ size factors.old }
{
    if plan.source == Source::Blend {
        let mut items = zeros(alloc, plan.rows)?;
        set(&mut items, k, 1);
        return solve(alloc, factors, &items, plan.bits, said);
    }
    let items = vector(draws, alloc, plan.rows, plan.rare)?;
    solve(alloc, factors, &items, plan.bits, said)?;
    exchange(alloc, plan, factors, draws, said)
}

// The calls of a plan: factoring, and the rounds.
fn case(alloc: Global, plan: Plan, draws: &mut Draws, said: &mut Said) -> Option<()>
    requires small { plan.rows < 2 ^ 16 }
    requires rare { 0 < plan.rare }
    requires low { 1 ≤ plan.bits }
    requires high { plan.bits ≤ 127 }
{
    let (rows, bits) = (plan.rows, plan.bits);
    let head = format!(in alloc; "{rows} rows, {bits} bits:").ok()?;
    said.words.push_str(&head).ok()?;
    let columns = matrix(draws, alloc, plan)?;
    if let Some(mut factors) = factored(alloc, plan, &columns, said) {
        for k in 0..plan.rounds {
            said.end_round()?;
            round(alloc, plan, &mut factors, k, draws, said)?;
        }
    }
    said.words.push_str("\n").ok()
}

// A line for each case at a narrow width: its size, its width, and what each call says. Last, the checksum of all answers.
fn widths(alloc: Global, draws: &mut Draws, said: &mut Said) -> Option<()> {
    for rows in 0..MOST_ROWS + 1 {
        for bits in 1..MOST_BITS + 1 {
            for _ in 0..CASES {
                let plan = Plan {
                    source: Source::Drawn,
                    rows,
                    bits,
                    rounds: 4,
                    rare: 2,
                };
                case(alloc, plan, draws, said)?;
            }
        }
    }
    let sum = said.checksum.value();
    let last = format!(in alloc; "checksum {sum:016x}\n").ok()?;
    said.words.push_str(&last).ok()
}

// The answers at full width.
fn answers(
    alloc: Global,
    source: Source,
    rows: usize,
    rounds: usize,
    rare: usize,
    draws: &mut Draws,
    said: &mut Said,
) -> Option<()>
    requires small { rows < 2 ^ 16 }
    requires rare { 0 < rare }
{
    let plan = Plan {
        source,
        rows,
        bits: 127,
        rounds,
        rare,
    };
    case(alloc, plan, draws, said)
}

// The answers at full width for twelve drawn matrices of each size up to 12. The columns of each third one are dependent.
fn drawn(alloc: Global, draws: &mut Draws, said: &mut Said) -> Option<()> {
    for rows in 0..13 {
        for k in 0..12 {
            let source = if k % 3 == 0 {
                Source::Repeated
            } else {
                Source::Drawn
            };
            answers(alloc, source, rows, 2, 2, draws, said)?;
        }
    }
    Some(())
}

/// What each call says.
pub(crate) fn text(alloc: Global) -> Option<String> {
    let mut draws = Draws::new();
    let mut said = Said {
        alloc,
        words: String::new(alloc),
        checksum: Checksum::new(),
        is_open: false,
    };
    widths(alloc, &mut draws, &mut said)?;
    said.is_open = true;
    answers(alloc, Source::Multiples, 2, 0, 2, &mut draws, &mut said)?;
    answers(alloc, Source::Blend, 12, 12, 2, &mut draws, &mut said)?;
    answers(alloc, Source::Unit, 9, 80, 4, &mut draws, &mut said)?;
    answers(alloc, Source::Unit, 70, 80, 40, &mut draws, &mut said)?;
    drawn(alloc, &mut draws, &mut said)?;
    Some(said.words)
}
