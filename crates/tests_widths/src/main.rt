//! The program `tests_widths`: a deck, solved at narrow widths.
//!
//! - **What it is.** The words are widths in bits, from 1 to 127. The program reads a deck in fixed columns from standard input, solves it at each of them, and prints a line
//!   for each: the width, and the outcome with the numbers that prove it and the count of moves; or the place of the value that does not fit. For a width behind
//!   the word `rounds` it prints a line for each round of the board instead: the width, and the board's number, updates, epoch, mode and standing after it.
//! - **How it is used.** `tests/widths` draws decks and compares each line with what the second solver finds at that width, where all values of the plain
//!   table are to fit, and where those are left out that a solver by factors does not work; and the rounds with those that are worked out by hand, or that
//!   the second solver's log tells.
//! - **The contract.** Safety alone. What a solve answers at a width is promised by `crew`, what a round comes to by `two_phase`.
//! - **Stands on** `mps_reader` for the deck, `crew` for the solve, `two_phase` for the rounds, and `frac_text` for numbers.
#![tactic(auto)]

ghost use Rattle.std.specs.Prelude.{◌≤◌};

use crew::{Closed, CrewFault, solve_alone};
use deck_model::{Deck, Outcome};
use exact_frac::{Fracs, Narrow};
use instance_model::{Instance, InstanceFault};
use io_ends::{Sink, Source, StdinEnds, StdoutEnds, write_all};
use lp_model::{Kind, Place};
use lp_text::Form;
use mps_cards::LineReader;
use mps_reader::read_deck;
use no_memory::Memory;
use std::alloc::{AllocError, Global};
use std::env;
use std::process::ExitCode;
use std::rt::Env;
use std::sync::Arc;
use std::thread::Threads;

mod rounds;

/// How many moves a run may have.
const BUDGET: u64 = 1_000_000;

/// What a solve at a width comes to.
enum Answer {
    Closed(Closed),
    Unfit(Place),
    Spent,
}

/// The words of the process without the program's name.
fn own_words<R: Env + AllocGlobal>(rt: &R) -> Result<Vec<String>, AllocError> {
    let mut words = Vec::new(rt.alloc());
    if let Ok(args) = env::args(rt) {
        for word in args.skip(1) {
            words.push(word)?;
        }
    }
    Ok(words)
}

/// What a solve of a deck comes to at a width.
fn solved<R: Threads + Sync>(
    rt: &R,
    alloc: Global,
    deck: &Deck,
    width: u32,
) -> Result<Answer, Memory>
    requires some { 1 ≤ width }
    requires few { width ≤ 127 }
{
    let mut arith = Narrow::new(width);
    let inst = match Instance::of(alloc, deck, &mut arith) {
        Ok(inst) => Arc::new(alloc, inst)?,
        Err(InstanceFault::Overflow(place)) => return Ok(Answer::Unfit(place)),
        Err(InstanceFault::Memory) => return Err(Memory),
    };
    match solve_alone(rt, alloc, inst, BUDGET, &mut arith) {
        Ok(closed) => Ok(Answer::Closed(closed)),
        Err(CrewFault::Overflow(place)) => Ok(Answer::Unfit(place)),
        Err(CrewFault::Budget(_)) => Ok(Answer::Spent),
        Err(CrewFault::Memory) => Err(Memory),
    }
}

/// Appends a blank and a word.
fn put_word(text: &mut Vec<u8>, word: &str) -> Result<(), Memory> {
    text.push(b' ')?;
    text.extend_from_slice(word.as_bytes())?;
    Ok(())
}

/// Appends a blank and a count.
fn put_count(text: &mut Vec<u8>, count: u64) -> Result<(), Memory> {
    let digits = count.to_string(*text.allocator())?;
    put_word(text, digits.as_str())
}

/// Appends a blank and a row or a column, or a dash where there is none.
fn put_index(text: &mut Vec<u8>, index: Option<u32>) -> Result<(), Memory> {
    match index {
        Some(index) => put_count(text, u64::from(index)),
        None => put_word(text, "-"),
    }
}

/// Appends numbers, with a blank before each.
fn put_numbers(text: &mut Vec<u8>, numbers: &Fracs) -> Result<(), Memory> {
    for i in 0..numbers.len() {
        text.push(b' ')?;
        frac_text::append(text, numbers.get(i))?;
    }
    Ok(())
}

/// Appends an outcome with its numbers.
fn put_outcome(text: &mut Vec<u8>, outcome: &Outcome) -> Result<(), Memory> {
    match outcome {
        Outcome::Optimal { x, y, objective } => {
            put_word(text, "OPTIMAL ")?;
            frac_text::append(text, *objective)?;
            put_numbers(text, x)?;
            put_numbers(text, y)
        }
        Outcome::Infeasible { y } => {
            put_word(text, "INFEASIBLE")?;
            put_numbers(text, y)
        }
        Outcome::Unbounded { x, ray } => {
            put_word(text, "UNBOUNDED")?;
            put_numbers(text, x)?;
            put_numbers(text, ray)
        }
    }
}

/// The word of a kind of value.
fn kind_word(kind: Kind) -> &'static str {
    match kind {
        Kind::Start => "start",
        Kind::Entry => "entry",
        Kind::Value => "value",
        Kind::Cost => "cost",
        Kind::Ratio => "ratio",
        Kind::Total => "total",
    }
}

/// Appends the place of a value that does not fit.
fn put_place(text: &mut Vec<u8>, place: Place) -> Result<(), Memory> {
    put_word(text, "OVERFLOW")?;
    put_count(text, place.number)?;
    put_word(text, kind_word(place.kind))?;
    put_index(text, place.row)?;
    put_index(text, place.column)
}

/// The line of a width.
fn line<R: Threads + Sync>(
    rt: &R,
    alloc: Global,
    deck: &Deck,
    width: u32,
) -> Result<Vec<u8>, Memory>
    requires some { 1 ≤ width }
    requires few { width ≤ 127 }
{
    let mut text = Vec::new(alloc);
    text.extend_from_slice(width.to_string(alloc)?.as_bytes())?;
    match solved(rt, alloc, deck, width)? {
        Answer::Closed(closed) => {
            put_count(&mut text, closed.moves)?;
            put_outcome(&mut text, &closed.outcome)?;
        }
        Answer::Unfit(place) => put_place(&mut text, place)?,
        Answer::Spent => put_word(&mut text, "SPENT")?,
    }
    text.push(b'\n')?;
    Ok(text)
}

/// Reads the deck, and writes what each width comes to; nothing more where a word is no width,
/// the text is no deck, a call on the board is refused, or an end or memory fails.
fn run<R: Threads + Sync, S: Source, K: Sink>(
    rt: &R,
    alloc: Global,
    words: &[String],
    source: &mut S,
    out: &mut K,
) -> Option<()> {
    let mut lines = LineReader::new(alloc).ok()?;
    let deck = read_deck(alloc, &mut lines, source, Form::Fixed).ok()?;
    let mut has_rounds = false;
    for word in words {
        if word.as_str() == "rounds" {
            has_rounds = true;
            continue;
        }
        let width = word.as_str().parse::<u32>().ok()?;
        if width == 0 || width > 127 {
            return None;
        }
        let text = if has_rounds {
            rounds::rounds(rt, alloc, &deck, width)?
        } else {
            line(rt, alloc, &deck, width).ok()?
        };
        write_all(out, text.as_slice()).ok()?;
    }
    Some(())
}

fn main(rt: HostRuntime) -> ExitCode {
    let mut source = StdinEnds::new(rt.stdin());
    let mut out = StdoutEnds::new(rt.stdout());
    let Ok(words) = own_words(&rt) else {
        return ExitCode::from(1);
    };
    match run(&rt, rt.alloc(), &words, &mut source, &mut out) {
        Some(()) => ExitCode::SUCCESS,
        None => ExitCode::from(1),
    }
}
