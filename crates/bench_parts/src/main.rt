//! The program `bench_parts`: benchmarks of parts of the solver, and runs of their calls whose answers others know.
//!
//! - **What it is.** The first word names a part, and those behind it what is done with it: `arith` the arithmetic on fractions,
//!   `links` the search for pivots, `factors` the factors of a basis, `gate` the lock of `switch_gate` and that of `std`,
//!   `round` a round of pricing. Each works on what it draws from a fixed seed, and prints what came of it, most with a
//!   checksum. With the word `stored` a short run of each part is made, all operations on fractions at the edges of 127 bits
//!   (`arith edges`), and all calls on factors (`factors calls`).
//! - **How it is used.** The scripts `arith`, `links`, `factors`, `gate_lock` and `round` of `bench` run it beside a peer or a
//!   lock of another kind, and compare costs and checksums. `tests/second_numbers.py` and `tests/second_factors.py` judge
//!   what is stored of fractions and of factors.
//! - **The contract.** Safety alone: what the calls answer is promised by the crates that have them.
//! - **Stands on** `exact_frac`, `cross_links`, `ftran_btran`, `switch_gate` and `price_round`, which it measures, and on what
//!   these work on.
#![tactic(auto)]

use std::alloc::{AllocError, Global};
use std::process::ExitCode;
use std::rt::Env;
use std::sync::Wait;
use std::thread::Threads;
use std::time::Clock;
use std::{env, io};

mod arith;
mod draws;
mod factors;
mod gate;
mod links;
mod round;

const USAGE: &str = "usage: bench_parts arith edges
       bench_parts arith small|wide|full|mixed add|sub|mul|div|compare|none
       bench_parts links least|scan|load|eliminate drawn|triangular SIZE
       bench_parts factors calls
       bench_parts factors load|factor|ftran|btran|update|late_ftran|late_btran drawn|stair|transport SIZE TIMES
       bench_parts gate gate|mutex THREADS SESSIONS
       bench_parts round alone|SEATS first|middle|last|none TIMES
       bench_parts stored";

/// What is done.
#[derive(Clone, Copy)]
enum Job {
    Arith(arith::Job),
    Links(links::Job),
    Factors(factors::Job),
    Gate(gate::Job),
    Round(round::Job),
    /// What is stored beside the crate.
    Stored,
}

/// What is printed, and how many nanoseconds the fastest time took, where the program takes times.
#[derive(Drop)]
struct Report {
    text: String,
    nanoseconds: Option<u128>,
}

/// The words of the process without the program's name.
fn own_words<R: Env + AllocGlobal>(rt: &R) -> Result<Vec<String>, AllocError> {
    let mut words = Vec::new(rt.alloc());
    if let Ok(args) = env::args(rt) {
        for word in args.skip(1) {
            words.push(word)?;
        }
    }
    Ok(words)
}

/// What the words name, where they name all of it.
fn job_of(words: &[String]) -> Option<Job> {
    let part = words.first()?.as_str();
    match words.len() {
        1 if part == "stored" => Some(Job::Stored),
        2 => of_one(part, words[1].as_str()),
        3 if part == "arith" => Some(Job::Arith(arith::Job::named(
            words[1].as_str(),
            words[2].as_str(),
        )?)),
        4 => of_three(
            part,
            words[1].as_str(),
            words[2].as_str(),
            words[3].as_str(),
        ),
        5 if part == "factors" => Some(Job::Factors(factors::Job::named(
            words[1].as_str(),
            words[2].as_str(),
            words[3].as_str(),
            words[4].as_str(),
        )?)),
        _ => None,
    }
}

/// What a part and one word name.
fn of_one(part: &str, word: &str) -> Option<Job> {
    match (part, word) {
        ("arith", "edges") => Some(Job::Arith(arith::Job::Edges)),
        ("factors", "calls") => Some(Job::Factors(factors::Job::Calls)),
        _ => None,
    }
}

/// What a part and three words name.
fn of_three(part: &str, first: &str, second: &str, third: &str) -> Option<Job> {
    match part {
        "links" => Some(Job::Links(links::Job::named(first, second, third)?)),
        "gate" => Some(Job::Gate(gate::Job::named(first, second, third)?)),
        "round" => Some(Job::Round(round::Job::named(first, second, third)?)),
        _ => None,
    }
}

/// A text without times.
fn untimed(text: String) -> Option<Report> {
    Some(Report {
        text,
        nanoseconds: None,
    })
}

/// What a job comes to, where all numbers fit and memory is left.
fn said<R: Threads + Wait + Clock + Sync>(rt: &R, alloc: Global, job: Job) -> Option<Report> {
    match job {
        Job::Arith(job) => untimed(job.text(alloc)?),
        Job::Links(job) => untimed(job.text(alloc)?),
        Job::Factors(job) => untimed(job.text(alloc)?),
        Job::Gate(job) => untimed(job.text(rt, alloc)?),
        Job::Round(job) => {
            let (text, nanoseconds) = job.text(rt, alloc)?;
            Some(Report {
                text,
                nanoseconds: Some(nanoseconds),
            })
        }
        Job::Stored => untimed(stored(rt, alloc)?),
    }
}

/// A short run of each part, and all calls on factors.
fn stored<R: Threads + Wait + Clock + Sync>(rt: &R, alloc: Global) -> Option<String> {
    let arith = arith::Job::named("small", "add")?.text(alloc)?;
    let links = links::Job::named("eliminate", "drawn", "60")?.text(alloc)?;
    let gate = gate::Job::named("gate", "3", "1000")?.text(rt, alloc)?;
    let (round, _) = round::Job::named("2", "middle", "1")?.text(rt, alloc)?;
    let edges = arith::Job::Edges.text(alloc)?;
    let factors = factors::Job::Calls.text(alloc)?;
    format!(in alloc; "{arith}{links}{gate}{round}{edges}{factors}").ok()
}

fn main(rt: HostRuntime) -> io::Result<ExitCode> {
    let words = own_words(&rt)?;
    let Some(job) = job_of(&words) else {
        eprintln!(rt; "{USAGE}")?;
        return Ok(ExitCode::from(2));
    };
    let Some(said) = said(&rt, rt.alloc(), job) else {
        eprintln!(rt; "the basis is dependent, a number does not fit, or memory fails")?;
        return Ok(ExitCode::from(6));
    };
    print!(rt; "{}", said.text)?;
    if let Some(nanoseconds) = said.nanoseconds {
        eprintln!(rt; "{nanoseconds}")?;
    }
    Ok(ExitCode::SUCCESS)
}
