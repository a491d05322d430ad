//! The program `lp`: an exact linear programming system.
//!
//! `main` takes its words, makes the ends of the process, and calls [`top::run_alone`], which solves a deck, checks or audits a
//! report that stands behind one, tells how far the numbers of one may change, writes a deck in its layout, or makes a deck and solves
//! it, and waits for nobody. The contract of `run_alone` is over any source and any sinks, and speaks of their bytes where they tell
//! them. Its clause `truth` (`specs/Truths.antt`) says that a report that is written or accepted is true of its deck. Its clause `runs` (`specs/Runs.antt`): the bytes written are a reply
//! that the text may have (`MayReply` of `specs/Ends.antt`), or a beginning of one where an end failed. Its clause `works`
//! (`specs/Works.antt`): on a deck that is calm no value is too wide, and the products and quotients are bounded.
//!
//! Every deck in fixed MPS and in its free form is read, and each fault of a text has its line. Every deck is solved, in two phases: to an optimal
//! point with prices that prove it, to a Farkas row, which leaves no feasible point, or to a feasible point with a ray along
//! which the objective falls without end. Of an optimum the ranges of costs and right sides are told. A report of either version is
//! checked, rule by rule, and one with a log is audited, entry by entry.
//!
//! What the words ask for is told by `lp_words`. The deck is read by `mps_reader`, made an instance by `instance_model`, solved by
//! `crew`, and the report written by `cert_text`; its ranges are found and written by `ranging`; a report is read by `report_reader`, and judged by `cert_check` and `run_audit`; a
//! deck is written, and made, by `deck_tools`. The definitions that the contract cites are those of `mps_model`, `lp_model`, `lp_text`,
//! `report_lines`, `cert_check`, `ranging` and `deck_tools`.
#![tactic(auto)]

use crate::refusal::{Refusal, refuse};
use exact_frac::Full127;
use io_ends::{StderrEnds, StdinEnds, StdoutEnds};
use std::alloc::{AllocError, Global};
use std::env;
use std::io::ErrorKind;
use std::process::ExitCode;
use std::rt::Env;

mod auditing;
mod checking;
mod fault_line;
mod last_basis;
mod layout;
mod making;
mod overflow_line;
mod range;
mod refusal;
mod solve;
mod status;
mod top;
mod verdict_line;
mod words;

/// The words of the process without the program's name; none where one of them is no text.
fn own_words<R: Env + AllocGlobal>(rt: &R) -> Result<Vec<String>, AllocError> {
    let mut words = Vec::new(rt.alloc());
    match env::args(rt) {
        Ok(args) => {
            for word in args.skip(1) {
                words.push(word)?;
            }
            Ok(words)
        }
        Err(fault) if fault.kind() == ErrorKind::OutOfMemory => Err(AllocError),
        Err(_) => Ok(words),
    }
}

fn main(rt: HostRuntime) -> ExitCode {
    let alloc = rt.alloc();
    let mut source = StdinEnds::new(rt.stdin());
    let mut out = StdoutEnds::new(rt.stdout());
    let mut err = StderrEnds::new(rt.stderr());
    let mut arith = Full127::new();
    let Ok(words) = own_words(&rt) else {
        return ExitCode::from(refuse(&Refusal::Memory, alloc, &mut err).code());
    };
    let status = top::run_alone(
        &rt,
        alloc,
        &words,
        &mut source,
        &mut out,
        &mut err,
        &mut arith,
    );
    ExitCode::from(status.code())
}
