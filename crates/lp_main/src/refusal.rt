// Why the program refuses, and the line that says so.
ghost use Rattle.std.specs.Prelude.{◌≡◌, ◌≤◌, ◌⊎◌, IfOk};
ghost use Rattle.lp_main.specs.Refusal.{line_of, status_of_refusal};
ghost use Rattle.lp_main.specs.Says.{Says};
ghost use Rattle.lp_main.specs.World.{stream};

use crate::fault_line::{fault_line, numbered, whole_line, wide_line};
use crate::overflow_line::{overflow_line, range_unfit_line};
use crate::status::Status;
use crate::verdict_line::{flaw_line, unfit_line};
use cert_check::Rule;
use deck_model::Name;
use io_ends::{Sink, write_all};
use lp_model::Place;
use mps_reader::DeckFault;
use ranging::RangePlace;
use report_lines::Flaw;
use std::alloc::{AllocError, Global};

/// Why the program refuses.
#[derive(Debug, Drop)]
pub enum Refusal {
    /// The words are none that are served.
    Usage,
    /// The text's first fault. A failed read and want of memory are refusals of their own.
    Deck(DeckFault),
    /// A read failed.
    Read,
    /// A write failed.
    Write,
    /// The place of a value of the run that does not fit the width of the arithmetic.
    Overflow(Place),
    /// The run needs more moves than this budget.
    Budget(u64),
    /// The line of this number, counted from the input's first, has the first flaw of the report.
    Report(u64, Flaw),
    /// A sum of this rule does not fit the width of the arithmetic; with the name of the rule's column or row.
    Unfit(Rule, Option<Name>),
    /// A value of the ranges does not fit the width of the arithmetic; with the name of its column or row.
    RangeUnfit(RangePlace, Name),
    /// A number of a deck that was to be written has no spelling on a card; with the name of its row or column, or of the objective.
    Wide(Name),
    /// Memory ran out.
    Memory,
}

impl Refusal {
    /// The status that goes with the refusal.
    pub fn status(&self) -> Status
        ensures { result ≡ status_of_refusal self.now }
    {
        match self {
            Refusal::Usage => Status::Usage,
            Refusal::Deck(_) => Status::BadInput,
            Refusal::Read => Status::ReadFault,
            Refusal::Write => Status::WriteFault,
            Refusal::Overflow(_) => Status::Overflow,
            Refusal::Budget(_) => Status::Budget,
            Refusal::Report(_, _) => Status::BadInput,
            Refusal::Unfit(_, _) => Status::Overflow,
            Refusal::RangeUnfit(_, _) => Status::Overflow,
            Refusal::Wide(_) => Status::BadInput,
            Refusal::Memory => Status::Memory,
        }
    }

    /// The line that says so.
    pub fn line(&self, alloc: Global) -> Result<Vec<u8>, AllocError>
        ensures { IfOk result (λ line. line.items ≡ line_of self.now) }
    {
        match self {
            Refusal::Usage => whole_line(
                alloc,
                "lp: usage: lp solve [--free] [--workers W] [--reinverters R] [--budget N] [--log] [--report V] or check [--free] or deck [--free] or make N or range [--free] or audit [--free]",
            ),
            Refusal::Deck(fault) => fault_line(alloc, fault),
            Refusal::Read => whole_line(alloc, "lp: read failed"),
            Refusal::Write => whole_line(alloc, "lp: write failed"),
            Refusal::Overflow(place) => overflow_line(alloc, *place),
            Refusal::Budget(moves) => numbered(alloc, "lp: budget spent after ", *moves, " moves"),
            Refusal::Report(number, flaw) => flaw_line(alloc, *number, *flaw),
            Refusal::Unfit(rule, name) => unfit_line(alloc, *rule, name),
            Refusal::RangeUnfit(place, name) => range_unfit_line(alloc, *place, name),
            Refusal::Wide(name) => wide_line(alloc, name),
            Refusal::Memory => whole_line(alloc, "lp: out of memory"),
        }
    }
}

/// Writes a line to standard error, as far as it takes it.
fn say<E: Sink>(err: &mut E, line: &[u8])
    ensures says { Says (stream (E.contents err.old) (E.fault_count err.old)) (stream (E.contents err.new) (E.fault_count err.new)) line.now }
    ensures never_falls { E.fault_count err.old ≤ E.fault_count err.new }
{
    let _ = write_all(err, line);
}

/// Says why the program refuses, and answers the status. Where there is no memory for the line, the
/// want of memory is the refusal.
pub fn refuse<E: Sink>(refusal: &Refusal, alloc: Global, err: &mut E) -> Status
    ensures said { (said : Refusal) × ((said ≡ refusal.now) ⊎ (said ≡ Refusal.Memory)) × (result ≡ status_of_refusal said)
        × Says (stream (E.contents err.old) (E.fault_count err.old)) (stream (E.contents err.new) (E.fault_count err.new)) (line_of said) }
    ensures never_falls { E.fault_count err.old ≤ E.fault_count err.new }
{
    match refusal.line(alloc) {
        Ok(line) => {
            say(err, line.as_slice());
            refusal.status()
        }
        Err(_) => {
            say(err, b"lp: out of memory\n");
            Status::Memory
        }
    }
}
