//! How a table is made.
ghost use Rattle.std.specs.Prelude.{◌≡◌, [], length, IfOk, OnOk};
ghost use Rattle.lp_run.specs.Listing.{StartFits, Judges};
ghost use Rattle.exact_frac.specs.Count.{unfit_after};
ghost use Rattle.lp_run.specs.Instance.{IsWellFormed};
ghost use Rattle.plain_table.specs.Answers.{IsRunLog, MakesTable, unfit_after_making};
ghost use Rattle.plain_table.specs.Inner.Makings.{IsAtStart, IsFilled, making_listing};
ghost use Rattle.plain_table.specs.Inner.Rows.{AreWide};

use crate::costs::{basic_costs, work_costs};
use crate::faults::TableFault;
use crate::row::Row;
use crate::start::fill_rows;
use crate::start_values::work_start_values;
use crate::table::Table;
use deck_model::Log;
use exact_frac::{Arith, Frac};
use instance_model::Instance;
use lp_model::Place;
use no_memory::Memory;
use std::alloc::{AllocError, Global};
use std::thread::Threads;

// So many zeros.
#[tactic(auto, using(exact_frac::specs::Constants::constants))]
fn zeros(alloc: Global, count: usize) -> Result<Vec<Frac>, AllocError>
    ensures { IfOk result (λ line. length line.items ≡ count) }
{
    vec![in alloc; Frac::ZERO; count]
}

// So many rows of zeros.
fn zero_rows(alloc: Global, count: usize, width: usize) -> Result<Vec<Row>, AllocError>
    ensures count { IfOk result (λ rows. length rows.items ≡ count) }
    ensures wide { IfOk result (λ rows. AreWide width rows.items) }
{
    let mut rows = Vec::with_capacity(alloc, count)?;
    for made in 0..count {
        rows.push(Row::of(zeros(alloc, width)?))?;
    }
    Ok(rows)
}

impl Table {
    /// The table of the start. It takes all memory that its steps need.
    ///
    /// # Errors
    ///
    /// `Overflow` with the place of the first value of the making that does not fit the width, where there is one:
    /// an entry, a basic value, or a number worked for a reduced cost. `Memory` for want of memory.
    pub fn start<A: Arith>(
        alloc: Global,
        inst: &Instance,
        arith: &mut A,
    ) -> Result<Table, TableFault>
        requires { StartFits (A.width arith.old) inst.now }
        ensures made { MakesTable (A.width arith.old) inst.now [] result }
        ensures width { A.width arith.new ≡ A.width arith.old }
        ensures unfit { A.unfit_count arith.new ≡ unfit_after_making (A.unfit_count arith.old) result }
    {
        let mut table = Table::blank(alloc, inst)?;
        match table.fill(inst, arith) {
            Ok(()) => Ok(table),
            Err(place) => Err(TableFault::Overflow(place)),
        }
    }

    /// The table at the state that the first entries of the run lead to. It takes all memory that its steps need.
    ///
    /// # Errors
    ///
    /// `Overflow` with the place of the first value that does not fit the width, where there is one, of all that is
    /// worked on the way. `Memory` for want of memory.
    pub fn replay<R: Threads + Sync, A: Arith>(
        rt: &R,
        alloc: Global,
        inst: &Instance,
        log: &Log,
        arith: &mut A,
    ) -> Result<Table, TableFault>
        requires fits { StartFits (A.width arith.old) inst.now }
        requires run { IsRunLog inst.now log.now }
        ensures made { MakesTable (A.width arith.old) inst.now log.now result }
        ensures width { A.width arith.new ≡ A.width arith.old }
        ensures unfit { A.unfit_count arith.new ≡ unfit_after_making (A.unfit_count arith.old) result }
    {
        let mut table = Table::start(alloc, inst, arith)?;
        let entries = log.entries();
        for k in 0..entries.len() {
            match table.step(rt, inst, entries[k], arith) {
                Ok(()) => {}
                Err(place) => return Err(TableFault::Overflow(place)),
            }
        }
        Ok(table)
    }

    // A table at the start with all its memory, whose numbers are not worked yet.
    fn blank(alloc: Global, inst: &Instance) -> Result<Table, Memory>
        ensures well_formed { IfOk result (λ _. IsWellFormed inst.now) }
        ensures start { IfOk result (λ table. IsAtStart inst.now table) }
    {
        let rows = inst.rows();
        let columns = inst.columns();
        Ok(Table {
            state: inst.start(alloc)?,
            rows: zero_rows(alloc, rows, columns)?,
            values: zeros(alloc, rows)?,
            costs: zeros(alloc, columns)?,
            number: 0,
            spare_rows: zero_rows(alloc, rows, columns)?,
            spare_values: zeros(alloc, rows)?,
            spare_costs: zeros(alloc, columns)?,
            pivot_row: zeros(alloc, columns)?,
            support: vec![in alloc; 0; columns]?,
            alpha: zeros(alloc, rows)?,
        })
    }

    // Works the numbers of the table at the start.
    fn fill<A: Arith>(&mut self, inst: &Instance, arith: &mut A) -> Result<(), Place>
        requires start { IsAtStart inst.now self.old }
        requires fits { StartFits (A.width arith.old) inst.now }
        ensures answer { Judges (A.width arith.old) (making_listing inst.now) result }
        ensures filled { OnOk result (IsFilled inst.now self.new) }
        ensures width { A.width arith.new ≡ A.width arith.old }
        ensures unfit { A.unfit_count arith.new ≡ unfit_after (A.unfit_count arith.old) result }
    {
        fill_rows(inst, arith, self.rows.as_mut_slice())?;
        work_start_values(inst, arith, self.values.as_mut_slice())?;
        let phase = self.state.phase();
        basic_costs(inst, &self.state, phase, self.alpha.as_mut_slice());
        work_costs(
            0,
            inst,
            phase,
            &self.alpha,
            &self.rows,
            arith,
            self.costs.as_mut_slice(),
        )
    }
}
