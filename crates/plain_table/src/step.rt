//! How an entry changes a table.
ghost use Rattle.std.specs.Prelude.{◌≡◌, ◌+◌, ◌<◌, ◌^◌, ◌++◌, ◌∷◌, [], List, OnErr, OnOk};
ghost use Rattle.lp_model.specs.declared.Entry.{Entry as LogEntry};
ghost use Rattle.lp_model.specs.declared.Entry.TheVariants.{Flip, Swap, Turn};
ghost use Rattle.exact_frac.specs.Count.{unfit_after};
ghost use Rattle.plain_table.specs.Answers.{IsNextOf, JudgesStep};
ghost use Rattle.plain_table.specs.Inner.Steps.{StepsTo};
ghost use Rattle.plain_table.specs.Plain.{Stands};

use crate::costs::{basic_costs, work_costs};
use crate::flip::work_flip;
use crate::motion::Parts;
use crate::rows::{Elimination, take_all_over};
use crate::swap::work_entering;
use crate::table::Table;
use exact_frac::Arith;
use instance_model::Instance;
use lp_model::{Entry, Phase, Place, Side};
use std::thread::Threads;

impl Table {
    /// Takes in the next entry of the run: the table then stands at the state after it. It takes no memory. Where many
    /// items are worked, its rows are worked in threads, which end before it returns.
    ///
    /// # Errors
    ///
    /// The place of the first value listed under the table's number that does not fit the width, where there is one.
    /// The table is unchanged then.
    pub fn step<R: Threads + Sync, A: Arith>(
        &mut self,
        rt: &R,
        inst: &Instance,
        entry: Entry,
        arith: &mut A,
    ) -> Result<(), Place>
        requires next { IsNextOf inst.now self.old entry }
        requires room { self.old.number + 1 < 2 ^ 64 }
        ensures stands { OnOk result ((log : List LogEntry) → Stands inst.now log self.old → Stands inst.now (log ++ entry ∷ []) self.new) }
        ensures listed { JudgesStep (A.width arith.old) inst.now self.old result }
        ensures kept { OnErr result (self.new ≡ self.old) }
        ensures width { A.width arith.new ≡ A.width arith.old }
        ensures unfit { A.unfit_count arith.new ≡ unfit_after (A.unfit_count arith.old) result }
    {
        match entry {
            Entry::Flip(q) => self.flip(inst, q, arith),
            Entry::Swap(q, position, end) => self.swap(rt, inst, q, position, end, arith),
            Entry::Turn => self.turn(inst, arith),
        }
    }

    // A column goes to its other end.
    fn flip<A: Arith>(&mut self, inst: &Instance, q: u32, arith: &mut A) -> Result<(), Place>
        requires next { IsNextOf inst.now self.old (Flip q) }
        requires room { self.old.number + 1 < 2 ^ 64 }
        ensures stands { OnOk result (StepsTo inst.now self.old (Flip q) self.new) }
        ensures listed { JudgesStep (A.width arith.old) inst.now self.old result }
        ensures kept { OnErr result (self.new ≡ self.old) }
        ensures width { A.width arith.new ≡ A.width arith.old }
        ensures unfit { A.unfit_count arith.new ≡ unfit_after (A.unfit_count arith.old) result }
    {
        let parts = Parts {
            state: &self.state,
            rows: &self.rows,
            values: &self.values,
            costs: &self.costs,
            number: self.number,
        };
        work_flip(
            inst,
            &parts,
            q,
            arith,
            &mut self.alpha,
            &mut self.spare_values,
        )?;
        std::mem::swap(&mut self.values, &mut self.spare_values);
        self.state.after(Entry::Flip(q));
        self.number += 1;
        Ok(())
    }

    // A column takes a position, and the one that was there stands at the end.
    fn swap<R: Threads + Sync, A: Arith>(
        &mut self,
        rt: &R,
        inst: &Instance,
        q: u32,
        position: u32,
        end: Side,
        arith: &mut A,
    ) -> Result<(), Place>
        requires next { IsNextOf inst.now self.old (Swap q position end) }
        requires room { self.old.number + 1 < 2 ^ 64 }
        ensures stands { OnOk result (StepsTo inst.now self.old (Swap q position end) self.new) }
        ensures listed { JudgesStep (A.width arith.old) inst.now self.old result }
        ensures kept { OnErr result (self.new ≡ self.old) }
        ensures width { A.width arith.new ≡ A.width arith.old }
        ensures unfit { A.unfit_count arith.new ≡ unfit_after (A.unfit_count arith.old) result }
    {
        let parts = Parts {
            state: &self.state,
            rows: &self.rows,
            values: &self.values,
            costs: &self.costs,
            number: self.number,
        };
        let count = work_entering(
            rt,
            inst,
            &parts,
            q,
            position,
            arith,
            &mut self.alpha,
            &mut self.pivot_row,
            &mut self.support,
            &mut self.spare_rows,
            &mut self.spare_values,
            &mut self.spare_costs,
        )?;
        let elimination = Elimination {
            number: self.number,
            position: position as usize,
            column: q as usize,
            line: &self.pivot_row,
            support: &self.support[..count],
        };
        take_all_over(&elimination, 0, &mut self.rows, &self.spare_rows);
        std::mem::swap(&mut self.values, &mut self.spare_values);
        std::mem::swap(&mut self.costs, &mut self.spare_costs);
        self.state.after(Entry::Swap(q, position, end));
        self.number += 1;
        Ok(())
    }

    // Phase two begins.
    fn turn<A: Arith>(&mut self, inst: &Instance, arith: &mut A) -> Result<(), Place>
        requires next { IsNextOf inst.now self.old Turn }
        requires room { self.old.number + 1 < 2 ^ 64 }
        ensures stands { OnOk result (StepsTo inst.now self.old Turn self.new) }
        ensures listed { JudgesStep (A.width arith.old) inst.now self.old result }
        ensures kept { OnErr result (self.new ≡ self.old) }
        ensures width { A.width arith.new ≡ A.width arith.old }
        ensures unfit { A.unfit_count arith.new ≡ unfit_after (A.unfit_count arith.old) result }
    {
        let positions = inst.rows();
        prove!(positions == self.rows.len());
        basic_costs(inst, &self.state, Phase::Two, &mut self.alpha);
        work_costs(
            self.number,
            inst,
            Phase::Two,
            &self.alpha,
            &self.rows,
            arith,
            &mut self.spare_costs,
        )?;
        std::mem::swap(&mut self.costs, &mut self.spare_costs);
        self.state.after(Entry::Turn);
        self.number += 1;
        Ok(())
    }
}
