//! The calls of a gate.
ghost use Rattle.std.specs.Prelude.{◌≡◌, ℕ, ◌+◌, ◌-◌, ◌<◌, ◌≤◌, [], ◌++◌, max, IsOk, IfOk, IfErr};
ghost use Rattle.std.specs.Borrow.{sem};
ghost use Rattle.counting.specs.Counting.{HasEachOnce, numbers_between};
ghost use Rattle.switch_gate.specs.declared.view.Place.TheVariants.{Idle, Called};
ghost use Rattle.switch_gate.specs.Gates.{placed};
ghost use Rattle.switch_gate.specs.Passes.{parts_of, seen_of, mine_of, value_of, old_number, held_parts, held_mine, parts_in, first_value, IsPassOf, IsHeldOf};
ghost use Rattle.switch_gate.specs.Lending.{lends_value};

use crate::gate::{Gate, Held, Hold, Numbered, Pass};
use crate::kinds::{Add, Advance, Both, Cut, Draw, Given, Look, Take, Turns};
use crate::view::{Start, View};
use atomic_table::{Refused, Seat, Shared, Table};
use crossbeam_utils::Backoff;
use no_memory::Memory;
use std::alloc::{AllocFailed, Global};
use std::marker::Brand;
use std::snapshot::Snapshot;
use std::sync::Wait;

// The words of the table: the turn to be drawn next, the turn that is served, and the count.
const TURN: usize = 0;

const SERVING: usize = 1;

const COUNT: usize = 2;

// The one slot.
const VALUE: usize = 0;

/// How often a thread that finds the gate taken waits before it draws a turn all the same.
const PATIENCE: u32 = 64;

type Words<T, L> = Shared<Option<T>, View<L>, Start<T>, Turns>;

impl<T: Numbered> Gate<T> {
    /// A gate round `value`, whose passes have `parts` parts together, and its first pass, which has
    /// all of them. The `Err` is want of memory, and hands the value back.
    pub fn new(alloc: Global, value: T, parts: u64) -> Result<(Gate<T>, Pass<T>), T>
        requires parts { 1 ≤ parts }
        requires number { T.number value ≡ 0 }
        ensures gate { IfOk result (λ made. (first_value made.0 ≡ value) × (parts_in made.0 ≡ parts)) }
        ensures pass { IfOk result (λ made. IsPassOf made.0 made.1 × (parts_of made.1 ≡ parts)) }
        ensures fresh { IfOk result (λ made. (seen_of made.1 ≡ 0) × (mine_of made.1 ≡ [])) }
        ensures back { IfErr result (λ back. back ≡ value) }
    {
        let start = Start {
            parts,
            value: Snapshot::of(&value),
        };
        let mut slots = Vec::new(alloc);
        if let Err(failed) = slots.push(Some(value)) {
            let AllocFailed { value } = failed;
            return Err(value.unwrap());
        }
        match Table::new(alloc, &[0, 0, 0], slots, &start) {
            Ok((table, seat)) => Ok((Gate { table }, Pass { seat })),
            Err(Refused { mut slots }) => Err(slots.pop().unwrap().unwrap()),
        }
    }

    /// Waits for the pass's turn, and takes the value.
    pub fn take<R: Wait>(&self, rt: &R, pass: Pass<T>) -> Held<T>
        requires { IsPassOf self.now pass }
        ensures gate { IsHeldOf self.now result }
        ensures number { T.number (value_of result) ≡ old_number result }
        ensures seen { seen_of pass ≤ old_number result }
        ensures lineage { T.lineage (value_of result) ≡ T.lineage (first_value self.now) }
        ensures pass { (held_parts result ≡ parts_of pass) × (held_mine result ≡ mine_of pass) }
    {
        let Pass { mut seat } = pass;
        let_others_pass(&self.table.shared);
        await_turn(rt, &self.table.shared, &mut seat);
        let old = self.table.shared.load::<Take>(&mut seat, COUNT);
        let value = self.table.shared.exchange(&mut seat, VALUE, None).unwrap();
        Held {
            value,
            hold: Hold { old, seat },
        }
    }

    /// Puts the value back, and serves the next turn.
    pub fn give(&self, held: Held<T>) -> Pass<T>
        requires gate { IsHeldOf self.now held }
        requires lineage { T.lineage (value_of held) ≡ T.lineage (first_value self.now) }
        requires number { old_number held ≤ T.number (value_of held) }
        ensures gate { IsPassOf self.now result }
        ensures seen { seen_of result ≡ T.number (value_of held) }
        ensures mine { mine_of result ≡ held_mine held ++ numbers_between (old_number held) (T.number (value_of held)) }
        ensures parts { parts_of result ≡ held_parts held }
    {
        let Held { value, hold } = held;
        let Hold { old, mut seat } = hold;
        let number = value.number();
        self.table.shared.exchange(&mut seat, VALUE, Some(value));
        self.table
            .shared
            .fetch_add::<Add>(&mut seat, COUNT, number - old);
        self.table
            .shared
            .fetch_add::<Advance>(&mut seat, SERVING, 1);
        Pass { seat }
    }

    /// Cuts `give` parts from the pass, for a second one. The `Err` would be want of memory, and a cut takes none.
    pub fn split(&self, pass: Pass<T>, give: u64) -> Result<(Pass<T>, Pass<T>), Pass<T>>
        requires gate { IsPassOf self.now pass }
        requires given { (1 ≤ give) × (give < parts_of pass) }
        ensures cut { IsOk result }
        ensures gate { IfOk result (λ cut. IsPassOf self.now cut.0 × IsPassOf self.now cut.1) }
        ensures seen { IfOk result (λ cut. (seen_of cut.0 ≡ seen_of pass) × (seen_of cut.1 ≡ seen_of pass)) }
        ensures first { IfOk result (λ cut. (mine_of cut.0 ≡ mine_of pass) × (parts_of cut.0 ≡ parts_of pass - give)) }
        ensures second { IfOk result (λ cut. (mine_of cut.1 ≡ []) × (parts_of cut.1 ≡ give)) }
    {
        Ok(cut::<T, Brand>(self, pass, give))
    }

    /// Makes two passes one.
    pub fn join(&self, first: Pass<T>, second: Pass<T>) -> Pass<T>
        requires first { IsPassOf self.now first }
        requires second { IsPassOf self.now second }
        ensures gate { IsPassOf self.now result }
        ensures seen { seen_of result ≡ max (seen_of first) (seen_of second) }
        ensures mine { mine_of result ≡ mine_of first ++ mine_of second }
        ensures parts { parts_of result ≡ parts_of first + parts_of second }
    {
        let Pass { mut seat } = first;
        let Pass { seat: other } = second;
        self.table.shared.join_seat::<Both>(&mut seat, other);
        Pass { seat }
    }

    /// Ends the gate with the pass that has all its parts, and gives the value out. The `Err` would be want of
    /// memory, and the end takes none.
    pub fn close(self, pass: Pass<T>) -> Result<T, Memory>
        requires gate { IsPassOf self pass }
        requires all { parts_of pass ≡ parts_in self }
        ensures closed { IsOk result }
        ensures lineage { IfOk result (λ value. T.lineage value ≡ T.lineage (first_value self)) }
        ensures seen { IfOk result (λ value. seen_of pass ≤ T.number value) }
        ensures once { IfOk result (λ value. HasEachOnce (mine_of pass) (T.number value)) }
    {
        let Gate { table } = self;
        let Pass { seat } = pass;
        let mut closed = table.close_with(seat);
        let value = closed.take(VALUE).unwrap();
        closed.free();
        Ok(value)
    }
}

impl<T: Numbered> Held<T> {
    /// The value.
    pub fn value(&self) -> &T
        ensures { result.now ≡ value_of self.now }
    {
        &self.value
    }

    /// The value, lent for writing.
    pub fn value_mut(&mut self) -> &mut T
        ensures* writes_back { sem 𝓛 (lends_value T.row T.Lineage.row T.Numbered self.entry result) }
        ensures value { result.now ≡ value_of self.entry.now }
    {
        &mut self.value
    }
}

// Waits for a while where a turn is out. A turn that is drawn holds up all behind it while its thread sleeps, so
// a thread draws one only where the gate looks free, or where it has waited long.
fn let_others_pass<T: Numbered>(words: &Words<T, T::Lineage>)
    requires { words.now.table_id.words ≡ 3 }
{
    let backoff = Backoff::new();
    for _ in 0..PATIENCE {
        if words.peek(TURN) == words.peek(SERVING) {
            return;
        }
        backoff.snooze();
    }
}

// Draws a turn, and waits until it is served.
fn await_turn<T: Numbered, R: Wait>(
    rt: &R,
    words: &Words<T, T::Lineage>,
    seat: &mut Seat<Option<T>, View<T::Lineage>>,
)
    requires table { (seat.old.table_id ≡ words.now.table_id) × (words.now.table_id.words ≡ 3) }
    requires idle { (seat.old.me.0.place ≡ Idle) × (0 < seat.old.me.0.parts) }
    ensures table { (seat.new.table_id ≡ seat.old.table_id) }
    ensures called { (t : ℕ) × (seat.new.me ≡ (placed seat.old.me.0 (Called t), seat.old.me.1)) }
{
    let turn = words.fetch_add::<Draw>(seat, TURN, 1);
    let backoff = Backoff::new();
    for _ in rt.forever() {
        if words.load::<Look>(seat, SERVING) == turn {
            return;
        }
        backoff.snooze();
    }
    unreachable!()
}

// Cuts the parts that `J` names, which are `given`.
fn cut<T: Numbered, J: Given>(gate: &Gate<T>, pass: Pass<T>, given: u64) -> (Pass<T>, Pass<T>)
    requires gate { IsPassOf gate.now pass }
    requires given { (1 ≤ given) × (given < parts_of pass) × (given ≡ J.parts) }
    ensures gate { IsPassOf gate.now result.0 × IsPassOf gate.now result.1 }
    ensures seen { (seen_of result.0 ≡ seen_of pass) × (seen_of result.1 ≡ seen_of pass) }
    ensures first { (mine_of result.0 ≡ mine_of pass) × (parts_of result.0 ≡ parts_of pass - given) }
    ensures second { (mine_of result.1 ≡ []) × (parts_of result.1 ≡ given) }
{
    let Pass { mut seat } = pass;
    let other = gate.table.shared.split_seat::<Cut<J>>(&mut seat);
    (Pass { seat }, Pass { seat: other })
}
