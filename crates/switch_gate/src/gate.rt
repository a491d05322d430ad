//! The gate, its passes, and a value that is out with one.
ghost use Rattle.std.specs.Prelude.{◌≡◌, ℕ, ◌<◌, [], ◌∷◌, None};
ghost use Rattle.switch_gate.specs.declared.view.Place.TheVariants.{Idle};
ghost use Rattle.switch_gate.specs.Gates.{has_slot};

use crate::kinds::Turns;
use crate::view::{Start, View};
use atomic_table::{Seat, Table};
use std::alloc::Global;

/// A value with a number, which its sessions raise, and a lineage, which they keep.
pub trait Numbered: Drop {
    /// What no session may change. Only proofs see it, and no value of this type need be made.
    type Lineage;

    ghost number: { Self → ℕ };

    ghost lineage: { Self → Self.Lineage };

    /// The value's number.
    fn number(&self) -> u64
        ensures { result ≡ number self.now };
}

/// A lock around one value.
#[derive(Drop)]
pub struct Gate<T: Numbered> {
    pub(crate) table: Table<Option<T>, View<T::Lineage>, Start<T>, Turns, Global>,
    ghost counts: { (table.shared.table_id.words ≡ 3) × (table.shared.table_id.slots ≡ 1) },
}

/// The right to take the value, with what its holder knows of the gate.
#[derive(Drop)]
pub struct Pass<T: Numbered> {
    pub(crate) seat: Seat<Option<T>, View<T::Lineage>>,
    ghost idle: { seat.me.0.place ≡ Idle },
    ghost empty: { seat.me.1 ≡ [] },
    ghost some_parts: { 0 < seat.me.0.parts },
}

/// The value, out with the pass that took it. It has to be given back.
pub struct Held<T: Numbered> {
    pub(crate) value: T,
    pub(crate) hold: Hold<T>,
}

/// The pass that took the value, and the number that the value had then.
pub struct Hold<T: Numbered> {
    pub(crate) old: u64,
    pub(crate) seat: Seat<Option<T>, View<T::Lineage>>,
    ghost holds: { has_slot seat.me.0.place ≡ 1 },
    ghost slot: { seat.me.1 ≡ (0, None) ∷ [] },
    ghost some_parts: { 0 < seat.me.0.parts },
    ghost number: { old ≡ seat.me.0.seen },
}
