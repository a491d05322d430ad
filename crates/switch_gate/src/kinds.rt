//! The rule of the gate's table, and the seven kinds of step that it allows.
//!
//! The words are the turn to be drawn next, the turn that is served, and the count: the number of the
//! value in the slot. The slot has the value, and nothing while a pass holds it.
ghost use Rattle.std.specs.Prelude.{ℕ};

use crate::gate::Numbered;
use crate::view::{Start, View};
use atomic_table::{Join, Play, Split, TableRule};
use std::marker::{Brand, PhantomData};

/// The rule.
pub struct Turns;

impl<T: Numbered> TableRule<Option<T>, View<T::Lineage>, Start<T>> for Turns {
    ghost use Rattle.switch_gate.specs.Gates.{Kept, first_view};

    ghost holds = { Kept T.number T.lineage };

    ghost first = { first_view T.lineage };
}

/// Draws a turn.
pub(crate) struct Draw;

impl<S, L> Play<S, View<L>> for Draw {
    ghost use Rattle.switch_gate.specs.Gates.{Draws};

    ghost then = { λ st m found m'. Draws m found m' };
}

/// Loads the turn that is served.
pub(crate) struct Look;

impl<S, L> Play<S, View<L>> for Look {
    ghost use Rattle.switch_gate.specs.Gates.{Looks};

    ghost then = { λ st m found m'. Looks m found m' };
}

/// Loads the count, and takes the value out of the slot.
pub(crate) struct Take;

impl<T: Numbered> Play<Option<T>, View<T::Lineage>> for Take {
    ghost use Rattle.switch_gate.specs.Gates.{Takes};

    ghost then = { λ st m found m'. Takes T.number T.lineage m found m' };
}

/// Adds to the count.
pub(crate) struct Add;

impl<S, L> Play<S, View<L>> for Add {
    ghost use Rattle.switch_gate.specs.Gates.{Adds};

    ghost then = { λ st m found m'. Adds st.first m m' };
}

/// Serves the next turn, and gives the slot back.
pub(crate) struct Advance;

impl<S, L> Play<S, View<L>> for Advance {
    ghost use Rattle.switch_gate.specs.Gates.{Advances};

    ghost then = { λ st m found m'. Advances m m' };
}

/// How many parts a split gives away.
pub(crate) trait Given {
    ghost parts: { ℕ };
}

impl Given for Brand {
    ghost parts = { 0 };
}

/// Cuts the parts that `J` names from a view.
pub(crate) struct Cut<J> {
    given: PhantomData<J>,
}

impl<L, J: Given> Split<View<L>> for Cut<J> {
    ghost use Rattle.switch_gate.specs.Gates.{kept_part, given_part};

    ghost left = { kept_part J.parts };

    ghost right = { given_part J.parts };
}

/// Makes two views one.
pub(crate) struct Both;

impl<L> Join<View<L>> for Both {
    ghost use Rattle.switch_gate.specs.Gates.{joined, spent};

    ghost both = { joined };

    ghost spent = { spent };
}
