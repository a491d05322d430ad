//! The rule of the round's table, and the five kinds of step that it allows.
//!
//! The words are the next chunk to be claimed, which goes on past the last, and the least code that was offered.
ghost use Rattle.std.specs.Prelude.{ℕ};

use crate::view::{Plan, View};
use atomic_table::{Join, Play, Split, TableRule};
use std::marker::{Brand, PhantomData};

/// The rule.
pub struct ChunkRule;

impl TableRule<(), View, Plan> for ChunkRule {
    ghost use Rattle.price_round.specs.Rounds.{Kept, first_view};

    ghost holds = { Kept };

    ghost first = { first_view };
}

/// Claims a chunk.
pub(crate) struct Claim;

impl Play<(), View> for Claim {
    ghost use Rattle.price_round.specs.Rounds.{Claims};

    ghost then = { λ st m found m'. Claims m found m' };
}

/// Which chunk is offered.
pub(crate) trait Aim {
    ghost chunk: { ℕ };
}

impl Aim for Brand {
    ghost chunk = { 0 };
}

/// Offers what was found in the chunk that `J` names.
pub(crate) struct Offer<J> {
    aim: PhantomData<J>,
}

impl<J: Aim> Play<(), View> for Offer<J> {
    ghost use Rattle.price_round.specs.Rounds.{Offers};

    ghost then = { λ st m found m'. Offers J.chunk st.first m m' };
}

/// Loads the least code.
pub(crate) struct Glance;

impl Play<(), View> for Glance {
    ghost use Rattle.price_round.specs.Rounds.{Glances};

    ghost then = { λ st m found m'. Glances m found m' };
}

/// Cuts a seat that has done nothing from a view.
pub(crate) struct Cut;

impl Split<View> for Cut {
    ghost use Rattle.price_round.specs.Rounds.{kept_part, fresh_part};

    ghost left = { kept_part };

    ghost right = { fresh_part };
}

/// Makes two views one.
pub(crate) struct Both;

impl Join<View> for Both {
    ghost use Rattle.price_round.specs.Rounds.{joined, spent};

    ghost both = { joined };

    ghost spent = { spent };
}

/// What a view is cut back to: the rest and the piece, as they were.
pub(crate) trait Pieces {
    ghost use Rattle.price_round.specs.declared.view.View.{View as Known};

    ghost rest: { Known };

    ghost piece: { Known };
}

impl Pieces for Brand {
    ghost use Rattle.price_round.specs.Rounds.{spent};

    ghost rest = { spent };

    ghost piece = { spent };
}

/// Cuts a view back to two, each of which has seen what it has seen.
pub(crate) struct Restore<J> {
    pieces: PhantomData<J>,
}

impl<J: Pieces> Split<View> for Restore<J> {
    ghost use Rattle.price_round.specs.Rounds.{glanced};

    ghost left = { λ v. glanced v.seen J.rest };

    ghost right = { λ v. glanced v.seen J.piece };
}
