//! The program `example_blend`: the solver as a library, in a small program.
//!
//! - **What it is.** It makes the deck of a feed by calls, solves it, and writes the values and the prices. Then it sets another right side and solves again, and once
//!   more, until no feed meets all rows. `docs/LIBRARY.md` goes through it.
//! - **How it is used.** It takes no words and reads nothing. Its output is worked by hand in `docs/LIBRARY.md`.
//! - **The contract.** [`blend::feed`] makes a deck of three rows and two columns. What [`solving::solve`] answers proves what it says of the deck: a feasible point
//!   that is optimal by its prices, a Farkas row, or a ray.
//! - **Stands on** `deck_model` for the deck, `instance_model` and `crew` for the solve, `bland_laws` for what an outcome proves, and `frac_text` for numbers.
#![tactic(auto)]

ghost use Rattle.std.specs.Prelude.{◌≡◌, length, OnOk};

use crate::blend::{PROTEIN, feed};
use crate::solving::solve;
use crate::telling::tell;
use deck_model::Deck;
use exact_frac::Frac;
use io_ends::{StdoutEnds, write_all};
use std::alloc::Global;
use std::thread::Threads;

mod blend;
mod solving;
mod telling;

/// Solves the deck of a feed with so much protein at least, and appends what that comes to.
fn with_protein<R: Threads + Sync>(
    rt: &R,
    alloc: Global,
    deck: &mut Deck,
    least: Frac,
    text: &mut Vec<u8>,
) -> anyhow::Result<()>
    requires { length deck.old.rows ≡ 3 }
    ensures { OnOk result (length deck.new.rows ≡ 3) }
{
    deck.set_right(PROTEIN, least);
    let outcome = solve(rt, alloc, deck)?;
    tell(text, deck, least, &outcome)?;
    Ok(())
}

fn main(rt: HostRuntime) -> anyhow::Result<()> {
    let alloc = rt.alloc();
    let mut deck = feed(alloc)?;
    let mut text = Vec::new(alloc);
    with_protein(&rt, alloc, &mut deck, Frac::of(20, 1), &mut text)?;
    with_protein(&rt, alloc, &mut deck, Frac::of(23, 1), &mut text)?;
    with_protein(&rt, alloc, &mut deck, Frac::of(26, 1), &mut text)?;
    write_all(&mut StdoutEnds::new(rt.stdout()), &text)?;
    Ok(())
}
