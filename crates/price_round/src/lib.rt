//! Rounds of pricing: workers divide the columns of a ticket among them by two atomic words, and choose what one would.
//!
//! A [`Round`] is opened for a ticket with so many [`Seat`]s, one for each worker. The columns are cut into chunks of 64.
//! A seat claims the next chunk by one atomic addition, searches it for its first stopper, and offers what it found by
//! one atomic minimum; a chunk above a stopper that was offered already need not be searched. When all chunks that were
//! claimed are offered and a claim has found none left, the seats close the round with the least stopper of all.
//!
//! **Model.** A round has an instance, a ticket, the width of the arithmetic and a number of seats (`inst_of`,
//! `ticket_of`, `width_of`, `seats_in` in `specs/Seats.antt`). A seat has the chunks that it holds and those that it has
//! offered, the least code that it has seen, and whether a claim of it had none (`held_of`, `done_of`, `seen_of`,
//! `had_none`). Codes are numbers that order stoppers as their columns (`code_of` in `specs/Rounds.antt`).
//!
//! **Contract.** [`Round::close`] answers the choice of the ticket (`IsChoiceOf` of `bland_ratio`), for every number of
//! seats and every order of claims, glances and offers. A ticket has one choice at a width (the law [`one_choice`]), so
//! it is that of `choose`. [`Round::claim`] gives a chunk above all that the seat has claimed, or none, where
//! the claim word had passed the last chunk; [`Round::glance`] answers the column of a stopper, at least as low as the seat
//! has seen or offered, or none, where it has seen none; [`Round::offer`] asks for the first stopper of a chunk that the
//! seat holds, or for none where there is none or a stopper below the chunk was seen. [`Round::settle`] does this for one
//! chunk, and [`Round::work`] claims and settles until no chunk is left.
//! [`Round::survey`] tells all seats together the state of their round (`IsSurvey`): how many chunks are given away, each
//! to one of them and once, and the least code, which is a function of the chunks that were offered (the laws
//! [`next_chunk`] and [`one_least`]).
//!
//! **How it is kept.** A round is an `atomic_table` of two words, the chunk to be claimed next, which goes on past the
//! last, and the least code. Its rule (`Kept` in `specs/Rounds.antt`) holds between any two atomic steps, of which there
//! are five kinds (`kinds`). It counts the claims that had none, so the claim word is known from the views of the
//! seats, and speaks of all stoppers of a chunk instead of the first one, so that no proof searches a chunk.
//!
//! **Limits.** No call waits. `claim`, `glance`, `price`, `offer`, `work` and `survey` take no memory, and `close` never
//! lacks it. `survey` recurs as deep as there are seats. No contract says that a seat prices a share of the chunks.
//!
//! It stands on `bland_ratio` for tickets, choices and stoppers, on `instance_model`, on `counting`, and on
//! `atomic_table` of the kit.
#![tactic(auto)]

ghost use Rattle.price_round.specs.Laws.{ChoiceIsOne, LeastIsOne, NextIsGiven};

mod calls;
mod kinds;
mod round;
mod survey;
mod view;
mod work;

pub use calls::CHUNK;
pub use round::{Round, RoundFault, Seat};

/// Two states of a round in which one chunk more is claimed: it is the next one, and one more is given away.
pub fn next_chunk()
    ensures { NextIsGiven }
{}

/// The least code is a function of the chunks that were offered.
pub fn one_least()
    ensures { LeastIsOne }
{}

/// A ticket has one choice at a width, so the close of a round and `choose` answer the same.
pub fn one_choice()
    ensures { ChoiceIsOne }
{}
