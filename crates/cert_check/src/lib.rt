//! The checker: whether the lists that an outcome carries prove it for a deck, item by item, exactly.
//!
//! **Model.** A deck is seen as the `Deck` of `lp_model`, an outcome as its `Outcome` and a basis as its `Basis`. `specs/Sums.antt` has
//! the sums that are worked, as calculations (`Worked` of `rational`): the worked values in order, and the answer. `specs/Items.antt`
//! says what each item works and when it holds. `specs/Walk.antt` lists the items of an outcome and of a basis in order (`walk`), and
//! says which stops the walk first (`first_stop`): one of whose worked values one does not fit the width, or else one that does not hold.
//!
//! **Contract.** [`check`] answers by `Judges` (`specs/Judged.antt`): [`Verdict::Yes`] exactly where nothing stops the walk,
//! [`Verdict::No`] with the rule of the first item that does not hold, and [`CheckFault::Overflow`] with the rule of the first of which a
//! value does not fit; in both cases each item before it holds and fits. So it tells (`Tells`, `specs/Proved.antt`): `Yes` proves the outcome
//! by `Proves`, `Farkas` or `Ray` of `lp_model`, with the stated objective that of the point, and where a basis is told that it agrees; `No`
//! shows that not all of this holds. What is proved, and fits, is accepted wherever there is memory. The width is kept, and
//! the count of unfit results rises by one exactly at `Overflow`.
//!
//! **Method.** Weak duality, Farkas' lemma and rays of unbounded programs, as in Schrijver, *Theory of Linear and Integer Programming*,
//! chapter 7. The activities of all rows are worked in one pass over the columns; where a value does not fit there, each row is worked
//! for itself, in the order of the walk. Memory is taken for these activities and for the marks of a basis. Reduced costs, and the
//! combinations of a Farkas row, are looked at by halves of halves in threads where there are many; the answer and the counts are those of
//! one thread.
//!
//! It stands on `deck_model` for decks, outcomes and bases, on `sparse_steps` and `sparse_cols` for the sums of a column, on
//! `exact_frac` for numbers, on `rayon` for threads, and on `lp_model` and `rational` for the definitions. It reads no word of the
//! method of a solver.
#![tactic(auto)]

mod ahead;
mod bases;
mod checking;
mod ends;
mod groups;
mod items;
mod parts;
mod sums;
mod verdict;
mod walk;

pub use checking::check;
pub use verdict::{CheckFault, Rule, Verdict};
