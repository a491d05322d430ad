//! The words of a command, and what they wish for.
//!
//! The first word is a command: `solve`, `check`, `deck`, `make`, `range` or `audit`. After `solve` come options in any order,
//! each at most once: the flags `--log` and `--free`, and `--workers`, `--reinverters`, `--budget` and `--report`, each with its
//! number as the next word or after `=` in the same word. After `make` comes one number, and after each other command may come
//! `--free`. A number is 1 to 7 decimal digits, within the range of its option.
//!
//! # Model
//!
//! A word is the list of its bytes, and `specs/Words.antt` defines `wish_of`, the [`Wish`] of the words after the program's
//! name, or none.
//!
//! # Contract
//!
//! [`wish`] answers `wish_of` of its words, and `Usage` exactly where there is none. [`waits`] says whether a solve with
//! workers is wished for, which may wait for threads; it takes no memory.
//!
//! # Method
//!
//! A pass of our own (`command`, `given`, `setting`, `number`) settles in one walk over the words, without memory, whether they
//! are a wish, and which. The options of a solve are then read by `clap` (`options`). On words that the pass lets through it
//! fails for want of memory alone, and reads what `wish_of` says: both are proved, from the walk over the words by which the
//! contracts of `clap` define its matches (`proofs/Steps.antt`, `proofs/Walks.antt`, `proofs/Matches.antt`).
//!
//! The crate stands on `clap`, on `lp_text` for digits, and on `thiserror` for the texts of its refusals.
#![tactic(auto)]

ghost use Rattle.std.specs.Prelude.{◌≡◌, map, MatchResult, Some};
ghost use Rattle.std.specs.String.{string_bytes};
ghost use Rattle.lp_words.specs.Words.{IsNoWish, is_waiting, wish_of};

mod command;
mod fault;
mod given;
mod number;
mod options;
mod setting;
mod wishes;

use crate::command::wished;
pub use crate::fault::WordsFault;
use crate::options::given;
pub use crate::wishes::Wish;
use std::alloc::Global;

/// What the words after the program's name wish for.
///
/// # Errors
///
/// `Usage` exactly where they are no command with its options; `Memory` for want of memory.
pub fn wish(alloc: Global, words: &[String]) -> Result<Wish, WordsFault>
    ensures { MatchResult result (λ wish. wish_of (map string_bytes words.now) ≡ Some wish) (IsNoWish (map string_bytes words.now)) }
{
    match wished(words) {
        Some(Wish::Solve { .. }) => Ok(given(alloc, words)?.solve()),
        Some(wish) => Ok(wish),
        None => Err(WordsFault::Usage),
    }
}

/// Whether the words wish for a solve with workers.
pub fn waits(words: &[String]) -> bool
    ensures { result ≡ is_waiting (wish_of (map string_bytes words.now)) }
{
    match wished(words) {
        Some(Wish::Solve { workers, .. }) => workers >= 1,
        _ => false,
    }
}
