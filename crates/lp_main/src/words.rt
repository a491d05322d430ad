// What is served of what the words of a command ask for.
ghost use Rattle.std.specs.Prelude.{◌≡◌, IfErr, IfOk, Some, map};
ghost use Rattle.std.specs.String.{string_bytes};
ghost use Rattle.lp_words.specs.Words.{wish_of};
ghost use Rattle.lp_main.specs.Words.{IsServed, IsUnserved, deck_form, task_of};

use crate::refusal::Refusal;
use lp_text::Form;
use lp_words::{Wish, WordsFault, wish};
use std::alloc::Global;

/// What is asked of a solve.
#[derive(Clone, Copy, Debug)]
pub struct Asked {
    /// The form of the deck.
    pub form: Form,
    /// How many workers price, 0 to 64. With none, one thread makes the run.
    pub workers: u32,
    /// How many moves the run may take.
    pub budget: u64,
    /// Whether the report tells the run's log.
    pub log: bool,
    /// The version of the report, 1 or 2; one of version 2 tells the last basis.
    pub version: u32,
}

impl Asked {
    /// The whole run of a deck with its log, made by one thread.
    pub const WHOLE_RUN: Asked = Asked {
        form: Form::Fixed,
        workers: 0,
        budget: 1_000_000,
        log: true,
        version: 1,
    };
}

/// What is served.
#[derive(Clone, Copy, Debug)]
pub enum Task {
    /// A solve of a deck.
    Solve(Asked),
    /// A check of the report that stands behind a deck of this form.
    Check(Form),
    /// A deck of this form, written in its layout.
    Deck(Form),
    /// A solve of the transport deck of a size.
    Make(u32),
    /// The ranges of a deck of this form.
    Range(Form),
    /// An audit of the report that stands behind a deck of this form.
    Audit(Form),
}

/// The form of a deck, by whether the words ask for the free one.
fn form_of(free: bool) -> Form
    ensures { result ≡ deck_form free }
{
    if free { Form::Free } else { Form::Fixed }
}

/// What the words ask for.
pub fn served(alloc: Global, words: &[String]) -> Result<Task, Refusal>
    ensures task { IfOk result (λ task. task_of (wish_of (map string_bytes words.now)) ≡ Some task) }
    ensures sized { IfOk result IsServed }
    ensures unserved { IfErr result (IsUnserved (task_of (wish_of (map string_bytes words.now)))) }
{
    match wish(alloc, words) {
        Ok(
            Wish::Solve {
                workers,
                budget,
                log,
                free,
                report: version,
                ..
            },
        ) => Ok(Task::Solve(Asked {
            form: form_of(free),
            workers,
            budget,
            log,
            version,
        })),
        Ok(Wish::Check { free }) => Ok(Task::Check(form_of(free))),
        Ok(Wish::Deck { free }) => Ok(Task::Deck(form_of(free))),
        Ok(Wish::Make(size)) => Ok(Task::Make(size)),
        Ok(Wish::Audit { free }) => Ok(Task::Audit(form_of(free))),
        Ok(Wish::Range { free }) => Ok(Task::Range(form_of(free))),
        Err(WordsFault::Usage) => Err(Refusal::Usage),
        Err(WordsFault::Memory) => Err(Refusal::Memory),
    }
}
