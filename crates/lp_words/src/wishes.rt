//! What the words of a command wish for.

/// What the words of a command wish for.
#[derive(Clone, Copy, Debug, PartialEq, Eq)]
pub enum Wish {
    /// Read a deck, solve it, and write the report.
    Solve {
        /// How many threads price, 0 to 64. With none, one thread does all.
        workers: u32,
        /// How many threads factor the basis anew, 0 to 8.
        reinverters: u32,
        /// How many moves the run may have, 0 to 1,000,000.
        budget: u64,
        /// Whether the report has the log of the moves.
        log: bool,
        /// Whether the deck is in free form.
        free: bool,
        /// The version of the report, 1 or 2.
        report: u32,
    },
    /// Read a deck and a report, and judge the report.
    Check {
        /// Whether the deck is in free form.
        free: bool,
    },
    /// Read a deck, and write it in one layout.
    Deck {
        /// Whether the deck is in free form, and is written in it.
        free: bool,
    },
    /// Make the transport deck of this size, 1 to 20, and solve it.
    Make(u32),
    /// Read a deck, solve it, and tell how far each cost and each right side may change.
    Range {
        /// Whether the deck is in free form.
        free: bool,
    },
    /// Read a deck and a report, and judge whether the report is the deck's run.
    Audit {
        /// Whether the deck is in free form.
        free: bool,
    },
}
