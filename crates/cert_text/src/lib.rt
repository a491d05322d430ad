//! The report of a deck: the text that states an outcome of the deck with the lists that prove it.
//!
//! # The text
//!
//! A report is made of lines, each ended by a line feed, with one blank between the parts of a line. A name stands last in
//! its line, since it may hold blanks or be empty.
//!
//! ```text
//! LPCERT 1   or   LPCERT 2
//! DECK <name>
//! OPTIMAL                            INFEASIBLE              UNBOUNDED
//! OBJECTIVE <value>                  FARKAS <value> <row>    VALUE <value> <column>
//! VALUE <value> <column>                                     RAY <value> <column>
//! PRICE <value> <row>
//! BASIS <count>
//! BASIC <column>
//! UPPER <count>
//! AT <column>
//! LOG <count>
//! FLIP <column>   or   SWAP <column> <position> LOWER   or   SWAP <column> <position> UPPER   or   TURN
//! END
//! ```
//!
//! One of the three columns stands after the deck's name, and each line of values in it stands once for each column or
//! row of the deck, in its order. A report of version 2 tells the last basis: the basic columns by position, and, rising, the
//! nonbasic columns at their upper ends. A log follows where the report has one, with a line for each of its entries.
//!
//! # Model and contract
//!
//! A [`Report`] is an [`Outcome`](deck_model::Outcome), a basis where it tells one, and a log where it has one: the record
//! `Report` of `lp_text`. Its text is `lp_text`'s `text_of_report`, which is of version 2 where there is a basis.
//!
//! [`write_report`] gives a sink this text, a line at a time, and answers `Ok` where the sink took it all. It refuses with
//! `Write` only where the sink's count of faults rose, and with `Memory` for want of memory, and then the sink gained a
//! beginning of the text.
//!
//! The crate stands on `deck_model` for decks and outcomes, on `exact_frac` and `frac_text` for fractions and their text,
//! on `io_ends` for sinks, on `lp_text` and `lp_model` for the definitions, on `itoa`, `thiserror` and `no_memory`.
#![tactic(auto)]

mod fault;
mod line;
mod names;
mod report;
mod write;

pub use fault::ReportWriteFault;
pub use names::Names;
pub use report::Report;
pub use write::write_report;
