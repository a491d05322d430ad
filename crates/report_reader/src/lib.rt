//! Reports, read from a source and judged line by line.
//!
//! A report follows the reader's mark, as a deck's last line leaves it, and is the rest of the input. It has at most 32 MiB,
//! and no line of it has more than 255 bytes. It is of version 1, or of version 2, which tells the last basis.
//!
//! # Model
//!
//! A reader is seen as `mps_cards` sees it, and a report as the record `Report` of `lp_text`. The lines that a report may
//! have are those that are expected one after another (`specs/FirstFlaw.antt` of `report_lines`): each line that is as
//! expected says what is expected next, as a count says how many lines follow.
//!
//! # Contract
//!
//! [`read_report`] answers a report of the deck (`IsReportOf` of `specs/Reading.antt`) whose text is the rest of the input,
//! in which the last line feed may be missing. Else it answers why there is none (`IsReportCause`): the first flaw with the
//! number of its line; a failed read, where no line that was read has a flaw; or want of memory. `specs/Causes.antt` says
//! where the reader stands then. `Read` comes only where the source's count of faults rose.
//!
//! # Method
//!
//! Each line is taken by itself (`single`), judged by `report_lines` or, where more than one line may stand, by `judges`.
//! Lists are loops over such lines (`lists`), and the parts of a report are made of these (`parts`). No list grows before
//! its lines were read, so that a count alone takes no memory.
//!
//! The crate stands on `mps_cards` for the lines of an input, on `io_ends` for sources, on `report_lines` for the judgement of
//! a line, on `cert_text` and `deck_model` for reports and decks, on `lp_text` for the text and the limits, and on
//! `exact_frac`, `no_memory` and `thiserror`.
#![tactic(auto)]

mod fault;
mod judges;
mod lists;
mod parts;
mod reading;
mod report;
mod single;

pub use fault::ReportFault;
pub use report::read_report;
pub use report_lines::Flaw;
