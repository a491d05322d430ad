//! The laws of reports as texts.
//!
//! A text that is read as a report of a deck has one answer at most: a report that it tells, or its first flaw with the
//! number of the line that has it. So a text with a first flaw is that of no report of the deck, the text of a report has no
//! flaw, a text is that of one report, and a text has one first flaw. Each law is the contract of a function that does nothing:
//!
//! - [`one_answer`]: two answers to a text are equal.
//! - [`answer_read`]: what `report_reader::read_report` answers agrees with each answer to the text that it read.
//!
//! # Premises
//!
//! No name of the deck has a line feed, and the columns of the method have numbers of 64 bits (`IsTellable` of
//! `specs/Told.antt`). A text tells a report (`Tells`) where it is the report's text, with or without the line feed at its end,
//! within the limits, and the report is one of the deck (`IsReportOf` of `report_reader`).
//!
//! The crate has no code that runs. It stands on `report_reader` and `report_lines` for what a reader answers, on `lp_text` for
//! the text, and on `deck_model`, `cert_text`, `mps_cards`, `frac_text`, `lp_model` and `rational` for the definitions.
#![tactic(auto)]

ghost use Rattle.std.specs.Prelude.{◌≡◌, ◌++◌, ℕ, List, Option, Result};
ghost use Rattle.lp_model.specs.Deck.{Deck};
ghost use Rattle.lp_text.specs.Report.{Report};
ghost use Rattle.mps_cards.specs.ReaderState.{ReaderState};
ghost use Rattle.report_lines.specs.declared.flaw.Flaw.{Flaw};
ghost use Rattle.report_reader.specs.declared.fault.ReportFault.{ReportFault};
ghost use Rattle.report_laws.specs.Told.{Agrees, IsAnswer, IsReading, IsTellable};

/// A text has one answer at most: a report that it tells, or its first flaw.
#[tactic(auto, using(crate::proofs::Telling::one_answer))]
pub fn one_answer()
    ensures { (d : Deck) (text : List ℕ) (a b : Result Report (ℕ × Flaw)) → IsTellable d → IsAnswer d text a → IsAnswer d text b → a ≡ b }
{}

/// What the reading of a report answers agrees with each answer to the text that was left: so it answers a report exactly where the
/// text tells it, and else the first flaw, or that a read failed or memory is wanting.
pub fn answer_read()
    ensures { (d : Deck) (before : ReaderState) (bytes : List ℕ) (left' : Option (List ℕ)) (faults faults' : ℕ) (result : Result Report ReportFault)
        (answer : Result Report (ℕ × Flaw)) → IsTellable d → IsReading d before (Some bytes) left' faults faults' result
        → IsAnswer d (before.kept ++ bytes) answer → Agrees before answer result }
{}
