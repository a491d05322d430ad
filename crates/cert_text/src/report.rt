//! A report.
use deck_model::{Basis, Log, Outcome};
use std::marker::Model;

/// What a report states of a deck: the outcome, the last basis where it tells one, and the log of the run where it has one.
#[derive(Debug, Drop)]
pub struct Report {
    pub outcome: Outcome,
    pub basis: Option<Basis>,
    pub log: Option<Log>,
}

impl Model for Report {
    ghost use Rattle.lp_text.specs.Report.{Report as Stated};
    ghost use Rattle.deck_model.specs.Outcome.{outcome_of};

    ghost Value = { Stated };

    ghost view = { λ r. record { outcome = outcome_of r.outcome; basis = r.basis; log = r.log } };
}
