//! The audit of a printed run: whether a report with a log is the one that a solve prints for its deck.
//!
//! **Model.** A deck is seen as the `Deck` of `lp_model`, a report as the `Report` of `lp_text`: an outcome, a basis where it
//! tells one, and a log where it has one. The run is that of the deck's instance (`instance_of`, `IsRun` of `lp_run`).
//!
//! **Contract.** [`audit`] answers what the report is worth beside the run (`Judged` in `specs/Judged.antt`): that it has no
//! log; the number at which log and run part; that the log is the run, and the outcome is another; that these two are the
//! run's, and the basis is not that of the last state; or [`Audit::Yes`] with the number of entries, and then the outcome
//! proves what it says of the deck (`OutcomeProves`). For each deck and report one answer is right ([`one_judgement`]), and it
//! is `Yes` for what a solve states with its log ([`of_solve`]). `specs/Works.antt` lists what is worked for each answer
//! (`AuditLists`): all of it fits where there is an answer (`AuditFits`), and [`AuditFault::Overflow`] has the place of the
//! first value that does not (`IsAuditCause` in `specs/Answers.antt`), and comes exactly then but for want of memory. The
//! count of unfit results rises by one exactly at an overflow.
//!
//! **Method.** A plain table is made and taken along the log. At each state it says what comes next by Bland's rule; only an
//! entry that is the run's own is stepped. The sums of the objective come last, where point and prices agree: where these
//! are others, the outcome is refused before anything of it is worked.
//!
//! It stands on `plain_table` for the run, on `run_outcome` for what its end shows, on `instance_model` and `deck_model` for
//! instances, decks and bases, on `cert_text` for reports, and on `bland_laws` for what an outcome proves. It is tested over
//! the built program, by the command `audit`.
#![tactic(auto)]

ghost use Rattle.std.specs.Prelude.{◌≡◌, List, IfSome, Some, length};
ghost use Rattle.instance_model.specs.Basis.{basis_of};
ghost use Rattle.lp_model.specs.declared.Entry.{Entry};
ghost use Rattle.lp_run.specs.Ends.{Yields};
ghost use Rattle.lp_run.specs.Instance.{Instance};
ghost use Rattle.lp_run.specs.Run.{IsRun};
ghost use Rattle.lp_run.specs.State.{State};
ghost use Rattle.lp_text.specs.Report.{Report};
ghost use Rattle.run_audit.specs.Judged.{Judged};
ghost use Rattle.run_audit.specs.declared.answer.Audit.{Audit as Answer};
ghost use Rattle.run_audit.specs.declared.answer.Audit.TheVariants as answer;

mod answer;
mod compare;
mod fault;
mod follow;
mod judging;

pub use answer::Audit;
pub use fault::AuditFault;
pub use judging::audit;

/// Of a report one answer alone is right.
#[tactic(auto, using(crate::proofs::Judgements::one_judgement))]
pub fn one_judgement()
    ensures { (inst : Instance) (r : Report) (a b : Answer) → Judged inst r a → Judged inst r b → a ≡ b }
{}

/// A report that states the outcome of a run, its whole log, and the basis of its last state or none is right.
#[tactic(auto, using(crate::proofs::Judgements::of_solve))]
pub fn of_solve()
    ensures { (inst : Instance) (r : Report) (log : List Entry) (s : State) → r.log ≡ Some log → IsRun inst log s → Yields inst s r.outcome
        → IfSome r.basis (λ b. b ≡ basis_of s) → Judged inst r (answer.Yes (length log)) }
{}
