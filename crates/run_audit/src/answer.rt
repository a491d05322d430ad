//! What an audit says of a report.

/// What a report is worth beside the run of its deck: the first of these, in the order of an audit, that is wrong with it,
/// or that all is as it must be.
#[derive(Clone, Copy, Debug, PartialEq, Eq)]
pub enum Audit {
    /// All that the report states is the run's, which has so many entries.
    Yes(u64),
    /// The report has no log.
    NoLog,
    /// The log and the run agree before this number and part there: the entry is not the run's, there is none though the
    /// run goes on, or there is one though the run ends.
    Log(u64),
    /// The log is the whole run, and the outcome is not the run's.
    Outcome,
    /// Log and outcome are the run's, and the basis that the report tells is not that of the last state.
    Basis,
}
