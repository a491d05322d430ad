//! What is wrong with a line of a report.
use thiserror::Error;

/// What is wrong with a line of a report. Of the flaws that a line has the first in this order counts.
#[derive(Clone, Copy, Debug, PartialEq, Eq, Error)]
pub enum Flaw {
    /// The report is too long.
    #[error("bytes")]
    Bytes,
    /// The line is too long.
    #[error("long")]
    Long,
    /// The line is not of the kind that is expected.
    #[error("word")]
    Word,
    /// A number is missing, or its text is no number's.
    #[error("number")]
    Number,
    /// A name is missing, or is not the one that the deck has in this place.
    #[error("name")]
    Name,
    /// The report ends before its last line.
    #[error("missing")]
    Missing,
    /// A line follows the report's last.
    #[error("rest")]
    Rest,
}
