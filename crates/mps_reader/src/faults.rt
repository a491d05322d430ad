//! Why no deck was read.

use deck_model::Name;
use lp_text::LineFault;
use thiserror::Error;

/// Why no deck was read: the text's first fault, or an end that failed.
#[derive(Debug, Drop, Error)]
pub enum DeckFault {
    /// The source failed.
    #[error("reading failed")]
    Read,
    /// Memory ran out.
    #[error("out of memory")]
    Memory,
    /// The line of this number has this fault.
    #[error("line {0}: {1:?}")]
    InLine(u64, LineFault),
    /// The deck ends, and it has no N row.
    #[error("no objective row")]
    NoObjective,
    /// The text of so many lines ends before the deck does.
    #[error("deck ends without ENDATA after {0} lines")]
    NoEnd(u64),
    /// The deck ends, and the lower end of the column of this name is above its upper end; it is the first such.
    #[error("crossed bounds")]
    CrossedBounds(Name),
}
