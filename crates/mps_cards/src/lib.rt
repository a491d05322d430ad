//! The lines of an input, and the cards of a deck in fixed MPS columns.
//!
//! A [`LineReader`] reads a source of [`io_ends`] in pieces and answers its lines one by one. Its input is what it keeps,
//! the bytes that it has read and not yet handed out, followed by what the source has left. A line is the bytes up to a
//! line feed, and a last piece without one is a line where it is not empty; lines count from 1.
//!
//! # Model
//!
//! A contract sees a reader as a record of the bytes that it keeps (`kept`), how many lines it has answered (`count`), how
//! many bytes stand from its mark through the last of them (`since`), and the fault that it gives at each later call, if
//! it has given one (`fault`). The lines of an input are those of `lp_text`: `lines_left kept left` is `Some` of them where
//! the source tells what it has left.
//!
//! # Contract
//!
//! - [`LineReader::line`] answers the first line of the input, and leaves the input behind it: `lines_left` before is this
//!   line, and then `lines_left` after. It answers no line exactly where the input is empty.
//! - A caller says how many bytes of a line are kept, and how many bytes may stand from the mark through it. A reader holds
//!   no more of a line than the first, and 4,096 bytes that it read ahead, however long the line is. It gives `TooMany`
//!   exactly where the second is passed.
//! - It reads only while no line stands whole in the kept bytes and they do not pass what is allowed. `Read` comes only
//!   from such a read, and where the source's count of faults rose.
//! - A reader that has given a fault gives it again, and reads no more.
#![tactic(auto)]

mod ahead;
mod cards;
mod columns;
mod faults;
mod gathering;
mod line_reader;
mod lines;
mod places;
mod splitting;
mod words;

pub use cards::{Card, CardFault, CardKind, Fields};
pub use columns::{byte_at, has_only_blanks, prints};
pub use faults::ReadFault;
pub use line_reader::LineReader;
pub use lines::{Line, LineBytes};
pub use no_memory::Memory;
pub use splitting::{counted_columns, kept_bytes, split};
pub use words::{split_word, word_at};
