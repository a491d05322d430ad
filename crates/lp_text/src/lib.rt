//! The texts of `lp`, as definitions: the lines of a text, the cards of a deck in fixed columns and in
//! free form, the words of its sense, the text of a fraction, the report, and the limits.
//!
//! The crate has almost no code: it declares the forms of a deck, what may be wrong with a line of it, and
//! the limits, which the readers share. Its `specs/` are what the contracts of the readers, of the writer and of
//! the top call cite. `Inner` there serves proofs alone. The crate stands on `lp_model` and `rational`.
#![tactic(auto)]

/// The rows that a deck may have, N rows not among them.
pub const ROW_LIMIT: usize = 1_000;

/// The columns that a deck may have.
pub const COLUMN_LIMIT: usize = 10_000;

/// The costs and entries that are not 0 which a deck may have.
pub const ENTRY_LIMIT: usize = 100_000;

/// The bytes that a deck may have, through the line that ends it.
pub const BYTE_LIMIT: u64 = 16_777_216;

/// The bytes that a line of a deck in free form may have, its line feed not among them.
pub const FREE_LINE_LIMIT: usize = 255;

/// The bytes that a token of a deck in free form may have.
pub const TOKEN_LIMIT: usize = 64;

/// The form of a deck's text.
#[derive(Clone, Copy, Debug, PartialEq, Eq)]
pub enum Form {
    /// Fields in fixed columns.
    Fixed,
    /// Tokens with blanks between them.
    Free,
}

/// What a limit counts.
#[derive(Clone, Copy, Debug, PartialEq, Eq)]
pub enum Counted {
    /// Rows, N rows not among them.
    Rows,
    Columns,
    /// Costs and entries that are not 0.
    Entries,
    /// Bytes through the deck's last line.
    Bytes,
}

/// What is wrong with a line of a deck.
#[derive(Clone, Copy, Debug, PartialEq, Eq)]
pub enum LineFault {
    /// A count passes its limit.
    Limit(Counted),
    /// A byte outside 32 to 126 stands in a line that is no comment: in columns 1 to 61, or in free form among the first 255
    /// bytes.
    NotAscii,
    /// A card of data has a byte in this column, which no field covers; it is the least such.
    Columns(u8),
    /// In free form, a line or a token is too long, or a card has another number of tokens than its section admits.
    Token,
    /// A word that is no sense, a section's card where the sense is awaited, or a card of data behind the sense.
    Sense,
    /// An unknown section, one repeated or out of order, or a card of data where no section admits one.
    Section,
    /// The type of a row is none of N, L, G and E.
    RowType,
    /// A row that was not given.
    UnknownRow,
    /// A column that was not given.
    UnknownColumn,
    /// A row that was given before, or that the column or the section has named before.
    Repeated,
    /// The cards of a column do not stand together.
    Scattered,
    /// A number field without a value.
    Number,
    /// An unknown kind of bound, or an infinity that the kind does not admit.
    Bound,
    /// An integer or a semicontinuous column.
    Integer,
}
