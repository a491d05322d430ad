//! Decks: linear programs with the names of their rows and columns, as a reader builds them and a
//! solver reads them.
//!
//! # Model
//!
//! A contract sees a [`Deck`] as the record `Deck` of `lp_model`: its name, the objective's name, the
//! list of rows, the list of columns, and the constant. A [`Name`] is its list of bytes, and a column's
//! entries are pairs of row and number by rising rows, none of them 0. `specs/End.antt` says which
//! interval two [`End`]s make, and `specs/Named.antt` that each row and each column is found by its name.
//! A [`Log`] is the list of its entries, [`Numbers`] are the list of them, a [`Basis`] is the record of
//! that name in `lp_model`, and `specs/Outcome.antt` says which outcome of `lp_model` an [`Outcome`] is.
//!
//! # Contract
//!
//! - Each edit leaves the deck that the definition of its name in `lp_model`'s `specs/Edit.antt` says, as
//!   `with_row` for [`Deck::add_row`] and `with_cost` for [`Deck::set_cost`].
//! - An edit that is refused leaves the deck as it was. [`EditFault::Repeated`] comes exactly where the
//!   name, or the entry, is there already; an objective's name counts as a row's. Want of memory is
//!   [`EditFault::Memory`], and nothing says when it comes. The calls that only set a number or the
//!   ends of a column take no memory and are never refused.
//! - Each accessor answers what the record has at an index in range, and each look-up the index of a name.
//! - [`Deck::rows`] and [`Deck::columns`] tell what every deck keeps: columns that are sparse over its
//!   rows, ends that do not cross, and names that differ.
//!
//! Names are kept in hash maps that keep the order of insertion, so a look-up by name takes the same
//! time in every deck, and so do an accessor and a setter. An entry is put into its column in order.
//!
//! The crate stands on `lp_model` and `rational` for its definitions, on `exact_frac` for numbers, on
//! `sparse_cols` for the entries of a column, on `no_memory` for the refusal for memory, on the kit's
//! `indexmap` for the names, and on `thiserror` for the texts of its refusals. It passes on the plain
//! enums of `lp_model` under its own name.
#![tactic(auto)]

mod basis;
mod deck;
mod end;
mod fault;
mod log;
mod name;
mod outcome;

pub use basis::{Basis, Numbers};
pub use deck::{Deck, MAX_COLUMNS, MAX_ROWS};
pub use end::End;
pub use fault::EditFault;
pub use log::Log;
pub use lp_model::{Entry, Kind, Phase, Place, RowKind, Side, Status};
pub use name::Name;
pub use no_memory::Memory;
pub use outcome::Outcome;
