//! Groups of items: one for each column, or for each row.

use deck_model::Deck;
use exact_frac::Frac;

/// The items of one rule, in the order of the columns or of the rows.
#[derive(Clone, Copy)]
pub(crate) enum Group {
    Columns,
    Rows,
    Reduced,
    Prices,
    EndlessColumns,
    EndlessRows,
    RayColumns,
    RayRows,
}

/// The items of a group, with the deck and the lists that they are worked from.
#[derive(Drop)]
pub(crate) struct Claim<'a> {
    /// The deck.
    pub deck: &'a Deck,
    /// Which items.
    pub group: Group,
    /// The point or the ray.
    pub x: &'a [Frac],
    /// The prices or the row combination.
    pub y: &'a [Frac],
    /// The activities of the first rows at `x`, worked ahead.
    pub ahead: &'a [Frac],
}
