//! An end of a column's bounds.
ghost use Rattle.std.specs.Prelude.{◌≡◌};
ghost use Rattle.deck_model.specs.End.{finite_end, lower_end, upper_end};

use exact_frac::Frac;

/// An end of a column's bounds: a number, or infinity below or above all numbers.
#[derive(Clone, Copy, Debug, PartialEq, Eq)]
pub enum End {
    Minus,
    At(Frac),
    Plus,
}

impl End {
    // The number of an end.
    pub(crate) fn finite(self) -> Option<Frac>
        ensures { result ≡ finite_end self }
    {
        match self {
            End::At(value) => Some(value),
            End::Minus | End::Plus => None,
        }
    }

    // The lower end that has this number.
    pub(crate) fn lower(value: Option<Frac>) -> End
        ensures { result ≡ lower_end value }
    {
        value.map_or(End::Minus, End::At)
    }

    // The upper end that has this number.
    pub(crate) fn upper(value: Option<Frac>) -> End
        ensures { result ≡ upper_end value }
    {
        value.map_or(End::Plus, End::At)
    }
}
