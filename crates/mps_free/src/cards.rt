use crate::tokens::Tokens;
use std::alloc::AllocError;
use thiserror::Error;

/// A card in free form: a line that is no comment and not blank.
#[derive(Debug, Drop)]
pub enum FreeCard {
    /// The head of a section: its first byte is not blank.
    Section(Tokens),
    /// A card of data: its first byte is blank.
    Data(Tokens),
}

/// Why a line is no card.
#[derive(Clone, Copy, Debug, PartialEq, Eq, Error)]
pub enum FreeFault {
    /// Memory ran out.
    #[error("out of memory")]
    Memory,
    /// The line of this number is no comment, and a byte outside 32 to 126 stands among its first 255.
    #[error("line {0}: a byte that does not print")]
    NotAscii(u64),
    /// The line of this number has more than 255 bytes, or a token of more than 64.
    #[error("line {0}: a line or a token that is too long")]
    Token(u64),
}

impl From<AllocError> for FreeFault {
    ghost use Rattle.std.specs.Prelude.{◌≡◌};
    ghost use Rattle.mps_free.specs.declared.cards.FreeFault.TheVariants as free_faults;

    ghost from_gives = { λ _ fault. fault ≡ free_faults.Memory };

    fn from(_error: AllocError) -> FreeFault {
        FreeFault::Memory
    }
}
