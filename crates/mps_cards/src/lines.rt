ghost use Rattle.std.specs.Prelude.{◌≡◌};

use std::marker::Model;

/// The bytes of a line that are kept: a list.
#[derive(Debug, Drop)]
pub struct LineBytes {
    list: Vec<u8>,
}

impl Model for LineBytes {
    ghost use Rattle.std.specs.Prelude.{List, ℕ};

    ghost Value = { List ℕ };

    ghost view = { λ b. b.list.items };
}

impl LineBytes {
    /// These bytes.
    pub fn of(list: Vec<u8>) -> LineBytes
        ensures { result ≡ list.items }
    {
        LineBytes { list }
    }

    /// The bytes as a slice.
    pub fn bytes(&self) -> &[u8]
        ensures { result.now ≡ self.now }
    {
        &self.list
    }
}

/// A line of an input.
#[derive(Debug, Drop)]
pub struct Line {
    /// Its number, counted from 1.
    pub number: u64,
    /// Its first bytes, without the line feed that ends it: as many as were to be kept, and all where there are no more.
    pub bytes: LineBytes,
    /// Whether it has more bytes than those.
    pub longer: bool,
}
