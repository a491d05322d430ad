// Streams of operands, drawn from a fixed seed.
ghost use Rattle.std.specs.Prelude.{◌<◌, ◌^◌};

use crate::draws::Draws;
use exact_frac::Frac;

/// Which operands a stream holds.
#[derive(Clone, Copy)]
pub(crate) enum Stream {
    /// Integers of sizes from 1 to 1,000.
    Small,
    /// Fractions whose parts are below 2^63.
    Wide,
    /// Fractions whose parts are from 2^126 to 2^127 before they are reduced. Of each four pairs one shares
    /// its denominator, and one has the left numerator as its right denominator.
    Full,
    /// Fractions whose parts are up to 2^62 before they are reduced, short ones as often as long ones. Of each
    /// four denominators one is 1; of each four pairs one shares its denominator.
    Mixed,
}

impl Stream {
    /// The stream of that name.
    pub(crate) fn named(word: &str) -> Option<Stream> {
        match word {
            "small" => Some(Stream::Small),
            "wide" => Some(Stream::Wide),
            "full" => Some(Stream::Full),
            "mixed" => Some(Stream::Mixed),
            _ => None,
        }
    }

    /// How many pairs a run draws.
    pub(crate) fn count(self) -> u32 {
        match self {
            Stream::Small => 200_000,
            Stream::Wide => 200_000,
            Stream::Full => 100_000,
            Stream::Mixed => 200_000,
        }
    }
}

/// One more than the largest number of 64 bits.
const WORD: u128 = 0x1_0000_0000_0000_0000;

/// 2^126.
const HALF: u128 = 0x4000_0000_0000_0000_0000_0000_0000_0000;

/// The largest signed number of 64 bits.
const WIDE: u64 = 0x7fff_ffff_ffff_ffff;

/// Operands, drawn one after another.
#[derive(Drop)]
pub(crate) struct Operands {
    draws: Draws,
}

impl Operands {
    /// The first operands.
    pub(crate) fn new() -> Operands {
        Operands {
            draws: Draws::new(),
        }
    }

    /// The size of a part.
    fn size(&mut self, stream: Stream) -> u128
        ensures some { 0 < result }
        ensures below { result < 2 ^ 127 }
    {
        match stream {
            Stream::Small => (self.draws.word() % 1_000) as u128 + 1,
            Stream::Wide => (self.draws.word() % WIDE) as u128 + 1,
            Stream::Full => {
                let high = self.draws.word() as u128;
                let low = self.draws.word() as u128;
                (high * WORD + low) % HALF + HALF
            }
            Stream::Mixed => {
                let most = self.draws.word() >> 2;
                (most >> (self.draws.word() % 62)) as u128 + 1
            }
        }
    }

    /// The right denominator of a pair whose left operand has those parts.
    fn shared(&mut self, left_size: u128, left_denom: u128) -> u128
        requires size_some { 0 < left_size }
        requires size_below { left_size < 2 ^ 127 }
        requires denom_some { 0 < left_denom }
        requires denom_below { left_denom < 2 ^ 127 }
        ensures some { 0 < result }
        ensures below { result < 2 ^ 127 }
    {
        let choice = self.draws.word() % 4;
        if choice == 0 {
            return left_denom;
        }
        if choice == 1 {
            return left_size;
        }
        self.size(Stream::Full)
    }

    /// A denominator of the stream `Mixed`: 1, that other number, or one of its own.
    fn alike(&mut self, other: u128) -> u128
        requires some { 0 < other }
        requires below { other < 2 ^ 127 }
        ensures some { 0 < result }
        ensures below { result < 2 ^ 127 }
    {
        let choice = self.draws.word() % 4;
        if choice == 0 {
            return 1;
        }
        if choice == 1 {
            return other;
        }
        self.size(Stream::Mixed)
    }

    /// The denominators of a pair whose left numerator has that size.
    fn denoms(&mut self, stream: Stream, left_size: u128) -> (u128, u128)
        requires some { 0 < left_size }
        requires below { left_size < 2 ^ 127 }
        ensures left_some { 0 < result.0 }
        ensures left_below { result.0 < 2 ^ 127 }
        ensures right_some { 0 < result.1 }
        ensures right_below { result.1 < 2 ^ 127 }
    {
        match stream {
            Stream::Small => (1, 1),
            Stream::Wide => {
                let left = self.size(stream);
                let right = self.size(stream);
                (left, right)
            }
            Stream::Full => {
                let left = self.size(stream);
                let right = self.shared(left_size, left);
                (left, right)
            }
            Stream::Mixed => {
                let left = self.alike(left_size);
                let right = self.alike(left);
                (left, right)
            }
        }
    }

    /// The fraction with those parts, of either sign.
    fn fraction(&mut self, size: u128, denom: u128) -> Frac
        requires size_below { size < 2 ^ 127 }
        requires denom_some { 0 < denom }
        requires denom_below { denom < 2 ^ 127 }
    {
        let fraction = Frac::of(size as i128, denom as i128);
        if self.draws.word() % 2 == 0 {
            fraction
        } else {
            fraction.negated()
        }
    }

    /// The next pair of the stream.
    pub(crate) fn pair(&mut self, stream: Stream) -> (Frac, Frac) {
        let left_size = self.size(stream);
        let right_size = self.size(stream);
        let (left_denom, right_denom) = self.denoms(stream, left_size);
        let left = self.fraction(left_size, left_denom);
        let right = self.fraction(right_size, right_denom);
        (left, right)
    }
}
