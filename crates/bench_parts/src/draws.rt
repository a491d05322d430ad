// What the parts share: words drawn from a fixed seed, and a checksum of words.
//
// `below` answers a number below its bound. Of the words that are drawn, and of the checksum, no contract speaks. The generator is the linear
// congruential one of Knuth's MMIX, and the checksum is FNV-1a over words of 64 bits (Fowler, Noll and Vo). The peers in bench/ draw and sum the same.
ghost use Rattle.std.specs.Prelude.{◌<◌};

const SEED: u64 = 20_260_701;

const MULTIPLIER: u64 = 6_364_136_223_846_793_005;

const INCREMENT: u64 = 1_442_695_040_888_963_407;

/// What a checksum begins with.
pub(crate) const START: u64 = 0xcbf2_9ce4_8422_2325;

/// By what a checksum is multiplied at each word.
pub(crate) const PRIME: u64 = 0x100_0000_01b3;

/// A linear congruential generator.
#[derive(Drop)]
pub(crate) struct Draws {
    state: u64,
}

impl Draws {
    /// The generator at its seed.
    pub(crate) fn new() -> Draws {
        Draws { state: SEED }
    }

    /// The next word. Its low half takes in the high half, since the low bits of the state repeat soon.
    pub(crate) fn word(&mut self) -> u64 {
        self.state = self.state.wrapping_mul(MULTIPLIER).wrapping_add(INCREMENT);
        self.state ^ (self.state >> 32)
    }

    /// The next number below a bound.
    pub(crate) fn below(&mut self, bound: usize) -> usize
        requires { 0 < bound }
        ensures { result < bound }
    {
        (self.word() % bound as u64) as usize
    }
}

/// FNV-1a over words of 64 bits.
#[derive(Drop)]
pub(crate) struct Checksum {
    sum: u64,
}

impl Checksum {
    /// The checksum of no words.
    pub(crate) fn new() -> Checksum {
        Checksum { sum: START }
    }

    /// Takes in a word.
    pub(crate) fn fold(&mut self, word: u64) {
        self.sum = (self.sum ^ word).wrapping_mul(PRIME);
    }

    /// The checksum of what was taken in.
    pub(crate) fn value(&self) -> u64 {
        self.sum
    }
}
