// A checksum of fractions.
use crate::draws::Checksum;
use exact_frac::{Frac, Unfit};

/// One more than the largest number of 64 bits.
const WORD: u128 = 0x1_0000_0000_0000_0000;

/// The word that stands for an answer that is unfit.
const UNFIT: u64 = 0xffff_ffff_ffff_ffff;

/// A checksum of fractions.
#[derive(Drop)]
pub(crate) struct Sum {
    words: Checksum,
}

impl Sum {
    /// The checksum of no fractions.
    pub(crate) fn new() -> Sum {
        Sum {
            words: Checksum::new(),
        }
    }

    fn fold_size(&mut self, size: u128) {
        self.words.fold((size / WORD) as u64);
        self.words.fold((size % WORD) as u64);
    }

    /// Takes in a fraction: its sign, the size of its numerator, and its denominator.
    pub(crate) fn fold(&mut self, fraction: Frac) {
        let numer = fraction.numer();
        self.words.fold(if numer < 0 { 1 } else { 0 });
        self.fold_size(numer.unsigned_abs());
        self.fold_size(fraction.denom().unsigned_abs());
    }

    /// Takes in an answer.
    pub(crate) fn fold_answer(&mut self, answer: Result<Frac, Unfit>) {
        match answer {
            Ok(fraction) => self.fold(fraction),
            Err(_) => self.words.fold(UNFIT),
        }
    }

    /// The checksum of what was taken in.
    pub(crate) fn value(&self) -> u64 {
        self.words.value()
    }
}
