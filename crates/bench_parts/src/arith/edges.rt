// All operations on each pair of fractions at the edges of 127 bits.
use crate::arith::checksum::Sum;
use crate::arith::operation::Operation;
use exact_frac::{Arith, Frac, Full127};
use std::alloc::Global;

/// 2^127 - 1, the largest part.
const TOP: i128 = 0x7fff_ffff_ffff_ffff_ffff_ffff_ffff_ffff;

/// 2^126.
const W126: i128 = 0x4000_0000_0000_0000_0000_0000_0000_0000;

/// 2^64.
const W64: i128 = 0x1_0000_0000_0000_0000;

/// 2^63.
const W63: i128 = 0x8000_0000_0000_0000;

/// 3^80, which is odd and below 2^127.
const THREES: i128 = 147808829414345923316083210206383297601;

/// The fractions, each of them and its negative.
const EDGES: [(i128, i128); 40] = [
    (0, 1),
    (1, 1),
    (1, 2),
    (1, 3),
    (2, 3),
    (7, 2),
    (8, 9),
    (1, 10),
    (TOP, 1),
    (TOP - 1, 1),
    (TOP, 2),
    (TOP, 3),
    (TOP, 5),
    (TOP, 7),
    (1, TOP),
    (2, TOP),
    (1, TOP - 1),
    (TOP - 1, TOP),
    (TOP, TOP - 1),
    (TOP - 2, TOP - 1),
    (W126, 1),
    (1, W126),
    (W126 + 1, W64),
    (W126 + 5, W63),
    (W126, THREES),
    (THREES, 2),
    (1, THREES),
    (W64, 1),
    (W64, 3),
    (1, W64),
    (W64, W64 - 1),
    (W64 - 1, W64 - 3),
    (W63, 1),
    (W63, 3),
    (1, W63),
    (W64 - 1, W63),
    (W63 + 1, W63 - 1),
    (10000000000000000000, 30000000000000000001),
    (
        192320266220262531359177576783,
        88585878885557616817654631760,
    ),
    (98566618787398639810858690649, 23937196531179312158127754260),
];

/// The operations.
const OPERATIONS: [Operation; 5] = [
    Operation::Add,
    Operation::Sub,
    Operation::Mul,
    Operation::Div,
    Operation::Compare,
];

// The fraction of two parts, where there is one.
fn frac(parts: (i128, i128)) -> Option<Frac> {
    if parts.0 > i128::MIN && parts.1 > 0 {
        Some(Frac::of(parts.0, parts.1))
    } else {
        None
    }
}

// All operations on a fraction and each of the others: how many answers are unfit, how many products and quotients were worked, and the checksum
// of the answers.
fn line(alloc: Global, left: Frac) -> Option<String> {
    let mut arith = Full127::new();
    let mut checksum = Sum::new();
    for parts in EDGES {
        let right = frac(parts)?;
        for operation in OPERATIONS {
            checksum.fold_answer(operation.answer(&mut arith, left, right));
            checksum.fold_answer(operation.answer(&mut arith, left, right.negated()));
        }
    }
    let (unfit, work, sum) = (arith.unfit(), arith.work(), checksum.value());
    format!(in alloc; "{unfit} unfit, {work} worked, checksum {sum:016x}\n").ok()
}

/// A line for each fraction, and one for its negative.
pub(crate) fn text(alloc: Global) -> Option<String> {
    let mut text = String::new(alloc);
    for parts in EDGES {
        let left = frac(parts)?;
        let here = line(alloc, left)?;
        let there = line(alloc, left.negated())?;
        text.push_str(&here).ok()?;
        text.push_str(&there).ok()?;
    }
    Some(text)
}
