// The arithmetic on exact fractions: an operation of `Full127` on each pair of a stream. `none` answers the left operand at no cost, so that the
// cost of the draws can be taken away. With the word `edges` all operations are made on each pair of fractions at the edges of 127 bits.
use crate::arith::checksum::Sum;
use crate::arith::draws::{Operands, Stream};
use crate::arith::operation::Operation;
use exact_frac::{Arith, Full127};
use std::alloc::Global;

mod checksum;
mod draws;
mod edges;
mod operation;

/// What is worked: fractions at the edges, or an operation on a stream of operands.
#[derive(Clone, Copy)]
pub(crate) enum Job {
    Edges,
    Each(Operation, Stream),
}

/// How many pairs a stream has, how many answers are unfit, and a checksum of all operands and answers.
fn streamed(alloc: Global, operation: Operation, stream: Stream) -> Option<String> {
    let mut operands = Operands::new();
    let mut arith = Full127::new();
    let mut checksum = Sum::new();
    let count = stream.count();
    for _ in 0..count {
        let (left, right) = operands.pair(stream);
        checksum.fold(left);
        checksum.fold(right);
        checksum.fold_answer(operation.answer(&mut arith, left, right));
    }
    let (unfit, sum) = (arith.unfit(), checksum.value());
    format!(in alloc; "{count} pairs, {unfit} unfit, checksum {sum:016x}\n").ok()
}

impl Job {
    /// The stream and the operation that two words name, where they name both.
    pub(crate) fn named(stream: &str, operation: &str) -> Option<Job> {
        let stream = Stream::named(stream)?;
        Some(Job::Each(Operation::named(operation)?, stream))
    }

    /// What the job comes to.
    pub(crate) fn text(self, alloc: Global) -> Option<String> {
        match self {
            Job::Edges => edges::text(alloc),
            Job::Each(operation, stream) => streamed(alloc, operation, stream),
        }
    }
}
