// The operations that are run.
use exact_frac::{Arith, Frac, Full127, Unfit};

/// An operation on two fractions.
#[derive(Clone, Copy)]
pub(crate) enum Operation {
    Add,
    Sub,
    Mul,
    Div,
    /// The lesser of the two.
    Compare,
    /// The left one.
    Neither,
}

impl Operation {
    /// The operation of that name.
    pub(crate) fn named(word: &str) -> Option<Operation> {
        match word {
            "add" => Some(Operation::Add),
            "sub" => Some(Operation::Sub),
            "mul" => Some(Operation::Mul),
            "div" => Some(Operation::Div),
            "compare" => Some(Operation::Compare),
            "none" => Some(Operation::Neither),
            _ => None,
        }
    }

    /// The operation's answer.
    pub(crate) fn answer(
        self,
        arith: &mut Full127,
        left: Frac,
        right: Frac,
    ) -> Result<Frac, Unfit> {
        match self {
            Operation::Add => arith.add(left, right),
            Operation::Sub => arith.sub(left, right),
            Operation::Mul => arith.mul(left, right),
            Operation::Div => quotient(arith, left, right),
            Operation::Compare => Ok(if right < left { right } else { left }),
            Operation::Neither => Ok(left),
        }
    }
}

/// The quotient. By 0, which no stream divides by, it is the left one.
fn quotient(arith: &mut Full127, left: Frac, right: Frac) -> Result<Frac, Unfit> {
    if right.is_zero() {
        return Ok(left);
    }
    arith.div(left, right)
}
