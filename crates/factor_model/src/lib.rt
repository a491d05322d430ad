//! What factors of a basis are, with the laws that solve by them.
//!
//! The crate has one type that runs, [`Op`], so that contracts and code speak of one type of operation.
//! `specs/Eta.antt` applies operations to a vector, and the transposed ones in reverse order. `specs/Upper.antt` says
//! what a triangular form is, and solves by it for a column and for a row. Each of these is a calculation: its worked
//! values in order, and its answer. `proofs/UpperLaws.antt` shows that the answers satisfy their equations.
#![tactic(auto)]

use exact_frac::Frac;
use sparse_cols::SparseCol;

/// An elementary operation on a vector. Its column has no entry in its own row.
#[derive(Drop)]
pub enum Op {
    /// `Column(p, k)` takes k_i times item p from each item i.
    Column(u32, SparseCol<Frac>),
    /// `Row(p, k)` takes the sum of k_i times item i from item p.
    Row(u32, SparseCol<Frac>),
}
