//! Eta files: lists of elementary operations on a vector.
//!
//! **Model.** An [`EtaFile`] is seen as the list of its operations, an operation as itself (`Op` of `factor_model`).
//!
//! **Contract.** `apply` applies the operations to a vector in order, `apply_back` the transposed ones in reverse
//! order (`apply` and `apply_back` in `Eta` of `factor_model`). Each answers what the calculation settles to at the
//! arithmetic's width, `Unfit` exactly where one of its worked values does not fit; it keeps the width, the count of
//! unfit results rises by one exactly at `Unfit`, and the count of work rises at most by the number of stored
//! entries. After `Unfit` the vector holds anything. `push` takes one more operation, or hands it back where memory
//! fails. Only `push` takes memory.
//!
//! It stands on `factor_model` for its definitions and on `sparse_steps` for its loops.

#![tactic(auto)]

ghost use Rattle.std.specs.Prelude.{◌≡◌, ◌+◌, ◌≤◌, ◌<◌, [], ◌∷◌, ◌++◌, OnOk, OnErr, IfErr, length, slice_set};
ghost use Rattle.rational.specs.Lines as lines;
ghost use Rattle.rational.specs.Worked.{bind, done};
ghost use Rattle.rational.specs.Sum.{at};
ghost use Rattle.sparse_cols.specs.Sparse.{IsRising};
ghost use Rattle.exact_frac.specs.Count.{unfit_after};
ghost use Rattle.exact_frac.specs.Settles.{Leaves};
ghost use Rattle.factor_model.specs.Eta as eta;
ghost use Rattle.factor_model.specs.Eta.{AreOps, IsOp, entries, stored, transposed};

use exact_frac::{Arith, Frac, Unfit};
pub use factor_model::Op;
use sparse_cols::SparseCol;
use sparse_steps::{gather, subtract};
use std::alloc::Global;
use std::marker::Model;

/// A list of operations.
#[derive(Drop)]
pub struct EtaFile {
    ops: Vec<Op>,
}

impl Model for EtaFile {
    ghost use Rattle.std.specs.Prelude.{List};
    ghost use Rattle.factor_model.specs.declared.Op.{Op};

    ghost Value = { List Op };

    ghost view = { λ e. e.ops.items };
}

/// Why an operation was not taken.
#[derive(Drop)]
pub enum PushFault {
    /// The allocator had no memory left. The operation is handed back.
    Memory(Op),
}

// Takes k_i times item p from each item i.
fn column<A: Arith>(
    p: usize,
    k: &SparseCol<Frac>,
    v: &mut [Frac],
    arith: &mut A,
) -> Result<(), Unfit>
    requires row { p < length v.old }
    requires rows { IsRising (length v.old) 0 k.now.pairs }
    ensures settled { Leaves (A.width arith.old) (lines.subtract p (at v.old p) v.old k.now.pairs) result v.new }
    ensures width { A.width arith.new ≡ A.width arith.old }
    ensures unfit { A.unfit_count arith.new ≡ unfit_after (A.unfit_count arith.old) result }
    ensures work { A.work_count arith.new ≤ A.work_count arith.old + length k.now.pairs }
{
    let x = v[p];
    subtract(p, x, v, k, arith)
}

// Takes the sum of k_i times item i from item p.
fn row<A: Arith>(p: usize, k: &SparseCol<Frac>, v: &mut [Frac], arith: &mut A) -> Result<(), Unfit>
    requires row { p < length v.old }
    requires rows { IsRising (length v.old) 0 k.now.pairs }
    ensures settled { Leaves (A.width arith.old) (bind (lines.gather p v.old (at v.old p) k.now.pairs) (λ rest. done (slice_set v.old p rest))) result v.new }
    ensures width { A.width arith.new ≡ A.width arith.old }
    ensures unfit { A.unfit_count arith.new ≡ unfit_after (A.unfit_count arith.old) result }
    ensures work { A.work_count arith.new ≤ A.work_count arith.old + length k.now.pairs }
{
    let item = v[p];
    let rest = gather(p, v, item, k, arith)?;
    v[p] = rest;
    Ok(())
}

fn operate<A: Arith>(op: &Op, v: &mut [Frac], arith: &mut A) -> Result<(), Unfit>
    requires { IsOp (length v.old) op.now }
    ensures settled { Leaves (A.width arith.old) (eta.operate op.now v.old) result v.new }
    ensures width { A.width arith.new ≡ A.width arith.old }
    ensures unfit { A.unfit_count arith.new ≡ unfit_after (A.unfit_count arith.old) result }
    ensures work { A.work_count arith.new ≤ A.work_count arith.old + entries op.now }
{
    match op {
        Op::Column(p, k) => column(*p as usize, k, v, arith),
        Op::Row(p, k) => row(*p as usize, k, v, arith),
    }
}

fn operate_transposed<A: Arith>(op: &Op, v: &mut [Frac], arith: &mut A) -> Result<(), Unfit>
    requires { IsOp (length v.old) op.now }
    ensures settled { Leaves (A.width arith.old) (eta.operate (transposed op.now) v.old) result v.new }
    ensures width { A.width arith.new ≡ A.width arith.old }
    ensures unfit { A.unfit_count arith.new ≡ unfit_after (A.unfit_count arith.old) result }
    ensures work { A.work_count arith.new ≤ A.work_count arith.old + entries op.now }
{
    match op {
        Op::Column(p, k) => row(*p as usize, k, v, arith),
        Op::Row(p, k) => column(*p as usize, k, v, arith),
    }
}

impl EtaFile {
    /// No operation.
    pub fn new(alloc: Global) -> EtaFile
        ensures { result ≡ [] }
    {
        EtaFile {
            ops: Vec::new(alloc),
        }
    }

    /// Takes one more operation, the last to apply. Where memory fails the file is as it was.
    pub fn push(&mut self, op: Op) -> Result<(), PushFault>
        ensures ok { OnOk result (self.new ≡ self.old ++ op ∷ []) }
        ensures err { OnErr result (self.new ≡ self.old) }
        ensures back { IfErr result (λ fault. fault ≡ PushFault.Memory op) }
    {
        if self.ops.try_reserve(1).is_err() {
            return Err(PushFault::Memory(op));
        }
        self.ops.push_reserved(op);
        Ok(())
    }

    /// How many operations there are.
    pub fn len(&self) -> usize
        ensures { result ≡ length self.now }
    {
        self.ops.len()
    }

    /// Applies the operations to a vector of which they read and write items only. After `Unfit` it holds anything.
    pub fn apply<A: Arith>(&self, v: &mut [Frac], arith: &mut A) -> Result<(), Unfit>
        requires { AreOps (length v.old) self.now }
        ensures settled { Leaves (A.width arith.old) (eta.apply v.old self.now) result v.new }
        ensures width { A.width arith.new ≡ A.width arith.old }
        ensures unfit { A.unfit_count arith.new ≡ unfit_after (A.unfit_count arith.old) result }
        ensures work { A.work_count arith.new ≤ A.work_count arith.old + stored self.now }
    {
        for op in &self.ops {
            operate(op, v, arith)?;
        }
        Ok(())
    }

    /// Applies the transposed operations in reverse order. After `Unfit` the vector holds anything.
    pub fn apply_back<A: Arith>(&self, v: &mut [Frac], arith: &mut A) -> Result<(), Unfit>
        requires { AreOps (length v.old) self.now }
        ensures settled { Leaves (A.width arith.old) (eta.apply_back v.old self.now) result v.new }
        ensures width { A.width arith.new ≡ A.width arith.old }
        ensures unfit { A.unfit_count arith.new ≡ unfit_after (A.unfit_count arith.old) result }
        ensures work { A.work_count arith.new ≤ A.work_count arith.old + stored self.now }
    {
        let count = self.ops.len();
        for k in 0..count {
            operate_transposed(&self.ops[count - 1 - k], v, arith)?;
        }
        Ok(())
    }
}
