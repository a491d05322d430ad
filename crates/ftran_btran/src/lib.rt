//! The factors of a basis: solving for columns and for rows, and following the exchange of a column.
//!
//! **Model.** [`Factors`] are seen as their operations, their triangular form, how many updates they have had, and the
//! number of entries of the log at which they were made (`Factors` of `factor_model`). Of a matrix B they are factors
//! where the operations take each of its columns to the form's (`AreFactors`).
//!
//! **Contract.** `make` factors a matrix, or answers that its columns are dependent, with a combination of its rows that
//! is 0 (`IsDependence`). `ftran` gives the x with B·x = a, and the spike of a, which an update asks for; `btran` gives the y with
//! y·B = c; `update` follows the exchange of one column of B. Each answers what its calculation settles to at the
//! arithmetic's width (`ftran`, `btran` and `updated` in `Factors` of `factor_model`), `Unfit` exactly where one of its
//! worked values does not fit. The clauses `solves` and `represents` say what the answers mean for each B of which
//! these are factors. After `Unfit` the vectors hold anything; a refused `update` leaves the factors as they were. Of m
//! rows, `ftran` and `btran` work at most m² + m products and quotients and one for each entry of the operations,
//! of which there are at most m(m − 1)/2 and m − 1 for each update; `update` works at most m², and `make` m³.
//!
//! `make` and `update` take memory, the solves take none. It stands on `markowitz_lu`, `row_eta`, `upper_form` and
//! `ft_update`, and on `factor_model` for its definitions and laws.

#![tactic(auto)]

ghost use Rattle.std.specs.Prelude.{◌≡◌, ℕ, ◌+◌, ◌*◌, ◌^◌, ◌<◌, ◌≤◌, Some, IfOk, OnOk, OnErr, IfErr, length, List};
ghost use Rattle.std.specs.List.{All};
ghost use Rattle.rational.specs.Rational.{ℚ};
ghost use Rattle.rational.specs.Sum.{at};
ghost use Rattle.rational.specs.Worked.{settle};
ghost use Rattle.sparse_cols.specs.Sparse.{IsRising};
ghost use Rattle.exact_frac.specs.Count.{unfit_after};
ghost use Rattle.exact_frac.specs.Settles.{Leaves};
ghost use Rattle.factor_model.specs.Eta.{apply, AreOps, stored};
ghost use Rattle.factor_model.specs.Factoring.{factored, made_factors};
ghost use Rattle.factor_model.specs.Factors as factors;
ghost use Rattle.factor_model.specs.Factors.{AreFactors, IsRowSolution, IsSolution, most_updates};
ghost use Rattle.factor_model.specs.Update.{HasPivot, with_column};
ghost use Rattle.factor_model.specs.Upper.{Solves};
ghost use Rattle.factor_model.specs.Vectors.{entry, vector};
ghost use Rattle.ft_update.specs.Fault.{IsCause, count_after};
ghost use Rattle.markowitz_lu.specs.Columns.{HasNoZero, matrix_of};
ghost use Rattle.markowitz_lu.specs.Fault as lu;
ghost use Rattle.ftran_btran.specs.Kept.{AreFew, AreKept, size};

use exact_frac::{Arith, Frac, Unfit};
use ft_update::UpdateFault;
pub use markowitz_lu::LuFault;
use row_eta::EtaFile;
use sparse_cols::SparseCol;
use std::alloc::Global;
use std::marker::Model;
use upper_form::{Upper, clear};

/// The factors of a basis.
#[derive(Drop)]
pub struct Factors {
    etas: EtaFile,
    upper: Upper,
    updates: u32,
    base: u64,
}

impl Model for Factors {
    ghost use Rattle.factor_model.specs.Factors.{Factors};
    ghost use Rattle.ftran_btran.specs.Kept.{AreKept};

    ghost Value = { Factors };

    ghost view = { λ f. record { etas = f.etas; upper = f.upper; updates = f.updates; base = f.base } };

    ghost invariant = { λ f. AreKept (record { etas = f.etas; upper = f.upper; updates = f.updates; base = f.base }) };
}

impl Factors {
    /// The factors of the matrix of `m` columns of `m` rows each, none of which stores a 0, made at a number of the log.
    ///
    /// # Errors
    ///
    /// `Singular` where the columns are dependent, with a combination of the rows that is 0. `Unfit` where a worked value
    /// does not fit the width of the arithmetic, and `Memory` for want of memory.
    pub fn make<A: Arith>(
        alloc: Global,
        m: usize,
        columns: &[SparseCol<Frac>],
        base: u64,
        arith: &mut A,
    ) -> Result<Factors, LuFault>
        requires small { m < 2 ^ 16 }
        requires columns { length columns.now ≡ m }
        requires rows { All (λ column. column.length ≡ m) columns.now }
        requires stored { All HasNoZero columns.now }
        ensures settled { IfOk result (λ f. settle (A.width arith.old) (made_factors m (matrix_of columns.now) base) ≡ Some (Some f)) }
        ensures represents { IfOk result (λ f. AreFactors m f (matrix_of columns.now)) }
        ensures size { IfOk result (λ f. size f ≡ m) }
        ensures fault { IfErr result (lu.IsCause (A.width arith.old) (factored m (matrix_of columns.now))) }
        ensures dependent { IfErr result (lu.IsDependent m (matrix_of columns.now)) }
        ensures width { A.width arith.new ≡ A.width arith.old }
        ensures unfit { A.unfit_count arith.new ≡ lu.count_after (A.unfit_count arith.old) result }
        ensures work { A.work_count arith.new ≤ A.work_count arith.old + m * m * m }
    {
        let (etas, upper) = markowitz_lu::factor(alloc, m, columns, arith)?;
        Ok(Factors::of(etas, upper, base))
    }

    /// The factors of these operations and this form, which have had no update, made at a number of the log.
    pub fn of(etas: EtaFile, upper: Upper, base: u64) -> Factors
        requires within { AreOps (length upper.rows) etas }
        requires few { AreFew (record { etas = etas; upper = upper; updates = 0; base = base }) }
        ensures { result ≡ record { etas = etas; upper = upper; updates = 0; base = base } }
    {
        // (`len` says that the form is triangular, which the factors keep)
        let _ = upper.len();
        Factors {
            etas,
            upper,
            updates: 0,
            base,
        }
    }

    /// How many rows and positions there are.
    pub fn len(&self) -> usize
        ensures value { result ≡ size self.now }
        ensures kept { AreKept self.now }
    {
        self.upper.len()
    }

    /// How many updates they have had.
    pub fn updates(&self) -> u32
        ensures value { result ≡ self.now.updates }
        ensures kept { AreKept self.now }
    {
        self.updates
    }

    /// The number of entries of the log at which they were made.
    pub fn base(&self) -> u64
        ensures { result ≡ self.now.base }
    {
        self.base
    }

    /// Solves B·x = a for the column `a`: `out` has x by position, and `spike` what the operations make of `a`, for which
    /// the form's solution is x: so an update takes `spike`, where x has an item that is not 0. After `Unfit` both hold
    /// anything.
    pub fn ftran<A: Arith>(
        &self,
        column: &SparseCol<Frac>,
        spike: &mut [Frac],
        out: &mut [Frac],
        arith: &mut A,
    ) -> Result<(), Unfit>
        requires rows { IsRising (size self.now) 0 column.now.pairs }
        requires spike { length spike.old ≡ size self.now }
        requires length { length out.old ≡ size self.now }
        ensures settled { Leaves (A.width arith.old) (factors.ftran self.now (vector (size self.now) (entry column.now.pairs))) result (spike.new, out.new) }
        ensures spike { OnOk result (spike.new ≡ (apply (vector (size self.now) (entry column.now.pairs)) self.now.etas).answer) }
        ensures form { OnOk result (Solves self.now.upper out.new spike.new) }
        ensures solves { (b : ℕ → ℕ → ℚ) → AreFactors (size self.now) self.now b → OnOk result (IsSolution (size self.now) b (entry column.now.pairs) out.new) }
        ensures width { A.width arith.new ≡ A.width arith.old }
        ensures unfit { A.unfit_count arith.new ≡ unfit_after (A.unfit_count arith.old) result }
        ensures work { A.work_count arith.new ≤ A.work_count arith.old + (stored self.now.etas + (size self.now * size self.now + size self.now)) }
    {
        spread(column, spike);
        self.etas.apply(spike, arith)?;
        self.upper.solve_keeping(spike, out, arith)
    }

    /// Solves y·B = c for the row `c`: `out` has y by row, and `work` the z with z·U = c. After `Unfit` both hold
    /// anything.
    pub fn btran<A: Arith>(
        &self,
        c: &[Frac],
        work: &mut [Frac],
        out: &mut [Frac],
        arith: &mut A,
    ) -> Result<(), Unfit>
        requires row { length c.now ≡ size self.now }
        requires work { length work.old ≡ size self.now }
        requires length { length out.old ≡ size self.now }
        ensures settled { Leaves (A.width arith.old) (factors.btran self.now c.now) result out.new }
        ensures solves { (b : ℕ → ℕ → ℚ) → AreFactors (size self.now) self.now b → OnOk result (IsRowSolution (size self.now) b (at c.now) out.new) }
        ensures width { A.width arith.new ≡ A.width arith.old }
        ensures unfit { A.unfit_count arith.new ≡ unfit_after (A.unfit_count arith.old) result }
        ensures work { A.work_count arith.new ≤ A.work_count arith.old + (stored self.now.etas + (size self.now * size self.now + size self.now)) }
    {
        self.upper.solve_back(c, work, arith)?;
        copy(work, out);
        self.etas.apply_back(out, arith)
    }

    /// Follows the exchange of the column of position `p`, whose new column's spike is given.
    ///
    /// # Errors
    ///
    /// `Unfit` where a worked value does not fit the width of the arithmetic, `Memory` for want of memory. The factors
    /// are then as they were.
    pub fn update<A: Arith>(
        &mut self,
        alloc: Global,
        p: usize,
        spike: &[Frac],
        arith: &mut A,
    ) -> Result<(), UpdateFault>
        requires updates { self.old.updates < most_updates }
        requires position { p < size self.old }
        requires length { length spike.now ≡ size self.old }
        requires pivot { HasPivot self.old.upper p spike.now }
        ensures settled { OnOk result (settle (A.width arith.old) (factors.updated self.old p spike.now) ≡ Some self.new) }
        ensures fault { IfErr result (IsCause (A.width arith.old) (factors.updated self.old p spike.now)) }
        ensures kept { OnErr result (self.new ≡ self.old) }
        ensures size { size self.new ≡ size self.old }
        ensures represents { (b : ℕ → ℕ → ℚ) → (a : ℕ → ℚ) → AreFactors (size self.old) self.old b
            → spike.now ≡ (apply (vector (size self.old) a) self.old.etas).answer
            → OnOk result (AreFactors (size self.old) self.new (with_column b p a)) }
        ensures width { A.width arith.new ≡ A.width arith.old }
        ensures unfit { A.unfit_count arith.new ≡ count_after (A.unfit_count arith.old) result }
        ensures work { A.work_count arith.new ≤ A.work_count arith.old + size self.old * size self.old }
    {
        ft_update::update(alloc, &mut self.etas, &mut self.upper, p, spike, arith)?;
        self.updates += 1;
        Ok(())
    }
}

// A column as a vector.
fn spread(column: &SparseCol<Frac>, v: &mut [Frac])
    requires { IsRising (length v.old) 0 column.now.pairs }
    ensures { v.new ≡ vector (length v.old) (entry column.now.pairs) }
{
    clear(v);
    for k in 0..column.count() {
        let (i, x) = column.pair(k);
        v[i] = x;
    }
}

// Copies a vector.
fn copy(from: &[Frac], to: &mut [Frac])
    requires { length from.now ≡ length to.old }
    ensures { to.new ≡ from.now }
{
    to.copy_from_slice(from);
}
