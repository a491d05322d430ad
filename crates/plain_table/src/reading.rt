//! What a table shows of its state: the prices of the rows, and a column in terms of the basis.
ghost use Rattle.std.specs.Prelude.{◌≡◌, ◌<◌, IfOk};
ghost use Rattle.lp_run.specs.Instance.{column_count};
ghost use Rattle.plain_table.specs.Next.{IsTableOf, column as column_of, prices as prices_of};

use crate::table::Table;
use exact_frac::Frac;
use instance_model::Instance;
use std::alloc::{AllocError, Global};

impl Table {
    /// The prices of the m rows at the table's state, in the sense that the method minimises: the reduced costs of the
    /// logicals, negated.
    ///
    /// # Errors
    ///
    /// `AllocError` for want of memory.
    pub fn prices(&self, alloc: Global, inst: &Instance) -> Result<Vec<Frac>, AllocError>
        requires { IsTableOf inst.now self.now }
        ensures { IfOk result (λ y. y.items ≡ prices_of inst.now self.now) }
    {
        let structurals = inst.structurals();
        let mut y = Vec::with_capacity(alloc, inst.rows())?;
        for row in 0..inst.rows() {
            y.push(self.cost(structurals + row).negated())?;
        }
        Ok(y)
    }

    /// A column in terms of the table's basis, by position: m numbers.
    ///
    /// # Errors
    ///
    /// `AllocError` for want of memory.
    pub fn column(
        &self,
        alloc: Global,
        inst: &Instance,
        column: usize,
    ) -> Result<Vec<Frac>, AllocError>
        requires table { IsTableOf inst.now self.now }
        requires column { column < column_count inst.now }
        ensures { IfOk result (λ alpha. alpha.items ≡ column_of inst.now self.now column) }
    {
        let mut alpha = Vec::with_capacity(alloc, inst.rows())?;
        for p in 0..inst.rows() {
            alpha.push(self.entry(p, column))?;
        }
        Ok(alpha)
    }
}
