//! The rows of a table at the instants of a period, with borrowed values.

ghost use Rattle.std.specs.Prelude.{◌≤◌, All, IfOk, length};
ghost use Rattle.tq_base.specs.declared.fragment.Fragment.{Fragment};
ghost use Rattle.tq_store.specs.Valid.{AreValidIn, HasKeyIn};

use crate::db::Db;
use std::alloc::{AllocError, Global};
use tq_base::{KeyRange, Period, Relation};

impl Db {
    /// The rows of the table as of the first n events whose key lies in the range. At each instant of the period
    /// exactly these rows are valid; at other instants nothing is promised. Their values are borrowed. A table that
    /// does not exist has no rows. `AllocError` if an allocation failed.
    pub fn rows_in(
        &self,
        alloc: Global,
        n: u32,
        table: u32,
        range: &KeyRange,
        period: &Period,
    ) -> Result<Relation<'_>, AllocError>
        requires { n ≤ length self.now.events }
        ensures valid { IfOk result (λ rows. AreValidIn self.now.events n table range.now period.now rows.items) }
        ensures keys { IfOk result (λ rows. All (λ (row : Fragment). HasKeyIn range.now row.values) rows.items) }
    {
        let _count = self.count();
        let whole = self.window(n, table, range, period).whole();
        self.rows_of_part(alloc, n, table, range, period, &whole)
    }
}
