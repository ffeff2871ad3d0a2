//! The tables of a `Db` as of its first events.

ghost use Rattle.std.specs.Prelude.{◌≤◌, IfOk, length};
ghost use Rattle.tq_exec.specs.Answers.{as_of, IsPlanAnswer};
ghost use Rattle.tq_plan.specs.ValidPlans.{IsPlanOver};

use crate::counters::Counters;
use crate::execution::{answer_over, to_owned};
use crate::snapshot::Snapshot;
use std::alloc::{AllocError, Global};
use tq_base::{KeyRange, Period, Relation};
use tq_plan::Plan;
use tq_store::Db;
use tq_table::Table;

/// The tables of a `Db` as of its first `n` events. A table that does not exist has no rows. Only rows with keys of the
/// range are read, and their values are borrowed.
#[derive(Clone, Copy)]
pub(crate) struct AsOf<'a> {
    pub db: &'a Db,
    pub n: u32,
    ghost within: { n ≤ length db.now.events },
}

impl<'a> Snapshot<'a> for AsOf<'a> {
    ghost catalogue = { λ s. s.db.now.catalogue };

    ghost valid = { λ s. as_of s.db.now.events s.n };

    fn fit(&self) {
        let _count = self.db.count();
    }

    fn rows(
        &self,
        alloc: Global,
        table: u32,
        keys: &KeyRange,
        window: &Period,
    ) -> Result<Relation<'a>, AllocError> {
        self.db.rows_in(alloc, self.n, table, keys, window)
    }
}

/// The answer of a plan as of the first `n` events of the `Db`. Requires that the `Db` has that many events, and that `plan`
/// made the plan over its catalogue. `AllocError` if an allocation failed.
pub fn answer<'b>(alloc: Global, db: &Db, n: u32, plan: &Plan) -> Result<Table<'b>, AllocError>
    requires within { n ≤ length db.now.events }
    requires plan { IsPlanOver db.now.catalogue plan.now }
    ensures { IfOk result (λ table. IsPlanAnswer db.now.events n plan.now table) }
{
    let _count = db.count();
    let counters = Counters::new();
    let table = answer_over(alloc, &AsOf { db, n }, plan, &counters)?;
    to_owned(alloc, table)
}
