//! Rows with periods, in two lists.

ghost use Rattle.std.specs.Prelude.{◌≡◌, ◌<◌, ◌++◌, ◌∷◌, [], All, IfOk, OnOk, length, map};
ghost use Rattle.tq_base.specs.Relations.{row_period_of};
ghost use Rattle.tq_table.specs.Groups.{row_period_at};

use std::alloc::{AllocError, Global};
use std::marker::Model;
use tq_base::{Period, Relation, RowPeriod};

/// Rows with periods: the row numbers in one list, the periods in another. Contracts see the list of both.
#[derive(Drop, Debug)]
pub(crate) struct RowPeriodList {
    rows: Vec<u32>,
    periods: Vec<Period>,
}

impl Model for RowPeriodList {
    ghost use Rattle.std.specs.Prelude.{◌≡◌, List, length};
    ghost use Rattle.tq_base.specs.declared.relation.RowPeriod.{RowPeriod};
    ghost use Rattle.tq_table.specs.Groups.{row_periods_in};

    ghost Value = { List RowPeriod };

    ghost view = { λ l. row_periods_in l.rows.items l.periods.items };

    ghost invariant = { λ l. length l.rows.items ≡ length l.periods.items };
}

impl RowPeriodList {
    pub(crate) fn with_capacity(alloc: Global, lines: usize) -> Result<RowPeriodList, AllocError>
        ensures { IfOk result (λ list. list ≡ []) }
    {
        Ok(RowPeriodList {
            rows: Vec::with_capacity(alloc, lines)?,
            periods: Vec::with_capacity(alloc, lines)?,
        })
    }

    /// Appends the row with the period.
    pub(crate) fn push(&mut self, row: u32, period: Period) -> Result<(), AllocError>
        ensures { OnOk result (self.new ≡ self.old ++ row_period_at row period ∷ []) }
    {
        self.rows.reserve(1)?;
        self.periods.push(period)?;
        self.rows.push_reserved(row);
        Ok(())
    }

    /// The rows with these numbers, each valid in its period.
    pub(crate) fn take_rows_from<'a>(
        self,
        alloc: Global,
        rows: Relation<'a>,
    ) -> Result<Relation<'a>, AllocError>
        requires { All (λ (line : RowPeriod). line.row < length rows.items) self }
        ensures width { IfOk result (λ out. out.width ≡ rows.entry.width) }
        ensures rows { IfOk result (λ out. out.items ≡ map (row_period_of rows.entry.items) self) }
    {
        let RowPeriodList {
            rows: numbers,
            periods,
        } = self;
        rows.take_with_periods(alloc, &numbers, periods)
    }
}
