// The totals of an answer, as CSV.

ghost use Rattle.std.specs.Prelude.{IfErr, IfOk};
ghost use Rattle.tq_totals.specs.Text.{IsTotalsText};
ghost use Rattle.tq_totals.specs.Totals.{HaveEnds, HaveNumbers, IsFault};

use crate::fault::TotalsFault;
use crate::group_totals::totals;
use crate::text::totals_text;
use std::alloc::Global;
use tq_table::Table;

/// The totals of the columns `summed` over time, as CSV in the format of answers: a header line with the names of the
/// columns `by` and `summed`, then a line for each group of rows with equal values in the columns `by`, in the order of
/// these values. A total is the sum, over all instants, of the column's numbers in the group's rows that are valid then.
/// `places` has the number of digits after the point of each column, 0 beyond its end: 1234 with two places is `12.34`.
/// Columns are numbered from 0; a column that does not exist has the number 0 in each row. Without columns `by` all rows
/// are one group. `OpenEnd` names the first row without an end, else `Text` the first row with a text, else `Overflow` a
/// summed column whose numbers are too large. `OutOfMemory` comes if an allocation failed.
pub fn totals_csv(
    alloc: Global,
    table: &Table<'_>,
    by: &[u32],
    summed: &[u32],
    places: &[u32],
) -> Result<Vec<u8>, TotalsFault>
    ensures text { IfOk result (λ text. IsTotalsText table.now.columns by.now summed.now places.now table.now.rows text.items) }
    ensures ends { IfOk result (λ _. HaveEnds table.now.rows) }
    ensures numbers { IfOk result (λ _. HaveNumbers summed.now table.now.rows) }
    ensures fault { IfErr result (IsFault by.now summed.now table.now.rows) }
{
    let totals = totals(alloc, table, by, summed)?;
    Ok(totals_text(alloc, table.columns.get(), by, summed, places, &totals)?)
}
